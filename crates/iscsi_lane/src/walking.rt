//! What a walk over the log finds: the answer that is due first, and the first that waits for other sessions.

ghost use Rattle.std.specs.Prelude.{◌≡◌, ℕ, ◌+◌, ◌<◌, ◌≤◌, ◌&&◌, ◌==◌, not, length, slice_index_or};
ghost use Rattle.iscsi_slots.specs.Slots.{times};
ghost use Rattle.iscsi_outbox_state.specs.Lane.{aims_at as does_aim_at, holds_back as does_hold_back, is_due as is_due_behind, is_of_logout as is_of_a_logout, is_same_aim as is_one_aim};
ghost use Rattle.iscsi_slots.specs.Places.{AreAscending};
ghost use Rattle.iscsi_lane.specs.Scoping.{is_untold as is_not_told};
ghost use Rattle.iscsi_lane.specs.Standings.{at, slots_at, standings};
ghost use Rattle.iscsi_lane.specs.Times.{time_of};
ghost use Rattle.iscsi_lane.specs.Walking.{AreTold, IsFirst, IsFirstDue, before_slot, is_uncleared_of};

use crate::due::is_among;
use crate::settling::LOG;
use iscsi_lists::Lists;
use iscsi_outbox_state::{Aim, Left, Standing, Undue};

/// The answer that is due first, and its slot. It looks at each answer, and at what stands before those of which the lines
/// don't tell.
pub(crate) fn first_due(log: &Lists<Standing>, stamps: &[u64], due: &[u32]) -> Option<(u32, Undue)>
    requires lists { length log.now.lists ≡ 3 }
    requires told { AreTold log.now due.now }
    requires long { length stamps.now ≡ log.now.room + 1 }
    requires within { (j : ℕ) → j < length due.now → slice_index_or due.now j 0 < length stamps.now }
    requires up { AreAscending (time_of stamps.now) due.now }
    ensures { IsFirstDue log.now result }
{
    log.known();
    let mut at = log.first(LOG);
    while let Some(slot) = at {
        if let Standing::Undue(answer) = *log.at(slot) {
            if is_due(log, stamps, due, slot, answer) {
                return Some((slot, answer));
            }
        }
        at = log.next(slot);
    }
    None
}

/// The first answer about a unit that waits for other sessions, and its slot.
pub(crate) fn first_uncleared(log: &Lists<Standing>, unit: u16) -> Option<(u32, Undue)>
    requires { length log.now.lists ≡ 3 }
    ensures { IsFirst (is_uncleared_of unit) log.now result }
{
    log.known();
    let mut at = log.first(LOG);
    while let Some(slot) = at {
        if let Standing::Undue(answer) = *log.at(slot) {
            if is_uncleared(answer, unit) {
                return Some((slot, answer));
            }
        }
        at = log.next(slot);
    }
    None
}

/// Whether an answer waits for other sessions, and is about a unit.
fn is_uncleared(answer: Undue, unit: u16) -> bool
    ensures { result ≡ is_uncleared_of unit (Standing.Undue answer) }
{
    answer.uncleared && is_about(answer.aim, unit)
}

/// Whether an aim is a unit.
fn is_about(aim: Aim, unit: u16) -> bool
    ensures { result ≡ is_one_aim (Aim.Unit unit) aim }
{
    match aim {
        Aim::Unit(u) => u == unit,
        Aim::Tag(_) | Aim::Conn(_) | Aim::Session | Aim::Nothing => false,
    }
}

/// Whether the answer in a slot is due: by the lines, where they tell of it, and else by all that stands before it.
fn is_due(log: &Lists<Standing>, stamps: &[u64], due: &[u32], slot: u32, answer: Undue) -> bool
    requires lists { length log.now.lists ≡ 3 }
    requires there { 1 ≤ times slot (slots_at log.now 2) }
    requires is { at log.now.values slot ≡ Standing.Undue answer }
    requires told { AreTold log.now due.now }
    requires long { length stamps.now ≡ log.now.room + 1 }
    requires within { (j : ℕ) → j < length due.now → slice_index_or due.now j 0 < length stamps.now }
    requires up { AreAscending (time_of stamps.now) due.now }
    ensures { result ≡ is_due_behind (standings log.now.values (before_slot slot (slots_at log.now 2))) answer }
{
    log.known();
    if is_untold(answer) {
        return is_due_by_walk(log, slot, answer);
    }
    is_among(stamps, due, slot)
}

/// Whether the answer in a slot is due, by all that stands before it.
fn is_due_by_walk(log: &Lists<Standing>, slot: u32, answer: Undue) -> bool
    requires lists { length log.now.lists ≡ 3 }
    requires there { 1 ≤ times slot (slots_at log.now 2) }
    ensures { result ≡ is_due_behind (standings log.now.values (before_slot slot (slots_at log.now 2))) answer }
{
    if answer.uncleared {
        return false;
    }
    log.known();
    let mut at = log.first(LOG);
    while let Some(before) = at {
        if before == slot {
            return true;
        }
        if holds_back(answer, *log.at(before)) {
            return false;
        }
        at = log.next(before);
    }
    true
}

/// Whether what stands before an answer holds it back.
pub(crate) fn holds_back(answer: Undue, before: Standing) -> bool
    ensures { result ≡ does_hold_back answer before }
{
    match before {
        Standing::Left(left) => {
            aims_at(answer.aim, left) && (left.running || is_out_elsewhere(answer, left))
        }
        Standing::Undue(other) => {
            is_same_aim(answer.aim, other.aim) || (answer.ends && other.conn == answer.conn)
        }
    }
}

/// Whether an abort waits for what a command has under way on another connection.
fn is_out_elsewhere(answer: Undue, left: Left) -> bool
    ensures { result ≡ (not (is_of_a_logout answer.aim) && (left.under_way && not (left.conn == answer.conn))) }
{
    !is_of_logout(answer.aim) && (left.under_way && left.conn != answer.conn)
}

/// Whether an abort or Logout aims at a command.
fn aims_at(aim: Aim, left: Left) -> bool
    ensures { result ≡ does_aim_at aim left }
{
    match aim {
        Aim::Tag(tag) => left.tag == tag,
        Aim::Unit(unit) => left.unit == unit,
        Aim::Conn(conn) => left.conn == conn,
        Aim::Session => true,
        Aim::Nothing => false,
    }
}

/// Whether the lines don't tell of an answer: it is a Logout's, or closes its connection.
pub(crate) fn is_untold(answer: Undue) -> bool
    ensures { result ≡ is_not_told (Standing.Undue answer) }
{
    is_of_logout(answer.aim) || answer.ends
}

/// Whether an aim is that of a Logout.
pub(crate) fn is_of_logout(aim: Aim) -> bool
    ensures { result ≡ is_of_a_logout aim }
{
    match aim {
        Aim::Tag(_) | Aim::Unit(_) => false,
        Aim::Conn(_) | Aim::Session | Aim::Nothing => true,
    }
}

/// Whether answers of two aims go out in their order.
fn is_same_aim(aim: Aim, other: Aim) -> bool
    ensures { result ≡ is_one_aim aim other }
{
    match (aim, other) {
        (Aim::Tag(tag), Aim::Tag(t)) => t == tag,
        (Aim::Unit(unit), Aim::Unit(u)) => u == unit,
        _ => false,
    }
}
