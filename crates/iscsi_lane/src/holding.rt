//! What holds back the answers of which the lines don't tell.

ghost use Rattle.std.specs.Prelude.{◌≡◌, ℕ, ◌+◌, ◌==◌, ◌<◌, ◌≤◌, [], false, true, Some, length};
ghost use Rattle.std.specs.List.{list_any};
ghost use Rattle.iscsi_slots.specs.Slots.{times};
ghost use Rattle.iscsi_outbox_state.specs.Lane.{holds_back as does_hold_back};
ghost use Rattle.iscsi_lane.specs.Hints.{AreHints, IsHint, IsNoted, Passes, hint_at, passed};
ghost use Rattle.iscsi_lane.specs.Standings.{at as stood_at, slots_at, standings};
ghost use Rattle.iscsi_lane.specs.Times.{IsUp, time_of};
ghost use Rattle.iscsi_lane.specs.Walking.{IsHeldAt, before_slot};

use crate::settling::LOG;
use crate::walking::{holds_back, is_of_logout};
use iscsi_lists::Lists;
use iscsi_outbox_state::{Left, Standing, Undue};

/// Whether each of some answers is a Logout's that is known to be held back, by what held it back before or stands behind
/// that.
pub(crate) fn are_held(
    log: &Lists<Standing>,
    stamps: &[u64],
    untold: &[u32],
    holders: &mut Vec<u32>,
) -> bool
    requires lists { length log.now.lists ≡ 3 }
    requires all { log.now.free ≡ [] }
    requires there { (t : ℕ) → 1 ≤ times t untold.now → 1 ≤ times t (slots_at log.now 2) }
    requires up { IsUp stamps.now (slots_at log.now 2) }
    requires long { length stamps.now ≡ log.now.room + 1 }
    requires holders { length holders.old.items ≡ log.now.room + 1 }
    requires hints { AreHints (slots_at log.now 2) holders.old.items untold.now }
    ensures held { result ≡ true → (t : ℕ) → 1 ≤ times t untold.now → IsHeldAt log.now t }
    ensures noted { result ≡ true → (t : ℕ) → 1 ≤ times t untold.now → IsNoted log.now holders.new.items t }
    ensures holders { length holders.new.items ≡ log.now.room + 1 }
    ensures hints { AreHints (slots_at log.now 2) holders.new.items untold.now }
{
    log.known();
    let mut k = 0;
    while k < untold.len() {
        if !is_held(log, stamps, holders, untold[k]) {
            return false;
        }
        k += 1;
    }
    true
}

/// Whether an answer is a Logout's that is known to be held back.
fn is_held(log: &Lists<Standing>, stamps: &[u64], holders: &mut Vec<u32>, slot: u32) -> bool
    requires lists { length log.now.lists ≡ 3 }
    requires all { log.now.free ≡ [] }
    requires there { 1 ≤ times slot (slots_at log.now 2) }
    requires up { IsUp stamps.now (slots_at log.now 2) }
    requires long { length stamps.now ≡ log.now.room + 1 }
    requires holders { length holders.old.items ≡ log.now.room + 1 }
    ensures held { result ≡ true → IsHeldAt log.now slot }
    ensures noted { result ≡ true → IsNoted log.now holders.new.items slot }
    ensures holders { length holders.new.items ≡ log.now.room + 1 }
    ensures hint { IsHint (slots_at log.now 2) (hint_at holders.old.items slot) →
        IsHint (slots_at log.now 2) (hint_at holders.new.items slot) }
    ensures others { (t : ℕ) → (t == slot) ≡ false → hint_at holders.new.items t ≡ hint_at holders.old.items t }
{
    log.known();
    let Standing::Undue(answer) = *log.at(slot) else {
        return true;
    };
    if !is_of_logout(answer.aim) {
        return false;
    }
    let before = holders[slot as usize];
    if holds(log, stamps, slot, answer, before) {
        return true;
    }
    let from = if stands_before(log, stamps, slot, before) {
        Some(before)
    } else {
        log.first(LOG)
    };
    let Some(holder) = next_holder(log, from, slot, answer) else {
        return false;
    };
    holders[slot as usize] = holder;
    holds(log, stamps, slot, answer, holder)
}

/// Whether what stands in a slot stands before an answer, and holds it back.
fn holds(log: &Lists<Standing>, stamps: &[u64], slot: u32, answer: Undue, before: u32) -> bool
    requires lists { length log.now.lists ≡ 3 }
    requires all { log.now.free ≡ [] }
    requires there { 1 ≤ times slot (slots_at log.now 2) }
    requires up { IsUp stamps.now (slots_at log.now 2) }
    requires long { length stamps.now ≡ log.now.room + 1 }
    ensures held { result ≡ true → list_any (does_hold_back answer)
        (standings log.now.values (before_slot slot (slots_at log.now 2))) ≡ true }
    ensures there { result ≡ true → 1 ≤ times before (slots_at log.now 2) }
    ensures holds { result ≡ true → does_hold_back answer (stood_at log.now.values before) ≡ true }
{
    log.known();
    stands_before(log, stamps, slot, before) && holds_back(answer, *log.at(before))
}

/// Whether a slot stands in the log, and before another one.
fn stands_before(log: &Lists<Standing>, stamps: &[u64], slot: u32, before: u32) -> bool
    requires lists { length log.now.lists ≡ 3 }
    requires all { log.now.free ≡ [] }
    requires there { 1 ≤ times slot (slots_at log.now 2) }
    requires long { length stamps.now ≡ log.now.room + 1 }
    ensures there { result ≡ true → 1 ≤ times before (slots_at log.now 2) }
    ensures before { result ≡ true → time_of stamps.now before < time_of stamps.now slot }
{
    log.known();
    if before < 1 {
        return false;
    }
    if stamps.len() <= before as usize {
        return false;
    }
    if log.list_of(before) != LOG {
        return false;
    }
    stamps[before as usize] < stamps[slot as usize]
}

/// The first of what stands from a slot on, and before an answer, that holds this back.
fn next_holder(log: &Lists<Standing>, from: Option<u32>, slot: u32, answer: Undue) -> Option<u32>
    requires lists { length log.now.lists ≡ 3 }
    requires there { (s : ℕ) → from ≡ Some s → 1 ≤ times s (slots_at log.now 2) }
    ensures { (s : ℕ) → result ≡ Some s → 1 ≤ times s (slots_at log.now 2) }
{
    log.known();
    let mut at = from;
    while let Some(before) = at {
        if before == slot {
            return None;
        }
        if holds_back(answer, *log.at(before)) {
            return Some(before);
        }
        at = log.next(before);
    }
    None
}

/// A command owes less: what it held back is to be looked at from behind it, if it doesn't run any more.
pub(crate) fn pass_command(
    log: &Lists<Standing>,
    untold: &[u32],
    holders: &mut Vec<u32>,
    command: Left,
)
    requires lists { length log.now.lists ≡ 3 }
    requires there { (t : ℕ) → 1 ≤ times t untold.now → 1 ≤ times t (slots_at log.now 2) }
    requires slot { 1 ≤ times command.command (slots_at log.now 2) }
    requires holders { length holders.old.items ≡ log.now.room + 1 }
    ensures holders { length holders.new.items ≡ log.now.room + 1 }
    ensures runs { command.running ≡ true → holders.new.items ≡ holders.old.items }
    ensures passes { command.running ≡ false →
        Passes command.command (slots_at log.now 2) untold.now holders.old.items holders.new.items }
{
    if command.running {
        return;
    }
    pass_over(log, untold, holders, command.command);
}

/// What a slot held back is to be looked at from behind it, as it goes or holds nothing back any more.
pub(crate) fn pass_over(log: &Lists<Standing>, untold: &[u32], holders: &mut Vec<u32>, slot: u32)
    requires lists { length log.now.lists ≡ 3 }
    requires there { (t : ℕ) → 1 ≤ times t untold.now → 1 ≤ times t (slots_at log.now 2) }
    requires slot { 1 ≤ times slot (slots_at log.now 2) }
    requires holders { length holders.old.items ≡ log.now.room + 1 }
    ensures holders { length holders.new.items ≡ log.now.room + 1 }
    ensures passes { Passes slot (slots_at log.now 2) untold.now holders.old.items holders.new.items }
{
    log.known();
    let mut k = 0;
    while k < untold.len() {
        pass_one(log, holders, untold[k], slot);
        k += 1;
    }
}

/// The hint of an answer goes on to what stands behind a slot, if it was that slot.
#[inline(always)]
fn pass_one(log: &Lists<Standing>, holders: &mut Vec<u32>, waiting: u32, slot: u32)
    requires waiting { waiting < length holders.old.items }
    requires lists { length log.now.lists ≡ 3 }
    requires slot { 1 ≤ times slot (slots_at log.now 2) }
    ensures holders { length holders.new.items ≡ length holders.old.items }
    ensures here { hint_at holders.new.items waiting ≡
        passed slot (slots_at log.now 2) (hint_at holders.old.items waiting) }
    ensures others { (t : ℕ) → (t == waiting) ≡ false → hint_at holders.new.items t ≡ hint_at holders.old.items t }
{
    log.known();
    if holders[waiting as usize] == slot {
        holders[waiting as usize] = log.next(slot).unwrap_or(0);
    }
}
