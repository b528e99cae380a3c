//! How the lines by key, and the answers that are due, follow the log.

ghost use Rattle.std.specs.Prelude.{◌≡◌, ◌+◌, ◌≤◌, ◌++◌, ◌∷◌, [], false, true, length, map, slice_set, vec_capacity};
ghost use Rattle.iscsi_lines.specs.Settling.{IsLess};
ghost use Rattle.iscsi_outbox_state.specs.Lane.{owes};
ghost use Rattle.iscsi_lists.specs.Lists.{times_in, with_last, without};
ghost use Rattle.iscsi_slots.specs.Slots.{times};
ghost use Rattle.iscsi_scopes.specs.Scopes.{entered, scoped};
ghost use Rattle.iscsi_lane.specs.Following.{FollowsLog};
ghost use Rattle.iscsi_lane.specs.Scoping.{Mirrors, as_item, owing_of};
ghost use Rattle.iscsi_lane.specs.Standings.{at, slots_at};
ghost use Rattle.iscsi_lane.specs.Times.{IsUp};

use crate::due::{examine, leave_due};
use crate::settling::{FREE, LOG, follow, lessen};
use iscsi_lines::{Item, Owing};
use iscsi_lists::Lists;
use iscsi_outbox_state::{Aim, Left, Standing, Undue};
use iscsi_scopes::Scopes;

/// A command comes to its two lines, before it comes to the log.
pub(crate) fn enter(log: &Lists<Standing>, units: &mut Scopes, tags: &mut Scopes, left: Left)
    requires of_units { Mirrors Aim.Unit units.old log.now.values (slots_at log.now 2) }
    requires of_tags { Mirrors Aim.Tag tags.old log.now.values (slots_at log.now 2) }
    requires units_room { units.old.room ≡ log.now.room }
    requires tags_room { tags.old.room ≡ log.now.room }
    requires owes { owes left ≡ true }
    requires some { 1 ≤ left.command }
    requires within { left.command ≤ log.now.room }
    requires none { times left.command (slots_at log.now 2) ≡ 0 }
    ensures units { units.new ≡ scoped (entered left.unit left.command units.old.lines)
        (slice_set units.old.items left.command (as_item (Standing.Left left))) units.old.room }
    ensures tags { tags.new ≡ scoped (entered left.tag left.command tags.old.lines)
        (slice_set tags.old.items left.command (as_item (Standing.Left left))) tags.old.room }
{
    units.known();
    tags.known();
    let item = Item::Command(Owing {
        conn: left.conn,
        running: left.running,
        under_way: left.under_way,
    });
    units.push(u32::from(left.unit), left.command, item);
    tags.push(left.tag, left.command, item);
}

/// An answer comes to a slot behind all that stands there, and into its line, if it has one.
pub(crate) fn join(
    log: &mut Lists<Standing>,
    units: &mut Scopes,
    tags: &mut Scopes,
    stamps: &[u64],
    due: &mut Vec<u32>,
    slot: u32,
    answer: Undue,
)
    requires follows { FollowsLog log.old units.old tags.old due.old.items (vec_capacity due.old) }
    requires lists { length log.old.lists ≡ 3 }
    requires there { 1 ≤ times_in slot log.old.lists }
    requires some { 1 ≤ slot }
    requires within { slot ≤ log.old.room }
    requires none { times slot (slots_at log.old 2) ≡ 0 }
    requires up { IsUp stamps.now (slots_at log.old 2 ++ slot ∷ []) }
    requires long { length stamps.now ≡ log.old.room + 1 }
    ensures log { log.new ≡ record log.old {
      lists = with_last 2 slot (map (without slot) log.old.lists);
      values = slice_set log.old.values slot (Standing.Undue answer);
    } }
    ensures follows { FollowsLog log.new units.new tags.new due.new.items (vec_capacity due.new) }
{
    log.known();
    units.known();
    tags.known();
    log.move_to_back(slot, LOG);
    log.set(slot, Standing::Undue(answer));
    log.known();
    let item = Item::Answer(answer.conn);
    match answer.aim {
        Aim::Unit(unit) => {
            let key = u32::from(unit);
            units.push(key, slot, item);
            examine(log, units, key, stamps, due);
        }
        Aim::Tag(tag) => {
            tags.push(tag, slot, item);
            examine(log, tags, tag, stamps, due);
        }
        Aim::Conn(_) | Aim::Session | Aim::Nothing => {}
    }
}

/// A command owes less, there and in its two lines: how many go.
pub(crate) fn owe_less(
    log: &mut Lists<Standing>,
    units: &mut Scopes,
    tags: &mut Scopes,
    stamps: &[u64],
    due: &mut Vec<u32>,
    before: Left,
    left: Left,
) -> usize
    requires follows { FollowsLog log.old units.old tags.old due.old.items (vec_capacity due.old) }
    requires lists { length log.old.lists ≡ 3 }
    requires there { 1 ≤ times left.command (slots_at log.old 2) }
    requires is { at log.old.values left.command ≡ Standing.Left before }
    requires unit { left.unit ≡ before.unit }
    requires tag { left.tag ≡ before.tag }
    requires less { IsLess (as_item (Standing.Left before)) (owing_of left) }
    requires up { IsUp stamps.now (slots_at log.old 2) }
    requires long { length stamps.now ≡ log.old.room + 1 }
    ensures kept { owes left ≡ true → (result ≡ 0) × (log.new ≡
        record log.old { values = slice_set log.old.values left.command (Standing.Left left) }) }
    ensures gone { owes left ≡ false → (result ≡ 1) × (log.new ≡
        record log.old { lists = with_last 0 left.command (map (without left.command) log.old.lists) }) }
    ensures follows { FollowsLog log.new units.new tags.new due.new.items (vec_capacity due.new) }
{
    log.known();
    units.known();
    tags.known();
    let gone = lessen(log, left);
    log.known();
    let unit = u32::from(left.unit);
    follow(units, unit, left);
    follow(tags, left.tag, left);
    examine(log, units, unit, stamps, due);
    examine(log, tags, left.tag, stamps, due);
    gone
}

/// An answer goes: from the log, from its line, if it has one, and from those that are due. What was behind it in its line may
/// be due then.
pub(crate) fn part(
    log: &mut Lists<Standing>,
    units: &mut Scopes,
    tags: &mut Scopes,
    stamps: &[u64],
    due: &mut Vec<u32>,
    slot: u32,
    answer: Undue,
)
    requires follows { FollowsLog log.old units.old tags.old due.old.items (vec_capacity due.old) }
    requires lists { length log.old.lists ≡ 3 }
    requires there { 1 ≤ times slot (slots_at log.old 2) }
    requires is { at log.old.values slot ≡ Standing.Undue answer }
    requires up { IsUp stamps.now (slots_at log.old 2) }
    requires long { length stamps.now ≡ log.old.room + 1 }
    ensures log { log.new ≡ record log.old { lists = with_last 1 slot (map (without slot) log.old.lists) } }
    ensures follows { FollowsLog log.new units.new tags.new due.new.items (vec_capacity due.new) }
{
    log.known();
    units.known();
    tags.known();
    leave_due(stamps, due, slot);
    log.move_to_back(slot, FREE);
    log.known();
    match answer.aim {
        Aim::Unit(unit) => {
            let key = u32::from(unit);
            units.take_out(key, slot);
            examine(log, units, key, stamps, due);
        }
        Aim::Tag(tag) => {
            tags.take_out(tag, slot);
            examine(log, tags, tag, stamps, due);
        }
        Aim::Conn(_) | Aim::Session | Aim::Nothing => {}
    }
}
