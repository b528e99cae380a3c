//! Where a command of the lane stands, and how it owes less.

ghost use Rattle.std.specs.Prelude.{◌≡◌, ◌≤◌, false, true, if◌then◌else◌, length, map, slice_set};
ghost use Rattle.iscsi_lists.specs.Lists.{times_in, with_last, without};
ghost use Rattle.iscsi_outbox_state.specs.Lane.{owes};
ghost use Rattle.iscsi_slots.specs.Slots.{times};
ghost use Rattle.iscsi_lines.specs.Settling.{IsLess};
ghost use Rattle.iscsi_scopes.specs.Scopes.{item_of, left, scoped, slots_of};
ghost use Rattle.iscsi_lane.specs.Standings.{AreStanding, Found};
ghost use Rattle.iscsi_lane.specs.Scoping.{as_item, owing_of};

use iscsi_lines::Owing;
use iscsi_lists::Lists;
use iscsi_outbox_state::{Left, Standing};
use iscsi_scopes::Scopes;

/// The list of the places of commands that don't stand in the lane.
pub(crate) const AWAY: usize = 0;

/// The list of the slots of answers that don't.
pub(crate) const FREE: usize = 1;

/// The list of all that stands in the lane, in the order of the log.
pub(crate) const LOG: usize = 2;

/// The command at a place, if it stands in the lane.
pub(crate) fn find(log: &Lists<Standing>, commands: usize, command: u32) -> Option<Left>
    requires { AreStanding log.now commands }
    ensures { Found log.now command result }
{
    log.known();
    if command < 1 {
        return None;
    }
    if commands < command as usize {
        return None;
    }
    if log.list_of(command) != LOG {
        return None;
    }
    match *log.at(command) {
        Standing::Left(left) => Some(left),
        Standing::Undue(_) => None,
    }
}

/// How many a thing counts that may be there.
#[inline(always)]
pub(crate) fn one_if(there: bool) -> usize
    ensures { result ≡ (if there then 1 else 0) }
{
    if there { 1 } else { 0 }
}

/// A command that stands in the lane owes less: how many go.
pub(crate) fn lessen(log: &mut Lists<Standing>, left: Left) -> usize
    requires there { 1 ≤ times_in left.command log.old.lists }
    requires within { left.command ≤ log.old.room }
    requires lists { length log.old.lists ≡ 3 }
    ensures kept { owes left ≡ true → (result ≡ 0) × (log.new ≡
        record log.old { values = slice_set log.old.values left.command (Standing.Left left) }) }
    ensures gone { owes left ≡ false → (result ≡ 1) × (log.new ≡
        record log.old { lists = with_last 0 left.command (map (without left.command) log.old.lists) }) }
{
    if left.running || left.under_way {
        log.set(left.command, Standing::Left(left));
        return 0;
    }
    log.move_to_back(left.command, AWAY);
    1
}

/// A command of the line of a key owes less there, or leaves it.
pub(crate) fn follow(scopes: &mut Scopes, key: u32, command: Left)
    requires there { 1 ≤ times command.command (slots_of key scopes.old.lines) }
    requires less { IsLess (item_of scopes.old command.command) (owing_of command) }
    ensures kept { owes command ≡ true → scopes.new ≡ scoped scopes.old.lines
        (slice_set scopes.old.items command.command (as_item (Standing.Left command))) scopes.old.room }
    ensures gone { owes command ≡ false → scopes.new ≡
        scoped (left key command.command scopes.old.lines) scopes.old.items scopes.old.room }
{
    let slot = command.command;
    if command.running || command.under_way {
        let owing = Owing {
            conn: command.conn,
            running: command.running,
            under_way: command.under_way,
        };
        scopes.owe(key, slot, owing);
    } else {
        scopes.take_out(key, slot);
    }
}
