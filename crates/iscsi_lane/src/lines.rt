//! What tells which answer is due, beside the log.

ghost use Rattle.std.specs.Prelude.{◌≡◌, ◌+◌, ◌*◌, ◌≤◌, [], false, true, length, map, slice_set, vec_capacity, IfOk};
ghost use Rattle.iscsi_lists.specs.Lists.{first_of, times_in, with_last, without};
ghost use Rattle.iscsi_lines.specs.Settling.{IsLess};
ghost use Rattle.iscsi_outbox_state.specs.Lane.{as_cleared, owes, waits_for_clear};
ghost use Rattle.iscsi_slots.specs.Slots.{times};
ghost use Rattle.iscsi_lane.specs.Lining.{Enters, IsLined, IsNew, without_taken};
ghost use Rattle.iscsi_lane.specs.Scoping.{as_item, owing_of};
ghost use Rattle.iscsi_lane.specs.Standings.{at as stood_at, slots_at};
ghost use Rattle.iscsi_lane.specs.Walking.{IsFirstDue};

use crate::due::{add_if, examine, leave_due};
use crate::following::{enter, join, owe_less, part};
use crate::holding::{are_held, pass_command, pass_over};
use crate::stamps::stamp;
use crate::walking::{first_due, is_untold};
use iscsi_lists::Lists;
use iscsi_outbox_state::{Left, Standing, Undue};
use iscsi_scopes::Scopes;
use std::alloc::{AllocError, Global};

/// Lines by unit and by tag, and the slots of the answers that are due by them, in the order of the log.
///
/// They follow the log, whatever comes and goes. Of some answers they don't tell whether they are due: of a Logout's, which
/// stand in no line, and of those that close their connection. Such a one is held back by what held it back before, while that
/// does; then by what stands behind that. Where one isn't held back any more, `take` walks over the log.
pub(crate) struct Lines {
    pub(crate) units: Scopes,
    pub(crate) tags: Scopes,
    /// When each slot came to the log, and the number of what comes next.
    pub(crate) stamps: Vec<u64>,
    pub(crate) next: u64,
    pub(crate) due: Vec<u32>,
    /// The slots of the answers of which the lines don't tell, in the order of the log, and of each the slot of what held it
    /// back when it was looked at last, or of what is to be looked at next.
    pub(crate) untold: Vec<u32>,
    pub(crate) holders: Vec<u32>,
}

impl Drop for Lines {
    fn drop(self) {
        let Lines {
            units: _units,
            tags: _tags,
            stamps: _stamps,
            next: _next,
            due: _due,
            untold: _untold,
            holders: _holders,
        } = self;
    }
}

impl Lines {
    /// Lines in which nothing stands, with room for so many slots.
    pub(crate) fn with_room(alloc: Global, room: usize) -> Result<Lines, AllocError>
        requires { 3 * room + 3 ≤ 4294967295 }
        ensures { IfOk result (λ l. IsNew l room) }
    {
        Ok(Lines {
            units: Scopes::with_room(alloc, room)?,
            tags: Scopes::with_room(alloc, room)?,
            stamps: vec![in alloc; 0; room + 1]?,
            next: 0,
            due: Vec::with_capacity(alloc, room)?,
            untold: Vec::with_capacity(alloc, room)?,
            holders: vec![in alloc; 0; room + 1]?,
        })
    }

    /// A command comes to its two lines, before it comes to the log.
    pub(crate) fn enter(&mut self, log: &Lists<Standing>, left: Left)
        requires lined { IsLined self.old log.now }
        requires lists { length log.now.lists ≡ 3 }
        requires owes { owes left ≡ true }
        requires some { 1 ≤ left.command }
        requires within { left.command ≤ log.now.room }
        requires none { times left.command (slots_at log.now 2) ≡ 0 }
        ensures { Enters self.new log.now left.command (Standing.Left left) }
    {
        log.known();
        self.units.known();
        self.tags.known();
        self.next = stamp(log, &mut self.stamps, self.next, left.command);
        enter(log, &mut self.units, &mut self.tags, left);
    }

    /// An answer comes to a slot behind all that stands there, and to its line, if it has one.
    pub(crate) fn join(&mut self, log: &mut Lists<Standing>, slot: u32, answer: Undue)
        requires lined { IsLined self.old log.old }
        requires lists { length log.old.lists ≡ 3 }
        requires there { 1 ≤ times_in slot log.old.lists }
        requires some { 1 ≤ slot }
        requires within { slot ≤ log.old.room }
        requires none { times slot (slots_at log.old 2) ≡ 0 }
        ensures log { log.new ≡ record log.old {
          lists = with_last 2 slot (map (without slot) log.old.lists);
          values = slice_set log.old.values slot (Standing.Undue answer);
        } }
        ensures lined { IsLined self.new log.new }
    {
        log.known();
        self.next = stamp(log, &mut self.stamps, self.next, slot);
        join(
            log,
            &mut self.units,
            &mut self.tags,
            &self.stamps,
            &mut self.due,
            slot,
            answer,
        );
        log.known();
        self.holders[slot as usize] = 0;
        add_if(&mut self.untold, slot, is_untold(answer));
    }

    /// A command owes less, there and in its two lines: how many go.
    pub(crate) fn owe_less(&mut self, log: &mut Lists<Standing>, before: Left, left: Left) -> usize
        requires lined { IsLined self.old log.old }
        requires lists { length log.old.lists ≡ 3 }
        requires there { 1 ≤ times left.command (slots_at log.old 2) }
        requires is { stood_at log.old.values left.command ≡ Standing.Left before }
        requires unit { left.unit ≡ before.unit }
        requires tag { left.tag ≡ before.tag }
        requires less { IsLess (as_item (Standing.Left before)) (owing_of left) }
        ensures kept { owes left ≡ true → (result ≡ 0) × (log.new ≡
            record log.old { values = slice_set log.old.values left.command (Standing.Left left) }) }
        ensures gone { owes left ≡ false → (result ≡ 1) × (log.new ≡
            record log.old { lists = with_last 0 left.command (map (without left.command) log.old.lists) }) }
        ensures lined { IsLined self.new log.new }
    {
        log.known();
        pass_command(log, &self.untold, &mut self.holders, left);
        owe_less(
            log,
            &mut self.units,
            &mut self.tags,
            &self.stamps,
            &mut self.due,
            before,
            left,
        )
    }

    /// The answer that is due first goes, with its slot.
    pub(crate) fn take(&mut self, log: &mut Lists<Standing>) -> Option<(u32, Undue)>
        requires lined { IsLined self.old log.old }
        requires lists { length log.old.lists ≡ 3 }
        requires all { log.old.free ≡ [] }
        ensures first { IsFirstDue log.old result }
        ensures log { log.new ≡ without_taken result log.old }
        ensures lined { IsLined self.new log.new }
    {
        let (slot, answer) = self.find_due(log)?;
        self.part(log, slot, answer);
        Some((slot, answer))
    }

    /// The answer that is due first, and its slot: the first of those that the lines tell. Where an answer isn't held back of
    /// which they don't tell, it walks over the log to that which is due, and for each such answer over what stands before it.
    fn find_due(&mut self, log: &Lists<Standing>) -> Option<(u32, Undue)>
        requires lined { IsLined self.old log.now }
        requires lists { length log.now.lists ≡ 3 }
        requires all { log.now.free ≡ [] }
        ensures first { IsFirstDue log.now result }
        ensures lined { IsLined self.new log.now }
    {
        log.known();
        if !are_held(log, &self.stamps, &self.untold, &mut self.holders) {
            return first_due(log, &self.stamps, &self.due);
        }
        let slot = first_told(&self.due)?;
        let Standing::Undue(answer) = *log.at(slot) else {
            return None;
        };
        Some((slot, answer))
    }

    /// An answer goes, from the log and from its line. What was behind it in its line may be due then.
    pub(crate) fn part(&mut self, log: &mut Lists<Standing>, slot: u32, answer: Undue)
        requires lined { IsLined self.old log.old }
        requires there { 1 ≤ times slot (slots_at log.old 2) }
        requires is { stood_at log.old.values slot ≡ Standing.Undue answer }
        requires lists { length log.old.lists ≡ 3 }
        ensures log { log.new ≡ record log.old { lists = with_last 1 slot (map (without slot) log.old.lists) } }
        ensures lined { IsLined self.new log.new }
    {
        log.known();
        pass_over(log, &self.untold, &mut self.holders, slot);
        leave_due(&self.stamps, &mut self.untold, slot);
        part(
            log,
            &mut self.units,
            &mut self.tags,
            &self.stamps,
            &mut self.due,
            slot,
            answer,
        );
    }

    /// An answer about a unit waits for other sessions no more. So it may be due.
    pub(crate) fn clear(&mut self, log: &mut Lists<Standing>, slot: u32, unit: u16, answer: Undue)
        requires lined { IsLined self.old log.old }
        requires there { 1 ≤ times slot (slots_at log.old 2) }
        requires is { stood_at log.old.values slot ≡ Standing.Undue answer }
        requires waits { waits_for_clear unit answer ≡ true }
        ensures log { log.new ≡
            record log.old { values = slice_set log.old.values slot (Standing.Undue (as_cleared answer)) } }
        ensures lined { IsLined self.new log.new }
    {
        log.known();
        log.set(
            slot,
            Standing::Undue(Undue {
                uncleared: false,
                ..answer
            }),
        );
        log.known();
        examine(
            log,
            &self.units,
            u32::from(unit),
            &self.stamps,
            &mut self.due,
        );
    }
}

/// The first of those that are told to be due.
fn first_told(due: &[u32]) -> Option<u32>
    ensures { result ≡ first_of due.now }
{
    due.first().copied()
}
