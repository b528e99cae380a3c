//! Lines over slots that the caller gives.

ghost use Rattle.std.specs.Prelude.{◌≡◌, ℕ, ◌+◌, ◌<◌, ◌≤◌, [], not, true, length, IfOk};
ghost use Rattle.std.specs.List.{list_any};
ghost use Rattle.iscsi_slots.specs.Slots.{times};
ghost use Rattle.iscsi_lines.specs.Lines.{due_in, holds_back, item_at, line_at, owes};
ghost use Rattle.iscsi_lines.specs.Settling.{IsLess, items_at, may_stand};
ghost use Rattle.iscsi_scopes.specs.SlotLines.{AreEmpty, AreInLines, Enters, Leaves, Lessens, outside_at};

use crate::settling::settle;
use iscsi_lines::{Item, Owing};
use iscsi_lists::Lists;
use std::alloc::{AllocError, Global};
use std::marker::Model;

/// Lines over slots that the caller gives: a slot stands in one of them at most.
///
/// A line is two lists. Of the commands in the first none runs, and all have something under way on one connection.
/// Behind them stand those of the second, with the answers. So the first answer is due where it is the first of the
/// second list, and nothing is ahead or all of that is of its connection. A command comes ahead once at most.
pub(crate) struct SlotLines {
    /// Two lists for each line, and behind them that of the slots that stand in none.
    lists: Lists<Item>,
    /// For each line the connection of the commands in its first list.
    conns: Vec<u16>,
}

impl Drop for SlotLines {
    fn drop(self) {
        let SlotLines {
            lists: _lists,
            conns: _conns,
        } = self;
    }
}

impl Model for SlotLines {
    ghost use Rattle.iscsi_lines.specs.Lines.{Lined};
    ghost use Rattle.iscsi_scopes.specs.SlotLines.{AreScoped, lined};

    ghost Value = { Lined };

    ghost view = { λ s. lined s.conns.items s.lists };

    ghost invariant = { λ s. AreScoped s.conns.items s.lists };
}

impl SlotLines {
    /// So many empty lines, over slots from 1 up to a room. It takes all its memory here.
    pub(crate) fn with_room(
        alloc: Global,
        lines: usize,
        room: usize,
    ) -> Result<SlotLines, AllocError>
        requires { room + lines + lines + 3 ≤ 4294967295 }
        ensures { IfOk result (λ s. AreEmpty s lines room) }
    {
        let outside = lines + lines;
        let mut lists = Lists::with_room(alloc, outside + 1, room, Item::Answer(0))?;
        for _ in 0..room {
            lists.known();
            lists.push_back(outside, Item::Answer(0));
        }
        Ok(SlotLines {
            lists,
            conns: vec![in alloc; 0; lines]?,
        })
    }

    /// What holds of all lines: a slot stands in one at most, and there once. It does nothing.
    #[inline(always)]
    pub(crate) fn known(&self)
        ensures lines { AreInLines self.now }
        ensures short { self.now.slots.room + self.now.count + self.now.count + 3 ≤ 4294967295 }
    {
        self.lists.known();
        let _conns = &self.conns;
    }

    /// Puts a slot behind all that stands in a line.
    pub(crate) fn push(&mut self, line: usize, slot: u32, item: Item)
        requires line { line < self.old.count }
        requires low { 1 ≤ slot }
        requires high { slot ≤ self.old.slots.room }
        requires none { (k : ℕ) → k < self.old.count → times slot (line_at self.old k) ≡ 0 }
        requires stands { may_stand item ≡ true }
        ensures { Enters self.old self.new line slot item }
    {
        self.lists.known();
        let behind = self.conns.len() + line;
        self.lists.move_to_back(slot, behind);
        self.lists.set(slot, item);
        self.conns[line] = settle(&mut self.lists, self.conns[line], line, behind);
    }

    /// The first answer of a line, if it is due: its slot.
    pub(crate) fn due(&self, line: usize) -> Option<u32>
        requires { line < self.now.count }
        ensures { result ≡ due_in self.now.slots.values (line_at self.now line) }
    {
        let slot = self.lists.first(self.conns.len() + line)?;
        let Item::Answer(conn) = *self.lists.at(slot) else {
            return None;
        };
        if self.is_clear(line, conn) {
            Some(slot)
        } else {
            None
        }
    }

    /// Whether nothing that is ahead holds back an answer that goes out on this connection.
    fn is_clear(&self, line: usize, conn: u16) -> bool
        requires { line < self.now.count }
        ensures { result ≡ not (list_any (holds_back conn) (items_at self.now.slots line)) }
    {
        if self.conns[line] == conn {
            return true;
        }
        self.lists.is_empty(line)
    }

    /// A slot that stands in a line stands in none any more.
    pub(crate) fn take_out(&mut self, line: usize, slot: u32)
        requires line { line < self.old.count }
        requires there { 1 ≤ times slot (line_at self.old line) }
        ensures { Leaves self.old self.new line slot }
    {
        self.lists.known();
        let lines = self.conns.len();
        self.lists.move_to_back(slot, lines + lines);
        self.conns[line] = settle(&mut self.lists, self.conns[line], line, lines + line);
    }

    /// A command that stands in a line owes less from now on, and still something.
    pub(crate) fn owe(&mut self, line: usize, slot: u32, command: Owing)
        requires line { line < self.old.count }
        requires there { 1 ≤ times slot (line_at self.old line) }
        requires owes { owes command ≡ true }
        requires less { IsLess (item_at self.old slot) command }
        ensures { Lessens self.old self.new slot (Item.Command command) }
    {
        self.lists.known();
        self.lists.set(slot, Item::Command(command));
        let behind = self.conns.len() + line;
        self.conns[line] = settle(&mut self.lists, self.conns[line], line, behind);
    }
}
