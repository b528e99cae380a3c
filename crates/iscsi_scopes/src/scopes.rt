//! Lines by key.

ghost use Rattle.std.specs.Prelude.{◌≡◌, ◌+◌, ◌*◌, ◌≤◌, [], true, length, slice_set, IfOk};
ghost use Rattle.iscsi_slots.specs.Slots.{times};
ghost use Rattle.iscsi_lines.specs.Lines.{due_in, owes};
ghost use Rattle.iscsi_lines.specs.Settling.{IsLess, may_stand};
ghost use Rattle.iscsi_scopes.specs.Scopes.{AreKeysAscending, entered, item_of, left, scoped, slots_of, times_over};

use crate::slot_lines::SlotLines;
use iscsi_lines::{Item, Owing};
use iscsi_tags::Tags;
use std::alloc::{AllocError, Global};
use std::marker::Model;

/// Lines by key, over slots that the caller gives: in each stand, in the order of the log, the commands that left and owe
/// something, and the answers that wait for them.
///
/// A slot stands in one line at most. A line is there as long as something stands in it. Keys are found by a binary
/// search. Otherwise each call takes the same time however many lines and slots there are, but that each command is
/// passed once by the answers behind it.
pub struct Scopes {
    /// The line of each key, used as often as something stands in it.
    keys: Tags,
    lines: SlotLines,
}

impl Drop for Scopes {
    fn drop(self) {
        let Scopes {
            keys: _keys,
            lines: _lines,
        } = self;
    }
}

impl Model for Scopes {
    ghost use Rattle.iscsi_scopes.specs.Scopes.{AreKeyed, Scoped, scoped_of};

    ghost Value = { Scoped };

    ghost view = { λ s. scoped_of s.keys s.lines };

    ghost invariant = { λ s. AreKeyed s.keys s.lines };
}

impl Scopes {
    /// No line, and slots from 1 up to a room. It takes all its memory here.
    pub fn with_room(alloc: Global, room: usize) -> Result<Scopes, AllocError>
        requires { 3 * room + 3 ≤ 4294967295 }
        ensures lines { IfOk result (λ s. s.lines ≡ []) }
        ensures room { IfOk result (λ s. s.room ≡ room) }
    {
        Ok(Scopes {
            keys: Tags::with_room(alloc, room)?,
            lines: SlotLines::with_room(alloc, room, room)?,
        })
    }

    /// What holds of all lines by key: keys go up, and each slot has an item. It does nothing.
    #[inline(always)]
    pub fn known(&self)
        ensures ascending { AreKeysAscending self.now.lines }
        ensures items { length self.now.items ≡ self.now.room + 1 }
    {
        self.keys.known();
        self.lines.known();
    }

    /// Puts a slot, which stands in no line, behind all that stands in the line of a key.
    pub fn push(&mut self, key: u32, slot: u32, item: Item)
        requires low { 1 ≤ slot }
        requires high { slot ≤ self.old.room }
        requires none { times_over slot self.old.lines ≡ 0 }
        requires stands { may_stand item ≡ true }
        ensures { self.new ≡
            scoped (entered key slot self.old.lines) (slice_set self.old.items slot item) self.old.room }
    {
        self.keys.known();
        self.lines.known();
        let line = self.keys.enter(key) as usize;
        self.lines.push(line, slot, item);
    }

    /// The first answer of the line of a key, if it is due: its slot.
    pub fn due(&self, key: u32) -> Option<u32>
        ensures { result ≡ due_in self.now.items (slots_of key self.now.lines) }
    {
        self.keys.known();
        let line = self.keys.find(key)? as usize;
        self.lines.due(line)
    }

    /// A slot that stands in the line of a key stands in none any more.
    pub fn take_out(&mut self, key: u32, slot: u32)
        requires { 1 ≤ times slot (slots_of key self.old.lines) }
        ensures { self.new ≡ scoped (left key slot self.old.lines) self.old.items self.old.room }
    {
        self.keys.known();
        self.lines.known();
        let line = self.keys.find(key).unwrap() as usize;
        self.keys.leave(key);
        self.lines.take_out(line, slot);
    }

    /// A command that stands in the line of a key owes less from now on, and still something.
    pub fn owe(&mut self, key: u32, slot: u32, command: Owing)
        requires there { 1 ≤ times slot (slots_of key self.old.lines) }
        requires owes { owes command ≡ true }
        requires less { IsLess (item_of self.old slot) command }
        ensures { self.new ≡
            scoped self.old.lines (slice_set self.old.items slot (Item.Command command)) self.old.room }
    {
        self.keys.known();
        self.lines.known();
        let line = self.keys.find(key).unwrap() as usize;
        self.lines.owe(line, slot, command);
    }
}
