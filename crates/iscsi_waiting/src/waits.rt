//! What waits.

ghost use Rattle.std.specs.Prelude.{◌≡◌, ◌+◌, ◌-◌, ◌<◌, ◌≤◌, ◌^◌, [], true, false, length, count_by, option_map, IfOk, IfSome};
ghost use Rattle.iscsi_outbox_state.specs.Waits.{any_in, count_in, dropped_of, dropped_on, entered, first_item, front_of, is_any, is_fenced, is_fenced_before, is_numbered, is_own, is_reply, is_taking, is_taking_before, opened, popped, queue_at, released_of};
ghost use Rattle.iscsi_waiting.specs.Firsts.{marks_of, response_of};
ghost use Rattle.iscsi_waiting.specs.Known.{AreWaiting};

use crate::first::{Marks, Response, response_in};
use crate::slots::{FENCED, Slots};
use iscsi_outbox_state::{Front, Waiting};
use std::alloc::{AllocError, Global};
use std::marker::Model;

/// What waits on the connections of a session, in order. Connections go by their places, from 0 on, and the commands that it is of
/// by theirs, from 1 on.
///
/// Each PDU enters at a time of its own, so that those of all connections have one order. Each call takes the same time however
/// much waits, but those that drop or release take a step for each PDU that they do it to.
pub struct Waits {
    slots: Slots,
}

impl Drop for Waits {
    fn drop(self) {
        let Waits { slots: _slots } = self;
    }
}

impl Model for Waits {
    ghost use Rattle.iscsi_outbox_state.specs.Waits.{Waits as Shown};
    ghost use Rattle.iscsi_waiting.specs.Kept.{AreKept, waits_of};

    ghost Value = { Shown };

    ghost view = { λ w. waits_of w.slots };

    ghost invariant = { λ w. AreKept w.slots };
}

impl Waits {
    /// Nothing waits, on so many connections. There are so many places for commands, and so many PDUs may wait. It takes all its
    /// memory here.
    pub fn with_room(
        alloc: Global,
        conns: usize,
        commands: usize,
        room: usize,
    ) -> Result<Waits, AllocError>
        requires conns { room + conns + 2 ≤ 4294967295 }
        requires commands { room + commands + 3 ≤ 4294967295 }
        requires room { room + 5 ≤ 4294967295 }
        ensures { IfOk result (λ w. w ≡ opened conns commands room) }
    {
        Ok(Waits {
            slots: Slots::with_room(alloc, conns, commands, room)?,
        })
    }

    /// What holds of all that waits. It does nothing.
    #[inline(always)]
    pub fn known(&self)
        ensures waiting { AreWaiting self.now }
        ensures conns { self.now.room + length self.now.queues + 2 ≤ 4294967295 }
        ensures commands { self.now.room + self.now.commands + 3 ≤ 4294967295 }
    {
        self.slots.waiting.known();
        self.slots.owned.known();
    }

    /// Whether as many wait as may.
    #[inline(always)]
    pub fn is_full(&self) -> bool
        ensures yes { result ≡ true → count_in is_any self.now ≡ self.now.room }
        ensures no { result ≡ false → count_in is_any self.now < self.now.room }
    {
        self.slots.waiting.known();
        self.slots.waiting.is_full()
    }

    /// Whether nothing waits on a connection.
    #[inline(always)]
    pub fn is_empty(&self, conn: usize) -> bool
        requires { conn < length self.now.queues }
        ensures yes { result ≡ true → queue_at self.now conn ≡ [] }
        ensures no { queue_at self.now conn ≡ [] → result ≡ true }
    {
        self.slots.waiting.is_empty(conn)
    }

    /// What the fence looks at, of the first PDU that waits on a connection.
    #[inline(always)]
    pub fn front(&self, conn: usize) -> Option<Front>
        requires { conn < length self.now.queues }
        ensures { result ≡ front_of (queue_at self.now conn) }
    {
        let slot = self.slots.waiting.first(conn)?;
        let kept = self.slots.waiting.at(slot);
        Some(Front {
            time: kept.time,
            takes: kept.item.takes,
            fenced: kept.item.fenced,
        })
    }

    /// The first PDU that waits on a connection, if it is a SCSI Response without sense.
    #[inline(always)]
    pub fn response(&self, conn: usize) -> Option<Response>
        requires { conn < length self.now.queues }
        ensures { result ≡ response_of (first_item (queue_at self.now conn)) }
    {
        let slot = self.slots.waiting.first(conn)?;
        response_in(&self.slots.waiting.at(slot).item.content)
    }

    /// A PDU enters the queue of a connection, behind all that waits there.
    #[inline(always)]
    pub fn enter(&mut self, conn: usize, item: Waiting)
        requires conn { conn < length self.old.queues }
        requires room { count_in is_any self.old < self.old.room }
        requires command { IfSome item.command (λ c. (1 ≤ c) × (c ≤ self.old.commands)) }
        requires fence { item.fenced ≡ true → item.takes ≡ true }
        requires time { self.old.time < 2 ^ 64 - 1 }
        ensures { self.new ≡ entered conn item self.old }
    {
        self.slots.waiting.known();
        self.slots.enter(conn, item);
    }

    /// Takes the first PDU of a connection out.
    #[inline(always)]
    pub fn pop(&mut self, conn: usize) -> Option<Waiting>
        requires { conn < length self.old.queues }
        ensures item { result ≡ first_item (queue_at self.old conn) }
        ensures state { self.new ≡ popped conn self.old }
    {
        self.slots.pop(conn)
    }

    /// Takes it out, and tells what the rules look at.
    #[inline(always)]
    pub fn drop_first(&mut self, conn: usize) -> Option<Marks>
        requires { conn < length self.old.queues }
        ensures marks { result ≡ option_map marks_of (first_item (queue_at self.old conn)) }
        ensures state { self.new ≡ popped conn self.old }
    {
        self.slots.drop_first(conn)
    }

    /// When the next PDU enters.
    #[inline(always)]
    pub fn time(&self) -> u64
        ensures { result ≡ self.now.time }
    {
        self.slots.time
    }

    /// A PDU enters nowhere, and time passes.
    #[inline(always)]
    pub fn skip(&mut self)
        requires { self.old.time < 2 ^ 64 - 1 }
        ensures { self.new ≡ record self.old { time = self.old.time + 1 } }
    {
        self.slots.pass_time();
    }

    /// All that waits on a connection is dropped.
    pub fn drop_on(&mut self, conn: usize)
        requires { conn < length self.old.queues }
        ensures { self.new ≡ dropped_on conn self.old }
    {
        while self.pop(conn).is_some() {}
    }

    /// All that waits of a command is dropped, on whichever connection.
    pub fn drop_of(&mut self, command: u32)
        requires low { 1 ≤ command }
        requires high { command ≤ self.old.commands }
        ensures { self.new ≡ dropped_of command self.old }
    {
        self.slots.drop_of(command);
    }

    /// What waits of a command waits on, and is of none.
    #[inline(always)]
    pub fn release(&mut self, command: u32)
        requires low { 1 ≤ command }
        requires high { command ≤ self.old.commands }
        ensures { self.new ≡ released_of command self.old }
    {
        self.slots.release(command);
    }

    /// Whether a fenced answer waits that entered before this time (RFC 7143 section 4.2.2.3).
    #[inline(always)]
    pub fn is_behind_fence(&self, time: u64) -> bool
        ensures { result ≡ any_in (is_fenced_before time) self.now }
    {
        self.slots.is_behind(FENCED, time)
    }

    /// Whether anything waits that takes a StatSN and entered before this time (RFC 7143 section 4.2.2.3).
    pub fn is_behind_any(&self, time: u64) -> bool
        ensures { result ≡ any_in (is_taking_before time) self.now }
    {
        self.slots.is_behind_any(time)
    }

    /// How many PDUs of the target's own wait on a connection.
    #[inline(always)]
    pub fn own_on(&self, conn: usize) -> usize
        requires { conn < length self.now.queues }
        ensures { result ≡ count_by is_own (queue_at self.now conn) }
    {
        self.slots.counts[conn].own
    }

    /// How many PDUs wait on a connection that take a StatSN.
    #[inline(always)]
    pub fn taking_on(&self, conn: usize) -> usize
        requires { conn < length self.now.queues }
        ensures { result ≡ count_by is_taking (queue_at self.now conn) }
    {
        self.slots.counts[conn].taking
    }

    /// How many fenced answers wait on a connection.
    #[inline(always)]
    pub fn fenced_on(&self, conn: usize) -> usize
        requires { conn < length self.now.queues }
        ensures { result ≡ count_by is_fenced (queue_at self.now conn) }
    {
        self.slots.counts[conn].fenced
    }

    /// How many PDUs wait on all connections that take a StatSN.
    #[inline(always)]
    pub fn taking(&self) -> usize
        ensures { result ≡ count_in is_taking self.now }
    {
        self.slots.all.taking
    }

    /// How many fenced answers wait on all connections.
    #[inline(always)]
    pub fn fenced(&self) -> usize
        ensures { result ≡ count_in is_fenced self.now }
    {
        self.slots.all.fenced
    }

    /// How many replies of the session wait on all connections.
    #[inline(always)]
    pub fn replies(&self) -> usize
        ensures { result ≡ count_in is_reply self.now }
    {
        self.slots.all.replies
    }

    /// How many answers to numbered requests wait on all connections.
    #[inline(always)]
    pub fn numbered(&self) -> usize
        ensures { result ≡ count_in is_numbered self.now }
    {
        self.slots.all.numbered
    }
}
