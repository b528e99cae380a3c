//! The replies that wait.

ghost use Rattle.std.specs.Prelude.{◌≡◌, ◌+◌, ◌*◌, ◌<◌, ◌≤◌, ◌^◌, true, false, length, IfOk, IfSome};
ghost use Rattle.iscsi_requests.specs.Conns.{count_all};
ghost use Rattle.iscsi_requests.specs.Replies.{AreKnown, IsAbove, find_log_place, first_request, opened, popped, pushed, taken};

use iscsi_lists::Lists;
use iscsi_tickets::Tickets;
use std::alloc::{AllocError, Global};
use std::marker::Model;

/// A reply that waits: its place in the session's log, and the place of its request.
#[derive(Clone, Copy)]
pub(crate) struct WaitingReply {
    pub(crate) log_place: u64,
    pub(crate) request: u32,
}

/// No reply.
const NO_REPLY: WaitingReply = WaitingReply {
    log_place: 0,
    request: 0,
};

/// The replies that wait to go out, by their places in the session's log and by connection. Log places go up as replies enter.
///
/// Each call takes the same time however many replies there are, but for the search of a log place, which is a binary one.
pub struct WaitingReplies {
    /// The slot of each log place. A ticket is one above it.
    tickets: Tickets,
    /// Each in its slot, by connection.
    kept: Lists<WaitingReply>,
}

impl Drop for WaitingReplies {
    fn drop(self) {
        let WaitingReplies {
            tickets: _tickets,
            kept: _kept,
        } = self;
    }
}

impl Model for WaitingReplies {
    ghost use Rattle.iscsi_requests.specs.Replies.{WaitingReplies as RepliesValue};
    ghost use Rattle.iscsi_requests.specs.Kept.{AreReplies, replies_of};

    ghost Value = { RepliesValue };

    ghost view = { λ r. replies_of r.tickets r.kept };

    ghost invariant = { λ r. AreReplies r.tickets r.kept };
}

impl WaitingReplies {
    /// None yet, on so many connections, with room for so many. It takes all its memory here.
    pub fn with_room(alloc: Global, conns: usize, room: usize) -> Result<WaitingReplies, AllocError>
        requires lists { room + conns + 2 ≤ 4294967295 }
        requires tickets { 2 * room ≤ 4294967295 }
        ensures { IfOk result (λ r. r ≡ opened conns room) }
    {
        Ok(WaitingReplies {
            tickets: Tickets::with_room(alloc, room)?,
            kept: Lists::with_room(alloc, conns, room, NO_REPLY)?,
        })
    }

    /// What holds of all replies that wait. It does nothing.
    #[inline(always)]
    pub fn known(&self)
        ensures { AreKnown self.now }
    {
        self.tickets.known();
        self.kept.known();
    }

    /// Whether there are as many as there is room for.
    #[inline(always)]
    pub fn is_full(&self) -> bool
        ensures yes { result ≡ true → count_all self.now.waiting ≡ self.now.room }
        ensures no { result ≡ false → count_all self.now.waiting < self.now.room }
    {
        self.kept.known();
        self.kept.is_full()
    }

    /// The log place of the reply that entered last, if one has.
    #[inline(always)]
    pub fn last(&self) -> Option<u64>
        ensures last { result ≡ self.now.last }
        ensures short { IfSome result (λ last. last + 1 < 2 ^ 64) }
    {
        let last = self.tickets.last();
        if last == 0 { None } else { Some(last - 1) }
    }

    /// A reply waits from now on, behind all others of its connection. Log places go up.
    #[inline(always)]
    pub fn push(&mut self, conn: usize, log_place: u64, request: u32)
        requires conn { conn < length self.old.waiting }
        requires room { count_all self.old.waiting < self.old.room }
        requires newest { IsAbove log_place self.old.last }
        requires short { log_place + 1 < 2 ^ 64 }
        ensures { self.new ≡ pushed conn (record { log_place = log_place; request = request }) self.old }
    {
        self.tickets.known();
        self.kept.known();
        let slot = self
            .kept
            .push_back(conn, WaitingReply { log_place, request });
        self.tickets.push(log_place + 1, slot);
    }

    /// The reply with this log place doesn't wait any more: its request.
    #[inline(always)]
    pub fn take(&mut self, log_place: u64) -> Option<u32>
        requires { log_place + 1 < 2 ^ 64 }
        ensures answer { result ≡ find_log_place log_place self.old }
        ensures state { self.new ≡ taken log_place self.old }
    {
        self.tickets.known();
        self.kept.known();
        let slot = self.tickets.take(log_place + 1)?;
        Some(self.kept.remove(slot).request)
    }

    /// The first reply of a connection doesn't wait any more: its request.
    pub fn pop(&mut self, conn: usize) -> Option<u32>
        requires { conn < length self.old.waiting }
        ensures answer { result ≡ first_request conn self.old }
        ensures state { self.new ≡ popped conn self.old }
    {
        self.tickets.known();
        self.kept.known();
        let first = self.kept.pop_front(conn)?;
        self.tickets.take(first.log_place + 1);
        Some(first.request)
    }
}
