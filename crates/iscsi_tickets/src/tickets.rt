//! Values by ticket.

ghost use Rattle.std.specs.Prelude.{◌≡◌, ℕ, ◌+◌, ◌*◌, ◌<◌, ◌≤◌, ◌++◌, List, [], ◌∷◌, true, false, length, filter, slice_set, vec_len, vec_capacity, All, IfOk};
ghost use Rattle.iscsi_slots.specs.Places.{AreAscending as AreKeysAscending};
ghost use Rattle.iscsi_tickets.specs.Tickets.{AreKnown, IsLivePlace, ended, guessed, kept_at, known, live_in, ticket_of, value_of, without_ticket};

use crate::kept::{Kept, kept_at};
use std::alloc::{AllocError, Global};
use std::marker::Model;

/// Values, each with a ticket of its own. Tickets ascend as values enter.
///
/// Values that enter are noted in a log, one behind the other. One that is taken out stays there, marked, until the log
/// is full: then the others close up. A value is found at once where its place is as far behind the first one's as its ticket is above
/// that, and else by a binary search.
pub struct Tickets {
    /// The values in the order of their tickets.
    log: Vec<Kept>,
    /// How many of them were taken out.
    ended: usize,
    /// The ticket that entered last.
    last: u64,
    room: usize,
}

impl Drop for Tickets {
    fn drop(self) {
        let Tickets {
            log: _log,
            ended: _ended,
            last: _last,
            room: _room,
        } = self;
    }
}

impl Model for Tickets {
    ghost use Rattle.std.specs.Prelude.{vec_capacity};
    ghost use Rattle.iscsi_tickets.specs.Tickets.{AreLogged, Known, known, live_in};

    ghost Value = { Known };

    ghost view = { λ t. known (live_in t.log.items) t.last t.room };

    ghost invariant = { λ t. AreLogged t.log.items (vec_capacity t.log) t.ended t.last t.room };
}

impl Tickets {
    /// None yet, with room for so many. It takes all its memory here.
    pub fn with_room(alloc: Global, room: usize) -> Result<Tickets, AllocError>
        requires { 2 * room ≤ 4294967295 }
        ensures { IfOk result (λ t. t ≡ known [] 0 room) }
    {
        Ok(Tickets {
            log: Vec::with_capacity(alloc, 2 * room)?,
            ended: 0,
            last: 0,
            room,
        })
    }

    /// What holds of all values by ticket: tickets ascend, none is above the last one, and there are no more than there
    /// is room for. It does nothing.
    #[inline(always)]
    pub fn known(&self)
        ensures { AreKnown self.now }
    {
        let _room = self.room;
    }

    /// The ticket that entered last; 0: none has.
    #[inline(always)]
    pub fn last(&self) -> u64
        ensures { result ≡ self.now.last }
    {
        self.last
    }

    /// How many there are.
    #[inline(always)]
    pub fn len(&self) -> usize
        ensures { result ≡ length self.now.entries }
    {
        self.log.len() - self.ended
    }

    /// Whether there are as many as there is room for.
    #[inline(always)]
    pub fn is_full(&self) -> bool
        ensures yes { result ≡ true → length self.now.entries ≡ self.now.room }
        ensures no { result ≡ false → length self.now.entries < self.now.room }
    {
        self.len() == self.room
    }

    /// A value enters with its ticket, which is greater than that of the last one that entered: than 0 at first.
    ///
    /// Where the log is full, values that were taken out go from it: a pass over it, which the calls have paid for by
    /// which they were.
    #[inline(always)]
    pub fn push(&mut self, ticket: u64, value: u32)
        requires room { length self.old.entries < self.old.room }
        requires newest { self.old.last < ticket }
        ensures { self.new ≡ known (self.old.entries ++ (ticket, value) ∷ []) ticket self.old.room }
    {
        make_way(&mut self.log, &mut self.ended, self.room);
        self.log.push_reserved(Kept {
            ticket,
            value,
            is_live: true,
        });
        self.last = ticket;
    }

    /// The value with this ticket.
    #[inline(always)]
    pub fn find(&self, ticket: u64) -> Option<u32>
        ensures { result ≡ value_of ticket self.now.entries }
    {
        let k = place_of(&self.log, ticket)?;
        Some(kept_at(&self.log, k).value)
    }

    /// The value with this ticket is taken out, if there is one.
    #[inline(always)]
    pub fn take(&mut self, ticket: u64) -> Option<u32>
        ensures value { result ≡ value_of ticket self.old.entries }
        ensures others { self.new ≡ known (without_ticket ticket self.old.entries) self.old.last self.old.room }
    {
        let k = place_of(&self.log, ticket)?;
        self.ended += 1;
        Some(end(&mut self.log, k))
    }
}

/// Where the log is full, what was taken out goes from it, and isn't counted any more.
#[inline(always)]
fn make_way(log: &mut Vec<Kept>, ended: &mut usize, room: usize)
    requires ascending { AreKeysAscending ticket_of log.old.items }
    requires counted { length (live_in log.old.items) + ended.old ≡ length log.old.items }
    requires few { length (live_in log.old.items) < room }
    requires long { length log.old.items ≤ 2 * room }
    requires short { 2 * room ≤ 4294967295 }
    ensures same { live_in log.new.items ≡ live_in log.old.items }
    ensures ascending { AreKeysAscending ticket_of log.new.items }
    ensures newest { (last : ℕ) → All (λ e. ticket_of e ≤ last) log.old.items → All (λ e. ticket_of e ≤ last) log.new.items }
    ensures counted { length (live_in log.new.items) + ended.new ≡ length log.new.items }
    ensures long { length log.new.items < 2 * room }
    ensures capacity { vec_capacity log.new ≡ vec_capacity log.old }
{
    if log.len() == 2 * room {
        keep_live(log);
        *ended = 0;
    }
}

/// What was taken out goes from the log.
#[inline(never)]
fn keep_live(log: &mut Vec<Kept>)
    ensures log { log.new.items ≡ filter (λ e. e.is_live) log.old.items }
    ensures len { vec_len log.new ≤ vec_len log.old }
    ensures capacity { vec_capacity log.new ≡ vec_capacity log.old }
{
    log.retain(|kept| kept.is_live);
}

/// The value at a place of the log isn't there any more: the value.
#[inline(always)]
fn end(log: &mut Vec<Kept>, k: usize) -> u32
    requires { k < length log.old.items }
    ensures value { result ≡ (kept_at log.old.items k).value }
    ensures log { log.new.items ≡ slice_set log.old.items k (ended (kept_at log.old.items k)) }
    ensures capacity { vec_capacity log.new ≡ vec_capacity log.old }
{
    let Kept { ticket, value, .. } = log[k];
    log[k] = Kept {
        ticket,
        value,
        is_live: false,
    };
    value
}

/// The place of the value with this ticket: the guess, or else by a binary search. Each way ends in a test here, so that callers know
/// which it was.
#[inline(always)]
fn place_of(log: &[Kept], ticket: u64) -> Option<usize>
    requires { AreKeysAscending ticket_of log.now }
    ensures { IsLivePlace log.now ticket result }
{
    let place = guess(log, ticket);
    if is_at(log, place, ticket) && kept_at(log, place).is_live {
        return Some(place);
    }
    let k = count_below(log, ticket);
    if is_at(log, k, ticket) && kept_at(log, k).is_live {
        Some(k)
    } else {
        None
    }
}

/// Where a ticket stands if those from the first one of the log up to it came one by one, as the tickets of a session do. One below the
/// first one is led far behind the log.
#[inline(always)]
fn guess(log: &[Kept], ticket: u64) -> usize
    ensures { result ≡ guessed log.now ticket }
{
    match log.first() {
        Some(first) => ticket.wrapping_sub(first.ticket) as usize,
        None => 0,
    }
}

/// Whether a place is in the log, and has this ticket.
#[inline(always)]
fn is_at(log: &[Kept], k: usize, ticket: u64) -> bool
    ensures yes { result ≡ true → (k < length log.now) × (ticket_of (kept_at log.now k) ≡ ticket) }
    ensures no { k < length log.now → ticket_of (kept_at log.now k) ≡ ticket → result ≡ true }
{
    k < log.len() && kept_at(log, k).ticket == ticket
}

/// How many of the log have a lower ticket.
#[inline(never)]
fn count_below(log: &[Kept], ticket: u64) -> usize
    requires { AreKeysAscending ticket_of log.now }
    ensures within { result ≤ length log.now }
    ensures below { (k : ℕ) → k < result → ticket_of (kept_at log.now k) < ticket }
    ensures above { (k : ℕ) → result ≤ k → k < length log.now → ticket ≤ ticket_of (kept_at log.now k) }
{
    log.partition_point(|kept| kept.ticket < ticket)
}
