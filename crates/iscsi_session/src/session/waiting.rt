//! The task management functions that wait for lower numbers.

ghost use Rattle.std.specs.Prelude.{◌≡◌, ◌==◌, ◌<◌, ◌≤◌, ◌++◌, ◌∷◌, [], not, filter, find, position, remove, slice_index_or, is_some, length, All, IfSome, Some, MatchOption};
ghost use Rattle.std.specs.VecDeque.{deque_len, deque_capacity};
ghost use Rattle.iscsi_wire.specs.Fields.{connection_of};
ghost use Rattle.iscsi_window.specs.Windows.{is_asked};
ghost use Rattle.iscsi_slots.specs.Queued.{queued};
ghost use Rattle.iscsi_session.specs.private.Steps.{waiting_in};

use crate::session::logout::is_of;
use iscsi_wire::Request;
use std::alloc::Global;
use std::collections::VecDeque;
use std::marker::Model;

/// The most functions of a connection that wait.
pub(crate) const MOST: usize = 4;

/// A function that waits for lower numbers.
#[derive(Clone, Copy)]
pub(crate) struct Waiting {
    /// The function.
    pub(crate) request: Request,
    /// Its number less the first CmdSN: it executes once as many numbers have turned.
    pub(crate) turn: u64,
    /// The event in which it arrived, from 0.
    pub(crate) event: u64,
}

/// The functions that wait, in the order of their arrival.
///
/// Nearly all numbers turn without one that waits for them, so the lowest turn is kept beside them: as long as it isn't
/// reached, none is looked at. Those that wait for one number are mostly the first ones, and a first one is taken out
/// of a deque without a move of the others.
#[derive(Drop)]
pub(crate) struct Waitlist {
    functions: VecDeque<Waiting>,
    /// No function waits for a turn below this one.
    next_turn: u64,
}

impl Model for Waitlist {
    ghost use Rattle.std.specs.VecDeque.{deque_capacity};
    ghost use Rattle.iscsi_slots.specs.Queued.{Queued, queued};
    ghost use Rattle.iscsi_session.specs.declared.session.waiting.Waiting.{Waiting};
    ghost use Rattle.std.specs.Prelude.{◌≤◌, ◌<◌, All};
    ghost use Rattle.std.specs.List.{AllPairs};

    ghost Value = { Queued Waiting };

    ghost view = { λ w. queued w.functions.items (deque_capacity w.functions) };

    // None waits for a turn below the next one, and each arrived after those before it.
    ghost invariant = { λ w. All (λ f. w.next_turn ≤ f.turn) w.functions.items
        × AllPairs (λ f g. f.event < g.event) w.functions.items };
}

impl Waitlist {
    /// None yet, with room for so many. None where memory is refused.
    pub(crate) fn with_room(alloc: Global, room: usize) -> Option<Waitlist>
        ensures { IfSome result (λ w. w ≡ queued [] room) }
    {
        Some(Waitlist {
            functions: VecDeque::with_capacity(alloc, room).ok()?,
            next_turn: u64::MAX,
        })
    }

    /// How many functions wait.
    pub(crate) fn len(&self) -> usize
        ensures { result ≡ length self.now.items }
    {
        self.functions.len()
    }

    /// How many functions of a connection wait.
    pub(crate) fn count_on(&self, conn: u16) -> usize
        ensures { result ≡ waiting_in self.now.items conn }
    {
        let (front, back) = self.functions.as_slices();
        count_among(front, conn) + count_among(back, conn)
    }

    /// Whether a function waits for this turn.
    #[inline(always)]
    #[tactic(auto, using(crate::proofs::SoundLemmas::found_where, std::proofs::lemmas::Bool::Decides::nat_tests))]
    pub(crate) fn has_due(&self, turn: u64) -> bool
        ensures { result ≡ is_some (find (λ w. w.turn == turn) self.now.items) }
    {
        self.next_turn <= turn && place_at(&self.functions, turn).is_some()
    }

    /// A function waits, which arrived after all others.
    pub(crate) fn push(&mut self, function: Waiting)
        requires room { length self.old.items < self.old.room }
        requires newest { All (λ w. w.event < function.event) self.old.items }
        ensures { self.new ≡ queued (self.old.items ++ function ∷ []) self.old.room }
    {
        self.next_turn = self.next_turn.min(function.turn);
        self.functions.push_back_reserved(function);
    }

    /// Takes out the first function that waits for this turn.
    pub(crate) fn take_first(&mut self, turn: u64) -> Option<Waiting>
        ensures first { result ≡ find (λ w. w.turn == turn) self.old.items }
        ensures rest { MatchOption result (self.new ≡ self.old)
            (λ w. self.new ≡ queued (filter (λ v. not (v.event == w.event)) self.old.items) self.old.room) }
    {
        if let Some(at) = place_at(&self.functions, turn) {
            return take_at(&mut self.functions, at);
        }
        self.next_turn = lowest_turn(&self.functions);
        None
    }

    /// Drops the functions of a connection, or all for None.
    pub(crate) fn drop_of(&mut self, scope: Option<u16>)
        ensures { self.new ≡ queued (filter (λ w. not (is_asked scope (connection_of w.request))) self.old.items)
            self.old.room }
    {
        self.functions
            .retain(|function| !is_of(scope, function.request.conn()));
        self.next_turn = lowest_turn(&self.functions);
    }

    /// Drops all functions.
    pub(crate) fn clear(&mut self)
        ensures { self.new ≡ queued [] self.old.room }
    {
        self.functions.clear();
        self.next_turn = u64::MAX;
    }
}

/// Takes out the function at this place. None beyond the last one.
///
/// The one that is due is mostly the first, which goes without a look at the others.
fn take_at(waiting: &mut VecDeque<Waiting>, at: usize) -> Option<Waiting>
    ensures taken { (w : Waiting) → at < deque_len waiting.old → result ≡ Some (slice_index_or waiting.old.items at w) }
    ensures items { at < deque_len waiting.old → waiting.new.items ≡ remove waiting.old.items at }
    ensures capacity { deque_capacity waiting.new ≡ deque_capacity waiting.old }
{
    if at == 0 {
        return waiting.pop_front();
    }
    waiting.remove(at)
}

/// How many of these functions are of a connection.
fn count_among(waiting: &[Waiting], conn: u16) -> usize
    ensures { result ≡ waiting_in waiting.now conn }
{
    waiting
        .iter()
        .filter(|function| function.request.conn() == conn)
        .count()
}

/// The place of the first function that waits for this turn.
fn place_at(waiting: &VecDeque<Waiting>, turn: u64) -> Option<usize>
    ensures { result ≡ position (λ w. w.turn == turn) waiting.now.items }
{
    waiting.iter().position(|function| function.turn == turn)
}

/// The lowest turn that one of these functions waits for. The greatest number where there is none.
fn lowest_turn(waiting: &VecDeque<Waiting>) -> u64
    ensures { All (λ w. result ≤ w.turn) waiting.now.items }
{
    let (front, back) = waiting.as_slices();
    lowest_among(front).min(lowest_among(back))
}

/// The lowest turn that one of a slice waits for. The greatest number where there is none.
fn lowest_among(waiting: &[Waiting]) -> u64
    ensures { All (λ w. result ≤ w.turn) waiting.now }
{
    let mut lowest = u64::MAX;
    for function in waiting {
        lowest = lowest.min(function.turn);
    }
    lowest
}
