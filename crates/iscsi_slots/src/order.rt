//! An order of slots.

ghost use Rattle.std.specs.Prelude.{◌≡◌, ◌+◌, ◌*◌, ◌<◌, ◌≤◌, ◌++◌, [], ◌∷◌, length, drop, slice_index_or, vec_capacity, IfOk};
ghost use Rattle.std.specs.List.{remove, insert};
ghost use Rattle.iscsi_slots.specs.Queued.{queued};

use std::alloc::{AllocError, Global};
use std::marker::Model;

/// A copy takes slots in blocks of so many, and then those left over one by one.
const BLOCK: usize = 16;

/// Slots in an order. A slot is a number of two bytes, so that what moves when one comes or goes among the others is
/// short.
#[derive(Drop)]
pub struct Order {
    /// The slots, from `head` on.
    places: Vec<u16>,
    /// So many places have had the first slot before. They are taken away together, when `places` is full.
    head: usize,
    room: usize,
}

impl Model for Order {
    ghost use Rattle.std.specs.Prelude.{ℕ, length, drop, vec_capacity};
    ghost use Rattle.iscsi_slots.specs.Queued.{Queued, queued, queued_code};
    ghost use Rattle.iscsi_slots.specs.Slots.{IsOrderSound};
    ghost use Rattle.std.specs.Coded.{coded_ℕ};

    ghost Value = { Queued ℕ };

    ghost coded = { queued_code coded_ℕ };

    ghost view = { λ o. queued (drop o.head o.places.items) o.room };

    ghost invariant = { λ o. IsOrderSound o.head (length o.places.items) (vec_capacity o.places) o.room };
}

impl Order {
    /// An empty order with room for so many slots, 65,535 at the most. It takes all its memory here.
    pub fn with_room(alloc: Global, room: usize) -> Result<Order, AllocError>
        requires { room ≤ 65535 }
        ensures { IfOk result (λ o. o ≡ queued [] room) }
    {
        Ok(Order {
            places: Vec::with_capacity(alloc, 2 * room)?,
            head: 0,
            room,
        })
    }

    /// How many slots there are.
    pub fn len(&self) -> usize
        ensures len { result ≡ length self.now.items }
        ensures most { self.now.room ≤ 65535 }
        ensures within { length self.now.items ≤ self.now.room }
    {
        self.places.len() - self.head
    }

    /// The slot at a place, the first one's being 0.
    pub fn at(&self, k: usize) -> u16
        requires { k < length self.now.items }
        ensures { result ≡ slice_index_or self.now.items k 0 }
    {
        self.places[self.head + k]
    }

    /// Adds a slot behind all others.
    pub fn push(&mut self, slot: u16)
        requires { length self.old.items < self.old.room }
        ensures { self.new ≡ queued (self.old.items ++ slot ∷ []) self.old.room }
    {
        self.head = make_place(&mut self.places, self.head, 2 * self.room);
        self.places.push_reserved(slot);
    }

    /// Adds a slot at a place. Those from there on make way.
    pub fn insert(&mut self, k: usize, slot: u16)
        requires room { length self.old.items < self.old.room }
        requires place { k ≤ length self.old.items }
        ensures { self.new ≡ queued (insert self.old.items k slot) self.old.room }
    {
        self.head = make_place(&mut self.places, self.head, 2 * self.room);
        let inserted: Result<_, _> = self.places.insert(self.head + k, slot);
        inserted.unwrap();
    }

    /// Has no slots from now on.
    pub fn clear(&mut self)
        ensures { self.new ≡ queued [] self.old.room }
    {
        self.head = self.places.len();
    }

    /// Takes the slot at a place out. Those on the shorter side of it close up; none moves where it is the first one.
    pub fn remove(&mut self, k: usize)
        requires { k < length self.old.items }
        ensures { self.new ≡ queued (remove self.old.items k) self.old.room }
    {
        if k < self.len() / 2 {
            close_down(&mut self.places, self.head, k);
            self.head += 1;
        } else {
            close_up(&mut self.places, self.head + k);
        }
    }
}

/// Makes a place at the end of an order of so many places: where its first slot stands then. When it is full, the
/// places before that are taken away.
fn make_place(order: &mut Vec<u16>, head: usize, places: usize) -> usize
    requires head { head ≤ length order.old.items }
    requires some { length (drop head order.old.items) < places }
    requires most { length order.old.items ≤ places }
    ensures slots { drop result order.new.items ≡ drop head order.old.items }
    ensures head { result ≤ length order.new.items }
    ensures place { length order.new.items < places }
    ensures capacity { vec_capacity order.new ≡ vec_capacity order.old }
{
    if order.len() < places {
        return head;
    }
    move_up(order, head);
    0
}

/// Takes so many places away before all others.
fn move_up(order: &mut Vec<u16>, head: usize)
    requires { head ≤ length order.old.items }
    ensures slots { order.new.items ≡ drop head order.old.items }
    ensures capacity { vec_capacity order.new ≡ vec_capacity order.old }
{
    let len = order.len() - head;
    order.copy_within(head.., 0);
    order.truncate(len);
}

/// The slots behind a place move up by one, over the slot that is there.
fn close_up(order: &mut Vec<u16>, at: usize)
    requires { at < length order.old.items }
    ensures slots { order.new.items ≡ remove order.old.items at }
    ensures capacity { vec_capacity order.new ≡ vec_capacity order.old }
{
    let len = order.len() - 1;
    order.copy_within(at + 1.., at);
    order.truncate(len);
}

/// So many slots from the first one on, which stands at `head`, move down by one, over the slot that is there.
fn close_down(order: &mut Vec<u16>, head: usize, count: usize)
    requires { head + count < length order.old.items }
    ensures slots { drop (head + 1) order.new.items ≡ remove (drop head order.old.items) count }
    ensures len { length order.new.items ≡ length order.old.items }
    ensures capacity { vec_capacity order.new ≡ vec_capacity order.old }
{
    if count > 0 {
        let from = head - filler(head, count);
        order.copy_within(from..head + count, from + 1);
    }
}

/// How many places that no slot has, before the first one, move along with so many slots, so that whole blocks move.
fn filler(head: usize, count: usize) -> usize
    ensures { result ≤ head }
{
    let over = count % BLOCK;
    if over == 0 { 0 } else { head.min(BLOCK - over) }
}
