//! Lists of values.

ghost use Rattle.std.specs.Prelude.{◌≡◌, ℕ, ◌+◌, ◌<◌, ◌≤◌, ◌++◌, List, [], ◌∷◌, Some, None, true, false, length, map, replicate, slice_index_or, slice_set, IfOk, IfSome};
ghost use Rattle.iscsi_slots.specs.Slots.{times};
ghost use Rattle.iscsi_lists.specs.Lists.{AreApart, first_of, last_of, counted, without, with_last, times_in, linked_in};

use crate::links::Links;
use std::alloc::{AllocError, Global};
use std::marker::Model;

/// Some lists over one set of slots. Each slot has a value, and is in one of the lists or free.
///
/// A slot is a number from 1 on. A value keeps its slot while it moves from list to list, until it is taken out. Lists
/// are numbered from 0 on. Each call takes the same time however many lists, slots and values there are, but for `clear`.
pub struct Lists<T: Copy> {
    links: Links,
    /// The value of each slot. The first one is of no slot.
    values: Vec<T>,
}

impl<T: Copy> Drop for Lists<T> {
    fn drop(self) {
        let Lists {
            links: _links,
            values: _values,
        } = self;
    }
}

impl<T: Copy> Model for Lists<T> {
    ghost use Rattle.iscsi_lists.specs.Lists.{Listed, listed, listed_code, IsListed};

    ghost Value = { Listed T };

    ghost coded = { listed_code T.code };

    ghost view = { λ s. listed s.links.free s.links.lists s.links.room s.values.items };

    ghost invariant = { λ s. IsListed s.links s.values.items };
}

impl<T: Copy> Lists<T> {
    /// So many empty lists, and so many slots for all of them. It takes all its memory here. Any value will do as
    /// `blank`: it is what a slot has that was never used.
    pub fn with_room(
        alloc: Global,
        lists: usize,
        room: usize,
        blank: T,
    ) -> Result<Lists<T>, AllocError>
        requires { room + lists + 2 ≤ 4294967295 }
        ensures { IfOk result (λ s. s ≡ record {
          free = counted 1 room;
          lists = replicate lists [];
          room = room;
          values = replicate (room + 1) blank;
        }) }
    {
        Ok(Lists {
            links: Links::with_room(alloc, lists, room)?,
            values: filled(alloc, room + 1, blank)?,
        })
    }

    /// What holds of all lists: each slot stands in one of them or is free, and has a value. It does nothing.
    #[inline(always)]
    pub fn known(&self)
        ensures apart { AreApart (linked_in self.now) }
        ensures values { length self.now.values ≡ self.now.room + 1 }
        ensures short { self.now.room + length self.now.lists + 2 ≤ 4294967295 }
    {
        self.links.known();
    }

    /// Whether no slot is free.
    #[inline(always)]
    pub fn is_full(&self) -> bool
        ensures yes { result ≡ true → self.now.free ≡ [] }
        ensures no { self.now.free ≡ [] → result ≡ true }
        ensures some { result ≡ false → 1 ≤ length self.now.free }
        ensures apart { AreApart (linked_in self.now) }
    {
        self.links.is_full()
    }

    /// Whether a list has no slot.
    #[inline(always)]
    pub fn is_empty(&self, list: usize) -> bool
        requires { list < length self.now.lists }
        ensures yes { result ≡ true → slice_index_or self.now.lists list [] ≡ [] }
        ensures no { slice_index_or self.now.lists list [] ≡ [] → result ≡ true }
    {
        self.links.first(list).is_none()
    }

    /// The first slot of a list.
    #[inline(always)]
    pub fn first(&self, list: usize) -> Option<u32>
        requires { list < length self.now.lists }
        ensures slot { result ≡ first_of (slice_index_or self.now.lists list []) }
        ensures within { IfSome result (λ s. s ≤ self.now.room) }
    {
        self.links.first(list)
    }

    /// The slot behind another one of its list.
    pub fn next(&self, slot: u32) -> Option<u32>
        requires { slot ≤ self.now.room }
        ensures slot { (list : ℕ) (before after : List ℕ) → list < length self.now.lists →
            slice_index_or self.now.lists list [] ≡ before ++ slot ∷ after → result ≡ first_of after }
        ensures within { IfSome result (λ s. s ≤ self.now.room) }
    {
        self.links.next(slot)
    }

    /// The slot before another one of its list.
    pub fn previous(&self, slot: u32) -> Option<u32>
        requires { slot ≤ self.now.room }
        ensures slot { (list : ℕ) (before after : List ℕ) → list < length self.now.lists →
            slice_index_or self.now.lists list [] ≡ before ++ slot ∷ after → result ≡ last_of before }
        ensures within { IfSome result (λ s. s ≤ self.now.room) }
    {
        self.links.previous(slot)
    }

    /// Whether a slot is in a list. A number that is no slot's isn't.
    #[inline(always)]
    pub fn holds(&self, slot: u32) -> bool
        ensures yes { result ≡ true → 1 ≤ times_in slot self.now.lists }
        ensures no { 1 ≤ times_in slot self.now.lists → result ≡ true }
        ensures within { result ≡ true → slot ≤ self.now.room }
    {
        self.links.holds(slot)
    }

    /// The list that a slot is in.
    #[inline(always)]
    pub fn list_of(&self, slot: u32) -> usize
        requires { slot ≤ self.now.room }
        ensures { (list : ℕ) → list < length self.now.lists →
            1 ≤ times slot (slice_index_or self.now.lists list []) → result ≡ list }
    {
        self.links.list_of(slot)
    }

    /// The value of a slot.
    #[inline(always)]
    pub fn at(&self, slot: u32) -> &T
        requires { slot ≤ self.now.room }
        ensures { (d : T) → result.now ≡ slice_index_or self.now.values slot d }
    {
        &self.values[slot as usize]
    }

    /// Writes the value of a slot.
    #[inline(always)]
    pub fn set(&mut self, slot: u32, value: T)
        requires { slot ≤ self.old.room }
        ensures { self.new ≡ record self.old { values = slice_set self.old.values slot value } }
    {
        self.values[slot as usize] = value;
    }

    /// The slot that was freed last, which the next value gets.
    #[inline(always)]
    pub fn free_slot(&self) -> u32
        requires { 1 ≤ length self.now.free }
        ensures { last_of self.now.free ≡ Some result }
    {
        self.links.free_slot()
    }

    /// Puts a value behind all others of a list, into the slot that was freed last: the slot.
    #[inline(always)]
    pub fn push_back(&mut self, list: usize, value: T) -> u32
        requires list { list < length self.old.lists }
        requires room { 1 ≤ length self.old.free }
        ensures slot { last_of self.old.free ≡ Some result }
        ensures count { length self.new.lists ≡ length self.old.lists }
        ensures fresh { times_in result self.old.lists ≡ 0 }
        ensures others { map (without result) self.new.lists ≡ self.old.lists }
        ensures state { self.new ≡ record self.old {
          free = without result self.old.free;
          lists = with_last list result self.old.lists;
          values = slice_set self.old.values result value;
        } }
    {
        let slot = self.links.free_slot();
        self.links.move_to_back(slot, list);
        self.set(slot, value);
        slot
    }

    /// Takes the first value of a list out: what it was. Its slot is free then.
    #[inline(always)]
    pub fn pop_front(&mut self, list: usize) -> Option<T>
        requires { list < length self.old.lists }
        ensures count { length self.new.lists ≡ length self.old.lists }
        ensures none { slice_index_or self.old.lists list [] ≡ [] → result ≡ None }
        ensures empty { result ≡ None → slice_index_or self.old.lists list [] ≡ [] }
        ensures unchanged { slice_index_or self.old.lists list [] ≡ [] → self.new ≡ self.old }
        ensures value { (slot : ℕ) (rest : List ℕ) (d : T) → slice_index_or self.old.lists list [] ≡ slot ∷ rest →
            result ≡ Some (slice_index_or self.old.values slot d) }
        ensures state { (slot : ℕ) (rest : List ℕ) → slice_index_or self.old.lists list [] ≡ slot ∷ rest →
            self.new ≡ record self.old {
              free = self.old.free ++ slot ∷ [];
              lists = slice_set self.old.lists list rest;
            } }
    {
        let slot = self.links.first(list)?;
        Some(self.remove(slot))
    }

    /// Takes a value out, from whichever list it is in: what it was. Its slot is free then.
    #[inline(always)]
    pub fn remove(&mut self, slot: u32) -> T
        requires { 1 ≤ times_in slot self.old.lists }
        ensures value { (d : T) → result ≡ slice_index_or self.old.values slot d }
        ensures count { length self.new.lists ≡ length self.old.lists }
        ensures others { map (without slot) self.new.lists ≡ map (without slot) self.old.lists }
        ensures gone { times_in slot self.new.lists ≡ 0 }
        ensures state { self.new ≡ record self.old {
          free = self.old.free ++ slot ∷ [];
          lists = map (without slot) self.old.lists;
        } }
    {
        self.links.give_back(slot);
        *self.at(slot)
    }

    /// Takes all values of a list out. Their slots are free then, that of the last one for the next to come. It takes as
    /// many steps as there were values.
    pub fn clear(&mut self, list: usize)
        requires { list < length self.old.lists }
        ensures count { length self.new.lists ≡ length self.old.lists }
        ensures state { self.new ≡ record self.old {
          free = self.old.free ++ slice_index_or self.old.lists list [];
          lists = slice_set self.old.lists list [];
        } }
    {
        while self.pop_front(list).is_some() {}
    }

    /// Takes a value from its place and puts it behind all others of a list, of its own or another one. It keeps its
    /// slot.
    #[inline(always)]
    pub fn move_to_back(&mut self, slot: u32, list: usize)
        requires slot { 1 ≤ times_in slot self.old.lists }
        requires list { list < length self.old.lists }
        ensures count { length self.new.lists ≡ length self.old.lists }
        ensures others { map (without slot) self.new.lists ≡ map (without slot) self.old.lists }
        ensures state { self.new ≡ record self.old {
          lists = with_last list slot (map (without slot) self.old.lists);
        } }
    {
        self.links.move_to_back(slot, list);
    }
}

/// So many copies of a value.
fn filled<T: Copy>(alloc: Global, count: usize, value: T) -> Result<Vec<T>, AllocError>
    ensures { IfOk result (λ xs. xs.items ≡ replicate count value) }
{
    let mut values = Vec::with_capacity(alloc, count)?;
    for _ in 0..count {
        values.push_reserved(value);
    }
    Ok(values)
}
