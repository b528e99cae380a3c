//! The slots of many lists, linked.

ghost use Rattle.std.specs.Prelude.{◌≡◌, ℕ, ◌+◌, ◌<◌, ◌≤◌, ◌++◌, List, [], ◌∷◌, Some, true, length, replicate, slice_index_or, vec_capacity, IfOk, IfSome};
ghost use Rattle.iscsi_slots.specs.Slots.{times};
ghost use Rattle.iscsi_lists.specs.Lists.{AreApart, times_in, linked, freed, moved, first_of, last_of, counted};
ghost use Rattle.iscsi_lists.specs.Linking.{first_links, a_slot};

use crate::link::{Link, move_before};
use std::alloc::{AllocError, Global};
use std::marker::Model;

/// What a free slot has in place of its list.
const NOWHERE: u32 = u32::MAX;

/// Which slots are in which list, and in which order.
///
/// All slots stand in one chain of nodes, and so do heads, which are no slots: node 0, the free slots, and for each
/// list its head and its slots; behind the last list stands one head more. So a slot that goes to the end of a list
/// stands in front of the next head, and there is no special case.
pub(crate) struct Links {
    /// Node 0, the slots from 1 on, and the heads of the lists.
    nodes: Vec<Link>,
    room: usize,
    lists: usize,
}

impl Drop for Links {
    fn drop(self) {
        let Links {
            nodes: _nodes,
            room: _room,
            lists: _lists,
        } = self;
    }
}

impl Model for Links {
    ghost use Rattle.iscsi_lists.specs.Lists.{Linked};
    ghost use Rattle.iscsi_lists.specs.Linking.{view_of, IsLinked};

    ghost Value = { Linked };

    ghost view = { λ s. view_of s.nodes.items s.lists s.room };

    ghost invariant = { λ s. IsLinked s.nodes.items s.lists s.room };
}

impl Links {
    /// So many lists without a slot, and so many slots, all free. It takes all its memory here.
    pub(crate) fn with_room(alloc: Global, lists: usize, room: usize) -> Result<Links, AllocError>
        requires { room + lists + 2 ≤ 4294967295 }
        ensures state { IfOk result (λ s. s ≡ linked (counted 1 room) (replicate lists []) room) }
        ensures apart { IfOk result (λ s. AreApart s) }
    {
        let last = (room + lists + 1) as u32;
        let mut nodes = Vec::with_capacity(alloc, room + lists + 2)?;
        chain_up(&mut nodes, last);
        nodes.push_reserved(Link {
            before: last - 1,
            after: 0,
            list: 0,
        });
        Ok(Links { nodes, room, lists })
    }

    /// The slot that is taken next.
    #[inline(always)]
    pub(crate) fn free_slot(&self) -> u32
        requires { 1 ≤ length self.now.free }
        ensures slot { last_of self.now.free ≡ Some result }
        ensures there { 1 ≤ times result self.now.free }
    {
        self.nodes[self.room + 1].before
    }

    /// How many slots and lists there are at most.
    #[inline(always)]
    pub(crate) fn known(&self)
        ensures { self.now.room + length self.now.lists + 2 ≤ 4294967295 }
    {
        let _room = self.room;
    }

    /// Whether no slot is free.
    #[inline(always)]
    pub(crate) fn is_full(&self) -> bool
        ensures yes { result ≡ true → self.now.free ≡ [] }
        ensures no { self.now.free ≡ [] → result ≡ true }
    {
        self.nodes[self.room + 1].before == 0
    }

    /// The first slot of a list.
    #[inline(always)]
    pub(crate) fn first(&self, list: usize) -> Option<u32>
        requires { list < length self.now.lists }
        ensures slot { result ≡ first_of (slice_index_or self.now.lists list []) }
        ensures within { IfSome result (λ s. s ≤ self.now.room) }
    {
        slot_at(self.room, self.nodes[self.room + 1 + list].after)
    }

    /// The slot behind another one of its list.
    pub(crate) fn next(&self, slot: u32) -> Option<u32>
        requires { slot ≤ self.now.room }
        ensures slot { (list : ℕ) (before after : List ℕ) → list < length self.now.lists →
            slice_index_or self.now.lists list [] ≡ before ++ slot ∷ after → result ≡ first_of after }
        ensures within { IfSome result (λ s. s ≤ self.now.room) }
    {
        slot_at(self.room, self.nodes[slot as usize].after)
    }

    /// The slot before another one of its list.
    pub(crate) fn previous(&self, slot: u32) -> Option<u32>
        requires { slot ≤ self.now.room }
        ensures slot { (list : ℕ) (before after : List ℕ) → list < length self.now.lists →
            slice_index_or self.now.lists list [] ≡ before ++ slot ∷ after → result ≡ last_of before }
        ensures within { IfSome result (λ s. s ≤ self.now.room) }
    {
        slot_at(self.room, self.nodes[slot as usize].before)
    }

    /// Whether a slot is in a list.
    #[inline(always)]
    pub(crate) fn holds(&self, slot: u32) -> bool
        ensures yes { result ≡ true → 1 ≤ times_in slot self.now.lists }
        ensures no { 1 ≤ times_in slot self.now.lists → result ≡ true }
    {
        1 <= slot && slot as usize <= self.room && self.nodes[slot as usize].list != NOWHERE
    }

    /// The list that a slot is in.
    #[inline(always)]
    pub(crate) fn list_of(&self, slot: u32) -> usize
        requires { slot ≤ self.now.room }
        ensures { (list : ℕ) → list < length self.now.lists →
            1 ≤ times slot (slice_index_or self.now.lists list []) → result ≡ list }
    {
        self.nodes[slot as usize].list as usize
    }

    /// A slot goes to the end of a list.
    #[inline(always)]
    pub(crate) fn move_to_back(&mut self, slot: u32, list: usize)
        requires slot { 1 ≤ slot }
        requires within { slot ≤ self.old.room }
        requires list { list < length self.old.lists }
        ensures state { self.new ≡ moved slot list self.old }
        ensures apart { AreApart self.new }
    {
        let target = (self.room + list + 2) as u32;
        move_before(&mut self.nodes, slot, target, list as u32);
    }

    /// A slot is free from now on, and the next one to be taken.
    #[inline(always)]
    pub(crate) fn give_back(&mut self, slot: u32)
        requires slot { 1 ≤ slot }
        requires within { slot ≤ self.old.room }
        ensures state { self.new ≡ freed slot self.old }
        ensures apart { AreApart self.new }
    {
        let target = (self.room + 1) as u32;
        move_before(&mut self.nodes, slot, target, NOWHERE);
    }
}

/// A node, where it is a slot and no head.
#[inline(always)]
fn slot_at(room: usize, node: u32) -> Option<u32>
    ensures slot { result ≡ a_slot room node }
    ensures within { IfSome result (λ s. s ≤ room) }
{
    if room < node as usize {
        return None;
    }
    Some(node)
}

/// So many nodes, each linked to the one before it and the one behind it.
fn chain_up(nodes: &mut Vec<Link>, count: u32)
    requires none { nodes.old.items ≡ [] }
    requires room { count ≤ vec_capacity nodes.old }
    ensures nodes { nodes.new.items ≡ first_links count }
    ensures capacity { vec_capacity nodes.new ≡ vec_capacity nodes.old }
{
    for node in 0..count {
        nodes.push_reserved(Link {
            before: node.saturating_sub(1),
            after: node + 1,
            list: NOWHERE,
        });
    }
}
