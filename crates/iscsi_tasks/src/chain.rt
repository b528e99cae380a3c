//! The members of a set, each in a slot and linked to those beside it.

ghost use Rattle.std.specs.Prelude.{◌≡◌, ℕ, ◌+◌, ◌-◌, ◌<◌, ◌≤◌, ◌++◌, [], ◌∷◌, true, length, slice_index_or, slice_set, vec_len, vec_capacity, IfOk};
ghost use Rattle.std.specs.List.{remove};
ghost use Rattle.iscsi_slots.specs.Slots.{times};
ghost use Rattle.iscsi_tasks.specs.declared.member.Member.{Member};
ghost use Rattle.iscsi_tasks.specs.Chains.{AreApart, chained, member_of, node_at, freed_before, IsTaken};
ghost use Rattle.iscsi_tasks.specs.Counted.{enabled_now, given_now};

use crate::node::{ENDS, FREE, Node, link, link_last};
use crate::task::Task;
use std::alloc::{AllocError, Global};
use std::marker::Model;

/// The members of a set, each in a slot and linked to the one that entered before it and the one that entered after it.
///
/// A member keeps its slot until it leaves. Then those beside it are linked to each other, and nothing moves.
pub(crate) struct Chain {
    /// That of `ENDS` has no command: it is behind the last one, and before the first one.
    nodes: Vec<Node>,
    /// The slot that was freed last, where one is free.
    free: u16,
    len: usize,
    /// The most members: there is memory for their nodes.
    room: usize,
}

impl Drop for Chain {
    fn drop(self) {
        let Chain {
            nodes: _nodes,
            free: _free,
            len: _len,
            room: _room,
        } = self;
    }
}

impl Model for Chain {
    ghost use Rattle.std.specs.Prelude.{map, vec_capacity};
    ghost use Rattle.iscsi_tasks.specs.Chains.{Chained, chained, order_in, member_at, IsChained};

    ghost Value = { Chained };

    ghost view = { λ c. let slots = order_in c.nodes.items c.len in
        chained slots (map (member_at c.nodes.items) slots) c.room };

    ghost invariant = { λ c. IsChained c.nodes.items (vec_capacity c.nodes) c.free c.len c.room };
}

impl Chain {
    /// None yet, with room for so many, 1,024 at the most. It takes all its memory here.
    pub(crate) fn with_room(alloc: Global, room: usize) -> Result<Chain, AllocError>
        requires { room ≤ 1024 }
        ensures { IfOk result (λ c. c ≡ chained [] [] room) }
    {
        let mut nodes = Vec::with_capacity(alloc, room + 1)?;
        nodes.push_reserved(Node::blank());
        Ok(Chain {
            nodes,
            free: ENDS,
            len: 0,
            room,
        })
    }

    /// How many members there are.
    pub(crate) fn len(&self) -> usize
        ensures len { result ≡ length self.now.members }
        ensures slots { result ≡ length self.now.slots }
        ensures within { result ≤ self.now.room }
        ensures few { self.now.room ≤ 1024 }
        ensures apart { AreApart self.now.slots }
    {
        self.len
    }

    /// The slot of the oldest member, and `ENDS` where there is none.
    pub(crate) fn oldest(&self) -> u16
        ensures { result ≡ slice_index_or self.now.slots 0 0 }
    {
        self.nodes[usize::from(ENDS)].after
    }

    /// The slot behind this one, and `ENDS` where it is the last one.
    pub(crate) fn after(&self, slot: u16) -> u16
        requires { 1 ≤ times slot self.now.slots }
        ensures { (k : ℕ) → k < length self.now.slots → slice_index_or self.now.slots k 0 ≡ slot →
            result ≡ slice_index_or self.now.slots (k + 1) 0 }
    {
        self.nodes[usize::from(slot)].after
    }

    /// The member in a slot.
    pub(crate) fn at(&self, slot: u16) -> &Node
        requires { 1 ≤ times slot self.now.slots }
        ensures { (k : ℕ) (d : Member) → k < length self.now.slots → slice_index_or self.now.slots k 0 ≡ slot →
            member_of result.now ≡ slice_index_or self.now.members k d }
    {
        &self.nodes[usize::from(slot)]
    }

    /// Whether a slot has a member.
    pub(crate) fn holds(&self, slot: u16) -> bool
        ensures yes { result ≡ true → 1 ≤ times slot self.now.slots }
        ensures no { 1 ≤ times slot self.now.slots → result ≡ true }
        ensures long { length self.now.slots ≡ length self.now.members }
    {
        slot != ENDS
            && usize::from(slot) < self.nodes.len()
            && self.nodes[usize::from(slot)].before != FREE
    }

    /// A member is enabled from now on.
    pub(crate) fn enable(&mut self, slot: u16)
        requires { 1 ≤ times slot self.old.slots }
        ensures { (k : ℕ) (d : Member) → k < length self.old.slots → slice_index_or self.old.slots k 0 ≡ slot →
            self.new ≡ record self.old {
              members = slice_set self.old.members k
                  (enabled_now (slice_index_or self.old.members k d));
            } }
    {
        self.nodes[usize::from(slot)].enabled = true;
    }

    /// A member's ticket is given from now on.
    pub(crate) fn give(&mut self, slot: u16)
        requires { 1 ≤ times slot self.old.slots }
        ensures { (k : ℕ) (d : Member) → k < length self.old.slots → slice_index_or self.old.slots k 0 ≡ slot →
            self.new ≡ record self.old {
              members = slice_set self.old.members k
                  (given_now (slice_index_or self.old.members k d));
            } }
    {
        self.nodes[usize::from(slot)].given = true;
    }

    /// A member enters, behind all others: its slot.
    #[inline(always)]
    pub(crate) fn push(&mut self, task: Task, enabled: bool, given: bool) -> u16
        requires { length self.old.slots < self.old.room }
        ensures state { self.new ≡ chained (self.old.slots ++ result ∷ [])
            (self.old.members ++ record { task = task; enabled = enabled; given = given } ∷ []) self.old.room }
        ensures apart { AreApart self.new.slots }
    {
        let last = self.nodes[usize::from(ENDS)].before;
        let node = Node {
            task,
            enabled,
            given,
            before: last,
            after: ENDS,
        };
        let slot = take(&mut self.nodes, &mut self.free, self.len, node);
        link_last(&mut self.nodes, last, slot);
        self.len += 1;
        slot
    }

    /// The member in a slot leaves.
    pub(crate) fn remove(&mut self, slot: u16)
        requires { 1 ≤ times slot self.old.slots }
        ensures { (k : ℕ) → k < length self.old.slots → slice_index_or self.old.slots k 0 ≡ slot →
            self.new ≡ chained (remove self.old.slots k) (remove self.old.members k) self.old.room }
    {
        let Node { before, after, .. } = self.nodes[usize::from(slot)];
        link(&mut self.nodes, before, after);
        give_back(&mut self.nodes, self.free, slot);
        self.free = slot;
        self.len -= 1;
    }
}

/// Puts a node into the slot that was freed last, or into a new one where `len` members have all of them: the slot.
#[inline(always)]
fn take(nodes: &mut Vec<Node>, free: &mut u16, len: usize, node: Node) -> u16
    requires some { 1 ≤ length nodes.old.items }
    requires room { length nodes.old.items ≡ len + 1 → vec_len nodes.old < vec_capacity nodes.old }
    requires short { length nodes.old.items ≤ 65535 }
    requires free { len + 1 < length nodes.old.items → free.old < length nodes.old.items }
    requires most { len + 1 ≤ length nodes.old.items }
    ensures taken { IsTaken nodes.old.items free.old len node nodes.new.items free.new result }
    ensures capacity { vec_capacity nodes.new ≡ vec_capacity nodes.old }
{
    if len + 1 < nodes.len() {
        let slot = *free;
        *free = nodes[usize::from(slot)].after;
        nodes[usize::from(slot)] = node;
        return slot;
    }
    let slot = nodes.len() as u16;
    nodes.push_reserved(node);
    slot
}

/// A slot is free from now on, and the one that was freed before it stands behind it.
#[inline(always)]
fn give_back(nodes: &mut Vec<Node>, free: u16, slot: u16)
    requires { slot < length nodes.old.items }
    ensures nodes { nodes.new.items
        ≡ slice_set nodes.old.items slot (freed_before free (node_at nodes.old.items slot)) }
    ensures capacity { vec_capacity nodes.new ≡ vec_capacity nodes.old }
{
    let node = &mut nodes[usize::from(slot)];
    node.before = FREE;
    node.after = free;
}
