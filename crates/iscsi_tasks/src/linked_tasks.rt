//! The commands of a unit, each in its slot: what both task sets are made of.

ghost use Rattle.std.specs.Prelude.{Err, ◌≡◌, ◌+◌, ◌<◌, ◌≤◌, ◌⊎◌, ◌↔◌, ◌++◌, ℕ, List, [], ◌∷◌, ◌&&◌, true, false, length, filter, map, slice_index_or, Some, All, IfOk, IfErr, OnErr, vec_len, vec_capacity};
ghost use Rattle.std.specs.List.{remove};
ghost use Rattle.iscsi_slots.specs.Slots.{times};
ghost use Rattle.iscsi_tasks.specs.declared.member.Member.{Member};
ghost use Rattle.iscsi_tasks.specs.Sets.{tasks_in, opened, IsNewest, entered_to, refused_by, left_by, is_covered, is_new, set_staying, next_in, given_by};
ghost use Rattle.iscsi_tasks.specs.Changes.{Change, Left, StandsFor, live, next_after, after_giving, after_all_left};
ghost use Rattle.iscsi_tasks.specs.Counted.{taken_in, covered_from_with};
ghost use Rattle.iscsi_tasks.specs.Chains.{member_of};
ghost use Rattle.iscsi_tasks.specs.Marked.{HasTicket, is_free_by, IsSlotOf};
ghost use Rattle.iscsi_tasks.specs.Linked.{linked, IsInSlots};

use crate::chain::Chain;
use crate::cover::Cover;
use crate::fault::TaskFault;
use crate::linked_front::{first_number, numbers_along, remove_covered};
use crate::linked_queue::{give_next, is_slot_of, let_go, push, seek, slot_of};
use crate::marks::Marks;
use crate::node::Node;
use crate::numbers::ascends_with;
use crate::task::{Attr, Task};
use std::alloc::Global;
use std::marker::Model;

/// The most commands that a task set may hold.
const MOST_TASKS: u32 = 1024;

/// The commands of one logical unit that entered its task set and didn't leave it, each in its slot, and which of them
/// the unit may execute.
///
/// No command is tested twice. Marks and the links between the commands tell what a leaving enables. And a number is
/// kept below which no function covers a command, so that a function with a lower one looks at none.
pub(crate) struct LinkedTasks {
    depth: u32,
    /// How many commands the last call of `take_in` tested for being free.
    looked: u32,
    /// No function with a number below this one covers a command.
    covered_from: i64,
    /// Whether the numbers from which on functions may cover the commands go up along them ..
    ascends: bool,
    /// .. and none is above this one then.
    ascends_to: i64,
    marks: Marks,
    chain: Chain,
}

impl Drop for LinkedTasks {
    fn drop(self) {
        let LinkedTasks {
            depth: _depth,
            looked: _looked,
            covered_from: _covered_from,
            ascends: _ascends,
            ascends_to: _ascends_to,
            marks: _marks,
            chain: _chain,
        } = self;
    }
}

impl Model for LinkedTasks {
    ghost use Rattle.std.specs.Prelude.{◌≡◌};
    ghost use Rattle.iscsi_tasks.specs.Linked.{Linked, linked};
    ghost use Rattle.iscsi_tasks.specs.Marked.{IsKeptLinked};

    ghost Value = { Linked };

    ghost view = { λ s. linked (record { depth = s.depth; looked = s.looked; list = s.chain.members }) s.chain.slots };

    ghost invariant = { λ s. IsKeptLinked s.depth s.chain.room s.covered_from s.ascends s.ascends_to s.marks
        s.chain.slots s.chain.members };
}

impl LinkedTasks {
    /// None yet, and room for `depth` commands, from 1 to 1024. It takes all its memory here.
    ///
    /// Refusals, in order: `BadDepth`, `NoMemory`.
    pub(crate) fn open(alloc: Global, depth: u32) -> Result<LinkedTasks, TaskFault>
        ensures ok { IfOk result (λ s. s ≡ linked (opened depth) []) }
        ensures sound { IfOk result (λ s. IsInSlots s) }
        ensures bad_depth { (result ≡ Err TaskFault.BadDepth) ↔ ((depth < 1) ⊎ (1024 < depth)) }
        ensures stands { IfOk result (λ s. StandsFor s.shown []) }
    {
        if depth < 1 || depth > MOST_TASKS {
            return Err(TaskFault::BadDepth);
        }
        let chain = Chain::with_room(alloc, depth as usize).map_err(|_| TaskFault::NoMemory)?;
        Ok(LinkedTasks {
            depth,
            looked: 0,
            covered_from: i64::MAX,
            ascends: true,
            ascends_to: i64::MAX,
            marks: Marks::new(),
            chain,
        })
    }

    /// How many commands there are.
    #[inline(always)]
    pub(crate) fn len(&self) -> usize
        ensures { result ≡ length self.now.shown.list }
    {
        self.chain.len()
    }

    /// The most commands that there may be.
    #[inline(always)]
    pub(crate) fn depth(&self) -> u32
        ensures { result ≡ self.now.shown.depth }
    {
        self.depth
    }

    /// How many commands the last call of `take_in` tested for being free.
    #[inline(always)]
    pub(crate) fn looked(&self) -> u32
        ensures { result ≡ self.now.shown.looked }
    {
        self.looked
    }

    /// The slot of the oldest command, and `ENDS` where there is none.
    #[inline(always)]
    pub(crate) fn oldest(&self) -> u16
        ensures { result ≡ slice_index_or self.now.slots 0 0 }
    {
        self.chain.oldest()
    }

    /// The slot behind this one, and `ENDS` where it is the last one.
    #[inline(always)]
    pub(crate) fn after(&self, slot: u16) -> u16
        requires { 1 ≤ times slot self.now.slots }
        ensures { (k : ℕ) → k < length self.now.slots → slice_index_or self.now.slots k 0 ≡ slot →
            result ≡ slice_index_or self.now.slots (k + 1) 0 }
    {
        self.chain.after(slot)
    }

    /// The command in a slot.
    #[inline(always)]
    pub(crate) fn at(&self, slot: u16) -> &Node
        requires { 1 ≤ times slot self.now.slots }
        ensures { (k : ℕ) (d : Member) → k < length self.now.slots → slice_index_or self.now.slots k 0 ≡ slot →
            member_of result.now ≡ slice_index_or self.now.shown.list k d }
    {
        self.chain.at(slot)
    }

    /// The slot of the command with this ticket. It looks at the slot `guess` first, and then along the set.
    #[inline(always)]
    pub(crate) fn slot_of(&self, ticket: u64, guess: u16) -> Option<u16>
        ensures { IsSlotOf self.now.slots self.now.shown.list ticket result }
    {
        slot_of(&self.chain, ticket, guess)
    }

    /// Whether the command in this slot is there, and has this ticket.
    #[inline(always)]
    pub(crate) fn is_slot_of(&self, ticket: u64, slot: u16) -> bool
        ensures { result ≡ true → HasTicket self.now.slots self.now.shown.list ticket slot }
    {
        is_slot_of(&self.chain, ticket, slot)
    }

    /// The slot of the command with this ticket. It looks along the set.
    pub(crate) fn seek(&self, ticket: u64) -> Option<u16>
        ensures { IsSlotOf self.now.slots self.now.shown.list ticket result }
    {
        seek(&self.chain, ticket)
    }

    /// Whether no command is enabled and wasn't given. False tells nothing.
    #[inline(always)]
    pub(crate) fn is_none_new(&self) -> bool
        ensures { result ≡ true → All (λ m. is_new m ≡ false) self.now.shown.list }
    {
        self.marks.is_none_new()
    }

    /// Whether a command may be covered. False tells that none is. It looks at no command.
    #[inline(always)]
    pub(crate) fn may_cover(&self, cover: &Cover) -> bool
        ensures { result ≡ false → All (λ t. is_covered cover.now t ≡ false) (tasks_in self.now.shown) }
    {
        !cover.is_below(self.covered_from)
    }

    /// The command enters behind all others. Where it `gives`, its ticket is given at once if it is enabled. Where the
    /// set is full it comes back.
    #[inline(always)]
    pub(crate) fn take_in(&mut self, task: Task, gives: bool) -> Result<Taken, Task>
        requires { IsNewest task.ticket self.old.shown }
        ensures ok { IfOk result (λ taken. (length self.old.shown.list < self.old.shown.depth)
            × (self.new ≡ linked (taken_in self.old.shown task taken.enabled (gives && taken.enabled))
            (self.old.slots ++ taken.slot ∷ []))
            × (entered_to self.old.shown task ≡ taken_in self.old.shown task taken.enabled false)) }
        ensures full { OnErr result ((length self.old.shown.list ≡ self.old.shown.depth)
            × (self.new ≡ linked (refused_by self.old.shown) self.old.slots)) }
        ensures back { IfErr result (λ t. t ≡ task) }
        ensures sound { IsInSlots self.new }
    {
        let len = self.chain.len();
        self.looked = 0;
        if len == self.depth as usize {
            return Err(task);
        }
        let enabled = test_free(&mut self.looked, &self.marks, len, task.attr);
        self.covered_from = covered_from_with(self.covered_from, len, &task);
        self.ascends = ascends_with(self.ascends, self.ascends_to, len, &task);
        self.ascends_to = task.covered_from();
        let given = gives && enabled;
        let slot = push(&mut self.chain, &mut self.marks, task, enabled, given);
        Ok(Taken { slot, enabled })
    }

    /// The command in this slot leaves, and what becomes free by that is enabled.
    #[inline(always)]
    pub(crate) fn let_go(&mut self, slot: u16) -> Task
        requires { 1 ≤ times slot self.old.slots }
        ensures state { (k : ℕ) (d : Member) → k < length self.old.slots → slice_index_or self.old.slots k 0 ≡ slot →
            (result ≡ (slice_index_or self.old.shown.list k d).task)
            × (self.new ≡ linked (left_by self.old.shown (Some result)) (remove self.old.slots k)) }
        ensures sound { IsInSlots self.new }
        ensures stands { (h : List Change) → StandsFor self.old.shown h →
            StandsFor self.new.shown (Left result.ticket ∷ h) }
    {
        let task = self.chain.at(slot).task;
        let_go(&mut self.chain, &mut self.marks, slot);
        task
    }

    /// All covered commands leave, and what becomes enabled does so in one moment behind them. Their tickets are
    /// appended to `left`, the oldest first.
    #[tactic(auto, using(crate::proofs::StayingLemmas::set_stays, crate::proofs::PassingLemmas::none_left, crate::proofs::StayingLemmas::staying_set, std::proofs::lemmas::Grind::common_steps))]
    pub(crate) fn leave_covered(&mut self, cover: &Cover, left: &mut Vec<u64>)
        requires room { vec_len left.old + length self.old.shown.list ≤ vec_capacity left.old }
        ensures state { self.new.shown ≡ set_staying (is_covered cover.now) self.old.shown }
        ensures left { left.new.items ≡ left.old.items
            ++ map (λ t. t.ticket) (filter (is_covered cover.now) (tasks_in self.old.shown)) }
        ensures capacity { vec_capacity left.new ≡ vec_capacity left.old }
        ensures sound { IsInSlots self.new }
        ensures stands { (h : List Change) → StandsFor self.old.shown h →
            StandsFor self.new.shown (after_all_left (filter (is_covered cover.now) (live h)) h) }
    {
        if !self.may_cover(cover) {
            return;
        }
        remove_covered(&mut self.chain, &mut self.marks, self.ascends, cover, left);
        self.renumber(cover);
    }

    /// The oldest enabled ticket that no call gave before.
    #[inline(always)]
    pub(crate) fn next_new(&mut self) -> Option<u64>
        ensures answer { result ≡ next_in self.old.shown.list }
        ensures state { self.new ≡ linked (given_by self.old.shown) self.old.slots }
        ensures sound { IsInSlots self.new }
        ensures stands { (h : List Change) → StandsFor self.old.shown h →
            (result ≡ next_after h) × StandsFor self.new.shown (after_giving result h) }
    {
        give_next(&mut self.chain, &mut self.marks)
    }

    /// Determines anew from which number on functions may cover commands, once one has covered some or looked for them,
    /// so that the next one like it needn't look along the set. Where they didn't go up along it they may do so now.
    pub(crate) fn renumber(&mut self, cover: &Cover)
        ensures { self.new ≡ self.old }
    {
        let Cover::Below { .. } = *cover else {
            return;
        };
        if self.ascends {
            self.covered_from = first_number(&self.chain);
            return;
        }
        let numbers = numbers_along(&self.chain);
        self.covered_from = numbers.least;
        self.ascends = numbers.ascends;
        self.ascends_to = numbers.most;
    }
}

/// A command that was taken in.
#[derive(Clone, Copy)]
pub(crate) struct Taken {
    pub(crate) slot: u16,
    pub(crate) enabled: bool,
}

/// Whether a command is free, when it enters behind `len` others. Each such test is made here, and counted.
fn test_free(looked: &mut u32, marks: &Marks, len: usize, attr: Attr) -> bool
    requires { looked.old < 1 }
    ensures value { result ≡ is_free_by marks.now len attr }
    ensures looked { looked.new ≡ looked.old + 1 }
{
    *looked += 1;
    marks.is_free_behind(len, attr)
}

/// From which number on functions may cover commands of a set, once this one has entered it behind `len` others.
fn covered_from_with(covered_from: i64, len: usize, task: &Task) -> i64
    ensures { result ≡ covered_from_with covered_from len task.now }
{
    if len == 0 {
        task.covered_from()
    } else {
        covered_from.min(task.covered_from())
    }
}
