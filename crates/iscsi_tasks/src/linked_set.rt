//! The task set whose commands stay in their slots.

ghost use Rattle.std.specs.Prelude.{Err, ◌≡◌, ◌+◌, ◌<◌, ◌≤◌, ◌⊎◌, ◌↔◌, ◌++◌, List, [], ◌∷◌, true, false, length, filter, map, IsTrue, IfOk, IfErr, OnOk, OnErr, vec_len, vec_capacity, if◌then◌else◌, None};
ghost use Rattle.iscsi_tasks.specs.Sets.{tasks_in, opened, InOrder, IsNewest, entered_to, refused_by, left_by, with_ticket, is_covered, set_staying, is_enabled_in, next_in, given_by};
ghost use Rattle.iscsi_tasks.specs.Changes.{Change, Entered as EnteredOne, AllBelow, StandsFor, live, IsEnabled, next_after, after_giving, after_leaving, after_all_left};

use crate::cover::Cover;
use crate::fault::TaskFault;
use crate::linked_tasks::LinkedTasks;
use crate::task::{Task, ticket_if};
use std::alloc::Global;
use std::marker::Model;

/// What comes of a command that enters a set.
#[derive(Clone, Copy, Debug, PartialEq, Eq)]
pub struct Entered {
    /// The slot that the command has until it leaves. A caller that hands it back has the command found at once. No
    /// clause says so, as the set looks whether the command is there.
    pub slot: u16,
    /// The oldest enabled ticket that no call gave before.
    pub ticket: Option<u64>,
}

/// The commands of one logical unit that entered its task set and didn't leave it, and which of them the unit may
/// execute (SAM-5): what `TaskSet` is, for callers that keep the slot of each command.
///
/// Each command has a slot, which it keeps until it leaves, and is linked to the one that entered before it and the one
/// that entered after it. So nothing is searched for where the caller tells the slot, and nothing closes up as a
/// command leaves. A slot that isn't that of the command costs a walk along the set, and changes no answer.
pub struct LinkedTaskSet {
    tasks: LinkedTasks,
}

impl Drop for LinkedTaskSet {
    fn drop(self) {
        let LinkedTaskSet { tasks: _tasks } = self;
    }
}

impl Model for LinkedTaskSet {
    ghost use Rattle.iscsi_tasks.specs.Sets.{Members};
    ghost use Rattle.iscsi_tasks.specs.Linked.{IsInSlots};

    ghost Value = { Members };

    ghost view = { λ s. s.tasks.shown };

    ghost invariant = { λ s. IsInSlots s.tasks };
}

impl LinkedTaskSet {
    /// Opens an empty set for at most `depth` commands, from 1 to 1024. It takes all its memory here.
    ///
    /// Refusals, in order: `BadDepth`, `NoMemory`.
    pub fn open(alloc: Global, depth: u32) -> Result<LinkedTaskSet, TaskFault>
        ensures ok { IfOk result (λ s. s ≡ opened depth) }
        ensures bad_depth { (result ≡ Err TaskFault.BadDepth) ↔ ((depth < 1) ⊎ (1024 < depth)) }
        ensures stands { IfOk result (λ s. StandsFor s []) }
    {
        let tasks = LinkedTasks::open(alloc, depth)?;
        Ok(LinkedTaskSet { tasks })
    }

    /// How many commands the set holds.
    pub fn len(&self) -> u32
        ensures len { result ≡ length self.now.list }
        ensures bound { length self.now.list ≤ self.now.depth }
        ensures order { InOrder self.now.list }
        ensures stands { (h : List Change) → StandsFor self.now h → result ≡ length (live h) }
    {
        self.tasks.len() as u32
    }

    /// The most commands that the set may hold.
    pub fn depth(&self) -> u32
        ensures depth { result ≡ self.now.depth }
        ensures range { (1 ≤ self.now.depth) × (self.now.depth ≤ 1024) }
    {
        self.tasks.depth()
    }

    /// The command enters the set, behind all others: its ticket is greater than all before. And the oldest enabled
    /// ticket is given that no call gave before: where the others were given, that of the command itself if it is
    /// enabled. Where the set is full the command comes back. The cost doesn't grow with the set, where no other ticket
    /// waits to be given; else it looks for that as `next_new` does.
    #[inline(always)]
    pub fn enter_and_give(&mut self, task: Task) -> Result<Entered, Task>
        requires { IsNewest task.ticket self.old }
        ensures ok { OnOk result ((length self.old.list < self.old.depth)
            × (self.new ≡ given_by (entered_to self.old task))) }
        ensures given { IfOk result (λ e. e.ticket ≡ next_in (entered_to self.old task).list) }
        ensures full { OnErr result ((length self.old.list ≡ self.old.depth) × (self.new ≡ refused_by self.old)) }
        ensures back { IfErr result (λ t. t ≡ task) }
        ensures stands { (h : List Change) → StandsFor self.old h → AllBelow task.ticket h →
            IfOk result (λ e. (e.ticket ≡ next_after (EnteredOne task ∷ h))
            × StandsFor self.new (after_giving e.ticket (EnteredOne task ∷ h))) }
        ensures stands_full { (h : List Change) → StandsFor self.old h → OnErr result (StandsFor self.new h) }
    {
        let is_alone = self.tasks.is_none_new();
        let taken = self.tasks.take_in(task, is_alone)?;
        if !is_alone {
            let ticket = self.tasks.next_new();
            return Ok(Entered {
                slot: taken.slot,
                ticket,
            });
        }
        let ticket = ticket_if(taken.enabled, &task);
        Ok(Entered {
            slot: taken.slot,
            ticket,
        })
    }

    /// The command with this ticket leaves. Where there is none, nothing changes.
    ///
    /// It is sought in the slot, and where it isn't there, along the set. What grows with the set else are the search
    /// of the next ORDERED command, as the oldest one leaves, and the commands that become enabled.
    #[tactic(auto, using(crate::proofs::LinkedSetLemmas::slot_there, std::proofs::lemmas::Grind::common_steps))]
    pub fn leave(&mut self, ticket: u64, slot: u16) -> Option<Task>
        ensures answer { result ≡ with_ticket ticket (tasks_in self.old) }
        ensures state { self.new ≡ left_by self.old (with_ticket ticket (tasks_in self.old)) }
        ensures stands { (h : List Change) → StandsFor self.old h →
            (result ≡ with_ticket ticket (live h)) × StandsFor self.new (after_leaving result h) }
    {
        let slot = self.tasks.slot_of(ticket, slot)?;
        Some(self.tasks.let_go(slot))
    }

    /// The command with this ticket leaves if it is enabled, and the result tells whether it was. Else nothing changes.
    ///
    /// What grows with the set is what grows for `leave`.
    #[tactic(auto, using(crate::proofs::SearchLemmas::not_enabled, crate::proofs::LinkedSetLemmas::slot_there, std::proofs::lemmas::Grind::common_steps))]
    #[inline(always)]
    pub fn leave_enabled(&mut self, ticket: u64, slot: u16) -> bool
        ensures answer { result ≡ is_enabled_in ticket self.old.list }
        ensures left { result ≡ true → self.new ≡ left_by self.old (with_ticket ticket (tasks_in self.old)) }
        ensures stays { result ≡ false → self.new ≡ self.old }
        ensures since { (h : List Change) → StandsFor self.old h → IsTrue result ↔ IsEnabled ticket h }
        ensures stands { (h : List Change) → StandsFor self.old h →
            StandsFor self.new (after_leaving (if result then with_ticket ticket (live h) else None) h) }
    {
        // It mostly is in this slot. Else it leaves by a call of its own, so that the slot is one here.
        if !self.tasks.is_slot_of(ticket, slot) {
            return self.leave_sought(ticket);
        }
        if !self.tasks.at(slot).enabled {
            return false;
        }
        self.tasks.let_go(slot);
        true
    }

    /// The same, where the command is looked for along the set.
    #[tactic(auto, using(crate::proofs::SearchLemmas::not_enabled, crate::proofs::LinkedSetLemmas::slot_there, std::proofs::lemmas::Grind::common_steps))]
    #[inline(never)]
    fn leave_sought(&mut self, ticket: u64) -> bool
        ensures answer { result ≡ is_enabled_in ticket self.old.list }
        ensures left { result ≡ true → self.new ≡ left_by self.old (with_ticket ticket (tasks_in self.old)) }
        ensures stays { result ≡ false → self.new ≡ self.old }
        ensures since { (h : List Change) → StandsFor self.old h → IsTrue result ↔ IsEnabled ticket h }
        ensures stands { (h : List Change) → StandsFor self.old h →
            StandsFor self.new (after_leaving (if result then with_ticket ticket (live h) else None) h) }
    {
        let Some(sought) = self.tasks.seek(ticket) else {
            return false;
        };
        if !self.tasks.at(sought).enabled {
            return false;
        }
        self.tasks.let_go(sought);
        true
    }

    /// All covered commands leave, and what becomes enabled does so in one moment behind them. Where none is covered,
    /// nothing changes. Their tickets are appended to `left`, the oldest first.
    ///
    /// Where the commands entered in the order of their numbers, each immediate one with the number that was expected
    /// next, it looks at those of lower number than the function's, at the immediate ones of its own number, and at one
    /// behind them. Else, and for the other covers, it looks at each command, and for a function once more at each that
    /// stays. It looks at none where the function's number is too low to cover one of those that the set held since a
    /// function last covered commands or looked for some.
    pub fn leave_covered(&mut self, cover: &Cover, left: &mut Vec<u64>)
        requires room { vec_len left.old + length self.old.list ≤ vec_capacity left.old }
        ensures state { self.new ≡ set_staying (is_covered cover.now) self.old }
        ensures left { left.new.items ≡ left.old.items
            ++ map (λ t. t.ticket) (filter (is_covered cover.now) (tasks_in self.old)) }
        ensures capacity { vec_capacity left.new ≡ vec_capacity left.old }
        // It is as if they left one after the other, the oldest first.
        ensures stands { (h : List Change) → StandsFor self.old h →
            StandsFor self.new (after_all_left (filter (is_covered cover.now) (live h)) h) }
    {
        self.tasks.leave_covered(cover, left);
    }

    /// The oldest enabled ticket that no call gave before.
    ///
    /// It looks at the commands from the first to the last that may be new. Where a caller asks after each change
    /// until there is none, those are the commands that the last change enabled, and it looks at each of them once.
    pub fn next_new(&mut self) -> Option<u64>
        ensures answer { result ≡ next_in self.old.list }
        ensures state { self.new ≡ given_by self.old }
        ensures stands { (h : List Change) → StandsFor self.old h →
            (result ≡ next_after h) × StandsFor self.new (after_giving result h) }
    {
        self.tasks.next_new()
    }
}
