//! The task set: its commands in the order in which they entered.

ghost use Rattle.std.specs.Prelude.{Err, ◌≡◌, ◌+◌, ◌<◌, ◌≤◌, ◌⊎◌, ◌↔◌, List, [], ◌∷◌, length, filter, slice_index_or, position, IsSome, Option, Some, false, All, IsTrue, IfSome, IfOk, IfErr, OnOk, OnErr};
ghost use Rattle.iscsi_tasks.specs.Sets.{tasks_in, opened, InOrder, IsNewest, entered_to, refused_by, left_by, with_ticket, with_tag, first_covered, is_covered, covered_at, set_staying, is_enabled_in, is_enabled_with, next_in, given_by, StaysFree};
ghost use Rattle.iscsi_tasks.specs.Changes.{Change, Entered, Left, AllBelow, StandsFor, live, IsEnabled, next_after, after_giving, after_leaving, after_all_left};
ghost use Rattle.iscsi_slots.specs.Queued.{queued};
ghost use Rattle.iscsi_tasks.specs.declared.member.Member.{Member};
ghost use Rattle.iscsi_tasks.specs.Linked.{IsInSlots};

use crate::cover::Cover;
use crate::fault::TaskFault;
use crate::linked_tasks::LinkedTasks;
use crate::task::{Task, ticket_if};
use iscsi_slots::Order;
use std::alloc::Global;
use std::marker::Model;

mod places;

/// The commands of one logical unit that entered its task set and didn't leave it, and which of them the unit may
/// execute (SAM-5).
///
/// A HEAD OF QUEUE command is free always. An ORDERED one is free when no older command and no other HEAD OF QUEUE
/// command is in the set, a SIMPLE one when no older ORDERED and no HEAD OF QUEUE command is. A command is enabled when
/// it was free at some moment since it entered, a moment being after each entering and after each leaving. It stays
/// enabled until it leaves.
///
/// The set tests no command twice: what a leaving enables it knows by what it keeps of its commands. Tickets, which go
/// up along it, are found by halving. And it keeps a number below which no function covers a command, so that a function
/// with a lower one looks at none.
pub struct TaskSet {
    tasks: LinkedTasks,
    /// The slots of the commands in the order of entering, so that the command at a place is found at once.
    order: Order,
    /// The tickets of commands that left together, of which nobody asks.
    left: Vec<u64>,
}

impl Drop for TaskSet {
    fn drop(self) {
        let TaskSet {
            tasks: _tasks,
            order: _order,
            left: _left,
        } = self;
    }
}

impl Model for TaskSet {
    ghost use Rattle.std.specs.Prelude.{vec_capacity};
    ghost use Rattle.iscsi_tasks.specs.Sets.{Members};
    ghost use Rattle.iscsi_tasks.specs.Linked.{IsPlaced};

    ghost Value = { Members };

    ghost view = { λ s. s.tasks.shown };

    ghost invariant = { λ s. IsPlaced s.tasks s.order.items s.order.room (vec_capacity s.left) };
}

impl TaskSet {
    /// Opens an empty set for at most `depth` commands, from 1 to 1024. It takes all its memory here.
    ///
    /// Refusals, in order: `BadDepth`, `NoMemory`.
    pub fn open(alloc: Global, depth: u32) -> Result<TaskSet, TaskFault>
        ensures ok { IfOk result (λ s. s ≡ opened depth) }
        ensures bad_depth { (result ≡ Err TaskFault.BadDepth) ↔ ((depth < 1) ⊎ (1024 < depth)) }
        ensures stands { IfOk result (λ s. StandsFor s []) }
    {
        let tasks = LinkedTasks::open(alloc, depth)?;
        let room = depth as usize;
        let order = Order::with_room(alloc, room).map_err(|_| TaskFault::NoMemory)?;
        let left = Vec::with_capacity(alloc, room).map_err(|_| TaskFault::NoMemory)?;
        Ok(TaskSet { tasks, order, left })
    }

    /// How many commands the set holds.
    pub fn len(&self) -> u32
        ensures len { result ≡ length self.now.list }
        ensures bound { length self.now.list ≤ self.now.depth }
        ensures order { InOrder self.now.list }
        ensures stands { (h : List Change) → StandsFor self.now h → result ≡ length (live h) }
    {
        self.tasks.len() as u32
    }

    /// The most commands that the set may hold.
    pub fn depth(&self) -> u32
        ensures depth { result ≡ self.now.depth }
        ensures range { (1 ≤ self.now.depth) × (self.now.depth ≤ 1024) }
    {
        self.tasks.depth()
    }

    /// How many commands the last call of `enter` tested for being free: 1 where the command entered, and 0 where the
    /// set was full or `enter` wasn't called yet.
    pub fn looked(&self) -> u32
        ensures { result ≡ self.now.looked }
    {
        self.tasks.looked()
    }

    /// The command enters the set, behind all others: its ticket is greater than all before. Where the set is full it
    /// comes back, and nothing changes but `looked`. The cost doesn't grow with the set.
    pub fn enter(&mut self, task: Task) -> Result<(), Task>
        requires { IsNewest task.ticket self.old }
        ensures ok { OnOk result ((length self.old.list < self.old.depth) × (self.new ≡ entered_to self.old task)) }
        ensures full { OnErr result ((length self.old.list ≡ self.old.depth) × (self.new ≡ refused_by self.old)) }
        ensures back { IfErr result (λ t. t ≡ task) }
        ensures stands { (h : List Change) → StandsFor self.old h → AllBelow task.ticket h →
            OnOk result (StandsFor self.new (Entered task ∷ h)) }
        ensures stands_full { (h : List Change) → StandsFor self.old h → OnErr result (StandsFor self.new h) }
    {
        let taken = self.tasks.take_in(task, false)?;
        self.order.push(taken.slot);
        Ok(())
    }

    /// The command with this ticket leaves. Where there is none, nothing changes.
    ///
    /// What grows with the set is that the commands on its shorter side close up, by moving two bytes for each; none
    /// where the oldest leaves.
    #[tactic(auto, using(crate::proofs::SearchLemmas::not_found, crate::proofs::RuleLemmas::stays_free, std::proofs::lemmas::Grind::common_steps))]
    pub fn leave(&mut self, ticket: u64) -> Option<Task>
        ensures answer { result ≡ with_ticket ticket (tasks_in self.old) }
        ensures state { self.new ≡ left_by self.old (with_ticket ticket (tasks_in self.old)) }
        ensures stands { (h : List Change) → StandsFor self.old h →
            (result ≡ with_ticket ticket (live h)) × StandsFor self.new (after_leaving result h) }
        ensures stays_free { StaysFree }
    {
        let at = self.place_of(ticket, 0)?;
        Some(self.take_out(at))
    }

    /// The command at this place, counted from the oldest, leaves.
    ///
    /// What grows with the set is what grows for `leave`. It looks for no ticket.
    pub fn leave_at(&mut self, place: u32) -> Task
        requires { place < length self.old.list }
        ensures answer { (d : Member) → result ≡ (slice_index_or self.old.list place d).task }
        ensures state { self.new ≡ left_by self.old (Some result) }
        ensures stands { (h : List Change) → StandsFor self.old h → StandsFor self.new (Left result.ticket ∷ h) }
    {
        self.take_out(place as usize)
    }

    /// The oldest of the covered commands leaves. Where none is covered, nothing changes.
    ///
    /// It looks along the set: aborts are rare, and what they cover is no part of its order. For a function whose
    /// number is below all that the set held since one last covered nothing, or since it was empty, it looks at none.
    pub fn leave_first(&mut self, cover: &Cover) -> Option<Task>
        ensures answer { result ≡ first_covered cover.now (tasks_in self.old) }
        ensures state { self.new ≡ left_by self.old (first_covered cover.now (tasks_in self.old)) }
        ensures stands { (h : List Change) → StandsFor self.old h →
            (result ≡ first_covered cover.now (live h)) × StandsFor self.new (after_leaving result h) }
    {
        if !self.may_cover(cover) {
            return None;
        }
        let Some(at) = self.first_covered(cover) else {
            self.tasks.renumber(cover);
            return None;
        };
        Some(self.take_out(at))
    }

    /// Whether a command of the set may be covered. False tells that none is. It looks at no command.
    pub fn may_cover(&self, cover: &Cover) -> bool
        ensures none { result ≡ false → All (λ t. is_covered cover.now t ≡ false) (tasks_in self.now) }
    {
        self.tasks.may_cover(cover)
    }

    /// The ticket of the command at this place, counted from the oldest, if it is covered.
    pub fn covered_at(&self, at: u32, cover: &Cover) -> Option<u64>
        ensures answer { result ≡ covered_at cover.now (tasks_in self.now) at }
        ensures stands { (h : List Change) → StandsFor self.now h → result ≡ covered_at cover.now (live h) at }
    {
        let task = self.task_at(at as usize)?;
        ticket_if(cover.covers(&task), &task)
    }

    /// All covered commands leave, and what becomes enabled does so in one moment behind them. Where none is covered,
    /// nothing changes.
    ///
    /// It looks at each command that is covered or stays. It looks at none where `may_cover` is false.
    pub fn leave_covered(&mut self, cover: &Cover)
        ensures state { self.new ≡ set_staying (is_covered cover.now) self.old }
        // It is as if they left one after the other, the oldest first.
        ensures stands { (h : List Change) → StandsFor self.old h →
            StandsFor self.new (after_all_left (filter (is_covered cover.now) (live h)) h) }
    {
        if !self.may_cover(cover) {
            return;
        }
        self.left.clear();
        self.tasks.leave_covered(cover, &mut self.left);
        order_anew(&mut self.order, &self.tasks);
    }

    /// The place of the command with this ticket, counted from the oldest, if it is in the set and enabled.
    ///
    /// The place `guess` is looked at first, and may be any: a caller that keeps the commands of several units in one
    /// order may give the place there, which is that of the set where all are of one unit.
    #[tactic(auto, using(crate::proofs::SearchLemmas::enabled_nowhere, crate::proofs::SearchLemmas::not_enabled, crate::proofs::SearchLemmas::found, std::proofs::lemmas::Grind::common_steps))]
    pub fn enabled_place(&self, ticket: u64, guess: usize) -> Option<u32>
        ensures answer { result ≡ position (is_enabled_with ticket) self.now.list }
        ensures command { IfSome result (λ k. (k < length self.now.list) × ((d : Member) →
            with_ticket ticket (tasks_in self.now) ≡ Some (slice_index_or self.now.list k d).task)) }
        ensures since { (h : List Change) → StandsFor self.now h → IsSome result ↔ IsEnabled ticket h }
    {
        let at = self.place_of(ticket, guess)?;
        if !self.at(at).enabled {
            return None;
        }
        Some(at as u32)
    }

    /// Whether a command with this ticket is in the set and enabled.
    pub fn is_enabled(&self, ticket: u64) -> bool
        ensures answer { result ≡ is_enabled_in ticket self.now.list }
        ensures since { (h : List Change) → StandsFor self.now h → IsTrue result ↔ IsEnabled ticket h }
    {
        let Some(at) = self.place_of(ticket, 0) else {
            return false;
        };
        self.at(at).enabled
    }

    /// The oldest command with this Initiator Task Tag.
    ///
    /// It looks along the set, since tags come in no order. A session that asks often keeps an index of its own.
    pub fn find(&self, itt: u32) -> Option<Task>
        ensures answer { result ≡ with_tag itt (tasks_in self.now) }
        ensures stands { (h : List Change) → StandsFor self.now h → result ≡ with_tag itt (live h) }
    {
        for place in 0..self.len() as usize {
            let task = self.at(place).task;
            if task.itt == itt {
                return Some(task);
            }
        }
        None
    }

    /// The oldest enabled ticket that no call gave before.
    ///
    /// It looks at the commands from the first to the last that may be new. Where a caller asks after each change
    /// until there is none, those are the commands that the last change enabled, and it looks at each of them once.
    pub fn next_new(&mut self) -> Option<u64>
        ensures answer { result ≡ next_in self.old.list }
        ensures state { self.new ≡ given_by self.old }
        ensures stands { (h : List Change) → StandsFor self.old h →
            (result ≡ next_after h) × StandsFor self.new (after_giving result h) }
    {
        self.tasks.next_new()
    }

    /// The command at this place leaves.
    fn take_out(&mut self, at: usize) -> Task
        requires { at < length self.old.list }
        ensures answer { (d : Member) → result ≡ (slice_index_or self.old.list at d).task }
        ensures state { self.new ≡ left_by self.old (Some result) }
        ensures stands { (h : List Change) → StandsFor self.old h → StandsFor self.new (Left result.ticket ∷ h) }
    {
        let slot = self.order.at(at);
        self.order.remove(at);
        self.tasks.let_go(slot)
    }
}

/// The order has these slots from now on.
#[tactic(auto, using(crate::proofs::MarkedLemmas::some_at, std::proofs::lemmas::Grind::common_steps))]
fn order_anew(order: &mut Order, tasks: &LinkedTasks)
    requires sound { IsInSlots tasks.now }
    requires room { tasks.now.shown.depth ≤ order.old.room }
    ensures { order.new ≡ queued tasks.now.slots order.old.room }
{
    order.clear();
    let mut slot = tasks.oldest();
    for _ in 0..tasks.len() {
        order.push(slot);
        slot = tasks.after(slot);
    }
}
