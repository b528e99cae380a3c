//! Both task sets beside a plain list of which the rules are asked anew: all answer the same after each of many calls.

ghost use Rattle.std.specs.Prelude.{◌≡◌, ◌≤◌, vec_capacity};

use crate::plain_set::PlainSet;
use crate::task_set::{covered, enter, is_newest, shape_tasks};
use iscsi_tasks::{Attr, Cover, LinkedTaskSet, Task, TaskFault, TaskSet};
use std::alloc::Global;
use std::test::Fail;

/// The greatest depth of a set here.
pub(crate) const DEPTH: u32 = 300;

/// The same commands in both task sets and in a plain list, and the slot that each got.
#[derive(Drop)]
pub(crate) struct Both {
    pub(crate) linked: LinkedTaskSet,
    placed: TaskSet,
    plain: PlainSet,
    /// For each ticket modulo 4,096 the slot of the command that entered last.
    slots: Vec<u16>,
    /// For each slot the ticket of the command that got it last.
    holders: Vec<u64>,
    /// The slots that are free again, the one that was freed last behind the others ..
    freed: Vec<usize>,
    /// .. and how many they are.
    free: usize,
    /// How many slots commands had so far.
    used: usize,
    /// The tickets of commands that left together.
    left: Vec<u64>,
    ghost same: { linked ≡ placed },
    ghost roomy: { 1024 ≤ vec_capacity left },
}

impl Both {
    pub(crate) fn open(alloc: Global, depth: u32) -> Result<Both, Fail>
        requires { (1 ≤ depth) × (depth ≤ 1024) }
    {
        Ok(Both {
            linked: LinkedTaskSet::open(alloc, depth)?,
            placed: TaskSet::open(alloc, depth)?,
            plain: PlainSet::open(alloc, depth)?,
            slots: vec![in alloc; 0; 4096]?,
            holders: vec![in alloc; 0; 1025]?,
            freed: vec![in alloc; 0; 1025]?,
            free: 0,
            used: 0,
            left: Vec::with_capacity(alloc, 1024)?,
        })
    }

    /// The slot that a command with this ticket got, or that of another one.
    pub(crate) fn slot_of(&self, ticket: u64) -> u16 {
        *self.slots.get((ticket % 4096) as usize).unwrap_or(&7)
    }

    /// The slot that the next command is to get: the one that was freed last, or else a new one, from 1 on. That a slot
    /// is told which isn't the command's changes no answer of a set, so no public clause speaks of it: it is compared
    /// here.
    fn next_slot(&mut self) -> usize {
        if self.free > 0 {
            self.free -= 1;
            return self.freed.get(self.free).copied().unwrap_or(0);
        }
        self.used = self.used.wrapping_add(1);
        self.used
    }

    /// Notes that the command with this ticket has left.
    fn note_left(&mut self, ticket: u64) {
        let slot = self.holders.iter().position(|holder| *holder == ticket);
        if let (Some(slot), Some(noted)) = (slot, self.freed.get_mut(self.free)) {
            *noted = slot;
            self.free = self.free.wrapping_add(1);
        }
    }

    /// Notes the slot that the command with this ticket got. False where it isn't the one that was to be got, or
    /// another command has it still, or no set of this depth has it.
    fn note(&mut self, ticket: u64, slot: u16) -> bool {
        if let Some(noted) = self.slots.get_mut((ticket % 4096) as usize) {
            *noted = slot;
        }
        let holder = *self.holders.get(usize::from(slot)).unwrap_or(&ticket);
        if let Some(noted) = self.holders.get_mut(usize::from(slot)) {
            *noted = ticket;
        }
        // The command with this ticket itself entered the plain list before.
        let is_free = holder != ticket && !self.plain.has(holder);
        let is_next = usize::from(slot) == self.next_slot();
        is_next && is_free && 1 <= slot && u32::from(slot) <= self.linked.depth()
    }

    /// The command enters, if its ticket may be the newest one. It gets the slot that is next, and all give the same
    /// ticket then.
    pub(crate) fn enter(&mut self, task: Task) -> bool {
        if !is_newest(&self.placed, task.ticket) {
            return false;
        }
        let is_taken = self.plain.enter(task);
        match (self.linked.enter_and_give(task), self.placed.enter(task)) {
            (Ok(entered), Ok(())) => {
                let placed = self.placed.next_new();
                let plain = self.plain.next_new();
                let gives_same = entered.ticket == plain && placed == plain;
                self.note(task.ticket, entered.slot) && gives_same && is_taken
            }
            (Err(linked), Err(placed)) => linked == task && placed == task && !is_taken,
            _ => false,
        }
    }

    pub(crate) fn leave(&mut self, ticket: u64, slot: u16) -> bool {
        let linked = self.linked.leave(ticket, slot);
        let placed = self.placed.leave(ticket);
        let left = self.plain.leave(ticket);
        let agree = linked == left && placed == left;
        if left.is_some() {
            self.note_left(ticket);
        }
        agree
    }

    pub(crate) fn leave_enabled(&mut self, ticket: u64, slot: u16) -> bool {
        let is_enabled = self.plain.is_enabled(ticket);
        let agree = self.placed.is_enabled(ticket) == is_enabled;
        if self.linked.leave_enabled(ticket, slot) {
            self.placed.leave(ticket);
        }
        if is_enabled {
            self.plain.leave(ticket);
            self.note_left(ticket);
        }
        agree && self.are_as_long()
    }

    /// The covered commands leave, and `left` tells their tickets, the oldest one's first. `is_within` is for the
    /// prover: there is room for the tickets.
    pub(crate) fn leave_covered(&mut self, cover: &Cover) -> bool {
        let is_within = self.linked.len() <= self.linked.depth();
        self.left.clear();
        self.linked.leave_covered(cover, &mut self.left);
        let agree = self.plain.are_covered(&self.left, cover);
        self.placed.leave_covered(cover);
        self.plain.leave_covered(cover);
        for k in 0..self.left.len() {
            if let Some(&ticket) = self.left.get(k) {
                self.note_left(ticket);
            }
        }
        agree && is_within && self.agree()
    }

    /// The covered commands leave together, and another set one by one. All hold and give the same then.
    fn leave_both_ways(&mut self, apart: &mut TaskSet, cover: &Cover) -> bool {
        let agree = self.leave_covered(cover);
        for _ in 0..5 {
            apart.leave_first(cover);
        }
        agree && self.plain.is_as(apart) && self.gives(apart.next_new())
    }

    /// All give this ticket.
    fn gives(&mut self, ticket: Option<u64>) -> bool {
        let linked = self.linked.next_new();
        let placed = self.placed.next_new();
        let plain = self.plain.next_new();
        linked == ticket && placed == ticket && plain == ticket
    }

    /// All give the same tickets, until there is none.
    pub(crate) fn give_all(&mut self) -> bool {
        for _ in 0..=DEPTH {
            let ticket = self.linked.next_new();
            let placed = self.placed.next_new();
            if placed != ticket || self.plain.next_new() != ticket {
                return false;
            }
            if ticket.is_none() {
                return true;
            }
        }
        false
    }

    /// Five commands enter that have the tickets behind this one. The digits of `shape` to the base 3 say their
    /// attributes. Behind each entering one of those so far leaves, if any: the digits of `leavers` say which, the
    /// first one to the base 2, the next one to the base 3, and so on. What is new is asked for after each step, or at
    /// the end.
    fn run(&mut self, before: u64, shape: u32, leavers: u32, asks: bool) -> bool {
        let mut agree = true;
        let mut attrs = shape;
        let mut leaving = leavers;
        for k in 1..6 {
            agree &= self.enter(numbered(before, k, attrs % 3));
            let leaver = leaving % (k + 1);
            if leaver > 0 {
                let ticket = before.wrapping_add(u64::from(leaver));
                let slot = self.slot_of(ticket);
                agree &= self.leave(ticket, slot);
            }
            agree &= !asks || self.give_all();
            attrs /= 3;
            leaving /= k + 1;
        }
        agree && self.give_all() && self.leave_covered(&Cover::All) && self.linked.len() == 0
    }

    /// Five commands enter as above, and then they leave: `order` is from 0 to 119, and says at each leaving how many
    /// older commands stay.
    fn run_out(&mut self, before: u64, shape: u32, order: u32) -> bool {
        let mut agree = true;
        let mut attrs = shape;
        for k in 1..6 {
            agree &= self.enter(numbered(before, k, attrs % 3)) && self.agree();
            attrs /= 3;
        }
        let mut leaving = order;
        for left in 0..5 {
            let place = leaving % (5 - left);
            leaving /= 5 - left;
            let ticket = self.plain.ticket_at(place as usize).unwrap_or(before);
            let slot = self.slot_of(ticket);
            agree &= self.leave(ticket, slot) && self.give_all() && self.agree();
        }
        agree && self.linked.len() == 0
    }

    /// All have as many commands.
    pub(crate) fn are_as_long(&self) -> bool {
        let len = self.plain.len();
        self.linked.len() as usize == len
            && self.placed.len() as usize == len
            && self.linked.depth() == self.placed.depth()
    }

    /// All have as many commands, and the same ones are at the same places.
    pub(crate) fn agree(&self) -> bool {
        self.are_as_long() && self.plain.is_as(&self.placed)
    }
}

/// The kth one of some commands with tickets behind this one.
fn numbered(before: u64, k: u32, attr: u32) -> Task {
    let ticket = before.wrapping_add(u64::from(k));
    Task {
        ticket,
        conn: 1,
        itt: 0,
        attr: match attr {
            0 => Attr::Simple,
            1 => Attr::Ordered,
            _ => Attr::Head,
        },
        immediate: false,
        pos: i64::from(k),
        event: ticket,
    }
}

#[test]
fn any_five_commands_leave_both_sets_as_a_plain_list(rt: HostRuntime) -> Result<(), Fail> {
    let mut both = Both::open(rt.alloc(), 5)?;
    let mut ticket: u64 = 0;
    for shape in 0..243 {
        for leavers in 0..720 {
            let asks = (shape + leavers / 2) % 2 == 0;
            let agree = both.run(ticket, shape, leavers, asks);
            assert!(rt; agree, "{shape}, {leavers}");
            ticket = ticket.wrapping_add(5);
        }
    }
    Ok(())
}

#[test]
fn five_commands_leave_both_sets_as_a_plain_list_in_any_order(rt: HostRuntime) -> Result<(), Fail> {
    let mut both = Both::open(rt.alloc(), 5)?;
    let mut ticket: u64 = 0;
    for shape in 0..243 {
        for order in 0..120 {
            assert!(rt; both.run_out(ticket, shape, order), "{shape}, {order}");
            ticket = ticket.wrapping_add(5);
        }
    }
    Ok(())
}

#[test]
fn a_function_takes_out_of_both_sets_what_it_covers_in_any_order(
    rt: HostRuntime,
) -> Result<(), Fail> {
    for shape in 0..1024 {
        for first in 0..5 {
            let mut both = Both::open(rt.alloc(), 5)?;
            let mut apart = TaskSet::open(rt.alloc(), 5)?;
            for task in shape_tasks(shape) {
                assert!(rt; both.enter(task));
                assert_eq!(rt; enter(&rt, &mut apart, task), Ok(()));
                apart.next_new();
            }
            for pos in [first, first + 1, first + 3] {
                let below = Cover::Below { pos, event: 3 };
                assert!(rt; both.leave_both_ways(&mut apart, &below));
            }
            assert!(rt; both.give_all() && both.leave_covered(&Cover::All));
        }
    }
    Ok(())
}

#[test]
fn a_linked_set_is_from_1_to_1024_deep(rt: HostRuntime) -> Result<(), Fail> {
    let alloc = rt.alloc();
    for depth in [0, 1025, u32::MAX] {
        assert_eq!(rt;
            LinkedTaskSet::open(alloc, depth).err(),
            Some(TaskFault::BadDepth)
        );
    }
    for depth in [1, 1024] {
        let set = LinkedTaskSet::open(alloc, depth)?;
        assert_eq!(rt; (set.len(), set.depth()), (0, depth));
    }
    Ok(())
}
