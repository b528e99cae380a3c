//! Both task sets beside a plain list, in calls at random.

use crate::linked_set::{Both, DEPTH};
use iscsi_tasks::{Attr, Cover, Task};
use std::test::Fail;

/// Calls at random, by a seed.
#[derive(Drop)]
struct Calls {
    both: Both,
    /// The ticket of the last command that entered.
    ticket: u64,
    /// The number of the last command that isn't immediate.
    number: i64,
    /// How many in 256 commands are ORDERED, and how many HEAD OF QUEUE.
    ordered: u64,
    heads: u64,
    /// Whether some of the commands have lower numbers than the one that is expected next, immediate or not.
    strays: bool,
    seed: u64,
}

impl Calls {
    /// The next number, by the method SplitMix64.
    fn random(&mut self) -> u64 {
        self.seed = self.seed.wrapping_add(0x9e37_79b9_7f4a_7c15);
        let mixed = (self.seed ^ (self.seed >> 30)).wrapping_mul(0xbf58_476d_1ce4_e5b9);
        let mixed = (mixed ^ (mixed >> 27)).wrapping_mul(0x94d0_49bb_1331_11eb);
        mixed ^ (mixed >> 31)
    }

    /// A command that may enter.
    fn task(&mut self) -> Task {
        let random = self.random();
        let kind = random % 256;
        let attr = if kind < self.ordered {
            Attr::Ordered
        } else if kind < self.ordered.wrapping_add(self.heads) {
            Attr::Head
        } else {
            Attr::Simple
        };
        let immediate = random / 256 % 8 == 0;
        let stray = if self.strays && random / 2048 % 4 == 0 {
            (random / 8192 % 16) as i64
        } else {
            0
        };
        // A command has the number that is expected next, but for strays.
        let expected = self.number.wrapping_add(1);
        if !immediate {
            self.number = expected;
        }
        self.ticket = self.ticket.wrapping_add(1 + random / 131_072 % 3);
        Task {
            ticket: self.ticket,
            conn: (random / 524_288 % 3) as u16,
            itt: (random / 2_097_152 % 65_536) as u32,
            attr,
            immediate,
            pos: expected.wrapping_sub(stray),
            event: self.ticket,
        }
    }

    /// A ticket near the last one, and now and then one that none had.
    fn any_ticket(&mut self) -> u64 {
        let random = self.random();
        let back = if random % 4 == 0 {
            4096
        } else {
            2 * u64::from(DEPTH)
        };
        self.ticket.wrapping_sub(random / 4 % back)
    }

    /// The slot of a ticket, mostly: else any.
    fn any_slot(&mut self, ticket: u64) -> u16 {
        let random = self.random();
        match random % 8 {
            0 => (random / 8 % 65_536) as u16,
            1 => (random / 8 % 32) as u16,
            _ => self.both.slot_of(ticket),
        }
    }

    /// What an abort or a logout takes out: mostly the commands below a number, from the next one down.
    fn cover(&mut self) -> Cover {
        let random = self.random();
        let reach = [2, 8, 64, 320][(random / 16 % 4) as usize];
        match random % 16 {
            0 => Cover::All,
            1 | 2 => Cover::Conn((random / 64 % 3) as u16),
            _ => Cover::Below {
                pos: self
                    .number
                    .wrapping_add(1)
                    .wrapping_sub((random / 64 % reach) as i64),
                event: self.ticket.wrapping_sub(random / 65_536 % 4),
            },
        }
    }

    /// One call on all, and whether they answer the same.
    fn step(&mut self, grows: bool) -> bool {
        let random = self.random();
        let share = if grows { 11 } else { 4 };
        let agree = match random % 16 {
            0 => {
                // The deeper the sets are, the seldomer, for they are to fill again.
                let cover = self.cover();
                let seldom = u64::from(1 + self.both.linked.depth() / 32);
                random / 16 % seldom != 0 || self.both.leave_covered(&cover)
            }
            1 => {
                let ticket = self.any_ticket();
                let slot = self.any_slot(ticket);
                self.both.leave(ticket, slot)
            }
            2 => self.both.give_all(),
            kind if kind < share => {
                let task = self.task();
                self.both.enter(task)
            }
            _ => {
                let ticket = self.any_ticket();
                let slot = self.any_slot(ticket);
                self.both.leave_enabled(ticket, slot)
            }
        };
        // Now and then tickets that are new wait for more calls.
        let gave = random / 256 % 4 == 0 || self.both.give_all();
        let placed = random / 1024 % 16 != 0 || self.both.agree();
        agree && gave && placed && self.both.are_as_long()
    }
}

#[test]
fn task_sets_answer_as_a_plain_list_does(rt: HostRuntime) -> Result<(), Fail> {
    for depth in [1, 2, 9, DEPTH] {
        for (ordered, heads) in [(0, 0), (16, 0), (0, 16), (24, 24), (128, 64)] {
            for strays in [false, true] {
                let mut calls = Calls {
                    both: Both::open(rt.alloc(), depth)?,
                    ticket: 0,
                    number: 0,
                    ordered,
                    heads,
                    strays,
                    seed: u64::from(depth),
                };
                let mut agree = true;
                for k in 0..10_000 {
                    agree &= calls.step(k % 2048 < 1024);
                }
                let agree = agree
                    && calls.both.give_all()
                    && calls.both.leave_covered(&Cover::All)
                    && calls.both.give_all();
                assert!(rt;
                    agree && calls.both.linked.len() == 0,
                    "{depth} deep, {ordered} ORDERED, {heads} HEAD OF QUEUE, {strays}"
                );
            }
        }
    }
    Ok(())
}
