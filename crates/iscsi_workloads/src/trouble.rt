//! A session in trouble: initiators time out while a thousand commands are live, functions wait for a number that is
//! late, requests are held by the hundred under tags that collide, and a Logout takes half of all out.

use crate::digest::Digest;
use crate::effects::take_effect;
use crate::halt::{Halt, fits};
use crate::headers::{
    ABORT_TASK, ABORT_TASK_SET, Command, Function, LOGICAL_UNIT_RESET, NO_TAG, SIMPLE, logout,
};
use crate::random::Random;
use iscsi_session::{Effect, Event, Options, Session};
use std::alloc::Global;

/// The connections, whose CIDs count from 1.
const CONNECTIONS: u16 = 64;

/// How many commands are live when initiators time out.
const LIVE: u32 = 1000;

/// How many aborts come of a time-out, each with a new command.
const ABORTS: u32 = 100;

/// The tags of a group leave the same remainder on division by this number.
const GROUPS: u32 = 4093;

/// The unit that commands go to, and the one that functions wait for.
const UNIT: u8 = 0;

const OTHER_UNIT: u8 = 1;

/// What an initiator knows of its session.
struct Initiator {
    session: Session,
    effects: Vec<Effect>,
    /// The tickets of commands that were enabled lately.
    enabled: Vec<u64>,
    /// The CmdSN that comes next.
    next: u32,
    /// The tag of the next function.
    tag: u32,
    random: Random,
}

impl Drop for Initiator {
    fn drop(self) {
        let Initiator {
            session: _session,
            effects: _effects,
            enabled: _enabled,
            next: _next,
            tag: _tag,
            random: _random,
        } = self;
    }
}

/// Sessions that have all of these troubles, one after the other.
pub(crate) fn trouble(
    alloc: Global,
    rounds: u32,
    seed: u64,
    digest: &mut Digest,
) -> Result<(), Halt> {
    let mut random = Random::new(seed);
    for _ in 0..rounds {
        let mut initiator = Initiator::begin(alloc, random.number())?;
        initiator.time_out(digest)?;
        initiator.wait_for_late(64, digest)?;
        initiator.wait_for_late(256, digest)?;
        initiator.collide(16, digest)?;
        initiator.collide(600, digest)?;
        initiator.log_out(digest)?;
    }
    Ok(())
}

impl Initiator {
    fn begin(alloc: Global, seed: u64) -> Result<Initiator, Halt> {
        let mut conns = Vec::new(alloc);
        for before in 0..CONNECTIONS {
            fits(conns.push((before + 1, 1)))?;
        }
        let options = Options {
            first: 1,
            window: 1024,
            units: 2,
            depth: 1024,
            level: 1,
            events: 1_048_576,
            conns,
        };
        Ok(Initiator {
            session: Session::open(alloc, options)?,
            effects: Vec::new(alloc),
            enabled: Vec::new(alloc),
            next: 1,
            tag: 0x8000_0000,
            random: Random::new(seed),
        })
    }

    /// The session takes an event, and the initiator what comes of it.
    fn step(&mut self, event: &Event, digest: &mut Digest) -> Result<(), Halt> {
        self.effects.clear();
        let numbers = self.session.step(event, &mut self.effects)?;
        digest.events = digest.events.wrapping_add(1);
        digest.number(u64::from(numbers.exp) << 32 | u64::from(numbers.max));
        for effect in &self.effects {
            take_effect(effect, numbers, digest);
            if let Effect::Enable { ticket, .. } = effect {
                fits(self.enabled.push(*ticket))?;
            }
        }
        Ok(())
    }

    fn arrive(&mut self, header: [u8; 48], digest: &mut Digest) -> Result<(), Halt> {
        let conn = 1 + self.random.below(u32::from(CONNECTIONS)) as u16;
        self.step(&Event::Arrive { conn, header }, digest)
    }

    /// A command of this number and tag.
    fn command(&mut self, number: u32, tag: u32, digest: &mut Digest) -> Result<(), Halt> {
        let command = Command {
            tag,
            number,
            unit: UNIT,
            attribute: SIMPLE,
            block: self.random.word(),
        };
        self.arrive(command.header(), digest)
    }

    /// So many commands in order, each with its number as its tag.
    fn commands(&mut self, count: u32, digest: &mut Digest) -> Result<(), Halt> {
        for _ in 0..count {
            let number = self.next;
            self.next = number.wrapping_add(1);
            self.command(number, number, digest)?;
        }
        Ok(())
    }

    /// A function with a tag of its own.
    fn function(
        &mut self,
        kind: u8,
        unit: u8,
        number: u32,
        referenced_tag: u32,
        digest: &mut Digest,
    ) -> Result<(), Halt> {
        self.tag = self.tag.wrapping_add(1);
        let function = Function {
            kind,
            tag: self.tag,
            number,
            unit,
            referenced_tag,
            referenced_number: number.wrapping_sub(5000),
        };
        self.arrive(function.header(), digest)
    }

    fn reset(&mut self, digest: &mut Digest) -> Result<(), Halt> {
        self.enabled.clear();
        self.function(LOGICAL_UNIT_RESET, UNIT, self.next, NO_TAG, digest)
    }

    /// A thousand commands are live. Functions abort the oldest few, or one of them all, and new commands come.
    fn time_out(&mut self, digest: &mut Digest) -> Result<(), Halt> {
        self.commands(LIVE, digest)?;
        let mut oldest = self.next.wrapping_sub(LIVE);
        for _ in 0..ABORTS {
            let few = 1 + self.random.below(3);
            oldest = oldest.wrapping_add(few);
            self.function(ABORT_TASK_SET, UNIT, oldest, NO_TAG, digest)?;
            self.commands(few, digest)?;
            let tag = self.next.wrapping_sub(1 + self.random.below(LIVE));
            self.function(ABORT_TASK, UNIT, self.next, tag, digest)?;
            self.commands(1, digest)?;
        }
        self.reset(digest)
    }

    /// So many functions wait for a number that is late, while commands come and are completed.
    fn wait_for_late(&mut self, count: u32, digest: &mut Digest) -> Result<(), Halt> {
        let late = self.next.wrapping_add(500);
        for before in 0..count {
            self.tag = self.tag.wrapping_add(1);
            let function = Function {
                kind: ABORT_TASK_SET,
                tag: self.tag,
                number: late,
                unit: OTHER_UNIT,
                referenced_tag: NO_TAG,
                referenced_number: 0,
            };
            let conn = 1 + (before % u32::from(CONNECTIONS)) as u16;
            let header = function.header();
            self.step(&Event::Arrive { conn, header }, digest)?;
        }
        for before in 0..500u32 {
            self.commands(1, digest)?;
            if before >= 16 {
                self.complete(digest)?;
            }
        }
        self.reset(digest)
    }

    /// A command is completed, one of those enabled lately.
    fn complete(&mut self, digest: &mut Digest) -> Result<(), Halt> {
        let count = self.enabled.len().min(1024) as u32;
        if count == 0 {
            return Ok(());
        }
        let place = self.random.below(count) as usize;
        let ticket = self.enabled.swap_remove(place);
        self.step(&Event::Done { ticket, status: 0 }, digest)
    }

    /// A number is missing, and so many commands are held behind it, under tags of one group. Functions abort some, and
    /// more that aren't there. Then the number comes.
    fn collide(&mut self, count: u32, digest: &mut Digest) -> Result<(), Halt> {
        let gap = self.next;
        let spread = 640 / count.max(1);
        let base = self.random.below(GROUPS);
        for before in 0..count {
            let number = gap
                .wrapping_add(1)
                .wrapping_add(before.wrapping_mul(spread));
            let tag = base.wrapping_add(before.wrapping_mul(GROUPS));
            self.command(number, tag, digest)?;
        }
        for before in 0..75u32 {
            let missing = base.wrapping_add(before.wrapping_add(count).wrapping_mul(GROUPS));
            self.function(ABORT_TASK, UNIT, gap.wrapping_add(700), missing, digest)?;
            if before % 3 == 0 {
                let held = base.wrapping_add(self.random.below(count.max(1)).wrapping_mul(GROUPS));
                self.function(ABORT_TASK, UNIT, gap.wrapping_add(700), held, digest)?;
            }
        }
        self.fill(gap, digest)?;
        self.reset(digest)
    }

    /// The numbers from this one on come that are missing, up to those that were held.
    fn fill(&mut self, gap: u32, digest: &mut Digest) -> Result<(), Halt> {
        let last = gap.wrapping_add(640);
        for _ in 0..700u32 {
            let exp = self.session.numbers().exp;
            if last.wrapping_sub(exp) > 640 {
                break;
            }
            self.command(exp, exp | 0x4000_0000, digest)?;
        }
        self.next = self.session.numbers().exp;
        Ok(())
    }

    /// A thousand commands are live on two connections, and each of them logs the other half out.
    fn log_out(&mut self, digest: &mut Digest) -> Result<(), Halt> {
        for before in 0..LIVE {
            let number = self.next;
            self.next = number.wrapping_add(1);
            let command = Command {
                tag: number,
                number,
                unit: UNIT,
                attribute: SIMPLE,
                block: self.random.word(),
            };
            let conn = 1 + (before % 2) as u16;
            let header = command.header();
            self.step(&Event::Arrive { conn, header }, digest)?;
        }
        let header = logout(Some(2), self.tag.wrapping_add(1), self.next);
        self.step(&Event::Arrive { conn: 1, header }, digest)?;
        let header = logout(None, self.tag.wrapping_add(2), self.next);
        self.step(&Event::Arrive { conn: 1, header }, digest)
    }
}
