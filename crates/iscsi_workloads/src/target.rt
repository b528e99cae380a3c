//! The event loop of a target over the library's handle: commands arrive and are completed at random, and each effect is
//! read, with the PDU of each reply.

use crate::digest::Digest;
use crate::halt::{Halt, fits};
use crate::headers::{Command, HEAD, ORDERED, SIMPLE};
use crate::random::Random;
use iscsi_host::{Answer, Handle, PlainConnection, PlainEffect, PlainOptions};
use std::alloc::Global;

const OPTIONS: PlainOptions = PlainOptions {
    events: 1 << 48,
    first_cmd_sn: 1,
    window: 1024,
    units: 4,
    depth: 1024,
    level: 1,
};

const CONNECTIONS: [PlainConnection; 4] = [
    PlainConnection {
        first_stat_sn: 1,
        cid: 1,
    },
    PlainConnection {
        first_stat_sn: 1,
        cid: 2,
    },
    PlainConnection {
        first_stat_sn: 1,
        cid: 3,
    },
    PlainConnection {
        first_stat_sn: 1,
        cid: 4,
    },
];

const NOTHING: PlainEffect = PlainEffect {
    ticket: 0,
    sn: 0,
    cid: 0,
    unit: 0,
    kind: 0,
    attribute: 0,
    reason: 0,
    tail_length: 0,
    header: [0; 48],
    tail: [0; 48],
    reserved: [0; 4],
};

/// The kinds of a plain effect that a target acts on.
const ENTER: u8 = 6;

const ENABLE: u8 = 7;

const LEAVE: u8 = 8;

/// How many events a session takes.
const EVENTS: u32 = 100_000;

/// A session in the hands of a target.
struct Target {
    alloc: Global,
    handle: Handle,
    effect: PlainEffect,
    /// The tickets of commands that are enabled and weren't completed.
    enabled: Vec<u64>,
    live: u32,
    random: Random,
}

impl Drop for Target {
    fn drop(self) {
        let Target {
            alloc: _alloc,
            handle: _handle,
            effect: _effect,
            enabled: _enabled,
            live: _live,
            random: _random,
        } = self;
    }
}

/// Sessions with 32, 1,000 and 256 live commands by turns; the last ones have all attributes.
pub(crate) fn serve_all(
    alloc: Global,
    rounds: u32,
    seed: u64,
    digest: &mut Digest,
) -> Result<(), Halt> {
    let mut random = Random::new(seed);
    for round in 0..rounds {
        let seed = random.number();
        match round % 3 {
            0 => serve(alloc, 32, false, seed, digest)?,
            1 => serve(alloc, 1000, false, seed, digest)?,
            _ => serve(alloc, 256, true, seed, digest)?,
        }
    }
    Ok(())
}

/// One session, of which so many commands are kept live.
fn serve(
    alloc: Global,
    live: u32,
    is_mixed: bool,
    seed: u64,
    digest: &mut Digest,
) -> Result<(), Halt> {
    let mut target = Target {
        alloc,
        handle: Handle::closed(alloc),
        effect: NOTHING,
        enabled: Vec::new(alloc),
        live: 0,
        random: Random::new(seed),
    };
    if target.handle.open(alloc, &OPTIONS, &CONNECTIONS) != Answer::Done {
        return Err(Halt::Refused);
    }
    let tags = target.random.word();
    let mut number = 0u32;
    for _ in 0..EVENTS {
        digest.events = digest.events.wrapping_add(1);
        if target.live >= live
            && let Some(ticket) = target.finished()
        {
            target.complete(ticket, digest)?;
            continue;
        }
        number = number.wrapping_add(1);
        let tag = number.wrapping_add(tags).wrapping_mul(2_654_435_761);
        target.arrive(tag, number, is_mixed, digest)?;
    }
    target.handle.close(alloc);
    Ok(())
}

impl Target {
    /// A command that its unit has executed: one of those enabled.
    fn finished(&mut self) -> Option<u64> {
        let count = self.enabled.len().min(1024) as u32;
        if count == 0 {
            return None;
        }
        let place = self.random.below(count) as usize;
        Some(self.enabled.swap_remove(place))
    }

    fn complete(&mut self, ticket: u64, digest: &mut Digest) -> Result<(), Halt> {
        match self.handle.complete(self.alloc, ticket, 0) {
            Answer::Done => self.read_effects(digest),
            _ => Err(Halt::Refused),
        }
    }

    fn arrive(
        &mut self,
        tag: u32,
        number: u32,
        is_mixed: bool,
        digest: &mut Digest,
    ) -> Result<(), Halt> {
        let choice = self.random.word();
        let command = Command {
            tag,
            number,
            unit: (choice % 4) as u8,
            attribute: if is_mixed { attribute(choice) } else { SIMPLE },
            block: choice,
        };
        let cid = 1 + (choice >> 2 & 3) as u16;
        let header = command.header();
        match self.handle.arrive(self.alloc, cid, &header) {
            Answer::Done => self.read_effects(digest),
            _ => Err(Halt::Refused),
        }
    }

    /// Reads each effect of the last event.
    fn read_effects(&mut self, digest: &mut Digest) -> Result<(), Halt> {
        let count = self.handle.effect_count(self.alloc);
        digest.number(count as u64);
        for index in 0..count {
            if self.handle.effect(self.alloc, index, &mut self.effect) != Answer::Done {
                return Err(Halt::Refused);
            }
            self.note(digest)?;
        }
        Ok(())
    }

    /// Does what an effect asks for.
    fn note(&mut self, digest: &mut Digest) -> Result<(), Halt> {
        let effect = &self.effect;
        take_effect(effect, digest);
        match effect.kind {
            ENTER => self.live = self.live.wrapping_add(1),
            ENABLE => fits(self.enabled.push(effect.ticket))?,
            LEAVE => self.live = self.live.wrapping_sub(1),
            _ => {}
        }
        Ok(())
    }
}

/// Takes all that an effect says.
fn take_effect(effect: &PlainEffect, digest: &mut Digest) {
    digest.number(effect.ticket);
    digest.number(
        u64::from(effect.sn) << 32 | u64::from(effect.cid) << 16 | u64::from(effect.unit),
    );
    digest.number(u64::from(u32::from_be_bytes([
        effect.kind,
        effect.attribute,
        effect.reason,
        effect.tail_length,
    ])));
    digest.bytes(&effect.header);
    digest.bytes(&effect.tail);
}

/// SIMPLE mostly, ORDERED or HEAD OF QUEUE.
fn attribute(choice: u32) -> u8 {
    match choice / 16 % 10 {
        0..=6 => SIMPLE,
        7 | 8 => ORDERED,
        _ => HEAD,
    }
}
