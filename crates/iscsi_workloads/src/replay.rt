//! Recorded sessions are replayed: a recording is read from memory, a session takes its events, and their report is
//! written, a chunk at a time.

use crate::digest::Digest;
use crate::halt::Halt;
use crate::random::Random;
use crate::shapes::{Size, deep_sets, in_order, out_of_order};
use crate::source::Bytes;
use crate::text::Text;
use iscsi_recording::{EventSource, NO_EVENT, Recording, read_recording};
use iscsi_report::Lines;
use iscsi_session::{Effect, Event, Numbers, Options, Session};
use std::alloc::Global;

/// So many bytes of a report are written at once.
const CHUNK: usize = 65_536;

/// How many commands a recording has. With their completions it has some 100,000 lines.
const COMMANDS: u32 = 51_200;

/// The daily recordings: one connection in order, four connections out of order, and four units whose sets are nearly
/// full.
pub(crate) fn replay(
    alloc: Global,
    rounds: u32,
    seed: u64,
    digest: &mut Digest,
) -> Result<(), Halt> {
    let mut random = Random::new(seed);
    let mut text = Text::new(alloc);
    for _ in 0..rounds {
        let one = Size {
            connections: 1,
            units: 1,
            commands: COMMANDS,
        };
        text.clear();
        in_order(alloc, one, random.number(), &mut text)?;
        replay_text(alloc, text.as_slice(), one.units, digest)?;
        let four = Size {
            connections: 4,
            units: 4,
            commands: COMMANDS,
        };
        text.clear();
        out_of_order(alloc, four, 512, random.number(), &mut text)?;
        replay_text(alloc, text.as_slice(), four.units, digest)?;
        text.clear();
        deep_sets(alloc, four, random.number(), &mut text)?;
        replay_text(alloc, text.as_slice(), four.units, digest)?;
    }
    Ok(())
}

/// Recordings of hosts with many initiator ports and units.
pub(crate) fn ports(
    alloc: Global,
    rounds: u32,
    seed: u64,
    digest: &mut Digest,
) -> Result<(), Halt> {
    let mut random = Random::new(seed);
    let mut text = Text::new(alloc);
    for round in 0..rounds {
        let size = Size {
            connections: 16 << (round % 3),
            units: 256,
            commands: COMMANDS,
        };
        text.clear();
        out_of_order(alloc, size, 256, random.number(), &mut text)?;
        replay_text(alloc, text.as_slice(), size.units, digest)?;
    }
    Ok(())
}

/// Replays a recording, and digests its report.
fn replay_text(alloc: Global, text: &[u8], units: u32, digest: &mut Digest) -> Result<(), Halt> {
    let mut recording = Recording::new(alloc);
    read_recording(alloc, &mut Bytes::new(text), &mut recording)?;
    let Recording { conns, events } = recording;
    let options = Options {
        first: 1,
        window: 1024,
        units,
        depth: 1024,
        level: 1,
        events: 1_048_576,
        conns: conns.into_list(),
    };
    let mut session = Session::open(alloc, options)?;
    let mut effects = Vec::new(alloc);
    let mut lines = Lines::new(alloc);
    let mut cursor = events.cursor();
    let mut event = NO_EVENT;
    for _ in 0..u64::MAX {
        if !cursor.next(&mut event) {
            break;
        }
        effects.clear();
        let numbers = session.step(&event, &mut effects)?;
        digest.events = digest.events.wrapping_add(1);
        put_entry(&event, numbers, &effects, &mut lines)?;
        if lines.len() >= CHUNK {
            digest.bytes(lines.as_slice());
            lines.clear();
        }
    }
    digest.bytes(lines.as_slice());
    Ok(())
}

/// Puts the lines of an event and of its effects.
#[inline(always)]
fn put_entry(
    event: &Event,
    numbers: Numbers,
    effects: &[Effect],
    lines: &mut Lines,
) -> Result<(), Halt> {
    lines.put_event(event)?;
    for effect in effects {
        lines.put_effect(effect, numbers)?;
    }
    Ok(())
}
