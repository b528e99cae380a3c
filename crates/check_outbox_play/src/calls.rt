//! The calls, as lines have them.

use hex::FromHex;
use iscsi_outbox::{OutboxOptions, OwnPdu};
use iscsi_session::{Event, Options};
use std::alloc::Global;
use std::str::SplitWhitespace;

/// The options of a session, and those of its outbox.
#[derive(Drop)]
pub(crate) struct Opening {
    pub(crate) session: Options,
    pub(crate) outbox: OutboxOptions,
}

/// A call.
#[derive(Drop)]
pub(crate) enum Call {
    Open(Opening),
    Step(Event),
    Put(OwnPdu),
    Stopped(u64),
    Next(u16),
    Written(u16),
    Heard {
        cid: u16,
        exp_stat_sn: u32,
        transfer_tag: u32,
    },
    Join {
        cid: u16,
        stat_sn: u32,
    },
    Lose(u16),
    Clear(u16),
    MayTake,
}

impl Call {
    /// The call of a line. `None`: it is none, or there is no memory.
    pub(crate) fn read(alloc: Global, line: &str) -> Option<Call> {
        let mut words = line.split_whitespace();
        let name = words.next()?;
        match name {
            "open" => Some(Call::Open(read_opening(alloc, &mut words)?)),
            "arrive" => Some(Call::Step(Event::Arrive {
                conn: words.next()?.parse().ok()?,
                header: header(&mut words)?,
            })),
            "done" => Some(Call::Step(Event::Done {
                ticket: words.next()?.parse().ok()?,
                status: words.next()?.parse().ok()?,
            })),
            "put" => Some(Call::Put(OwnPdu::OfCommand {
                ticket: words.next()?.parse().ok()?,
                header: header(&mut words)?,
            })),
            "own" => Some(Call::Put(OwnPdu::OfConnection {
                conn: words.next()?.parse().ok()?,
                header: header(&mut words)?,
            })),
            _ => Call::read_short(name, &mut words),
        }
    }

    /// A call of numbers alone.
    fn read_short(name: &str, words: &mut SplitWhitespace<'_>) -> Option<Call> {
        match name {
            "stopped" => Some(Call::Stopped(words.next()?.parse().ok()?)),
            "next" => Some(Call::Next(words.next()?.parse().ok()?)),
            "written" => Some(Call::Written(words.next()?.parse().ok()?)),
            "heard" => Some(Call::Heard {
                cid: words.next()?.parse().ok()?,
                exp_stat_sn: words.next()?.parse().ok()?,
                transfer_tag: words.next()?.parse().ok()?,
            }),
            "join" => Some(Call::Join {
                cid: words.next()?.parse().ok()?,
                stat_sn: words.next()?.parse().ok()?,
            }),
            "lose" => Some(Call::Lose(words.next()?.parse().ok()?)),
            "clear" => Some(Call::Clear(words.next()?.parse().ok()?)),
            "may" => Some(Call::MayTake),
            _ => None,
        }
    }
}

/// The next word as a header.
fn header(words: &mut SplitWhitespace<'_>) -> Option<[u8; 48]> {
    <[u8; 48] as FromHex>::from_hex(words.next()?).ok()
}

/// Whether the next word is 1.
fn flag(words: &mut SplitWhitespace<'_>) -> Option<bool> {
    Some(words.next()? == "1")
}

/// What a session and its outbox are opened with.
fn read_opening(alloc: Global, words: &mut SplitWhitespace<'_>) -> Option<Opening> {
    let first = words.next()?.parse::<u32>().ok()?;
    let window = words.next()?.parse::<u32>().ok()?;
    let units = words.next()?.parse::<u32>().ok()?;
    let depth = words.next()?.parse::<u32>().ok()?;
    let own = words.next()?.parse::<u32>().ok()?;
    let acknowledged = flag(words)?;
    let shared = flag(words)?;
    let mut cids = Vec::new(alloc);
    let mut conns = Vec::new(alloc);
    for word in words {
        let cid = word.parse::<u16>().ok()?;
        cids.push(cid).ok()?;
        conns.push((cid, 1u32)).ok()?;
    }
    Some(Opening {
        session: Options {
            first,
            window,
            units,
            depth,
            level: 2,
            events: 1 << 20,
            conns,
        },
        outbox: OutboxOptions {
            first,
            window,
            units,
            own,
            acknowledged,
            shared,
            conns: cids,
        },
    })
}
