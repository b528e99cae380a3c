//! The call of `serve`: all threads of a session.

use crate::calls::{Given, behind, event, is_passed, must};
use crate::ports::tell_outcome;
use crate::told::{Halt, Told, fits};
use iscsi_session::{Event, Options};
use iscsi_threads::{UnitWork, serve};
use std::alloc::Global;
use std::sync::Wait;
use std::sync::atomic::{AtomicBool, Ordering};
use std::thread;
use std::thread::Threads;

/// What the units answer.
#[derive(Drop)]
enum Work {
    /// Every command ends well.
    Good,
    /// The first call of each of two units waits for the other's, so that both are at work side by side.
    Meeting { has_come: [AtomicBool; 2] },
}

impl Work {
    /// That of a script.
    fn of(script: &str) -> Work {
        if script.lines().any(|line| line == "good") {
            return Work::Good;
        }
        Work::Meeting {
            has_come: [AtomicBool::new(false), AtomicBool::new(false)],
        }
    }
}

impl UnitWork for Work {
    fn status(&self, unit: u16, ticket: u64) -> u8 {
        match self {
            Work::Good => 0,
            Work::Meeting { has_come } if unit == 0 => meet(&has_come[0], &has_come[1], ticket),
            Work::Meeting { has_come } => meet(&has_come[1], &has_come[0], ticket),
        }
    }
}

/// The status of a ticket; the first time once the other unit came, and BUSY where it doesn't come.
fn meet(mine: &AtomicBool, other: &AtomicBool, ticket: u64) -> u8 {
    if mine.swap(true, Ordering::SeqCst) {
        return status_of(ticket);
    }
    for _ in 0..1_000_000u32 {
        if other.load(Ordering::SeqCst) {
            return status_of(ticket);
        }
        thread::yield_now();
    }
    8
}

/// 100 and the last two digits of the ticket.
fn status_of(ticket: u64) -> u8 {
    100 + (ticket % 100) as u8
}

/// Serves the arrivals of a recording, those of each connection from a thread of its own.
///
/// A line `good` says that every command ends well, where else two units meet. A line `lists N` says that the lists of
/// the first N connections are given, and no others.
pub(crate) fn make_call<R: Threads + Wait + Sync>(
    rt: &R,
    alloc: Global,
    given: &Given,
    script: &str,
    told: &mut Told,
) -> Result<(), Halt> {
    let options = given.options(alloc, script)?;
    let lists = lists_of(alloc, &options, script)?;
    match serve(rt, alloc, options, lists, &Work::of(script)) {
        Ok(outcome) => tell_outcome(alloc, &outcome, told),
        Err(fault) => told.say_refusal(fault),
    }
}

/// The headers of each connection, in their order.
fn lists_of(alloc: Global, options: &Options, script: &str) -> Result<Vec<Vec<[u8; 48]>>, Halt> {
    let count = match script.lines().find_map(|line| behind(line, "lists")) {
        Some(count) => must(count.parse::<usize>().ok())?,
        None => options.conns.len(),
    };
    let mut lists = Vec::new(alloc);
    for (cid, _) in options.conns.iter().take(count) {
        fits(lists.push(list_of(alloc, *cid, script)?))?;
    }
    Ok(lists)
}

/// The headers of a connection, in their order.
fn list_of(alloc: Global, cid: u16, script: &str) -> Result<Vec<[u8; 48]>, Halt> {
    let mut list = Vec::new(alloc);
    for line in script.lines() {
        if is_passed(line) || is_setting(line) {
            continue;
        }
        if let Event::Arrive { conn, header } = must(event(line))?
            && conn == cid
        {
            fits(list.push(header))?;
        }
    }
    Ok(list)
}

/// Whether a line says how to serve.
fn is_setting(line: &str) -> bool {
    line == "good" || line.starts_with("lists ")
}
