//! A recording's events by a handle, and the report of all that the handle shows of them.

use crate::halt::Halt;
use crate::lines::{NOTHING, put_effect, put_event};
use iscsi_host::{Answer, Handle, PlainConnection, PlainOptions};
use iscsi_recording::{EventSource, Events, NO_EVENT, Recording, Watched, read_recording};
use iscsi_rules::Event;
use std::alloc::{AllocError, Global};

/// Replays a recording twice by one handle, and appends its report. The handle is closed after the first time, and let go
/// while it is open after the second: its drop closes it.
pub(crate) fn replay(
    alloc: Global,
    options: &PlainOptions,
    text: &str,
    reports: &mut String,
) -> Result<(), Halt> {
    let mut recording = Recording::new(alloc);
    read_recording(alloc, &mut Watched::new(text.as_bytes()), &mut recording)?;
    let Recording { conns, events } = recording;
    let connections = plain_connections(alloc, &conns.into_list())?;
    let mut handle = Handle::closed(alloc);
    let report = report_of(alloc, &mut handle, options, &connections, &events)?;
    must(handle.close(alloc))?;
    let again = report_of(alloc, &mut handle, options, &connections, &events)?;
    if again != report {
        return Err(Halt::OtherReport);
    }
    reports.push_str(&report)?;
    Ok(())
}

/// The report of events on these connections, by a closed handle, which stays open.
fn report_of(
    alloc: Global,
    handle: &mut Handle,
    options: &PlainOptions,
    connections: &[PlainConnection],
    events: &Events,
) -> Result<String, Halt> {
    must(handle.open(alloc, options, connections))?;
    let mut report = String::new(alloc);
    let mut cursor = events.cursor();
    let mut event = NO_EVENT;
    for _ in 0..u64::MAX {
        if !cursor.next(&mut event) {
            break;
        }
        put_event(&event, &mut report)?;
        take(alloc, handle, &event)?;
        put_effects(alloc, handle, &mut report)?;
    }
    Ok(report)
}

/// The connections of a recording, as a foreign caller gives them.
fn plain_connections(
    alloc: Global,
    pairs: &[(u16, u32)],
) -> Result<Vec<PlainConnection>, AllocError> {
    pairs
        .iter()
        .map(|pair| PlainConnection {
            first_stat_sn: pair.1,
            cid: pair.0,
        })
        .collect(alloc)
}

/// Gives the handle an event.
fn take(alloc: Global, handle: &mut Handle, event: &Event) -> Result<(), Halt> {
    must(match event {
        Event::Arrive { conn, header } => handle.arrive(alloc, *conn, header),
        Event::Done { ticket, status } => handle.complete(alloc, *ticket, *status),
    })
}

/// Appends the line of each effect of the last event.
fn put_effects(alloc: Global, handle: &mut Handle, report: &mut String) -> Result<(), Halt> {
    let mut effect = NOTHING;
    for index in 0..handle.effect_count(alloc) {
        must(handle.effect(alloc, index, &mut effect))?;
        put_effect(&effect, report)?;
    }
    Ok(())
}

/// A call that must be done.
fn must(answer: Answer) -> Result<(), Halt> {
    match answer {
        Answer::Done => Ok(()),
        Answer::NoMemory => Err(Halt::NoMemory),
        _ => Err(Halt::Refused),
    }
}
