//! A recording replayed with threads.

ghost use Rattle.std.specs.Prelude.{◌≡◌, ◌≢◌, ◌↔◌, ◌⊎◌, ◌<◌, ◌==◌, true, false, [], map, position, replicate, vec_len, IfSome, OnOk, IfOk, IfErr, IsErrOf};
ghost use Rattle.std.specs.List.{list_all};
ghost use Rattle.iscsi_rules.specs.rules.Settings.{are_distinct};
ghost use Rattle.iscsi_threads.specs.rules.Journal.{cids_in, parts};
ghost use Rattle.iscsi_threads.specs.private.Ends.{grow};
ghost use Rattle.iscsi_settings.specs.Limits.{are_valid};
ghost use Rattle.iscsi_recording.specs.Recorded.{view, read_of, belongs_to, IsSound};
ghost use Rattle.iscsi_recording.specs.Order.{ReadsInOrder};
ghost use Rattle.iscsi_replay.specs.promises.Replayed.{ComesOfReading, IsReadWhole};
ghost use Rattle.iscsi_replay.specs.promises.Threaded.{headers, IsFaultOf, ComesOfThreads, IsJournalOf, ThreadsReported, FrontOfThreads, ThreadsAnswerAs};

use crate::replaying::write_report;
use iscsi_recording::{
    EventSource, Events, Listed, NO_EVENT, Recording, ReplayFault, Sink, Source, read_recording,
};
use iscsi_session::{Event, Options};
use iscsi_settings::Settings;
use iscsi_threads::{LoopFault, UnitWork, serve_unlogged};
use std::alloc::{AllocError, Global};
use std::sync::Wait;
use std::thread::Threads;

/// The most events that a session with threads takes: an arrival and an answer for each line that a recording may have.
const MAX_EVENTS: u64 = 2_097_152;

/// Units that answer each command at once, with the status GOOD.
struct Good;

impl UnitWork for Good {
    fn status(&self, _unit: u16, _ticket: u64) -> u8 {
        0
    }
}

// What a refusal of the threads is here, where the options are valid.
fn fault_of(fault: LoopFault) -> ReplayFault
    requires { fault ≢ LoopFault.BadOptions }
    ensures { IsFaultOf fault result }
{
    match fault {
        LoopFault::BadOptions => unreachable!(),
        LoopFault::NoMemory => ReplayFault::NoMemory,
        LoopFault::Exhausted => ReplayFault::Exhausted,
        LoopFault::NoThread | LoopFault::Unposted => ReplayFault::NoThread,
    }
}

// So many empty lists.
fn empty_lists(alloc: Global, count: usize) -> Result<Vec<Vec<[u8; 48]>>, AllocError>
    ensures { IfOk result (λ lists. map headers lists.items ≡ replicate count []) }
{
    let mut lists = Vec::with_capacity(alloc, count)?;
    for place in 0..count {
        lists.push_reserved(Vec::new(alloc));
    }
    Ok(lists)
}

// Puts a header behind the others of one list.
fn push_at(lists: &mut Vec<Vec<[u8; 48]>>, at: usize, header: [u8; 48]) -> Result<(), AllocError>
    requires { at < vec_len lists.old }
    ensures { OnOk result (map headers lists.new.items ≡ grow (map headers lists.old.items) at header) }
{
    match lists[at].push(header) {
        Ok(()) => Ok(()),
        Err(_) => Err(AllocError),
    }
}

// The place of the connection with this CID.
fn place_of(conns: &[(u16, u32)], cid: u16) -> Option<usize>
    ensures { result ≡ position (λ conn. conn.0 == cid) conns.now }
{
    conns.iter().position(|conn| conn.0 == cid)
}

// For each connection the headers that arrived on it, in order. The events are dropped.
fn lists_of(
    alloc: Global,
    conns: &[(u16, u32)],
    events: Events,
) -> Result<Vec<Vec<[u8; 48]>>, AllocError>
    requires distinct { are_distinct conns.now ≡ true }
    requires known { list_all (belongs_to conns.now) events ≡ true }
    ensures { IfOk result (λ lists. map headers lists.items ≡ parts (cids_in conns.now) events) }
{
    let mut lists = empty_lists(alloc, conns.len())?;
    let mut cursor = events.cursor();
    let mut event = NO_EVENT;
    'events: while cursor.next(&mut event) {
        let Event::Arrive { conn, header } = event else {
            continue;
        };
        let Some(at) = place_of(conns, conn) else {
            unreachable!()
        };
        push_at(&mut lists, at, header)?;
    }
    Ok(lists)
}

/// The connections of a recording, and the events that threads made of its arrivals.
#[derive(Drop)]
struct Journal {
    conns: Vec<(u16, u32)>,
    events: Vec<Event>,
}

// The journal of the threads, for the headers that arrived.
fn run_threads<T: Threads + Wait + Sync>(
    rt: &T,
    alloc: Global,
    settings: &Settings,
    recording: Recording,
) -> Result<Journal, ReplayFault>
    requires valid { are_valid settings.now ≡ true }
    requires sound { IsSound (view recording) }
    ensures ok { IfOk result (λ j. IsJournalOf settings.now (view recording)
        (record { conns = j.conns.items; events = j.events.items })) }
    ensures err { IfErr result (λ e. ComesOfThreads settings.now (view recording) e) }
{
    let Recording { conns, events } = recording;
    let conns = conns.into_list();
    let Ok(lists) = lists_of(alloc, &conns, events) else {
        return Err(ReplayFault::NoMemory);
    };
    let Ok(kept) = conns.to_vec(alloc) else {
        return Err(ReplayFault::NoMemory);
    };
    let options = Options {
        first: settings.first,
        window: settings.window,
        units: settings.units,
        depth: settings.depth,
        level: settings.level,
        events: MAX_EVENTS,
        conns,
    };
    match serve_unlogged(rt, alloc, options, lists, &Good) {
        Ok(ended) => Ok(Journal {
            conns: kept,
            events: ended.journal,
        }),
        Err(fault) => Err(fault_of(fault)),
    }
}

/// Reads a recording to its end, and then replays its arrivals with threads: for each connection one that posts its
/// headers in their order, and for each unit one that answers its commands in turn, with the status GOOD. The
/// completions that the recording has are passed over. Once every header was taken and no command is live, the report
/// of the events as the session took them is written. Their order may differ from run to run.
///
/// The posting threads don't keep to the command window: a numbered request that arrives outside it is ignored (RFC
/// 7143 section 4.2.2.1), and isn't posted again.
///
/// `BadSettings` stands before all others, and then come the refusals of reading. Then there are `NoThread`, where a
/// thread can't be made, or ended before its list was posted, which none does, and `Exhausted`, where the arrivals and the answers are more than 2,097,152 events. After
/// `Write`, and after `NoMemory` once the input was read, a front of the report is written, and after the others
/// nothing.
pub fn replay_threads<T: Threads + Wait + Sync, R: Source, W: Sink>(
    rt: &T,
    alloc: Global,
    settings: &Settings,
    reader: &mut R,
    writer: &mut W,
) -> Result<(), ReplayFault>
    requires read_fresh { R.has_failed reader.old ≡ false }
    requires write_fresh { W.has_failed writer.old ≡ false }
    ensures bad { IsErrOf result ReplayFault.BadSettings ↔ (are_valid settings.now ≡ false) }
    ensures untouched { IsErrOf result ReplayFault.BadSettings → (reader.new ≡ reader.old) × (writer.new ≡ writer.old) }
    // The bytes are a recording, and the report of a journal is written, and nothing else: of each connection the
    // journal has the recording's headers in their order, of each unit answers in the order of its jobs, and at its
    // end no command is live. It is the report of a log that keeps all promises.
    ensures ok { OnOk result (IfSome (R.remaining reader.old)
        (λ bytes. ThreadsReported settings.now (read_of bytes) (W.contents writer.old) (W.contents writer.new))) }
    // The answer is that of the bytes, unless memory ran out, a read or a write failed, or threads stopped: no thread
    // could be made, or headers of the recording and the answers to their commands filled the journal.
    ensures fault { are_valid settings.now ≡ true →
        IfSome (R.remaining reader.old) (λ bytes. ThreadsAnswerAs settings.now (read_of bytes) result) }
    // In any case nothing is written, or a front of such a report, and nothing where the bytes are no recording.
    ensures front { IfSome (R.remaining reader.old)
        (λ bytes. FrontOfThreads settings.now (read_of bytes) (W.contents writer.old) (W.contents writer.new)) }
    // A fault is answered once the bytes seen make it certain, or at the end of the input, and `Read` only where they
    // make none certain. The threads begin at the end of the input.
    ensures order { ReadsInOrder read_of result (R.remaining reader.old) (R.remaining reader.new) }
    // A refusal that reading or the threads give leaves the writer as it was, whatever was known of its bytes and of
    // the reader's.
    ensures unwritten { IfErr result (λ e. ComesOfReading e → writer.new ≡ writer.old) }
    // The writer is as it was, or the input was read to its end, and is a recording.
    ensures whole { (writer.new ≡ writer.old) ⊎ IsReadWhole (R.remaining reader.old) (R.remaining reader.new) }
    ensures read_failed { IsErrOf result ReplayFault.Read ↔ (R.has_failed reader.new ≡ true) }
    ensures write_failed { IsErrOf result ReplayFault.Write ↔ (W.has_failed writer.new ≡ true) }
{
    if !settings.are_valid() {
        return Err(ReplayFault::BadSettings);
    }
    let mut recording = Recording::new(alloc);
    read_recording(alloc, reader, &mut recording)?;
    let Journal { conns, events } = run_threads(rt, alloc, settings, recording)?;
    write_report(
        alloc,
        settings,
        MAX_EVENTS,
        conns,
        &mut Listed::new(&events),
        writer,
    )
}
