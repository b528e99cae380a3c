//! A recording and its report.

ghost use Rattle.std.specs.Prelude.{◌≡◌, ◌≢◌, ◌↔◌, ◌⊎◌, ◌<◌, ◌≤◌, true, false, List, [], ◌∷◌, ◌++◌, length, IfSome, OnOk, IfOk, IfErr, IsErrOf, MatchResult, Ok, Err};
ghost use Rattle.std.specs.List.{list_all};
ghost use Rattle.std.specs.Io.KnownBytes.{Appends};
ghost use Rattle.iscsi_rules.specs.declared.event.Event.{Event as SpecEvent};
ghost use Rattle.iscsi_rules.specs.rules.Settings.{Setting, is_valid};
ghost use Rattle.iscsi_session.specs.private.Standing.{StandsFor};
ghost use Rattle.iscsi_session.specs.promises.Refusals.{RefusesAs, refusal_of};
ghost use Rattle.iscsi_settings.specs.Limits.{are_valid};
ghost use Rattle.iscsi_recording.specs.Recorded.{Recorded, view, read_of, belongs_to};
ghost use Rattle.iscsi_recording.specs.Order.{ReadsInOrder};
ghost use Rattle.iscsi_rules.specs.promises.Flow.{Flows};
ghost use Rattle.iscsi_rules.specs.promises.Promises.{KeepsPromises};
ghost use Rattle.iscsi_rules.specs.rules.Run.{next_entry, run_of, trace_of};
ghost use Rattle.iscsi_report.specs.Lines.{event_line};
ghost use Rattle.iscsi_report.specs.Filled.{HasLines, IsAtRest};
ghost use Rattle.iscsi_replay.specs.promises.Replayed.{setting_with, report_by, Reported, KeepsWord, FrontReported, AnswersAs, ComesOfReading, IsReadWhole};
ghost use Rattle.iscsi_recording.specs.Writing.{AppendsFront, AppendsBut};
ghost use Rattle.iscsi_replay.specs.promises.Again.{IsRecordable, IsReadAgain};

use crate::recorded::write_recorded;
use iscsi_recording::{
    EventSource, NO_EVENT, Recording, ReplayFault, Sink, Source, put_all, read_recording,
};
use iscsi_report::Report;
use iscsi_rules::{Event, Numbers};
use iscsi_session::{Options, Session, SessionFault};
use iscsi_settings::Settings;
use std::alloc::Global;

/// The most events that a session takes: a recording has no more lines.
const MAX_EVENTS: u64 = 1_048_576;

/// So many bytes of a report are written at once.
const CHUNK: usize = 65_536;

/// What a refusal of the session is here, where it can only be want of memory.
fn fault_of(fault: SessionFault) -> ReplayFault
    requires { fault ≡ SessionFault.NoMemory }
    ensures { result ≡ ReplayFault.NoMemory }
{
    match fault {
        SessionFault::NoMemory => ReplayFault::NoMemory,
        _ => unreachable!(),
    }
}

/// Opens a session of a recording's connections that takes so many events.
pub fn open(
    alloc: Global,
    settings: &Settings,
    most: u64,
    conns: Vec<(u16, u32)>,
) -> Result<Session, ReplayFault>
    requires { is_valid (setting_with most settings.now conns.items) ≡ true }
    ensures stands { IfOk result (λ s. StandsFor (setting_with most settings.now conns.items) s []) }
    ensures memory { IfErr result (λ e. e ≡ ReplayFault.NoMemory) }
{
    let options = Options {
        first: settings.first,
        window: settings.window,
        units: settings.units,
        depth: settings.depth,
        level: settings.level,
        events: most,
        conns,
    };
    match Session::open(alloc, options) {
        Ok(session) => Ok(session),
        Err(fault) => Err(fault_of(fault)),
    }
}

/// Writes out the lines that wait, once they are many.
pub fn write_chunk<W: Sink>(report: &mut Report, writer: &mut W) -> Result<(), ReplayFault>
    requires fresh { W.has_failed writer.old ≡ false }
    requires rest { IsAtRest report.old }
    ensures ok { OnOk result (AppendsBut (W.contents writer.old) (W.contents writer.new) report.new.bytes
        report.old.bytes) }
    ensures few { OnOk result (length report.new.bytes < 65536) }
    ensures rest { OnOk result (IsAtRest report.new) }
    ensures front { AppendsFront (W.contents writer.old) (W.contents writer.new) report.old.bytes }
    ensures failed { MatchResult result (λ _. W.has_failed writer.new ≡ false)
        (λ e. (e ≡ ReplayFault.Write) × (W.has_failed writer.new ≡ true)) }
{
    if report.len() < CHUNK {
        return Ok(());
    }
    put_all(writer, report.as_slice())?;
    report.clear();
    Ok(())
}

/// Writes the line of an event, and steps the session by it, so that the lines of its effects follow.
///
/// An arrival and a completion part here once, so that neither asks again what it is.
#[inline(always)]
pub fn step(
    session: &mut Session,
    event: &Event,
    report: &mut Report,
) -> Result<Numbers, SessionFault>
    requires { IsAtRest report.old }
    ensures stands { (o : Setting) (h : List SpecEvent) → StandsFor o session.old h →
        OnOk result (StandsFor o session.new (h ++ event.now ∷ [])) }
    ensures lines { (o : Setting) (h : List SpecEvent) → StandsFor o session.old h → OnOk result
        (HasLines report.new (report.old.bytes ++ event_line event.now) (next_entry o h event.now).effects) }
    ensures refused { (o : Setting) (h : List SpecEvent) → StandsFor o session.old h →
        RefusesAs (refusal_of o h event.now) result }
    ensures memory { result ≢ Err SessionFault.NoMemory }
    ensures flow { (o : Setting) (h : List SpecEvent) → StandsFor o session.old h →
        OnOk result (Flows o (trace_of o h) (trace_of o (h ++ event.now ∷ []))) }
{
    match event {
        Event::Arrive { conn, header } => {
            report.begin_arrival(*conn, header);
            session.step_into(event, report)
        }
        Event::Done { ticket, status } => {
            report.begin_completion(*ticket, *status);
            session.step_into(event, report)
        }
    }
}

/// Writes the report of events on these connections, by a session that takes so many. On `Err` a front of it is
/// written.
pub fn write_report<E: EventSource, W: Sink>(
    alloc: Global,
    settings: &Settings,
    most: u64,
    conns: Vec<(u16, u32)>,
    events: &mut E,
    writer: &mut W,
) -> Result<(), ReplayFault>
    requires valid { is_valid (setting_with most settings.now conns.items) ≡ true }
    requires known { list_all (belongs_to conns.items) (E.rest events.old) ≡ true }
    requires few { length (E.rest events.old) ≤ most }
    requires fresh { W.has_failed writer.old ≡ false }
    ensures ok { OnOk result (Appends (W.contents writer.old) (W.contents writer.new)
        (report_by (setting_with most settings.now conns.items) (E.rest events.old))) }
    ensures front { AppendsFront (W.contents writer.old) (W.contents writer.new)
        (report_by (setting_with most settings.now conns.items) (E.rest events.old)) }
    ensures failed { IsErrOf result ReplayFault.Write ↔ (W.has_failed writer.new ≡ true) }
    ensures kinds { IfErr result (λ e. e ≢ ReplayFault.Write → e ≡ ReplayFault.NoMemory) }
    ensures promises { OnOk result (KeepsPromises (setting_with most settings.now conns.items) (E.rest events.old)
        (run_of (setting_with most settings.now conns.items) (E.rest events.old))) }
{
    let mut session = open(alloc, settings, most, conns)?;
    let mut report = Report::new(alloc);
    let mut event = NO_EVENT;
    'events: while events.next(&mut event) {
        // The session takes each event, as its connection is known and there are no more than it takes.
        let Ok(_) = step(&mut session, &event, &mut report) else {
            unreachable!();
        };
        // The numbers are asked of the session, which needn't count them where there is no reply.
        let Ok(()) = report.end(session.numbers()) else {
            return Err(ReplayFault::NoMemory);
        };
        write_chunk(&mut report, writer)?;
    }
    put_all(writer, report.as_slice())
}

/// Reads a recording to its end, and then writes the report of its events.
///
/// `BadSettings` stands before all others. After `Write`, and after `NoMemory` once the input was read, a
/// front of the report is written, and after the others nothing.
#[tactic(auto, using(crate::proofs::AgainTheorem::again_if, crate::proofs::AgainTheorem::every_again))]
pub fn replay<R: Source, W: Sink>(
    alloc: Global,
    settings: &Settings,
    reader: &mut R,
    writer: &mut W,
) -> Result<(), ReplayFault>
    requires read_fresh { R.has_failed reader.old ≡ false }
    requires write_fresh { W.has_failed writer.old ≡ false }
    ensures bad { IsErrOf result ReplayFault.BadSettings ↔ (are_valid settings.now ≡ false) }
    ensures untouched { IsErrOf result ReplayFault.BadSettings → (reader.new ≡ reader.old) × (writer.new ≡ writer.old) }
    // The bytes are a recording, and the report of its events is written, and nothing else.
    ensures ok { OnOk result (IfSome (R.remaining reader.old)
        (λ bytes. Reported settings.now (read_of bytes) (W.contents writer.old) (W.contents writer.new))) }
    // It is the report of a log that keeps all promises: of delivery, enabling, aborts, closes, flow, the life of a
    // command, replies and their numbers, and the order of effects.
    ensures promises { OnOk result (IfSome (R.remaining reader.old)
        (λ bytes. KeepsWord settings.now (read_of bytes) (W.contents writer.old) (W.contents writer.new))) }
    // The answer is that of the bytes, unless memory ran out or a read or a write failed.
    ensures fault { are_valid settings.now ≡ true →
        IfSome (R.remaining reader.old) (λ bytes. AnswersAs (read_of bytes) result) }
    // In any case a front of the report is written, and nothing where the bytes are no recording.
    ensures front { IfSome (R.remaining reader.old)
        (λ bytes. FrontReported settings.now (read_of bytes) (W.contents writer.old) (W.contents writer.new)) }
    // A fault is answered once the bytes seen make it certain, or at the end of the input, and `Read` only where they
    // make none certain. The report is begun at the end of the input.
    ensures order { ReadsInOrder read_of result (R.remaining reader.old) (R.remaining reader.new) }
    // A refusal that reading gives leaves the writer as it was, whatever was known of its bytes and of the reader's.
    ensures unwritten { IfErr result (λ e. ComesOfReading e → writer.new ≡ writer.old) }
    // The writer is as it was, or the input was read to its end, and is a recording.
    ensures whole { (writer.new ≡ writer.old) ⊎ IsReadWhole (R.remaining reader.old) (R.remaining reader.new) }
    // With the lines of the connections before it, that report is a recording again: of the same connections and
    // events, unless it has too many lines.
    ensures again { IfSome (R.remaining reader.old) (λ bytes. IsReadAgain settings.now (read_of bytes)) }
    // So is the report of every recording that lines can say, also of one that was never read.
    ensures every { (r : Recorded) → IsRecordable r → IsReadAgain settings.now (Ok r) }
    ensures read_failed { IsErrOf result ReplayFault.Read ↔ (R.has_failed reader.new ≡ true) }
    ensures write_failed { IsErrOf result ReplayFault.Write ↔ (W.has_failed writer.new ≡ true) }
{
    if !settings.are_valid() {
        return Err(ReplayFault::BadSettings);
    }
    let mut recording = Recording::new(alloc);
    read_recording(alloc, reader, &mut recording)?;
    let Recording { conns, events } = recording;
    write_recorded(
        alloc,
        settings,
        MAX_EVENTS,
        conns.into_list(),
        &mut events.cursor(),
        writer,
    )
}
