//! The report of a recording, whose events are read where they lie.

ghost use Rattle.std.specs.Prelude.{◌≡◌, ◌≢◌, ◌↔◌, ◌<◌, ◌≤◌, true, false, length, OnOk, IfErr, IsErrOf};
ghost use Rattle.std.specs.List.{list_all};
ghost use Rattle.std.specs.Io.KnownBytes.{Appends};
ghost use Rattle.iscsi_rules.specs.rules.Settings.{is_valid};
ghost use Rattle.iscsi_rules.specs.promises.Promises.{KeepsPromises};
ghost use Rattle.iscsi_rules.specs.rules.Run.{run_of};
ghost use Rattle.iscsi_report.specs.Filled.{IsAtRest};
ghost use Rattle.iscsi_recording.specs.Firsts.{begins_with_arrival, begins_with_completion};
ghost use Rattle.iscsi_recording.specs.Recorded.{belongs_to};
ghost use Rattle.iscsi_recording.specs.Writing.{AppendsFront};
ghost use Rattle.iscsi_replay.specs.promises.Replayed.{setting_with, report_by};
ghost use Rattle.iscsi_replay.specs.Stepped.{HasStepped};

use crate::replaying::{open, step, write_chunk};
use iscsi_recording::{Cursor, ReplayFault, Sink, put_all};
use iscsi_report::Report;
use iscsi_rules::{Event, Numbers};
use iscsi_session::{Session, SessionFault};
use iscsi_settings::Settings;
use std::alloc::Global;

/// Steps the session by the arrival that comes next, with its lines. The request is copied out of the recording alone.
#[inline(always)]
fn step_arrival(
    events: &mut Cursor<'_>,
    session: &mut Session,
    report: &mut Report,
) -> Result<Numbers, SessionFault>
    requires arrival { begins_with_arrival events.old ≡ true }
    requires rest { IsAtRest report.old }
    ensures { HasStepped events.old events.new session.old session.new report.old report.new result }
{
    let request = events.pass_arrival();
    report.begin_arrival(request.conn(), request.header());
    session.arrive_into(&request, report)
}

/// Steps the session by the completion that comes next, with its lines. It isn't in memory, where the event would be
/// written whole.
#[inline(always)]
fn step_completion(
    events: &mut Cursor<'_>,
    session: &mut Session,
    report: &mut Report,
) -> Result<Numbers, SessionFault>
    requires completion { begins_with_completion events.old ≡ true }
    requires rest { IsAtRest report.old }
    ensures { HasStepped events.old events.new session.old session.new report.old report.new result }
{
    let (ticket, status) = events.pass_completion();
    let event = Event::Done { ticket, status };
    step(session, &event, report)
}

/// Steps the session by the event that comes next, with its lines.
#[inline(always)]
fn step_next(
    events: &mut Cursor<'_>,
    session: &mut Session,
    report: &mut Report,
) -> Result<Numbers, SessionFault>
    requires some { 0 < length events.old }
    requires rest { IsAtRest report.old }
    ensures { HasStepped events.old events.new session.old session.new report.old report.new result }
{
    if events.is_at_arrival() {
        step_arrival(events, session, report)
    } else {
        step_completion(events, session, report)
    }
}

/// Writes the report of a recording's events: as `write_report`, but each event is read by its kind.
pub fn write_recorded<W: Sink>(
    alloc: Global,
    settings: &Settings,
    most: u64,
    conns: Vec<(u16, u32)>,
    events: &mut Cursor<'_>,
    writer: &mut W,
) -> Result<(), ReplayFault>
    requires valid { is_valid (setting_with most settings.now conns.items) ≡ true }
    requires known { list_all (belongs_to conns.items) events.old ≡ true }
    requires few { length events.old ≤ most }
    requires fresh { W.has_failed writer.old ≡ false }
    ensures ok { OnOk result (Appends (W.contents writer.old) (W.contents writer.new)
        (report_by (setting_with most settings.now conns.items) events.old)) }
    ensures front { AppendsFront (W.contents writer.old) (W.contents writer.new)
        (report_by (setting_with most settings.now conns.items) events.old) }
    ensures failed { IsErrOf result ReplayFault.Write ↔ (W.has_failed writer.new ≡ true) }
    ensures kinds { IfErr result (λ e. e ≢ ReplayFault.Write → e ≡ ReplayFault.NoMemory) }
    ensures promises { OnOk result (KeepsPromises (setting_with most settings.now conns.items) events.old
        (run_of (setting_with most settings.now conns.items) events.old)) }
{
    let mut session = open(alloc, settings, most, conns)?;
    let mut report = Report::new(alloc);
    'events: while events.has_next() {
        // The session takes each event, as its connection is known and there are no more than it takes.
        let Ok(_) = step_next(events, &mut session, &mut report) else {
            unreachable!();
        };
        // The numbers are asked of the session, which needn't count them where there is no reply.
        let Ok(()) = report.end(session.numbers()) else {
            return Err(ReplayFault::NoMemory);
        };
        write_chunk(&mut report, writer)?;
    }
    put_all(writer, report.as_slice())
}
