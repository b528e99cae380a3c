//! The lines of a report, of events and of the plain effects that the handle shows. Their form is that of
//! `docs/FORMATS.md`; they are made here by themselves, so that nothing of a report comes from elsewhere.

use iscsi_host::PlainEffect;
use iscsi_rules::Event;
use std::alloc::AllocError;

/// The kinds of a plain effect.
const DELIVER: u8 = 1;

const IMMEDIATE: u8 = 2;

const WAIT: u8 = 3;

const VOID: u8 = 4;

const EMPTY: u8 = 5;

const ENTER: u8 = 6;

const ENABLE: u8 = 7;

const LEAVE: u8 = 8;

const SEND: u8 = 9;

const CLOSE_CONN: u8 = 10;

const CLOSE_SESSION: u8 = 11;

const IGNORE: u8 = 12;

/// A place for an effect, before one is written to it.
pub(crate) const NOTHING: PlainEffect = PlainEffect {
    ticket: 0,
    sn: 0,
    cid: 0,
    unit: 0,
    kind: 0,
    attribute: 0,
    reason: 0,
    tail_length: 0,
    header: [0; 48],
    tail: [0; 48],
    reserved: [0; 4],
};

/// Appends the line of an event.
pub(crate) fn put_event(event: &Event, report: &mut String) -> Result<(), AllocError> {
    match event {
        Event::Arrive { conn, header } => {
            write!(report, "> C {conn} ")?;
            put_bytes(header, report)?;
            report.push('\n')
        }
        Event::Done { ticket, status } => writeln!(report, "> D {ticket} {status:02x}"),
    }
}

/// Appends the line of an effect.
pub(crate) fn put_effect(effect: &PlainEffect, report: &mut String) -> Result<(), AllocError> {
    match effect.kind {
        DELIVER => put_request("deliver", effect, report),
        IMMEDIATE => put_request("immediate", effect, report),
        WAIT => put_request("wait", effect, report),
        VOID => writeln!(report, "  void {:08x}", effect.sn),
        EMPTY => writeln!(report, "  empty {:08x}", effect.sn),
        ENTER => put_entering(effect, report),
        ENABLE => writeln!(report, "  enable {}", effect.ticket),
        LEAVE => writeln!(report, "  leave {}", effect.ticket),
        SEND => put_reply(effect, report),
        CLOSE_CONN => writeln!(report, "  close-conn {}", effect.cid),
        CLOSE_SESSION => writeln!(report, "  close-session"),
        IGNORE => writeln!(report, "  ignore {}", reason(effect.reason)),
        kind => writeln!(report, "  unknown kind {kind}"),
    }
}

/// The connection, the CmdSN and the Initiator Task Tag of a request.
fn put_request(word: &str, effect: &PlainEffect, report: &mut String) -> Result<(), AllocError> {
    write!(report, "  {word} {} {:08x} ", effect.cid, effect.sn)?;
    put_bytes(&effect.header[16..20], report)?;
    report.push('\n')
}

fn put_entering(effect: &PlainEffect, report: &mut String) -> Result<(), AllocError> {
    let attribute = attribute(effect.attribute);
    writeln!(
        report,
        "  enter {} {} {attribute}",
        effect.ticket, effect.unit
    )
}

/// The header of a reply and what follows it.
fn put_reply(effect: &PlainEffect, report: &mut String) -> Result<(), AllocError> {
    write!(report, "  send {} ", effect.cid)?;
    put_bytes(&effect.header, report)?;
    let length = usize::from(effect.tail_length).min(effect.tail.len());
    put_bytes(&effect.tail[..length], report)?;
    report.push('\n')
}

fn put_bytes(bytes: &[u8], report: &mut String) -> Result<(), AllocError> {
    for byte in bytes {
        write!(report, "{byte:02x}")?;
    }
    Ok(())
}

fn attribute(code: u8) -> &'static str {
    match code {
        1 => "simple",
        2 => "ordered",
        3 => "head",
        _ => "unknown",
    }
}

fn reason(code: u8) -> &'static str {
    match code {
        1 => "outside",
        2 => "duplicate",
        3 => "closed",
        4 => "stale",
        5 => "data",
        _ => "unknown",
    }
}
