//! The line of an event.

ghost use Rattle.std.specs.Prelude.{◌≡◌, ◌+◌, ◌≤◌, ◌++◌, length, take, drop, decimal};
ghost use Rattle.iscsi_report.specs.Lines.{event_line};

use crate::decimal::put_small_and_blank;
use crate::line::{put_byte_and_end, put_header, put_text};
use crate::tens::Tens;
use iscsi_rules::Event;

/// Writes the line of an event.
#[inline(always)]
pub fn write_event(event: &Event, completed: &mut Tens, line: &mut [u8], at: usize) -> usize
    requires { at + 256 ≤ length line.old }
    ensures end { result ≤ at + 256 }
    ensures written { take result line.new ≡ take at line.old ++ event_line event.now }
{
    match event {
        Event::Arrive { conn, header } => write_arrival(*conn, header, line, at),
        Event::Done { ticket, status } => write_completion(*ticket, *status, completed, line, at).1,
    }
}

/// The line of an arrival.
#[inline(always)]
pub fn write_arrival(conn: u16, header: &[u8; 48], line: &mut [u8], at: usize) -> usize
    requires { at + 256 ≤ length line.old }
    ensures end { result ≤ at + 256 }
    ensures written { take result line.new ≡ take at line.old ++ event_line (Event.Arrive conn header.now) }
{
    let at = put_text(b"> C ", line, at);
    let at = put_small_and_blank(conn, line, at);
    let at = put_header(header, line, at);
    put_text(b"\n", line, at)
}

/// The line of the completion of the command with this ticket. It says first where the ticket ends, whose digits begin
/// behind four bytes.
#[inline(always)]
pub fn write_completion(
    ticket: u64,
    status: u8,
    completed: &mut Tens,
    line: &mut [u8],
    at: usize,
) -> (usize, usize)
    requires { at + 256 ≤ length line.old }
    ensures ticket { (at + 4 ≤ result.0) × (result.0 ≤ at + 24)
        × (drop (at + 4) (take result.0 line.new) ≡ decimal ticket) }
    ensures end { (result.0 ≤ result.1) × (result.1 ≤ at + 256) }
    ensures written { take result.1 line.new ≡ take at line.old ++ event_line (Event.Done ticket status) }
{
    let at = put_text(b"> D ", line, at);
    let ticket_end = completed.put_then(ticket, b' ', line, at);
    (ticket_end, put_byte_and_end(status, line, ticket_end + 1))
}
