//! The line of an effect.

ghost use Rattle.std.specs.Prelude.{◌≡◌, ◌+◌, ◌≤◌, ◌++◌, ◌∷◌, length, take, drop, codes, decimal};
ghost use Rattle.iscsi_report.specs.Lines.{eight_digits, request_fields, enter_fields, attr_word, why_word, effect_line};

use crate::decimal::{put_again, put_number, put_small, put_small_and_blank};
use crate::line::{put_digits, put_text, put_two_numbers, put_word};
use crate::send_line::write_send;
use crate::tens::Tens;
use iscsi_rules::{Effect, Numbers, Why};
use iscsi_tasks::Attr;
use iscsi_wire::Request;

/// Writes the line of an effect of an event that ended with these numbers.
///
/// A word that is written often is an array first, which the compiler knows not to overlap the line.
#[inline(always)]
pub fn write_effect(
    effect: &Effect,
    numbers: Numbers,
    entered: &mut Tens,
    line: &mut [u8],
    at: usize,
) -> usize
    requires { at + 256 ≤ length line.old }
    ensures end { result ≤ at + 256 }
    ensures written { take result line.new ≡ take at line.old ++ effect_line effect.now numbers }
{
    match effect {
        Effect::Deliver { request } => write_deliver(request, line, at),
        Effect::Immediate { request } => write_immediate(request, line, at),
        Effect::Wait { request } => write_request(b"  wait ", request, line, at),
        Effect::Void { sn } => write_place(b"  void ", *sn, line, at),
        Effect::Empty { sn } => write_place(b"  empty ", *sn, line, at),
        Effect::Enter { ticket, unit, attr } => {
            write_enter(*ticket, *unit, *attr, entered, line, at).1
        }
        Effect::Enable { ticket, .. } => write_enable(*ticket, line, at),
        Effect::Leave { ticket, .. } => write_leave(*ticket, line, at),
        Effect::Send {
            conn,
            stat_sn,
            reply,
        } => write_send(*conn, *stat_sn, reply, numbers, line, at),
        Effect::CloseConn { conn } => write_closing(*conn, line, at),
        Effect::CloseSession => put_text(b"  close-session\n", line, at),
        Effect::Ignore { why } => write_why(*why, line, at),
    }
}

/// The line of an event that is passed over. Where this is inlined it is known why, so that its text is.
#[inline(always)]
pub fn write_ignore(why: Why, line: &mut [u8], at: usize) -> usize
    requires { at + 256 ≤ length line.old }
    ensures end { result ≤ at + 256 }
    ensures written { take result line.new ≡ take at line.old ++ (codes "  ignore " ++ (why_word why ++ codes "\n")) }
{
    write_why(why, line, at)
}

#[inline(always)]
fn write_why(why: Why, line: &mut [u8], at: usize) -> usize
    requires { at + 256 ≤ length line.old }
    ensures end { result ≤ at + 256 }
    ensures written { take result line.new ≡ take at line.old ++ (codes "  ignore " ++ (why_word why ++ codes "\n")) }
{
    match why {
        Why::Outside => put_word(b"  ignore outside\n", line, at),
        Why::Duplicate => put_word(b"  ignore duplicate\n", line, at),
        Why::Closed => put_word(b"  ignore closed\n", line, at),
        Why::Stale => put_word(b"  ignore stale\n", line, at),
        Why::Data => put_word(b"  ignore data\n", line, at),
    }
}

/// The line of a request that executes in its turn.
#[inline(always)]
pub fn write_deliver(request: &Request, line: &mut [u8], at: usize) -> usize
    requires { at + 256 ≤ length line.old }
    ensures end { result ≤ at + 256 }
    ensures written { take result line.new ≡ take at line.old
        ++ (codes "  deliver " ++ (request_fields request.now ++ codes "\n")) }
{
    let word = *b"  deliver ";
    write_request(&word, request, line, at)
}

/// The line of a request that executes at once.
#[inline(always)]
pub fn write_immediate(request: &Request, line: &mut [u8], at: usize) -> usize
    requires { at + 256 ≤ length line.old }
    ensures end { result ≤ at + 256 }
    ensures written { take result line.new ≡ take at line.old
        ++ (codes "  immediate " ++ (request_fields request.now ++ codes "\n")) }
{
    let word = *b"  immediate ";
    write_request(&word, request, line, at)
}

/// A word and the fields of a request.
#[inline(always)]
pub fn write_request(word: &[u8], request: &Request, line: &mut [u8], at: usize) -> usize
    requires short { length word.now ≤ 12 }
    requires room { at + 256 ≤ length line.old }
    ensures end { result ≤ at + 256 }
    ensures written { take result line.new ≡ take at line.old
        ++ (word.now ++ (request_fields request.now ++ codes "\n")) }
{
    let at = put_text(word, line, at);
    let at = put_small_and_blank(request.conn(), line, at);
    put_two_numbers(&request.bytes()[16..32], line, at)
}

/// A word and a CmdSN.
pub fn write_place(word: &[u8], sn: u32, line: &mut [u8], at: usize) -> usize
    requires short { length word.now ≤ 12 }
    requires room { at + 256 ≤ length line.old }
    ensures end { result ≤ at + 256 }
    ensures written { take result line.new ≡ take at line.old ++ (word.now ++ (eight_digits sn ++ codes "\n")) }
{
    let at = put_text(word, line, at);
    let at = put_digits(sn, line, at);
    put_text(b"\n", line, at)
}

/// The line of a command that may be started.
#[inline(always)]
pub fn write_enable(ticket: u64, line: &mut [u8], at: usize) -> usize
    requires { at + 256 ≤ length line.old }
    ensures end { result ≤ at + 256 }
    ensures written { take result line.new ≡ take at line.old ++ (codes "  enable " ++ (decimal ticket ++ codes "\n")) }
{
    let word = *b"  enable ";
    write_ticket(&word, ticket, line, at)
}

/// The line of a command that leaves its task set.
#[inline(always)]
pub fn write_leave(ticket: u64, line: &mut [u8], at: usize) -> usize
    requires { at + 256 ≤ length line.old }
    ensures end { result ≤ at + 256 }
    ensures written { take result line.new ≡ take at line.old ++ (codes "  leave " ++ (decimal ticket ++ codes "\n")) }
{
    let word = *b"  leave ";
    write_ticket(&word, ticket, line, at)
}

/// A word and a ticket.
#[inline(always)]
fn write_ticket(word: &[u8], ticket: u64, line: &mut [u8], at: usize) -> usize
    requires short { length word.now ≤ 12 }
    requires room { at + 256 ≤ length line.old }
    ensures end { result ≤ at + 256 }
    ensures written { take result line.new ≡ take at line.old ++ (word.now ++ (decimal ticket ++ codes "\n")) }
{
    let at = put_text(word, line, at);
    let at = put_number(ticket, line, at);
    put_text(b"\n", line, at)
}

/// The line of a command that may be started, by the digits of tickets before.
#[inline(always)]
pub fn write_enable_near(ticket: u64, near: &mut Tens, line: &mut [u8], at: usize) -> usize
    requires { at + 256 ≤ length line.old }
    ensures end { result ≤ at + 256 }
    ensures written { take result line.new ≡ take at line.old ++ (codes "  enable " ++ (decimal ticket ++ codes "\n")) }
{
    let enable = *b"  enable ";
    write_ticket_near(&enable, ticket, near, line, at)
}

/// The line of a command that leaves its task set, by the digits of tickets before.
#[inline(always)]
pub fn write_leave_near(ticket: u64, near: &mut Tens, line: &mut [u8], at: usize) -> usize
    requires { at + 256 ≤ length line.old }
    ensures end { result ≤ at + 256 }
    ensures written { take result line.new ≡ take at line.old ++ (codes "  leave " ++ (decimal ticket ++ codes "\n")) }
{
    let leave = *b"  leave ";
    write_ticket_near(&leave, ticket, near, line, at)
}

/// A word and a ticket, by the digits of tickets before.
#[inline(always)]
fn write_ticket_near(word: &[u8], ticket: u64, near: &mut Tens, line: &mut [u8], at: usize) -> usize
    requires short { length word.now ≤ 12 }
    requires room { at + 256 ≤ length line.old }
    ensures end { result ≤ at + 256 }
    ensures written { take result line.new ≡ take at line.old ++ (word.now ++ (decimal ticket ++ codes "\n")) }
{
    let at = put_text(word, line, at);
    near.put_then(ticket, b'\n', line, at) + 1
}

/// A word and a ticket whose digits stand at these places.
#[inline(always)]
pub fn write_ticket_again(word: &[u8], from: usize, to: usize, line: &mut [u8], at: usize) -> usize
    requires short { length word.now ≤ 12 }
    requires places { (from ≤ to) × (to ≤ from + 20) × (to ≤ at) }
    requires room { at + 256 ≤ length line.old }
    ensures end { result ≤ at + 256 }
    ensures written { take result line.new ≡ take at line.old
        ++ (word.now ++ (drop from (take to line.old) ++ codes "\n")) }
{
    let at = put_text(word, line, at);
    let at = put_again(from, to, line, at);
    put_text(b"\n", line, at)
}

/// The line of a connection that is closed.
pub fn write_closing(conn: u16, line: &mut [u8], at: usize) -> usize
    requires { at + 256 ≤ length line.old }
    ensures end { result ≤ at + 256 }
    ensures written { take result line.new ≡ take at line.old
        ++ (codes "  close-conn " ++ (decimal conn ++ codes "\n")) }
{
    let at = put_text(b"  close-conn ", line, at);
    let at = put_small(conn, line, at);
    put_text(b"\n", line, at)
}

/// The line of a command that enters the task set of a unit. It says first where the ticket ends, whose digits begin
/// behind eight bytes.
#[inline(always)]
pub fn write_enter(
    ticket: u64,
    unit: u16,
    attr: Attr,
    entered: &mut Tens,
    line: &mut [u8],
    at: usize,
) -> (usize, usize)
    requires { at + 256 ≤ length line.old }
    ensures ticket { (at + 8 ≤ result.0) × (result.0 ≤ at + 28)
        × (drop (at + 8) (take result.0 line.new) ≡ decimal ticket) }
    ensures end { (result.0 ≤ result.1) × (result.1 ≤ at + 256) }
    ensures written { take result.1 line.new ≡ take at line.old
        ++ (codes "  enter " ++ (enter_fields ticket unit attr ++ codes "\n")) }
{
    let at = put_text(b"  enter ", line, at);
    let ticket_end = entered.put_then(ticket, b' ', line, at);
    let at = put_small(unit, line, ticket_end + 1);
    (ticket_end, put_attr(attr, line, at))
}

/// Writes an attribute, with the blank before it and the end of the line.
#[inline(always)]
fn put_attr(attr: Attr, line: &mut [u8], at: usize) -> usize
    requires { at + 16 ≤ length line.old }
    ensures end { (at ≤ result) × (result ≤ at + 16) }
    ensures written { take result line.new ≡ take at line.old ++ (codes " " ++ (attr_word attr ++ codes "\n")) }
{
    match attr {
        // Most are of this kind.
        Attr::Simple => put_word(b" simple\n", line, at),
        Attr::Ordered => put_rarer(b" ordered\n", line, at),
        Attr::Head => put_rarer(b" head\n", line, at),
    }
}

/// Writes a text as `put_text` does. It is apart, so that the commonest attribute is written where its line is.
#[inline(never)]
fn put_rarer(text: &[u8], line: &mut [u8], at: usize) -> usize
    requires { at + length text.now ≤ length line.old }
    ensures end { result ≡ at + length text.now }
    ensures written { take result line.new ≡ take at line.old ++ text.now }
{
    put_text(text, line, at)
}
