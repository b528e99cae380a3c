//! The lines of an event and of its effects.

ghost use Rattle.std.specs.Prelude.{◌≡◌, ◌+◌, ◌*◌, ◌<◌, ◌≤◌, ◌++◌, length, take, drop, decimal};
ghost use Rattle.std.specs.List.{flat_map};
ghost use Rattle.iscsi_report.specs.Lines.{event_line, effect_line, entry_lines};

use crate::effect_line::{
    write_deliver, write_effect, write_enable, write_enter, write_ignore, write_leave,
    write_ticket_again,
};
use crate::event_line::{write_arrival, write_completion};
use crate::send_line::write_send;
use crate::tens::Tens;
use iscsi_rules::{Effect, Event, Numbers};

/// Writes the lines of an event that ended with these numbers, and of its effects.
#[inline(always)]
pub fn write_entry(
    event: &Event,
    numbers: Numbers,
    effects: &[Effect],
    entered: &mut Tens,
    completed: &mut Tens,
    line: &mut [u8],
    at: usize,
) -> usize
    requires { at + 256 * (length effects.now + 1) ≤ length line.old }
    ensures end { result ≤ at + 256 * (length effects.now + 1) }
    ensures written { take result line.new ≡ take at line.old
        ++ (event_line event.now ++ entry_lines (record { numbers = numbers; effects = effects.now })) }
{
    match event {
        Event::Arrive { conn, header } => {
            let at = write_arrival(*conn, header, line, at);
            write_effects(effects, numbers, entered, line, at)
        }
        Event::Done { ticket, status } => {
            write_done(
                *ticket, *status, effects, numbers, entered, completed, line, at,
            )
        }
    }
}

#[inline(always)]
fn write_done(
    ticket: u64,
    status: u8,
    effects: &[Effect],
    numbers: Numbers,
    entered: &mut Tens,
    completed: &mut Tens,
    line: &mut [u8],
    at: usize,
) -> usize
    requires { at + 256 * (length effects.now + 1) ≤ length line.old }
    ensures end { result ≤ at + 256 * (length effects.now + 1) }
    ensures written { take result line.new ≡ take at line.old
        ++ (event_line (Event.Done ticket status) ++ flat_map (λ effect. effect_line effect numbers) effects.now) }
{
    let (ticket_end, end) = write_completion(ticket, status, completed, line, at);
    let (count, end) = write_response(ticket, at + 4, ticket_end, effects, numbers, line, end);
    write_effects(&effects[count..], numbers, entered, line, end)
}

/// Writes the lines of the first effects of a completion if they are that the command leaves and a response goes out,
/// and says how many and where they end. The digits of the ticket that was completed stand at these places.
#[inline(always)]
fn write_response(
    ticket: u64,
    from: usize,
    to: usize,
    effects: &[Effect],
    numbers: Numbers,
    line: &mut [u8],
    at: usize,
) -> (usize, usize)
    requires places { (from ≤ to) × (to ≤ from + 20) × (to ≤ at) }
    requires digits { drop from (take to line.old) ≡ decimal ticket }
    requires room { at + 256 * length effects.now ≤ length line.old }
    ensures count { result.0 ≤ length effects.now }
    ensures end { result.1 ≤ at + 256 * result.0 }
    ensures written { take result.1 line.new ≡ take at line.old
        ++ flat_map (λ effect. effect_line effect numbers) (take result.0 effects.now) }
{
    if let [
        Effect::Leave { ticket: left, .. },
        Effect::Send {
            conn,
            stat_sn,
            reply,
        },
        ..
    ] = effects
    {
        let at = if *left == ticket {
            let word = *b"  leave ";
            write_ticket_again(&word, from, to, line, at)
        } else {
            write_leave(*left, line, at)
        };
        return (2, write_send(*conn, *stat_sn, reply, numbers, line, at));
    }
    (0, at)
}

/// Writes the lines of effects.
#[inline(always)]
fn write_effects(
    effects: &[Effect],
    numbers: Numbers,
    entered: &mut Tens,
    line: &mut [u8],
    at: usize,
) -> usize
    requires { at + 256 * length effects.now ≤ length line.old }
    ensures end { result ≤ at + 256 * length effects.now }
    ensures written { take result line.new ≡ take at line.old
        ++ flat_map (λ effect. effect_line effect numbers) effects.now }
{
    if effects.is_empty() {
        return at;
    }
    if let [Effect::Ignore { why }] = effects {
        return write_ignore(*why, line, at);
    }
    write_all(effects, numbers, entered, line, at)
}

/// The same. It is apart, since many events have no effects, or none that is left, or are passed over.
#[inline(never)]
fn write_all(
    effects: &[Effect],
    numbers: Numbers,
    entered: &mut Tens,
    line: &mut [u8],
    at: usize,
) -> usize
    requires { at + 256 * length effects.now ≤ length line.old }
    ensures end { result ≤ at + 256 * length effects.now }
    ensures written { take result line.new ≡ take at line.old
        ++ flat_map (λ effect. effect_line effect numbers) effects.now }
{
    let mut rest = effects;
    let mut end = at;
    'effects: while !rest.is_empty() {
        let (count, next) = write_first(rest, numbers, entered, line, end);
        rest = &rest[count..];
        end = next;
    }
    end
}

/// Writes the lines of the first effects, and says how many and where they end. Mostly a command is delivered, enters,
/// and is enabled at once.
#[inline(always)]
fn write_first(
    effects: &[Effect],
    numbers: Numbers,
    entered: &mut Tens,
    line: &mut [u8],
    at: usize,
) -> (usize, usize)
    requires some { 0 < length effects.now }
    requires room { at + 256 * length effects.now ≤ length line.old }
    ensures count { (0 < result.0) × (result.0 ≤ length effects.now) }
    ensures end { result.1 ≤ at + 256 * result.0 }
    ensures written { take result.1 line.new ≡ take at line.old
        ++ flat_map (λ effect. effect_line effect numbers) (take result.0 effects.now) }
{
    if let [
        Effect::Deliver { request },
        Effect::Enter { ticket, unit, attr },
        Effect::Enable {
            ticket: enabled,
            ..
        },
        ..
    ] = effects
    {
        let at = write_deliver(request, line, at);
        let (ticket_end, end) = write_enter(*ticket, *unit, *attr, entered, line, at);
        if *enabled != *ticket {
            return (3, write_enable(*enabled, line, end));
        }
        let word = *b"  enable ";
        return (3, write_ticket_again(&word, at + 8, ticket_end, line, end));
    }
    (1, write_effect(&effects[0], numbers, entered, line, at))
}
