//! One line of a recording.

ghost use Rattle.std.specs.Prelude.{◌≡◌, ℕ, ◌+◌, ◌-◌, ◌*◌, ◌^◌, ◌<◌, ◌≤◌, IfSome, Some, true, [], ◌∷◌, length, drop, slice_index, MatchOption, option_map, option_and_then, position};
ghost use Rattle.std.specs.List.{before_first, after_first};
ghost use Rattle.std.specs.Int.{w32, from_be_bytes};
ghost use Rattle.iscsi_recording.specs.Fields.{is_blank, digits_after, is_digit, up_to, decimal_of, hex_of};
ghost use Rattle.iscsi_recording.specs.DigitValues.{IsRaisedValue, HasNonDigit, AreRaisedValues, lowered, paired};
ghost use Rattle.iscsi_recording.specs.Grammar.{arrival_of, completion_of, event_of, connection_of, line_of};
ghost use Rattle.iscsi_recording.specs.Fronts.{FirstSays, LeadsWith};

use crate::eight::{TICKET_DIGITS, common_ticket, good_ticket};
use crate::fronts::{longer_cid_first, one_digit_first};
use crate::line::Line;
use crate::pairs::joined;
use iscsi_rules::Event;

#[inline(always)]
fn first_blank(bytes: &[u8]) -> Option<usize>
    ensures { result ≡ position is_blank bytes.now }
{
    bytes.iter().position(|b| *b == b' ')
}

/// What stands before the first blank, and what stands after it.
#[inline(always)]
fn cut(bytes: &[u8]) -> (&[u8], &[u8])
    ensures first { result.0.now ≡ before_first is_blank bytes.now }
    ensures rest { result.1.now ≡ after_first is_blank bytes.now }
{
    match first_blank(bytes) {
        Some(i) => (&bytes[..i], &bytes[i + 1..]),
        None => (bytes, &[]),
    }
}

pub fn is_decimal(d: u8) -> bool
    ensures { result ≡ is_digit d }
{
    (b'0'..=b'9').contains(&d)
}

/// The number with one more digit, where it isn't above `max`.
fn pushed(n: u64, d: u8, max: u64) -> Option<u64>
    requires { is_digit d ≡ true }
    ensures { result ≡ up_to max (n * 10 + (d - 48)) }
{
    let d = u64::from(d - b'0');
    if d <= max && n <= (max - d) / 10 {
        Some(n * 10 + d)
    } else {
        None
    }
}

/// A number of any count of digits.
#[inline(always)]
#[tactic(auto, using(crate::proofs::Digits::digits_over))]
fn many_digits(text: &[u8], max: u64) -> Option<u64>
    ensures { result ≡ option_and_then (up_to max) (digits_after 0 text.now) }
{
    let mut n = 0u64;
    for d in text {
        if !is_decimal(*d) {
            return None;
        }
        let Some(more) = pushed(n, *d, max) else {
            return None;
        };
        n = more;
    }
    Some(n)
}

/// A number of so few digits that it is below 2^64.
#[inline(always)]
fn few_digits(text: &[u8]) -> Option<u64>
    requires { length text.now ≤ 19 }
    ensures { result ≡ digits_after 0 text.now }
{
    let mut n = 0u64;
    for d in text {
        if !is_decimal(*d) {
            return None;
        }
        n = n * 10 + u64::from(*d - b'0');
    }
    Some(n)
}

#[inline(always)]
fn digits(text: &[u8], max: u64) -> Option<u64>
    ensures { result ≡ option_and_then (up_to max) (digits_after 0 text.now) }
{
    if text.len() > 19 {
        return many_digits(text, max);
    }
    let n = few_digits(text)?;
    if n <= max { Some(n) } else { None }
}

#[inline(always)]
fn decimal(text: &[u8], max: u64) -> Option<u64>
    ensures { result ≡ decimal_of max text.now }
{
    match text {
        [] => None,
        [b'0', _, ..] => None,
        _ => digits(text, max),
    }
}

#[inline(always)]
fn hexadecimal<const N: usize>(text: &[u8]) -> Option<[u8; N]>
    ensures { result ≡ hex_of N text.now }
{
    let mut bytes = [0u8; N];
    match hex::decode_to_slice(text, &mut bytes) {
        Ok(()) => Some(bytes),
        Err(_) => None,
    }
}

/// 240 more than the value of a hexadecimal digit of either case, or less than 240 where the byte is none.
///
/// It has no branch, so that many bytes are taken at once, and fewer steps than the value itself would take.
#[inline(always)]
fn raised_value(c: u8) -> u8
    ensures { IsRaisedValue c result }
{
    // b'0' to b'9' become 0xf0 to 0xf9, and b'A' to b'F' 0xfa to 0xff. Any other byte becomes less in both: b'@' too, as
    // one is taken from it before its case is.
    let decimal = c.wrapping_add(0xff - b'9').saturating_sub(6);
    let letter = (c.wrapping_sub(1) & !0x20).wrapping_add(0xff - b'F' + 1);
    decimal.max(letter)
}

/// The raised values of 96 digits, or `None` where a byte is none.
#[inline(always)]
fn raised_values(text: &[u8]) -> Option<[u8; 96]>
    requires { length text.now ≡ 96 }
    ensures { MatchOption result (HasNonDigit text.now) (λ values. AreRaisedValues text.now values) }
{
    let mut values = [0u8; 96];
    let mut least = 0xffu8;
    'digits: for i in 0..96usize {
        let v = raised_value(text[i]);
        values[i] = v;
        least = least.min(v);
    }
    if least >= 0xf0 { Some(values) } else { None }
}

/// The byte of two digits with these raised values.
///
/// The first one is added to the second's upper half where they lie.
#[inline(always)]
fn byte_of(pair: [u8; 2]) -> u8
    requires { (239 < slice_index pair 0) × (239 < slice_index pair 1) }
    ensures { result ≡ (slice_index pair 0 - 240) * 16 + (slice_index pair 1 - 240) }
{
    let word = u16::from_le_bytes(pair).wrapping_mul(0x1001);
    ((word >> 8) as u8).wrapping_add(0x10)
}

/// The 48 bytes of 96 digits.
#[inline(always)]
fn decode_48(text: &[u8]) -> Option<[u8; 48]>
    ensures { result ≡ hex_of 48 text.now }
{
    if text.len() != 96 {
        return None;
    }
    let values = raised_values(text)?;
    Some(joined(&values))
}

#[inline(always)]
fn cid(text: &[u8]) -> Option<u16>
    ensures { result ≡ decimal_of 65535 text.now }
{
    let n = decimal(text, 65535)?;
    u16::try_from(n).ok()
}

/// An arrival, without the letter before it.
#[inline(never)]
pub fn arrival(bytes: &[u8]) -> Option<Event>
    ensures { result ≡ arrival_of bytes.now }
{
    let (first, rest) = cut(bytes);
    let conn = cid(first)?;
    let header = decode_48(rest)?;
    Some(Event::Arrive { conn, header })
}

/// How many bytes the shortest line of an arrival has, and the longest of a completion in its common form.
const SHORTEST_ARRIVAL: usize = 2 + 1 + 1 + 96;

const LONGEST_COMPLETION: usize = 2 + TICKET_DIGITS + 1 + 2;

/// The letter of an arrival and a blank, and those of a completion, which are looked at as one number.
const ARRIVAL_MARK: u16 = 0x2043;

const COMPLETION_MARK: u16 = 0x2044;

/// Whether more bytes stand here than the shortest arrival has, and first its letter and a blank.
#[inline(always)]
pub fn begins_arrival(bytes: &[u8]) -> bool
    ensures long { result ≡ true → 100 < length bytes.now }
    ensures mark { result ≡ true → (slice_index bytes.now 0 ≡ 67) × (slice_index bytes.now 1 ≡ 32) }
{
    bytes.len() > SHORTEST_ARRIVAL && u16::from_le_bytes([bytes[0], bytes[1]]) == ARRIVAL_MARK
}

/// Whether more bytes stand here than the longest completion in its common form has, and first its letter and a blank.
#[inline(always)]
fn begins_completion(bytes: &[u8]) -> bool
    ensures long { result ≡ true → 23 < length bytes.now }
    ensures mark { result ≡ true → (slice_index bytes.now 0 ≡ 68) × (slice_index bytes.now 1 ≡ 32) }
{
    bytes.len() > LONGEST_COMPLETION && u16::from_le_bytes([bytes[0], bytes[1]]) == COMPLETION_MARK
}

/// The arrival that the first line of these bytes says, where its CID has one digit, and how many bytes that line has
/// without its end. `None` decides nothing.
///
/// It is apart from the others, so that the places behind the CID are known where the line is taken.
#[inline(always)]
pub fn short_arrival(bytes: &[u8]) -> Option<(u16, [u8; 48], usize)>
    ensures { IfSome result (λ r. FirstSays bytes.now r.2 (Event.Arrive r.0 r.1)) }
{
    if !begins_arrival(bytes) {
        return None;
    }
    let conn = one_digit_first(&bytes[2..])?;
    arrival_behind(bytes, conn, 1)
}

/// The same, where its CID has more digits.
#[inline(always)]
pub fn longer_arrival(bytes: &[u8]) -> Option<(u16, [u8; 48], usize)>
    ensures { IfSome result (λ r. FirstSays bytes.now r.2 (Event.Arrive r.0 r.1)) }
{
    if !begins_arrival(bytes) {
        return None;
    }
    let conn = longer_cid_first(&bytes[2..])?;
    arrival_behind(bytes, conn.0, conn.1)
}

/// The same, where this CID of so many digits and a blank stand behind the letter.
#[inline(always)]
fn arrival_behind(bytes: &[u8], conn: u16, count: usize) -> Option<(u16, [u8; 48], usize)>
    requires long { 100 < length bytes.now }
    requires letter { (slice_index bytes.now 0 ≡ 67) × (slice_index bytes.now 1 ≡ 32) }
    requires cid { LeadsWith (drop 2 bytes.now) conn count }
    requires few { count ≤ 5 }
    ensures { IfSome result (λ r. FirstSays bytes.now r.2 (Event.Arrive r.0 r.1)) }
{
    let end = count + 99;
    if bytes.len() <= end || bytes[end] != b'\n' {
        return None;
    }
    let header = decode_48(&bytes[count + 3..end])?;
    Some((conn, header, end))
}

/// The byte of two hexadecimal digits.
#[inline(always)]
fn decode_1(high: u8, low: u8) -> Option<u8>
    ensures { IfSome result (λ b. hex_of 1 (high ∷ low ∷ []) ≡ Some (b ∷ [])) }
{
    // A status has mostly no letter.
    if is_decimal(high) && is_decimal(low) {
        return Some((high - b'0') * 16 + (low - b'0'));
    }
    let high = raised_value(high);
    let low = raised_value(low);
    if high.min(low) >= 0xf0 {
        Some(byte_of([high, low]))
    } else {
        None
    }
}

/// The completion that the first line of these bytes says, where its ticket has at most 18 digits, and how many bytes
/// that line has without its end. `None` decides nothing.
#[inline(always)]
pub fn first_completion(bytes: &[u8]) -> Option<(u64, u8, usize)>
    ensures { IfSome result (λ r. FirstSays bytes.now r.2 (Event.Done r.0 r.1)) }
{
    if !begins_completion(bytes) {
        return None;
    }
    let rest = &bytes[2..];
    // Most commands end with the status 0, which is told with what stands round it.
    if let Some(good) = good_ticket(rest) {
        return Some((good.0, 0, good.1 + 5));
    }
    let ticket = common_ticket(rest)?;
    if rest[ticket.1 + 3] != b'\n' {
        return None;
    }
    let status = decode_1(rest[ticket.1 + 1], rest[ticket.1 + 2])?;
    Some((ticket.0, status, ticket.1 + 5))
}

/// A number of up to 18 digits at the front of a line, and what stands after the blank that ends it. `None` decides
/// nothing.
#[inline(always)]
fn few_first(bytes: &[u8]) -> Option<(u64, &[u8])>
    ensures { IfSome result (λ r. (decimal_of (2 ^ 64 - 1) (before_first is_blank bytes.now) ≡ Some r.0)
        × (r.1.now ≡ after_first is_blank bytes.now)) }
{
    if let [] | [b'0' | b' ', ..] = bytes {
        return None;
    }
    let mut n = 0u64;
    'digits: for i in 0..bytes.len().min(19) {
        let d = bytes[i];
        if !is_decimal(d) {
            if d == b' ' {
                return Some((n, &bytes[i + 1..]));
            }
            return None;
        }
        n = n * 10 + u64::from(d - b'0');
    }
    None
}

/// The ticket at the front of a line, and what stands after the blank that ends it.
#[inline(always)]
fn ticket_first(bytes: &[u8]) -> Option<(u64, &[u8])>
    ensures { MatchOption result (decimal_of (2 ^ 64 - 1) (before_first is_blank bytes.now) ≡ None)
        (λ r. (decimal_of (2 ^ 64 - 1) (before_first is_blank bytes.now) ≡ Some r.0)
        × (r.1.now ≡ after_first is_blank bytes.now)) }
{
    if let Some(found) = few_first(bytes) {
        return Some(found);
    }
    let (first, rest) = cut(bytes);
    let ticket = decimal(first, u64::MAX)?;
    Some((ticket, rest))
}

/// A completion, without the letter before it.
#[inline(always)]
pub fn completion(bytes: &[u8]) -> Option<Event>
    ensures { result ≡ completion_of bytes.now }
{
    let (ticket, rest) = ticket_first(bytes)?;
    let [status] = hexadecimal::<1>(rest)?;
    Some(Event::Done { ticket, status })
}

#[inline(never)]
fn connection(bytes: &[u8]) -> Option<Line>
    ensures { result ≡ connection_of bytes.now }
{
    let (first, rest) = cut(bytes);
    let cid = cid(first)?;
    let stat_sn = hexadecimal::<4>(rest)?;
    Some(Line::Conn {
        cid,
        stat_sn: u32::from_be_bytes(stat_sn),
    })
}

/// An event that stands behind the mark that it has in a report.
#[inline(never)]
fn marked(bytes: &[u8]) -> Option<Event>
    ensures { result ≡ event_of bytes.now }
{
    match bytes {
        [b'C', b' ', rest @ ..] => arrival(rest),
        [b'D', b' ', rest @ ..] => completion(rest),
        _ => None,
    }
}

/// What a line says, or `None` where it is no line of a recording.
#[inline(never)]
pub fn parse_line(bytes: &[u8]) -> Option<Line>
    ensures { result ≡ line_of bytes.now }
{
    match bytes {
        [b'C', b' ', rest @ ..] => Some(Line::Event(arrival(rest)?)),
        [b'D', b' ', rest @ ..] => Some(Line::Event(completion(rest)?)),
        [b'>', b' ', rest @ ..] => Some(Line::Event(marked(rest)?)),
        [b'c', b'o', b'n', b'n', b' ', rest @ ..] => connection(rest),
        [] | [b'#' | b' ', ..] => Some(Line::Passed),
        _ => None,
    }
}
