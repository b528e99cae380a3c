//! The number of up to eight digits at the front of a line's bytes, all of which are read at once.

ghost use Rattle.std.specs.Prelude.{◌≡◌, ℕ, ◌+◌, ◌%◌, ◌<◌, ◌≤◌, IfSome, true, length, slice_index};
ghost use Rattle.std.specs.Int.{bit_at};
ghost use Rattle.iscsi_recording.specs.Fronts.{EndsGood, LeadsWith};
ghost use Rattle.iscsi_recording.specs.DigitValues.{number_of};

use crate::fronts::number_first;
use std::simd::prelude::*;

/// How many digits a ticket has at most in its common form.
pub const TICKET_DIGITS: usize = 18;

/// A blank, two digits 0 and the end of a line, the first of which is the lowest byte.
const GOOD_END: u32 = 0x0a30_3020;

/// The values of these bytes as decimal digits, which are 10 or more where a byte is none.
#[inline(always)]
fn values_of(bytes: &[u8]) -> u8x16
    requires { 16 ≤ length bytes.now }
    ensures len { length result ≡ 16 }
    ensures values { (i : ℕ) → i < 16 → slice_index result i ≡ (slice_index bytes.now i + 208) % 256 }
{
    u8x16::from_slice(&bytes[..16]) - u8x16::splat(b'0')
}

/// A bit for each of these that is 10 or more.
#[inline(always)]
fn others_of(values: u8x16) -> u64
    requires { length values ≡ 16 }
    ensures digit { (i : ℕ) → i < 16 → bit_at result i ≡ 0 → slice_index values i < 10 }
    ensures other { (i : ℕ) → i < 16 → bit_at result i ≡ 1 → 9 < slice_index values i }
{
    values.simd_gt(u8x16::splat(9)).to_bitmask()
}

/// How many digits come before the first other byte, where they are eight at most. The first byte is one.
#[inline(always)]
fn count_first(values: u8x16) -> Option<usize>
    requires len { length values ≡ 16 }
    requires first { slice_index values 0 < 10 }
    ensures some { IfSome result (λ count. (0 < count) × (count ≤ 8)) }
    ensures digits { IfSome result (λ count. (i : ℕ) → i < count → slice_index values i < 10) }
{
    let others = others_of(values) % 512;
    if others == 0 {
        return None;
    }
    Some(others.trailing_zeros() as usize)
}

/// The number of the first of these digits. Others may come behind them.
#[inline(always)]
fn number_first_of(values: u8x16, count: usize) -> u64
    requires len { length values ≡ 16 }
    requires some { (0 < count) × (count ≤ 8) }
    requires digits { (i : ℕ) → i < count → slice_index values i < 10 }
    ensures { result ≡ number_of values count }
{
    let word = u64x2::from_le_bytes(values).to_array()[0];
    // Behind zeros they are eight. Each product adds every second one, or pair or four of them, to the ten, hundred or
    // ten thousand times of the one before it.
    let digits = word << (64 - 8 * count);
    let pairs = (digits.wrapping_mul(10 * 0x100 + 1) >> 8) & 0x00ff_00ff_00ff_00ff;
    let fours = (pairs.wrapping_mul(100 * 0x1_0000 + 1) >> 16) & 0x0000_ffff_0000_ffff;
    fours.wrapping_mul(10_000 * 0x1_0000_0000 + 1) >> 32
}

/// Whether the first byte is a digit, but 0.
#[inline(always)]
fn begins_number(bytes: &[u8]) -> bool
    requires { 0 < length bytes.now }
    ensures { result ≡ true → (48 < slice_index bytes.now 0) × (slice_index bytes.now 0 < 58) }
{
    (b'1'..=b'9').contains(&bytes[0])
}

/// Whether a blank, the status 0 and the end of the line stand at this place.
#[inline(always)]
fn ends_good(bytes: &[u8], at: usize) -> bool
    requires { at + 3 < length bytes.now }
    ensures { result ≡ true → EndsGood bytes.now at }
{
    u32::from_le_bytes([bytes[at], bytes[at + 1], bytes[at + 2], bytes[at + 3]]) == GOOD_END
}

/// The ticket at the front of these bytes, and how many digits it has, where they are eight at most, and a blank, the
/// status 0 and the end of the line stand behind it. `None` decides nothing.
#[inline(always)]
pub fn good_ticket(bytes: &[u8]) -> Option<(u64, usize)>
    requires { 18 < length bytes.now }
    ensures number { IfSome result (λ r. LeadsWith bytes.now r.0 r.1) }
    ensures most { IfSome result (λ r. r.1 ≤ 8) }
    ensures good { IfSome result (λ r. EndsGood bytes.now r.1) }
{
    if !begins_number(bytes) {
        return None;
    }
    let values = values_of(bytes);
    let count = count_first(values)?;
    if !ends_good(bytes, count) {
        return None;
    }
    Some((number_first_of(values, count), count))
}

/// The ticket at the front of these bytes, digit by digit, and how many it has, where 0 decides nothing. It is answered
/// in registers.
#[inline(never)]
fn longer_first(bytes: &[u8]) -> (u64, usize)
    requires { 18 < length bytes.now }
    ensures number { 0 < result.1 → LeadsWith bytes.now result.0 result.1 }
    ensures most { result.1 ≤ 18 }
{
    match number_first(bytes, TICKET_DIGITS) {
        Some(found) => found,
        None => (0, 0),
    }
}

/// The same, where `None` decides nothing.
#[inline(always)]
fn longer_ticket(bytes: &[u8]) -> Option<(u64, usize)>
    requires { 18 < length bytes.now }
    ensures number { IfSome result (λ r. LeadsWith bytes.now r.0 r.1) }
    ensures most { IfSome result (λ r. r.1 ≤ 18) }
{
    let found = longer_first(bytes);
    if found.1 > 0 { Some(found) } else { None }
}

/// The ticket at the front of these bytes, where a blank ends it, and how many digits it has. `None` decides nothing.
#[inline(always)]
pub fn common_ticket(bytes: &[u8]) -> Option<(u64, usize)>
    requires { 18 < length bytes.now }
    ensures number { IfSome result (λ r. LeadsWith bytes.now r.0 r.1) }
    ensures most { IfSome result (λ r. r.1 ≤ 18) }
{
    if !begins_number(bytes) {
        return longer_ticket(bytes);
    }
    let values = values_of(bytes);
    let Some(count) = count_first(values) else {
        return longer_ticket(bytes);
    };
    if bytes[count] != b' ' {
        return None;
    }
    Some((number_first_of(values, count), count))
}
