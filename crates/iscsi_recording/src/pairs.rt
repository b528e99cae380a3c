//! The bytes of pairs of hexadecimal digits, 16 at once.

ghost use Rattle.std.specs.Prelude.{◌≡◌, ℕ, ◌+◌, ◌-◌, ◌*◌, ◌/◌, ◌%◌, ◌<◌, ◌≤◌, ◌++◌, length, slice_index};
ghost use Rattle.iscsi_recording.specs.DigitValues.{lowered, paired};

use crate::bytes::put_at;
use std::simd::prelude::*;

/// What joins the halves of a pair in its upper byte, the first of which lies lower.
const JOINING: u16 = 0x1001;

/// Pairs of digits with these raised values, each of which has its byte, less 16, in its upper half.
#[inline(always)]
fn weighed(values: u8x16) -> u8x16
    requires len { length values ≡ 16 }
    requires bytes { (i : ℕ) → i < 16 → slice_index values i < 256 }
    ensures len { length result ≡ 16 }
    ensures upper { (j : ℕ) → j < 8 → slice_index result (2 * j + 1)
        ≡ (slice_index values (2 * j) + 256 * slice_index values (2 * j + 1)) * 4097 % 65536 / 256 }
{
    let words = u16x8::from_le_bytes(values) * u16x8::splat(JOINING);
    words.to_le_bytes()
}

/// 16 bytes, from this one on, of digits with these raised values.
#[inline(always)]
fn sixteen_joined(values: &[u8], at: usize) -> u8x16
    requires room { 2 * at + 32 ≤ length values.now }
    requires raised { (k : ℕ) → k < length values.now → 239 < slice_index values.now k }
    ensures len { length result ≡ 16 }
    ensures bytes { (j : ℕ) → j < 16 → slice_index result j ≡ (slice_index values.now (2 * (at + j)) - 240) * 16
        + (slice_index values.now (2 * (at + j) + 1) - 240) }
{
    let from = 2 * at;
    let first = weighed(u8x16::from_slice(&values[from..from + 16]));
    let second = weighed(u8x16::from_slice(&values[from + 16..from + 32]));
    let upper = first.shuffle(
        second,
        [1, 3, 5, 7, 9, 11, 13, 15, 17, 19, 21, 23, 25, 27, 29, 31],
    );
    upper + u8x16::splat(16)
}

/// These, one after another.
#[inline(always)]
fn in_one(front: u8x16, middle: u8x16, back: u8x16) -> [u8; 48]
    requires { (length front ≡ 16) × (length middle ≡ 16) × (length back ≡ 16) }
    ensures { result ≡ front ++ (middle ++ back) }
{
    let mut bytes = [0u8; 48];
    let at = put_at(&front.to_array(), &mut bytes, 0);
    let at = put_at(&middle.to_array(), &mut bytes, at);
    put_at(&back.to_array(), &mut bytes, at);
    bytes
}

/// The bytes of which these are the digits' raised values.
// The vectors are written out: the compiler would join half as many at once.
#[inline(always)]
pub fn joined(values: &[u8; 96]) -> [u8; 48]
    requires { (k : ℕ) → k < 96 → 239 < slice_index values.now k }
    ensures { result ≡ paired (lowered values.now) }
{
    let front = sixteen_joined(values, 0);
    let middle = sixteen_joined(values, 16);
    let back = sixteen_joined(values, 32);
    in_one(front, middle, back)
}
