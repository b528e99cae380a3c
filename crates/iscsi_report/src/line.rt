//! The pieces of a line.
//!
//! Each function writes a text from a place of a slice on, and says where it ends. It may write over places behind
//! the end, which hold nothing yet.

ghost use Rattle.std.specs.Prelude.{◌≡◌, ◌+◌, ◌*◌, ◌≤◌, ◌∷◌, [], ◌++◌, length, take, drop, codes};
ghost use Rattle.hex.specs.Hex.{encode_lower};
ghost use Rattle.iscsi_wire.specs.Fields.{big_endian_from};
ghost use Rattle.iscsi_report.specs.Lines.{eight_digits};

use crate::vector::{digit, digits_of};
use std::simd::prelude::*;

/// Writes a text as it is.
#[inline(always)]
pub fn put_text(text: &[u8], line: &mut [u8], at: usize) -> usize
    requires { at + length text.now ≤ length line.old }
    ensures end { result ≡ at + length text.now }
    ensures written { take result line.new ≡ take at line.old ++ text.now }
{
    let end = at + text.len();
    line[at..end].copy_from_slice(text);
    end
}

/// Writes a word. It is copied first, so that the compiler knows it not to overlap the line.
#[inline(always)]
pub fn put_word<const N: usize>(word: &[u8; N], line: &mut [u8], at: usize) -> usize
    requires { at + length word.now ≤ length line.old }
    ensures end { result ≡ at + length word.now }
    ensures written { take result line.new ≡ take at line.old ++ word.now }
{
    let copy = *word;
    put_text(&copy, line, at)
}

/// Writes a number in eight digits.
#[inline(always)]
pub fn put_digits(n: u32, line: &mut [u8], at: usize) -> usize
    requires { at + 16 ≤ length line.old }
    ensures end { result ≡ at + 8 }
    ensures written { take result line.new ≡ take at line.old ++ eight_digits n }
{
    let [a, b, c, d] = n.to_be_bytes();
    let (front, _) = digits_of(u8x16::from_array([a, b, c, d, 0, 0, 0, 0, 0, 0, 0, 0, 0, 0, 0, 0]));
    put_first_eight(front, line, at)
}

/// Writes the number that begins at byte 8 and the one that begins at byte 0, in eight digits each, with a blank
/// between them and the end of the line behind them.
#[inline(always)]
pub fn put_two_numbers(bytes: &[u8], line: &mut [u8], at: usize) -> usize
    requires { (length bytes.now ≡ 16) × (at + 25 ≤ length line.old) }
    ensures end { result ≡ at + 18 }
    ensures written { take result line.new ≡ take at line.old
        ++ (eight_digits (big_endian_from 0 (take 4 (drop 8 bytes.now)))
        ++ (codes " " ++ (eight_digits (big_endian_from 0 (take 4 bytes.now)) ++ codes "\n"))) }
{
    let (second, first) = digits_of(u8x16::from_slice(bytes));
    let at = put_first_eight(first, line, at);
    let at = put_text(b" ", line, at);
    put_eight_and_end(second, line, at)
}

/// Writes the first eight of these.
#[inline(always)]
pub fn put_first_eight(digits: u8x16, line: &mut [u8], at: usize) -> usize
    requires { (length digits ≡ 16) × (at + 16 ≤ length line.old) }
    ensures end { result ≡ at + 8 }
    ensures written { take result line.new ≡ take at line.old ++ take 8 digits }
{
    put_text(&digits.to_array(), line, at);
    at + 8
}

/// Writes the first eight of these, and the end of the line.
#[inline(always)]
fn put_eight_and_end(digits: u8x16, line: &mut [u8], at: usize) -> usize
    requires { (length digits ≡ 16) × (at + 16 ≤ length line.old) }
    ensures end { result ≡ at + 9 }
    ensures written { take result line.new ≡ take at line.old ++ (take 8 digits ++ codes "\n") }
{
    // The end is put into the vector, since the compiler would take this one apart where a byte is written over it.
    let line_ends = u8x16::splat(b'\n');
    let text = digits.shuffle(
        line_ends,
        [0, 1, 2, 3, 4, 5, 6, 7, 16, 17, 18, 19, 20, 21, 22, 23],
    );
    put_text(&text.to_array(), line, at);
    at + 9
}

/// Writes the first eight of these, and eight zeros.
// Zeros are put into the vector as the end of a line is above.
#[inline(always)]
pub fn put_first_and_zeros(digits: u8x16, line: &mut [u8], at: usize) -> usize
    requires { (length digits ≡ 16) × (at + 16 ≤ length line.old) }
    ensures end { result ≡ at + 16 }
    ensures written { take result line.new ≡ take at line.old ++ (take 8 digits ++ codes "00000000") }
{
    let zeros = u8x16::splat(b'0');
    let text = digits.shuffle(
        zeros,
        [0, 1, 2, 3, 4, 5, 6, 7, 16, 17, 18, 19, 20, 21, 22, 23],
    );
    put_text(&text.to_array(), line, at)
}

/// Writes the last eight of these, and the first eight of others.
#[inline(always)]
pub fn put_last_and_first(digits: u8x16, others: u8x16, line: &mut [u8], at: usize) -> usize
    requires { (length digits ≡ 16) × (length others ≡ 16) × (at + 16 ≤ length line.old) }
    ensures end { result ≡ at + 16 }
    ensures written { take result line.new ≡ take at line.old ++ (drop 8 digits ++ take 8 others) }
{
    let text = digits.shuffle(
        others,
        [8, 9, 10, 11, 12, 13, 14, 15, 16, 17, 18, 19, 20, 21, 22, 23],
    );
    put_text(&text.to_array(), line, at)
}

/// Writes the last eight of these, and eight zeros.
#[inline(always)]
pub fn put_last_and_zeros(digits: u8x16, line: &mut [u8], at: usize) -> usize
    requires { (length digits ≡ 16) × (at + 16 ≤ length line.old) }
    ensures end { result ≡ at + 16 }
    ensures written { take result line.new ≡ take at line.old ++ (drop 8 digits ++ codes "00000000") }
{
    put_last_and_first(digits, u8x16::splat(b'0'), line, at)
}

/// Writes these.
#[inline(always)]
pub fn put_sixteen(digits: u8x16, line: &mut [u8], at: usize) -> usize
    requires { (length digits ≡ 16) × (at + 16 ≤ length line.old) }
    ensures end { result ≡ at + 16 }
    ensures written { take result line.new ≡ take at line.old ++ digits }
{
    put_text(&digits.to_array(), line, at)
}

/// Writes the digits of a byte that is mostly 0, as a status.
#[inline(always)]
pub fn put_byte(byte: u8, line: &mut [u8], at: usize) -> usize
    requires { at + 2 ≤ length line.old }
    ensures end { result ≡ at + 2 }
    ensures written { take result line.new ≡ take at line.old ++ encode_lower (byte ∷ []) }
{
    if byte == 0 {
        return put_text(&[b'0', b'0'], line, at);
    }
    put_text(&[digit(byte >> 4), digit(byte & 0x0f)], line, at)
}

/// Writes the digits of a byte that is mostly 0, as a status, and the end of the line.
#[inline(always)]
pub fn put_byte_and_end(byte: u8, line: &mut [u8], at: usize) -> usize
    requires { at + 4 ≤ length line.old }
    ensures end { result ≡ at + 3 }
    ensures written { take result line.new ≡ take at line.old ++ (encode_lower (byte ∷ []) ++ codes "\n") }
{
    if byte == 0 {
        // Four bytes are written at once, the last of which is behind the end.
        put_word(b"00\n\n", line, at);
        return at + 3;
    }
    put_text(&[digit(byte >> 4), digit(byte & 0x0f), b'\n'], line, at)
}

/// Writes the digits of the first three bytes of a response, the second of which is 80.
#[inline(always)]
pub fn put_kind(opcode: u8, response: u8, line: &mut [u8], at: usize) -> usize
    requires { at + 6 ≤ length line.old }
    ensures end { result ≡ at + 6 }
    ensures written { take result line.new ≡ take at line.old
        ++ (encode_lower (opcode ∷ []) ++ (codes "80" ++ encode_lower (response ∷ []))) }
{
    let digits = [
        digit(opcode >> 4),
        digit(opcode & 0x0f),
        b'8',
        b'0',
        digit(response >> 4),
        digit(response & 0x0f),
    ];
    put_text(&digits, line, at)
}

/// Writes the digits of a header.
#[inline(always)]
pub fn put_header(header: &[u8; 48], line: &mut [u8], at: usize) -> usize
    requires { at + 96 ≤ length line.old }
    ensures end { result ≡ at + 96 }
    ensures written { take result line.new ≡ take at line.old ++ encode_lower header.now }
{
    put_48(header, line, at)
}

/// Writes the digits of 48 bytes.
#[inline(always)]
fn put_48(bytes: &[u8], line: &mut [u8], at: usize) -> usize
    requires { (length bytes.now ≡ 48) × (at + 96 ≤ length line.old) }
    ensures end { result ≡ at + 96 }
    ensures written { take result line.new ≡ take at line.old ++ encode_lower bytes.now }
{
    let at = put_16(&bytes[..16], line, at);
    let at = put_16(&bytes[16..32], line, at);
    put_16(&bytes[32..48], line, at)
}

/// Writes the digits of 16 bytes.
#[inline(always)]
fn put_16(bytes: &[u8], line: &mut [u8], at: usize) -> usize
    requires { (length bytes.now ≡ 16) × (at + 32 ≤ length line.old) }
    ensures end { result ≡ at + 32 }
    ensures written { take result line.new ≡ take at line.old ++ encode_lower bytes.now }
{
    let (front, back) = digits_of(u8x16::from_slice(bytes));
    let at = put_sixteen(front, line, at);
    put_sixteen(back, line, at)
}

/// Writes the digits of at most 48 bytes.
pub fn put_bytes(bytes: &[u8], line: &mut [u8], at: usize) -> usize
    requires { (length bytes.now ≤ 48) × (at + 96 ≤ length line.old) }
    ensures end { (at ≤ result) × (result ≤ at + 96) }
    ensures written { take result line.new ≡ take at line.old ++ encode_lower bytes.now }
{
    // A Reject's header is as long, and its digits are written at once.
    if bytes.len() == 48 {
        return put_48(bytes, line, at);
    }
    let mut digits = [0u8; 96];
    let digits = &mut digits[..2 * bytes.len()];
    hex::encode_to_slice(bytes, digits).unwrap();
    put_text(digits, line, at)
}
