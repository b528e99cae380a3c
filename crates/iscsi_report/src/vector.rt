//! Hexadecimal digits of many bytes at once.

ghost use Rattle.std.specs.Prelude.{◌≡◌, ◌++◌, ◌<◌, length, slice_index, take, drop};
ghost use Rattle.hex.specs.Hex.{encode_lower, lower_digits};
ghost use Rattle.iscsi_report.specs.Lines.{eight_digits};

use std::simd::prelude::*;

/// The hexadecimal digits.
static DIGITS: [u8; 16] = *b"0123456789abcdef";

/// The hexadecimal digit of a number below 16.
#[inline(always)]
pub fn digit(d: u8) -> u8
    requires { d < 16 }
    ensures { result ≡ slice_index lower_digits d }
{
    DIGITS[d as usize]
}

/// The digits of the first eight bytes, and of the others.
#[inline(always)]
pub fn digits_of(bytes: u8x16) -> (u8x16, u8x16)
    ensures digits { result.0 ++ result.1 ≡ encode_lower bytes }
    ensures len { length result.0 ≡ 16 }
    ensures back_len { length result.1 ≡ 16 }
{
    let digits = u8x16::from_array(DIGITS);
    let high = digits.swizzle_dyn(bytes >> 4);
    let low = digits.swizzle_dyn(bytes & u8x16::splat(15));
    high.interleave(low)
}

/// The digits of the first two of four numbers, eight each, and those of the others.
#[inline(always)]
pub fn digits_of_four(first: u32, second: u32, third: u32, fourth: u32) -> (u8x16, u8x16)
    ensures first { take 8 result.0 ≡ eight_digits first }
    ensures second { drop 8 result.0 ≡ eight_digits second }
    ensures others { result.1 ≡ eight_digits third ++ eight_digits fourth }
    ensures len { length result.0 ≡ 16 }
{
    // Of each number the lowest byte comes first, and the highest is to.
    let bytes = u32x4::from_array([first, second, third, fourth]).to_le_bytes();
    digits_of(bytes.swizzle([3, 2, 1, 0, 7, 6, 5, 4, 11, 10, 9, 8, 15, 14, 13, 12]))
}
