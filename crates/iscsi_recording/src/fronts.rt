//! The number at the front of a line's bytes, where a blank ends it: a CID, or a ticket in its common form.

ghost use Rattle.std.specs.Prelude.{◌≡◌, ℕ, ◌^◌, ◌<◌, ◌≤◌, IfSome, length, slice_index};
ghost use Rattle.iscsi_recording.specs.Fronts.{LeadsWith};

use crate::parse::is_decimal;

/// How many digits a CID has at most.
const CID_DIGITS: usize = 5;

/// The digit 0 and a blank, the first of which is the lower byte.
const DIGIT_AND_BLANK: u16 = 0x2030;

/// The number 0 at the front of these bytes, where a blank ends it.
#[inline(always)]
fn zero_first(bytes: &[u8]) -> Option<(u64, usize)>
    requires { (1 < length bytes.now) × (slice_index bytes.now 0 ≡ 48) }
    ensures number { IfSome result (λ r. LeadsWith bytes.now r.0 r.1) }
    ensures one { IfSome result (λ r. r.1 ≡ 1) }
{
    if bytes[1] == b' ' { Some((0, 1)) } else { None }
}

/// The number at the front of these bytes, where it has at most so many digits and a blank ends it, and how many
/// digits it has. `None` decides nothing.
///
/// There are more bytes than that, so that each is looked at without a test for their end.
#[inline(always)]
pub fn number_first(bytes: &[u8], most: usize) -> Option<(u64, usize)>
    requires few { (1 ≤ most) × (most ≤ 18) }
    requires long { most < length bytes.now }
    ensures number { IfSome result (λ r. LeadsWith bytes.now r.0 r.1) }
    ensures most { IfSome result (λ r. r.1 ≤ most) }
{
    if bytes[0] == b'0' {
        return zero_first(bytes);
    }
    let mut n = 0u64;
    'digits: for i in 0..most + 1 {
        let d = bytes[i];
        if !is_decimal(d) {
            if d != b' ' || i == 0 {
                return None;
            }
            return Some((n, i));
        }
        n = n * 10 + u64::from(d - b'0');
    }
    None
}

/// The number of one digit at the front of these bytes, where a blank stands behind it. Both are looked at as one number.
/// `None` decides nothing.
#[inline(always)]
pub fn one_digit_first(bytes: &[u8]) -> Option<u16>
    requires { 1 < length bytes.now }
    ensures { IfSome result (λ n. LeadsWith bytes.now n 1) }
{
    let n = u16::from_le_bytes([bytes[0], bytes[1]]).wrapping_sub(DIGIT_AND_BLANK);
    if n < 10 { Some(n) } else { None }
}

/// The number of two digits at the front of these bytes, behind which a blank stands, and that it has two. `None`
/// decides nothing.
#[inline(always)]
fn two_digits_first(bytes: &[u8]) -> Option<(u16, usize)>
    requires { (2 < length bytes.now) × (slice_index bytes.now 2 ≡ 32) }
    ensures number { IfSome result (λ r. LeadsWith bytes.now r.0 r.1) }
    ensures most { IfSome result (λ r. (r.0 < 2 ^ 16) × (r.1 ≤ 5)) }
{
    let tens = bytes[0].wrapping_sub(b'1');
    if tens > 8 {
        return None;
    }
    let ones = bytes[1].wrapping_sub(b'0');
    if ones > 9 {
        return None;
    }
    Some((u16::from(tens) * 10 + u16::from(ones) + 10, 2))
}

/// The CID of up to five digits at the front of these bytes, and how many it has. `None` decides nothing.
#[inline(always)]
fn five_digits_first(bytes: &[u8]) -> Option<(u16, usize)>
    requires { 5 < length bytes.now }
    ensures number { IfSome result (λ r. LeadsWith bytes.now r.0 r.1) }
    ensures most { IfSome result (λ r. (r.0 < 2 ^ 16) × (r.1 ≤ 5)) }
{
    let found = number_first(bytes, CID_DIGITS)?;
    let Ok(conn) = u16::try_from(found.0) else {
        return None;
    };
    Some((conn, found.1))
}

/// The CID at the front of these bytes, and how many digits it has, which are mostly two. `None` decides nothing.
#[inline(always)]
pub fn longer_cid_first(bytes: &[u8]) -> Option<(u16, usize)>
    requires { 5 < length bytes.now }
    ensures number { IfSome result (λ r. LeadsWith bytes.now r.0 r.1) }
    ensures most { IfSome result (λ r. (r.0 < 2 ^ 16) × (r.1 ≤ 5)) }
{
    if bytes[2] == b' ' {
        return two_digits_first(bytes);
    }
    five_digits_first(bytes)
}
