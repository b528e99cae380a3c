//! Serial number arithmetic with 32 bits (RFC 1982).

ghost use Rattle.std.specs.Prelude.{◌≡◌, ℕ, ◌+◌, ◌^◌, ◌<◌, ◌≤◌, pos, ◌+ℤ◌, ◌↔◌, IsTrue};
ghost use Rattle.iscsi_wire.specs.Serial.{wire, lift};

/// Half of the number space: a number at this distance counts as older.
const HALF: u32 = 0x8000_0000;

/// `a` advanced by `n`, modulo 2^32 (RFC 1982 section 3.1).
pub fn serial_add(a: u32, n: u32) -> u32
    ensures { result ≡ wire (a + n) }
{
    a.wrapping_add(n)
}

/// How far the number that the wire shows as `w` is from the one that it shows as `exp`: from -2^31 to
/// 2^31 - 1. A number at distance exactly 2^31 counts as older.
pub fn distance(exp: u32, w: u32) -> i64
    // For every number that the wire shows as `exp`, of any size.
    ensures lifted { (e : ℕ) → 2 ^ 31 ≤ e → wire e ≡ exp → pos (lift e w) ≡ pos e +ℤ result }
    // Lifting inverts the wire, for every number in its range.
    ensures inverse { (e n : ℕ) → 2 ^ 31 ≤ e → e ≤ n + 2 ^ 31 → n < e + 2 ^ 31 → lift e (wire n) ≡ n }
{
    let ahead = w.wrapping_sub(exp);
    if ahead < HALF {
        i64::from(ahead)
    } else {
        i64::from(ahead) - 0x1_0000_0000
    }
}

/// Whether `a` is less than `b` by RFC 1982 section 3.2. Numbers at distance 2^31 aren't comparable: the
/// answer is false both ways.
pub fn serial_lt(a: u32, b: u32) -> bool
    ensures { (e : ℕ) → 2 ^ 31 ≤ e → wire e ≡ a → IsTrue result ↔ ((e < lift e b) × (lift e b < e + 2 ^ 31)) }
{
    let ahead = b.wrapping_sub(a);
    0 < ahead && ahead < HALF
}
