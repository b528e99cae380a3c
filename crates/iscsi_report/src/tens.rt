//! Numbers that mostly come one after another.

ghost use Rattle.std.specs.Prelude.{◌≡◌, ◌+◌, ◌-◌, ◌^◌, ◌<◌, ◌≤◌, [], ◌∷◌, ◌++◌, length, take, drop, decimal};
ghost use Rattle.iscsi_report.specs.Decimals.{AreTens};

use crate::decimal::put_number;
use crate::line::put_text;

/// Only the digits of numbers below this one are kept, so that they are copied at once.
const MOST_KEPT: u64 = 1_000_000_000_000_000;

/// Behind ten numbers come ten that are near.
const NEAR: u64 = 20;

/// The digits of a number but the last, which nine of ten numbers that follow have too.
#[derive(Drop)]
pub struct Tens {
    /// The least number that has these digits before its last.
    least: u64,
    digits: [u8; 16],
    len: usize,
    /// A number that is less than this above the least one is near.
    near: u64,
    ghost kept: { AreTens least digits len },
}

impl Tens {
    /// Those of a number of one digit, which are none.
    pub fn new() -> Tens
        ensures { (result.least ≡ 0) × (result.len ≡ 0) × (result.near ≡ 2 ^ 64 - 1) }
    {
        Tens {
            least: 0,
            digits: [0; 16],
            len: 0,
            near: u64::MAX,
        }
    }

    /// The same, of which none is near: so they stay as they are.
    pub fn fixed() -> Tens
        ensures { (result.least ≡ 0) × (result.len ≡ 0) × (result.near ≡ 0) }
    {
        Tens {
            least: 0,
            digits: [0; 16],
            len: 0,
            near: 0,
        }
    }

    /// Takes the number that comes next as near.
    pub fn take_any(&mut self)
        ensures near { self.new.near ≡ 2 ^ 64 - 1 }
        ensures digits { (self.new.least ≡ self.old.least) × (self.new.digits ≡ self.old.digits)
            × (self.new.len ≡ self.old.len) }
    {
        self.near = u64::MAX;
    }

    /// Writes a decimal number, from these digits if it has them, and a byte behind it, and says where the number ends.
    /// The digits of another number are kept only where it is near, so that where numbers come in no order one costs little
    /// more than its own digits.
    #[inline(always)]
    pub fn put_then(&mut self, n: u64, next: u8, line: &mut [u8], at: usize) -> usize
        requires { at + 24 ≤ length line.old }
        ensures end { (at < result) × (result ≤ at + 20) }
        ensures written { take (result + 1) line.new ≡ take at line.old ++ (decimal n ++ next ∷ []) }
    {
        let last = n.wrapping_sub(self.least);
        if last < 10 {
            return self.put_with(last, next, line, at);
        }
        let end = self.put_apart(last, n, line, at);
        put_text(&[next], line, end);
        end
    }

    /// Writes the number with these digits and this last one, and a byte behind it.
    #[inline(always)]
    fn put_with(&self, last: u64, next: u8, line: &mut [u8], at: usize) -> usize
        requires { (last < 10) × (at + 24 ≤ length line.old) }
        ensures end { (at < result) × (result ≤ at + 20) }
        ensures written { take (result + 1) line.new
            ≡ take at line.old ++ (decimal (self.now.least + last) ++ next ∷ []) }
    {
        // All are written at once, the last of which are behind the end.
        let digits = self.digits;
        let before_last = at + self.len;
        put_text(&digits, line, at);
        put_text(&[b'0' + last as u8, next], line, before_last);
        before_last + 1
    }

    /// Writes a number that hasn't these digits, and is so much more than the least one that has.
    #[inline(always)]
    fn put_apart(&mut self, more: u64, n: u64, line: &mut [u8], at: usize) -> usize
        requires { at + 24 ≤ length line.old }
        ensures end { (at < result) × (result ≤ at + 20) }
        ensures written { take result line.new ≡ take at line.old ++ decimal n }
    {
        if more < self.near {
            return self.put_other(n, line, at);
        }
        put_number(n, line, at)
    }

    /// Writes a decimal number, and keeps its digits.
    #[inline(always)]
    fn put_other(&mut self, n: u64, line: &mut [u8], at: usize) -> usize
        requires { at + 24 ≤ length line.old }
        ensures end { (at < result) × (result ≤ at + 20) }
        ensures written { take result line.new ≡ take at line.old ++ decimal n }
    {
        let end = put_number(n, line, at);
        if n < MOST_KEPT {
            self.keep(n, line, at, end);
        }
        end
    }

    /// Keeps the digits of a number, which stand at these places.
    #[inline(always)]
    fn keep(&mut self, n: u64, line: &[u8], from: usize, to: usize)
        requires small { n < 10 ^ 15 }
        requires places { (from < to) × (to ≤ from + 20) × (from + 24 ≤ length line.now) }
        requires digits { drop from (take to line.now) ≡ decimal n }
    {
        self.least = n - n % 10;
        let mut digits = [0u8; 16];
        digits.copy_from_slice(&line[from..from + 16]);
        self.digits = digits;
        self.len = to - from - 1;
        self.near = NEAR;
    }
}
