//! Decimal numbers, written from a place of a slice on.

ghost use Rattle.std.specs.Prelude.{◌≡◌, ◌+◌, ◌*◌, ◌<◌, ◌≤◌, ◌++◌, length, take, drop, codes, decimal};
ghost use Rattle.iscsi_report.specs.Decimals.{two_digits};

use crate::line::put_text;

/// The most digits of a number, which is room that each number needs.
const MOST_DIGITS: usize = 20;

/// The least number of two digits, and those of three, of five and of nine.
const TWO_DIGITS: u32 = 10;

const THREE_DIGITS: u32 = 100;

const FIVE_DIGITS: u32 = 10_000;

const NINE_DIGITS: u64 = 100_000_000;

/// The two digits of each number below 100, and two blanks behind them.
static PAIRS: [u8; 400] = *b"\
00  01  02  03  04  05  06  07  08  09  \
10  11  12  13  14  15  16  17  18  19  \
20  21  22  23  24  25  26  27  28  29  \
30  31  32  33  34  35  36  37  38  39  \
40  41  42  43  44  45  46  47  48  49  \
50  51  52  53  54  55  56  57  58  59  \
60  61  62  63  64  65  66  67  68  69  \
70  71  72  73  74  75  76  77  78  79  \
80  81  82  83  84  85  86  87  88  89  \
90  91  92  93  94  95  96  97  98  99  ";

/// Writes a number below 100 in two digits.
#[inline(always)]
fn put_pair(n: u32, line: &mut [u8], at: usize) -> usize
    requires { (n < 100) × (at + 2 ≤ length line.old) }
    ensures end { result ≡ at + 2 }
    ensures written { take result line.new ≡ take at line.old ++ two_digits n }
{
    let place = 4 * n as usize;
    let pair = [PAIRS[place], PAIRS[place + 1]];
    put_text(&pair, line, at)
}

/// Writes a number of one digit.
#[inline(always)]
fn put_one(n: u32, line: &mut [u8], at: usize) -> usize
    requires { (n < 10) × (at + 1 ≤ length line.old) }
    ensures end { result ≡ at + 1 }
    ensures written { take result line.new ≡ take at line.old ++ decimal n }
{
    put_text(&[b'0' + n as u8], line, at)
}

/// Writes a number of one digit or two.
#[inline(always)]
fn put_two(n: u32, line: &mut [u8], at: usize) -> usize
    requires { (n < 100) × (at + 2 ≤ length line.old) }
    ensures end { (at < result) × (result ≤ at + 2) }
    ensures written { take result line.new ≡ take at line.old ++ decimal n }
{
    if n < TWO_DIGITS {
        return put_one(n, line, at);
    }
    put_pair(n, line, at)
}

/// Writes a number of up to four digits.
#[inline(always)]
fn put_four(n: u32, line: &mut [u8], at: usize) -> usize
    requires { (n < 10000) × (at + 4 ≤ length line.old) }
    ensures end { (at < result) × (result ≤ at + 4) }
    ensures written { take result line.new ≡ take at line.old ++ decimal n }
{
    if n < THREE_DIGITS {
        return put_two(n, line, at);
    }
    let at = put_two(n / 100, line, at);
    put_pair(n % 100, line, at)
}

/// Writes a number of up to eight digits.
#[inline(always)]
fn put_eight(n: u32, line: &mut [u8], at: usize) -> usize
    requires { (n < 100000000) × (at + 8 ≤ length line.old) }
    ensures end { (at < result) × (result ≤ at + 8) }
    ensures written { take result line.new ≡ take at line.old ++ decimal n }
{
    if n < FIVE_DIGITS {
        return put_four(n, line, at);
    }
    let at = put_four(n / 10_000, line, at);
    let rest = n % 10_000;
    let at = put_pair(rest / 100, line, at);
    put_pair(rest % 100, line, at)
}

/// Writes a number of any count of digits.
#[inline(never)]
fn put_many(n: u64, line: &mut [u8], at: usize) -> usize
    requires { at + 20 ≤ length line.old }
    ensures end { (at < result) × (result ≤ at + 20) }
    ensures written { take result line.new ≡ take at line.old ++ decimal n }
{
    let mut digits = [0u8; 2 * MOST_DIGITS];
    let start = itoa::write_digits(n, &mut digits, MOST_DIGITS);
    put_text(&digits[start..start + MOST_DIGITS], line, at);
    at + (MOST_DIGITS - start)
}

/// Writes a decimal number. It is apart from the lines that it stands in, so that they are short enough to be one
/// function.
#[inline(never)]
pub fn put_number(n: u64, line: &mut [u8], at: usize) -> usize
    requires { at + 20 ≤ length line.old }
    ensures end { (at < result) × (result ≤ at + 20) }
    ensures written { take result line.new ≡ take at line.old ++ decimal n }
{
    if n < NINE_DIGITS {
        return put_eight(n as u32, line, at);
    }
    put_many(n, line, at)
}

/// Writes a number below 100 in two digits, and a blank.
#[inline(always)]
fn put_pair_and_blank(n: u32, line: &mut [u8], at: usize) -> usize
    requires { (n < 100) × (at + 4 ≤ length line.old) }
    ensures end { result ≡ at + 3 }
    ensures written { take result line.new ≡ take at line.old ++ (two_digits n ++ codes " ") }
{
    let place = 4 * n as usize;
    // Four bytes are written at once, the last of which is behind the end.
    let word = [
        PAIRS[place],
        PAIRS[place + 1],
        PAIRS[place + 2],
        PAIRS[place + 3],
    ];
    put_text(&word, line, at);
    at + 3
}

/// Writes a decimal number that mostly has a digit or two, as those of connections, and a blank.
#[inline(always)]
pub fn put_small_and_blank(n: u16, line: &mut [u8], at: usize) -> usize
    requires { at + 24 ≤ length line.old }
    ensures end { (at < result) × (result ≤ at + 21) }
    ensures written { take result line.new ≡ take at line.old ++ (decimal n ++ codes " ") }
{
    let n = u32::from(n);
    if n < TWO_DIGITS {
        let word = [b'0' + n as u8, b' '];
        return put_text(&word, line, at);
    }
    if n < THREE_DIGITS {
        return put_pair_and_blank(n, line, at);
    }
    let at = put_larger(n, line, at);
    put_text(b" ", line, at)
}

/// Writes a decimal number that mostly has a digit or two, as those of units.
#[inline(always)]
pub fn put_small(n: u16, line: &mut [u8], at: usize) -> usize
    requires { at + 20 ≤ length line.old }
    ensures end { (at < result) × (result ≤ at + 20) }
    ensures written { take result line.new ≡ take at line.old ++ decimal n }
{
    let n = u32::from(n);
    if n < TWO_DIGITS {
        return put_one(n, line, at);
    }
    if n < THREE_DIGITS {
        return put_two(n, line, at);
    }
    put_larger(n, line, at)
}

/// Writes a number of up to five digits. It is apart, so that a shorter one is written where its line is.
#[inline(never)]
fn put_larger(n: u32, line: &mut [u8], at: usize) -> usize
    requires { (n < 65536) × (at + 8 ≤ length line.old) }
    ensures end { (at < result) × (result ≤ at + 8) }
    ensures written { take result line.new ≡ take at line.old ++ decimal n }
{
    put_eight(n, line, at)
}

/// Writes a decimal number again whose digits stand at these places.
#[inline(always)]
pub fn put_again(from: usize, to: usize, line: &mut [u8], at: usize) -> usize
    requires places { (from ≤ to) × (to ≤ from + 20) × (to ≤ at) }
    requires room { at + 24 ≤ length line.old }
    ensures end { (at ≤ result) × (result ≤ at + 20) }
    ensures written { take result line.new ≡ take at line.old ++ drop from (take to line.old) }
{
    // So many are written at once, the last of which are behind the end.
    let mut digits = [0u8; 24];
    digits.copy_from_slice(&line[from..from + 24]);
    put_text(&digits, line, at);
    at + (to - from)
}
