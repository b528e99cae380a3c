//! The lines of a recording.

ghost use Rattle.std.specs.Prelude.{◌≡◌, ◌+◌, ◌≤◌, length, vec_len, OnOk};

use crate::headers::Command;
use std::alloc::{AllocError, Global};

/// The digits of a SCSI Command's header, and the end of its line.
const LINE: [u8; 97] =
    *b"018100000000000000000000000000000000000000001000000000000000000128000000000000000800000000000000\n";

/// No line has more bytes.
const ROOM: usize = 128;

/// By so many bytes the memory of a recording grows.
const GROWTH: usize = 1 << 20;

/// How the line of each arrival on a connection begins: `C`, its CID, and the blanks.
#[derive(Clone, Copy)]
pub(crate) struct Front {
    bytes: [u8; 8],
    len: usize,
}

/// A recording as it grows, line by line, at the front of memory that is there already.
pub(crate) struct Text {
    memory: Vec<u8>,
    len: usize,
    ghost within: { len ≤ vec_len memory },
}

impl Drop for Text {
    fn drop(self) {
        let Text {
            memory: _memory,
            len: _len,
        } = self;
    }
}

impl Text {
    pub(crate) fn new(alloc: Global) -> Text {
        Text {
            memory: Vec::new(alloc),
            len: 0,
        }
    }

    /// Drops all lines. The memory stays.
    pub(crate) fn clear(&mut self) {
        self.len = 0;
    }

    pub(crate) fn as_slice(&self) -> &[u8] {
        &self.memory[..self.len]
    }

    /// The line of a connection. It gives the front of the lines of its arrivals.
    pub(crate) fn put_connection(&mut self, cid: u16) -> Result<Front, AllocError> {
        make_room(&mut self.memory, self.len)?;
        self.len = put_connection(&mut self.memory, self.len, cid);
        Ok(front_of(cid))
    }

    /// The line of a command, on the connection whose lines begin so.
    pub(crate) fn put_command(
        &mut self,
        front: &Front,
        command: &Command,
    ) -> Result<(), AllocError> {
        make_room(&mut self.memory, self.len)?;
        self.len = put_command(&mut self.memory, self.len, front, command);
        Ok(())
    }

    /// The line of a completion, with status GOOD. The ticket has at most eight digits.
    pub(crate) fn put_completion(&mut self, ticket: u32) -> Result<(), AllocError> {
        make_room(&mut self.memory, self.len)?;
        self.len = put_completion(&mut self.memory, self.len, ticket);
        Ok(())
    }
}

/// Sees that there is room for a line behind the first `len` bytes.
#[inline(always)]
fn make_room(memory: &mut Vec<u8>, len: usize) -> Result<(), AllocError>
    requires { len ≤ vec_len memory.old }
    ensures room { OnOk result (len + 128 ≤ vec_len memory.new) }
    ensures within { len ≤ vec_len memory.new }
{
    if memory.len() - len < ROOM {
        grow(memory)?;
    }
    Ok(())
}

#[inline(never)]
fn grow(memory: &mut Vec<u8>) -> Result<(), AllocError>
    ensures ok { OnOk result (vec_len memory.new ≡ vec_len memory.old + 1048576) }
    ensures longer { vec_len memory.old ≤ vec_len memory.new }
{
    memory.resize(memory.len() + GROWTH, 0)
}

fn put_connection(memory: &mut [u8], at: usize, cid: u16) -> usize
    requires { at + 128 ≤ length memory.old }
    ensures { result ≤ at + 128 }
{
    let (_, line) = memory.split_at_mut(at);
    at + write_connection(line, cid)
}

#[inline(always)]
fn put_command(memory: &mut [u8], at: usize, front: &Front, command: &Command) -> usize
    requires { at + 128 ≤ length memory.old }
    ensures { result ≤ at + 128 }
{
    let (_, line) = memory.split_at_mut(at);
    let len = write_front(line, front);
    let (_, line) = line.split_at_mut(len);
    write_command(line, command);
    at + len + LINE.len()
}

#[inline(always)]
fn put_completion(memory: &mut [u8], at: usize, ticket: u32) -> usize
    requires { at + 128 ≤ length memory.old }
    ensures { result ≤ at + 128 }
{
    let (_, line) = memory.split_at_mut(at);
    at + write_completion(line, ticket)
}

fn write_connection(place: &mut [u8], cid: u16) -> usize
    requires { 128 ≤ length place.old }
    ensures { result ≤ 128 }
{
    let (digits, len) = decimal(u32::from(cid));
    place[..5].copy_from_slice(b"conn ");
    place[5..13].copy_from_slice(&digits);
    place[5 + len..15 + len].copy_from_slice(b" 00000001\n");
    15 + len
}

fn front_of(cid: u16) -> Front {
    let mut line = [b' '; 16];
    let (digits, len) = decimal(u32::from(cid));
    line[0] = b'C';
    line[2..10].copy_from_slice(&digits);
    line[2 + len] = b' ';
    let mut bytes = [0u8; 8];
    bytes.copy_from_slice(&line[..8]);
    Front {
        bytes,
        len: len.min(5) + 3,
    }
}

#[inline(always)]
fn write_front(line: &mut [u8], front: &Front) -> usize
    requires { 128 ≤ length line.old }
    ensures { result ≤ 8 }
{
    line[..8].copy_from_slice(&front.bytes);
    front.len.min(8)
}

#[inline(always)]
fn write_command(line: &mut [u8], command: &Command)
    requires { 97 ≤ length line.old }
{
    line[..97].copy_from_slice(&LINE);
    line[3] = b'0'.wrapping_add(command.attribute);
    let [high, low] = byte_digits(command.unit);
    line[18] = high;
    line[19] = low;
    put_word(line, 32, command.tag);
    put_word(line, 48, command.number);
    put_word(line, 68, command.block);
}

/// Writes the digits of a number into a line.
#[inline(always)]
fn put_word(line: &mut [u8], at: usize, number: u32)
    requires { (at ≤ 68) × (97 ≤ length line.old) }
{
    let (_, place) = line.split_at_mut(at);
    place[..8].copy_from_slice(&word_digits(number));
}

#[inline(always)]
fn write_completion(place: &mut [u8], ticket: u32) -> usize
    requires { 128 ≤ length place.old }
    ensures { result ≤ 128 }
{
    let (digits, len) = decimal(ticket);
    place[..2].copy_from_slice(b"D ");
    place[2..10].copy_from_slice(&digits);
    place[2 + len..6 + len].copy_from_slice(b" 00\n");
    6 + len
}

/// The decimal digits of a number below 100,000,000, and how many there are.
#[inline(always)]
fn decimal(number: u32) -> ([u8; 8], usize)
    ensures { result.1 ≤ 8 }
{
    let mut left = number;
    let mut digits = 0u64;
    let mut len = 0usize;
    for before in 0..8usize {
        digits = digits
            .wrapping_mul(256)
            .wrapping_add(u64::from(b'0') + u64::from(left % 10));
        left /= 10;
        len = before + 1;
        if left == 0 {
            break;
        }
    }
    (digits.to_le_bytes(), len.min(8))
}

/// The hexadecimal digits of a number, all at once.
#[inline(always)]
fn word_digits(number: u32) -> [u8; 8] {
    let spread = u64::from(number);
    let spread = (spread | spread.wrapping_mul(1 << 16)) & 0x0000_ffff_0000_ffff;
    let spread = (spread | spread.wrapping_mul(1 << 8)) & 0x00ff_00ff_00ff_00ff;
    let spread = (spread | spread.wrapping_mul(1 << 4)) & 0x0f0f_0f0f_0f0f_0f0f;
    // A digit above 9 is a letter, which stands 39 places behind.
    let letters = (spread.wrapping_add(0x0606_0606_0606_0606) >> 4) & 0x0101_0101_0101_0101;
    spread
        .wrapping_add(0x3030_3030_3030_3030)
        .wrapping_add(letters.wrapping_mul(39))
        .to_be_bytes()
}

#[inline(always)]
fn byte_digits(byte: u8) -> [u8; 2] {
    let [.., high, low] = word_digits(u32::from(byte));
    [high, low]
}
