//! The line of a reply that goes out.

ghost use Rattle.std.specs.Prelude.{◌≡◌, ◌+◌, ◌≤◌, ◌++◌, ◌∷◌, length, take, codes, decimal, replicate};
ghost use Rattle.hex.specs.Hex.{encode_lower};
ghost use Rattle.iscsi_wire.specs.Pdus.{pdu_header, pdu_tail};
ghost use Rattle.iscsi_wire.specs.Replies.{bytes_4};
ghost use Rattle.iscsi_rules.specs.declared.effect.Effect.{Effect};
ghost use Rattle.iscsi_report.specs.Lines.{effect_line};

use crate::decimal::put_small_and_blank;
use crate::line::{
    put_byte, put_bytes, put_first_and_zeros, put_header, put_kind, put_last_and_first,
    put_last_and_zeros, put_text,
};
use crate::vector::digits_of_four;
use iscsi_rules::Numbers;
use iscsi_wire::opcode::{SCSI_RESPONSE, TASK_RESPONSE};
use iscsi_wire::{Pdu, Reply};

/// The line of a reply. It is apart from the lines of other effects, since its header stands on the stack.
#[inline(never)]
pub fn write_send(
    conn: u16,
    stat_sn: u32,
    reply: &Reply,
    numbers: Numbers,
    line: &mut [u8],
    at: usize,
) -> usize
    requires { at + 256 ≤ length line.old }
    ensures end { result ≤ at + 256 }
    ensures written { take result line.new ≡ take at line.old
        ++ effect_line (Effect.Send conn stat_sn reply.now) numbers }
{
    write_made_send(conn, stat_sn, reply, numbers, line, at)
}

/// The same of a reply that was made just now: it stays in registers, as its kind is known where this is inlined.
#[inline(always)]
pub fn write_made_send(
    conn: u16,
    stat_sn: u32,
    reply: &Reply,
    numbers: Numbers,
    line: &mut [u8],
    at: usize,
) -> usize
    requires { at + 256 ≤ length line.old }
    ensures end { result ≤ at + 256 }
    ensures written { take result line.new ≡ take at line.old
        ++ effect_line (Effect.Send conn stat_sn reply.now) numbers }
{
    // Most replies are of this kind.
    if let Reply::Scsi {
        itt,
        status,
        sense: None,
    } = reply
    {
        return write_answer(
            conn,
            SCSI_RESPONSE,
            0,
            *status,
            *itt,
            stat_sn,
            numbers,
            line,
            at,
        );
    }
    write_other_send(conn, stat_sn, reply, numbers, line, at)
}

/// The line of a reply that isn't a SCSI Response without sense.
#[inline(always)]
fn write_other_send(
    conn: u16,
    stat_sn: u32,
    reply: &Reply,
    numbers: Numbers,
    line: &mut [u8],
    at: usize,
) -> usize
    requires { at + 256 ≤ length line.old }
    ensures end { result ≤ at + 256 }
    ensures written { take result line.new ≡ take at line.old
        ++ effect_line (Effect.Send conn stat_sn reply.now) numbers }
{
    if let Reply::Task { itt, response } = reply {
        return write_answer(
            conn,
            TASK_RESPONSE,
            *response,
            0,
            *itt,
            stat_sn,
            numbers,
            line,
            at,
        );
    }
    // A copy goes there, so that a reply that is made where this is inlined needn't stand in memory before.
    let apart = *reply;
    write_any_send(conn, stat_sn, &apart, numbers, line, at)
}

/// The line of a reply that is a header alone, without a target transfer tag. Most of its digits are always the same.
#[inline(always)]
fn write_answer(
    conn: u16,
    opcode: u8,
    response: u8,
    status: u8,
    itt: u32,
    stat_sn: u32,
    numbers: Numbers,
    line: &mut [u8],
    at: usize,
) -> usize
    requires { at + 256 ≤ length line.old }
    ensures end { result ≤ at + 256 }
    ensures written { take result line.new ≡ take at line.old
        ++ (codes "  send " ++ (decimal conn ++ (codes " " ++ (encode_lower (opcode ∷ 0x80 ∷ response ∷ status
        ∷ replicate 12 0 ++ bytes_4 itt ++ replicate 4 0 ++ bytes_4 stat_sn ++ bytes_4 numbers.exp
        ++ bytes_4 numbers.max ++ replicate 12 0) ++ codes "\n")))) }
{
    let (front, back) = digits_of_four(itt, stat_sn, numbers.exp, numbers.max);
    let word = *b"  send ";
    let zeros = *b"000000000000000000000000\n";
    let at = put_text(&word, line, at);
    let at = put_small_and_blank(conn, line, at);
    let at = put_kind(opcode, response, line, at);
    let at = put_byte(status, line, at);
    let at = put_text(&zeros[..24], line, at);
    let at = put_first_and_zeros(front, line, at);
    let at = put_last_and_first(front, back, line, at);
    let at = put_last_and_zeros(back, line, at);
    put_text(&zeros[8..], line, at)
}

/// The line of any reply. It is apart from `write_send`, since it needs more room on the stack.
#[inline(never)]
fn write_any_send(
    conn: u16,
    stat_sn: u32,
    reply: &Reply,
    numbers: Numbers,
    line: &mut [u8],
    at: usize,
) -> usize
    requires { at + 256 ≤ length line.old }
    ensures end { result ≤ at + 256 }
    ensures written { take result line.new ≡ take at line.old
        ++ effect_line (Effect.Send conn stat_sn reply.now) numbers }
{
    let pdu = reply.encode(stat_sn, numbers.exp, numbers.max);
    if pdu.tail().is_empty() {
        return write_header(conn, pdu.header(), line, at);
    }
    write_pdu(conn, &pdu, line, at)
}

/// The line of a PDU that is a header alone.
#[inline(always)]
fn write_header(conn: u16, header: &[u8; 48], line: &mut [u8], at: usize) -> usize
    requires { at + 256 ≤ length line.old }
    ensures end { result ≤ at + 256 }
    ensures written { take result line.new ≡ take at line.old
        ++ (codes "  send " ++ (decimal conn ++ (codes " " ++ (encode_lower header.now ++ codes "\n")))) }
{
    let word = *b"  send ";
    let at = put_text(&word, line, at);
    let at = put_small_and_blank(conn, line, at);
    let at = put_header(header, line, at);
    put_text(b"\n", line, at)
}

/// The line of any PDU. One with a tail of 48 bytes has 192 digits.
#[inline(never)]
fn write_pdu(conn: u16, pdu: &Pdu, line: &mut [u8], at: usize) -> usize
    requires short { length (pdu_tail pdu.now) ≤ 48 }
    requires room { at + 256 ≤ length line.old }
    ensures end { result ≤ at + 256 }
    ensures written { take result line.new ≡ take at line.old
        ++ (codes "  send " ++ (decimal conn
        ++ (codes " " ++ (encode_lower (pdu_header pdu.now) ++ (encode_lower (pdu_tail pdu.now) ++ codes "\n"))))) }
{
    let at = put_text(b"  send ", line, at);
    let at = put_small_and_blank(conn, line, at);
    let at = put_header(pdu.header(), line, at);
    let at = put_bytes(pdu.tail(), line, at);
    put_text(b"\n", line, at)
}
