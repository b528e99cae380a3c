//! The bytes of a PDU that goes out.

ghost use Rattle.std.specs.Prelude.{◌≡◌, ◌≤◌, ◌++◌, ℕ, List, Some, None, length};
ghost use Rattle.iscsi_wire.specs.Replies.{bytes_4, header_of, tail_of};
ghost use Rattle.iscsi_outbox.specs.promises.Responses.{handed_of};
ghost use Rattle.iscsi_ffi_handle.specs.Bytes.{bytes_of, kind_code, pdu_form, plain_pdu, put_first, tail_in};

use crate::plain::PlainPdu;
use iscsi_outbox::{Handed, HandedResponse, Pdu, header};
use iscsi_wire::Reply;
use iscsi_wire::opcode::SCSI_RESPONSE;

/// How many bytes a header has.
const HEADER: usize = 48;

/// No PDU of the library has more bytes.
pub(crate) const MOST_BYTES: usize = 96;

/// Writes a SCSI Response without sense to the front of a buffer, and says what it is.
#[inline(always)]
pub(crate) fn write_response(
    handed: &HandedResponse,
    cookie: Option<u64>,
    buffer: &mut [u8],
) -> PlainPdu
    requires { 96 ≤ length buffer.old }
    ensures buffer { buffer.new ≡ put_first (bytes_of (handed_of handed.now)) buffer.old }
    ensures pdu { result ≡ plain_pdu (handed_of handed.now) cookie }
{
    let header = scsi_header(
        handed.itt,
        handed.status,
        handed.stat_sn,
        handed.exp,
        handed.max,
    );
    let length = write_header(&header, buffer);
    response_form(cookie, length)
}

/// What a reply is that is so long.
#[inline(always)]
fn response_form(cookie: Option<u64>, length: u8) -> PlainPdu
    ensures some { (word : ℕ) → cookie ≡ Some word → result ≡ pdu_form word 1 1 length }
    ensures none { cookie ≡ None → result ≡ pdu_form 0 1 0 length }
{
    match cookie {
        Some(cookie) => PlainPdu {
            cookie,
            kind: 1,
            has_cookie: 1,
            length,
            reserved: [0; 5],
        },
        None => PlainPdu {
            cookie: 0,
            kind: 1,
            has_cookie: 0,
            length,
            reserved: [0; 5],
        },
    }
}

/// Writes a PDU to the front of a buffer, and says what it is.
#[inline(always)]
pub(crate) fn write_pdu(handed: &Handed, cookie: Option<u64>, buffer: &mut [u8]) -> PlainPdu
    requires { 96 ≤ length buffer.old }
    ensures buffer { buffer.new ≡ put_first (bytes_of handed.now) buffer.old }
    ensures pdu { result ≡ plain_pdu handed.now cookie }
{
    let length = write_bytes(handed, buffer);
    PlainPdu {
        cookie: cookie.unwrap_or(0),
        kind: kind_code(&handed.pdu),
        has_cookie: u8::from(cookie.is_some()),
        length,
        reserved: [0; 5],
    }
}

/// Writes the bytes of a PDU to the front of a buffer, and says how many there are.
#[inline(always)]
fn write_bytes(handed: &Handed, buffer: &mut [u8]) -> u8
    requires { 96 ≤ length buffer.old }
    ensures buffer { buffer.new ≡ put_first (bytes_of handed.now) buffer.old }
    ensures length { result ≡ length (bytes_of handed.now) }
{
    match &handed.pdu {
        Pdu::Reply(sent) => write_encoded(
            &sent.reply,
            handed.stat_sn,
            handed.exp,
            handed.max,
            buffer,
        ),
        _ => write_header(&header(handed), buffer),
    }
}

/// Writes the bytes of a reply with these numbers, and says how many there are.
#[inline(never)]
fn write_encoded(reply: &Reply, stat_sn: u32, exp: u32, max: u32, buffer: &mut [u8]) -> u8
    requires { 96 ≤ length buffer.old }
    ensures buffer { buffer.new ≡ put_first (header_of reply.now stat_sn exp max ++ tail_of reply.now) buffer.old }
    ensures length { result ≡ length (header_of reply.now stat_sn exp max ++ tail_of reply.now) }
{
    let pdu = reply.encode(stat_sn, exp, max);
    let tail = pdu.tail();
    let (front, behind) = buffer.split_at_mut(HEADER);
    front.copy_from_slice(pdu.header());
    let (data, _) = behind.split_at_mut(tail.len());
    data.copy_from_slice(tail);
    (HEADER + tail.len()) as u8
}

/// Writes a header, and says how many bytes it has.
#[inline(always)]
fn write_header(header: &[u8; 48], buffer: &mut [u8]) -> u8
    requires { 96 ≤ length buffer.old }
    ensures buffer { buffer.new ≡ put_first header.now buffer.old }
    ensures length { result ≡ 48 }
{
    let (front, _) = buffer.split_at_mut(HEADER);
    front.copy_from_slice(header);
    HEADER as u8
}

/// The header of a SCSI Response without sense, as `Reply::encode` gives it: eight bytes at a time.
#[inline(always)]
fn scsi_header(itt: u32, status: u8, stat_sn: u32, exp: u32, max: u32) -> [u8; 48]
    ensures { result ≡ header_of (Reply.Scsi itt status None) stat_sn exp max }
{
    let mut header = [0u8; HEADER];
    header[..8].copy_from_slice(&[SCSI_RESPONSE, 0x80, 0, status, 0, 0, 0, 0]);
    header[16..24].copy_from_slice(&pair(itt, 0));
    header[24..32].copy_from_slice(&pair(stat_sn, exp));
    header[32..40].copy_from_slice(&pair(max, 0));
    header
}

/// Two numbers in four bytes each, the highest byte first.
#[inline(always)]
fn pair(first: u32, second: u32) -> [u8; 8]
    ensures { result ≡ bytes_4 first ++ bytes_4 second }
{
    (u64::from(first) * (1 << 32) + u64::from(second)).to_be_bytes()
}

#[inline(always)]
fn kind_code(pdu: &Pdu) -> u8
    ensures { result ≡ kind_code pdu.now }
{
    match pdu {
        Pdu::Reply(_) => 1,
        Pdu::Own(_) => 2,
        Pdu::Ping(_) => 3,
        Pdu::Notice => 4,
    }
}
