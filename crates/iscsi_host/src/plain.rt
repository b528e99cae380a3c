//! Effects in plain form.

ghost use Rattle.std.specs.Prelude.{◌≡◌, ◌++◌, None, option_map};
ghost use Rattle.iscsi_wire.specs.Replies.{bytes_4, header_of};
ghost use Rattle.iscsi_host.specs.Plain.{NO_HEADER, plain_of, request_form, number_form, command_form, enter_form, reply_form, attribute_code, reason_code};

use iscsi_rules::{Effect, Numbers, Why};
use iscsi_tasks::Attr;
use iscsi_wire::opcode::SCSI_RESPONSE;
use iscsi_wire::{Reply, Request};

/// An effect in plain form. Fields that its kind has no use for are 0.
#[repr(C)]
#[derive(Clone, Copy, Debug, PartialEq, Eq)]
pub struct PlainEffect {
    /// The ticket of a command, from 1 on.
    pub ticket: u64,
    /// A CmdSN; of a reply its StatSN.
    pub sn: u32,
    pub cid: u16,
    pub unit: u16,
    /// 1 Deliver, 2 Immediate, 3 Wait, 4 Void, 5 Empty, 6 Enter, 7 Enable, 8 Leave, 9 Send, 10 CloseConn,
    /// 11 CloseSession, 12 Ignore.
    pub kind: u8,
    /// 1 SIMPLE, 2 ORDERED, 3 HEAD OF QUEUE, as ATTR has them (RFC 7143 section 11.3.1).
    pub attribute: u8,
    /// 1 Outside, 2 Duplicate, 3 Closed, 4 Stale, 5 Data.
    pub reason: u8,
    /// How many bytes of `tail` are the data segment of a reply: 0, 20 or 48.
    pub tail_length: u8,
    /// The header of the request, or of the reply.
    pub header: [u8; 48],
    pub tail: [u8; 48],
    pub reserved: [u8; 4],
}

const NOTHING: PlainEffect = PlainEffect {
    ticket: 0,
    sn: 0,
    cid: 0,
    unit: 0,
    kind: 0,
    attribute: 0,
    reason: 0,
    tail_length: 0,
    header: [0; 48],
    tail: [0; 48],
    reserved: [0; 4],
};

/// Writes the plain form of an effect of an event that ended with these numbers; `request` is the one that executed
/// last before it.
pub(crate) fn write_plain(
    effect: &Effect,
    request: Option<&Request>,
    numbers: Numbers,
    out: &mut PlainEffect,
)
    ensures { out.new ≡ plain_of effect.now (option_map (λ r. r.now) request.entry) numbers }
{
    *out = NOTHING;
    match effect {
        Effect::Deliver { request } => put_request(1, request, out),
        Effect::Immediate { request } => put_request(2, request, out),
        Effect::Wait { request } => put_request(3, request, out),
        Effect::Void { sn } => put_number(4, *sn, out),
        Effect::Empty { sn } => put_number(5, *sn, out),
        Effect::Enter { ticket, unit, attr } => put_entering(*ticket, *unit, *attr, request, out),
        Effect::Enable { ticket, unit } => put_command(7, *ticket, *unit, out),
        Effect::Leave { ticket, unit } => put_command(8, *ticket, *unit, out),
        Effect::Send {
            conn,
            stat_sn,
            reply,
        } => put_reply(*conn, *stat_sn, reply, numbers, out),
        Effect::CloseConn { conn } => {
            out.kind = 10;
            out.cid = *conn;
        }
        Effect::CloseSession => out.kind = 11,
        Effect::Ignore { why } => {
            out.kind = 12;
            out.reason = code_of_reason(*why);
        }
    }
}

#[inline(always)]
fn put_request(kind: u8, request: &Request, out: &mut PlainEffect)
    requires { out.old ≡ NOTHING }
    ensures { out.new ≡ request_form kind request.now }
{
    out.kind = kind;
    out.sn = request.cmd_sn();
    out.cid = request.conn();
    out.header = request.bytes();
}

#[inline(always)]
fn put_number(kind: u8, sn: u32, out: &mut PlainEffect)
    requires { out.old ≡ NOTHING }
    ensures { out.new ≡ number_form kind sn }
{
    out.kind = kind;
    out.sn = sn;
}

#[inline(always)]
fn put_command(kind: u8, ticket: u64, unit: u16, out: &mut PlainEffect)
    requires { out.old ≡ NOTHING }
    ensures { out.new ≡ command_form kind ticket unit }
{
    out.kind = kind;
    out.ticket = ticket;
    out.unit = unit;
}

#[inline(always)]
fn put_entering(
    ticket: u64,
    unit: u16,
    attr: Attr,
    request: Option<&Request>,
    out: &mut PlainEffect,
)
    requires { out.old ≡ NOTHING }
    ensures { out.new ≡ enter_form ticket unit attr (option_map (λ r. r.now) request.entry) }
{
    if let Some(request) = request {
        put_request(6, request, out);
    }
    out.kind = 6;
    out.ticket = ticket;
    out.unit = unit;
    out.attribute = code_of_attribute(attr);
}

#[inline(always)]
fn put_reply(cid: u16, stat_sn: u32, reply: &Reply, numbers: Numbers, out: &mut PlainEffect)
    requires { out.old ≡ NOTHING }
    ensures { out.new ≡ reply_form cid stat_sn reply.now numbers }
{
    out.kind = 9;
    out.cid = cid;
    out.sn = stat_sn;
    // Most replies are of this kind.
    if let Reply::Scsi {
        itt,
        status,
        sense: None,
    } = reply
    {
        put_scsi_header(*itt, *status, stat_sn, numbers, &mut out.header);
        return;
    }
    let pdu = reply.encode(stat_sn, numbers.exp, numbers.max);
    out.header = *pdu.header();
    let tail = pdu.tail();
    let length = tail.len().min(48);
    out.tail_length = length as u8;
    let (data, _) = out.tail.split_at_mut(length);
    data.copy_from_slice(&tail[..length]);
}

/// Writes the header of a SCSI Response without sense, as `Reply::encode` gives it, where it is read: eight bytes at a time,
/// so that whoever reads as many needn't wait for two stores.
#[inline(always)]
fn put_scsi_header(itt: u32, status: u8, stat_sn: u32, numbers: Numbers, header: &mut [u8; 48])
    requires { header.old ≡ NO_HEADER }
    ensures { header.new ≡ header_of (Reply.Scsi itt status None) stat_sn numbers.exp numbers.max }
{
    header[..8].copy_from_slice(&[SCSI_RESPONSE, 0x80, 0, status, 0, 0, 0, 0]);
    header[16..24].copy_from_slice(&pair(itt, 0));
    header[24..32].copy_from_slice(&pair(stat_sn, numbers.exp));
    header[32..40].copy_from_slice(&pair(numbers.max, 0));
}

/// Two numbers in four bytes each, the highest byte first.
#[inline(always)]
fn pair(first: u32, second: u32) -> [u8; 8]
    ensures { result ≡ bytes_4 first ++ bytes_4 second }
{
    (u64::from(first) * (1 << 32) + u64::from(second)).to_be_bytes()
}

fn code_of_attribute(attr: Attr) -> u8
    ensures { result ≡ attribute_code attr }
{
    match attr {
        Attr::Simple => 1,
        Attr::Ordered => 2,
        Attr::Head => 3,
    }
}

fn code_of_reason(why: Why) -> u8
    ensures { result ≡ reason_code why }
{
    match why {
        Why::Outside => 1,
        Why::Duplicate => 2,
        Why::Closed => 3,
        Why::Stale => 4,
        Why::Data => 5,
    }
}
