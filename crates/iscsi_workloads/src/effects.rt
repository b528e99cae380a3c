//! A digest of effects.

ghost use Rattle.std.specs.Prelude.{◌<◌};

use crate::digest::Digest;
use iscsi_session::{Attr, Effect, Numbers, Why};
use iscsi_wire::{Reply, Request};

/// Takes all that an effect says, a reply as the PDU that goes out.
pub(crate) fn take_effect(effect: &Effect, numbers: Numbers, digest: &mut Digest) {
    match effect {
        Effect::Deliver { request } => take_request(1, request, digest),
        Effect::Immediate { request } => take_request(2, request, digest),
        Effect::Wait { request } => take_request(3, request, digest),
        Effect::Void { sn } => digest.number(4 << 48 | u64::from(*sn)),
        Effect::Empty { sn } => digest.number(5 << 48 | u64::from(*sn)),
        Effect::Enter { ticket, unit, attr } => {
            digest.number(*ticket);
            digest.number(6 << 48 | u64::from(*unit) << 8 | number_of(*attr));
        }
        Effect::Enable { ticket, unit } => take_command(7, *ticket, *unit, digest),
        Effect::Leave { ticket, unit } => take_command(8, *ticket, *unit, digest),
        Effect::Send {
            conn,
            stat_sn,
            reply,
        } => take_reply(*conn, *stat_sn, reply, numbers, digest),
        Effect::CloseConn { conn } => digest.number(10 << 48 | u64::from(*conn)),
        Effect::CloseSession => digest.number(11 << 48),
        Effect::Ignore { why } => digest.number(12 << 48 | reason_of(*why)),
    }
}

fn take_request(kind: u64, request: &Request, digest: &mut Digest)
    requires { kind < 16 }
{
    digest.number(kind << 48 | u64::from(request.conn()));
    digest.bytes(&request.bytes());
}

fn take_command(kind: u64, ticket: u64, unit: u16, digest: &mut Digest)
    requires { kind < 16 }
{
    digest.number(ticket);
    digest.number(kind << 48 | u64::from(unit));
}

fn take_reply(conn: u16, stat_sn: u32, reply: &Reply, numbers: Numbers, digest: &mut Digest) {
    let pdu = reply.encode(stat_sn, numbers.exp, numbers.max);
    digest.number(9 << 48 | u64::from(conn));
    digest.bytes(pdu.header());
    if !pdu.tail().is_empty() {
        digest.bytes(pdu.tail());
    }
}

fn number_of(attr: Attr) -> u64 {
    match attr {
        Attr::Simple => 1,
        Attr::Ordered => 2,
        Attr::Head => 3,
    }
}

fn reason_of(why: Why) -> u64 {
    match why {
        Why::Outside => 1,
        Why::Duplicate => 2,
        Why::Closed => 3,
        Why::Stale => 4,
        Why::Data => 5,
    }
}
