//! The bytes of what goes out.

ghost use Rattle.std.specs.Prelude.{◌≡◌, ◌++◌, take, drop};
ghost use Rattle.iscsi_wire.specs.Replies.{bytes_4};
ghost use Rattle.iscsi_outbox_rules.specs.rules.Handing.{nop_in_header, own_header};
ghost use Rattle.iscsi_outbox.specs.rules.Headers.{header_of};

use byteorder::{BigEndian, ByteOrder};
use iscsi_outbox_rules::OwnPdu;
use iscsi_outbox_steps::{Handed, Pdu};
use iscsi_wire::NO_TAG;
use iscsi_wire::opcode::NOP_IN;

/// The header of a PDU that is handed out, with its numbers (RFC 7143 chapter 11). What follows that of a reply is what
/// `Reply::encode` has, and the data of a Data-In are the target's.
pub fn header(handed: &Handed) -> [u8; 48]
    ensures { result ≡ header_of handed.now }
{
    match handed.pdu {
        Pdu::Reply(sent) => *sent
            .reply
            .encode(handed.stat_sn, handed.exp, handed.max)
            .header(),
        Pdu::Own(own) => with_numbers(own_header(&own), handed.stat_sn, handed.exp, handed.max),
        Pdu::Ping(tag) => nop_in(tag, handed.stat_sn, handed.exp, handed.max),
        Pdu::Notice => nop_in(NO_TAG, handed.stat_sn, handed.exp, handed.max),
    }
}

/// The header of an own PDU, as it was put.
fn own_header(own: &OwnPdu) -> [u8; 48]
    ensures { result ≡ own_header own.now }
{
    match own {
        OwnPdu::OfCommand { header, .. } | OwnPdu::OfConnection { header, .. } => *header,
    }
}

/// A header with StatSN, ExpCmdSN and MaxCmdSN filled in.
fn with_numbers(mut header: [u8; 48], stat_sn: u32, exp: u32, max: u32) -> [u8; 48]
    ensures { result ≡ take 24 header ++ bytes_4 stat_sn ++ bytes_4 exp ++ bytes_4 max ++ drop 36 header }
{
    BigEndian::write_u32(&mut header[24..28], stat_sn);
    BigEndian::write_u32(&mut header[28..32], exp);
    BigEndian::write_u32(&mut header[32..36], max);
    header
}

/// The header of a NOP-In without a task's tag (RFC 7143 section 11.19).
fn nop_in(transfer_tag: u32, stat_sn: u32, exp: u32, max: u32) -> [u8; 48]
    ensures { result ≡ nop_in_header transfer_tag stat_sn exp max }
{
    let mut header = [0u8; 48];
    header[0] = NOP_IN;
    header[1] = 0x80;
    BigEndian::write_u32(&mut header[16..20], NO_TAG);
    BigEndian::write_u32(&mut header[20..24], transfer_tag);
    with_numbers(header, stat_sn, exp, max)
}
