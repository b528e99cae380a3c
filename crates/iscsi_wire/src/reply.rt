//! Replies, and their encoding (RFC 7143 sections 11.4, 11.6, 11.15, 11.17 and 11.19).

ghost use Rattle.std.specs.Prelude.{◌≡◌};
ghost use Rattle.iscsi_wire.specs.Replies.{opcode_of, response_of, status_of, tag_of, transfer_tag_of, sense_bytes, header_of, tail_of};
ghost use Rattle.iscsi_wire.specs.Pdus.{pdu_header, pdu_tail, bytes_of_tail};

use crate::opcode::{LOGOUT_RESPONSE, NOP_IN, REJECT, SCSI_RESPONSE, TASK_RESPONSE};
use crate::pdu::{Pdu, Tail};
use byteorder::{BigEndian, ByteOrder};

/// The tag of no task, and of no transfer (RFC 7143 section 11.2.1.8).
pub const NO_TAG: u32 = 0xffff_ffff;

/// Sense data in fixed format: the sense key, the additional sense code and its qualifier (SPC).
#[derive(Clone, Copy, Debug, PartialEq, Eq)]
pub struct Sense {
    pub key: u8,
    pub asc: u8,
    pub ascq: u8,
}

/// A response PDU, but for the three numbers that it carries when it is sent.
#[derive(Clone, Copy, Debug, PartialEq, Eq)]
pub enum Reply {
    /// A SCSI Response: command completed at target, with this status, and sense where there is some.
    Scsi {
        itt: u32,
        status: u8,
        sense: Option<Sense>,
    },
    /// A Task Management Function Response.
    Task {
        itt: u32,
        response: u8,
    },
    /// A Logout Response.
    Logout {
        itt: u32,
        response: u8,
    },
    /// A NOP-In that answers a NOP-Out.
    Nop {
        itt: u32,
    },
    /// A Reject of the request with this header.
    Reject {
        reason: u8,
        header: [u8; 48],
    },
}

impl Reply {
    /// Byte 0: the opcode.
    fn opcode(&self) -> u8
        ensures { result ≡ opcode_of self.now }
    {
        match self {
            Reply::Scsi { .. } => SCSI_RESPONSE,
            Reply::Task { .. } => TASK_RESPONSE,
            Reply::Logout { .. } => LOGOUT_RESPONSE,
            Reply::Nop { .. } => NOP_IN,
            Reply::Reject { .. } => REJECT,
        }
    }

    /// Bytes 2 and 3: the response or reason, and the status.
    fn outcome(&self) -> (u8, u8)
        ensures response { result.0 ≡ response_of self.now }
        ensures status { result.1 ≡ status_of self.now }
    {
        match self {
            Reply::Scsi { status, .. } => (0, *status),
            Reply::Task { response, .. } | Reply::Logout { response, .. } => (*response, 0),
            Reply::Nop { .. } => (0, 0),
            Reply::Reject { reason, .. } => (*reason, 0),
        }
    }

    /// Bytes 16 to 23: the tag of the request, and the target transfer tag.
    fn tags(&self) -> (u32, u32)
        ensures task { result.0 ≡ tag_of self.now }
        ensures transfer { result.1 ≡ transfer_tag_of self.now }
    {
        match self {
            Reply::Scsi { itt, .. } | Reply::Task { itt, .. } | Reply::Logout { itt, .. } => {
                (*itt, 0)
            }
            Reply::Nop { itt } => (*itt, NO_TAG),
            Reply::Reject { .. } => (NO_TAG, 0),
        }
    }

    /// What follows the header.
    fn tail(&self) -> Tail
        ensures { bytes_of_tail result ≡ tail_of self.now }
    {
        match self {
            Reply::Scsi {
                sense: Some(sense),
                ..
            } => Tail::Sense(sense.bytes()),
            Reply::Reject { header, .. } => Tail::Header(*header),
            _ => Tail::Nothing,
        }
    }

    /// The PDU of this reply with these numbers: StatSN, ExpCmdSN and MaxCmdSN, as the wire shows them.
    pub fn encode(&self, stat_sn: u32, exp: u32, max: u32) -> Pdu
        ensures header { pdu_header result ≡ header_of self.now stat_sn exp max }
        ensures tail { pdu_tail result ≡ tail_of self.now }
    {
        let tail = self.tail();
        let (response, status) = self.outcome();
        let (tag, transfer_tag) = self.tags();
        let mut header = [0u8; 48];
        header[0] = self.opcode();
        header[1] = 0x80;
        header[2] = response;
        header[3] = status;
        BigEndian::write_u24(&mut header[5..8], tail.len());
        BigEndian::write_u32(&mut header[16..20], tag);
        BigEndian::write_u32(&mut header[20..24], transfer_tag);
        BigEndian::write_u32(&mut header[24..28], stat_sn);
        BigEndian::write_u32(&mut header[28..32], exp);
        BigEndian::write_u32(&mut header[32..36], max);
        Pdu::new(header, tail)
    }
}

impl Sense {
    /// The sense length, 18, and the sense data.
    fn bytes(&self) -> [u8; 20]
        ensures { result ≡ sense_bytes self.now }
    {
        let mut bytes = [0u8; 20];
        bytes[1] = 18;
        bytes[2] = 0x70;
        bytes[4] = self.key;
        bytes[9] = 0x0a;
        bytes[14] = self.asc;
        bytes[15] = self.ascq;
        bytes
    }
}
