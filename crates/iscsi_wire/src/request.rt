//! Requests: the 48 bytes of a header, and the connection that they came on (RFC 7143 chapter 11).

ghost use Rattle.std.specs.Prelude.{◌≡◌};
ghost use Rattle.iscsi_wire.specs.Fields.{request_of, connection_of, header_of, is_immediate, opcode, attr_code, function, lun, itt, rtt, cid, cmd_sn, ref_cmd_sn, cdb};

use byteorder::{BigEndian, ByteOrder};

/// A request PDU's header as it came on a connection.
///
/// Each reader gives the number of its bytes for every header, whatever the opcode is.
#[derive(Clone, Copy, Debug, PartialEq, Eq)]
pub struct Request {
    conn: u16,
    bytes: [u8; 48],
}

impl Request {
    /// The request of this header, which came on connection `conn`.
    pub fn read(conn: u16, header: &[u8; 48]) -> Request
        ensures { result ≡ request_of conn header.now }
    {
        Request {
            conn,
            bytes: *header,
        }
    }

    /// The connection that the request came on.
    pub fn conn(&self) -> u16
        ensures { result ≡ connection_of self.now }
    {
        self.conn
    }

    /// The header, as it came.
    pub fn bytes(&self) -> [u8; 48]
        ensures { result ≡ header_of self.now }
    {
        self.bytes
    }

    /// The header, as it came, where it stands.
    #[inline(always)]
    pub fn header(&self) -> &[u8; 48]
        ensures { result.now ≡ header_of self.now }
    {
        &self.bytes
    }

    /// The I bit: the request is for immediate delivery (section 11.2.1.1).
    pub fn immediate(&self) -> bool
        ensures { result ≡ is_immediate self.now }
    {
        self.bytes[0] / 64 % 2 == 1
    }

    /// The opcode, the low six bits of byte 0 (section 11.2.1.2).
    pub fn opcode(&self) -> u8
        ensures { result ≡ opcode self.now }
    {
        self.bytes[0] % 64
    }

    /// ATTR of a SCSI Command, from 0 to 7 (section 11.3.1).
    pub fn attr(&self) -> u8
        ensures { result ≡ attr_code self.now }
    {
        self.bytes[1] % 8
    }

    /// The function of a Task Management Request, from 0 to 127 (section 11.5.1).
    pub fn function(&self) -> u8
        ensures { result ≡ function self.now }
    {
        self.bytes[1] % 128
    }

    /// The reason code of a Logout Request, from 0 to 127 (section 11.14.1).
    pub fn reason(&self) -> u8
        ensures { result ≡ function self.now }
    {
        self.bytes[1] % 128
    }

    /// The logical unit number (section 11.2.1.7).
    pub fn lun(&self) -> [u8; 8]
        ensures { result ≡ lun self.now }
    {
        let mut lun = [0u8; 8];
        lun.copy_from_slice(&self.bytes[8..16]);
        lun
    }

    /// The initiator task tag (section 11.2.1.8).
    pub fn itt(&self) -> u32
        ensures { result ≡ itt self.now }
    {
        BigEndian::read_u32(&self.bytes[16..20])
    }

    /// The Referenced Task Tag of a Task Management Request (section 11.5.4).
    pub fn rtt(&self) -> u32
        ensures { result ≡ rtt self.now }
    {
        BigEndian::read_u32(&self.bytes[20..24])
    }

    /// The CID of a Logout Request (section 11.14.3).
    pub fn cid(&self) -> u16
        ensures { result ≡ cid self.now }
    {
        BigEndian::read_u16(&self.bytes[20..22])
    }

    /// CmdSN (section 11.3.2).
    pub fn cmd_sn(&self) -> u32
        ensures { result ≡ cmd_sn self.now }
    {
        BigEndian::read_u32(&self.bytes[24..28])
    }

    /// RefCmdSN of a Task Management Request (section 11.5.5).
    pub fn ref_cmd_sn(&self) -> u32
        ensures { result ≡ ref_cmd_sn self.now }
    {
        BigEndian::read_u32(&self.bytes[32..36])
    }

    /// The CDB of a SCSI Command (section 11.3.5).
    pub fn cdb(&self) -> [u8; 16]
        ensures { result ≡ cdb self.now }
    {
        let mut cdb = [0u8; 16];
        cdb.copy_from_slice(&self.bytes[32..48]);
        cdb
    }
}
