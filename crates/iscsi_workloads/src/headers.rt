//! The headers of requests (RFC 7143 sections 11.3, 11.5 and 11.14).

use byteorder::{BigEndian, ByteOrder};

/// The tag that names no task.
pub(crate) const NO_TAG: u32 = 0xffff_ffff;

pub(crate) const SIMPLE: u8 = 1;

pub(crate) const ORDERED: u8 = 2;

pub(crate) const HEAD: u8 = 3;

pub(crate) const ABORT_TASK: u8 = 1;

pub(crate) const ABORT_TASK_SET: u8 = 2;

pub(crate) const LOGICAL_UNIT_RESET: u8 = 5;

/// A SCSI Command: a READ (10) of eight blocks.
#[derive(Clone, Copy)]
pub(crate) struct Command {
    pub(crate) tag: u32,
    pub(crate) number: u32,
    pub(crate) unit: u8,
    pub(crate) attribute: u8,
    pub(crate) block: u32,
}

/// A task management function, for immediate delivery.
#[derive(Clone, Copy)]
pub(crate) struct Function {
    pub(crate) kind: u8,
    pub(crate) tag: u32,
    pub(crate) number: u32,
    pub(crate) unit: u8,
    pub(crate) referenced_tag: u32,
    pub(crate) referenced_number: u32,
}

impl Command {
    pub(crate) fn header(&self) -> [u8; 48] {
        let mut header = [0u8; 48];
        header[0] = 0x01;
        header[1] = 0x80 | self.attribute;
        header[9] = self.unit;
        BigEndian::write_u32(&mut header[16..20], self.tag);
        header[22] = 0x10;
        BigEndian::write_u32(&mut header[24..28], self.number);
        header[31] = 0x01;
        header[32] = 0x28;
        BigEndian::write_u32(&mut header[34..38], self.block);
        header[40] = 0x08;
        header
    }
}

impl Function {
    pub(crate) fn header(&self) -> [u8; 48] {
        let mut header = [0u8; 48];
        header[0] = 0x42;
        header[1] = 0x80 | self.kind;
        header[9] = self.unit;
        BigEndian::write_u32(&mut header[16..20], self.tag);
        BigEndian::write_u32(&mut header[20..24], self.referenced_tag);
        BigEndian::write_u32(&mut header[24..28], self.number);
        header[31] = 0x01;
        BigEndian::write_u32(&mut header[32..36], self.referenced_number);
        header
    }
}

/// A Logout for immediate delivery that closes the connection with this CID, or the session for None.
pub(crate) fn logout(cid: Option<u16>, tag: u32, number: u32) -> [u8; 48] {
    let mut header = [0u8; 48];
    header[0] = 0x46;
    header[1] = 0x80;
    if let Some(cid) = cid {
        header[1] = 0x81;
        BigEndian::write_u16(&mut header[20..22], cid);
    }
    BigEndian::write_u32(&mut header[16..20], tag);
    BigEndian::write_u32(&mut header[24..28], number);
    header
}
