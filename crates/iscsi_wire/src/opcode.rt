//! The opcodes of PDUs (RFC 7143 section 11.2.1.2).

ghost use Rattle.std.specs.Prelude.{◌≡◌};
ghost use Rattle.iscsi_wire.specs.Codes.{opcode_named};

use crate::request::Request;

/// What a PDU of an initiator is by its opcode, six bits of its header (RFC 7143 section 11.2.1.2).
#[derive(Clone, Copy, Debug, PartialEq, Eq)]
pub enum Opcode {
    /// NOP-Out.
    NopOut = 0x00,
    /// SCSI Command.
    ScsiCommand = 0x01,
    /// Task Management Function Request.
    TaskManagement = 0x02,
    /// Text Request.
    Text = 0x04,
    /// SCSI Data-Out.
    DataOut = 0x05,
    /// Logout Request.
    Logout = 0x06,
    /// SNACK Request.
    Snack = 0x10,
    /// Another one, which this target doesn't know. No header has this number.
    Unknown = 0xff,
}

impl Opcode {
    /// That of a request.
    #[inline(always)]
    pub fn of(request: &Request) -> Opcode
        ensures { result ≡ opcode_named request.now }
    {
        match request.opcode() {
            NOP_OUT => Opcode::NopOut,
            SCSI_COMMAND => Opcode::ScsiCommand,
            TASK_MANAGEMENT => Opcode::TaskManagement,
            TEXT => Opcode::Text,
            DATA_OUT => Opcode::DataOut,
            LOGOUT => Opcode::Logout,
            SNACK => Opcode::Snack,
            _ => Opcode::Unknown,
        }
    }
}

/// NOP-Out, of an initiator.
pub const NOP_OUT: u8 = Opcode::NopOut as u8;

/// SCSI Command, of an initiator.
pub const SCSI_COMMAND: u8 = Opcode::ScsiCommand as u8;

/// Task Management Function Request, of an initiator.
pub const TASK_MANAGEMENT: u8 = Opcode::TaskManagement as u8;

/// Text Request, of an initiator.
pub const TEXT: u8 = Opcode::Text as u8;

/// SCSI Data-Out, of an initiator.
pub const DATA_OUT: u8 = Opcode::DataOut as u8;

/// Logout Request, of an initiator.
pub const LOGOUT: u8 = Opcode::Logout as u8;

/// SNACK Request, of an initiator.
pub const SNACK: u8 = Opcode::Snack as u8;

/// NOP-In, of a target.
pub const NOP_IN: u8 = 0x20;

/// SCSI Response, of a target.
pub const SCSI_RESPONSE: u8 = 0x21;

/// Task Management Function Response, of a target.
pub const TASK_RESPONSE: u8 = 0x22;

/// Text Response, of a target.
pub const TEXT_RESPONSE: u8 = 0x24;

/// SCSI Data-In, of a target.
pub const DATA_IN: u8 = 0x25;

/// Logout Response, of a target.
pub const LOGOUT_RESPONSE: u8 = 0x26;

/// Ready To Transfer, of a target.
pub const READY_TO_TRANSFER: u8 = 0x31;

/// Asynchronous Message, of a target.
pub const ASYNCHRONOUS_MESSAGE: u8 = 0x32;

/// Reject, of a target.
pub const REJECT: u8 = 0x3f;
