//! The reasons of Rejects.

ghost use Rattle.std.specs.Prelude.{◌≡◌};
ghost use Rattle.iscsi_wire.specs.Codes.{reason_code};

/// Why a request is rejected (RFC 7143 section 11.17.1).
#[derive(Clone, Copy, Debug, PartialEq, Eq)]
pub enum RejectReason {
    /// Command not supported.
    NotSupported = 0x05,
    /// Too many immediate commands.
    TooManyImmediate = 0x06,
    /// Task in progress.
    TaskInProgress = 0x07,
    /// Invalid PDU field.
    InvalidField = 0x09,
}

impl RejectReason {
    /// Its code, byte 2 of the Reject.
    #[inline(always)]
    pub fn code(self) -> u8
        ensures { result ≡ reason_code self }
    {
        self as u8
    }
}
