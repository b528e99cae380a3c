//! The target's own PDUs, which the session knows nothing of.

/// A PDU of the target's own: its header, in which StatSN, ExpCmdSN and MaxCmdSN are filled in as it is handed out.
#[derive(Clone, Copy, Debug, PartialEq, Eq)]
pub enum OwnPdu {
    /// A Data-In without the S bit, or an R2T. It goes out on the connection of its command (RFC 7143 section 4.2.4).
    OfCommand { ticket: u64, header: [u8; 48] },
    /// A NOP-In that answers nothing, a Text Response or an Asynchronous Message.
    OfConnection { conn: u16, header: [u8; 48] },
}

/// Why an own PDU isn't taken.
#[derive(Clone, Copy, Debug, PartialEq, Eq)]
pub enum PutRefusal {
    /// The header is that of no own PDU of this kind, or has a transfer tag that is kept for pings.
    Unfit,
    /// No command with this ticket is live.
    Gone,
    /// The connection hasn't joined, is closed, or was lost.
    Closed,
    /// As many own PDUs wait on the connection as may.
    Full,
}
