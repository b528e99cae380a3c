//! What a request does that executes.

/// A reply to a request, without what it takes from that.
#[derive(Clone, Copy, Debug, PartialEq, Eq)]
pub enum Answer {
    /// A Reject with this reason (RFC 7143 section 11.17.1).
    Reject(u8),
    /// A NOP-In.
    Pong,
    /// A SCSI Response: there is no such unit.
    NoUnit,
    /// A SCSI Response: the task set is full.
    Full,
    /// A Task Management Function Response with this response (RFC 7143 section 11.6.1).
    Respond(u8),
    /// A Logout Response with this response (RFC 7143 section 11.15.1).
    LogOut(u8),
}

/// What a request does that executes: the first case of its table that fits.
///
/// A function that takes something out or receives a number, and a Logout Request that closes something, are answered as
/// well: they are complete.
#[derive(Clone, Copy, Debug, PartialEq, Eq)]
pub enum Deed {
    /// Nothing more happens.
    Nothing,
    /// A function waits for lower numbers.
    Wait,
    /// It is answered.
    Reply(Answer),
    /// A command enters the task set of this unit.
    Enter(u16),
    /// The CmdSN that ABORT TASK refers to is received without a request, if it wasn't received before.
    Void,
    /// The request that is held at this CmdSN for the unit is taken out.
    Empty { unit: u16, sn: u32 },
    /// The unit's command with this ticket leaves.
    Abort { unit: u16, ticket: u64 },
    /// The unit's commands leave that were there before the function.
    AbortEarlier(u16),
    /// All commands of the unit leave.
    AbortAll(u16),
    /// What is of the connection with this CID is taken out, and that is closed.
    CloseConn(u16),
    /// All is taken out, and the session is closed.
    CloseSession,
}
