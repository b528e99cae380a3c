//! What waits on a connection.

use iscsi_outbox_rules::OwnPdu;
use iscsi_wire::Reply;

/// A reply of the session, and how many it sent before it, modulo 2^64.
#[derive(Clone, Copy, Debug, PartialEq, Eq)]
pub struct SentReply {
    pub reply: Reply,
    pub place: u64,
}

/// What a PDU is that waits.
#[derive(Clone, Copy, Debug, PartialEq, Eq)]
pub enum Content {
    /// A reply of the session.
    Reply(SentReply),
    /// A PDU of the target's own.
    Own(OwnPdu),
}

/// A PDU that waits, with what the rules look at.
#[derive(Clone, Copy, Debug, PartialEq, Eq)]
pub struct Waiting {
    pub content: Content,
    /// It takes a StatSN.
    pub takes: bool,
    /// It answers a function of several tasks (RFC 7143 section 4.2.2.3).
    pub fenced: bool,
    /// It answers a numbered request.
    pub numbered: bool,
    /// It is the Logout Response that closes its connection.
    pub ends: bool,
    /// The place of the live command that it is of.
    pub command: Option<u32>,
}

/// What the fence looks at, of the first PDU that waits on a connection.
#[derive(Clone, Copy, Debug, PartialEq, Eq)]
pub struct Front {
    /// When it entered its queue: one order for all connections.
    pub time: u64,
    pub takes: bool,
    pub fenced: bool,
}
