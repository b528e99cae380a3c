//! What goes out on a connection.

use iscsi_outbox_rules::OwnPdu;
use iscsi_outbox_state::SentReply;

/// What goes out.
#[derive(Clone, Copy, Debug, PartialEq, Eq)]
pub enum Pdu {
    /// A reply of the session, with its place in the session's log.
    Reply(SentReply),
    /// A PDU of the target's own.
    Own(OwnPdu),
    /// A NOP-In with this transfer tag, which asks for an answer (RFC 7143 section 11.19).
    Ping(u32),
    /// A NOP-In without a tag, which shows MaxCmdSN and asks for nothing.
    Notice,
}

/// A PDU that is handed out, with its numbers as the wire shows them (RFC 7143 section 4.2.2). The place of a reply isn't shown
/// there: it is how many replies the session sent before it, modulo 2^64, whatever became of these.
#[derive(Clone, Copy, Debug, PartialEq, Eq)]
pub struct Handed {
    pub pdu: Pdu,
    pub stat_sn: u32,
    pub exp: u32,
    pub max: u32,
}

/// What a connection is given that is asked for its next PDU.
#[derive(Clone, Copy, Debug, PartialEq, Eq)]
pub enum Given {
    Hands(Handed),
    /// Nothing goes out there now.
    Nothing,
    /// Nothing goes out there any more: a Logout closed it, and all is written.
    IsOver,
}
