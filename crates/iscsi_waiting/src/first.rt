//! What is looked at of the first PDU that waits, where all of it needn't be.

ghost use Rattle.std.specs.Prelude.{◌≡◌};
ghost use Rattle.iscsi_waiting.specs.Firsts.{marks_of, response_in};

use iscsi_outbox_state::{Content, Waiting};
use iscsi_wire::Reply;

/// A SCSI Response without sense, and how many replies the session sent before it, modulo 2^64.
#[derive(Clone, Copy, Debug, PartialEq, Eq)]
pub struct Response {
    pub itt: u32,
    pub status: u8,
    pub place: u64,
}

/// What the rules look at of a PDU as it goes out.
#[derive(Clone, Copy, Debug, PartialEq, Eq)]
pub struct Marks {
    pub takes: bool,
    pub fenced: bool,
    pub ends: bool,
    pub command: Option<u32>,
}

/// The SCSI Response without sense that a PDU is.
#[inline(always)]
pub(crate) fn response_in(content: &Content) -> Option<Response>
    ensures { result ≡ response_in content.now }
{
    match content {
        Content::Reply(sent) => match &sent.reply {
            Reply::Scsi {
                itt,
                status,
                sense: None,
            } => Some(Response {
                itt: *itt,
                status: *status,
                place: sent.place,
            }),
            _ => None,
        },
        Content::Own(_) => None,
    }
}

/// What the rules look at of it.
#[inline(always)]
pub(crate) fn marks_of(item: &Waiting) -> Marks
    ensures { result ≡ marks_of item.now }
{
    Marks {
        takes: item.takes,
        fenced: item.fenced,
        ends: item.ends,
        command: item.command,
    }
}
