//! What is kept of a PDU that was handed out.

use iscsi_arrivals::Stamp;

/// A PDU that was handed out: the place of its connection, and its stamp.
#[derive(Clone, Copy, Debug, PartialEq, Eq)]
pub struct Sent {
    pub conn: u16,
    pub stamp: Stamp,
}
