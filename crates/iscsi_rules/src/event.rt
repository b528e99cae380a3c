//! What happens to a session.

/// An arrival of a request's header on a connection, or a completion by a unit.
#[derive(Clone, Copy, Debug, PartialEq, Eq)]
pub enum Event {
    /// A header of 48 bytes arrived on the connection with this CID.
    Arrive { conn: u16, header: [u8; 48] },
    /// A unit completed the command with this ticket, with this SCSI status.
    Done { ticket: u64, status: u8 },
}
