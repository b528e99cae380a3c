//! When a PDU was handed out.

/// When a PDU was handed out on its connection. What is kept of it is this alone.
#[derive(Clone, Copy, Debug, PartialEq, Eq)]
pub struct Stamp {
    /// The StatSN that it shows, as a number that doesn't wrap.
    pub stat_sn: u64,
    /// How many pings were handed out before it.
    pub pings: u64,
    /// How many PDUs were handed out before it.
    pub place: u64,
}
