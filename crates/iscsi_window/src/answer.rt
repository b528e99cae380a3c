//! What a window answers.

use iscsi_wire::Request;

/// Where a number stands.
#[derive(Clone, Copy, Debug, PartialEq, Eq)]
pub enum Place {
    /// So far from the expected number, which is at 0.
    Inside(u32),
    /// Below the expected number, or above the last admitted one.
    Outside,
}

/// What became of a request that was offered.
#[derive(Clone, Copy, Debug, PartialEq, Eq)]
pub enum Offer {
    /// It is held until its turn.
    Held,
    /// Its number is outside the window.
    Outside,
    /// Its number was received before.
    Duplicate,
}

/// A number whose turn has come.
#[derive(Clone, Copy, Debug, PartialEq, Eq)]
pub struct Turned {
    /// The number, as the wire shows it.
    pub sn: u32,
    /// The request that was held for it. None where it was voided or emptied.
    pub request: Option<Request>,
}
