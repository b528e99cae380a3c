//! A request that a window holds.

use iscsi_wire::Request;

/// A request that is held until its turn, with the event in which it arrived.
#[derive(Clone, Copy, Debug, PartialEq, Eq)]
pub struct HeldRequest {
    /// The request.
    pub request: Request,
    /// The event in which it arrived, as its caller counts events.
    pub event: u64,
}
