//! Why a call is refused.

/// Why a call is refused. It changes nothing then.
#[derive(Clone, Copy, Debug, PartialEq, Eq)]
pub enum Refusal {
    /// The CID is none of the session's.
    UnknownConnection,
    /// The connection hasn't joined, or was lost.
    NotJoined,
    /// As many events were taken as may: those that are left are kept back for what has to have its place.
    Exhausted,
    /// No more requests are taken until something goes out or stops.
    Busy,
}
