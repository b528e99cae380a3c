//! Why a loop refuses.

use thiserror::Error;

/// Why a call of the loop is refused.
#[derive(Clone, Copy, Debug, PartialEq, Eq, Error)]
pub enum LoopFault {
    /// An option is outside its limits, a CID is given twice, or there isn't one list of headers for each connection.
    #[error("an option is outside its limits, or a connection is given twice")]
    BadOptions,
    /// Memory was refused.
    #[error("out of memory")]
    NoMemory,
    /// The journal has as many events as the options allow.
    #[error("the journal has all events that its options allow")]
    Exhausted,
    /// No thread could be made.
    #[error("no thread could be made")]
    NoThread,
    /// A thread ended before it had posted its list, though none was told to stop. No thread does that.
    #[error("a thread ended before its list was posted")]
    Unposted,
}
