//! Why a session refuses.

use thiserror::Error;

/// Why a call of this crate is refused. A refused call changes nothing.
#[derive(Clone, Copy, Debug, PartialEq, Eq, Error)]
pub enum SessionFault {
    /// An option is outside its limits, or a CID is given twice.
    #[error("an option is outside its limits, or a connection is given twice")]
    BadOptions,
    /// Memory was refused.
    #[error("out of memory")]
    NoMemory,
    /// A header came on a connection that the session hasn't.
    #[error("the connection is not one of the session")]
    UnknownConnection,
    /// As many events were taken as the options allow.
    #[error("the session has taken all events that its options allow")]
    Exhausted,
}
