//! Why an outbox isn't opened.

use thiserror::Error;

/// Why an outbox isn't opened.
#[derive(Clone, Copy, Debug, PartialEq, Eq, Error)]
pub enum OutboxFault {
    /// An option is outside its limits, or a CID is given twice.
    #[error("an option is outside its limits, or a connection is given twice")]
    BadOptions,
    /// Memory was refused.
    #[error("out of memory")]
    NoMemory,
}
