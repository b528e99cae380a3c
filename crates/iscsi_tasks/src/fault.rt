//! Why a task set can't be opened.

use thiserror::Error;

/// Why a task set can't be opened.
#[derive(Clone, Copy, Debug, PartialEq, Eq, Error)]
pub enum TaskFault {
    /// The depth isn't from 1 to 1024.
    #[error("a task set holds from 1 to 1024 commands")]
    BadDepth,
    /// Memory was refused.
    #[error("out of memory")]
    NoMemory,
}
