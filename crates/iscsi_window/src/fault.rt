//! Why a window can't be opened.

use thiserror::Error;

/// Why a window can't be opened.
#[derive(Clone, Copy, Debug, PartialEq, Eq, Error)]
pub enum WindowFault {
    /// The size isn't from 1 to 1024.
    #[error("a window has from 1 to 1024 places")]
    BadSize,
    /// Memory was refused.
    #[error("out of memory")]
    NoMemory,
}
