//! Why the program stops.

use iscsi_recording::ReplayFault;
use std::alloc::AllocError;
use thiserror::Error;

/// Why the program stops before the end of its input.
#[derive(Debug, Drop, Error)]
pub(crate) enum Halt {
    #[error("out of memory")]
    NoMemory,
    #[error("not a case")]
    BadCase,
    #[error("not a recording")]
    BadRecording,
    #[error("a call was refused")]
    Refused,
    #[error("another report by a handle that was closed and opened again")]
    OtherReport,
}

impl From<AllocError> for Halt {
    fn from(_error: AllocError) -> Halt {
        Halt::NoMemory
    }
}

impl From<ReplayFault> for Halt {
    fn from(_fault: ReplayFault) -> Halt {
        Halt::BadRecording
    }
}
