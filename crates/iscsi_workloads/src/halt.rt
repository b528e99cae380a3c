//! Why a workload stops.

use iscsi_recording::ReplayFault;
use iscsi_session::SessionFault;
use iscsi_threads::LoopFault;
use std::alloc::AllocError;
use thiserror::Error;

/// Why a workload stops before its end.
#[derive(Debug, Drop, Error)]
pub(crate) enum Halt {
    #[error("out of memory")]
    NoMemory,
    #[error("a call was refused")]
    Refused,
}

impl From<AllocError> for Halt {
    fn from(_error: AllocError) -> Halt {
        Halt::NoMemory
    }
}

impl From<SessionFault> for Halt {
    fn from(_fault: SessionFault) -> Halt {
        Halt::Refused
    }
}

impl From<LoopFault> for Halt {
    fn from(_fault: LoopFault) -> Halt {
        Halt::Refused
    }
}

impl From<ReplayFault> for Halt {
    fn from(_fault: ReplayFault) -> Halt {
        Halt::Refused
    }
}

/// What a push that may be refused comes to.
pub(crate) fn fits<T: Drop, E: Drop>(pushed: Result<T, E>) -> Result<T, Halt> {
    pushed.or(Err(Halt::NoMemory))
}
