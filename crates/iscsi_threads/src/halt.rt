//! Why the threads of a session end before their time.

ghost use Rattle.std.specs.Prelude.{◌≡◌};
ghost use Rattle.iscsi_threads.specs.private.Halts.{fault_named};

use crate::fault::LoopFault;
use std::alloc::AllocError;

/// A thread that is wanting.
#[derive(Drop)]
pub(crate) enum ThreadLost {
    /// It couldn't be made.
    Refused,
    /// It was stopped before its list was posted, though nothing tells one to stop before.
    Stopped,
}

/// Why the threads of a session end before all was answered and before the journal is full.
#[derive(Drop)]
pub(crate) enum Halt {
    /// Memory was refused.
    Memory(AllocError),
    /// A thread is wanting.
    Thread(ThreadLost),
}

/// The fault that a caller is told.
pub(crate) fn fault_of(halt: Halt) -> LoopFault
    ensures { result ≡ fault_named halt }
{
    match halt {
        Halt::Memory(_) => LoopFault::NoMemory,
        Halt::Thread(ThreadLost::Refused) => LoopFault::NoThread,
        Halt::Thread(ThreadLost::Stopped) => LoopFault::Unposted,
    }
}

impl From<AllocError> for Halt {
    ghost use Rattle.std.specs.Prelude.{◌≡◌};
    ghost use Rattle.iscsi_threads.specs.declared.halt.Halt.{Halt};

    ghost from_gives = { λ error halt. halt ≡ Halt.Memory error };

    fn from(error: AllocError) -> Halt {
        Halt::Memory(error)
    }
}

impl From<ThreadLost> for Halt {
    ghost use Rattle.std.specs.Prelude.{◌≡◌};
    ghost use Rattle.iscsi_threads.specs.declared.halt.Halt.{Halt};

    ghost from_gives = { λ lost halt. halt ≡ Halt.Thread lost };

    fn from(lost: ThreadLost) -> Halt {
        Halt::Thread(lost)
    }
}
