//! What a target is told to do.

use iscsi_tasks::Attr;

/// Why a command is stopped.
#[derive(Clone, Copy, Debug, PartialEq, Eq)]
pub enum StopReason {
    /// By a task management function of its initiator.
    Aborted,
    /// By a Logout of its initiator.
    LoggedOut,
    /// Its connection was lost.
    Lost,
    /// By a reset of another session.
    Cleared,
}

/// What a target is told to do. A cookie is the word that came with the request.
#[derive(Clone, Copy, Debug, PartialEq, Eq)]
pub enum Action {
    /// The unit starts the command.
    Start {
        ticket: u64,
        unit: u16,
        attr: Attr,
        cookie: u64,
    },
    /// The unit stops the command, and the target says so once it doesn't touch the medium for it any more.
    Stop {
        ticket: u64,
        cookie: u64,
        why: StopReason,
    },
    /// A CLEAR TASK SET (4) or LOGICAL UNIT RESET (5) was executed for a unit that other sessions have, too: the target clears
    /// it there, and says so.
    Reset {
        unit: u16,
        function: u8,
    },
    /// Something may go out on the connection.
    Ready {
        cid: u16,
    },
    /// Nothing goes out on the connection any more: the target closes its transport.
    Close {
        cid: u16,
    },
    /// Nothing of the request, or of the PDU of the target's own, is needed any more.
    Forget {
        cookie: u64,
    },
}
