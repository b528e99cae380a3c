//! What an event does.

use iscsi_tasks::Attr;
use iscsi_wire::{Reply, Request};

/// Why an event is passed over.
#[derive(Clone, Copy, Debug, PartialEq, Eq)]
pub enum Why {
    /// The CmdSN is outside the window.
    Outside,
    /// The CmdSN was received already.
    Duplicate,
    /// The session or the connection is closed.
    Closed,
    /// The ticket isn't that of an enabled command.
    Stale,
    /// The request is one that the session doesn't look at.
    Data,
}

/// One effect of an event. Those of an event stand in order.
#[derive(Clone, Copy, Debug, PartialEq, Eq)]
pub enum Effect {
    /// A numbered request executes: its turn has come in CmdSN order.
    Deliver {
        request: Request,
    },
    /// An immediate request executes.
    Immediate {
        request: Request,
    },
    /// An immediate task management function waits for lower numbers.
    Wait {
        request: Request,
    },
    /// A number is received without a request.
    Void {
        sn: u32,
    },
    /// The request that was held at this number is taken out.
    Empty {
        sn: u32,
    },
    /// A command enters the task set of a unit. Tickets count from 1.
    Enter {
        ticket: u64,
        unit: u16,
        attr: Attr,
    },
    /// A command may be started by its unit.
    Enable {
        ticket: u64,
        unit: u16,
    },
    /// A command leaves the task set of its unit.
    Leave {
        ticket: u64,
        unit: u16,
    },
    /// A reply goes out on a connection.
    Send {
        conn: u16,
        stat_sn: u32,
        reply: Reply,
    },
    /// A connection is closed.
    CloseConn {
        conn: u16,
    },
    /// The session is closed.
    CloseSession,
    /// The event is passed over.
    Ignore {
        why: Why,
    },
}

/// ExpCmdSN and MaxCmdSN at the end of an event, as every PDU of the event carries them.
#[derive(Clone, Copy, Debug, PartialEq, Eq)]
pub struct Numbers {
    pub exp: u32,
    pub max: u32,
}
