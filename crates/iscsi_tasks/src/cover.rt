//! The commands that an abort or a logout takes out of a task set.

ghost use Rattle.std.specs.Prelude.{◌≡◌};
ghost use Rattle.iscsi_tasks.specs.Sets.{is_covered};
ghost use Rattle.iscsi_tasks.specs.Counted.{is_below};

use crate::task::Task;

/// Which commands of a task set are covered by an abort or a logout.
#[derive(Clone, Copy, Debug, PartialEq, Eq)]
pub enum Cover {
    /// Every command.
    All,
    /// The commands that came on the connection with this CID.
    Conn(u16),
    /// The commands before a task management function (RFC 7143 section 4.2.3): those of lower number than it, and
    /// the immediate ones of its own number that arrived before it.
    Below {
        /// The function's number less the session's first one.
        pos: i64,
        /// The place of the function's arrival among the session's events.
        event: u64,
    },
}

impl Cover {
    /// Whether the command is covered.
    pub(crate) fn covers(&self, task: &Task) -> bool
        ensures { result ≡ is_covered self.now task.now }
    {
        match *self {
            Cover::All => true,
            Cover::Conn(cid) => task.conn == cid,
            Cover::Below { pos, event } => {
                task.pos < pos || task.immediate && task.pos == pos && task.event < event
            }
        }
    }

    /// Whether they are those before a function with a number below this one.
    pub(crate) fn is_below(&self, number: i64) -> bool
        ensures { result ≡ is_below number self.now }
    {
        match *self {
            Cover::Below { pos, .. } => pos < number,
            _ => false,
        }
    }
}
