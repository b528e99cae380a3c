//! A command as its task set sees it.

ghost use Rattle.std.specs.Prelude.{◌≡◌};
ghost use Rattle.iscsi_tasks.specs.Rules.{is_head_of, is_ordered_of};
ghost use Rattle.iscsi_tasks.specs.Sets.{ticket_if};
ghost use Rattle.iscsi_tasks.specs.Counted.{covered_from};

/// The task attribute of a command (SAM-5 section 8).
#[derive(Clone, Copy, Debug, PartialEq, Eq)]
pub enum Attr {
    /// SIMPLE: it waits for older ORDERED commands, and for HEAD OF QUEUE ones.
    Simple,
    /// ORDERED: it waits for every older command, and for HEAD OF QUEUE ones.
    Ordered,
    /// HEAD OF QUEUE: it waits for nothing.
    Head,
}

impl Attr {
    pub(crate) fn is_head(self) -> bool
        ensures { result ≡ is_head_of self }
    {
        match self {
            Attr::Head => true,
            _ => false,
        }
    }

    pub(crate) fn is_ordered(self) -> bool
        ensures { result ≡ is_ordered_of self }
    {
        match self {
            Attr::Ordered => true,
            _ => false,
        }
    }
}

/// A command that enters a task set.
#[derive(Clone, Copy, Debug, PartialEq, Eq)]
pub struct Task {
    /// Its name within the session. Tickets go up in the order of entering.
    pub ticket: u64,
    /// The CID of the connection on which it came.
    pub conn: u16,
    /// Its Initiator Task Tag.
    pub itt: u32,
    /// Its task attribute.
    pub attr: Attr,
    /// Whether it was sent for immediate delivery (RFC 7143 section 4.2.2.1).
    pub immediate: bool,
    /// Its command number less the session's first one.
    pub pos: i64,
    /// The place of its arrival among the session's events.
    pub event: u64,
}

impl Task {
    /// From which number on functions may cover it: from its own on where it is immediate, since one of that number may
    /// have arrived later.
    pub(crate) fn covered_from(&self) -> i64
        ensures { result ≡ covered_from self.now }
    {
        if self.immediate {
            self.pos
        } else {
            self.pos.saturating_add(1)
        }
    }
}

/// The ticket of a command, if it is told.
pub(crate) fn ticket_if(told: bool, task: &Task) -> Option<u64>
    ensures { result ≡ ticket_if told task.now }
{
    if told { Some(task.ticket) } else { None }
}
