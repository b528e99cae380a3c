//! A command that is kept.

ghost use Rattle.std.specs.Prelude.{◌≡◌};
ghost use Rattle.iscsi_tracked.specs.Tracked.{as_command};

use iscsi_arrivals::Stamp;

/// How far a command has come.
#[derive(Clone, Copy, Debug, PartialEq, Eq)]
pub enum Phase {
    /// In its task set, not enabled.
    Dormant,
    /// Enabled by the event that is taken now: its unit wasn't told yet.
    Fresh,
    /// Enabled by an earlier event.
    Started,
    /// Taken out by an abort or a Logout after its start, and not stopped since.
    Running,
    /// Taken out, and not running.
    Gone,
}

/// A command as it enters a task set.
#[derive(Clone, Copy, Debug, PartialEq, Eq)]
pub struct Entering {
    pub ticket: u64,
    /// The place of its connection, from 0 on.
    pub conn: u16,
    pub unit: u16,
    /// Its Initiator Task Tag.
    pub tag: u32,
    /// Whether its request had a number of its own.
    pub numbered: bool,
}

/// What is kept of a command.
#[derive(Clone, Copy, Debug, PartialEq, Eq)]
pub struct Command {
    pub ticket: u64,
    /// Its own place, from 1 on.
    pub place: u32,
    /// The place of its connection, from 0 on.
    pub conn: u16,
    pub unit: u16,
    /// Its Initiator Task Tag.
    pub tag: u32,
    /// Whether its request had a number of its own.
    pub numbered: bool,
    pub phase: Phase,
    /// The stamp of the last PDU of it that was handed out, while it may be under way.
    pub last_out: Option<Stamp>,
}

/// No command.
pub(crate) const BLANK: Command = Command {
    ticket: 0,
    place: 0,
    conn: 0,
    unit: 0,
    tag: 0,
    numbered: false,
    phase: Phase::Gone,
    last_out: None,
};

impl Entering {
    /// What is kept of it in this place: it isn't enabled yet, and nothing is under way.
    #[inline(always)]
    pub(crate) fn at(self, place: u32) -> Command
        ensures { result ≡ as_command self place }
    {
        Command {
            ticket: self.ticket,
            place,
            conn: self.conn,
            unit: self.unit,
            tag: self.tag,
            numbered: self.numbered,
            phase: Phase::Dormant,
            last_out: None,
        }
    }
}
