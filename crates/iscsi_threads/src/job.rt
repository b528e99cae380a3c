//! What a unit is to execute, and what it answers.

use iscsi_session::Attr;

/// A command that is enabled, for its unit to execute. It can't be copied, and no other code makes one.
#[derive(Debug, Drop)]
pub struct Job {
    pub(crate) ticket: u64,
    pub(crate) unit: u16,
    pub(crate) itt: u32,
    pub(crate) attr: Attr,
    pub(crate) cdb: [u8; 16],
}

/// A unit's answer: the ticket of the command, and its status.
pub(crate) type Answer = (u64, u8);

impl Job {
    ghost use Rattle.std.specs.Prelude.{◌≡◌};

    /// The ticket: how many commands of the session had entered a task set when this one entered, itself included.
    pub fn ticket(&self) -> u64
        ensures { result ≡ self.now.ticket }
    {
        self.ticket
    }

    /// The logical unit, from 0.
    pub fn unit(&self) -> u16
        ensures { result ≡ self.now.unit }
    {
        self.unit
    }

    /// The initiator task tag of the command (RFC 7143 section 11.3).
    pub fn itt(&self) -> u32
        ensures { result ≡ self.now.itt }
    {
        self.itt
    }

    /// The task attribute with which the command entered (SAM-5).
    pub fn attr(&self) -> Attr
        ensures { result ≡ self.now.attr }
    {
        self.attr
    }

    /// The command descriptor block: 16 bytes of the command's header (RFC 7143 section 11.3.5).
    pub fn cdb(&self) -> [u8; 16]
        ensures { result ≡ self.now.cdb }
    {
        self.cdb
    }
}
