//! What a call from C or Rust answers.

ghost use Rattle.std.specs.Prelude.{◌≡◌};
ghost use Rattle.iscsi_host.specs.Answers.{refused_with};

use iscsi_session::SessionFault;

/// What a call answers. A call that answers anything but `Done` has changed nothing.
#[derive(Clone, Copy, Debug, PartialEq, Eq)]
pub enum Answer {
    /// It was done.
    Done,
    /// An option is outside its limits, or a CID stands twice.
    BadOptions,
    /// Memory was refused.
    NoMemory,
    /// The CID is none of the session's.
    UnknownConnection,
    /// The session has taken as many events as its options allow.
    Exhausted,
    /// The session isn't open.
    NotOpen,
    /// The session is open already.
    AlreadyOpen,
    /// The last event had no effect with this index.
    NoEffect,
    /// A header has 48 bytes, and this one fewer.
    ShortHeader,
}

/// The answer of a call that a session refused.
pub(crate) fn answer_to(fault: SessionFault) -> Answer
    ensures { result ≡ refused_with fault }
{
    match fault {
        SessionFault::BadOptions => Answer::BadOptions,
        SessionFault::NoMemory => Answer::NoMemory,
        SessionFault::UnknownConnection => Answer::UnknownConnection,
        SessionFault::Exhausted => Answer::Exhausted,
    }
}
