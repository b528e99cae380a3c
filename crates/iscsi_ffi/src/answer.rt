//! What a call answers.

ghost use Rattle.std.specs.Prelude.{◌≡◌};
ghost use Rattle.iscsi_outbox.specs.private.Choices.{refused};
ghost use Rattle.iscsi_ffi.specs.Answers.{code_of, of_put, of_refusal};

use iscsi_ffi_rules::Refusal;
use iscsi_outbox::PutRefusal;

/// What a call answers. One that answers anything but `Done` has changed nothing, but that a connection of which `next` answers
/// `Nothing` or `Over` is told again to be ready, when it may give something.
#[derive(Clone, Copy, Debug, PartialEq, Eq)]
pub enum Answer {
    /// It was done.
    Done,
    /// An option is outside its limits, or a CID stands twice.
    BadOptions,
    /// Memory was refused.
    NoMemory,
    /// The side isn't open.
    NotOpen,
    /// The side is open already.
    AlreadyOpen,
    /// A header has 48 bytes, and this one fewer.
    ShortHeader,
    /// The buffer is too short for any PDU.
    ShortBuffer,
    /// A pointer is null. No call of this crate answers it.
    NullPointer,
    /// Actions of an earlier call wait: they are to be taken first.
    ActionsWait,
    /// The CID is none of the session's.
    UnknownConnection,
    /// The connection hasn't joined, or was lost.
    NotJoined,
    /// As many events were taken as may.
    Exhausted,
    /// No more requests are taken until something goes out or stops.
    Busy,
    /// No command with this ticket was told to start, and is left to complete or to stop.
    Stale,
    /// The connection may not join: it isn't the session's, has joined, is closed or lost.
    CannotJoin,
    /// A PDU of the target's own isn't one that may be put.
    Unfit,
    /// The command of a PDU of the target's own isn't live.
    Gone,
    /// Its connection hasn't joined, is closed or lost.
    Closed,
    /// As many wait on its connection as may.
    Full,
    /// Nothing goes out on the connection now.
    Nothing,
    /// As many PDUs of the connection are handed out and not written as may be.
    Blocked,
    /// Nothing goes out on the connection any more.
    Over,
}

impl Answer {
    /// The number of the answer, from 0 on in the order above.
    #[inline(always)]
    pub fn code(self) -> u32
        ensures { result ≡ code_of self }
    {
        match self {
            Answer::Done => 0,
            Answer::BadOptions => 1,
            Answer::NoMemory => 2,
            Answer::NotOpen => 3,
            Answer::AlreadyOpen => 4,
            Answer::ShortHeader => 5,
            Answer::ShortBuffer => 6,
            Answer::NullPointer => 7,
            Answer::ActionsWait => 8,
            Answer::UnknownConnection => 9,
            Answer::NotJoined => 10,
            Answer::Exhausted => 11,
            Answer::Busy => 12,
            Answer::Stale => 13,
            Answer::CannotJoin => 14,
            Answer::Unfit => 15,
            Answer::Gone => 16,
            Answer::Closed => 17,
            Answer::Full => 18,
            Answer::Nothing => 19,
            Answer::Blocked => 20,
            Answer::Over => 21,
        }
    }

    /// Why a call is refused.
    #[inline(always)]
    pub(crate) fn of_refusal(refusal: Refusal) -> Answer
        ensures { result ≡ of_refusal refusal }
    {
        match refusal {
            Refusal::UnknownConnection => Answer::UnknownConnection,
            Refusal::NotJoined => Answer::NotJoined,
            Refusal::Exhausted => Answer::Exhausted,
            Refusal::Busy => Answer::Busy,
        }
    }

    /// Whether a PDU of the target's own was put, or why not.
    pub(crate) fn of_put(put: Result<(), PutRefusal>) -> Answer
        ensures { result ≡ of_put (refused put) }
    {
        match put {
            Ok(()) => Answer::Done,
            Err(PutRefusal::Unfit) => Answer::Unfit,
            Err(PutRefusal::Gone) => Answer::Gone,
            Err(PutRefusal::Closed) => Answer::Closed,
            Err(PutRefusal::Full) => Answer::Full,
        }
    }
}
