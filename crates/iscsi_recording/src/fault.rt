//! Why a replay is refused.

ghost use Rattle.std.specs.Prelude.{Some};
ghost use Rattle.iscsi_recording.specs.Faults.{fault_line};

use std::error::Error;
use std::fmt;

/// Why a replay is refused. Lines are counted from 1.
#[derive(Clone, Copy, Debug, PartialEq, Eq)]
pub enum ReplayFault {
    /// This line isn't one of a recording.
    BadLine(u32),
    /// This line has more than 256 bytes.
    LineTooLong(u32),
    /// There are more than 1,048,576 lines.
    TooManyLines,
    /// A read answered an error.
    Read,
    /// Memory was refused.
    NoMemory,
    /// The recording has no connection.
    NoConnection,
    /// A write answered an error, or took nothing.
    Write,
    /// A setting is outside its limits.
    BadSettings,
    /// A thread could not be made.
    NoThread,
    /// The session takes no more events.
    Exhausted,
}

impl fmt::Display for ReplayFault {
    ghost output = { λ e. Some (fault_line e) };

    fn fmt<W: fmt::Write>(&self, f: &mut fmt::Formatter<W>) -> fmt::Result {
        match self {
            ReplayFault::BadLine(line) => {
                write!(f, "iscsi-replay: line {line}: not a line of a recording")
            }
            ReplayFault::LineTooLong(line) => {
                write!(f, "iscsi-replay: line {line}: longer than 256 bytes")
            }
            ReplayFault::TooManyLines => write!(f, "iscsi-replay: more than 1048576 lines"),
            ReplayFault::Read => write!(f, "iscsi-replay: the input could not be read"),
            ReplayFault::NoMemory => write!(f, "iscsi-replay: out of memory"),
            ReplayFault::NoConnection => write!(f, "iscsi-replay: no connection line"),
            ReplayFault::Write => write!(f, "iscsi-replay: the output could not be written"),
            ReplayFault::BadSettings => write!(f, "iscsi-replay: a setting is out of range"),
            ReplayFault::NoThread => write!(f, "iscsi-replay: a worker could not be started"),
            ReplayFault::Exhausted => write!(f, "iscsi-replay: too many events"),
        }
    }
}

impl Error for ReplayFault {}
