//! From which number on functions may cover the commands of a set.

ghost use Rattle.std.specs.Prelude.{◌≡◌};
ghost use Rattle.iscsi_tasks.specs.Counted.{ascends_with};

use crate::task::Task;

/// From which number on functions may cover the commands of a set.
#[derive(Clone, Copy)]
pub(crate) struct Numbers {
    /// The least one of theirs.
    pub(crate) least: i64,
    /// Whether they go up along the set ..
    pub(crate) ascends: bool,
    /// .. and none is above this one then.
    pub(crate) most: i64,
}

/// Whether they go up along a set, once this command has entered behind `len` others, none of whose is above `most` if
/// they go up.
pub(crate) fn ascends_with(ascends: bool, most: i64, len: usize, task: &Task) -> bool
    ensures { result ≡ ascends_with ascends most len task.now }
{
    len == 0 || ascends && most <= task.covered_from()
}
