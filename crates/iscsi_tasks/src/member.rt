//! A command within its set.

use crate::task::Task;

/// A command of a set.
#[derive(Clone, Copy)]
pub struct Member {
    pub(crate) task: Task,
    /// Whether it was free at some moment since it entered.
    pub(crate) enabled: bool,
    /// Whether its ticket was given as a new one.
    pub(crate) given: bool,
}
