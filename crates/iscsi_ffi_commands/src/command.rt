//! A command as its side keeps it.

use iscsi_tasks::Attr;

/// How far a command has come.
#[derive(Clone, Copy, Debug, PartialEq, Eq)]
pub enum Stage {
    /// In its task set, and not told to start.
    Entered,
    /// The same, and another session's reset takes it out.
    Marked,
    /// Told to start, and in its task set.
    Started,
    /// The same, and told to stop by another session's reset.
    Cleared,
    /// It completed, or was taken out.
    Over,
}

/// What is kept of a command, until its request is forgotten.
#[derive(Clone, Copy, Debug, PartialEq, Eq)]
pub struct Command {
    pub ticket: u64,
    /// The place of its request, from 1 on.
    pub request: u32,
    pub unit: u16,
    pub attr: Attr,
    pub stage: Stage,
}
