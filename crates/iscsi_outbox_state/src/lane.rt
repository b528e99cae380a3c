//! What stands in the lane.

use crate::waiting::SentReply;

/// What an abort or Logout aims at.
#[derive(Clone, Copy, Debug, PartialEq, Eq)]
pub enum Aim {
    /// ABORT TASK: the commands with this tag.
    Tag(u32),
    /// ABORT TASK SET, CLEAR TASK SET, LOGICAL UNIT RESET.
    Unit(u16),
    /// A Logout that closes the connection in this place.
    Conn(u16),
    /// A Logout that closes the session.
    Session,
    /// A Logout that closes nothing.
    Nothing,
}

/// A command that left its task set by an abort or a Logout, and owes something.
#[derive(Clone, Copy, Debug, PartialEq, Eq)]
pub struct Left {
    /// Its own place, from 1 on.
    pub command: u32,
    /// The place of its connection.
    pub conn: u16,
    pub unit: u16,
    pub tag: u32,
    /// Whether its unit may still touch the medium for it.
    pub running: bool,
    /// Whether something of it is under way on its connection.
    pub under_way: bool,
}

/// The answer to an abort or Logout that isn't due yet.
#[derive(Clone, Copy, Debug, PartialEq, Eq)]
pub struct Undue {
    pub reply: SentReply,
    /// The place of the connection that it goes out on.
    pub conn: u16,
    pub aim: Aim,
    /// It answers a numbered request.
    pub numbered: bool,
    /// It closes the connection that it goes out on.
    pub ends: bool,
    /// It waits for other sessions.
    pub uncleared: bool,
}

/// What stands in the lane: in the order of the log.
#[derive(Clone, Copy, Debug, PartialEq, Eq)]
pub enum Standing {
    Left(Left),
    Undue(Undue),
}
