//! The commands that an outbox keeps: those that are live, and those that left and owe something. Each has a place of its own, and
//! each connection a trail of those of which something is under way there.
#![tactic(auto)]

mod command;
mod tracked;

pub use command::{Command, Entering, Phase};
pub use tracked::Tracked;
