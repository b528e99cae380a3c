//! The commands of the target's side of a session: by ticket, by the place of their request, and by unit.
#![tactic(auto)]

mod command;
mod commands;

pub use command::{Command, Stage};
pub use commands::Commands;
