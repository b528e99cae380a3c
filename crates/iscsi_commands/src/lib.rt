//! The live commands of a session: found by ticket and by Initiator Task Tag.
//!
//! They are found at once mostly, for any tags. All memory is taken when they are opened.
#![tactic(auto)]

mod closing;
mod entry;
mod live;
mod live_commands;
mod tag_index;

pub use live::{Live, Located, Placed};
pub use live_commands::LiveCommands;
