//! The settings of a replay, and the command line that gives them.
#![tactic(auto)]

pub mod command_line;
mod named;
mod settings;

pub use named::Named;
pub use settings::Settings;
