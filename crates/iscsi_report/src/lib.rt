//! The lines of a report: what an event and each of its effects is in text, and a text to which they are put one
//! after another.
#![tactic(auto)]

mod decimal;
mod effect_line;
mod entry_line;
mod event_line;
mod line;
mod lines;
mod memory;
mod report;
mod send_line;
mod tens;
mod vector;

pub use lines::{LONGEST_LINE, Lines, put_effect, put_event};
pub use report::Report;
