//! A line for each tag in use: for the commands and answers that share one, found by a binary search.
#![tactic(auto)]

mod tag_line;
mod tags;

pub use tag_line::TagLine;
pub use tags::Tags;
