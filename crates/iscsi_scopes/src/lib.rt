//! Lines over slots that the caller gives, found by a key: which answer of a line is due.
#![tactic(auto)]

mod scopes;
mod settling;
mod slot_lines;

pub use scopes::Scopes;
