//! What waits on the connections of a session, in order. What of it is of one command, whether a fenced answer waits that entered
//! before a time, and how many of each kind wait, is known without a search.
#![tactic(auto)]

mod counts;
mod first;
mod slots;
mod waits;

pub use first::{Marks, Response};
pub use waits::Waits;
