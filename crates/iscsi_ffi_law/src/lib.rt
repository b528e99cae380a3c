//! The steps of a target's side answer and tell as its rules do: laws of the definitions, which no code is needed for.
#![tactic(auto)]

mod laws;
mod sides;

pub use laws::{
    arrives_law, cleared_law, clears_law, completes_law, done_law, hears_law, joins_law, lists_law,
    loses_law, nexts_law, opened_law, puts_law, stops_law, writes_law,
};
pub use sides::{alike_law, fits_law};
