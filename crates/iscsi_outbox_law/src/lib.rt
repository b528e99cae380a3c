//! The steps of an outbox answer as its rules do: laws of the definitions, which no code is needed for.
#![tactic(auto)]

mod laws;

pub use laws::{
    calls_law, clears_law, hears_law, joins_law, loses_law, nexts_law, opened_law, puts_law,
    room_law, steps_law, stops_law, writes_law,
};
