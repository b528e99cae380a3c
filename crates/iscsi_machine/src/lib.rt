//! The rules of a session as a state machine: a law of the definitions, which no code is needed for.
#![tactic(auto)]

mod laws;

pub use laws::machine_law;
