//! What holds of the log of any events of a session: a law of the definitions, which no code is needed for.
#![tactic(auto)]

mod laws;

pub use laws::session_law;
