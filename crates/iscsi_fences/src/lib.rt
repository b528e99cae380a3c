//! The response fence (RFC 7143 section 4.2.2.3) by what waits and what is under way on all connections of a session: a law of the
//! definitions, which no code is needed for.
#![tactic(auto)]

mod laws;

pub use laws::fence_law;
