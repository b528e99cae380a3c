//! The target's side of a session, for a target that isn't written in Rattle: a session and its outbox behind one interface, with
//! a word of the caller's for each request, the actions that the target is told to carry out, the plain form in which C and Rust
//! read them, and the handle that owns it on their side (RFC 7143 sections 4.2.2 and 4.2.3, SAM-5 section 7).
#![tactic(auto)]

mod answer;
mod options;
mod side;

pub use answer::Answer;
pub use options::PlainOptions;
pub use side::{Next, Side};
