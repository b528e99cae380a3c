//! The target's side of a session: a session and its outbox, a word of the caller's for each request, and what the target is told
//! to do. The rules as definitions over the list of calls (RFC 7143 sections 4.2.2 and 4.2.3, SAM-5 section 7), with the types that
//! they share with the code.
#![tactic(auto)]

mod action;
mod laws;
mod refusal;

pub use action::{Action, StopReason};
pub use laws::{needed_law, ready_law, starts_law, words_law};
pub use refusal::Refusal;
