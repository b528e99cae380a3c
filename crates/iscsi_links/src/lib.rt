//! The connections of an outbox: what each handed out, and what of it arrived; how many are busy, and which is the first that takes
//! requests.
#![tactic(auto)]

mod links;

pub use links::Links;
