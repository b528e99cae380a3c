//! What an outbox keeps of its calls, and what each makes of it: the rules without their history.
#![tactic(auto)]

mod given;
mod sent;

pub use given::{Given, Handed, Pdu};
pub use sent::Sent;
