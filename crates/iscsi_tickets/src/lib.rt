//! Values by ticket: tickets ascend as values enter, and are taken out in any order.
#![tactic(auto)]

mod kept;
mod tickets;

pub use tickets::Tickets;
