//! Orders of slots. What is kept in slots doesn't move when other things are taken out: what moves is an order, a list of
//! slots.
#![tactic(auto)]

mod order;

pub use order::Order;
