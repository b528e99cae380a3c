//! Many lists over one set of slots: a value stays in its slot while it moves from list to list.
#![tactic(auto)]

mod link;
mod links;
mod lists;

pub use lists::Lists;
