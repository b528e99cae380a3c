//! Where each connection of a session stands, by its CID.
#![tactic(auto)]

mod cids;

pub use cids::Cids;
