//! The connections of a session: which are open, their StatSNs, and how many of their immediate commands are live.
//!
//! A connection is found at once by its CID. All memory is taken when they are opened.
#![tactic(auto)]

mod connections;

pub use connections::{Connections, MOST_IMMEDIATE};
