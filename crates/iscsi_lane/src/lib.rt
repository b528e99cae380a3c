//! The lane: commands that left and owe something, and the answers that wait for them.
#![tactic(auto)]

mod dropping;
mod due;
mod following;
mod holding;
mod lane;
mod lines;
mod settling;
mod stamps;
mod standings;
mod walking;

pub use lane::Lane;
