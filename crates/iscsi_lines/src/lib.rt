//! Lines of commands that left and owe something, and of the answers that wait for them: which answer is due.
#![tactic(auto)]

mod item;

pub use item::{Item, Owing};
