//! What an outbox keeps, without its history: what waits on connections, what left and owes, and the answers that wait for that.
//! The types, and what becomes of them at each call.
#![tactic(auto)]

mod lane;
mod waiting;

pub use lane::{Aim, Left, Standing, Undue};
pub use waiting::{Content, Front, SentReply, Waiting};
