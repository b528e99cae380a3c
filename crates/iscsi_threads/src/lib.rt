//! Threads round one session of an iSCSI target: connections post headers, units take jobs and answer them, each by a
//! ring of its own, and one loop steps the session.
//!
//! `open` gives a [`Loop`], a [`Port`] for each connection and a [`UnitPort`] for each unit. A port may be moved into a
//! thread; the loop stays where its turns are. No call of a port or of the loop waits for another thread.
#![tactic(auto)]

mod bell;
mod desk;
mod ends;
mod fault;
mod finish;
mod halt;
mod inlet;
mod job;
mod opening;
mod outlet;
mod port;
mod posting;
mod quiet;
mod serving;
mod session_loop;
mod shared;
mod turn;
mod waiter;
mod working;

pub use fault::LoopFault;
pub use finish::{Ended, Outcome, Unfinished};
pub use job::Job;
pub use opening::open;
pub use port::{Port, PostFault, UnitPort};
pub use serving::{serve, serve_unlogged};
pub use session_loop::Loop;
pub use turn::Turn;
pub use working::UnitWork;
