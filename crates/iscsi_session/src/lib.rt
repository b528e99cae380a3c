//! The core of an iSCSI target's command queue: one session, as a state machine without input or output.
//! An event goes in, and its effects come out, in order.
#![tactic(auto)]

mod fault;
mod kind;
mod log;
mod options;
mod report;
mod session;

pub use fault::SessionFault;
pub use iscsi_rules::{Effect, Effects, Entry, Event, Log, Numbers, Why};
pub use iscsi_tasks::Attr;
pub use log::run;
pub use options::Options;
pub use report::{LONGEST_LINE, put_effect, put_event};
pub use session::Session;
