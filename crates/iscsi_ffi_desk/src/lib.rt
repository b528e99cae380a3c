//! What the target's side of a session keeps beside the session: its outbox, the caller's word for each request and how many uses
//! the request has still, and what was told in a call (RFC 7143 sections 4.2.2 and 4.2.3, SAM-5 section 7).
#![tactic(auto)]

mod awake;
mod course;
mod desk;
mod items;

pub use desk::{Desk, DeskOptions};
pub use iscsi_ffi_rules::{Action, Refusal, StopReason};
