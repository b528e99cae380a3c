//! The handle by which C and plain Rust keep the target's side of a session: what they give and are told in plain form, and the owner
//! of the side behind a pointer.
#![tactic(auto)]

mod bytes;
mod handle;
mod plain;
mod telling;

pub use handle::Handle;
pub use plain::{PlainAction, PlainNumbers, PlainPdu, PlainTold};
