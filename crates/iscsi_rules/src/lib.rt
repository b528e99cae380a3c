//! What happens to a session of an iSCSI target, and what must come of it: the types of events and effects, the
//! rules as definitions over the whole history of a session (RFC 7143, SAM-5), and the laws that follow from them.
#![tactic(auto)]

mod deed;
mod effect;
mod entry;
mod event;
mod kind;

pub use deed::{Answer, Deed};
pub use effect::{Effect, Numbers, Why};
pub use entry::{Effects, Entry, Log};
pub use event::Event;
pub use kind::Kind;
