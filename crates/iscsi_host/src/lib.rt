//! A session as a storage target keeps it that isn't written in Rattle: a session with the effects of its last event,
//! the plain form in which C and Rust read them, and the handle that owns it on their side.
#![tactic(auto)]

mod answer;
mod handle;
mod host;
mod options;
mod plain;

pub use answer::Answer;
pub use handle::Handle;
pub use host::Host;
pub use options::{PlainConnection, PlainOptions};
pub use plain::PlainEffect;
