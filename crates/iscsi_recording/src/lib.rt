//! Recordings: the lines of a text as the connections and events of a session, or the first fault of the text; and the
//! readers and writers that a replay goes through.
#![tactic(auto)]

mod bytes;
mod conns;
mod eight;
mod event_source;
mod events;
mod fault;
mod fronts;
mod line;
mod pairs;
mod parse;
mod reading;
mod recording;
mod sink;
mod source;
mod watched;

pub use conns::Conns;
pub use event_source::{EventSource, Listed, NO_EVENT};
pub use events::{Cursor, Events};
pub use fault::ReplayFault;
pub use reading::read_recording;
pub use recording::Recording;
pub use sink::{Sink, put_all};
pub use source::Source;
pub use watched::Watched;
