//! The command window of an iSCSI session (RFC 7143 section 4.2.2.1): the numbers that were received and
//! haven't turned, and the requests that are held until it is their turn.
//!
//! A window takes memory when it is opened, and never again.
#![tactic(auto)]

mod answer;
mod event_window;
mod fault;
mod filled_slots;
mod held_request;
mod place_ring;
mod place_tags;
mod places;
mod tags;
mod window;

pub use answer::{Offer, Place, Turned};
pub use event_window::EventWindow;
pub use fault::WindowFault;
pub use held_request::HeldRequest;
pub use window::Window;
