//! What one connection handed out, and what of it is known to have arrived (RFC 7143 sections 4.2.2.2, 11.18 and 11.19):
//! counts alone, and no queue.
#![tactic(auto)]

mod arrivals;
mod laws;
mod numbers;
mod stamp;

pub use arrivals::Arrivals;
pub use laws::{last_law, stamp_law};
pub use stamp::Stamp;
