//! What is kept of an initiator's requests above a session: the caller's cookie of each and how many uses it has, the numbers
//! under which requests are held, the functions and the replies that wait, and what isn't written yet.
#![tactic(auto)]

mod cookies;
mod functions;
mod numbers;
mod replies;
mod unwritten;

pub use cookies::Cookies;
pub use functions::WaitingFunctions;
pub use numbers::HeldNumbers;
pub use replies::WaitingReplies;
pub use unwritten::Unwritten;
