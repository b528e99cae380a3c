//! What goes out on the connections of a session, and when: each PDU numbered as it is handed out, and the answer to an abort or
//! Logout when nothing that it takes out runs or is under way any more (RFC 7143 sections 4.2.2 and 4.2.3, SAM-5 section 7).
#![tactic(auto)]

mod bytes;
mod fault;
mod items;
mod lifted;
mod options;
mod outbox;

pub use bytes::header;
pub use fault::OutboxFault;
pub use iscsi_arrivals::Arrivals;
pub use iscsi_outbox_rules::{OwnPdu, PutRefusal};
pub use iscsi_outbox_state::SentReply;
pub use iscsi_outbox_steps::{Given, Handed, Pdu};
pub use iscsi_waiting::Response;
pub use options::OutboxOptions;
pub use outbox::{HandedResponse, Outbox};
