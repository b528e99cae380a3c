//! The wire side of an iSCSI target's command queue: serial numbers, the fields of request headers,
//! and the bytes of replies (RFC 1982; RFC 7143 chapter 11; SAM-5 logical unit numbers).
//!
//! No call of this crate refuses, and none takes memory.
#![tactic(auto)]

pub mod function;
mod logical_unit;
mod logout;
pub mod opcode;
mod pdu;
mod reject;
mod reply;
mod request;
mod serial;

pub use function::{Function, FunctionResponse};
pub use logical_unit::unit_of;
pub use logout::{LogoutReason, LogoutResponse};
pub use opcode::Opcode;
pub use pdu::Pdu;
pub use reject::RejectReason;
pub use reply::{NO_TAG, Reply, Sense};
pub use request::Request;
pub use serial::{distance, serial_add, serial_lt};
