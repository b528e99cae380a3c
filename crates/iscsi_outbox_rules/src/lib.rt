//! What goes out of a session of an iSCSI target, and when: the rules as definitions over the list of calls to an outbox
//! (RFC 7143 sections 4.2.2 and 4.2.3, SAM-5 section 7), with the types that they share with the code.
#![tactic(auto)]

mod laws;
mod own_pdu;

pub use laws::{
    closed_law, deadlock_law, fence_law, numbers_law, once_law, order_law, promises_law, room_law,
    silent_law, still_law,
};
pub use own_pdu::{OwnPdu, PutRefusal};
