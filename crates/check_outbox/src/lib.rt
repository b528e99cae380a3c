//! Tests of what the body of an outbox is to stand on: that each call succeeds once. They stand here, over their libraries,
//! since a crate with tests is proved twice.
#![tactic(auto)]

#[cfg(test)]
mod ffi_commands;
#[cfg(test)]
mod lane;
#[cfg(test)]
mod links;
#[cfg(test)]
mod requests;
#[cfg(test)]
mod tickets;
#[cfg(test)]
mod tracked;
#[cfg(test)]
mod waits;
