//! Tests of a target's side of a session, of the handle by which C keeps it, and of what it keeps beside its session: that each call
//! succeeds once. They stand here,
//! over their libraries, since a crate with tests is proved twice.
#![tactic(auto)]

#[cfg(test)]
mod desk;
#[cfg(test)]
mod handle;
#[cfg(test)]
mod side;
