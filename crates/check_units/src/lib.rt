//! Tests of the public calls of the wire, the window, the task sets, the live commands and the lists. They stand here, over
//! their libraries, since a crate with tests is proved twice.
#![tactic(auto)]

#[cfg(test)]
mod linked_calls;
#[cfg(test)]
mod linked_set;
#[cfg(test)]
mod lists;
#[cfg(test)]
mod live_commands;
#[cfg(test)]
mod logical_unit;
#[cfg(test)]
mod plain_set;
#[cfg(test)]
mod reply;
#[cfg(test)]
mod request;
#[cfg(test)]
mod serial;
#[cfg(test)]
mod task_set;
#[cfg(test)]
mod window;
