//! Tests of the session's public calls. They stand here, over its library, since a crate with tests is proved twice.
#![tactic(auto)]

#[cfg(test)]
mod log;
#[cfg(test)]
mod report;
#[cfg(test)]
mod steps;
