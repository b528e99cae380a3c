//! Where the effects of an event go: a session gives them one after another, to whatever takes them.
#![tactic(auto)]

mod sink;

pub use sink::EffectSink;
