//! The task set of a logical unit (SAM-5): the commands that entered it and didn't leave, and which of them are
//! enabled.
//!
//! A set takes memory when it is opened, and never again.
#![tactic(auto)]

mod chain;
mod cover;
mod fault;
mod linked_front;
mod linked_queue;
mod linked_set;
mod linked_tasks;
mod marks;
mod member;
mod node;
mod numbers;
mod set;
mod task;

pub use cover::Cover;
pub use fault::TaskFault;
pub use linked_set::{Entered, LinkedTaskSet};
pub use set::TaskSet;
pub use task::{Attr, Task};
