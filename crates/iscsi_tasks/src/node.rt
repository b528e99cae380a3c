//! A command in its slot.

ghost use Rattle.std.specs.Prelude.{◌≡◌, ◌≢◌, ◌<◌, length, vec_capacity};
ghost use Rattle.iscsi_tasks.specs.Sets.{is_new};
ghost use Rattle.iscsi_tasks.specs.Chains.{BLANK_NODE, member_of, before_of, after_of, linked_to};

use crate::task::{Attr, Task};

/// The slot that no command has. It stands before the first command and behind the last one.
pub(crate) const ENDS: u16 = 0;

/// What a free slot has in place of the slot before it.
pub(crate) const FREE: u16 = u16::MAX;

/// A command in its slot, and the slots of the commands beside it.
#[derive(Clone, Copy)]
pub(crate) struct Node {
    pub(crate) task: Task,
    /// Whether it was free at some moment since it entered.
    pub(crate) enabled: bool,
    /// Whether its ticket was given as a new one.
    pub(crate) given: bool,
    /// The slot of the next older command.
    pub(crate) before: u16,
    /// The slot of the next younger command. Of a free slot the one that was freed before it.
    pub(crate) after: u16,
}

impl Node {
    /// No command.
    pub(crate) fn blank() -> Node
        ensures { result ≡ BLANK_NODE }
    {
        Node {
            task: Task {
                ticket: 0,
                conn: 0,
                itt: 0,
                attr: Attr::Simple,
                immediate: false,
                pos: 0,
                event: 0,
            },
            enabled: false,
            given: false,
            before: ENDS,
            after: ENDS,
        }
    }

    /// Whether it is enabled and its ticket wasn't given yet.
    pub(crate) fn is_new(&self) -> bool
        ensures { result ≡ is_new (member_of self.now) }
    {
        self.enabled && !self.given
    }
}

/// From now on the second slot stands behind the first one.
#[inline(always)]
pub(crate) fn link(nodes: &mut Vec<Node>, first: u16, second: u16)
    requires first { first < length nodes.old.items }
    requires second { second < length nodes.old.items }
    ensures nodes { nodes.new.items ≡ linked_to nodes.old.items first second }
    ensures capacity { vec_capacity nodes.new ≡ vec_capacity nodes.old }
{
    let nodes = nodes.as_mut_slice();
    nodes[usize::from(first)].after = second;
    nodes[usize::from(second)].before = first;
}

/// From now on this slot, whose node says so already, stands behind the last one and before the end.
#[inline(always)]
#[tactic(auto, using(crate::proofs::ChainLemmas::linked_last))]
pub(crate) fn link_last(nodes: &mut Vec<Node>, last: u16, slot: u16)
    requires last { last < length nodes.old.items }
    requires slot { slot < length nodes.old.items }
    requires apart { last ≢ slot }
    requires before { before_of nodes.old.items slot ≡ last }
    requires after { after_of nodes.old.items slot ≡ 0 }
    ensures nodes { nodes.new.items ≡ linked_to (linked_to nodes.old.items last slot) slot 0 }
    ensures capacity { vec_capacity nodes.new ≡ vec_capacity nodes.old }
{
    let nodes = nodes.as_mut_slice();
    nodes[usize::from(last)].after = slot;
    nodes[usize::from(ENDS)].before = slot;
}
