//! A node of the chain, and how nodes are linked.

ghost use Rattle.std.specs.Prelude.{◌≡◌, ◌<◌, length};
ghost use Rattle.iscsi_lists.specs.Linking.{AreInside, linked_to, moved_before};

/// A node of the chain in which all slots and heads stand, and the nodes beside it.
#[derive(Clone, Copy)]
pub(crate) struct Link {
    pub(crate) before: u32,
    pub(crate) after: u32,
    /// The list that its slot is in, unless it is free.
    pub(crate) list: u32,
}

/// From now on the second node stands behind the first one.
#[inline(always)]
fn join(nodes: &mut [Link], first: u32, second: u32)
    requires first { first < length nodes.old }
    requires second { second < length nodes.old }
    ensures { nodes.new ≡ linked_to nodes.old first second }
{
    nodes[first as usize].after = second;
    nodes[second as usize].before = first;
}

/// Takes a node out of its place and puts it in front of another one, as one of a list.
#[inline(always)]
pub(crate) fn move_before(nodes: &mut Vec<Link>, slot: u32, target: u32, list: u32)
    requires slot { slot < length nodes.old.items }
    requires target { target < length nodes.old.items }
    requires inside { AreInside nodes.old.items }
    ensures { nodes.new.items ≡ moved_before nodes.old.items slot target list }
{
    move_within(nodes, slot, target, list);
}

/// The same in a slice, which lies where it lies, whatever is written into it.
#[inline(always)]
fn move_within(nodes: &mut [Link], slot: u32, target: u32, list: u32)
    requires slot { slot < length nodes.old }
    requires target { target < length nodes.old }
    requires inside { AreInside nodes.old }
    ensures { nodes.new ≡ moved_before nodes.old slot target list }
{
    let Link { before, after, .. } = nodes[slot as usize];
    join(nodes, before, after);
    let last = nodes[target as usize].before;
    join(nodes, last, slot);
    join(nodes, slot, target);
    nodes[slot as usize].list = list;
}
