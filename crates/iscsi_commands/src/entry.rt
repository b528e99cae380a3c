//! What is kept of a command that entered.

ghost use Rattle.std.specs.Prelude.{◌≡◌, ◌<◌, length};
ghost use Rattle.iscsi_commands.specs.Log.{entry_at, group_of};

use crate::live::Live;

/// In so many groups tags and tickets are parted.
pub(crate) const GROUPS: usize = 4096;

/// A command that entered, and whether it is live still.
#[derive(Clone, Copy)]
pub(crate) struct Entry {
    pub(crate) command: Live,
    /// The slot that it has in its task set, as the set told it.
    pub(crate) slot: u16,
    pub(crate) is_live: bool,
}

/// The entry at a place of the log.
#[inline(always)]
pub(crate) fn entry_at(log: &[Entry], k: usize) -> &Entry
    requires { k < length log.now }
    ensures { result.now ≡ entry_at log.now k }
{
    &log[k]
}

/// The group of a tag: the upper twelve bits of its product with an odd number near 2^32 by the golden ratio (Fibonacci
/// hashing). Tags that follow each other are spread evenly: 2,584 in a row are each in a group of its own.
#[inline(always)]
pub(crate) fn group_of(itt: u32) -> usize
    ensures { result ≡ group_of itt }
{
    (itt.wrapping_mul(0x9e37_79b9) >> 20) as usize
}

/// The group of a ticket.
#[inline(always)]
pub(crate) fn hint_of(ticket: u64) -> usize
    ensures { result < 4096 }
{
    (ticket % GROUPS as u64) as usize
}
