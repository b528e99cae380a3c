//! What a linked set keeps beside its commands, so that it needn't test them all again: a count, and slots of some of
//! them.

ghost use Rattle.std.specs.Prelude.{◌≡◌, ◌<◌, true};
ghost use Rattle.iscsi_tasks.specs.Rules.{is_head_of};
ghost use Rattle.iscsi_tasks.specs.Marked.{is_free_by, is_none_marked, left_by, pushed_by, enabled_by, moved_off};

use crate::node::ENDS;
use crate::task::Attr;

/// A count of a set, and slots of its commands. `ENDS` stands behind all of them.
#[derive(Clone, Copy)]
pub(crate) struct Marks {
    /// How many commands are HEAD OF QUEUE.
    pub(crate) heads: usize,
    /// The oldest ORDERED command.
    pub(crate) ordered: u16,
    /// The commands before this one are enabled.
    pub(crate) dormant: u16,
    /// The commands that are enabled and weren't given are from this one on ..
    pub(crate) new_from: u16,
    /// .. and before this one.
    pub(crate) new_to: u16,
}

impl Marks {
    /// Those of an empty set.
    pub(crate) fn new() -> Marks
        ensures { result ≡ record { heads = 0; ordered = 0; dormant = 0; new_from = 0; new_to = 0 } }
    {
        Marks {
            heads: 0,
            ordered: ENDS,
            dormant: ENDS,
            new_from: ENDS,
            new_to: ENDS,
        }
    }

    /// Whether a command with this attribute is free, when it enters behind `len` others.
    ///
    /// Rules: `free/head-of-queue`, `free/ordered`, `free/simple`.
    pub(crate) fn is_free_behind(&self, len: usize, attr: Attr) -> bool
        ensures { result ≡ is_free_by self.now len attr }
    {
        match attr {
            Attr::Head => true,
            Attr::Ordered => len == 0,
            Attr::Simple => self.heads == 0 && self.ordered == ENDS,
        }
    }

    /// Whether no command is enabled and wasn't given. False tells nothing.
    pub(crate) fn is_none_new(&self) -> bool
        ensures { result ≡ is_none_marked self.now }
    {
        self.new_from == self.new_to
    }

    /// This command is in the last slot from now on.
    // A SIMPLE one that is enabled and given, as most are, changes nothing.
    #[inline(always)]
    pub(crate) fn note_last(&mut self, attr: Attr, enabled: bool, given: bool, slot: u16)
        requires { self.old.heads < 1024 }
        ensures { self.new ≡ pushed_by self.old attr enabled given slot }
    {
        if enabled && given && !attr.is_head() && !attr.is_ordered() {
            return;
        }
        *self = self.with_last(attr, enabled, given, slot);
    }

    /// The marks once this command is in the last slot.
    #[inline(always)]
    fn with_last(self, attr: Attr, enabled: bool, given: bool, slot: u16) -> Marks
        requires { self.heads < 1024 }
        ensures { result ≡ pushed_by self attr enabled given slot }
    {
        let is_new = enabled && !given;
        Marks {
            heads: if attr.is_head() {
                self.heads + 1
            } else {
                self.heads
            },
            ordered: if self.ordered == ENDS && attr.is_ordered() {
                slot
            } else {
                self.ordered
            },
            dormant: if self.dormant == ENDS && !enabled {
                slot
            } else {
                self.dormant
            },
            new_from: if is_new && self.new_from == ENDS {
                slot
            } else {
                self.new_from
            },
            new_to: if is_new { ENDS } else { self.new_to },
        }
    }

    /// The command in this slot has left, behind which `next` stood. The oldest ORDERED one is in slot `ordered` then.
    #[inline(always)]
    pub(crate) fn note_left(&mut self, slot: u16, next: u16, attr: Attr, ordered: u16)
        requires { is_head_of attr ≡ true → 0 < self.old.heads }
        ensures { self.new ≡ left_by self.old slot next attr ordered }
    {
        if attr.is_head() {
            self.heads -= 1;
        }
        self.ordered = ordered;
        move_off(&mut self.dormant, slot, next);
        move_off(&mut self.new_from, slot, next);
        move_off(&mut self.new_to, slot, next);
    }

    /// The marks once the commands before slot `end` are enabled. The new ones are from slot `new_from` on and before
    /// slot `new_to` then.
    pub(crate) fn with_enabled(self, end: u16, new_from: u16, new_to: u16) -> Marks
        ensures { result ≡ enabled_by self end new_from new_to }
    {
        Marks {
            heads: self.heads,
            ordered: self.ordered,
            dormant: end,
            new_from,
            new_to,
        }
    }
}

/// A mark once the command in slot `slot` has left, behind which `next` stood.
#[inline(always)]
pub(crate) fn moved_off(mark: u16, slot: u16, next: u16) -> u16
    ensures { result ≡ moved_off mark slot next }
{
    if mark == slot { next } else { mark }
}

/// Moves a mark as the command in slot `slot` has left, behind which `next` stood. Most stay where they are, and aren't
/// written then.
#[inline(always)]
fn move_off(mark: &mut u16, slot: u16, next: u16)
    ensures { mark.new ≡ moved_off mark.old slot next }
{
    if *mark == slot {
        *mark = next;
    }
}
