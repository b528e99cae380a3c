//! Of each group of tags: how many held requests have one, and a number below which none is held.

ghost use Rattle.std.specs.Prelude.{◌≡◌, ℕ, ◌%◌, ◌<◌, ◌==◌, replicate, slice_index, Some, IfOk};
ghost use Rattle.iscsi_window.specs.Tags.{group_of, raised, lowered, occupied, vacated};

use crate::place_ring::Received;
use std::alloc::{AllocError, Global};
use std::marker::Model;

/// A group has the tags that leave the same remainder on division by this number.
///
/// It is a prime, since initiators count their tags up in different bytes: some write the lowest byte first. The
/// low bits alone would then put all tags into one group. It is some times the most places of a window, so that a
/// full one leaves most groups empty.
const GROUPS: u32 = 4093;

/// A counter for each group.
#[derive(Drop)]
pub(crate) struct TagCounts {
    counts: Vec<u16>,
}

impl Model for TagCounts {
    ghost use Rattle.std.specs.Prelude.{◌≡◌, ℕ, List, length};

    ghost Value = { List ℕ };

    ghost view = { λ t. t.counts.items };

    ghost invariant = { λ t. length t.counts.items ≡ 4093 };
}

impl TagCounts {
    /// Counters that are all 0.
    pub(crate) fn open(alloc: Global) -> Result<TagCounts, AllocError>
        ensures { IfOk result (λ t. t ≡ replicate 4093 0) }
    {
        let counts = vec![in alloc; 0; GROUPS as usize]?;
        Ok(TagCounts { counts })
    }

    /// Whether the tag's counter is 0.
    pub(crate) fn is_none(&self, itt: u32) -> bool
        ensures { result ≡ (slice_index self.now (itt % 4093) == 0) }
    {
        self.counts[(itt % GROUPS) as usize] == 0
    }

    /// Counts a request that a place gets, with this tag.
    pub(crate) fn raise(&mut self, itt: u32)
        requires { (g : ℕ) → slice_index self.old g < 65535 }
        ensures { self.new ≡ raised self.old (Some (itt % 4093)) }
    {
        self.counts[(itt % GROUPS) as usize] += 1;
    }

    /// Takes back from the count what a place had, if that is a request.
    pub(crate) fn lower(&mut self, received: &Received)
        requires { (g : ℕ) → group_of received.now ≡ Some g → 0 < slice_index self.old g }
        ensures { self.new ≡ lowered self.old (group_of received.now) }
    {
        if let Some(Some(held)) = received {
            self.counts[(held.request.itt() % GROUPS) as usize] -= 1;
        }
    }
}

/// A bound for each group. Numbers are those of places, counted from the window's first one on.
#[derive(Drop)]
pub(crate) struct TagBounds {
    bounds: Vec<u64>,
}

impl Model for TagBounds {
    ghost use Rattle.std.specs.Prelude.{◌≡◌, ℕ, List, length};

    ghost Value = { List ℕ };

    ghost view = { λ t. t.bounds.items };

    ghost invariant = { λ t. length t.bounds.items ≡ 4093 };
}

impl TagBounds {
    /// Bounds that are all 0.
    pub(crate) fn open(alloc: Global) -> Result<TagBounds, AllocError>
        ensures { IfOk result (λ t. t ≡ replicate 4093 0) }
    {
        let bounds = vec![in alloc; 0; GROUPS as usize]?;
        Ok(TagBounds { bounds })
    }

    /// The bound of the tag's group.
    pub(crate) fn of(&self, itt: u32) -> u64
        ensures { result ≡ slice_index self.now (itt % 4093) }
    {
        self.bounds[(itt % GROUPS) as usize]
    }

    /// A place with this number gets a request with this tag: the only one of its group, or one more.
    pub(crate) fn occupy(&mut self, itt: u32, number: u64, is_only: bool)
        ensures { self.new ≡ occupied self.old (Some (itt % 4093)) number is_only }
    {
        let bound = &mut self.bounds[(itt % GROUPS) as usize];
        *bound = if is_only { number } else { number.min(*bound) };
    }

    /// The place with this number gives up what it had. Where that was the first request of its group, the next one
    /// has a greater number.
    pub(crate) fn vacate(&mut self, received: &Received, number: u64)
        ensures { self.new ≡ vacated self.old (group_of received.now) number }
    {
        if let Some(Some(held)) = received {
            let bound = &mut self.bounds[(held.request.itt() % GROUPS) as usize];
            if *bound == number {
                *bound = number.saturating_add(1);
            }
        }
    }
}
