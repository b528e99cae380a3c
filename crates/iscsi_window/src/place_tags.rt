//! The tags of the places of a window, side by side.

ghost use Rattle.std.specs.Prelude.{◌≡◌, ◌≢◌, ℕ, ◌+◌, ◌-◌, ◌*◌, ◌/◌, ◌^◌, ◌%◌, ◌<◌, ◌≤◌, ◌==◌, false, length, take, drop, replicate, slice_index, slice_set, IfOk};
ghost use Rattle.std.specs.Int.{bit_at};
ghost use Rattle.std.specs.List.{list_any};
ghost use Rattle.iscsi_window.specs.FilledSlots.{NoneTagged};

use crate::filled_slots::FilledSlots;
use std::alloc::{AllocError, Global};
use std::marker::Model;

/// As many as the most places of a window. A place has the slot that its number leaves on division by this one, so
/// that no tag moves as the window turns.
pub(crate) const SLOTS: u64 = 1024;

/// So many slots are a word: each has a bit, and a search passes over all of them at once.
pub(crate) const WORD: u64 = 64;

pub(crate) const WORDS: usize = 16;

/// The last number from which on a whole window's numbers are told apart, as numbers count no further than they can.
const LAST: u64 = u64::MAX - 2048;

/// The tag of the request at each place that holds one. At another place any may stand. Numbers are those of places,
/// counted from the window's first one on.
///
/// The ring of requests is a dozen times as long, and has each tag inside a header. So a search looks here first.
#[derive(Drop)]
pub(crate) struct PlaceTags {
    tags: Vec<u32>,
}

impl Model for PlaceTags {
    ghost use Rattle.std.specs.Prelude.{◌≡◌, ℕ, List, length};

    ghost Value = { List ℕ };

    ghost view = { λ t. t.tags.items };

    ghost invariant = { λ t. length t.tags.items ≡ 1024 };
}

impl PlaceTags {
    /// Tags of places of which none holds a request.
    pub(crate) fn open(alloc: Global) -> Result<PlaceTags, AllocError>
        ensures { IfOk result (λ t. t ≡ replicate 1024 0) }
    {
        let tags = vec![in alloc; 0; SLOTS as usize]?;
        Ok(PlaceTags { tags })
    }

    /// The place with this number gets a request with this tag.
    pub(crate) fn put(&mut self, itt: u32, number: u64)
        ensures { self.new ≡ slice_set self.old (number % 1024) itt }
    {
        self.tags[(number % SLOTS) as usize] = itt;
    }

    /// Whether one of the filled places may have this tag. The first one has number `turned`.
    pub(crate) fn may_be_filled(&self, filled: &FilledSlots, turned: u64, itt: u32) -> bool
        ensures fits { result ≡ false → turned ≤ 2 ^ 64 - 2049 }
        ensures none { result ≡ false → NoneTagged self.now filled.now itt }
    {
        turned > LAST || has_filled(&self.tags, filled, itt)
    }

    /// Whether one of the places of a word may have this tag. The one with this number is of the word.
    pub(crate) fn may_have(&self, number: u64, itt: u32) -> bool
        ensures fits { result ≡ false → number ≤ 2 ^ 64 - 2049 }
        ensures none { result ≡ false →
            (i : ℕ) → i < 64 → slice_index self.now (number % 1024 / 64 * 64 + i) ≢ itt }
    {
        // Where many have the tag the first mostly does.
        number > LAST
            || self.tags[(number % SLOTS) as usize] == itt
            || has_tag(self.word_of(number), itt)
    }

    /// The tags of the word of the place with this number.
    fn word_of(&self, number: u64) -> &[u32]
        ensures tags { result.now ≡ take 64 (drop (number % 1024 / 64 * 64) self.now) }
        ensures len { length result.now ≡ 64 }
    {
        let from = (number % SLOTS / WORD * WORD) as usize;
        &self.tags[from..from + WORD as usize]
    }
}

/// How many places are of one word of slots, from the one with this number on, and `most` at the most.
pub(crate) fn of_one_word(number: u64, most: u32) -> u32
    requires { 0 < most }
    ensures some { 0 < result }
    ensures most { result ≤ most }
    ensures together { number % 64 + result ≤ 64 }
{
    let rest = (WORD - number % WORD) as u32;
    rest.min(most)
}

/// Whether a slot whose bit is set has this tag.
fn has_filled(tags: &[u32], filled: &FilledSlots, itt: u32) -> bool
    requires { length tags.now ≡ 1024 }
    ensures { result ≡ false → NoneTagged tags.now filled.now itt }
{
    for word in 0..WORDS {
        let from = word * WORD as usize;
        let of_word = &tags[from..from + WORD as usize];
        if has_tag_at(of_word, filled.word(word), itt) {
            return true;
        }
    }
    false
}

/// Whether one of the tags is this one, of those whose bit is set.
fn has_tag_at(tags: &[u32], bits: u64, itt: u32) -> bool
    requires { length tags.now ≡ 64 }
    ensures { result ≡ false → (i : ℕ) → i < 64 → bit_at bits i ≡ 1 → slice_index tags.now i ≢ itt }
{
    let mut left = bits;
    'bits: while left != 0 {
        let lowest = left.trailing_zeros();
        if tags[lowest as usize] == itt {
            return true;
        }
        left &= !(1u64 << lowest);
    }
    false
}

/// Whether one of the tags is this one. It doesn't stop at the first: so it looks at several at a time.
fn has_tag(tags: &[u32], itt: u32) -> bool
    ensures { result ≡ list_any (λ t. t == itt) tags.now }
{
    let mut found = false;
    for tag in tags {
        found |= *tag == itt;
    }
    found
}
