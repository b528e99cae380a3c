//! Which slots of a window's places were filled, a bit for each.

ghost use Rattle.std.specs.Prelude.{◌≡◌, ◌<◌, replicate, slice_index};
ghost use Rattle.iscsi_window.specs.FilledSlots.{IsSlotSet};

use crate::place_tags::{SLOTS, WORD, WORDS};
use std::marker::Model;

/// A bit for each slot, which is set from when the slot's place is filled until it turns. So each place that holds a
/// request has one, and where few numbers are received, their tags are found by the bits.
#[derive(Drop)]
pub(crate) struct FilledSlots {
    words: [u64; WORDS],
}

impl Model for FilledSlots {
    ghost use Rattle.std.specs.Prelude.{◌≡◌, ℕ, List, length};

    ghost Value = { List ℕ };

    ghost view = { λ f. f.words };

    ghost invariant = { λ f. length f.words ≡ 16 };
}

impl FilledSlots {
    /// No place was filled.
    pub(crate) fn new() -> FilledSlots
        ensures { result ≡ replicate 16 0 }
    {
        FilledSlots { words: [0; WORDS] }
    }

    /// The place with this number is filled.
    pub(crate) fn set(&mut self, number: u64)
        ensures { IsSlotSet self.old self.new number 1 }
    {
        self.words[(number % SLOTS / WORD) as usize] |= 1 << (number % WORD);
    }

    /// The place with this number turns.
    pub(crate) fn clear(&mut self, number: u64)
        ensures { IsSlotSet self.old self.new number 0 }
    {
        self.words[(number % SLOTS / WORD) as usize] &= !(1 << (number % WORD));
    }

    /// The bits of the slots of a word.
    pub(crate) fn word(&self, word: usize) -> u64
        requires { word < 16 }
        ensures { result ≡ slice_index self.now word }
    {
        self.words[word]
    }
}
