//! Which rings to look at. No clause rests on it: an item whose bell was lost waits until the loop looks at its ring
//! all the same, as it does after a nap and in turn where it is idle (`Watch`).

ghost use Rattle.std.specs.Prelude.{◌<◌, ◌≤◌, IfSome};
ghost use Rattle.iscsi_threads.specs.private.Watched.{IsMarked};

use std::alloc::Global;
use std::sync::Arc;
use std::sync::atomic::{AtomicU64, Ordering};

/// The most rings that lead to a loop: 64 connections, and the answers of 256 units.
pub(crate) const MOST_RINGS: usize = 320;

/// The number of unit 0's ring. Connections come before it.
pub(crate) const FIRST_UNIT: usize = 64;

const WORDS: usize = 5;

// The word of the bells behind those of the rings.
const ANY: usize = WORDS;

/// A set of numbers below `MOST_RINGS`.
pub(crate) struct Marks {
    words: [u64; WORDS],
}

impl Drop for Marks {
    fn drop(self) {
        let Marks { words: _words } = self;
    }
}

impl Marks {
    /// The empty set.
    pub(crate) fn new() -> Marks {
        Marks { words: [0; WORDS] }
    }

    /// Puts a number in.
    pub(crate) fn set(&mut self, number: usize)
        requires { number < 320 }
        ensures { IsMarked self.old.words self.new.words number }
    {
        self.words[number / 64] |= 1 << (number % 64);
    }

    /// Takes a number out.
    pub(crate) fn clear(&mut self, number: usize)
        requires { number < 320 }
    {
        self.words[number / 64] &= !(1 << (number % 64));
    }

    /// The least number that is not below `first`.
    pub(crate) fn next_from(&self, first: usize) -> Option<usize>
        ensures { IfSome result (λ n. n < 320) }
    {
        if first >= MOST_RINGS {
            return None;
        }
        let word = first / 64;
        let rest = self.words[word] & (u64::MAX << (first % 64));
        if rest != 0 {
            return Some(64 * word + rest.trailing_zeros() as usize);
        }
        for later in word + 1..WORDS {
            let rest = self.words[later];
            if rest != 0 {
                return Some(64 * later + rest.trailing_zeros() as usize);
            }
        }
        None
    }

    /// The least number that is not below `first`, or else the least of all.
    pub(crate) fn next_around(&self, first: usize) -> Option<usize>
        ensures { IfSome result (λ n. n < 320) }
    {
        let found = self.next_from(first);
        if found.is_some() {
            return found;
        }
        self.next_from(0)
    }
}

/// A bit for each ring, set by whoever put something in since the loop last looked. The last word isn't 0 where one of
/// them was set: it is set after the bit, and silenced before the bits are looked at, so none of them is passed over.
pub(crate) struct Bells {
    words: [AtomicU64; WORDS + 1],
}

impl Drop for Bells {
    fn drop(self) {
        let Bells { words: _words } = self;
    }
}

impl Bells {
    /// Bells that are silent.
    pub(crate) fn new() -> Bells {
        Bells {
            words: [
                AtomicU64::new(0),
                AtomicU64::new(0),
                AtomicU64::new(0),
                AtomicU64::new(0),
                AtomicU64::new(0),
                AtomicU64::new(0),
            ],
        }
    }

    /// Marks the rings whose bell rang, and silences them.
    pub(crate) fn hear(&self, marks: &mut Marks) {
        if self.words[ANY].load(Ordering::SeqCst) == 0 {
            return;
        }
        self.words[ANY].store(0, Ordering::SeqCst);
        for word in 0..WORDS {
            if self.words[word].load(Ordering::SeqCst) != 0 {
                marks.words[word] |= self.words[word].swap(0, Ordering::SeqCst);
            }
        }
    }
}

/// The bell of one ring.
#[derive(Drop)]
pub(crate) struct Bell {
    bells: Arc<Bells, Global>,
    number: usize,
    ghost low: { number < 320 },
}

impl Bell {
    /// The bell of the ring with this number.
    pub(crate) fn new(bells: Arc<Bells, Global>, number: usize) -> Bell
        requires { number < 320 }
    {
        Bell { bells, number }
    }

    /// Rings, after something was put into the ring.
    pub(crate) fn ring(&self) {
        let word = &self.bells.words[self.number / 64];
        let any = &self.bells.words[ANY];
        let bit = 1 << (self.number % 64);
        if word.load(Ordering::SeqCst) & bit == 0 {
            word.fetch_or(bit, Ordering::SeqCst);
            if any.load(Ordering::SeqCst) == 0 {
                any.store(1, Ordering::SeqCst);
            }
        }
    }
}
