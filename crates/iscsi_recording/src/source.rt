//! Readers that tell whether a read failed.

ghost use Rattle.std.specs.Prelude.{◌≡◌, ◌||◌, ℕ, List, Option, Bool, is_err};
ghost use Rattle.std.specs.Io.{ReadsAtMost};
ghost use Rattle.std.specs.Io.KnownBytes.{ReadConsumes};

use std::io;

/// A reader that tells whether one of its reads answered an error.
pub trait Source {
    // The bytes that reads will give from here on, where they are known.
    ghost remaining: { Self → Option (List ℕ) };

    // A read has answered an error.
    ghost has_failed: { Self → Bool };

    /// Reads some bytes into the front of `buf`, and answers how many. 0 stands for the end of the input.
    fn read(&mut self, buf: &mut [u8]) -> io::Result<usize>
        ensures bound { ReadsAtMost result buf.new }
        ensures bytes { ReadConsumes (remaining self.old) (remaining self.new) result buf.new }
        ensures failure { has_failed self.new ≡ (has_failed self.old || is_err result) };

    /// Tells whether a read has answered an error.
    fn failed(&self) -> bool
        ensures { result ≡ has_failed self.now };
}
