//! Readers and writers of the standard library, with a note of their failures.

ghost use Rattle.std.specs.Prelude.{◌≡◌, false};
ghost use Rattle.iscsi_recording.specs.Watched.{inner_of, has_noted};

use crate::source::Source;
use std::io;
use std::io::Read;

/// A reader or a writer of the standard library, with a note of its failures.
#[derive(Drop)]
pub struct Watched<T> {
    pub(crate) inner: T,
    pub(crate) failed: bool,
}

impl<T> Watched<T> {
    /// Watches a reader or a writer, of which no failure is noted yet.
    pub fn new(inner: T) -> Watched<T>
        ensures inner { inner_of result ≡ inner }
        ensures fresh { has_noted result ≡ false }
    {
        Watched {
            inner,
            failed: false,
        }
    }
}

impl<R: Read> Source for Watched<R> {
    ghost remaining = { λ w. R.remaining (inner_of w) };

    ghost has_failed = { λ w. has_noted w };

    fn read(&mut self, buf: &mut [u8]) -> io::Result<usize> {
        let result = self.inner.read(buf);
        if result.is_err() {
            self.failed = true;
        }
        result
    }

    fn failed(&self) -> bool {
        self.failed
    }
}
