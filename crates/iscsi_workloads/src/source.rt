//! A reader over bytes in memory.

ghost use Rattle.std.specs.Prelude.{Some, false};

use iscsi_recording::Source;
use std::io;

/// Bytes that reads take from, the first ones first.
#[derive(Drop)]
pub(crate) struct Bytes<'a> {
    left: &'a [u8],
}

impl<'a> Bytes<'a> {
    pub(crate) fn new(bytes: &'a [u8]) -> Bytes<'a> {
        Bytes { left: bytes }
    }
}

impl Source for Bytes<'_> {
    ghost remaining = { λ bytes. Some bytes.left.now };

    ghost has_failed = { λ _. false };

    fn read(&mut self, buf: &mut [u8]) -> io::Result<usize> {
        let count = buf.len().min(self.left.len());
        let (front, left) = self.left.split_at(count);
        let (place, _) = buf.split_at_mut(count);
        place.copy_from_slice(front);
        self.left = left;
        Ok(count)
    }

    fn failed(&self) -> bool {
        false
    }
}
