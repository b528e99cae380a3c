//! Writers that tell whether a write failed.

ghost use Rattle.std.specs.Prelude.{◌≡◌, ◌||◌, ℕ, List, Option, Bool, true, false, OnOk, OnErr, MatchResult};
ghost use Rattle.std.specs.Io.{WritesAtMost};
ghost use Rattle.std.specs.Io.KnownBytes.{WriteAppends, Appends};
ghost use Rattle.iscsi_recording.specs.Writing.{is_failed_write, AppendsFront};
ghost use Rattle.iscsi_recording.specs.Watched.{inner_of, has_noted};

use crate::fault::ReplayFault;
use crate::watched::Watched;
use std::io;
use std::io::Write;

/// A writer that tells whether one of its writes answered an error, or took nothing of some bytes.
pub trait Sink {
    // The bytes that the writer holds, where they are known.
    ghost contents: { Self → Option (List ℕ) };

    // A write has failed.
    ghost has_failed: { Self → Bool };

    /// Writes some bytes at the front of `buf`, and answers how many.
    fn write(&mut self, buf: &[u8]) -> io::Result<usize>
        ensures bound { WritesAtMost result buf.now }
        ensures bytes { WriteAppends (contents self.old) (contents self.new) result buf.now }
        ensures failure { has_failed self.new ≡ (has_failed self.old || is_failed_write result buf.now) };

    /// Tells whether a write has answered an error, or taken nothing of some bytes.
    fn failed(&self) -> bool
        ensures { result ≡ has_failed self.now };
}

impl<W: Write> Sink for Watched<W> {
    ghost contents = { λ w. W.contents (inner_of w) };

    ghost has_failed = { λ w. has_noted w };

    fn write(&mut self, buf: &[u8]) -> io::Result<usize> {
        let result = self.inner.write(buf);
        match result {
            Ok(0) if !buf.is_empty() => self.failed = true,
            Ok(_) => {}
            Err(_) => self.failed = true,
        }
        result
    }

    fn failed(&self) -> bool {
        self.failed
    }
}

/// Writes all of the bytes. On `Err` a front of them is written.
pub fn put_all<W: Sink>(writer: &mut W, bytes: &[u8]) -> Result<(), ReplayFault>
    requires { W.has_failed writer.old ≡ false }
    ensures ok { OnOk result (Appends (W.contents writer.old) (W.contents writer.new) bytes.now) }
    ensures front { AppendsFront (W.contents writer.old) (W.contents writer.new) bytes.now }
    ensures failed { MatchResult result (λ _. W.has_failed writer.new ≡ false)
        (λ e. (e ≡ ReplayFault.Write) × (W.has_failed writer.new ≡ true)) }
{
    let mut at = 0;
    'writes: while at < bytes.len() {
        match writer.write(&bytes[at..]) {
            Ok(0) => return Err(ReplayFault::Write),
            Ok(n) => at += n,
            Err(_) => return Err(ReplayFault::Write),
        }
    }
    Ok(())
}
