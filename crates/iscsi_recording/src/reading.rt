//! Reading a recording in pieces.

ghost use Rattle.std.specs.Prelude.{◌≡◌, ◌≢◌, ◌↔◌, ◌+◌, ◌≤◌, ℕ, length, List, [], ◌∷◌, ◌++◌, ◌<◌, true, false, IfSome, IfErr, OnOk, OnErr, IfOk, IsErrOf, MatchResult, Ok, vec_len};
ghost use Rattle.std.specs.List.{list_any};
ghost use Rattle.iscsi_recording.specs.Recorded.{view, read_line, read_end, read_of, Fails, Steps, IsSound};
ghost use Rattle.std.specs.Io.KnownBytes.{IsAtEnd};
ghost use Rattle.iscsi_recording.specs.Reading.{is_end, IsReading, IsSoundIn, left_of, weight, HasTakenCommon, ReadsOn, Answers};
ghost use Rattle.iscsi_recording.specs.Order.{ReadsInOrder};

use crate::fault::ReplayFault;
use crate::recording::{MAX_LINE, MAX_LINES, Recording};
use crate::source::Source;
use memchr::memchr;
use std::alloc::{AllocError, Global};

/// How many bytes are asked of the reader at once.
const CHUNK: usize = 65536;

/// A recording of which a front has been read.
#[derive(Drop)]
struct Reading {
    /// The number of the line that comes next.
    line: u32,
    /// What has come of that line, where it began in a chunk before.
    pending: Vec<u8>,
    so_far: Recording,
}

impl Reading {
    fn new(alloc: Global) -> Reading
        ensures ready { IsReading result }
        ensures nothing { (bytes : List ℕ) → left_of result bytes ≡ read_of bytes }
    {
        Reading {
            line: 1,
            pending: Vec::new(alloc),
            so_far: Recording::new(alloc),
        }
    }

    /// Keeps the front of a line, of which the rest comes yet.
    #[tactic(auto, unfolding(crate::specs::Recorded::read_line))]
    fn keep(&mut self, front: &[u8]) -> Result<(), ReplayFault>
        requires ready { IsReading self.old }
        requires one { list_any is_end front.now ≡ false }
        ensures ready { OnOk result (IsReading self.new) }
        ensures ok { OnOk result (self.new.pending.items ≡ self.old.pending.items ++ front.now) }
        ensures line { self.new.line ≡ self.old.line }
        ensures so_far { self.new.so_far ≡ self.old.so_far }
        // However the line goes on, this is its fault.
        ensures err { IfErr result (λ e. (0 < length front.now)
            × ((x : List ℕ) → Fails e
            (read_line self.old.line (view self.old.so_far) ((self.old.pending.items ++ front.now) ++ x)))) }
    {
        if front.is_empty() {
            return Ok(());
        }
        if self.line > MAX_LINES {
            return Err(ReplayFault::TooManyLines);
        }
        if front.len() > MAX_LINE - self.pending.len() {
            return Err(ReplayFault::LineTooLong(self.line));
        }
        match self.pending.extend_from_slice(front) {
            Ok(()) => Ok(()),
            Err(_) => Err(ReplayFault::NoMemory),
        }
    }

    /// Takes the line that `last` completes. It is copied only where it began in a chunk before.
    fn complete(&mut self, last: &[u8]) -> Result<(), ReplayFault>
        requires ready { IsReading self.old }
        requires one { list_any is_end last.now ≡ false }
        ensures step { Steps result (view self.new.so_far)
            (read_line self.old.line (view self.old.so_far) (self.old.pending.items ++ last.now)) }
        ensures line { OnOk result (self.new.line ≡ self.old.line) }
        ensures pending { OnOk result (self.new.pending.items ≡ []) }
    {
        if self.pending.is_empty() {
            return self.so_far.take_line(self.line, last);
        }
        self.keep(last)?;
        self.so_far.take_line(self.line, &self.pending)?;
        self.pending.clear();
        Ok(())
    }

    /// Takes the line that `last` and a line end complete.
    #[inline(never)]
    fn end_line(&mut self, last: &[u8]) -> Result<(), ReplayFault>
        requires ready { IsReading self.old }
        requires one { list_any is_end last.now ≡ false }
        ensures ready { OnOk result (IsReading self.new) }
        ensures ok { OnOk result ((rest : List ℕ) → left_of self.new rest ≡ left_of self.old (last.now ++ 10 ∷ rest)) }
        ensures err { IfErr result (λ e. (rest : List ℕ) → Fails e (left_of self.old (last.now ++ 10 ∷ rest))) }
        ensures more { OnOk result (weight self.old + length last.now + 1 ≤ weight self.new) }
        ensures fresh { OnOk result (self.new.pending.items ≡ []) }
    {
        self.complete(last)?;
        self.line += 1;
        Ok(())
    }

    /// Takes the first line of these bytes with its end, where it is a whole event in a common form, and tells how many
    /// bytes it has with its end. Otherwise it answers 0: whatever is wrong with a line is left to `end_line`. Nothing of the
    /// line came in a chunk before.
    #[inline(always)]
    fn take_common(&mut self, left: &[u8]) -> usize
        requires ready { IsReading self.old }
        requires fresh { self.old.pending.items ≡ [] }
        ensures taken { 0 < result → HasTakenCommon self.old self.new left.now result }
        ensures not { result ≡ 0 → self.new ≡ self.old }
    {
        if self.line > MAX_LINES {
            return 0;
        }
        let size = self.so_far.take_first(left);
        if size == 0 {
            return 0;
        }
        self.line += 1;
        size
    }

    /// Takes each line that ends in the chunk, and keeps the front of the next.
    fn take_chunk(&mut self, chunk: &[u8]) -> Result<(), ReplayFault>
        requires { IsReading self.old }
        ensures ready { OnOk result (IsReading self.new) }
        ensures ok { OnOk result ((rest : List ℕ) → left_of self.new rest ≡ left_of self.old (chunk.now ++ rest)) }
        ensures err { IfErr result (λ e. (rest : List ℕ) → Fails e (left_of self.old (chunk.now ++ rest))) }
        ensures more { OnOk result (weight self.old + length chunk.now ≤ weight self.new) }
    {
        if self.pending.is_empty() {
            return self.take_lines(chunk);
        }
        // The rest of the line that began in a chunk before.
        let Some(at) = memchr(b'\n', chunk) else {
            return self.keep(chunk);
        };
        self.end_line(&chunk[..at])?;
        self.take_lines(&chunk[at + 1..])
    }

    /// The same, where nothing of the first line came in a chunk before.
    fn take_lines(&mut self, chunk: &[u8]) -> Result<(), ReplayFault>
        requires ready { IsReading self.old }
        requires fresh { self.old.pending.items ≡ [] }
        ensures ready { OnOk result (IsReading self.new) }
        ensures ok { OnOk result ((rest : List ℕ) → left_of self.new rest ≡ left_of self.old (chunk.now ++ rest)) }
        ensures err { IfErr result (λ e. (rest : List ℕ) → Fails e (left_of self.old (chunk.now ++ rest))) }
        ensures more { OnOk result (weight self.old + length chunk.now ≤ weight self.new) }
    {
        let mut left = chunk;
        'lines: loop {
            let size = self.take_common(left);
            if size > 0 {
                left = &left[size..];
                continue;
            }
            let Some(at) = memchr(b'\n', left) else {
                break;
            };
            self.end_line(&left[..at])?;
            left = &left[at + 1..];
        }
        self.keep(left)
    }

    /// Takes the last line, where no end follows it.
    fn take_last(&mut self) -> Result<(), ReplayFault>
        requires { IsReading self.old }
        ensures ok { OnOk result (left_of self.old [] ≡ read_end (view self.new.so_far)) }
        ensures sound { OnOk result (IsSoundIn 1048576 (view self.new.so_far)) }
        ensures err { IfErr result (λ e. Fails e (left_of self.old [])) }
    {
        if self.pending.is_empty() {
            return Ok(());
        }
        self.so_far.take_line(self.line, &self.pending)
    }

    /// The recording, where nothing more comes.
    #[tactic(auto, unfolding(crate::specs::Recorded::read_end))]
    fn finish(mut self) -> Result<Recording, ReplayFault>
        requires { IsReading self }
        ensures read { MatchResult result (λ r. left_of self [] ≡ Ok (view r)) (λ e. Fails e (left_of self [])) }
        ensures sound { IfOk result (λ r. IsSound (view r)) }
    {
        self.take_last()?;
        if self.so_far.conns.is_empty() {
            return Err(ReplayFault::NoConnection);
        }
        Ok(self.so_far)
    }
}

/// Reads all that comes.
fn fill<R: Source>(
    reader: &mut R,
    chunk: &mut [u8],
    reading: &mut Reading,
) -> Result<(), ReplayFault>
    requires ready { IsReading reading.old }
    requires fresh { R.has_failed reader.old ≡ false }
    requires space { 0 < length chunk.old }
    requires chunk { length chunk.old ≤ 65536 }
    ensures ready { OnOk result (IsReading reading.new) }
    ensures ok { OnOk result (IfSome (R.remaining reader.old)
        (λ bytes. left_of reading.new [] ≡ left_of reading.old bytes)) }
    ensures err { IfErr result (λ e. e ≢ ReplayFault.Read →
        IfSome (R.remaining reader.old) (λ bytes. Fails e (left_of reading.old bytes))) }
    // What was seen is in the reading, and the reader has no more.
    ensures seen { OnOk result (ReadsOn (R.remaining reader.old) (R.remaining reader.new) reading.old reading.new) }
    ensures ended { OnOk result (IsAtEnd (R.remaining reader.new)) }
    // A fault is answered once the bytes seen make it certain, and `Read` only where they make none certain.
    ensures order { OnErr result (ReadsInOrder (left_of reading.old) result (R.remaining reader.old)
        (R.remaining reader.new)) }
    ensures failed { IsErrOf result ReplayFault.Read ↔ (R.has_failed reader.new ≡ true) }
    ensures kinds { IfErr result (λ e. (e ≢ ReplayFault.Write) × (e ≢ ReplayFault.BadSettings)) }
{
    'chunks: loop {
        match reader.read(chunk) {
            Ok(0) => return Ok(()),
            Ok(n) => reading.take_chunk(&chunk[..n])?,
            Err(_) => return Err(ReplayFault::Read),
        }
    }
}

/// So many zeros.
fn zeros(alloc: Global, count: usize) -> Result<Vec<u8>, AllocError>
    ensures { IfOk result (λ bytes. vec_len bytes ≡ count) }
{
    vec![in alloc; 0u8; count]
}

/// Reads a recording to its end. It is replaced on `Ok`, and stays as it was on `Err`.
///
/// A failing read answers `Read`, unless a fault was due by the bytes before it.
pub fn read_recording<R: Source>(
    alloc: Global,
    reader: &mut R,
    recording: &mut Recording,
) -> Result<(), ReplayFault>
    requires { R.has_failed reader.old ≡ false }
    // Where no read answered an error and memory lasted, the answer is that of the bytes that the reader had.
    ensures read { IfSome (R.remaining reader.old) (λ bytes. Answers result (view recording.new) (read_of bytes)) }
    // A fault is answered once the bytes seen make it certain, or at the end of the input. `Read` is answered only
    // where they make none certain, and no more is read after a chunk that makes one certain.
    ensures order { ReadsInOrder read_of result (R.remaining reader.old) (R.remaining reader.new) }
    ensures failed { IsErrOf result ReplayFault.Read ↔ (R.has_failed reader.new ≡ true) }
    ensures kinds { IfErr result (λ e. (e ≢ ReplayFault.Write) × (e ≢ ReplayFault.BadSettings)) }
    ensures err { OnErr result (view recording.new ≡ view recording.old) }
    ensures sound { OnOk result (IsSound (view recording.new)) }
{
    let Ok(mut chunk) = zeros(alloc, CHUNK) else {
        return Err(ReplayFault::NoMemory);
    };
    let mut reading = Reading::new(alloc);
    fill(reader, &mut chunk, &mut reading)?;
    *recording = reading.finish()?;
    Ok(())
}
