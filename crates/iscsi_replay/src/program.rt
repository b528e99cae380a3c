//! The program, over any reader and any writer.

ghost use Rattle.std.specs.Prelude.{◌≡◌, ◌↔◌, ◌⊎◌, map, true, false, IfErr, IsErrOf};
ghost use Rattle.iscsi_replay.specs.promises.Replayed.{IsReadWhole};
ghost use Rattle.iscsi_replay.specs.promises.Told.{IsAsTold, ComesOfWords, ComesBeforeReport};

use crate::replaying::replay;
use crate::stopping::Stop;
use crate::threading::replay_threads;
use iscsi_recording::{ReplayFault, Sink, Source};
use iscsi_settings::command_line;
use std::alloc::Global;
use std::sync::Wait;
use std::thread::Threads;

/// Replays what the reader gives, with the settings that the words of a command line give, the program's name
/// first: in threads where they give `--threads`, and else event by event.
pub fn replay_as_told<T: Threads + Wait + Sync, R: Source, W: Sink>(
    rt: &T,
    alloc: Global,
    words: &[&str],
    reader: &mut R,
    writer: &mut W,
) -> Result<(), Stop>
    requires read_fresh { R.has_failed reader.old ≡ false }
    requires write_fresh { W.has_failed writer.old ≡ false }
    // The words are refused, or this is the replay with exactly the settings that they give.
    ensures told { IsAsTold (map (λ w. w.now) words.entry.now) result (R.remaining reader.old) (R.remaining reader.new)
        (W.contents writer.old) (W.contents writer.new) }
    // Where the words are refused, nothing is read and nothing is written.
    ensures untouched { IfErr result (λ stop. ComesOfWords stop →
        (reader.new ≡ reader.old) × (writer.new ≡ writer.old)) }
    // A refusal that the words or reading give leaves the writer as it was.
    ensures unwritten { IfErr result (λ stop. ComesBeforeReport stop → writer.new ≡ writer.old) }
    // The writer is as it was, or the input was read to its end, and is a recording.
    ensures whole { (writer.new ≡ writer.old) ⊎ IsReadWhole (R.remaining reader.old) (R.remaining reader.new) }
    ensures read_failed { IsErrOf result (Stop.Fault ReplayFault.Read) ↔ (R.has_failed reader.new ≡ true) }
    ensures write_failed { IsErrOf result (Stop.Fault ReplayFault.Write) ↔ (W.has_failed writer.new ≡ true) }
{
    let Some((settings, threads)) = command_line::settings(alloc, words)? else {
        return Err(Stop::BadFirst);
    };
    let replayed = if threads {
        replay_threads(rt, alloc, &settings, reader, writer)
    } else {
        replay(alloc, &settings, reader, writer)
    };
    match replayed {
        Ok(()) => Ok(()),
        Err(fault) => Err(Stop::Fault(fault)),
    }
}
