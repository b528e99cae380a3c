//! The live commands close up in the log.

ghost use Rattle.std.specs.Prelude.{◌≡◌, ℕ, ◌≤◌, length, filter, slice_index_or, vec_capacity};
ghost use Rattle.iscsi_commands.specs.Log.{AreTagged, IsLiveAt, group_of, rank, tag_at};

use crate::entry::{Entry, group_of, hint_of};
use crate::tag_index::TagIndex;

/// The live commands close up in the log.
#[inline(never)]
pub(crate) fn close_up(log: &mut Vec<Entry>, hints: &mut [u16], tags: &mut TagIndex)
    requires short { length log.old.items ≤ 4096 }
    requires hints { length hints.old ≡ 4096 }
    requires tagged { AreTagged log.old.items tags.old.places.items tags.old.crowded.items tags.old.others.items }
    ensures log { log.new.items ≡ filter (λ e. e.is_live) log.old.items }
    ensures capacity { vec_capacity log.new ≡ vec_capacity log.old }
    ensures tagged { AreTagged log.new.items tags.new.places.items tags.new.crowded.items tags.new.others.items }
    ensures room { tags.new.others.room ≡ tags.old.others.room }
{
    tags.renumber_others(log, hints);
    keep_live(log, hints, &mut tags.places);
}

/// The live commands stay in the log. Their hints tell where, and the places of their groups, where they stand there.
#[tactic(auto, using(crate::proofs::LogLemmas::group_below))]
fn keep_live(log: &mut Vec<Entry>, hints: &mut [u16], places: &mut Vec<u16>)
    requires short { length log.old.items ≤ 4096 }
    requires hints { length hints.old ≡ 4096 }
    requires groups { length places.old.items ≡ 4096 }
    ensures log { log.new.items ≡ filter (λ e. e.is_live) log.old.items }
    ensures capacity { vec_capacity log.new ≡ vec_capacity log.old }
    ensures groups { length places.new.items ≡ 4096 }
    ensures places { (k : ℕ) → IsLiveAt log.old.items k →
        slice_index_or places.old.items (group_of (tag_at log.old.items k)) 0 ≡ k →
        slice_index_or places.new.items (group_of (tag_at log.old.items k)) 0 ≡ rank log.old.items k }
{
    let mut live = 0;
    for k in 0..log.len() {
        // Only a live one is read whole: of most no more than this is asked.
        if log[k].is_live {
            let entry = log[k];
            let group = group_of(entry.command.itt);
            if usize::from(places[group]) == k {
                places[group] = live as u16;
            }
            hints[hint_of(entry.command.ticket)] = live as u16;
            log[live] = entry;
            live += 1;
        }
    }
    log.truncate(live);
}
