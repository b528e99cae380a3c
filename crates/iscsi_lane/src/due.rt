//! The answers that are due, in the order of the log.

ghost use Rattle.std.specs.Prelude.{◌≡◌, ℕ, ◌+◌, ◌<◌, ◌≤◌, ◌||◌, ◌++◌, ◌∷◌, [], if◌then◌else◌, length, filter, slice_index_or, true, vec_capacity};
ghost use Rattle.std.specs.List.{insert};
ghost use Rattle.iscsi_slots.specs.Places.{AreAscending};
ghost use Rattle.iscsi_slots.specs.Slots.{times};
ghost use Rattle.iscsi_lists.specs.Lists.{without};
ghost use Rattle.iscsi_lane.specs.Standings.{slots_at};
ghost use Rattle.iscsi_lane.specs.Times.{InOrder, IsUp, gains, has, time_of};
ghost use Rattle.iscsi_scopes.specs.Scopes.{slots_of};

use iscsi_lists::Lists;
use iscsi_outbox_state::Standing;
use iscsi_scopes::Scopes;

/// Looks at the line of a key: its first answer is among those that are due from now on, if it is.
pub(crate) fn examine(
    log: &Lists<Standing>,
    scopes: &Scopes,
    key: u32,
    stamps: &[u64],
    due: &mut Vec<u32>,
)
    requires stands { (s : ℕ) → 1 ≤ times s (slots_of key scopes.now.lines) → 1 ≤ times s (slots_at log.now 2) }
    requires within { (s : ℕ) → 1 ≤ times s (slots_at log.now 2) → s ≤ log.now.room }
    requires once { (s : ℕ) → times s (slots_at log.now 2) ≤ 1 }
    requires up { IsUp stamps.now (slots_at log.now 2) }
    requires long { length stamps.now ≡ log.now.room + 1 }
    requires order { InOrder due.old.items (slots_at log.now 2) }
    requires room { length (slots_at log.now 2) ≤ vec_capacity due.old }
    ensures due { due.new.items ≡
        filter (λ t. has due.old.items t || gains scopes.now key log.now.values t) (slots_at log.now 2) }
    ensures capacity { vec_capacity due.old ≤ vec_capacity due.new }
{
    let Some(slot) = scopes.due(key) else {
        return;
    };
    let Standing::Undue(answer) = *log.at(slot) else {
        return;
    };
    if answer.uncleared {
        return;
    }
    let k = place_of(stamps, due, slot);
    if is_at(due, k, slot) {
        return;
    }
    insert_at(due, k, slot);
}

/// A slot is no more among some in the order of the log, as those that are due, if it was.
pub(crate) fn leave_due(stamps: &[u64], due: &mut Vec<u32>, slot: u32)
    requires slot { slot < length stamps.now }
    requires within { (j : ℕ) → j < length due.old.items → slice_index_or due.old.items j 0 < length stamps.now }
    requires up { AreAscending (time_of stamps.now) due.old.items }
    ensures due { due.new.items ≡ without slot due.old.items }
    ensures capacity { vec_capacity due.old ≤ vec_capacity due.new }
{
    let k = place_of(stamps, due, slot);
    if is_at(due, k, slot) {
        due.remove(k);
    }
}

/// A slot comes behind all others, if it is to.
pub(crate) fn add_if(slots: &mut Vec<u32>, slot: u32, there: bool)
    requires room { length slots.old.items < vec_capacity slots.old }
    ensures slots { slots.new.items ≡ slots.old.items ++ (if there then slot ∷ [] else []) }
    ensures capacity { vec_capacity slots.old ≤ vec_capacity slots.new }
{
    if there {
        let added: Result<_, _> = slots.push(slot);
        added.unwrap();
    }
}

/// Whether a slot is among those that are due.
pub(crate) fn is_among(stamps: &[u64], due: &[u32], slot: u32) -> bool
    requires slot { slot < length stamps.now }
    requires within { (j : ℕ) → j < length due.now → slice_index_or due.now j 0 < length stamps.now }
    requires up { AreAscending (time_of stamps.now) due.now }
    ensures { result ≡ has due.now slot }
{
    let k = place_of(stamps, due, slot);
    is_at(due, k, slot)
}

/// Whether a slot stands at a place.
fn is_at(due: &[u32], k: usize, slot: u32) -> bool
    ensures yes { result ≡ true → (k < length due.now) × (slice_index_or due.now k 0 ≡ slot) }
    ensures no { k < length due.now → slice_index_or due.now k 0 ≡ slot → result ≡ true }
{
    k < due.len() && due[k] == slot
}

/// How many of those that are due came before a slot, by halves.
fn place_of(stamps: &[u64], due: &[u32], slot: u32) -> usize
    requires slot { slot < length stamps.now }
    requires within { (j : ℕ) → j < length due.now → slice_index_or due.now j 0 < length stamps.now }
    requires up { AreAscending (time_of stamps.now) due.now }
    ensures within { result ≤ length due.now }
    ensures below { (j : ℕ) → j < result → time_of stamps.now (slice_index_or due.now j 0) < time_of stamps.now slot }
    ensures above { (j : ℕ) → result ≤ j → j < length due.now →
        time_of stamps.now slot ≤ time_of stamps.now (slice_index_or due.now j 0) }
{
    let time = stamps[slot as usize];
    let mut low = 0;
    let mut high = due.len();
    while low < high {
        let middle = low + (high - low) / 2;
        if stamps[due[middle] as usize] < time {
            low = middle + 1;
        } else {
            high = middle;
        }
    }
    low
}

/// A slot comes to a place. Those from there on make way.
fn insert_at(due: &mut Vec<u32>, k: usize, slot: u32)
    requires within { k ≤ length due.old.items }
    requires room { length due.old.items < vec_capacity due.old }
    ensures due { due.new.items ≡ insert due.old.items k slot }
    ensures capacity { vec_capacity due.old ≤ vec_capacity due.new }
{
    let inserted: Result<_, _> = due.insert(k, slot);
    inserted.unwrap();
}
