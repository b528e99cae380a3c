//! Where the live commands stand in the log, by tag.

ghost use Rattle.std.specs.Prelude.{◌≡◌, ◌≢◌, ℕ, ◌+◌, ◌<◌, ◌≤◌, true, [], length, map, take, slice_index_or, slice_set, IfOk};
ghost use Rattle.iscsi_slots.specs.Queued.{queued};
ghost use Rattle.iscsi_slots.specs.Places.{AreAscending};
ghost use Rattle.iscsi_commands.specs.Log.{AreMarked, AreMarkedAlone, AreMoved, AreTagged, IsLiveAt, IsTagPlace, ended, entry_at, group_of, rank, tag_at};

use crate::entry::{Entry, GROUPS, entry_at, group_of};
use iscsi_slots::Order;
use std::alloc::{AllocError, Global};

/// Where the live commands stand in the log, by tag.
///
/// Tags are in groups, and each group has a place. A command that enters when the place of its group is taken stands
/// apart, in the order of the tags, and the group is marked. So a tag is looked for at one place, and where its group
/// is marked among those that stand apart: at the last one and the first one, which tell of tags that go up or down,
/// and then by a binary search. The cost is bounded for any tags that an initiator chooses. A group stays marked when
/// they leave, until the live commands close up while one of any group stands apart. Where none does at that time it
/// stays marked, as a search looks at none.
pub(crate) struct TagIndex {
    /// For each group the place of a live command with a tag of the group, or any.
    pub(crate) places: Vec<u16>,
    /// For each group whether a command of it may be among the others.
    pub(crate) crowded: Vec<bool>,
    /// The places of those that entered when the place of their group was taken.
    pub(crate) others: Order,
}

impl Drop for TagIndex {
    fn drop(self) {
        let TagIndex {
            places: _places,
            crowded: _crowded,
            others: _others,
        } = self;
    }
}

impl TagIndex {
    /// No command yet, and room for so many that are apart.
    pub(crate) fn with_room(alloc: Global, room: usize) -> Result<TagIndex, AllocError>
        requires { room ≤ 65535 }
        ensures tagged { IfOk result (λ t. AreTagged [] t.places.items t.crowded.items t.others.items) }
        ensures room { IfOk result (λ t. t.others.room ≡ room) }
    {
        Ok(TagIndex {
            places: vec![in alloc; 0; GROUPS]?,
            crowded: vec![in alloc; false; GROUPS]?,
            others: Order::with_room(alloc, room)?,
        })
    }

    /// The place of the live command with this tag.
    #[tactic(auto, using(crate::proofs::LogLemmas::group_below))]
    pub(crate) fn find(&self, log: &[Entry], itt: u32) -> Option<usize>
        requires { AreTagged log.now self.now.places.items self.now.crowded.items self.now.others.items }
        ensures { IsTagPlace log.now itt result }
    {
        let group = group_of(itt);
        let at = usize::from(self.places[group]);
        if is_live_with(log, at, itt) {
            return Some(at);
        }
        if !self.crowded[group] {
            return None;
        }
        let place = count_below(&self.others, log, itt);
        if place < self.others.len() {
            let other = usize::from(self.others.at(place));
            if entry_at(log, other).command.itt == itt {
                return Some(other);
            }
        }
        None
    }

    /// The command at a place enters, behind those before it. Mostly the place of its group is free.
    #[inline(always)]
    #[tactic(auto, using(crate::proofs::LogLemmas::group_below))]
    pub(crate) fn enter(&mut self, log: &[Entry], k: usize)
        requires tagged { AreTagged (take k log.now) self.old.places.items self.old.crowded.items self.old.others.items }
        requires place { k < length log.now }
        requires short { k < 65536 }
        requires room { length self.old.others.items < self.old.others.room }
        requires live { IsLiveAt log.now k }
        requires unused { (j : ℕ) → IsLiveAt (take k log.now) j → tag_at log.now j ≢ tag_at log.now k }
        ensures tagged { AreTagged (take (k + 1) log.now) self.new.places.items self.new.crowded.items
            self.new.others.items }
        ensures room { self.new.others.room ≡ self.old.others.room }
    {
        let itt = entry_at(log, k).command.itt;
        let group = group_of(itt);
        if is_taken(log, k, usize::from(self.places[group]), group) {
            self.enter_apart(log, k);
        } else {
            self.places[group] = k as u16;
        }
    }

    /// The command at a place enters apart, since the place of its group is taken.
    #[inline(never)]
    #[tactic(auto, using(crate::proofs::LogLemmas::group_below))]
    fn enter_apart(&mut self, log: &[Entry], k: usize)
        requires tagged { AreTagged (take k log.now) self.old.places.items self.old.crowded.items self.old.others.items }
        requires place { k < length log.now }
        requires short { k < 65536 }
        requires room { length self.old.others.items < self.old.others.room }
        requires live { IsLiveAt log.now k }
        requires unused { (j : ℕ) → IsLiveAt (take k log.now) j → tag_at log.now j ≢ tag_at log.now k }
        requires taken { slice_index_or self.old.places.items (group_of (tag_at log.now k)) 0 < k }
        ensures tagged { AreTagged (take (k + 1) log.now) self.new.places.items self.new.crowded.items
            self.new.others.items }
        ensures room { self.new.others.room ≡ self.old.others.room }
    {
        let itt = entry_at(log, k).command.itt;
        let group = group_of(itt);
        let place = count_below(&self.others, log, itt);
        self.others.insert(place, k as u16);
        self.crowded[group] = true;
    }

    /// The live command at a place leaves. Mostly it stands at the place of its group.
    #[inline(always)]
    #[tactic(auto, using(crate::proofs::LogLemmas::group_below))]
    pub(crate) fn leave(&mut self, log: &[Entry], k: usize)
        requires tagged { AreTagged log.now self.old.places.items self.old.crowded.items self.old.others.items }
        requires live { IsLiveAt log.now k }
        requires place { k < length log.now }
        ensures tagged { AreTagged (slice_set log.now k (ended (entry_at log.now k))) self.new.places.items
            self.new.crowded.items self.new.others.items }
        ensures room { self.new.others.room ≡ self.old.others.room }
    {
        let itt = entry_at(log, k).command.itt;
        if !self.crowded[group_of(itt)] {
            return;
        }
        self.leave_apart(log, k);
    }

    /// The live command at a place leaves, which may stand apart.
    #[inline(never)]
    fn leave_apart(&mut self, log: &[Entry], k: usize)
        requires tagged { AreTagged log.now self.old.places.items self.old.crowded.items self.old.others.items }
        requires live { IsLiveAt log.now k }
        requires place { k < length log.now }
        ensures tagged { AreTagged (slice_set log.now k (ended (entry_at log.now k))) self.new.places.items
            self.new.crowded.items self.new.others.items }
        ensures room { self.new.others.room ≡ self.old.others.room }
    {
        let itt = entry_at(log, k).command.itt;
        let place = count_below(&self.others, log, itt);
        if place < self.others.len() && usize::from(self.others.at(place)) == k {
            self.others.remove(place);
        }
    }

    /// The live commands are to close up in the log: those that stand apart take the places that they have then. `ranks` is
    /// written for it, with how many live ones stand before each place of the log, unless none stands apart.
    pub(crate) fn renumber_others(&mut self, log: &[Entry], ranks: &mut [u16])
        requires tagged { AreTagged log.now self.old.places.items self.old.crowded.items self.old.others.items }
        requires short { length log.now ≤ 4096 }
        requires size { length log.now ≤ length ranks.old }
        ensures size { length ranks.new ≡ length ranks.old }
        ensures places { self.new.places.items ≡ self.old.places.items }
        ensures groups { length self.new.crowded.items ≡ 4096 }
        ensures marked { AreMarked log.now self.new.crowded.items self.old.others.items }
        ensures others { AreMoved log.now self.old.others.items self.new.others.items }
        ensures room { self.new.others.room ≡ self.old.others.room }
    {
        if self.others.len() == 0 {
            return;
        }
        note_ranks(log, ranks);
        mark(&mut self.crowded, &self.others, log);
        put_in_place(&mut self.others, ranks);
    }
}

/// How many live commands stand before each place of the log.
#[inline(never)]
fn note_ranks(log: &[Entry], ranks: &mut [u16])
    requires short { length log.now ≤ 4096 }
    requires size { length log.now ≤ length ranks.old }
    ensures size { length ranks.new ≡ length ranks.old }
    ensures ranks { (k : ℕ) → k < length log.now → slice_index_or ranks.new k 0 ≡ rank log.now k }
{
    let mut before: u16 = 0;
    for k in 0..log.len() {
        ranks[k] = before;
        if entry_at(log, k).is_live {
            before += 1;
        }
    }
}

/// Marks the groups of the others. The marks of before go, so that they don't gather, unless there are no others: then
/// a search looks at none.
#[tactic(auto, using(crate::proofs::LogLemmas::group_below))]
fn mark(crowded: &mut [bool], others: &Order, log: &[Entry])
    requires groups { length crowded.old ≡ 4096 }
    requires within { (i : ℕ) → i < length others.now.items → slice_index_or others.now.items i 0 < length log.now }
    ensures groups { length crowded.new ≡ 4096 }
    ensures marked { AreMarked log.now crowded.new others.now.items }
    ensures alone { 0 < length others.now.items → AreMarkedAlone log.now crowded.new others.now.items }
{
    if others.len() == 0 {
        return;
    }
    crowded.fill(false);
    for i in 0..others.len() {
        let k = usize::from(others.at(i));
        crowded[group_of(entry_at(log, k).command.itt)] = true;
    }
}

/// Each of the others takes the place that `to` has for its place: the first one leaves, and comes behind the last one.
fn put_in_place(others: &mut Order, to: &[u16])
    requires { (i : ℕ) → i < length others.old.items → slice_index_or others.old.items i 0 < length to.now }
    ensures { others.new ≡ queued (map (λ k. slice_index_or to.now k 0) others.old.items) others.old.room }
{
    for _ in 0..others.len() {
        let k = usize::from(others.at(0));
        others.remove(0);
        others.push(to[k]);
    }
}

/// Whether the command at a place is there and live, and has this tag.
#[inline(always)]
fn is_live_with(log: &[Entry], k: usize, itt: u32) -> bool
    ensures yes { result ≡ true → IsLiveAt log.now k × (tag_at log.now k ≡ itt) }
    ensures no { IsLiveAt log.now k → tag_at log.now k ≡ itt → result ≡ true }
{
    if k >= log.len() {
        return false;
    }
    let entry = entry_at(log, k);
    entry.is_live && entry.command.itt == itt
}

/// Whether the command at a place, before place `to`, is live, and its tag is of this group.
#[inline(always)]
fn is_taken(log: &[Entry], to: usize, k: usize, group: usize) -> bool
    requires { to ≤ length log.now }
    ensures yes { result ≡ true → (k < to) × IsLiveAt log.now k × (group_of (tag_at log.now k) ≡ group) }
    ensures no { k < to → IsLiveAt log.now k → group_of (tag_at log.now k) ≡ group → result ≡ true }
{
    if k >= to {
        return false;
    }
    let entry = entry_at(log, k);
    entry.is_live && group_of(entry.command.itt) == group
}

/// How many of the others have a lower tag. Where the tag isn't between those of the last one and the first one, these
/// tell.
#[inline(never)]
fn count_below(others: &Order, log: &[Entry], itt: u32) -> usize
    requires within { (i : ℕ) → i < length others.now.items → slice_index_or others.now.items i 0 < length log.now }
    requires sorted { AreAscending (tag_at log.now) others.now.items }
    ensures within { result ≤ length others.now.items }
    ensures below { (i : ℕ) → i < result → tag_at log.now (slice_index_or others.now.items i 0) < itt }
    ensures above { (i : ℕ) → result ≤ i → i < length others.now.items →
        itt ≤ tag_at log.now (slice_index_or others.now.items i 0) }
{
    let len = others.len();
    if len == 0 || tag_of(others, log, len - 1) < itt {
        return len;
    }
    if itt <= tag_of(others, log, 0) {
        return 0;
    }
    halve(others, log, itt)
}

/// The tag of one of the others.
#[inline(always)]
fn tag_of(others: &Order, log: &[Entry], i: usize) -> u32
    requires place { i < length others.now.items }
    requires within { slice_index_or others.now.items i 0 < length log.now }
    ensures { result ≡ tag_at log.now (slice_index_or others.now.items i 0) }
{
    entry_at(log, usize::from(others.at(i))).command.itt
}

/// How many of the others have a lower tag, by binary search.
fn halve(others: &Order, log: &[Entry], itt: u32) -> usize
    requires within { (i : ℕ) → i < length others.now.items → slice_index_or others.now.items i 0 < length log.now }
    requires sorted { AreAscending (tag_at log.now) others.now.items }
    ensures within { result ≤ length others.now.items }
    ensures below { (i : ℕ) → i < result → tag_at log.now (slice_index_or others.now.items i 0) < itt }
    ensures above { (i : ℕ) → result ≤ i → i < length others.now.items →
        itt ≤ tag_at log.now (slice_index_or others.now.items i 0) }
{
    let mut low = 0;
    let mut high = others.len();
    while low < high {
        let middle = low + (high - low) / 2;
        if entry_at(log, usize::from(others.at(middle))).command.itt < itt {
            low = middle + 1;
        } else {
            high = middle;
        }
    }
    low
}
