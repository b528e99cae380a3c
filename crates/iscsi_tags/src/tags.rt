//! Tags in use.

ghost use Rattle.std.specs.Prelude.{◌≡◌, ℕ, nat_lt, if◌then◌else◌, ◌<◌, ◌≤◌, ◌++◌, [], ◌∷◌, true, Some, None, length, slice_set, vec_capacity, IfOk};
ghost use Rattle.std.specs.List.{insert, remove};
ghost use Rattle.iscsi_slots.specs.Places.{AreAscending};
ghost use Rattle.iscsi_slots.specs.Slots.{times};
ghost use Rattle.iscsi_tags.specs.Tags.{AreTags, entered, left, line_at, line_of, lines, tag_at, tag_of, tagged, total, used_less, used_more};

use crate::tag_line::{TagLine, line_at};
use std::alloc::{AllocError, Global};
use std::marker::Model;

/// Tags in use, each with a line that no other one has.
///
/// A tag may be used several times at once, and has its line as long as it is used. The tags stand in their order, and
/// are found by a binary search. Those behind one that comes or goes make way or close up.
pub struct Tags {
    tags: Vec<TagLine>,
    /// The lines of no tag.
    free: Vec<u32>,
    room: usize,
}

impl Drop for Tags {
    fn drop(self) {
        let Tags {
            tags: _tags,
            free: _free,
            room: _room,
        } = self;
    }
}

impl Model for Tags {
    ghost use Rattle.std.specs.Prelude.{vec_capacity};
    ghost use Rattle.iscsi_tags.specs.Tags.{AreHeld, Tagged, tagged};

    ghost Value = { Tagged };

    ghost view = { λ t. tagged t.tags.items t.room };

    ghost invariant = { λ t. AreHeld t.tags.items t.free.items (vec_capacity t.tags) (vec_capacity t.free) t.room };
}

impl Tags {
    /// No tag is in use, and there are so many lines, from 0 on. It takes all its memory here.
    pub fn with_room(alloc: Global, room: usize) -> Result<Tags, AllocError>
        requires { room ≤ 4294967295 }
        ensures { IfOk result (λ t. t ≡ tagged [] room) }
    {
        Ok(Tags {
            tags: Vec::with_capacity(alloc, room)?,
            free: all_lines(alloc, room)?,
            room,
        })
    }

    /// What holds of all tags in use: no two are the same or have the same line, and there are no more uses than lines.
    /// It does nothing.
    #[inline(always)]
    pub fn known(&self)
        ensures { AreTags self.now }
    {
        let _room = self.room;
    }

    /// The line of a tag, if it is in use.
    pub fn find(&self, tag: u32) -> Option<u32>
        ensures { result ≡ line_of tag self.now.tags }
    {
        let k = count_below(&self.tags, tag);
        if is_at(&self.tags, k, tag) {
            return Some(line_at(&self.tags, k).line);
        }
        None
    }

    /// A tag is used once more: its line. One that wasn't in use gets a line that no tag has.
    pub fn enter(&mut self, tag: u32) -> u32
        requires { total self.old.tags < self.old.room }
        ensures state { self.new ≡ tagged (entered tag result self.old.tags) self.old.room }
        ensures line { (line : ℕ) → line_of tag self.old.tags ≡ Some line → result ≡ line }
        ensures fresh { line_of tag self.old.tags ≡ None → times result (lines self.old.tags) ≡ 0 }
        ensures within { result < self.old.room }
    {
        let k = count_below(&self.tags, tag);
        if is_at(&self.tags, k, tag) {
            return use_more(&mut self.tags, k);
        }
        let line = take_last(&mut self.free);
        insert_at(&mut self.tags, k, TagLine { tag, line, uses: 1 });
        line
    }

    /// A tag is used once less. Its line is free when it isn't used any more. Nothing changes where it isn't in use.
    pub fn leave(&mut self, tag: u32)
        ensures { self.new ≡ tagged (left tag self.old.tags) self.old.room }
    {
        let k = count_below(&self.tags, tag);
        if !is_at(&self.tags, k, tag) {
            return;
        }
        let TagLine { line, uses, .. } = *line_at(&self.tags, k);
        if uses > 1 {
            use_less(&mut self.tags, k);
        } else {
            self.tags.remove(k);
            self.free.push_reserved(line);
        }
    }
}

/// So many lines, from 0 on.
fn all_lines(alloc: Global, room: usize) -> Result<Vec<u32>, AllocError>
    requires { room ≤ 4294967295 }
    ensures lines { IfOk result (λ free. (line : ℕ) → times line free.items ≡ (if nat_lt line room then 1 else 0)) }
    ensures count { IfOk result (λ free. length free.items ≡ room) }
    ensures capacity { IfOk result (λ free. room ≤ vec_capacity free) }
{
    let mut free = Vec::with_capacity(alloc, room)?;
    for line in 0..room {
        free.push_reserved(line as u32);
    }
    Ok(free)
}

/// How many tags in use are lower.
#[inline(never)]
fn count_below(tags: &[TagLine], tag: u32) -> usize
    requires { AreAscending tag_of tags.now }
    ensures within { result ≤ length tags.now }
    ensures below { (k : ℕ) → k < result → tag_at tags.now k < tag }
    ensures above { (k : ℕ) → result ≤ k → k < length tags.now → tag ≤ tag_at tags.now k }
{
    tags.partition_point(|used| used.tag < tag)
}

/// Whether this tag stands at a place.
#[inline(always)]
fn is_at(tags: &[TagLine], k: usize, tag: u32) -> bool
    ensures yes { result ≡ true → (k < length tags.now) × (tag_at tags.now k ≡ tag) }
    ensures no { k < length tags.now → tag_at tags.now k ≡ tag → result ≡ true }
{
    k < tags.len() && line_at(tags, k).tag == tag
}

/// The tag at a place is used once more: its line.
#[inline(always)]
fn use_more(tags: &mut Vec<TagLine>, k: usize) -> u32
    requires within { k < length tags.old.items }
    requires fits { (line_at tags.old.items k).uses < 4294967295 }
    ensures line { result ≡ (line_at tags.old.items k).line }
    ensures tags { tags.new.items ≡ slice_set tags.old.items k (used_more (line_at tags.old.items k)) }
    ensures capacity { vec_capacity tags.new ≡ vec_capacity tags.old }
{
    let TagLine { tag, line, uses } = *line_at(tags, k);
    let uses = uses + 1;
    tags[k] = TagLine { tag, line, uses };
    line
}

/// The tag at a place is used once less.
#[inline(always)]
fn use_less(tags: &mut Vec<TagLine>, k: usize)
    requires within { k < length tags.old.items }
    requires some { 1 ≤ (line_at tags.old.items k).uses }
    ensures tags { tags.new.items ≡ slice_set tags.old.items k (used_less (line_at tags.old.items k)) }
    ensures capacity { vec_capacity tags.new ≡ vec_capacity tags.old }
{
    let TagLine { tag, line, uses } = *line_at(tags, k);
    let uses = uses - 1;
    tags[k] = TagLine { tag, line, uses };
}

/// A tag comes to a place. Those from there on make way.
#[inline(always)]
fn insert_at(tags: &mut Vec<TagLine>, k: usize, used: TagLine)
    requires within { k ≤ length tags.old.items }
    requires room { length tags.old.items < vec_capacity tags.old }
    ensures tags { tags.new.items ≡ insert tags.old.items k used }
    ensures capacity { vec_capacity tags.old ≤ vec_capacity tags.new }
{
    let inserted: Result<_, _> = tags.insert(k, used);
    inserted.unwrap();
}

/// Takes the last one out.
#[inline(always)]
fn take_last(free: &mut Vec<u32>) -> u32
    requires { 1 ≤ length free.old.items }
    ensures rest { free.old.items ≡ free.new.items ++ result ∷ [] }
    ensures capacity { vec_capacity free.new ≡ vec_capacity free.old }
{
    free.pop().unwrap()
}
