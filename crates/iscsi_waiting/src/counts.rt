//! How many of each kind wait.

ghost use Rattle.std.specs.Prelude.{◌≡◌, ◌+◌, ◌-◌, ◌<◌, ◌≤◌, ◌^◌, if◌then◌else◌};
ghost use Rattle.iscsi_waiting.specs.Counting.{HasOne, HasPlace, is_own_item, nothing_counted, with_one, without_one};

use iscsi_outbox_state::{Content, Waiting};

/// How many of each kind wait, on one connection or on all.
#[derive(Clone, Copy)]
pub(crate) struct Counts {
    /// PDUs of the target's own.
    pub(crate) own: usize,
    /// Replies of the session.
    pub(crate) replies: usize,
    /// What takes a StatSN.
    pub(crate) taking: usize,
    /// Answers to functions of several tasks.
    pub(crate) fenced: usize,
    /// Answers to numbered requests.
    pub(crate) numbered: usize,
}

impl Counts {
    /// Nothing waits.
    pub(crate) fn none() -> Counts
        ensures { result ≡ nothing_counted }
    {
        Counts {
            own: 0,
            replies: 0,
            taking: 0,
            fenced: 0,
            numbered: 0,
        }
    }
}

/// One more waits: it is counted on its connection and on all. Each by a test of its own, as most are the same from PDU to PDU.
#[inline(always)]
pub(crate) fn count_in(one: &mut Counts, all: &mut Counts, item: &Waiting)
    requires one { HasPlace one.old }
    requires all { HasPlace all.old }
    ensures one { one.new ≡ with_one item.now one.old }
    ensures all { all.new ≡ with_one item.now all.old }
{
    let own = is_own(item);
    add_if(own, &mut one.own, &mut all.own);
    add_if(!own, &mut one.replies, &mut all.replies);
    add_if(item.takes, &mut one.taking, &mut all.taking);
    add_if(item.fenced, &mut one.fenced, &mut all.fenced);
    add_if(item.numbered, &mut one.numbered, &mut all.numbered);
}

/// One that waited does so no more.
#[inline(always)]
pub(crate) fn count_out(one: &mut Counts, all: &mut Counts, item: &Waiting)
    requires one { HasOne item.now one.old }
    requires all { HasOne item.now all.old }
    ensures one { one.new ≡ without_one item.now one.old }
    ensures all { all.new ≡ without_one item.now all.old }
{
    let own = is_own(item);
    take_if(own, &mut one.own, &mut all.own);
    take_if(!own, &mut one.replies, &mut all.replies);
    take_if(item.takes, &mut one.taking, &mut all.taking);
    take_if(item.fenced, &mut one.fenced, &mut all.fenced);
    take_if(item.numbered, &mut one.numbered, &mut all.numbered);
}

/// Both counts go up, if this holds.
#[inline(always)]
fn add_if(holds: bool, one: &mut usize, all: &mut usize)
    requires one { one.old + 1 < 2 ^ 64 }
    requires all { all.old + 1 < 2 ^ 64 }
    ensures one { one.new ≡ one.old + (if holds then 1 else 0) }
    ensures all { all.new ≡ all.old + (if holds then 1 else 0) }
{
    if holds {
        *one += 1;
        *all += 1;
    }
}

/// Both go down, if it holds.
#[inline(always)]
fn take_if(holds: bool, one: &mut usize, all: &mut usize)
    requires one { (if holds then 1 else 0) ≤ one.old }
    requires all { (if holds then 1 else 0) ≤ all.old }
    ensures one { one.new ≡ one.old - (if holds then 1 else 0) }
    ensures all { all.new ≡ all.old - (if holds then 1 else 0) }
{
    if holds {
        *one -= 1;
        *all -= 1;
    }
}

/// Whether it is a PDU of the target's own.
#[inline(always)]
fn is_own(item: &Waiting) -> bool
    ensures { result ≡ is_own_item item.now }
{
    match item.content {
        Content::Own(_) => true,
        Content::Reply(_) => false,
    }
}
