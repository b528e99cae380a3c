//! What waits, by slots.

ghost use Rattle.std.specs.Prelude.{◌≡◌, ℕ, ◌+◌, ◌-◌, ◌<◌, ◌≤◌, ◌^◌, List, [], true, false, length, option_map, IfOk, IfSome};
ghost use Rattle.iscsi_lists.specs.Lists.{times_in};
ghost use Rattle.iscsi_outbox_state.specs.Waits.{any_in, dropped_of, entered, first_item, is_taking_before, opened, popped, queue_at, released_of};
ghost use Rattle.iscsi_waiting.specs.Firsts.{marks_of};
ghost use Rattle.iscsi_waiting.specs.Kept.{AreInFirst, AreKept, GoesTo, IsBehind, IsBehindNone, Leaves, LetsGo, kept_at, kind_of, place_of, waits_of};

use crate::counts::{Counts, count_in, count_out};
use crate::first::{Marks, marks_of};
use iscsi_lists::Lists;
use iscsi_outbox_rules::OwnPdu;
use iscsi_outbox_state::{Content, Waiting};
use std::alloc::{AllocError, Global};

/// The list of what is of no command. That of a command has the number of its place.
const OF_NONE: usize = 0;

/// The list of what takes no StatSN ..
const TAKES_NONE: usize = 0;

/// .. that of fenced answers ..
pub(crate) const FENCED: usize = 1;

/// .. and that of what else takes one.
const TAKES: usize = 2;

/// What a slot has: what waits, and when it entered its queue.
#[derive(Clone, Copy)]
pub(crate) struct Kept {
    pub(crate) item: Waiting,
    pub(crate) time: u64,
}

/// What a slot has that was never used.
const BLANK: Kept = Kept {
    item: Waiting {
        content: Content::Own(OwnPdu::OfConnection {
            conn: 0,
            header: [0; 48],
        }),
        takes: false,
        fenced: false,
        numbered: false,
        ends: false,
        command: None,
    },
    time: 0,
};

/// What waits on the connections of a session, each in a slot of its own.
///
/// Three sets of lists stand over the same slots. So a slot has one number in all of them, and none keeps a place in
/// another.
pub(crate) struct Slots {
    /// What each slot has, and a list for each connection.
    pub(crate) waiting: Lists<Kept>,
    /// All slots, by the commands that they are of.
    pub(crate) owned: Lists<u8>,
    /// All slots: those of fenced answers, those of what else takes a StatSN, and all others.
    pub(crate) fence: Lists<u8>,
    /// How many wait on each connection ..
    pub(crate) counts: Vec<Counts>,
    /// .. and on all.
    pub(crate) all: Counts,
    /// When the next one enters.
    pub(crate) time: u64,
}

impl Drop for Slots {
    fn drop(self) {
        let Slots {
            waiting: _waiting,
            owned: _owned,
            fence: _fence,
            counts: _counts,
            all: _all,
            time: _time,
        } = self;
    }
}

impl Slots {
    /// Nothing waits. It takes all its memory here.
    pub(crate) fn with_room(
        alloc: Global,
        conns: usize,
        commands: usize,
        room: usize,
    ) -> Result<Slots, AllocError>
        requires conns { room + conns + 2 ≤ 4294967295 }
        requires commands { room + commands + 3 ≤ 4294967295 }
        requires room { room + 5 ≤ 4294967295 }
        ensures kept { IfOk result (λ s. AreKept s) }
        ensures state { IfOk result (λ s. waits_of s ≡ opened conns commands room) }
    {
        Ok(Slots {
            waiting: Lists::with_room(alloc, conns, room, BLANK)?,
            owned: all_in_first(alloc, commands + 1, room)?,
            fence: all_in_first(alloc, TAKES + 1, room)?,
            counts: vec![in alloc; Counts::none(); conns]?,
            all: Counts::none(),
            time: 0,
        })
    }

    /// A PDU enters the queue of a connection.
    #[inline(always)]
    pub(crate) fn enter(&mut self, conn: usize, item: Waiting)
        requires kept { AreKept self.old }
        requires conn { conn < length self.old.waiting.lists }
        requires room { 1 ≤ length self.old.waiting.free }
        requires command { IfSome item.command (λ c. (1 ≤ c) × (c ≤ length self.old.owned.lists - 1)) }
        requires fence { item.fenced ≡ true → item.takes ≡ true }
        requires time { self.old.time < 2 ^ 64 - 1 }
        ensures kept { AreKept self.new }
        ensures state { waits_of self.new ≡ entered conn item (waits_of self.old) }
    {
        self.waiting.known();
        self.owned.known();
        self.fence.known();
        let time = self.time;
        let slot = self.waiting.push_back(conn, Kept { item, time });
        move_owned(&mut self.owned, slot, place_of(&item));
        self.fence.move_to_back(slot, kind_of(&item));
        count_in(&mut self.counts[conn], &mut self.all, &item);
        self.time = time + 1;
    }

    /// The first PDU of a connection is taken out.
    #[inline(always)]
    pub(crate) fn pop(&mut self, conn: usize) -> Option<Waiting>
        requires kept { AreKept self.old }
        requires conn { conn < length self.old.waiting.lists }
        ensures item { result ≡ first_item (queue_at (waits_of self.old) conn) }
        ensures kept { AreKept self.new }
        ensures state { waits_of self.new ≡ popped conn (waits_of self.old) }
    {
        self.waiting.known();
        let slot = self.waiting.first(conn)?;
        let item = self.waiting.at(slot).item;
        self.take_out(slot);
        Some(item)
    }

    /// The first PDU of a connection is taken out: what the rules look at of it.
    #[inline(always)]
    pub(crate) fn drop_first(&mut self, conn: usize) -> Option<Marks>
        requires kept { AreKept self.old }
        requires conn { conn < length self.old.waiting.lists }
        ensures marks { result ≡ option_map marks_of (first_item (queue_at (waits_of self.old) conn)) }
        ensures kept { AreKept self.new }
        ensures state { waits_of self.new ≡ popped conn (waits_of self.old) }
    {
        self.waiting.known();
        let slot = self.waiting.first(conn)?;
        let marks = marks_of(&self.waiting.at(slot).item);
        self.take_out(slot);
        Some(marks)
    }

    /// All that waits of a command is dropped.
    pub(crate) fn drop_of(&mut self, command: u32)
        requires kept { AreKept self.old }
        requires low { 1 ≤ command }
        requires high { command ≤ length self.old.owned.lists - 1 }
        ensures kept { AreKept self.new }
        ensures state { waits_of self.new ≡ dropped_of command (waits_of self.old) }
    {
        while let Some(slot) = self.owned.first(command as usize) {
            self.waiting.known();
            self.owned.known();
            self.take_out(slot);
        }
    }

    /// What waits of a command waits on, and is of none.
    #[inline(always)]
    pub(crate) fn release(&mut self, command: u32)
        requires kept { AreKept self.old }
        requires low { 1 ≤ command }
        requires high { command ≤ length self.old.owned.lists - 1 }
        ensures kept { AreKept self.new }
        ensures state { waits_of self.new ≡ released_of command (waits_of self.old) }
    {
        while let Some(slot) = self.owned.first(command as usize) {
            self.waiting.known();
            self.owned.known();
            self.let_go(slot);
        }
    }

    /// Time passes.
    #[inline(always)]
    pub(crate) fn pass_time(&mut self)
        requires { self.old.time < 2 ^ 64 - 1 }
        ensures state { self.new ≡ record self.old { time = self.old.time + 1 } }
        ensures kept { AreKept self.old → AreKept self.new }
    {
        self.time += 1;
    }

    /// Whether something waits that stands in this list of `fence`, and entered before this time.
    #[inline(always)]
    pub(crate) fn is_behind(&self, kind: usize, time: u64) -> bool
        requires kept { AreKept self.now }
        requires low { 1 ≤ kind }
        requires high { kind ≤ 2 }
        ensures yes { result ≡ true → IsBehind self.now.waiting kind time }
        ensures no { result ≡ false → IsBehindNone self.now.waiting kind time }
    {
        self.waiting.known();
        match self.fence.first(kind) {
            Some(slot) => self.waiting.at(slot).time < time,
            None => false,
        }
    }

    /// Whether anything waits that takes a StatSN and entered before this time.
    #[inline(always)]
    pub(crate) fn is_behind_any(&self, time: u64) -> bool
        requires { AreKept self.now }
        ensures { result ≡ any_in (is_taking_before time) (waits_of self.now) }
    {
        self.is_behind(FENCED, time) || self.is_behind(TAKES, time)
    }

    /// A slot is in no queue any more.
    #[inline(always)]
    fn take_out(&mut self, slot: u32)
        requires kept { AreKept self.old }
        requires waits { 1 ≤ times_in slot self.old.waiting.lists }
        ensures kept { AreKept self.new }
        ensures left { Leaves self.old self.new slot }
    {
        self.waiting.known();
        self.owned.known();
        self.fence.known();
        let conn = self.waiting.list_of(slot);
        let kept = self.waiting.at(slot);
        count_out(&mut self.counts[conn], &mut self.all, &kept.item);
        self.waiting.remove(slot);
        move_owned(&mut self.owned, slot, OF_NONE);
        self.fence.move_to_back(slot, TAKES_NONE);
    }

    /// What a slot has is of no command any more.
    #[inline(never)]
    fn let_go(&mut self, slot: u32)
        requires kept { AreKept self.old }
        requires waits { 1 ≤ times_in slot self.old.waiting.lists }
        ensures kept { AreKept self.new }
        ensures gone { LetsGo self.old self.new slot }
    {
        self.waiting.known();
        self.owned.known();
        let Kept { item, time } = *self.waiting.at(slot);
        let item = Waiting {
            command: None,
            ..item
        };
        self.waiting.set(slot, Kept { item, time });
        move_owned(&mut self.owned, slot, OF_NONE);
    }
}

/// A slot goes to a list of `owned`.
#[inline(always)]
fn move_owned(owned: &mut Lists<u8>, slot: u32, list: usize)
    requires slot { 1 ≤ times_in slot owned.old.lists }
    requires list { list < length owned.old.lists }
    ensures { GoesTo owned.old owned.new list slot }
{
    if list == OF_NONE {
        free_owned(owned, slot);
    } else {
        owned.move_to_back(slot, list);
    }
}

/// A slot is of no command from now on. It stays where it is if it was so before.
#[inline(always)]
fn free_owned(owned: &mut Lists<u8>, slot: u32)
    requires slot { 1 ≤ times_in slot owned.old.lists }
    requires some { 1 ≤ length owned.old.lists }
    ensures { GoesTo owned.old owned.new 0 slot }
{
    owned.known();
    let list = owned.list_of(slot);
    if list == OF_NONE {
        return;
    }
    owned.move_to_back(slot, OF_NONE);
}

/// The list of `owned` that it stands in as it waits.
#[inline(always)]
fn place_of(item: &Waiting) -> usize
    ensures { result ≡ place_of item.now }
{
    item.command.unwrap_or(0) as usize
}

/// The list of `fence` that it stands in as it waits.
#[inline(always)]
fn kind_of(item: &Waiting) -> usize
    ensures { result ≡ kind_of item.now }
{
    if item.fenced {
        FENCED
    } else if item.takes {
        TAKES
    } else {
        TAKES_NONE
    }
}

/// So many lists, with all slots in the first one.
fn all_in_first(alloc: Global, lists: usize, room: usize) -> Result<Lists<u8>, AllocError>
    requires some { 1 ≤ lists }
    requires room { room + lists + 2 ≤ 4294967295 }
    ensures { IfOk result (λ m. AreInFirst m lists room) }
{
    let mut slots = Lists::with_room(alloc, lists, room, 0u8)?;
    for _ in 0..room {
        slots.known();
        slots.push_back(0, 0);
    }
    Ok(slots)
}
