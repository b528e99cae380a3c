//! The live commands, found by ticket and by tag.

ghost use Rattle.std.specs.Prelude.{◌≡◌, ℕ, ◌+◌, ◌*◌, ◌<◌, ◌≤◌, ◌==◌, ◌↔◌, ◌++◌, Bool, List, [], ◌∷◌, true, false, length, take, slice_set, vec_len, vec_capacity, All, IfOk, option_map};
ghost use Rattle.std.specs.List.{list_any};
ghost use Rattle.iscsi_slots.specs.Queued.{queued};
ghost use Rattle.iscsi_slots.specs.Places.{AreAscending as AreKeysAscending};
ghost use Rattle.iscsi_commands.specs.Commands.{AreAscending, AreTagsApart, find_ticket, find_tag, without_ticket};
ghost use Rattle.iscsi_commands.specs.Log.{AreTagged, IsLiveAt, IsLivePlace, ended, entry_at, live_in, ticket_of};

use crate::closing::close_up;
use crate::entry::{Entry, GROUPS, entry_at, hint_of};
use crate::live::{Live, Located, Placed};
use crate::tag_index::TagIndex;
use std::alloc::{AllocError, Global};
use std::marker::Model;

/// A command that enters finds fewer entries in the log than twice the live commands and so many more.
const SPARE: usize = 64;

/// The live commands, found by ticket and by Initiator Task Tag. No two have the same tag.
///
/// Commands that enter are noted in a log, one behind the other. One that leaves stays there, marked as ended, until a
/// command enters and there are at least 64 more ended ones than live ones: then the live ones close up. Or until one
/// enters whose ticket isn't above its own. The place of a command in the log is told by its ticket and by its tag,
/// each at once mostly. Where a younger command has the ticket's hint, or another live one the place of the tag's
/// group, it is found by a binary search, unless the last one or the first one that is searched tells.
pub struct LiveCommands {
    /// The commands in the order of their tickets.
    log: Vec<Entry>,
    /// How many of them are live.
    live: usize,
    room: usize,
    /// For each group of tickets where the command of it that entered last stands in the log, if it is live. Else any
    /// number: a place that it had, or what a closing up noted there.
    hints: Vec<u16>,
    tags: TagIndex,
}

impl Drop for LiveCommands {
    fn drop(self) {
        let LiveCommands {
            log: _log,
            live: _live,
            room: _room,
            hints: _hints,
            tags: _tags,
        } = self;
    }
}

impl Model for LiveCommands {
    ghost use Rattle.std.specs.Prelude.{length, vec_capacity};
    ghost use Rattle.iscsi_slots.specs.Queued.{Queued, queued};
    ghost use Rattle.iscsi_commands.specs.declared.live.Live.{Live};
    ghost use Rattle.iscsi_commands.specs.Log.{AreLogged, live_in};

    ghost Value = { Queued Live };

    ghost view = { λ c. queued (live_in c.log.items) c.room };

    ghost invariant = { λ c. AreLogged c.log.items (vec_capacity c.log) c.live c.room (length c.hints.items)
        c.tags.places.items c.tags.crowded.items c.tags.others.items c.tags.others.room };
}

impl LiveCommands {
    /// None yet, with room for so many, 2,016 at the most. It takes all its memory here.
    pub fn with_room(alloc: Global, room: usize) -> Result<LiveCommands, AllocError>
        requires { room ≤ 2016 }
        ensures { IfOk result (λ c. c ≡ queued [] room) }
    {
        let most = 2 * room + SPARE;
        Ok(LiveCommands {
            log: Vec::with_capacity(alloc, most)?,
            live: 0,
            room,
            hints: vec![in alloc; 0; GROUPS]?,
            tags: TagIndex::with_room(alloc, room)?,
        })
    }

    /// How many commands are live.
    #[tactic(auto, using(crate::proofs::LogLemmas::tickets_up))]
    pub fn len(&self) -> usize
        ensures len { result ≡ length self.now.items }
        ensures within { length self.now.items ≤ self.now.room }
        ensures ascending { AreAscending self.now.items }
    {
        self.live
    }

    /// The command with this ticket.
    #[tactic(auto, using(crate::proofs::LogLemmas::tickets_up))]
    pub fn find(&self, ticket: u64) -> Option<Live>
        ensures command { result ≡ find_ticket ticket self.now.items }
        ensures ascending { AreAscending self.now.items }
    {
        Some(self.find_located(ticket)?.command)
    }

    /// The command with this ticket, and the slot that it entered with.
    ///
    /// No clause speaks of the slot: it is where the command's task set looks first, and the set verifies it.
    #[tactic(auto, using(crate::proofs::LogLemmas::tickets_up))]
    #[inline(always)]
    pub fn find_placed(&self, ticket: u64) -> Option<Placed>
        ensures command { option_map (λ p. p.command) result ≡ find_ticket ticket self.now.items }
        ensures ascending { AreAscending self.now.items }
    {
        let located = self.find_located(ticket)?;
        Some(Placed {
            command: located.command,
            slot: located.slot,
        })
    }

    /// The command with this ticket, the slot that it entered with, and where it was found: `remove_located` looks there
    /// first.
    #[tactic(auto, using(crate::proofs::LogLemmas::tickets_up))]
    #[inline(always)]
    pub fn find_located(&self, ticket: u64) -> Option<Located>
        ensures command { option_map (λ p. p.command) result ≡ find_ticket ticket self.now.items }
        ensures ascending { AreAscending self.now.items }
    {
        // A stale ticket isn't sought among those that ended.
        if self.live == 0 {
            return None;
        }
        let hint = usize::from(self.hints[hint_of(ticket)]);
        if is_at(&self.log, hint, ticket) {
            // Whether it is live decides alone here: a place that may be none would be made and tested again.
            if !entry_at(&self.log, hint).is_live {
                return None;
            }
            return Some(located_at(&self.log, hint));
        }
        let place = seek(&self.log, ticket)?;
        Some(located_at(&self.log, place))
    }

    /// The command with this Initiator Task Tag.
    pub fn find_tagged(&self, itt: u32) -> Option<Live>
        ensures command { result ≡ find_tag itt self.now.items }
        ensures alone { AreTagsApart self.now.items }
    {
        let k = self.tags.find(&self.log, itt)?;
        Some(entry_at(&self.log, k).command)
    }

    /// A command enters, with the slot that it has in its task set. Its ticket is greater than all others', and no
    /// other one has its tag.
    ///
    /// Ended commands go from the log whose tickets aren't below the new one. Where it still has at least 64 more ended
    /// commands than live ones, the live ones close up: a pass over it, which the calls have paid for by which those
    /// left.
    #[inline(always)]
    pub fn push(&mut self, command: Live, slot: u16)
        requires room { length self.old.items < self.old.room }
        requires newest { All (λ l. l.ticket < command.ticket) self.old.items }
        requires unused { list_any (λ l. l.itt == command.itt) self.old.items ≡ false }
        ensures { self.new ≡ queued (self.old.items ++ command ∷ []) self.old.room }
    {
        make_way(
            &mut self.log,
            self.live,
            &mut self.hints,
            &mut self.tags,
            command.ticket,
        );
        append(
            &mut self.log,
            &mut self.hints,
            &mut self.tags,
            command,
            slot,
        );
        self.live += 1;
    }

    /// The command with this ticket leaves, if there is one.
    #[inline(always)]
    pub fn remove(&mut self, ticket: u64)
        ensures { self.new ≡ queued (without_ticket ticket self.old.items) self.old.room }
    {
        let hint = usize::from(self.hints[hint_of(ticket)]);
        self.remove_located(ticket, hint);
    }

    /// The command with this ticket leaves, if there is one. It is looked for at this place first, which may be any.
    #[inline(always)]
    pub fn remove_located(&mut self, ticket: u64, place: usize)
        ensures { self.new ≡ queued (without_ticket ticket self.old.items) self.old.room }
    {
        if !is_live_at(&self.log, place, ticket) {
            self.remove_sought(ticket);
            return;
        }
        self.tags.leave(&self.log, place);
        end(&mut self.log, place);
        self.live -= 1;
    }

    /// The command with this ticket leaves, if there is one, where no place tells it.
    #[inline(never)]
    fn remove_sought(&mut self, ticket: u64)
        ensures { self.new ≡ queued (without_ticket ticket self.old.items) self.old.room }
    {
        if let Some(k) = seek(&self.log, ticket) {
            self.tags.leave(&self.log, k);
            end(&mut self.log, k);
            self.live -= 1;
        }
    }
}

/// Ended commands with this ticket or a greater one go. Where the log is long for so many live commands then, these
/// close up.
#[inline(always)]
#[tactic(auto, using(crate::proofs::LogLemmas::live_fewer))]
fn make_way(log: &mut Vec<Entry>, live: usize, hints: &mut [u16], tags: &mut TagIndex, ticket: u64)
    requires ascending { AreKeysAscending ticket_of log.old.items }
    requires counted { live ≡ length (live_in log.old.items) }
    requires short { length log.old.items ≤ 4096 }
    requires hints { length hints.old ≡ 4096 }
    requires tagged { AreTagged log.old.items tags.old.places.items tags.old.crowded.items tags.old.others.items }
    requires newest { All (λ l. l.ticket < ticket) (live_in log.old.items) }
    ensures same { live_in log.new.items ≡ live_in log.old.items }
    ensures ascending { AreKeysAscending ticket_of log.new.items }
    ensures newest { All (λ e. ticket_of e < ticket) log.new.items }
    ensures few { length log.new.items < 2 * live + 64 }
    ensures tagged { AreTagged log.new.items tags.new.places.items tags.new.crowded.items tags.new.others.items }
    ensures room { tags.new.others.room ≡ tags.old.others.room }
    ensures capacity { vec_capacity log.new ≡ vec_capacity log.old }
{
    forget_ended(log, ticket);
    if log.len() >= 2 * live + SPARE {
        close_up(log, hints, tags);
    }
}

/// The ended commands with this ticket or a greater one, which are the last ones of the log, go from it.
#[inline(always)]
fn forget_ended(log: &mut Vec<Entry>, ticket: u64)
    requires ascending { AreKeysAscending ticket_of log.old.items }
    requires newest { All (λ l. l.ticket < ticket) (live_in log.old.items) }
    ensures same { live_in log.new.items ≡ live_in log.old.items }
    ensures ascending { AreKeysAscending ticket_of log.new.items }
    ensures newest { All (λ e. ticket_of e < ticket) log.new.items }
    ensures shorter { length log.new.items ≤ length log.old.items }
    ensures tagged { (places : List ℕ) → (crowded : List Bool) → (others : List ℕ) →
        AreTagged log.old.items places crowded others → AreTagged log.new.items places crowded others }
    ensures capacity { vec_capacity log.new ≡ vec_capacity log.old }
{
    if !is_newest(log, ticket) {
        let below = count_below(log, ticket);
        shorten(log, below);
    }
}

/// So many commands stay in the log. It is rare, and a call of its own: within a push it would cost each one
/// registers.
#[inline(never)]
fn shorten(log: &mut Vec<Entry>, len: usize)
    ensures log { log.new.items ≡ take len log.old.items }
    ensures capacity { vec_capacity log.new ≡ vec_capacity log.old }
{
    log.truncate(len);
}

/// A command enters behind all others of the log, with the slot that it has in its task set.
#[inline(always)]
fn append(log: &mut Vec<Entry>, hints: &mut [u16], tags: &mut TagIndex, command: Live, slot: u16)
    requires room { vec_len log.old < vec_capacity log.old }
    requires short { length log.old.items < 65536 }
    requires hints { length hints.old ≡ 4096 }
    requires tagged { AreTagged log.old.items tags.old.places.items tags.old.crowded.items tags.old.others.items }
    requires others { length tags.old.others.items < tags.old.others.room }
    requires unused { list_any (λ l. l.itt == command.itt) (live_in log.old.items) ≡ false }
    ensures log { log.new.items ≡ log.old.items ++ record { command = command; slot = slot; is_live = true } ∷ [] }
    ensures tagged { AreTagged log.new.items tags.new.places.items tags.new.crowded.items tags.new.others.items }
    ensures room { tags.new.others.room ≡ tags.old.others.room }
    ensures capacity { vec_capacity log.new ≡ vec_capacity log.old }
{
    let k = log.len();
    log.push_reserved(Entry {
        command,
        slot,
        is_live: true,
    });
    hints[hint_of(command.ticket)] = k as u16;
    tags.enter(log, k);
}

/// The command at a place of the log isn't live any more.
#[inline(always)]
fn end(log: &mut Vec<Entry>, k: usize)
    requires { k < length log.old.items }
    ensures log { log.new.items ≡ slice_set log.old.items k (ended (entry_at log.old.items k)) }
    ensures capacity { vec_capacity log.new ≡ vec_capacity log.old }
{
    log[k].is_live = false;
}

/// Whether a ticket is greater than all of the log.
#[inline(always)]
fn is_newest(log: &[Entry], ticket: u64) -> bool
    requires { AreKeysAscending ticket_of log.now }
    ensures { (result ≡ true) ↔ All (λ e. ticket_of e < ticket) log.now }
{
    let len = log.len();
    len == 0 || entry_at(log, len - 1).command.ticket < ticket
}

/// The command at a place, with its slot.
#[inline(always)]
fn located_at(log: &[Entry], place: usize) -> Located
    requires { place < length log.now }
    ensures { result.command ≡ (entry_at log.now place).command }
{
    let entry = entry_at(log, place);
    Located {
        command: entry.command,
        slot: entry.slot,
        place,
    }
}

/// The place of the live command with this ticket, where the hint doesn't tell it.
#[inline(never)]
fn seek(log: &[Entry], ticket: u64) -> Option<usize>
    requires { AreKeysAscending ticket_of log.now }
    ensures { IsLivePlace log.now ticket result }
{
    let k = count_below(log, ticket);
    if is_at(log, k, ticket) && entry_at(log, k).is_live {
        Some(k)
    } else {
        None
    }
}

/// Whether the command at a place is there, and has this ticket.
#[inline(always)]
fn is_at(log: &[Entry], k: usize, ticket: u64) -> bool
    ensures yes { result ≡ true → (k < length log.now) × (ticket_of (entry_at log.now k) ≡ ticket) }
    ensures no { k < length log.now → ticket_of (entry_at log.now k) ≡ ticket → result ≡ true }
{
    k < log.len() && entry_at(log, k).command.ticket == ticket
}

/// Whether the command at a place is there and live, and has this ticket.
#[inline(always)]
fn is_live_at(log: &[Entry], k: usize, ticket: u64) -> bool
    ensures { result ≡ true → IsLiveAt log.now k × (ticket_of (entry_at log.now k) ≡ ticket) }
{
    is_at(log, k, ticket) && entry_at(log, k).is_live
}

/// How many commands of the log have a lower ticket. Where the ticket isn't between those of the last one and the
/// first one, they tell.
#[inline(never)]
fn count_below(log: &[Entry], ticket: u64) -> usize
    requires { AreKeysAscending ticket_of log.now }
    ensures within { result ≤ length log.now }
    ensures below { (k : ℕ) → k < result → ticket_of (entry_at log.now k) < ticket }
    ensures above { (k : ℕ) → result ≤ k → k < length log.now → ticket ≤ ticket_of (entry_at log.now k) }
{
    if is_newest(log, ticket) {
        return log.len();
    }
    if ticket <= entry_at(log, 0).command.ticket {
        return 0;
    }
    log.partition_point(|entry| entry.command.ticket < ticket)
}
