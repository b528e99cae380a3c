//! The commands of a linked set in the order in which they entered.

ghost use Rattle.std.specs.Prelude.{◌≡◌, ℕ, ◌+◌, ◌<◌, ◌≤◌, ◌++◌, [], ◌∷◌, true, false, None, Some, length, slice_index_or, All, MatchOption, map, take, drop, min, max, position, if◌then◌else◌};
ghost use Rattle.std.specs.List.{position_or_len, remove};
ghost use Rattle.iscsi_slots.specs.Slots.{times};
ghost use Rattle.iscsi_tasks.specs.declared.member.Member.{Member};
ghost use Rattle.iscsi_tasks.specs.Sets.{InOrder, after_moment, is_head_of, is_new, next_in, given_in};
ghost use Rattle.iscsi_tasks.specs.Counted.{is_ordered_in, enabled_now};
ghost use Rattle.iscsi_tasks.specs.Chains.{AreApart, chained};
ghost use Rattle.iscsi_tasks.specs.Marked.{HasTicket, IsMarked, IsSlotOf, IsFirstNew, IsPastNone, IsSpan, is_none_marked, pushed_by};

use crate::chain::Chain;
use crate::marks::{Marks, moved_off};
use crate::node::ENDS;
use crate::task::Task;

/// The slot of the command with this ticket. It looks at the slot `guess` first, and then along the set.
pub(crate) fn slot_of(chain: &Chain, ticket: u64, guess: u16) -> Option<u16>
    ensures { IsSlotOf chain.now.slots chain.now.members ticket result }
{
    if is_slot_of(chain, ticket, guess) {
        return Some(guess);
    }
    seek(chain, ticket)
}

/// Whether the command in this slot is there, and has this ticket.
#[inline(always)]
pub(crate) fn is_slot_of(chain: &Chain, ticket: u64, slot: u16) -> bool
    ensures { result ≡ true → HasTicket chain.now.slots chain.now.members ticket slot }
{
    chain.holds(slot) && chain.at(slot).task.ticket == ticket
}

/// The slot of the command with this ticket. It looks along the set.
#[inline(never)]
#[tactic(auto, using(crate::proofs::MarkedLemmas::some_at, std::proofs::lemmas::Grind::common_steps))]
pub(crate) fn seek(chain: &Chain, ticket: u64) -> Option<u16>
    ensures { IsSlotOf chain.now.slots chain.now.members ticket result }
{
    let mut slot = chain.oldest();
    for _ in 0..chain.len() {
        if chain.at(slot).task.ticket == ticket {
            return Some(slot);
        }
        slot = chain.after(slot);
    }
    None
}

/// The command enters behind all others: its slot.
#[inline(always)]
pub(crate) fn push(
    chain: &mut Chain,
    marks: &mut Marks,
    task: Task,
    enabled: bool,
    given: bool,
) -> u16
    requires marked { IsMarked marks.old chain.old.slots chain.old.members }
    requires len { length chain.old.members < 1024 }
    requires room { length chain.old.members < chain.old.room }
    requires newest { All (λ m. m.task.ticket < task.ticket) chain.old.members }
    requires head { is_head_of task.attr ≡ true → enabled ≡ true }
    ensures members { chain.new.members ≡ chain.old.members
        ++ record { task = task; enabled = enabled; given = given } ∷ [] }
    ensures slots { chain.new.slots ≡ chain.old.slots ++ result ∷ [] }
    ensures room { chain.new.room ≡ chain.old.room }
    ensures marks { marks.new ≡ pushed_by marks.old task.attr enabled given result }
    ensures marked { IsMarked marks.new chain.new.slots chain.new.members }
{
    let slot = chain.push(task, enabled, given);
    marks.note_last(task.attr, enabled, given, slot);
    slot
}

/// The command in this slot leaves.
pub(crate) fn remove(chain: &mut Chain, marks: &mut Marks, slot: u16)
    requires marked { IsMarked marks.old chain.old.slots chain.old.members }
    requires there { 1 ≤ times slot chain.old.slots }
    ensures state { (k : ℕ) → k < length chain.old.slots → slice_index_or chain.old.slots k 0 ≡ slot →
        chain.new ≡ chained (remove chain.old.slots k) (remove chain.old.members k) chain.old.room }
    ensures marked { IsMarked marks.new chain.new.slots chain.new.members }
{
    let attr = chain.at(slot).task.attr;
    let next = chain.after(slot);
    chain.remove(slot);
    let ordered = next_ordered(chain, moved_off(marks.ordered, slot, next));
    marks.note_left(slot, next, attr, ordered);
}

/// The slot of the oldest ORDERED command, none of which is before slot `from`, and `ENDS` where there is none.
#[tactic(auto, using(crate::proofs::MarkedLemmas::some_at, crate::proofs::MarkedLemmas::within_some, std::proofs::lemmas::Grind::common_steps))]
fn next_ordered(chain: &Chain, from: u16) -> u16
    requires { IsPastNone chain.now.slots chain.now.members from }
    ensures { result ≡ slice_index_or chain.now.slots (position_or_len is_ordered_in chain.now.members) 0 }
{
    let mut slot = from;
    for _ in 0..chain.len() {
        if slot == ENDS || chain.at(slot).task.attr.is_ordered() {
            return slot;
        }
        slot = chain.after(slot);
    }
    ENDS
}

/// The command in this slot leaves, and what becomes free by that is enabled.
pub(crate) fn let_go(chain: &mut Chain, marks: &mut Marks, slot: u16)
    requires marked { IsMarked marks.old chain.old.slots chain.old.members }
    requires there { 1 ≤ times slot chain.old.slots }
    ensures members { (k : ℕ) → k < length chain.old.slots → slice_index_or chain.old.slots k 0 ≡ slot →
        chain.new.members ≡ after_moment (remove chain.old.members k) }
    ensures slots { (k : ℕ) → k < length chain.old.slots → slice_index_or chain.old.slots k 0 ≡ slot →
        chain.new.slots ≡ remove chain.old.slots k }
    ensures room { chain.new.room ≡ chain.old.room }
    ensures marked { IsMarked marks.new chain.new.slots chain.new.members }
{
    remove(chain, marks, slot);
    enable_free(chain, marks);
}

/// Enables the commands that became free as another one left.
#[tactic(auto, using(crate::proofs::MarkedLemmas::span_to_end, crate::proofs::MarkedLemmas::some_at, crate::proofs::MarkedLemmas::within_some, std::proofs::lemmas::Grind::common_steps))]
pub(crate) fn enable_free(chain: &mut Chain, marks: &mut Marks)
    requires { IsMarked marks.old chain.old.slots chain.old.members }
    ensures state { chain.new ≡ record chain.old { members = after_moment chain.old.members } }
    ensures marked { IsMarked marks.new chain.new.slots chain.new.members }
{
    if marks.heads > 0 || marks.dormant == ENDS {
        return;
    }
    let end = free_end(chain, marks);
    if !is_before(chain, marks.dormant, end) {
        return;
    }
    let enabled = with_enabled(chain, marks, end);
    enable(chain, marks.dormant, end);
    *marks = enabled;
}

/// The marks once the commands from the first dormant one on up to slot `end` are enabled. They are new then, and those
/// that are new stay so.
#[tactic(auto, using(crate::proofs::MarkedLemmas::span_to_end, std::proofs::lemmas::Grind::common_steps))]
fn with_enabled(chain: &Chain, marks: &Marks, end: u16) -> Marks
    requires marked { IsMarked marks.now chain.now.slots chain.now.members }
    requires there { 1 ≤ times marks.now.dormant chain.now.slots }
    requires span { IsSpan chain.now.slots end 0 }
    ensures marked { (i k : ℕ) → i < k → k ≤ length chain.now.slots →
        marks.now.dormant ≡ slice_index_or chain.now.slots i 0 → end ≡ slice_index_or chain.now.slots k 0 →
        IsMarked result chain.now.slots (map enabled_now (take k chain.now.members) ++ drop k chain.now.members) }
    ensures dormant { result.dormant ≡ end }
    // What is new begins no earlier and ends no later than it has to.
    ensures new_from { (i j : ℕ) → marks.now.dormant ≡ slice_index_or chain.now.slots i 0 →
        marks.now.new_from ≡ slice_index_or chain.now.slots j 0 →
        result.new_from ≡ slice_index_or chain.now.slots (if is_none_marked marks.now then i else min i j) 0 }
    ensures new_to { (j k : ℕ) → marks.now.new_to ≡ slice_index_or chain.now.slots j 0 →
        end ≡ slice_index_or chain.now.slots k 0 →
        result.new_to ≡ slice_index_or chain.now.slots (if is_none_marked marks.now then k else max j k) 0 }
{
    if marks.is_none_new() {
        return marks.with_enabled(end, marks.dormant, end);
    }
    let new_from = older(chain, marks.dormant, marks.new_from);
    let new_to = younger(chain, marks.new_to, end);
    marks.with_enabled(end, new_from, new_to)
}

/// The older one of two commands. `ENDS` stands behind all.
fn older(chain: &Chain, one: u16, other: u16) -> u16
    requires order { InOrder chain.now.members }
    requires apart { AreApart chain.now.slots }
    requires long { length chain.now.slots ≡ length chain.now.members }
    requires there { 1 ≤ times one chain.now.slots }
    requires other { IsSpan chain.now.slots other 0 }
    ensures { (j k : ℕ) → one ≡ slice_index_or chain.now.slots j 0 → other ≡ slice_index_or chain.now.slots k 0 →
        result ≡ slice_index_or chain.now.slots (min j k) 0 }
{
    if is_before(chain, one, other) {
        one
    } else {
        other
    }
}

/// The younger one of two commands. `ENDS` stands behind all.
#[tactic(auto, using(crate::proofs::MarkedLemmas::some_at, crate::proofs::MarkedLemmas::within_some, std::proofs::lemmas::List::get_or_past, crate::proofs::ChainLemmas::not_end, std::proofs::lemmas::Grind::common_steps))]
fn younger(chain: &Chain, one: u16, other: u16) -> u16
    requires order { InOrder chain.now.members }
    requires apart { AreApart chain.now.slots }
    requires long { length chain.now.slots ≡ length chain.now.members }
    requires one { IsSpan chain.now.slots one 0 }
    requires other { IsSpan chain.now.slots other 0 }
    ensures { (j k : ℕ) → one ≡ slice_index_or chain.now.slots j 0 → other ≡ slice_index_or chain.now.slots k 0 →
        result ≡ slice_index_or chain.now.slots (max j k) 0 }
{
    if one != ENDS && is_before(chain, one, other) {
        other
    } else {
        one
    }
}

/// The slot behind the last command that is free, where none is HEAD OF QUEUE and there are some: those before the
/// oldest ORDERED one are, and the oldest of all.
fn free_end(chain: &Chain, marks: &Marks) -> u16
    requires marked { IsMarked marks.now chain.now.slots chain.now.members }
    requires some { 0 < length chain.now.members }
    ensures { result ≡ slice_index_or chain.now.slots
        (max 1 (position_or_len is_ordered_in chain.now.members)) 0 }
{
    if marks.ordered != ENDS && marks.ordered == chain.oldest() {
        chain.after(marks.ordered)
    } else {
        marks.ordered
    }
}

/// Whether a command is older than the one in slot `end`.
#[tactic(auto, using(crate::proofs::MarkedLemmas::some_at, crate::proofs::MarkedLemmas::within_some, crate::proofs::ChainLemmas::not_end, std::proofs::lemmas::Grind::common_steps))]
fn is_before(chain: &Chain, slot: u16, end: u16) -> bool
    requires order { InOrder chain.now.members }
    requires apart { AreApart chain.now.slots }
    requires long { length chain.now.slots ≡ length chain.now.members }
    requires there { 1 ≤ times slot chain.now.slots }
    requires end { IsSpan chain.now.slots end 0 }
    ensures yes { (j k : ℕ) → j < length chain.now.slots → k ≤ length chain.now.slots →
        slot ≡ slice_index_or chain.now.slots j 0 → end ≡ slice_index_or chain.now.slots k 0 →
        result ≡ true → j < k }
    ensures no { (j k : ℕ) → j < length chain.now.slots → k ≤ length chain.now.slots →
        slot ≡ slice_index_or chain.now.slots j 0 → end ≡ slice_index_or chain.now.slots k 0 →
        result ≡ false → k ≤ j }
{
    end == ENDS || chain.at(slot).task.ticket < chain.at(end).task.ticket
}

/// Enables the commands from one slot on up to another one.
#[tactic(auto, using(crate::proofs::PlaceLemmas::enabled_so_far, crate::proofs::CountLemmas::enabled_up_to, std::proofs::lemmas::Grind::common_steps))]
fn enable(chain: &mut Chain, from: u16, to: u16)
    requires { IsSpan chain.old.slots from to }
    ensures { (i j : ℕ) → i ≤ j → j ≤ length chain.old.slots → from ≡ slice_index_or chain.old.slots i 0 →
        to ≡ slice_index_or chain.old.slots j 0 →
        ((k : ℕ) (d : Member) → k < i → (slice_index_or chain.old.members k d).enabled ≡ true) →
        chain.new ≡ record chain.old {
          members = map enabled_now (take j chain.old.members)
              ++ drop j chain.old.members;
        } }
{
    let mut slot = from;
    for _ in 0..chain.len() {
        if slot == to {
            return;
        }
        chain.enable(slot);
        slot = chain.after(slot);
    }
}

/// Gives the oldest ticket that is enabled and wasn't given before.
#[tactic(auto, using(crate::proofs::MarkedLemmas::some_at, crate::proofs::GivingLemmas::next_in_none, crate::proofs::PlaceLemmas::none_at_position, crate::proofs::GivingLemmas::given_in_none, crate::proofs::MarkedLemmas::marked_none, std::proofs::lemmas::Grind::common_steps))]
pub(crate) fn give_next(chain: &mut Chain, marks: &mut Marks) -> Option<u64>
    requires { IsMarked marks.old chain.old.slots chain.old.members }
    ensures ticket { result ≡ next_in chain.old.members }
    ensures state { chain.new ≡ record chain.old { members = given_in chain.old.members } }
    ensures marked { IsMarked marks.new chain.new.slots chain.new.members }
    // None is looked at again that is given or older than that ..
    ensures behind { (k : ℕ) → position is_new chain.old.members ≡ Some k →
        marks.new ≡ record marks.old { new_from = slice_index_or chain.old.slots (k + 1) 0 } }
    // .. and once there is none, no command until one is enabled.
    ensures none { result ≡ None → marks.new.new_from ≡ marks.new.new_to }
{
    let Some(slot) = first_new(chain, marks) else {
        marks.new_from = marks.new_to;
        return None;
    };
    let ticket = chain.at(slot).task.ticket;
    marks.new_from = chain.after(slot);
    chain.give(slot);
    Some(ticket)
}

/// The slot of the oldest command that is enabled and wasn't given.
#[tactic(auto, using(crate::proofs::MarkedLemmas::some_at, crate::proofs::MarkedLemmas::within_some, std::proofs::lemmas::Grind::common_steps))]
fn first_new(chain: &Chain, marks: &Marks) -> Option<u16>
    requires { IsMarked marks.now chain.now.slots chain.now.members }
    ensures { MatchOption result (position is_new chain.now.members ≡ None)
        (λ slot. IsFirstNew chain.now.slots chain.now.members slot) }
{
    let mut slot = marks.new_from;
    for _ in 0..chain.len() {
        if slot == marks.new_to || slot == ENDS {
            return None;
        }
        if chain.at(slot).is_new() {
            return Some(slot);
        }
        slot = chain.after(slot);
    }
    None
}
