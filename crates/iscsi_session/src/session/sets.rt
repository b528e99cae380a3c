//! The task sets of a session's units.

ghost use Rattle.std.specs.Prelude.{◌≡◌, ◌+◌, ◌<◌, ◌≤◌, length, count_by, replicate, slice_index_or, slice_set, Some, IfSome, vec_len, vec_capacity};
ghost use Rattle.iscsi_tasks.specs.Sets.{opened, IsNewest, entered_to, is_new, next_in, given_by};
ghost use Rattle.iscsi_rules.specs.rules.Execution.{unit_named};
ghost use Rattle.iscsi_session.specs.private.Steps.{Appends, all_given, enable_effects, enable_effect, is_set_full};

use iscsi_sinks::EffectSink;
use iscsi_tasks::{LinkedTaskSet, Task};
use iscsi_wire::{Request, unit_of};
use std::alloc::Global;

/// The status CHECK CONDITION.
pub(crate) const CHECK_CONDITION: u8 = 0x02;

/// Opens an empty set for each of so many units. None where memory is refused.
pub(crate) fn open(alloc: Global, units: u32, depth: u32) -> Option<Vec<LinkedTaskSet>>
    requires depth { (1 ≤ depth) × (depth ≤ 1024) }
    ensures { IfSome result (λ sets. sets.items ≡ replicate units (opened depth)) }
{
    let mut sets = Vec::with_capacity(alloc, units as usize).ok()?;
    for _ in 0..units {
        sets.push_reserved(LinkedTaskSet::open(alloc, depth).ok()?);
    }
    Some(sets)
}

/// The unit that a request's LUN names, of so many.
pub(crate) fn unit_named(request: &Request, units: usize) -> Option<u16>
    ensures { result ≡ unit_named units request.now }
{
    let unit = unit_of(&request.lun())?;
    if usize::from(unit) < units {
        Some(unit)
    } else {
        None
    }
}

/// Whether a task set has as many commands as make it full.
#[inline(always)]
pub(crate) fn is_full(set: &LinkedTaskSet, depth: u32) -> bool
    ensures { result ≡ is_set_full depth set.now }
{
    depth <= set.len()
}

/// A command enters the set of a unit. None but itself can become enabled by that. The slot that it has there.
pub(crate) fn enter<S: EffectSink>(
    sets: &mut [LinkedTaskSet],
    unit: u16,
    task: Task,
    out: &mut S,
) -> u16
    requires unit { unit < length sets.old }
    requires not_full { length (slice_index_or sets.old unit (opened 0)).list
        < (slice_index_or sets.old unit (opened 0)).depth }
    requires newest { IsNewest task.ticket (slice_index_or sets.old unit (opened 0)) }
    requires room { S.len out.old + 1 ≤ S.capacity out.old }
    ensures sets { sets.new ≡ slice_set sets.old unit
        (given_by (entered_to (slice_index_or sets.old unit (opened 0)) task)) }
    ensures effects { Appends S.has (enable_effect unit
        (next_in (entered_to (slice_index_or sets.old unit (opened 0)) task).list)) out.old out.new }
    ensures capacity { S.capacity out.new ≡ S.capacity out.old }
    ensures spent { S.len out.new ≤ S.len out.old + 1 }
{
    let set = &mut sets[usize::from(unit)];
    let entered = set.enter_and_give(task).unwrap();
    if let Some(ticket) = entered.ticket {
        out.put_enable(ticket, unit);
    }
    entered.slot
}

/// Announces to a unit the commands of its set that became enabled.
#[inline(always)]
pub(crate) fn announce<S: EffectSink>(sets: &mut [LinkedTaskSet], unit: u16, out: &mut S)
    requires unit { unit < length sets.old }
    requires room { S.len out.old + count_by is_new (slice_index_or sets.old unit (opened 0)).list
        ≤ S.capacity out.old }
    ensures sets { sets.new ≡ slice_set sets.old unit (all_given (slice_index_or sets.old unit (opened 0))) }
    ensures effects { Appends S.has (enable_effects unit (slice_index_or sets.old unit (opened 0)).list) out.old out.new }
    ensures capacity { S.capacity out.new ≡ S.capacity out.old }
    ensures spent { S.len out.new ≤ S.len out.old + count_by is_new (slice_index_or sets.old unit (opened 0)).list }
{
    let set = &mut sets[usize::from(unit)];
    enable_new(set, unit, out);
}

/// Announces to a unit the commands that became enabled, the oldest first.
#[inline(always)]
#[tactic(auto, using(crate::proofs::KeptLemmas::given_one, crate::proofs::KeptLemmas::given_all, std::proofs::lemmas::Bool::Decides::nat_tests))]
fn enable_new<S: EffectSink>(set: &mut LinkedTaskSet, unit: u16, out: &mut S)
    requires room { S.len out.old + count_by is_new set.old.list ≤ S.capacity out.old }
    ensures set { set.new ≡ all_given set.old }
    ensures effects { Appends S.has (enable_effects unit set.old.list) out.old out.new }
    ensures capacity { S.capacity out.new ≡ S.capacity out.old }
    ensures spent { S.len out.new ≤ S.len out.old + count_by is_new set.old.list }
{
    while let Some(ticket) = set.next_new() {
        out.put_enable(ticket, unit);
    }
}
