//! Commands of a unit that leave before they are completed.

ghost use Rattle.std.specs.Prelude.{Some, ◌≡◌, ◌+◌, ◌<◌, ◌≤◌, [], true, length, count_by, slice_index_or, slice_set, All, IsSome, vec_len, vec_capacity};
ghost use Rattle.std.specs.List.{AllPairs};
ghost use Rattle.iscsi_tasks.specs.Sets.{opened};
ghost use Rattle.iscsi_session.specs.private.Standing.{are_ascending, are_known, tickets_of, tickets_in};
ghost use Rattle.iscsi_session.specs.private.Steps.{set_staying, covered_tickets, find_ticket, without_ticket, Appends, Takes, unit_told, AreCounted, is_numbered, finished_by, leave_each, commands_left, without_tickets, covers_ticket, covers_by, owed};

use crate::session::completion::finish;
use crate::session::{Session, sets};
use iscsi_commands::{LiveCommands, Located};
use iscsi_connections::Connections;
use iscsi_sinks::EffectSink;
use iscsi_tasks::{Cover, LinkedTaskSet};
use iscsi_window::EventWindow;

/// Which commands of a unit leave.
#[derive(Clone, Copy)]
pub(crate) enum Leaving {
    /// The one with this ticket, if it is there.
    One(u64),
    /// The covered ones.
    Covered(Cover),
}

impl Session {
    /// These commands of a unit leave, the oldest first.
    #[tactic(auto, using(crate::proofs::KeptLemmas::few_in, crate::proofs::KeptLemmas::few_live, crate::proofs::KeptLemmas::covered_up, crate::proofs::KeptLemmas::rises, std::proofs::lemmas::Bool::Decides::nat_tests))]
    pub(crate) fn leave<S: EffectSink>(&mut self, unit: u16, leaving: &Leaving, out: &mut S)
        requires unit { unit < length self.old.sets }
        requires room { S.len out.old + owed self.old.live self.old.sets ≤ S.capacity out.old }
        ensures done { Takes S.has S.capacity (commands_left self.old unit (covers_by leaving.now)) self.new out.old out.new }
        ensures spent { S.len out.new + owed self.new.live self.new.sets ≤ S.len out.old
            + owed self.old.live self.old.sets }
    {
        dequeue(&mut self.sets, &self.live, unit, leaving, &mut self.left);
        end_all(
            &self.left,
            unit,
            &mut self.window,
            &mut self.connections,
            &mut self.live,
            out,
        );
    }

    /// The commands that became enabled are announced to their unit.
    #[inline(always)]
    pub(crate) fn announce_enabled<S: EffectSink>(&mut self, unit: u16, out: &mut S)
        requires unit { unit < length self.old.sets }
        requires room { S.len out.old + owed self.old.live self.old.sets ≤ S.capacity out.old }
        ensures done { Takes S.has S.capacity (unit_told self.old unit) self.new out.old out.new }
        ensures spent { S.len out.new + owed self.new.live self.new.sets ≤ S.len out.old
            + owed self.old.live self.old.sets }
    {
        sets::announce(&mut self.sets, unit, out);
    }
}

/// These commands leave the set of their unit, and their tickets are noted, the oldest one's first. They are still among
/// the live ones.
#[inline(always)]
fn dequeue(
    sets: &mut [LinkedTaskSet],
    live: &LiveCommands,
    unit: u16,
    leaving: &Leaving,
    left: &mut Vec<u64>,
)
    requires unit { unit < length sets.old }
    requires there { tickets_of (slice_index_or sets.old unit (opened 0)) ≡ tickets_in unit live.now.items }
    requires ascending { are_ascending live.now.items ≡ true }
    requires room { length (slice_index_or sets.old unit (opened 0)).list ≤ vec_capacity left.old }
    ensures sets { sets.new ≡ slice_set sets.old unit
        (set_staying (covers_by leaving.now) (slice_index_or sets.old unit (opened 0))) }
    ensures left { left.new.items ≡ covered_tickets (covers_by leaving.now)
        (slice_index_or sets.old unit (opened 0)).list }
    ensures capacity { vec_capacity left.new ≡ vec_capacity left.old }
{
    left.clear();
    match leaving {
        Leaving::One(ticket) => dequeue_one(sets, live, unit, *ticket, left),
        Leaving::Covered(cover) => sets[usize::from(unit)].leave_covered(cover, left),
    }
}

/// The command with this ticket leaves the set of its unit, and its ticket is noted, if it is there. It is still among
/// the live ones.
#[tactic(auto, using(crate::proofs::KeptLemmas::ticket_steps))]
fn dequeue_one(
    sets: &mut [LinkedTaskSet],
    live: &LiveCommands,
    unit: u16,
    ticket: u64,
    left: &mut Vec<u64>,
)
    requires unit { unit < length sets.old }
    requires there { tickets_of (slice_index_or sets.old unit (opened 0)) ≡ tickets_in unit live.now.items }
    requires ascending { are_ascending live.now.items ≡ true }
    requires none { left.old.items ≡ [] }
    requires room { length (slice_index_or sets.old unit (opened 0)).list ≤ vec_capacity left.old }
    ensures sets { sets.new ≡ slice_set sets.old unit
        (set_staying (covers_ticket ticket) (slice_index_or sets.old unit (opened 0))) }
    ensures left { left.new.items ≡ covered_tickets (covers_ticket ticket)
        (slice_index_or sets.old unit (opened 0)).list }
    ensures capacity { vec_capacity left.new ≡ vec_capacity left.old }
{
    let Some(placed) = live.find_placed(ticket) else {
        return;
    };
    if sets[usize::from(unit)].leave(ticket, placed.slot).is_some() {
        left.push_reserved(ticket);
    }
}

/// The live commands with these tickets are over, and each is told to leave.
fn end_all<S: EffectSink>(
    tickets: &[u64],
    unit: u16,
    window: &mut EventWindow,
    connections: &mut Connections,
    live: &mut LiveCommands,
    out: &mut S,
)
    requires there { All (λ t. IsSome (find_ticket t live.old.items)) tickets.now }
    requires in_order { AllPairs (λ a b. a < b) tickets.now }
    requires ascending { are_ascending live.old.items ≡ true }
    requires numbered { count_by is_numbered live.old.items ≤ window.old.unfinished }
    requires known { are_known live.old.items connections.old.conns ≡ true }
    requires counted { AreCounted connections.old.immediate connections.old.conns live.old.items }
    requires room { S.len out.old + length live.old.items ≤ S.capacity out.old }
    ensures window { window.new ≡ finished_by window.old live.old.items
        (without_tickets tickets.now live.old.items) }
    ensures live { live.new.items ≡ without_tickets tickets.now live.old.items }
    ensures connections { connections.new ≡ record connections.old { immediate = connections.new.immediate } }
    ensures counted { AreCounted connections.new.immediate connections.old.conns live.new.items }
    ensures live_capacity { live.new.room ≡ live.old.room }
    ensures effects { Appends S.has (leave_each unit tickets.now) out.old out.new }
    ensures capacity { S.capacity out.new ≡ S.capacity out.old }
    ensures spent { S.len out.new + length live.new.items ≤ S.len out.old + length live.old.items }
{
    for k in 0..tickets.len() {
        let ticket = tickets[k];
        end(window, connections, live, ticket);
        out.put_leave(ticket, unit);
    }
}

/// The live command with this ticket is over.
#[tactic(auto, using(crate::proofs::KeptLemmas::found_ticket, std::proofs::lemmas::Bool::Decides::nat_tests))]
fn end(
    window: &mut EventWindow,
    connections: &mut Connections,
    live: &mut LiveCommands,
    ticket: u64,
)
    requires ascending { are_ascending live.old.items ≡ true }
    requires there { IsSome (find_ticket ticket live.old.items) }
    requires numbered { count_by is_numbered live.old.items ≤ window.old.unfinished }
    requires known { are_known live.old.items connections.old.conns ≡ true }
    requires counted { AreCounted connections.old.immediate connections.old.conns live.old.items }
    ensures window { window.new ≡ finished_by window.old live.old.items (without_ticket ticket live.old.items) }
    ensures live { live.new.items ≡ without_ticket ticket live.old.items }
    ensures connections { connections.new ≡ record connections.old { immediate = connections.new.immediate } }
    ensures counted { AreCounted connections.new.immediate connections.old.conns live.new.items }
    ensures capacity { live.new.room ≡ live.old.room }
{
    let located = live.find_located(ticket).unwrap();
    end_command(window, connections, live, &located);
}

/// This live command is over, which was found at this place.
#[inline(always)]
#[tactic(auto, using(crate::proofs::KeptLemmas::left_steps, std::proofs::lemmas::Bool::Decides::nat_tests))]
pub(crate) fn end_command(
    window: &mut EventWindow,
    connections: &mut Connections,
    live: &mut LiveCommands,
    located: &Located,
)
    requires ascending { are_ascending live.old.items ≡ true }
    requires there { find_ticket located.now.command.ticket live.old.items ≡ Some located.now.command }
    requires numbered { count_by is_numbered live.old.items ≤ window.old.unfinished }
    requires known { are_known live.old.items connections.old.conns ≡ true }
    requires counted { AreCounted connections.old.immediate connections.old.conns live.old.items }
    ensures window { window.new ≡ finished_by window.old live.old.items
        (without_ticket located.now.command.ticket live.old.items) }
    ensures live { live.new.items ≡ without_ticket located.now.command.ticket live.old.items }
    ensures connections { connections.new ≡ record connections.old { immediate = connections.new.immediate } }
    ensures counted { AreCounted connections.new.immediate connections.old.conns live.new.items }
    ensures capacity { live.new.room ≡ live.old.room }
{
    finish(window, connections, &located.command);
    live.remove_located(located.command.ticket, located.place);
}
