//! The completion of a command by its unit.

ghost use Rattle.std.specs.Prelude.{IfSome, MatchOption, option_map, ℕ, ◌≡◌, ◌==◌, ◌&&◌, ◌+◌, ◌<◌, ◌≤◌, true, false, if◌then◌else◌, length, nat_lt, slice_index_or, slice_set, vec_len, vec_capacity};
ghost use Rattle.std.specs.List.{list_all};
ghost use Rattle.iscsi_rules.specs.rules.Settings.{is_known as known_in};
ghost use Rattle.iscsi_tasks.specs.Sets.{opened};
ghost use Rattle.iscsi_rules.specs.rules.Execution.{sense_of_status};
ghost use Rattle.iscsi_session.specs.private.Steps.{counted_on, unchanged, Takes, enabled_in, finished, commands_left, set_staying, covers_ticket, completed, owed};

use crate::session::Session;
use crate::session::leaving::end_command;
use crate::session::sets::CHECK_CONDITION;
use iscsi_commands::{Live, LiveCommands, Located};
use iscsi_connections::Connections;
use iscsi_rules::Why;
use iscsi_sinks::EffectSink;
use iscsi_tasks::LinkedTaskSet;
use iscsi_window::EventWindow;
use iscsi_wire::{Reply, Sense};

/// HARDWARE ERROR, INTERNAL TARGET FAILURE.
const INTERNAL_FAILURE: Sense = Sense {
    key: 0x04,
    asc: 0x44,
    ascq: 0x00,
};

impl Session {
    /// Takes a completion: the command leaves and is answered, and others may become enabled.
    ///
    /// Rules: `completion/stale`, `completion/status`.
    #[tactic(auto, using(std::proofs::Common::append_assoc, std::proofs::lemmas::Bool::Decides::nat_tests))]
    #[inline(never)]
    pub(crate) fn complete<S: EffectSink>(&mut self, ticket: u64, status: u8, out: &mut S)
        requires room { S.len out.old + owed self.old.live self.old.sets + 1 ≤ S.capacity out.old }
        ensures done { Takes S.has S.capacity (completed self.old (enabled_in self.old.sets self.old.live ticket) status) self.new
            out.old out.new }
        ensures spent { S.len out.new ≤ S.len out.old + owed self.old.live self.old.sets + 1 }
    {
        let Some(command) = self.leave_enabled(ticket, out) else {
            out.put_ignore(Why::Stale);
            return;
        };
        let reply = Reply::Scsi {
            itt: command.itt,
            status,
            sense: sense_of(status),
        };
        self.reply(command.conn, reply, out);
        self.announce_enabled(command.unit, out);
    }

    /// The live command with this ticket leaves, if it is enabled in the set of its unit.
    #[tactic(auto, using(iscsi_rules::proofs::traces::TraceLemmas::weaker, iscsi_rules::proofs::general::BoolLemmas::and_second, crate::proofs::KeptLemmas::enabled_found, crate::proofs::KeptLemmas::found_ticket, std::proofs::lemmas::Bool::Decides::nat_tests))]
    #[inline(always)]
    fn leave_enabled<S: EffectSink>(&mut self, ticket: u64, out: &mut S) -> Option<Live>
        requires room { S.len out.old + owed self.old.live self.old.sets ≤ S.capacity out.old }
        ensures command { result ≡ enabled_in self.old.sets self.old.live ticket }
        ensures unit { IfSome result (λ l. l.unit < length self.new.sets) }
        ensures done { MatchOption result (Takes S.has S.capacity (unchanged self.old) self.new out.old out.new)
            (λ l. Takes S.has S.capacity (commands_left self.old l.unit (covers_ticket l.ticket)) self.new out.old out.new) }
        ensures spent { S.len out.new + owed self.new.live self.new.sets ≤ S.len out.old
            + owed self.old.live self.old.sets }
    {
        let Some(located) = take_enabled(&mut self.sets, &self.live, ticket) else {
            return None;
        };
        end_command(
            &mut self.window,
            &mut self.connections,
            &mut self.live,
            &located,
        );
        out.put_leave(located.command.ticket, located.command.unit);
        Some(located.command)
    }
}

/// The live command with this ticket leaves the set of its unit, if it is enabled there. It is still among the live ones.
#[inline(always)]
#[tactic(auto, using(crate::proofs::KeptLemmas::found_steps, crate::proofs::KeptLemmas::one_leaving, std::proofs::lemmas::List::get_or_default, std::proofs::lemmas::Bool::Decides::nat_tests))]
fn take_enabled(sets: &mut [LinkedTaskSet], live: &LiveCommands, ticket: u64) -> Option<Located>
    requires units { list_all (λ l. nat_lt l.unit (length sets.old)) live.now.items ≡ true }
    ensures command { option_map (λ p. p.command) result ≡ enabled_in sets.old live.now.items ticket }
    ensures sets { MatchOption result (sets.new ≡ sets.old) (λ p. sets.new ≡ slice_set sets.old p.command.unit
        (set_staying (covers_ticket p.command.ticket) (slice_index_or sets.old p.command.unit (opened 0)))) }
{
    let located = live.find_located(ticket)?;
    let set = &mut sets[usize::from(located.command.unit)];
    if set.leave_enabled(ticket, located.slot) {
        Some(located)
    } else {
        None
    }
}

/// A command is over: it gives its place of the window back, or counts no more among the immediate ones.
pub(crate) fn finish(window: &mut EventWindow, connections: &mut Connections, command: &Live)
    requires numbered { command.now.immediate ≡ false → 0 < window.old.unfinished }
    requires known { known_in command.now.conn connections.old.conns ≡ true }
    requires some { command.now.immediate ≡ true →
        0 < counted_on command.now.conn connections.old.conns connections.old.immediate }
    ensures window { window.new ≡ finished window.old command.now }
    ensures connections { connections.new ≡ record connections.old { immediate = connections.new.immediate } }
    ensures long { length connections.new.immediate ≡ length connections.old.immediate }
    ensures counted { (cid : ℕ) → counted_on cid connections.old.conns connections.new.immediate
        + (if command.now.immediate && command.now.conn == cid then 1 else 0)
        ≡ counted_on cid connections.old.conns connections.old.immediate }
{
    if command.immediate {
        connections.finish_immediate(command.conn);
    } else {
        window.finish_one();
    }
}

/// The sense that a unit's status carries.
///
/// Rule: `completion/check-condition`.
fn sense_of(status: u8) -> Option<Sense>
    ensures { result ≡ sense_of_status status }
{
    if status == CHECK_CONDITION {
        Some(INTERNAL_FAILURE)
    } else {
        None
    }
}
