//! What is over: stopped, written, heard, lost and cleared. And what becomes due by it.

ghost use Rattle.std.specs.Prelude.{◌≡◌, ◌<◌, ◌≤◌, length, true, IfSome};
ghost use Rattle.iscsi_outbox_state.specs.Lane.{first_due, without_due};
ghost use Rattle.iscsi_arrivals.specs.Counts.{heard_by};
ghost use Rattle.iscsi_outbox.specs.promises.Called.{FollowsRules};
ghost use Rattle.iscsi_outbox_steps.specs.Run.{Silent, Stopped};
ghost use Rattle.iscsi_outbox_rules.specs.rules.Boxes.{Replies};
ghost use Rattle.iscsi_outbox_rules.specs.rules.Calls.{Clears, Hears, Loses, Stops, Writes};
ghost use Rattle.iscsi_outbox_rules.specs.rules.Items.{finds_none};
ghost use Rattle.iscsi_outbox_steps.specs.State.{with_link};
ghost use Rattle.iscsi_outbox_steps.specs.Steps.{answer_item, arrived_command, cleared_of, heard, is_fence, is_of_unit, is_running, is_running_ticket, lost, lost_on, next_arrived, settle, stopped, stopped_command, trail, written};
ghost use Rattle.iscsi_tracked.specs.Tracked.{has_place};

use crate::outbox::Outbox;
use iscsi_outbox_state::{Aim, Content, Undue, Waiting};
use iscsi_tracked::{Command, Phase};
use iscsi_wire::{FunctionResponse, Reply};

impl Outbox {
    /// The unit of a command that left doesn't touch the medium for it any more. False, and nothing changes, where no command
    /// with this ticket left and runs: one that is live, unknown, or was stopped already.
    pub fn stopped(&mut self, ticket: u64) -> bool
        ensures answer { result ≡ is_running_ticket ticket self.old }
        ensures state { self.new ≡ stopped ticket self.old }
        ensures rules { FollowsRules self.old (Stops ticket) (Stopped result) self.new }
    {
        match self.tracked.find(ticket) {
            Some(command) if is_running(&command) => {
                self.stop(command);
                self.settle();
                true
            }
            _ => false,
        }
    }

    /// The oldest PDU that was handed out on a connection and isn't written has gone into the transport. Where there is none,
    /// nothing changes.
    #[inline(always)]
    pub fn written(&mut self, cid: u16)
        ensures state { self.new ≡ written cid self.old }
        ensures rules { FollowsRules self.old (Writes cid) Silent self.new }
    {
        if let Some(conn) = self.cids.place(cid) {
            self.links.write(conn);
            self.trail(conn);
            self.settle();
        }
    }

    /// A header arrived on a connection, with this ExpStatSN; and, if it is that of a NOP-Out, this transfer tag, and else
    /// ffffffff. What wasn't handed out yet, or is older, changes nothing.
    #[inline(always)]
    pub fn heard(&mut self, cid: u16, exp_stat_sn: u32, transfer_tag: u32)
        ensures state { self.new ≡ heard cid exp_stat_sn transfer_tag self.old }
        ensures rules { FollowsRules self.old (Hears cid exp_stat_sn transfer_tag) Silent self.new }
    {
        if let Some(conn) = self.cids.place(cid) {
            self.hear_on(conn, exp_stat_sn, transfer_tag);
            self.trail(conn);
            self.settle();
        }
    }

    /// A header arrived on a connection.
    #[inline(always)]
    fn hear_on(&mut self, conn: usize, exp_stat_sn: u32, transfer_tag: u32)
        requires { conn < length self.old.limits.cids }
        ensures { self.new ≡ with_link conn (heard_by exp_stat_sn transfer_tag) self.old }
    {
        self.links.hear(conn, exp_stat_sn, transfer_tag);
    }

    /// The transport of a connection is gone: what waits there is dropped, and the answers that would go out there.
    pub fn lose(&mut self, cid: u16)
        ensures state { self.new ≡ lost cid self.old }
        ensures rules { FollowsRules self.old (Loses cid) Silent self.new }
    {
        self.reached = 0;
        if let Some(conn) = self.cids.place(cid) {
            self.lose_on(conn);
            self.trail(conn);
        }
        self.settle();
    }

    /// No other session's command of a unit touches the medium any more: of the resets that wait for that, the oldest one
    /// waits no more.
    pub fn clear(&mut self, unit: u16)
        ensures state { self.new ≡ cleared_of unit self.old }
        ensures rules { FollowsRules self.old (Clears unit) Silent self.new }
    {
        self.lane.clear(unit);
        self.settle();
    }

    /// What is due enters, in the order of the log.
    #[inline(always)]
    pub(crate) fn settle(&mut self)
        ensures { self.new ≡ settle self.old }
    {
        if self.lane.answers_waiting() > 0 {
            self.enter_due();
        }
    }

    /// Of the answers that wait those enter that are due.
    #[inline(never)]
    fn enter_due(&mut self)
        ensures { self.new ≡ settle self.old }
    {
        while let Some(answer) = self.take_due() {
            self.enter(usize::from(answer.conn), answer_item(answer));
        }
    }

    /// The answer that is due first goes from those that wait, if one is due.
    fn take_due(&mut self) -> Option<Undue>
        ensures answer { result ≡ first_due self.old.lane }
        ensures conn { IfSome result (λ a. a.conn < length self.old.limits.cids) }
        ensures state { self.new ≡ record self.old { lane = without_due self.old.lane } }
    {
        self.lane.known();
        self.lane.take_due()
    }

    /// A command that left owes nothing more by running.
    #[inline(never)]
    fn stop(&mut self, command: Command)
        requires { has_place command.place self.old.tracked ≡ true }
        ensures { self.new ≡ stopped_command command self.old }
    {
        self.lane.stop(command.place);
        if command.last_out.is_some() {
            self.tracked.set_phase(command.place, Phase::Gone);
        } else {
            self.tracked.remove(command.place);
        }
    }

    /// A connection is lost.
    #[inline(never)]
    fn lose_on(&mut self, conn: usize)
        requires { conn < length self.old.limits.cids }
        ensures { self.new ≡ lost_on conn self.old }
    {
        self.links.lose(conn);
        self.waits.drop_on(conn);
        self.lane.drop_on(conn as u16);
    }

    /// The commands at the head of a connection's trail of which nothing is under way any more leave it.
    #[inline(always)]
    fn trail(&mut self, conn: usize)
        requires { conn < length self.old.limits.cids }
        ensures { self.new ≡ trail conn self.old }
    {
        while let Some(command) = self.next_arrived(conn) {
            self.tracked.known();
            self.arrive(command);
        }
    }

    /// The first command of a connection's trail, if nothing of it is under way any more.
    #[inline(always)]
    fn next_arrived(&self, conn: usize) -> Option<Command>
        requires { conn < length self.now.limits.cids }
        ensures answer { result ≡ next_arrived conn self.now }
        ensures place { IfSome result (λ c. has_place c.place self.now.tracked ≡ true) }
    {
        self.tracked.known();
        let place = self.tracked.first_out(conn)?;
        let command = self.tracked.at(place);
        match command.last_out {
            Some(stamp) if self.links.at(conn).is_under_way(self.links.looks(), stamp) => { None }
            _ => Some(command),
        }
    }

    /// Nothing of a command is under way any more.
    #[inline(never)]
    fn arrive(&mut self, command: Command)
        requires { has_place command.place self.old.tracked ≡ true }
        ensures { self.new ≡ arrived_command command self.old }
    {
        self.lane.arrive(command.place);
        self.tracked.arrive(command.place);
        if command.phase == Phase::Gone {
            self.tracked.remove(command.place);
        }
    }
}

/// Whether a command left, and wasn't stopped since.
#[inline(always)]
pub(crate) fn is_running(command: &Command) -> bool
    ensures { result ≡ is_running command.now }
{
    match command.phase {
        Phase::Running => true,
        Phase::Dormant | Phase::Fresh | Phase::Started | Phase::Gone => false,
    }
}

/// The answer to an abort or Logout, as it enters its queue.
fn answer_item(answer: Undue) -> Waiting
    ensures { result ≡ answer_item answer }
{
    Waiting {
        content: Content::Reply(answer.reply),
        takes: true,
        fenced: is_fence(answer.aim, &answer.reply.reply),
        numbered: answer.numbered,
        ends: answer.ends,
        command: None,
    }
}

/// Whether nothing overtakes it, nor it anything, on another connection: the answer to a function of several tasks, or to an
/// ABORT TASK that found none, as the task may have completed just before, and be under way elsewhere (RFC 7143 section 11.6.1).
fn is_fence(aim: Aim, reply: &Reply) -> bool
    ensures { result ≡ is_fence aim reply.now }
{
    match aim {
        Aim::Unit(_) => true,
        Aim::Tag(_) => finds_none(reply),
        Aim::Conn(_) | Aim::Session | Aim::Nothing => false,
    }
}

/// Whether an ABORT TASK is answered so that found no task (RFC 7143 section 11.6.1).
fn finds_none(reply: &Reply) -> bool
    ensures { result ≡ finds_none (Replies reply.now) }
{
    match reply {
        Reply::Task { response, .. } => *response == FunctionResponse::NoTask.code(),
        Reply::Scsi { .. } | Reply::Logout { .. } | Reply::Nop { .. } | Reply::Reject { .. } => {
            false
        }
    }
}

/// Whether it is about a unit: a function of several tasks.
pub(crate) fn is_of_unit(aim: Aim) -> bool
    ensures { result ≡ is_of_unit aim }
{
    match aim {
        Aim::Unit(_) => true,
        Aim::Tag(_) | Aim::Conn(_) | Aim::Session | Aim::Nothing => false,
    }
}
