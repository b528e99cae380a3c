//! The commonest events, straight: what they lack needs no look.

ghost use Rattle.std.specs.Prelude.{◌≡◌, ◌≢◌, ◌||◌, ◌<◌, ℕ, List, [], ◌∷◌, length, None};
ghost use Rattle.iscsi_tasks.specs.declared.task.Attr.{Attr};
ghost use Rattle.iscsi_rules.specs.declared.effect.Effect.{Effect};
ghost use Rattle.iscsi_rules.specs.declared.effect.Effect.TheVariants.{Deliver, Enable, Enter, Leave, Send};
ghost use Rattle.iscsi_tracked.specs.declared.command.Phase.TheVariants.{Fresh, Started};
ghost use Rattle.iscsi_outbox_steps.specs.Steps.{enter, in_phase_if, is_dormant, is_fresh, placed, reply_item, send_placed, settle, taken};
ghost use Rattle.iscsi_outbox.specs.promises.Called.{FollowsRules};
ghost use Rattle.iscsi_outbox_steps.specs.Run.{Silent};
ghost use Rattle.iscsi_outbox_rules.specs.rules.Calls.{Takes};
ghost use Rattle.iscsi_outbox.specs.private.Walks.{HasEntered, after_event};

use crate::outbox::Outbox;
use crate::outbox::sending::reply_item;
use iscsi_rules::Numbers;
use iscsi_tracked::{Command, Phase};
use iscsi_wire::{Reply, Request};

impl Outbox {
    /// Takes an event by which a command completes and its reply is sent, and nothing else happens, as `take` does.
    #[inline(always)]
    pub fn take_left(&mut self, ticket: u64, cid: u16, reply: &Reply, numbers: Numbers)
        ensures state { (unit stat_sn : ℕ) → self.new ≡ taken (Leave ticket unit ∷ Send cid stat_sn reply.now ∷ []) numbers self.old }
        ensures rules { (unit stat_sn : ℕ) → FollowsRules self.old
            (Takes (Leave ticket unit ∷ Send cid stat_sn reply.now ∷ []) numbers) Silent self.new }
    {
        self.take_completion(ticket, cid, reply);
        self.number(numbers);
    }

    /// The same of one by which a request executes that is a command, and one is enabled by that.
    #[inline(always)]
    pub fn take_entered(
        &mut self,
        request: &Request,
        ticket: u64,
        unit: u16,
        enabled: u64,
        numbers: Numbers,
    )
        ensures state { (attr : Attr) (of : ℕ) → self.new ≡ taken (Deliver request.now ∷ Enter ticket unit attr ∷ Enable enabled of ∷ []) numbers self.old }
        ensures rules { (attr : Attr) (of : ℕ) → FollowsRules self.old
            (Takes (Deliver request.now ∷ Enter ticket unit attr ∷ Enable enabled of ∷ []) numbers) Silent self.new }
    {
        self.take_command(request, ticket, unit, enabled);
        self.number(numbers);
    }

    /// A command completes, and its reply enters the queue of its connection.
    #[inline(always)]
    pub(crate) fn take_completion(&mut self, ticket: u64, cid: u16, reply: &Reply)
        ensures { (unit stat_sn : ℕ) → self.new ≡ after_event (Leave ticket unit ∷ Send cid stat_sn reply.now ∷ []) self.old }
    {
        let numbered = self.complete_ticket(ticket);
        self.send_at_once(cid, numbered, reply);
        self.count_reply();
        self.settle();
    }

    /// A reply enters its queue, or goes nowhere.
    #[inline(always)]
    fn send_at_once(&mut self, cid: u16, numbered: bool, reply: &Reply)
        ensures { self.new ≡ send_placed None [] numbered [] cid (placed reply.now self.old) self.old }
    {
        match self.cids.place(cid) {
            Some(conn) => self.enter_reply(conn, numbered, reply),
            None => self.pass_time(),
        }
    }

    /// A reply enters the queue of a connection. A SCSI Response without sense is made anew there, which writes less than a copy of
    /// what has room for any reply.
    #[inline(always)]
    fn enter_reply(&mut self, conn: usize, numbered: bool, reply: &Reply)
        requires { conn < length self.old.limits.cids }
        ensures { self.new ≡ enter conn (reply_item numbered (placed reply.now self.old)) self.old }
    {
        match reply {
            Reply::Scsi {
                itt,
                status,
                sense: None,
            } => {
                let sent = self.placed(Reply::Scsi {
                    itt: *itt,
                    status: *status,
                    sense: None,
                });
                self.enter(conn, reply_item(numbered, sent));
            }
            _ => self.enter_any_reply(conn, numbered, reply),
        }
    }

    /// Any reply does.
    #[inline(never)]
    fn enter_any_reply(&mut self, conn: usize, numbered: bool, reply: &Reply)
        requires { conn < length self.old.limits.cids }
        ensures { self.new ≡ enter conn (reply_item numbered (placed reply.now self.old)) self.old }
    {
        let sent = self.placed(*reply);
        self.enter(conn, reply_item(numbered, sent));
    }

    /// A request executes that is a command: it enters, and one is enabled by that.
    #[inline(always)]
    pub(crate) fn take_command(&mut self, request: &Request, ticket: u64, unit: u16, enabled: u64)
        ensures { (attr : Attr) (of : ℕ) → self.new ≡ after_event (Deliver request.now ∷ Enter ticket unit attr ∷ Enable enabled of ∷ []) self.old }
    {
        self.settle();
        let place = self.enter_one(request, ticket, unit);
        self.enable_behind(place, ticket, enabled);
    }

    /// A command is enabled by an event in which one entered: mostly that one, whose place is known. 0: none did.
    #[inline(always)]
    fn enable_behind(&mut self, place: u32, ticket: u64, enabled: u64)
        requires { place ≢ 0 → HasEntered ticket place self.old }
        ensures { self.new ≡ in_phase_if is_fresh Started enabled (settle (in_phase_if is_dormant Fresh enabled self.old)) }
    {
        if place != 0 && enabled == ticket {
            self.enable_entered(place, ticket);
        } else {
            self.enable_one(enabled);
        }
    }

    /// The one that entered is enabled.
    #[inline(always)]
    fn enable_entered(&mut self, place: u32, ticket: u64)
        requires { HasEntered ticket place self.old }
        ensures { self.new ≡ in_phase_if is_fresh Started ticket (settle (in_phase_if is_dormant Fresh ticket self.old)) }
    {
        if self.lane.answers_waiting() == 0 {
            self.tracked.set_phase(place, Phase::Started);
        } else {
            self.start_behind(ticket);
        }
    }

    /// A command is enabled by an event, answers become due by that, and it counts as started.
    #[inline(never)]
    fn enable_one(&mut self, ticket: u64)
        ensures { self.new ≡ in_phase_if is_fresh Started ticket (settle (in_phase_if is_dormant Fresh ticket self.old)) }
    {
        if self.lane.answers_waiting() == 0 {
            self.start_at_once(ticket);
        } else {
            self.start_behind(ticket);
        }
    }

    /// A command is enabled and counts as started, where no answer waits.
    #[inline(always)]
    fn start_at_once(&mut self, ticket: u64)
        ensures { self.new ≡ in_phase_if is_fresh Started ticket (in_phase_if is_dormant Fresh ticket self.old) }
    {
        if let Some(command) = self.tracked.find(ticket) {
            if is_unstarted(&command) {
                self.tracked.set_phase(command.place, Phase::Started);
            }
        }
    }

    /// A command is enabled, what is due enters, and the command counts as started.
    #[inline(never)]
    fn start_behind(&mut self, ticket: u64)
        ensures { self.new ≡ in_phase_if is_fresh Started ticket (settle (in_phase_if is_dormant Fresh ticket self.old)) }
    {
        self.change_phase(ticket, Phase::Dormant, Phase::Fresh);
        self.settle();
        self.change_phase(ticket, Phase::Fresh, Phase::Started);
    }
}

/// Whether a command doesn't count as started yet, and is live.
#[inline(always)]
fn is_unstarted(command: &Command) -> bool
    ensures { result ≡ (is_dormant command.now || is_fresh command.now) }
{
    match command.phase {
        Phase::Dormant | Phase::Fresh => true,
        Phase::Started | Phase::Running | Phase::Gone => false,
    }
}
