//! The execution of a request.

ghost use Rattle.std.specs.Prelude.{◌-◌, ◌*◌, ℕ, pos, ◌-ℤ◌, false, ◌≡◌, ◌==◌, ◌&&◌, ◌+◌, ◌≤◌, ◌<◌, true, length, count_by, is_some, if◌then◌else◌, vec_len, vec_capacity};
ghost use Rattle.iscsi_wire.specs.Serial.{number_of_first};
ghost use Rattle.iscsi_wire.specs.Fields.{connection_of, is_immediate, itt as tag_of};
ghost use Rattle.iscsi_window.specs.Windows.{HasRoom};
ghost use Rattle.iscsi_rules.specs.declared.effect.Effect.{Effect};
ghost use Rattle.iscsi_rules.specs.rules.Settings.{is_known as known_in};
ghost use Rattle.iscsi_rules.specs.rules.Execution.{MOST_IMMEDIATE, attr_of as attr_named, reply_of};
ghost use Rattle.iscsi_session.specs.private.Standing.{is_held};
ghost use Rattle.iscsi_session.specs.private.Steps.{counted_on, after_effect, Takes, set_at, is_tag_kept, is_set_full, immediate_in, replied, number_by, event_by, started, command_entered, owed};
ghost use Rattle.iscsi_session.specs.private.Deeds.{Fits, IsReady, most_emptied, deed_by, position_by, carried, executed};

use crate::session::leaving::Leaving;
use crate::session::management::COMPLETE;
use crate::session::sets::CHECK_CONDITION;
use crate::session::{Session, sets};
use iscsi_commands::Live;
use iscsi_connections::Connections;
use iscsi_rules::{Answer, Deed};
use iscsi_sinks::EffectSink;
use iscsi_tasks::{Attr, Cover, Task};
use iscsi_window::EventWindow;
use iscsi_wire::{Opcode, RejectReason, Reply, Request, Sense, distance};

/// The status TASK SET FULL.
const TASK_SET_FULL: u8 = 0x28;

/// ILLEGAL REQUEST, LOGICAL UNIT NOT SUPPORTED.
const NO_UNIT: Sense = Sense {
    key: 0x05,
    asc: 0x25,
    ascq: 0x00,
};

impl Session {
    /// Executes the request of the number that has turned last, which arrived in this event.
    // It is inlined where a request is delivered as it comes: what it does is found in registers then.
    #[inline(always)]
    pub(crate) fn deliver<S: EffectSink>(&mut self, request: &Request, event: u64, out: &mut S)
        requires space { HasRoom self.old.window }
        requires numbered { is_immediate request.now ≡ false }
        requires counted { self.old.entered + count_by is_some self.old.window.places < self.old.taken }
        requires known { known_in (connection_of request.now) self.old.conns ≡ true }
        requires room { S.len out.old + owed self.old.live self.old.sets + 6 * count_by is_held self.old.window.places
            + 6 ≤ S.capacity out.old }
        ensures done { Takes S.has S.capacity (after_effect (Effect.Deliver request.now) (executed self.old request.now event)) self.new
            out.old out.new }
        ensures spent { S.len out.new + owed self.new.live self.new.sets + 6 * count_by is_held self.new.window.places
            ≤ S.len out.old + owed self.old.live self.old.sets + 6 * count_by is_held self.old.window.places + 6 }
        ensures waiting { length self.new.waiting ≤ length self.old.waiting }
    {
        out.put_deliver(request);
        self.execute(request, event, out);
    }

    /// Rejects a request for its opcode.
    pub(crate) fn reject_opcode<S: EffectSink>(&mut self, request: &Request, out: &mut S)
        requires room { S.len out.old + 1 ≤ S.capacity out.old }
        ensures done { Takes S.has S.capacity (replied self.old (connection_of request.now) (reply_of request.now (Answer.Reject 5))) self.new out.old out.new }
        ensures len { S.len out.new ≤ S.len out.old + 1 }
    {
        let answer = Answer::Reject(RejectReason::NotSupported.code());
        self.answer(request, answer, out);
    }

    /// Executes a numbered request that arrived in this event.
    // A SCSI Command, which most are, has a way of its own: what it does stays in registers there.
    #[tactic(auto, using(std::proofs::lemmas::Bool::Decides::nat_tests))]
    #[inline(always)]
    fn execute<S: EffectSink>(&mut self, request: &Request, event: u64, out: &mut S)
        requires space { HasRoom self.old.window }
        requires numbered { is_immediate request.now ≡ false }
        requires counted { self.old.entered + count_by is_some self.old.window.places < self.old.taken }
        requires known { known_in (connection_of request.now) self.old.conns ≡ true }
        requires room { S.len out.old + owed self.old.live self.old.sets + 6 * count_by is_held self.old.window.places
            + 5 ≤ S.capacity out.old }
        ensures done { Takes S.has S.capacity (executed self.old request.now event) self.new out.old out.new }
        ensures spent { S.len out.new + owed self.new.live self.new.sets + 6 * count_by is_held self.new.window.places
            ≤ S.len out.old + owed self.old.live self.old.sets + 6 * count_by is_held self.old.window.places + 5 }
        ensures waiting { length self.new.waiting ≤ length self.old.waiting }
    {
        match Opcode::of(request) {
            Opcode::ScsiCommand => {
                let deed = self.decide_numbered(request);
                let number = self.last_turned(request);
                self.execute_by(request, number, event, deed, out);
            }
            _ => self.execute_otherwise(request, event, out),
        }
    }

    /// Executes a request of any opcode that arrived in this event.
    #[inline(never)]
    fn execute_otherwise<S: EffectSink>(&mut self, request: &Request, event: u64, out: &mut S)
        requires space { is_immediate request.now ≡ false → HasRoom self.old.window }
        requires turned { is_immediate request.now ≡ true →
            self.old.window.turned + count_by is_some self.old.window.places < self.old.taken }
        requires counted { self.old.entered + count_by is_some self.old.window.places < self.old.taken }
        requires known { known_in (connection_of request.now) self.old.conns ≡ true }
        requires room { S.len out.old + owed self.old.live self.old.sets + 6 * count_by is_held self.old.window.places
            + 5 ≤ S.capacity out.old }
        ensures done { Takes S.has S.capacity (executed self.old request.now event) self.new out.old out.new }
        ensures spent { S.len out.new + owed self.new.live self.new.sets + 6 * count_by is_held self.new.window.places
            ≤ S.len out.old + owed self.old.live self.old.sets + 6 * count_by is_held self.old.window.places + 5 }
        ensures waiting { length self.new.waiting ≤ length self.old.waiting }
    {
        let deed = self.decide(request);
        let number = self.position(request);
        self.execute_by(request, number, event, deed, out);
    }

    /// Executes a request that arrived in this event, which does this. Its number less the first CmdSN is this one.
    #[inline(always)]
    #[tactic(auto, using(crate::proofs::DeedLemmas::fits_deed, crate::proofs::DeedLemmas::numbers_read))]
    fn execute_by<S: EffectSink>(
        &mut self,
        request: &Request,
        number: i64,
        event: u64,
        deed: Deed,
        out: &mut S,
    )
        requires deed { deed ≡ deed_by self.old request.now }
        requires number { number ≡ position_by self.old request.now }
        requires space { is_immediate request.now ≡ false → HasRoom self.old.window }
        requires turned { is_immediate request.now ≡ true →
            self.old.window.turned + count_by is_some self.old.window.places < self.old.taken }
        requires counted { self.old.entered + count_by is_some self.old.window.places < self.old.taken }
        requires known { known_in (connection_of request.now) self.old.conns ≡ true }
        requires room { S.len out.old + owed self.old.live self.old.sets + 6 * count_by is_held self.old.window.places
            + 5 ≤ S.capacity out.old }
        ensures done { Takes S.has S.capacity (executed self.old request.now event) self.new out.old out.new }
        ensures spent { S.len out.new + owed self.new.live self.new.sets + 6 * count_by is_held self.new.window.places
            ≤ S.len out.old + owed self.old.live self.old.sets + 6 * count_by is_held self.old.window.places + 5 }
        ensures waiting { length self.new.waiting ≤ length self.old.waiting }
    {
        self.carry_out(request, number, event, deed, out);
    }

    /// Does what a request does that executes, by which alone that changes anything. Its number less the first CmdSN is this
    /// one, and it arrived in this event.
    #[tactic(auto, using(crate::proofs::DeedLemmas::carried_stays, crate::proofs::SoundLemmas::owed_entered, crate::proofs::DeedLemmas::numbers_read))]
    #[inline(always)]
    pub(crate) fn carry_out<S: EffectSink>(
        &mut self,
        request: &Request,
        number: i64,
        event: u64,
        deed: Deed,
        out: &mut S,
    )
        requires fits { Fits self.old request.now deed }
        requires ready { IsReady self.old request.now deed }
        requires number { (unit : ℕ) → deed ≡ Deed.Enter unit → number ≡ position_by self.old request.now }
        requires room { S.len out.old + owed self.old.live self.old.sets + most_emptied self.old deed + 4
            ≤ S.capacity out.old }
        ensures done { Takes S.has S.capacity (carried self.old request.now number event deed) self.new out.old out.new }
        ensures spent { S.len out.new + owed self.new.live self.new.sets + count_by is_held self.new.window.places
            ≤ S.len out.old + owed self.old.live self.old.sets + count_by is_held self.old.window.places + 4 }
    {
        match deed {
            Deed::Nothing => {}
            Deed::Wait => {}
            Deed::Reply(answer) => self.answer(request, answer, out),
            Deed::Enter(unit) => self.enter(request, unit, number, out),
            Deed::Void => {
                self.void_number(request.ref_cmd_sn(), out);
                self.answer(request, COMPLETE, out);
            }
            Deed::Empty { unit: _unit, sn } => {
                self.empty_number(sn, out);
                self.answer(request, COMPLETE, out);
            }
            Deed::Abort { unit, ticket } => self.abort(request, unit, Leaving::One(ticket), out),
            Deed::AbortEarlier(unit) => {
                let earlier = Cover::Below { pos: number, event };
                self.abort(request, unit, Leaving::Covered(earlier), out)
            }
            Deed::AbortAll(unit) => self.abort(request, unit, Leaving::Covered(Cover::All), out),
            Deed::CloseConn(conn) => self.log_out(request, Some(conn), out),
            Deed::CloseSession => self.log_out(request, None, out),
        }
    }

    /// A request is answered.
    // A function's response, which most are, has a way of its own: it is short.
    #[inline(always)]
    pub(crate) fn answer<S: EffectSink>(&mut self, request: &Request, answer: Answer, out: &mut S)
        requires room { S.len out.old + 1 ≤ S.capacity out.old }
        ensures done { Takes S.has S.capacity (replied self.old (connection_of request.now) (reply_of request.now answer)) self.new out.old out.new }
        ensures len { S.len out.new ≤ S.len out.old + 1 }
    {
        match answer {
            Answer::Respond(response) => self.respond(request, response, out),
            other => self.answer_otherwise(request, other, out),
        }
    }

    /// A function is answered by this response.
    #[inline(never)]
    fn respond<S: EffectSink>(&mut self, request: &Request, response: u8, out: &mut S)
        requires room { S.len out.old + 1 ≤ S.capacity out.old }
        ensures done { Takes S.has S.capacity (replied self.old (connection_of request.now) (reply_of request.now (Answer.Respond response))) self.new out.old out.new }
        ensures len { S.len out.new ≤ S.len out.old + 1 }
    {
        let itt = request.itt();
        self.reply(request.conn(), Reply::Task { itt, response }, out);
    }

    /// A request is answered, by any answer.
    #[inline(never)]
    fn answer_otherwise<S: EffectSink>(&mut self, request: &Request, answer: Answer, out: &mut S)
        requires room { S.len out.old + 1 ≤ S.capacity out.old }
        ensures done { Takes S.has S.capacity (replied self.old (connection_of request.now) (reply_of request.now answer)) self.new out.old out.new }
        ensures len { S.len out.new ≤ S.len out.old + 1 }
    {
        self.reply(request.conn(), reply_to(request, answer), out);
    }

    /// A reply goes out on a connection.
    // It is inlined, so that the reply is made where the effect keeps it.
    #[inline(always)]
    pub(crate) fn reply<S: EffectSink>(&mut self, conn: u16, reply: Reply, out: &mut S)
        requires room { S.len out.old + 1 ≤ S.capacity out.old }
        ensures done { Takes S.has S.capacity (replied self.old conn reply) self.new out.old out.new }
        ensures len { S.len out.new ≤ S.len out.old + 1 }
    {
        let stat_sn = self.connections.assign_stat_sn(conn);
        out.put_send(conn, stat_sn, &reply);
    }

    /// A command enters the set of a unit, which has room for it. No live command has its tag, and its number less the first
    /// CmdSN is this one.
    #[inline(never)]
    #[tactic(auto, using(crate::proofs::KeptLemmas::newest_in, crate::proofs::SoundLemmas::all_before, std::proofs::lemmas::Bool::Decides::nat_tests))]
    fn enter<S: EffectSink>(&mut self, request: &Request, unit: u16, pos: i64, out: &mut S)
        requires space { is_immediate request.now ≡ false → HasRoom self.old.window }
        requires few { is_immediate request.now ≡ true →
            immediate_in self.old.live (connection_of request.now) < MOST_IMMEDIATE }
        requires counted { self.old.entered + count_by is_some self.old.window.places < self.old.taken }
        requires known { known_in (connection_of request.now) self.old.conns ≡ true }
        requires unit { unit < length self.old.sets }
        requires not_full { is_set_full self.old.depth (set_at self.old unit) ≡ false }
        requires unused { is_tag_kept self.old (tag_of request.now) ≡ false }
        requires number { pos ≡ position_by self.old request.now }
        requires room { S.len out.old + 2 ≤ S.capacity out.old }
        ensures done { Takes S.has S.capacity (command_entered self.old request.now unit) self.new out.old out.new }
        ensures spent { S.len out.new ≤ S.len out.old + 2 }
    {
        let event = self.event(request);
        begin(&mut self.window, &mut self.connections, request);
        self.entered += 1;
        let ticket = self.entered;
        let attr = attr_of(request.attr());
        out.put_enter(ticket, unit, attr);
        let task = Task {
            ticket,
            conn: request.conn(),
            itt: request.itt(),
            attr,
            immediate: request.immediate(),
            pos,
            event,
        };
        let slot = sets::enter(&mut self.sets, unit, task, out);
        let command = Live {
            ticket,
            unit,
            conn: task.conn,
            itt: task.itt,
            immediate: task.immediate,
        };
        self.live.push(command, slot);
    }

    /// The number of a request that executes, less the first CmdSN. A numbered one has turned last.
    pub(crate) fn position(&self, request: &Request) -> i64
        ensures { result ≡ pos (number_by self.now request.now) -ℤ pos (number_of_first self.now.window.first) }
    {
        let turned = self.window.turned() as i64;
        if request.immediate() {
            turned + distance(self.window.exp(), request.cmd_sn())
        } else {
            turned - 1
        }
    }

    /// The number that has turned last, less the first CmdSN: that of a numbered request that executes.
    #[inline(always)]
    fn last_turned(&self, _request: &Request) -> i64
        requires { is_immediate _request.now ≡ false }
        ensures { result ≡ pos (number_by self.now _request.now) -ℤ pos (number_of_first self.now.window.first) }
    {
        self.window.turned() as i64 - 1
    }

    /// The event in which an immediate request arrived, from 0. It doesn't count for a numbered one.
    fn event(&self, request: &Request) -> u64
        requires { 0 < self.now.taken }
        ensures { result ≡ event_by self.now request.now }
    {
        if request.immediate() {
            self.taken - 1
        } else {
            0
        }
    }
}

/// A command begins: it takes a place of the window, or counts among the immediate ones of its connection.
fn begin(window: &mut EventWindow, connections: &mut Connections, request: &Request)
    requires space { is_immediate request.now ≡ false → HasRoom window.old }
    requires known { known_in (connection_of request.now) connections.old.conns ≡ true }
    requires few { is_immediate request.now ≡ true →
        counted_on (connection_of request.now) connections.old.conns connections.old.immediate < 255 }
    ensures window { window.new ≡ started window.old request.now }
    ensures connections { connections.new ≡ record connections.old { immediate = connections.new.immediate } }
    ensures long { length connections.new.immediate ≡ length connections.old.immediate }
    ensures counted { (cid : ℕ) → counted_on cid connections.old.conns connections.new.immediate
        ≡ counted_on cid connections.old.conns connections.old.immediate
        + (if is_immediate request.now && connection_of request.now == cid then 1 else 0) }
{
    if request.immediate() {
        connections.begin_immediate(request.conn());
    } else {
        window.start_one();
    }
}

/// The reply that an answer stands for. A Reject shows the whole header.
fn reply_to(request: &Request, answer: Answer) -> Reply
    ensures { result ≡ reply_of request.now answer }
{
    let itt = request.itt();
    match answer {
        Answer::Reject(reason) => Reply::Reject {
            reason,
            header: request.bytes(),
        },
        Answer::Pong => Reply::Nop { itt },
        Answer::NoUnit => Reply::Scsi {
            itt,
            status: CHECK_CONDITION,
            sense: Some(NO_UNIT),
        },
        Answer::Full => Reply::Scsi {
            itt,
            status: TASK_SET_FULL,
            sense: None,
        },
        Answer::Respond(response) => Reply::Task { itt, response },
        Answer::LogOut(response) => Reply::Logout { itt, response },
    }
}

/// The task attribute that ATTR names. Untagged commands count as SIMPLE (RFC 7143 section 11.3.1).
fn attr_of(code: u8) -> Attr
    ensures { result ≡ attr_named code }
{
    match code {
        2 => Attr::Ordered,
        3 => Attr::Head,
        _ => Attr::Simple,
    }
}
