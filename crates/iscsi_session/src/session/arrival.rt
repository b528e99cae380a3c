//! The arrival of a request, and the turns that become due by it.

ghost use Rattle.std.specs.Prelude.{false, ◌-◌, ◌*◌, ◌≡◌, ℕ, ◌+◌, ◌≤◌, ◌<◌, true, length, Some, nat_lt, count_by, is_some, vec_len, vec_capacity};
ghost use Rattle.std.specs.List.{list_all};
ghost use Rattle.iscsi_wire.specs.Fields.{connection_of, is_immediate, opcode, request_of};
ghost use Rattle.iscsi_connections.specs.Connected.{is_among_open};
ghost use Rattle.iscsi_window.specs.Windows.{HasRoom, at_place, offer_to, number_expected};
ghost use Rattle.iscsi_rules.specs.declared.effect.Effect.{Effect};
ghost use Rattle.iscsi_rules.specs.rules.Settings.{Setting, is_known as known_in};
ghost use Rattle.iscsi_rules.specs.rules.Trace.{Trace};
ghost use Rattle.iscsi_rules.specs.promises.Flow.{HasOneMore};
ghost use Rattle.iscsi_rules.specs.rules.Execution.{exp_of};
ghost use Rattle.iscsi_rules.specs.rules.Agenda.{arrival, arrival_open, arrival_of, kind_of as kind_named, numbered};
ghost use Rattle.iscsi_rules.specs.rules.Items.{agenda, functions_at};
ghost use Rattle.iscsi_session.specs.private.Standing.{Agrees, Settled, is_held};
ghost use Rattle.iscsi_session.specs.private.Steps.{KeepsPace, after_effect, Takes, Runs, Handles, with_offered, owed};
ghost use Rattle.iscsi_session.specs.private.Deeds.{executed, turn_taken, comes_next};

use crate::kind::{is_numbered_command, kind_of};
use crate::session::Session;
use iscsi_rules::{Kind, Why};
use iscsi_sinks::EffectSink;
use iscsi_window::{HeldRequest, Offer, Place};
use iscsi_wire::Request;

impl Session {
    /// Takes the request with this header, which arrived on a connection: as `arrive`.
    // A caller that takes any event has no room for a request in its own frame.
    #[inline(never)]
    pub(crate) fn arrive_apart<S: EffectSink>(&mut self, conn: u16, header: &[u8; 48], out: &mut S)
        requires known { known_in conn self.old.conns ≡ true }
        requires counted { self.old.window.turned + count_by is_some self.old.window.places < self.old.taken }
        requires entered { self.old.entered + count_by is_some self.old.window.places < self.old.taken }
        requires waited { list_all (λ w. nat_lt (w.event + 1) self.old.taken) self.old.waiting ≡ true }
        requires room { S.len out.old + owed self.old.live self.old.sets
            + 6 * (count_by is_held self.old.window.places + length self.old.waiting + 1) + 1 ≤ S.capacity out.old }
        ensures items { (o : Setting) (index : ℕ) (t : Trace) → self.old.taken ≡ index + 1 → Settled o self.old t →
            Handles S.has o t (arrival o t (arrival_of o index t (request_of conn header.now))) HasOneMore self.new
            out.old out.new }
        ensures taken { self.new.taken ≡ self.old.taken }
        ensures pace { KeepsPace self.old.window self.new.window }
        ensures spent { S.len out.new ≤ S.len out.old + owed self.old.live self.old.sets
            + 6 * (count_by is_held self.old.window.places + length self.old.waiting + 1) + 1 }
        ensures capacity { S.capacity out.new ≡ S.capacity out.old }
    {
        let is_open = self.is_open(conn);
        self.arrive(&Request::read(conn, header), is_open, out);
    }

    /// Takes a request that arrived on a connection, which is open or not. Nothing is taken on one that is closed.
    ///
    /// Rule: `arrival/closed`.
    // It is inlined, so that a request is copied once.
    #[inline(always)]
    pub(crate) fn arrive<S: EffectSink>(&mut self, request: &Request, is_open: bool, out: &mut S)
        requires open { is_open ≡ is_among_open (connection_of request.now) self.old.open_conns }
        requires known { known_in (connection_of request.now) self.old.conns ≡ true }
        requires counted { self.old.window.turned + count_by is_some self.old.window.places < self.old.taken }
        requires entered { self.old.entered + count_by is_some self.old.window.places < self.old.taken }
        requires waited { list_all (λ w. nat_lt (w.event + 1) self.old.taken) self.old.waiting ≡ true }
        requires room { S.len out.old + owed self.old.live self.old.sets
            + 6 * (count_by is_held self.old.window.places + length self.old.waiting + 1) + 1 ≤ S.capacity out.old }
        ensures items { (o : Setting) (index : ℕ) (t : Trace) → self.old.taken ≡ index + 1 → Settled o self.old t →
            Handles S.has o t (arrival o t (arrival_of o index t request.now)) HasOneMore self.new
            out.old out.new }
        ensures taken { self.new.taken ≡ self.old.taken }
        ensures pace { KeepsPace self.old.window self.new.window }
        ensures spent { S.len out.new ≤ S.len out.old + owed self.old.live self.old.sets
            + 6 * (count_by is_held self.old.window.places + length self.old.waiting + 1) + 1 }
        ensures capacity { S.capacity out.new ≡ S.capacity out.old }
    {
        if is_open {
            self.dispatch(request, out);
        } else {
            out.put_ignore(Why::Closed);
        }
    }

    /// Dispatches a request that arrived on an open connection. Mostly it is a numbered SCSI Command.
    #[inline(never)]
    fn dispatch<S: EffectSink>(&mut self, request: &Request, out: &mut S)
        requires known { known_in (connection_of request.now) self.old.conns ≡ true }
        requires counted { self.old.window.turned + count_by is_some self.old.window.places < self.old.taken }
        requires entered { self.old.entered + count_by is_some self.old.window.places < self.old.taken }
        requires waited { list_all (λ w. nat_lt (w.event + 1) self.old.taken) self.old.waiting ≡ true }
        requires room { S.len out.old + owed self.old.live self.old.sets
            + 6 * (count_by is_held self.old.window.places + length self.old.waiting + 1) + 1 ≤ S.capacity out.old }
        ensures items { (o : Setting) (index : ℕ) (t : Trace) → self.old.taken ≡ index + 1 → Settled o self.old t →
            Handles S.has o t (arrival_open o t (arrival_of o index t request.now)) HasOneMore self.new out.old out.new }
        ensures taken { self.new.taken ≡ self.old.taken }
        ensures pace { KeepsPace self.old.window self.new.window }
        ensures spent { S.len out.new ≤ S.len out.old + owed self.old.live self.old.sets
            + 6 * (count_by is_held self.old.window.places + length self.old.waiting + 1) + 1 }
        ensures capacity { S.capacity out.new ≡ S.capacity out.old }
    {
        if is_numbered_command(request) {
            self.receive_numbered(request, out);
        } else {
            self.dispatch_otherwise(request, out);
        }
    }

    /// Dispatches a request of any opcode that arrived on an open connection.
    ///
    /// Rules: `arrival/data`, `arrival/unknown-opcode`.
    #[inline(never)]
    #[tactic(auto, using(crate::proofs::DeedLemmas::immediate_same, std::proofs::lemmas::Bool::Decides::nat_tests))]
    fn dispatch_otherwise<S: EffectSink>(&mut self, request: &Request, out: &mut S)
        requires known { known_in (connection_of request.now) self.old.conns ≡ true }
        requires counted { self.old.window.turned + count_by is_some self.old.window.places < self.old.taken }
        requires entered { self.old.entered + count_by is_some self.old.window.places < self.old.taken }
        requires waited { list_all (λ w. nat_lt (w.event + 1) self.old.taken) self.old.waiting ≡ true }
        requires room { S.len out.old + owed self.old.live self.old.sets
            + 6 * (count_by is_held self.old.window.places + length self.old.waiting + 1) + 1 ≤ S.capacity out.old }
        ensures items { (o : Setting) (index : ℕ) (t : Trace) → self.old.taken ≡ index + 1 → Settled o self.old t →
            Handles S.has o t (arrival_open o t (arrival_of o index t request.now)) HasOneMore self.new out.old out.new }
        ensures taken { self.new.taken ≡ self.old.taken }
        ensures pace { KeepsPace self.old.window self.new.window }
        ensures spent { S.len out.new ≤ S.len out.old + owed self.old.live self.old.sets
            + 6 * (count_by is_held self.old.window.places + length self.old.waiting + 1) + 1 }
        ensures capacity { S.capacity out.new ≡ S.capacity out.old }
    {
        match kind_of(request) {
            Kind::PassedOver => out.put_ignore(Why::Data),
            Kind::Unknown => self.reject_opcode(request, out),
            Kind::Executes => {
                if request.immediate() {
                    self.take_at_once(request, out);
                } else {
                    self.receive_numbered(request, out);
                }
            }
        }
    }

    /// Takes an immediate request, and delivers what becomes due by it.
    ///
    /// Rule: `arrival/immediate`.
    #[inline(never)]
    #[tactic(auto, using(crate::proofs::DeedLemmas::immediate_same, std::proofs::lemmas::Bool::Decides::nat_tests))]
    fn take_at_once<S: EffectSink>(&mut self, request: &Request, out: &mut S)
        requires immediate { is_immediate request.now ≡ true }
        requires executes { kind_named request.now ≡ Kind.Executes }
        requires known { known_in (connection_of request.now) self.old.conns ≡ true }
        requires counted { self.old.window.turned + count_by is_some self.old.window.places < self.old.taken }
        requires entered { self.old.entered + count_by is_some self.old.window.places < self.old.taken }
        requires waited { list_all (λ w. nat_lt (w.event + 1) self.old.taken) self.old.waiting ≡ true }
        requires room { S.len out.old + owed self.old.live self.old.sets
            + 6 * (count_by is_held self.old.window.places + length self.old.waiting + 1) + 1 ≤ S.capacity out.old }
        ensures items { (o : Setting) (index : ℕ) (t : Trace) → self.old.taken ≡ index + 1 → Settled o self.old t →
            Handles S.has o t (arrival_open o t (arrival_of o index t request.now)) HasOneMore self.new out.old out.new }
        ensures taken { self.new.taken ≡ self.old.taken }
        ensures pace { KeepsPace self.old.window self.new.window }
        ensures spent { S.len out.new ≤ S.len out.old + owed self.old.live self.old.sets
            + 6 * (count_by is_held self.old.window.places + length self.old.waiting + 1) + 1 }
        ensures capacity { S.capacity out.new ≡ S.capacity out.old }
    {
        self.receive_immediate(request, out);
        self.run_agenda(out);
    }

    /// Offers a numbered request to the window, and delivers what becomes due by it.
    ///
    /// Rules: `arrival/outside`, `arrival/duplicate`, `arrival/held`.
    // What is delivered is apart, so that a request that is held or passed over costs no frame.
    #[inline(always)]
    fn receive_numbered<S: EffectSink>(&mut self, request: &Request, out: &mut S)
        requires regular { is_immediate request.now ≡ false }
        requires known { known_in (connection_of request.now) self.old.conns ≡ true }
        requires counted { self.old.window.turned + count_by is_some self.old.window.places < self.old.taken }
        requires entered { self.old.entered + count_by is_some self.old.window.places < self.old.taken }
        requires room { S.len out.old + owed self.old.live self.old.sets
            + 6 * (count_by is_held self.old.window.places + length self.old.waiting + 1) ≤ S.capacity out.old }
        ensures items { (o : Setting) (index : ℕ) (t : Trace) → self.old.taken ≡ index + 1 → Settled o self.old t →
            Handles S.has o t (numbered o t (arrival_of o index t request.now)) HasOneMore self.new out.old out.new }
        ensures taken { self.new.taken ≡ self.old.taken }
        ensures pace { KeepsPace self.old.window self.new.window }
        ensures spent { S.len out.new ≤ S.len out.old + owed self.old.live self.old.sets
            + 6 * (count_by is_held self.old.window.places + length self.old.waiting + 1) }
        ensures capacity { S.capacity out.new ≡ S.capacity out.old }
    {
        if let Place::Outside = self.window.place(request.cmd_sn()) {
            out.put_ignore(Why::Outside);
            return;
        }
        if self.comes_next(request) {
            self.take_next(request, out);
            return;
        }
        match self.offer(request) {
            Offer::Held => self.run_agenda_apart(out),
            Offer::Duplicate => out.put_ignore(Why::Duplicate),
            // Its place is inside.
            Offer::Outside => unreachable!(),
        }
    }

    /// Delivers a numbered request as it comes, and what becomes due by it.
    #[inline(never)]
    fn take_next<S: EffectSink>(&mut self, request: &Request, out: &mut S)
        requires next { comes_next self.old request.now ≡ true }
        requires regular { is_immediate request.now ≡ false }
        requires known { known_in (connection_of request.now) self.old.conns ≡ true }
        requires counted { self.old.window.turned + count_by is_some self.old.window.places < self.old.taken }
        requires entered { self.old.entered + count_by is_some self.old.window.places < self.old.taken }
        requires room { S.len out.old + owed self.old.live self.old.sets
            + 6 * (count_by is_held self.old.window.places + length self.old.waiting + 1) ≤ S.capacity out.old }
        ensures items { (o : Setting) (index : ℕ) (t : Trace) → self.old.taken ≡ index + 1 → Settled o self.old t →
            Handles S.has o t (numbered o t (arrival_of o index t request.now)) HasOneMore self.new out.old out.new }
        ensures taken { self.new.taken ≡ self.old.taken }
        ensures pace { KeepsPace self.old.window self.new.window }
        ensures spent { S.len out.new ≤ S.len out.old + owed self.old.live self.old.sets
            + 6 * (count_by is_held self.old.window.places + length self.old.waiting + 1) }
        ensures capacity { S.capacity out.new ≡ S.capacity out.old }
    {
        self.deliver_at_once(request, out);
        self.run_agenda(out);
    }

    /// Whether a numbered request can be delivered as it comes: its number is the expected one, and no function waits
    /// for that.
    fn comes_next(&self, request: &Request) -> bool
        ensures { result ≡ comes_next self.now request.now }
    {
        self.window.is_next(request) && !self.waiting.has_due(self.window.turned())
    }

    /// Delivers a numbered request as it comes, so that the window needn't hold it.
    fn deliver_at_once<S: EffectSink>(&mut self, request: &Request, out: &mut S)
        requires next { comes_next self.old request.now ≡ true }
        requires regular { is_immediate request.now ≡ false }
        requires known { known_in (connection_of request.now) self.old.conns ≡ true }
        requires counted { self.old.window.turned + count_by is_some self.old.window.places < self.old.taken }
        requires entered { self.old.entered + count_by is_some self.old.window.places < self.old.taken }
        requires room { S.len out.old + owed self.old.live self.old.sets + 6 * count_by is_held self.old.window.places
            + 6 ≤ S.capacity out.old }
        // It is offered, and turns.
        ensures done { Takes S.has S.capacity (turn_taken (with_offered self.old request.now) (Some (Some (record {
          request = request.now;
          event = self.old.taken - 1;
        })))) self.new out.old out.new }
        ensures spent { S.len out.new + owed self.new.live self.new.sets
            + 6 * (count_by is_held self.new.window.places + length self.new.waiting) ≤ S.len out.old
            + owed self.old.live self.old.sets
            + 6 * (count_by is_held self.old.window.places + length self.old.waiting + 1) }
    {
        self.window.pass(request);
        let event = self.taken - 1;
        self.deliver(request, event, out);
    }

    /// Offers a numbered request to the window.
    #[inline(always)]
    fn offer(&mut self, request: &Request) -> Offer
        requires regular { is_immediate request.now ≡ false }
        requires known { known_in (connection_of request.now) self.old.conns ≡ true }
        requires counted { self.old.window.turned + count_by is_some self.old.window.places < self.old.taken }
        requires entered { self.old.entered + count_by is_some self.old.window.places < self.old.taken }
        ensures answer { result ≡ offer_to self.old.window request.now }
        ensures session { self.new ≡ with_offered self.old request.now }
        ensures held { count_by is_held self.new.window.places ≤ count_by is_held self.old.window.places + 1 }
        ensures counted { self.new.window.turned + count_by is_some self.new.window.places ≤ self.old.window.turned
            + count_by is_some self.old.window.places + 1 }
    {
        self.window.offer(request, self.taken - 1)
    }

    /// Runs the agenda: delivers each number that is due, and executes the functions that waited for it before.
    // It is inlined: mostly nothing is due.
    #[inline(always)]
    fn run_agenda<S: EffectSink>(&mut self, out: &mut S)
        requires room { S.len out.old + owed self.old.live self.old.sets
            + 6 * (count_by is_held self.old.window.places + length self.old.waiting) ≤ S.capacity out.old }
        ensures items { (o : Setting) (t : Trace) → Agrees o self.old t →
            Handles S.has o t (agenda o (number_expected self.old.window) (exp_of o t - number_expected self.old.window) t)
            (λ ns ns'. ns' ≡ ns) self.new out.old out.new }
        ensures taken { self.new.taken ≡ self.old.taken }
        ensures pace { KeepsPace self.old.window self.new.window }
        ensures spent { S.len out.new ≤ S.len out.old + owed self.old.live self.old.sets
            + 6 * (count_by is_held self.old.window.places + length self.old.waiting) }
        ensures capacity { S.capacity out.new ≡ S.capacity out.old }
    {
        self.execute_waiting(out);
        while self.deliver_next(out) {
            self.execute_waiting(out);
        }
    }

    /// Runs the agenda, apart from what holds the request by which something may be due.
    #[inline(never)]
    fn run_agenda_apart<S: EffectSink>(&mut self, out: &mut S)
        requires room { S.len out.old + owed self.old.live self.old.sets
            + 6 * (count_by is_held self.old.window.places + length self.old.waiting) ≤ S.capacity out.old }
        ensures items { (o : Setting) (t : Trace) → Agrees o self.old t →
            Handles S.has o t (agenda o (number_expected self.old.window) (exp_of o t - number_expected self.old.window) t)
            (λ ns ns'. ns' ≡ ns) self.new out.old out.new }
        ensures taken { self.new.taken ≡ self.old.taken }
        ensures pace { KeepsPace self.old.window self.new.window }
        ensures spent { S.len out.new ≤ S.len out.old + owed self.old.live self.old.sets
            + 6 * (count_by is_held self.old.window.places + length self.old.waiting) }
        ensures capacity { S.capacity out.new ≡ S.capacity out.old }
    {
        self.run_agenda(out);
    }

    /// Executes the functions that have waited for the next number.
    #[inline(always)]
    fn execute_waiting<S: EffectSink>(&mut self, out: &mut S)
        requires room { S.len out.old + owed self.old.live self.old.sets + 6 * length self.old.waiting
            ≤ S.capacity out.old }
        ensures items { (o : Setting) (t : Trace) → Agrees o self.old t →
            Runs S.has o t (functions_at o (number_expected self.old.window) t) self.new out.old out.new }
        ensures places { self.new.window.places ≡ self.old.window.places }
        ensures turned { self.new.window.turned ≡ self.old.window.turned }
        ensures first { self.new.window.first ≡ self.old.window.first }
        ensures taken { self.new.taken ≡ self.old.taken }
        ensures pace { KeepsPace self.old.window self.new.window }
        ensures spent { S.len out.new + owed self.new.live self.new.sets + 6 * length self.new.waiting
            ≤ S.len out.old + owed self.old.live self.old.sets + 6 * length self.old.waiting }
        ensures capacity { S.capacity out.new ≡ S.capacity out.old }
    {
        if self.waiting.has_due(self.window.turned()) {
            self.execute_all_waiting(out);
        }
    }

    /// Executes the functions that have waited for the next number, of those that wait.
    #[inline(never)]
    fn execute_all_waiting<S: EffectSink>(&mut self, out: &mut S)
        requires room { S.len out.old + owed self.old.live self.old.sets + 6 * length self.old.waiting
            ≤ S.capacity out.old }
        ensures items { (o : Setting) (t : Trace) → Agrees o self.old t →
            Runs S.has o t (functions_at o (number_expected self.old.window) t) self.new out.old out.new }
        ensures places { self.new.window.places ≡ self.old.window.places }
        ensures turned { self.new.window.turned ≡ self.old.window.turned }
        ensures first { self.new.window.first ≡ self.old.window.first }
        ensures taken { self.new.taken ≡ self.old.taken }
        ensures pace { KeepsPace self.old.window self.new.window }
        ensures spent { S.len out.new + owed self.new.live self.new.sets + 6 * length self.new.waiting
            ≤ S.len out.old + owed self.old.live self.old.sets + 6 * length self.old.waiting }
        ensures capacity { S.capacity out.new ≡ S.capacity out.old }
    {
        while self.execute_next_waiting(out) {}
    }

    /// Delivers the request of the next number, if that is received, and answers whether it was.
    // It is inlined: mostly none is, and that costs no call.
    #[inline(always)]
    fn deliver_next<S: EffectSink>(&mut self, out: &mut S) -> bool
        requires room { S.len out.old + owed self.old.live self.old.sets + 6 * count_by is_held self.old.window.places
            ≤ S.capacity out.old }
        ensures answer { result ≡ is_some (at_place self.old.window 0) }
        ensures done { Takes S.has S.capacity (turn_taken self.old (at_place self.old.window 0)) self.new out.old out.new }
        ensures spent { S.len out.new + owed self.new.live self.new.sets + 6 * count_by is_held self.new.window.places
            ≤ S.len out.old + owed self.old.live self.old.sets + 6 * count_by is_held self.old.window.places }
        ensures fewer { result ≡ true → count_by is_some self.new.window.places + 1
            ≡ count_by is_some self.old.window.places }
        ensures waiting { length self.new.waiting ≤ length self.old.waiting }
    {
        if !self.window.is_due() {
            return false;
        }
        self.deliver_due(out);
        true
    }

    /// Delivers the request of the next number, which is received.
    #[inline(never)]
    fn deliver_due<S: EffectSink>(&mut self, out: &mut S)
        requires due { is_some (at_place self.old.window 0) ≡ true }
        requires room { S.len out.old + owed self.old.live self.old.sets + 6 * count_by is_held self.old.window.places
            ≤ S.capacity out.old }
        ensures done { Takes S.has S.capacity (turn_taken self.old (at_place self.old.window 0)) self.new out.old out.new }
        ensures spent { S.len out.new + owed self.new.live self.new.sets + 6 * count_by is_held self.new.window.places
            ≤ S.len out.old + owed self.old.live self.old.sets + 6 * count_by is_held self.old.window.places }
        ensures fewer { count_by is_some self.new.window.places + 1 ≡ count_by is_some self.old.window.places }
        ensures waiting { length self.new.waiting ≤ length self.old.waiting }
    {
        let Some(held) = self.window.first_held() else {
            self.window.turn();
            return;
        };
        // It is copied once, from its place.
        let HeldRequest { request, event } = *held;
        self.window.turn();
        self.deliver(&request, event, out);
    }
}
