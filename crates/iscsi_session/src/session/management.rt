//! Task management (RFC 7143 sections 4.2.3 and 11.5, SAM-5 section 7).

ghost use Rattle.std.specs.Prelude.{[], ◌∷◌, ◌-◌, ◌≡◌, ◌+◌, ◌*◌, ◌≤◌, ◌<◌, true, false, length, nat_lt, count_by, is_some, vec_len, vec_capacity, if◌then◌else◌};
ghost use Rattle.std.specs.List.{list_all};
ghost use Rattle.iscsi_wire.specs.Fields.{connection_of, is_immediate};
ghost use Rattle.iscsi_window.specs.Windows.{IsInside, place_in, held_at, emptied};
ghost use Rattle.iscsi_rules.specs.declared.effect.Effect.{Effect};
ghost use Rattle.iscsi_rules.specs.rules.Settings.{is_known as known_in};
ghost use Rattle.iscsi_rules.specs.rules.Execution.{reply_of};
ghost use Rattle.iscsi_session.specs.private.Standing.{is_held};
ghost use Rattle.iscsi_session.specs.private.Steps.{KeepsPace, after_effect, Takes, covers_by, left_answered, number_voided, owed};
ghost use Rattle.iscsi_session.specs.private.Deeds.{arrival_by, Fits, IsReady, most_emptied, next_waiting, position_by, carried, function_taken, immediate_taken};

use crate::session::Session;
use crate::session::leaving::Leaving;
use crate::session::waiting::Waiting;
use iscsi_rules::{Answer, Deed};
use iscsi_sinks::EffectSink;
use iscsi_wire::{FunctionResponse, Request};

/// A function is complete.
pub(crate) const COMPLETE: Answer = Answer::Respond(FunctionResponse::Complete as u8);

impl Session {
    /// An immediate request executes, or is a function that waits.
    // What it does stays in registers here.
    #[inline(always)]
    #[tactic(auto, using(crate::proofs::DeedLemmas::arrival_steps))]
    pub(crate) fn receive_immediate<S: EffectSink>(&mut self, request: &Request, out: &mut S)
        requires immediate { is_immediate request.now ≡ true }
        requires known { known_in (connection_of request.now) self.old.conns ≡ true }
        requires turned { self.old.window.turned + count_by is_some self.old.window.places < self.old.taken }
        requires entered { self.old.entered + count_by is_some self.old.window.places < self.old.taken }
        requires waited { list_all (λ w. nat_lt (w.event + 1) self.old.taken) self.old.waiting ≡ true }
        requires room { S.len out.old + owed self.old.live self.old.sets + 6 * count_by is_held self.old.window.places
            + 6 ≤ S.capacity out.old }
        ensures done { Takes S.has S.capacity (immediate_taken self.old request.now (arrival_by self.old request.now)) self.new out.old out.new }
        ensures pace { KeepsPace self.old.window self.new.window }
        ensures spent { S.len out.new + owed self.new.live self.new.sets
            + 6 * (count_by is_held self.new.window.places + length self.new.waiting) ≤ S.len out.old
            + owed self.old.live self.old.sets
            + 6 * (count_by is_held self.old.window.places + length self.old.waiting + 1) + 1 }
    {
        match self.decide_arrival(request) {
            Deed::Wait => self.wait(request, out),
            deed => self.execute_at_once(request, deed, out),
        }
    }

    /// Does what an immediate request does at its arrival, which doesn't wait.
    #[inline(always)]
    #[tactic(auto, using(crate::proofs::DeedLemmas::numbers_read, std::proofs::Common::append_assoc))]
    fn execute_at_once<S: EffectSink>(&mut self, request: &Request, deed: Deed, out: &mut S)
        requires fits { Fits self.old request.now deed }
        requires ready { IsReady self.old request.now deed }
        requires taken { 0 < self.old.taken }
        requires room { S.len out.old + owed self.old.live self.old.sets + most_emptied self.old deed + 5
            ≤ S.capacity out.old }
        ensures done { Takes S.has S.capacity (after_effect (Effect.Immediate request.now) (carried self.old request.now
            (position_by self.old request.now) (self.old.taken - 1) deed)) self.new out.old out.new }
        ensures spent { S.len out.new + owed self.new.live self.new.sets + count_by is_held self.new.window.places
            ≤ S.len out.old + owed self.old.live self.old.sets + count_by is_held self.old.window.places + 5 }
    {
        out.put_immediate(request);
        let number = self.position(request);
        let event = self.taken - 1;
        self.carry_out(request, number, event, deed, out);
    }

    /// A function waits for its number.
    fn wait<S: EffectSink>(&mut self, request: &Request, out: &mut S)
        requires later { Fits self.old request.now Deed.Wait }
        requires known { known_in (connection_of request.now) self.old.conns ≡ true }
        requires taken { 0 < self.old.taken }
        requires waited { list_all (λ w. nat_lt (w.event + 1) self.old.taken) self.old.waiting ≡ true }
        requires room { S.len out.old + 1 ≤ S.capacity out.old }
        ensures done { Takes S.has S.capacity (immediate_taken self.old request.now Deed.Wait) self.new out.old out.new }
        ensures len { S.len out.new ≤ S.len out.old + 1 }
    {
        out.put_wait(request);
        let ahead = request.cmd_sn().wrapping_sub(self.window.exp());
        self.waiting.push(Waiting {
            request: *request,
            turn: self.window.turned() + u64::from(ahead),
            event: self.taken - 1,
        });
    }

    /// Executes a function that has waited for the next number, if there is one, and tells whether there was.
    #[tactic(auto, using(crate::proofs::DeedLemmas::whole_function, crate::proofs::SoundLemmas::next_may, std::proofs::lemmas::Bool::Decides::nat_tests))]
    pub(crate) fn execute_next_waiting<S: EffectSink>(&mut self, out: &mut S) -> bool
        requires room { S.len out.old + owed self.old.live self.old.sets + 6 * length self.old.waiting
            ≤ S.capacity out.old }
        ensures answer { result ≡ is_some (next_waiting self.old) }
        ensures done { Takes S.has S.capacity (function_taken self.old (next_waiting self.old)) self.new out.old out.new }
        ensures spent { S.len out.new + owed self.new.live self.new.sets + 6 * length self.new.waiting
            ≤ S.len out.old + owed self.old.live self.old.sets + 6 * length self.old.waiting }
        ensures fewer { result ≡ true → length self.new.waiting < length self.old.waiting }
        ensures places { self.new.window.places ≡ self.old.window.places }
    {
        let number = self.window.turned();
        let Some(function) = self.waiting.take_first(number) else {
            return false;
        };
        let request = function.request;
        out.put_immediate(&request);
        let deed = self.decide_function(&request);
        self.carry_out(&request, number as i64, function.event, deed, out);
        true
    }

    /// These commands of a unit leave, and the function is answered.
    #[inline(never)]
    pub(crate) fn abort<S: EffectSink>(
        &mut self,
        request: &Request,
        unit: u16,
        leaving: Leaving,
        out: &mut S,
    )
        requires unit { unit < length self.old.sets }
        requires room { S.len out.old + owed self.old.live self.old.sets + 1 ≤ S.capacity out.old }
        ensures done { Takes S.has S.capacity (left_answered self.old unit (covers_by leaving) (connection_of request.now)
            (reply_of request.now (Answer.Respond 0))) self.new out.old out.new }
        ensures spent { S.len out.new + owed self.new.live self.new.sets ≤ S.len out.old
            + owed self.old.live self.old.sets + 1 }
    {
        self.leave(unit, &leaving, out);
        self.answer(request, COMPLETE, out);
        self.announce_enabled(unit, out);
    }

    /// Takes out the request that is held for this number.
    #[inline(never)]
    pub(crate) fn empty_number<S: EffectSink>(&mut self, sn: u32, out: &mut S)
        requires room { S.len out.old + 1 ≤ S.capacity out.old }
        ensures done { Takes S.has S.capacity (record { core = record self.old { window = emptied self.old.window sn }; effects = Effect.Empty sn ∷ [] }) self.new out.old out.new }
        ensures len { S.len out.new ≤ S.len out.old + 1 }
        ensures held { count_by is_held self.new.window.places
            + (if is_some (held_at self.old.window (place_in self.old.window sn)) then 1 else 0)
            ≡ count_by is_held self.old.window.places }
        ensures turned { self.new.window.turned ≡ self.old.window.turned }
        ensures counted { count_by is_some self.new.window.places ≡ count_by is_some self.old.window.places }
    {
        self.window.empty(sn);
        out.put_empty(sn);
    }

    /// Receives this number without a request, if it wasn't received before.
    #[inline(never)]
    #[tactic(auto, using(crate::proofs::WindowLemmas::voided_changes, std::proofs::lemmas::Bool::Decides::nat_tests))]
    pub(crate) fn void_number<S: EffectSink>(&mut self, sn: u32, out: &mut S)
        requires inside { IsInside (place_in self.old.window sn) }
        requires counted { self.old.window.turned + count_by is_some self.old.window.places < self.old.taken }
        requires entered { self.old.entered + count_by is_some self.old.window.places < self.old.taken }
        requires room { S.len out.old + 1 ≤ S.capacity out.old }
        ensures done { Takes S.has S.capacity (number_voided self.old sn) self.new out.old out.new }
        ensures spent { S.len out.new ≤ S.len out.old + 1 }
        ensures held { count_by is_held self.new.window.places ≡ count_by is_held self.old.window.places }
        ensures counted { self.new.window.turned + count_by is_some self.new.window.places ≤ self.old.window.turned
            + count_by is_some self.old.window.places + 1 }
    {
        if self.window.void(sn) {
            out.put_void(sn);
        }
    }
}
