//! Logout, and the closing of connections and of the session (RFC 7143 sections 11.14 and 11.15).

ghost use Rattle.std.specs.Prelude.{not, filter, ◌≡◌, ◌+◌, ◌≤◌, ◌<◌, ◌++◌, length, true, count_by, vec_len, vec_capacity};
ghost use Rattle.std.specs.List.{range_with_len};
ghost use Rattle.iscsi_wire.specs.Fields.{connection_of};
ghost use Rattle.iscsi_window.specs.Windows.{is_asked};
ghost use Rattle.iscsi_tasks.specs.Sets.{is_covered};
ghost use Rattle.iscsi_session.specs.private.Standing.{is_held};
ghost use Rattle.iscsi_session.specs.private.Steps.{Continues, is_among_open, Takes, all_told, all_commands_left, cover_of as cover_named, is_clear_below, all_emptied, waiting_then, session_closes, conns_closed, logged_out, owed};

use crate::session::Session;
use crate::session::leaving::Leaving;
use iscsi_rules::Answer;
use iscsi_sinks::EffectSink;
use iscsi_tasks::Cover;
use iscsi_wire::{LogoutResponse, Request};
use std::alloc::Global;

impl Session {
    /// Whether a connection isn't closed.
    pub(crate) fn is_open(&self, conn: u16) -> bool
        ensures { result ≡ is_among_open conn self.now.open_conns }
    {
        self.connections.is_open(conn)
    }

    /// Carries a Logout out, of a connection or for None of the session: what of it is live leaves, what is held is
    /// discarded, what waits is dropped, and it closes.
    #[inline(never)]
    pub(crate) fn log_out<S: EffectSink>(
        &mut self,
        request: &Request,
        scope: Option<u16>,
        out: &mut S,
    )
        requires room { S.len out.old + owed self.old.live self.old.sets + count_by is_held self.old.window.places + 3
            ≤ S.capacity out.old }
        ensures done { Takes S.has S.capacity (logged_out self.old request.now scope) self.new out.old out.new }
        ensures spent { S.len out.new + owed self.new.live self.new.sets + count_by is_held self.new.window.places
            ≤ S.len out.old + owed self.old.live self.old.sets + count_by is_held self.old.window.places + 3 }
    {
        self.leave_all(scope, out);
        self.empty_all(scope, out);
        self.drop_waiting(scope);
        let answer = Answer::LogOut(LogoutResponse::Closed as u8);
        self.answer(request, answer, out);
        self.close(scope, out);
        self.announce_all(out);
    }

    /// The live commands of a connection, or of all for None, leave: units ascending, the oldest first.
    fn leave_all<S: EffectSink>(&mut self, scope: Option<u16>, out: &mut S)
        requires room { S.len out.old + owed self.old.live self.old.sets ≤ S.capacity out.old }
        ensures done { Takes S.has S.capacity (all_commands_left self.old (range_with_len 0 (length self.old.sets)) (is_covered (cover_named scope))) self.new out.old
            out.new }
        ensures spent { S.len out.new + owed self.new.live self.new.sets ≤ S.len out.old
            + owed self.old.live self.old.sets }
        ensures places { self.new.window.places ≡ self.old.window.places }
    {
        let cover = cover_of(scope);
        for unit in 0..self.units() {
            self.leave(unit, &Leaving::Covered(cover), out);
        }
    }

    /// The requests that are held of a connection, or of all for None, are taken out: numbers ascending.
    fn empty_all<S: EffectSink>(&mut self, scope: Option<u16>, out: &mut S)
        requires room { S.len out.old + count_by is_held self.old.window.places ≤ S.capacity out.old }
        ensures done { Takes S.has S.capacity (all_emptied self.old scope) self.new out.old out.new }
        ensures spent { S.len out.new + count_by is_held self.new.window.places ≤ S.len out.old
            + count_by is_held self.old.window.places }
    {
        for ahead in 0..self.window.size() {
            self.empty_at(ahead, scope, out);
        }
    }

    /// The request that is held `ahead` numbers after the expected one is taken out, if it is of the connection, or
    /// of any for None.
    #[tactic(auto, using(crate::proofs::LogoutLemmas::clear_past, crate::proofs::LogoutLemmas::answered_none, std::proofs::lemmas::Bool::Decides::nat_tests))]
    fn empty_at<S: EffectSink>(&mut self, ahead: u32, scope: Option<u16>, out: &mut S)
        requires room { S.len out.old + count_by is_held self.old.window.places ≤ S.capacity out.old }
        requires lowest { is_clear_below scope ahead self.old.window.places ≡ true }
        // What is still to be taken out is the rest of what was to be before.
        ensures session { (all_emptied self.new scope).core ≡ (all_emptied self.old scope).core }
        ensures effects { Continues S.has (all_emptied self.old scope).effects (all_emptied self.new scope).effects
            out.old out.new }
        ensures lowest { is_clear_below scope (ahead + 1) self.new.window.places ≡ true }
        ensures long { length self.new.window.places ≡ length self.old.window.places }
        ensures spent { S.len out.new + count_by is_held self.new.window.places ≤ S.len out.old
            + count_by is_held self.old.window.places }
        ensures capacity { S.capacity out.new ≡ S.capacity out.old }
    {
        let Some(sn) = self.window.drop_at(ahead, scope) else {
            return;
        };
        out.put_empty(sn);
    }

    /// The functions of a connection that wait, or of all for None, are dropped.
    fn drop_waiting(&mut self, scope: Option<u16>)
        ensures session { self.new ≡ record self.old {
          waiting = filter (λ w. not (is_asked scope (connection_of w.request))) self.old.waiting;
        } }
    {
        self.waiting.drop_of(scope);
    }

    /// A connection is closed, or the session for None, and with the last connection the session.
    #[tactic(auto, using(std::proofs::Common::append_assoc, std::proofs::lemmas::Bool::Decides::nat_tests))]
    fn close<S: EffectSink>(&mut self, scope: Option<u16>, out: &mut S)
        requires room { S.len out.old + 2 ≤ S.capacity out.old }
        ensures done { Takes S.has S.capacity (conns_closed self.old scope) self.new out.old out.new }
        ensures spent { S.len out.new ≤ S.len out.old + 2 }
    {
        self.connections.close(scope);
        if let Some(conn) = scope {
            out.put_close_conn(conn);
        }
        self.end_if_last(out);
    }

    /// Where no connection is open, the session is closed, and no function waits any more.
    fn end_if_last<S: EffectSink>(&mut self, out: &mut S)
        requires room { S.len out.old + 1 ≤ S.capacity out.old }
        ensures done { Takes S.has S.capacity (record {
          core = record self.old { waiting = waiting_then self.old.open_conns self.old.waiting };
          effects = session_closes self.old.open_conns;
        }) self.new out.old out.new }
        ensures spent { S.len out.new ≤ S.len out.old + 1 }
    {
        if !self.connections.are_closed() {
            return;
        }
        self.waiting.clear();
        out.put_close_session();
    }

    /// The commands that became enabled are announced to each unit.
    fn announce_all<S: EffectSink>(&mut self, out: &mut S)
        requires room { S.len out.old + owed self.old.live self.old.sets ≤ S.capacity out.old }
        ensures done { Takes S.has S.capacity (all_told self.old) self.new out.old out.new }
        ensures spent { S.len out.new + owed self.new.live self.new.sets ≤ S.len out.old
            + owed self.old.live self.old.sets }
    {
        for unit in 0..self.units() {
            self.announce_enabled(unit, out);
        }
    }

    /// How many units there are.
    fn units(&self) -> u16
        ensures { result ≡ length self.now.sets }
    {
        self.sets.len() as u16
    }
}

/// Whether a connection is the one that is closed: each is for None.
pub(crate) fn is_of(scope: Option<u16>, conn: u16) -> bool
    ensures { result ≡ is_asked scope conn }
{
    match scope {
        Some(closing) => conn == closing,
        None => true,
    }
}

/// The commands of a connection, or all for None.
fn cover_of(scope: Option<u16>) -> Cover
    ensures { result ≡ cover_named scope }
{
    match scope {
        Some(conn) => Cover::Conn(conn),
        None => Cover::All,
    }
}
