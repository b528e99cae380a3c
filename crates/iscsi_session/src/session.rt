//! The session, and its step.

ghost use Rattle.std.specs.Prelude.{IfSome, Err, ◌⊎◌, ◌*◌, ◌≡◌, ◌≢◌, ℕ, ◌+◌, ◌≤◌, ◌<◌, true, List, [], ◌∷◌, ◌++◌, None, OnOk, OnErr, IfOk, length, nat_lt, not, Some, if◌then◌else◌, count_by, is_some, vec_len, vec_capacity};
ghost use Rattle.std.specs.List.{list_all};
ghost use Rattle.iscsi_rules.specs.declared.effect.Effect.{Effect as SpecEffect};
ghost use Rattle.iscsi_rules.specs.rules.Settings.{Setting, is_known as known_in, is_valid};
ghost use Rattle.iscsi_session.specs.promises.Settings.{setting_of};
ghost use Rattle.iscsi_connections.specs.Connected.{opened};
ghost use Rattle.iscsi_rules.specs.rules.Trace.{Trace, live};
ghost use Rattle.iscsi_rules.specs.rules.Agenda.{arrival, items_of};
ghost use Rattle.iscsi_rules.specs.rules.Run.{trace_of, run_of, next_entry, numbers_of};
ghost use Rattle.iscsi_rules.specs.promises.Flow.{Flows, HasOneMore};
ghost use Rattle.iscsi_rules.specs.promises.Executed.{delivered, executed};
ghost use Rattle.iscsi_rules.specs.promises.Enabling.{EnablesByTheRule};
ghost use Rattle.iscsi_rules.specs.promises.Aborts.{AbortsHoldIn};
ghost use Rattle.iscsi_rules.specs.promises.Closes.{ClosesHoldIn};
ghost use Rattle.iscsi_rules.specs.promises.Lives.{StartsOnce};
ghost use Rattle.iscsi_rules.specs.promises.Answers.{AnswersOnceIn};
ghost use Rattle.iscsi_rules.specs.promises.Numbering.{CountsReplies};
ghost use Rattle.iscsi_rules.specs.promises.Order.{KeepsOrder};
ghost use Rattle.iscsi_rules.specs.promises.Meaning.{MeansWhatItSays};
ghost use Rattle.iscsi_session.specs.promises.Arrivals.{arrived};
ghost use Rattle.iscsi_session.specs.promises.Refusals.{RefusesAs, refusal_of, refusal_of_options};
ghost use Rattle.iscsi_session.specs.promises.Bounds.{effect_bound_of, most_effects};
ghost use Rattle.iscsi_session.specs.private.Standing.{Settled, StandsFor, is_held};
ghost use Rattle.iscsi_session.specs.private.Steps.{comes_on, refusal_by, KeepsPace, Handles, owed, numbers_by};

use crate::fault::SessionFault;
use crate::options::Options;
use crate::session::waiting::Waitlist;
use iscsi_commands::LiveCommands;
use iscsi_connections::{Connections, MOST_IMMEDIATE};
use iscsi_rules::{Effect, Event, Numbers};
use iscsi_sinks::EffectSink;
use iscsi_tasks::LinkedTaskSet;
use iscsi_window::EventWindow;
use iscsi_wire::Request;
use std::alloc::Global;
use std::marker::Model;

mod arrival;
mod completion;
mod decision;
mod execution;
mod leaving;
mod logout;
mod management;
mod sets;
mod waiting;

/// The most effects of one item.
const ITEM_EFFECTS: usize = 12;

/// One session: its command window, its commands and task sets, and the numbers of its connections.
pub struct Session {
    /// The numbers that were received and haven't turned, and the requests that are held for them, each with the event in
    /// which it arrived.
    window: EventWindow,
    /// The most events that the session takes.
    events: u64,
    /// Its connections: which are open, the StatSN of each, and how many of its immediate commands are live.
    connections: Connections,
    /// How many commands ever entered a task set, which is the last ticket.
    entered: u64,
    /// How many events the session has taken.
    taken: u64,
    /// The live commands, found by ticket and by Initiator Task Tag.
    live: LiveCommands,
    /// The task set of each unit, at the unit's number. None has memory for more commands than may be live.
    sets: Vec<LinkedTaskSet>,
    /// As many commands as this make a task set full.
    depth: u32,
    /// The protocol level, by which task management knows the queries (RFC 7144).
    level: u32,
    /// The functions that wait for lower numbers, in the order of their arrival.
    waiting: Waitlist,
    /// The tickets of the commands that left a set together, by the last function or Logout that looked for some: with room
    /// for all that are live.
    left: Vec<u64>,
}

impl Drop for Session {
    fn drop(self) {
        let Session {
            window: _window,
            events: _events,
            connections: _connections,
            entered: _entered,
            taken: _taken,
            live: _live,
            sets: _sets,
            depth: _depth,
            level: _level,
            waiting: _waiting,
            left: _left,
        } = self;
    }
}

impl Model for Session {
    ghost use Rattle.std.specs.Prelude.{vec_capacity};
    ghost use Rattle.iscsi_session.specs.private.Standing.{Core};
    ghost use Rattle.iscsi_session.specs.private.Invariant.{IsSessionSound};

    ghost Value = { Core };

    ghost view = { λ s. record {
      window = s.window;
      events = s.events;
      conns = s.connections.conns;
      entered = s.entered;
      taken = s.taken;
      live = s.live.items;
      sets = s.sets.items;
      depth = s.depth;
      level = s.level;
      waiting = s.waiting.items;
      open_conns = s.connections.open_conns;
    } };

    ghost invariant = { λ s. IsSessionSound (record {
      window = s.window;
      events = s.events;
      conns = s.connections.conns;
      entered = s.entered;
      taken = s.taken;
      live = s.live.items;
      sets = s.sets.items;
      depth = s.depth;
      level = s.level;
      waiting = s.waiting.items;
      open_conns = s.connections.open_conns;
    }) s.connections.immediate s.live.room s.waiting.room (vec_capacity s.left) };
}

impl Session {
    /// Opens a session in its Full Feature Phase.
    ///
    /// `BadOptions` where an option is outside its limits or a CID stands twice, then `NoMemory`.
    pub fn open(alloc: Global, options: Options) -> Result<Session, SessionFault>
        ensures stands { IfOk result (λ s. StandsFor (setting_of options) s []) }
        ensures refused { RefusesAs (refusal_of_options (setting_of options)) result }
    {
        if !options.is_valid() {
            return Err(SessionFault::BadOptions);
        }
        make(alloc, options).ok_or(SessionFault::NoMemory)
    }

    /// ExpCmdSN and MaxCmdSN, as a reply that went out now would carry them (RFC 7143 section 4.2.2.1).
    #[tactic(auto, using(crate::proofs::AgreeLemmas::settled_numbers, std::proofs::lemmas::Bool::Decides::nat_tests))]
    pub fn numbers(&self) -> Numbers
        ensures numbers { (o : Setting) (h : List Event) → StandsFor o self.now h →
            result ≡ numbers_of o (trace_of o h) }
        ensures value { result ≡ numbers_by self.now }
    {
        Numbers {
            exp: self.window.exp(),
            max: self.window.max(),
        }
    }

    /// How many commands are live: they entered a task set, and haven't left it.
    pub fn live_len(&self) -> usize
        ensures live { (o : Setting) (h : List Event) → StandsFor o self.now h → result ≡ length (live (trace_of o h)) }
        ensures value { result ≡ length self.now.live }
    {
        self.live.len()
    }

    /// The most effects that the next event gives.
    ///
    /// For a window of W and C connections it is never more than 12 (W + 4 C + 1) + 2 (W + 8 C).
    #[tactic(auto, using(crate::proofs::RunLemmas::bound_is, crate::proofs::RunLemmas::conns_same, crate::proofs::SoundLemmas::few_steps, std::proofs::lemmas::Bool::Decides::nat_tests))]
    pub fn effect_bound(&self) -> usize
        ensures bound { (o : Setting) (h : List Event) → StandsFor o self.now h →
            result ≡ effect_bound_of o (trace_of o h) }
        ensures most { (o : Setting) (h : List Event) → StandsFor o self.now h → result ≤ most_effects o }
        ensures value { result ≡ 12 * (count_by is_held self.now.window.places + length self.now.waiting + 1)
            + 2 * length self.now.live }
    {
        ITEM_EFFECTS * (self.window.held() as usize + self.waiting.len() + 1) + 2 * self.live_len()
    }

    /// Takes an event, appends its effects to `out`, and answers ExpCmdSN and MaxCmdSN at its end.
    ///
    /// Refusals, in order: `UnknownConnection`, `Exhausted`, `NoMemory`. Each leaves the session and `out`
    /// as they were. With `effect_bound()` places spare in `out`, memory isn't asked for.
    // It is inlined, so that its caller has the numbers in registers: it would wait for them if they came by memory.
    #[inline(always)]
    #[tactic(auto, using(crate::proofs::RunLemmas::promises, crate::proofs::AgendaLemmas::refusal_as, crate::proofs::RunLemmas::bound_is, std::proofs::lemmas::Bool::Decides::nat_tests))]
    pub fn step(&mut self, event: &Event, out: &mut Vec<Effect>) -> Result<Numbers, SessionFault>
        // Whatever list of events the session stands for, it stands for that list and the event.
        ensures stands { (o : Setting) (h : List Event) → StandsFor o self.old h →
            OnOk result (StandsFor o self.new (h ++ event.now ∷ [])) }
        ensures effects { (o : Setting) (h : List Event) → StandsFor o self.old h →
            OnOk result (out.new.items ≡ out.old.items ++ (next_entry o h event.now).effects) }
        ensures numbers { (o : Setting) (h : List Event) → StandsFor o self.old h →
            IfOk result (λ n. n ≡ (next_entry o h event.now).numbers) }

        ensures refused { (o : Setting) (h : List Event) → StandsFor o self.old h →
            RefusesAs (refusal_of o h event.now) result }
        ensures err { OnErr result (self.new ≡ self.old) }
        ensures err_out { OnErr result (out.new.items ≡ out.old.items) }

        // An event receives one number at the most. ExpCmdSN and MaxCmdSN don't go back, and no more commands
        // are unfinished than the window has places.
        ensures flow { (o : Setting) (h : List Event) → StandsFor o self.old h →
            OnOk result (Flows o (trace_of o h) (trace_of o (h ++ event.now ∷ []))) }

        // The log of those events and this one keeps the promises: the numbered requests that it delivers are those
        // received without a gap, in CmdSN order; it enables what the rules of task sets enable; what a completed
        // abort covers is over; nothing goes on where it was closed.
        ensures delivery { (o : Setting) (h : List Event) → StandsFor o self.old h →
            let all = h ++ event.now ∷ [] in OnOk result (delivered (run_of o all) ≡ executed o all) }
        ensures enabling { (o : Setting) (h : List Event) → StandsFor o self.old h →
            let all = h ++ event.now ∷ [] in OnOk result (EnablesByTheRule o all (run_of o all)) }
        ensures aborts { (o : Setting) (h : List Event) → StandsFor o self.old h →
            let all = h ++ event.now ∷ [] in OnOk result (AbortsHoldIn o all (run_of o all)) }
        ensures closes { (o : Setting) (h : List Event) → StandsFor o self.old h →
            let all = h ++ event.now ∷ [] in OnOk result (ClosesHoldIn o all (run_of o all)) }

        // Each command is started at most once, and each request answered at most once; the StatSNs of a connection
        // count its replies; the effects of an item stand in order; and the definitions mean what they say.
        ensures started_once { (o : Setting) (h : List Event) → StandsFor o self.old h →
            let all = h ++ event.now ∷ [] in OnOk result (StartsOnce (run_of o all)) }
        ensures answered_once { (o : Setting) (h : List Event) → StandsFor o self.old h →
            let all = h ++ event.now ∷ [] in OnOk result (AnswersOnceIn o all (run_of o all)) }
        ensures stat_sns { (o : Setting) (h : List Event) → StandsFor o self.old h →
            let all = h ++ event.now ∷ [] in OnOk result (CountsReplies o (run_of o all)) }
        ensures in_order { (o : Setting) (h : List Event) → StandsFor o self.old h →
            let all = h ++ event.now ∷ [] in OnOk result (KeepsOrder (run_of o all)) }
        ensures meaning { (o : Setting) (h : List Event) → StandsFor o self.old h →
            OnOk result (MeansWhatItSays o (trace_of o (h ++ event.now ∷ []))) }

        // No event gives more effects than the bound, and with that much room memory isn't wanting. `out` keeps its
        // room.
        ensures bound { (o : Setting) (h : List Event) → StandsFor o self.old h →
            OnOk result (length (next_entry o h event.now).effects ≤ effect_bound_of o (trace_of o h)) }
        ensures room { (o : Setting) (h : List Event) → StandsFor o self.old h →
            vec_len out.old + effect_bound_of o (trace_of o h) ≤ vec_capacity out.old →
            result ≢ Err SessionFault.NoMemory }
        ensures room_for_most { (o : Setting) (h : List Event) → StandsFor o self.old h →
            vec_len out.old + most_effects o ≤ vec_capacity out.old → result ≢ Err SessionFault.NoMemory }
        ensures capacity { vec_capacity out.old ≤ vec_capacity out.new }
    {
        if let Some(fault) = self.refusal(event) {
            return Err(fault);
        }
        if out.reserve(self.effect_bound()).is_err() {
            return Err(SessionFault::NoMemory);
        }
        Ok(self.take(event, out))
    }

    /// Takes an event that isn't refused, and hands its effects to `out`, which has room for as many as any event gives
    /// or for `effect_bound()` more.
    #[inline(always)]
    #[tactic(auto, using(crate::proofs::SoundLemmas::owed_few, std::proofs::lemmas::Bool::Decides::nat_tests))]
    fn take<S: EffectSink>(&mut self, event: &Event, out: &mut S) -> Numbers
        requires taken { refusal_by self.old event.now ≡ None }
        requires room { (S.len out.old + 18444 ≤ S.capacity out.old) ⊎ (S.len out.old
            + 12 * (count_by is_held self.old.window.places + length self.old.waiting + 1) + 2 * length self.old.live
            ≤ S.capacity out.old) }
        ensures stands { (o : Setting) (h : List Event) → StandsFor o self.old h →
            StandsFor o self.new (h ++ event.now ∷ []) }
        ensures effects { (o : Setting) (h : List Event) → StandsFor o self.old h →
            (text : List ℕ) (es : List SpecEffect) → S.has out.old text es →
            S.has out.new text (es ++ (next_entry o h event.now).effects) }
        ensures numbers { (o : Setting) (h : List Event) → StandsFor o self.old h →
            result ≡ (next_entry o h event.now).numbers }
        ensures flow { (o : Setting) (h : List Event) → StandsFor o self.old h →
            Flows o (trace_of o h) (trace_of o (h ++ event.now ∷ [])) }
        ensures spent { S.len out.new ≤ S.len out.old
            + 12 * (count_by is_held self.old.window.places + length self.old.waiting + 1) + 2 * length self.old.live }
        ensures capacity { S.capacity out.new ≡ S.capacity out.old }
    {
        self.taken += 1;
        self.apply(event, out);
        self.numbers()
    }

    /// Takes an event that is counted. Arrivals and completions are apart, so that it is short where it is inlined.
    #[inline(always)]
    fn apply<S: EffectSink>(&mut self, event: &Event, out: &mut S)
        requires known { comes_on self.old.conns event.now ≡ true }
        requires counted { self.old.window.turned + count_by is_some self.old.window.places < self.old.taken }
        requires entered { self.old.entered + count_by is_some self.old.window.places < self.old.taken }
        requires waited { list_all (λ w. nat_lt (w.event + 1) self.old.taken) self.old.waiting ≡ true }
        requires owed { owed self.old.live self.old.sets ≤ 2 * length self.old.live }
        requires room { S.len out.old + 12 * (count_by is_held self.old.window.places + length self.old.waiting + 1)
            + 2 * length self.old.live ≤ S.capacity out.old }
        ensures items { (o : Setting) (index : ℕ) (t : Trace) → self.old.taken ≡ index + 1 → Settled o self.old t →
            Handles S.has o t (items_of o index t event.now) HasOneMore self.new out.old out.new }
        ensures taken { self.new.taken ≡ self.old.taken }
        ensures pace { KeepsPace self.old.window self.new.window }
        ensures spent { S.len out.new ≤ S.len out.old
            + 12 * (count_by is_held self.old.window.places + length self.old.waiting + 1) + 2 * length self.old.live }
        ensures capacity { S.capacity out.new ≡ S.capacity out.old }
    {
        match event {
            Event::Arrive { conn, header } => self.arrive_apart(*conn, header, out),
            Event::Done { ticket, status } => self.complete(*ticket, *status, out),
        }
    }

    /// Takes an event as `step` does, and hands its effects to `sink` as they come. No memory is asked for: there is room
    /// for 18,444 effects more, and no event of any session gives more.
    ///
    /// Refusals, in order: `UnknownConnection`, `Exhausted`. Each leaves the session and `sink` as they were.
    #[inline(always)]
    #[tactic(auto, using(crate::proofs::RunLemmas::not_memory, crate::proofs::AgendaLemmas::refusal_as, std::proofs::lemmas::Bool::Decides::nat_tests))]
    pub fn step_into<S: EffectSink>(
        &mut self,
        event: &Event,
        sink: &mut S,
    ) -> Result<Numbers, SessionFault>
        requires room { S.len sink.old + 18444 ≤ S.capacity sink.old }
        ensures stands { (o : Setting) (h : List Event) → StandsFor o self.old h →
            OnOk result (StandsFor o self.new (h ++ event.now ∷ [])) }
        ensures effects { (o : Setting) (h : List Event) → StandsFor o self.old h →
            OnOk result ((text : List ℕ) (es : List SpecEffect) → S.has sink.old text es →
            S.has sink.new text (es ++ (next_entry o h event.now).effects)) }
        ensures numbers { (o : Setting) (h : List Event) → StandsFor o self.old h →
            IfOk result (λ n. n ≡ (next_entry o h event.now).numbers) }
        ensures refused { (o : Setting) (h : List Event) → StandsFor o self.old h →
            RefusesAs (refusal_of o h event.now) result }
        ensures memory { result ≢ Err SessionFault.NoMemory }
        ensures err { OnErr result (self.new ≡ self.old) }
        ensures err_out { OnErr result (sink.new ≡ sink.old) }
        ensures flow { (o : Setting) (h : List Event) → StandsFor o self.old h →
            OnOk result (Flows o (trace_of o h) (trace_of o (h ++ event.now ∷ []))) }
        ensures capacity { S.capacity sink.new ≡ S.capacity sink.old }
    {
        if let Some(fault) = self.refusal(event) {
            return Err(fault);
        }
        Ok(self.take(event, sink))
    }

    /// Takes the arrival of a request as `step_into` takes the event: the request, which its caller keeps, isn't copied.
    ///
    /// Refusals, in order: `UnknownConnection`, `Exhausted`. Each leaves the session and `sink` as they were.
    #[inline(always)]
    #[tactic(auto, using(crate::proofs::RunLemmas::not_memory, crate::proofs::AgendaLemmas::refusal_as, std::proofs::lemmas::Bool::Decides::nat_tests))]
    pub fn arrive_into<S: EffectSink>(
        &mut self,
        request: &Request,
        sink: &mut S,
    ) -> Result<Numbers, SessionFault>
        requires room { S.len sink.old + 18444 ≤ S.capacity sink.old }
        ensures stands { (o : Setting) (h : List Event) → StandsFor o self.old h →
            OnOk result (StandsFor o self.new (h ++ arrived request.now ∷ [])) }
        ensures effects { (o : Setting) (h : List Event) → StandsFor o self.old h →
            OnOk result ((text : List ℕ) (es : List SpecEffect) → S.has sink.old text es →
            S.has sink.new text (es ++ (next_entry o h (arrived request.now)).effects)) }
        ensures numbers { (o : Setting) (h : List Event) → StandsFor o self.old h →
            IfOk result (λ n. n ≡ (next_entry o h (arrived request.now)).numbers) }
        ensures refused { (o : Setting) (h : List Event) → StandsFor o self.old h →
            RefusesAs (refusal_of o h (arrived request.now)) result }
        ensures memory { result ≢ Err SessionFault.NoMemory }
        ensures err { OnErr result (self.new ≡ self.old) }
        ensures err_out { OnErr result (sink.new ≡ sink.old) }
        ensures flow { (o : Setting) (h : List Event) → StandsFor o self.old h →
            OnOk result (Flows o (trace_of o h) (trace_of o (h ++ arrived request.now ∷ []))) }
        ensures capacity { S.capacity sink.new ≡ S.capacity sink.old }
    {
        if let Some(fault) = self.refusal_on(request.conn()) {
            return Err(fault);
        }
        Ok(self.take_arrival(request, sink))
    }

    /// Takes the arrival of a request that isn't refused: as `take`.
    #[inline(always)]
    #[tactic(auto, using(crate::proofs::SoundLemmas::owed_few, std::proofs::lemmas::Bool::Decides::nat_tests))]
    fn take_arrival<S: EffectSink>(&mut self, request: &Request, out: &mut S) -> Numbers
        requires taken { refusal_by self.old (arrived request.now) ≡ None }
        requires room { S.len out.old + 18444 ≤ S.capacity out.old }
        ensures stands { (o : Setting) (h : List Event) → StandsFor o self.old h →
            StandsFor o self.new (h ++ arrived request.now ∷ []) }
        ensures effects { (o : Setting) (h : List Event) → StandsFor o self.old h →
            (text : List ℕ) (es : List SpecEffect) → S.has out.old text es →
            S.has out.new text (es ++ (next_entry o h (arrived request.now)).effects) }
        ensures numbers { (o : Setting) (h : List Event) → StandsFor o self.old h →
            result ≡ (next_entry o h (arrived request.now)).numbers }
        ensures flow { (o : Setting) (h : List Event) → StandsFor o self.old h →
            Flows o (trace_of o h) (trace_of o (h ++ arrived request.now ∷ [])) }
        ensures capacity { S.capacity out.new ≡ S.capacity out.old }
    {
        // Its connection is looked at before anything is written, so that it is found once.
        let is_open = self.is_open(request.conn());
        self.taken += 1;
        self.arrive(request, is_open, out);
        self.numbers()
    }

    /// Why `step` would refuse this event, memory aside.
    pub fn refusal(&self, event: &Event) -> Option<SessionFault>
        ensures { result ≡ refusal_by self.now event.now }
    {
        match event {
            Event::Arrive { conn, .. } => self.refusal_on(*conn),
            Event::Done { .. } => self.refusal_of_more(),
        }
    }

    /// Why an arrival on this connection would be refused, memory aside.
    #[inline(always)]
    fn refusal_on(&self, conn: u16) -> Option<SessionFault>
        ensures { result ≡ (if not (known_in conn self.now.conns) then Some SessionFault.UnknownConnection
            else (if nat_lt self.now.taken self.now.events then None else Some SessionFault.Exhausted)) }
    {
        if !self.connections.knows(conn) {
            return Some(SessionFault::UnknownConnection);
        }
        self.refusal_of_more()
    }

    /// Why a completion would be refused, memory aside.
    #[inline(always)]
    fn refusal_of_more(&self) -> Option<SessionFault>
        ensures { result ≡ (if nat_lt self.now.taken self.now.events then None else Some SessionFault.Exhausted) }
    {
        if self.taken < self.events {
            None
        } else {
            Some(SessionFault::Exhausted)
        }
    }
}

/// A session by valid options. None where memory is refused.
fn make(alloc: Global, options: Options) -> Option<Session>
    requires { is_valid (setting_of options) ≡ true }
    ensures { IfSome result (λ s. StandsFor (setting_of options) s []) }
{
    let connections = Connections::open(alloc, &options.conns)?;
    make_on(alloc, options, connections)
}

/// A session by valid options, with its connections. None where memory is refused.
fn make_on(alloc: Global, options: Options, connections: Connections) -> Option<Session>
    requires valid { is_valid (setting_of options) ≡ true }
    requires connections { connections ≡ opened options.conns.items }
    ensures { IfSome result (λ s. StandsFor (setting_of options) s []) }
{
    let Options {
        first,
        window: size,
        units,
        depth,
        level,
        events,
        conns,
    } = options;
    let most_live = size as usize + usize::from(MOST_IMMEDIATE) * conns.len();
    Some(Session {
        window: EventWindow::open(alloc, first, size).ok()?,
        events,
        connections,
        entered: 0,
        taken: 0,
        live: LiveCommands::with_room(alloc, most_live).ok()?,
        sets: sets::open(alloc, units, depth.min(most_live as u32))?,
        depth,
        level,
        waiting: Waitlist::with_room(alloc, waiting::MOST * conns.len())?,
        left: Vec::with_capacity(alloc, most_live).ok()?,
    })
}
