//! A session with the effects of its last event.

ghost use Rattle.std.specs.Prelude.{◌≡◌, ◌+◌, ◌*◌, ℕ, List, [], ◌∷◌, ◌++◌, OnOk, OnErr, IfOk, Option, Some, None, true, is_some, option_map, unwrap_or, length, take, vec_capacity};
ghost use Rattle.iscsi_rules.specs.rules.Settings.{Setting, is_valid};
ghost use Rattle.iscsi_session.specs.promises.Settings.{setting_of};
ghost use Rattle.iscsi_session.specs.promises.Refusals.{RefusesAs, refusal_of, refusal_of_options};
ghost use Rattle.iscsi_session.specs.promises.Bounds.{most_effects};
ghost use Rattle.iscsi_host.specs.Serving.{Serves, fault_of};
ghost use Rattle.iscsi_host.specs.Plain.{plain_at, executing as executing_in, last_executing};

use crate::plain::{PlainEffect, write_plain};
use iscsi_rules::{Effect, Event, Numbers};
use iscsi_session::{Options, Session, SessionFault};
use iscsi_wire::Request;
use std::alloc::Global;
use std::marker::Model;

/// A session, the effects of its last event, and room for those of any event to come.
#[derive(Drop)]
pub struct Host {
    session: Session,
    effects: Vec<Effect>,
    numbers: Numbers,
}

impl Model for Host {
    ghost use Rattle.std.specs.Prelude.{vec_capacity};
    ghost use Rattle.iscsi_host.specs.Serving.{Hosted};

    ghost Value = { Hosted };

    ghost view = { λ h. record {
      session = h.session;
      effects = h.effects.items;
      numbers = h.numbers;
      room = vec_capacity h.effects;
    } };
}

impl Host {
    /// Opens a session, and takes all the memory that it will need.
    ///
    /// `BadOptions` where an option is outside its limits or a CID stands twice, then `NoMemory`.
    pub fn open(alloc: Global, options: Options) -> Result<Host, SessionFault>
        ensures serves { IfOk result (λ host. Serves (setting_of options) host []) }
        ensures refused { RefusesAs (refusal_of_options (setting_of options)) result }
    {
        if !options.is_valid() {
            return Err(SessionFault::BadOptions);
        }
        let room = room_of(&options);
        let session = Session::open(alloc, options)?;
        let Ok(effects) = Vec::with_capacity(alloc, room) else {
            return Err(SessionFault::NoMemory);
        };
        let numbers = session.numbers();
        Ok(Host {
            session,
            effects,
            numbers,
        })
    }

    /// Takes an event. Its effects take the place of those of the last one.
    ///
    /// Refusals, in order: `UnknownConnection`, `Exhausted`. Each leaves the host as it was. Memory isn't asked for.
    pub fn step(&mut self, event: &Event) -> Result<(), SessionFault>
        ensures serves { (o : Setting) (h : List Event) → Serves o self.old h →
            OnOk result (Serves o self.new (h ++ event.now ∷ [])) }
        ensures refused { (o : Setting) (h : List Event) → Serves o self.old h →
            fault_of result ≡ refusal_of o h event.now }
        ensures err { (o : Setting) (h : List Event) → Serves o self.old h → OnErr result (self.new ≡ self.old) }
    {
        if let Some(fault) = self.session.refusal(event) {
            return Err(fault);
        }
        self.effects.clear();
        self.numbers = self.session.step(event, &mut self.effects)?;
        Ok(())
    }

    /// The effects of the last event: none before the first event.
    #[inline(always)]
    pub fn effects(&self) -> &[Effect]
        ensures { result.now ≡ self.now.effects }
    {
        &self.effects
    }

    /// ExpCmdSN and MaxCmdSN after the last event (RFC 7143 section 4.2.2.1).
    #[inline(always)]
    pub fn event_numbers(&self) -> Numbers
        ensures { result ≡ self.now.numbers }
    {
        self.numbers
    }

    /// How many effects the last event had: none before the first event.
    pub fn effect_count(&self) -> usize
        ensures { result ≡ length self.now.effects }
    {
        self.effects.len()
    }

    /// Writes the effect of the last event with this index, from 0, in plain form, and tells whether there is one.
    pub fn effect(&self, index: usize, out: &mut PlainEffect) -> bool
        ensures answer { result ≡ is_some (plain_at self.now.effects self.now.numbers index) }
        ensures out { out.new ≡ unwrap_or (plain_at self.now.effects self.now.numbers index) out.old }
    {
        let Some(effect) = self.effects.get(index) else {
            return false;
        };
        let request = match effect {
            Effect::Enter { .. } => last_request(&self.effects[..index]),
            _ => None,
        };
        write_plain(effect, request, self.numbers, out);
        true
    }
}

/// The most effects that an event of a session with these options has.
fn room_of(options: &Options) -> usize
    requires { is_valid (setting_of options.now) ≡ true }
    ensures { result ≡ most_effects (setting_of options.now) }
{
    let window = options.window as usize;
    let connections = options.conns.len();
    12 * (window + 4 * connections + 1) + 2 * (window + 8 * connections)
}

/// The last request that executes among the effects.
fn last_request(effects: &[Effect]) -> Option<&Request>
    ensures { option_map (λ r. r.now) result ≡ last_executing effects.now }
{
    let mut before = effects.len();
    while before > 0 {
        before -= 1;
        if let Some(request) = executing(&effects[before]) {
            return Some(request);
        }
    }
    None
}

/// The request that executes, where the effect says that one does.
fn executing(effect: &Effect) -> Option<&Request>
    ensures { option_map (λ r. r.now) result ≡ executing_in effect.now }
{
    match effect {
        Effect::Deliver { request } | Effect::Immediate { request } => Some(request),
        _ => None,
    }
}
