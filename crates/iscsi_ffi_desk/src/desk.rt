//! The desk: what a side keeps beside its session.

ghost use Rattle.std.specs.Prelude.{◌≡◌, [], IfOk};
ghost use Rattle.iscsi_outbox.specs.promises.Options.{RefusesAs};
ghost use Rattle.iscsi_ffi_desk.specs.Options.{opened, refusal_of};

mod clearing;
mod commonest;
mod dropping;
mod ending;
mod handing;
mod losing;
mod opening;
mod putting;
mod requests;
mod starting;
mod sweeping;
mod taking;
mod telling;
mod walking;

use crate::awake::Awake;
use iscsi_ffi_commands::Commands;
use iscsi_ffi_rules::Action;
use iscsi_outbox::{Outbox, OutboxFault};
use iscsi_requests::{Cookies, HeldNumbers, Unwritten, WaitingFunctions, WaitingReplies};
pub use opening::DeskOptions;
use std::alloc::Global;
use std::marker::Model;

/// What a side keeps beside its session, and what was told in a call.
pub struct Desk {
    outbox: Outbox,
    /// The requests that are in being, and the PDUs of the target's own that are of no command.
    cookies: Cookies,
    /// The requests that are held.
    held: HeldNumbers,
    /// The functions that wait for their turn.
    functions: WaitingFunctions,
    /// The commands, each until its request is forgotten.
    commands: Commands,
    /// The replies that wait to go out.
    replies: WaitingReplies,
    /// The own PDUs that wait and are of no command.
    noted: Unwritten,
    /// What was handed out and isn't written.
    unwritten: Unwritten,
    /// The tickets of the commands that are to be completed and never start, going up.
    withheld: Vec<u64>,
    /// The connections that were told to be ready, and didn't give nothing since.
    awake: Awake,
    /// The connections that were told to be closed.
    over: Vec<bool>,
    /// How many actions may be told in a call.
    room: usize,
    /// What was told in this call ..
    actions: Vec<Action>,
    /// .. and which requests were forgotten, which is told behind it.
    forgets: Vec<Action>,
}

impl Drop for Desk {
    fn drop(self) {
        let Desk {
            outbox: _outbox,
            cookies: _cookies,
            held: _held,
            functions: _functions,
            commands: _commands,
            replies: _replies,
            noted: _noted,
            unwritten: _unwritten,
            withheld: _withheld,
            awake: _awake,
            over: _over,
            room: _room,
            actions: _actions,
            forgets: _forgets,
        } = self;
    }
}

impl Model for Desk {
    ghost use Rattle.std.specs.Prelude.{vec_capacity};
    ghost use Rattle.iscsi_ffi_steps.specs.Walk.{Doing};
    ghost use Rattle.iscsi_ffi_desk.specs.Kept.{IsDesk};

    ghost Value = { Doing };

    ghost view = { λ d. record {
      state = record {
        outbox = d.outbox;
        cookies = d.cookies;
        held = d.held;
        functions = d.functions;
        commands = d.commands;
        replies = d.replies;
        noted = d.noted;
        unwritten = d.unwritten;
        withheld = d.withheld.items;
        awake = d.awake;
        over = d.over.items;
        room = d.room;
      };
      actions = d.actions.items;
      forgets = d.forgets.items;
    } };

    ghost invariant = { λ d. IsDesk (record {
      outbox = d.outbox;
      cookies = d.cookies;
      held = d.held;
      functions = d.functions;
      commands = d.commands;
      replies = d.replies;
      noted = d.noted;
      unwritten = d.unwritten;
      withheld = d.withheld.items;
      awake = d.awake;
      over = d.over.items;
      room = d.room;
    }) (vec_capacity d.actions) (vec_capacity d.forgets) (vec_capacity d.withheld) };
}

impl Desk {
    /// A desk for a session, of which no connection has joined. It takes all its memory here: no other call asks for any.
    ///
    /// `BadOptions` where an option is outside its limits or a CID stands twice, then `NoMemory`.
    pub fn open(alloc: Global, options: &DeskOptions) -> Result<Desk, OutboxFault>
        ensures state { IfOk result (λ d. d ≡ opened options.now) }
        ensures refused { RefusesAs (refusal_of options.now) result }
    {
        if !options.is_valid() {
            return Err(OutboxFault::BadOptions);
        }
        let outbox = Outbox::open(alloc, &options.outbox)?;
        match opening::make(alloc, options, outbox) {
            Ok(desk) => Ok(desk),
            Err(_) => Err(OutboxFault::NoMemory),
        }
    }

    /// What the target is told of this call, but for what is forgotten.
    #[inline(always)]
    pub fn actions(&self) -> &[Action]
        ensures { result.now ≡ self.now.actions }
    {
        &self.actions
    }

    /// What was forgotten in this call: it is told behind the actions.
    #[inline(always)]
    pub fn forgets(&self) -> &[Action]
        ensures { result.now ≡ self.now.forgets }
    {
        &self.forgets
    }

    /// The next call begins: nothing was told in it yet.
    #[inline(always)]
    pub fn begin(&mut self)
        ensures { self.new ≡ record { state = self.old.state; actions = []; forgets = [] } }
    {
        self.actions.clear();
        self.forgets.clear();
    }

    /// The outbox.
    #[inline(always)]
    pub fn outbox(&self) -> &Outbox
        ensures { result.now ≡ self.now.state.outbox }
    {
        &self.outbox
    }
}
