//! A session with its outbox.

use crate::calls::{Call, Opening};
use crate::told::{tell_effect, tell_given};
use iscsi_outbox::Outbox;
use iscsi_session::{Effect, Event, Session};
use std::alloc::Global;

/// A session with its outbox.
pub(crate) struct Player {
    session: Session,
    outbox: Outbox,
    effects: Vec<Effect>,
}

impl Drop for Player {
    fn drop(self) {
        let Player {
            session: _session,
            outbox: _outbox,
            effects: _effects,
        } = self;
    }
}

impl Player {
    /// `None`: they can't be opened so, or there is no memory.
    pub(crate) fn open(alloc: Global, opening: Opening) -> Option<Player> {
        let Opening { session, outbox } = opening;
        Some(Player {
            session: Session::open(alloc, session).ok()?,
            outbox: Outbox::open(alloc, &outbox).ok()?,
            effects: Vec::new(alloc),
        })
    }

    /// Makes a call, and tells what came of it. `None`: it is refused, or there is no memory.
    pub(crate) fn make(&mut self, call: Call, told: &mut String) -> Option<()> {
        match call {
            Call::Open(_) => return None,
            Call::Step(event) => return self.step(&event, told),
            Call::Put(pdu) => match self.outbox.put(&pdu) {
                Ok(()) => told.push_str("taken\n").ok()?,
                Err(refusal) => writeln!(told, "{refusal:?}").ok()?,
            },
            Call::Stopped(ticket) => writeln!(told, "{}", self.outbox.stopped(ticket)).ok()?,
            Call::Next(cid) => {
                let given = self.outbox.next(cid);
                tell_given(&given, told)?;
            }
            Call::Written(cid) => self.outbox.written(cid),
            Call::Heard {
                cid,
                exp_stat_sn,
                transfer_tag,
            } => self.outbox.heard(cid, exp_stat_sn, transfer_tag),
            Call::Join { cid, stat_sn } => {
                writeln!(told, "{}", self.outbox.join(cid, stat_sn)).ok()?
            }
            Call::Lose(cid) => self.outbox.lose(cid),
            Call::Clear(unit) => self.outbox.clear(unit),
            Call::MayTake => writeln!(told, "{}", self.outbox.may_take()).ok()?,
        }
        Some(())
    }

    /// Takes an event, and tells its effects.
    fn step(&mut self, event: &Event, told: &mut String) -> Option<()> {
        self.effects.clear();
        let numbers = self.session.step(event, &mut self.effects).ok()?;
        self.outbox.take(&self.effects, numbers);
        for effect in &self.effects {
            tell_effect(effect, told)?;
        }
        Some(())
    }
}
