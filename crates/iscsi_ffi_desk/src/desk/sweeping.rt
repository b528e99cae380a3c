//! What goes out on a connection no more, behind an event: its connection was closed.

ghost use Rattle.std.specs.Prelude.{◌≡◌, ◌<◌, [], ◌∷◌, length};
ghost use Rattle.std.specs.List.{flat_map};
ghost use Rattle.iscsi_outbox_steps.specs.State.{link_at, place_of};
ghost use Rattle.iscsi_outbox_steps.specs.Steps.{as_list, counted_from};
ghost use Rattle.iscsi_ffi_steps.specs.Walk.{keeps, sweep, touched_by};

use crate::desk::Desk;
use iscsi_rules::Effect;

impl Desk {
    /// On the connections that the effects of an event sent something on or closed, what doesn't wait any more is dropped.
    pub(super) fn sweep(&mut self, effects: &[Effect])
        ensures { self.new ≡ sweep (flat_map (touched_by self.old.state) effects.now) self.old }
    {
        for effect in effects {
            self.sweep_touched(effect);
        }
    }

    /// On those of one effect.
    fn sweep_touched(&mut self, effect: &Effect)
        ensures { self.new ≡ sweep (touched_by self.old.state effect.now) self.old }
    {
        match effect {
            Effect::Send { conn, .. } | Effect::CloseConn { conn } => self.sweep_conn(*conn),
            Effect::CloseSession => self.sweep_all(),
            _ => {}
        }
    }

    /// On the one with this CID.
    #[inline(always)]
    pub(super) fn sweep_conn(&mut self, cid: u16)
        ensures { self.new ≡ sweep (as_list (place_of self.old.state.outbox cid)) self.old }
    {
        if let Some(place) = self.outbox.place(cid) {
            self.sweep_one(place);
        }
    }

    /// On all of them.
    fn sweep_all(&mut self)
        ensures { self.new ≡ sweep (counted_from 0 self.old.state.outbox.links) self.old }
    {
        for conn in 0..self.outbox.conns() {
            self.sweep_one(conn);
        }
    }

    /// On one of them.
    #[inline(always)]
    fn sweep_one(&mut self, conn: usize)
        requires { conn < length self.old.state.outbox.limits.cids }
        ensures { self.new ≡ sweep (conn ∷ []) self.old }
    {
        if !self.keeps(conn) {
            self.drop_waiting(conn);
        }
    }

    /// Whether what waits on a connection waits on: it is open, and no Logout on another one closed it.
    #[inline(always)]
    fn keeps(&self, conn: usize) -> bool
        requires { conn < length self.now.state.outbox.limits.cids }
        ensures { result ≡ keeps (link_at self.now.state.outbox conn) }
    {
        let link = self.outbox.link(conn);
        link.is_open() && !link.is_cut()
    }
}
