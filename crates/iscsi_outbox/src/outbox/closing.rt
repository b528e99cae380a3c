//! Connections are closed by a Logout (RFC 7143 section 11.14).

ghost use Rattle.std.specs.Prelude.{◌≡◌, ℕ, ◌==◌, ◌<◌, [], ◌∷◌, length, false, slice_index_or};
ghost use Rattle.std.specs.List.{list_any};
ghost use Rattle.iscsi_outbox_steps.specs.State.{link_at};
ghost use Rattle.iscsi_outbox_steps.specs.Steps.{close, close_one, closed_by, closed_in, counted_from, newly_closed};
ghost use Rattle.iscsi_outbox.specs.private.Walks.{close_where};

use crate::items::closes_any;
use crate::outbox::Outbox;
use iscsi_rules::Effect;
use iscsi_wire::Request;

impl Outbox {
    /// Whether an item closes a connection that wasn't closed before.
    pub(crate) fn closes(&self, conn: usize, item: &[Effect]) -> bool
        requires { conn < length self.now.limits.cids }
        ensures { result ≡ list_any (λ p. p == conn) (newly_closed self.now (closed_in self.now item.now)) }
    {
        if self.links.at(conn).is_closed() {
            return false;
        }
        for effect in item {
            if self.is_closed_by(conn, effect) {
                return true;
            }
        }
        false
    }

    /// Whether an effect closes a connection.
    fn is_closed_by(&self, conn: usize, effect: &Effect) -> bool
        requires { conn < length self.now.limits.cids }
        ensures { result ≡ list_any (λ p. p == conn) (closed_by self.now effect.now) }
    {
        match effect {
            Effect::CloseConn { conn: cid } => self.cids.place(*cid) == Some(conn),
            Effect::CloseSession => true,
            _ => false,
        }
    }

    /// The connections that an item closes, and that weren't closed before, are closed by the request that executes in it.
    pub(crate) fn close(&mut self, request: Option<Request>, item: &[Effect])
        ensures { self.new ≡ close request (newly_closed self.old (closed_in self.old item.now)) self.old }
    {
        let Some(request) = request else {
            return;
        };
        if !closes_any(item) {
            return;
        }
        if let Some(by) = self.cids.place(request.conn()) {
            let before = self.before();
            self.close_each(by, &before, item);
        }
    }

    /// Which connections are closed.
    fn before(&self) -> [bool; 64]
        ensures { (k : ℕ) → k < length self.now.limits.cids → slice_index_or result k false ≡ (link_at self.now k).closed }
    {
        let mut before = [false; 64];
        for conn in 0..self.links.len() {
            before[conn] = self.links.at(conn).is_closed();
        }
        before
    }

    /// The connections that an item closes, and that weren't closed before, are closed by a request on this connection.
    fn close_each(&mut self, by: usize, before: &[bool; 64], item: &[Effect])
        requires { by < length self.old.limits.cids }
        ensures { self.new ≡ close_where by before.now (closed_in self.old item.now) self.old }
    {
        for effect in item {
            self.close_by(by, before, effect);
        }
    }

    /// The connections that an effect closes, and that weren't closed before.
    fn close_by(&mut self, by: usize, before: &[bool; 64], effect: &Effect)
        requires { by < length self.old.limits.cids }
        ensures { self.new ≡ close_where by before.now (closed_by self.old effect.now) self.old }
    {
        match effect {
            Effect::CloseConn { conn } => self.close_cid(by, before, *conn),
            Effect::CloseSession => self.close_all(by, before),
            _ => {}
        }
    }

    /// The connection with this CID is closed, if it wasn't before.
    fn close_cid(&mut self, by: usize, before: &[bool; 64], cid: u16)
        requires { by < length self.old.limits.cids }
        ensures { self.new ≡ close_where by before.now (closed_by self.old (Effect.CloseConn cid)) self.old }
    {
        if let Some(conn) = self.cids.place(cid) {
            self.close_if(by, before, conn);
        }
    }

    /// All connections are closed that weren't before.
    fn close_all(&mut self, by: usize, before: &[bool; 64])
        requires { by < length self.old.limits.cids }
        ensures { self.new ≡ close_where by before.now (counted_from 0 self.old.links) self.old }
    {
        for conn in 0..self.links.len() {
            self.close_if(by, before, conn);
        }
    }

    /// A connection is closed, if it wasn't before.
    fn close_if(&mut self, by: usize, before: &[bool; 64], conn: usize)
        requires by { by < length self.old.limits.cids }
        requires conn { conn < length self.old.limits.cids }
        ensures { self.new ≡ close_where by before.now (conn ∷ []) self.old }
    {
        let _ = &self.cids;
        if !before[conn] {
            self.close_one(by, conn);
        }
    }

    /// A connection is closed: by a Logout on it, or on another one, and then all that waits there is dropped.
    fn close_one(&mut self, by: usize, conn: usize)
        requires by { by < length self.old.limits.cids }
        requires conn { conn < length self.old.limits.cids }
        ensures { self.new ≡ close_one by conn self.old }
    {
        if conn == by {
            self.links.close(conn);
        } else {
            self.links.cut(conn);
            self.waits.drop_on(conn);
            self.lane.drop_on(conn as u16);
        }
    }
}
