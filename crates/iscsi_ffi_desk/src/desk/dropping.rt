//! What goes out on a connection no more, and the functions that a Logout drops.

ghost use Rattle.std.specs.Prelude.{◌≡◌, ◌<◌, length};
ghost use Rattle.iscsi_rules.specs.declared.effect.Effect.TheVariants.{CloseConn, CloseSession};
ghost use Rattle.iscsi_requests.specs.Conns.{of_conn};
ghost use Rattle.iscsi_ffi_steps.specs.Walk.{conns_closed, drop_each_function, drop_functions_on, drop_noted, drop_replies, drop_waiting};
ghost use Rattle.iscsi_ffi_steps.specs.Steps.{drop_unwritten};

use crate::desk::Desk;

impl Desk {
    /// The functions of a connection are dropped.
    #[inline(never)]
    pub(super) fn drop_functions_on(&mut self, conn: usize)
        requires { conn < length self.old.state.outbox.limits.cids }
        ensures { self.new ≡ drop_functions_on conn self.old }
    {
        while let Some(request) = self.functions.pop(conn) {
            self.release(request);
        }
    }

    /// Those of the connection with this CID.
    pub(super) fn drop_functions_of(&mut self, cid: u16)
        ensures { self.new ≡ drop_each_function (conns_closed self.old.state (CloseConn cid)) self.old }
    {
        if let Some(conn) = self.outbox.place(cid) {
            self.drop_functions_on(conn);
        }
    }

    /// Those of all connections.
    pub(super) fn drop_functions(&mut self)
        ensures { self.new ≡ drop_each_function (conns_closed self.old.state CloseSession) self.old }
    {
        for conn in 0..self.outbox.conns() {
            self.drop_functions_on(conn);
        }
    }

    /// All that waits on a connection is dropped.
    #[inline(never)]
    pub(super) fn drop_waiting(&mut self, conn: usize)
        requires { conn < length self.old.state.outbox.limits.cids }
        ensures { self.new ≡ drop_waiting conn self.old }
    {
        self.drop_replies(conn);
        self.drop_noted(conn);
    }

    /// The replies that wait there are.
    fn drop_replies(&mut self, conn: usize)
        requires { conn < length self.old.state.outbox.limits.cids }
        ensures { self.new ≡ drop_replies (length (of_conn conn self.old.state.replies.waiting)) conn self.old }
    {
        while let Some(request) = self.replies.pop(conn) {
            self.release(request);
        }
    }

    /// The own PDUs that wait there and are of no command are.
    fn drop_noted(&mut self, conn: usize)
        requires { conn < length self.old.state.outbox.limits.cids }
        ensures { self.new ≡ drop_noted (length (of_conn conn self.old.state.noted.handed)) conn self.old }
    {
        while let Some(request) = self.noted.pop(conn) {
            self.release_if(request);
        }
    }

    /// What was handed out there and isn't written never will be.
    #[inline(never)]
    pub(super) fn drop_unwritten(&mut self, conn: usize)
        requires { conn < length self.old.state.outbox.limits.cids }
        ensures { self.new ≡ drop_unwritten (length (of_conn conn self.old.state.unwritten.handed)) conn self.old }
    {
        while let Some(request) = self.unwritten.pop(conn) {
            self.release_if(request);
        }
    }
}
