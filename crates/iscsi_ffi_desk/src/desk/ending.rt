//! At the end of a call: who may hand out, and what is to be closed.

ghost use Rattle.std.specs.Prelude.{◌≡◌, ◌<◌, length, slice_index_or, false};
ghost use Rattle.iscsi_outbox.specs.rules.Words.{cid_at};
ghost use Rattle.iscsi_ffi_steps.specs.Steps.{close_each, close_on, tell_each, tell_on};
ghost use Rattle.iscsi_ffi_desk.specs.Calls.{asleep, ended};

use crate::desk::Desk;
use iscsi_ffi_rules::Action;

impl Desk {
    /// Tells which connections have something to hand out, and which are to be closed: each once.
    #[inline(always)]
    pub fn end(&mut self)
        ensures { self.new ≡ ended self.old }
    {
        self.tell_ready();
        self.tell_closed();
    }

    /// Tells which connections have something to hand out that weren't told so since they last gave nothing. Mostly none was.
    #[inline(always)]
    fn tell_ready(&mut self)
        ensures { self.new ≡ tell_each 0 self.old.state.outbox.limits.cids self.old }
    {
        if self.awake.are_all() {
            return;
        }
        self.tell_each_ready();
    }

    /// Looks at each connection.
    #[inline(never)]
    fn tell_each_ready(&mut self)
        ensures { self.new ≡ tell_each 0 self.old.state.outbox.limits.cids self.old }
    {
        for conn in 0..self.outbox.conns() {
            self.tell_ready_on(conn);
        }
    }

    /// Tells so of one.
    #[inline(always)]
    fn tell_ready_on(&mut self, conn: usize)
        requires { conn < length self.old.state.outbox.limits.cids }
        ensures { self.new ≡ tell_on conn (cid_at self.old.state.outbox conn) self.old }
    {
        if !self.awake.is_awake(conn) {
            self.wake(conn);
        }
    }

    /// Tells so of one that wasn't told so yet.
    #[inline(never)]
    fn wake(&mut self, conn: usize)
        requires within { conn < length self.old.state.outbox.limits.cids }
        requires sleeps { slice_index_or self.old.state.awake conn false ≡ false }
        ensures { self.new ≡ tell_on conn (cid_at self.old.state.outbox conn) self.old }
    {
        let cid = self.outbox.cid(conn);
        if self.outbox.gives_pdu(cid) {
            self.awake.wake(conn);
            self.tell(Action::Ready { cid });
        }
    }

    /// Tells which connections are to be closed that weren't told so. Mostly no Logout closed any.
    #[inline(always)]
    fn tell_closed(&mut self)
        ensures { self.new ≡ close_each 0 self.old.state.outbox.limits.cids self.old }
    {
        if self.outbox.has_closed() {
            self.tell_each_closed();
        }
    }

    /// Looks at each connection.
    #[inline(never)]
    fn tell_each_closed(&mut self)
        ensures { self.new ≡ close_each 0 self.old.state.outbox.limits.cids self.old }
    {
        for conn in 0..self.outbox.conns() {
            self.tell_closed_on(conn);
        }
    }

    /// Tells so of one.
    #[inline(always)]
    fn tell_closed_on(&mut self, conn: usize)
        requires { conn < length self.old.state.outbox.limits.cids }
        ensures { self.new ≡ close_on conn (cid_at self.old.state.outbox conn) self.old }
    {
        let cid = self.outbox.cid(conn);
        if !self.over[conn] && self.outbox.gives_no_more(cid) {
            self.over[conn] = true;
            self.tell(Action::Close { cid });
        }
    }

    /// A connection gave nothing: it is told again when it may give something.
    #[inline(always)]
    pub fn put_to_sleep(&mut self, conn: usize)
        requires { conn < length self.old.state.outbox.limits.cids }
        ensures { self.new ≡ asleep conn self.old }
    {
        self.awake.put_to_sleep(conn);
    }
}
