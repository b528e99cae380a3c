//! What a target asks, which nothing changes by.

ghost use Rattle.std.specs.Prelude.{◌≡◌};
ghost use Rattle.iscsi_outbox_steps.specs.State.{may_take};
ghost use Rattle.iscsi_ffi.specs.Asked.{is_asked, may_join, numbers_shown};

use crate::side::Side;
use iscsi_rules::Numbers;

impl Side {
    /// ExpCmdSN as the last event left it, and the last MaxCmdSN that was shown (RFC 7143 section 4.2.2.1): what a Login Response
    /// may show that goes out beside.
    pub fn numbers(&self) -> Numbers
        ensures { result ≡ numbers_shown self.now.desk.state.outbox }
    {
        self.desk.outbox().numbers()
    }

    /// Whether one more request may be taken from any connection: else `arrive` answers `Busy`.
    pub fn may_take(&self) -> bool
        ensures { result ≡ may_take self.now.desk.state.outbox }
    {
        self.desk.outbox().may_take()
    }

    /// Whether a ping of the outbox's own was handed out on a connection, and isn't known to have arrived (RFC 7143 section 11.19).
    pub fn is_asked(&self, cid: u16) -> bool
        ensures { result ≡ is_asked cid self.now.desk.state.outbox }
    {
        match self.desk.outbox().place(cid) {
            Some(conn) => self.desk.outbox().link(conn).is_asking(),
            None => false,
        }
    }

    /// Whether `join` would be done: the connection is the session's, hasn't joined, is neither closed nor lost.
    pub fn may_join(&self, cid: u16) -> bool
        ensures { result ≡ may_join cid self.now.desk.state.outbox }
    {
        match self.desk.outbox().place(cid) {
            Some(conn) => {
                let mut link = self.desk.outbox().link(conn);
                link.join(0)
            }
            None => false,
        }
    }
}
