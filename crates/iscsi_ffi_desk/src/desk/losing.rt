//! The transport of a connection is gone; a header is heard; a connection joins.

ghost use Rattle.std.specs.Prelude.{◌≡◌, ◌<◌, length};
ghost use Rattle.iscsi_outbox_steps.specs.Steps.{heard, joined, may_join};
ghost use Rattle.iscsi_ffi_desk.specs.Calls.{lost_on, with_outbox};

use crate::desk::Desk;

impl Desk {
    /// The transport of the connection in a place is gone: all that waits there, and all that was handed out there, is over.
    pub fn lose(&mut self, conn: usize, cid: u16)
        requires { conn < length self.old.state.outbox.limits.cids }
        ensures { self.new ≡ lost_on cid conn self.old }
    {
        self.outbox.lose(cid);
        self.drop_waiting(conn);
        self.drop_unwritten(conn);
    }

    /// A header arrived on a connection, with this ExpStatSN and, if it is that of a NOP-Out, this transfer tag.
    #[inline(always)]
    pub fn hear(&mut self, cid: u16, exp_stat_sn: u32, transfer_tag: u32)
        ensures { self.new ≡ with_outbox (heard cid exp_stat_sn transfer_tag self.old.state.outbox) self.old }
    {
        self.outbox.heard(cid, exp_stat_sn, transfer_tag);
    }

    /// A connection is in its Full Feature Phase, and its next StatSN is this. False, and nothing changes, where it may not join.
    pub fn join(&mut self, cid: u16, stat_sn: u32) -> bool
        ensures answer { result ≡ may_join cid self.old.state.outbox }
        ensures state { self.new ≡ with_outbox (joined cid stat_sn self.old.state.outbox) self.old }
    {
        self.outbox.join(cid, stat_sn)
    }
}
