//! What enters a queue, and what waits for its time.

ghost use Rattle.std.specs.Prelude.{◌≡◌, ◌<◌, ◌≤◌, length, true, IfSome};
ghost use Rattle.iscsi_outbox_steps.specs.Steps.{await, enter};

use crate::outbox::Outbox;
use iscsi_outbox_state::{Undue, Waiting};

impl Outbox {
    /// A PDU enters the queue of a connection that takes more. Time passes in any case.
    #[inline(always)]
    pub(crate) fn enter(&mut self, conn: usize, item: Waiting)
        requires conn { conn < length self.old.limits.cids }
        requires command { IfSome item.command (λ c. (1 ≤ c) × (c ≤ self.old.waits.commands)) }
        requires fence { item.fenced ≡ true → item.takes ≡ true }
        ensures { self.new ≡ enter conn item self.old }
    {
        if self.waits.time() == u64::MAX {
            return;
        }
        if self.links.at(conn).takes_more() && !self.waits.is_full() {
            self.waits.enter(conn, item);
        } else {
            self.waits.skip();
        }
    }

    /// The answer to an abort or Logout waits until it is due, if its connection takes more.
    pub(crate) fn await_due(&mut self, conn: usize, answer: Undue)
        requires conn { conn < length self.old.limits.cids }
        requires same { answer.conn ≡ conn }
        ensures { self.new ≡ await conn answer self.old }
    {
        if self.links.at(conn).takes_more()
            && self.lane.answers_waiting() < 3 * self.most_at_once()
        {
            self.lane.wait(answer);
        }
    }
}
