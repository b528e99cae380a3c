//! What a host asks of an outbox, which nothing changes by.

ghost use Rattle.std.specs.Prelude.{◌≡◌, ◌<◌, ◌^◌, length};
ghost use Rattle.iscsi_wire.specs.Serial.{wire};
ghost use Rattle.iscsi_outbox_steps.specs.State.{link_at};
ghost use Rattle.iscsi_outbox_steps.specs.Steps.{given, is_running_ticket};
ghost use Rattle.iscsi_outbox.specs.rules.Words.{gives_no_more, gives_pdu, has_closed};

use crate::outbox::Outbox;
use crate::outbox::settling::is_running;
use iscsi_arrivals::Arrivals;
use iscsi_rules::Numbers;

impl Outbox {
    /// What is kept of a connection, by its place.
    #[inline(always)]
    pub fn link(&self, conn: usize) -> Arrivals
        requires { conn < length self.now.limits.cids }
        ensures { result ≡ link_at self.now conn }
    {
        self.links.at(conn)
    }

    /// How many logical units there are: 256 at the most.
    #[inline(always)]
    pub fn units(&self) -> u32
        ensures { result ≡ self.now.limits.units }
    {
        self.units
    }

    /// Whether other sessions have the units, too.
    #[inline(always)]
    pub fn is_shared(&self) -> bool
        ensures { result ≡ self.now.limits.shared }
    {
        self.shared
    }

    /// How many replies were taken, modulo 2^64.
    #[inline(always)]
    pub fn sent(&self) -> u64
        ensures { result ≡ self.now.sent }
    {
        self.sent
    }

    /// ExpCmdSN as the last event left it, and the last MaxCmdSN that was shown (RFC 7143 section 4.2.2.1): what a Login Response
    /// may show that goes out beside.
    pub fn numbers(&self) -> Numbers
        ensures { result ≡ record { exp = self.now.exp; max = wire self.now.shown } }
    {
        Numbers {
            exp: self.exp,
            max: (self.shown % (1 << 32)) as u32,
        }
    }

    /// Whether a command with this ticket left, and isn't known to have stopped.
    pub fn is_running(&self, ticket: u64) -> bool
        ensures { result ≡ is_running_ticket ticket self.now }
    {
        match self.tracked.find(ticket) {
            Some(command) => is_running(&command),
            None => false,
        }
    }

    /// Whether `next` would hand out a PDU of this connection.
    pub fn gives_pdu(&self, cid: u16) -> bool
        ensures { result ≡ gives_pdu (given cid self.now) }
    {
        match self.cids.place(cid) {
            Some(conn) => self.chosen(conn).is_some(),
            None => false,
        }
    }

    /// Whether `next` would say that nothing goes out there any more.
    #[inline(always)]
    pub fn gives_no_more(&self, cid: u16) -> bool
        ensures { result ≡ gives_no_more (given cid self.now) }
    {
        match self.cids.place(cid) {
            Some(conn) => self.is_over(conn) && self.chosen(conn).is_none(),
            None => false,
        }
    }

    /// Whether a Logout closed a connection: of any other `next` doesn't say that nothing goes out there any more.
    #[inline(always)]
    pub fn has_closed(&self) -> bool
        ensures { result ≡ has_closed self.now }
    {
        self.links.closed() > 0
    }
}
