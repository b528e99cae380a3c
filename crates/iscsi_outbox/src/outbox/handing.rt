//! What is handed out on a connection (RFC 7143 section 4.2.2).

ghost use Rattle.std.specs.Prelude.{◌≡◌, ◌<◌, ◌^◌, Some, nat_lt, true, false, length, IsSome, if◌then◌else◌};
ghost use Rattle.iscsi_wire.specs.Serial.{wire};
ghost use Rattle.iscsi_arrivals.specs.Counts.{is_open_by};
ghost use Rattle.iscsi_outbox_state.specs.declared.waiting.Waiting.{Waiting as WaitingValue};
ghost use Rattle.iscsi_outbox_state.specs.Waits.{first_item, queue_at};
ghost use Rattle.iscsi_outbox.specs.promises.Called.{FollowsRules};
ghost use Rattle.iscsi_outbox_steps.specs.Run.{Gives};
ghost use Rattle.iscsi_outbox_rules.specs.rules.Calls.{Nexts};
ghost use Rattle.iscsi_outbox_steps.specs.State.{is_over, link_at};
ghost use Rattle.iscsi_outbox_steps.specs.Steps.{Noticed, Pinged, Waited, after_out, given, next, numbered, of_command, of_fence};
ghost use Rattle.iscsi_arrivals.specs.Counts.{tag_of_ping};
ghost use Rattle.iscsi_outbox.specs.private.Choices.{pdu_of_content};

use crate::outbox::Outbox;
use crate::outbox::choosing::Choice;
use iscsi_arrivals::Stamp;
use iscsi_outbox_state::Content;
use iscsi_outbox_steps::{Given, Handed, Pdu, Sent};

impl Outbox {
    /// Hands out the next PDU of a connection, with its numbers as they are now: `Nothing` where none may go out now, and
    /// `IsOver` where none does any more. A reply comes with its place: so many the session had sent before it, modulo 2^64, on
    /// all connections, with those that went nowhere. It tells which request is answered, as answers may overtake each other.
    #[inline(always)]
    pub fn next(&mut self, cid: u16) -> Given
        ensures answer { result ≡ given cid self.old }
        ensures state { self.new ≡ next cid self.old }
        ensures rules { FollowsRules self.old (Nexts cid) (Gives result) self.new }
    {
        let Some(conn) = self.cids.place(cid) else {
            return Given::Nothing;
        };
        match self.chosen(conn) {
            Some(Choice::Waiting) => Given::Hands(self.hand_out_waiting(conn)),
            Some(Choice::Ping) => Given::Hands(self.hand_out_ping(conn)),
            Some(Choice::Notice) => Given::Hands(self.hand_out_notice(conn)),
            None => self.given_nothing(conn),
        }
    }

    /// What is answered where nothing goes out on a connection now.
    #[inline(never)]
    fn given_nothing(&self, conn: usize) -> Given
        requires { conn < length self.now.limits.cids }
        ensures { result ≡ (if is_over conn self.now then Given.IsOver else Given.Nothing) }
    {
        if self.is_over(conn) {
            Given::IsOver
        } else {
            Given::Nothing
        }
    }

    /// What waits on a connection first goes out.
    #[inline(always)]
    fn hand_out_waiting(&mut self, conn: usize) -> Handed
        requires conn { conn < length self.old.limits.cids }
        requires open { is_open_by (link_at self.old conn) ≡ true }
        requires room { (link_at self.old conn).handed < 2 ^ 63 }
        requires some { IsSome (first_item (queue_at self.old.waits conn)) }
        ensures { (item : WaitingValue) → first_item (queue_at self.old.waits conn) ≡ Some item →
            (result ≡ numbered conn (Waited item) self.old) × (self.new ≡ after_out conn (Waited item) self.old) }
    {
        let stat_sn = self.links.at(conn).stat_sn();
        let item = self.waits.pop(conn).unwrap();
        let max = self.show();
        let stamp = self.links.hand_out(conn, item.takes, item.ends);
        self.note_out(item.command, stamp);
        self.note_fence(conn, item.fenced, stamp);
        Handed {
            pdu: pdu_of(item.content),
            stat_sn,
            exp: self.exp,
            max: on_wire(max),
        }
    }

    /// A ping goes out.
    #[inline(never)]
    fn hand_out_ping(&mut self, conn: usize) -> Handed
        requires conn { conn < length self.old.limits.cids }
        requires open { is_open_by (link_at self.old conn) ≡ true }
        requires room { (link_at self.old conn).handed < 2 ^ 63 }
        requires none { nat_lt (link_at self.old conn).answered (link_at self.old conn).pings ≡ false }
        ensures answer { result ≡ numbered conn (Pinged (tag_of_ping (link_at self.old conn).pings)) self.old }
        ensures state { self.new ≡ after_out conn (Pinged (tag_of_ping (link_at self.old conn).pings)) self.old }
    {
        let link = self.links.at(conn);
        let max = self.show();
        self.links.hand_out_ping(conn);
        Handed {
            pdu: Pdu::Ping(link.ping_tag()),
            stat_sn: link.stat_sn(),
            exp: self.exp,
            max: on_wire(max),
        }
    }

    /// A NOP-In without a tag goes out, which shows MaxCmdSN.
    #[inline(never)]
    fn hand_out_notice(&mut self, conn: usize) -> Handed
        requires conn { conn < length self.old.limits.cids }
        requires open { is_open_by (link_at self.old conn) ≡ true }
        requires room { (link_at self.old conn).handed < 2 ^ 63 }
        ensures answer { result ≡ numbered conn Noticed self.old }
        ensures state { self.new ≡ after_out conn Noticed self.old }
    {
        let stat_sn = self.links.at(conn).stat_sn();
        let max = self.show();
        self.links.hand_out(conn, false, false);
        Handed {
            pdu: Pdu::Notice,
            stat_sn,
            exp: self.exp,
            max: on_wire(max),
        }
    }

    /// A PDU of the command in a place was handed out.
    #[inline(always)]
    pub(crate) fn note_out(&mut self, command: Option<u32>, stamp: Stamp)
        ensures { self.new ≡ of_command command stamp self.old }
    {
        if let Some(place) = command {
            if self.tracked.has(place) {
                self.tracked.hand_out(place, stamp);
            }
        }
    }

    /// A PDU was handed out that answers a function of several tasks, or another one.
    #[inline(always)]
    pub(crate) fn note_fence(&mut self, conn: usize, fenced: bool, stamp: Stamp)
        requires { conn < length self.old.limits.cids }
        ensures { self.new ≡ of_fence conn fenced stamp self.old }
    {
        if fenced {
            self.fence = Some(Sent {
                conn: conn as u16,
                stamp,
            });
        }
    }
}

/// What waits, as it goes out.
#[inline(always)]
fn pdu_of(content: Content) -> Pdu
    ensures { result ≡ pdu_of_content content }
{
    match content {
        Content::Reply(reply) => Pdu::Reply(reply),
        Content::Own(own) => Pdu::Own(own),
    }
}

/// What the wire shows of a number.
#[inline(always)]
pub(crate) fn on_wire(number: u64) -> u32
    ensures { result ≡ wire number }
{
    (number % (1 << 32)) as u32
}
