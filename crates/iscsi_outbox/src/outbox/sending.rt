//! Replies: which have to wait, and for what (RFC 7143 sections 4.2.3.3, 11.6 and 11.15).

ghost use Rattle.std.specs.Prelude.{◌≡◌, ℕ, ◌<◌, List, ◌∷◌, length, Some};
ghost use Rattle.iscsi_outbox_steps.specs.State.{place_of};
ghost use Rattle.iscsi_outbox_steps.specs.Steps.{aim_of, aim_of_logout, closed_in, counted, is_of_unit, is_reset, newly_closed, later, placed, reply_item, send, send_on, send_placed};
ghost use Rattle.iscsi_rules.specs.rules.Execution.{unit_named};
ghost use Rattle.iscsi_outbox_state.specs.Lane.{is_of_logout};
ghost use Rattle.iscsi_outbox.specs.private.Walks.{aim_of_function, ends_with};

use crate::items::closes_session;
use crate::outbox::Outbox;
use crate::outbox::settling::is_of_unit;
use iscsi_outbox_state::{Aim, Content, SentReply, Undue, Waiting};
use iscsi_rules::Effect;
use iscsi_wire::function::{ABORT_TASK, ABORT_TASK_SET, CLEAR_TASK_SET, LOGICAL_UNIT_RESET};
use iscsi_wire::opcode::TASK_MANAGEMENT;
use iscsi_wire::{Reply, Request, unit_of};

impl Outbox {
    /// Whether the connection that a reply of an item goes out on is closed by the item.
    pub(crate) fn ends(&self, item: &[Effect], sent: Option<(u16, Reply)>) -> bool
        ensures { result ≡ ends_with (newly_closed self.now (closed_in self.now item.now)) sent self.now }
    {
        let Some((cid, _)) = sent else {
            return false;
        };
        match self.cids.place(cid) {
            Some(conn) => self.closes(conn, item),
            None => false,
        }
    }

    /// The reply of an item enters its queue, or waits until it is due. `ends`: its connection is closed by the item.
    pub(crate) fn send(
        &mut self,
        request: Option<Request>,
        item: &[Effect],
        numbered: bool,
        ends: bool,
        sent: Option<(u16, Reply)>,
    )
        ensures { (closes : List ℕ) → ends ≡ ends_with closes sent self.old →
            self.new ≡ send request item.now numbered closes sent self.old }
    {
        let Some((cid, reply)) = sent else {
            return;
        };
        let reply = self.placed(reply);
        self.send_placed(cid, request, item, numbered, ends, reply);
        self.count_reply();
    }

    /// A reply with its place: so many were taken before it.
    #[inline(always)]
    pub(crate) fn placed(&self, reply: Reply) -> SentReply
        ensures { result ≡ placed reply self.now }
    {
        SentReply {
            reply,
            place: self.sent,
        }
    }

    /// One reply more was taken, wherever it goes.
    #[inline(always)]
    pub(crate) fn count_reply(&mut self)
        ensures { self.new ≡ counted self.old }
    {
        self.sent = self.sent.wrapping_add(1);
    }

    /// A reply that has its place enters its queue, waits until it is due, or goes nowhere.
    fn send_placed(
        &mut self,
        cid: u16,
        request: Option<Request>,
        item: &[Effect],
        numbered: bool,
        ends: bool,
        reply: SentReply,
    )
        ensures { (closes : List ℕ) → ends ≡ ends_with closes (Some (cid, reply.reply)) self.old →
            self.new ≡ send_placed request item.now numbered closes cid reply self.old }
    {
        match self.cids.place(cid) {
            Some(conn) => self.send_on(conn, request, item, numbered, ends, reply),
            None => self.pass_time(),
        }
    }

    /// A reply goes nowhere, and time passes.
    #[inline(always)]
    pub(crate) fn pass_time(&mut self)
        ensures { self.new ≡ record self.old { waits = later self.old.waits } }
    {
        if self.waits.time() < u64::MAX {
            self.waits.skip();
        }
    }

    /// A reply enters the queue of a connection, or waits until it is due.
    fn send_on(
        &mut self,
        conn: usize,
        request: Option<Request>,
        item: &[Effect],
        numbered: bool,
        ends: bool,
        reply: SentReply,
    )
        requires { conn < length self.old.limits.cids }
        ensures { self.new ≡ send_on conn request item.now numbered ends reply self.old }
    {
        let Some(request) = request else {
            self.enter(conn, reply_item(numbered, reply));
            return;
        };
        let shared = self.shared;
        match self.aim_of(&request, item, &reply.reply) {
            Some(aim) => self.await_due(
                conn,
                Undue {
                    reply,
                    conn: conn as u16,
                    aim,
                    numbered,
                    ends: ends && is_of_logout(aim),
                    uncleared: shared && is_reset(&request) && is_of_unit(aim),
                },
            ),
            None => self.enter(conn, reply_item(numbered, reply)),
        }
    }

    /// What a reply is about, if it is the answer to an abort or Logout that has to wait: of functions 1, 2, 4 and 5 with
    /// response 0, of 1 also with response 1; of a Logout with response 0.
    fn aim_of(&self, request: &Request, item: &[Effect], reply: &Reply) -> Option<Aim>
        ensures { result ≡ aim_of request.now item.now reply.now self.now }
    {
        match reply {
            Reply::Task { response, .. } => self.aim_of_function(request, *response),
            Reply::Logout { response: 0, .. } => Some(self.aim_of_logout(item)),
            _ => None,
        }
    }

    /// What the answer to a task management function is about, if it has to wait.
    fn aim_of_function(&self, request: &Request, response: u8) -> Option<Aim>
        ensures { result ≡ aim_of_function request.now response self.now }
    {
        if request.opcode() != TASK_MANAGEMENT {
            return None;
        }
        match request.function() {
            ABORT_TASK if response <= 1 => match self.unit_named(request) {
                Some(_) => Some(Aim::Tag(request.rtt())),
                None => None,
            },
            ABORT_TASK_SET | CLEAR_TASK_SET | LOGICAL_UNIT_RESET if response == 0 => {
                match self.unit_named(request) {
                    Some(unit) => Some(Aim::Unit(unit)),
                    None => None,
                }
            }
            _ => None,
        }
    }

    /// The unit that a request's LUN names, if it is one of the session's.
    fn unit_named(&self, request: &Request) -> Option<u16>
        ensures { result ≡ unit_named self.now.limits.units request.now }
    {
        match unit_of(&request.lun()) {
            Some(unit) if u32::from(unit) < self.units => Some(unit),
            _ => None,
        }
    }

    /// What a Logout aims at, by the connections that its item closes.
    fn aim_of_logout(&self, item: &[Effect]) -> Aim
        ensures { result ≡ aim_of_logout item.now self.now }
    {
        for (at, effect) in item.iter().enumerate() {
            match effect {
                Effect::CloseSession => return Aim::Session,
                Effect::CloseConn { conn } => return self.aim_of_close(*conn, &item[at + 1..]),
                _ => {}
            }
        }
        Aim::Nothing
    }

    /// What a Logout aims at that closes a connection: all where that was the last one, and the session closes behind it.
    fn aim_of_close(&self, cid: u16, behind: &[Effect]) -> Aim
        ensures { result ≡ aim_of_logout (Effect.CloseConn cid ∷ behind.now) self.now }
    {
        if closes_session(behind) {
            return Aim::Session;
        }
        match self.cids.place(cid) {
            Some(conn) => Aim::Conn(conn as u16),
            None => Aim::Nothing,
        }
    }
}

/// A reply that enters its queue at once.
#[inline(always)]
pub(crate) fn reply_item(numbered: bool, reply: SentReply) -> Waiting
    ensures { result ≡ reply_item numbered reply }
{
    Waiting {
        content: Content::Reply(reply),
        takes: true,
        fenced: false,
        numbered,
        ends: false,
        command: None,
    }
}

/// Whether it is that of a Logout.
fn is_of_logout(aim: Aim) -> bool
    ensures { result ≡ is_of_logout aim }
{
    match aim {
        Aim::Tag(_) | Aim::Unit(_) => false,
        Aim::Conn(_) | Aim::Session | Aim::Nothing => true,
    }
}

/// Whether a request is a CLEAR TASK SET or a LOGICAL UNIT RESET: it is of all sessions.
fn is_reset(request: &Request) -> bool
    ensures { result ≡ is_reset request.now }
{
    request.opcode() == TASK_MANAGEMENT
        && (request.function() == CLEAR_TASK_SET || request.function() == LOGICAL_UNIT_RESET)
}
