//! What goes out.

ghost use Rattle.std.specs.Prelude.{◌≡◌, ◌<◌, ℕ, length, Some, None};
ghost use Rattle.iscsi_outbox_steps.specs.State.{place_of};
ghost use Rattle.iscsi_outbox.specs.promises.Responses.{handed_of, response_next};
ghost use Rattle.iscsi_outbox_steps.specs.Steps.{given};
ghost use Rattle.iscsi_requests.specs.Replies.{find_log_place};
ghost use Rattle.iscsi_ffi_steps.specs.Steps.{request_handed, write_on};
ghost use Rattle.iscsi_ffi_desk.specs.Calls.{command_used, cookie_handed, cookie_of_place, handed_out, is_blocked, left_queue, pushed_out, reply_left, request_of_command, written_on};

use crate::desk::Desk;
use iscsi_outbox::{Given, Handed, HandedResponse, OwnPdu, Pdu, Response};

impl Desk {
    /// Whether as many PDUs of a connection are handed out and not written as may be.
    #[inline(always)]
    pub fn is_blocked(&self, conn: usize, most: u32) -> bool
        requires { conn < length self.now.state.outbox.limits.cids }
        ensures { result ≡ is_blocked most conn self.now.state }
    {
        self.outbox.link(conn).is_open() && most <= self.unwritten.count(conn)
    }

    /// Hands out the next PDU of a connection, with the word for what it belongs to.
    #[inline(always)]
    pub fn next(&mut self, conn: usize, cid: u16) -> (Given, Option<u64>)
        requires { conn < length self.old.state.outbox.limits.cids }
        ensures answer { result.0 ≡ given cid self.old.state.outbox }
        ensures cookie { result.1 ≡ cookie_handed conn (given cid self.old.state.outbox) self.old.state }
        ensures state { self.new ≡ handed_out cid conn self.old }
    {
        let given = self.outbox.next(cid);
        match given {
            Given::Hands(handed) => {
                let cookie = self.hand_out(conn, &handed.pdu);
                (given, cookie)
            }
            Given::Nothing | Given::IsOver => (given, None),
        }
    }

    /// Hands out the SCSI Response without sense that goes out next on a connection, as `next` does.
    #[inline(always)]
    pub fn next_response(
        &mut self,
        conn: usize,
        response: Response,
    ) -> (HandedResponse, Option<u64>)
        requires conn { conn < length self.old.state.outbox.limits.cids }
        requires goes { response_next conn self.old.state.outbox ≡ Some response }
        ensures answer { (cid : ℕ) → place_of self.old.state.outbox cid ≡ Some conn → given cid self.old.state.outbox ≡ Given.Hands (handed_of result.0) }
        ensures cookie { (cid : ℕ) → place_of self.old.state.outbox cid ≡ Some conn → result.1 ≡ cookie_handed conn (given cid self.old.state.outbox) self.old.state }
        ensures state { (cid : ℕ) → place_of self.old.state.outbox cid ≡ Some conn → self.new ≡ handed_out cid conn self.old }
    {
        let handed = self.outbox.next_response(conn, response);
        let cookie = self.hand_out_reply(conn, handed.place);
        (handed, cookie)
    }

    /// A reply with this place in the log was handed out on a connection, and is to be written: the word of its request.
    #[inline(always)]
    fn hand_out_reply(&mut self, conn: usize, log_place: u64) -> Option<u64>
        requires { conn < length self.old.state.outbox.limits.cids }
        ensures cookie { result ≡ cookie_of_place self.old.state (find_log_place log_place self.old.state.replies) }
        ensures state { self.new ≡ pushed_out conn (find_log_place log_place self.old.state.replies) (reply_left log_place self.old) }
    {
        let answered = self.take_reply(log_place);
        self.push_unwritten(conn, answered);
        self.cookie_of(answered)
    }

    /// A PDU was handed out on a connection, and is to be written: the word for what it belongs to.
    #[inline(always)]
    fn hand_out(&mut self, conn: usize, pdu: &Pdu) -> Option<u64>
        requires { conn < length self.old.state.outbox.limits.cids }
        ensures cookie { result ≡ cookie_of_place self.old.state (request_handed self.old.state conn pdu.now) }
        ensures state { self.new ≡ pushed_out conn (request_handed self.old.state conn pdu.now) (left_queue conn pdu.now self.old) }
    {
        let request = self.leave_queue(conn, pdu);
        self.push_unwritten(conn, request);
        self.cookie_of(request)
    }

    /// It stands behind what is handed out there and not written, if there is room, as there is meant to be.
    #[inline(always)]
    fn push_unwritten(&mut self, conn: usize, request: Option<u32>)
        requires { conn < length self.old.state.outbox.limits.cids }
        ensures { self.new ≡ pushed_out conn request self.old }
    {
        if !self.unwritten.is_full() {
            self.unwritten.push(conn, request);
        }
    }

    /// What waited on a connection first leaves its queue: the place of the request that it belongs to.
    #[inline(always)]
    fn leave_queue(&mut self, conn: usize, pdu: &Pdu) -> Option<u32>
        requires { conn < length self.old.state.outbox.limits.cids }
        ensures request { result ≡ request_handed self.old.state conn pdu.now }
        ensures state { self.new ≡ left_queue conn pdu.now self.old }
    {
        match pdu {
            Pdu::Reply(sent) => self.take_reply(sent.place),
            Pdu::Own(OwnPdu::OfCommand { ticket, .. }) => self.use_again(*ticket),
            Pdu::Own(OwnPdu::OfConnection { .. }) => self.noted.pop(conn).flatten(),
            Pdu::Ping(_) | Pdu::Notice => None,
        }
    }

    /// The word of the request in a place, if there is one.
    #[inline(always)]
    fn cookie_of(&self, request: Option<u32>) -> Option<u64>
        ensures { result ≡ cookie_of_place self.now.state request }
    {
        match request {
            Some(place) => Some(self.cookie(place)),
            None => None,
        }
    }

    /// The reply with this place in the log waits no more: its request.
    #[inline(always)]
    fn take_reply(&mut self, log_place: u64) -> Option<u32>
        ensures request { result ≡ find_log_place log_place self.old.state.replies }
        ensures state { self.new ≡ reply_left log_place self.old }
    {
        if log_place < u64::MAX {
            return self.replies.take(log_place);
        }
        // Every reply's place is below the last one of 64 bits: the log is shorter.
        self.replies.known();
        let _last = self.replies.last();
        None
    }

    /// A PDU of a command is handed out: its request has a use more.
    #[inline(never)]
    fn use_again(&mut self, ticket: u64) -> Option<u32>
        ensures request { result ≡ request_of_command ticket self.old.state }
        ensures state { self.new ≡ command_used ticket self.old }
    {
        let place = self.commands.find(ticket)?.request;
        if self.cookies.has(place) && self.cookies.uses(place) < u32::MAX {
            self.cookies.use_more(place);
        }
        Some(place)
    }

    /// What was handed out first on a connection, and isn't written, has gone into the transport.
    #[inline(always)]
    pub fn write(&mut self, conn: usize, cid: u16)
        requires { conn < length self.old.state.outbox.limits.cids }
        ensures { self.new ≡ written_on cid conn self.old }
    {
        self.outbox.written(cid);
        self.write_oldest(conn);
    }

    /// What was handed out first there is written.
    #[inline(always)]
    fn write_oldest(&mut self, conn: usize)
        requires { conn < length self.old.state.outbox.limits.cids }
        ensures { self.new ≡ write_on conn self.old }
    {
        if let Some(request) = self.unwritten.pop(conn) {
            self.release_if(request);
        }
    }
}
