//! What goes out.

ghost use Rattle.std.specs.Prelude.{◌≡◌, ◌≢◌, ◌<◌, ◌≤◌, length, take};
ghost use Rattle.iscsi_ffi_handle.specs.Calling.{Called, Calls, GivesOut, shown};
ghost use Rattle.iscsi_ffi_handle.specs.Inside.{inside};
ghost use Rattle.iscsi_ffi_handle.specs.Outgoing.{own_of};
ghost use Rattle.iscsi_ffi_rules.specs.rules.Calls.{Call, Puts};

use crate::bytes::{MOST_BYTES, write_pdu, write_response};
use crate::handle::Handle;
use crate::plain::{PlainAction, PlainPdu, PlainTold};
use crate::telling::hand_over;
use iscsi_ffi::{Answer, Next, Side};
use iscsi_outbox::OwnPdu;
use std::alloc::Global;

impl Handle {
    /// Writes the next PDU of a connection to the front of a buffer of at least 96 bytes, and says what it is.
    ///
    /// `ShortBuffer`, `NotOpen`, `ActionsWait`, then `Blocked`, `Nothing`, `Over`: nothing is written there then.
    #[inline(always)]
    pub fn next(
        &mut self,
        alloc: Global,
        cid: u16,
        buffer: &mut [u8],
        pdu: &mut PlainPdu,
        actions: &mut [PlainAction],
        told: &mut PlainTold,
    ) -> Answer
        ensures short { length buffer.old < 96 → (result ≡ Answer.ShortBuffer) × (shown (inside self.new) actions.new told.new ≡ shown (inside self.old) actions.old told.old) }
        ensures call { 96 ≤ length buffer.old → Called (GivesOut cid buffer.old buffer.new pdu.old pdu.new) (shown (inside self.old) actions.old told.old) (shown (inside self.new) actions.new told.new) result }
        ensures nothing { result ≢ Answer.Done → (buffer.new ≡ buffer.old) × (pdu.new ≡ pdu.old) }
    {
        if buffer.len() < MOST_BYTES {
            return Answer::ShortBuffer;
        }
        let mut side = match self.ready(alloc) {
            Ok(side) => side,
            Err(answer) => return answer,
        };
        let answer = match side.next_response(cid) {
            Some((response, cookie)) => {
                *pdu = write_response(&response, cookie, buffer);
                Answer::Done
            }
            None => next_any(&mut side, cid, buffer, pdu),
        };
        hand_over(&mut side, actions, told);
        self.put_back(side);
        answer
    }

    /// A PDU of the target's own waits to go out: its header is the first 48 bytes. Where the ticket is 0, it is a NOP-In, Text Response
    /// or Asynchronous Message with a word of its own, on this connection; else a Data-In or R2T of the command with this ticket, which
    /// goes out on the command's connection.
    ///
    /// `ShortHeader`, `NotOpen`, `ActionsWait`, then `Unfit`, `Gone`, `Closed`, `Full`.
    pub fn put(
        &mut self,
        alloc: Global,
        cid: u16,
        ticket: u64,
        header: &[u8],
        cookie: u64,
        actions: &mut [PlainAction],
        told: &mut PlainTold,
    ) -> Answer
        ensures short { length header.now < 48 → (result ≡ Answer.ShortHeader) × (shown (inside self.new) actions.new told.new ≡ shown (inside self.old) actions.old told.old) }
        ensures call { 48 ≤ length header.now → Calls (Puts (own_of cid ticket (take 48 header.now)) cookie) (shown (inside self.old) actions.old told.old) (shown (inside self.new) actions.new told.new) result }
    {
        let Some(header) = header.first_chunk::<48>() else {
            return Answer::ShortHeader;
        };
        let own = own_of(cid, ticket, *header);
        let mut side = match self.ready(alloc) {
            Ok(side) => side,
            Err(answer) => return answer,
        };
        let answer = side.put(&own, cookie);
        hand_over(&mut side, actions, told);
        self.put_back(side);
        answer
    }
}

/// Writes the next PDU of a connection, whatever it is, and says what it is.
#[inline(never)]
fn next_any(side: &mut Side, cid: u16, buffer: &mut [u8], pdu: &mut PlainPdu) -> Answer
    requires { 96 ≤ length buffer.old }
    ensures { GivesOut cid buffer.old buffer.new pdu.old pdu.new side.old side.new result }
{
    match &side.next(cid) {
        Next::Goes(handed, cookie) => {
            *pdu = write_pdu(handed, *cookie, buffer);
            Answer::Done
        }
        Next::None(answer) => *answer,
    }
}

/// A PDU of the target's own, as C gives it.
fn own_of(cid: u16, ticket: u64, header: [u8; 48]) -> OwnPdu
    ensures { result ≡ own_of cid ticket header }
{
    if ticket == 0 {
        OwnPdu::OfConnection { conn: cid, header }
    } else {
        OwnPdu::OfCommand { ticket, header }
    }
}
