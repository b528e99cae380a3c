//! A request arrives.

ghost use Rattle.std.specs.Prelude.{◌≡◌, ◌+◌, ◌≤◌, List, [], ◌∷◌, ◌++◌, nat_lt, true, false, Some};
ghost use Rattle.iscsi_wire.specs.Fields.{is_immediate, request_of};
ghost use Rattle.iscsi_rules.specs.rules.Settings.{is_known};
ghost use Rattle.iscsi_ffi_rules.specs.rules.Calls.{Arrives, Call, Interface};
ghost use Rattle.iscsi_ffi_rules.specs.rules.Run.{tag_heard, word_at};
ghost use Rattle.iscsi_ffi_steps.specs.Steps.{Going, Side as Sides, arrive, arriving, going, is_held_first, refusal_of};
ghost use Rattle.iscsi_ffi.specs.Answers.{answer_of};
ghost use Rattle.iscsi_ffi.specs.Calls.{Takes};
ghost use Rattle.iscsi_ffi.specs.Held.{held_of, own_of};
ghost use Rattle.iscsi_ffi.specs.Standing.{Begun};

use crate::answer::Answer;
use crate::side::Side;
use crate::side::events::following;
use byteorder::{BigEndian, ByteOrder};
use iscsi_ffi_rules::Refusal;
use iscsi_rules::{Effect, Event};
use iscsi_wire::NO_TAG;
use iscsi_wire::opcode::NOP_OUT;

/// Where a header has its CmdSN.
const CMD_SN: usize = 24;

impl Side {
    /// A request PDU arrived on a connection, with the caller's word for it. Its header is heard, too.
    ///
    /// `ActionsWait`, then `UnknownConnection`, `NotJoined`, `Exhausted`, `Busy`: each changes nothing, and keeps no word.
    #[inline(always)]
    pub fn arrive(&mut self, cid: u16, header: &[u8; 48], cookie: u64) -> Answer
        ensures { Takes (Arrives cid header.now cookie) self.old self.new result }
    {
        if self.waits() {
            return Answer::ActionsWait;
        }
        self.begin();
        let answer = self.arrive_now(cid, header, cookie);
        self.end();
        answer
    }

    /// A request arrives, in a call that has begun.
    #[inline(always)]
    fn arrive_now(&mut self, cid: u16, header: &[u8; 48], cookie: u64) -> Answer
        ensures stands { (i : Interface) (s : Sides) → Begun i self.old (going s) → Begun i self.new (arrive i cid header.now cookie s).going }
        ensures answer { (i : Interface) (s : Sides) → Begun i self.old (going s) → result ≡ answer_of (arrive i cid header.now cookie s).answer }
    {
        if let Some(refusal) = self.refusal_of(cid) {
            return Answer::of_refusal(refusal);
        }
        self.desk
            .hear(cid, word_at(header, 28), transfer_tag(header));
        if let Some(place) = self.desk.enter_request(cookie) {
            self.take_request(cid, header, place);
        }
        Answer::Done
    }

    /// Why no request is taken on this connection.
    #[inline(always)]
    fn refusal_of(&self, cid: u16) -> Option<Refusal>
        ensures { (i : Interface) (s : Sides) → Begun i self.now (going s) → result ≡ refusal_of i s cid }
    {
        let Some(conn) = self.desk.outbox().place(cid) else {
            return Some(Refusal::UnknownConnection);
        };
        if !self.desk.outbox().link(conn).is_open() {
            return Some(Refusal::NotJoined);
        }
        if self.events <= self.taken.saturating_add(self.kept_back) {
            return Some(Refusal::Exhausted);
        }
        if !self.desk.outbox().may_take() {
            return Some(Refusal::Busy);
        }
        None
    }

    /// A request is taken, which has this place.
    #[inline(always)]
    fn take_request(&mut self, cid: u16, header: &[u8; 48], place: u32)
        ensures { (i : Interface) (g : Going) → Begun i self.old g → is_known cid i.outbox.session.conns ≡ true → nat_lt g.event i.outbox.session.events ≡ true →
            Begun i self.new (arriving i cid header.now (Some place) g) }
    {
        let event = Event::Arrive {
            conn: cid,
            header: *header,
        };
        if let Ok(()) = self.host.step(&event) {
            self.taken = following(self.taken, self.events);
            let own = self.place_request(cid, header, place);
            self.desk
                .take(own, self.host.effects(), self.host.event_numbers());
            self.complete_withheld();
        }
    }

    /// The request that arrives is held, if it is received; else this is its place.
    #[inline(always)]
    fn place_request(&mut self, cid: u16, header: &[u8; 48], place: u32) -> Option<u32>
        ensures own { result ≡ own_of (request_of cid header.now) place self.old.host.effects }
        ensures state { self.new ≡ record self.old { desk = held_of (request_of cid header.now) place self.old.host.effects self.old.desk } }
    {
        if is_held_first(cid, header, self.host.effects()) {
            self.desk.hold_number(word_at(header, CMD_SN), place);
            return None;
        }
        Some(place)
    }
}

/// Whether a request is received, and held until its turn comes, also where that is at once: by what comes of it.
#[inline(always)]
fn is_held_first(cid: u16, header: &[u8; 48], effects: &[Effect]) -> bool
    ensures { result ≡ is_held_first (request_of cid header.now) effects.now }
{
    match effects.first() {
        Some(Effect::Ignore { .. } | Effect::Send { .. }) => false,
        _ => !is_immediate(cid, header),
    }
}

/// The I bit of a header (RFC 7143 section 11.2.1.1).
#[inline(always)]
fn is_immediate(_cid: u16, header: &[u8; 48]) -> bool
    ensures { result ≡ is_immediate (request_of _cid header.now) }
{
    header[0] / 64 % 2 == 1
}

/// The number of four bytes of a header.
#[inline(always)]
pub(super) fn word_at(header: &[u8; 48], from: usize) -> u32
    requires { from + 4 ≤ 48 }
    ensures { result ≡ word_at from header.now }
{
    BigEndian::read_u32(&header[from..from + 4])
}

/// The transfer tag that a header is heard with: that of a NOP-Out.
#[inline(always)]
pub(super) fn transfer_tag(header: &[u8; 48]) -> u32
    ensures { result ≡ tag_heard header.now }
{
    if header[0] % 64 == NOP_OUT {
        word_at(header, 20)
    } else {
        NO_TAG
    }
}
