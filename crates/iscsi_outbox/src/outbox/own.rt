//! The target's own PDUs (RFC 7143 sections 11.7, 11.8, 11.9, 11.11 and 11.19).

ghost use Rattle.std.specs.Prelude.{◌≡◌, ◌+◌, ◌<◌, ◌≤◌, length, true, IfSome};
ghost use Rattle.iscsi_outbox_rules.specs.rules.Own.{is_fit, is_free_tag, own_takes, pdu_opcode, pdu_word};
ghost use Rattle.iscsi_outbox.specs.promises.Called.{FollowsRules};
ghost use Rattle.iscsi_outbox_steps.specs.Run.{Put};
ghost use Rattle.iscsi_outbox_rules.specs.rules.Calls.{Puts};
ghost use Rattle.iscsi_outbox_steps.specs.Steps.{absent, home_of, is_live, live_command, own_item, put, put_refusal, refusal_on};
ghost use Rattle.iscsi_tracked.specs.Tracked.{find_ticket, has_place};
ghost use Rattle.iscsi_outbox.specs.private.Choices.{refused};

use crate::outbox::Outbox;
use byteorder::{BigEndian, ByteOrder};
use iscsi_outbox_rules::{OwnPdu, PutRefusal};
use iscsi_outbox_state::{Content, Waiting};
use iscsi_tracked::{Command, Phase};
use iscsi_wire::NO_TAG;
use iscsi_wire::opcode::{ASYNCHRONOUS_MESSAGE, DATA_IN, NOP_IN, READY_TO_TRANSFER, TEXT_RESPONSE};

/// The first transfer tag that is kept for pings.
const FIRST_PING: u32 = 0x8000_0000;

impl Outbox {
    /// A PDU of the target's own waits on its connection, behind all that does. It is refused where it isn't fit, where its
    /// command isn't live, where the connection hasn't joined, is closed or lost, and where as many wait there as may: the
    /// first of these is told, and nothing changes.
    pub fn put(&mut self, pdu: &OwnPdu) -> Result<(), PutRefusal>
        ensures answer { refused result ≡ put_refusal pdu.now self.old }
        ensures state { self.new ≡ put pdu.now self.old }
        ensures rules { FollowsRules self.old (Puts pdu.now) (Put (refused result)) self.new }
    {
        if !is_fit(pdu) {
            return Err(PutRefusal::Unfit);
        }
        let Some((conn, command)) = self.home(pdu) else {
            return Err(absent(pdu));
        };
        if let Some(refusal) = self.refusal_on(conn) {
            return Err(refusal);
        }
        self.enter(conn, own_item(pdu, command));
        Ok(())
    }

    /// Where an own PDU goes out, and the place of its command.
    fn home(&self, pdu: &OwnPdu) -> Option<(usize, Option<u32>)>
        ensures answer { result ≡ home_of pdu.now self.now }
        ensures conn { IfSome result (λ home. home.0 < length self.now.limits.cids) }
        ensures command { IfSome result (λ home. IfSome (home.1) (λ c. (1 ≤ c) × (c ≤ self.now.waits.commands))) }
    {
        match pdu {
            OwnPdu::OfCommand { ticket, .. } => match self.live(*ticket) {
                Some(command) => Some((usize::from(command.conn), Some(command.place))),
                None => None,
            },
            OwnPdu::OfConnection { conn, .. } => match self.cids.place(*conn) {
                Some(place) => Some((place, None)),
                None => None,
            },
        }
    }

    /// The live command with this ticket.
    pub(crate) fn live(&self, ticket: u64) -> Option<Command>
        ensures answer { result ≡ live_command self.now ticket }
        ensures conn { IfSome result (λ c. c.conn < length self.now.limits.cids) }
        ensures low { IfSome result (λ c. 1 ≤ c.place) }
        ensures high { IfSome result (λ c. c.place ≤ self.now.waits.commands) }
        ensures there { IfSome result (λ c. has_place c.place self.now.tracked ≡ true) }
    {
        match self.kept(ticket) {
            Some(command) if is_live(&command) => Some(command),
            _ => None,
        }
    }

    /// The command with this ticket that is kept.
    #[inline(always)]
    pub(crate) fn kept(&self, ticket: u64) -> Option<Command>
        ensures answer { result ≡ find_ticket ticket self.now.tracked }
        ensures conn { IfSome result (λ c. c.conn < length self.now.limits.cids) }
        ensures low { IfSome result (λ c. 1 ≤ c.place) }
        ensures high { IfSome result (λ c. c.place ≤ self.now.waits.commands) }
        ensures there { IfSome result (λ c. has_place c.place self.now.tracked ≡ true) }
    {
        self.tracked.known();
        match self.tracked.find(ticket) {
            Some(command) => Some(command),
            None => None,
        }
    }

    /// Why an own PDU isn't taken on a connection.
    fn refusal_on(&self, conn: usize) -> Option<PutRefusal>
        requires { conn < length self.now.limits.cids }
        ensures { result ≡ refusal_on conn self.now }
    {
        if !self.links.at(conn).is_usable() {
            return Some(PutRefusal::Closed);
        }
        if self.own <= self.waits.own_on(conn) {
            return Some(PutRefusal::Full);
        }
        None
    }
}

/// Whether a command is in its task set.
#[inline(always)]
pub(crate) fn is_live(command: &Command) -> bool
    ensures { result ≡ is_live command.now }
{
    match command.phase {
        Phase::Dormant | Phase::Fresh | Phase::Started => true,
        Phase::Running | Phase::Gone => false,
    }
}

/// What is said of an own PDU that goes out nowhere.
fn absent(pdu: &OwnPdu) -> PutRefusal
    ensures { result ≡ absent pdu.now }
{
    match pdu {
        OwnPdu::OfCommand { .. } => PutRefusal::Gone,
        OwnPdu::OfConnection { .. } => PutRefusal::Closed,
    }
}

/// An own PDU as it waits, with the place of its command.
fn own_item(pdu: &OwnPdu, command: Option<u32>) -> Waiting
    ensures { result ≡ own_item pdu.now command }
{
    Waiting {
        content: Content::Own(*pdu),
        takes: takes(pdu),
        fenced: false,
        numbered: false,
        ends: false,
        command,
    }
}

/// Whether an own PDU takes a StatSN: a Text Response or an Asynchronous Message.
fn takes(pdu: &OwnPdu) -> bool
    ensures { result ≡ own_takes pdu.now }
{
    match pdu {
        OwnPdu::OfCommand { .. } => false,
        OwnPdu::OfConnection { header, .. } => opcode(header) != NOP_IN,
    }
}

/// Whether it is a Data-In without the S bit, or an R2T; a NOP-In without a task's tag, a Text Response or an Asynchronous
/// Message.
fn is_fit(pdu: &OwnPdu) -> bool
    ensures { result ≡ is_fit pdu.now }
{
    match pdu {
        OwnPdu::OfCommand { header, .. } => {
            opcode(header) == READY_TO_TRANSFER || (opcode(header) == DATA_IN && header[1] % 2 == 0)
        }
        OwnPdu::OfConnection { header, .. } => {
            opcode(header) == TEXT_RESPONSE
                || opcode(header) == ASYNCHRONOUS_MESSAGE
                || (opcode(header) == NOP_IN
                    && word(header, 16) == NO_TAG
                    && is_free_tag(word(header, 20)))
        }
    }
}

/// Whether a transfer tag isn't kept for pings.
fn is_free_tag(tag: u32) -> bool
    ensures { result ≡ is_free_tag tag }
{
    tag < FIRST_PING || tag == NO_TAG
}

fn opcode(header: &[u8; 48]) -> u8
    ensures { result ≡ pdu_opcode header.now }
{
    header[0] % 64
}

/// The number of four bytes of a header.
fn word(header: &[u8; 48], from: usize) -> u32
    requires { from + 4 ≤ 48 }
    ensures { result ≡ pdu_word from header.now }
{
    BigEndian::read_u32(&header[from..from + 4])
}
