//! Connections join, are heard and are lost.

ghost use Rattle.std.specs.Prelude.{◌≡◌, List, [], ◌∷◌, ◌++◌, true, false};
ghost use Rattle.iscsi_ffi_rules.specs.rules.Calls.{Call, Hears, Interface, Joins, Loses};
ghost use Rattle.iscsi_ffi_rules.specs.rules.Run.{parting, tag_heard, word_at};
ghost use Rattle.iscsi_ffi_steps.specs.Steps.{Side as Sides, called, going, lose};
ghost use Rattle.iscsi_ffi.specs.Answers.{answer_of};
ghost use Rattle.iscsi_ffi.specs.Calls.{Takes};
ghost use Rattle.iscsi_ffi.specs.Standing.{Begun};

use crate::answer::Answer;
use crate::side::Side;
use crate::side::arriving::{transfer_tag, word_at};
use byteorder::{BigEndian, ByteOrder};
use iscsi_rules::Event;

impl Side {
    /// A header arrived on a connection that isn't given to `arrive`: what it says to have arrived is heard.
    ///
    /// `ActionsWait`. Of a CID that is none of the session's nothing is heard.
    pub fn heard(&mut self, cid: u16, header: &[u8; 48]) -> Answer
        ensures { Takes (Hears cid (word_at 28 header.now) (tag_heard header.now)) self.old self.new result }
    {
        if self.waits() {
            return Answer::ActionsWait;
        }
        self.begin();
        self.heard_now(cid, header);
        self.end();
        Answer::Done
    }

    /// A header is heard, in a call that has begun.
    fn heard_now(&mut self, cid: u16, header: &[u8; 48])
        ensures { (i : Interface) (s : Sides) → Begun i self.old (going s) → Begun i self.new (called i (Hears cid (word_at 28 header.now) (tag_heard header.now)) s).going }
    {
        self.desk
            .hear(cid, word_at(header, 28), transfer_tag(header));
    }

    /// A connection is in its Full Feature Phase: its next StatSN is this (RFC 7143 section 4.2.2.2).
    ///
    /// `ActionsWait`, then `CannotJoin`: it isn't the session's, has joined, is closed or lost.
    pub fn join(&mut self, cid: u16, stat_sn: u32) -> Answer
        ensures { Takes (Joins cid stat_sn) self.old self.new result }
    {
        if self.waits() {
            return Answer::ActionsWait;
        }
        self.begin();
        let answer = self.join_now(cid, stat_sn);
        self.end();
        answer
    }

    /// A connection joins, in a call that has begun.
    fn join_now(&mut self, cid: u16, stat_sn: u32) -> Answer
        ensures stands { (i : Interface) (s : Sides) → Begun i self.old (going s) → Begun i self.new (called i (Joins cid stat_sn) s).going }
        ensures answer { (i : Interface) (s : Sides) → Begun i self.old (going s) → result ≡ answer_of (called i (Joins cid stat_sn) s).answer }
    {
        if self.desk.join(cid, stat_sn) {
            Answer::Done
        } else {
            Answer::CannotJoin
        }
    }

    /// The transport of a connection is gone: what an implicit Logout would do is done (RFC 7143 section 7.5), and not answered.
    ///
    /// `ActionsWait`, then `UnknownConnection`, and `NotJoined` where it was lost already.
    pub fn lose(&mut self, cid: u16) -> Answer
        ensures { Takes (Loses cid) self.old self.new result }
    {
        if self.waits() {
            return Answer::ActionsWait;
        }
        self.begin();
        let answer = self.lose_now(cid);
        self.end();
        answer
    }

    /// A connection is lost, in a call that has begun.
    fn lose_now(&mut self, cid: u16) -> Answer
        ensures stands { (i : Interface) (s : Sides) → Begun i self.old (going s) → Begun i self.new (lose i cid s).going }
        ensures answer { (i : Interface) (s : Sides) → Begun i self.old (going s) → result ≡ answer_of (lose i cid s).answer }
    {
        let Some(conn) = self.desk.outbox().place(cid) else {
            return Answer::UnknownConnection;
        };
        let link = self.desk.outbox().link(conn);
        if link.is_lost() {
            return Answer::NotJoined;
        }
        self.desk.lose(conn, cid);
        if !link.is_closed() {
            let header = parting(cid);
            self.happen(None, &Event::Arrive { conn: cid, header });
        }
        Answer::Done
    }
}

/// The header of the Logout by which the session is told that a connection was lost: immediate, on that connection, to close it
/// (RFC 7143 section 11.14).
fn parting(cid: u16) -> [u8; 48]
    ensures { result ≡ parting cid }
{
    let mut header = [0u8; 48];
    header[0] = 0x46;
    header[1] = 0x81;
    BigEndian::write_u16(&mut header[20..22], cid);
    header
}
