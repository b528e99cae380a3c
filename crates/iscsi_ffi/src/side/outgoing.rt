//! What goes out.

ghost use Rattle.std.specs.Prelude.{◌≡◌, ◌<◌, List, [], ◌∷◌, ◌++◌, length, true, false, Some, None};
ghost use Rattle.iscsi_ffi_rules.specs.rules.Calls.{Call, Interface, Nexts, Puts, Writes};
ghost use Rattle.iscsi_ffi_steps.specs.Steps.{Side as Sides, going, next, put, write};
ghost use Rattle.iscsi_ffi.specs.Answers.{answer_of, given_of};
ghost use Rattle.iscsi_ffi.specs.Calls.{Gives, Takes};
ghost use Rattle.iscsi_ffi.specs.Standing.{Begun};

use crate::answer::Answer;
use crate::side::Side;
use iscsi_outbox::{Given, Handed, OwnPdu};

/// What `next` gives: a PDU, with the word for what it belongs to; or why it gives none.
#[derive(Clone, Copy, Debug, PartialEq, Eq)]
pub enum Next {
    Goes(Handed, Option<u64>),
    None(Answer),
}

impl Side {
    /// The next PDU of a connection, with its numbers as they are now, and the word for the request that it answers or is of, or
    /// that it was put with.
    ///
    /// `ActionsWait`, then `Blocked`: as many of its PDUs are handed out and not written as may be; `Nothing`: none goes out now, and it
    /// is told to be ready when one may; `Over`: none goes out any more. Of a CID that isn't the session's nothing goes out.
    #[inline(always)]
    pub fn next(&mut self, cid: u16) -> Next
        ensures { Gives (Nexts cid) self.old self.new result }
    {
        if self.waits() {
            return Next::None(Answer::ActionsWait);
        }
        self.begin();
        let next = self.next_now(cid);
        self.end();
        next
    }

    /// A PDU is handed out, in a call that has begun.
    #[inline(always)]
    fn next_now(&mut self, cid: u16) -> Next
        ensures stands { (i : Interface) (s : Sides) → Begun i self.old (going s) → Begun i self.new (next i cid s).going }
        ensures answer { (i : Interface) (s : Sides) → Begun i self.old (going s) → result ≡ given_of (next i cid s).answer }
    {
        let Some(conn) = self.desk.outbox().place(cid) else {
            return Next::None(Answer::Nothing);
        };
        if self.desk.is_blocked(conn, self.unwritten) {
            return Next::None(Answer::Blocked);
        }
        match self.desk.next(conn, cid) {
            (Given::Hands(handed), cookie) => Next::Goes(handed, cookie),
            (Given::Nothing, _) => {
                self.desk.put_to_sleep(conn);
                Next::None(Answer::Nothing)
            }
            (Given::IsOver, _) => {
                self.desk.put_to_sleep(conn);
                Next::None(Answer::Over)
            }
        }
    }

    /// A PDU of the target's own waits on its connection, behind all that does: a Data-In or R2T of a command, whose data is under
    /// the word of the command's request; or a NOP-In, Text Response or Asynchronous Message with a word of its own.
    ///
    /// `ActionsWait`, then `Unfit`, `Gone`, `Closed`, `Full`.
    pub fn put(&mut self, pdu: &OwnPdu, cookie: u64) -> Answer
        ensures { Takes (Puts pdu.now cookie) self.old self.new result }
    {
        if self.waits() {
            return Answer::ActionsWait;
        }
        self.begin();
        let answer = self.put_now(pdu, cookie);
        self.end();
        answer
    }

    /// A PDU is put, in a call that has begun.
    fn put_now(&mut self, pdu: &OwnPdu, cookie: u64) -> Answer
        ensures stands { (i : Interface) (s : Sides) → Begun i self.old (going s) → Begun i self.new (put pdu.now cookie s).going }
        ensures answer { (i : Interface) (s : Sides) → Begun i self.old (going s) → result ≡ answer_of (put pdu.now cookie s).answer }
    {
        Answer::of_put(self.desk.put(pdu, cookie))
    }

    /// The oldest PDU that was handed out on a connection, and isn't written, has gone into the transport. Where there is none,
    /// nothing changes.
    ///
    /// `ActionsWait`.
    #[inline(always)]
    pub fn written(&mut self, cid: u16) -> Answer
        ensures { Takes (Writes cid) self.old self.new result }
    {
        if self.waits() {
            return Answer::ActionsWait;
        }
        self.begin();
        self.written_now(cid);
        self.end();
        Answer::Done
    }

    /// A PDU was written, in a call that has begun.
    #[inline(always)]
    fn written_now(&mut self, cid: u16)
        ensures { (i : Interface) (s : Sides) → Begun i self.old (going s) → Begun i self.new (write cid s).going }
    {
        if let Some(conn) = self.desk.outbox().place(cid) {
            self.desk.write(conn, cid);
        }
    }
}
