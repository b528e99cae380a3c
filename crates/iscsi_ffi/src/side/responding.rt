//! A SCSI Response without sense goes out: most PDUs are such.

ghost use Rattle.std.specs.Prelude.{◌≡◌, false, None, IfSome};
ghost use Rattle.iscsi_outbox.specs.promises.Responses.{handed_of};
ghost use Rattle.iscsi_ffi_rules.specs.rules.Calls.{Interface, Nexts};
ghost use Rattle.iscsi_ffi_steps.specs.Steps.{Side as Sides, going, next};
ghost use Rattle.iscsi_ffi.specs.Answers.{given_of};
ghost use Rattle.iscsi_ffi.specs.Calls.{Gives};
ghost use Rattle.iscsi_ffi.specs.Responses.{ResponseIsNext, gives_response, gives_to};
ghost use Rattle.iscsi_ffi.specs.Standing.{Begun};

use crate::side::Side;
use crate::side::outgoing::Next;
use iscsi_outbox::{HandedResponse, Response};

impl Side {
    /// The next PDU of a connection where that is a SCSI Response without sense, as `next` gives it, and the word for its request. Where
    /// it isn't, or `next` gives none, nothing changes.
    #[inline(always)]
    pub fn next_response(&mut self, cid: u16) -> Option<(HandedResponse, Option<u64>)>
        ensures some { IfSome result (λ r. Gives (Nexts cid) self.old self.new (Next.Goes (handed_of r.0) r.1)) }
        ensures none { result ≡ None → self.new ≡ self.old }
        ensures when { result ≡ None → gives_response cid self.old ≡ false }
    {
        if self.waits() {
            return None;
        }
        let (conn, response) = self.response(cid)?;
        self.begin();
        let given = self.give_response(cid, conn, response);
        self.end();
        Some(given)
    }

    /// The place of a connection, and the SCSI Response without sense that goes out there next.
    #[inline(always)]
    fn response(&self, cid: u16) -> Option<(usize, Response)>
        ensures some { IfSome result (λ r. ResponseIsNext cid r.0 r.1 self.now) }
        ensures none { result ≡ None → gives_to cid self.now ≡ false }
    {
        let conn = self.desk.outbox().place(cid)?;
        if self.desk.is_blocked(conn, self.unwritten) {
            return None;
        }
        let response = self.desk.outbox().response(conn)?;
        Some((conn, response))
    }

    /// It is handed out, in a call that has begun.
    #[inline(always)]
    fn give_response(
        &mut self,
        cid: u16,
        conn: usize,
        response: Response,
    ) -> (HandedResponse, Option<u64>)
        requires { ResponseIsNext cid conn response self.old }
        ensures stands { (i : Interface) (s : Sides) → Begun i self.old (going s) → Begun i self.new (next i cid s).going }
        ensures answer { (i : Interface) (s : Sides) → Begun i self.old (going s) → Next.Goes (handed_of result.0) result.1 ≡ given_of (next i cid s).answer }
    {
        self.desk.next_response(conn, response)
    }
}
