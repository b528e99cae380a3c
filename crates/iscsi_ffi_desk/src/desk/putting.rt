//! The target's own PDUs.

ghost use Rattle.std.specs.Prelude.{◌≡◌, ◌<◌, length};
ghost use Rattle.iscsi_outbox_steps.specs.State.{place_of};
ghost use Rattle.iscsi_outbox_steps.specs.Steps.{put_refusal};
ghost use Rattle.iscsi_outbox.specs.private.Choices.{refused};
ghost use Rattle.iscsi_requests.specs.Cookies.{next_place};
ghost use Rattle.iscsi_ffi_steps.specs.Steps.{note_as};
ghost use Rattle.iscsi_ffi_desk.specs.Calls.{noted_more, put};

use crate::desk::Desk;
use iscsi_outbox::{OwnPdu, PutRefusal};

impl Desk {
    /// A PDU of the target's own waits on its connection; one that is of no command with a cookie of its own. Where it is refused,
    /// nothing changes.
    pub fn put(&mut self, pdu: &OwnPdu, cookie: u64) -> Result<(), PutRefusal>
        ensures answer { refused result ≡ put_refusal pdu.now self.old.state.outbox }
        ensures state { self.new ≡ put pdu.now cookie self.old }
    {
        self.outbox.put(pdu)?;
        if let OwnPdu::OfConnection { conn, .. } = pdu {
            self.note(*conn, cookie);
        }
        Ok(())
    }

    /// One that is of no command waits on the connection with this CID.
    fn note(&mut self, cid: u16, cookie: u64)
        ensures { self.new ≡ record { state = note_as (place_of self.old.state.outbox cid) (next_place self.old.state.cookies) cookie self.old.state; actions = self.old.actions; forgets = self.old.forgets } }
    {
        let Some(conn) = self.outbox.place(cid) else {
            return;
        };
        if let Some(place) = self.enter_request(cookie) {
            self.push_noted(conn, place);
        }
    }

    /// It stands behind the others there, if there is room, as there is meant to be.
    fn push_noted(&mut self, conn: usize, place: u32)
        requires { conn < length self.old.state.outbox.limits.cids }
        ensures { self.new ≡ noted_more conn place self.old }
    {
        if !self.noted.is_full() {
            self.noted.push(conn, Some(place));
        }
    }
}
