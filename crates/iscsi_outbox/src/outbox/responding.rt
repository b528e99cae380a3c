//! A SCSI Response without sense goes out: most PDUs are such. It is handed out in a form of its own, since `Handed` has room for any.

ghost use Rattle.std.specs.Prelude.{◌≡◌, ◌<◌, ◌^◌, ℕ, Some, true, length, IsSome};
ghost use Rattle.iscsi_arrivals.specs.Counts.{is_open_by};
ghost use Rattle.iscsi_waiting.specs.Firsts.{response_in};
ghost use Rattle.iscsi_outbox_state.specs.declared.waiting.Waiting.{Waiting as WaitingValue};
ghost use Rattle.iscsi_outbox_state.specs.Waits.{first_item, queue_at};
ghost use Rattle.iscsi_outbox.specs.promises.Called.{FollowsRules};
ghost use Rattle.iscsi_outbox_steps.specs.Run.{Gives};
ghost use Rattle.iscsi_outbox_rules.specs.rules.Calls.{Nexts};
ghost use Rattle.iscsi_outbox_steps.specs.State.{link_at, place_of};
ghost use Rattle.iscsi_outbox_steps.specs.Steps.{Waited, after_out, given, next, numbered};
ghost use Rattle.iscsi_outbox.specs.promises.Responses.{handed_of, response_next};

use crate::outbox::Outbox;
use crate::outbox::choosing::Choice;
use crate::outbox::handing::on_wire;
use iscsi_outbox_steps::Given;
use iscsi_waiting::Response;

/// A SCSI Response without sense that is handed out, with its place and its numbers.
#[derive(Clone, Copy, Debug, PartialEq, Eq)]
pub struct HandedResponse {
    pub itt: u32,
    pub status: u8,
    pub place: u64,
    pub stat_sn: u32,
    pub exp: u32,
    pub max: u32,
}

impl Outbox {
    /// The SCSI Response without sense that goes out next on a connection, if such a one does.
    #[inline(always)]
    pub fn response(&self, conn: usize) -> Option<Response>
        requires { conn < length self.now.limits.cids }
        ensures { result ≡ response_next conn self.now }
    {
        match self.chosen(conn) {
            Some(Choice::Waiting) => self.waits.response(conn),
            Some(Choice::Ping) => None,
            Some(Choice::Notice) => None,
            None => None,
        }
    }

    /// Hands it out, as `next` does.
    #[inline(always)]
    pub fn next_response(&mut self, conn: usize, response: Response) -> HandedResponse
        requires conn { conn < length self.old.limits.cids }
        requires goes { response_next conn self.old ≡ Some response }
        ensures answer { (cid : ℕ) → place_of self.old cid ≡ Some conn → given cid self.old ≡ Given.Hands (handed_of result) }
        ensures state { (cid : ℕ) → place_of self.old cid ≡ Some conn → self.new ≡ next cid self.old }
        ensures limits { self.new.limits ≡ self.old.limits }
        ensures rules { (cid : ℕ) → place_of self.old cid ≡ Some conn →
            FollowsRules self.old (Nexts cid) (Gives (Given.Hands (handed_of result))) self.new }
    {
        self.hand_out_response(conn, response)
    }

    /// It goes out.
    #[inline(always)]
    fn hand_out_response(&mut self, conn: usize, response: Response) -> HandedResponse
        requires conn { conn < length self.old.limits.cids }
        requires open { is_open_by (link_at self.old conn) ≡ true }
        requires room { (link_at self.old conn).handed < 2 ^ 63 }
        requires some { IsSome (first_item (queue_at self.old.waits conn)) }
        ensures answer { (item : WaitingValue) → first_item (queue_at self.old.waits conn) ≡ Some item → response_in item.content ≡ Some response →
            handed_of result ≡ numbered conn (Waited item) self.old }
        ensures state { (item : WaitingValue) → first_item (queue_at self.old.waits conn) ≡ Some item → self.new ≡ after_out conn (Waited item) self.old }
    {
        let stat_sn = self.links.at(conn).stat_sn();
        let marks = self.waits.drop_first(conn).unwrap();
        let max = self.show();
        let stamp = self.links.hand_out(conn, marks.takes, marks.ends);
        self.note_out(marks.command, stamp);
        self.note_fence(conn, marks.fenced, stamp);
        HandedResponse {
            itt: response.itt,
            status: response.status,
            place: response.place,
            stat_sn,
            exp: self.exp,
            max: on_wire(max),
        }
    }
}
