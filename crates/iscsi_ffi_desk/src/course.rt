//! How far a walk over the effects of an event has come.

ghost use Rattle.std.specs.Prelude.{◌≡◌, is_some};
ghost use Rattle.iscsi_ffi_steps.specs.Walk.{reason_by};
ghost use Rattle.iscsi_ffi_desk.specs.Courses.{answering, begun, executing};

use iscsi_ffi_rules::StopReason;
use iscsi_wire::Request;
use iscsi_wire::opcode::LOGOUT;

/// How far a walk over the effects of an event has come.
#[derive(Clone, Copy)]
pub(crate) struct Course {
    /// The request that executes, or that of the command that completes, until it is answered or enters.
    pub(crate) current: Option<u32>,
    /// The request that arrives in this event, until it has its place.
    pub(crate) own: Option<u32>,
    /// Where a request executes, why it stops what it takes out.
    pub(crate) by: Option<StopReason>,
    /// How many replies were sent, modulo 2^64.
    pub(crate) sent: u64,
}

impl Course {
    /// At the begin of an event, with the request that arrives in it.
    #[inline(always)]
    pub(crate) fn begin(own: Option<u32>, sent: u64) -> Course
        ensures { result ≡ begun own sent }
    {
        Course {
            current: None,
            own,
            by: None,
            sent,
        }
    }

    /// A request executes, whose place is this.
    #[inline(always)]
    pub(crate) fn execute(&mut self, request: &Request, place: Option<u32>)
        ensures { self.new ≡ executing request.now place self.old }
    {
        self.current = place;
        self.by = Some(reason_by(request, place));
    }

    /// The request that a reply is of: the one that executes, or the one that arrives.
    #[inline(always)]
    pub(crate) fn answering(&self) -> Option<u32>
        ensures { result ≡ answering self.now }
    {
        self.current.or(self.own)
    }
}

/// Why what leaves by a request stops. A Logout that no caller gave tells of a lost connection.
#[inline(always)]
fn reason_by(request: &Request, place: Option<u32>) -> StopReason
    ensures { result ≡ reason_by request.now place }
{
    if request.opcode() != LOGOUT {
        StopReason::Aborted
    } else if place.is_some() {
        StopReason::LoggedOut
    } else {
        StopReason::Lost
    }
}
