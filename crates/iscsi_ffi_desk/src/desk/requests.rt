//! A request arrives.

ghost use Rattle.std.specs.Prelude.{◌≡◌};
ghost use Rattle.iscsi_wire.specs.Fields.{cmd_sn};
ghost use Rattle.iscsi_requests.specs.Cookies.{next_place};
ghost use Rattle.iscsi_ffi_steps.specs.Steps.{hold};
ghost use Rattle.iscsi_ffi_desk.specs.Calls.{entered_request};

use crate::desk::Desk;
use iscsi_wire::Request;

impl Desk {
    /// A request arrives with its cookie: its place. There is always one.
    #[inline(always)]
    pub fn enter_request(&mut self, cookie: u64) -> Option<u32>
        ensures answer { result ≡ next_place self.old.state.cookies }
        ensures state { self.new ≡ entered_request cookie self.old }
    {
        self.cookies.known();
        if self.cookies.is_full() {
            return None;
        }
        Some(self.cookies.enter(cookie))
    }

    /// It is received, and held until its turn comes.
    #[inline(always)]
    pub fn hold(&mut self, request: &Request, place: u32)
        ensures { self.new ≡ hold request.now place self.old }
    {
        self.held.put(request.cmd_sn(), place);
    }

    /// The same of a request that isn't read yet, by its CmdSN.
    #[inline(always)]
    pub fn hold_number(&mut self, number: u32, place: u32)
        ensures { (r : Request) → cmd_sn r ≡ number → self.new ≡ hold r place self.old }
    {
        self.held.put(number, place);
    }
}
