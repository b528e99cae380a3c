//! What is told, and which requests are forgotten.

ghost use Rattle.std.specs.Prelude.{◌≡◌, Some};
ghost use Rattle.iscsi_ffi_commands.specs.Commands.{find_ticket};
ghost use Rattle.iscsi_ffi_rules.specs.declared.action.Action.TheVariants.{Forget};
ghost use Rattle.iscsi_ffi_steps.specs.Walk.{release, release_if, tell, with_room, with_stage};
ghost use Rattle.iscsi_requests.specs.Cookies.{cookie_at};

use crate::desk::Desk;
use iscsi_ffi_commands::{Command, Stage};
use iscsi_ffi_rules::Action;

impl Desk {
    /// Tells an action, if there is room, as there is meant to be.
    #[inline(always)]
    pub(super) fn tell(&mut self, action: Action)
        ensures { self.new ≡ tell action self.old }
    {
        if self.actions.len() < self.room {
            self.actions.push_reserved(action);
        }
    }

    /// Tells that a request is forgotten, if there is room, as there is meant to be.
    #[inline(always)]
    fn forget(&mut self, cookie: u64)
        ensures { self.new ≡ record { state = self.old.state; actions = self.old.actions; forgets = with_room self.old.state.room self.old.forgets (Forget cookie) } }
    {
        if self.forgets.len() < self.room {
            self.forgets.push_reserved(Action::Forget { cookie });
        }
    }

    /// A request has one use less: with the last one it is forgotten, and its command, if it has one.
    #[inline(always)]
    pub(super) fn release(&mut self, request: u32)
        ensures { self.new ≡ release request self.old }
    {
        if !self.cookies.has(request) {
            return;
        }
        if let Some(cookie) = self.cookies.use_less(request) {
            self.commands.forget(request);
            self.forget(cookie);
        }
    }

    /// So has the request of what may have one.
    #[inline(always)]
    pub(super) fn release_if(&mut self, request: Option<u32>)
        ensures { self.new ≡ release_if request self.old }
    {
        if let Some(request) = request {
            self.release(request);
        }
    }

    /// The word of a request: 0 where there is none in this place.
    #[inline(always)]
    pub(super) fn cookie(&self, request: u32) -> u64
        ensures { result ≡ cookie_at request self.now.state.cookies }
    {
        if self.cookies.has(request) {
            self.cookies.cookie(request)
        } else {
            0
        }
    }

    /// A command comes to another stage.
    #[inline(always)]
    pub(super) fn set_stage(&mut self, ticket: u64, stage: Stage)
        ensures { self.new ≡ record { state = with_stage stage ticket self.old.state; actions = self.old.actions; forgets = self.old.forgets } }
    {
        self.commands.set_stage(ticket, stage);
    }

    /// So does one that was found by this ticket.
    #[inline(always)]
    pub(super) fn advance(&mut self, ticket: u64, command: &Command, stage: Stage)
        requires { find_ticket ticket self.old.state.commands ≡ Some command.now }
        ensures { self.new ≡ record { state = with_stage stage command.now.ticket self.old.state; actions = self.old.actions; forgets = self.old.forgets } }
    {
        self.commands.advance(ticket, command, stage);
    }
}
