//! Another session's reset of a unit, and what stopped.

ghost use Rattle.std.specs.Prelude.{◌≡◌, [], Some, None, true, length};
ghost use Rattle.iscsi_outbox_steps.specs.Steps.{cleared_of, is_running_ticket};
ghost use Rattle.iscsi_ffi_commands.specs.Commands.{find_ticket, of_unit};
ghost use Rattle.iscsi_ffi_steps.specs.Steps.{clear_each, clear_one, status_of};
ghost use Rattle.iscsi_ffi_desk.specs.Calls.{popped_withheld, first_withheld, stopped_running, with_outbox};

use crate::desk::Desk;
use crate::desk::walking::is_marked;
use iscsi_ffi_commands::{Command, Stage};
use iscsi_ffi_rules::{Action, StopReason};

/// TASK ABORTED and BUSY (SAM-5 section 5.3.1).
const TASK_ABORTED: u8 = 0x40;

const BUSY: u8 = 0x08;

impl Desk {
    /// Another session reset a unit: each of its commands is marked, and told to stop if it was told to start.
    pub fn clear(&mut self, unit: u16)
        ensures { self.new ≡ clear_each (of_unit unit self.old.state.commands) self.old }
    {
        self.commands.known();
        if u32::from(unit) >= self.outbox.units() {
            return;
        }
        let mut next = self.commands.first_of(unit);
        // A unit has at most as many as there are.
        for _gone in 0..self.commands.len() {
            let Some(ticket) = next else {
                return;
            };
            self.commands.known();
            self.clear_ticket(ticket);
            next = self.commands.next_of(ticket);
        }
    }

    /// One of them is.
    fn clear_ticket(&mut self, ticket: u64)
        ensures { self.new ≡ (elim (find_ticket ticket self.old.state.commands) [ Some c ↦ clear_one c self.old | None ↦ self.old ]) }
    {
        if let Some(command) = self.commands.find(ticket) {
            self.clear_one(&command);
        }
    }

    /// A command is marked, and told to stop if it was told to start.
    fn clear_one(&mut self, command: &Command)
        ensures { self.new ≡ clear_one command.now self.old }
    {
        match command.stage {
            Stage::Entered => self.set_stage(command.ticket, Stage::Marked),
            Stage::Started => {
                let cookie = self.cookie(command.request);
                self.tell(Action::Stop {
                    ticket: command.ticket,
                    cookie,
                    why: StopReason::Cleared,
                });
                self.set_stage(command.ticket, Stage::Cleared);
            }
            Stage::Marked | Stage::Cleared | Stage::Over => {}
        }
    }

    /// No other session's command of this unit touches the medium any more.
    pub fn clear_elsewhere(&mut self, unit: u16)
        ensures { self.new ≡ with_outbox (cleared_of unit self.old.state.outbox) self.old }
    {
        self.outbox.clear(unit);
    }

    /// The command with this ticket, if it is kept still.
    #[inline(always)]
    pub fn command(&self, ticket: u64) -> Option<Command>
        ensures { result ≡ find_ticket ticket self.now.state.commands }
    {
        self.commands.find(ticket)
    }

    /// How many commands are kept.
    #[inline(always)]
    pub fn commands(&self) -> usize
        ensures { result ≡ length self.now.state.commands.items }
    {
        self.commands.len()
    }

    /// Whether no command is to be completed that never starts.
    #[inline(always)]
    pub fn is_none_withheld(&self) -> bool
        ensures yes { result ≡ true → self.now.state.withheld ≡ [] }
        ensures no { self.now.state.withheld ≡ [] → result ≡ true }
    {
        let tickets = &self.withheld;
        tickets.is_empty()
    }

    /// The oldest of the commands that are to be completed and never start: its ticket, and the status that it is completed with.
    pub fn take_withheld(&mut self) -> Option<(u64, u8)>
        ensures answer { result ≡ first_withheld self.old.state }
        ensures state { self.new ≡ popped_withheld self.old }
    {
        if self.withheld.is_empty() {
            return None;
        }
        let ticket = self.withheld.remove(0);
        Some((ticket, self.status_of(ticket)))
    }

    /// The status that such a command is completed with.
    fn status_of(&self, ticket: u64) -> u8
        ensures { result ≡ status_of self.now.state ticket }
    {
        match self.commands.find(ticket) {
            Some(command) if is_marked(&command) => TASK_ABORTED,
            _ => BUSY,
        }
    }

    /// A command that was taken out, and ran, has stopped. False, and nothing changes, where none with this ticket runs.
    #[inline(never)]
    pub fn stop_running(&mut self, ticket: u64) -> bool
        ensures answer { result ≡ is_running_ticket ticket self.old.state.outbox }
        ensures state { self.new ≡ stopped_running ticket self.old }
    {
        if !self.outbox.stopped(ticket) {
            return false;
        }
        if let Some(command) = self.commands.find(ticket) {
            self.release(command.request);
        }
        true
    }
}
