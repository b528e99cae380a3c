//! Commands complete, stop, and are cleared.

ghost use Rattle.std.specs.Prelude.{◌≡◌, ◌&&◌, if◌then◌else◌};
ghost use Rattle.iscsi_ffi_commands.specs.Commands.{is_going, is_marked};
ghost use Rattle.iscsi_ffi_rules.specs.rules.Calls.{Call, Cleared, Clears, Completes, Interface, Stops};
ghost use Rattle.iscsi_ffi_steps.specs.Steps.{Side as Sides, called, clear, complete, complete_as, going, stop, stop_as, stop_running};
ghost use Rattle.iscsi_ffi.specs.Answers.{answer_of};
ghost use Rattle.iscsi_ffi.specs.Calls.{Takes};
ghost use Rattle.iscsi_ffi.specs.Standing.{Begun};

use crate::answer::Answer;
use crate::side::Side;
use iscsi_ffi_commands::{Command, Stage};
use iscsi_rules::Event;

/// TASK ABORTED (SAM-5 section 5.3.1).
const TASK_ABORTED: u8 = 0x40;

impl Side {
    /// A unit completed the command with this ticket, with this SCSI status. Of one that another session's reset takes out the
    /// status isn't looked at; one that was taken out has stopped.
    ///
    /// `ActionsWait`, then `Stale`: no command with this ticket was told to start, and is left to complete or to stop.
    #[inline(always)]
    pub fn complete(&mut self, ticket: u64, status: u8) -> Answer
        ensures { Takes (Completes ticket status) self.old self.new result }
    {
        if self.waits() {
            return Answer::ActionsWait;
        }
        self.begin();
        let answer = self.complete_now(ticket, status);
        self.end();
        answer
    }

    /// A command completes, in a call that has begun.
    #[inline(always)]
    fn complete_now(&mut self, ticket: u64, status: u8) -> Answer
        ensures stands { (i : Interface) (s : Sides) → Begun i self.old (going s) → Begun i self.new (complete i ticket status s).going }
        ensures answer { (i : Interface) (s : Sides) → Begun i self.old (going s) → result ≡ answer_of (complete i ticket status s).answer }
    {
        match self.desk.command(ticket) {
            Some(command) => self.complete_as(&command, status),
            None => self.stop_now(ticket),
        }
    }

    /// A command that is kept completes.
    #[inline(always)]
    fn complete_as(&mut self, command: &Command, status: u8) -> Answer
        ensures stands { (i : Interface) (s : Sides) → Begun i self.old (going s) → Begun i self.new (complete_as i command.now status s).going }
        ensures answer { (i : Interface) (s : Sides) → Begun i self.old (going s) → result ≡ answer_of (complete_as i command.now status s).answer }
    {
        let ticket = command.ticket;
        if !is_going(command) {
            return self.stop_now(ticket);
        }
        let status = status_of(command, status);
        self.happen(None, &Event::Done { ticket, status });
        Answer::Done
    }

    /// The unit doesn't touch the medium for this ticket any more: of a command that was taken out, or that another session's
    /// reset takes out.
    ///
    /// `ActionsWait`, then `Stale`: no such command with this ticket is left to stop.
    pub fn stopped(&mut self, ticket: u64) -> Answer
        ensures { Takes (Stops ticket) self.old self.new result }
    {
        if self.waits() {
            return Answer::ActionsWait;
        }
        self.begin();
        let answer = self.stopped_now(ticket);
        self.end();
        answer
    }

    /// A command has stopped, in a call that has begun.
    fn stopped_now(&mut self, ticket: u64) -> Answer
        ensures stands { (i : Interface) (s : Sides) → Begun i self.old (going s) → Begun i self.new (stop i ticket s).going }
        ensures answer { (i : Interface) (s : Sides) → Begun i self.old (going s) → result ≡ answer_of (stop i ticket s).answer }
    {
        match self.desk.command(ticket) {
            Some(command) => self.stop_as(&command),
            None => self.stop_now(ticket),
        }
    }

    /// A command that is kept has stopped.
    fn stop_as(&mut self, command: &Command) -> Answer
        ensures stands { (i : Interface) (s : Sides) → Begun i self.old (going s) → Begun i self.new (stop_as i command.now s).going }
        ensures answer { (i : Interface) (s : Sides) → Begun i self.old (going s) → result ≡ answer_of (stop_as i command.now s).answer }
    {
        let ticket = command.ticket;
        if !is_cleared(command) {
            return self.stop_now(ticket);
        }
        let status = TASK_ABORTED;
        self.happen(None, &Event::Done { ticket, status });
        Answer::Done
    }

    /// A command that was taken out, and ran, has stopped.
    #[inline(never)]
    fn stop_now(&mut self, ticket: u64) -> Answer
        ensures stands { (i : Interface) (s : Sides) → Begun i self.old (going s) → Begun i self.new (stop_running ticket s).going }
        ensures answer { (i : Interface) (s : Sides) → Begun i self.old (going s) → result ≡ answer_of (stop_running ticket s).answer }
    {
        if self.desk.stop_running(ticket) {
            Answer::Done
        } else {
            Answer::Stale
        }
    }

    /// Another session reset or cleared a unit: its commands here stop, and each is completed with TASK ABORTED as its turn comes.
    ///
    /// `ActionsWait`. A unit that the session doesn't have changes nothing.
    pub fn clear(&mut self, unit: u16) -> Answer
        ensures { Takes (Clears unit) self.old self.new result }
    {
        if self.waits() {
            return Answer::ActionsWait;
        }
        self.begin();
        self.clear_now(unit);
        self.end();
        Answer::Done
    }

    /// A unit is cleared, in a call that has begun.
    fn clear_now(&mut self, unit: u16)
        ensures { (i : Interface) (s : Sides) → Begun i self.old (going s) → Begun i self.new (clear unit s).going }
    {
        self.desk.clear(unit);
    }

    /// No other session's command of this unit touches the medium any more: of a unit that was told to be reset.
    ///
    /// `ActionsWait`.
    pub fn cleared(&mut self, unit: u16) -> Answer
        ensures { Takes (Cleared unit) self.old self.new result }
    {
        if self.waits() {
            return Answer::ActionsWait;
        }
        self.begin();
        self.cleared_now(unit);
        self.end();
        Answer::Done
    }

    /// A unit is clear elsewhere, in a call that has begun.
    fn cleared_now(&mut self, unit: u16)
        ensures { (i : Interface) (s : Sides) → Begun i self.old (going s) → Begun i self.new (called i (Cleared unit) s).going }
    {
        self.desk.clear_elsewhere(unit);
    }
}

/// Whether a command was told to start, and neither completed nor was taken out.
#[inline(always)]
fn is_going(command: &Command) -> bool
    ensures { result ≡ is_going command.now }
{
    match command.stage {
        Stage::Started | Stage::Cleared => true,
        Stage::Entered | Stage::Marked | Stage::Over => false,
    }
}

/// Whether it was told to start, and another session's reset takes it out.
fn is_cleared(command: &Command) -> bool
    ensures { result ≡ (is_going command.now && is_marked command.now) }
{
    match command.stage {
        Stage::Cleared => true,
        Stage::Entered | Stage::Marked | Stage::Started | Stage::Over => false,
    }
}

/// With which status a command completes.
#[inline(always)]
fn status_of(command: &Command, status: u8) -> u8
    ensures { result ≡ (if is_marked command.now then 0x40 else status) }
{
    match command.stage {
        Stage::Marked | Stage::Cleared => TASK_ABORTED,
        Stage::Entered | Stage::Started | Stage::Over => status,
    }
}
