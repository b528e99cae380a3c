//! The commands of a side.

ghost use Rattle.std.specs.Prelude.{◌≡◌, ℕ, ◌+◌, ◌*◌, ◌<◌, ◌≤◌, Some, true, length, replicate, slice_index_or, IfOk};
ghost use Rattle.iscsi_ffi_commands.specs.declared.command.Stage.TheVariants.{Entered};
ghost use Rattle.iscsi_ffi_commands.specs.Commands.{AreKnown, entered, find_ticket, first_of, forgotten, is_clearing, may_enter, next_of, opened, staged};
ghost use Rattle.iscsi_ffi_commands.specs.Kept.{marks};

use crate::command::{Command, Stage};
use iscsi_lists::Lists;
use iscsi_tasks::Attr;
use iscsi_tickets::Tickets;
use std::alloc::{AllocError, Global};
use std::marker::Model;

/// No command.
const BLANK: Command = Command {
    ticket: 0,
    request: 0,
    unit: 0,
    attr: Attr::Simple,
    stage: Stage::Over,
};

/// The commands of a side, each from its entering until its request is forgotten: by ticket, by the place of their request, and
/// by unit, where they stand in the order of their tickets. Tickets go up as commands enter.
///
/// Each call takes the same time however many commands there are, but for the search of a ticket, which is a binary one.
pub struct Commands {
    /// The slot of each ticket.
    tickets: Tickets,
    /// Each in its slot, by unit.
    kept: Lists<Command>,
    /// The slot of each request's command; 0: it has none. The first one is of no request.
    slots: Vec<u32>,
    /// How many commands of each unit another session's reset takes out.
    marked: Vec<u32>,
}

impl Drop for Commands {
    fn drop(self) {
        let Commands {
            tickets: _tickets,
            kept: _kept,
            slots: _slots,
            marked: _marked,
        } = self;
    }
}

impl Model for Commands {
    ghost use Rattle.iscsi_ffi_commands.specs.Commands.{Commands as CommandsValue};
    ghost use Rattle.iscsi_ffi_commands.specs.Kept.{AreKept, commands_of};

    ghost Value = { CommandsValue };

    ghost view = { λ c. commands_of c.tickets c.kept };

    ghost invariant = { λ c. AreKept c.tickets c.kept c.slots.items c.marked.items };
}

impl Commands {
    /// None yet, with requests in so many places, for so many units. It takes all its memory here.
    pub fn with_room(alloc: Global, room: usize, units: usize) -> Result<Commands, AllocError>
        requires lists { room + units + 2 ≤ 4294967295 }
        requires tickets { 2 * room ≤ 4294967295 }
        ensures { IfOk result (λ c. c ≡ opened room units) }
    {
        Ok(Commands {
            tickets: Tickets::with_room(alloc, room)?,
            kept: Lists::with_room(alloc, units, room, BLANK)?,
            slots: zeros(alloc, room + 1)?,
            marked: zeros(alloc, units)?,
        })
    }

    /// What holds of all commands. It does nothing.
    #[inline(always)]
    pub fn known(&self)
        ensures { AreKnown self.now }
    {
        self.tickets.known();
        self.kept.known();
    }

    /// How many there are.
    #[inline(always)]
    pub fn len(&self) -> usize
        ensures { result ≡ length self.now.items }
    {
        self.tickets.len()
    }

    /// The command with this ticket.
    #[inline(always)]
    pub fn find(&self, ticket: u64) -> Option<Command>
        ensures { result ≡ find_ticket ticket self.now }
    {
        self.kept.known();
        let slot = self.tickets.find(ticket)?;
        Some(*self.kept.at(slot))
    }

    /// Whether a command may enter: tickets go up, its unit is one of the session's, and its request has a place and no command.
    #[inline(always)]
    pub fn may_enter(&self, command: &Command) -> bool
        ensures { result ≡ may_enter command.now self.now }
    {
        self.tickets.known();
        self.kept.known();
        if command.ticket <= self.tickets.last() {
            return false;
        }
        if usize::from(command.unit) >= self.marked.len() {
            return false;
        }
        if command.request == 0 {
            return false;
        }
        if command.request as usize >= self.slots.len() {
            return false;
        }
        slot_at(&self.slots, command.request) == 0
    }

    /// A command enters, behind all others.
    #[inline(always)]
    pub fn enter(&mut self, command: Command)
        requires may { may_enter command self.old ≡ true }
        requires stage { command.stage ≡ Entered }
        ensures { self.new ≡ entered command self.old }
    {
        self.tickets.known();
        self.kept.known();
        let slot = self.kept.push_back(usize::from(command.unit), command);
        self.tickets.push(command.ticket, slot);
        self.slots[command.request as usize] = slot;
    }

    /// The command with this ticket comes to another stage, if there is one.
    #[inline(always)]
    pub fn set_stage(&mut self, ticket: u64, stage: Stage)
        ensures { self.new ≡ staged stage ticket self.old }
    {
        self.tickets.known();
        self.kept.known();
        let Some(slot) = self.tickets.find(ticket) else {
            return;
        };
        let command = *self.kept.at(slot);
        self.kept.set(slot, Command { stage, ..command });
        let unit = usize::from(command.unit);
        self.marked[unit] = recounted(self.marked[unit], command.stage, stage);
    }

    /// A command that was found by this ticket comes to another stage. It stands where its request says, and isn't searched for.
    #[inline(always)]
    pub fn advance(&mut self, ticket: u64, command: &Command, stage: Stage)
        requires { find_ticket ticket self.old ≡ Some command.now }
        ensures { self.new ≡ staged stage command.now.ticket self.old }
    {
        self.tickets.known();
        self.kept.known();
        let slot = self.slots[command.request as usize];
        let kept = *self.kept.at(slot);
        self.kept.set(slot, Command { stage, ..kept });
        let unit = usize::from(command.unit);
        let count = self.marked[unit];
        self.marked[unit] = recounted(count, command.stage, stage);
    }

    /// The command of this request isn't kept any more, if it has one.
    #[inline(always)]
    pub fn forget(&mut self, request: u32)
        ensures { self.new ≡ forgotten request self.old }
    {
        self.tickets.known();
        self.kept.known();
        let slot = slot_at(&self.slots, request);
        if slot == 0 {
            return;
        }
        let command = self.kept.remove(slot);
        self.tickets.take(command.ticket);
        self.slots[request as usize] = 0;
        let unit = usize::from(command.unit);
        self.marked[unit] = recounted(self.marked[unit], command.stage, Stage::Over);
    }

    /// Whether a command of this unit is left that another session's reset takes out.
    pub fn is_clearing(&self, unit: u16) -> bool
        requires { unit < self.now.units }
        ensures { result ≡ is_clearing unit self.now }
    {
        self.marked[usize::from(unit)] > 0
    }

    /// The ticket of the first command of this unit. With `next_of` it leads over all of them, also where their stages change on
    /// the way.
    pub fn first_of(&self, unit: u16) -> Option<u64>
        requires { unit < self.now.units }
        ensures { result ≡ first_of unit self.now }
    {
        self.kept.known();
        let slot = self.kept.first(usize::from(unit))?;
        Some(self.kept.at(slot).ticket)
    }

    /// The ticket of the command behind that with this ticket, in their unit.
    pub fn next_of(&self, ticket: u64) -> Option<u64>
        ensures { result ≡ next_of ticket self.now }
    {
        self.kept.known();
        let slot = self.tickets.find(ticket)?;
        let next = self.kept.next(slot)?;
        Some(self.kept.at(next).ticket)
    }
}

/// So many zeros.
fn zeros(alloc: Global, count: usize) -> Result<Vec<u32>, AllocError>
    ensures { IfOk result (λ numbers. numbers.items ≡ replicate count 0) }
{
    let mut numbers = Vec::with_capacity(alloc, count)?;
    for _ in 0..count {
        numbers.push_reserved(0);
    }
    Ok(numbers)
}

/// The slot of a request's command; 0: it has none.
#[inline(always)]
fn slot_at(slots: &[u32], request: u32) -> u32
    ensures { result ≡ slice_index_or slots.now request 0 }
{
    let request = request as usize;
    if request < slots.len() {
        slots[request]
    } else {
        0
    }
}

/// 1 where another session's reset takes out what is in this stage.
#[inline(always)]
fn marks(stage: Stage) -> u32
    ensures { result ≡ marks stage }
{
    match stage {
        Stage::Marked | Stage::Cleared => 1,
        Stage::Entered | Stage::Started | Stage::Over => 0,
    }
}

/// How many are marked, as one of them comes from one stage to another one.
#[inline(always)]
fn recounted(count: u32, before: Stage, after: Stage) -> u32
    requires some { marks before ≤ count }
    requires short { count < 4294967295 }
    ensures { result + marks before ≡ count + marks after }
{
    count + marks(after) - marks(before)
}
