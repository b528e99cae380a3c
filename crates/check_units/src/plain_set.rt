//! A task set as SAM-5 has it: a list of commands, and the rules asked of each of them after each entering and leaving.

ghost use Rattle.std.specs.Prelude.{◌≤◌, vec_capacity};

use iscsi_tasks::{Attr, Cover, Task, TaskSet};
use std::alloc::{AllocError, Global};

/// A command of a list.
#[derive(Clone, Copy)]
struct Command {
    task: Task,
    enabled: bool,
    given: bool,
}

/// Commands in the order in which they entered.
#[derive(Drop)]
pub(crate) struct PlainSet {
    commands: Vec<Command>,
    depth: usize,
    ghost room: { depth ≤ vec_capacity commands },
}

impl PlainSet {
    pub(crate) fn open(alloc: Global, depth: u32) -> Result<PlainSet, AllocError>
        requires { depth ≤ 1024 }
    {
        Ok(PlainSet {
            commands: Vec::with_capacity(alloc, depth as usize)?,
            depth: depth as usize,
        })
    }

    pub(crate) fn len(&self) -> usize {
        self.commands.len()
    }

    /// The command enters. False where there is no room for it.
    pub(crate) fn enter(&mut self, task: Task) -> bool {
        if self.commands.len() >= self.depth {
            return false;
        }
        self.commands.push_reserved(Command {
            task,
            enabled: false,
            given: false,
        });
        self.look();
        true
    }

    /// The command with this ticket leaves.
    pub(crate) fn leave(&mut self, ticket: u64) -> Option<Task> {
        let left = self
            .commands
            .iter()
            .find(|command| command.task.ticket == ticket)
            .copied()?;
        self.commands
            .retain(|command| command.task.ticket != ticket);
        self.look();
        Some(left.task)
    }

    /// The covered commands leave.
    pub(crate) fn leave_covered(&mut self, cover: &Cover) {
        self.commands
            .retain(|command| !is_covered(&command.task, cover));
        self.look();
    }

    /// The oldest enabled ticket that wasn't given before.
    pub(crate) fn next_new(&mut self) -> Option<u64> {
        let at = self
            .commands
            .iter()
            .position(|command| command.enabled && !command.given)?;
        let command = self.commands.get_mut(at)?;
        command.given = true;
        Some(command.task.ticket)
    }

    /// The ticket of the command at a place.
    pub(crate) fn ticket_at(&self, place: usize) -> Option<u64> {
        let command = self.commands.get(place)?;
        Some(command.task.ticket)
    }

    pub(crate) fn has(&self, ticket: u64) -> bool {
        self.commands
            .iter()
            .any(|command| command.task.ticket == ticket)
    }

    pub(crate) fn is_enabled(&self, ticket: u64) -> bool {
        self.commands
            .iter()
            .any(|command| command.task.ticket == ticket && command.enabled)
    }

    /// Whether these are the tickets of the covered commands, the oldest one's first.
    pub(crate) fn are_covered(&self, tickets: &[u64], cover: &Cover) -> bool {
        let mut agree = true;
        let mut covered: usize = 0;
        for command in &self.commands {
            if is_covered(&command.task, cover) {
                agree &= tickets.get(covered) == Some(&command.task.ticket);
                covered = covered.wrapping_add(1);
            }
        }
        agree && tickets.len() == covered
    }

    /// Whether the set has the same commands at the same places, the same of them enabled.
    pub(crate) fn is_as(&self, set: &TaskSet) -> bool {
        let mut agree = set.len() as usize == self.commands.len();
        for place in 0..set.len() {
            let Some(command) = self.commands.get(place as usize) else {
                return false;
            };
            let ticket = command.task.ticket;
            let enabled = if command.enabled { Some(place) } else { None };
            agree &= set.covered_at(place, &Cover::All) == Some(ticket);
            agree &= set.enabled_place(ticket, place as usize / 2) == enabled;
        }
        agree
    }

    /// Commands that are free now are enabled from now on.
    fn look(&mut self) {
        for place in 0..self.commands.len() {
            if self.is_free_at(place) {
                self.enable(place);
            }
        }
    }

    /// Whether the command at a place is free. One that is enabled isn't asked again.
    fn is_free_at(&self, place: usize) -> bool {
        let Some(command) = self.commands.get(place) else {
            return false;
        };
        !command.enabled
            && self
                .commands
                .iter()
                .all(|other| !bars(&other.task, &command.task))
    }

    fn enable(&mut self, place: usize) {
        if let Some(command) = self.commands.get_mut(place) {
            command.enabled = true;
        }
    }
}

/// Whether one command keeps another from being free.
fn bars(one: &Task, other: &Task) -> bool {
    let is_older = one.ticket < other.ticket;
    let is_head = one.attr == Attr::Head && one.ticket != other.ticket;
    match other.attr {
        Attr::Head => false,
        Attr::Ordered => is_older || is_head,
        Attr::Simple => is_older && one.attr == Attr::Ordered || is_head,
    }
}

/// Whether an abort or a logout takes a command out.
fn is_covered(task: &Task, cover: &Cover) -> bool {
    match *cover {
        Cover::All => true,
        Cover::Conn(cid) => task.conn == cid,
        Cover::Below { pos, event } => {
            task.pos < pos || task.immediate && task.pos == pos && task.event < event
        }
    }
}
