//! The commands that are kept.

ghost use Rattle.std.specs.Prelude.{◌≡◌, ◌+◌, ◌*◌, ◌<◌, ◌≤◌, Some, None, true, false, length, IfOk};
ghost use Rattle.iscsi_tracked.specs.Tracked.{AreKnown, arrived, entered, find_place, find_ticket, first_out, handed_out, has_place, in_phase, next_place, opened, removed};

use crate::command::{BLANK, Command, Entering, Phase};
use iscsi_arrivals::Stamp;
use iscsi_lists::Lists;
use iscsi_tickets::Tickets;
use std::alloc::{AllocError, Global};
use std::marker::Model;

/// The list of the commands of which nothing is under way. Behind it are the trails of the connections.
const IDLE: usize = 0;

/// Commands by ticket and by place, and the trail of each connection: the commands of which something is under way there, in the
/// order of their last PDUs.
///
/// Each call takes the same time however many commands there are, but for `find`, which is a binary search.
pub struct Tracked {
    /// The place of each ticket.
    tickets: Tickets,
    /// What is kept of each, in its place.
    kept: Lists<Command>,
}

impl Drop for Tracked {
    fn drop(self) {
        let Tracked {
            tickets: _tickets,
            kept: _kept,
        } = self;
    }
}

impl Model for Tracked {
    ghost use Rattle.iscsi_tracked.specs.Tracked.{Tracked as TrackedValue};
    ghost use Rattle.iscsi_tracked.specs.Kept.{AreTracked, tracked_of};

    ghost Value = { TrackedValue };

    ghost view = { λ t. tracked_of t.tickets t.kept };

    ghost invariant = { λ t. AreTracked t.tickets t.kept };
}

impl Tracked {
    /// None yet, on so many connections, with room for so many. It takes all its memory here.
    pub fn with_room(alloc: Global, conns: usize, room: usize) -> Result<Tracked, AllocError>
        requires lists { room + conns + 3 ≤ 4294967295 }
        requires tickets { 2 * room ≤ 4294967295 }
        ensures { IfOk result (λ t. t ≡ opened conns room) }
    {
        Ok(Tracked {
            tickets: Tickets::with_room(alloc, room)?,
            kept: Lists::with_room(alloc, conns + 1, room, BLANK)?,
        })
    }

    /// What holds of all commands that are kept. It does nothing.
    #[inline(always)]
    pub fn known(&self)
        ensures { AreKnown self.now }
    {
        self.tickets.known();
        self.kept.known();
    }

    /// Whether there are as many as there is room for.
    #[inline(always)]
    pub fn is_full(&self) -> bool
        ensures yes { result ≡ true → length self.now.commands ≡ self.now.room }
        ensures no { result ≡ false → length self.now.commands < self.now.room }
    {
        self.tickets.is_full()
    }

    /// The ticket of the command that entered last; 0: none has.
    #[inline(always)]
    pub fn last(&self) -> u64
        ensures { result ≡ self.now.last }
    {
        self.tickets.last()
    }

    /// A command enters: the place that it has from now on, the one that was freed last. Tickets go up.
    #[inline(always)]
    pub fn enter(&mut self, command: Entering) -> u32
        requires room { length self.old.commands < self.old.room }
        requires newest { self.old.last < command.ticket }
        requires conn { command.conn < length self.old.trails }
        ensures place { next_place self.old ≡ Some result }
        ensures state { self.new ≡ entered command result self.old }
    {
        self.tickets.known();
        self.kept.known();
        let free = self.kept.free_slot();
        let place = self.kept.push_back(IDLE, command.at(free));
        self.tickets.push(command.ticket, place);
        place
    }

    /// The command with this ticket.
    #[inline(always)]
    pub fn find(&self, ticket: u64) -> Option<Command>
        ensures { result ≡ find_ticket ticket self.now }
    {
        self.kept.known();
        let place = self.tickets.find(ticket)?;
        Some(*self.kept.at(place))
    }

    /// Whether a command has this place.
    #[inline(always)]
    pub fn has(&self, place: u32) -> bool
        ensures { result ≡ has_place place self.now }
    {
        self.kept.known();
        self.kept.holds(place)
    }

    /// The command in this place.
    #[inline(always)]
    pub fn at(&self, place: u32) -> Command
        requires { has_place place self.now ≡ true }
        ensures found { find_place place self.now ≡ Some result }
        ensures place { result.place ≡ place }
    {
        self.kept.known();
        *self.kept.at(place)
    }

    /// A command comes to another phase.
    #[inline(always)]
    pub fn set_phase(&mut self, place: u32, phase: Phase)
        requires { has_place place self.old ≡ true }
        ensures { self.new ≡ in_phase phase place self.old }
    {
        self.kept.known();
        let command = *self.kept.at(place);
        self.kept.set(place, Command { phase, ..command });
    }

    /// A PDU of a command was handed out on its connection: its stamp is the last one of the trail there.
    pub fn hand_out(&mut self, place: u32, stamp: Stamp)
        requires { has_place place self.old ≡ true }
        ensures { self.new ≡ handed_out place stamp self.old }
    {
        self.kept.known();
        let command = *self.kept.at(place);
        self.kept.set(
            place,
            Command {
                last_out: Some(stamp),
                ..command
            },
        );
        self.kept.move_to_back(place, usize::from(command.conn) + 1);
    }

    /// The place of the first command of a connection's trail: of all of which something is under way there, the one whose last PDU
    /// was handed out first.
    #[inline(always)]
    pub fn first_out(&self, conn: usize) -> Option<u32>
        requires { conn < length self.now.trails }
        ensures { result ≡ first_out conn self.now }
    {
        self.kept.known();
        self.kept.first(conn + 1)
    }

    /// Nothing of a command is under way any more.
    pub fn arrive(&mut self, place: u32)
        requires { has_place place self.old ≡ true }
        ensures { self.new ≡ arrived place self.old }
    {
        self.kept.known();
        let command = *self.kept.at(place);
        self.kept.set(
            place,
            Command {
                last_out: None,
                ..command
            },
        );
        self.kept.move_to_back(place, IDLE);
    }

    /// A command isn't kept any more: its place is free.
    #[inline(always)]
    pub fn remove(&mut self, place: u32)
        requires { has_place place self.old ≡ true }
        ensures { self.new ≡ removed place self.old }
    {
        self.tickets.known();
        self.kept.known();
        let command = self.kept.remove(place);
        self.tickets.take(command.ticket);
    }
}
