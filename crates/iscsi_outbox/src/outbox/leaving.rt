//! Commands enter, are enabled and leave.

ghost use Rattle.std.specs.Prelude.{◌≡◌, ◌≢◌, ◌<◌, ◌≤◌, filter_map, length, None, true, if◌then◌else◌};
ghost use Rattle.iscsi_outbox_rules.specs.rules.Items.{ticket_enabled, tickets_left};
ghost use Rattle.iscsi_outbox_steps.specs.Steps.{completed, enable, enter_command, enter_commands, enter_each, in_phase_if, is_numbered, is_started, leave, leave_one, taken_out, tell};
ghost use Rattle.iscsi_tracked.specs.Tracked.{has_place};
ghost use Rattle.iscsi_outbox.specs.private.Walks.{HasEntered, entered_one, is_in, is_numbered_of};

use crate::outbox::Outbox;
use crate::outbox::own::is_live;
use iscsi_outbox_state::Left;
use iscsi_rules::Effect;
use iscsi_tracked::{Command, Entering, Phase};
use iscsi_wire::Request;

impl Outbox {
    /// Whether the reply of an item answers a numbered request: the one that executes, or that of a command that completes.
    pub(crate) fn is_numbered(&self, request: Option<Request>, item: &[Effect]) -> bool
        ensures { result ≡ is_numbered self.now request (tickets_left item.now) }
    {
        match request {
            Some(request) => !request.immediate(),
            None => self.completes_numbered(item),
        }
    }

    /// Whether a command whose request had a number of its own leaves by an item.
    fn completes_numbered(&self, item: &[Effect]) -> bool
        ensures { result ≡ is_numbered self.now None (tickets_left item.now) }
    {
        for effect in item {
            if let Effect::Leave { ticket, .. } = effect {
                if self.is_numbered_command(*ticket) {
                    return true;
                }
            }
        }
        false
    }

    /// Whether the command with this ticket is kept, and its request had a number of its own.
    fn is_numbered_command(&self, ticket: u64) -> bool
        ensures { result ≡ is_numbered_of self.now ticket }
    {
        match self.tracked.find(ticket) {
            Some(command) => command.numbered,
            None => false,
        }
    }

    /// The commands of an item leave: by the request that executes in it, or else by their completion.
    pub(crate) fn leave(&mut self, request: Option<Request>, item: &[Effect])
        ensures { self.new ≡ leave request (tickets_left item.now) self.old }
    {
        for effect in item {
            if let Effect::Leave { ticket, .. } = effect {
                self.leave_one(request, *ticket);
            }
        }
    }

    /// A command leaves.
    fn leave_one(&mut self, request: Option<Request>, ticket: u64)
        ensures { self.new ≡ leave_one request ticket self.old }
    {
        if let Some(command) = self.live(ticket) {
            match request {
                Some(_) => self.take_out(command),
                None => self.complete(command),
            }
        }
    }

    /// The command with this ticket completes, if it is live: whether its request had a number of its own.
    #[inline(always)]
    pub(crate) fn complete_ticket(&mut self, ticket: u64) -> bool
        ensures answer { result ≡ is_numbered_of self.old ticket }
        ensures state { self.new ≡ leave_one None ticket self.old }
    {
        let Some(command) = self.kept(ticket) else {
            return false;
        };
        if is_live(&command) {
            self.complete(command);
        }
        command.numbered
    }

    /// A command is taken out: what waits of it is dropped, and it is kept as long as it owes something.
    fn take_out(&mut self, command: Command)
        requires there { has_place command.place self.old.tracked ≡ true }
        requires conn { command.conn < length self.old.limits.cids }
        requires low { 1 ≤ command.place }
        requires high { command.place ≤ self.old.waits.commands }
        ensures { self.new ≡ taken_out command self.old }
    {
        let running = is_started(&command);
        let under_way = command.last_out.is_some();
        self.waits.drop_of(command.place);
        if (running || under_way) && !self.lane.has(command.place) {
            self.lane.leave(Left {
                command: command.place,
                conn: command.conn,
                unit: command.unit,
                tag: command.tag,
                running,
                under_way,
            });
            self.tracked.set_phase(command.place, phase_left(running));
        } else {
            self.tracked.remove(command.place);
        }
    }

    /// A command completes: what waits of it waits on.
    #[inline(always)]
    fn complete(&mut self, command: Command)
        requires there { has_place command.place self.old.tracked ≡ true }
        requires low { 1 ≤ command.place }
        requires high { command.place ≤ self.old.waits.commands }
        ensures { self.new ≡ completed command self.old }
    {
        self.waits.release(command.place);
        self.tracked.remove(command.place);
    }

    /// The commands of an item enter, by the request that executes in it.
    pub(crate) fn enter_commands(&mut self, request: Option<Request>, item: &[Effect])
        ensures { self.new ≡ enter_commands request item.now self.old }
    {
        if let Some(request) = request {
            self.enter_each(&request, item);
        }
    }

    /// The commands of an item enter by a request.
    fn enter_each(&mut self, request: &Request, item: &[Effect])
        ensures { self.new ≡ enter_each request.now item.now self.old }
    {
        for effect in item {
            if let Effect::Enter { ticket, unit, .. } = effect {
                self.enter_one(request, *ticket, *unit);
            }
        }
    }

    /// A command enters, of a connection of the session: its place; 0: it has none.
    #[inline(always)]
    pub(crate) fn enter_one(&mut self, request: &Request, ticket: u64, unit: u16) -> u32
        ensures state { self.new ≡ entered_one request.now ticket unit self.old }
        ensures place { result ≢ 0 → HasEntered ticket result self.new }
    {
        match self.cids.place(request.conn()) {
            Some(conn) => self.enter_command(Entering {
                ticket,
                conn: conn as u16,
                unit,
                tag: request.itt(),
                numbered: !request.immediate(),
            }),
            None => 0,
        }
    }

    /// A command enters, if there is a place, its ticket is above those before and its unit is one of the session's: its place; 0: it
    /// has none.
    #[inline(always)]
    fn enter_command(&mut self, command: Entering) -> u32
        requires { command.conn < length self.old.limits.cids }
        ensures state { self.new ≡ enter_command command self.old }
        ensures place { result ≢ 0 → HasEntered command.ticket result self.new }
    {
        self.tracked.known();
        if self.tracked.is_full() {
            return 0;
        }
        if self.tracked.last() < command.ticket && u32::from(command.unit) < self.units {
            return self.tracked.enter(command);
        }
        0
    }

    /// The commands of an item that are enabled by it are so from now on.
    pub(crate) fn enable(&mut self, item: &[Effect])
        ensures { self.new ≡ enable (filter_map ticket_enabled item.now) self.old }
    {
        for effect in item {
            if let Effect::Enable { ticket, .. } = effect {
                self.change_phase(*ticket, Phase::Dormant, Phase::Fresh);
            }
        }
    }

    /// Those that were enabled by an event count as started, once it is over.
    pub(crate) fn tell(&mut self, effects: &[Effect])
        ensures { self.new ≡ tell (filter_map ticket_enabled effects.now) self.old }
    {
        for effect in effects {
            if let Effect::Enable { ticket, .. } = effect {
                self.change_phase(*ticket, Phase::Fresh, Phase::Started);
            }
        }
    }

    /// A command comes from one phase to another one.
    #[inline(always)]
    pub(crate) fn change_phase(&mut self, ticket: u64, from: Phase, to: Phase)
        ensures { self.new ≡ in_phase_if (is_in from) to ticket self.old }
    {
        if let Some(command) = self.tracked.find(ticket) {
            if command.phase == from {
                self.tracked.set_phase(command.place, to);
            }
        }
    }
}

/// Whether a command was told to its unit.
fn is_started(command: &Command) -> bool
    ensures { result ≡ is_started command.now }
{
    match command.phase {
        Phase::Started => true,
        Phase::Dormant | Phase::Fresh | Phase::Running | Phase::Gone => false,
    }
}

/// How far a command has come that was taken out.
fn phase_left(running: bool) -> Phase
    ensures { result ≡ (if running then Phase.Running else Phase.Gone) }
{
    if running { Phase::Running } else { Phase::Gone }
}
