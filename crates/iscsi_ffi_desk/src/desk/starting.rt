//! What starts, and which resets other sessions' commands wait for.

ghost use Rattle.std.specs.Prelude.{◌≡◌, ◌≢◌, ◌≤◌, [], ◌∷◌, ◌++◌, drop, filter_map, length, take, Some};
ghost use Rattle.iscsi_rules.specs.rules.Execution.{unit_named};
ghost use Rattle.iscsi_outbox_rules.specs.rules.Items.{ticket_enabled};
ghost use Rattle.iscsi_ffi_commands.specs.Commands.{find_ticket, is_clearing};
ghost use Rattle.iscsi_ffi_steps.specs.State.{inserted, is_withheld, withhold};
ghost use Rattle.iscsi_ffi_steps.specs.Steps.{reset_in, resets_in, start, start_each};
ghost use Rattle.iscsi_ffi_steps.specs.Walk.{tell_all};
ghost use Rattle.iscsi_ffi_desk.specs.Courses.{HasEntered};

use crate::desk::Desk;
use crate::desk::walking::is_marked;
use crate::items::{executing, is_request, is_reset_done};
use iscsi_ffi_commands::{Command, Stage};
use iscsi_ffi_rules::Action;
use iscsi_rules::Effect;
use iscsi_tasks::Attr;
use iscsi_wire::{Request, unit_of};

impl Desk {
    /// Tells the resets that other sessions' commands wait for, item by item.
    #[inline(never)]
    pub(super) fn tell_resets(&mut self, effects: &[Effect])
        ensures { self.new ≡ tell_all (resets_in self.old.state effects.now) self.old }
    {
        if !self.outbox.is_shared() {
            return;
        }
        let mut from = 0;
        for (at, effect) in effects.iter().enumerate() {
            if is_request(effect) {
                self.tell_reset(&effects[from..at]);
                from = at;
            }
        }
        self.tell_reset(&effects[from..]);
    }

    /// Tells that of an item, if it has one.
    fn tell_reset(&mut self, item: &[Effect])
        ensures { self.new ≡ tell_all (reset_in self.old.state.outbox.limits.units item.now) self.old }
    {
        let Some(request) = executing(item) else {
            return;
        };
        if !is_reset_done(&request, item) {
            return;
        }
        if let Some(unit) = self.unit_named(&request) {
            self.tell(Action::Reset {
                unit,
                function: request.function(),
            });
        }
    }

    /// The unit of the session that a request names.
    fn unit_named(&self, request: &Request) -> Option<u16>
        ensures { result ≡ unit_named self.now.state.outbox.limits.units request.now }
    {
        let unit = unit_of(&request.lun())?;
        if u32::from(unit) < self.outbox.units() {
            Some(unit)
        } else {
            None
        }
    }

    /// The commands that an event enabled, and that are live at its end, start, or are to be completed.
    pub(super) fn start_enabled(&mut self, effects: &[Effect])
        ensures { self.new ≡ start_each (filter_map ticket_enabled effects.now) self.old }
    {
        for effect in effects {
            if let Effect::Enable { ticket, .. } = effect {
                self.start_ticket(*ticket);
            }
        }
    }

    /// One does behind a command that entered: mostly it is that one, which is known by the place of its request. 0: none entered.
    #[inline(always)]
    pub(super) fn start_behind(
        &mut self,
        request: u32,
        ticket: u64,
        unit: u16,
        attr: Attr,
        enabled: u64,
    )
        requires { request ≢ 0 → HasEntered ticket request unit attr self.old }
        ensures { self.new ≡ start_each (enabled ∷ []) self.old }
    {
        if request == 0 || enabled != ticket {
            return self.start_another(enabled);
        }
        let command = Command {
            ticket,
            request,
            unit,
            attr,
            stage: Stage::Entered,
        };
        self.start(ticket, &command);
    }

    /// Another one does.
    #[inline(never)]
    fn start_another(&mut self, ticket: u64)
        ensures { self.new ≡ start_each (ticket ∷ []) self.old }
    {
        self.start_ticket(ticket);
    }

    /// One of them does.
    #[inline(always)]
    fn start_ticket(&mut self, ticket: u64)
        ensures { self.new ≡ start_each (ticket ∷ []) self.old }
    {
        match self.commands.find(ticket) {
            Some(command) if command.stage != Stage::Over => self.start(ticket, &command),
            _ => {}
        }
    }

    /// A command that was enabled starts, or is to be completed.
    #[inline(always)]
    fn start(&mut self, ticket: u64, command: &Command)
        requires { find_ticket ticket self.old.state.commands ≡ Some command.now }
        ensures { self.new ≡ start command.now self.old }
    {
        if self.is_withheld(command) {
            self.withhold(command.ticket);
            return;
        }
        let cookie = self.cookie(command.request);
        self.advance(ticket, command, Stage::Started);
        self.tell(Action::Start {
            ticket: command.ticket,
            unit: command.unit,
            attr: command.attr,
            cookie,
        });
    }

    /// Whether a command isn't told to start as it is enabled: another session's reset takes it out, or it is a HEAD OF QUEUE
    /// command that would bar those.
    #[inline(always)]
    fn is_withheld(&self, command: &Command) -> bool
        ensures { result ≡ is_withheld self.now.state command.now }
    {
        is_marked(command) || (command.attr == Attr::Head && self.is_clearing(command.unit))
    }

    /// Whether a command of this unit is left that another session's reset takes out.
    #[inline(never)]
    fn is_clearing(&self, unit: u16) -> bool
        ensures { result ≡ is_clearing unit self.now.state.commands }
    {
        self.commands.known();
        u32::from(unit) < self.outbox.units() && self.commands.is_clearing(unit)
    }

    /// A command is to be completed, and never starts.
    #[inline(never)]
    fn withhold(&mut self, ticket: u64)
        ensures { self.new ≡ record { state = withhold ticket self.old.state; actions = self.old.actions; forgets = self.old.forgets } }
    {
        if self.withheld.len() < self.room {
            let at = place_among(&self.withheld, ticket);
            let _ = self.withheld.insert(at, ticket);
        }
    }
}

/// Where a ticket comes among others that go up.
fn place_among(tickets: &[u64], ticket: u64) -> usize
    ensures at { take result tickets.now ++ ticket ∷ drop result tickets.now ≡ inserted ticket tickets.now }
    ensures within { result ≤ length tickets.now }
{
    tickets
        .iter()
        .position(|other| ticket < *other)
        .unwrap_or(tickets.len())
}
