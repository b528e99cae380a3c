//! Events of the session.

ghost use Rattle.std.specs.Prelude.{◌≡◌, ◌+◌, ◌<◌, true, length};
ghost use Rattle.iscsi_rules.specs.rules.Agenda.{belongs};
ghost use Rattle.iscsi_ffi_rules.specs.rules.Calls.{Interface};
ghost use Rattle.iscsi_ffi_steps.specs.Steps.{Going, happening, happens, withholding};
ghost use Rattle.iscsi_ffi.specs.Standing.{Begun};

use crate::side::Side;
use iscsi_rules::Event;

impl Side {
    /// An event happens, and then what is withheld is completed. `own`: the place of the request that arrives in it, if it isn't held.
    #[inline(always)]
    pub(super) fn happen(&mut self, own: Option<u32>, event: &Event)
        ensures { (i : Interface) (g : Going) → Begun i self.old g → belongs i.outbox.session event.now ≡ true → Begun i self.new (happens i own event.now g) }
    {
        self.take_event(own, event);
        self.complete_withheld();
    }

    /// An event happens: the session takes it, and what comes of it is noted.
    #[inline(always)]
    fn take_event(&mut self, own: Option<u32>, event: &Event)
        ensures { (i : Interface) (g : Going) → Begun i self.old g → belongs i.outbox.session event.now ≡ true → Begun i self.new (happening i own event.now g) }
    {
        if let Ok(()) = self.host.step(event) {
            self.taken = following(self.taken, self.events);
            self.desk
                .take(own, self.host.effects(), self.host.event_numbers());
        }
    }

    /// The commands that never start are completed, the oldest first, with those that are withheld by that.
    #[inline(always)]
    pub(super) fn complete_withheld(&mut self)
        ensures { (i : Interface) (g : Going) → Begun i self.old g → Begun i self.new (withholding i (length g.doing.state.commands.items) g) }
    {
        if self.desk.is_none_withheld() {
            return;
        }
        self.complete_each();
    }

    /// Each of them is.
    #[inline(never)]
    fn complete_each(&mut self)
        ensures { (i : Interface) (g : Going) → Begun i self.old g → Begun i self.new (withholding i (length g.doing.state.commands.items) g) }
    {
        for _done in 0..self.desk.commands() {
            let Some((ticket, status)) = self.desk.take_withheld() else {
                return;
            };
            self.take_event(None, &Event::Done { ticket, status });
        }
    }
}

/// How many events there were, one later. There are no more than may be.
#[inline(always)]
pub(super) fn following(taken: u64, events: u64) -> u64
    ensures { taken < events → result ≡ taken + 1 }
{
    if taken < events { taken + 1 } else { taken }
}
