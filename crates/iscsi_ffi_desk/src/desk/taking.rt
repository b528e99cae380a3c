//! The effects of an event.

ghost use Rattle.std.specs.Prelude.{◌≡◌, ℕ, [], ◌∷◌};
ghost use Rattle.iscsi_tasks.specs.declared.task.Attr.{Attr};
ghost use Rattle.iscsi_rules.specs.declared.effect.Effect.TheVariants.{Deliver, Enable, Enter, Leave, Send};
ghost use Rattle.iscsi_outbox_steps.specs.Steps.{taken};
ghost use Rattle.iscsi_ffi_steps.specs.Steps.{takes};
ghost use Rattle.iscsi_ffi_desk.specs.Calls.{with_outbox};

use crate::desk::Desk;
use iscsi_rules::{Effect, Numbers};
use iscsi_wire::{Reply, Request};

impl Desk {
    /// Takes the effects of one event of the session, all of them, and its numbers. `own`: the place of the request that arrives in
    /// it, if it isn't held. Those of the two commonest events are taken straight, and those of any other one part by part.
    #[inline(always)]
    pub fn take(&mut self, own: Option<u32>, effects: &[Effect], numbers: Numbers)
        ensures { self.new ≡ takes own (record { numbers = numbers; effects = effects.now }) self.old }
    {
        if let [first, second] = effects
            && let Effect::Leave { ticket, .. } = first
            && let Effect::Send { conn, reply, .. } = second
        {
            self.walk_completion(own, *ticket, *conn);
            self.tell_left(*ticket, *conn, reply, numbers);
            self.sweep_conn(*conn);
            return;
        }
        if let [first, second, third] = effects
            && let Effect::Deliver { request } = first
            && let Effect::Enter { ticket, unit, attr } = second
            && let Effect::Enable {
                ticket: enabled,
                ..
            } = third
        {
            let place = self.walk_command(own, request, *ticket, *unit, *attr);
            self.tell_entered(request, *ticket, *unit, *enabled, numbers);
            self.start_behind(place, *ticket, *unit, *attr, *enabled);
            return;
        }
        self.take_any(own, effects, numbers);
    }

    /// Takes those of any event.
    #[inline(never)]
    fn take_any(&mut self, own: Option<u32>, effects: &[Effect], numbers: Numbers)
        ensures { self.new ≡ takes own (record { numbers = numbers; effects = effects.now }) self.old }
    {
        self.walk(effects, own);
        self.tell_outbox(effects, numbers);
        self.sweep(effects);
        self.tell_resets(effects);
        self.start_enabled(effects);
    }

    /// The outbox takes them.
    #[inline(always)]
    fn tell_outbox(&mut self, effects: &[Effect], numbers: Numbers)
        ensures { self.new ≡ with_outbox (taken effects.now numbers self.old.state.outbox) self.old }
    {
        self.outbox.take(effects, numbers);
    }

    /// It takes those of a command that completes.
    #[inline(always)]
    fn tell_left(&mut self, ticket: u64, cid: u16, reply: &Reply, numbers: Numbers)
        ensures { (unit stat_sn : ℕ) → self.new ≡ with_outbox (taken (Leave ticket unit ∷ Send cid stat_sn reply.now ∷ []) numbers self.old.state.outbox) self.old }
    {
        self.outbox.take_left(ticket, cid, reply, numbers);
    }

    /// It takes those of a command that enters.
    #[inline(always)]
    fn tell_entered(
        &mut self,
        request: &Request,
        ticket: u64,
        unit: u16,
        enabled: u64,
        numbers: Numbers,
    )
        ensures { (attr : Attr) (of : ℕ) → self.new ≡ with_outbox (taken (Deliver request.now ∷ Enter ticket unit attr ∷ Enable enabled of ∷ []) numbers self.old.state.outbox) self.old }
    {
        self.outbox
            .take_entered(request, ticket, unit, enabled, numbers);
    }
}
