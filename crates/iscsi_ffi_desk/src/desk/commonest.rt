//! What the effects of the two commonest events make of the requests.

ghost use Rattle.std.specs.Prelude.{◌≡◌, ◌≢◌, ℕ, [], ◌∷◌, true};
ghost use Rattle.iscsi_wire.specs.declared.reply.Reply.{Reply};
ghost use Rattle.iscsi_rules.specs.declared.effect.Effect.TheVariants.{Deliver, Enable, Enter, Leave, Send};
ghost use Rattle.iscsi_ffi_steps.specs.Walk.{on_effects};
ghost use Rattle.iscsi_ffi_steps.specs.Steps.{walk_from};
ghost use Rattle.iscsi_ffi_desk.specs.Courses.{HasEntered};

use crate::course::Course;
use crate::desk::Desk;
use iscsi_tasks::Attr;
use iscsi_wire::Request;

impl Desk {
    /// A command completes, and its reply waits on this connection.
    #[inline(always)]
    pub(super) fn walk_completion(&mut self, own: Option<u32>, ticket: u64, cid: u16)
        ensures { (unit stat_sn : ℕ) (reply : Reply) → self.new ≡ (on_effects true (Leave ticket unit ∷ Send cid stat_sn reply ∷ []) (walk_from own self.old)).doing }
    {
        let mut course = Course::begin(own, self.outbox.sent());
        self.leave(ticket, &mut course);
        self.send(cid, &mut course);
        self.end_item(&mut course);
    }

    /// A request that was held executes, and enters a task set as a command; one is enabled by that. The place of the request; 0: it
    /// didn't enter.
    #[inline(always)]
    pub(super) fn walk_command(
        &mut self,
        own: Option<u32>,
        request: &Request,
        ticket: u64,
        unit: u16,
        attr: Attr,
    ) -> u32
        ensures walk { (enabled of : ℕ) → self.new ≡ (on_effects true (Deliver request.now ∷ Enter ticket unit attr ∷ Enable enabled of ∷ []) (walk_from own self.old)).doing }
        ensures entered { result ≢ 0 → HasEntered ticket result unit attr self.new }
    {
        let mut course = Course::begin(own, self.outbox.sent());
        self.deliver(request, &mut course);
        let place = self.enter(ticket, unit, attr, &mut course);
        self.end_item(&mut course);
        place
    }
}
