//! The effects of an event.

ghost use Rattle.std.specs.Prelude.{◌≡◌};
ghost use Rattle.iscsi_rules.specs.promises.Order.{in_parts};
ghost use Rattle.iscsi_outbox.specs.promises.Called.{FollowsRules};
ghost use Rattle.iscsi_outbox_steps.specs.Run.{Silent};
ghost use Rattle.iscsi_outbox_rules.specs.rules.Calls.{Takes};
ghost use Rattle.iscsi_outbox_steps.specs.Steps.{after_item, after_items, taken};
ghost use Rattle.iscsi_outbox.specs.private.Walks.{after_event, numbered_by};

use crate::items::{executing, first_reply, is_request};
use crate::lifted::lifted;
use crate::outbox::Outbox;
use iscsi_rules::{Effect, Numbers};

/// So far numbers that don't wrap are told: below 2^63.
const END: u64 = 1 << 63;

impl Outbox {
    /// Takes the effects of one event of the session, all of them, and its numbers. Where the outbox has no place for a reply
    /// that is sent, or a command that enters, this is passed over; so it never comes to that as long as requests are taken
    /// while `may_take` alone.
    #[inline(always)]
    pub fn take(&mut self, effects: &[Effect], numbers: Numbers)
        ensures state { self.new ≡ taken effects.now numbers self.old }
        ensures rules { FollowsRules self.old (Takes effects.now numbers) Silent self.new }
    {
        self.take_event(effects);
        self.number(numbers);
    }

    /// Takes the effects of an event: of the two commonest ones straight, and of any other one item by item.
    #[inline(always)]
    fn take_event(&mut self, effects: &[Effect])
        ensures { self.new ≡ after_event effects.now self.old }
    {
        if let [first, second] = effects
            && let Effect::Leave { ticket, .. } = first
            && let Effect::Send { conn, reply, .. } = second
        {
            return self.take_completion(*ticket, *conn, reply);
        }
        if let [first, second, third] = effects
            && let Effect::Deliver { request } = first
            && let Effect::Enter { ticket, unit, .. } = second
            && let Effect::Enable {
                ticket: enabled,
                ..
            } = third
        {
            return self.take_command(request, *ticket, *unit, *enabled);
        }
        self.take_any(effects);
    }

    /// Takes the effects of any event.
    #[inline(never)]
    fn take_any(&mut self, effects: &[Effect])
        ensures { self.new ≡ after_event effects.now self.old }
    {
        self.take_items(effects);
        self.tell(effects);
    }

    /// Takes the items of an event: each but the first begins with a request.
    fn take_items(&mut self, effects: &[Effect])
        ensures { self.new ≡ after_items (in_parts effects.now) self.old }
    {
        let mut from = 0;
        for (at, effect) in effects.iter().enumerate() {
            if is_request(effect) {
                self.take_item(&effects[from..at]);
                from = at;
            }
        }
        self.take_item(&effects[from..]);
    }

    /// Takes an item: one without effects is in front of an event that begins with a request.
    #[inline(always)]
    fn take_item(&mut self, item: &[Effect])
        ensures { self.new ≡ after_item item.now self.old }
    {
        if item.is_empty() {
            self.settle();
        } else {
            self.take_effects(item);
        }
    }

    /// Takes the effects of an item.
    fn take_effects(&mut self, item: &[Effect])
        ensures { self.new ≡ after_item item.now self.old }
    {
        let request = executing(item);
        let numbered = self.is_numbered(request, item);
        let sent = first_reply(item);
        let ends = self.ends(item, sent);
        self.leave(request, item);
        self.enter_commands(request, item);
        self.close(request, item);
        self.send(request, item, numbered, ends, sent);
        self.enable(item);
        self.settle();
    }

    /// The numbers of an event are those of all that goes out from now on.
    #[inline(always)]
    pub(crate) fn number(&mut self, numbers: Numbers)
        ensures { self.new ≡ numbered_by numbers self.old }
    {
        self.exp = numbers.exp;
        let max = lifted(self.max, numbers.max);
        if max < END {
            self.max = max;
        }
    }
}
