//! Events that come one after another.

ghost use Rattle.std.specs.Prelude.{◌≡◌, [], ◌∷◌, List, true, false};
ghost use Rattle.iscsi_rules.specs.declared.event.Event.{Event};

use iscsi_rules::Event;

/// An event, before the first one comes.
pub const NO_EVENT: Event = Event::Done {
    ticket: 0,
    status: 0,
};

/// Where events come from, one after another.
pub trait EventSource {
    // The events that come from here on.
    ghost rest: { Self → List Event };

    /// Makes `event` the next one, and tells whether there was one. Where there was none, `event` stays as it was.
    ///
    /// It is written in place, since each move of an arrival costs.
    fn next(&mut self, event: &mut Event) -> bool
        ensures some { result ≡ true → rest self.old ≡ event.new ∷ rest self.new }
        ensures none { result ≡ false → (rest self.old ≡ []) × (event.new ≡ event.old) };
}

/// The events of a list, in their order.
#[derive(Drop)]
pub struct Listed<'a> {
    left: &'a [Event],
}

impl<'a> Listed<'a> {
    /// All of these events.
    pub fn new(events: &'a [Event]) -> Listed<'a>
        ensures { result.left.now ≡ events.now }
    {
        Listed { left: events }
    }
}

impl EventSource for Listed<'_> {
    ghost rest = { λ listed. listed.left.now };

    fn next(&mut self, event: &mut Event) -> bool {
        let Some((first, left)) = self.left.split_first() else {
            return false;
        };
        self.left = left;
        *event = *first;
        true
    }
}
