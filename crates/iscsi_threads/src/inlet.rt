//! The loop's end of a connection's ring.

ghost use Rattle.std.specs.Prelude.{◌≡◌};
ghost use Rattle.rtrb.specs.Ring.{consumer_capacity};

use iscsi_session::Event;
use rtrb::Consumer;

/// The loop's end of a connection's ring of headers.
pub(crate) struct Inlet {
    pub(crate) headers: Consumer<[u8; 48]>,
    ghost places: { consumer_capacity headers ≡ 64 },
}

impl Drop for Inlet {
    fn drop(self) {
        let Inlet { headers: _headers } = self;
    }
}

impl Inlet {
    ghost use Rattle.std.specs.Prelude.{◌≡◌, ◌++◌, ◌∷◌, [], ℕ, List, IfSome, IfNone};
    ghost use Rattle.iscsi_rules.specs.declared.event.Event.TheVariants.{Arrive};
    ghost use Rattle.iscsi_threads.specs.rules.Outlets.{got, inlet_ring};

    /// Takes a header, and writes the event of its arrival on this connection. Whether the ring has more.
    pub(crate) fn hear(&mut self, conn: u16, event: &mut Event) -> Option<bool>
        ensures some { IfSome result (λ _. (x : List ℕ) × (event.new ≡ Arrive conn x)
            × (got self.new ≡ got self.old ++ x ∷ [])) }
        ensures none { IfNone result (got self.new ≡ got self.old) }
        ensures ring { inlet_ring self.new ≡ inlet_ring self.old }
    {
        if self.headers.is_empty() {
            return None;
        }
        let header = *self.headers.peek_known();
        *event = Event::Arrive { conn, header };
        self.headers.pop_known();
        Some(!self.headers.is_empty())
    }
}
