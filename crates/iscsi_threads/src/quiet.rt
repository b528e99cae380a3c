//! Whether all was taken and all was answered.

ghost use Rattle.std.specs.Prelude.{◌≡◌, ◌<◌, IsTrue, map, vec_len};
ghost use Rattle.iscsi_threads.specs.rules.Ports.{posted, port_ring};
ghost use Rattle.iscsi_threads.specs.rules.Outlets.{got, inlet_ring};

use crate::inlet::Inlet;
use crate::port::Port;
use crate::session_loop::Loop;

impl Inlet {
    // Whether every header that was posted on the port of this ring was taken.
    fn is_empty(&mut self, port: &mut Port) -> bool
        requires { port_ring port.old ≡ inlet_ring self.old }
        ensures got { got self.new ≡ got self.old }
        ensures posted { posted port.new ≡ posted port.old }
        ensures rings { (inlet_ring self.new ≡ inlet_ring self.old) × (port_ring port.new ≡ port_ring port.old) }
        ensures empty { IsTrue result → posted port.new ≡ got self.new }
    {
        self.headers.slots_beside(&mut port.headers) == 0
    }
}

// Whether every header that was posted on one port was taken.
fn is_empty_at(inlets: &mut Vec<Inlet>, ports: &mut Vec<Port>, at: usize) -> bool
    requires at { (at < vec_len ports.old) × (at < vec_len inlets.old) }
    requires pairs { map port_ring ports.old.items ≡ map inlet_ring inlets.old.items }
    ensures got { map got inlets.new.items ≡ map got inlets.old.items }
    ensures posted { map posted ports.new.items ≡ map posted ports.old.items }
    ensures rings { (map inlet_ring inlets.new.items ≡ map inlet_ring inlets.old.items)
        × (map port_ring ports.new.items ≡ map port_ring ports.old.items) }
    ensures len { (vec_len inlets.new ≡ vec_len inlets.old) × (vec_len ports.new ≡ vec_len ports.old) }
    ensures empty { (p : Port) (i : Inlet) → IsTrue result →
        posted (slice_index_or ports.old.items at p) ≡ got (slice_index_or inlets.old.items at i) }
{
    inlets[at].is_empty(&mut ports[at])
}

ghost use Rattle.std.specs.Prelude.{slice_index_or};
ghost use Rattle.iscsi_threads.specs.declared.port.Port.{Port};
ghost use Rattle.iscsi_threads.specs.declared.inlet.Inlet.{Inlet};

// Whether every header that was posted was taken.
fn are_empty(inlets: &mut Vec<Inlet>, ports: &mut Vec<Port>) -> bool
    requires { map port_ring ports.old.items ≡ map inlet_ring inlets.old.items }
    ensures got { map got inlets.new.items ≡ map got inlets.old.items }
    ensures posted { map posted ports.new.items ≡ map posted ports.old.items }
    ensures rings { (map inlet_ring inlets.new.items ≡ map inlet_ring inlets.old.items)
        × (map port_ring ports.new.items ≡ map port_ring ports.old.items) }
    ensures len { vec_len inlets.new ≡ vec_len inlets.old }
    ensures empty { IsTrue result → map posted ports.new.items ≡ map got inlets.new.items }
{
    for place in 0..ports.len() {
        if !is_empty_at(inlets, ports, place) {
            return false;
        }
    }
    true
}

impl Loop {
    ghost use Rattle.std.specs.Prelude.{◌≡◌, IsTrue, map};
    ghost use Rattle.iscsi_threads.specs.rules.Loops.{SameLoop, journal, sources};
    ghost use Rattle.iscsi_threads.specs.promises.Serving.{IsQuiet};

    /// Whether every header that was posted was taken, and no command is live.
    pub(crate) fn is_quiet(&mut self, ports: &mut Vec<Port>) -> bool
        requires { map port_ring ports.old.items ≡ map inlet_ring self.old.inlets.items }
        ensures same { SameLoop self.old self.new }
        ensures journal { (journal self.new ≡ journal self.old) × (sources self.new ≡ sources self.old) }
        ensures rings { map port_ring ports.new.items ≡ map port_ring ports.old.items }
        ensures posted { map posted ports.new.items ≡ map posted ports.old.items }
        ensures quiet { IsTrue result → IsQuiet self.new ports.new.items }
    {
        self.session.live_len() == 0 && are_empty(&mut self.inlets, ports)
    }
}
