//! A loop and the ends of its rings.

ghost use Rattle.std.specs.Prelude.{◌≡◌, ◌≢◌, ◌<◌, ◌≤◌, [], replicate, map, vec_len, IfOk, Err, IfErr, true, false};
ghost use Rattle.iscsi_rules.specs.rules.Settings.{is_valid};
ghost use Rattle.iscsi_session.specs.promises.Settings.{setting_of};
ghost use Rattle.iscsi_threads.specs.rules.Ports.{posted, taken, answered, port_ring, unit_rings};
ghost use Rattle.iscsi_threads.specs.rules.Outlets.{given, heard, outlet_rings, got, inlet_ring};
ghost use Rattle.iscsi_threads.specs.rules.Loops.{Opened};

use crate::bell::{Bell, Bells, FIRST_UNIT};
use crate::desk::Desk;
use crate::ends::Watch;
use crate::fault::LoopFault;
use crate::inlet::Inlet;
use crate::outlet::Outlet;
use crate::port::{Port, UnitPort};
use crate::session_loop::Loop;
use iscsi_session::{Options, Session};
use rtrb::RingBuffer;
use std::alloc::{AllocError, Global};
use std::collections::VecDeque;
use std::sync::Arc;

/// The places of each ring.
pub(crate) const PLACES: usize = 64;

/// Opens a session with a loop round it, a port for each connection and a unit port for each unit, in their order.
///
/// `BadOptions` where an option is outside its limits or a CID stands twice, then `NoMemory`.
pub fn open(alloc: Global, options: Options) -> Result<(Loop, Vec<Port>, Vec<UnitPort>), LoopFault>
    ensures opened { IfOk result (λ r. Opened (setting_of options) r.0 r.1.items r.2.items) }
    ensures bad { is_valid (setting_of options) ≡ false → result ≡ Err LoopFault.BadOptions }
    ensures good { is_valid (setting_of options) ≡ true → IfErr result (λ fault. fault ≡ LoopFault.NoMemory) }
{
    if !options.is_valid() {
        return Err(LoopFault::BadOptions);
    }
    make(alloc, options).or(Err(LoopFault::NoMemory))
}

// The rings of so many connections.
fn make_inlets(
    alloc: Global,
    bells: &Arc<Bells, Global>,
    count: usize,
) -> Result<(Vec<Inlet>, Vec<Port>), AllocError>
    requires { count ≤ 64 }
    ensures rings { IfOk result (λ r. map port_ring r.1.items ≡ map inlet_ring r.0.items) }
    ensures got { IfOk result (λ r. map got r.0.items ≡ replicate count []) }
    ensures posted { IfOk result (λ r. map posted r.1.items ≡ replicate count []) }
    ensures lens { IfOk result (λ r. (vec_len r.0 ≡ count) × (vec_len r.1 ≡ count)) }
{
    let mut inlets = Vec::with_capacity(alloc, count)?;
    let mut ports = Vec::with_capacity(alloc, count)?;
    for place in 0..count {
        let (producer, consumer) = RingBuffer::new(alloc, PLACES)?;
        ports.push_reserved(Port {
            headers: producer,
            bell: Bell::new(Arc::try_clone(bells)?, place),
        });
        inlets.push_reserved(Inlet { headers: consumer });
    }
    Ok((inlets, ports))
}

// The rings of so many units.
fn make_outlets(
    alloc: Global,
    bells: &Arc<Bells, Global>,
    count: usize,
) -> Result<(Vec<Outlet>, Vec<UnitPort>), AllocError>
    requires { count ≤ 256 }
    ensures rings { IfOk result (λ r. map unit_rings r.1.items ≡ map outlet_rings r.0.items) }
    ensures given { IfOk result (λ r. map given r.0.items ≡ replicate count []) }
    ensures heard { IfOk result (λ r. map heard r.0.items ≡ replicate count []) }
    ensures taken { IfOk result (λ r. map taken r.1.items ≡ replicate count []) }
    ensures answered { IfOk result (λ r. map answered r.1.items ≡ replicate count []) }
    ensures lens { IfOk result (λ r. (vec_len r.0 ≡ count) × (vec_len r.1 ≡ count)) }
{
    let mut outlets = Vec::with_capacity(alloc, count)?;
    let mut ports = Vec::with_capacity(alloc, count)?;
    for unit in 0..count {
        let (jobs_in, jobs_out) = RingBuffer::new(alloc, PLACES)?;
        let (answers_in, answers_out) = RingBuffer::new(alloc, PLACES)?;
        ports.push_reserved(UnitPort {
            jobs: jobs_out,
            answers: answers_in,
            bell: Bell::new(Arc::try_clone(bells)?, FIRST_UNIT + unit),
        });
        outlets.push_reserved(Outlet {
            jobs: jobs_in,
            backlog: VecDeque::new(alloc),
            answers: answers_out,
        });
    }
    Ok((outlets, ports))
}

// A loop by valid options, its ports and its unit ports.
fn make(alloc: Global, options: Options) -> Result<(Loop, Vec<Port>, Vec<UnitPort>), AllocError>
    requires { is_valid (setting_of options) ≡ true }
    ensures { IfOk result (λ r. Opened (setting_of options) r.0 r.1.items r.2.items) }
{
    let bells = Arc::new(alloc, Bells::new())?;
    let (inlets, ports) = make_inlets(alloc, &bells, options.conns.len())?;
    let (outlets, units) = make_outlets(alloc, &bells, options.units as usize)?;
    let kept = options.copy(alloc)?;
    let Ok(session) = Session::open(alloc, options) else {
        return Err(AllocError);
    };
    let core = Loop {
        alloc,
        options: kept,
        session,
        inlets,
        outlets,
        desk: Desk {
            last: None,
            dormant: VecDeque::new(alloc),
        },
        fresh: VecDeque::new(alloc),
        journal: Vec::new(alloc),
        from: Vec::new(alloc),
        bells,
        watch: Watch::new(),
        next: 0,
    };
    Ok((core, ports, units))
}
