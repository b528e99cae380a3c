//! A loop with all of its ports, on one thread.

ghost use Rattle.std.specs.Prelude.{◌≡◌, map};
ghost use Rattle.iscsi_threads.specs.rules.Loops.{Belong};
ghost use Rattle.iscsi_threads.specs.rules.Ports.{port_ring, unit_rings};

use iscsi_session::{Effect, Options};
use iscsi_threads::{Job, Loop, LoopFault, Outcome, Port, PostFault, Turn, UnitPort, open};
use std::alloc::Global;

/// A loop with its ports and its unit ports.
pub(crate) struct Rig {
    core: Loop,
    ports: Vec<Port>,
    units: Vec<UnitPort>,
    ghost belong: { Belong core ports.items units.items },
}

impl Drop for Rig {
    fn drop(self) {
        let Rig {
            core: _core,
            ports: _ports,
            units: _units,
        } = self;
    }
}

impl Rig {
    pub(crate) fn open(alloc: Global, options: Options) -> Result<Rig, LoopFault> {
        let (core, ports, units) = open(alloc, options)?;
        Ok(Rig { core, ports, units })
    }

    /// Posts a header on a port. It comes back where the ring is full, or there is no such port.
    pub(crate) fn post(&mut self, place: usize, header: [u8; 48]) -> Result<(), PostFault> {
        post_at(&mut self.ports, place, header)
    }

    /// The next job of a unit.
    pub(crate) fn take(&mut self, unit: usize) -> Option<Job> {
        take_at(&mut self.units, unit)
    }

    /// Answers a job. It comes back where the ring is full, or there is no such unit.
    pub(crate) fn answer(&mut self, unit: usize, job: Job, status: u8) -> Result<(), Job> {
        answer_at(&mut self.units, unit, job, status)
    }

    pub(crate) fn turn(&mut self, out: &mut Vec<Effect>) -> Result<Turn, LoopFault> {
        self.core.turn(out)
    }

    /// The end. Where memory is refused, all of it comes back.
    pub(crate) fn finish(self) -> Result<Outcome, Rig> {
        let Rig { core, ports, units } = self;
        match core.finish(ports, units) {
            Ok(outcome) => Ok(outcome),
            Err(unfinished) => Err(Rig {
                core: unfinished.core,
                ports: unfinished.ports,
                units: unfinished.units,
            }),
        }
    }
}

// Posts a header on one of the ports.
fn post_at(ports: &mut Vec<Port>, place: usize, header: [u8; 48]) -> Result<(), PostFault>
    ensures { map port_ring ports.new.items ≡ map port_ring ports.old.items }
{
    if place >= ports.len() {
        return Err(PostFault::Full(header));
    }
    ports[place].post(header)
}

// Takes a job of one of the units.
fn take_at(units: &mut Vec<UnitPort>, unit: usize) -> Option<Job>
    ensures { map unit_rings units.new.items ≡ map unit_rings units.old.items }
{
    if unit >= units.len() {
        return None;
    }
    units[unit].take()
}

// Answers a job of one of the units.
fn answer_at(units: &mut Vec<UnitPort>, unit: usize, job: Job, status: u8) -> Result<(), Job>
    ensures { map unit_rings units.new.items ≡ map unit_rings units.old.items }
{
    if unit >= units.len() {
        return Err(job);
    }
    units[unit].answer(job, status)
}
