//! The workers of the units.

ghost use Rattle.std.specs.Prelude.{◌≡◌, ◌≤◌, ◌<◌, ◌++◌, ◌∷◌, [], ℕ, IfErr, IsTrue, OnOk, length, vec_len, vec_capacity, slice_index_or, false};
ghost use Rattle.iscsi_threads.specs.rules.Ports.{taken, answered, unit_rings};
ghost use Rattle.iscsi_threads.specs.rules.Works.{InTurn, AllAnswered};
ghost use Rattle.iscsi_threads.specs.private.Promises.{AllWorks, AllWorkedOn};

use crate::halt::ThreadLost;
use crate::job::Job;
use crate::port::UnitPort;
use crate::shared::Shared;
use crate::waiter::Rest;
use std::snapshot::Snapshot;
use std::sync::Wait;
use std::thread::{Promise, PromisedHandle, Scope, Threads};

/// What the units do. The workers of all units share it.
pub trait UnitWork {
    /// Executes the command of this ticket on the unit, and answers its status (SAM-5). The other units go on
    /// meanwhile. A call that never returns keeps `serve` from ending.
    fn status(&self, unit: u16, ticket: u64) -> u8;
}

/// What a worker gives back: its unit port, whose jobs it answered in turn.
pub(crate) struct Works {
    pub(crate) port: Snapshot<UnitPort>,
}

impl Drop for Works {
    fn drop(self) {
        let Works { port: _port } = self;
    }
}

impl Promise<UnitPort> for Works {
    ghost kept_by = { λ p r. (unit_rings r ≡ unit_rings p.port.value) × InTurn r };
}

/// Starts a worker for each unit port.
pub(crate) fn start_works<'s, E, R: Wait + Sync, W: UnitWork + Sync>(
    rt: &'s R,
    scope: &Scope<'s, E>,
    ports: Vec<UnitPort>,
    work: &'s W,
    shared: &'s Shared,
    handles: &mut Vec<PromisedHandle<UnitPort, Works>>,
) -> Result<(), ThreadLost>
    requires few { vec_len ports ≤ 256 }
    requires fresh { (i : ℕ) (d : _) → i < vec_len ports → AllAnswered (slice_index_or ports.items i d) }
    requires room { (handles.old.items ≡ []) × (vec_len ports ≤ vec_capacity handles.old) }
    ensures works { OnOk result ((vec_len handles.new ≡ vec_len ports)
        × AllWorks handles.new.items ports.items (vec_len ports)) }
    ensures refused { IfErr result (λ lost. lost ≡ ThreadLost.Refused) }
{
    let mut unit: u16 = 0;
    for port in ports {
        let promise = Works {
            port: Snapshot::of(&port),
        };
        let started = scope.spawn_with(
            promise,
            move || -> UnitPort
                requires { AllAnswered port }
            { work_all(rt, port, unit, work, shared) },
        );
        let Ok(handle) = started else {
            return Err(ThreadLost::Refused);
        };
        let Ok(()) = handles.push(handle) else {
            unreachable!()
        };
        unit += 1;
    }
    Ok(())
}

/// Joins the workers, and gives their unit ports back in order.
pub(crate) fn join_works<R: Threads>(
    rt: &R,
    handles: Vec<PromisedHandle<UnitPort, Works>>,
    room: Vec<UnitPort>,
) -> Vec<UnitPort>
    requires room { (room.items ≡ []) × (vec_len handles ≤ vec_capacity room) }
    ensures { (vec_len result ≡ vec_len handles) × AllWorkedOn handles.items result.items (vec_len handles) }
{
    let mut ports = room;
    for handle in handles {
        let port = handle.join(rt);
        let Ok(()) = ports.push(port) else {
            unreachable!()
        };
    }
    ports
}

// Takes jobs and answers them, in order, until it is told to stop.
fn work_all<R: Wait, W: UnitWork>(
    rt: &R,
    port: UnitPort,
    unit: u16,
    work: &W,
    shared: &Shared,
) -> UnitPort
    requires { AllAnswered port }
    ensures rings { unit_rings result ≡ unit_rings port }
    ensures order { InTurn result }
{
    let mut port = port;
    let Some(waiter) = shared.workers.get(usize::from(unit)) else {
        return port;
    };
    let mut rest = Rest::new(waiter);
    for _ in rt.forever() {
        let Some(job) = port.take() else {
            if shared.is_stopped() {
                return port;
            }
            rest.pause(rt);
            continue;
        };
        rest.work();
        let status = work.status(unit, job.ticket());
        if !answer_one(rt, &mut port, job, status, shared) {
            return port;
        }
    }
    unreachable!()
}

// Answers one job once there is room. Not so where it is told to stop.
fn answer_one<R: Wait>(rt: &R, port: &mut UnitPort, job: Job, status: u8, shared: &Shared) -> bool
    ensures rings { unit_rings port.new ≡ unit_rings port.old }
    ensures taken { taken port.new ≡ taken port.old }
    ensures done { IsTrue result → answered port.new ≡ answered port.old ++ (job.ticket, status) ∷ [] }
    ensures stopped { result ≡ false → answered port.new ≡ answered port.old }
{
    let Some(waiter) = shared.workers.get(usize::from(job.unit)) else {
        return false;
    };
    let mut rest = Rest::new(waiter);
    let mut job = job;
    for _ in rt.forever() {
        let Err(back) = port.answer(job, status) else {
            rest.work();
            shared.hub.wake();
            return true;
        };
        job = back;
        if shared.is_stopped() {
            return false;
        }
        rest.pause(rt);
    }
    unreachable!()
}
