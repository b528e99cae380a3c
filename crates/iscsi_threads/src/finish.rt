//! The end of a loop: its rings are emptied, and what went through them is handed out.

ghost use Rattle.std.specs.Prelude.{◌≡◌, ◌+◌, ◌≤◌, ◌++◌, [], ℕ, length, map, vec_len, vec_capacity, IfOk};
ghost use Rattle.std.specs.VecDeque.{deque_len};
ghost use mathlib.Core.List.{IsPrefix};
ghost use Rattle.rtrb.specs.Ring.{sent, received, producer_capacity, consumer_capacity, IsPair};
ghost use Rattle.iscsi_threads.specs.rules.Ports.{port_ring, taken, answered, unit_rings};
ghost use Rattle.iscsi_threads.specs.rules.Outlets.{inlet_ring, given, heard, outlet_rings};
ghost use Rattle.iscsi_threads.specs.promises.Outcomes.{ticket_of};
ghost use Rattle.iscsi_threads.specs.private.Finishing.{AllReady, AllReadyFor, HeadersLeft, UnitsLeft, HaveRoom, Noted};

use crate::fault::LoopFault;
use crate::inlet::Inlet;
use crate::job::{Answer, Job};
use crate::opening::PLACES;
use crate::outlet::Outlet;
use crate::port::{Port, UnitPort};
use crate::session_loop::Loop;
use iscsi_session::{Event, Log, run};
use rtrb::{Consumer, Producer};
use std::alloc::{AllocError, Global};
use std::collections::VecDeque;

/// What went through the rings of a loop.
#[derive(Drop)]
pub struct Ended {
    /// The events that the loop took, oldest first.
    pub journal: Vec<Event>,
    /// For each event the place, from 0, of the port or the unit port that it came from.
    pub from: Vec<u16>,
    /// For each port the headers that were posted and not taken, oldest first.
    pub left: Vec<Vec<[u8; 48]>>,
    /// For each unit the tickets of its jobs that weren't taken, oldest first.
    pub untaken: Vec<Vec<u64>>,
    /// For each unit the answers that weren't taken, oldest first: ticket and status.
    pub unread: Vec<Vec<(u64, u8)>>,
}

/// What a session came to: its journal with its log, and what was left in the rings.
#[derive(Drop)]
pub struct Outcome {
    /// The events that the loop took, oldest first.
    pub journal: Vec<Event>,
    /// For each event the place, from 0, of the port or the unit port that it came from.
    pub from: Vec<u16>,
    /// The log of the journal: for each event its effects, and the numbers after it.
    pub log: Log,
    /// For each port the headers that were posted and not taken, oldest first.
    pub left: Vec<Vec<[u8; 48]>>,
    /// For each unit the tickets of its jobs that weren't taken, oldest first.
    pub untaken: Vec<Vec<u64>>,
    /// For each unit the answers that weren't taken, oldest first: ticket and status.
    pub unread: Vec<Vec<(u64, u8)>>,
}

/// An end that was refused for want of memory. Everything comes back as it was.
#[derive(Drop)]
pub struct Unfinished {
    /// Why: `NoMemory`.
    pub fault: LoopFault,
    /// The loop.
    pub core: Loop,
    /// Its ports, in their order.
    pub ports: Vec<Port>,
    /// Its unit ports, in their order.
    pub units: Vec<UnitPort>,
}

// Lists for what is left in the rings, with room for all of it.
#[derive(Drop)]
pub(crate) struct Rooms {
    pub(crate) left: Vec<Vec<[u8; 48]>>,
    pub(crate) untaken: Vec<Vec<u64>>,
    pub(crate) unread: Vec<Vec<Answer>>,
}

// Room for what a ring may have, for each of so many rings.
fn make_rooms<T: Drop>(alloc: Global, rings: usize) -> Result<Vec<Vec<T>>, AllocError>
    ensures { IfOk result (λ rooms. (vec_len rooms ≡ rings) × AllReady rooms.items) }
{
    let mut rooms = Vec::with_capacity(alloc, rings)?;
    for _ in 0..rings {
        let room = Vec::with_capacity(alloc, PLACES)?;
        rooms.push_reserved(room);
    }
    Ok(rooms)
}

// Room for the jobs of each unit: those in its ring, its backlog, and so many fresh ones.
fn make_job_rooms(
    alloc: Global,
    outlets: &[Outlet],
    fresh: usize,
) -> Result<Vec<Vec<u64>>, AllocError>
    ensures { IfOk result (λ rooms. (vec_len rooms ≡ length outlets.now)
        × AllReadyFor outlets.now fresh rooms.items (length outlets.now)) }
{
    let beside = fresh.checked_add(PLACES).ok_or(AllocError)?;
    let mut rooms = Vec::with_capacity(alloc, outlets.len())?;
    for outlet in outlets {
        let count = outlet.backlog.len().checked_add(beside).ok_or(AllocError)?;
        let room = Vec::with_capacity(alloc, count)?;
        rooms.push_reserved(room);
    }
    Ok(rooms)
}

// Moves what a ring has into `rest`.
fn drain_ring<T: Drop>(consumer: &mut Consumer<T>, producer: &mut Producer<T>, rest: &mut Vec<T>)
    requires pair { IsPair producer.old consumer.old }
    requires room { (rest.old.items ≡ []) × (consumer_capacity consumer.old ≤ vec_capacity rest.old) }
    ensures rest { sent producer.old ≡ received consumer.old ++ rest.new.items }
    ensures places { (consumer_capacity consumer.new ≡ consumer_capacity consumer.old)
        × (producer_capacity producer.new ≡ producer_capacity producer.old) }
{
    let count = consumer.slots_beside(producer);
    for _ in 0..count {
        rest.push_reserved(consumer.pop_known());
    }
}

// Moves the tickets of the jobs that a ring has into `untaken`.
fn drain_jobs(consumer: &mut Consumer<Job>, producer: &mut Producer<Job>, untaken: &mut Vec<u64>)
    requires pair { IsPair producer.old consumer.old }
    requires room { (untaken.old.items ≡ []) × (consumer_capacity consumer.old ≤ vec_capacity untaken.old) }
    ensures taken { IsPrefix (received consumer.old) (sent producer.old) }
    ensures untaken { map ticket_of (sent producer.old) ≡ map ticket_of (received consumer.old) ++ untaken.new.items }
    ensures few { (vec_len untaken.new ≤ consumer_capacity consumer.old)
        × (vec_capacity untaken.new ≡ vec_capacity untaken.old) }
    ensures places { consumer_capacity consumer.new ≡ consumer_capacity consumer.old }
{
    let waiting = consumer.slots_beside(producer);
    for _ in 0..waiting {
        untaken.push_reserved(consumer.pop_known().ticket);
    }
}

// Moves the tickets of a backlog behind the others.
fn drain_backlog(backlog: &mut VecDeque<Job>, untaken: &mut Vec<u64>)
    requires { vec_len untaken.old + deque_len backlog.old ≤ vec_capacity untaken.old }
    ensures untaken { untaken.new.items ≡ untaken.old.items ++ map ticket_of backlog.old.items }
    ensures few { (vec_len untaken.new ≡ vec_len untaken.old + deque_len backlog.old)
        × (vec_capacity untaken.new ≡ vec_capacity untaken.old) }
{
    for _ in 0..backlog.len() {
        let Some(job) = backlog.pop_front() else {
            unreachable!()
        };
        untaken.push_reserved(job.ticket);
    }
}

// Empties a unit's rings and its backlog.
fn drain_outlet(
    outlet: &mut Outlet,
    port: &mut UnitPort,
    untaken: &mut Vec<u64>,
    unread: &mut Vec<Answer>,
)
    requires pair { unit_rings port.old ≡ outlet_rings outlet.old }
    requires jobs { (untaken.old.items ≡ []) × (64 + deque_len outlet.old.backlog ≤ vec_capacity untaken.old) }
    requires answers { (unread.old.items ≡ []) × (64 ≤ vec_capacity unread.old) }
    ensures taken { IsPrefix (taken port.old) (given outlet.old) }
    ensures untaken { map ticket_of (given outlet.old) ≡ map ticket_of (taken port.old) ++ untaken.new.items }
    ensures few { (vec_len untaken.new ≤ 64 + deque_len outlet.old.backlog)
        × (vec_capacity untaken.new ≡ vec_capacity untaken.old) }
    ensures unread { answered port.old ≡ heard outlet.old ++ unread.new.items }
{
    drain_jobs(&mut port.jobs, &mut outlet.jobs, untaken);
    drain_backlog(&mut outlet.backlog, untaken);
    drain_ring(&mut outlet.answers, &mut port.answers, unread);
}

// Empties each ring of headers.
pub(crate) fn drain_inlets(
    inlets: &mut Vec<Inlet>,
    ports: &mut Vec<Port>,
    left: &mut Vec<Vec<[u8; 48]>>,
)
    requires pairs { map port_ring ports.old.items ≡ map inlet_ring inlets.old.items }
    requires room { (vec_len left.old ≡ vec_len ports.old) × (vec_len inlets.old ≡ vec_len ports.old)
        × AllReady left.old.items }
    ensures left { HeadersLeft ports.old.items inlets.old.items left.new.items (vec_len ports.old) }
    ensures len { vec_len left.new ≡ vec_len left.old }
{
    for i in 0..ports.len() {
        drain_ring(&mut inlets[i].headers, &mut ports[i].headers, &mut left[i]);
    }
}

// Empties each unit's rings and backlog.
pub(crate) fn drain_outlets(
    outlets: &mut Vec<Outlet>,
    units: &mut Vec<UnitPort>,
    untaken: &mut Vec<Vec<u64>>,
    unread: &mut Vec<Vec<Answer>>,
)
    requires pairs { map unit_rings units.old.items ≡ map outlet_rings outlets.old.items }
    requires lens { (vec_len outlets.old ≡ vec_len units.old) × (vec_len untaken.old ≡ vec_len units.old)
        × (vec_len unread.old ≡ vec_len units.old) }
    requires room { AllReadyFor outlets.old.items 0 untaken.old.items (vec_len units.old) × AllReady unread.old.items }
    ensures left { UnitsLeft units.old.items outlets.old.items untaken.old.items untaken.new.items unread.new.items
        (vec_len units.old) }
    ensures len { (vec_len untaken.new ≡ vec_len untaken.old) × (vec_len unread.new ≡ vec_len unread.old) }
{
    for i in 0..units.len() {
        drain_outlet(
            &mut outlets[i],
            &mut units[i],
            &mut untaken[i],
            &mut unread[i],
        );
    }
}

// Moves the ticket of each fresh job behind the others of its unit. A job of a unit that isn't there is dropped.
pub(crate) fn drain_fresh(fresh: &mut VecDeque<Job>, untaken: &mut Vec<Vec<u64>>)
    requires { HaveRoom (deque_len fresh.old) untaken.old.items }
    ensures noted { Noted fresh.old.items untaken.old.items untaken.new.items }
    ensures len { vec_len untaken.new ≡ vec_len untaken.old }
{
    for _ in 0..fresh.len() {
        let Some(job) = fresh.pop_front() else {
            unreachable!()
        };
        let unit = usize::from(job.unit);
        if unit < untaken.len() {
            untaken[unit].push_reserved(job.ticket);
        }
    }
}

// A refusal, with all that was given.
fn hand_back(core: Loop, ports: Vec<Port>, units: Vec<UnitPort>) -> Unfinished
    ensures fault { result.fault ≡ LoopFault.NoMemory }
    ensures given { (result.core ≡ core) × (result.ports ≡ ports) × (result.units ≡ units) }
{
    Unfinished {
        fault: LoopFault::NoMemory,
        core,
        ports,
        units,
    }
}

impl Loop {
    ghost use Rattle.std.specs.Prelude.{◌≡◌, IfOk, IfErr};
    ghost use Rattle.iscsi_rules.specs.rules.Run.{run_of};
    ghost use Rattle.iscsi_rules.specs.promises.Promises.{KeepsPromises};
    ghost use Rattle.iscsi_threads.specs.declared.fault.LoopFault.{LoopFault};
    ghost use Rattle.iscsi_threads.specs.rules.Loops.{Belong, journal, setting};
    ghost use Rattle.iscsi_threads.specs.promises.Outcomes.{EndedAs, Finished};
    ghost use Rattle.iscsi_threads.specs.private.Finishing.{FitsAll};

    /// Empties all rings, and hands out the journal, its log and what was left. The ports and unit ports must be those
    /// that `open` gave with this loop, all of them, in their order.
    ///
    /// `NoMemory` where memory is refused: everything comes back as it was.
    pub fn finish(self, ports: Vec<Port>, units: Vec<UnitPort>) -> Result<Outcome, Unfinished>
        requires { Belong self ports.items units.items }
        ensures ok { IfOk result (λ outcome. Finished self ports.items units.items outcome) }
        ensures err { IfErr result (λ u. (u.fault ≡ LoopFault.NoMemory) × (u.core ≡ self) × (u.ports ≡ ports)
            × (u.units ≡ units)) }
    {
        let Ok(log) = self.make_log() else {
            return Err(hand_back(self, ports, units));
        };
        let ended = self.end(ports, units)?;
        Ok(Outcome {
            journal: ended.journal,
            from: ended.from,
            log,
            left: ended.left,
            untaken: ended.untaken,
            unread: ended.unread,
        })
    }

    /// Empties all rings as `finish` does, and makes no log.
    ///
    /// `NoMemory` where memory is refused: everything comes back as it was.
    pub fn end(self, ports: Vec<Port>, units: Vec<UnitPort>) -> Result<Ended, Unfinished>
        requires { Belong self ports.items units.items }
        ensures ok { IfOk result (λ ended. EndedAs self ports.items units.items ended) }
        ensures err { IfErr result (λ u. (u.fault ≡ LoopFault.NoMemory) × (u.core ≡ self) × (u.ports ≡ ports)
            × (u.units ≡ units)) }
    {
        let Ok(rooms) = self.make_all_rooms() else {
            return Err(hand_back(self, ports, units));
        };
        Ok(self.drain(ports, units, rooms))
    }

    // The log of the journal.
    fn make_log(&self) -> Result<Log, AllocError>
        ensures { IfOk result (λ log. (log.items ≡ run_of (setting self.now) (journal self.now))
            × KeepsPromises (setting self.now) (journal self.now) log.items) }
    {
        let options = self.options.copy(self.alloc)?;
        run(self.alloc, options, &self.journal).or(Err(AllocError))
    }

    // Room for all that may be left.
    fn make_all_rooms(&self) -> Result<Rooms, AllocError>
        ensures { IfOk result (λ rooms. FitsAll self.now rooms) }
    {
        Ok(Rooms {
            left: make_rooms(self.alloc, self.inlets.len())?,
            untaken: make_job_rooms(self.alloc, &self.outlets, self.fresh.len())?,
            unread: make_rooms(self.alloc, self.outlets.len())?,
        })
    }
}
