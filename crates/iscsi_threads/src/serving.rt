//! All threads of a session.

ghost use Rattle.std.specs.Prelude.{◌≡◌, ◌≢◌, ◌≤◌, ◌<◌, ◌==◌, ◌&&◌, [], ℕ, Bool, List, true, false, map, length, IfOk, IfErr, IsOk, IsErrOf, OnErr, Err, vec_len, vec_capacity, slice_index_or};
ghost use Rattle.iscsi_rules.specs.rules.Settings.{is_valid};
ghost use Rattle.iscsi_session.specs.promises.Settings.{setting_of};
ghost use Rattle.iscsi_threads.specs.rules.Ports.{posted, port_ring};
ghost use Rattle.iscsi_threads.specs.rules.Outlets.{inlet_ring};
ghost use Rattle.iscsi_threads.specs.rules.Loops.{SameLoop, Belong, Opened};
ghost use Rattle.iscsi_threads.specs.promises.Serving.{Served, ServedUnlogged, Together, Ran, IsEnd, CameBack, ComesTo, HasRoom, IsFullUnless};
ghost use Rattle.iscsi_threads.specs.promises.Full.{FillsJournal};
ghost use Rattle.iscsi_threads.specs.private.Promises.{AllPostedOn};
ghost use Rattle.iscsi_threads.specs.declared.port.Port.{Port};

use crate::fault::LoopFault;
use crate::finish::{Ended, Outcome};
use crate::halt::{Halt, ThreadLost, fault_of};
use crate::opening::open;
use crate::port::{Port, UnitPort};
use crate::posting::{Posted, Posts, join_posts, start_posts};
use crate::session_loop::Loop;
use crate::shared::Shared;
use crate::turn::Turn;
use crate::waiter::Rest;
use crate::working::{UnitWork, Works, join_works, start_works};
use iscsi_session::{Effect, Options};
use std::alloc::{AllocError, Global};
use std::sync::Wait;
use std::thread;
use std::thread::{PromisedHandle, Scope, Threads};

/// Posts each list of headers in a thread of its own, in the order of the connections, answers the jobs of each unit
/// in a thread of its own by what `work` says, and runs the loop here. It ends when every list was posted, every
/// header was taken, and no command is live; then all threads have ended.
///
/// `BadOptions` where an option is outside its limits, a CID stands twice, or there isn't one list for each
/// connection; then `NoMemory`, `NoThread` where a thread can't be made, `Unposted` where one ended before its list was
/// posted, which none does, and `Exhausted` where the lists and the answers to their commands gave as many events as
/// the options allow. Then, too, all threads have ended.
pub fn serve<R: Threads + Wait + Sync, W: UnitWork + Sync>(
    rt: &R,
    alloc: Global,
    options: Options,
    lists: Vec<Vec<[u8; 48]>>,
    work: &W,
) -> Result<Outcome, LoopFault>
    ensures served { IfOk result (λ outcome. Served (setting_of options) lists.items outcome) }
    ensures bad { is_valid (setting_of options) && length (setting_of options).conns == vec_len lists ≡ false →
        result ≡ Err LoopFault.BadOptions }
    ensures good { is_valid (setting_of options) && length (setting_of options).conns == vec_len lists ≡ true →
        result ≢ Err LoopFault.BadOptions }
    // It is exhausted only where the events fill the journal, and otherwise it has room for one more.
    ensures full { IsErrOf result LoopFault.Exhausted → FillsJournal (setting_of options) lists.items }
    ensures room { IfOk result (λ outcome. length outcome.journal.items < (setting_of options).events) }
{
    let (core, ports, units) = run_threads(rt, alloc, options, &lists, work)?;
    let Ok(outcome) = core.finish(ports, units) else {
        return Err(LoopFault::NoMemory);
    };
    Ok(outcome)
}

/// As `serve`, without the log.
pub fn serve_unlogged<R: Threads + Wait + Sync, W: UnitWork + Sync>(
    rt: &R,
    alloc: Global,
    options: Options,
    lists: Vec<Vec<[u8; 48]>>,
    work: &W,
) -> Result<Ended, LoopFault>
    ensures served { IfOk result (λ ended. ServedUnlogged (setting_of options) lists.items ended) }
    ensures bad { is_valid (setting_of options) && length (setting_of options).conns == vec_len lists ≡ false →
        result ≡ Err LoopFault.BadOptions }
    ensures good { is_valid (setting_of options) && length (setting_of options).conns == vec_len lists ≡ true →
        result ≢ Err LoopFault.BadOptions }
    // It is exhausted only where the events fill the journal, and otherwise it has room for one more.
    ensures full { IsErrOf result LoopFault.Exhausted → FillsJournal (setting_of options) lists.items }
    ensures room { IfOk result (λ ended. length ended.journal.items < (setting_of options).events) }
{
    let (core, ports, units) = run_threads(rt, alloc, options, &lists, work)?;
    let Ok(ended) = core.end(ports, units) else {
        return Err(LoopFault::NoMemory);
    };
    Ok(ended)
}

// The room for what comes of starting and joining the threads. It is made before the first of them.
#[derive(Drop)]
struct Rooms<'s> {
    posts: Vec<PromisedHandle<Posted, Posts<'s>>>,
    works: Vec<PromisedHandle<UnitPort, Works>>,
    ports: Vec<Port>,
    units: Vec<UnitPort>,
}

impl<'s> Rooms<'s> {
    ghost use Rattle.iscsi_threads.specs.promises.Serving.{HasRooms};

    fn new(alloc: Global, conns: usize, units: usize) -> Result<Rooms<'s>, AllocError>
        ensures { IfOk result (λ rooms. HasRooms rooms conns units) }
    {
        Ok(Rooms {
            posts: Vec::with_capacity(alloc, conns)?,
            works: Vec::with_capacity(alloc, units)?,
            ports: Vec::with_capacity(alloc, conns)?,
            units: Vec::with_capacity(alloc, units)?,
        })
    }
}

// How the turns of a loop ended.
#[derive(Clone, Copy)]
enum End {
    // Every list was posted and every header taken, and no command is live.
    Quiet,
    // The journal has as many events as the options allow.
    Full,
}

// A loop whose threads have ended, with its ports and unit ports.
struct Stopped {
    core: Loop,
    ports: Vec<Port>,
    units: Vec<UnitPort>,
    end: End,
}

impl Drop for Stopped {
    fn drop(self) {
        let Stopped {
            core: _core,
            ports: _ports,
            units: _units,
            end: _end,
        } = self;
    }
}

// Opens the session and runs its threads to their end.
fn run_threads<R: Threads + Wait + Sync, W: UnitWork + Sync>(
    rt: &R,
    alloc: Global,
    options: Options,
    lists: &[Vec<[u8; 48]>],
    work: &W,
) -> Result<(Loop, Vec<Port>, Vec<UnitPort>), LoopFault>
    ensures ran { IfOk result (λ r. Ran (setting_of options) lists.now r.0 r.1.items r.2.items) }
    ensures full { IsErrOf result LoopFault.Exhausted → FillsJournal (setting_of options) lists.now }
    ensures bad { is_valid (setting_of options) && length (setting_of options).conns == length lists.now ≡ false →
        result ≡ Err LoopFault.BadOptions }
    ensures good { is_valid (setting_of options) && length (setting_of options).conns == length lists.now ≡ true →
        result ≢ Err LoopFault.BadOptions }
{
    if lists.len() != options.conns.len() {
        return Err(LoopFault::BadOptions);
    }
    let (core, ports, units) = open(alloc, options)?;
    match run_opened(rt, core, ports, units, lists, work) {
        Ok(stopped) => stopped.settle(),
        Err(halt) => Err(fault_of(halt)),
    }
}

impl Stopped {
    ghost use Rattle.std.specs.Prelude.{◌≡◌, ◌≢◌, IfOk, IfErr, IsOk, IsErrOf};
    ghost use Rattle.iscsi_threads.specs.rules.Loops.{Belong};
    ghost use Rattle.iscsi_threads.specs.promises.Serving.{Emptied};
    ghost use Rattle.iscsi_threads.specs.declared.fault.LoopFault.{LoopFault};
    ghost use Rattle.iscsi_threads.specs.declared.serving.End.{End};

    // What came back, where the end was a quiet one. `Exhausted` where the journal is full, once the rings were
    // emptied, which shows what went through them; `NoMemory` where that is refused.
    fn settle(self) -> Result<(Loop, Vec<Port>, Vec<UnitPort>), LoopFault>
        requires { Belong self.core self.ports.items self.units.items }
        ensures back { IfOk result (λ r. (self.end ≡ End.Quiet) × (r.0 ≡ self.core) × (r.1 ≡ self.ports)
            × (r.2 ≡ self.units)) }
        ensures quiet { self.end ≡ End.Quiet → IsOk result }
        ensures emptied { IsErrOf result LoopFault.Exhausted → (self.end ≡ End.Full)
            × Emptied self.core self.ports.items self.units.items }
        ensures kinds { IfErr result (λ fault. fault ≢ LoopFault.Exhausted → fault ≡ LoopFault.NoMemory) }
    {
        let Stopped {
            core,
            ports,
            units,
            end,
        } = self;
        match end {
            End::Quiet => Ok((core, ports, units)),
            End::Full => match core.end(ports, units) {
                Ok(_) => Err(LoopFault::Exhausted),
                Err(_) => Err(LoopFault::NoMemory),
            },
        }
    }
}

// Runs the threads of a session that was opened.
fn run_opened<R: Threads + Wait + Sync, W: UnitWork + Sync>(
    rt: &R,
    core: Loop,
    ports: Vec<Port>,
    units: Vec<UnitPort>,
    lists: &[Vec<[u8; 48]>],
    work: &W,
) -> Result<Stopped, Halt>
    requires { Opened (setting core) core ports.items units.items × (length lists.now ≡ vec_len ports) }
    ensures { IfOk result (λ s. Together (setting core) lists.now s.core s.ports.items s.units.items s.end) }
{
    let shared = Shared::new(core.alloc, ports.len(), units.len())?;
    in_scope(rt, core, ports, units, lists, work, &shared)
}

// Starts the threads, and stops them on every way out.
fn in_scope<R: Threads + Wait + Sync, W: UnitWork + Sync>(
    rt: &R,
    core: Loop,
    ports: Vec<Port>,
    units: Vec<UnitPort>,
    lists: &[Vec<[u8; 48]>],
    work: &W,
    shared: &Shared,
) -> Result<Stopped, Halt>
    requires { Opened (setting core) core ports.items units.items × (length lists.now ≡ vec_len ports) }
    ensures { IfOk result (λ s. Together (setting core) lists.now s.core s.ports.items s.units.items s.end) }
{
    thread::scope(
        thread::scope_env(),
        rt,
        move |scope| -> Result<Stopped, Halt>
            requires { Opened (setting core) core ports.items units.items × (length lists.now ≡ vec_len ports) }
            ensures { IfOk result (λ s. Together (setting core) lists.entry.now s.core s.ports.items s.units.items s.end) }
        {
            let mut core = core;
            let ran = within(rt, scope, &mut core, ports, units, lists, work, shared);
            shared.stop_all();
            let (ports, units, end) = ran?;
            Ok(Stopped {
                core,
                ports,
                units,
                end,
            })
        },
    )
}

// All threads of the scope. Where it answers a halt, they still run.
fn within<'s, E, R: Threads + Wait + Sync, W: UnitWork + Sync>(
    rt: &'s R,
    scope: &Scope<'s, E>,
    core: &mut Loop,
    ports: Vec<Port>,
    units: Vec<UnitPort>,
    lists: &'s [Vec<[u8; 48]>],
    work: &'s W,
    shared: &'s Shared,
) -> Result<(Vec<Port>, Vec<UnitPort>, End), Halt>
    requires { Opened (setting core.old) core.old ports.items units.items × (length lists.now ≡ vec_len ports) }
    ensures { IfOk result (λ r. Together (setting core.old) lists.now core.new r.0.items r.1.items r.2) }
{
    let Rooms {
        mut posts,
        mut works,
        ports: ports_room,
        units: units_room,
    } = Rooms::new(core.alloc, ports.len(), units.len())?;
    start_posts(rt, scope, ports, lists, shared, &mut posts)?;
    start_works(rt, scope, units, work, shared, &mut works)?;
    let (ports, end) = run_loop(rt, core, posts, ports_room, shared)?;
    shared.stop_all();
    let units = join_works(rt, works, units_room);
    Ok((ports, units, end))
}

// Turns the loop until every list was posted and every header taken, and no command is live, or until the journal is
// full: the ports, which their threads give back meanwhile.
fn run_loop<'s, R: Threads + Wait>(
    rt: &R,
    core: &mut Loop,
    posts: Vec<PromisedHandle<Posted, Posts<'s>>>,
    room: Vec<Port>,
    shared: &Shared,
) -> Result<(Vec<Port>, End), Halt>
    requires room { (room.items ≡ []) × (vec_len posts ≤ vec_capacity room) }
    requires rings { (back : List Port) (whole : Bool) → length back ≡ vec_len posts →
        AllPostedOn posts.items back whole (vec_len posts) → map port_ring back ≡ map inlet_ring core.old.inlets.items }
    ensures same { SameLoop core.old core.new }
    ensures ports { IfOk result (λ r. CameBack posts.entry.items (vec_len posts.entry) r.0.items r.1) }
    ensures end { IfOk result (λ r. IsEnd r.1 core.new r.0.items) }
    // A thread that can't be made isn't told here: all were made.
    ensures made { IfErr result (λ halt. halt ≢ Halt.Thread ThreadLost.Refused) }
{
    let mut out = Vec::new(core.alloc);
    let are_posted = turn_while_posting(rt, core, &mut out, shared)?;
    let (mut ports, are_whole) = join_posts(rt, posts, room);
    if !are_posted {
        return Ok((ports, End::Full));
    }
    if !are_whole {
        return Err(Halt::Thread(ThreadLost::Stopped));
    }
    let end = turn_until_quiet(rt, core, &mut ports, &mut out, shared)?;
    Ok((ports, end))
}

ghost use Rattle.iscsi_threads.specs.rules.Loops.{setting, journal};

// What a turn came to.
#[derive(Clone, Copy)]
enum Progress {
    Took,
    Idle,
    Full,
}

// One turn, and whom it wakes.
fn turn_once(
    core: &mut Loop,
    out: &mut Vec<Effect>,
    shared: &Shared,
) -> Result<Progress, AllocError>
    ensures same { SameLoop core.old core.new }
    ensures comes { IfOk result (λ progress. ComesTo progress core.new) }
    ensures memory { OnErr result (HasRoom core.new) }
{
    out.clear();
    let turn = core.turn(out);
    shared.wake_after(&mut core.watch.supplied, core.next);
    match turn {
        Ok(Turn::Took(_, _)) => Ok(Progress::Took),
        Ok(Turn::Idle) => Ok(Progress::Idle),
        Err(LoopFault::Exhausted) => Ok(Progress::Full),
        Err(_) => Err(AllocError),
    }
}

// There was nothing to do. After a sleep it looks at every ring: where a bell was lost, nothing else tells of its item.
fn rest_once<R: Wait>(rt: &R, rest: &mut Rest, core: &mut Loop)
    ensures same { SameLoop core.old core.new }
    ensures journal { journal core.new ≡ journal core.old }
{
    if rest.pause(rt) {
        core.watch
            .look_everywhere(core.inlets.len(), core.outlets.len());
    }
}

// Turns until every list was posted. Not so where the journal is full: then all threads are told to stop.
fn turn_while_posting<R: Wait>(
    rt: &R,
    core: &mut Loop,
    out: &mut Vec<Effect>,
    shared: &Shared,
) -> Result<bool, AllocError>
    ensures same { SameLoop core.old core.new }
    ensures full { IfOk result (λ are_posted. IsFullUnless are_posted core.new) }
{
    let mut rest = Rest::new(&shared.hub);
    for _ in rt.forever() {
        if !shared.is_posting() {
            return Ok(true);
        }
        match turn_once(core, out, shared)? {
            Progress::Took => rest.work(),
            Progress::Idle => rest_once(rt, &mut rest, core),
            Progress::Full => {
                shared.stop_all();
                return Ok(false);
            }
        }
    }
    unreachable!()
}

// Turns until every header was taken and no command is live, or until the journal is full.
fn turn_until_quiet<R: Wait>(
    rt: &R,
    core: &mut Loop,
    ports: &mut Vec<Port>,
    out: &mut Vec<Effect>,
    shared: &Shared,
) -> Result<End, AllocError>
    requires { map port_ring ports.old.items ≡ map inlet_ring core.old.inlets.items }
    ensures same { SameLoop core.old core.new }
    ensures rings { map port_ring ports.new.items ≡ map port_ring ports.old.items }
    ensures posted { map posted ports.new.items ≡ map posted ports.old.items }
    ensures end { IfOk result (λ end. IsEnd end core.new ports.new.items) }
{
    let mut rest = Rest::new(&shared.hub);
    for _ in rt.forever() {
        match turn_once(core, out, shared)? {
            Progress::Took => rest.work(),
            Progress::Idle => {
                if core.is_quiet(ports) {
                    return Ok(End::Quiet);
                }
                rest_once(rt, &mut rest, core);
            }
            Progress::Full => return Ok(End::Full),
        }
    }
    unreachable!()
}
