//! The loop's ends of all rings.

ghost use Rattle.std.specs.Prelude.{◌≡◌, ◌+◌, ◌<◌, ◌≤◌, ℕ, List, ◌∷◌, false, IsTrue, map, length, vec_len, if◌then◌else◌, nat_lt, IfSome, IfNone, MatchOption, OnOk, IfErr};
ghost use Rattle.iscsi_rules.specs.declared.event.Event.TheVariants.{Arrive, Done};
ghost use Rattle.std.specs.VecDeque.{deque_len};
ghost use Rattle.iscsi_threads.specs.declared.job.Job.{Job};
ghost use Rattle.iscsi_threads.specs.rules.Ports.{Answer};
ghost use Rattle.iscsi_threads.specs.rules.Outlets.{given, heard, outlet_rings, got, inlet_ring};
ghost use Rattle.iscsi_threads.specs.private.Ends.{Polled, put_jobs, grow};
ghost use Rattle.iscsi_threads.specs.private.Watched.{mark, ring_at, ring_behind};
ghost use Rattle.iscsi_threads.specs.rules.Journal.{cids_in};

use crate::bell::{FIRST_UNIT, MOST_RINGS, Marks};
use crate::inlet::Inlet;
use crate::job::Job;
use crate::outlet::Outlet;
use iscsi_session::Event;
use std::collections::VecDeque;

/// Which rings are worth a look.
#[derive(Drop)]
pub(crate) struct Watch {
    /// The rings that may have an item: connections from 0, units from `FIRST_UNIT`.
    pub(crate) rung: Marks,
    /// The units that have a backlog, from 0.
    pub(crate) crowded: Marks,
    /// Whether there are any.
    is_crowded: bool,
    /// The units that were given a job since the last wake-up, from 0.
    pub(crate) supplied: Marks,
    /// How many rings `look_further` has marked, connections first, since it began anew.
    further: usize,
}

impl Watch {
    /// Nothing to look at.
    pub(crate) fn new() -> Watch {
        Watch {
            rung: Marks::new(),
            crowded: Marks::new(),
            is_crowded: false,
            supplied: Marks::new(),
            further: 0,
        }
    }

    /// Marks every ring of so many connections and units.
    pub(crate) fn look_everywhere(&mut self, conns: usize, units: usize)
        requires { (conns ≤ 64) × (units ≤ 256) }
        ensures of_conns { (n : ℕ) → n < conns → mark self.new.rung.words n ≡ 1 }
        ensures of_units { (u : ℕ) → u < units → mark self.new.rung.words (64 + u) ≡ 1 }
    {
        for conn in 0..conns {
            self.rung.set(conn);
        }
        for unit in 0..units {
            self.rung.set(FIRST_UNIT + unit);
        }
    }

    /// Marks one ring more of so many connections and units, in turn, and once in a round none.
    pub(crate) fn look_further(&mut self, conns: usize, units: usize)
        requires { (conns ≤ 64) × (units ≤ 256) }
        ensures marked { self.old.further < conns + units →
            mark self.new.rung.words (ring_at conns self.old.further) ≡ 1 }
        ensures further { self.new.further ≡
            (if nat_lt self.old.further (conns + units) then self.old.further + 1 else 0) }
    {
        let at = self.further;
        if at < conns {
            self.rung.set(at);
            self.further = at + 1;
        } else if at < conns + units {
            self.rung.set(FIRST_UNIT + (at - conns));
            self.further = at + 1;
        } else {
            self.further = 0;
        }
    }

    // A unit was given a job, and may have a backlog now.
    fn note_given(&mut self, unit: usize, is_crowded: bool)
        requires { unit < 320 }
    {
        self.supplied.set(unit);
        if is_crowded {
            self.crowded.set(unit);
            self.is_crowded = true;
        }
    }
}

// Moves what fits from the backlog of one unit into its ring. Whether jobs are left in the backlog.
fn fill_at(outlets: &mut Vec<Outlet>, at: usize) -> bool
    requires { at < vec_len outlets.old }
    ensures given { map given outlets.new.items ≡ map given outlets.old.items }
    ensures heard { map heard outlets.new.items ≡ map heard outlets.old.items }
    ensures rings { map outlet_rings outlets.new.items ≡ map outlet_rings outlets.old.items }
    ensures len { vec_len outlets.new ≡ vec_len outlets.old }
{
    outlets[at].fill()
}

/// Moves what fits from each backlog into its ring.
pub(crate) fn fill_all(outlets: &mut Vec<Outlet>, watch: &mut Watch)
    ensures given { map given outlets.new.items ≡ map given outlets.old.items }
    ensures heard { map heard outlets.new.items ≡ map heard outlets.old.items }
    ensures rings { map outlet_rings outlets.new.items ≡ map outlet_rings outlets.old.items }
    ensures len { vec_len outlets.new ≡ vec_len outlets.old }
{
    if watch.is_crowded {
        watch.is_crowded = fill_crowded(outlets, watch);
    }
}

// The same, where there may be some. Whether jobs are left in a backlog.
#[inline(never)]
fn fill_crowded(outlets: &mut Vec<Outlet>, watch: &mut Watch) -> bool
    ensures given { map given outlets.new.items ≡ map given outlets.old.items }
    ensures heard { map heard outlets.new.items ≡ map heard outlets.old.items }
    ensures rings { map outlet_rings outlets.new.items ≡ map outlet_rings outlets.old.items }
    ensures len { vec_len outlets.new ≡ vec_len outlets.old }
{
    let mut are_left = false;
    let mut first = 0;
    for _ in 0..outlets.len() {
        let Some(unit) = watch.crowded.next_from(first) else {
            return are_left;
        };
        if unit < outlets.len() {
            watch.supplied.set(unit);
            if fill_at(outlets, unit) {
                are_left = true;
            } else {
                watch.crowded.clear(unit);
            }
        }
        first = unit + 1;
    }
    are_left
}

// Takes a header from one ring, and writes its event. Whether the ring has more.
fn hear_inlet(inlets: &mut Vec<Inlet>, at: usize, conn: u16, event: &mut Event) -> Option<bool>
    requires { at < vec_len inlets.old }
    ensures some { IfSome result (λ _. (x : List ℕ) × (event.new ≡ Arrive conn x)
        × (map got inlets.new.items ≡ grow (map got inlets.old.items) at x)) }
    ensures none { IfNone result (map got inlets.new.items ≡ map got inlets.old.items) }
    ensures rings { map inlet_ring inlets.new.items ≡ map inlet_ring inlets.old.items }
    ensures len { vec_len inlets.new ≡ vec_len inlets.old }
{
    inlets[at].hear(conn, event)
}

// Takes an answer from one ring, and writes its event. Whether the ring has more.
fn hear_outlet(outlets: &mut Vec<Outlet>, at: usize, event: &mut Event) -> Option<bool>
    requires { at < vec_len outlets.old }
    ensures some { IfSome result (λ _. (a : Answer) × (event.new ≡ Done a.0 a.1)
        × (map heard outlets.new.items ≡ grow (map heard outlets.old.items) at a)) }
    ensures none { IfNone result (map heard outlets.new.items ≡ map heard outlets.old.items) }
    ensures given { map given outlets.new.items ≡ map given outlets.old.items }
    ensures rings { map outlet_rings outlets.new.items ≡ map outlet_rings outlets.old.items }
    ensures len { vec_len outlets.new ≡ vec_len outlets.old }
{
    outlets[at].hear(event)
}

// Puts a job behind the others of one unit. The job comes back where memory is refused.
fn give_at(outlets: &mut Vec<Outlet>, at: usize, job: Job) -> Result<(), Job>
    requires { at < vec_len outlets.old }
    ensures ok { OnOk result (map given outlets.new.items ≡ grow (map given outlets.old.items) at job) }
    ensures err { IfErr result (λ back. (back ≡ job) × (map given outlets.new.items ≡ map given outlets.old.items)) }
    ensures heard { map heard outlets.new.items ≡ map heard outlets.old.items }
    ensures rings { map outlet_rings outlets.new.items ≡ map outlet_rings outlets.old.items }
    ensures len { vec_len outlets.new ≡ vec_len outlets.old }
{
    outlets[at].give(job)
}

// Moves the first of these jobs straight into one ring, where it can go there. Whether it did.
fn take_first_at(outlets: &mut Vec<Outlet>, at: usize, fresh: &mut VecDeque<Job>) -> bool
    requires at { at < vec_len outlets.old }
    requires some { 0 < deque_len fresh.old }
    ensures moved { IsTrue result → (job : Job) × (fresh.old.items ≡ job ∷ fresh.new.items)
        × (map given outlets.new.items ≡ grow (map given outlets.old.items) at job) }
    ensures count { IsTrue result → deque_len fresh.new + 1 ≡ deque_len fresh.old }
    ensures stays { result ≡ false → (fresh.new.items ≡ fresh.old.items) × (deque_len fresh.new ≡ deque_len fresh.old)
        × (map given outlets.new.items ≡ map given outlets.old.items) }
    ensures heard { map heard outlets.new.items ≡ map heard outlets.old.items }
    ensures rings { map outlet_rings outlets.new.items ≡ map outlet_rings outlets.old.items }
    ensures len { vec_len outlets.new ≡ vec_len outlets.old }
{
    outlets[at].take_first(fresh)
}

// Moves the first fresh job behind the others of its unit, into the ring or the backlog. Whether memory sufficed.
#[inline(never)]
fn give_first(fresh: &mut VecDeque<Job>, outlets: &mut Vec<Outlet>, watch: &mut Watch) -> bool
    requires few { vec_len outlets.old ≤ 256 }
    requires some { 0 < deque_len fresh.old }
    ensures jobs { put_jobs fresh.new.items (map given outlets.new.items)
        ≡ put_jobs fresh.old.items (map given outlets.old.items) }
    ensures count { IsTrue result → deque_len fresh.new + 1 ≡ deque_len fresh.old }
    ensures heard { map heard outlets.new.items ≡ map heard outlets.old.items }
    ensures rings { map outlet_rings outlets.new.items ≡ map outlet_rings outlets.old.items }
    ensures len { vec_len outlets.new ≡ vec_len outlets.old }
{
    let Some(job) = fresh.pop_front() else {
        unreachable!()
    };
    let unit = usize::from(job.unit);
    if unit < outlets.len() {
        if let Err(job) = give_at(outlets, unit, job) {
            fresh.push_front_reserved(job);
            return false;
        }
        watch.note_given(unit, !outlets[unit].backlog.is_empty());
    }
    true
}

// The same: mostly it goes straight into the ring.
fn spread_first(fresh: &mut VecDeque<Job>, outlets: &mut Vec<Outlet>, watch: &mut Watch) -> bool
    requires few { vec_len outlets.old ≤ 256 }
    requires some { 0 < deque_len fresh.old }
    ensures jobs { put_jobs fresh.new.items (map given outlets.new.items)
        ≡ put_jobs fresh.old.items (map given outlets.old.items) }
    ensures count { IsTrue result → deque_len fresh.new + 1 ≡ deque_len fresh.old }
    ensures heard { map heard outlets.new.items ≡ map heard outlets.old.items }
    ensures rings { map outlet_rings outlets.new.items ≡ map outlet_rings outlets.old.items }
    ensures len { vec_len outlets.new ≡ vec_len outlets.old }
{
    let unit = usize::from(fresh[0].unit);
    if unit < outlets.len() && take_first_at(outlets, unit, fresh) {
        watch.supplied.set(unit);
        return true;
    }
    give_first(fresh, outlets, watch)
}

/// Moves the fresh jobs behind the others of their units. Whether memory sufficed; otherwise some are left.
pub(crate) fn spread(
    fresh: &mut VecDeque<Job>,
    outlets: &mut Vec<Outlet>,
    watch: &mut Watch,
) -> bool
    requires { vec_len outlets.old ≤ 256 }
    ensures jobs { put_jobs fresh.new.items (map given outlets.new.items)
        ≡ put_jobs fresh.old.items (map given outlets.old.items) }
    ensures heard { map heard outlets.new.items ≡ map heard outlets.old.items }
    ensures rings { map outlet_rings outlets.new.items ≡ map outlet_rings outlets.old.items }
    ensures len { vec_len outlets.new ≡ vec_len outlets.old }
{
    for _ in 0..fresh.len() {
        if !spread_first(fresh, outlets, watch) {
            return false;
        }
    }
    true
}

/// Takes the first item that waits, looked for from the ring `next` on. It writes the event, and answers the place of
/// its port or unit port; `next` is then the ring after the one that was served. Where nothing waits, it stays.
///
/// The event is written where the turn reads it: one that is handed on is copied in pieces that wait for one another.
/// A ring that has no more as its item is taken isn't marked any longer: what is put in later rings its bell later.
pub(crate) fn poll(
    inlets: &mut Vec<Inlet>,
    conns: &[(u16, u32)],
    outlets: &mut Vec<Outlet>,
    rung: &mut Marks,
    next: &mut usize,
    event: &mut Event,
) -> Option<u16>
    requires conns { vec_len inlets.old ≡ length conns.now }
    requires few { (vec_len inlets.old ≤ 64) × (vec_len outlets.old ≤ 256) }
    ensures some { IfSome result (λ source. Polled (cids_in conns.now) (map got inlets.old.items)
        (map got inlets.new.items) (map heard outlets.old.items) (map heard outlets.new.items) event.new source) }
    ensures none { IfNone result ((map got inlets.new.items ≡ map got inlets.old.items)
        × (map heard outlets.new.items ≡ map heard outlets.old.items)) }
    ensures next { MatchOption result (next.new ≡ next.old) (λ source. next.new ≡ ring_behind event.new source) }
    ensures given { map given outlets.new.items ≡ map given outlets.old.items }
    ensures rings { (map inlet_ring inlets.new.items ≡ map inlet_ring inlets.old.items)
        × (map outlet_rings outlets.new.items ≡ map outlet_rings outlets.old.items) }
    ensures len { (vec_len inlets.new ≡ vec_len inlets.old) × (vec_len outlets.new ≡ vec_len outlets.old) }
{
    let mut first = *next;
    for _ in 0..=MOST_RINGS {
        let at = rung.next_around(first)?;
        first = at + 1;
        if at < inlets.len() {
            let conn = conns[at].0;
            if let Some(has_more) = hear_inlet(inlets, at, conn, event) {
                *next = first;
                if !has_more {
                    rung.clear(at);
                }
                return Some(at as u16);
            }
        } else if at >= FIRST_UNIT && at - FIRST_UNIT < outlets.len() {
            let unit = at - FIRST_UNIT;
            if let Some(has_more) = hear_outlet(outlets, unit, event) {
                *next = first;
                if !has_more {
                    rung.clear(at);
                }
                return Some(unit as u16);
            }
        }
        rung.clear(at);
    }
    None
}
