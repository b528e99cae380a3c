//! What the threads of a session share. No clause rests on it.

use crate::bell::{FIRST_UNIT, Marks};
use crate::waiter::Waiter;
use std::alloc::{AllocError, Global};
use std::sync::atomic::{AtomicBool, AtomicUsize, Ordering};

/// Whether to stop, how many lists aren't posted yet, and where each thread sleeps.
pub(crate) struct Shared {
    stop: AtomicBool,
    posting: AtomicUsize,
    pub(crate) hub: Waiter,
    pub(crate) posters: Vec<Waiter>,
    pub(crate) workers: Vec<Waiter>,
}

impl Drop for Shared {
    fn drop(self) {
        let Shared {
            stop: _stop,
            posting: _posting,
            hub: _hub,
            posters: _posters,
            workers: _workers,
        } = self;
    }
}

// So many beds.
fn waiters(alloc: Global, count: usize) -> Result<Vec<Waiter>, AllocError> {
    let mut all = Vec::with_capacity(alloc, count)?;
    for _ in 0..count {
        all.push(Waiter::new())?;
    }
    Ok(all)
}

impl Shared {
    /// For so many connections and units.
    pub(crate) fn new(alloc: Global, conns: usize, units: usize) -> Result<Shared, AllocError> {
        Ok(Shared {
            stop: AtomicBool::new(false),
            posting: AtomicUsize::new(conns),
            hub: Waiter::new(),
            posters: waiters(alloc, conns)?,
            workers: waiters(alloc, units)?,
        })
    }

    /// Whether the threads are to stop.
    pub(crate) fn is_stopped(&self) -> bool {
        self.stop.load(Ordering::SeqCst)
    }

    /// Whether a list isn't posted yet.
    pub(crate) fn is_posting(&self) -> bool {
        self.posting.load(Ordering::SeqCst) > 0
    }

    /// A list was posted.
    pub(crate) fn end_posting(&self) {
        self.posting.fetch_sub(1, Ordering::SeqCst);
        self.hub.wake();
    }

    /// Tells all threads to stop.
    pub(crate) fn stop_all(&self) {
        self.stop.store(true, Ordering::SeqCst);
        for poster in &self.posters {
            poster.wake();
        }
        for worker in &self.workers {
            worker.wake();
        }
    }

    /// Wakes the units that were given jobs, and whoever owns the ring that the loop took from last.
    pub(crate) fn wake_after(&self, supplied: &mut Marks, next: usize) {
        let mut first = 0;
        for _ in 0..self.workers.len() {
            let Some(unit) = supplied.next_from(first) else {
                break;
            };
            if let Some(worker) = self.workers.get(unit) {
                worker.wake();
            }
            supplied.clear(unit);
            first = unit + 1;
        }
        self.wake_served(next);
    }

    // Wakes whoever owns the ring before this one: it has a place.
    fn wake_served(&self, next: usize) {
        if next > FIRST_UNIT {
            if let Some(worker) = self.workers.get(next - FIRST_UNIT - 1) {
                worker.wake();
            }
        } else if next > 0 {
            if let Some(poster) = self.posters.get(next - 1) {
                poster.wake();
            }
        }
    }
}
