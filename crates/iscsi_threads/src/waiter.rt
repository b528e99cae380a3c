//! How a thread waits for another one. No clause rests on it: a wake-up that is lost costs time, a nap at the most.

use crossbeam_utils::Backoff;
use std::sync::Wait;
use std::sync::atomic::{AtomicBool, Ordering};
use std::thread::Parker;
use std::time::Duration;

/// How many seconds a thread sleeps when nobody wakes it.
const NAP_SECONDS: u64 = 1;

/// The bed of one thread, which others wake.
#[derive(Drop)]
pub(crate) struct Waiter {
    is_asleep: AtomicBool,
    parker: Parker,
}

impl Waiter {
    /// The bed of a thread that is awake.
    pub(crate) fn new() -> Waiter {
        Waiter {
            is_asleep: AtomicBool::new(false),
            parker: Parker::new(),
        }
    }

    /// Wakes the thread if it sleeps, or is about to. What it waits for was done before this call.
    pub(crate) fn wake(&self) {
        if self.is_asleep.load(Ordering::SeqCst) {
            self.parker.unpark();
        }
    }
}

/// A thread that looks for something to do, and finds nothing: at first it spins and yields; then it says that it is
/// about to sleep, looks once more, and sleeps.
#[derive(Drop)]
pub(crate) struct Rest<'a> {
    waiter: &'a Waiter,
    backoff: Backoff,
    has_said: bool,
}

impl<'a> Rest<'a> {
    /// A thread that is awake, with its bed.
    pub(crate) fn new(waiter: &'a Waiter) -> Rest<'a> {
        Rest {
            waiter,
            backoff: Backoff::new(),
            has_said: false,
        }
    }

    /// There was nothing to do. The caller looks again after this call. Whether it slept meanwhile.
    pub(crate) fn pause<R: Wait>(&mut self, rt: &R) -> bool {
        if !self.backoff.is_completed() {
            self.backoff.snooze();
            return false;
        }
        if !self.has_said {
            self.has_said = true;
            self.waiter.is_asleep.store(true, Ordering::SeqCst);
            return false;
        }
        self.waiter
            .parker
            .park_timeout(rt, Duration::from_secs(NAP_SECONDS));
        true
    }

    /// There was something to do.
    pub(crate) fn work(&mut self) {
        self.backoff.reset();
        if self.has_said {
            self.has_said = false;
            self.waiter.is_asleep.store(false, Ordering::SeqCst);
        }
    }
}
