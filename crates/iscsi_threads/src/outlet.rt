//! The loop's ends of a unit's rings.

ghost use Rattle.std.specs.Prelude.{◌≡◌};
ghost use Rattle.rtrb.specs.Ring.{consumer_capacity};

use crate::job::{Answer, Job};
use iscsi_session::Event;
use rtrb::{Consumer, Producer};
use std::collections::VecDeque;

/// The jobs that wait for a place in the unit's ring, and the loop's ends of its rings.
pub(crate) struct Outlet {
    pub(crate) jobs: Producer<Job>,
    pub(crate) backlog: VecDeque<Job>,
    pub(crate) answers: Consumer<Answer>,
    ghost places: { consumer_capacity answers ≡ 64 },
}

impl Drop for Outlet {
    fn drop(self) {
        let Outlet {
            jobs: _jobs,
            backlog: _backlog,
            answers: _answers,
        } = self;
    }
}

impl Outlet {
    ghost use Rattle.std.specs.Prelude.{◌≡◌, ℕ, ◌<◌, ◌+◌, ◌++◌, ◌∷◌, [], false, IsTrue, OnOk, IfSome, IfNone, IfErr};
    ghost use Rattle.std.specs.VecDeque.{deque_len};
    ghost use Rattle.iscsi_threads.specs.declared.job.Job.{Job};
    ghost use Rattle.iscsi_rules.specs.declared.event.Event.TheVariants.{Done};
    ghost use Rattle.iscsi_threads.specs.rules.Ports.{Answer};
    ghost use Rattle.iscsi_threads.specs.rules.Outlets.{given, heard, outlet_rings, SameOutlet};

    /// Moves what fits from the backlog into the ring. Whether jobs are left in the backlog.
    pub(crate) fn fill(&mut self) -> bool
        ensures { SameOutlet self.old self.new }
    {
        for _ in 0..self.backlog.len() {
            if self.jobs.is_full() {
                return true;
            }
            let Some(job) = self.backlog.pop_front() else {
                unreachable!()
            };
            self.jobs.push_reserved(job);
        }
        false
    }

    /// Moves the first of these jobs behind the others, where it can go straight into the ring: no job waits, and the ring
    /// has a place. Whether it did. It isn't handed on by way of an answer, which would cost a copy of each of its parts.
    pub(crate) fn take_first(&mut self, fresh: &mut VecDeque<Job>) -> bool
        requires { 0 < deque_len fresh.old }
        ensures moved { IsTrue result → (job : Job) × (fresh.old.items ≡ job ∷ fresh.new.items)
            × (given self.new ≡ given self.old ++ job ∷ []) }
        ensures count { IsTrue result → deque_len fresh.new + 1 ≡ deque_len fresh.old }
        ensures stays { result ≡ false → (fresh.new.items ≡ fresh.old.items) × (deque_len fresh.new ≡ deque_len fresh.old)
            × (given self.new ≡ given self.old) }
        ensures heard { heard self.new ≡ heard self.old }
        ensures rings { outlet_rings self.new ≡ outlet_rings self.old }
    {
        if !self.backlog.is_empty() || self.jobs.is_full() {
            return false;
        }
        let Some(job) = fresh.pop_front() else {
            unreachable!()
        };
        self.jobs.push_reserved(job);
        true
    }

    /// Puts a job behind the others: into the ring where no job waits and it has a place, else into the backlog.
    /// The job comes back where memory is refused.
    pub(crate) fn give(&mut self, job: Job) -> Result<(), Job>
        ensures ok { OnOk result (given self.new ≡ given self.old ++ job ∷ []) }
        ensures err { IfErr result (λ back. (back ≡ job) × (given self.new ≡ given self.old)) }
        ensures heard { heard self.new ≡ heard self.old }
        ensures rings { outlet_rings self.new ≡ outlet_rings self.old }
    {
        if self.backlog.is_empty() && !self.jobs.is_full() {
            self.jobs.push_reserved(job);
            return Ok(());
        }
        if self.backlog.reserve(1).is_err() {
            return Err(job);
        }
        self.backlog.push_back_reserved(job);
        Ok(())
    }

    /// Takes an answer, and writes the event of its completion. Whether the ring has more.
    pub(crate) fn hear(&mut self, event: &mut Event) -> Option<bool>
        ensures some { IfSome result (λ _. (a : Answer) × (event.new ≡ Done a.0 a.1)
            × (heard self.new ≡ heard self.old ++ a ∷ [])) }
        ensures none { IfNone result (heard self.new ≡ heard self.old) }
        ensures given { given self.new ≡ given self.old }
        ensures rings { outlet_rings self.new ≡ outlet_rings self.old }
    {
        if self.answers.is_empty() {
            return None;
        }
        let (ticket, status) = self.answers.pop_known();
        *event = Event::Done { ticket, status };
        Some(!self.answers.is_empty())
    }
}
