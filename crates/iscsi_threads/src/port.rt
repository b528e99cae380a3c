//! The ends that a connection's thread and a unit's worker hold.

ghost use Rattle.std.specs.Prelude.{◌≡◌};
ghost use Rattle.rtrb.specs.Ring.{producer_capacity, consumer_capacity};

use crate::bell::Bell;
use crate::job::{Answer, Job};
use rtrb::{Consumer, Producer};

/// Why a header was not accepted.
#[derive(Debug, Drop)]
pub enum PostFault {
    /// The ring has no place. The header comes back.
    Full([u8; 48]),
}

/// A connection's end: it posts the headers of request PDUs.
pub struct Port {
    pub(crate) headers: Producer<[u8; 48]>,
    pub(crate) bell: Bell,
    ghost places: { producer_capacity headers ≡ 64 },
}

impl Drop for Port {
    fn drop(self) {
        let Port {
            headers: _headers,
            bell: _bell,
        } = self;
    }
}

/// A unit's end: it takes jobs, and answers them.
pub struct UnitPort {
    pub(crate) jobs: Consumer<Job>,
    pub(crate) answers: Producer<Answer>,
    pub(crate) bell: Bell,
    ghost places: { consumer_capacity jobs ≡ 64 },
}

impl Drop for UnitPort {
    fn drop(self) {
        let UnitPort {
            jobs: _jobs,
            answers: _answers,
            bell: _bell,
        } = self;
    }
}

impl Port {
    ghost use Rattle.std.specs.Prelude.{◌≡◌, ◌++◌, ◌∷◌, [], ◌<◌, length, OnOk, IfErr, IsOk};
    ghost use Rattle.iscsi_threads.specs.declared.port.PostFault.TheVariants.{Full};
    ghost use Rattle.iscsi_threads.specs.rules.Ports.{posted, port_ring};

    /// Posts the header of a request PDU, for the loop to take. The first 64 posts succeed.
    ///
    /// `Full` where the ring has 64 headers that the loop hasn't taken: then nothing was posted.
    pub fn post(&mut self, header: [u8; 48]) -> Result<(), PostFault>
        ensures same { port_ring self.new ≡ port_ring self.old }
        ensures ok { OnOk result (posted self.new ≡ posted self.old ++ header ∷ []) }
        ensures full { IfErr result (λ e. (e ≡ Full header) × (posted self.new ≡ posted self.old)) }
        ensures succeeds { length (posted self.old) < 64 → IsOk result }
    {
        if let Err(rtrb::PushError::Full(header)) = self.headers.push(header) {
            return Err(PostFault::Full(header));
        }
        self.bell.ring();
        Ok(())
    }
}

impl UnitPort {
    ghost use Rattle.std.specs.Prelude.{◌≡◌, ◌++◌, ◌∷◌, [], OnOk, IfErr, IfSome, IfNone};
    ghost use Rattle.iscsi_threads.specs.rules.Ports.{taken, answered, unit_rings};

    /// Takes the next job of the unit. None where the ring has none.
    pub fn take(&mut self) -> Option<Job>
        ensures same { unit_rings self.new ≡ unit_rings self.old }
        ensures some { IfSome result (λ job. taken self.new ≡ taken self.old ++ job ∷ []) }
        ensures none { IfNone result (taken self.new ≡ taken self.old) }
        ensures answered { answered self.new ≡ answered self.old }
    {
        if self.jobs.is_empty() {
            return None;
        }
        Some(self.jobs.pop_known())
    }

    /// Answers a job with the status of its command (SAM-5), for the loop to take.
    ///
    /// The job comes back where the ring has 64 answers that the loop hasn't taken: then nothing was answered.
    pub fn answer(&mut self, job: Job, status: u8) -> Result<(), Job>
        ensures same { unit_rings self.new ≡ unit_rings self.old }
        ensures ok { OnOk result (answered self.new ≡ answered self.old ++ (job.ticket, status) ∷ []) }
        ensures full { IfErr result (λ back. (back ≡ job) × (answered self.new ≡ answered self.old)) }
        ensures taken { taken self.new ≡ taken self.old }
    {
        if self.answers.push((job.ticket, status)).is_err() {
            return Err(job);
        }
        self.bell.ring();
        Ok(())
    }
}
