//! The ends of a loop on one thread, by turns: connections post headers, the loop takes them, units take jobs and answer
//! them. So the order is fixed, where that of threads isn't.

use crate::digest::Digest;
use crate::effects::take_effect;
use crate::halt::{Halt, fits};
use crate::headers::{Command, SIMPLE};
use crate::random::Random;
use iscsi_session::{Attr, Effect, Event, Options};
use iscsi_threads::{Job, Loop, Port, Turn, UnitPort, open};
use std::alloc::Global;

const CONNECTIONS: u16 = 4;

const UNITS: u32 = 4;

/// How many times the connections post, one command each.
const POSTS: u32 = 12_500;

/// How many jobs the units keep.
const JOBS: usize = 32;

/// A loop with its ports and unit ports, and the jobs that the units work on.
struct Rig {
    core: Loop,
    ports: Vec<Port>,
    units: Vec<UnitPort>,
    jobs: Vec<Job>,
    effects: Vec<Effect>,
    random: Random,
}

impl Drop for Rig {
    fn drop(self) {
        let Rig {
            core: _core,
            ports: _ports,
            units: _units,
            jobs: _jobs,
            effects: _effects,
            random: _random,
        } = self;
    }
}

/// Loops, one after the other.
pub(crate) fn threads(
    alloc: Global,
    rounds: u32,
    seed: u64,
    digest: &mut Digest,
) -> Result<(), Halt> {
    let mut random = Random::new(seed);
    for _ in 0..rounds {
        let mut rig = Rig::open(alloc, random.number())?;
        let tags = random.word() >> 1;
        for turn in 0..POSTS {
            rig.post(turn.wrapping_mul(u32::from(CONNECTIONS)), tags)?;
            rig.turn(digest)?;
            rig.work(digest)?;
        }
    }
    Ok(())
}

impl Rig {
    fn open(alloc: Global, seed: u64) -> Result<Rig, Halt> {
        let mut conns = Vec::new(alloc);
        for before in 0..CONNECTIONS {
            fits(conns.push((before + 1, 1)))?;
        }
        let options = Options {
            first: 1,
            window: 1024,
            units: UNITS,
            depth: 1024,
            level: 1,
            events: 1 << 48,
            conns,
        };
        let (core, ports, units) = open(alloc, options)?;
        Ok(Rig {
            core,
            ports,
            units,
            jobs: Vec::new(alloc),
            effects: Vec::new(alloc),
            random: Random::new(seed),
        })
    }

    /// Each connection posts a command. The numbers are those behind this one.
    fn post(&mut self, last: u32, tags: u32) -> Result<(), Halt> {
        let mut number = last;
        for port in self.ports.iter_mut() {
            number = number.wrapping_add(1);
            let choice = self.random.word();
            let command = Command {
                tag: number.wrapping_add(tags),
                number,
                unit: (choice % UNITS) as u8,
                attribute: SIMPLE,
                block: choice,
            };
            fits(port.post(command.header()))?;
        }
        Ok(())
    }

    /// The loop takes all that waits.
    fn turn(&mut self, digest: &mut Digest) -> Result<(), Halt> {
        for _ in 0..1024u32 {
            self.effects.clear();
            match self.core.turn(&mut self.effects)? {
                Turn::Idle => break,
                Turn::Took(event, numbers) => {
                    digest.events = digest.events.wrapping_add(1);
                    digest.number(u64::from(numbers.exp) << 32 | u64::from(numbers.max));
                    take_event(&event, digest);
                    for effect in &self.effects {
                        take_effect(effect, numbers, digest);
                    }
                }
            }
        }
        Ok(())
    }

    /// The units take their jobs, and answer some, chosen at random.
    fn work(&mut self, digest: &mut Digest) -> Result<(), Halt> {
        for unit in self.units.iter_mut() {
            for _ in 0..1024u32 {
                let Some(job) = unit.take() else {
                    break;
                };
                take_job(&job, digest);
                fits(self.jobs.push(job))?;
            }
        }
        for _ in 0..1024u32 {
            let count = self.jobs.len().min(1024);
            if count <= JOBS {
                break;
            }
            let place = self.random.below(count as u32) as usize;
            let job = self.jobs.swap_remove(place);
            let unit = usize::from(job.unit());
            if unit < self.units.len() {
                fits(self.units[unit].answer(job, 0))?;
            }
        }
        Ok(())
    }
}

/// Takes all that an event says.
fn take_event(event: &Event, digest: &mut Digest) {
    match event {
        Event::Arrive { conn, header } => {
            digest.number(u64::from(*conn));
            digest.bytes(header);
        }
        Event::Done { ticket, status } => {
            digest.number(*ticket);
            digest.number(u64::from(*status));
        }
    }
}

/// Takes all that a job says.
fn take_job(job: &Job, digest: &mut Digest) {
    digest.number(job.ticket());
    digest.number(u64::from(job.unit()) << 40 | u64::from(job.itt()));
    digest.number(match job.attr() {
        Attr::Simple => 1,
        Attr::Ordered => 2,
        Attr::Head => 3,
    });
    digest.bytes(&job.cdb());
}
