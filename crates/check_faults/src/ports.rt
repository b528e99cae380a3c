//! The calls of a loop and its ports, on one thread.

use crate::calls::{Given, behind, header, is_passed, must, two};
use crate::rig::Rig;
use crate::told::{Halt, TRIES, Told, fits};
use iscsi_session::Effect;
use iscsi_threads::{Job, LoopFault, Outcome, PostFault, Turn};
use std::alloc::Global;
use std::fmt::Debug;

/// A loop with its ports, and the jobs that were taken and not answered yet.
#[derive(Drop)]
struct Play {
    alloc: Global,
    rig: Rig,
    jobs: Vec<Job>,
}

/// Opens a loop, makes the calls of the script's lines, and ends it. Where the options are refused, nothing follows.
///
/// `post PLACE HEADER`, `turn`, `take UNIT`, `answer UNIT TICKET STATUS`.
pub(crate) fn make_calls(
    alloc: Global,
    given: &Given,
    script: &str,
    told: &mut Told,
) -> Result<(), Halt> {
    let rig = match Rig::open(alloc, given.options(alloc, script)?) {
        Ok(rig) => rig,
        Err(fault) => return told.say_refusal(fault),
    };
    let mut play = Play {
        alloc,
        rig,
        jobs: Vec::new(alloc),
    };
    for line in script.lines() {
        if !is_passed(line) {
            play.call(line, told)?;
        }
    }
    tell_outcome(alloc, &finish(play.rig, told)?, told)
}

impl Play {
    /// Makes the call of a line.
    fn call(&mut self, line: &str, told: &mut Told) -> Result<(), Halt> {
        if line == "turn" {
            return self.turn(told);
        }
        if let Some(rest) = behind(line, "post") {
            return self.post(rest, told);
        }
        if let Some(unit) = behind(line, "take") {
            return self.take(must(unit.parse::<usize>().ok())?, told);
        }
        self.answer(must(behind(line, "answer"))?, told)
    }

    /// Where the ring is full, it tells the bytes of the header that came back.
    fn post(&mut self, rest: &str, told: &mut Told) -> Result<(), Halt> {
        let (place, digits) = must(two(rest))?;
        let place = must(place.parse::<usize>().ok())?;
        match self.rig.post(place, must(header(digits))?) {
            Ok(()) => told.say("posted"),
            Err(PostFault::Full(back)) => told.say(&format!(in self.alloc; "full {back:?}")?),
        }
    }

    fn turn(&mut self, told: &mut Told) -> Result<(), Halt> {
        let mut effects = Vec::new(self.alloc);
        match turn(&mut self.rig, &mut effects, told) {
            Ok(Turn::Took(event, numbers)) => {
                told.say_event(&event)?;
                told.say_effects(&effects, numbers)
            }
            Ok(Turn::Idle) => told.say("nothing"),
            Err(fault) => told.say_refusal(fault),
        }
    }

    /// Of a job it tells the ticket, the tag, the unit, the attribute and the bytes of the CDB.
    fn take(&mut self, unit: usize, told: &mut Told) -> Result<(), Halt> {
        self.jobs.reserve(1)?;
        let Some(job) = self.rig.take(unit) else {
            return told.say("no job");
        };
        let line = format!(in self.alloc;
            "job {} {:08x} {} {:?} {:?}",
            job.ticket(),
            job.itt(),
            job.unit(),
            job.attr(),
            job.cdb()
        )?;
        fits(self.jobs.push(job))?;
        told.say(&line)
    }

    fn answer(&mut self, rest: &str, told: &mut Told) -> Result<(), Halt> {
        let (unit, rest) = must(two(rest))?;
        let (ticket, status) = must(two(rest))?;
        let unit = must(unit.parse::<usize>().ok())?;
        let ticket = must(ticket.parse::<u64>().ok())?;
        let status = must(u8::from_str_radix(status, 16).ok())?;
        let Some(place) = self.jobs.iter().position(|job| job.ticket() == ticket) else {
            return told.say("no such job");
        };
        let job = self.jobs.remove(place);
        match self.rig.answer(unit, job, status) {
            Ok(()) => told.say("answered"),
            Err(job) => {
                fits(self.jobs.push(job))?;
                told.say("full")
            }
        }
    }
}

/// What a turn did. The same call is made again where memory is refused.
fn turn(rig: &mut Rig, effects: &mut Vec<Effect>, told: &mut Told) -> Result<Turn, LoopFault> {
    for _ in 0..TRIES {
        match rig.turn(effects) {
            Err(LoopFault::NoMemory) => told.turns = told.turns.saturating_add(1),
            done => return done,
        }
    }
    Err(LoopFault::NoMemory)
}

/// What it all came to. The end is tried again, with what came back, where memory is refused.
fn finish(rig: Rig, told: &mut Told) -> Result<Outcome, Halt> {
    let mut rig = rig;
    for _ in 0..TRIES {
        match rig.finish() {
            Ok(outcome) => return Ok(outcome),
            Err(back) => {
                rig = back;
                told.ends = told.ends.saturating_add(1);
            }
        }
    }
    Err(Halt::NoMemory)
}

/// Tells how long the journal and the log are, their report, the place that each event came from, and what was left in
/// each ring.
pub(crate) fn tell_outcome(alloc: Global, outcome: &Outcome, told: &mut Told) -> Result<(), Halt> {
    let (events, entries) = (outcome.journal.len(), outcome.log.len());
    told.say(&format!(in alloc; "end {events} {entries}")?)?;
    tell_report(outcome, told)?;
    told.say(&format!(in alloc; "from {:?}", outcome.from)?)?;
    tell_rings(alloc, "left", &outcome.left, told)?;
    tell_rings(alloc, "untaken", &outcome.untaken, told)?;
    tell_rings(alloc, "unread", &outcome.unread, told)
}

fn tell_report(outcome: &Outcome, told: &mut Told) -> Result<(), Halt> {
    for (event, entry) in outcome.journal.iter().zip(outcome.log.iter()) {
        told.say_event(event)?;
        told.say_effects(entry.effects.as_slice(), entry.numbers)?;
    }
    Ok(())
}

/// Tells what was left in each ring of a kind.
fn tell_rings<T: Debug>(
    alloc: Global,
    word: &str,
    rings: &[Vec<T>],
    told: &mut Told,
) -> Result<(), Halt> {
    for (place, ring) in rings.iter().enumerate() {
        told.say(&format!(in alloc; "{word} {place} {ring:?}")?)?;
    }
    Ok(())
}
