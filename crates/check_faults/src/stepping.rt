//! The calls of a session: a recording, with lines that ask for the bound of effects and for the numbers.

use crate::calls::{Given, event, is_passed, must};
use crate::told::{Halt, TRIES, Told};
use iscsi_session::{Effect, Event, Numbers, Options, Session, SessionFault};
use std::alloc::Global;

/// Opens a session and makes the calls of the script's lines: an event of a recording, `bound` or `numbers`.
pub(crate) fn make_calls(
    alloc: Global,
    given: &Given,
    script: &str,
    told: &mut Told,
) -> Result<(), Halt> {
    let mut session = open(alloc, given.options(alloc, script)?)?;
    for line in script.lines() {
        match line {
            "bound" => told.say(&format!(in alloc; "bound {}", session.effect_bound())?)?,
            "numbers" => {
                let numbers = session.numbers();
                told.say(&format!(in alloc; "numbers {:x} {:x}", numbers.exp, numbers.max)?)?;
            }
            _ if is_passed(line) => {}
            _ => step(alloc, &mut session, &must(event(line))?, told)?,
        }
    }
    Ok(())
}

fn open(alloc: Global, options: Options) -> Result<Session, Halt> {
    match Session::open(alloc, options) {
        Ok(session) => Ok(session),
        Err(SessionFault::NoMemory) => Err(Halt::NoMemory),
        Err(_) => Err(Halt::Refused),
    }
}

/// Steps the session and tells what came of it. The list of the effects is a new one each time, so that each event
/// asks for memory.
fn step(alloc: Global, session: &mut Session, event: &Event, told: &mut Told) -> Result<(), Halt> {
    let mut effects = Vec::new(alloc);
    let numbers = take(session, event, &mut effects, told)?;
    told.say_event(event)?;
    told.say_effects(&effects, numbers)
}

/// The numbers after the event. The same call is made again where memory is refused.
fn take(
    session: &mut Session,
    event: &Event,
    effects: &mut Vec<Effect>,
    told: &mut Told,
) -> Result<Numbers, Halt> {
    for _ in 0..TRIES {
        match session.step(event, effects) {
            Ok(numbers) => return Ok(numbers),
            Err(SessionFault::NoMemory) => told.steps = told.steps.saturating_add(1),
            Err(_) => return Err(Halt::Refused),
        }
    }
    Err(Halt::NoMemory)
}
