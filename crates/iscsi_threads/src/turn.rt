//! One turn of the loop.

ghost use Rattle.std.specs.Prelude.{◌≡◌, ◌<◌, ◌≤◌, ◌+◌, vec_len, vec_capacity, OnOk};
ghost use Rattle.std.specs.VecDeque.{deque_len, deque_capacity};
ghost use Rattle.iscsi_threads.specs.rules.Desks.{seen};

use crate::desk::{Desk, note_all};
use crate::ends::{fill_all, poll, spread};
use crate::fault::LoopFault;
use crate::job::Job;
use crate::session_loop::Loop;
use iscsi_session::{Effect, Event, Numbers};
use std::alloc::AllocError;
use std::collections::VecDeque;

/// What a turn did.
#[derive(Debug, Drop)]
pub enum Turn {
    /// No header and no answer waited.
    Idle,
    /// It took this event. The numbers are those of the session after it.
    Took(Event, Numbers),
}

/// What stands for an event until one is taken.
const NO_EVENT: Event = Event::Arrive {
    conn: 0,
    header: [0; 48],
};

// Makes the room for one event of so many effects.
fn make_room(
    bound: usize,
    desk: &mut Desk,
    fresh: &mut VecDeque<Job>,
    journal: &mut Vec<Event>,
    from: &mut Vec<u16>,
    out: &mut Vec<Effect>,
) -> Result<(), AllocError>
    ensures room { OnOk result ((deque_len desk.new.dormant + bound ≤ deque_capacity desk.new.dormant)
        × (deque_len fresh.new + bound ≤ deque_capacity fresh.new) × (vec_len journal.new < vec_capacity journal.new)
        × (vec_len from.new < vec_capacity from.new) × (vec_len out.new + bound ≤ vec_capacity out.new)) }
    ensures desk { seen desk.new ≡ seen desk.old }
    ensures lists { (fresh.new.items ≡ fresh.old.items) × (journal.new.items ≡ journal.old.items)
        × (from.new.items ≡ from.old.items) × (out.new.items ≡ out.old.items) }
    ensures lens { (vec_len journal.new ≡ vec_len journal.old) × (vec_len from.new ≡ vec_len from.old) }
{
    desk.dormant.reserve(bound)?;
    fresh.reserve(bound)?;
    journal.reserve(1)?;
    from.reserve(1)?;
    out.reserve(bound)
}

impl Loop {
    ghost use Rattle.std.specs.Prelude.{◌≡◌, ◌≢◌, ◌↔◌, ◌≤◌, length, IfOk, IfErr, IsErrOf, OnErr};
    ghost use Rattle.iscsi_threads.specs.rules.Loops.{SameLoop, Turned, journal, sources, setting};

    /// Moves jobs into their rings, and takes at most one item, from the ring after the one last served on. The event
    /// goes to the journal, and its effects behind those in `out`.
    ///
    /// A turn looks at the rings that were marked as something was put into them, and where none of them has an item it
    /// is idle. It then marks one ring more, each in its turn, for the next turn to look at. So an item whose mark was
    /// lost is found after as many idle turns as there are rings, and one more.
    ///
    /// `Exhausted` where the journal has as many events as the options allow, whether an item waits or not; then
    /// `NoMemory`. A refused turn takes nothing.
    pub fn turn(&mut self, out: &mut Vec<Effect>) -> Result<Turn, LoopFault>
        ensures same { SameLoop self.old self.new }
        ensures ok { IfOk result (λ t. Turned t self.old self.new out.old.items out.new.items) }
        ensures exhausted { IsErrOf result LoopFault.Exhausted ↔
            ((setting self.old).events ≤ length (journal self.old)) }
        ensures kinds { IfErr result (λ f. f ≢ LoopFault.Exhausted → f ≡ LoopFault.NoMemory) }
        ensures err { OnErr result ((journal self.new ≡ journal self.old) × (sources self.new ≡ sources self.old)
            × (out.new.items ≡ out.old.items)) }
    {
        let has_room = spread(&mut self.fresh, &mut self.outlets, &mut self.watch);
        fill_all(&mut self.outlets, &mut self.watch);
        if self.options.events <= self.journal.len() as u64 {
            return Err(LoopFault::Exhausted);
        }
        if !has_room {
            return Err(LoopFault::NoMemory);
        }
        let bound = self.session.effect_bound();
        let Ok(()) = make_room(
            bound,
            &mut self.desk,
            &mut self.fresh,
            &mut self.journal,
            &mut self.from,
            out,
        ) else {
            return Err(LoopFault::NoMemory);
        };
        self.bells.hear(&mut self.watch.rung);
        let mut event = NO_EVENT;
        let Some(source) = poll(
            &mut self.inlets,
            &self.options.conns,
            &mut self.outlets,
            &mut self.watch.rung,
            &mut self.next,
            &mut event,
        ) else {
            self.watch
                .look_further(self.inlets.len(), self.outlets.len());
            return Ok(Turn::Idle);
        };
        let before = out.len();
        let Ok(numbers) = self.session.step(&event, out) else {
            unreachable!()
        };
        let effects = out.split_at(before).1;
        note_all(&mut self.desk, &mut self.fresh, effects);
        self.journal.push_reserved(event);
        self.from.push_reserved(source);
        Ok(Turn::Took(event, numbers))
    }
}
