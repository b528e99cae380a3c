//! What the driver tells.

use iscsi_session::{Effect, Event, Numbers, SessionFault, put_effect, put_event};
use iscsi_threads::LoopFault;
use std::alloc::{AllocError, Global};
use thiserror::Error;

/// A call is made so many times at the most.
pub(crate) const TRIES: u32 = 3;

/// Why the driver stops.
#[derive(Debug, Drop, Error)]
pub(crate) enum Halt {
    /// Memory was refused: all may be begun anew.
    #[error("out of memory")]
    NoMemory,
    /// A thread was refused: all may be begun anew.
    #[error("no thread could be made")]
    NoThread,
    /// The words or the script are none of the driver's.
    #[error("the driver doesn't know this script")]
    BadScript,
    /// A call was refused, and not for want of memory.
    #[error("a call was refused")]
    Refused,
}

impl From<AllocError> for Halt {
    ghost use Rattle.std.specs.Prelude.{◌≡◌};
    ghost use Rattle.check_faults.specs.declared.told.Halt.{Halt};

    ghost from_gives = { λ _ halt. halt ≡ Halt.NoMemory };

    fn from(_error: AllocError) -> Halt {
        Halt::NoMemory
    }
}

/// What a push that may be refused comes to.
pub(crate) fn fits<T: Drop, E: Drop>(pushed: Result<T, E>) -> Result<T, Halt> {
    pushed.or(Err(Halt::NoMemory))
}

/// The text for standard output, and how many calls were made again.
pub(crate) struct Told {
    pub(crate) text: Vec<u8>,
    pub(crate) steps: u32,
    pub(crate) turns: u32,
    pub(crate) ends: u32,
    pub(crate) lines: u32,
    pub(crate) starts: u32,
    /// How many of the starts from the beginning were for want of a thread.
    pub(crate) threads: u32,
}

impl Drop for Told {
    fn drop(self) {
        let Told {
            text: _text,
            steps: _steps,
            turns: _turns,
            ends: _ends,
            lines: _lines,
            starts: _starts,
            threads: _threads,
        } = self;
    }
}

impl Told {
    pub(crate) fn new(alloc: Global) -> Told {
        Told {
            text: Vec::new(alloc),
            steps: 0,
            turns: 0,
            ends: 0,
            lines: 0,
            starts: 0,
            threads: 0,
        }
    }

    /// Forgets what was told, as all is begun anew.
    pub(crate) fn begin_anew(&mut self) {
        self.text.clear();
        self.starts = self.starts.saturating_add(1);
    }

    /// Tells a line.
    pub(crate) fn say(&mut self, line: &str) -> Result<(), Halt> {
        self.text.extend_from_slice(line.as_bytes())?;
        fits(self.text.push(b'\n'))
    }

    /// Tells why the thread layer refused a call. Where it wants memory or a thread, all may be begun anew.
    pub(crate) fn say_refusal(&mut self, fault: LoopFault) -> Result<(), Halt> {
        match fault {
            LoopFault::BadOptions => self.say("bad options"),
            LoopFault::Exhausted => self.say("exhausted"),
            LoopFault::NoMemory => Err(Halt::NoMemory),
            LoopFault::NoThread => Err(Halt::NoThread),
            LoopFault::Unposted => self.say("unposted"),
        }
    }

    /// Tells the line of an event.
    pub(crate) fn say_event(&mut self, event: &Event) -> Result<(), Halt> {
        for _ in 0..TRIES {
            match put_event(event, &mut self.text) {
                Ok(()) => return Ok(()),
                Err(SessionFault::NoMemory) => self.lines = self.lines.saturating_add(1),
                Err(_) => return Err(Halt::Refused),
            }
        }
        Err(Halt::NoMemory)
    }

    /// Tells the line of an effect.
    fn say_effect(&mut self, effect: &Effect, numbers: Numbers) -> Result<(), Halt> {
        for _ in 0..TRIES {
            match put_effect(effect, numbers, &mut self.text) {
                Ok(()) => return Ok(()),
                Err(SessionFault::NoMemory) => self.lines = self.lines.saturating_add(1),
                Err(_) => return Err(Halt::Refused),
            }
        }
        Err(Halt::NoMemory)
    }

    /// Tells the lines of the effects of an event.
    pub(crate) fn say_effects(&mut self, effects: &[Effect], numbers: Numbers) -> Result<(), Halt> {
        for effect in effects {
            self.say_effect(effect, numbers)?;
        }
        Ok(())
    }
}
