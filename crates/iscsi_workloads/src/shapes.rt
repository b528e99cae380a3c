//! Recordings as initiators make them. Each keeps to a window of 1,024 numbers, and completes only commands that are
//! enabled: where commands alone come, a command's ticket is its number, since they are delivered in order.

use crate::halt::{Halt, fits};
use crate::headers::{Command, HEAD, ORDERED, SIMPLE};
use crate::random::Random;
use crate::text::{Front, Text};
use std::alloc::Global;
use std::collections::VecDeque;

/// The connections and units of a recording, and how many commands it has.
#[derive(Clone, Copy)]
pub(crate) struct Size {
    pub(crate) connections: u32,
    pub(crate) units: u32,
    pub(crate) commands: u32,
}

/// How many commands are live before the first is completed, where they come in order.
const FEW: u32 = 4;

/// How many commands are kept live in nearly full sets: those of a block that comes early fit the window beside them.
const MANY: usize = 850;

/// The commands of a recording.
struct Maker {
    /// How the lines of each connection begin.
    fronts: Vec<Front>,
    units: u32,
    /// What is added to a number for its tag.
    tags: u32,
    random: Random,
}

impl Drop for Maker {
    fn drop(self) {
        let Maker {
            fronts: _fronts,
            units: _units,
            tags: _tags,
            random: _random,
        } = self;
    }
}

impl Maker {
    /// Puts the lines of the connections. CIDs count from 1, or have two to five digits where they are many.
    fn begin(alloc: Global, size: Size, seed: u64, text: &mut Text) -> Result<Maker, Halt> {
        let mut random = Random::new(seed);
        let mut fronts = Vec::new(alloc);
        let mut cid = 0u16;
        for _ in 0..size.connections {
            let step = if size.connections > 9 {
                10 + random.below(990) as u16
            } else {
                1
            };
            cid = cid.wrapping_add(step);
            fits(fronts.push(text.put_connection(cid)?))?;
        }
        let tags = random.word() >> 1;
        Ok(Maker {
            fronts,
            units: size.units,
            tags,
            random,
        })
    }

    /// A command of this number, for a unit of the maker's choice.
    fn command(&mut self, number: u32) -> Command {
        let unit = (self.random.below(self.units.max(1)) % 256) as u8;
        Command {
            tag: number.wrapping_add(self.tags),
            number,
            unit,
            attribute: SIMPLE,
            block: self.random.word(),
        }
    }

    /// Puts a command on one of the connections.
    fn put(&mut self, text: &mut Text, command: &Command) -> Result<(), Halt> {
        let count = self.fronts.len().min(64) as u32;
        let place = self.random.below(count.max(1)) as usize;
        if let Some(front) = self.fronts.get(place) {
            text.put_command(front, command)?;
        }
        Ok(())
    }
}

/// One connection in order: each command is completed when four more have come.
pub(crate) fn in_order(alloc: Global, size: Size, seed: u64, text: &mut Text) -> Result<(), Halt> {
    let mut maker = Maker::begin(alloc, size, seed, text)?;
    for before in 0..size.commands {
        let command = maker.command(before.wrapping_add(1));
        maker.put(text, &command)?;
        if before >= FEW {
            text.put_completion(before - FEW + 1)?;
        }
    }
    Ok(())
}

/// The numbers below this one.
fn numbers(alloc: Global, count: u32) -> Result<Vec<u32>, Halt> {
    let mut numbers = Vec::new(alloc);
    for number in 0..count {
        fits(numbers.push(number))?;
    }
    Ok(numbers)
}

/// Commands that come up to `block` numbers early, and are completed at random.
pub(crate) fn out_of_order(
    alloc: Global,
    size: Size,
    block: u32,
    seed: u64,
    text: &mut Text,
) -> Result<(), Halt> {
    let mut maker = Maker::begin(alloc, size, seed, text)?;
    let mut arrivals = numbers(alloc, block.min(1024))?;
    let mut completions = numbers(alloc, block.min(1024))?;
    for turn in 0..size.commands / block.max(1) {
        shuffle(&mut maker.random, &mut arrivals);
        shuffle(&mut maker.random, &mut completions);
        let first = turn.wrapping_mul(block).wrapping_add(1);
        for (early, late) in arrivals.iter().zip(completions.iter()) {
            let command = maker.command(first.wrapping_add(*early));
            maker.put(text, &command)?;
            if turn > 0 {
                let ticket = first.wrapping_sub(block).wrapping_add(*late);
                text.put_completion(ticket)?;
            }
        }
    }
    Ok(())
}

/// Puts at most 1,024 numbers into another order.
fn shuffle(random: &mut Random, numbers: &mut [u32]) {
    if numbers.len() <= 1024 {
        random.shuffle(numbers);
    }
}

/// The commands of a unit's set, by age, the HEAD OF QUEUE ones apart.
struct Unit {
    others: VecDeque<u32>,
    heads: Vec<u32>,
}

impl Drop for Unit {
    fn drop(self) {
        let Unit {
            others: _others,
            heads: _heads,
        } = self;
    }
}

/// The task sets of a recording's units, and how many commands they hold.
struct Sets {
    units: Vec<Unit>,
    live: usize,
}

impl Drop for Sets {
    fn drop(self) {
        let Sets {
            units: _units,
            live: _live,
        } = self;
    }
}

impl Sets {
    fn new(alloc: Global, units: u32) -> Result<Sets, Halt> {
        let mut list = Vec::new(alloc);
        for _ in 0..units {
            fits(list.push(Unit {
                others: VecDeque::new(alloc),
                heads: Vec::new(alloc),
            }))?;
        }
        Ok(Sets {
            units: list,
            live: 0,
        })
    }

    fn enter(&mut self, command: &Command) -> Result<(), Halt> {
        let ticket = command.number;
        let place = usize::from(command.unit);
        if place < self.units.len() {
            let unit = &mut self.units[place];
            if command.attribute == HEAD {
                fits(unit.heads.push(ticket))?;
            } else {
                fits(unit.others.push_back(ticket))?;
            }
            self.live = self.live.wrapping_add(1);
        }
        Ok(())
    }

    /// Takes an enabled command out of a unit that has one: a HEAD OF QUEUE command is enabled, and where there is none
    /// the oldest is.
    fn leave(&mut self, random: &mut Random) -> Option<u32> {
        let count = self.units.len().min(256) as u32;
        let start = random.below(count.max(1)) as usize;
        for step in 0..self.units.len() {
            let place = start.wrapping_add(step) % self.units.len();
            if let Some(ticket) = enabled(&mut self.units[place], random) {
                self.live = self.live.wrapping_sub(1);
                return Some(ticket);
            }
        }
        None
    }
}

/// Takes an enabled command out of a unit's set.
fn enabled(unit: &mut Unit, random: &mut Random) -> Option<u32> {
    let heads = unit.heads.len().min(1024) as u32;
    if heads == 0 {
        return unit.others.pop_front();
    }
    let place = random.below(heads) as usize;
    Some(unit.heads.swap_remove(place))
}

/// SIMPLE, ORDERED or HEAD OF QUEUE.
fn attribute(random: &mut Random) -> u8 {
    match random.below(10) {
        0..=6 => SIMPLE,
        7 | 8 => ORDERED,
        _ => HEAD,
    }
}

/// Units whose sets are nearly full, with commands of all attributes, which come up to 64 numbers early.
pub(crate) fn deep_sets(alloc: Global, size: Size, seed: u64, text: &mut Text) -> Result<(), Halt> {
    let mut maker = Maker::begin(alloc, size, seed, text)?;
    let mut sets = Sets::new(alloc, size.units)?;
    let mut early = numbers(alloc, EARLY)?;
    let mut commands = Vec::new(alloc);
    for turn in 0..size.commands / EARLY {
        commands.clear();
        for number in 0..EARLY {
            let number = turn
                .wrapping_mul(EARLY)
                .wrapping_add(number)
                .wrapping_add(1);
            let mut command = maker.command(number);
            command.attribute = attribute(&mut maker.random);
            fits(commands.push(command))?;
        }
        shuffle(&mut maker.random, &mut early);
        put_early(&mut maker, &mut sets, &commands, &early, text)?;
    }
    Ok(())
}

/// So many numbers make a block, in which commands come in any order.
const EARLY: u32 = 64;

/// Puts the commands of a block, in this order, and completes others, as many as are too many. A command enters its set
/// once all numbers below its own have come.
fn put_early(
    maker: &mut Maker,
    sets: &mut Sets,
    commands: &[Command],
    order: &[u32],
    text: &mut Text,
) -> Result<(), Halt> {
    let mut come = 0u64;
    let mut next = 0usize;
    for place in order {
        if let Some(command) = commands.get(*place as usize) {
            maker.put(text, command)?;
        }
        come |= 1 << (*place % 64);
        next = enter_all(sets, commands, next, come)?;
        if sets.live >= MANY
            && let Some(ticket) = sets.leave(&mut maker.random)
        {
            text.put_completion(ticket)?;
        }
    }
    Ok(())
}

/// The commands from place `next` on enter, up to the first that hasn't come: its place.
fn enter_all(sets: &mut Sets, commands: &[Command], next: usize, come: u64) -> Result<usize, Halt> {
    for place in next..commands.len().min(64) {
        if come >> place & 1 == 0 {
            return Ok(place);
        }
        sets.enter(&commands[place])?;
    }
    Ok(64)
}
