//! Lists over shared slots beside a plain vector: both have the same after each of many calls.

ghost use Rattle.std.specs.Prelude.{◌≡◌, ◌<◌, length};

use iscsi_lists::Lists;
use std::alloc::{AllocError, Global};
use std::test::Fail;

/// How many lists there are ..
const COUNT: usize = 4;

/// .. and how many slots.
const ROOM: u32 = 24;

/// A value, its slot, and the list that it is in.
#[derive(Clone, Copy)]
struct Entry {
    list: usize,
    slot: u32,
    value: u32,
}

/// The same lists, kept in two ways.
#[derive(Drop)]
struct Both {
    lists: Lists<u32>,
    /// The values of all lists. Those of each list stand in its order.
    entries: Vec<Entry>,
    /// The slots that are free, the one that was freed last behind the others.
    free: Vec<u32>,
    ghost count: { length lists.lists ≡ 4 },
}

impl Both {
    fn new(alloc: Global) -> Result<Both, AllocError> {
        let mut free = Vec::new(alloc);
        for slot in 1..=ROOM {
            free.push(slot)?;
        }
        Ok(Both {
            lists: Lists::with_room(alloc, COUNT, ROOM as usize, 0)?,
            entries: Vec::new(alloc),
            free,
        })
    }

    /// A value goes to the end of a list, if there is room.
    fn push_back(&mut self, list: usize, value: u32) -> Result<bool, AllocError>
        requires { list < 4 }
    {
        if self.lists.is_full() {
            return Ok(self.free.is_empty());
        }
        let slot = self.lists.push_back(list, value);
        let is_next = self.free.pop() == Some(slot);
        self.entries.push(Entry { list, slot, value })?;
        Ok(is_next)
    }

    fn pop_front(&mut self, list: usize) -> Result<bool, AllocError>
        requires { list < 4 }
    {
        let value = self.lists.pop_front(list);
        match self.take_first(list) {
            Some(entry) => {
                self.free.push(entry.slot)?;
                Ok(value == Some(entry.value))
            }
            None => Ok(value.is_none()),
        }
    }

    fn remove(&mut self, slot: u32) -> Result<bool, AllocError> {
        let Some(entry) = self.take(slot) else {
            return Ok(!self.lists.holds(slot));
        };
        self.free.push(slot)?;
        if !self.lists.holds(slot) {
            return Ok(false);
        }
        Ok(self.lists.remove(slot) == entry.value)
    }

    fn move_to_back(&mut self, slot: u32, list: usize) -> Result<bool, AllocError>
        requires { list < 4 }
    {
        let Some(entry) = self.take(slot) else {
            return Ok(!self.lists.holds(slot));
        };
        self.entries.push(Entry { list, ..entry })?;
        if !self.lists.holds(slot) {
            return Ok(false);
        }
        self.lists.move_to_back(slot, list);
        Ok(true)
    }

    fn clear(&mut self, list: usize) -> Result<bool, AllocError>
        requires { list < 4 }
    {
        self.lists.clear(list);
        for _ in 0..ROOM {
            if let Some(entry) = self.take_first(list) {
                self.free.push(entry.slot)?;
            }
        }
        Ok(true)
    }

    /// A slot that is in a list gets another value.
    fn set(&mut self, slot: u32, value: u32) -> bool {
        let place = self.entries.iter().position(|entry| entry.slot == slot);
        if self.lists.holds(slot) {
            self.lists.set(slot, value);
        }
        match place.and_then(|place| self.entries.get_mut(place)) {
            Some(entry) => {
                entry.value = value;
                true
            }
            None => !self.lists.holds(slot),
        }
    }

    /// Takes the first value of a list out of the plain vector.
    fn take_first(&mut self, list: usize) -> Option<Entry> {
        let place = self.entries.iter().position(|entry| entry.list == list)?;
        self.take_at(place)
    }

    /// Takes the value with this slot out of it.
    fn take(&mut self, slot: u32) -> Option<Entry> {
        let place = self.entries.iter().position(|entry| entry.slot == slot)?;
        self.take_at(place)
    }

    fn take_at(&mut self, place: usize) -> Option<Entry> {
        if self.entries.len() <= place {
            return None;
        }
        Some(self.entries.remove(place))
    }

    /// Both have the same values in a list, in the same order, and in the same slots.
    fn agree_on(&self, list: usize) -> bool
        requires { list < 4 }
    {
        let mut next = self.lists.first(list);
        let mut agree = self.lists.is_empty(list) == next.is_none();
        let mut previous = None;
        for entry in &self.entries {
            if entry.list == list {
                if !self.lists.holds(entry.slot) {
                    return false;
                }
                agree &= next == Some(entry.slot) && self.lists.previous(entry.slot) == previous;
                agree &= self.lists.list_of(entry.slot) == list;
                agree &= *self.lists.at(entry.slot) == entry.value;
                next = self.lists.next(entry.slot);
                previous = Some(entry.slot);
            }
        }
        agree && next.is_none()
    }

    fn agree(&self) -> bool {
        let mut agree = self.lists.is_full() == self.free.is_empty();
        for list in 0..COUNT {
            agree &= self.agree_on(list);
        }
        for slot in &self.free {
            agree &= !self.lists.holds(*slot);
        }
        agree && !self.lists.holds(0) && !self.lists.holds(ROOM + 1)
    }
}

/// Calls at random, by a seed.
#[derive(Drop)]
struct Calls {
    both: Both,
    seed: u64,
}

impl Calls {
    /// The next number, by the method SplitMix64.
    fn number(&mut self) -> u64 {
        self.seed = self.seed.wrapping_add(0x9e37_79b9_7f4a_7c15);
        let mixed = (self.seed ^ (self.seed >> 30)).wrapping_mul(0xbf58_476d_1ce4_e5b9);
        let mixed = (mixed ^ (mixed >> 27)).wrapping_mul(0x94d0_49bb_1331_11eb);
        mixed ^ (mixed >> 31)
    }

    /// A call, mostly of a slot that there is, and both are compared.
    fn step(&mut self) -> Result<bool, AllocError> {
        let number = self.number();
        let list = (number / 8 % 4) as usize;
        let slot = (number / 32 % 28) as u32;
        let value = (number / 1024 % 65536) as u32;
        let agree = match number % 8 {
            0..=2 => self.both.push_back(list, value)?,
            3 => self.both.pop_front(list)?,
            4 => self.both.remove(slot)?,
            5 => self.both.move_to_back(slot, list)?,
            6 => self.both.set(slot, value),
            _ if value % 8 == 0 => self.both.clear(list)?,
            _ => self.both.push_back(list, value)?,
        };
        Ok(agree && self.both.agree())
    }
}

#[test]
fn lists_have_what_a_plain_vector_has(rt: HostRuntime) -> Result<(), Fail> {
    for seed in 0..20 {
        let mut calls = Calls {
            both: Both::new(rt.alloc())?,
            seed,
        };
        for k in 0..500 {
            let agree = calls.step()?;
            assert!(rt; agree, "seed {seed}, call {k}");
        }
    }
    Ok(())
}
