//! A text to which lines are put.

ghost use Rattle.std.specs.Prelude.{◌≡◌, ◌+◌, ◌≤◌, [], ◌++◌, length, take, drop, vec_len, vec_capacity, OnOk, OnErr, IsOk};
ghost use Rattle.iscsi_report.specs.Lines.{event_line, effect_line, entry_lines};

use crate::effect_line::write_effect;
use crate::entry_line::write_entry;
use crate::event_line::write_event;
use crate::tens::Tens;
use iscsi_rules::{Effect, Event, Numbers};
use std::alloc::{AllocError, Global};
use std::marker::Model;

/// Room for a line with its end. The longest line, that of a Reject, takes 206 bytes of it.
pub const LONGEST_LINE: usize = 256;

/// By so many bytes a text grows.
const GROWTH: usize = 65_536;

/// Lines of a report, one after another. They lie at the front of memory that is there already.
pub struct Lines {
    memory: Vec<u8>,
    len: usize,
    /// The digits of the ticket of the command that entered last.
    entered: Tens,
    /// Those of the ticket of a command that was completed.
    completed: Tens,
}

impl Drop for Lines {
    fn drop(self) {
        let Lines {
            memory: _memory,
            len: _len,
            entered: _entered,
            completed: _completed,
        } = self;
    }
}

impl Model for Lines {
    ghost use Rattle.std.specs.Prelude.{ℕ, List, ◌≤◌, take, vec_len};

    ghost Value = { List ℕ };

    ghost view = { λ l. take l.len l.memory.items };

    ghost invariant = { λ l. l.len ≤ vec_len l.memory };
}

impl Lines {
    /// No line, without memory.
    pub fn new(alloc: Global) -> Lines
        ensures { result ≡ [] }
    {
        Lines {
            memory: Vec::new(alloc),
            len: 0,
            entered: Tens::new(),
            completed: Tens::new(),
        }
    }

    /// How many bytes they are.
    pub fn len(&self) -> usize
        ensures { result ≡ length self.now }
    {
        self.len
    }

    /// Their bytes.
    pub fn as_slice(&self) -> &[u8]
        ensures { result.now ≡ self.now }
    {
        &self.memory[..self.len]
    }

    /// Drops them all. The memory stays.
    pub fn clear(&mut self)
        ensures { self.new ≡ [] }
    {
        self.len = 0;
        // Once in a while, so that the digits are found again where tickets come in order after others that didn't.
        self.completed.take_any();
    }

    /// Puts the line of an event behind the others. On `Err`, where memory is refused, they stay as they were.
    #[inline(always)]
    pub fn put_event(&mut self, event: &Event) -> Result<(), AllocError>
        ensures ok { OnOk result (self.new ≡ self.old ++ event_line event.now) }
        ensures err { OnErr result (self.new ≡ self.old) }
    {
        make_room(&mut self.memory, self.len)?;
        self.len = write_event(event, &mut self.completed, &mut self.memory, self.len);
        Ok(())
    }

    /// Puts the line of an effect of an event that ended with these numbers behind the others. On `Err`, where memory
    /// is refused, they stay as they were.
    #[inline(always)]
    pub fn put_effect(&mut self, effect: &Effect, numbers: Numbers) -> Result<(), AllocError>
        ensures ok { OnOk result (self.new ≡ self.old ++ effect_line effect.now numbers) }
        ensures err { OnErr result (self.new ≡ self.old) }
    {
        make_room(&mut self.memory, self.len)?;
        self.len = write_effect(
            effect,
            numbers,
            &mut self.entered,
            &mut self.memory,
            self.len,
        );
        Ok(())
    }

    /// Puts the lines of an event that ended with these numbers, and of its effects, behind the others. On `Err`, where
    /// memory is refused, they stay as they were.
    #[inline(always)]
    pub fn put_entry(
        &mut self,
        event: &Event,
        numbers: Numbers,
        effects: &[Effect],
    ) -> Result<(), AllocError>
        ensures ok { OnOk result (self.new ≡ self.old
            ++ (event_line event.now ++ entry_lines (record { numbers = numbers; effects = effects.now }))) }
        ensures err { OnErr result (self.new ≡ self.old) }
    {
        // Where there mayn't be room for all, no more memory is asked for than the lines turn out to need.
        if effects.len() >= (self.memory.len() - self.len) / LONGEST_LINE {
            return self.put_all_or_none(event, numbers, effects);
        }
        self.len = write_entry(
            event,
            numbers,
            effects,
            &mut self.entered,
            &mut self.completed,
            &mut self.memory,
            self.len,
        );
        Ok(())
    }

    /// The same, a line after the other.
    #[inline(never)]
    fn put_all_or_none(
        &mut self,
        event: &Event,
        numbers: Numbers,
        effects: &[Effect],
    ) -> Result<(), AllocError>
        ensures ok { OnOk result (self.new ≡ self.old
            ++ (event_line event.now ++ entry_lines (record { numbers = numbers; effects = effects.now }))) }
        ensures err { OnErr result (self.new ≡ self.old) }
    {
        let before = self.len;
        let put = self.put_line_by_line(event, numbers, effects);
        if put.is_err() {
            self.len = before;
        }
        put
    }

    /// The same, but for `Err`, behind which some of the lines may stand.
    fn put_line_by_line(
        &mut self,
        event: &Event,
        numbers: Numbers,
        effects: &[Effect],
    ) -> Result<(), AllocError>
        ensures ok { OnOk result (self.new ≡ self.old
            ++ (event_line event.now ++ entry_lines (record { numbers = numbers; effects = effects.now }))) }
        ensures err { OnErr result (take (length self.old) self.new ≡ self.old) }
    {
        self.put_event(event)?;
        for effect in effects {
            self.put_effect(effect, numbers)?;
        }
        Ok(())
    }
}

/// Sees that there is room for a line behind the first `len` bytes.
#[inline(always)]
pub(crate) fn make_room(memory: &mut Vec<u8>, len: usize) -> Result<(), AllocError>
    requires { len ≤ vec_len memory.old }
    ensures room { OnOk result (len + 256 ≤ vec_len memory.new) }
    ensures fits { len + 256 ≤ vec_len memory.old → IsOk result }
    ensures kept { take len memory.new.items ≡ take len memory.old.items }
    ensures longer { vec_len memory.old ≤ vec_len memory.new }
{
    if memory.len() - len < LONGEST_LINE {
        grow(memory)?;
    }
    Ok(())
}

#[inline(never)]
fn grow(memory: &mut Vec<u8>) -> Result<(), AllocError>
    ensures ok { OnOk result (vec_len memory.new ≡ vec_len memory.old + 65536) }
    ensures err { OnErr result (vec_len memory.new ≡ vec_len memory.old) }
    ensures kept { take (vec_len memory.old) memory.new.items ≡ memory.old.items }
{
    memory.resize(memory.len() + GROWTH, 0)
}

/// Appends the line of an event. `Err`, where memory is refused, changes nothing, and doesn't come where there is room
/// for a line.
pub fn put_event(event: &Event, out: &mut Vec<u8>) -> Result<(), AllocError>
    ensures ok { OnOk result (out.new.items ≡ out.old.items ++ event_line event.now) }
    ensures err { OnErr result (out.new.items ≡ out.old.items) }
    ensures room { vec_len out.old + LONGEST_LINE ≤ vec_capacity out.old → IsOk result }
{
    let mut line = [0u8; LONGEST_LINE];
    let end = write_event(event, &mut Tens::fixed(), &mut line, 0);
    out.extend_from_slice(&line[..end])
}

/// Appends the line of an effect of an event that ended with these numbers. `Err`, where memory is refused, changes
/// nothing, and doesn't come where there is room for a line.
pub fn put_effect(effect: &Effect, numbers: Numbers, out: &mut Vec<u8>) -> Result<(), AllocError>
    ensures ok { OnOk result (out.new.items ≡ out.old.items ++ effect_line effect.now numbers) }
    ensures err { OnErr result (out.new.items ≡ out.old.items) }
    ensures room { vec_len out.old + LONGEST_LINE ≤ vec_capacity out.old → IsOk result }
{
    let mut line = [0u8; LONGEST_LINE];
    let end = write_effect(effect, numbers, &mut Tens::fixed(), &mut line, 0);
    out.extend_from_slice(&line[..end])
}
