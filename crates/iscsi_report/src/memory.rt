//! Memory for the lines of a report.

ghost use Rattle.std.specs.Prelude.{◌≡◌, ◌+◌, ◌-◌, ◌≤◌, take, true, false, vec_len};

use crate::lines::{LONGEST_LINE, make_room};

/// An event mostly has fewer replies.
const MOST_REPLIES: usize = 512;

/// Memory for lines, which are at its front. What asks for room takes it whole, by one address.
#[derive(Drop)]
pub(crate) struct Memory {
    pub(crate) text: Vec<u8>,
    /// A line that begins before this place has room.
    pub(crate) room: usize,
    /// Memory has sufficed.
    pub(crate) is_whole: bool,
}

/// Whether there is room for the line of an event. Where memory is refused there isn't, and that is noted.
#[inline(always)]
pub(crate) fn has_room_to_begin(places: &mut Vec<usize>, memory: &mut Memory, len: usize) -> bool
    requires within { len ≤ vec_len memory.old.text }
    requires room { memory.old.room ≤ vec_len memory.old.text - 255 }
    ensures places { places.new.items ≡ places.old.items }
    ensures kept { take len memory.new.text.items ≡ take len memory.old.text.items }
    ensures longer { len ≤ vec_len memory.new.text }
    ensures there { memory.new.room ≤ vec_len memory.new.text - 255 }
    ensures room { result ≡ true → len + 256 ≤ vec_len memory.new.text }
    ensures same { result ≡ true → memory.new.is_whole ≡ memory.old.is_whole }
    ensures wanting { result ≡ false → memory.new.is_whole ≡ false }
{
    // There is room for the places before there is memory for lines, so that this can grow where it lies.
    if memory.room <= len && places.reserve(MOST_REPLIES).is_err() {
        memory.is_whole = false;
        return false;
    }
    has_room(memory, len)
}

/// Whether there is room for a line more as memory is.
#[inline(always)]
pub(crate) fn has_room_left(memory: &Memory, len: usize) -> bool
    requires { memory.now.room ≤ vec_len memory.now.text - 255 }
    ensures { result ≡ true → len + 256 ≤ vec_len memory.now.text }
{
    len < memory.room
}

/// Whether there is room for a line more. Where memory is refused there isn't, and that is noted.
#[inline(always)]
pub(crate) fn has_room(memory: &mut Memory, len: usize) -> bool
    requires within { len ≤ vec_len memory.old.text }
    requires room { memory.old.room ≤ vec_len memory.old.text - 255 }
    ensures kept { take len memory.new.text.items ≡ take len memory.old.text.items }
    ensures longer { len ≤ vec_len memory.new.text }
    ensures there { memory.new.room ≤ vec_len memory.new.text - 255 }
    ensures room { result ≡ true → len + 256 ≤ vec_len memory.new.text }
    ensures same { result ≡ true → memory.new.is_whole ≡ memory.old.is_whole }
    ensures fits { len + 256 ≤ vec_len memory.old.text → result ≡ true }
    ensures wanting { result ≡ false → memory.new.is_whole ≡ false }
    ensures whole { memory.new.is_whole ≡ true → memory.old.is_whole ≡ true }
{
    if len < memory.room {
        return true;
    }
    has_grown(memory, len)
}

/// The same, where there isn't room yet.
#[inline(never)]
fn has_grown(memory: &mut Memory, len: usize) -> bool
    requires within { len ≤ vec_len memory.old.text }
    requires room { memory.old.room ≤ vec_len memory.old.text - 255 }
    ensures kept { take len memory.new.text.items ≡ take len memory.old.text.items }
    ensures longer { len ≤ vec_len memory.new.text }
    ensures there { memory.new.room ≤ vec_len memory.new.text - 255 }
    ensures room { result ≡ true → len + 256 ≤ vec_len memory.new.text }
    ensures same { result ≡ true → memory.new.is_whole ≡ memory.old.is_whole }
    ensures fits { len + 256 ≤ vec_len memory.old.text → result ≡ true }
    ensures wanting { result ≡ false → memory.new.is_whole ≡ false }
    ensures whole { memory.new.is_whole ≡ true → memory.old.is_whole ≡ true }
{
    if make_room(&mut memory.text, len).is_err() {
        memory.is_whole = false;
        return false;
    }
    memory.room = memory.text.len() - (LONGEST_LINE - 1);
    true
}
