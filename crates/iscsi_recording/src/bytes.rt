//! Bytes that come one after another.

ghost use Rattle.std.specs.Prelude.{◌≡◌, ◌+◌, ◌≤◌, ◌<◌, ◌^◌, [], ◌++◌, length, take, vec_len, max, true, false, OnOk, OnErr};

use std::alloc::{AllocError, Global};
use std::marker::Model;

/// By so many bytes, or more where more are needed, the memory grows.
const GROWTH: usize = 2048;

/// Bytes at the front of memory that is there already, so that a few more are written in place.
#[derive(Debug)]
pub struct Bytes {
    memory: Vec<u8>,
    len: usize,
}

impl Drop for Bytes {
    fn drop(self) {
        let Bytes {
            memory: _memory,
            len: _len,
        } = self;
    }
}

impl Model for Bytes {
    ghost use Rattle.std.specs.Prelude.{ℕ, List, ◌≤◌, take, vec_len};

    ghost Value = { List ℕ };

    ghost view = { λ b. take b.len b.memory.items };

    ghost invariant = { λ b. b.len ≤ vec_len b.memory };
}

/// Writes bytes from a place of a slice on, and says where they end.
#[inline(always)]
pub fn put_at(bytes: &[u8], memory: &mut [u8], at: usize) -> usize
    requires { at + length bytes.now ≤ length memory.old }
    ensures end { result ≡ at + length bytes.now }
    ensures written { take result memory.new ≡ take at memory.old ++ bytes.now }
{
    let end = at + bytes.len();
    memory[at..end].copy_from_slice(bytes);
    end
}

/// Sees that there is room for so many bytes behind the first `len`.
#[inline(always)]
fn make_room(memory: &mut Vec<u8>, len: usize, more: usize) -> Result<(), AllocError>
    requires within { len ≤ vec_len memory.old }
    requires few { more < 2 ^ 63 }
    ensures room { OnOk result (len + more ≤ vec_len memory.new) }
    ensures kept { take len memory.new.items ≡ take len memory.old.items }
    ensures longer { vec_len memory.old ≤ vec_len memory.new }
{
    if memory.len() - len < more {
        grow(memory, more)?;
    }
    Ok(())
}

#[inline(never)]
fn grow(memory: &mut Vec<u8>, more: usize) -> Result<(), AllocError>
    requires { more < 2 ^ 63 }
    ensures ok { OnOk result (vec_len memory.new ≡ vec_len memory.old + max more 2048) }
    ensures err { OnErr result (vec_len memory.new ≡ vec_len memory.old) }
    ensures kept { take (vec_len memory.old) memory.new.items ≡ memory.old.items }
{
    memory.resize(memory.len() + more.max(GROWTH), 0)
}

/// Sees that there is room for so many bytes behind the first `len` where that needs no memory to be asked for, and
/// tells whether there is.
#[inline(always)]
fn find_room(memory: &mut Vec<u8>, len: usize, more: usize) -> bool
    requires within { len ≤ vec_len memory.old }
    requires few { more < 2 ^ 63 }
    ensures room { result ≡ true → len + more ≤ vec_len memory.new }
    ensures kept { take len memory.new.items ≡ take len memory.old.items }
    ensures longer { vec_len memory.old ≤ vec_len memory.new }
{
    if memory.len() - len >= more {
        return true;
    }
    grow_in_place(memory, more)
}

/// Grows as `grow` where the capacity suffices, and tells whether it did.
#[inline(never)]
fn grow_in_place(memory: &mut Vec<u8>, more: usize) -> bool
    requires { more < 2 ^ 63 }
    ensures grown { result ≡ true → vec_len memory.new ≡ vec_len memory.old + max more 2048 }
    ensures not { result ≡ false → vec_len memory.new ≡ vec_len memory.old }
    ensures kept { take (vec_len memory.old) memory.new.items ≡ memory.old.items }
{
    memory.capacity() - memory.len() >= more.max(GROWTH) && grow(memory, more).is_ok()
}

impl Bytes {
    /// No bytes, without memory.
    pub fn new(alloc: Global) -> Bytes
        ensures { result ≡ [] }
    {
        Bytes {
            memory: Vec::new(alloc),
            len: 0,
        }
    }

    /// Them all.
    pub fn as_slice(&self) -> &[u8]
        ensures { result.now ≡ self.now }
    {
        &self.memory[..self.len]
    }

    /// Puts more behind the others. On `Err`, where memory is refused, they stay as they were.
    #[inline(always)]
    pub fn extend(&mut self, more: &[u8]) -> Result<(), AllocError>
        ensures ok { OnOk result (self.new ≡ self.old ++ more.now) }
        ensures err { OnErr result (self.new ≡ self.old) }
        ensures few { length self.old < 2 ^ 63 }
    {
        make_room(&mut self.memory, self.len, more.len())?;
        self.len = put_at(more, &mut self.memory, self.len);
        Ok(())
    }

    /// Puts bytes behind the others where they fit without more memory being asked for, and tells whether they do.
    /// Otherwise the others stay as they were.
    #[inline(always)]
    pub fn extend_in_place<const N: usize>(&mut self, bytes: &[u8; N]) -> bool
        ensures put { result ≡ true → self.new ≡ self.old ++ bytes.now }
        ensures not { result ≡ false → self.new ≡ self.old }
        ensures few { length self.old < 2 ^ 63 }
    {
        if self.memory.len() - self.len >= N {
            self.len = put_at(bytes, &mut self.memory, self.len);
            return true;
        }
        // A copy goes there, so that bytes that were made just now needn't stand in memory before.
        let apart = *bytes;
        self.extend_grown(&apart)
    }

    /// The same, where memory has to grow.
    #[inline(never)]
    fn extend_grown(&mut self, bytes: &[u8]) -> bool
        ensures put { result ≡ true → self.new ≡ self.old ++ bytes.now }
        ensures not { result ≡ false → self.new ≡ self.old }
        ensures few { length self.old < 2 ^ 63 }
    {
        if !find_room(&mut self.memory, self.len, bytes.len()) {
            return false;
        }
        self.len = put_at(bytes, &mut self.memory, self.len);
        true
    }
}
