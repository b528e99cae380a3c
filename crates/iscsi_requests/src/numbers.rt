//! The numbers that are held.

ghost use Rattle.std.specs.Prelude.{◌≡◌, ◌+◌, ◌%◌, ◌<◌, ◌≤◌, ◌^◌, None, Some, nat_le, find, unwrap_or, length, replicate, IfOk};
ghost use Rattle.iscsi_requests.specs.Numbers.{AreKnown, held_at, index_of, opened, size_for, with_held};

use std::alloc::{AllocError, Global};
use std::marker::Model;

/// The powers of two up to the widest window.
const SIZES: [u32; 11] = [1, 2, 4, 8, 16, 32, 64, 128, 256, 512, 1024];

/// The numbers of a window under which something is held, each with its place.
///
/// A number stands in a table at its remainder by the table's size. The size is a power of two that isn't below the window, so
/// that the numbers of a window never meet, also where they wrap. Each call takes the same time.
pub struct HeldNumbers {
    places: Vec<Option<u32>>,
    size: u32,
}

impl Drop for HeldNumbers {
    fn drop(self) {
        let HeldNumbers {
            places: _places,
            size: _size,
        } = self;
    }
}

impl Model for HeldNumbers {
    ghost use Rattle.std.specs.Prelude.{length};
    ghost use Rattle.iscsi_requests.specs.Numbers.{HeldNumbers as HeldValue};
    ghost use Rattle.iscsi_requests.specs.Kept.{IsRound};

    ghost Value = { HeldValue };

    ghost view = { λ h. record { places = h.places.items } };

    ghost invariant = { λ h. IsRound h.size (length h.places.items) };
}

impl HeldNumbers {
    /// None yet, for a window of so many numbers, 1,024 at the most. It takes all its memory here.
    pub fn with_room(alloc: Global, window: u32) -> Result<HeldNumbers, AllocError>
        requires { window ≤ 1024 }
        ensures none { IfOk result (λ h. h ≡ opened window) }
        ensures wide { IfOk result (λ h. window ≤ length h.places) }
    {
        let size = size_for(window);
        Ok(HeldNumbers {
            places: none_held(alloc, size)?,
            size,
        })
    }

    /// What holds of all numbers: those of one window don't touch each other. It does nothing.
    #[inline(always)]
    pub fn known(&self)
        ensures { AreKnown self.now }
    {
        let _size = self.size;
    }

    /// The place that is held under a number.
    #[inline(always)]
    pub fn at(&self, number: u32) -> Option<u32>
        ensures { result ≡ held_at number self.now }
    {
        self.places[self.index_of(number)]
    }

    /// A place is held under a number from now on.
    #[inline(always)]
    pub fn put(&mut self, number: u32, place: u32)
        ensures { self.new ≡ with_held number (Some place) self.old }
    {
        let k = self.index_of(number);
        self.places[k] = Some(place);
    }

    /// What is held under a number isn't any more: its place.
    #[inline(always)]
    pub fn take(&mut self, number: u32) -> Option<u32>
        ensures answer { result ≡ held_at number self.old }
        ensures state { self.new ≡ with_held number None self.old }
    {
        let held = self.at(number);
        let k = self.index_of(number);
        self.places[k] = None;
        held
    }

    /// Where a number stands in the table.
    #[inline(always)]
    fn index_of(&self, number: u32) -> usize
        ensures is { result ≡ index_of number self.now }
        ensures within { result < length self.now.places }
    {
        (number % self.size) as usize
    }
}

/// The least power of two that isn't below a window.
fn size_for(window: u32) -> u32
    requires { window ≤ 1024 }
    ensures size { result ≡ size_for window }
    ensures wide { window ≤ result }
    ensures some { 1 ≤ result }
    ensures whole { 2 ^ 32 % result ≡ 0 }
{
    first_not_below(&SIZES, window)
}

/// The first of some sizes that isn't below a window, or the widest one.
fn first_not_below(sizes: &[u32], window: u32) -> u32
    ensures { result ≡ unwrap_or (find (λ size. nat_le window size) sizes.now) 1024 }
{
    for size in sizes {
        if window <= *size {
            return *size;
        }
    }
    1024
}

/// So many numbers, under which nothing is held.
fn none_held(alloc: Global, size: u32) -> Result<Vec<Option<u32>>, AllocError>
    ensures { IfOk result (λ places. places.items ≡ replicate size None) }
{
    let mut places = Vec::with_capacity(alloc, size as usize)?;
    for _ in 0..size {
        places.push_reserved(None);
    }
    Ok(places)
}
