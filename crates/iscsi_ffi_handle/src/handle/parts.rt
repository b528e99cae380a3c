//! A box taken apart: its pointer, its allocator, and the value that it owns.

ghost use Rattle.std.specs.Prelude.{◌≡◌};
ghost use Rattle.std.specs.Box.Ownership.{box_owns};

use std::alloc::Allocator;
use std::marker::Model;

/// What a box is made of. The parts own what the box owned.
pub(super) struct Parts<T, A: Allocator> {
    pub(super) pointer: *mut T,
    pub(super) alloc: A,
    pub ghost value: { T },
}

impl<T, A: Allocator> Model for Parts<T, A> {
    ghost also_owns = { λ p. box_owns (A.dealloc_token p.alloc) T.row p.pointer p.value };
}

impl<T, A: Allocator> Parts<T, A> {
    /// Takes a box apart.
    #[inline(always)]
    pub(super) fn of(whole: Box<T, A>) -> Parts<T, A>
    where
        T: Drop,
        ensures { result.value ≡ whole.value }
    {
        let (pointer, alloc) = Box::into_raw_with_allocator(whole);
        Parts { pointer, alloc }
    }

    /// Puts the box together again.
    #[inline(always)]
    pub(super) fn into_box(self) -> Box<T, A>
        ensures { result.value ≡ self.value }
    {
        let Parts { pointer, alloc } = self;
        unsafe { Box::from_raw(alloc, pointer) }
    }
}
