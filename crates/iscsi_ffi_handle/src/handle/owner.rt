//! The owner of a side behind a pointer that names no type, since a side can't cross to C.

ghost use Rattle.std.specs.Prelude.{◌≡◌, Option, Some, None, IsSome};
ghost use Rattle.iscsi_ffi.specs.Standing.{Sided};
ghost use Rattle.iscsi_ffi_handle.specs.Ownership.{owned_by, side_coded};

use super::parts::Parts;
use iscsi_ffi::Side;
use std::alloc::Global;
use std::marker::Model;

/// A pointer that owns the box of a side, or nothing.
///
/// It can't be let go, so that no side is lost: an owner of a side is taken apart, one of nothing is ended.
#[repr(C)]
pub(super) struct Owner {
    at: *mut u8,
    alloc: Global,
    pub ghost side: { Option Sided } by { side_coded },
}

impl Model for Owner {
    ghost also_owns = { λ o. owned_by o.alloc o.side o.at };
}

impl Owner {
    /// An owner of nothing.
    #[inline(always)]
    pub(super) fn closed(alloc: Global) -> Owner
        ensures { result.side ≡ None }
    {
        Owner {
            at: std::ptr::null_mut(),
            alloc,
        }
    }

    /// An owner of these parts.
    #[inline(always)]
    pub(super) fn of_parts(parts: Parts<Side, Global>) -> Owner
        ensures { result.side ≡ Some parts.value }
    {
        let Parts { pointer, alloc } = parts;
        Owner {
            at: pointer as *mut u8,
            alloc,
        }
    }

    /// Ends an owner of nothing.
    #[inline(always)]
    pub(super) fn end(self)
        requires { self.side ≡ None }
    {
        let Owner { at: _, alloc: _ } = self;
    }

    /// The parts of what it owns.
    #[inline(always)]
    pub(super) fn into_parts(self) -> Parts<Side, Global>
        requires { IsSome self.side }
        ensures { self.side ≡ Some result.value }
    {
        let Owner { at, alloc } = self;
        Parts {
            pointer: at as *mut Side,
            alloc,
        }
    }
}

// SAFETY: it owns what it points to, and a side may go to another thread.
unsafe impl Send for Owner {}
