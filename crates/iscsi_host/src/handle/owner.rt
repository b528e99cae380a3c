//! The owner of a host behind a pointer that names no type, since a host can't cross to C.

ghost use Rattle.std.specs.Prelude.{◌≡◌, Option, Some, None, IsSome};
ghost use Rattle.iscsi_host.specs.Serving.{Hosted};
ghost use Rattle.iscsi_host.specs.Ownership.{owned_by, host_coded};

use super::parts::Parts;
use crate::host::Host;
use std::alloc::Global;
use std::marker::Model;

/// A pointer that owns the box of a host, or nothing.
///
/// It can't be let go, so that no host is lost: an owner of a host is taken apart, one of nothing is ended.
#[repr(C)]
pub(super) struct Owner {
    at: *mut u8,
    alloc: Global,
    pub ghost host: { Option Hosted } by { host_coded },
}

impl Model for Owner {
    ghost also_owns = { λ o. owned_by o.alloc o.host o.at };
}

impl Owner {
    /// An owner of nothing.
    pub(super) fn closed(alloc: Global) -> Owner
        ensures { result.host ≡ None }
    {
        Owner {
            at: std::ptr::null_mut(),
            alloc,
        }
    }

    /// An owner of these parts.
    pub(super) fn of_parts(parts: Parts<Host, Global>) -> Owner
        ensures { result.host ≡ Some parts.value }
    {
        let Parts { pointer, alloc } = parts;
        Owner {
            at: pointer as *mut u8,
            alloc,
        }
    }

    /// Ends an owner of nothing.
    pub(super) fn end(self)
        requires { self.host ≡ None }
    {
        let Owner { at: _, alloc: _ } = self;
    }

    /// The parts of what it owns.
    pub(super) fn into_parts(self) -> Parts<Host, Global>
        requires { IsSome self.host }
        ensures { self.host ≡ Some result.value }
    {
        let Owner { at, alloc } = self;
        Parts {
            pointer: at as *mut Host,
            alloc,
        }
    }
}
