//! The target's side of a session.

mod arriving;
mod asking;
mod completing;
mod events;
mod joining;
mod opening;
mod outgoing;
mod responding;
mod told;

use iscsi_ffi_desk::Desk;
use iscsi_host::Host;
pub use outgoing::Next;
use std::alloc::Global;
use std::marker::Model;

/// The target's side of a session: the session, what goes out of it, and what the target is told.
pub struct Side {
    host: Host,
    desk: Desk,
    /// How many events there were ..
    taken: u64,
    /// .. and may be; so many of these are kept back for losses and completions.
    events: u64,
    kept_back: u64,
    /// The most PDUs of a connection that are handed out and aren't written.
    unwritten: u32,
    /// How many of the actions that were told are handed over ..
    given: usize,
    /// .. and of those that tell what is forgotten.
    forgotten: usize,
}

impl Drop for Side {
    fn drop(self) {
        let Side {
            host: _host,
            desk: _desk,
            taken: _taken,
            events: _events,
            kept_back: _kept_back,
            unwritten: _unwritten,
            given: _given,
            forgotten: _forgotten,
        } = self;
    }
}

impl Model for Side {
    ghost use Rattle.iscsi_ffi.specs.Standing.{Sided};

    ghost Value = { Sided };

    ghost view = { λ s. record {
      host = s.host;
      desk = s.desk;
      taken = s.taken;
      events = s.events;
      kept_back = s.kept_back;
      unwritten = s.unwritten;
      given = s.given;
      forgotten = s.forgotten;
    } };
}
