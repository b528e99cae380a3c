//! A handle is opened, and closed.

ghost use Rattle.std.specs.Prelude.{◌≡◌, [], None, false, IfOk};
ghost use Rattle.iscsi_ffi.specs.Opened.{RefusesAs};
ghost use Rattle.iscsi_ffi.specs.Options.{interface_of, is_valid};
ghost use Rattle.iscsi_ffi.specs.Standing.{Follows, is_waiting};
ghost use Rattle.iscsi_ffi_handle.specs.Inside.{inside};
ghost use Rattle.iscsi_ffi_handle.specs.Opening.{Opens, closing_answer};

use crate::handle::Handle;
use iscsi_ffi::{Answer, PlainOptions, Side};
use std::alloc::Global;

impl Handle {
    /// Opens a side of a session, of which no connection has joined, with connections of these CIDs: 1 to 64 of them, none twice. It takes
    /// all its memory here.
    ///
    /// `AlreadyOpen` where the handle is open, `BadOptions` where an option is outside its limits or a CID stands twice, `NoMemory`.
    /// Each leaves the handle as it was.
    pub fn open(&mut self, alloc: Global, options: &PlainOptions, cids: &[u16]) -> Answer
        ensures { Opens options.now cids.now (inside self.old) (inside self.new) result }
    {
        if self.is_open {
            return Answer::AlreadyOpen;
        }
        match opened(alloc, options, cids) {
            Ok(side) => {
                self.put_back(side);
                Answer::Done
            }
            Err(answer) => answer,
        }
    }

    /// Closes the side, and frees what it holds. No words are forgotten: the caller frees what it keeps for them. `NotOpen` where it is
    /// closed.
    pub fn close(&mut self, alloc: Global) -> Answer
        ensures closed { inside self.new ≡ None }
        ensures answer { result ≡ closing_answer (inside self.old) }
    {
        match self.take(alloc) {
            Some(side) => {
                drop(side);
                Answer::Done
            }
            None => Answer::NotOpen,
        }
    }
}

/// A side by these options, in a box.
fn opened(alloc: Global, options: &PlainOptions, cids: &[u16]) -> Result<Box<Side>, Answer>
    ensures follows { IfOk result (λ side. Follows (interface_of options.now cids.now) side.value []) }
    ensures nothing { IfOk result (λ side. is_waiting side.value ≡ false) }
    ensures refused { RefusesAs (is_valid options.now cids.now) result }
{
    let side = match Side::open(alloc, options, cids) {
        Ok(side) => side,
        Err(answer) => return Err(answer),
    };
    match Box::new(alloc, side) {
        Ok(side) => Ok(side),
        Err(_) => Err(Answer::NoMemory),
    }
}
