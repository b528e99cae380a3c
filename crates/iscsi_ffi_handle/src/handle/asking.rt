//! What a handle is asked, which nothing changes by.

ghost use Rattle.std.specs.Prelude.{◌≡◌};
ghost use Rattle.iscsi_ffi_handle.specs.Asking.{asked_in, joins_in, numbers_in, takes_in};
ghost use Rattle.iscsi_ffi_handle.specs.Inside.{inside};

use crate::handle::Handle;
use crate::plain::PlainNumbers;
use iscsi_ffi::Answer;
use std::alloc::Global;

impl Handle {
    /// ExpCmdSN as the last event left it, and the last MaxCmdSN that was shown. `NotOpen`.
    pub fn numbers(&mut self, alloc: Global) -> Result<PlainNumbers, Answer>
        ensures numbers { result ≡ numbers_in (inside self.old) }
        ensures same { inside self.new ≡ inside self.old }
    {
        let Some(side) = self.take(alloc) else {
            return Err(Answer::NotOpen);
        };
        let numbers = side.numbers();
        self.put_back(side);
        Ok(PlainNumbers {
            exp_cmd_sn: numbers.exp,
            max_cmd_sn: numbers.max,
        })
    }

    /// Whether one more request may be taken from any connection: else `arrive` answers `Busy`. No where the handle is closed.
    pub fn may_take(&mut self, alloc: Global) -> bool
        ensures answer { result ≡ takes_in (inside self.old) }
        ensures same { inside self.new ≡ inside self.old }
    {
        let Some(side) = self.take(alloc) else {
            return false;
        };
        let may = side.may_take();
        self.put_back(side);
        may
    }

    /// Whether a ping of the library's own was handed out on a connection, and isn't known to have arrived. No where the handle is closed.
    pub fn is_asked(&mut self, alloc: Global, cid: u16) -> bool
        ensures answer { result ≡ asked_in cid (inside self.old) }
        ensures same { inside self.new ≡ inside self.old }
    {
        let Some(side) = self.take(alloc) else {
            return false;
        };
        let is = side.is_asked(cid);
        self.put_back(side);
        is
    }

    /// Whether `join` would be done. No where the handle is closed.
    pub fn may_join(&mut self, alloc: Global, cid: u16) -> bool
        ensures answer { result ≡ joins_in cid (inside self.old) }
        ensures same { inside self.new ≡ inside self.old }
    {
        let Some(side) = self.take(alloc) else {
            return false;
        };
        let may = side.may_join(cid);
        self.put_back(side);
        may
    }
}
