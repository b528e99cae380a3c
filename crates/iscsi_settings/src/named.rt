//! The words of a command line, whatever the program's name is.

ghost use Rattle.std.specs.Prelude.{◌≡◌};

use std::env::{Env, FillError};

/// The program's name.
const NAME: &[u8] = b"iscsi-replay";

/// The environment of the process, with a name for the program that is text.
#[derive(Drop)]
pub struct Named<'a, R> {
    rt: &'a R,
}

impl<'a, R> Named<'a, R> {
    /// The environment of a process, with the program's own name.
    pub fn new(rt: &'a R) -> Named<'a, R>
        ensures { result.rt.now ≡ rt.now }
    {
        Named { rt }
    }
}

impl<R: Env> Env for Named<'_, R> {
    fn arg(&self, i: usize, buf: &mut [u8]) -> Result<usize, FillError> {
        if i > 0 {
            return self.rt.arg(i, buf);
        }
        if buf.len() < NAME.len() {
            return Err(FillError::TooLong);
        }
        buf[..NAME.len()].copy_from_slice(NAME);
        Ok(NAME.len())
    }

    fn var(&self, name: &str, buf: &mut [u8]) -> Result<usize, FillError> {
        self.rt.var(name, buf)
    }

    fn var_at(&self, i: usize, buf: &mut [u8]) -> Result<usize, FillError> {
        self.rt.var_at(i, buf)
    }
}
