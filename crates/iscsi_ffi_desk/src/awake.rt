//! Which connections were told to be ready.

ghost use Rattle.std.specs.Prelude.{◌≡◌, ◌<◌, ◌==◌, true, false, length, replicate, slice_index_or, slice_set, IfOk};
ghost use Rattle.iscsi_ffi_desk.specs.Awake.{asleep_in};

use std::alloc::{AllocError, Global};
use std::marker::Model;

/// Which connections were told to be ready, and didn't give nothing since. Mostly all were, which is known without a look at each.
pub(crate) struct Awake {
    told: Vec<bool>,
    /// How many weren't.
    asleep: usize,
}

impl Drop for Awake {
    fn drop(self) {
        let Awake {
            told: _told,
            asleep: _asleep,
        } = self;
    }
}

impl Model for Awake {
    ghost use Rattle.std.specs.Prelude.{◌≡◌, List, Bool};
    ghost use Rattle.iscsi_ffi_desk.specs.Awake.{asleep_in};

    ghost Value = { List Bool };

    ghost view = { λ a. a.told.items };

    ghost invariant = { λ a. a.asleep ≡ asleep_in a.told.items };
}

impl Awake {
    /// So many connections, none of which was told. It takes all its memory here.
    pub(crate) fn none(alloc: Global, conns: usize) -> Result<Awake, AllocError>
        ensures { IfOk result (λ a. a ≡ replicate conns false) }
    {
        Ok(Awake {
            told: none_told(alloc, conns)?,
            asleep: conns,
        })
    }

    /// Whether all were.
    #[inline(always)]
    pub(crate) fn are_all(&self) -> bool
        ensures { result ≡ (asleep_in self.now == 0) }
    {
        self.asleep == 0
    }

    /// Whether one was.
    #[inline(always)]
    pub(crate) fn is_awake(&self, conn: usize) -> bool
        requires { conn < length self.now }
        ensures { result ≡ slice_index_or self.now conn false }
    {
        self.told[conn]
    }

    /// One is told that wasn't.
    #[inline(always)]
    pub(crate) fn wake(&mut self, conn: usize)
        requires within { conn < length self.old }
        requires sleeps { slice_index_or self.old conn false ≡ false }
        ensures { self.new ≡ slice_set self.old conn true }
    {
        self.told[conn] = true;
        self.asleep -= 1;
    }

    /// One is to be told again.
    #[inline(always)]
    pub(crate) fn put_to_sleep(&mut self, conn: usize)
        requires { conn < length self.old }
        ensures { self.new ≡ slice_set self.old conn false }
    {
        if self.told[conn] {
            self.told[conn] = false;
            self.asleep += 1;
        }
    }
}

/// A flag for each of so many connections, none set.
fn none_told(alloc: Global, conns: usize) -> Result<Vec<bool>, AllocError>
    ensures { IfOk result (λ told. told.items ≡ replicate conns false) }
{
    vec![in alloc; false; conns]
}
