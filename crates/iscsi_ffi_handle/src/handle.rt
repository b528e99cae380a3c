//! The handle by which C and plain Rust keep the target's side of a session.

ghost use Rattle.std.specs.Prelude.{◌≡◌, Some, None, IfErr, IfOk, is_some, option_map};

mod asking;
mod calling;
mod opening;
mod outgoing;
mod owner;
mod parts;

use iscsi_ffi::{Answer, Side};
use owner::Owner;
use parts::Parts;
use std::alloc::Global;

/// The target's side of a session on the side of C or plain Rust: closed, or the owner of a side. In a clause `inside` is the side, if it
/// is open.
///
/// It begins as zeros, and a foreign caller never writes nor copies its fields. A Rattle caller may let it go: its drop closes it.
#[repr(C)]
pub struct Handle {
    is_open: bool,
    owner: Owner,
    pub ghost sound: { is_open ≡ is_some owner.side },
}

impl Drop for Handle {
    fn drop(self) {
        drop(self.into_side());
    }
}

impl Handle {
    ghost use Rattle.iscsi_ffi_handle.specs.Inside.{inside};
    ghost use Rattle.iscsi_ffi_handle.specs.Ready.{IsNotReady, IsReady};

    /// A closed handle.
    #[inline(always)]
    pub fn closed(alloc: Global) -> Handle
        ensures { inside result ≡ None }
    {
        Handle {
            is_open: false,
            owner: Owner::closed(alloc),
        }
    }

    /// Takes the side out of an open handle of which no actions wait, and leaves it closed.
    #[inline(always)]
    fn ready(&mut self, alloc: Global) -> Result<Box<Side>, Answer>
        ensures ready { IfOk result (λ side. IsReady (inside self.old) (inside self.new) side.value) }
        ensures refused { IfErr result (λ answer. IsNotReady (inside self.old) (inside self.new) answer) }
    {
        let Some(side) = self.take(alloc) else {
            return Err(Answer::NotOpen);
        };
        if side.waits() {
            self.put_back(side);
            return Err(Answer::ActionsWait);
        }
        Ok(side)
    }

    /// Takes the side out, and leaves the handle closed.
    #[inline(always)]
    fn take(&mut self, alloc: Global) -> Option<Box<Side>>
        ensures closed { inside self.new ≡ None }
        ensures side { option_map (λ b. b.value) result ≡ inside self.old }
    {
        std::mem::replace(self, Handle::closed(alloc)).into_side()
    }

    /// The side, if the handle is open.
    #[inline(always)]
    fn into_side(self) -> Option<Box<Side>>
        ensures { option_map (λ b. b.value) result ≡ inside self }
    {
        let Handle { is_open, owner } = self;
        if is_open {
            Some(owner.into_parts().into_box())
        } else {
            owner.end();
            None
        }
    }

    /// Puts a side into a closed handle.
    #[inline(always)]
    fn put_back(&mut self, side: Box<Side>)
        requires closed { inside self.old ≡ None }
        ensures side { inside self.new ≡ Some side.value }
    {
        let owner = Owner::of_parts(Parts::of(side));
        std::mem::replace(&mut self.owner, owner).end();
        self.is_open = true;
    }
}
