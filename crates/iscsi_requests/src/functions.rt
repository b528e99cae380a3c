//! The functions that wait.

ghost use Rattle.std.specs.Prelude.{◌≡◌, ◌+◌, ◌<◌, ◌≤◌, true, false, length, slice_index_or, IfOk};
ghost use Rattle.iscsi_requests.specs.Conns.{count_all};
ghost use Rattle.iscsi_requests.specs.Functions.{find_number, first_request, opened, popped, pushed, taken};
ghost use Rattle.iscsi_requests.specs.Kept.{IsFirst, slots_at};

use iscsi_lists::Lists;
use std::alloc::{AllocError, Global};
use std::marker::Model;

/// A function that waits: the number that it waits for, and the place of its request.
#[derive(Clone, Copy)]
pub(crate) struct WaitingFunction {
    pub(crate) number: u32,
    pub(crate) request: u32,
}

/// No function.
const NO_FUNCTION: WaitingFunction = WaitingFunction {
    number: 0,
    request: 0,
};

/// The functions that wait for their turn, by connection, in order of arrival.
///
/// Each call takes the same time however many functions there are, but for `take`, which looks at those of one connection.
pub struct WaitingFunctions {
    kept: Lists<WaitingFunction>,
}

impl Drop for WaitingFunctions {
    fn drop(self) {
        let WaitingFunctions { kept: _kept } = self;
    }
}

impl Model for WaitingFunctions {
    ghost use Rattle.iscsi_requests.specs.Functions.{WaitingFunctions as FunctionsValue};
    ghost use Rattle.iscsi_requests.specs.Kept.{functions_of};

    ghost Value = { FunctionsValue };

    ghost view = { λ f. functions_of f.kept };
}

impl WaitingFunctions {
    /// None yet, on so many connections, with room for so many. It takes all its memory here.
    pub fn with_room(
        alloc: Global,
        conns: usize,
        room: usize,
    ) -> Result<WaitingFunctions, AllocError>
        requires { room + conns + 2 ≤ 4294967295 }
        ensures { IfOk result (λ f. f ≡ opened conns room) }
    {
        Ok(WaitingFunctions {
            kept: Lists::with_room(alloc, conns, room, NO_FUNCTION)?,
        })
    }

    /// Whether there are as many as there is room for.
    pub fn is_full(&self) -> bool
        ensures yes { result ≡ true → count_all self.now.waiting ≡ self.now.room }
        ensures no { result ≡ false → count_all self.now.waiting < self.now.room }
    {
        self.kept.known();
        self.kept.is_full()
    }

    /// A function waits from now on, behind all others of its connection.
    pub fn push(&mut self, conn: usize, number: u32, request: u32)
        requires conn { conn < length self.old.waiting }
        requires room { count_all self.old.waiting < self.old.room }
        ensures { self.new ≡ pushed conn (record { number = number; request = request }) self.old }
    {
        self.kept.known();
        self.kept
            .push_back(conn, WaitingFunction { number, request });
    }

    /// The first function of a connection that waits for a number doesn't wait any more: its request.
    pub fn take(&mut self, conn: usize, number: u32) -> Option<u32>
        requires { conn < length self.old.waiting }
        ensures answer { result ≡ find_number conn number self.old }
        ensures state { self.new ≡ taken conn number self.old }
    {
        self.kept.known();
        let slot = first_with(&self.kept, conn, number)?;
        Some(self.kept.remove(slot).request)
    }

    /// The first function of a connection doesn't wait any more: its request.
    pub fn pop(&mut self, conn: usize) -> Option<u32>
        requires { conn < length self.old.waiting }
        ensures answer { result ≡ first_request conn self.old }
        ensures state { self.new ≡ popped conn self.old }
    {
        let first = self.kept.pop_front(conn)?;
        Some(first.request)
    }
}

/// The slot of the first function of a connection that waits for a number.
fn first_with(kept: &Lists<WaitingFunction>, conn: usize, number: u32) -> Option<u32>
    requires { conn < length kept.now.lists }
    ensures { IsFirst (slots_at kept.now conn) kept.now.values number result }
{
    kept.known();
    let mut at = kept.first(conn);
    while let Some(slot) = at {
        if kept.at(slot).number == number {
            return Some(slot);
        }
        at = kept.next(slot);
    }
    None
}
