//! What isn't written yet.

ghost use Rattle.std.specs.Prelude.{◌≡◌, ◌+◌, ◌<◌, ◌≤◌, true, false, length, replicate, IfOk};
ghost use Rattle.iscsi_requests.specs.Conns.{count_all, of_conn, oldest};
ghost use Rattle.iscsi_requests.specs.Unwritten.{opened, popped, pushed};

use iscsi_lists::Lists;
use std::alloc::{AllocError, Global};
use std::marker::Model;

/// What was handed out on each connection and isn't written yet, in order, each with the place of its request, if it has one.
///
/// Each call takes the same time however much there is.
pub struct Unwritten {
    kept: Lists<Option<u32>>,
    /// How much there is on each connection.
    counts: Vec<u32>,
}

impl Drop for Unwritten {
    fn drop(self) {
        let Unwritten {
            kept: _kept,
            counts: _counts,
        } = self;
    }
}

impl Model for Unwritten {
    ghost use Rattle.iscsi_requests.specs.Unwritten.{Unwritten as UnwrittenValue};
    ghost use Rattle.iscsi_requests.specs.Kept.{AreCounted, unwritten_of};

    ghost Value = { UnwrittenValue };

    ghost view = { λ u. unwritten_of u.kept };

    ghost invariant = { λ u. AreCounted u.counts.items u.kept };
}

impl Unwritten {
    /// Nothing yet, on so many connections, with room for so much. It takes all its memory here.
    pub fn with_room(alloc: Global, conns: usize, room: usize) -> Result<Unwritten, AllocError>
        requires { room + conns + 2 ≤ 4294967295 }
        ensures { IfOk result (λ u. u ≡ opened conns room) }
    {
        Ok(Unwritten {
            kept: Lists::with_room(alloc, conns, room, None)?,
            counts: none_yet(alloc, conns)?,
        })
    }

    /// Whether there is as much as there is room for.
    #[inline(always)]
    pub fn is_full(&self) -> bool
        ensures yes { result ≡ true → count_all self.now.handed ≡ self.now.room }
        ensures no { result ≡ false → count_all self.now.handed < self.now.room }
    {
        self.kept.known();
        self.kept.is_full()
    }

    /// How much there is on a connection.
    #[inline(always)]
    pub fn count(&self, conn: usize) -> u32
        requires { conn < length self.now.handed }
        ensures { result ≡ length (of_conn conn self.now.handed) }
    {
        self.counts[conn]
    }

    /// Something was handed out on a connection, for a request or for none.
    #[inline(always)]
    pub fn push(&mut self, conn: usize, request: Option<u32>)
        requires conn { conn < length self.old.handed }
        requires room { count_all self.old.handed < self.old.room }
        ensures { self.new ≡ pushed conn request self.old }
    {
        self.kept.known();
        self.kept.push_back(conn, request);
        self.counts[conn] += 1;
    }

    /// What was handed out first on a connection is written: the place of its request, if it has one.
    #[inline(always)]
    pub fn pop(&mut self, conn: usize) -> Option<Option<u32>>
        requires { conn < length self.old.handed }
        ensures answer { result ≡ oldest (of_conn conn self.old.handed) }
        ensures state { self.new ≡ popped conn self.old }
    {
        let first = self.kept.pop_front(conn)?;
        self.counts[conn] -= 1;
        Some(first)
    }
}

/// Nothing on so many connections.
fn none_yet(alloc: Global, conns: usize) -> Result<Vec<u32>, AllocError>
    ensures { IfOk result (λ counts. counts.items ≡ replicate conns 0) }
{
    let mut counts = Vec::with_capacity(alloc, conns)?;
    for _ in 0..conns {
        counts.push_reserved(0);
    }
    Ok(counts)
}
