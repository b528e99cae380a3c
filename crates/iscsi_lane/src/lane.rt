//! The lane.

ghost use Rattle.std.specs.Prelude.{◌≡◌, ◌+◌, ◌*◌, ◌<◌, ◌≤◌, None, false, true, is_some, nat_lt, not, length, slice_index_or, slice_set, IfOk};
ghost use Rattle.iscsi_outbox_state.specs.Lane.{any_in, arrived, awaited, cleared, count_in, dropped_on, first_due, goes_out_on, has_left, is_command, is_left, is_numbered, is_under_way_on, opened, owes, stopped, without_due};
ghost use Rattle.iscsi_lane.specs.Standings.{AreKnown, is_undue};

use crate::settling::one_if;
use crate::standings::Standings;
use iscsi_outbox_state::{Left, Undue};
use std::alloc::{AllocError, Global};
use std::marker::Model;

/// The commands that left and owe something, and the answers that wait for them, in the order of the log.
///
/// A command stands in the line of its unit and in that of its tag, and an abort's answer in the line of what it aims at. So
/// each call looks at the ends of two lines, and at one of the answers that are due in as many steps as halve them. A Logout's
/// answer has no line: while one waits, `take_due` looks at what held it back when it was looked at last, and goes on from there,
/// so that it passes each command once. Where nothing holds it back any more, `take_due` walks over the log to the answer that
/// is due first. `drop_on` and `clear` walk over the log, once.
pub struct Lane {
    standings: Standings,
    /// Of each connection, how many commands have something under way on it, and how many answers go out on it.
    under_way: Vec<usize>,
    going_out: Vec<usize>,
    /// None is due: it was looked for, and since then nothing changed by which one would be.
    settled: bool,
}

impl Drop for Lane {
    fn drop(self) {
        let Lane {
            standings: _standings,
            under_way: _under_way,
            going_out: _going_out,
            settled: _settled,
        } = self;
    }
}

impl Model for Lane {
    ghost use Rattle.iscsi_outbox_state.specs.Lane.{Lane as Kept};
    ghost use Rattle.iscsi_lane.specs.Counting.{IsKept};

    ghost Value = { Kept };

    ghost view = { λ s. s.standings };

    ghost invariant = { λ s. IsKept s.standings s.under_way.items s.going_out.items s.settled };
}

impl Lane {
    /// Nothing stands there. Connections have the places from 0 up to a number, and commands those from 1 up to one. So
    /// many answers may wait. It takes all its memory here.
    pub fn with_room(
        alloc: Global,
        conns: usize,
        commands: usize,
        answers: usize,
    ) -> Result<Lane, AllocError>
        requires conns { conns ≤ 65536 }
        requires places { 3 * (commands + answers) + 5 ≤ 4294967295 }
        ensures { IfOk result (λ s. s ≡ opened conns commands answers) }
    {
        Ok(Lane {
            standings: Standings::with_room(alloc, conns, commands, answers)?,
            under_way: vec![in alloc; 0; conns]?,
            going_out: vec![in alloc; 0; conns]?,
            settled: false,
        })
    }

    /// What holds of all lanes: each command owes something, and has a place that no other one has; no more answers wait
    /// than may; and each connection is one of the session's. It does nothing.
    #[inline(always)]
    pub fn known(&self)
        ensures { AreKnown self.now }
    {
        self.standings.known();
        let _under_way = &self.under_way;
    }

    /// A command left its task set by an abort or a Logout, and owes something.
    pub fn leave(&mut self, left: Left)
        requires owes { owes left ≡ true }
        requires some { 1 ≤ left.command }
        requires within { left.command ≤ self.old.commands }
        requires conn { left.conn < self.old.conns }
        requires none { any_in (is_command left.command) self.old ≡ false }
        ensures { self.new ≡ has_left left self.old }
    {
        self.standings.known();
        self.standings.leave(left);
        self.under_way[usize::from(left.conn)] += one_if(left.under_way);
    }

    /// An answer waits, behind all that stands there.
    pub fn wait(&mut self, answer: Undue)
        requires room { count_in is_undue self.old < self.old.answers }
        requires conn { answer.conn < self.old.conns }
        ensures { self.new ≡ awaited answer self.old }
    {
        self.standings.known();
        self.standings.wait(answer);
        self.settled = false;
        self.going_out[usize::from(answer.conn)] += 1;
    }

    /// The unit of a command doesn't touch the medium for it any more. Nothing changes where it doesn't stand there.
    pub fn stop(&mut self, command: u32)
        ensures { self.new ≡ stopped command self.old }
    {
        self.standings.known();
        if self.standings.stop(command).is_none() {
            return;
        }
        self.settled = false;
    }

    /// Nothing of a command is under way any more. Nothing changes where it doesn't stand there.
    pub fn arrive(&mut self, command: u32)
        ensures { self.new ≡ arrived command self.old }
    {
        self.standings.known();
        if let Some(left) = self.standings.arrive(command) {
            self.under_way[usize::from(left.conn)] -= one_if(left.under_way);
            self.settled = false;
        }
    }

    /// The answer that is due first goes, if one is due.
    pub fn take_due(&mut self) -> Option<Undue>
        ensures answer { result ≡ first_due self.old }
        ensures state { self.new ≡ without_due self.old }
    {
        let answer = take_unless_settled(&mut self.standings, &mut self.settled)?;
        self.going_out[usize::from(answer.conn)] -= 1;
        Some(answer)
    }

    /// The answers that would go out on a connection are dropped.
    pub fn drop_on(&mut self, conn: u16)
        ensures { self.new ≡ dropped_on conn self.old }
    {
        self.standings.drop_on(conn);
        self.settled = false;
        forget(&mut self.going_out, usize::from(conn));
    }

    /// The oldest answer that waits for other sessions, about this unit, waits for them no more.
    pub fn clear(&mut self, unit: u16)
        ensures { self.new ≡ cleared unit self.old }
    {
        self.standings.clear(unit);
        self.settled = false;
    }

    /// Whether a command stands there.
    pub fn has(&self, command: u32) -> bool
        ensures { result ≡ any_in (is_command command) self.now }
    {
        self.standings.has(command)
    }

    /// Whether a command has something under way on a connection.
    pub fn under_way_on(&self, conn: u16) -> bool
        ensures { result ≡ nat_lt 0 (count_in (is_under_way_on conn) self.now) }
    {
        is_some_at(&self.under_way, conn)
    }

    /// Whether an answer waits that goes out on a connection.
    #[inline(always)]
    pub fn waits_on(&self, conn: u16) -> bool
        ensures { result ≡ any_in (goes_out_on conn) self.now }
    {
        is_some_at(&self.going_out, conn)
    }

    /// How many commands stand there.
    #[inline(always)]
    pub fn owing(&self) -> usize
        ensures { result ≡ count_in is_left self.now }
    {
        self.standings.owing()
    }

    /// How many answers wait.
    #[inline(always)]
    pub fn answers_waiting(&self) -> usize
        ensures { result ≡ count_in is_undue self.now }
    {
        self.standings.answers_waiting()
    }

    /// How many answers to numbered requests wait.
    #[inline(always)]
    pub fn numbered(&self) -> usize
        ensures { result ≡ count_in is_numbered self.now }
    {
        self.standings.numbered()
    }
}

/// The answer that is due first goes, if one is due. Where none is, that is known from then on.
#[inline(always)]
fn take_unless_settled(standings: &mut Standings, settled: &mut bool) -> Option<Undue>
    requires { settled.old ≡ true → first_due standings.old ≡ None }
    ensures answer { result ≡ first_due standings.old }
    ensures state { standings.new ≡ without_due standings.old }
    ensures settled { settled.new ≡ not (is_some (first_due standings.old)) }
{
    if *settled {
        return None;
    }
    let taken = standings.take_due();
    *settled = taken.is_none();
    taken
}

/// Whether there is any of a connection, by the counts of all.
#[inline(always)]
fn is_some_at(counts: &[usize], conn: u16) -> bool
    ensures { result ≡ nat_lt 0 (slice_index_or counts.now conn 0) }
{
    let conn = usize::from(conn);
    conn < counts.len() && 0 < counts[conn]
}

/// Sets the count of a connection to 0, if it is one of those that are counted.
fn forget(counts: &mut Vec<usize>, conn: usize)
    ensures here { conn < length counts.old.items → counts.new.items ≡ slice_set counts.old.items conn 0 }
    ensures past { length counts.old.items ≤ conn → counts.new.items ≡ counts.old.items }
{
    if conn < counts.len() {
        counts[conn] = 0;
    }
}
