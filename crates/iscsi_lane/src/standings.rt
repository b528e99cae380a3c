//! What stands in the lane, in slots.

ghost use Rattle.std.specs.Prelude.{◌≡◌, ◌+◌, ◌*◌, ◌<◌, ◌≤◌, false, true, length, IfOk};
ghost use Rattle.iscsi_outbox_state.specs.Lane.{any_in, arrived, awaited, cleared, count_in, dropped_on, first_due, has_left, is_command, is_left, is_numbered, opened, owes, stopped, without_due};
ghost use Rattle.iscsi_lane.specs.Standings.{AreSound, is_undue, left_in};

use crate::dropping::drop_all;
use crate::lines::Lines;
use crate::settling::{AWAY, FREE, LOG, find, one_if};
use crate::walking::first_uncleared;
use iscsi_lists::Lists;
use iscsi_outbox_state::{Left, Standing, Undue};
use std::alloc::{AllocError, Global};
use std::marker::Model;

/// Any command: what a slot has that was never used.
const NOBODY: Standing = Standing::Left(Left {
    command: 0,
    conn: 0,
    unit: 0,
    tag: 0,
    running: false,
    under_way: false,
});

/// The commands that left and owe something, and the answers that wait for them, in the order of the log.
///
/// A command stands in the slot of its place, and answers in those behind the places of all commands.
pub(crate) struct Standings {
    log: Lists<Standing>,
    lines: Lines,
    conns: usize,
    commands: usize,
    answers: usize,
    /// How many commands stand there, how many answers, and how many of these answer a numbered request.
    owing: usize,
    waiting: usize,
    numbered: usize,
}

impl Drop for Standings {
    fn drop(self) {
        let Standings {
            log: _log,
            lines: _lines,
            conns: _conns,
            commands: _commands,
            answers: _answers,
            owing: _owing,
            waiting: _waiting,
            numbered: _numbered,
        } = self;
    }
}

impl Model for Standings {
    ghost use Rattle.iscsi_outbox_state.specs.Lane.{Lane as Kept};
    ghost use Rattle.iscsi_lane.specs.Lining.{IsLanes};
    ghost use Rattle.iscsi_lane.specs.Standings.{lane_of};

    ghost Value = { Kept };

    ghost view = { λ s. lane_of s.log s.conns s.commands s.answers };

    ghost invariant = { λ s. IsLanes s.lines s.log s.commands s.answers s.owing s.waiting s.numbered };
}

impl Standings {
    /// Nothing stands there. Commands have the places from 1 up to a number, and so many answers may wait. It takes all
    /// its memory here.
    pub(crate) fn with_room(
        alloc: Global,
        conns: usize,
        commands: usize,
        answers: usize,
    ) -> Result<Standings, AllocError>
        requires { 3 * (commands + answers) + 5 ≤ 4294967295 }
        ensures { IfOk result (λ s. s ≡ opened conns commands answers) }
    {
        let mut log = Lists::with_room(alloc, 3, commands + answers, NOBODY)?;
        for _ in 0..answers {
            log.known();
            log.push_back(FREE, NOBODY);
        }
        for _ in 0..commands {
            log.known();
            log.push_back(AWAY, NOBODY);
        }
        Ok(Standings {
            log,
            lines: Lines::with_room(alloc, commands + answers)?,
            conns,
            commands,
            answers,
            owing: 0,
            waiting: 0,
            numbered: 0,
        })
    }

    /// What holds of all lanes: each command owes something, and has a place that no other one has; no more answers wait
    /// than may. It does nothing.
    #[inline(always)]
    pub(crate) fn known(&self)
        ensures { AreSound self.now }
    {
        self.log.known();
        let _commands = self.commands;
    }

    /// A command left its task set by an abort or a Logout, and owes something.
    pub(crate) fn leave(&mut self, left: Left)
        requires owes { owes left ≡ true }
        requires some { 1 ≤ left.command }
        requires within { left.command ≤ self.old.commands }
        requires none { any_in (is_command left.command) self.old ≡ false }
        ensures { self.new ≡ has_left left self.old }
    {
        self.log.known();
        self.lines.enter(&self.log, left);
        self.log.move_to_back(left.command, LOG);
        self.log.set(left.command, Standing::Left(left));
        self.owing += 1;
    }

    /// An answer waits, behind all that stands there.
    pub(crate) fn wait(&mut self, answer: Undue)
        requires { count_in is_undue self.old < self.old.answers }
        ensures { self.new ≡ awaited answer self.old }
    {
        self.log.known();
        let slot = self.log.first(FREE).unwrap();
        self.lines.join(&mut self.log, slot, answer);
        self.waiting += 1;
        self.numbered += one_if(answer.numbered);
    }

    /// The unit of a command doesn't touch the medium for it any more. It answers the command, if it stood there.
    pub(crate) fn stop(&mut self, command: u32) -> Option<Left>
        ensures command { result ≡ left_in command self.old.items }
        ensures state { self.new ≡ stopped command self.old }
    {
        self.log.known();
        let left = find(&self.log, self.commands, command)?;
        self.owing -= self.lines.owe_less(
            &mut self.log,
            left,
            Left {
                running: false,
                ..left
            },
        );
        Some(left)
    }

    /// Nothing of a command is under way any more. It answers the command, if it stood there.
    pub(crate) fn arrive(&mut self, command: u32) -> Option<Left>
        ensures command { result ≡ left_in command self.old.items }
        ensures state { self.new ≡ arrived command self.old }
    {
        self.log.known();
        let left = find(&self.log, self.commands, command)?;
        self.owing -= self.lines.owe_less(
            &mut self.log,
            left,
            Left {
                under_way: false,
                ..left
            },
        );
        Some(left)
    }

    /// The answer that is due first goes. Where answers wait, the lines tell it, or a walk over the log does.
    pub(crate) fn take_due(&mut self) -> Option<Undue>
        ensures answer { result ≡ first_due self.old }
        ensures state { self.new ≡ without_due self.old }
    {
        if self.waiting == 0 {
            return None;
        }
        self.log.known();
        let (_slot, answer) = self.lines.take(&mut self.log)?;
        self.waiting -= 1;
        self.numbered -= one_if(answer.numbered);
        Some(answer)
    }

    /// The answers that would go out on a connection are dropped. It walks over the log, once.
    pub(crate) fn drop_on(&mut self, conn: u16)
        ensures { self.new ≡ dropped_on conn self.old }
    {
        let dropped = drop_all(&mut self.lines, &mut self.log, conn);
        self.waiting -= dropped.answers;
        self.numbered -= dropped.numbered;
    }

    /// The oldest answer that waits for other sessions, about this unit, waits for them no more. It walks over the log.
    pub(crate) fn clear(&mut self, unit: u16)
        ensures { self.new ≡ cleared unit self.old }
    {
        self.log.known();
        let Some((slot, answer)) = first_uncleared(&self.log, unit) else {
            return;
        };
        self.lines.clear(&mut self.log, slot, unit, answer);
    }

    /// Whether a command stands there.
    pub(crate) fn has(&self, command: u32) -> bool
        ensures { result ≡ any_in (is_command command) self.now }
    {
        self.log.known();
        find(&self.log, self.commands, command).is_some()
    }

    /// How many commands stand there.
    #[inline(always)]
    pub(crate) fn owing(&self) -> usize
        ensures { result ≡ count_in is_left self.now }
    {
        self.owing
    }

    /// How many answers wait.
    #[inline(always)]
    pub(crate) fn answers_waiting(&self) -> usize
        ensures { result ≡ count_in is_undue self.now }
    {
        self.waiting
    }

    /// How many answers to numbered requests wait.
    #[inline(always)]
    pub(crate) fn numbered(&self) -> usize
        ensures { result ≡ count_in is_numbered self.now }
    {
        self.numbered
    }
}
