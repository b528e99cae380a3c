//! The jobs of commands that aren't enabled yet.

ghost use Rattle.std.specs.Prelude.{◌≡◌, ◌+◌, ◌≤◌, ◌++◌, length, position};
ghost use Rattle.std.specs.VecDeque.{deque_len, deque_capacity};
ghost use Rattle.iscsi_threads.specs.rules.Desks.{is_for, job_for, seen, jobs_from, known_after, InOrderOfTickets, EnterAbove};

use crate::job::Job;
use iscsi_session::{Attr, Effect};
use iscsi_wire::Request;
use std::collections::VecDeque;

/// The request that executes, and the jobs of the commands that entered and aren't enabled yet, oldest first: tickets
/// go up along them.
pub(crate) struct Desk {
    pub(crate) last: Option<Request>,
    pub(crate) dormant: VecDeque<Job>,
}

impl Drop for Desk {
    fn drop(self) {
        let Desk {
            last: _last,
            dormant: _dormant,
        } = self;
    }
}

// Where the job of this ticket is.
fn place_of(jobs: &VecDeque<Job>, ticket: u64) -> Option<usize>
    requires { InOrderOfTickets jobs.now.items }
    ensures { result ≡ position (is_for ticket) jobs.now.items }
{
    jobs.binary_search_by_key(&ticket, |job| job.ticket).ok()
}

// The job of a command that enters as this request executes.
fn job_of(request: &Request, ticket: u64, unit: u16, attr: Attr) -> Job
    ensures { result ≡ job_for request.now ticket unit attr }
{
    Job {
        ticket,
        unit,
        itt: request.itt(),
        attr,
        cdb: request.cdb(),
    }
}

/// Notes the effects of an event, and puts the jobs of the commands that became enabled behind the fresh ones. Those of
/// the two commonest events are noted straight: the job of a command that is enabled as it enters never waits.
pub(crate) fn note_all(desk: &mut Desk, fresh: &mut VecDeque<Job>, effects: &[Effect])
    requires desk { deque_len desk.old.dormant + length effects.now ≤ deque_capacity desk.old.dormant }
    requires fresh { deque_len fresh.old + length effects.now ≤ deque_capacity fresh.old }
    requires numbered { EnterAbove (seen desk.old) effects.now }
    ensures jobs { fresh.new.items ≡ fresh.old.items ++ jobs_from (seen desk.old) effects.now }
    ensures known { seen desk.new ≡ known_after (seen desk.old) effects.now }
{
    if let [Effect::Leave { ticket, .. }, Effect::Send { .. }] = effects {
        desk.forget(*ticket);
        return;
    }
    if let [first, second, third] = effects
        && let Effect::Deliver { request } = first
        && let Effect::Enter { ticket, unit, attr } = second
        && let Effect::Enable {
            ticket: enabled,
            ..
        } = third
        && *enabled == *ticket
    {
        desk.last = Some(*request);
        fresh.push_back_reserved(job_of(request, *ticket, *unit, *attr));
        return;
    }
    note_each(desk, fresh, effects);
}

// Notes the effects of any event, one by one.
#[inline(never)]
fn note_each(desk: &mut Desk, fresh: &mut VecDeque<Job>, effects: &[Effect])
    requires desk { deque_len desk.old.dormant + length effects.now ≤ deque_capacity desk.old.dormant }
    requires fresh { deque_len fresh.old + length effects.now ≤ deque_capacity fresh.old }
    requires numbered { EnterAbove (seen desk.old) effects.now }
    ensures jobs { fresh.new.items ≡ fresh.old.items ++ jobs_from (seen desk.old) effects.now }
    ensures known { seen desk.new ≡ known_after (seen desk.old) effects.now }
{
    for effect in effects {
        if let Some(job) = desk.note(effect) {
            fresh.push_back_reserved(job);
        }
    }
}

impl Desk {
    ghost use Rattle.std.specs.Prelude.{◌≡◌, ◌≤◌, ◌+◌, find};
    ghost use Rattle.std.specs.VecDeque.{deque_len, deque_capacity};
    ghost use Rattle.iscsi_rules.specs.declared.effect.Effect.{Effect};
    ghost use Rattle.iscsi_threads.specs.rules.Desks.{is_for, without, entered, seen, after_effect, job_at, InOrderOfTickets};

    // Takes out the job of this ticket.
    fn take(&mut self, ticket: u64) -> Option<Job>
        requires { InOrderOfTickets self.old.dormant.items }
        ensures job { result ≡ find (is_for ticket) self.old.dormant.items }
        ensures dormant { self.new.dormant.items ≡ without ticket self.old.dormant.items }
        ensures last { self.new.last ≡ self.old.last }
        ensures len { deque_len self.new.dormant ≤ deque_len self.old.dormant }
        ensures capacity { deque_capacity self.new.dormant ≡ deque_capacity self.old.dormant }
    {
        let at = place_of(&self.dormant, ticket)?;
        self.dormant.remove(at)
    }

    // Drops the job of this ticket. Mostly none waits, since the command was enabled before it leaves.
    fn forget(&mut self, ticket: u64)
        requires { InOrderOfTickets self.old.dormant.items }
        ensures dormant { self.new.dormant.items ≡ without ticket self.old.dormant.items }
        ensures last { self.new.last ≡ self.old.last }
        ensures len { deque_len self.new.dormant ≤ deque_len self.old.dormant }
        ensures capacity { deque_capacity self.new.dormant ≡ deque_capacity self.old.dormant }
    {
        if !self.dormant.is_empty() {
            self.take(ticket);
        }
    }

    // A command enters as the last request executes.
    fn enter(&mut self, ticket: u64, unit: u16, attr: Attr)
        requires { deque_len self.old.dormant + 1 ≤ deque_capacity self.old.dormant }
        ensures dormant { seen self.new ≡ after_effect (seen self.old) (Effect.Enter ticket unit attr) }
        ensures len { deque_len self.new.dormant ≤ deque_len self.old.dormant + 1 }
        ensures capacity { deque_capacity self.new.dormant ≡ deque_capacity self.old.dormant }
    {
        if let Some(request) = self.last {
            self.dormant
                .push_back_reserved(job_of(&request, ticket, unit, attr));
        }
    }

    // Notes an effect. The answer is the job of the command that becomes enabled.
    fn note(&mut self, effect: &Effect) -> Option<Job>
        requires rising { InOrderOfTickets self.old.dormant.items }
        requires room { deque_len self.old.dormant + 1 ≤ deque_capacity self.old.dormant }
        ensures seen { seen self.new ≡ after_effect (seen self.old) effect.now }
        ensures job { result ≡ job_at (seen self.old) effect.now }
        ensures len { deque_len self.new.dormant ≤ deque_len self.old.dormant + 1 }
        ensures capacity { deque_capacity self.new.dormant ≡ deque_capacity self.old.dormant }
    {
        match *effect {
            Effect::Deliver { request } | Effect::Immediate { request } => {
                self.last = Some(request);
                None
            }
            Effect::Enter { ticket, unit, attr } => {
                self.enter(ticket, unit, attr);
                None
            }
            Effect::Enable { ticket, .. } => self.take(ticket),
            Effect::Leave { ticket, .. } => {
                self.forget(ticket);
                None
            }
            _ => None,
        }
    }
}
