//! What the effects of an event make of the requests, one effect after the other.

ghost use Rattle.std.specs.Prelude.{◌≡◌, ◌≢◌, Some, None, true};
ghost use Rattle.iscsi_rules.specs.declared.effect.Why.{Why};
ghost use Rattle.iscsi_rules.specs.declared.effect.Effect.TheVariants.{Ignore};
ghost use Rattle.iscsi_outbox_steps.specs.State.{place_of};
ghost use Rattle.iscsi_ffi_commands.specs.Commands.{is_going, is_marked};
ghost use Rattle.iscsi_ffi_steps.specs.Walk.{answering, conn_of, deliver, empty, end_item, enter, function_on, immediate, leave, may_wait, on_effect, on_effects, release, send, send_as, take_out, told_to_stop, wait};
ghost use Rattle.iscsi_ffi_steps.specs.Steps.{walk_from};
ghost use Rattle.iscsi_ffi_desk.specs.declared.course.Course.{Course};
ghost use Rattle.iscsi_ffi_desk.specs.Courses.{HasEntered, executing, walk_of};

use crate::course::Course;
use crate::desk::Desk;
use iscsi_ffi_commands::{Command, Stage};
use iscsi_ffi_rules::{Action, StopReason};
use iscsi_rules::Effect;
use iscsi_tasks::Attr;
use iscsi_wire::Request;

impl Desk {
    /// Takes the effects of an event, in order. `own`: the request that arrives in it, if it isn't held.
    pub(super) fn walk(&mut self, effects: &[Effect], own: Option<u32>)
        ensures { self.new ≡ (on_effects true effects.now (walk_from own self.old)).doing }
    {
        let mut course = Course::begin(own, self.outbox.sent());
        for (at, effect) in effects.iter().enumerate() {
            self.take_effect(at == 0, effect, &mut course);
        }
        self.end_item(&mut course);
    }

    /// Takes an effect. `first`: nothing was before it in its event.
    fn take_effect(&mut self, first: bool, effect: &Effect, course: &mut Course)
        ensures { walk_of self.new course.new ≡ on_effect first effect.now (walk_of self.old course.old) }
    {
        match effect {
            Effect::Deliver { request } => self.deliver(request, course),
            Effect::Immediate { request } => self.take_immediate(first, request, course),
            Effect::Wait { request } => self.wait(request, course),
            Effect::Empty { sn } => self.empty(*sn),
            Effect::Enter { ticket, unit, attr } => {
                self.enter(*ticket, *unit, *attr, course);
            }
            Effect::Leave { ticket, .. } => self.leave(*ticket, course),
            Effect::Send { conn, .. } => self.send(*conn, course),
            Effect::CloseConn { conn } => self.drop_functions_of(*conn),
            Effect::CloseSession => self.drop_functions(),
            Effect::Ignore { .. } => self.ignore(course),
            Effect::Void { .. } | Effect::Enable { .. } => {}
        }
    }

    /// What executed and was neither answered nor entered is over.
    #[inline(always)]
    pub(super) fn end_item(&mut self, course: &mut Course)
        ensures { walk_of self.new course.new ≡ end_item (walk_of self.old course.old) }
    {
        if let Some(request) = course.current {
            self.drop_request(request);
        }
        course.current = None;
        course.by = None;
    }

    /// A request is over that no reply or command has. Mostly there is none.
    #[inline(never)]
    fn drop_request(&mut self, request: u32)
        ensures { self.new ≡ release request self.old }
    {
        self.release(request);
    }

    /// A numbered request executes, which was held.
    #[inline(always)]
    pub(super) fn deliver(&mut self, request: &Request, course: &mut Course)
        ensures { walk_of self.new course.new ≡ deliver request.now (walk_of self.old course.old) }
    {
        self.end_item(course);
        let place = self.held.take(request.cmd_sn());
        course.execute(request, place);
    }

    /// An immediate one executes: the one that arrives, or a function that waited.
    #[inline(never)]
    fn take_immediate(&mut self, first: bool, request: &Request, course: &mut Course)
        ensures { walk_of self.new course.new ≡ immediate first request.now (walk_of self.old course.old) }
    {
        self.end_item(course);
        if let Some(place) = course.own {
            course.execute(request, Some(place));
            course.own = None;
        } else if first {
            course.execute(request, None);
        } else {
            let place = self.take_function(request);
            course.execute(request, place);
        }
    }

    /// The place of a function that waited, and doesn't any more.
    fn take_function(&mut self, request: &Request) -> Option<u32>
        ensures { (course : Course) → walk_of self.new (executing request.now result course) ≡ function_on request.now (conn_of self.old.state request.now) (walk_of self.old course) }
    {
        let conn = self.outbox.place(request.conn())?;
        self.functions.take(conn, request.cmd_sn())
    }

    /// The function that arrives waits for its turn.
    #[inline(never)]
    fn wait(&mut self, request: &Request, course: &mut Course)
        ensures { walk_of self.new course.new ≡ wait request.now (walk_of self.old course.old) }
    {
        self.end_item(course);
        let (Some(conn), Some(place)) = (self.outbox.place(request.conn()), course.own) else {
            return;
        };
        if !self.functions.is_full() {
            self.functions.push(conn, request.cmd_sn(), place);
            course.own = None;
        }
    }

    /// What is held at a number is taken out.
    #[inline(never)]
    fn empty(&mut self, number: u32)
        ensures { (course : Course) → walk_of self.new course ≡ empty number (walk_of self.old course) }
    {
        let held = self.held.take(number);
        self.release_if(held);
    }

    /// The request that executes is a command, and enters a task set: the place of the request; 0: none entered.
    #[inline(always)]
    pub(super) fn enter(&mut self, ticket: u64, unit: u16, attr: Attr, course: &mut Course) -> u32
        ensures walk { walk_of self.new course.new ≡ enter ticket unit attr course.old.current (walk_of self.old course.old) }
        ensures entered { result ≢ 0 → HasEntered ticket result unit attr self.new }
        ensures done { result ≢ 0 → course.new.current ≡ None }
    {
        let Some(request) = course.current else {
            return 0;
        };
        let command = Command {
            ticket,
            request,
            unit,
            attr,
            stage: Stage::Entered,
        };
        self.commands.known();
        if !self.commands.may_enter(&command) {
            return 0;
        }
        self.commands.enter(command);
        course.current = None;
        request
    }

    /// A command leaves its task set: a request takes it out, or it completes, and its request is the one to be answered.
    #[inline(always)]
    pub(super) fn leave(&mut self, ticket: u64, course: &mut Course)
        ensures { walk_of self.new course.new ≡ leave ticket (walk_of self.old course.old) }
    {
        let Some(command) = self.commands.find(ticket) else {
            return;
        };
        match course.by {
            Some(why) => self.take_out(&command, why),
            None => {
                self.advance(ticket, &command, Stage::Over);
                course.current = Some(command.request);
            }
        }
    }

    /// A command that a request takes out stops, if it was told to start; else its request is over.
    #[inline(never)]
    fn take_out(&mut self, command: &Command, why: StopReason)
        ensures { self.new ≡ take_out command.now why self.old }
    {
        self.tell_to_stop(command, why);
        self.set_stage(command.ticket, Stage::Over);
        if !is_going(command) {
            self.release(command.request);
        }
    }

    /// A command is told to stop that was told to start, and wasn't told so yet.
    fn tell_to_stop(&mut self, command: &Command, why: StopReason)
        ensures { self.new ≡ told_to_stop command.now why self.old }
    {
        if command.stage == Stage::Started {
            let cookie = self.cookie(command.request);
            self.tell(Action::Stop {
                ticket: command.ticket,
                cookie,
                why,
            });
        }
    }

    /// A reply is that of the request that executes, or of the one that arrives: it waits.
    #[inline(always)]
    pub(super) fn send(&mut self, cid: u16, course: &mut Course)
        ensures { walk_of self.new course.new ≡ send cid (walk_of self.old course.old) }
    {
        self.push_reply(cid, course);
        course.sent = course.sent.wrapping_add(1);
    }

    /// A reply waits, if there is a request that it is of.
    #[inline(always)]
    fn push_reply(&mut self, cid: u16, course: &mut Course)
        ensures { walk_of self.new course.new ≡ send_as (place_of self.old.state.outbox cid) (answering (walk_of self.old course.old)) (walk_of self.old course.old) }
    {
        let (Some(conn), Some(request)) = (self.outbox.place(cid), course.answering()) else {
            return;
        };
        if self.may_wait(course.sent) {
            self.replies.push(conn, course.sent, request);
            course.current = None;
            course.own = None;
        }
    }

    /// Whether a reply may wait: there is room, and its place is above those of the others.
    #[inline(always)]
    fn may_wait(&self, log_place: u64) -> bool
        ensures { result ≡ may_wait log_place self.now.state.replies }
    {
        if self.replies.is_full() || log_place == u64::MAX {
            return false;
        }
        match self.replies.last() {
            Some(last) => last < log_place,
            None => true,
        }
    }

    /// The event is passed over: the request that arrives is over.
    #[inline(never)]
    fn ignore(&mut self, course: &mut Course)
        ensures { (why : Why) → walk_of self.new course.new ≡ on_effect true (Ignore why) (walk_of self.old course.old) }
    {
        self.release_if(course.own);
        course.own = None;
    }
}

/// Whether a command was told to start, and neither completed nor was taken out.
#[inline(always)]
pub(super) fn is_going(command: &Command) -> bool
    ensures { result ≡ is_going command.now }
{
    match command.stage {
        Stage::Started | Stage::Cleared => true,
        Stage::Entered | Stage::Marked | Stage::Over => false,
    }
}

/// Whether another session's reset takes it out.
#[inline(always)]
pub(super) fn is_marked(command: &Command) -> bool
    ensures { result ≡ is_marked command.now }
{
    match command.stage {
        Stage::Marked | Stage::Cleared => true,
        Stage::Entered | Stage::Started | Stage::Over => false,
    }
}
