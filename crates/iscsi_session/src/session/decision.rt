//! What a request does that executes: the first case of its table that fits (RFC 7143, RFC 7144, SAM-5).

ghost use Rattle.std.specs.Prelude.{true, false, Some, None, ◌≡◌, ◌<◌, length};
ghost use Rattle.iscsi_wire.specs.Fields.{connection_of, is_immediate, function as function_of};
ghost use Rattle.iscsi_wire.specs.Codes.{reason_code, response_code, logout_response_code};
ghost use Rattle.iscsi_rules.specs.rules.Settings.{is_known as known_in};
ghost use Rattle.iscsi_rules.specs.rules.Execution.{unit_named as unit_of_lun};
ghost use Rattle.iscsi_rules.specs.rules.Management.{may_wait as may_wait_named, is_supported as supported_at};
ghost use Rattle.iscsi_rules.specs.rules.Deeds.{command_deed, abort_deed, query_deed, unit_deed, function_deed, logout_deed, nop_deed};
ghost use Rattle.iscsi_session.specs.private.Steps.{is_tag_kept, is_crowded_by};
ghost use Rattle.iscsi_session.specs.private.Deeds.{refusal_by, tagged_in, missing_by, facts_by, deed_by, managed_by, waits_by, arrival_by};

use crate::session::Session;
use crate::session::sets::{is_full, unit_named};
use crate::session::waiting::MOST;
use iscsi_commands::Live;
use iscsi_rules::{Answer, Deed};
use iscsi_window::Place;
use iscsi_wire::{
    Function, FunctionResponse, LogoutReason, LogoutResponse, NO_TAG, Opcode, RejectReason,
    Request, distance,
};

/// The greatest ATTR that names a task attribute (RFC 7143 section 11.3.1).
const GREATEST_ATTR: u8 = 3;

/// The protocol level that knows the queries.
const LEVEL_OF_QUERIES: u32 = 2;

impl Session {
    /// What a request does at its turn, or at its arrival where it doesn't wait.
    ///
    /// Rule: `text/rejected`.
    #[inline(always)]
    pub(crate) fn decide(&self, request: &Request) -> Deed
        requires { known_in (connection_of request.now) self.now.conns ≡ true }
        ensures { result ≡ deed_by self.now request.now }
    {
        match Opcode::of(request) {
            Opcode::TaskManagement => self.decide_management(request),
            Opcode::Logout => self.decide_logout(request),
            Opcode::NopOut => decide_nop(request),
            Opcode::Text => rejected(RejectReason::NotSupported),
            // Of the others SCSI Commands alone come here.
            Opcode::ScsiCommand | Opcode::DataOut | Opcode::Snack | Opcode::Unknown => {
                self.decide_command(request)
            }
        }
    }

    /// What a SCSI Command does (SAM-5 section 8).
    #[inline(always)]
    fn decide_command(&self, request: &Request) -> Deed
        requires { known_in (connection_of request.now) self.now.conns ≡ true }
        ensures { result ≡ command_deed (facts_by self.now request.now) request.now }
    {
        self.decide_for(request, self.is_crowded(request))
    }

    /// What a numbered SCSI Command does, of which none is too many on its connection.
    #[inline(always)]
    pub(crate) fn decide_numbered(&self, request: &Request) -> Deed
        requires known { known_in (connection_of request.now) self.now.conns ≡ true }
        requires numbered { is_immediate request.now ≡ false }
        ensures { result ≡ command_deed (facts_by self.now request.now) request.now }
    {
        self.decide_for(request, false)
    }

    /// What a SCSI Command does. `is_crowded`: it is immediate, and its connection has as many live immediate commands as it
    /// may.
    ///
    /// Rules: `command/no-tag`, `command/attribute`, `command/tag-in-use`, `command/no-unit`, `command/crowded`, `command/full`, `command/enters`.
    #[inline(always)]
    fn decide_for(&self, request: &Request, is_crowded: bool) -> Deed
        requires { is_crowded ≡ is_crowded_by self.now request.now }
        ensures { result ≡ command_deed (facts_by self.now request.now) request.now }
    {
        let itt = request.itt();
        if itt == NO_TAG || request.attr() > GREATEST_ATTR {
            return rejected(RejectReason::InvalidField);
        }
        if self.is_tag_live(itt) {
            return rejected(RejectReason::TaskInProgress);
        }
        let Some(unit) = unit_named(request, self.sets.len()) else {
            return Deed::Reply(Answer::NoUnit);
        };
        if is_crowded {
            rejected(RejectReason::TooManyImmediate)
        } else if is_full(&self.sets[usize::from(unit)], self.depth) {
            Deed::Reply(Answer::Full)
        } else {
            Deed::Enter(unit)
        }
    }

    /// Whether a live command has this tag.
    #[tactic(auto, using(crate::proofs::KeptLemmas::any_found, std::proofs::lemmas::Bool::Decides::nat_tests))]
    #[inline(always)]
    fn is_tag_live(&self, itt: u32) -> bool
        ensures { result ≡ is_tag_kept self.now itt }
    {
        self.live.find_tagged(itt).is_some()
    }

    /// Whether a request is immediate, and its connection has as many live immediate commands as it may.
    #[inline(always)]
    fn is_crowded(&self, request: &Request) -> bool
        requires { known_in (connection_of request.now) self.now.conns ≡ true }
        ensures { result ≡ is_crowded_by self.now request.now }
    {
        request.immediate() && self.connections.is_crowded(request.conn())
    }

    /// What an immediate request does at its arrival. A function over a whole set waits until the numbers below its own have
    /// had their turn (RFC 7143 section 4.2.3).
    #[inline(always)]
    pub(crate) fn decide_arrival(&self, request: &Request) -> Deed
        requires immediate { is_immediate request.now ≡ true }
        requires known { known_in (connection_of request.now) self.now.conns ≡ true }
        ensures { result ≡ arrival_by self.now request.now }
    {
        if !matches!(Opcode::of(request), Opcode::TaskManagement) || !may_wait(request) {
            return self.decide(request);
        }
        match self.refusal_of_function(request) {
            Some(answer) => Deed::Reply(answer),
            None => self.decide_waiting(request),
        }
    }

    /// What a function over a whole set does that isn't refused, by its number.
    ///
    /// Rules: `function/too-far`, `function/too-many`, `function/waits`, `function/executes`.
    #[inline(always)]
    fn decide_waiting(&self, request: &Request) -> Deed
        ensures { result ≡ waits_by self.now request.now }
    {
        let ahead = distance(self.window.exp(), request.cmd_sn());
        let room = self.window.size() - self.window.unfinished();
        if ahead > i64::from(room) {
            responds(FunctionResponse::Rejected)
        } else if ahead <= 0 {
            self.decide_function(request)
        } else if MOST <= self.waiting.count_on(request.conn()) {
            rejected(RejectReason::TooManyImmediate)
        } else {
            Deed::Wait
        }
    }

    /// What a task management function does: it is refused, or executes.
    #[inline(always)]
    fn decide_management(&self, request: &Request) -> Deed
        ensures { result ≡ managed_by self.now request.now }
    {
        match self.refusal_of_function(request) {
            Some(answer) => Deed::Reply(answer),
            None => self.decide_function(request),
        }
    }

    /// Why a function is refused before it executes itself, as the answer that says so.
    ///
    /// Rules: `function/no-tag`, `function/reassign`, `function/unsupported`, `function/no-unit`.
    fn refusal_of_function(&self, request: &Request) -> Option<Answer>
        ensures { result ≡ refusal_by self.now request.now }
    {
        if request.itt() == NO_TAG {
            return Some(Answer::Reject(RejectReason::InvalidField.code()));
        }
        let response = if matches!(Function::of(request), Function::TaskReassign) {
            FunctionResponse::NoReassignment
        } else if !is_supported(self.level, request) {
            FunctionResponse::NotSupported
        } else if unit_named(request, self.sets.len()).is_none() {
            FunctionResponse::NoUnit
        } else {
            return None;
        };
        Some(Answer::Respond(response.code()))
    }

    /// What a function does that isn't refused.
    #[inline(always)]
    pub(crate) fn decide_function(&self, request: &Request) -> Deed
        ensures { result ≡ function_deed (facts_by self.now request.now) request.now }
    {
        match unit_named(request, self.sets.len()) {
            Some(unit) => self.decide_to(request, unit),
            None => Deed::Nothing,
        }
    }

    /// What a function to a unit does.
    ///
    /// Rules: `abort-set/lower`, `abort-set/equal`, `reset/all`, `query-task/live`, `query-task-set/live`.
    #[tactic(auto, using(crate::proofs::KeptLemmas::unit_steps))]
    #[inline(always)]
    fn decide_to(&self, request: &Request, unit: u16) -> Deed
        requires named { unit_of_lun (length self.now.sets) request.now ≡ Some unit }
        requires unit { unit < length self.now.sets }
        ensures { result ≡ unit_deed (facts_by self.now request.now) request.now unit }
    {
        match Function::of(request) {
            Function::AbortTask => self.decide_abort(request, unit),
            Function::LogicalUnitReset => Deed::AbortAll(unit),
            Function::QueryTask => query(self.tagged(request.rtt(), unit).is_some()),
            Function::QueryTaskSet => query(self.sets[usize::from(unit)].len() > 0),
            // Of the others ABORT TASK SET and CLEAR TASK SET alone come here: the rest is refused.
            Function::AbortTaskSet
            | Function::ClearTaskSet
            | Function::TaskReassign
            | Function::Unsupported => Deed::AbortEarlier(unit),
        }
    }

    /// What ABORT TASK does: a live command of the tag leaves, or a held one is taken out. Where there is none, an
    /// immediate function voids the number that it refers to, if that is in the window and below its own.
    ///
    /// Rules: `abort-task/live`, `abort-task/held`, `abort-task/missing`, `abort-task/nothing`.
    #[inline(never)]
    fn decide_abort(&self, request: &Request, unit: u16) -> Deed
        requires named { unit_of_lun (length self.now.sets) request.now ≡ Some unit }
        ensures { result ≡ abort_deed (facts_by self.now request.now) unit }
    {
        if let Some(command) = self.tagged(request.rtt(), unit) {
            let ticket = command.ticket;
            Deed::Abort { unit, ticket }
        } else if let Some(sn) = self.window.find_held(request.rtt(), unit, request.cmd_sn()) {
            Deed::Empty { unit, sn }
        } else if self.is_missing(request) {
            Deed::Void
        } else {
            responds(FunctionResponse::NoTask)
        }
    }

    /// Whether a function is immediate, and the number that it refers to is in the window and below its own.
    fn is_missing(&self, request: &Request) -> bool
        ensures { result ≡ missing_by self.now request.now }
    {
        let Place::Inside(ahead) = self.window.place(request.ref_cmd_sn()) else {
            return false;
        };
        let own = distance(self.window.exp(), request.cmd_sn());
        request.immediate() && i64::from(ahead) < own
    }

    /// The live command of the unit with this tag.
    fn tagged(&self, itt: u32, unit: u16) -> Option<Live>
        ensures { result ≡ tagged_in self.now itt unit }
    {
        let command = self.live.find_tagged(itt)?;
        if command.unit == unit {
            Some(command)
        } else {
            None
        }
    }

    /// What a Logout Request does.
    ///
    /// Rules: `logout/no-tag`, `logout/session`, `logout/connection`, `logout/unknown-cid`, `logout/recovery`, `logout/other-reason`.
    #[inline(never)]
    fn decide_logout(&self, request: &Request) -> Deed
        ensures { result ≡ logout_deed (facts_by self.now request.now) request.now }
    {
        if request.itt() == NO_TAG {
            return rejected(RejectReason::InvalidField);
        }
        match LogoutReason::of(request) {
            LogoutReason::CloseSession => Deed::CloseSession,
            LogoutReason::CloseConn => {
                if self.is_open(request.cid()) {
                    Deed::CloseConn(request.cid())
                } else {
                    parts(LogoutResponse::NoConn)
                }
            }
            LogoutReason::RemoveForRecovery => parts(LogoutResponse::NoRecovery),
            LogoutReason::Unknown => rejected(RejectReason::InvalidField),
        }
    }
}

/// What a NOP-Out does: it is answered where it has a tag (RFC 7143 section 11.18).
///
/// Rules: `nop-out/no-tag`, `nop-out/answered`.
#[inline(always)]
fn decide_nop(request: &Request) -> Deed
    ensures { result ≡ nop_deed request.now }
{
    if request.itt() == NO_TAG {
        Deed::Nothing
    } else {
        Deed::Reply(Answer::Pong)
    }
}

/// What a query does.
fn query(there: bool) -> Deed
    ensures { result ≡ query_deed there }
{
    if there {
        responds(FunctionResponse::Succeeded)
    } else {
        responds(FunctionResponse::Complete)
    }
}

/// It is rejected.
#[inline(always)]
fn rejected(reason: RejectReason) -> Deed
    ensures { result ≡ Deed.Reply (Answer.Reject (reason_code reason)) }
{
    Deed::Reply(Answer::Reject(reason.code()))
}

/// A function is answered.
#[inline(always)]
fn responds(response: FunctionResponse) -> Deed
    ensures { result ≡ Deed.Reply (Answer.Respond (response_code response)) }
{
    Deed::Reply(Answer::Respond(response.code()))
}

/// A Logout Request is answered that closes nothing.
fn parts(response: LogoutResponse) -> Deed
    ensures { result ≡ Deed.Reply (Answer.LogOut (logout_response_code response)) }
{
    Deed::Reply(Answer::LogOut(response.code()))
}

/// Whether a function waits for lower numbers where it is immediate: one over a whole set does.
fn may_wait(request: &Request) -> bool
    requires { is_immediate request.now ≡ true }
    ensures { result ≡ may_wait_named request.now }
{
    match Function::of(request) {
        Function::AbortTaskSet | Function::ClearTaskSet | Function::LogicalUnitReset => true,
        Function::AbortTask
        | Function::TaskReassign
        | Function::QueryTask
        | Function::QueryTaskSet
        | Function::Unsupported => false,
    }
}

/// Whether the protocol level knows a function.
fn is_supported(level: u32, request: &Request) -> bool
    ensures { result ≡ supported_at level (function_of request.now) }
{
    match Function::of(request) {
        Function::AbortTask
        | Function::AbortTaskSet
        | Function::ClearTaskSet
        | Function::LogicalUnitReset => true,
        Function::QueryTask | Function::QueryTaskSet => level == LEVEL_OF_QUERIES,
        Function::TaskReassign | Function::Unsupported => false,
    }
}
