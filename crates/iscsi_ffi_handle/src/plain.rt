//! What a side tells, in the plain form in which C reads it.

ghost use Rattle.std.specs.Prelude.{◌≡◌};
ghost use Rattle.iscsi_ffi_handle.specs.Plain.{attribute_code, plain_action, reason_code};

use iscsi_ffi_rules::{Action, StopReason};
use iscsi_tasks::Attr;

/// An action in plain form. Fields that its kind has no use for are 0.
#[repr(C)]
#[derive(Clone, Copy, Debug, PartialEq, Eq)]
pub struct PlainAction {
    /// The ticket of a command, from 1 on.
    pub ticket: u64,
    /// The caller's word for a request, or for a PDU of its own.
    pub cookie: u64,
    pub cid: u16,
    pub unit: u16,
    /// 1 Start, 2 Stop, 3 Reset, 4 Ready, 5 Close, 6 Forget.
    pub kind: u8,
    /// 1 SIMPLE, 2 ORDERED, 3 HEAD OF QUEUE, as ATTR has them (RFC 7143 section 11.3.1).
    pub attribute: u8,
    /// 1 Aborted, 2 LoggedOut, 3 Lost, 4 Cleared.
    pub why: u8,
    /// 4 CLEAR TASK SET, 5 LOGICAL UNIT RESET (RFC 7143 section 11.5.1).
    pub function: u8,
}

/// How many actions were handed over by a call, and how many wait, if that fits.
#[repr(C)]
#[derive(Clone, Copy, Debug, PartialEq, Eq)]
pub struct PlainTold {
    pub count: u32,
    pub waiting: u32,
}

/// What a PDU is that was handed out.
#[repr(C)]
#[derive(Clone, Copy, Debug, PartialEq, Eq)]
pub struct PlainPdu {
    /// The caller's word for what it belongs to; 0 where it has none.
    pub cookie: u64,
    /// 1 a reply, 2 one of the target's own, 3 a ping, 4 a NOP-In that shows MaxCmdSN.
    pub kind: u8,
    /// 1 where it has a word, else 0.
    pub has_cookie: u8,
    /// How many bytes it has, its header with them.
    pub length: u8,
    pub reserved: [u8; 5],
}

/// ExpCmdSN and MaxCmdSN.
#[repr(C)]
#[derive(Clone, Copy, Debug, PartialEq, Eq)]
pub struct PlainNumbers {
    pub exp_cmd_sn: u32,
    pub max_cmd_sn: u32,
}

const NOTHING: PlainAction = PlainAction {
    ticket: 0,
    cookie: 0,
    cid: 0,
    unit: 0,
    kind: 0,
    attribute: 0,
    why: 0,
    function: 0,
};

/// Writes the plain form of an action. Most are of two kinds, whose few fields are written straight.
#[inline(always)]
pub(crate) fn write_action(place: &mut PlainAction, action: Action)
    ensures { place.new ≡ plain_action action }
{
    match action {
        Action::Start {
            ticket,
            unit,
            attr,
            cookie,
        } => *place = start(ticket, unit, attr, cookie),
        Action::Forget { cookie } => *place = forget(cookie),
        _ => *place = plain_action(action),
    }
}

/// The plain form of an action.
#[inline(always)]
pub(crate) fn plain_action(action: Action) -> PlainAction
    ensures { result ≡ plain_action action }
{
    match action {
        Action::Start {
            ticket,
            unit,
            attr,
            cookie,
        } => start(ticket, unit, attr, cookie),
        Action::Stop {
            ticket,
            cookie,
            why,
        } => PlainAction {
            ticket,
            cookie,
            kind: 2,
            why: reason_code(why),
            ..NOTHING
        },
        Action::Reset { unit, function } => PlainAction {
            unit,
            kind: 3,
            function,
            ..NOTHING
        },
        Action::Ready { cid } => PlainAction {
            cid,
            kind: 4,
            ..NOTHING
        },
        Action::Close { cid } => PlainAction {
            cid,
            kind: 5,
            ..NOTHING
        },
        Action::Forget { cookie } => forget(cookie),
    }
}

#[inline(always)]
fn start(ticket: u64, unit: u16, attr: Attr, cookie: u64) -> PlainAction
    ensures { result ≡ plain_action (Action.Start ticket unit attr cookie) }
{
    PlainAction {
        ticket,
        cookie,
        unit,
        kind: 1,
        attribute: attribute_code(attr),
        ..NOTHING
    }
}

#[inline(always)]
fn forget(cookie: u64) -> PlainAction
    ensures { result ≡ plain_action (Action.Forget cookie) }
{
    PlainAction {
        cookie,
        kind: 6,
        ..NOTHING
    }
}

#[inline(always)]
fn attribute_code(attr: Attr) -> u8
    ensures { result ≡ attribute_code attr }
{
    match attr {
        Attr::Simple => 1,
        Attr::Ordered => 2,
        Attr::Head => 3,
    }
}

#[inline(always)]
fn reason_code(why: StopReason) -> u8
    ensures { result ≡ reason_code why }
{
    match why {
        StopReason::Aborted => 1,
        StopReason::LoggedOut => 2,
        StopReason::Lost => 3,
        StopReason::Cleared => 4,
    }
}
