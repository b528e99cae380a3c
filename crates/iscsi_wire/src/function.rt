//! The functions of Task Management Function Requests, and the responses to them (RFC 7143 sections 11.5.1 and 11.6.1, RFC 7144).

ghost use Rattle.std.specs.Prelude.{◌≡◌};
ghost use Rattle.iscsi_wire.specs.Codes.{function_named, response_code};

use crate::request::Request;

/// A task management function, seven bits of its request (RFC 7143 section 11.5.1, RFC 7144).
#[derive(Clone, Copy, Debug, PartialEq, Eq)]
pub enum Function {
    /// ABORT TASK.
    AbortTask = 1,
    /// ABORT TASK SET.
    AbortTaskSet = 2,
    /// CLEAR TASK SET.
    ClearTaskSet = 4,
    /// LOGICAL UNIT RESET.
    LogicalUnitReset = 5,
    /// TASK REASSIGN.
    TaskReassign = 8,
    /// QUERY TASK.
    QueryTask = 9,
    /// QUERY TASK SET.
    QueryTaskSet = 10,
    /// Another one, which this target doesn't support. No request has this number.
    Unsupported = 0xff,
}

impl Function {
    /// That of a Task Management Function Request.
    #[inline(always)]
    pub fn of(request: &Request) -> Function
        ensures { result ≡ function_named request.now }
    {
        match request.function() {
            ABORT_TASK => Function::AbortTask,
            ABORT_TASK_SET => Function::AbortTaskSet,
            CLEAR_TASK_SET => Function::ClearTaskSet,
            LOGICAL_UNIT_RESET => Function::LogicalUnitReset,
            TASK_REASSIGN => Function::TaskReassign,
            QUERY_TASK => Function::QueryTask,
            QUERY_TASK_SET => Function::QueryTaskSet,
            _ => Function::Unsupported,
        }
    }
}

/// The response to a task management function (RFC 7143 section 11.6.1, RFC 7144).
#[derive(Clone, Copy, Debug, PartialEq, Eq)]
pub enum FunctionResponse {
    /// Function complete.
    Complete = 0,
    /// Task does not exist.
    NoTask = 1,
    /// LUN does not exist.
    NoUnit = 2,
    /// Task allegiance reassignment not supported.
    NoReassignment = 4,
    /// Task management function not supported.
    NotSupported = 5,
    /// Function succeeded.
    Succeeded = 7,
    /// Function rejected.
    Rejected = 255,
}

impl FunctionResponse {
    /// Its code, byte 2 of the response.
    #[inline(always)]
    pub fn code(self) -> u8
        ensures { result ≡ response_code self }
    {
        self as u8
    }
}

/// ABORT TASK.
pub const ABORT_TASK: u8 = Function::AbortTask as u8;

/// ABORT TASK SET.
pub const ABORT_TASK_SET: u8 = Function::AbortTaskSet as u8;

/// CLEAR TASK SET.
pub const CLEAR_TASK_SET: u8 = Function::ClearTaskSet as u8;

/// LOGICAL UNIT RESET.
pub const LOGICAL_UNIT_RESET: u8 = Function::LogicalUnitReset as u8;

/// TASK REASSIGN.
pub const TASK_REASSIGN: u8 = Function::TaskReassign as u8;

/// QUERY TASK.
pub const QUERY_TASK: u8 = Function::QueryTask as u8;

/// QUERY TASK SET.
pub const QUERY_TASK_SET: u8 = Function::QueryTaskSet as u8;
