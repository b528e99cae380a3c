//! What a Logout Request asks for, and how it is answered.

ghost use Rattle.std.specs.Prelude.{◌≡◌};
ghost use Rattle.iscsi_wire.specs.Codes.{logout_reason_named, logout_response_code};

use crate::request::Request;

/// What a Logout Request asks for, seven bits of it (RFC 7143 section 11.14.1).
#[derive(Clone, Copy, Debug, PartialEq, Eq)]
pub enum LogoutReason {
    /// Close the session: 0.
    CloseSession,
    /// Close the connection: 1.
    CloseConn,
    /// Remove the connection for recovery: 2.
    RemoveForRecovery,
    /// Something else.
    Unknown,
}

impl LogoutReason {
    /// That of a Logout Request.
    #[inline(always)]
    pub fn of(request: &Request) -> LogoutReason
        ensures { result ≡ logout_reason_named request.now }
    {
        match request.reason() {
            0 => LogoutReason::CloseSession,
            1 => LogoutReason::CloseConn,
            2 => LogoutReason::RemoveForRecovery,
            _ => LogoutReason::Unknown,
        }
    }
}

/// The response to a Logout Request (RFC 7143 section 11.15.1).
#[derive(Clone, Copy, Debug, PartialEq, Eq)]
pub enum LogoutResponse {
    /// The connection or the session is closed.
    Closed = 0,
    /// CID not found.
    NoConn = 1,
    /// Connection recovery isn't supported.
    NoRecovery = 2,
}

impl LogoutResponse {
    /// Its code, byte 2 of the response.
    #[inline(always)]
    pub fn code(self) -> u8
        ensures { result ≡ logout_response_code self }
    {
        self as u8
    }
}
