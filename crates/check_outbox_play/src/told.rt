//! What is printed.

use iscsi_outbox::{Given, header};
use iscsi_session::Effect;

/// Tells an effect, as far as a target has to know of it.
pub(crate) fn tell_effect(effect: &Effect, told: &mut String) -> Option<()> {
    match effect {
        Effect::Deliver { request } | Effect::Immediate { request } => {
            writeln!(told, "executes {} {}", request.conn(), request.itt()).ok()
        }
        Effect::Wait { request } => {
            writeln!(told, "waits {} {}", request.conn(), request.itt()).ok()
        }
        Effect::Enter { ticket, unit, .. } => writeln!(told, "enter {ticket} {unit}").ok(),
        Effect::Enable { ticket, unit } => writeln!(told, "enable {ticket} {unit}").ok(),
        Effect::Leave { ticket, unit } => writeln!(told, "leave {ticket} {unit}").ok(),
        Effect::CloseConn { conn } => writeln!(told, "close {conn}").ok(),
        Effect::CloseSession => told.push_str("over\n").ok(),
        _ => Some(()),
    }
}

/// Tells what a connection is given: a header, `nothing` or `over`.
pub(crate) fn tell_given(given: &Given, told: &mut String) -> Option<()> {
    match given {
        Given::Hands(handed) => {
            for byte in header(handed) {
                write!(told, "{byte:02x}").ok()?;
            }
            told.push_str("\n").ok()
        }
        Given::Nothing => told.push_str("nothing\n").ok(),
        Given::IsOver => told.push_str("over\n").ok(),
    }
}
