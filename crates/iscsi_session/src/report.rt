//! The lines of a report, appended to bytes.

ghost use Rattle.std.specs.Prelude.{◌≡◌, ◌+◌, ◌≤◌, ◌++◌, vec_len, vec_capacity, OnOk, OnErr, IfErr, IsOk};
ghost use Rattle.iscsi_report.specs.Lines.{event_line, effect_line};

use crate::fault::SessionFault;
pub use iscsi_report::LONGEST_LINE;
use iscsi_rules::{Effect, Event, Numbers};

/// Appends the line of an event. `NoMemory` changes nothing, and doesn't come where there is room for a line.
pub fn put_event(event: &Event, out: &mut Vec<u8>) -> Result<(), SessionFault>
    ensures ok { OnOk result (out.new.items ≡ out.old.items ++ event_line event.now) }
    ensures err { OnErr result (out.new.items ≡ out.old.items) }
    ensures memory { IfErr result (λ e. e ≡ SessionFault.NoMemory) }
    ensures room { vec_len out.old + LONGEST_LINE ≤ vec_capacity out.old → IsOk result }
{
    match iscsi_report::put_event(event, out) {
        Ok(()) => Ok(()),
        Err(_) => Err(SessionFault::NoMemory),
    }
}

/// Appends the line of an effect of an event that ended with these numbers. `NoMemory` changes nothing, and
/// doesn't come where there is room for a line.
pub fn put_effect(effect: &Effect, numbers: Numbers, out: &mut Vec<u8>) -> Result<(), SessionFault>
    ensures ok { OnOk result (out.new.items ≡ out.old.items ++ effect_line effect.now numbers) }
    ensures err { OnErr result (out.new.items ≡ out.old.items) }
    ensures memory { IfErr result (λ e. e ≡ SessionFault.NoMemory) }
    ensures room { vec_len out.old + LONGEST_LINE ≤ vec_capacity out.old → IsOk result }
{
    match iscsi_report::put_effect(effect, numbers, out) {
        Ok(()) => Ok(()),
        Err(_) => Err(SessionFault::NoMemory),
    }
}
