//! What becomes of a request by its opcode.

ghost use Rattle.std.specs.Prelude.{◌≡◌, true, false};
ghost use Rattle.iscsi_wire.specs.Fields.{is_immediate};
ghost use Rattle.iscsi_rules.specs.rules.Agenda.{kind_of as kind_named};

use iscsi_rules::Kind;
use iscsi_wire::{Opcode, Request};

/// What becomes of a request.
pub(crate) fn kind_of(request: &Request) -> Kind
    ensures { result ≡ kind_named request.now }
{
    match Opcode::of(request) {
        Opcode::NopOut
        | Opcode::ScsiCommand
        | Opcode::TaskManagement
        | Opcode::Text
        | Opcode::Logout => Kind::Executes,
        Opcode::DataOut | Opcode::Snack => Kind::PassedOver,
        Opcode::Unknown => Kind::Unknown,
    }
}

/// Whether a request is a numbered SCSI Command, as most are. False decides nothing.
#[inline(always)]
pub(crate) fn is_numbered_command(request: &Request) -> bool
    ensures executes { result ≡ true → kind_named request.now ≡ Kind.Executes }
    ensures numbered { result ≡ true → is_immediate request.now ≡ false }
{
    matches!(Opcode::of(request), Opcode::ScsiCommand) && !request.immediate()
}
