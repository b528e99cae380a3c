//! The commands of the target's side.

ghost use Rattle.std.specs.Prelude.{◌≡◌};
ghost use Rattle.iscsi_ffi_commands.specs.declared.command.Stage.TheVariants.{Entered};

use iscsi_ffi_commands::{Command, Commands, Stage};
use iscsi_tasks::Attr;
use std::test::Fail;

/// A command of unit 1 that enters.
fn command(ticket: u64, request: u32) -> Command
    ensures { result.stage ≡ Entered }
{
    Command {
        ticket,
        request,
        unit: 1,
        attr: Attr::Simple,
        stage: Stage::Entered,
    }
}

#[test]
fn commands_are_found_until_their_requests_are_forgotten(rt: HostRuntime) -> Result<(), Fail> {
    let mut commands = Commands::with_room(rt.alloc(), 4, 2)?;
    commands.known();
    let first = command(7, 3);
    assert!(rt; commands.may_enter(&first));
    commands.enter(first);
    let second = command(9, 1);
    assert!(rt; commands.may_enter(&second));
    commands.enter(second);
    assert!(rt; !commands.may_enter(&command(10, 3)));
    assert_eq!(rt; commands.first_of(1), Some(7));
    assert_eq!(rt; commands.next_of(7), Some(9));
    assert_eq!(rt; commands.next_of(9), None);
    commands.set_stage(7, Stage::Marked);
    assert!(rt; commands.is_clearing(1));
    commands.forget(3);
    assert!(rt; !commands.is_clearing(1));
    assert_eq!(rt; commands.find(7), None);
    assert_eq!(rt; commands.find(9), Some(command(9, 1)));
    Ok(())
}
