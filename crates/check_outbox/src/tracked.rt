//! The commands that are kept.

use iscsi_tracked::{Entering, Tracked};
use std::test::Fail;

#[test]
fn a_command_is_found_by_its_ticket(rt: HostRuntime) -> Result<(), Fail> {
    let mut tracked = Tracked::with_room(rt.alloc(), 2, 4)?;
    let place = tracked.enter(Entering {
        ticket: 7,
        conn: 1,
        unit: 0,
        tag: 5,
        numbered: true,
    });
    assert_eq!(rt; tracked.find(7).map(|command| command.place), Some(place));
    Ok(())
}
