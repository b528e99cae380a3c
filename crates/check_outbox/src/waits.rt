//! What waits on connections.

use iscsi_waiting::Waits;
use std::test::Fail;

#[test]
fn nothing_waits_at_first(rt: HostRuntime) -> Result<(), Fail> {
    let mut waits = Waits::with_room(rt.alloc(), 2, 2, 4)?;
    assert_eq!(rt; (waits.pop(1), waits.is_full()), (None, false));
    Ok(())
}
