//! Values by ticket.

use iscsi_tickets::Tickets;
use std::test::Fail;

#[test]
fn a_value_is_found_until_it_is_taken(rt: HostRuntime) -> Result<(), Fail> {
    let mut tickets = Tickets::with_room(rt.alloc(), 2)?;
    tickets.push(3, 30);
    tickets.push(7, 70);
    assert_eq!(rt;
        (tickets.find(3), tickets.find(5), tickets.find(7)),
        (Some(30), None, Some(70))
    );
    assert_eq!(rt; (tickets.take(3), tickets.take(3)), (Some(30), None));
    assert_eq!(rt; (tickets.len(), tickets.is_full()), (1, false));
    Ok(())
}
