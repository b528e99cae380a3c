//! The connections, and their CIDs.

use iscsi_cids::Cids;
use iscsi_links::Links;
use std::test::Fail;

#[test]
fn the_connection_that_joins_is_the_first_usable_one(rt: HostRuntime) -> Result<(), Fail> {
    let mut links = Links::open(rt.alloc(), 3, true)?;
    let joined = links.join(1, 9);
    assert_eq!(rt; (joined, links.first_usable()), (true, Some(1)));
    Ok(())
}

#[test]
fn a_connection_is_found_by_its_cid(rt: HostRuntime) -> Result<(), Fail> {
    let cids = Cids::open(rt.alloc(), &[7])?;
    assert_eq!(rt; (cids.place(7), cids.place(8)), (Some(0), None));
    Ok(())
}
