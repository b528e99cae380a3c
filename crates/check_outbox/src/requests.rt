//! What is kept of an initiator's requests.

use iscsi_requests::{Cookies, HeldNumbers, Unwritten, WaitingFunctions, WaitingReplies};
use std::test::Fail;

#[test]
fn a_cookie_is_told_with_the_last_use(rt: HostRuntime) -> Result<(), Fail> {
    let mut cookies = Cookies::with_room(rt.alloc(), 2)?;
    cookies.known();
    let place = cookies.enter(70);
    let mut told = (None, None);
    if cookies.has(place) && cookies.uses(place) == 1 && cookies.cookie(place) == 70 {
        cookies.use_more(place);
    }
    if cookies.has(place) {
        told.0 = cookies.use_less(place);
    }
    if cookies.has(place) {
        told.1 = cookies.use_less(place);
    }
    assert_eq!(rt; told, (None, Some(70)));
    assert_eq!(rt; (cookies.has(place), cookies.is_full()), (false, false));
    Ok(())
}

#[test]
fn numbers_that_wrap_stand_apart(rt: HostRuntime) -> Result<(), Fail> {
    let mut numbers = HeldNumbers::with_room(rt.alloc(), 3)?;
    numbers.known();
    numbers.put(4_294_967_295, 5);
    numbers.put(0, 6);
    assert_eq!(rt; (numbers.at(4_294_967_295), numbers.at(1)), (Some(5), None));
    assert_eq!(rt;
        (
            numbers.take(0),
            numbers.take(0),
            numbers.take(4_294_967_295)
        ),
        (Some(6), None, Some(5))
    );
    Ok(())
}

#[test]
fn functions_of_a_connection_are_taken_in_order(rt: HostRuntime) -> Result<(), Fail> {
    let mut functions = WaitingFunctions::with_room(rt.alloc(), 2, 4)?;
    functions.push(1, 9, 1);
    functions.push(1, 8, 2);
    functions.push(1, 9, 3);
    assert_eq!(rt; functions.is_full(), false);
    assert_eq!(rt;
        (functions.take(1, 9), functions.take(0, 9)),
        (Some(1), None)
    );
    assert_eq!(rt;
        (functions.pop(1), functions.take(1, 9), functions.pop(1)),
        (Some(2), Some(3), None)
    );
    Ok(())
}

#[test]
fn a_reply_waits_until_it_is_taken(rt: HostRuntime) -> Result<(), Fail> {
    let mut replies = WaitingReplies::with_room(rt.alloc(), 2, 4)?;
    replies.known();
    assert_eq!(rt; replies.last(), None);
    replies.push(0, 0, 1);
    assert_eq!(rt; (replies.last(), replies.is_full()), (Some(0), false));
    assert_eq!(rt;
        (replies.take(3), replies.take(0), replies.pop(0)),
        (None, Some(1), None)
    );
    Ok(())
}

#[test]
fn what_is_written_goes_in_order(rt: HostRuntime) -> Result<(), Fail> {
    let mut unwritten = Unwritten::with_room(rt.alloc(), 2, 4)?;
    unwritten.push(1, Some(7));
    unwritten.push(1, None);
    unwritten.push(1, Some(8));
    assert_eq!(rt; (unwritten.count(0), unwritten.count(1)), (0, 3));
    assert_eq!(rt; unwritten.is_full(), false);
    assert_eq!(rt;
        (unwritten.pop(1), unwritten.pop(1), unwritten.pop(0)),
        (Some(Some(7)), Some(None), None)
    );
    Ok(())
}
