//! Histories of a window.

use iscsi_window::{EventWindow, HeldRequest, Offer, Place, Turned, Window, WindowFault};
use iscsi_wire::Request;
use std::process::Abort;
use std::test::Fail;

/// A SCSI Command to the unit.
fn command(conn: u16, unit: u8, itt: u32, cmd_sn: u32) -> Request {
    let mut header = [0; 48];
    header[0] = 0x01;
    header[1] = 0x81;
    header[9] = unit;
    header[16..20].copy_from_slice(&itt.to_be_bytes());
    header[24..28].copy_from_slice(&cmd_sn.to_be_bytes());
    Request::read(conn, &header)
}

fn void(rt: &impl Abort, window: &mut Window, w: u32) -> bool {
    assert!(rt; matches!(window.place(w), Place::Inside(_)));
    window.void(w)
}

fn advance(rt: &impl Abort, window: &mut Window) -> Option<Turned> {
    assert!(rt; window.turned() < u64::MAX);
    window.advance()
}

fn pass(rt: &impl Abort, window: &mut Window, request: &Request) {
    assert!(rt; window.is_next(request));
    assert!(rt; window.turned() < u64::MAX);
    window.pass(request);
}

#[test]
fn sizes(rt: HostRuntime) -> Result<(), Fail> {
    let alloc = rt.alloc();
    for size in [0, 1025, u32::MAX] {
        assert_eq!(rt;
            Window::open(alloc, 1, size).err(),
            Some(WindowFault::BadSize)
        );
    }
    for size in [1, 1024] {
        let window = Window::open(alloc, 1, size)?;
        let numbers = [
            window.size(),
            window.unfinished(),
            window.exp(),
            window.max(),
        ];
        assert_eq!(rt; (numbers, window.turned()), ([size, 0, 1, size], 0));
    }
    Ok(())
}

#[test]
fn far_numbers_are_outside(rt: HostRuntime) -> Result<(), Fail> {
    let window = Window::open(rt.alloc(), 0xffff_ffff, 1024)?;
    assert_eq!(rt; window.max(), 0x3fe);
    for (w, place) in [
        (0xffff_ffff, Place::Inside(0)),
        (0, Place::Inside(1)),
        (0x3fe, Place::Inside(1023)),
        (0x3ff, Place::Outside),
        (0x7fff_fffe, Place::Outside),
        (0x7fff_ffff, Place::Outside),
        (0xffff_fffe, Place::Outside),
    ] {
        assert_eq!(rt; window.place(w), place, "of {w}");
    }
    Ok(())
}

#[test]
fn requests_are_held_once(rt: HostRuntime) -> Result<(), Fail> {
    let mut window = Window::open(rt.alloc(), 0xffff_fffe, 4)?;
    let first = command(1, 0, 0xa1, 0xffff_fffe);
    for (request, offer) in [
        (first, Offer::Held),
        (command(2, 0, 0xa9, 0xffff_fffe), Offer::Duplicate),
        (command(2, 0, 0xa3, 1), Offer::Held),
        (command(2, 0, 0xa4, 2), Offer::Outside),
        (command(2, 0, 0xa0, 0xffff_fffd), Offer::Outside),
    ] {
        assert_eq!(rt; window.offer(&request), offer, "of {request:?}");
    }
    assert_eq!(rt; void(&rt, &mut window, 0), true);
    assert_eq!(rt; void(&rt, &mut window, 0), false);
    assert_eq!(rt; window.offer(&command(1, 0, 0xa5, 0)), Offer::Duplicate);
    let turned = Turned {
        sn: 0xffff_fffe,
        request: Some(first),
    };
    assert_eq!(rt; advance(&rt, &mut window), Some(turned));
    // The number that comes next wasn't received.
    assert_eq!(rt; advance(&rt, &mut window), None);
    assert_eq!(rt; void(&rt, &mut window, 0xffff_ffff), true);
    for sn in [0xffff_ffff, 0] {
        let turned = Turned { sn, request: None };
        assert_eq!(rt; advance(&rt, &mut window), Some(turned));
    }
    assert_eq!(rt; (window.turned(), window.exp(), window.max()), (3, 1, 4));
    Ok(())
}

#[test]
fn a_request_passes_as_it_comes(rt: HostRuntime) -> Result<(), Fail> {
    let mut window = Window::open(rt.alloc(), 0xffff_ffff, 2)?;
    for (sn, is_next) in [
        (0xffff_ffff, true),
        (0, false),
        (1, false),
        (0xffff_fffe, false),
        (0x7fff_ffff, false),
    ] {
        assert_eq!(rt;
            window.is_next(&command(1, 0, 0xa1, sn)),
            is_next,
            "of {sn}"
        );
    }
    let second = command(2, 0, 0xa2, 0);
    assert_eq!(rt; window.offer(&second), Offer::Held);
    pass(&rt, &mut window, &command(1, 0, 0xa1, 0xffff_ffff));
    assert_eq!(rt; window.exp(), 0);
    assert_eq!(rt; window.turned(), 1);
    // The next number was received before, and its request is still held.
    assert_eq!(rt; window.is_next(&second), false);
    let turned = Turned {
        sn: 0,
        request: Some(second),
    };
    assert_eq!(rt; advance(&rt, &mut window), Some(turned));
    pass(&rt, &mut window, &command(1, 0, 0xa3, 1));
    assert_eq!(rt; window.find_held(0xa3, 0, 9), None);
    assert_eq!(rt; advance(&rt, &mut window), None);
    Ok(())
}

#[test]
fn a_held_request_comes_back_with_its_event(rt: HostRuntime) -> Result<(), Fail> {
    let mut window = EventWindow::open(rt.alloc(), 0xffff_ffff, 4)?;
    let first = command(1, 0, 0xa1, 0xffff_ffff);
    let second = command(1, 0, 0xa2, 0);
    let third = command(2, 0, 0xa3, 1);
    for (request, event) in [(second, 7), (third, 8), (first, u64::MAX)] {
        assert_eq!(rt; window.offer(&request, event), Offer::Held);
    }
    assert_eq!(rt; window.offer(&second, 9), Offer::Duplicate);
    assert_eq!(rt; window.held(), 3);

    let emptied = window.empty(0);
    assert_eq!(rt; emptied.map(|held| held.event), Some(7));
    assert_eq!(rt; window.held(), 2);
    let mut turned = Vec::new(rt.alloc());
    for _ in 0..4 {
        assert!(rt; window.turned() < u64::MAX);
        turned.push(window.advance())?;
    }
    let first = HeldRequest {
        request: first,
        event: u64::MAX,
    };
    let third = HeldRequest {
        request: third,
        event: 8,
    };
    let wanted = [Some(Some(first)), Some(None), Some(Some(third)), None];
    assert_eq!(rt; turned.as_slice(), wanted.as_slice());
    assert_eq!(rt; (window.held(), window.turned()), (0, 3));
    Ok(())
}

#[test]
fn held_requests_are_found_and_taken_out(rt: HostRuntime) -> Result<(), Fail> {
    let mut window = Window::open(rt.alloc(), 0xffff_fffe, 8)?;
    let fourth = command(1, 0, 0xa1, 1);
    for request in [
        command(1, 7, 0xa1, 0xffff_ffff),
        command(2, 0, 0xa1, 0),
        fourth,
    ] {
        assert_eq!(rt; window.offer(&request), Offer::Held);
    }
    for (itt, unit, below, found) in [
        (0xa1, 0, 5, Some(0)),
        (0xa1, 7, 0, Some(0xffff_ffff)),
        (0xa1, 7, 0xffff_ffff, None),
        (0xa1, 0, 0, None),
        (0xa2, 0, 5, None),
        (0xa1, 0, 0x8000_0000, None),
    ] {
        let answer = window.find_held(itt, unit, below);
        assert_eq!(rt; answer, found, "below {below} on {unit}");
    }
    assert_eq!(rt; window.drop_at(1, Some(2)), None);
    assert_eq!(rt; window.drop_at(2, Some(2)), Some(0));
    assert_eq!(rt; window.drop_at(2, None), None);
    assert_eq!(rt; window.find_held(0xa1, 0, 5), Some(1));
    assert_eq!(rt; window.drop_first(Some(2)), None);
    assert_eq!(rt; window.drop_first(None), Some(0xffff_ffff));
    assert_eq!(rt; window.empty(1), Some(fourth));
    assert_eq!(rt; window.empty(1), None);
    assert_eq!(rt; window.empty(0x100), None);
    assert_eq!(rt; window.drop_first(None), None);
    assert_eq!(rt; window.drop_at(3, None), None);
    assert_eq!(rt; window.drop_at(8, None), None);
    // The numbers stay received.
    assert_eq!(rt; window.offer(&fourth), Offer::Duplicate);
    Ok(())
}

#[test]
fn tags_of_one_group_are_told_apart(rt: HostRuntime) -> Result<(), Fail> {
    let mut window = Window::open(rt.alloc(), 1, 8)?;
    let (tag, other) = (0xa1, 0xa1 + 4093);
    assert_eq!(rt; window.find_held(tag, 0, 9), None);
    assert_eq!(rt; window.offer(&command(1, 0, tag, 1)), Offer::Held);
    assert_eq!(rt; window.find_held(other, 0, 9), None);
    assert_eq!(rt; window.offer(&command(1, 0, other, 2)), Offer::Held);
    let found = [tag, other].map(|itt| window.find_held(itt, 0, 9));
    assert_eq!(rt; found, [Some(1), Some(2)]);
    assert_eq!(rt; window.empty(1).is_some(), true);
    let found = [tag, other].map(|itt| window.find_held(itt, 0, 9));
    assert_eq!(rt; found, [None, Some(2)]);
    Ok(())
}

#[test]
fn turned_requests_are_found_no_more(rt: HostRuntime) -> Result<(), Fail> {
    let mut window = Window::open(rt.alloc(), 0xffff_ffff, 2)?;
    // The places are gone round more than once.
    for sn in [0xffff_ffff, 0, 1, 2, 3] {
        assert_eq!(rt; window.find_held(0xa1, 0, 8), None);
        assert_eq!(rt; window.offer(&command(1, 0, 0xa1, sn)), Offer::Held);
        assert_eq!(rt; window.find_held(0xa1, 0, 8), Some(sn));
        assert_eq!(rt; advance(&rt, &mut window).is_some(), true);
    }
    assert_eq!(rt; window.find_held(0xa1, 0, 8), None);
    Ok(())
}

#[test]
fn a_command_takes_a_place(rt: HostRuntime) -> Result<(), Fail> {
    let mut window = Window::open(rt.alloc(), 0xffff_ffff, 1)?;
    assert_eq!(rt;
        window.offer(&command(1, 0, 0xa1, 0xffff_ffff)),
        Offer::Held
    );
    assert!(rt; window.turned() < u64::MAX);
    if window.advance().is_some() {
        window.start_one();
    }
    assert_eq!(rt; window.unfinished(), 1);
    assert_eq!(rt; window.exp(), 0);
    // The window is shut.
    assert_eq!(rt; window.max(), 0xffff_ffff);
    assert_eq!(rt; window.offer(&command(1, 0, 0xa2, 0)), Offer::Outside);
    assert!(rt; window.unfinished() > 0);
    window.finish_one();
    assert_eq!(rt; window.max(), 0);
    assert_eq!(rt; window.offer(&command(1, 0, 0xa2, 0)), Offer::Held);
    Ok(())
}
