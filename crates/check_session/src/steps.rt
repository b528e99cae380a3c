//! Opening a session, and its steps.

use iscsi_session::{Attr, Effect, Event, Numbers, Options, Session, SessionFault, Why};
use iscsi_wire::{Reply, Request};
use std::alloc::{AllocError, Global};
use std::process::Abort;
use std::test::Fail;

/// Options within their limits, over these connections.
fn options(alloc: Global, conns: &[(u16, u32)]) -> Result<Options, AllocError> {
    Ok(Options {
        first: 1,
        window: 32,
        units: 1,
        depth: 64,
        level: 1,
        events: 1000,
        conns: conns.to_vec(alloc)?,
    })
}

/// The header of a SCSI Command with this CmdSN and tag.
fn command(cmd_sn: u32, itt: u32) -> [u8; 48] {
    let mut header = [0; 48];
    header[0] = 0x01;
    header[1] = 0x81;
    header[16..20].copy_from_slice(&itt.to_be_bytes());
    header[24..28].copy_from_slice(&cmd_sn.to_be_bytes());
    header
}

/// The arrival of a SCSI Command.
fn arrival(conn: u16, cmd_sn: u32, itt: u32) -> Event {
    Event::Arrive {
        conn,
        header: command(cmd_sn, itt),
    }
}

/// What comes of the turn of a SCSI Command.
fn turn(conn: u16, cmd_sn: u32, itt: u32, ticket: u64) -> [Effect; 3] {
    let request = Request::read(conn, &command(cmd_sn, itt));
    [
        Effect::Deliver { request },
        Effect::Enter {
            ticket,
            unit: 0,
            attr: Attr::Simple,
        },
        Effect::Enable { ticket, unit: 0 },
    ]
}

fn refuses(rt: &impl Abort, alloc: Global, options: Options) {
    match Session::open(alloc, options) {
        Ok(_) => assert!(rt; false, "opened"),
        Err(fault) => assert_eq!(rt; fault, SessionFault::BadOptions),
    }
}

#[test]
fn opens_within_the_limits(rt: HostRuntime) -> Result<(), Fail> {
    let alloc = rt.alloc();
    let mut greatest = options(alloc, &[(0, 0), (65535, u32::MAX)])?;
    greatest.first = u32::MAX;
    greatest.window = 1024;
    greatest.units = 256;
    greatest.depth = 1024;
    greatest.level = 2;
    greatest.events = 1 << 48;
    let session = Session::open(alloc, greatest)?;
    assert_eq!(rt; session.effect_bound(), 12);
    let mut many = options(alloc, &[])?;
    for cid in 0..64u16 {
        many.conns.push((cid, 1))?;
    }
    let _session = Session::open(alloc, many)?;
    Ok(())
}

// No clause says that memory is there: a session that opened at some sizes alone would be proved.
#[test]
fn opens_at_each_size(rt: HostRuntime) -> Result<(), Fail> {
    let alloc = rt.alloc();
    for size in 1..1025u32 {
        let mut sized = options(alloc, &[(1, 1)])?;
        sized.window = size;
        sized.depth = 1025 - size;
        let session = Session::open(alloc, sized)?;
        assert_eq!(rt; session.live_len(), 0);
    }
    for units in 1..257u32 {
        let mut sized = options(alloc, &[(1, 1)])?;
        sized.units = units;
        let session = Session::open(alloc, sized)?;
        assert_eq!(rt; session.live_len(), 0);
    }
    let mut conns = Vec::new(alloc);
    for cid in 0..64u16 {
        conns.push((cid, 1))?;
        let session = Session::open(alloc, options(alloc, &conns)?)?;
        assert_eq!(rt; session.live_len(), 0);
    }
    Ok(())
}

#[test]
fn refuses_options_outside_the_limits(rt: HostRuntime) -> Result<(), Fail> {
    let alloc = rt.alloc();
    for (window, units, depth, level, events) in [
        (0, 1, 64, 1, 1000),
        (1025, 1, 64, 1, 1000),
        (32, 0, 64, 1, 1000),
        (32, 257, 64, 1, 1000),
        (32, 1, 0, 1, 1000),
        (32, 1, 1025, 1, 1000),
        (32, 1, 64, 0, 1000),
        (32, 1, 64, 3, 1000),
        (32, 1, 64, 1, 0),
        (32, 1, 64, 1, (1 << 48) + 1),
    ] {
        let bad = Options {
            first: 1,
            window,
            units,
            depth,
            level,
            events,
            conns: [(1, 1)].to_vec(alloc)?,
        };
        refuses(&rt, alloc, bad);
    }
    Ok(())
}

#[test]
fn refuses_connections_outside_the_limits(rt: HostRuntime) -> Result<(), Fail> {
    let alloc = rt.alloc();
    refuses(&rt, alloc, options(alloc, &[])?);
    refuses(&rt, alloc, options(alloc, &[(1, 1), (2, 1), (1, 2)])?);
    let mut many = options(alloc, &[])?;
    for cid in 0..65u16 {
        many.conns.push((cid, 1))?;
    }
    refuses(&rt, alloc, many);
    Ok(())
}

#[test]
fn one_command_is_answered(rt: HostRuntime) -> Result<(), Fail> {
    let alloc = rt.alloc();
    let mut session = Session::open(alloc, options(alloc, &[(1, 1)])?)?;
    let mut out = Vec::new(alloc);
    let numbers = session.step(&arrival(1, 1, 0xa1), &mut out)?;
    assert_eq!(rt; numbers, Numbers { exp: 2, max: 0x20 });
    assert_eq!(rt; out.as_slice(), turn(1, 1, 0xa1, 1).as_slice());
    assert_eq!(rt; session.effect_bound(), 14);

    out.clear();
    let done = Event::Done {
        ticket: 1,
        status: 0,
    };
    let numbers = session.step(&done, &mut out)?;
    assert_eq!(rt; numbers, Numbers { exp: 2, max: 0x21 });
    let answered = [
        Effect::Leave { ticket: 1, unit: 0 },
        Effect::Send {
            conn: 1,
            stat_sn: 1,
            reply: Reply::Scsi {
                itt: 0xa1,
                status: 0,
                sense: None,
            },
        },
    ];
    assert_eq!(rt; out.as_slice(), answered.as_slice());
    Ok(())
}

#[test]
fn a_refused_event_changes_nothing(rt: HostRuntime) -> Result<(), Fail> {
    let alloc = rt.alloc();
    let mut few = options(alloc, &[(1, 1)])?;
    few.events = 1;
    let mut session = Session::open(alloc, few)?;
    let mut out = Vec::new(alloc);
    let unknown = arrival(9, 1, 0xa1);
    assert_eq!(rt;
        session.step(&unknown, &mut out),
        Err(SessionFault::UnknownConnection)
    );
    assert_eq!(rt; out.len(), 0);
    let done = Event::Done {
        ticket: 1,
        status: 0,
    };
    let numbers = session.step(&done, &mut out)?;
    assert_eq!(rt; numbers, Numbers { exp: 1, max: 0x20 });
    assert_eq!(rt;
        out.as_slice(),
        [Effect::Ignore { why: Why::Stale }].as_slice()
    );
    assert_eq!(rt;
        session.step(&unknown, &mut out),
        Err(SessionFault::UnknownConnection)
    );
    assert_eq!(rt; session.step(&done, &mut out), Err(SessionFault::Exhausted));
    assert_eq!(rt; out.len(), 1);
    Ok(())
}

#[test]
fn the_widest_window_turns_at_once(rt: HostRuntime) -> Result<(), Fail> {
    let alloc = rt.alloc();
    let mut widest = options(alloc, &[(1, 1)])?;
    widest.window = 1024;
    widest.depth = 1024;
    widest.events = 1024;
    let mut session = Session::open(alloc, widest)?;
    let mut out = Vec::new(alloc);
    for number in 2..=1024u32 {
        session.step(&arrival(1, number, number), &mut out)?;
    }
    assert_eq!(rt; out.len(), 0);
    assert_eq!(rt; session.effect_bound(), 12288);

    out.reserve(12288)?;
    let room = out.capacity();
    let numbers = session.step(&arrival(1, 1, 1), &mut out);
    assert_eq!(rt;
        numbers,
        Ok(Numbers {
            exp: 1025,
            max: 1024
        })
    );
    // no more memory was asked for
    assert_eq!(rt; out.capacity(), room);
    assert_eq!(rt; out.len(), 3072);
    for (effects, number) in out.as_slice().chunks(3).zip(1..=1024u32) {
        let turn = turn(1, number, number, u64::from(number));
        assert_eq!(rt; effects, turn.as_slice(), "at {number}");
    }
    Ok(())
}
