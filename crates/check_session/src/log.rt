//! The log of a list of events.

use iscsi_session::{Effect, Effects, Event, Numbers, Options, SessionFault, Why, run};
use std::test::Fail;

#[test]
fn a_log_has_an_entry_for_each_event(rt: HostRuntime) -> Result<(), Fail> {
    let alloc = rt.alloc();
    let options = Options {
        first: 1,
        window: 32,
        units: 1,
        depth: 64,
        level: 1,
        events: 2,
        conns: [(1, 1)].to_vec(alloc)?,
    };
    let mut header = [0; 48];
    header[0] = 0x01;
    header[1] = 0x81;
    header[27] = 1;
    let events = [
        Event::Arrive { conn: 1, header },
        Event::Done {
            ticket: 1,
            status: 0,
        },
    ];
    let log = run(alloc, options, &events)?;
    assert_eq!(rt; log.len(), 2);
    assert_eq!(rt; log[0].numbers, Numbers { exp: 2, max: 0x20 });
    assert_eq!(rt; log[0].effects.as_slice().len(), 3);
    assert_eq!(rt; log[1].numbers, Numbers { exp: 2, max: 0x21 });
    assert_eq!(rt; log[1].effects.as_slice().len(), 2);
    Ok(())
}

#[test]
fn the_first_refused_event_decides(rt: HostRuntime) -> Result<(), Fail> {
    let alloc = rt.alloc();
    let options = Options {
        first: 1,
        window: 32,
        units: 1,
        depth: 64,
        level: 1,
        events: 1,
        conns: [(1, 1)].to_vec(alloc)?,
    };
    let done = Event::Done {
        ticket: 1,
        status: 0,
    };
    let unknown = Event::Arrive {
        conn: 2,
        header: [0; 48],
    };
    match run(alloc, options, &[done, done, unknown]) {
        Ok(_) => assert!(rt; false, "taken"),
        Err(fault) => assert_eq!(rt; fault, SessionFault::Exhausted),
    }
    Ok(())
}

#[test]
fn effects_are_a_list(rt: HostRuntime) -> Result<(), Fail> {
    let list = [Effect::Ignore { why: Why::Data }, Effect::CloseSession].to_vec(rt.alloc())?;
    let effects = Effects::from_vec(list);
    assert_eq!(rt; effects.as_slice().len(), 2);
    assert_eq!(rt; effects.into_vec().len(), 2);
    Ok(())
}
