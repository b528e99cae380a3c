//! The lines of a report that no recording reaches: the greatest numbers, and lines that are put behind others.

use iscsi_session::{Attr, Effect, Event, Numbers, put_effect, put_event};
use iscsi_wire::Reply;
use std::alloc::Global;
use std::process::Abort;
use std::test::Fail;

const NUMBERS: Numbers = Numbers {
    exp: 0x2,
    max: 0x21,
};

/// A header with this CmdSN and tag, and other bytes that no line shows.
fn header(cmd_sn: u8, itt: u8) -> [u8; 48] {
    let mut header = [0x5a; 48];
    header[16..20].copy_from_slice(&[0, 0xbe, 0, itt]);
    header[24..28].copy_from_slice(&[0xff, 0xff, 0, cmd_sn]);
    header
}

fn check_effects(rt: &impl Abort, alloc: Global, cases: &[(Effect, &str)]) -> Result<(), Fail> {
    let mut out = Vec::new(alloc);
    for (effect, line) in cases {
        out.clear();
        put_effect(effect, NUMBERS, &mut out)?;
        assert_eq!(rt; out.as_slice(), line.as_bytes(), "not {line}");
    }
    Ok(())
}

#[test]
fn lines_of_tasks(rt: HostRuntime) -> Result<(), Fail> {
    let enter = |ticket, unit, attr| Effect::Enter { ticket, unit, attr };
    check_effects(
        &rt,
        rt.alloc(),
        &[
            (enter(1, 0, Attr::Simple), "  enter 1 0 simple\n"),
            (enter(10, 255, Attr::Ordered), "  enter 10 255 ordered\n"),
            (
                enter(u64::MAX, u16::MAX, Attr::Head),
                "  enter 18446744073709551615 65535 head\n",
            ),
            (Effect::Enable { ticket: 7, unit: 3 }, "  enable 7\n"),
            (
                Effect::Leave {
                    ticket: 100,
                    unit: 3,
                },
                "  leave 100\n",
            ),
        ],
    )
}

#[test]
fn the_longest_line_fits(rt: HostRuntime) -> Result<(), Fail> {
    let reply = Reply::Reject {
        reason: 9,
        header: header(4, 0x0c),
    };
    let effect = Effect::Send {
        conn: u16::MAX,
        stat_sn: 0xffff_fffe,
        reply,
    };
    let mut out = Vec::new(rt.alloc());
    put_effect(&effect, NUMBERS, &mut out)?;
    let line = "  send 65535 \
                3f800900000000300000000000000000ffffffff00000000\
                fffffffe0000000200000021000000000000000000000000\
                5a5a5a5a5a5a5a5a5a5a5a5a5a5a5a5a00be000c5a5a5a5a\
                ffff00045a5a5a5a5a5a5a5a5a5a5a5a5a5a5a5a5a5a5a5a\n";
    assert_eq!(rt; out.as_slice(), line.as_bytes());
    assert_eq!(rt; out.len(), 206);
    Ok(())
}

#[test]
fn lines_of_events_are_appended(rt: HostRuntime) -> Result<(), Fail> {
    let arrival = Event::Arrive {
        conn: 12,
        header: header(0x2f, 0xcd),
    };
    let done = Event::Done {
        ticket: u64::MAX,
        status: 0x2a,
    };
    let mut out = Vec::new(rt.alloc());
    put_event(&arrival, &mut out)?;
    put_event(&done, &mut out)?;
    put_effect(&Effect::CloseSession, NUMBERS, &mut out)?;
    put_event(
        &Event::Done {
            ticket: 0,
            status: 0,
        },
        &mut out,
    )?;
    let lines = "> C 12 5a5a5a5a5a5a5a5a5a5a5a5a5a5a5a5a00be00cd5a5a5a5affff002f\
                 5a5a5a5a5a5a5a5a5a5a5a5a5a5a5a5a5a5a5a5a\n\
                 > D 18446744073709551615 2a\n  close-session\n> D 0 00\n";
    assert_eq!(rt; out.as_slice(), lines.as_bytes());
    Ok(())
}
