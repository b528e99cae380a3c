//! A desk, whose session is played by the test: each list of effects is what a session answers an event with.

use iscsi_ffi_commands::Stage;
use iscsi_ffi_desk::{Action, Desk, DeskOptions, StopReason};
use iscsi_outbox::{Given, OutboxFault, OutboxOptions, OwnPdu, Pdu};
use iscsi_rules::{Effect, Numbers};
use iscsi_tasks::Attr;
use iscsi_wire::{Reply, Request};
use std::alloc::{AllocError, Global};
use std::process::Abort;
use std::test::Fail;

/// The connection.
const CID: u16 = 1;

/// ExpCmdSN and MaxCmdSN: no test here looks at them.
const NUMBERS: Numbers = Numbers { exp: 3, max: 6 };

/// A reply that goes out.
fn sent(reply: Reply) -> Effect {
    Effect::Send {
        conn: CID,
        stat_sn: 1,
        reply,
    }
}

/// The answer to the abort: it is complete.
fn answer() -> Effect {
    sent(Reply::Task {
        itt: 0xb1,
        response: 0,
    })
}

/// Of a session with one connection and two units.
fn options(alloc: Global, unwritten: u32) -> Result<DeskOptions, AllocError> {
    Ok(DeskOptions {
        outbox: OutboxOptions {
            first: 1,
            window: 4,
            units: 2,
            own: 1,
            acknowledged: false,
            shared: false,
            conns: [CID].to_vec(alloc)?,
        },
        unwritten,
    })
}

/// A desk whose connection has joined.
fn joined(rt: &impl Abort, alloc: Global) -> Result<Desk, Fail> {
    let mut desk = Desk::open(alloc, &options(alloc, 1)?)?;
    assert!(rt; desk.join(CID, 1));
    Ok(desk)
}

/// The header of a SCSI Command of unit 0.
fn command(cmd_sn: u32, itt: u32) -> [u8; 48] {
    let mut header = [0; 48];
    header[0] = 0x01;
    header[1] = 0x81;
    header[16..20].copy_from_slice(&itt.to_be_bytes());
    header[24..28].copy_from_slice(&cmd_sn.to_be_bytes());
    header
}

/// The header of an immediate ABORT TASK of the command with this tag.
fn abort(cmd_sn: u32, aborted: u32) -> [u8; 48] {
    let mut header = command(cmd_sn, 0xb1);
    header[0] = 0x42;
    header[20..24].copy_from_slice(&aborted.to_be_bytes());
    header
}

/// An event of the session, and the end of the call.
fn take(desk: &mut Desk, own: Option<u32>, effects: &[Effect]) {
    desk.begin();
    desk.take(own, effects, NUMBERS);
    desk.end();
}

/// What was told in the last call, but for what was forgotten.
fn tells(rt: &impl Abort, desk: &Desk, actions: &[Action]) {
    assert_eq!(rt; desk.actions(), actions);
}

/// What was forgotten in it.
fn forgets(rt: &impl Abort, desk: &Desk, cookie: Option<u64>) {
    match cookie {
        Some(cookie) => assert_eq!(rt; desk.forgets(), [Action::Forget { cookie }].as_slice()),
        None => assert!(rt; desk.forgets().is_empty()),
    }
}

/// What the connection is given, if it is one.
fn next(desk: &mut Desk) -> (Given, Option<u64>) {
    match desk.outbox().place(CID) {
        Some(conn) => desk.next(conn, CID),
        None => (Given::IsOver, None),
    }
}

/// What was handed out there first is written.
fn write(desk: &mut Desk) {
    if let Some(conn) = desk.outbox().place(CID) {
        desk.write(conn, CID);
    }
}

/// Whether as much was handed out there and isn't written as may be.
fn is_blocked(desk: &Desk) -> bool {
    match desk.outbox().place(CID) {
        Some(conn) => desk.is_blocked(conn, 1),
        None => false,
    }
}

/// It gave nothing.
fn put_to_sleep(desk: &mut Desk) {
    if let Some(conn) = desk.outbox().place(CID) {
        desk.put_to_sleep(conn);
    }
}

/// Its transport is gone.
fn lose(desk: &mut Desk) {
    if let Some(conn) = desk.outbox().place(CID) {
        desk.lose(conn, CID);
    }
}

/// A command that enters, with the word 70: it was held, and its turn comes.
fn enter_command(rt: &impl Abort, desk: &mut Desk) {
    let request = Request::read(CID, &command(2, 0xa2));
    match desk.enter_request(70) {
        Some(place) => desk.hold(&request, place),
        None => assert!(rt; false, "no place"),
    }
    take(desk, None, &[]);
    tells(rt, desk, &[]);
    let enter = Effect::Enter {
        ticket: 1,
        unit: 0,
        attr: Attr::Simple,
    };
    take(
        desk,
        None,
        &[Effect::Void { sn: 1 }, Effect::Deliver { request }, enter],
    );
    tells(rt, desk, &[]);
}

/// It is enabled, and starts.
fn start_command(rt: &impl Abort, desk: &mut Desk) {
    take(desk, None, &[Effect::Enable { ticket: 1, unit: 0 }]);
    tells(
        rt,
        desk,
        &[Action::Start {
            ticket: 1,
            unit: 0,
            attr: Attr::Simple,
            cookie: 70,
        }],
    );
}

#[test]
fn word_comes_back_once_the_reply_is_written(rt: HostRuntime) -> Result<(), Fail> {
    let mut desk = joined(&rt, rt.alloc())?;
    enter_command(&rt, &mut desk);
    start_command(&rt, &mut desk);
    assert_eq!(rt; desk.commands(), 1);
    let leaves = Effect::Leave { ticket: 1, unit: 0 };
    let response = sent(Reply::Scsi {
        itt: 0xa2,
        status: 0,
        sense: None,
    });
    take(&mut desk, None, &[leaves, response]);
    tells(&rt, &desk, &[Action::Ready { cid: CID }]);
    let (given, cookie) = next(&mut desk);
    assert!(rt; matches!(given, Given::Hands(_)));
    assert_eq!(rt; cookie, Some(70));
    forgets(&rt, &desk, None);
    write(&mut desk);
    forgets(&rt, &desk, Some(70));
    assert_eq!(rt; desk.commands(), 0);
    write(&mut desk);
    forgets(&rt, &desk, Some(70));
    Ok(())
}

#[test]
fn marked_command_never_starts(rt: HostRuntime) -> Result<(), Fail> {
    let mut desk = joined(&rt, rt.alloc())?;
    enter_command(&rt, &mut desk);
    desk.clear(1);
    desk.clear(0);
    match desk.command(1) {
        Some(command) => assert_eq!(rt; command.stage, Stage::Marked),
        None => assert!(rt; false, "no command"),
    }
    take(&mut desk, None, &[Effect::Enable { ticket: 1, unit: 0 }]);
    tells(&rt, &desk, &[]);
    assert_eq!(rt; desk.take_withheld(), Some((1, 0x40)));
    assert_eq!(rt; desk.take_withheld(), None);
    Ok(())
}

#[test]
fn started_command_stops_by_a_reset_of_another_session(rt: HostRuntime) -> Result<(), Fail> {
    let mut desk = joined(&rt, rt.alloc())?;
    enter_command(&rt, &mut desk);
    start_command(&rt, &mut desk);
    desk.begin();
    desk.clear(0);
    desk.clear_elsewhere(0);
    tells(
        &rt,
        &desk,
        &[Action::Stop {
            ticket: 1,
            cookie: 70,
            why: StopReason::Cleared,
        }],
    );
    Ok(())
}

#[test]
fn aborted_command_is_over_when_it_has_stopped(rt: HostRuntime) -> Result<(), Fail> {
    let mut desk = joined(&rt, rt.alloc())?;
    enter_command(&rt, &mut desk);
    start_command(&rt, &mut desk);
    let own = desk.enter_request(80);
    let request = Request::read(CID, &abort(3, 0xa2));
    let leaves = Effect::Leave { ticket: 1, unit: 0 };
    take(
        &mut desk,
        own,
        &[Effect::Immediate { request }, leaves, answer()],
    );
    tells(
        &rt,
        &desk,
        &[Action::Stop {
            ticket: 1,
            cookie: 70,
            why: StopReason::Aborted,
        }],
    );
    assert!(rt; desk.stop_running(1));
    assert!(rt; !desk.stop_running(1));
    forgets(&rt, &desk, Some(70));
    desk.begin();
    desk.end();
    tells(&rt, &desk, &[Action::Ready { cid: CID }]);
    assert_eq!(rt; next(&mut desk).1, Some(80));
    Ok(())
}

#[test]
fn own_pdu_has_a_word(rt: HostRuntime) -> Result<(), Fail> {
    let mut desk = joined(&rt, rt.alloc())?;
    desk.hear(CID, 1, 0xffff_ffff);
    let mut header = [0; 48];
    header[0] = 0x32;
    let message = OwnPdu::OfConnection { conn: CID, header };
    assert_eq!(rt; desk.put(&message, 90), Ok(()));
    let (given, cookie) = next(&mut desk);
    match given {
        Given::Hands(handed) => assert_eq!(rt; handed.pdu, Pdu::Own(message)),
        Given::Nothing | Given::IsOver => assert!(rt; false, "nothing goes out"),
    }
    assert_eq!(rt; cookie, Some(90));
    assert!(rt; is_blocked(&desk));
    desk.begin();
    lose(&mut desk);
    forgets(&rt, &desk, Some(90));
    Ok(())
}

#[test]
fn connection_is_told_again_once_it_gave_nothing(rt: HostRuntime) -> Result<(), Fail> {
    let mut desk = joined(&rt, rt.alloc())?;
    let own = desk.enter_request(70);
    let request = Request::read(CID, &abort(1, 0xa2));
    let effects = [Effect::Immediate { request }, answer()];
    take(&mut desk, own, &effects);
    tells(&rt, &desk, &[Action::Ready { cid: CID }]);
    take(&mut desk, None, &[]);
    tells(&rt, &desk, &[]);
    put_to_sleep(&mut desk);
    take(&mut desk, None, &[]);
    tells(&rt, &desk, &[Action::Ready { cid: CID }]);
    Ok(())
}

#[test]
fn options_outside_their_limits_are_refused(rt: HostRuntime) -> Result<(), Fail> {
    let alloc = rt.alloc();
    let options = options(alloc, 1025)?;
    assert!(rt; !options.is_valid());
    match Desk::open(alloc, &options) {
        Ok(_) => assert!(rt; false, "opened"),
        Err(fault) => assert_eq!(rt; fault, OutboxFault::BadOptions),
    }
    Ok(())
}
