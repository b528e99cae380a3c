//! A side, over a session's life.

use iscsi_ffi::{Answer, Next, PlainOptions, Side};
use iscsi_ffi_desk::{Action, StopReason};
use iscsi_outbox::{OwnPdu, Pdu};
use iscsi_rules::Numbers;
use iscsi_tasks::Attr;
use iscsi_wire::Reply;
use std::alloc::Global;
use std::process::Abort;
use std::test::Fail;

/// The connection.
pub(crate) const CID: u16 = 1;

/// The first StatSN of the connection.
pub(crate) const STAT_SN: u32 = 7;

/// The ticket of the first command.
pub(crate) const TICKET: u64 = 1;

pub(crate) const OPTIONS: PlainOptions = PlainOptions {
    events: 1000,
    size: 48,
    first_cmd_sn: 1,
    window: 4,
    units: 2,
    depth: 4,
    level: 1,
    own: 1,
    unwritten: 1,
    acknowledged: 1,
    shared: 0,
    reserved: [0; 6],
};

/// A side whose connection has joined, and with the word 70 a READ (10) that started.
fn started(rt: &impl Abort, alloc: Global) -> Result<Side, Fail> {
    let mut side = opened(rt, alloc, &OPTIONS)?;
    done(rt, side.join(CID, STAT_SN));
    tells(rt, &mut side, &[]);
    done(rt, side.arrive(CID, &read(), 70));
    let start = Action::Start {
        ticket: TICKET,
        unit: 0,
        attr: Attr::Simple,
        cookie: 70,
    };
    tells(rt, &mut side, &[start]);
    Ok(side)
}

fn opened(rt: &impl Abort, alloc: Global, options: &PlainOptions) -> Result<Side, Fail> {
    match Side::open(alloc, options, &[CID]) {
        Ok(side) => Ok(side),
        Err(answer) => {
            assert_eq!(rt; answer, Answer::NoMemory);
            Err(Fail::new("not opened"))
        }
    }
}

/// A header with CmdSN 1 and an ExpStatSN.
pub(crate) fn header(opcode: u8, flags: u8, itt: u32, exp_stat_sn: u32) -> [u8; 48] {
    let mut header = [0; 48];
    header[0] = opcode;
    header[1] = flags;
    header[16..20].copy_from_slice(&itt.to_be_bytes());
    header[24..28].copy_from_slice(&1u32.to_be_bytes());
    header[28..32].copy_from_slice(&exp_stat_sn.to_be_bytes());
    header
}

/// A READ (10) of a block of unit 0.
pub(crate) fn read() -> [u8; 48] {
    let mut header = header(0x01, 0xc1, 0xa1, STAT_SN);
    header[32] = 0x28;
    header[40] = 0x01;
    header
}

/// An immediate ABORT TASK of it.
pub(crate) fn abort() -> [u8; 48] {
    let mut header = header(0x42, 0x81, 0xb1, STAT_SN);
    header[23] = 0xa1;
    header[35] = 0x01;
    header
}

/// A NOP-In of the target's own, that asks for an answer.
fn ping() -> OwnPdu {
    let mut header = header(0x20, 0x80, 0xffff_ffff, 0);
    header[20..24].copy_from_slice(&5u32.to_be_bytes());
    OwnPdu::OfConnection { conn: CID, header }
}

fn done(rt: &impl Abort, answer: Answer) {
    assert_eq!(rt; answer, Answer::Done);
}

/// What waits to be taken, all of it.
fn tells(rt: &impl Abort, side: &mut Side, actions: &[Action]) {
    assert_eq!(rt; side.waiting() as usize, actions.len());
    assert_eq!(rt; side.waits(), !actions.is_empty());
    for action in actions {
        assert_eq!(rt; side.take_action(), Some(*action));
    }
    assert_eq!(rt; side.take_action(), None);
}

/// The reply goes out with this StatSN and word.
fn goes(rt: &impl Abort, side: &mut Side, reply: Reply, stat_sn: u32, word: u64) {
    match side.next(CID) {
        Next::Goes(handed, cookie) => {
            match handed.pdu {
                Pdu::Reply(sent) => assert_eq!(rt; sent.reply, reply),
                _ => assert!(rt; false, "no reply"),
            }
            assert_eq!(rt; handed.stat_sn, stat_sn);
            assert_eq!(rt; cookie, Some(word));
        }
        Next::None(_) => assert!(rt; false, "nothing goes out"),
    }
}

fn gives_none(rt: &impl Abort, side: &mut Side, answer: Answer) {
    assert_eq!(rt; side.next(CID), Next::None(answer));
}

#[test]
fn word_of_a_read_comes_back_once(rt: HostRuntime) -> Result<(), Fail> {
    let mut side = started(&rt, rt.alloc())?;
    done(&rt, side.complete(TICKET, 0));
    tells(&rt, &mut side, &[Action::Ready { cid: CID }]);
    let reply = Reply::Scsi {
        itt: 0xa1,
        status: 0,
        sense: None,
    };
    goes(&rt, &mut side, reply, STAT_SN, 70);
    tells(&rt, &mut side, &[]);
    gives_none(&rt, &mut side, Answer::Blocked);
    done(&rt, side.written(CID));
    tells(&rt, &mut side, &[Action::Forget { cookie: 70 }]);
    done(
        &rt,
        side.heard(CID, &header(0x00, 0x80, 0xffff_ffff, STAT_SN + 1)),
    );
    tells(&rt, &mut side, &[]);
    gives_none(&rt, &mut side, Answer::Nothing);
    assert_eq!(rt; side.complete(TICKET, 0), Answer::Stale);
    assert_eq!(rt; side.stopped(TICKET), Answer::Stale);
    tells(&rt, &mut side, &[]);
    Ok(())
}

#[test]
fn abort_is_answered_once_its_command_has_stopped(rt: HostRuntime) -> Result<(), Fail> {
    let mut side = started(&rt, rt.alloc())?;
    done(&rt, side.arrive(CID, &abort(), 80));
    let stop = Action::Stop {
        ticket: TICKET,
        cookie: 70,
        why: StopReason::Aborted,
    };
    tells(&rt, &mut side, &[stop]);
    gives_none(&rt, &mut side, Answer::Nothing);
    done(&rt, side.stopped(TICKET));
    let ready = Action::Ready { cid: CID };
    tells(&rt, &mut side, &[ready, Action::Forget { cookie: 70 }]);
    let reply = Reply::Task {
        itt: 0xb1,
        response: 0,
    };
    goes(&rt, &mut side, reply, STAT_SN, 80);
    Ok(())
}

#[test]
fn waiting_actions_refuse_a_call(rt: HostRuntime) -> Result<(), Fail> {
    let mut side = started(&rt, rt.alloc())?;
    done(&rt, side.complete(TICKET, 0));
    assert_eq!(rt; side.arrive(CID, &abort(), 80), Answer::ActionsWait);
    assert_eq!(rt; side.complete(TICKET, 0), Answer::ActionsWait);
    assert_eq!(rt; side.stopped(TICKET), Answer::ActionsWait);
    assert_eq!(rt; side.clear(0), Answer::ActionsWait);
    assert_eq!(rt; side.cleared(0), Answer::ActionsWait);
    assert_eq!(rt; side.heard(CID, &read()), Answer::ActionsWait);
    assert_eq!(rt; side.join(CID, STAT_SN), Answer::ActionsWait);
    assert_eq!(rt; side.lose(CID), Answer::ActionsWait);
    assert_eq!(rt; side.put(&ping(), 90), Answer::ActionsWait);
    assert_eq!(rt; side.written(CID), Answer::ActionsWait);
    gives_none(&rt, &mut side, Answer::ActionsWait);
    tells(&rt, &mut side, &[Action::Ready { cid: CID }]);
    Ok(())
}

#[test]
fn options_outside_their_limits_are_refused(rt: HostRuntime) -> Result<(), Fail> {
    let refused = |options: &PlainOptions, cids: &[u16]| match Side::open(
        rt.alloc(),
        options,
        cids,
    ) {
        Ok(_) => assert!(rt; false, "opened"),
        Err(answer) => assert_eq!(rt; answer, Answer::BadOptions),
    };
    let mut options = OPTIONS;
    options.size = 47;
    refused(&options, &[CID]);
    let mut options = OPTIONS;
    options.own = 0;
    refused(&options, &[CID]);
    refused(&OPTIONS, &[CID, CID]);
    refused(&OPTIONS, &[]);
    Ok(())
}

#[test]
fn connection_that_is_not_open_is_refused(rt: HostRuntime) -> Result<(), Fail> {
    let mut side = opened(&rt, rt.alloc(), &OPTIONS)?;
    assert_eq!(rt; side.numbers(), Numbers { exp: 1, max: 4 });
    assert!(rt; side.may_take());
    assert!(rt; !side.is_asked(CID));
    assert!(rt; side.may_join(CID));
    assert_eq!(rt; side.arrive(CID, &read(), 70), Answer::NotJoined);
    assert_eq!(rt; side.arrive(2, &read(), 70), Answer::UnknownConnection);
    assert_eq!(rt; side.lose(2), Answer::UnknownConnection);
    assert_eq!(rt; side.join(2, STAT_SN), Answer::CannotJoin);
    assert_eq!(rt; side.put(&ping(), 90), Answer::Closed);
    done(&rt, side.join(CID, STAT_SN));
    assert!(rt; !side.may_join(CID));
    assert_eq!(rt; side.join(CID, STAT_SN), Answer::CannotJoin);
    gives_none(&rt, &mut side, Answer::Nothing);
    done(&rt, side.clear(0));
    done(&rt, side.cleared(0));
    done(&rt, side.lose(CID));
    assert_eq!(rt; side.lose(CID), Answer::NotJoined);
    gives_none(&rt, &mut side, Answer::Nothing);
    Ok(())
}

#[test]
fn connection_is_over_behind_its_logout(rt: HostRuntime) -> Result<(), Fail> {
    let mut side = opened(&rt, rt.alloc(), &OPTIONS)?;
    done(&rt, side.join(CID, STAT_SN));
    let mut logout = header(0x46, 0x81, 0xc1, STAT_SN);
    logout[20..22].copy_from_slice(&CID.to_be_bytes());
    done(&rt, side.arrive(CID, &logout, 70));
    tells(&rt, &mut side, &[Action::Ready { cid: CID }]);
    let reply = Reply::Logout {
        itt: 0xc1,
        response: 0,
    };
    goes(&rt, &mut side, reply, STAT_SN, 70);
    tells(&rt, &mut side, &[]);
    done(&rt, side.written(CID));
    let close = Action::Close { cid: CID };
    tells(&rt, &mut side, &[close, Action::Forget { cookie: 70 }]);
    gives_none(&rt, &mut side, Answer::Over);
    Ok(())
}

#[test]
fn ping_of_the_target_has_a_word(rt: HostRuntime) -> Result<(), Fail> {
    let mut side = started(&rt, rt.alloc())?;
    done(&rt, side.put(&ping(), 90));
    tells(&rt, &mut side, &[Action::Ready { cid: CID }]);
    assert_eq!(rt; side.put(&ping(), 91), Answer::Full);
    match side.next(CID) {
        Next::Goes(handed, cookie) => {
            assert_eq!(rt; handed.pdu, Pdu::Own(ping()));
            assert_eq!(rt; cookie, Some(90));
        }
        Next::None(_) => assert!(rt; false, "nothing goes out"),
    }
    done(&rt, side.written(CID));
    tells(&rt, &mut side, &[Action::Forget { cookie: 90 }]);
    Ok(())
}

#[test]
fn events_kept_back_take_no_request(rt: HostRuntime) -> Result<(), Fail> {
    let mut options = OPTIONS;
    options.events = 76;
    let mut side = opened(&rt, rt.alloc(), &options)?;
    done(&rt, side.join(CID, STAT_SN));
    assert_eq!(rt; side.arrive(CID, &read(), 70), Answer::Exhausted);
    tells(&rt, &mut side, &[]);
    Ok(())
}
