//! The calls of a handle, where memory is ample.

use crate::side::{CID, OPTIONS, STAT_SN, TICKET, abort, header, read};
use iscsi_ffi::Answer;
use iscsi_ffi_handle::{Handle, PlainAction, PlainNumbers, PlainPdu, PlainTold};
use std::alloc::Global;
use std::process::Abort;
use std::test::Fail;

const NO_ACTION: PlainAction = PlainAction {
    ticket: 0,
    cookie: 0,
    cid: 0,
    unit: 0,
    kind: 0,
    attribute: 0,
    why: 0,
    function: 0,
};

const READY: PlainAction = PlainAction {
    cid: CID,
    kind: 4,
    ..NO_ACTION
};

const START: PlainAction = PlainAction {
    ticket: TICKET,
    cookie: 70,
    kind: 1,
    attribute: 1,
    ..NO_ACTION
};

const NO_PDU: PlainPdu = PlainPdu {
    cookie: 9,
    kind: 9,
    has_cookie: 9,
    length: 9,
    reserved: [9; 5],
};

/// Room for what a call tells.
#[derive(Drop)]
struct Room {
    actions: [PlainAction; 4],
    told: PlainTold,
}

const ROOM: Room = Room {
    actions: [NO_ACTION; 4],
    told: PlainTold {
        count: 9,
        waiting: 9,
    },
};

/// So many actions are told, and none waits.
fn tells(rt: &impl Abort, room: &Room, actions: &[PlainAction]) {
    assert_eq!(rt;
        (room.told.count as usize, room.told.waiting),
        (actions.len(), 0)
    );
    assert_eq!(rt; &room.actions[..actions.len().min(4)], actions);
}

/// A handle whose connection has joined, and with the word 70 a READ (10) that started.
fn started(rt: &impl Abort, alloc: Global, room: &mut Room) -> Handle {
    let mut handle = Handle::closed(alloc);
    assert_eq!(rt; handle.open(alloc, &OPTIONS, &[CID]), Answer::Done);
    assert!(rt; handle.may_join(alloc, CID));
    assert_eq!(rt;
        handle.join(alloc, CID, STAT_SN, &mut room.actions, &mut room.told),
        Answer::Done
    );
    tells(rt, room, &[]);
    assert!(rt; !handle.may_join(alloc, CID));
    let answer = handle.arrive(alloc, CID, &read(), 70, &mut room.actions, &mut room.told);
    assert_eq!(rt; answer, Answer::Done);
    tells(rt, room, &[START]);
    handle
}

#[test]
fn bytes_of_a_response(rt: HostRuntime) -> Result<(), Fail> {
    let alloc = rt.alloc();
    let mut room = ROOM;
    let mut handle = started(&rt, alloc, &mut room);
    let answer = handle.complete(alloc, TICKET, 8, &mut room.actions, &mut room.told);
    assert_eq!(rt; answer, Answer::Done);
    tells(&rt, &room, &[READY]);
    let mut buffer = [0xff; 100];
    let mut pdu = NO_PDU;
    let answer = handle.next(
        alloc,
        CID,
        &mut buffer,
        &mut pdu,
        &mut room.actions,
        &mut room.told,
    );
    assert_eq!(rt; answer, Answer::Done);
    let plain = PlainPdu {
        cookie: 70,
        kind: 1,
        has_cookie: 1,
        length: 48,
        reserved: [0; 5],
    };
    assert_eq!(rt; pdu, plain);
    assert_eq!(rt; &buffer[..8], [0x21, 0x80, 0, 8, 0, 0, 0, 0].as_slice());
    assert_eq!(rt;
        &buffer[16..36],
        [
            0, 0, 0, 0xa1, 0, 0, 0, 0, 0, 0, 0, 7, 0, 0, 0, 2, 0, 0, 0, 5
        ]
        .as_slice()
    );
    assert_eq!(rt;
        &buffer[44..52],
        [0, 0, 0, 0, 0xff, 0xff, 0xff, 0xff].as_slice()
    );
    let answer = handle.written(alloc, CID, &mut room.actions, &mut room.told);
    assert_eq!(rt; answer, Answer::Done);
    let forget = PlainAction {
        cookie: 70,
        kind: 6,
        ..NO_ACTION
    };
    tells(&rt, &room, &[forget]);
    assert_eq!(rt; handle.close(alloc), Answer::Done);
    Ok(())
}

#[test]
fn actions_wait_until_they_are_taken(rt: HostRuntime) -> Result<(), Fail> {
    let alloc = rt.alloc();
    let mut room = ROOM;
    let mut handle = started(&rt, alloc, &mut room);
    let mut none: [PlainAction; 0] = [];
    let answer = handle.arrive(alloc, CID, &abort(), 80, &mut none, &mut room.told);
    assert_eq!(rt; answer, Answer::Done);
    assert_eq!(rt;
        room.told,
        PlainTold {
            count: 0,
            waiting: 1
        }
    );
    let answer = handle.stopped(alloc, TICKET, &mut room.actions, &mut room.told);
    assert_eq!(rt; answer, Answer::ActionsWait);
    assert_eq!(rt;
        room.told,
        PlainTold {
            count: 0,
            waiting: 1
        }
    );
    assert_eq!(rt;
        handle.more(alloc, &mut room.actions, &mut room.told),
        Answer::Done
    );
    let stop = PlainAction {
        ticket: TICKET,
        cookie: 70,
        kind: 2,
        why: 1,
        ..NO_ACTION
    };
    tells(&rt, &room, &[stop]);
    let answer = handle.stopped(alloc, TICKET, &mut room.actions, &mut room.told);
    assert_eq!(rt; answer, Answer::Done);
    assert_eq!(rt; room.actions[0], READY);
    Ok(())
}

#[test]
fn own_pdus_and_losses(rt: HostRuntime) -> Result<(), Fail> {
    let alloc = rt.alloc();
    let mut room = ROOM;
    let mut handle = started(&rt, alloc, &mut room);
    let message = header(0x32, 0x80, 0xffff_ffff, 0);
    let answer = handle.put(
        alloc,
        CID,
        0,
        &message,
        90,
        &mut room.actions,
        &mut room.told,
    );
    assert_eq!(rt; answer, Answer::Done);
    tells(&rt, &room, &[READY]);
    let answer = handle.put(
        alloc,
        CID,
        2,
        &message,
        90,
        &mut room.actions,
        &mut room.told,
    );
    assert_eq!(rt; answer, Answer::Unfit);
    assert!(rt; handle.may_take(alloc));
    assert!(rt; !handle.is_asked(alloc, CID));
    let heard = header(0x05, 0x80, 0xa1, STAT_SN);
    assert_eq!(rt;
        handle.heard(alloc, CID, &heard, &mut room.actions, &mut room.told),
        Answer::Done
    );
    assert_eq!(rt;
        handle.clear(alloc, 1, &mut room.actions, &mut room.told),
        Answer::Done
    );
    assert_eq!(rt;
        handle.cleared(alloc, 1, &mut room.actions, &mut room.told),
        Answer::Done
    );
    assert_eq!(rt;
        handle.lose(alloc, CID, &mut room.actions, &mut room.told),
        Answer::Done
    );
    let lost = PlainAction {
        ticket: TICKET,
        cookie: 70,
        kind: 2,
        why: 3,
        ..NO_ACTION
    };
    let forget = PlainAction {
        cookie: 90,
        kind: 6,
        ..NO_ACTION
    };
    tells(&rt, &room, &[lost, forget]);
    assert_eq!(rt;
        handle.numbers(alloc),
        Ok(PlainNumbers {
            exp_cmd_sn: 2,
            max_cmd_sn: 4
        })
    );
    Ok(())
}

#[test]
fn closed_handle_refuses_all(rt: HostRuntime) -> Result<(), Fail> {
    let alloc = rt.alloc();
    let mut room = ROOM;
    let mut handle = Handle::closed(alloc);
    let mut buffer = [0; 96];
    let mut pdu = NO_PDU;
    let answer = handle.next(
        alloc,
        CID,
        &mut buffer,
        &mut pdu,
        &mut room.actions,
        &mut room.told,
    );
    assert_eq!(rt; answer, Answer::NotOpen);
    let answer = handle.next(
        alloc,
        CID,
        &mut buffer[..95],
        &mut pdu,
        &mut room.actions,
        &mut room.told,
    );
    assert_eq!(rt; answer, Answer::ShortBuffer);
    let answer = handle.arrive(alloc, CID, &[0; 47], 70, &mut room.actions, &mut room.told);
    assert_eq!(rt; answer, Answer::ShortHeader);
    assert_eq!(rt; handle.open(alloc, &OPTIONS, &[]), Answer::BadOptions);
    assert_eq!(rt; handle.open(alloc, &OPTIONS, &[CID]), Answer::Done);
    assert_eq!(rt; handle.open(alloc, &OPTIONS, &[CID]), Answer::AlreadyOpen);
    assert_eq!(rt; handle.close(alloc), Answer::Done);
    assert_eq!(rt; handle.close(alloc), Answer::NotOpen);
    assert_eq!(rt;
        room.told,
        PlainTold {
            count: 9,
            waiting: 9
        }
    );
    Ok(())
}
