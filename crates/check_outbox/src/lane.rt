//! The lane, its lines and their tags.

use iscsi_lane::Lane;
use iscsi_outbox_state::{Aim, Left, SentReply, Undue};
use iscsi_scopes::Scopes;
use iscsi_tags::Tags;
use iscsi_wire::Reply;
use std::test::Fail;

/// A command that left, and owes all that one can.
const LEFT: Left = Left {
    command: 1,
    conn: 1,
    unit: 5,
    tag: 9,
    running: true,
    under_way: true,
};

/// The answer to a LOGICAL UNIT RESET of its unit, on another connection.
const RESET: Undue = Undue {
    reply: SentReply {
        reply: Reply::Task {
            itt: 2,
            response: 0,
        },
        place: 6,
    },
    conn: 0,
    aim: Aim::Unit(5),
    numbered: true,
    ends: false,
    uncleared: false,
};

#[test]
fn nothing_stands_in_the_lane_at_first(rt: HostRuntime) -> Result<(), Fail> {
    let mut lane = Lane::with_room(rt.alloc(), 2, 2, 2)?;
    assert_eq!(rt;
        (lane.owing(), lane.answers_waiting(), lane.numbered()),
        (0, 0, 0)
    );
    assert_eq!(rt; lane.take_due(), None);
    Ok(())
}

#[test]
fn an_answer_waits_until_a_command_stopped_and_arrived(rt: HostRuntime) -> Result<(), Fail> {
    let mut lane = Lane::with_room(rt.alloc(), 2, 2, 2)?;
    lane.leave(LEFT);
    lane.wait(RESET);
    assert_eq!(rt;
        (lane.has(1), lane.under_way_on(1), lane.waits_on(0)),
        (true, true, true)
    );
    assert_eq!(rt; lane.take_due(), None);
    lane.stop(1);
    assert_eq!(rt; lane.take_due(), None);
    lane.arrive(1);
    assert_eq!(rt; (lane.has(1), lane.under_way_on(1)), (false, false));
    assert_eq!(rt; lane.take_due(), Some(RESET));
    assert_eq!(rt; lane.waits_on(0), false);
    Ok(())
}

#[test]
fn an_answer_waits_until_it_is_cleared_or_dropped(rt: HostRuntime) -> Result<(), Fail> {
    let mut lane = Lane::with_room(rt.alloc(), 2, 2, 2)?;
    let uncleared = Undue {
        uncleared: true,
        ..RESET
    };
    lane.wait(uncleared);
    lane.wait(uncleared);
    lane.clear(5);
    assert_eq!(rt; lane.take_due(), Some(RESET));
    assert_eq!(rt; (lane.take_due(), lane.answers_waiting()), (None, 1));
    lane.drop_on(0);
    assert_eq!(rt; (lane.waits_on(0), lane.answers_waiting()), (false, 0));
    Ok(())
}

#[test]
fn a_tag_has_a_line_while_it_is_in_use(rt: HostRuntime) -> Result<(), Fail> {
    let mut tags = Tags::with_room(rt.alloc(), 2)?;
    let line = tags.enter(9);
    assert_eq!(rt; (tags.find(9), tags.find(8)), (Some(line), None));
    Ok(())
}

#[test]
fn no_answer_is_due_in_a_line_that_is_empty(rt: HostRuntime) -> Result<(), Fail> {
    let scopes = Scopes::with_room(rt.alloc(), 2)?;
    assert_eq!(rt; scopes.due(9), None);
    Ok(())
}
