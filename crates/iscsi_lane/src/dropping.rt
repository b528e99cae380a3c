//! The answers that would go out on a connection are dropped, in one walk over the log.

ghost use Rattle.std.specs.Prelude.{◌≡◌, ◌+◌, ◌&&◌, ◌≤◌, false, true, if◌then◌else◌, length, map, None};
ghost use Rattle.iscsi_lists.specs.Lists.{with_last, without};
ghost use Rattle.iscsi_outbox_state.specs.Lane.{goes_out_on, is_numbered};
ghost use Rattle.iscsi_slots.specs.Slots.{times};
ghost use Rattle.iscsi_lane.specs.Dropping.{IsDropping};
ghost use Rattle.iscsi_lane.specs.Lining.{IsLined};
ghost use Rattle.iscsi_lane.specs.Standings.{at as stood_at, slots_at};

use crate::lines::Lines;
use crate::settling::{LOG, one_if};
use iscsi_lists::Lists;
use iscsi_outbox_state::Standing;

/// How many answers were dropped, and how many of them answer a numbered request.
#[derive(Clone, Copy)]
pub(crate) struct Dropped {
    pub(crate) answers: usize,
    pub(crate) numbered: usize,
}

/// The answers that would go out on a connection go, from the log and from the lines. It walks over the log, once.
pub(crate) fn drop_all(lines: &mut Lines, log: &mut Lists<Standing>, conn: u16) -> Dropped
    requires lined { IsLined lines.old log.old }
    requires lists { length log.old.lists ≡ 3 }
    ensures dropped { IsDropping log.old log.new conn result.answers result.numbered None }
    ensures lined { IsLined lines.new log.new }
{
    log.known();
    let mut dropped = Dropped {
        answers: 0,
        numbered: 0,
    };
    let mut at = log.first(LOG);
    while let Some(slot) = at {
        log.known();
        at = log.next(slot);
        dropped = drop_at(lines, log, slot, conn, dropped);
    }
    dropped
}

/// The answer in a slot goes, and counts, if it would go out on a connection.
fn drop_at(
    lines: &mut Lines,
    log: &mut Lists<Standing>,
    slot: u32,
    conn: u16,
    dropped: Dropped,
) -> Dropped
    requires lined { IsLined lines.old log.old }
    requires lists { length log.old.lists ≡ 3 }
    requires there { 1 ≤ times slot (slots_at log.old 2) }
    requires few { dropped.answers + length (slots_at log.old 2) ≤ log.old.room }
    requires fewer { dropped.numbered ≤ dropped.answers }
    ensures gone { goes_out_on conn (stood_at log.old.values slot) ≡ true →
        log.new ≡ record log.old { lists = with_last 1 slot (map (without slot) log.old.lists) } }
    ensures stays { goes_out_on conn (stood_at log.old.values slot) ≡ false → log.new ≡ log.old }
    ensures answers { result.answers ≡
        dropped.answers + (if goes_out_on conn (stood_at log.old.values slot) then 1 else 0) }
    ensures numbered { result.numbered ≡ dropped.numbered
        + (if goes_out_on conn (stood_at log.old.values slot) && is_numbered (stood_at log.old.values slot)
        then 1 else 0) }
    ensures lined { IsLined lines.new log.new }
{
    log.known();
    let Standing::Undue(answer) = *log.at(slot) else {
        return dropped;
    };
    if answer.conn != conn {
        return dropped;
    }
    lines.part(log, slot, answer);
    Dropped {
        answers: dropped.answers + 1,
        numbered: dropped.numbered + one_if(answer.numbered),
    }
}
