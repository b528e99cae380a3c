//! When each slot came to stand in the lane: numbers that go up along the log.

ghost use Rattle.std.specs.Prelude.{◌≡◌, ◌+◌, ◌<◌, ◌≤◌, ◌^◌, ◌-◌, ◌++◌, ◌∷◌, [], length};
ghost use Rattle.iscsi_slots.specs.Slots.{times};
ghost use Rattle.iscsi_lane.specs.Standings.{slots_at};
ghost use Rattle.iscsi_lane.specs.Times.{AllUnder, IsUp};

use crate::settling::LOG;
use iscsi_lists::Lists;
use iscsi_outbox_state::Standing;

/// Numbers a slot that comes behind all that stands there. It answers the number of what comes next.
pub(crate) fn stamp(log: &Lists<Standing>, stamps: &mut Vec<u64>, next: u64, slot: u32) -> u64
    requires lists { length log.now.lists ≡ 3 }
    requires up { IsUp stamps.old.items (slots_at log.now 2) }
    requires under { AllUnder stamps.old.items next (slots_at log.now 2) }
    requires long { length stamps.old.items ≡ log.now.room + 1 }
    requires within { slot ≤ log.now.room }
    requires none { times slot (slots_at log.now 2) ≡ 0 }
    ensures up { IsUp stamps.new.items (slots_at log.now 2 ++ slot ∷ []) }
    ensures under { AllUnder stamps.new.items result (slots_at log.now 2 ++ slot ∷ []) }
    ensures long { length stamps.new.items ≡ log.now.room + 1 }
{
    let time = next_stamp(log, stamps, next);
    stamps[slot as usize] = time;
    time + 1
}

/// The number of what comes next. Where numbers are used up, all that stands there is numbered anew: it takes as many
/// steps, once in 2^64 that came.
fn next_stamp(log: &Lists<Standing>, stamps: &mut Vec<u64>, next: u64) -> u64
    requires lists { length log.now.lists ≡ 3 }
    requires up { IsUp stamps.old.items (slots_at log.now 2) }
    requires under { AllUnder stamps.old.items next (slots_at log.now 2) }
    requires long { length stamps.old.items ≡ log.now.room + 1 }
    ensures up { IsUp stamps.new.items (slots_at log.now 2) }
    ensures under { AllUnder stamps.new.items result (slots_at log.now 2) }
    ensures long { length stamps.new.items ≡ log.now.room + 1 }
    ensures fits { result < 18446744073709551615 }
{
    if next < u64::MAX {
        return next;
    }
    number_anew(log, stamps)
}

/// Numbers all that stands there from 0 on: how many there are.
fn number_anew(log: &Lists<Standing>, stamps: &mut Vec<u64>) -> u64
    requires lists { length log.now.lists ≡ 3 }
    requires long { length stamps.old.items ≡ log.now.room + 1 }
    ensures up { IsUp stamps.new.items (slots_at log.now 2) }
    ensures under { AllUnder stamps.new.items result (slots_at log.now 2) }
    ensures long { length stamps.new.items ≡ log.now.room + 1 }
    ensures fits { result ≤ log.now.room }
    ensures short { log.now.room ≤ 4294967295 }
{
    log.known();
    let mut next = 0;
    let mut at = log.first(LOG);
    while let Some(slot) = at {
        stamps[slot as usize] = next;
        next += 1;
        at = log.next(slot);
    }
    next
}
