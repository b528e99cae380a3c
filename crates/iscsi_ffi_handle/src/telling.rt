//! What a side tells is handed over.

ghost use Rattle.std.specs.Prelude.{◌≡◌};
ghost use Rattle.iscsi_ffi_handle.specs.Telling.{places_after, side_after, told_after};

use crate::plain::{PlainAction, PlainTold, plain_action, write_action};
use iscsi_ffi::Side;

/// As many actions are handed over at once at the most.
const MOST: usize = 4_294_967_295;

/// As many of the actions that wait as have room are written into the first places, and wait no more.
#[inline(always)]
pub(crate) fn hand_over(side: &mut Side, actions: &mut [PlainAction], told: &mut PlainTold)
    ensures side { side.new ≡ side_after actions.old side.old }
    ensures actions { actions.new ≡ places_after actions.old side.old }
    ensures told { told.new ≡ told_after actions.old side.old }
{
    if !side.waits() {
        *told = PlainTold {
            count: 0,
            waiting: 0,
        };
        return;
    }
    hand_over_some(side, actions, told);
}

/// Where some wait: mostly that is one, and it has room.
#[inline(never)]
fn hand_over_some(side: &mut Side, actions: &mut [PlainAction], told: &mut PlainTold)
    ensures side { side.new ≡ side_after actions.old side.old }
    ensures actions { actions.new ≡ places_after actions.old side.old }
    ensures told { told.new ≡ told_after actions.old side.old }
{
    if actions.is_empty() {
        return hand_over_each(side, actions, told);
    }
    match side.take_only() {
        Some(action) => {
            write_action(&mut actions[0], action);
            *told = PlainTold {
                count: 1,
                waiting: 0,
            };
        }
        None => hand_over_each(side, actions, told),
    }
}

/// One after the other is.
#[inline(never)]
fn hand_over_each(side: &mut Side, actions: &mut [PlainAction], told: &mut PlainTold)
    ensures side { side.new ≡ side_after actions.old side.old }
    ensures actions { actions.new ≡ places_after actions.old side.old }
    ensures told { told.new ≡ told_after actions.old side.old }
{
    let room = actions.len().min(MOST);
    let count = side.waiting().min(room as u32);
    for index in 0..count as usize {
        let Some(action) = side.take_action() else {
            break;
        };
        actions[index] = plain_action(action);
    }
    *told = PlainTold {
        count,
        waiting: side.waiting(),
    };
}
