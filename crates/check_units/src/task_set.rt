//! Worked task sets, and what functions take out of them.

ghost use Rattle.std.specs.Prelude.{IsTrue};
ghost use Rattle.iscsi_tasks.specs.Sets.{IsNewest};

use iscsi_tasks::{Attr, Cover, Task, TaskFault, TaskSet};
use std::process::Abort;
use std::test::Fail;

/// A numbered command of connection 1 whose tag is its ticket.
pub(crate) fn task(ticket: u64, attr: Attr) -> Task {
    let number = (ticket % (1 << 32)) as u32;
    Task {
        ticket,
        conn: 1,
        itt: number,
        attr,
        immediate: false,
        pos: i64::from(number),
        event: ticket,
    }
}

/// Whether the ticket is above those of the set.
pub(crate) fn is_newest(set: &TaskSet, ticket: u64) -> bool
    ensures { IsTrue result → IsNewest ticket set.now }
{
    for place in 0..set.len() {
        match set.covered_at(place, &Cover::All) {
            Some(older) if older < ticket => {}
            _ => return false,
        }
    }
    true
}

pub(crate) fn enter(rt: &impl Abort, set: &mut TaskSet, task: Task) -> Result<(), Task> {
    assert!(rt; is_newest(set, task.ticket));
    set.enter(task)
}

/// What three calls give.
fn new_ones(set: &mut TaskSet) -> [Option<u64>; 3] {
    [set.next_new(), set.next_new(), set.next_new()]
}

#[test]
fn depths(rt: HostRuntime) -> Result<(), Fail> {
    let alloc = rt.alloc();
    for depth in [0, 1025, u32::MAX] {
        assert_eq!(rt;
            TaskSet::open(alloc, depth).err(),
            Some(TaskFault::BadDepth)
        );
    }
    for depth in [1, 1024] {
        let set = TaskSet::open(alloc, depth)?;
        assert_eq!(rt; set.depth(), depth);
        assert_eq!(rt; set.len(), 0);
        assert_eq!(rt; set.looked(), 0);
    }
    Ok(())
}

#[test]
fn heads_and_ordered(rt: HostRuntime) -> Result<(), Fail> {
    let mut set = TaskSet::open(rt.alloc(), 8)?;
    for (ticket, attr, new) in [
        (1, Attr::Ordered, Some(1)),
        (2, Attr::Simple, None),
        (3, Attr::Head, Some(3)),
        (4, Attr::Head, Some(4)),
        (5, Attr::Ordered, None),
        (6, Attr::Simple, None),
    ] {
        assert_eq!(rt; enter(&rt, &mut set, task(ticket, attr)), Ok(()));
        assert_eq!(rt; set.looked(), 1);
        assert_eq!(rt; new_ones(&mut set), [new, None, None], "of {ticket}");
    }
    for (ticket, attr, new) in [
        (1, Attr::Ordered, None),
        (3, Attr::Head, None),
        (4, Attr::Head, Some(2)),
        (2, Attr::Simple, Some(5)),
        (5, Attr::Ordered, Some(6)),
        (6, Attr::Simple, None),
    ] {
        assert_eq!(rt; set.leave(ticket), Some(task(ticket, attr)));
        assert_eq!(rt; new_ones(&mut set), [new, None, None], "of {ticket}");
        if ticket == 3 {
            assert_eq!(rt; set.is_enabled(2), false);
        }
    }
    assert_eq!(rt; set.len(), 0);
    assert_eq!(rt; set.looked(), 1);
    assert_eq!(rt; set.leave(6), None);
    Ok(())
}

#[test]
fn an_enabled_command_leaves_from_its_place(rt: HostRuntime) -> Result<(), Fail> {
    let mut set = TaskSet::open(rt.alloc(), 4)?;
    for (ticket, attr) in [(1, Attr::Ordered), (2, Attr::Simple), (3, Attr::Head)] {
        assert_eq!(rt; enter(&rt, &mut set, task(ticket, attr)), Ok(()));
    }
    let places = [(1, 0), (2, 1), (4, 9)].map(|(ticket, guess)| set.enabled_place(ticket, guess));
    assert_eq!(rt; places, [Some(0), None, None]);
    let place = set.enabled_place(3, 1).expect(&rt, "enabled");
    assert_eq!(rt; set.leave_at(place), task(3, Attr::Head));
    assert_eq!(rt; (set.enabled_place(3, 0), set.len()), (None, 2));
    Ok(())
}

#[test]
fn a_full_set_hands_the_task_back(rt: HostRuntime) -> Result<(), Fail> {
    let mut set = TaskSet::open(rt.alloc(), 2)?;
    let late = task(7, Attr::Head);
    let entered = [
        enter(&rt, &mut set, task(1, Attr::Ordered)),
        enter(&rt, &mut set, task(2, Attr::Ordered)),
        enter(&rt, &mut set, late),
    ];
    assert_eq!(rt; entered, [Ok(()), Ok(()), Err(late)]);
    assert_eq!(rt; [set.looked(), set.len()], [0, 2]);
    let before = new_ones(&mut set);
    let left = set.leave(1);
    assert_eq!(rt;
        (before, left),
        ([Some(1), None, None], Some(task(1, Attr::Ordered)))
    );
    let entered = enter(&rt, &mut set, late);
    let after = new_ones(&mut set);
    assert_eq!(rt; (entered, after), (Ok(()), [Some(2), Some(7), None]));
    Ok(())
}

#[test]
fn the_oldest_with_a_tag_is_found(rt: HostRuntime) -> Result<(), Fail> {
    let mut set = TaskSet::open(rt.alloc(), 4)?;
    for ticket in [3, 5, 9] {
        let named = Task {
            itt: if ticket == 3 { 0xa1 } else { 0xa2 },
            ..task(ticket, Attr::Simple)
        };
        assert_eq!(rt; enter(&rt, &mut set, named), Ok(()));
    }
    assert_eq!(rt; set.find(0xa2).map(|t| t.ticket), Some(5));
    assert_eq!(rt; set.find(0xa3), None);
    for (ticket, enabled) in [(3, true), (4, false), (9, true), (10, false)] {
        assert_eq!(rt; set.is_enabled(ticket), enabled, "of {ticket}");
    }
    Ok(())
}

#[test]
fn covered_commands_leave_oldest_first(rt: HostRuntime) -> Result<(), Fail> {
    let mut set = TaskSet::open(rt.alloc(), 8)?;
    // The second and the third command are immediate, of the number and on both sides of the function's arrival.
    for (ticket, conn, immediate, pos, event) in [
        (1, 1, false, -1, 1),
        (2, 2, true, 6, 4),
        (3, 1, true, 6, 6),
        (4, 2, false, 5, 7),
        (5, 1, false, 6, 3),
    ] {
        let placed = Task {
            conn,
            immediate,
            pos,
            event,
            ..task(ticket, Attr::Simple)
        };
        assert_eq!(rt; enter(&rt, &mut set, placed), Ok(()));
    }
    let below = Cover::Below { pos: 6, event: 5 };
    for (cover, left) in [
        (below, Some(1)),
        (below, Some(2)),
        (Cover::Conn(2), Some(4)),
        (Cover::Conn(2), None),
        (below, None),
        (Cover::All, Some(3)),
        (Cover::All, Some(5)),
        (Cover::All, None),
    ] {
        let answer = set.leave_first(&cover).map(|t| t.ticket);
        assert_eq!(rt; answer, left, "of {cover:?}");
    }
    Ok(())
}

#[test]
fn a_function_that_covers_nothing_hides_no_command(rt: HostRuntime) -> Result<(), Fail> {
    let mut set = TaskSet::open(rt.alloc(), 4)?;
    let placed = |ticket: u64, immediate: bool, pos: i64, event: u64| Task {
        immediate,
        pos,
        event,
        ..task(ticket, Attr::Simple)
    };
    assert_eq!(rt; enter(&rt, &mut set, placed(1, false, 5, 1)), Ok(()));
    assert_eq!(rt; enter(&rt, &mut set, placed(2, true, 5, 7)), Ok(()));
    for (pos, event, left) in [
        (4, 9, None),
        (5, 7, None),
        (5, 7, None),
        (5, 8, Some(2)),
        (5, 9, None),
        (5, 9, None),
    ] {
        let answer = set.leave_first(&Cover::Below { pos, event });
        assert_eq!(rt; answer.map(|t| t.ticket), left, "of {pos} {event}");
    }
    // An immediate command of lower number lowers the bound again.
    assert_eq!(rt; enter(&rt, &mut set, placed(3, true, 2, 10)), Ok(()));
    for (pos, event, left) in [
        (1, 11, None),
        (2, 11, Some(3)),
        (2, 11, None),
        (6, 0, Some(1)),
    ] {
        let answer = set.leave_first(&Cover::Below { pos, event });
        assert_eq!(rt; answer.map(|t| t.ticket), left, "of {pos} {event}");
    }
    // No function has a number above the greatest.
    let last = placed(4, false, i64::MAX, 12);
    assert_eq!(rt; enter(&rt, &mut set, last), Ok(()));
    let most = Cover::Below {
        pos: i64::MAX,
        event: u64::MAX,
    };
    assert_eq!(rt; set.leave_first(&most), None);
    assert_eq!(rt; set.leave_first(&Cover::All), Some(last));
    Ok(())
}

/// The tickets of the covered commands among the first five.
pub(crate) fn covered(set: &TaskSet, cover: &Cover) -> [Option<u64>; 5] {
    [0, 1, 2, 3, 4].map(|at| set.covered_at(at, cover))
}

#[test]
fn covered_commands_leave_together(rt: HostRuntime) -> Result<(), Fail> {
    let mut set = TaskSet::open(rt.alloc(), 8)?;
    for (ticket, conn, attr) in [
        (2, 1, Attr::Ordered),
        (3, 2, Attr::Ordered),
        (5, 1, Attr::Head),
        (7, 2, Attr::Simple),
    ] {
        let placed = Task {
            conn,
            ..task(ticket, attr)
        };
        assert_eq!(rt; enter(&rt, &mut set, placed), Ok(()));
    }
    assert_eq!(rt; new_ones(&mut set), [Some(2), Some(5), None]);
    assert_eq!(rt;
        covered(&set, &Cover::Conn(1)),
        [Some(2), None, Some(5), None, None]
    );
    assert_eq!(rt; covered(&set, &Cover::Conn(3)), [None; 5]);
    set.leave_covered(&Cover::Conn(3));
    assert_eq!(rt; set.len(), 4);
    assert_eq!(rt; new_ones(&mut set), [None; 3]);
    // The ORDERED command is the oldest now, and the SIMPLE one waits for it.
    set.leave_covered(&Cover::Conn(1));
    assert_eq!(rt; set.len(), 2);
    assert_eq!(rt; new_ones(&mut set), [Some(3), None, None]);
    assert_eq!(rt; set.is_enabled(7), false);
    // A function covers none, and the set keeps in mind that its number is too low.
    let low = Cover::Below { pos: 3, event: 9 };
    assert_eq!(rt; set.may_cover(&low), true);
    set.leave_covered(&low);
    assert_eq!(rt; set.may_cover(&low), false);
    set.leave_covered(&low);
    assert_eq!(rt; set.len(), 2);
    let next = Cover::Below { pos: 4, event: 0 };
    assert_eq!(rt; set.may_cover(&next), true);
    set.leave_covered(&next);
    assert_eq!(rt;
        covered(&set, &Cover::All),
        [Some(7), None, None, None, None]
    );
    assert_eq!(rt; new_ones(&mut set), [Some(7), None, None]);
    // The bound is that of the one that stayed.
    assert_eq!(rt; set.may_cover(&Cover::Below { pos: 7, event: 0 }), false);
    set.leave_covered(&Cover::All);
    assert_eq!(rt; set.len(), 0);
    Ok(())
}

/// Five commands. A digit of `shape` to the base 4 says of each that it is numbered, or immediate of the number that is
/// next, of the one before it or of the one behind it.
pub(crate) fn shape_tasks(shape: u32) -> [Task; 5] {
    let mut tasks = [
        task(1, Attr::Simple),
        task(2, Attr::Ordered),
        task(3, Attr::Simple),
        task(4, Attr::Head),
        task(5, Attr::Simple),
    ];
    let mut digits = shape;
    let mut next: i64 = 1;
    for k in 0..5 {
        let shifted = [0, 0, -1, 1][(digits % 4) as usize];
        tasks[k].immediate = digits % 4 > 0;
        tasks[k].pos = next.saturating_add(shifted);
        if digits % 4 == 0 {
            next = next.saturating_add(1);
        }
        digits /= 4;
    }
    tasks
}

fn enter_shape(rt: &impl Abort, set: &mut TaskSet, shape: u32) {
    for task in shape_tasks(shape) {
        assert_eq!(rt; enter(rt, set, task), Ok(()));
    }
}

/// The covered commands leave the one set together and the other one by one. Both hold and give the same then.
fn leave_both_ways(rt: &impl Abort, together: &mut TaskSet, apart: &mut TaskSet, cover: &Cover) {
    together.leave_covered(cover);
    for _ in 0..5 {
        apart.leave_first(cover);
    }
    assert_eq!(rt; covered(together, &Cover::All), covered(apart, &Cover::All));
    assert_eq!(rt; together.next_new(), apart.next_new());
}

#[test]
fn a_function_takes_out_what_it_covers_in_any_order(rt: HostRuntime) -> Result<(), Fail> {
    for shape in 0..1024 {
        for first in 0..5 {
            let mut together = TaskSet::open(rt.alloc(), 5)?;
            let mut apart = TaskSet::open(rt.alloc(), 5)?;
            enter_shape(&rt, &mut together, shape);
            enter_shape(&rt, &mut apart, shape);
            for pos in [first, first + 1, first + 3] {
                let below = Cover::Below { pos, event: 3 };
                leave_both_ways(&rt, &mut together, &mut apart, &below);
            }
            assert_eq!(rt; new_ones(&mut together), new_ones(&mut apart));
            leave_both_ways(&rt, &mut together, &mut apart, &Cover::All);
            assert_eq!(rt; together.len(), 0);
        }
    }
    Ok(())
}
