//! The commands of a linked set that an abort or a logout takes out, and from which number on functions may cover them.

ghost use Rattle.std.specs.Prelude.{◌≡◌, ◌+◌, ◌≤◌, ◌++◌, true, false, length, vec_len, vec_capacity, ◌≤ℤ◌};
ghost use Rattle.iscsi_tasks.specs.declared.task.Task.{Task};
ghost use Rattle.iscsi_tasks.specs.Sets.{is_covered, uncovered, list_staying};
ghost use Rattle.iscsi_tasks.specs.Counted.{IsAscending, IsAscendingTo, covered_from, covered_from_in, covered_from_first};
ghost use Rattle.iscsi_tasks.specs.Marked.{IsMarked, covered_tickets};

use crate::chain::Chain;
use crate::cover::Cover;
use crate::linked_queue::{enable_free, remove};
use crate::marks::Marks;
use crate::numbers::{Numbers, ascends_with};
use crate::task::Task;

/// The covered commands leave, all of them before one moment. Their tickets are appended to `left`.
#[tactic(auto, using(crate::proofs::StayingLemmas::staying_same, crate::proofs::StayingLemmas::staying_fewer, std::proofs::lemmas::Grind::common_steps))]
pub(crate) fn remove_covered(
    chain: &mut Chain,
    marks: &mut Marks,
    ascends: bool,
    cover: &Cover,
    left: &mut Vec<u64>,
)
    requires marked { IsMarked marks.old chain.old.slots chain.old.members }
    requires ascending { ascends ≡ true → IsAscending chain.old.members }
    requires room { vec_len left.old + length chain.old.members ≤ vec_capacity left.old }
    ensures members { chain.new.members ≡ list_staying (is_covered cover.now) chain.old.members }
    ensures room { chain.new.room ≡ chain.old.room }
    ensures left { left.new.items ≡ left.old.items ++ covered_tickets (is_covered cover.now) chain.old.members }
    ensures capacity { vec_capacity left.new ≡ vec_capacity left.old }
    ensures marked { IsMarked marks.new chain.new.slots chain.new.members }
{
    let len = chain.len();
    keep_uncovered(chain, marks, ascends, cover, left);
    if chain.len() == len {
        return;
    }
    enable_free(chain, marks);
}

/// The commands that aren't covered stay. Those that leave do so from the oldest on. Where the numbers from which on
/// functions may cover the commands go up along the set, it looks no further than the first one that is above the
/// function's.
#[tactic(auto, using(crate::proofs::MarkedLemmas::some_at, crate::proofs::PassingLemmas::place_in, std::proofs::lemmas::Grind::common_steps))]
fn keep_uncovered(
    chain: &mut Chain,
    marks: &mut Marks,
    ascends: bool,
    cover: &Cover,
    left: &mut Vec<u64>,
)
    requires marked { IsMarked marks.old chain.old.slots chain.old.members }
    requires ascending { ascends ≡ true → IsAscending chain.old.members }
    requires room { vec_len left.old + length chain.old.members ≤ vec_capacity left.old }
    ensures members { chain.new.members ≡ uncovered (is_covered cover.now) chain.old.members }
    ensures room { chain.new.room ≡ chain.old.room }
    ensures left { left.new.items ≡ left.old.items ++ covered_tickets (is_covered cover.now) chain.old.members }
    ensures capacity { vec_capacity left.new ≡ vec_capacity left.old }
    ensures marked { IsMarked marks.new chain.new.slots chain.new.members }
{
    let mut slot = chain.oldest();
    for _ in 0..chain.len() {
        let task = chain.at(slot).task;
        if is_past(&task, ascends, cover) {
            return;
        }
        let next = chain.after(slot);
        if !cover.covers(&task) {
            slot = next;
            continue;
        }
        left.push_reserved(task.ticket);
        remove(chain, marks, slot);
        slot = next;
    }
}

/// Whether neither this command nor a younger one is covered, since the numbers from which on functions may cover them
/// go up and this one's is above the function's. False tells nothing.
fn is_past(task: &Task, ascends: bool, cover: &Cover) -> bool
    ensures ascends { result ≡ true → ascends ≡ true }
    ensures none { (t : Task) → result ≡ true → covered_from task.now ≤ℤ covered_from t →
        is_covered cover.now t ≡ false }
{
    match *cover {
        Cover::Below { pos, .. } => ascends && pos < task.covered_from(),
        _ => false,
    }
}

/// From which number on functions may cover the commands of a set. It looks at each of them.
#[tactic(auto, using(crate::proofs::MarkedLemmas::some_at, std::proofs::lemmas::Grind::common_steps))]
pub(crate) fn numbers_along(chain: &Chain) -> Numbers
    ensures least { result.least ≡ covered_from_in chain.now.members }
    ensures front { result.ascends ≡ true → IsAscendingTo result.most chain.now.members }
{
    let mut least = i64::MAX;
    let mut ascends = true;
    let mut most = i64::MAX;
    let mut slot = chain.oldest();
    for k in 0..chain.len() {
        let task = chain.at(slot).task;
        ascends = ascends_with(ascends, most, k, &task);
        most = task.covered_from();
        least = least.min(most);
        slot = chain.after(slot);
    }
    Numbers {
        least,
        ascends,
        most,
    }
}

/// The least one where they go up along the set: that of the oldest command.
pub(crate) fn first_number(chain: &Chain) -> i64
    ensures { result ≡ covered_from_first chain.now.members }
{
    if chain.len() == 0 {
        return i64::MAX;
    }
    chain.at(chain.oldest()).task.covered_from()
}
