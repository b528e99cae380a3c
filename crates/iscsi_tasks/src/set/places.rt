//! Where the commands of a set are, by their places.

ghost use Rattle.std.specs.Prelude.{◌≡◌, ◌↔◌, ℕ, ◌<◌, ◌≤◌, length, position, slice_index_or, slice_get, true};
ghost use Rattle.iscsi_tasks.specs.declared.member.Member.{Member};
ghost use Rattle.iscsi_tasks.specs.Sets.{tasks_in, InOrder, is_covered};
ghost use Rattle.iscsi_tasks.specs.Counted.{IsPlaceOf};
ghost use Rattle.iscsi_tasks.specs.Chains.{member_of};

use crate::cover::Cover;
use crate::node::Node;
use crate::set::TaskSet;
use crate::task::Task;

impl TaskSet {
    /// The command at a place.
    #[tactic(auto, using(crate::proofs::MarkedLemmas::some_at, std::proofs::lemmas::Grind::common_steps))]
    pub(crate) fn at(&self, place: usize) -> &Node
        requires { place < length self.now.list }
        ensures member { (d : Member) → member_of result.now ≡ slice_index_or self.now.list place d }
        ensures few { length self.now.list ≤ 1024 }
    {
        self.tasks.at(self.order.at(place))
    }

    /// The command at a place, if there is one.
    #[tactic(auto, using(std::proofs::lemmas::Option::slice_get_past, std::proofs::lemmas::Grind::common_steps))]
    pub(crate) fn task_at(&self, place: usize) -> Option<Task>
        ensures { result ≡ slice_get (tasks_in self.now) place }
    {
        if place < self.len() as usize {
            Some(self.at(place).task)
        } else {
            None
        }
    }

    /// Where the command with this ticket is. It looks at the place `guess` first, and then at the oldest command,
    /// which most that leave are.
    pub(crate) fn place_of(&self, ticket: u64, guess: usize) -> Option<usize>
        ensures place { IsPlaceOf self.now.list ticket result }
        ensures order { InOrder self.now.list }
    {
        if self.is_at(guess, ticket) {
            return Some(guess);
        }
        if self.is_at(0, ticket) {
            return Some(0);
        }
        let at = self.first_from(ticket);
        if self.is_at(at, ticket) {
            Some(at)
        } else {
            None
        }
    }

    /// Whether the command at a place has this ticket.
    fn is_at(&self, at: usize, ticket: u64) -> bool
        ensures there { (result ≡ true) ↔ ((at < length self.now.list)
            × ((d : Member) → (slice_index_or self.now.list at d).task.ticket ≡ ticket)) }
        ensures order { InOrder self.now.list }
    {
        at < self.len() as usize && self.at(at).task.ticket == ticket
    }

    /// How many commands have a lower ticket, by binary search.
    #[tactic(auto, using(iscsi_slots::proofs::HalvingLemmas::half_to, std::proofs::lemmas::Grind::common_steps))]
    fn first_from(&self, ticket: u64) -> usize
        ensures within { result ≤ length self.now.list }
        ensures below { (k : ℕ) (d : Member) → k < result → (slice_index_or self.now.list k d).task.ticket < ticket }
        ensures above { (k : ℕ) (d : Member) → result ≤ k → k < length self.now.list →
            ticket ≤ (slice_index_or self.now.list k d).task.ticket }
    {
        let mut low = 0;
        let mut high = self.len() as usize;
        while low < high {
            let middle = low + (high - low) / 2;
            if self.at(middle).task.ticket < ticket {
                low = middle + 1;
            } else {
                high = middle;
            }
        }
        low
    }

    /// The place of the oldest command that is covered. It looks along the set.
    #[tactic(auto, using(crate::proofs::PlaceLemmas::position_none, crate::proofs::PlaceLemmas::no_place, std::proofs::lemmas::Grind::common_steps))]
    pub(crate) fn first_covered(&self, cover: &Cover) -> Option<usize>
        ensures { result ≡ position (λ m. is_covered cover.now m.task) self.now.list }
    {
        for place in 0..self.len() as usize {
            if cover.covers(&self.at(place).task) {
                return Some(place);
            }
        }
        None
    }
}
