//! Room, and MaxCmdSN as it is shown (RFC 7143 section 4.2.2.1).

ghost use Rattle.std.specs.Prelude.{◌≡◌, ◌≤◌};
ghost use Rattle.iscsi_outbox_law.specs.promises.Called.{MayTakeByRules};
ghost use Rattle.iscsi_outbox_steps.specs.State.{credit_of, max_shown, may_take, most_at_once};
ghost use Rattle.iscsi_outbox_steps.specs.Steps.{shows};

use crate::outbox::Outbox;

impl Outbox {
    /// Whether one more request may be taken from any connection: there is room for its reply, with those of all that is
    /// held, waits or is live; and for what it takes out.
    #[inline(always)]
    pub fn may_take(&self) -> bool
        ensures answer { result ≡ may_take self.now }
        ensures rules { MayTakeByRules self.now result }
    {
        let room = 2 * self.most_at_once();
        self.waits
            .replies()
            .saturating_add(self.lane.answers_waiting())
            < room
            && self.lane.owing() < room
    }

    /// MaxCmdSN is shown as it may be shown now: the number.
    #[inline(always)]
    pub(crate) fn show(&mut self) -> u64
        ensures number { result ≡ max_shown self.old }
        ensures state { self.new ≡ shows self.old }
    {
        let max = self.max_shown();
        self.shown = max;
        self.reached = max;
        max
    }

    /// MaxCmdSN as it may be shown now: the session's, less by what the window is less; and never back.
    #[inline(always)]
    pub(crate) fn max_shown(&self) -> u64
        ensures { result ≡ max_shown self.now }
    {
        let shut = self.window - self.credit();
        self.shown.max(self.max.saturating_sub(shut as u64))
    }

    /// The window as it may be shown: the session's, less what waits or owes beyond the room for it.
    #[inline(always)]
    fn credit(&self) -> usize
        ensures { result ≡ credit_of self.now }
    {
        let waiting = self.waits.numbered().saturating_add(self.lane.numbered());
        let most = waiting.max(self.lane.owing());
        let room = 2 * self.window + 12 * self.cids.len();
        self.window.min(room.saturating_sub(most))
    }

    /// The most requests that a session has at once: held, waiting or live.
    #[inline(always)]
    pub(crate) fn most_at_once(&self) -> usize
        ensures most { result ≡ most_at_once self.now.limits }
        ensures few { result ≤ 1792 }
    {
        self.window + 12 * self.cids.len()
    }
}
