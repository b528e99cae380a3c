//! What may go out on a connection next (RFC 7143 sections 4.2.2.2 and 4.2.2.3).

ghost use Rattle.std.specs.Prelude.{◌≡◌, ◌&&◌, ◌<◌, not, nat_lt, ℕ, Bool, length, option_map};
ghost use Rattle.iscsi_arrivals.specs.Counts.{is_behind_logout_by};
ghost use Rattle.iscsi_outbox_steps.specs.State.{is_asked_for, is_fence_elsewhere, is_fence_here, is_fence_out, is_over, link_at, passes, wants_notice, wants_ping};
ghost use Rattle.iscsi_outbox_steps.specs.Steps.{chosen};
ghost use Rattle.iscsi_outbox.specs.private.Choices.{choice_of, holds_of, is_clear, lets_pass};

use crate::lifted::lifted;
use crate::outbox::Outbox;
use iscsi_arrivals::Arrivals;
use iscsi_outbox_state::Front;

/// What goes out on a connection next.
#[derive(Clone, Copy)]
pub(crate) enum Choice {
    /// What waits there first.
    Waiting,
    /// A ping.
    Ping,
    /// A NOP-In without a tag, which shows MaxCmdSN.
    Notice,
}

impl Outbox {
    /// What may go out on a connection now.
    #[inline(always)]
    pub(crate) fn chosen(&self, conn: usize) -> Option<Choice>
        requires { conn < length self.now.limits.cids }
        ensures { result ≡ option_map choice_of (chosen conn self.now) }
    {
        let link = self.links.at(conn);
        if !link.is_open() || link.is_exhausted() {
            return None;
        }
        if self.wants_ping(conn) {
            return Some(Choice::Ping);
        }
        match self.waits.front(conn) {
            None if self.wants_notice(conn) => Some(Choice::Notice),
            Some(front) if self.passes(conn, front) => Some(Choice::Waiting),
            _ => None,
        }
    }

    /// Whether nothing goes out any more on a connection that a Logout closed.
    #[inline(always)]
    pub(crate) fn is_over(&self, conn: usize) -> bool
        requires { conn < length self.now.limits.cids }
        ensures { result ≡ is_over conn self.now }
    {
        let link = self.links.at(conn);
        link.is_open()
            && link.is_closed()
            && self.waits.is_empty(conn)
            && !self.lane.waits_on(conn as u16)
            && (link.is_cut() || link.is_all_written())
    }

    /// Whether what waits first on a connection may go out, by the response fence.
    #[inline(always)]
    fn passes(&self, conn: usize, front: Front) -> bool
        requires { conn < length self.now.limits.cids }
        ensures { result ≡ passes conn front self.now }
    {
        if !front.takes {
            return true;
        }
        self.lets_pass(conn, front.time) && (!front.fenced || self.is_clear(conn, front.time))
    }

    /// Whether what takes a StatSN may go out behind the fenced answers: none that entered before waits, and the last one that
    /// went out elsewhere is known to have arrived.
    #[inline(always)]
    fn lets_pass(&self, conn: usize, time: u64) -> bool
        ensures { result ≡ lets_pass conn time self.now }
    {
        !self.waits.is_behind_fence(time) && !(self.links.looks() && self.is_fence_elsewhere(conn))
    }

    /// Whether a fenced answer may go out: nothing that takes a StatSN and entered before waits, or is under way elsewhere.
    #[inline(never)]
    fn is_clear(&self, conn: usize, time: u64) -> bool
        requires { conn < length self.now.limits.cids }
        ensures { result ≡ is_clear conn time self.now }
    {
        !self.waits.is_behind_any(time) && !self.links.is_busy_elsewhere(conn)
    }

    /// The connection of the last fenced answer, if that isn't known to have arrived.
    fn fence_out(&self) -> Option<usize>
        ensures { (p : ℕ → Bool) → is_fence_out p self.now ≡ holds_of p result }
    {
        let sent = self.fence?;
        let conn = usize::from(sent.conn);
        let link = self.links.at(conn);
        if link.is_open() && !link.has_arrived(sent.stamp) {
            Some(conn)
        } else {
            None
        }
    }

    /// Whether the last fenced answer went out on another connection, and isn't known to have arrived.
    #[inline(never)]
    fn is_fence_elsewhere(&self, conn: usize) -> bool
        ensures { result ≡ is_fence_elsewhere conn self.now }
    {
        match self.fence_out() {
            Some(place) => place != conn,
            None => false,
        }
    }

    /// Whether it went out on this one, and isn't known to have arrived.
    fn is_fence_here(&self, conn: usize) -> bool
        ensures { result ≡ is_fence_here conn self.now }
    {
        match self.fence_out() {
            Some(place) => place == conn,
            None => false,
        }
    }

    /// Whether something waits for what was handed out on a connection to arrive, or may soon.
    fn is_asked_for(&self, conn: usize, link: &Arrivals) -> bool
        requires conn { conn < length self.now.limits.cids }
        requires link { link.now ≡ link_at self.now conn }
        ensures { result ≡ is_asked_for conn self.now }
    {
        self.lane.under_way_on(conn as u16)
            || (link.has_unarrived() && self.waits.fenced_on(conn) < self.waits.fenced())
            || (self.is_fence_here(conn) && self.waits.taking_on(conn) < self.waits.taking())
    }

    /// Whether a ping goes out on a connection.
    #[inline(always)]
    fn wants_ping(&self, conn: usize) -> bool
        requires { conn < length self.now.limits.cids }
        ensures { result ≡ wants_ping conn self.now }
    {
        self.links.looks() && self.may_ask(conn)
    }

    /// Whether one does, where it is looked whether what was written arrived.
    #[inline(never)]
    fn may_ask(&self, conn: usize) -> bool
        requires { conn < length self.now.limits.cids }
        ensures { result ≡ (is_asked_for conn self.now && not (nat_lt (link_at self.now conn).answered (link_at self.now conn).pings) && not (is_behind_logout_by (link_at self.now conn))) }
    {
        let link = self.links.at(conn);
        self.is_asked_for(conn, &link) && !link.is_asking() && !link.is_behind_logout()
    }

    /// Whether a connection says that more may be shown: all numbers that were shown are used, and nothing waits there.
    #[inline(never)]
    fn wants_notice(&self, conn: usize) -> bool
        ensures { result ≡ wants_notice conn self.now }
    {
        self.links.first_usable() == Some(conn)
            && self.reached < lifted(self.shown, self.exp)
            && self.reached < self.max_shown()
    }
}
