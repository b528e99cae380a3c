//! What one connection handed out.

ghost use Rattle.std.specs.Prelude.{◌≡◌, ℕ, ◌+◌, ◌-◌, ◌<◌, ◌≤◌, ◌==◌, ◌&&◌, ◌^◌, not, nat_lt, nat_le, true, false, length, if◌then◌else◌};
ghost use Rattle.std.specs.List.{list_all, list_any};
ghost use Rattle.iscsi_wire.specs.Serial.{wire};
ghost use Rattle.iscsi_outbox_rules.specs.rules.Boxes.{Pings, Handed, Link};
ghost use Rattle.iscsi_outbox_rules.specs.rules.Calls.{Opening};
ghost use Rattle.iscsi_outbox_rules.specs.rules.Words.{is_open, is_usable, looks_for_arrival, unwritten, unarrived, under_way};
ghost use Rattle.iscsi_outbox_rules.specs.rules.Queues.{takes_more};
ghost use Rattle.iscsi_outbox_rules.specs.rules.Handing.{takes_handed, is_ping, count_pings, is_behind_logout, next_stat_sn};
ghost use Rattle.iscsi_outbox_rules.specs.rules.Run.{new_link, one_written, link_heard, link_lost};
ghost use Rattle.iscsi_arrivals.specs.Counts.{new_counts, is_open_by, is_usable_by, takes_more_by, may_join_by, joined_by, is_behind_logout_by, stamp_by, handed_by, tag_of_ping, pinged_by, written_by, is_answer_by, acknowledged_with, answered_with, heard_by, has_arrived_by, is_written_by, is_busy_by, is_under_way_by};
ghost use Rattle.iscsi_arrivals.specs.Stamps.{handed_out, stamp_at};
ghost use Rattle.iscsi_arrivals.specs.Standing.{may_join_now, joined_if, link_closed, link_cut, closes_conn, StandsFor};

use crate::numbers::{next_behind, number_heard, tag_of_ping, taken_behind};
use crate::stamp::Stamp;
use std::marker::Model;

/// One connection: its StatSNs, its pings, and what of all that was handed out there is written, or known to have arrived.
///
/// Of a PDU that was handed out nothing is kept here. Whoever asks for one has its `Stamp`. The clauses `stands` follow a
/// connection of the rules, with the list of all that it handed out; the clauses `since` say what an answer means for it.
#[derive(Clone, Copy)]
pub struct Arrivals {
    joined: bool,
    closed: bool,
    cut: bool,
    lost: bool,
    /// The StatSN that the next PDU shows, as a number that doesn't wrap.
    next: u64,
    /// What shows a lesser StatSN is known to have arrived.
    acknowledged: u64,
    pings: u64,
    /// So many pings are known to have arrived.
    answered: u64,
    /// The StatSN that the last ping showed.
    asked: u64,
    handed: u64,
    written: u64,
    /// So many PDUs stand up to the last one that took a StatSN.
    taken: u64,
    /// Whether its Logout Response was handed out there.
    ended: bool,
}

impl Model for Arrivals {
    ghost use Rattle.iscsi_arrivals.specs.Counts.{Counts, IsSound};

    ghost Value = { Counts };

    ghost view = { λ a. record {
      joined = a.joined;
      closed = a.closed;
      cut = a.cut;
      lost = a.lost;
      next = a.next;
      acknowledged = a.acknowledged;
      pings = a.pings;
      answered = a.answered;
      asked = a.asked;
      handed = a.handed;
      written = a.written;
      taken = a.taken;
      ended = a.ended;
    } };

    ghost invariant = { λ a. IsSound a.joined a.next a.pings a.handed };

    ghost inverse = { λ s. record {
      joined = s.joined;
      closed = s.closed;
      cut = s.cut;
      lost = s.lost;
      next = s.next;
      acknowledged = s.acknowledged;
      pings = s.pings;
      answered = s.answered;
      asked = s.asked;
      handed = s.handed;
      written = s.written;
      taken = s.taken;
      ended = s.ended;
    } };
}

impl Arrivals {
    /// A connection that hasn't joined.
    pub fn new() -> Arrivals
        ensures state { result ≡ new_counts }
        ensures stands { (conn : ℕ) → StandsFor result (new_link conn) }
    {
        Arrivals {
            joined: false,
            closed: false,
            cut: false,
            lost: false,
            next: 0,
            acknowledged: 0,
            pings: 0,
            answered: 0,
            asked: 0,
            handed: 0,
            written: 0,
            taken: 0,
            ended: false,
        }
    }

    /// Whether it has joined and isn't lost.
    #[inline(always)]
    pub fn is_open(&self) -> bool
        ensures answer { result ≡ is_open_by self.now }
        ensures since { (l : Link) → StandsFor self.now l → result ≡ is_open l }
    {
        self.joined && !self.lost
    }

    /// Whether it takes requests and own PDUs: it is open, and no Logout closed it.
    #[inline(always)]
    pub fn is_usable(&self) -> bool
        ensures answer { result ≡ is_usable_by self.now }
        ensures since { (l : Link) → StandsFor self.now l → result ≡ is_usable l }
    {
        self.is_open() && !self.closed
    }

    /// Whether something may enter its queue: it is open, and no Logout on another connection closed it.
    #[inline(always)]
    pub fn takes_more(&self) -> bool
        ensures answer { result ≡ takes_more_by self.now }
        ensures since { (l : Link) → StandsFor self.now l → result ≡ takes_more l }
    {
        self.is_open() && !self.cut
    }

    /// The connection joins with this StatSN. False, and nothing changes, where it has joined, is closed or lost.
    pub fn join(&mut self, stat_sn: u32) -> bool
        ensures answer { result ≡ may_join_by self.old }
        ensures state { self.new ≡ joined_by stat_sn self.old }
        ensures since { (l : Link) → StandsFor self.old l → result ≡ may_join_now l }
        ensures stands { (l : Link) → StandsFor self.old l → StandsFor self.new (joined_if stat_sn l) }
    {
        if self.joined || self.closed || self.lost {
            return false;
        }
        self.joined = true;
        self.next = (1 << 32) + u64::from(stat_sn);
        self.acknowledged = self.next;
        true
    }

    /// A Logout on it closes it.
    pub fn close(&mut self)
        ensures state { self.new ≡ record self.old { closed = true } }
        ensures stands { (l : Link) → StandsFor self.old l → StandsFor self.new (link_closed l) }
    {
        self.closed = true;
    }

    /// A Logout on another connection closes it: nothing goes out there any more.
    pub fn cut(&mut self)
        ensures state { self.new ≡ record self.old { closed = true; cut = true } }
        ensures stands { (l : Link) → StandsFor self.old l → StandsFor self.new (link_cut l) }
    {
        self.close();
        self.cut = true;
    }

    /// Its transport is gone.
    pub fn lose(&mut self)
        ensures state { self.new ≡ record self.old { lost = true } }
        ensures stands { (l : Link) → StandsFor self.old l → StandsFor self.new (link_lost l) }
    {
        self.lost = true;
    }

    /// Whether its transport is gone.
    #[inline(always)]
    pub fn is_lost(&self) -> bool
        ensures answer { result ≡ self.now.lost }
        ensures since { (l : Link) → StandsFor self.now l → result ≡ l.lost }
    {
        self.lost
    }

    /// Whether a Logout on another connection closed it.
    #[inline(always)]
    pub fn is_cut(&self) -> bool
        ensures answer { result ≡ self.now.cut }
        ensures since { (l : Link) → StandsFor self.now l → result ≡ l.cut }
    {
        self.cut
    }

    /// Whether a Logout closed it, on it or on another one.
    #[inline(always)]
    pub fn is_closed(&self) -> bool
        ensures answer { result ≡ self.now.closed }
        ensures since { (l : Link) → StandsFor self.now l → result ≡ l.closed }
    {
        self.closed
    }

    /// Whether a Logout Response went out there that closes it, or it is cut: no ping goes out any more.
    #[inline(always)]
    pub fn is_behind_logout(&self) -> bool
        ensures answer { result ≡ is_behind_logout_by self.now }
        ensures since { (l : Link) → StandsFor self.now l → result ≡ is_behind_logout l }
    {
        self.cut || self.ended
    }

    /// The StatSN that the next PDU shows.
    #[inline(always)]
    pub fn stat_sn(&self) -> u32
        ensures answer { result ≡ wire self.now.next }
        ensures since { (l : Link) → StandsFor self.now l → result ≡ wire (next_stat_sn l) }
    {
        (self.next % (1 << 32)) as u32
    }

    /// The transfer tag of the next ping.
    pub fn ping_tag(&self) -> u32
        ensures answer { result ≡ tag_of_ping self.now.pings }
        ensures since { (l : Link) → StandsFor self.now l → result ≡ tag_of_ping (count_pings l) }
    {
        tag_of_ping(self.pings)
    }

    /// Whether as many PDUs were handed out as may be: 2^63.
    #[inline(always)]
    pub fn is_exhausted(&self) -> bool
        ensures yes { result ≡ true → 2 ^ 63 ≤ self.now.handed }
        ensures no { result ≡ false → self.now.handed < 2 ^ 63 }
    {
        self.handed >= 1 << 63
    }

    /// A PDU is handed out that is no ping: its stamp. It takes a StatSN or not, and it is the Logout Response that closes the
    /// connection or not.
    #[inline(always)]
    pub fn hand_out(&mut self, takes: bool, ends: bool) -> Stamp
        requires open { is_open_by self.old ≡ true }
        requires room { self.old.handed < 2 ^ 63 }
        ensures answer { result ≡ stamp_by self.old }
        ensures state { self.new ≡ handed_by takes ends self.old }
        ensures since { (l : Link) → StandsFor self.old l → result ≡ stamp_at l (length l.handed) }
        ensures stands { (l : Link) (h : Handed) → StandsFor self.old l → h.out.takes ≡ takes → closes_conn l.conn h ≡ ends →
            is_ping h ≡ false → StandsFor self.new (handed_out h l) }
    {
        let stamp = self.stamp();
        self.next = next_behind(self.next, takes);
        self.taken = taken_behind(self.taken, self.handed, takes);
        self.handed += 1;
        self.ended |= ends;
        stamp
    }

    /// A ping is handed out, with the tag that `ping_tag` gives: its stamp. There is one at a time that isn't known to have
    /// arrived.
    pub fn hand_out_ping(&mut self) -> Stamp
        requires open { is_open_by self.old ≡ true }
        requires room { self.old.handed < 2 ^ 63 }
        requires none { nat_lt self.old.answered self.old.pings ≡ false }
        ensures answer { result ≡ stamp_by self.old }
        ensures state { self.new ≡ pinged_by self.old }
        ensures since { (l : Link) → StandsFor self.old l → result ≡ stamp_at l (length l.handed) }
        ensures stands { (l : Link) (h : Handed) → StandsFor self.old l → h.out.pdu ≡ Pings (tag_of_ping (count_pings l)) →
            h.out.takes ≡ false → closes_conn l.conn h ≡ false → StandsFor self.new (handed_out h l) }
    {
        let stamp = self.stamp();
        self.pings += 1;
        self.asked = self.next;
        self.handed += 1;
        stamp
    }

    /// The oldest PDU that was handed out and isn't written is written now. Where there is none, nothing changes.
    #[inline(always)]
    pub fn write(&mut self)
        ensures state { self.new ≡ written_by self.old }
        ensures stands { (l : Link) → StandsFor self.old l → StandsFor self.new (one_written l) }
    {
        if self.written < self.handed {
            self.written += 1;
        }
    }

    /// A header arrived there, with this ExpStatSN and, where it is that of a NOP-Out, this transfer tag. What wasn't handed
    /// out yet, or is older, changes nothing.
    #[inline(always)]
    pub fn hear(&mut self, exp_stat_sn: u32, transfer_tag: u32)
        ensures state { self.new ≡ heard_by exp_stat_sn transfer_tag self.old }
        ensures stands { (l : Link) → StandsFor self.old l → StandsFor self.new (link_heard exp_stat_sn transfer_tag l) }
    {
        if !self.is_open() {
            return;
        }
        let is_answer = self.is_answer(transfer_tag);
        let acknowledged = self.acknowledged_with(exp_stat_sn, is_answer);
        let answered = self.answered_with(acknowledged, is_answer);
        self.acknowledged = acknowledged;
        self.answered = answered;
    }

    /// Whether a PDU is known to have arrived, by its stamp.
    #[inline(always)]
    pub fn has_arrived(&self, stamp: Stamp) -> bool
        ensures answer { result ≡ has_arrived_by stamp self.now }
        ensures since { (l : Link) (place : ℕ) → StandsFor self.now l → stamp ≡ stamp_at l place →
            result ≡ nat_lt place l.arrived }
    {
        stamp.stat_sn < self.acknowledged || stamp.pings < self.answered
    }

    /// Whether a PDU is written, by its stamp.
    #[inline(always)]
    pub fn is_written(&self, stamp: Stamp) -> bool
        ensures answer { result ≡ is_written_by stamp self.now }
        ensures since { (l : Link) (place : ℕ) → StandsFor self.now l → stamp ≡ stamp_at l place →
            result ≡ nat_lt place l.written }
    {
        stamp.place < self.written
    }

    /// Whether a PDU is under way, by its stamp: the connection is open, and it isn't known to have arrived, or, where that
    /// isn't looked for, isn't written.
    #[inline(always)]
    pub fn is_under_way(&self, looks: bool, stamp: Stamp) -> bool
        ensures answer { result ≡ is_under_way_by looks stamp self.now }
        ensures since { (l : Link) (place : ℕ) → StandsFor self.now l → stamp ≡ stamp_at l place →
            result ≡ (is_open l && not (nat_lt place (if looks then l.arrived else l.written))) }
    {
        self.is_open()
            && if looks {
                !self.has_arrived(stamp)
            } else {
                !self.is_written(stamp)
            }
    }

    /// Whether something is under way that took a StatSN, by arrival, or, where that isn't looked for, by being written.
    #[inline(always)]
    pub fn is_busy(&self, looks: bool) -> bool
        ensures answer { result ≡ is_busy_by looks self.now }
        ensures since { (o : Opening) (l : Link) → StandsFor self.now l → looks_for_arrival o ≡ looks →
            result ≡ list_any takes_handed (under_way o l) }
    {
        self.is_open()
            && if looks {
                self.has_unarrived()
            } else {
                self.written < self.taken
            }
    }

    /// Whether something that took a StatSN isn't known to have arrived, be the connection open or not.
    #[inline(always)]
    pub fn has_unarrived(&self) -> bool
        ensures answer { result ≡ nat_lt self.now.acknowledged self.now.next }
        ensures since { (l : Link) → StandsFor self.now l → result ≡ list_any takes_handed (unarrived l) }
    {
        self.acknowledged < self.next
    }

    /// Whether something that took a StatSN isn't written.
    #[inline(always)]
    pub fn has_unwritten(&self) -> bool
        ensures { result ≡ nat_lt self.now.written self.now.taken }
    {
        self.written < self.taken
    }

    /// Whether a ping isn't known to have arrived.
    #[inline(always)]
    pub fn is_asking(&self) -> bool
        ensures answer { result ≡ nat_lt self.now.answered self.now.pings }
        ensures since { (l : Link) → StandsFor self.now l → result ≡ list_any is_ping (unarrived l) }
    {
        self.answered < self.pings
    }

    /// Whether all that was handed out is written.
    #[inline(always)]
    pub fn is_all_written(&self) -> bool
        ensures answer { result ≡ nat_le self.now.handed self.now.written }
        ensures since { (l : Link) → StandsFor self.now l → result ≡ list_all (λ (h : Handed). false) (unwritten l) }
    {
        self.handed <= self.written
    }

    /// The stamp of the next PDU.
    #[inline(always)]
    fn stamp(&self) -> Stamp
        ensures { result ≡ stamp_by self.now }
    {
        Stamp {
            stat_sn: self.next,
            pings: self.pings,
            place: self.handed,
        }
    }

    /// Whether this is the transfer tag of the last ping.
    #[inline(always)]
    fn is_answer(&self, transfer_tag: u32) -> bool
        ensures { result ≡ is_answer_by transfer_tag self.now }
    {
        0 < self.pings && tag_of_ping(self.pings - 1) == transfer_tag
    }

    /// Up to which StatSN all arrived, with what is heard.
    #[inline(always)]
    fn acknowledged_with(&self, exp_stat_sn: u32, is_answer: bool) -> u64
        requires { is_open_by self.now ≡ true }
        ensures { result ≡ acknowledged_with exp_stat_sn is_answer self.now }
    {
        let asked = if is_answer { self.asked } else { 0 };
        self.acknowledged
            .max(number_heard(self.next, exp_stat_sn).max(asked))
    }

    /// How many pings arrived, with what is heard.
    #[inline(always)]
    fn answered_with(&self, acknowledged: u64, is_answer: bool) -> u64
        ensures { result ≡ answered_with acknowledged is_answer self.now }
    {
        if is_answer || self.asked < acknowledged {
            self.pings
        } else {
            self.answered
        }
    }
}
