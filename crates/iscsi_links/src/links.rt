//! The connections.

ghost use Rattle.std.specs.Prelude.{◌≡◌, ◌≢◌, ℕ, ◌+◌, ◌<◌, ◌≤◌, ◌^◌, true, false, nat_lt, length, replicate, slice_index_or, slice_set, if◌then◌else◌, IfOk};
ghost use Rattle.std.specs.List.{position_or_len};
ghost use Rattle.iscsi_arrivals.specs.Counts.{handed_by, heard_by, is_busy_by, is_open_by, is_usable_by, joined_by, may_join_by, new_counts, pinged_by, stamp_by, written_by};
ghost use Rattle.iscsi_links.specs.Links.{changed, closed, closed_in, cut, first_usable, is_busy_elsewhere, link_at, lost, opened};

use iscsi_arrivals::{Arrivals, Stamp};
use std::alloc::{AllocError, Global};
use std::marker::Model;

/// The connections of an outbox, in an order.
///
/// Each call takes the same time however many there are, but for the one by which the first connection that takes requests
/// stops to take them: it looks for the next one. A connection stops once, as it is closed or lost.
pub struct Links {
    list: Vec<Arrivals>,
    looks: bool,
    /// On so many something is under way that took a StatSN.
    busy: usize,
    /// The first that takes requests, or as many as there are.
    usable: usize,
    /// So many are closed.
    shut: usize,
}

impl Drop for Links {
    fn drop(self) {
        let Links {
            list: _list,
            looks: _looks,
            busy: _busy,
            usable: _usable,
            shut: _shut,
        } = self;
    }
}

impl Model for Links {
    ghost use Rattle.iscsi_links.specs.Links.{AreCounted, Links as LinksValue};

    ghost Value = { LinksValue };

    ghost view = { λ l. record { links = l.list.items; looks = l.looks } };

    ghost invariant = { λ l. AreCounted l.list.items l.looks l.busy l.usable l.shut };
}

impl Links {
    /// So many connections, 64 at the most, of which none has joined. `looks`: what was written is under way until it is known
    /// to have arrived. It takes all its memory here.
    pub fn open(alloc: Global, count: usize, looks: bool) -> Result<Links, AllocError>
        requires { count ≤ 64 }
        ensures { IfOk result (λ l. l ≡ opened count looks) }
    {
        Ok(Links {
            list: unjoined(alloc, count)?,
            looks,
            busy: 0,
            usable: count,
            shut: 0,
        })
    }

    /// How many there are: 64 at the most.
    #[inline(always)]
    pub fn len(&self) -> usize
        ensures count { result ≡ length self.now.links }
        ensures few { result ≤ 64 }
    {
        self.list.len()
    }

    /// Whether what was written is under way until it is known to have arrived.
    #[inline(always)]
    pub fn looks(&self) -> bool
        ensures { result ≡ self.now.looks }
    {
        self.looks
    }

    /// One of them.
    #[inline(always)]
    pub fn at(&self, place: usize) -> Arrivals
        requires { place < length self.now.links }
        ensures { result ≡ link_at self.now place }
    {
        self.list[place]
    }

    /// Whether something is under way on another connection that took a StatSN.
    pub fn is_busy_elsewhere(&self, place: usize) -> bool
        requires { place < length self.now.links }
        ensures { result ≡ is_busy_elsewhere place self.now }
    {
        let here = if self.list[place].is_busy(self.looks) {
            1
        } else {
            0
        };
        here < self.busy
    }

    /// How many a Logout closed.
    #[inline(always)]
    pub fn closed(&self) -> usize
        ensures { result ≡ closed_in self.now.links }
    {
        self.shut
    }

    /// The first connection that takes requests: it is open, and no Logout closed it.
    #[inline(always)]
    pub fn first_usable(&self) -> Option<usize>
        ensures { result ≡ first_usable self.now }
    {
        if self.usable < self.list.len() {
            Some(self.usable)
        } else {
            None
        }
    }

    /// A connection joins with this StatSN. False, and nothing changes, where it has joined, is closed or lost.
    pub fn join(&mut self, place: usize, stat_sn: u32) -> bool
        requires { place < length self.old.links }
        ensures answer { result ≡ may_join_by (link_at self.old place) }
        ensures state { self.new ≡ changed place (joined_by stat_sn) self.old }
    {
        let mut link = self.list[place];
        let joined = link.join(stat_sn);
        self.change(place, link);
        joined
    }

    /// A Logout on a connection closes it.
    pub fn close(&mut self, place: usize)
        requires { place < length self.old.links }
        ensures { self.new ≡ changed place closed self.old }
    {
        let mut link = self.list[place];
        link.close();
        self.change(place, link);
    }

    /// A Logout on another connection closes this one: nothing goes out there any more.
    pub fn cut(&mut self, place: usize)
        requires { place < length self.old.links }
        ensures { self.new ≡ changed place cut self.old }
    {
        let mut link = self.list[place];
        link.cut();
        self.change(place, link);
    }

    /// The transport of a connection is gone.
    pub fn lose(&mut self, place: usize)
        requires { place < length self.old.links }
        ensures { self.new ≡ changed place lost self.old }
    {
        let mut link = self.list[place];
        link.lose();
        self.change(place, link);
    }

    /// The oldest PDU that was handed out on a connection and isn't written is written now. Where there is none, nothing
    /// changes.
    #[inline(always)]
    pub fn write(&mut self, place: usize)
        requires { place < length self.old.links }
        ensures { self.new ≡ changed place written_by self.old }
    {
        // Where it is looked whether what was written arrived, to write ends nothing that is under way.
        if self.looks || !self.list[place].is_busy(false) {
            let idle = &mut self.list[place];
            idle.write();
            return;
        }
        let link = &mut self.list[place];
        link.write();
        if !link.is_busy(false) {
            self.busy -= 1;
        }
    }

    /// A header arrived on a connection, with this ExpStatSN and, where it is that of a NOP-Out, this transfer tag.
    // Where nobody looks whether what was written arrived, a header ends nothing that is under way.
    #[inline(always)]
    pub fn hear(&mut self, place: usize, exp_stat_sn: u32, transfer_tag: u32)
        requires { place < length self.old.links }
        ensures { self.new ≡ changed place (heard_by exp_stat_sn transfer_tag) self.old }
    {
        if self.looks {
            return self.hear_and_count(place, exp_stat_sn, transfer_tag);
        }
        let conn = &mut self.list[place];
        conn.hear(exp_stat_sn, transfer_tag);
    }

    /// The same where it is looked whether what was written arrived: that may end what is under way.
    #[inline(never)]
    fn hear_and_count(&mut self, place: usize, exp_stat_sn: u32, transfer_tag: u32)
        requires { place < length self.old.links }
        ensures { self.new ≡ changed place (heard_by exp_stat_sn transfer_tag) self.old }
    {
        let looks = self.looks;
        let link = &mut self.list[place];
        let was = link.is_busy(looks);
        link.hear(exp_stat_sn, transfer_tag);
        let is = link.is_busy(looks);
        self.busy = count_with(self.busy, was, is);
    }

    /// A PDU is handed out on a connection that is no ping: its stamp. It takes a StatSN or not, and it is the Logout Response
    /// that closes the connection or not.
    #[inline(always)]
    pub fn hand_out(&mut self, place: usize, takes: bool, ends: bool) -> Stamp
        requires within { place < length self.old.links }
        requires open { is_open_by (link_at self.old place) ≡ true }
        requires room { (link_at self.old place).handed < 2 ^ 63 }
        ensures answer { result ≡ stamp_by (link_at self.old place) }
        ensures state { self.new ≡ changed place (handed_by takes ends) self.old }
    {
        let looks = self.looks;
        let link = &mut self.list[place];
        let was = is_busy_open(link, looks);
        let stamp = link.hand_out(takes, ends);
        let is = is_busy_open(link, looks);
        self.busy = count_with(self.busy, was, is);
        stamp
    }

    /// A ping is handed out on a connection: its stamp. There is one at a time that isn't known to have arrived.
    pub fn hand_out_ping(&mut self, place: usize) -> Stamp
        requires within { place < length self.old.links }
        requires open { is_open_by (link_at self.old place) ≡ true }
        requires room { (link_at self.old place).handed < 2 ^ 63 }
        requires none { nat_lt (link_at self.old place).answered (link_at self.old place).pings ≡ false }
        ensures answer { result ≡ stamp_by (link_at self.old place) }
        ensures state { self.new ≡ changed place pinged_by self.old }
    {
        let mut link = self.list[place];
        let stamp = link.hand_out_ping();
        self.change(place, link);
        stamp
    }

    /// A connection is as this one from now on.
    #[inline(always)]
    fn change(&mut self, which: usize, new: Arrivals)
        requires { which < length self.old.links }
        ensures { self.new ≡ record self.old { links = slice_set self.old.links which new } }
    {
        let old = self.list[which];
        self.list[which] = new;
        self.busy = count_with(self.busy, old.is_busy(self.looks), new.is_busy(self.looks));
        self.shut = count_with(self.shut, old.is_closed(), new.is_closed());
        self.usable = usable_with(&self.list, self.usable, which);
    }
}

/// Whether something is under way that took a StatSN on a connection that is open.
#[inline(always)]
fn is_busy_open(link: &Arrivals, looks: bool) -> bool
    requires { is_open_by link.now ≡ true }
    ensures { result ≡ is_busy_by looks link.now }
{
    if looks {
        link.has_unarrived()
    } else {
        link.has_unwritten()
    }
}

/// So many connections that haven't joined.
fn unjoined(alloc: Global, count: usize) -> Result<Vec<Arrivals>, AllocError>
    ensures { IfOk result (λ list. list.items ≡ replicate count new_counts) }
{
    let mut list = Vec::with_capacity(alloc, count)?;
    for _ in 0..count {
        list.push_reserved(Arrivals::new());
    }
    Ok(list)
}

/// How many are so, as one was and is.
#[inline(always)]
fn count_with(count: usize, was: bool, is: bool) -> usize
    requires some { was ≡ true → 1 ≤ count }
    requires few { count ≤ 64 }
    ensures { result + (if was then 1 else 0) ≡ count + (if is then 1 else 0) }
{
    match (was, is) {
        (true, false) => count - 1,
        (false, true) => count + 1,
        _ => count,
    }
}

/// The first connection that takes requests, as this one has changed, before which it was another one.
#[inline(always)]
fn usable_with(list: &[Arrivals], usable: usize, place: usize) -> usize
    requires within { place < length list.now }
    requires first { usable ≤ length list.now }
    requires before { (j : ℕ) → j < usable → j ≢ place → is_usable_by (slice_index_or list.now j new_counts) ≡ false }
    requires here { usable < length list.now → usable ≢ place → is_usable_by (slice_index_or list.now usable new_counts) ≡ true }
    ensures { result ≡ position_or_len is_usable_by list.now }
{
    if list[place].is_usable() {
        return if place < usable { place } else { usable };
    }
    if place == usable {
        return next_usable(list, usable + 1);
    }
    usable
}

/// The first connection from one on that takes requests.
#[inline(never)]
fn next_usable(list: &[Arrivals], from: usize) -> usize
    requires within { from ≤ length list.now }
    requires none { (j : ℕ) → j < from → is_usable_by (slice_index_or list.now j new_counts) ≡ false }
    ensures { result ≡ position_or_len is_usable_by list.now }
{
    let mut place = from;
    while place < list.len() && !list[place].is_usable() {
        place += 1;
    }
    place
}
