//! The connections of a session.

ghost use Rattle.std.specs.Prelude.{◌≡◌, ◌==◌, ◌+◌, ◌<◌, ◌≤◌, ℕ, true, length, map, position, slice_index_or, nat_le, if◌then◌else◌, IfSome, OnSome};
ghost use Rattle.std.specs.List.{list_any};
ghost use Rattle.iscsi_wire.specs.Cids.{is_known as known_in, are_distinct as distinct_in};
ghost use Rattle.iscsi_connections.specs.Connected.{MOST, opened, stat_sn_on, count_reply, counted_on, is_among_open, still_open};
ghost use Rattle.iscsi_connections.specs.Placed.{cid_and_stat_sn, new_connection, closed_in, TellsPlaces};

use std::alloc::Global;
use std::marker::Model;

/// The most live immediate commands of a connection.
pub const MOST_IMMEDIATE: u8 = 8;

/// What stands in the table for a CID of no connection.
const NOWHERE: u8 = 255;

/// What is kept of a connection.
#[derive(Clone, Copy)]
struct Connection {
    /// Its name within the session (RFC 7143 section 11.12.7).
    cid: u16,
    /// The StatSN of its next reply.
    stat_sn: u32,
    /// Whether it isn't closed.
    is_open: bool,
    /// How many of its immediate commands are live.
    immediate: u8,
}

/// The connections of a session. One is found by its CID at once, however many there are.
pub struct Connections {
    list: Vec<Connection>,
    /// For each CID up to the greatest one, the place of its connection in the list, or `NOWHERE`.
    places: Vec<u8>,
}

impl Drop for Connections {
    fn drop(self) {
        let Connections {
            list: _list,
            places: _places,
        } = self;
    }
}

impl Model for Connections {
    ghost use Rattle.iscsi_connections.specs.Connected.{Connected};
    ghost use Rattle.iscsi_connections.specs.Placed.{connected, ArePlaced};

    ghost Value = { Connected };

    ghost view = { λ c. connected c.list.items };

    ghost invariant = { λ c. ArePlaced c.places.items c.list.items };
}

impl Connections {
    /// Opens the connections with these CIDs and first StatSNs, 64 at the most. No command of them is live. None where
    /// memory is refused.
    pub fn open(alloc: Global, conns: &[(u16, u32)]) -> Option<Connections>
        requires few { length conns.now ≤ 64 }
        requires distinct { distinct_in conns.now ≡ true }
        ensures { IfSome result (λ c. c ≡ opened conns.now) }
    {
        let list = list_of(alloc, conns)?;
        let places = places_of(alloc, &list)?;
        Some(Connections { list, places })
    }

    /// How many there are.
    pub fn len(&self) -> usize
        ensures { result ≡ length self.now.conns }
    {
        self.list.len()
    }

    /// Whether one of them has this CID.
    pub fn knows(&self, cid: u16) -> bool
        ensures { result ≡ known_in cid self.now.conns }
    {
        self.place_of(cid).is_some()
    }

    /// Whether the connection with this CID isn't closed.
    pub fn is_open(&self, cid: u16) -> bool
        ensures { result ≡ is_among_open cid self.now.open_conns }
    {
        match self.place_of(cid) {
            Some(place) => self.list[place].is_open,
            None => false,
        }
    }

    /// Whether every connection is closed.
    pub fn are_closed(&self) -> bool
        ensures { result ≡ (length self.now.open_conns == 0) }
    {
        !is_any_open(&self.list)
    }

    /// Closes the connection with this CID, or all for None.
    pub fn close(&mut self, cid: Option<u16>)
        ensures { self.new ≡ record self.old { open_conns = still_open cid self.old.open_conns } }
    {
        close_in(&mut self.list, cid);
    }

    /// Takes the StatSN of a connection's next reply.
    pub fn assign_stat_sn(&mut self, cid: u16) -> u32
        ensures number { result ≡ stat_sn_on cid self.old.conns }
        ensures state { self.new ≡ record self.old { conns = count_reply cid self.old.conns } }
    {
        let Some(place) = self.place_of(cid) else {
            return 0;
        };
        let connection = &mut self.list[place];
        let stat_sn = connection.stat_sn;
        connection.stat_sn = stat_sn.wrapping_add(1);
        stat_sn
    }

    /// Whether as many immediate commands of the connection are live as may be.
    pub fn is_crowded(&self, cid: u16) -> bool
        ensures { result ≡ nat_le MOST (counted_on cid self.now.conns self.now.immediate) }
    {
        match self.place_of(cid) {
            Some(place) => MOST_IMMEDIATE <= self.list[place].immediate,
            None => false,
        }
    }

    /// An immediate command of the connection begins.
    pub fn begin_immediate(&mut self, cid: u16)
        requires known { known_in cid self.old.conns ≡ true }
        requires few { counted_on cid self.old.conns self.old.immediate < 255 }
        ensures state { self.new ≡ record self.old { immediate = self.new.immediate } }
        ensures long { length self.new.immediate ≡ length self.old.immediate }
        ensures counted { (other : ℕ) → counted_on other self.old.conns self.new.immediate
            ≡ counted_on other self.old.conns self.old.immediate + (if cid == other then 1 else 0) }
    {
        let place = self.place_of(cid).unwrap();
        self.list[place].immediate += 1;
    }

    /// An immediate command of the connection is over.
    pub fn finish_immediate(&mut self, cid: u16)
        requires known { known_in cid self.old.conns ≡ true }
        requires some { 0 < counted_on cid self.old.conns self.old.immediate }
        ensures state { self.new ≡ record self.old { immediate = self.new.immediate } }
        ensures long { length self.new.immediate ≡ length self.old.immediate }
        ensures counted { (other : ℕ) → counted_on other self.old.conns self.new.immediate
            + (if cid == other then 1 else 0) ≡ counted_on other self.old.conns self.old.immediate }
    {
        let place = self.place_of(cid).unwrap();
        self.list[place].immediate -= 1;
    }

    /// The place of the connection with this CID.
    fn place_of(&self, cid: u16) -> Option<usize>
        ensures { result ≡ position (λ conn. conn.0 == cid) self.now.conns }
    {
        let place = told(&self.places, cid);
        if place < NOWHERE {
            Some(usize::from(place))
        } else {
            None
        }
    }
}

impl Connection {
    /// The connection, closed where it has this CID, or for None.
    fn closed(self, cid: Option<u16>) -> Connection
        ensures { result ≡ closed_in cid self }
    {
        let is_asked = match cid {
            Some(cid) => self.cid == cid,
            None => true,
        };
        Connection {
            is_open: self.is_open && !is_asked,
            ..self
        }
    }
}

/// Whether one of the connections isn't closed.
fn is_any_open(list: &[Connection]) -> bool
    ensures { result ≡ list_any (λ c. c.is_open) list.now }
{
    list.iter().any(|connection| connection.is_open)
}

/// Closes the connection with this CID, or all for None.
fn close_in(list: &mut Vec<Connection>, cid: Option<u16>)
    ensures { list.new.items ≡ map (closed_in cid) list.old.items }
{
    for place in 0..list.len() {
        list[place] = list[place].closed(cid);
    }
}

/// What stands in the table for a CID.
fn told(places: &[u8], cid: u16) -> u8
    ensures { result ≡ slice_index_or places.now cid 255 }
{
    places.get(usize::from(cid)).copied().unwrap_or(NOWHERE)
}

/// The connections, in their order.
fn list_of(alloc: Global, conns: &[(u16, u32)]) -> Option<Vec<Connection>>
    ensures { IfSome result (λ list. list.items ≡ map new_connection conns.now) }
{
    let mut list = Vec::with_capacity(alloc, conns.len()).ok()?;
    for conn in conns {
        list.push_reserved(Connection {
            cid: conn.0,
            stat_sn: conn.1,
            is_open: true,
            immediate: 0,
        });
    }
    Some(list)
}

/// The table of their places by CID. None where memory is refused.
fn places_of(alloc: Global, list: &[Connection]) -> Option<Vec<u8>>
    requires few { length list.now ≤ 64 }
    requires distinct { distinct_in (map cid_and_stat_sn list.now) ≡ true }
    ensures { IfSome result (λ places. TellsPlaces places.items list.now (length list.now)) }
{
    let mut places = Vec::new(alloc);
    for place in 0..list.len() {
        put(&mut places, list[place].cid, place as u8)?;
    }
    Some(places)
}

/// Writes a place into the table, which may grow for it. None where memory is refused.
fn put(places: &mut Vec<u8>, cid: u16, place: u8) -> Option<()>
    ensures { OnSome result ((other : ℕ) →
        slice_index_or places.new.items other 255
        ≡ (if other == cid then place else slice_index_or places.old.items other 255)) }
{
    let at = usize::from(cid);
    reach(places, at)?;
    places[at] = place;
    Some(())
}

/// Makes the table long enough for this CID. None where memory is refused.
fn reach(places: &mut Vec<u8>, at: usize) -> Option<()>
    requires { at < 65536 }
    ensures long { OnSome result (at < length places.new.items) }
    ensures same { OnSome result ((other : ℕ) →
        slice_index_or places.new.items other 255 ≡ slice_index_or places.old.items other 255) }
{
    if places.len() <= at {
        places.resize(at + 1, NOWHERE).ok()?;
    }
    Some(())
}
