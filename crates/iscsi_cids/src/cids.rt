//! The places of CIDs.

ghost use Rattle.std.specs.Prelude.{◌≡◌, ◌≢◌, ◌==◌, ◌<◌, ◌≤◌, ℕ, length, position, slice_index_or, if◌then◌else◌, IfOk, OnOk};
ghost use Rattle.std.specs.List.{AllPairs};
ghost use Rattle.iscsi_cids.specs.Cids.{TellsPlaces, place_of};

use std::alloc::{AllocError, Global};
use std::marker::Model;

/// What stands in the table for a CID of no connection.
const NOWHERE: u8 = 255;

/// The connections of a session in an order, each with its CID (RFC 7143 section 11.12.7). One is found at once, however many there
/// are.
pub struct Cids {
    /// For each CID up to the greatest one, the place of its connection, or `NOWHERE`.
    places: Vec<u8>,
    /// The CIDs, in order.
    list: Vec<u16>,
}

impl Drop for Cids {
    fn drop(self) {
        let Cids {
            places: _places,
            list: _list,
        } = self;
    }
}

impl Model for Cids {
    ghost use Rattle.iscsi_cids.specs.Cids.{ArePlaced, Named};

    ghost Value = { Named };

    ghost view = { λ c. record { cids = c.list.items } };

    ghost invariant = { λ c. ArePlaced c.places.items c.list.items };
}

impl Cids {
    /// The connections with these CIDs, of which no two are the same, and 64 at the most. It takes all its memory here.
    pub fn open(alloc: Global, cids: &[u16]) -> Result<Cids, AllocError>
        requires few { length cids.now ≤ 64 }
        requires distinct { AllPairs (λ a b. a ≢ b) cids.now }
        ensures { IfOk result (λ c. c ≡ record { cids = cids.now }) }
    {
        let list = Vec::from_slice(alloc, cids)?;
        let places = places_of(alloc, cids)?;
        Ok(Cids { places, list })
    }

    /// How many there are: 64 at the most.
    #[inline(always)]
    pub fn len(&self) -> usize
        ensures count { result ≡ length self.now.cids }
        ensures few { result ≤ 64 }
    {
        self.list.len()
    }

    /// The place of the connection with this CID.
    #[inline(always)]
    pub fn place(&self, cid: u16) -> Option<usize>
        ensures { result ≡ place_of cid self.now.cids }
    {
        let place = told(&self.places, cid);
        if place < NOWHERE {
            Some(usize::from(place))
        } else {
            None
        }
    }

    /// The CID of the connection in a place.
    #[inline(always)]
    pub fn cid(&self, place: usize) -> u16
        requires { place < length self.now.cids }
        ensures { result ≡ slice_index_or self.now.cids place 0 }
    {
        self.list[place]
    }
}

/// What stands in the table for a CID.
#[inline(always)]
fn told(places: &[u8], cid: u16) -> u8
    ensures { result ≡ slice_index_or places.now cid 255 }
{
    places.get(usize::from(cid)).copied().unwrap_or(NOWHERE)
}

/// The table of places by CID.
fn places_of(alloc: Global, cids: &[u16]) -> Result<Vec<u8>, AllocError>
    requires few { length cids.now ≤ 64 }
    requires distinct { AllPairs (λ a b. a ≢ b) cids.now }
    ensures { IfOk result (λ places. TellsPlaces places.items cids.now (length cids.now)) }
{
    let mut places = Vec::new(alloc);
    for place in 0..cids.len() {
        put(&mut places, cids[place], place as u8)?;
    }
    Ok(places)
}

/// Writes a place into the table, which may grow for it.
fn put(places: &mut Vec<u8>, cid: u16, place: u8) -> Result<(), AllocError>
    ensures { OnOk result ((other : ℕ) →
        slice_index_or places.new.items other 255
        ≡ (if other == cid then place else slice_index_or places.old.items other 255)) }
{
    let at = usize::from(cid);
    reach(places, at)?;
    places[at] = place;
    Ok(())
}

/// Makes the table long enough for this CID.
fn reach(places: &mut Vec<u8>, at: usize) -> Result<(), AllocError>
    requires { at < 65536 }
    ensures long { OnOk result (at < length places.new.items) }
    ensures same { OnOk result ((other : ℕ) →
        slice_index_or places.new.items other 255 ≡ slice_index_or places.old.items other 255) }
{
    if places.len() <= at {
        places.resize(at + 1, NOWHERE)?;
    }
    Ok(())
}
