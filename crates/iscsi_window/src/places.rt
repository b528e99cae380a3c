//! The places of a window, with how many requests they hold of each group of tags, and from where on.

ghost use Rattle.std.specs.Prelude.{◌≡◌, [], ◌∷◌, ◌++◌, ◌≤◌, ◌<◌, length, drop, replicate, slice_set, slice_index_or, Option, Some, None, true, IfOk, MatchOption, position, take, not, is_some, count_by, ◌+◌, ◌-◌, ◌^◌, if◌then◌else◌};
ghost use Rattle.std.specs.Option.{option_flatten};
ghost use Rattle.iscsi_window.specs.Windows.{is_held, holds_command, holds_from};
ghost use Rattle.iscsi_window.specs.PlaceTags.{IsFirstBetween};

use crate::filled_slots::FilledSlots;
use crate::held_request::HeldRequest;
use crate::place_ring::{PlaceRing, Received};
use crate::place_tags::{PlaceTags, of_one_word};
use crate::tags::{TagBounds, TagCounts};
use iscsi_wire::opcode::SCSI_COMMAND;
use iscsi_wire::{Request, unit_of};
use std::alloc::{AllocError, Global};
use std::marker::Model;

/// Where no more numbers than this are received, a search looks at the tags of their places first. To look at the tags
/// of all places is quicker than at those of twice as many.
const FEW: u32 = 64;

/// The places, of which contracts see the ring and the count of turns alone. The counters, bounds, tags and bits say where a
/// search need not look.
#[derive(Drop)]
pub(crate) struct Places {
    ring: PlaceRing,
    /// For how many places a number was received. Where that is none, all are alike, and the ring stays as it is.
    received: u32,
    /// How many places hold a request.
    held: u32,
    tags: TagCounts,
    bounds: TagBounds,
    labels: PlaceTags,
    filled: FilledSlots,
    /// How many places turned, which is the number of the first place.
    turned: u64,
}

impl Model for Places {
    ghost use Rattle.iscsi_window.specs.PlaceTags.{Placed, ArePlacesFound};

    ghost Value = { Placed };

    ghost view = { λ p. record { turned = p.turned; items = p.ring } };

    ghost invariant = { λ p. ArePlacesFound p.tags p.bounds p.labels p.filled p.turned p.received p.held p.ring };
}

/// So many places, and nothing received.
pub(crate) fn empty_places(alloc: Global, size: u32) -> Result<Places, AllocError>
    requires some { 0 < size }
    requires most { size ≤ 1024 }
    ensures { IfOk result (λ places. places ≡ record { turned = 0; items = replicate size None }) }
{
    let ring = PlaceRing::open(alloc, size)?;
    let tags = TagCounts::open(alloc)?;
    let bounds = TagBounds::open(alloc)?;
    let labels = PlaceTags::open(alloc)?;
    Ok(Places {
        ring,
        received: 0,
        held: 0,
        tags,
        bounds,
        labels,
        filled: FilledSlots::new(),
        turned: 0,
    })
}

impl Places {
    /// How many places turned.
    pub(crate) fn turned(&self) -> u64
        ensures { result ≡ self.now.turned }
    {
        self.turned
    }

    /// How many places hold a request.
    pub(crate) fn held(&self) -> u32
        ensures { result ≡ count_by is_held self.now.items }
    {
        self.held
    }
}

/// What place `k` has. None beyond the last place.
pub(crate) fn at(places: &Places, k: u32) -> Received
    ensures { result ≡ slice_index_or places.now.items k None }
{
    let k = k as usize;
    if places.received == 0 || k >= places.ring.len() {
        return None;
    }
    *places.ring.get(k)
}

/// Whether the number of the first place was received. Mostly none was.
#[inline(always)]
pub(crate) fn is_first_received(places: &Places) -> bool
    ensures { result ≡ is_some (slice_index_or places.now.items 0 None) }
{
    places.received > 0 && places.ring.first().is_some()
}

/// The request that the first place holds, if any.
#[inline(always)]
pub(crate) fn first_request(places: &Places) -> Option<&HeldRequest>
    ensures { MatchOption result (option_flatten (slice_index_or places.now.items 0 None) ≡ None)
        (λ held. option_flatten (slice_index_or places.now.items 0 None) ≡ Some held.now) }
{
    match places.ring.first() {
        Some(Some(held)) => Some(held),
        _ => None,
    }
}

/// Holds a request at place `k` with the event in which it arrived, and answers true. Where the place's number was
/// received before, the answer is false and nothing changes.
#[inline(always)]
pub(crate) fn hold(places: &mut Places, k: u32, request: &Request, event: u64) -> bool
    requires { k < length places.old.items }
    ensures answer { result ≡ not (is_some (slice_index_or places.old.items k None)) }
    ensures state { places.new ≡ record places.old {
      items = if is_some (slice_index_or places.old.items k None) then places.old.items
          else slice_set places.old.items k (Some (Some (record { request = request.now; event = event })));
    } }
{
    if !places.ring.hold(k as usize, request, event) {
        return false;
    }
    let itt = request.itt();
    let number = places.turned.saturating_add(k as u64);
    let is_only = places.tags.is_none(itt);
    places.bounds.occupy(itt, number, is_only);
    places.tags.raise(itt);
    places.labels.put(itt, number);
    places.filled.set(number);
    places.received += 1;
    places.held += 1;
    true
}

/// Receives the number of place `k` with nothing held for it, and answers true. Where it was received before, the answer
/// is false and nothing changes.
pub(crate) fn receive(places: &mut Places, k: u32) -> bool
    requires { k < length places.old.items }
    ensures answer { result ≡ not (is_some (slice_index_or places.old.items k None)) }
    ensures state { places.new ≡ record places.old {
      items = if is_some (slice_index_or places.old.items k None) then places.old.items
          else slice_set places.old.items k (Some None);
    } }
{
    let is_new = places.ring.get(k as usize).is_none();
    if is_new {
        let number = places.turned.saturating_add(k as u64);
        places.filled.set(number);
        places.received += 1;
        places.ring.empty(k as usize);
    }
    is_new
}

/// Place `k` holds no request from now on, and its number stays received. Beyond the last place nothing changes.
pub(crate) fn clear(places: &mut Places, k: u32)
    ensures { places.new ≡ record places.old { items = slice_set places.old.items k (Some None) } }
{
    let k = k as usize;
    if k >= places.ring.len() {
        return;
    }
    let place = places.ring.get(k);
    let number = places.turned.saturating_add(k as u64);
    places.bounds.vacate(place, number);
    places.tags.lower(place);
    places.received += 1 - count(place);
    places.held -= count_held(place);
    places.ring.empty(k);
}

/// Takes the first place off, whose number wasn't received, and adds one at the end, where nothing was received.
// Mostly no number waits for its turn, and all places are alike.
#[inline(always)]
pub(crate) fn turn_free(places: &mut Places)
    requires some { 0 < length places.old.items }
    requires free { slice_index_or places.old.items 0 None ≡ None }
    requires turned { places.old.turned < 2 ^ 64 - 1 }
    ensures { places.new ≡ record places.old {
      turned = places.old.turned + 1;
      items = drop 1 places.old.items ++ None ∷ [];
    } }
{
    places.turned += 1;
    if places.received == 0 {
        return;
    }
    places.ring.turn_free();
}

/// Takes the first place off, whose number was received, and adds one at the end, where nothing was received.
#[inline(always)]
pub(crate) fn turn_received(places: &mut Places)
    requires some { is_some (slice_index_or places.old.items 0 None) ≡ true }
    requires turned { places.old.turned < 2 ^ 64 - 1 }
    ensures { places.new ≡ record places.old {
      turned = places.old.turned + 1;
      items = drop 1 places.old.items ++ None ∷ [];
    } }
{
    let first = places.ring.first();
    let held = count_held(first);
    places.tags.lower(first);
    places.received -= 1;
    places.held -= held;
    places.filled.clear(places.turned);
    places.ring.turn();
    places.turned += 1;
}

/// Takes the first place off, if its number was received, adds one at the end, where nothing was received, and answers
/// what the first one had. Otherwise nothing changes.
pub(crate) fn take_first(places: &mut Places) -> Received
    requires { places.old.turned < 2 ^ 64 - 1 }
    ensures answer { result ≡ slice_index_or places.old.items 0 None }
    ensures state { places.new ≡ (if is_some (slice_index_or places.old.items 0 None) then record {
      turned = places.old.turned + 1;
      items = drop 1 places.old.items ++ None ∷ [];
    } else places.old) }
{
    let first = at(places, 0);
    if first.is_some() {
        turn_received(places);
    }
    first
}

/// 1 for a number that was received, and 0 for another one.
fn count(received: &Received) -> u32
    ensures { result ≡ (if is_some received.now then 1 else 0) }
{
    if received.is_some() { 1 } else { 0 }
}

/// 1 for a request that is held, and 0 for none.
fn count_held(received: &Received) -> u32
    ensures { result ≡ (if is_held received.now then 1 else 0) }
{
    match received {
        Some(Some(_)) => 1,
        _ => 0,
    }
}

/// Whether a SCSI Command with this tag and to this unit is held.
pub(crate) fn holds_command(received: &Received, itt: u32, unit: u16) -> bool
    ensures { result ≡ holds_command itt unit received.now }
{
    match received {
        Some(Some(HeldRequest { request, .. })) => {
            request.opcode() == SCSI_COMMAND
                && request.itt() == itt
                && unit_of(&request.lun()) == Some(unit)
        }
        _ => false,
    }
}

/// Whether a request is held that came on connection `conn`, or on any for None.
pub(crate) fn holds_from(received: &Received, conn: Option<u16>) -> bool
    ensures { result ≡ holds_from conn received.now }
{
    match received {
        Some(Some(HeldRequest { request, .. })) => {
            conn.is_none_or(|conn| request.conn() == conn)
        }
        _ => false,
    }
}

/// The first of the places below `end` where a SCSI Command with this tag and to this unit is held. It looks at the
/// bound of the tag's group, and from there on word by word of slots, into none that hasn't the tag.
pub(crate) fn first_command(places: &Places, end: u32, itt: u32, unit: u16) -> Option<u32>
    requires { length places.now.items ≤ 1024 }
    ensures { result ≡ position (holds_command itt unit) (take end places.now.items) }
{
    if places.tags.is_none(itt) {
        return None;
    }
    let end = end.min(places.ring.len() as u32);
    let bound = places.bounds.of(itt).saturating_sub(places.turned);
    let first = bound.min(end as u64) as u32;
    if first < end && holds_command_at(places, first, itt, unit) {
        return Some(first);
    }
    if places.received <= FEW
        && !places
            .labels
            .may_be_filled(&places.filled, places.turned, itt)
    {
        return None;
    }
    let mut k = first;
    while k < end {
        let number = places.turned.saturating_add(k as u64);
        let count = of_one_word(number, end - k);
        if places.labels.may_have(number, itt) {
            let found = first_between(places, k, k + count, itt, unit);
            if found.is_some() {
                return found;
            }
        }
        k += count;
    }
    None
}

/// The first place from `from` on, below `end`, where a SCSI Command with this tag and to this unit is held.
fn first_between(places: &Places, from: u32, end: u32, itt: u32, unit: u16) -> Option<u32>
    ensures { IsFirstBetween (holds_command itt unit) places.now.items from end result }
{
    for k in from..end {
        if holds_command_at(places, k, itt, unit) {
            return Some(k);
        }
    }
    None
}

/// Whether a SCSI Command with this tag and to this unit is held at place `k`.
fn holds_command_at(places: &Places, k: u32, itt: u32, unit: u16) -> bool
    ensures { result ≡ holds_command itt unit (slice_index_or places.now.items k None) }
{
    let k = k as usize;
    k < places.ring.len() && holds_command(places.ring.get(k), itt, unit)
}

/// The first place where a request is held that came on connection `conn`, or on any for None.
pub(crate) fn first_held(places: &Places, conn: Option<u16>) -> Option<u32>
    requires { length places.now.items ≤ 1024 }
    ensures { result ≡ position (holds_from conn) places.now.items }
{
    for k in 0..places.ring.len() {
        if holds_from(places.ring.get(k), conn) {
            return Some(k as u32);
        }
    }
    None
}
