//! A ring of places.

ghost use Rattle.std.specs.Prelude.{◌≡◌, [], ◌∷◌, ◌++◌, ◌+◌, ◌<◌, ◌^◌, length, drop, replicate, slice_set, slice_index_or, Some, None, not, is_some, if◌then◌else◌, IfOk};
ghost use Rattle.iscsi_window.specs.PlaceRing.{wrapped};

use crate::held_request::HeldRequest;
use iscsi_wire::Request;
use std::alloc::{AllocError, Global};
use std::marker::Model;

/// None for a number that wasn't received, and Some of what is held for one that was.
pub(crate) type Received = Option<Option<HeldRequest>>;

/// The places of a window, at least one, and as many at every time. No place moves as the first one turns.
#[derive(Drop)]
pub(crate) struct PlaceRing {
    slots: Vec<Received>,
    /// The slot of the first place. Behind the last slot comes slot 0.
    first: usize,
}

impl Model for PlaceRing {
    ghost use Rattle.std.specs.Prelude.{◌<◌, List, Option, length};
    ghost use Rattle.iscsi_window.specs.declared.held_request.HeldRequest.{HeldRequest};
    ghost use Rattle.iscsi_window.specs.PlaceRing.{from_slot};

    ghost Value = { List (Option (Option HeldRequest)) };

    ghost view = { λ r. from_slot r.first r.slots.items };

    ghost invariant = { λ r. r.first < length r.slots.items };
}

impl PlaceRing {
    /// So many places, and nothing received.
    pub(crate) fn open(alloc: Global, size: u32) -> Result<PlaceRing, AllocError>
        requires { 0 < size }
        ensures { IfOk result (λ ring. ring ≡ replicate size None) }
    {
        let nothing: Received = None;
        let slots = vec![in alloc; nothing; size as usize]?;
        Ok(PlaceRing { slots, first: 0 })
    }

    /// How many places there are.
    #[inline(always)]
    pub(crate) fn len(&self) -> usize
        ensures { result ≡ length self.now }
    {
        self.slots.len()
    }

    /// What place `k` has.
    #[inline(always)]
    pub(crate) fn get(&self, k: usize) -> &Received
        requires { k < length self.now }
        ensures { result.now ≡ slice_index_or self.now k None }
    {
        &self.slots[slot_of(self.first, k, self.slots.len())]
    }

    /// What the first place has.
    #[inline(always)]
    pub(crate) fn first(&self) -> &Received
        ensures { result.now ≡ slice_index_or self.now 0 None }
    {
        &self.slots[self.first]
    }

    /// Holds a request at place `k` with the event in which it arrived, and answers true. Where the place's number was
    /// received before, the answer is false and nothing changes.
    #[inline(always)]
    pub(crate) fn hold(&mut self, k: usize, request: &Request, event: u64) -> bool
        requires { k < length self.old }
        ensures answer { result ≡ not (is_some (slice_index_or self.old k None)) }
        ensures state { self.new ≡ (if is_some (slice_index_or self.old k None) then self.old
            else slice_set self.old k (Some (Some (record { request = request.now; event = event })))) }
    {
        let slot = slot_of(self.first, k, self.slots.len());
        let place = &mut self.slots[slot];
        if place.is_some() {
            return false;
        }
        *place = Some(Some(HeldRequest {
            request: *request,
            event,
        }));
        true
    }

    /// Place `k` holds no request from now on, and its number is received.
    pub(crate) fn empty(&mut self, k: usize)
        requires { k < length self.old }
        ensures { self.new ≡ slice_set self.old k (Some None) }
    {
        let slot = slot_of(self.first, k, self.slots.len());
        self.slots[slot] = Some(None);
    }

    /// Takes the first place off, and adds one at the end, where nothing was received.
    #[inline(always)]
    pub(crate) fn turn(&mut self)
        ensures { self.new ≡ drop 1 self.old ++ None ∷ [] }
    {
        self.slots[self.first] = None;
        self.turn_free();
    }

    /// The same, where the number of the first place wasn't received.
    #[inline(always)]
    pub(crate) fn turn_free(&mut self)
        requires { slice_index_or self.old 0 None ≡ None }
        ensures { self.new ≡ drop 1 self.old ++ None ∷ [] }
    {
        self.first = slot_behind(self.first, self.slots.len());
    }
}

/// The slot of place `k`, of so many, where place 0 stands in slot `first`.
#[inline(always)]
fn slot_of(first: usize, k: usize, slots: usize) -> usize
    requires first { first < slots }
    requires k { k < slots }
    requires few { slots < 2 ^ 63 }
    ensures { result ≡ wrapped slots (first + k) }
{
    let slot = first + k;
    if slot < slots { slot } else { slot - slots }
}

/// The slot behind another one, of so many.
#[inline(always)]
fn slot_behind(slot: usize, slots: usize) -> usize
    requires { slot < slots }
    ensures { result ≡ wrapped slots (slot + 1) }
{
    let next = slot + 1;
    if next == slots { 0 } else { next }
}
