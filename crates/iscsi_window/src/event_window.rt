//! The command window beneath `Window`, whose held requests carry the event in which they arrived.

ghost use Rattle.std.specs.Prelude.{Err, ◌≡◌, ℕ, true, ◌+◌, ◌-◌, ◌^◌, ◌<◌, ◌≤◌, ◌⊎◌, ◌↔◌, length, Option, Some, None, OnSome, IfOk, MatchOption, not, is_some, count_by, position, option_map, if◌then◌else◌};
ghost use Rattle.iscsi_wire.specs.Serial.{wire, lift};
ghost use Rattle.iscsi_window.specs.declared.answer.Place.{Place as SpecPlace};
ghost use Rattle.iscsi_window.specs.Received.{number_expected, at_place, is_held, IsSound, HasRoom};
ghost use Rattle.iscsi_window.specs.Windows.{opened, number_last, place_in, IsInside, held_at, offer_to, offered_in, is_received_at, voided, holds_from, find_held, number_shown, emptied, dropped_at, taken_from, turned_on, advanced, is_next, with_unfinished};

use crate::answer::{Offer, Place};
use crate::fault::WindowFault;
use crate::held_request::HeldRequest;
use crate::places::{
    Places, at, clear, empty_places, first_command, first_held, first_request, hold, holds_from,
    is_first_received, receive, take_first, turn_free, turn_received,
};
use iscsi_wire::{Request, serial_lt};
use std::alloc::Global;
use std::marker::Model;

/// The most places of a window.
const MOST_PLACES: u32 = 1024;

/// A [`Window`](crate::Window) of command numbers (RFC 7143 section 4.2.2.1) that keeps, with each request that it holds, the
/// event in which it arrived, and that says how many it holds.
///
/// Its calls are those of `Window`, which is made of it: each gives the exact answer and the exact window after, and has no clause
/// over histories. That it is a `Window` without the events (`shown`) is proved in the bodies of `Window`, whose clauses have them.
pub struct EventWindow {
    first: u32,
    unfinished: u32,
    size: u32,
    places: Places,
}

impl Drop for EventWindow {
    fn drop(self) {
        let EventWindow {
            first: _first,
            unfinished: _unfinished,
            size: _size,
            places: _places,
        } = self;
    }
}

impl Model for EventWindow {
    ghost use Rattle.std.specs.Prelude.{◌≡◌, length};
    ghost use Rattle.iscsi_window.specs.Received.{Arrived, IsSound};

    ghost Value = { Arrived };

    ghost view = { λ w. record {
      first = w.first;
      turned = w.places.turned;
      unfinished = w.unfinished;
      places = w.places.items;
    } };

    ghost invariant = { λ w. (length w.places.items ≡ w.size) × IsSound (let s : Arrived = record {
      first = w.first;
      turned = w.places.turned;
      unfinished = w.unfinished;
      places = w.places.items;
    } in s) };
}

impl EventWindow {
    /// Opens a window of `size` places, from 1 to 1024, whose first expected number is `first`.
    ///
    /// Refusals, in order: `BadSize`, `NoMemory`.
    pub fn open(alloc: Global, first: u32, size: u32) -> Result<EventWindow, WindowFault>
        ensures ok { IfOk result (λ w. w ≡ opened first size) }
        ensures bad_size { (result ≡ Err WindowFault.BadSize) ↔ ((size < 1) ⊎ (1024 < size)) }
    {
        if size < 1 || size > MOST_PLACES {
            return Err(WindowFault::BadSize);
        }
        let places = empty_places(alloc, size).map_err(|_| WindowFault::NoMemory)?;
        Ok(EventWindow {
            first,
            unfinished: 0,
            size,
            places,
        })
    }

    /// How many places the window has.
    pub fn size(&self) -> u32
        ensures size { result ≡ length self.now.places }
        ensures sound { IsSound self.now }
    {
        self.size
    }

    /// How many numbers have turned since the window was opened.
    pub fn turned(&self) -> u64
        ensures { result ≡ self.now.turned }
    {
        self.places.turned()
    }

    /// How many requests are held.
    pub fn held(&self) -> u32
        ensures { result ≡ count_by is_held self.now.places }
    {
        self.places.held()
    }

    /// How many commands are counted as being executed.
    pub fn unfinished(&self) -> u32
        ensures { result ≡ self.now.unfinished }
    {
        self.unfinished
    }

    /// ExpCmdSN: the number whose turn is next.
    pub fn exp(&self) -> u32
        ensures { result ≡ wire (number_expected self.now) }
    {
        self.first
            .wrapping_add((self.places.turned() % (1 << 32)) as u32)
    }

    /// MaxCmdSN: the last admitted number. It is ExpCmdSN - 1 where none is admitted.
    pub fn max(&self) -> u32
        ensures { result ≡ wire (number_last self.now) }
    {
        self.exp()
            .wrapping_add(self.size - 1)
            .wrapping_sub(self.unfinished)
    }

    /// Where the number that the wire shows as `w` stands. A number at distance 2^31 is outside.
    pub fn place(&self, w: u32) -> Place
        ensures { result ≡ place_in self.now w }
    {
        let ahead = w.wrapping_sub(self.exp());
        if ahead < self.size - self.unfinished {
            Place::Inside(ahead)
        } else {
            Place::Outside
        }
    }

    /// Holds the request at its CmdSN with the event in which it arrived, if that number is admitted and wasn't received
    /// before. Otherwise nothing changes.
    ///
    /// The I bit isn't looked at: an immediate request takes no number, so it isn't offered.
    // It is inlined, so that its caller finds the place of a number once.
    #[inline(always)]
    pub fn offer(&mut self, request: &Request, event: u64) -> Offer
        ensures answer { result ≡ offer_to self.old request.now }
        ensures state { self.new ≡ offered_in self.old request.now event }
        ensures sound { IsSound self.old }
    {
        let Place::Inside(k) = self.place(request.cmd_sn()) else {
            return Offer::Outside;
        };
        if hold(&mut self.places, k, request, event) {
            Offer::Held
        } else {
            Offer::Duplicate
        }
    }

    /// Receives the number with nothing held for it, and answers true. Where it was received before, the
    /// answer is false and nothing changes.
    pub fn void(&mut self, w: u32) -> bool
        requires { IsInside (place_in self.old w) }
        ensures answer { result ≡ not (is_received_at self.old (place_in self.old w)) }
        ensures state { self.new ≡ voided self.old w }
    {
        let Place::Inside(k) = self.place(w) else {
            unreachable!();
        };
        receive(&mut self.places, k)
    }

    /// The lowest number, below the one that the wire shows as `below`, for which a SCSI Command with this
    /// tag and to this unit is held.
    ///
    /// How far it looks, [`Window::find_held`](crate::Window::find_held) says.
    pub fn find_held(&self, itt: u32, unit: u16, below: u32) -> Option<u32>
        ensures { result ≡ option_map (number_shown self.now) (find_held self.now itt unit below) }
    {
        let exp = self.exp();
        let ahead = ahead_of(exp, below);
        let k = first_command(&self.places, ahead, itt, unit)?;
        Some(exp.wrapping_add(k))
    }

    /// Takes out the request that is held for the number, which stays received. Where none is held, nothing
    /// changes.
    pub fn empty(&mut self, w: u32) -> Option<HeldRequest>
        ensures answer { result ≡ held_at self.old (place_in self.old w) }
        ensures state { self.new ≡ emptied self.old w }
    {
        let Place::Inside(k) = self.place(w) else {
            return None;
        };
        let held = at(&self.places, k).flatten()?;
        clear(&mut self.places, k);
        Some(held)
    }

    /// Takes out the request with the lowest number of those that are held and came on connection `conn`, or
    /// on any for None, and answers its number, which stays received. Where none is held, nothing changes.
    pub fn drop_first(&mut self, conn: Option<u16>) -> Option<u32>
        ensures answer { result ≡ option_map (number_shown self.old) (position (holds_from conn) self.old.places) }
        ensures state { self.new ≡ dropped_at self.old (position (holds_from conn) self.old.places) }
    {
        let k = first_held(&self.places, conn)?;
        let sn = self.exp().wrapping_add(k);
        clear(&mut self.places, k);
        Some(sn)
    }

    /// Takes out the request that is held `ahead` numbers after the expected one, if it came on connection
    /// `conn`, or on any for None, and answers its number, which stays received. Otherwise nothing changes.
    pub fn drop_at(&mut self, ahead: u32, conn: Option<u16>) -> Option<u32>
        ensures answer { result ≡
            (if holds_from conn (at_place self.old ahead) then Some (number_shown self.old ahead) else None) }
        ensures state { self.new ≡ taken_from self.old ahead conn }
    {
        if !holds_from(&at(&self.places, ahead), conn) {
            return None;
        }
        clear(&mut self.places, ahead);
        Some(self.exp().wrapping_add(ahead))
    }

    /// Whether the expected number is received: `advance` would turn it.
    #[inline(always)]
    pub fn is_due(&self) -> bool
        ensures { result ≡ is_some (at_place self.now 0) }
    {
        is_first_received(&self.places)
    }

    /// What is held for the expected number, where it stands: what `turn` drops.
    #[inline(always)]
    pub fn first_held(&self) -> Option<&HeldRequest>
        ensures { MatchOption result (held_at self.now (SpecPlace.Inside 0) ≡ None)
            (λ held. held_at self.now (SpecPlace.Inside 0) ≡ Some held.now) }
    {
        first_request(&self.places)
    }

    /// Turns the expected number, which is received: the window is as after `advance`.
    ///
    /// A command that it turned may be counted by `start_one`.
    #[inline(always)]
    pub fn turn(&mut self)
        requires due { is_some (at_place self.old 0) ≡ true }
        requires turned { self.old.turned < 2 ^ 64 - 1 }
        ensures state { self.new ≡ advanced self.old }
        ensures room { HasRoom self.new }
    {
        turn_received(&mut self.places);
    }

    /// Turns the expected number, if it is received, and answers what was held for it. Otherwise nothing changes.
    ///
    /// A command that it turned may be counted by `start_one`.
    pub fn advance(&mut self) -> Option<Option<HeldRequest>>
        requires { self.old.turned < 2 ^ 64 - 1 }
        ensures answer { result ≡ at_place self.old 0 }
        ensures state { self.new ≡ advanced self.old }
        ensures room { OnSome result (HasRoom self.new) }
    {
        take_first(&mut self.places)
    }

    /// Whether the number of this request is the expected one, is admitted and wasn't received: `offer` would hold it,
    /// and `advance` turn it.
    pub fn is_next(&self, request: &Request) -> bool
        ensures answer { result ≡ is_next self.now request.now }
        ensures held { result ≡ true → offer_to self.now request.now ≡ Offer.Held }
        ensures sound { IsSound self.now }
    {
        match self.place(request.cmd_sn()) {
            Place::Inside(0) => !is_first_received(&self.places),
            _ => false,
        }
    }

    /// Turns the number of this request as it comes: the window is as after `offer` and `advance`, and holds nothing of
    /// it at any time.
    ///
    /// A command that it turned may be counted by `start_one`.
    pub fn pass(&mut self, request: &Request)
        requires next { is_next self.old request.now ≡ true }
        requires turned { self.old.turned < 2 ^ 64 - 1 }
        ensures state { (event : ℕ) → self.new ≡ advanced (offered_in self.old request.now event) }
        ensures room { HasRoom self.new }
    {
        turn_free(&mut self.places);
    }

    /// Counts a command as being executed: the last admitted number isn't admitted any more.
    pub fn start_one(&mut self)
        requires { HasRoom self.old }
        ensures { self.new ≡ with_unfinished self.old (self.old.unfinished + 1) }
    {
        self.unfinished += 1;
    }

    /// Takes a command back from the count: one number more is admitted.
    pub fn finish_one(&mut self)
        requires { 0 < self.old.unfinished }
        ensures { self.new ≡ with_unfinished self.old (self.old.unfinished - 1) }
    {
        self.unfinished -= 1;
    }
}

/// How far the number that the wire shows as `below` is above the expected one, and 0 for one below it.
fn ahead_of(exp: u32, below: u32) -> u32
    ensures { (e : ℕ) → 2 ^ 31 ≤ e → wire e ≡ exp → result ≡ lift e below - e }
{
    if serial_lt(exp, below) {
        below.wrapping_sub(exp)
    } else {
        0
    }
}
