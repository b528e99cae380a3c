//! The window: a ring of places, one for each number from the expected one on.

ghost use Rattle.std.specs.Prelude.{Err, ◌≡◌, List, true, [], ◌∷◌, ◌+◌, ◌-◌, ◌^◌, ◌<◌, ◌⊎◌, ◌↔◌, length, Option, Some, None, OnSome, IfOk, not, option_map, if◌then◌else◌};
ghost use Rattle.iscsi_wire.specs.Fields.{cmd_sn};
ghost use Rattle.iscsi_wire.specs.Serial.{wire};
ghost use Rattle.iscsi_window.specs.Received.{number_expected, at_place, IsSound, HasRoom};
ghost use Rattle.iscsi_window.specs.Windows.{opened, number_last, place_in, IsInside, held_at, offer_to, offered_to, is_received_at, voided, is_held_from, number_shown, find_command, emptied, first_from, dropped_at, taken_at, turned_by, request_at, advanced, is_next, with_unfinished};
ghost use Rattle.iscsi_window.specs.History.{Change, Started, Finished, is_received, held, expected, number_of, StandsFor, Law, after_offer, after_voiding, after_taking, after_emptying, after_turning, after_passing, offer_since, is_next_since, turn_since, is_command_below, is_held_at, held_number, ShowsLowest, TookLowest};

use crate::answer::{Offer, Place, Turned};
use crate::event_window::EventWindow;
use crate::fault::WindowFault;
use crate::held_request::HeldRequest;
use iscsi_wire::Request;
use std::alloc::Global;
use std::marker::Model;

/// What stands for the event of arrival, which a `Window` doesn't show.
const NO_EVENT: u64 = 0;

/// The numbers that a session has received and not yet turned, and the requests that it holds for them.
///
/// A window of W places admits the numbers from the expected one, ExpCmdSN, to the last one, MaxCmdSN,
/// which is W - 1 above it less one for each command that is being executed (RFC 7143 section 4.2.2.1).
/// Numbers on the wire wrap at 2^32; each stands for the number nearest to the expected one that it shows.
///
/// The clauses `stands` follow a window over every history of calls: what was admitted, voided, emptied and
/// turned, in numbers that don't wrap. The law of `size` says what that means.
pub struct Window {
    events: EventWindow,
}

impl Drop for Window {
    fn drop(self) {
        let Window { events: _events } = self;
    }
}

impl Model for Window {
    ghost use Rattle.iscsi_window.specs.Received.{Received};
    ghost use Rattle.iscsi_window.specs.Windows.{shown};

    ghost Value = { Received };

    ghost view = { λ w. shown w.events };
}

impl Window {
    /// Opens a window of `size` places, from 1 to 1024, whose first expected number is `first`.
    ///
    /// Refusals, in order: `BadSize`, `NoMemory`.
    pub fn open(alloc: Global, first: u32, size: u32) -> Result<Window, WindowFault>
        ensures ok { IfOk result (λ w. w ≡ opened first size) }
        ensures bad_size { (result ≡ Err WindowFault.BadSize) ↔ ((size < 1) ⊎ (1024 < size)) }
        ensures stands { IfOk result (λ w. StandsFor w []) }
    {
        Ok(Window {
            events: EventWindow::open(alloc, first, size)?,
        })
    }

    /// How many places the window has.
    pub fn size(&self) -> u32
        ensures size { result ≡ length self.now.places }
        ensures sound { IsSound self.now }
        ensures law { (h : List Change) → StandsFor self.now h → Law self.now h }
    {
        self.events.size()
    }

    /// How many numbers have turned since the window was opened.
    pub fn turned(&self) -> u64
        ensures { result ≡ self.now.turned }
    {
        self.events.turned()
    }

    /// How many commands are counted as being executed.
    pub fn unfinished(&self) -> u32
        ensures { result ≡ self.now.unfinished }
    {
        self.events.unfinished()
    }

    /// ExpCmdSN: the number whose turn is next.
    pub fn exp(&self) -> u32
        ensures { result ≡ wire (number_expected self.now) }
    {
        self.events.exp()
    }

    /// MaxCmdSN: the last admitted number. It is ExpCmdSN - 1 where none is admitted.
    pub fn max(&self) -> u32
        ensures { result ≡ wire (number_last self.now) }
    {
        self.events.max()
    }

    /// Where the number that the wire shows as `w` stands. A number at distance 2^31 is outside.
    pub fn place(&self, w: u32) -> Place
        ensures { result ≡ place_in self.now w }
    {
        self.events.place(w)
    }

    /// Holds the request at its CmdSN, if that is admitted and wasn't received before. Otherwise nothing
    /// changes.
    ///
    /// The I bit isn't looked at: an immediate request takes no number, so it isn't offered.
    pub fn offer(&mut self, request: &Request) -> Offer
        ensures answer { result ≡ offer_to self.old request.now }
        ensures state { self.new ≡ offered_to self.old request.now }
        ensures answer_since { (h : List Change) → StandsFor self.old h → result ≡
            offer_since self.old.first (length self.old.places) h (number_of self.old.first h (cmd_sn request.now)) }
        ensures stands { (h : List Change) → StandsFor self.old h →
            StandsFor self.new (after_offer result (number_of self.old.first h (cmd_sn request.now)) request.now h) }
    {
        self.events.offer(request, NO_EVENT)
    }

    /// Receives the number with nothing held for it, and answers true. Where it was received before, the
    /// answer is false and nothing changes.
    #[tactic(auto, using(crate::proofs::WindowSteps::void_steps))]
    pub fn void(&mut self, w: u32) -> bool
        requires { IsInside (place_in self.old w) }
        ensures answer { result ≡ not (is_received_at self.old (place_in self.old w)) }
        ensures state { self.new ≡ voided self.old w }
        ensures answer_since { (h : List Change) → StandsFor self.old h →
            result ≡ not (is_received h (number_of self.old.first h w)) }
        ensures stands { (h : List Change) → StandsFor self.old h →
            StandsFor self.new (after_voiding result (number_of self.old.first h w) h) }
    {
        self.events.void(w)
    }

    /// The lowest number, below the one that the wire shows as `below`, for which a SCSI Command with this
    /// tag and to this unit is held.
    ///
    /// Where no request is held whose tag leaves the same remainder on division by 4,093, it looks at no place, and
    /// else at none below the first of those requests. Where at most 64 numbers are received and haven't turned, it reads
    /// the tags of their places before, and ends where none is this one. It goes on by 64 places at a time, reads their
    /// tags, and looks at each of the 64 where one of them last had the tag, also at places without a request. So one
    /// request with the tag in each 64 places, none of them a command to this unit, is enough to make it look at all
    /// below `below`.
    pub fn find_held(&self, itt: u32, unit: u16, below: u32) -> Option<u32>
        ensures answer { result ≡ option_map (number_shown self.now) (find_command self.now itt unit below) }
        ensures answer_since { (h : List Change) → StandsFor self.now h →
            ShowsLowest (is_command_below h itt unit (number_of self.now.first h below)) result }
    {
        self.events.find_held(itt, unit, below)
    }

    /// Takes out the request that is held for the number, which stays received. Where none is held, nothing
    /// changes.
    #[tactic(auto, using(crate::proofs::WindowSteps::empty_steps))]
    pub fn empty(&mut self, w: u32) -> Option<Request>
        ensures answer { result ≡ held_at self.old (place_in self.old w) }
        ensures state { self.new ≡ emptied self.old w }
        ensures answer_since { (h : List Change) → StandsFor self.old h →
            result ≡ held h (number_of self.old.first h w) }
        ensures stands { (h : List Change) → StandsFor self.old h →
            StandsFor self.new (after_taking result (number_of self.old.first h w) h) }
    {
        let held = self.events.empty(w)?;
        Some(held.request)
    }

    /// Takes out the request with the lowest number of those that are held and came on connection `conn`, or
    /// on any for None, and answers its number, which stays received. Where none is held, nothing changes.
    #[tactic(auto, using(crate::proofs::WindowSteps::drop_first_steps))]
    pub fn drop_first(&mut self, conn: Option<u16>) -> Option<u32>
        ensures answer { result ≡ option_map (number_shown self.old) (first_from self.old conn) }
        ensures state { self.new ≡ dropped_at self.old (first_from self.old conn) }
        ensures stands { (h : List Change) → StandsFor self.old h → TookLowest (is_held_at h conn) result self.new h }
    {
        self.events.drop_first(conn)
    }

    /// Takes out the request that is held `ahead` numbers after the expected one, if it came on connection
    /// `conn`, or on any for None, and answers its number, which stays received. Otherwise nothing changes.
    #[tactic(auto, using(crate::proofs::WindowSteps::drop_at_steps))]
    pub fn drop_at(&mut self, ahead: u32, conn: Option<u16>) -> Option<u32>
        ensures answer { result ≡
            (if is_held_from conn (at_place self.old ahead) then Some (number_shown self.old ahead) else None) }
        ensures state { self.new ≡ taken_at self.old ahead conn }
        ensures answer_since { (h : List Change) → StandsFor self.old h →
            result ≡ option_map wire (held_number h conn (expected self.old.first h + ahead)) }
        ensures stands { (h : List Change) → StandsFor self.old h →
            StandsFor self.new (after_emptying (held_number h conn (expected self.old.first h + ahead)) h) }
    {
        self.events.drop_at(ahead, conn)
    }

    /// Turns the expected number, if it is received. Otherwise nothing changes.
    ///
    /// A command that it turned may be counted by `start_one`.
    #[tactic(auto, using(crate::proofs::WindowSteps::advance_steps))]
    pub fn advance(&mut self) -> Option<Turned>
        requires { self.old.turned < 2 ^ 64 - 1 }
        ensures answer { result ≡ turned_by self.old }
        ensures state { self.new ≡ advanced self.old }
        ensures room { OnSome result (HasRoom self.new) }
        ensures answer_since { (h : List Change) → StandsFor self.old h → result ≡ turn_since self.old.first h }
        ensures stands { (h : List Change) → StandsFor self.old h →
            StandsFor self.new (after_turning result (expected self.old.first h) h) }
    {
        let sn = self.events.exp();
        let request = request_of(self.events.advance()?);
        Some(Turned { sn, request })
    }

    /// Whether the number of this request is the expected one, is admitted and wasn't received: `offer` would hold it,
    /// and `advance` turn it.
    pub fn is_next(&self, request: &Request) -> bool
        ensures answer { result ≡ is_next self.now request.now }
        ensures held { result ≡ true → offer_to self.now request.now ≡ Offer.Held }
        ensures answer_since { (h : List Change) → StandsFor self.now h → result ≡
            is_next_since self.now.first (length self.now.places) h (number_of self.now.first h (cmd_sn request.now)) }
    {
        self.events.is_next(request)
    }

    /// Turns the number of this request as it comes: the window is as after `offer` and `advance`, and holds nothing of
    /// it at any time.
    ///
    /// A command that it turned may be counted by `start_one`.
    #[tactic(auto, using(crate::proofs::WindowSteps::pass_steps))]
    pub fn pass(&mut self, request: &Request)
        requires next { is_next self.old request.now ≡ true }
        requires turned { self.old.turned < 2 ^ 64 - 1 }
        ensures state { self.new ≡ advanced (offered_to self.old request.now) }
        ensures room { HasRoom self.new }
        ensures stands { (h : List Change) → StandsFor self.old h →
            StandsFor self.new (after_passing (number_of self.old.first h (cmd_sn request.now)) request.now h) }
    {
        self.events.pass(request);
    }

    /// Counts a command as being executed: the last admitted number isn't admitted any more.
    #[tactic(auto, using(crate::proofs::WindowSteps::start_one_steps))]
    pub fn start_one(&mut self)
        requires { HasRoom self.old }
        ensures state { self.new ≡ with_unfinished self.old (self.old.unfinished + 1) }
        ensures stands { (h : List Change) → StandsFor self.old h → StandsFor self.new (Started ∷ h) }
    {
        self.events.start_one();
    }

    /// Takes a command back from the count: one number more is admitted.
    #[tactic(auto, using(crate::proofs::WindowSteps::finish_one_steps))]
    pub fn finish_one(&mut self)
        requires { 0 < self.old.unfinished }
        ensures state { self.new ≡ with_unfinished self.old (self.old.unfinished - 1) }
        ensures stands { (h : List Change) → StandsFor self.old h → StandsFor self.new (Finished ∷ h) }
    {
        self.events.finish_one();
    }
}

/// The request of what was held, where there was one.
fn request_of(held: Option<HeldRequest>) -> Option<Request>
    ensures { Some result ≡ request_at (Some held) }
{
    let held = held?;
    Some(held.request)
}
