//! The outbox.

ghost use Rattle.std.specs.Prelude.{◌≡◌, ◌+◌, ◌-◌, ◌<◌, ◌≤◌, ◌^◌, length, true, IfOk, IfSome};
ghost use Rattle.iscsi_wire.specs.Serial.{number_of_first};
ghost use Rattle.iscsi_outbox.specs.promises.Called.{FollowsRules};
ghost use Rattle.iscsi_outbox_steps.specs.Run.{Joined};
ghost use Rattle.iscsi_outbox_rules.specs.rules.Calls.{Joins};
ghost use Rattle.iscsi_outbox_steps.specs.State.{opened, place_of};
ghost use Rattle.iscsi_outbox.specs.rules.Words.{cid_at};
ghost use Rattle.iscsi_outbox.specs.promises.Options.{RefusesAs, is_valid, lane_of, limits_of, links_of, refusal_of, tracked_of, waits_of};
ghost use Rattle.iscsi_outbox_steps.specs.Steps.{joined, may_join};

mod asking;
mod choosing;
mod closing;
mod commonest;
mod handing;
mod leaving;
mod numbers;
mod own;
mod queues;
mod responding;
mod sending;
mod settling;
mod taking;

use crate::fault::OutboxFault;
use crate::options::OutboxOptions;
use iscsi_cids::Cids;
use iscsi_lane::Lane;
use iscsi_links::Links;
use iscsi_outbox_steps::Sent;
use iscsi_tracked::Tracked;
use iscsi_waiting::Waits;
pub use responding::HandedResponse;
use std::alloc::Global;
use std::marker::Model;

/// What goes out on the connections of a session.
pub struct Outbox {
    cids: Cids,
    links: Links,
    waits: Waits,
    lane: Lane,
    tracked: Tracked,
    /// The last answer to a function of several tasks that was handed out.
    fence: Option<Sent>,
    window: usize,
    units: u32,
    own: usize,
    shared: bool,
    /// ExpCmdSN, as the last event showed it.
    exp: u32,
    /// The session's MaxCmdSN, as a number that doesn't wrap.
    max: u64,
    /// The last MaxCmdSN that was shown ..
    shown: u64,
    /// .. and 0 once a connection was lost since.
    reached: u64,
    /// How many replies were taken, modulo 2^64.
    sent: u64,
}

impl Drop for Outbox {
    fn drop(self) {
        let Outbox {
            cids: _cids,
            links: _links,
            waits: _waits,
            lane: _lane,
            tracked: _tracked,
            fence: _fence,
            window: _window,
            units: _units,
            own: _own,
            shared: _shared,
            exp: _exp,
            max: _max,
            shown: _shown,
            reached: _reached,
            sent: _sent,
        } = self;
    }
}

impl Model for Outbox {
    ghost use Rattle.iscsi_outbox_steps.specs.State.{State};
    ghost use Rattle.iscsi_outbox.specs.private.Kept.{IsOutbox};

    ghost Value = { State };

    ghost view = { λ o. record {
      limits = record {
        cids = o.cids.cids;
        window = o.window;
        units = o.units;
        own = o.own;
        looks = o.links.looks;
        shared = o.shared;
      };
      links = o.links.links;
      waits = o.waits;
      lane = o.lane;
      tracked = o.tracked;
      fence = o.fence;
      exp = o.exp;
      max = o.max;
      shown = o.shown;
      reached = o.reached;
      sent = o.sent;
    } };

    ghost invariant = { λ o. IsOutbox o.cids.cids o.links.links o.waits o.lane o.tracked o.fence o.window o.units o.max o.shown };
}

impl Outbox {
    /// An outbox for a session, of which no connection has joined. It takes all its memory here: no other call asks for any.
    ///
    /// `BadOptions` where an option is outside its limits or a CID stands twice, then `NoMemory`.
    pub fn open(alloc: Global, options: &OutboxOptions) -> Result<Outbox, OutboxFault>
        ensures state { IfOk result (λ o. o ≡ opened (limits_of options.now) options.now.first) }
        ensures refused { RefusesAs (refusal_of options.now) result }
    {
        if !options.is_valid() {
            return Err(OutboxFault::BadOptions);
        }
        make(alloc, options).ok_or(OutboxFault::NoMemory)
    }

    /// How many connections the session has: 64 at the most.
    #[inline(always)]
    pub fn conns(&self) -> usize
        ensures count { result ≡ length self.now.limits.cids }
        ensures links { length self.now.links ≡ length self.now.limits.cids }
        ensures few { result ≤ 64 }
    {
        self.cids.len()
    }

    /// The CID of a connection, by its place.
    #[inline(always)]
    pub fn cid(&self, conn: usize) -> u16
        requires { conn < length self.now.limits.cids }
        ensures { result ≡ cid_at self.now conn }
    {
        self.cids.cid(conn)
    }

    /// The place of the connection with this CID.
    #[inline(always)]
    pub fn place(&self, cid: u16) -> Option<usize>
        ensures { result ≡ place_of self.now cid }
    {
        self.cids.place(cid)
    }

    /// A connection is in its Full Feature Phase, and its next StatSN is this. False, and nothing changes, where it isn't the
    /// session's, has joined, is closed or lost.
    pub fn join(&mut self, cid: u16, stat_sn: u32) -> bool
        ensures answer { result ≡ may_join cid self.old }
        ensures state { self.new ≡ joined cid stat_sn self.old }
        ensures rules { FollowsRules self.old (Joins cid stat_sn) (Joined result) self.new }
    {
        match self.cids.place(cid) {
            Some(conn) => self.links.join(conn, stat_sn),
            None => false,
        }
    }
}

/// An outbox with these options; `None`: there is no memory.
fn make(alloc: Global, options: &OutboxOptions) -> Option<Outbox>
    requires { is_valid options.now ≡ true }
    ensures { IfSome result (λ o. o ≡ opened (limits_of options.now) options.now.first) }
{
    let conns = options.conns.len();
    let looks = options.acknowledged && 1 < conns;
    let places = 3 * (options.window as usize + 12 * conns);
    let room = places + options.own as usize * conns;
    let cids = Cids::open(alloc, &options.conns).ok()?;
    let links = Links::open(alloc, conns, looks).ok()?;
    let waits = Waits::with_room(alloc, conns, places, room).ok()?;
    let lane = Lane::with_room(alloc, conns, places, places).ok()?;
    let tracked = Tracked::with_room(alloc, conns, places).ok()?;
    Some(assemble(options, cids, links, waits, lane, tracked))
}

/// An outbox of its parts, as they are opened.
fn assemble(
    options: &OutboxOptions,
    cids: Cids,
    links: Links,
    waits: Waits,
    lane: Lane,
    tracked: Tracked,
) -> Outbox
    requires options { is_valid options.now ≡ true }
    requires cids { cids ≡ record { cids = options.now.conns.items } }
    requires links { links ≡ links_of options.now }
    requires waits { waits ≡ waits_of options.now }
    requires lane { lane ≡ lane_of options.now }
    requires tracked { tracked ≡ tracked_of options.now }
    ensures { result ≡ opened (limits_of options.now) options.now.first }
{
    let last = first_max(options.first, options.window);
    Outbox {
        cids,
        links,
        waits,
        lane,
        tracked,
        fence: None,
        window: options.window as usize,
        units: options.units,
        own: options.own as usize,
        shared: options.shared,
        exp: options.first,
        max: last,
        shown: last,
        reached: last,
        sent: 0,
    }
}

/// MaxCmdSN before any event, as a number that doesn't wrap.
fn first_max(first: u32, window: u32) -> u64
    ensures value { result ≡ number_of_first first + window - 1 }
    ensures few { result < 2 ^ 63 }
{
    (1 << 32) + u64::from(first) + u64::from(window) - 1
}
