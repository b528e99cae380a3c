//! The options of a side, as C gives them.

ghost use Rattle.std.specs.Prelude.{◌≡◌, ◌==◌, ◌&&◌, ◌^◌, length, IfSome};
ghost use Rattle.std.specs.List.{list_all};
ghost use Rattle.iscsi_rules.specs.rules.Settings.{is_within};
ghost use Rattle.iscsi_outbox.specs.promises.Options.{are_distinct, is_known};
ghost use Rattle.iscsi_session.specs.promises.Settings.{setting_of};
ghost use Rattle.iscsi_ffi.specs.Options.{IsDeskOf, fits, is_plain, is_valid, setting_by};

use iscsi_ffi_desk::DeskOptions;
use iscsi_outbox::OutboxOptions;
use iscsi_session::Options;
use std::alloc::Global;

/// How many bytes the options have: those of another version have others.
const SIZE: u32 = 48;

const MOST_CONNECTIONS: usize = 64;

const MAX_WINDOW: u64 = 1024;

const MAX_UNITS: u64 = 256;

const MAX_DEPTH: u64 = 1024;

const MAX_LEVEL: u64 = 2;

const MAX_EVENTS: u64 = 1 << 48;

/// The most PDUs that may be kept of a connection, of either kind.
const MAX_KEPT: u64 = 1024;

/// The options of a side. The limits of the first six are those of `iscsi_session::Options`.
#[repr(C)]
#[derive(Clone, Copy, Debug, PartialEq, Eq)]
pub struct PlainOptions {
    /// The most events that the session takes: 1 to 2^48. 64 + window + 8 a connection of them are kept back for losses and
    /// completions.
    pub events: u64,
    /// How many bytes these options have.
    pub size: u32,
    /// The first CmdSN.
    pub first_cmd_sn: u32,
    /// The size of the command window: 1 to 1024.
    pub window: u32,
    /// How many logical units there are: 1 to 256.
    pub units: u32,
    /// The most commands of a unit's task set: 1 to 1024.
    pub depth: u32,
    /// The protocol level: 1, or 2 for the queries of RFC 7144.
    pub level: u32,
    /// The most PDUs of the target's own that wait on a connection: 1 to 1024.
    pub own: u32,
    /// The most PDUs of a connection that are handed out and aren't written: 1 to 1024.
    pub unwritten: u32,
    /// 1: what was written is under way until it is known to have arrived (RFC 7143 section 4.2.2.3.4); 0: it isn't.
    pub acknowledged: u8,
    /// 1: other sessions have the units, too; 0: they don't.
    pub shared: u8,
    /// Zeros.
    pub reserved: [u8; 6],
}

impl PlainOptions {
    /// Whether every option is within its limits, and no CID stands twice: what is looked at before anything is copied.
    #[tactic(auto, using(crate::proofs::OpenLemmas::valid_by))]
    pub(crate) fn are_valid(&self, cids: &[u16]) -> bool
        ensures { result ≡ is_valid self.now cids.now }
    {
        self.fit(cids.len()) && self.are_session_valid(cids) && self.are_kept_valid()
    }

    /// Whether those of the session are within their limits, and no CID stands twice.
    fn are_session_valid(&self, cids: &[u16]) -> bool
        ensures { result ≡ ((is_within self.now.window 1024 && is_within self.now.units 256 && is_within self.now.depth 1024 && is_within self.now.level 2) && is_within self.now.events (2 ^ 48) && is_within (length cids.now) 64 && are_distinct cids.now) }
    {
        self.are_sizes_valid()
            && is_within(self.events, MAX_EVENTS)
            && are_few(cids)
            && are_distinct(cids)
    }

    /// Whether what is kept of a connection is within its limits.
    fn are_kept_valid(&self) -> bool
        ensures { result ≡ (is_within self.now.own 1024 && is_within self.now.unwritten 1024) }
    {
        is_within(u64::from(self.own), MAX_KEPT) && is_within(u64::from(self.unwritten), MAX_KEPT)
    }

    /// Whether the sizes of the session are within their limits.
    fn are_sizes_valid(&self) -> bool
        ensures { result ≡ (is_within self.now.window 1024 && is_within self.now.units 256 && is_within self.now.depth 1024 && is_within self.now.level 2) }
    {
        is_within(u64::from(self.window), MAX_WINDOW)
            && is_within(u64::from(self.units), MAX_UNITS)
            && is_within(u64::from(self.depth), MAX_DEPTH)
            && is_within(u64::from(self.level), MAX_LEVEL)
    }

    /// Whether these are options of this version, and so many connections may be.
    fn fit(&self, conns: usize) -> bool
        ensures { result ≡ fits self.now conns }
    {
        self.is_plain() && 1 <= conns && conns <= MOST_CONNECTIONS
    }

    /// Whether these are options of this version, in which flags are 0 or 1 and what is kept free is 0.
    fn is_plain(&self) -> bool
        ensures { result ≡ is_plain self.now }
    {
        self.size == SIZE && self.acknowledged <= 1 && self.shared <= 1 && are_zero(&self.reserved)
    }

    /// The options of the session, whose connections have these CIDs. None where memory is refused.
    pub(crate) fn of_session(&self, alloc: Global, cids: &[u16]) -> Option<Options>
        ensures { IfSome result (λ o. setting_of o ≡ setting_by self.now cids.now) }
    {
        let mut conns = Vec::with_capacity(alloc, cids.len()).ok()?;
        for cid in cids {
            conns.push_reserved((*cid, 0));
        }
        Some(Options {
            first: self.first_cmd_sn,
            window: self.window,
            units: self.units,
            depth: self.depth,
            level: self.level,
            events: self.events,
            conns,
        })
    }

    /// Those of what is kept beside the session. None where memory is refused.
    pub(crate) fn of_desk(&self, alloc: Global, cids: &[u16]) -> Option<DeskOptions>
        ensures { IfSome result (λ o. IsDeskOf self.now cids.now o) }
    {
        Some(DeskOptions {
            outbox: OutboxOptions {
                first: self.first_cmd_sn,
                window: self.window,
                units: self.units,
                own: self.own,
                acknowledged: self.acknowledged == 1,
                shared: self.shared == 1,
                conns: Vec::from_slice(alloc, cids).ok()?,
            },
            unwritten: self.unwritten,
        })
    }
}

fn are_zero(bytes: &[u8]) -> bool
    ensures { result ≡ list_all (λ b. b == 0) bytes.now }
{
    bytes.iter().all(|byte| *byte == 0)
}

/// Whether the number is from 1 to `most`.
fn is_within(number: u64, most: u64) -> bool
    ensures { result ≡ is_within number most }
{
    1 <= number && number <= most
}

/// Whether one of the connections has this CID.
fn is_known(cid: u16, cids: &[u16]) -> bool
    ensures { result ≡ is_known cid cids.now }
{
    cids.iter().any(|other| *other == cid)
}

/// Whether there are from 1 to 64.
fn are_few(cids: &[u16]) -> bool
    ensures { result ≡ is_within (length cids.now) 64 }
{
    is_within(cids.len() as u64, MOST_CONNECTIONS as u64)
}

/// Whether none stands twice.
fn are_distinct(cids: &[u16]) -> bool
    ensures { result ≡ are_distinct cids.now }
{
    for (place, cid) in cids.iter().enumerate() {
        if is_known(*cid, &cids[place + 1..]) {
            return false;
        }
    }
    true
}
