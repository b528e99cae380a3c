//! The options of a session.

ghost use Rattle.std.specs.Prelude.{◌≡◌, IfOk};
ghost use Rattle.iscsi_session.specs.promises.Settings.{setting_of};
ghost use Rattle.iscsi_rules.specs.rules.Settings.{is_known as known_in, are_distinct as distinct_in, is_valid as valid_setting, are_sizes_valid as valid_sizes, is_within as within};

use std::alloc::{AllocError, Global};

/// The options of a session, with their limits.
#[derive(Debug, Drop)]
pub struct Options {
    /// The first CmdSN.
    pub first: u32,
    /// The size of the command window: 1 to 1024.
    pub window: u32,
    /// How many logical units there are, numbered from 0: 1 to 256.
    pub units: u32,
    /// The most commands of a unit's task set: 1 to 1024.
    pub depth: u32,
    /// The protocol level: 1, or 2 for the queries of RFC 7144.
    pub level: u32,
    /// The most events that the session takes: 1 to 2^48.
    pub events: u64,
    /// The CID and the first StatSN of each connection: 1 to 64 of them, no CID twice.
    pub conns: Vec<(u16, u32)>,
}

const MAX_WINDOW: u64 = 1024;

const MAX_UNITS: u64 = 256;

const MAX_DEPTH: u64 = 1024;

const MAX_LEVEL: u64 = 2;

const MAX_EVENTS: u64 = 1 << 48;

const MAX_CONNS: u64 = 64;

impl Options {
    /// Whether every option is within its limits, and no CID stands twice.
    pub fn is_valid(&self) -> bool
        ensures { result ≡ valid_setting (setting_of self.now) }
    {
        self.are_sizes_valid()
            && is_within(self.events, MAX_EVENTS)
            && is_within(self.conns.len() as u64, MAX_CONNS)
            && are_distinct(&self.conns)
    }

    /// A copy of the options, for a session beside this one or after it.
    pub fn copy(&self, alloc: Global) -> Result<Options, AllocError>
        ensures same { IfOk result (λ options. setting_of options ≡ setting_of self.now) }
    {
        Ok(Options {
            first: self.first,
            window: self.window,
            units: self.units,
            depth: self.depth,
            level: self.level,
            events: self.events,
            conns: self.conns.to_vec(alloc)?,
        })
    }

    fn are_sizes_valid(&self) -> bool
        ensures { result ≡ valid_sizes (setting_of self.now) }
    {
        is_within(u64::from(self.window), MAX_WINDOW)
            && is_within(u64::from(self.units), MAX_UNITS)
            && is_within(u64::from(self.depth), MAX_DEPTH)
            && is_within(u64::from(self.level), MAX_LEVEL)
    }
}

/// Whether the number is from 1 to `most`.
fn is_within(number: u64, most: u64) -> bool
    ensures { result ≡ within number most }
{
    1 <= number && number <= most
}

/// Whether one of the connections has this CID.
fn is_known(cid: u16, conns: &[(u16, u32)]) -> bool
    ensures { result ≡ known_in cid conns.now }
{
    conns.iter().any(|conn| conn.0 == cid)
}

fn are_distinct(conns: &[(u16, u32)]) -> bool
    ensures { result ≡ distinct_in conns.now }
{
    for (place, conn) in conns.iter().enumerate() {
        if is_known(conn.0, &conns[place + 1..]) {
            return false;
        }
    }
    true
}
