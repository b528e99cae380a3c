//! The options of a session, as C gives them.

ghost use Rattle.std.specs.Prelude.{◌≡◌, IfSome, map};
ghost use Rattle.iscsi_session.specs.promises.Settings.{setting_of};
ghost use Rattle.iscsi_host.specs.Plain.{plain_setting, connection_pair};

use iscsi_session::Options;
use std::alloc::Global;

/// The options of a session. The limits are those of `iscsi_session::Options`.
#[repr(C)]
#[derive(Clone, Copy, Debug, PartialEq, Eq)]
pub struct PlainOptions {
    /// The most events that the session takes: 1 to 2^48.
    pub events: u64,
    /// The first CmdSN.
    pub first_cmd_sn: u32,
    /// The size of the command window: 1 to 1024.
    pub window: u32,
    /// How many logical units there are: 1 to 256.
    pub units: u32,
    /// The most commands of a unit's task set: 1 to 1024.
    pub depth: u32,
    /// The protocol level: 1, or 2 for the queries of RFC 7144.
    pub level: u32,
}

/// A connection of a session: 1 to 64 of them, no CID twice.
#[repr(C)]
#[derive(Clone, Copy, Debug, PartialEq, Eq)]
pub struct PlainConnection {
    /// The StatSN of its first reply.
    pub first_stat_sn: u32,
    /// The CID.
    pub cid: u16,
}

/// The options with these connections. None where memory is refused.
pub(crate) fn options_of(
    alloc: Global,
    options: &PlainOptions,
    connections: &[PlainConnection],
) -> Option<Options>
    ensures { IfSome result (λ o. setting_of o ≡ plain_setting options.now connections.now) }
{
    Some(Options {
        first: options.first_cmd_sn,
        window: options.window,
        units: options.units,
        depth: options.depth,
        level: options.level,
        events: options.events,
        conns: pairs_of(alloc, connections)?,
    })
}

/// The CID and the first StatSN of each connection. None where memory is refused.
fn pairs_of(alloc: Global, connections: &[PlainConnection]) -> Option<Vec<(u16, u32)>>
    ensures { IfSome result (λ pairs. pairs.items ≡ map connection_pair connections.now) }
{
    let mut pairs = Vec::with_capacity(alloc, connections.len()).ok()?;
    for connection in connections {
        pairs.push_reserved((connection.cid, connection.first_stat_sn));
    }
    Some(pairs)
}
