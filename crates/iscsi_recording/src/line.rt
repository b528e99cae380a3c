//! What one line of a recording says.

use iscsi_rules::Event;

/// What one line of a recording says.
#[derive(Clone, Copy)]
pub enum Line {
    /// An empty line, a note or an effect.
    Passed,
    /// A connection and its first StatSN.
    Conn { cid: u16, stat_sn: u32 },
    /// An arrival or a completion.
    Event(Event),
}
