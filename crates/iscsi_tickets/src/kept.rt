//! What is kept of a value that entered.

ghost use Rattle.std.specs.Prelude.{◌≡◌, ◌<◌, length};
ghost use Rattle.iscsi_tickets.specs.Tickets.{kept_at};

/// A value that entered with its ticket, and whether it is there still.
#[derive(Clone, Copy)]
pub(crate) struct Kept {
    pub(crate) ticket: u64,
    pub(crate) value: u32,
    pub(crate) is_live: bool,
}

/// What is kept at a place of the log.
#[inline(always)]
pub(crate) fn kept_at(log: &[Kept], k: usize) -> &Kept
    requires { k < length log.now }
    ensures { result.now ≡ kept_at log.now k }
{
    &log[k]
}
