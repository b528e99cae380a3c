//! Numbers of StatSNs and transfer tags.

ghost use Rattle.std.specs.Prelude.{◌≡◌, ◌+◌, ◌-◌, ◌<◌, ◌≤◌, ◌^◌, if◌then◌else◌};
ghost use Rattle.iscsi_arrivals.specs.Counts.{number_heard, tag_of_ping};

/// Half of the numbers of 32 bits: as far behind, a number says nothing.
const HALF: u32 = 0x7fff_ffff;

/// The first transfer tag of pings.
const FIRST_TAG: u32 = 0x8000_0000;

/// How many transfer tags pings have.
const TAGS: u64 = 0x7fff_ffff;

/// The next StatSN behind a PDU.
#[inline(always)]
pub(crate) fn next_behind(next: u64, takes: bool) -> u64
    requires { next < 2 ^ 64 - 1 }
    ensures { result ≡ (if takes then next + 1 else next) }
{
    if takes { next + 1 } else { next }
}

/// How many stand up to the last PDU that took a StatSN, with one more.
#[inline(always)]
pub(crate) fn taken_behind(taken: u64, handed: u64, takes: bool) -> u64
    requires { handed < 2 ^ 63 }
    ensures { result ≡ (if takes then handed + 1 else taken) }
{
    if takes { handed + 1 } else { taken }
}

/// The transfer tag of a ping, so many pings being handed out before it.
#[inline(always)]
pub(crate) fn tag_of_ping(before: u64) -> u32
    ensures { result ≡ tag_of_ping before }
{
    FIRST_TAG + (before % TAGS) as u32
}

/// The StatSN that an ExpStatSN stands for, and 0 where it says nothing: above the next one, or half of the numbers behind
/// it.
#[inline(always)]
pub(crate) fn number_heard(next: u64, exp_stat_sn: u32) -> u64
    requires { 2 ^ 32 ≤ next }
    ensures { result ≡ number_heard next exp_stat_sn }
{
    let behind = ((next % (1 << 32)) as u32).wrapping_sub(exp_stat_sn);
    if behind < HALF {
        next - u64::from(behind)
    } else {
        0
    }
}
