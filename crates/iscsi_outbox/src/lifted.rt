//! Numbers by what the wire shows of them.

ghost use Rattle.std.specs.Prelude.{◌≡◌, ◌<◌, ◌^◌};
ghost use Rattle.iscsi_wire.specs.Serial.{lift};

/// Half of the numbers of 32 bits.
const HALF: u64 = 1 << 31;

/// The number nearest to another one that the wire shows so.
#[inline(always)]
pub(crate) fn lifted(near: u64, shown: u32) -> u64
    requires { near < 2 ^ 63 }
    ensures { result ≡ lift near shown }
{
    let base = near.saturating_sub(HALF);
    base + u64::from(shown.wrapping_sub((base % (1 << 32)) as u32))
}
