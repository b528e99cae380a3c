//! The logical unit that a LUN names (SAM-5 section 4.7).

ghost use Rattle.std.specs.Prelude.{◌≡◌, ◌==◌};
ghost use Rattle.std.specs.List.{list_all};
ghost use Rattle.iscsi_wire.specs.Fields.{unit_of as unit_named};

fn are_zero(bytes: &[u8]) -> bool
    ensures { result ≡ list_all (λ b. b == 0) bytes.now }
{
    bytes.iter().all(|b| *b == 0)
}

/// The number of the unit that the eight bytes name: one level, by peripheral device addressing on bus 0
/// or by flat space addressing. None for every other form.
pub fn unit_of(lun: &[u8; 8]) -> Option<u16>
    ensures { result ≡ unit_named lun.now }
{
    if !are_zero(&lun[2..]) {
        return None;
    }
    match lun[0] {
        0 => Some(u16::from(lun[1])),
        flat if flat / 64 == 1 => Some(u16::from(flat % 64) * 256 + u16::from(lun[1])),
        _ => None,
    }
}
