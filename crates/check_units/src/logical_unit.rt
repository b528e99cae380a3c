//! The units that LUNs name.

use iscsi_wire::unit_of;

#[test]
fn forms_of_a_lun(rt: HostRuntime) {
    for (lun, unit) in [
        ([0, 0, 0, 0, 0, 0, 0, 0], Some(0)),
        ([0, 255, 0, 0, 0, 0, 0, 0], Some(255)),
        ([0x40, 0, 0, 0, 0, 0, 0, 0], Some(0)),
        ([0x41, 2, 0, 0, 0, 0, 0, 0], Some(258)),
        ([0x7f, 0xff, 0, 0, 0, 0, 0, 0], Some(16383)),
        // Another bus, logical unit addressing, and the extended forms.
        ([1, 0, 0, 0, 0, 0, 0, 0], None),
        ([0x80, 1, 0, 0, 0, 0, 0, 0], None),
        ([0xc0, 1, 0, 0, 0, 0, 0, 0], None),
        // A second level.
        ([0, 1, 1, 0, 0, 0, 0, 0], None),
        ([0x40, 1, 0, 0, 0, 0, 0, 1], None),
    ] {
        assert_eq!(rt; unit_of(&lun), unit, "of {lun:?}");
    }
}
