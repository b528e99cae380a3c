//! Serial numbers: those that wrap, and those too far apart to be compared.

use iscsi_wire::{distance, serial_add, serial_lt};

#[test]
fn far_numbers_are_not_comparable(rt: HostRuntime) {
    for (a, b, less) in [
        (0, 1, true),
        (1, 0, false),
        (7, 7, false),
        (0xffff_ffff, 0, true),
        (0, 0xffff_ffff, false),
        (0, 0x7fff_ffff, true),
        (0, 0x8000_0000, false),
        (0x8000_0000, 0, false),
        (0, 0x8000_0001, false),
        (0x8000_0001, 0, true),
    ] {
        assert_eq!(rt; serial_lt(a, b), less, "{a} < {b}");
    }
}

#[test]
fn distances(rt: HostRuntime) {
    for (exp, w, away) in [
        (5, 5, 0),
        (0xffff_ffff, 0, 1),
        (0, 0xffff_ffff, -1),
        (0, 0x7fff_ffff, 2_147_483_647),
        (0, 0x8000_0000, -2_147_483_648),
        (0x8000_0000, 0, -2_147_483_648),
    ] {
        assert_eq!(rt; distance(exp, w), away, "from {exp} to {w}");
    }
}

#[test]
fn numbers_wrap(rt: HostRuntime) {
    assert_eq!(rt; serial_add(0xffff_fffe, 3), 1);
    assert_eq!(rt; serial_add(4, 3), 7);
}
