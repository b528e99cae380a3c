//! The bytes of replies.

use iscsi_wire::{Pdu, Reply, Sense};
use std::process::Abort;

/// The PDU of a reply in words of four bytes, big-endian: the header's, and the tail's.
fn check_words(rt: &impl Abort, pdu: &Pdu, words: &[u32]) {
    let bytes = pdu.header().iter().chain(pdu.tail());
    let expected = words.iter().flat_map(|word| word.to_be_bytes());
    assert!(rt; bytes.copied().eq(expected));
}

#[test]
fn response_to_a_command(rt: HostRuntime) {
    let reply = Reply::Scsi {
        itt: 0xa1,
        status: 0,
        sense: None,
    };
    let words = [0x2180_0000, 0, 0, 0, 0xa1, 0, 1, 2, 0x21, 0, 0, 0];
    check_words(&rt, &reply.encode(1, 2, 0x21), &words);
}

#[test]
fn response_with_sense(rt: HostRuntime) {
    let reply = Reply::Scsi {
        itt: 0xa3,
        status: 2,
        sense: Some(Sense {
            key: 5,
            asc: 0x25,
            ascq: 0,
        }),
    };
    let words = [
        0x2180_0002,
        0x14,
        0,
        0,
        0xa3,
        0,
        2,
        4,
        0x22,
        0,
        0,
        0,
        0x0012_7000,
        0x0500_0000,
        0x000a_0000,
        0x0000_2500,
        0,
    ];
    check_words(&rt, &reply.encode(2, 4, 0x22), &words);
}

#[test]
fn other_replies(rt: HostRuntime) {
    let task = Reply::Task {
        itt: 0xffff_fffe,
        response: 255,
    };
    let words = [
        0x2280_ff00,
        0,
        0,
        0,
        0xffff_fffe,
        0,
        0xffff_ffff,
        0,
        0x1f,
        0,
        0,
        0,
    ];
    check_words(&rt, &task.encode(0xffff_ffff, 0, 0x1f), &words);

    let logout = Reply::Logout {
        itt: 0x0102_0304,
        response: 2,
    };
    let words = [
        0x2680_0200,
        0,
        0,
        0,
        0x0102_0304,
        0,
        0x0506_0708,
        0x090a_0b0c,
        0x0d0e_0f10,
        0,
        0,
        0,
    ];
    check_words(
        &rt,
        &logout.encode(0x0506_0708, 0x090a_0b0c, 0x0d0e_0f10),
        &words,
    );

    let nop = Reply::Nop { itt: 0xb1 };
    let words = [0x2080_0000, 0, 0, 0, 0xb1, 0xffff_ffff, 1, 2, 3, 0, 0, 0];
    check_words(&rt, &nop.encode(1, 2, 3), &words);
}

#[test]
fn reject_shows_the_header(rt: HostRuntime) {
    let mut header = [0; 48];
    header[0] = 0x1c;
    header[47] = 0xee;
    let reject = Reply::Reject { reason: 5, header };
    let words = [
        0x3f80_0500,
        0x30,
        0,
        0,
        0xffff_ffff,
        0,
        9,
        10,
        11,
        0,
        0,
        0,
        0x1c00_0000,
        0,
        0,
        0,
        0,
        0,
        0,
        0,
        0,
        0,
        0,
        0xee,
    ];
    check_words(&rt, &reject.encode(9, 10, 11), &words);
}
