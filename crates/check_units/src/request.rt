//! The fields of requests.

use iscsi_wire::Request;

/// The opcode, and the fields of the second byte: ATTR, the function and the reason.
fn codes(request: &Request) -> [u8; 4] {
    [
        request.opcode(),
        request.attr(),
        request.function(),
        request.reason(),
    ]
}

/// The Initiator Task Tag, the Referenced Task Tag, the CmdSN and the RefCmdSN.
fn tags_and_numbers(request: &Request) -> [u32; 4] {
    [
        request.itt(),
        request.rtt(),
        request.cmd_sn(),
        request.ref_cmd_sn(),
    ]
}

#[test]
fn fields_of_a_command(rt: HostRuntime) {
    let mut header = [0u8; 48];
    header[0] = 0x01;
    header[1] = 0x81;
    header[19] = 0xa1;
    header[27] = 0x01;
    let request = Request::read(7, &header);
    assert_eq!(rt; [request.conn(), request.cid()], [7, 0]);
    assert_eq!(rt; request.immediate(), false);
    assert_eq!(rt; codes(&request), [1, 1, 1, 1]);
    assert_eq!(rt; tags_and_numbers(&request), [0xa1, 0, 1, 0]);
    assert_eq!(rt; request.bytes(), header);
    assert_eq!(rt; (request.lun(), request.cdb()), ([0; 8], [0; 16]));
}

#[test]
fn fields_of_distinct_bytes(rt: HostRuntime) {
    let header = [
        0xc2, 0xfe, 2, 3, 4, 5, 6, 7, 8, 9, 10, 11, 12, 13, 14, 15, 16, 17, 18, 19, 20, 21, 22, 23,
        24, 25, 26, 27, 28, 29, 30, 31, 32, 33, 34, 35, 36, 37, 38, 39, 40, 41, 42, 43, 44, 45, 46,
        47,
    ];
    let request = Request::read(65535, &header);
    assert_eq!(rt; [request.conn(), request.cid()], [65535, 0x1415]);
    assert_eq!(rt; request.immediate(), true);
    assert_eq!(rt; codes(&request), [2, 6, 0x7e, 0x7e]);
    let words = [0x1011_1213, 0x1415_1617, 0x1819_1a1b, 0x2021_2223];
    assert_eq!(rt; tags_and_numbers(&request), words);
    let lun = [8, 9, 10, 11, 12, 13, 14, 15];
    let cdb = [
        32, 33, 34, 35, 36, 37, 38, 39, 40, 41, 42, 43, 44, 45, 46, 47,
    ];
    assert_eq!(rt; (request.lun(), request.cdb()), (lun, cdb));
}
