//! The frames of five serprog commands, byte by byte, and a transaction that is too long for a frame.

use crate::held::assert_that;
use nor_serprog::{Command, frame_len};

// The expected frames follow the table of commands in flashrom's Documentation/serprog-protocol.txt.
#[test]
fn frames_are_those_of_the_protocol(rt: HostRuntime) {
    let read_id = Command::Operate {
        out: &[0x9F],
        replies: 3,
    };
    let long_read = Command::Operate {
        out: &[0x03, 0x12, 0x34, 0x56],
        replies: 0x01_02_03,
    };
    let cases: [(Command<'_>, &[u8]); 6] = [
        (Command::SyncNop, &[0x10]),
        (Command::SelectChip(2), &[0x16, 0x02]),
        (Command::SetBuses(0x08), &[0x12, 0x08]),
        (
            Command::SetFrequency(12_000_000),
            &[0x14, 0x00, 0x1B, 0xB7, 0x00],
        ),
        (read_id, &[0x13, 1, 0, 0, 3, 0, 0, 0x9F]),
        (
            long_read,
            &[0x13, 4, 0, 0, 0x03, 0x02, 0x01, 0x03, 0x12, 0x34, 0x56],
        ),
    ];
    for (command, want) in cases {
        let frame = command.encode().unwrap();
        assert_that!(&rt; frame.as_slice() == want);
        assert_that!(&rt; frame_len(&frame) == Some(want.len()));
    }
    let page = [0; 261];
    let too_long = Command::Operate {
        out: &page,
        replies: 0,
    };
    assert_that!(&rt; too_long.encode().is_err());
}
