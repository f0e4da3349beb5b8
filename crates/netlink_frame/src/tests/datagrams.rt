//! The command for datagrams.

use crate::command::Command;
use crate::frames::frames_fault;
use crate::tests::outcomes::{Row, come_to};
use std::test::Fail;

/// A frame of 20 bytes, and one of 17 with its padding.
pub const DATAGRAM: [u8; 40] = [
    20, 0, 0, 0, 18, 0, 0, 0, 0, 0, 0, 0, 0, 0, 0, 0, 0, 1, 2, 3, //
    17, 0, 0, 0, 4, 0, 0, 0, 0, 0, 0, 0, 0, 0, 0, 0, 0xff, 0, 0, 0,
];

#[test]
fn lines_of_frames(rt: HostRuntime) -> Result<(), Fail> {
    let rows: [Row<'_>; 3] = [
        (Command::Frames, &DATAGRAM[..37], b"20 18\n17 4\n", 0, ""),
        (Command::Frames, &DATAGRAM, b"20 18\n17 4\n", 0, ""),
        (Command::Frames, &[], &[], 0, ""),
    ];
    assert!(rt; frames_fault(&DATAGRAM[..37]).is_none());
    come_to(&rt, rt.alloc(), &rows)
}

/// Four bytes follow the first 37. Three of them are padding, so one is left.
#[test]
fn lines_of_frames_up_to_a_fault(rt: HostRuntime) -> Result<(), Fail> {
    let mut datagram = DATAGRAM[..37].to_vec(rt.alloc())?;
    datagram.extend_from_slice(&[0, 0, 0, 1])?;
    let text =
        "invalid netlink buffer length caused by invalid netlink buffer: length is 1 but netlink packets are at least 16 bytes";
    come_to(
        &rt,
        rt.alloc(),
        &[(Command::Frames, &datagram, b"20 18\n17 4\n", 9, text)],
    )
}
