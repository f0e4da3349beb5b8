//! The lines of a message.

use crate::command::Command;
use crate::tests::messages::{CODED_DONE, EMPTY_DONE, ERROR, NOOP, OVERRUN, PING, PONG, REQUEST};
use crate::tests::outcomes::come_to;
use crate::tests::refusals::SHORT_DONE;
use std::test::Fail;

const ACKNOWLEDGEMENT: [u8; 20] = [
    0x14, 0, 0, 0, 2, 0, 0, 0, 0, 0, 0, 0, 0, 0, 0, 0, 0, 0, 0, 0,
];

/// Each frame with its lines.
const SHOWN: [(&[u8], &str); 9] = [
    (
        &PING,
        "length 20\ntype 18\nflags 0\nsequence 0\nport 0\npayload ping 00010203\n",
    ),
    (
        &REQUEST,
        "length 40\ntype 18\nflags 769\nsequence 1526271540\nport 0\npayload ping 1100000000000000000000000000000008001d0001000000\n",
    ),
    (
        &PONG,
        "length 20\ntype 20\nflags 0\nsequence 0\nport 0\npayload pong 00010203\n",
    ),
    (
        &EMPTY_DONE,
        "length 16\ntype 3\nflags 0\nsequence 0\nport 0\npayload done 0 -\n",
    ),
    (
        &CODED_DONE,
        "length 23\ntype 3\nflags 0\nsequence 0\nport 0\npayload done 5 010203\n",
    ),
    (
        &ERROR,
        "length 20\ntype 2\nflags 0\nsequence 0\nport 0\npayload error -8765 -\n",
    ),
    (
        &ACKNOWLEDGEMENT,
        "length 20\ntype 2\nflags 0\nsequence 0\nport 0\npayload error 0 -\n",
    ),
    (
        &NOOP,
        "length 24\ntype 1\nflags 0\nsequence 0\nport 0\npayload noop\n",
    ),
    (
        &OVERRUN,
        "length 19\ntype 4\nflags 0\nsequence 0\nport 0\npayload overrun 070809\n",
    ),
];

#[test]
fn each_kind_of_message(rt: HostRuntime) -> Result<(), Fail> {
    for (frame, lines) in SHOWN {
        come_to(
            &rt,
            rt.alloc(),
            &[(Command::Show, frame, lines.as_bytes(), 0, "")],
        )?;
    }
    Ok(())
}

/// The body of the done message has 3 bytes.
#[test]
fn a_refused_message_shows_nothing(rt: HostRuntime) -> Result<(), Fail> {
    let text =
        "failed to parse NLMSG_DONE caused by invalid DoneBuffer length caused by invalid DoneBuffer: length is 3 but DoneBuffer are at least 4 bytes";
    come_to(
        &rt,
        rt.alloc(),
        &[(Command::Show, &SHORT_DONE, &[], 12, text)],
    )
}
