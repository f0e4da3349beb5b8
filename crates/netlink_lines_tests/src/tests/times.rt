//! Times as `rtmon` writes them (iproute2's libnetlink.h and rtmon.c), and the lines after them.

use crate::tests::lines::{ADDRESS, LINE};
use crate::tests::shown::{assert_run, joined, joined_text};
use netlink_lines::Fault;
use std::test::Fail;

/// 1,700,000,000 seconds and 42 microseconds; with the flag NLM_F_DUMP_INTR, which has no effect.
const FIRST: [u8; 24] = [
    24, 0, 0, 0, 15, 0, 0x10, 0, 0, 0, 0, 0, 0, 0, 0, 0, // length 24, NLMSG_TSTAMP
    0x00, 0xf1, 0x53, 0x65, 42, 0, 0, 0, //
];

/// 1 second and 999,999 microseconds.
const SECOND: [u8; 24] = [
    24, 0, 0, 0, 15, 0, 0, 0, 0, 0, 0, 0, 0, 0, 0, 0, // length 24, NLMSG_TSTAMP
    1, 0, 0, 0, 0x3f, 0x42, 0x0f, 0, //
];

/// 2^32 - 1 seconds and as many microseconds.
const LAST: [u8; 24] = [
    24, 0, 0, 0, 15, 0, 0, 0, 0, 0, 0, 0, 0, 0, 0, 0, // length 24, NLMSG_TSTAMP
    0xff, 0xff, 0xff, 0xff, 0xff, 0xff, 0xff, 0xff, //
];

/// A time of 4 bytes and one of 12.
const SHORT: [u8; 20] = [
    20, 0, 0, 0, 15, 0, 0, 0, 0, 0, 0, 0, 0, 0, 0, 0, 1, 0, 0, 0, //
];

const LONG: [u8; 28] = [
    28, 0, 0, 0, 15, 0, 0, 0, 0, 0, 0, 0, 0, 0, 0, 0, 1, 0, 0, 0, 2, 0, 0, 0, 0, 0, 0, 0, //
];

/// A noop of an interrupted dump.
const NOOP: [u8; 16] = [16, 0, 0, 0, 1, 0, 0x10, 0, 0, 0, 0, 0, 0, 0, 0, 0];

/// Messages, and the lines that all of them have.
const ROWS: [(&[&[u8]], &[&str]); 5] = [
    (
        &[&FIRST, &ADDRESS, &ADDRESS],
        &["[1700000000.000042] ", LINE, LINE],
    ),
    (&[&FIRST, &SECOND, &ADDRESS], &["[1.999999] ", LINE]),
    (
        &[&LAST, &ADDRESS, &FIRST],
        &["[4294967295.4294967295] ", LINE],
    ),
    (
        &[&ADDRESS, &SECOND, &NOOP, &ADDRESS],
        &[LINE, "[1.999999] interrupted\nnoop\n", LINE],
    ),
    (&[&FIRST, &SECOND], &[]),
];

/// A time precedes the first line of the next message alone. Of two times, the later one counts, and
/// at the end of the input a time has no effect.
#[test]
fn a_time_precedes_the_next_line(rt: HostRuntime) -> Result<(), Fail> {
    let alloc = rt.alloc();
    for (messages, lines) in ROWS {
        let input = joined(alloc, messages)?;
        let wanted = joined_text(alloc, lines)?;
        assert_run(&rt, alloc, &input, &wanted, Ok(()));
    }
    Ok(())
}

/// A message of the type of a time with another size is malformed. Its line, too, follows a time.
#[test]
fn a_time_has_8_bytes(rt: HostRuntime) -> Result<(), Fail> {
    let input = joined(rt.alloc(), &[&SHORT, &SECOND, &LONG, &NOOP])?;
    let wanted =
        "byte 0: Failed to parse message with type 15: the payload has 4 bytes instead of 8\n[1.999999] byte 44: Failed to parse message with type 15: the payload has 12 bytes instead of 8\ninterrupted\nnoop\n";
    assert_run(&rt, rt.alloc(), &input, wanted, Err(Fault::Malformed));
    Ok(())
}
