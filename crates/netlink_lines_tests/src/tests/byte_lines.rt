//! The bytes of messages after their lines.

use crate::tests::shown::{joined, joined_text, shown_with};
use netlink_lines::{Fault, Options};
use std::alloc::Global;
use std::process::Abort;
use std::test::Fail;

const BYTES: Options = Options {
    labels: false,
    times: false,
    bytes: true,
    json: false,
};

/// A link without a name, whose MTU has two bytes.
const WRONG_MTU: [u8; 40] = [
    40, 0, 0, 0, 16, 0, 0, 0, 1, 0, 0, 0, 2, 0, 0, 0, // RTM_NEWLINK
    0, 0, 0, 0, 7, 0, 0, 0, 0, 0, 0, 0, 0, 0, 0, 0, // the link 7
    6, 0, 4, 0, 1, 2, 0, 0, // IFLA_MTU
];

/// The lines of its header and of the fields after it.
const LINK_FIELDS: &str = "  0  28 00 00 00  nlmsg_len: 40
  4  10 00  nlmsg_type: 16
  6  00 00  nlmsg_flags: 0
  8  01 00 00 00  nlmsg_seq: 1
  12  02 00 00 00  nlmsg_pid: 2
  16  00  ifi_family: 0
  17  00
  18  00 00  ifi_type: 0
  20  07 00 00 00  ifi_index: 7
  24  00 00 00 00  ifi_flags: 0
  28  00 00 00 00  ifi_change: 0
";

/// A refusal with the header of its request and the offset of the attribute concerned.
const REFUSED: [u8; 44] = [
    44, 0, 0, 0, 2, 0, 0, 3, 1, 0, 0, 0, 0, 0, 0, 0, // NLMSG_ERROR, capped, with attributes
    234, 255, 255, 255, // EINVAL
    52, 0, 0, 0, 16, 0, 5, 0, 1, 0, 0, 0, 0, 0, 0, 0, // the header of the request
    8, 0, 2, 0, 52, 0, 0, 0, // NLMSGERR_ATTR_OFFS
];

const REFUSED_LINES: &str = "error -22 (Invalid argument); byte 52
  0  2c 00 00 00  nlmsg_len: 44
  4  02 00  nlmsg_type: 2
  6  00 03  nlmsg_flags: 768
  8  01 00 00 00  nlmsg_seq: 1
  12  00 00 00 00  nlmsg_pid: 0
  16  ea ff ff ff  error: -22
  20  34 00 00 00  msg.nlmsg_len: 52
  24  10 00  msg.nlmsg_type: 16
  26  05 00  msg.nlmsg_flags: 5
  28  01 00 00 00  msg.nlmsg_seq: 1
  32  00 00 00 00  msg.nlmsg_pid: 0
  36  08 00 02 00 34 00 00 00  NLMSGERR_ATTR_OFFS: 52
";

/// A done message with its code, and one of a type that no table has, after a time.
const OTHERS: [u8; 64] = [
    20, 0, 0, 0, 3, 0, 0, 0, 0, 0, 0, 0, 0, 0, 0, 0, 0, 0, 0, 0, // NLMSG_DONE
    24, 0, 0, 0, 15, 0, 0, 0, 0, 0, 0, 0, 0, 0, 0, 0, 1, 0, 0, 0, 2, 0, 0, 0, // a time
    18, 0, 0, 0, 56, 0, 0, 0, 0, 0, 0, 0, 0, 0, 0, 0, 1, 2, 0, 0, // 56
];

const OTHER_LINES: &str = "done
  0  14 00 00 00  nlmsg_len: 20
  4  03 00  nlmsg_type: 3
  6  00 00  nlmsg_flags: 0
  8  00 00 00 00  nlmsg_seq: 0
  12  00 00 00 00  nlmsg_pid: 0
  16  00 00 00 00  error: 0
[1.000002] type 56, 18 bytes
  0  12 00 00 00  nlmsg_len: 18
  4  38 00  nlmsg_type: 56
  6  00 00  nlmsg_flags: 0
  8  00 00 00 00  nlmsg_seq: 0
  12  00 00 00 00  nlmsg_pid: 0
  16  01 02
";

/// Asserts that these bytes have these lines, those of their bytes among them.
fn assert_bytes(
    rt: &impl Abort,
    alloc: Global,
    input: &[u8],
    lines: &str,
    expected: Result<(), Fault>,
) {
    let (output, ended) = shown_with(alloc, BYTES, input);
    assert!(rt; ended == expected);
    assert_eq!(rt; output.as_slice(), lines.as_bytes());
}

#[test]
fn the_byte_of_an_error_is_marked(rt: HostRuntime) -> Result<(), Fail> {
    let why =
        "byte 0: Failed to parse message with type 16: at byte 16, in policy 0: attribute 4 has a value of 2 bytes instead of 4\n";
    let marked = "! 32  06 00 04 00 01 02 00 00  IFLA_MTU: 0102\n";
    let lines = joined_text(rt.alloc(), &[why, LINK_FIELDS, marked])?;
    let malformed = Err(Fault::Malformed);
    assert_bytes(&rt, rt.alloc(), &WRONG_MTU, lines.as_str(), malformed);
    Ok(())
}

#[test]
fn what_no_table_has_is_shown(rt: HostRuntime) -> Result<(), Fail> {
    assert_bytes(&rt, rt.alloc(), &REFUSED, REFUSED_LINES, Ok(()));
    let input = joined(rt.alloc(), &[&OTHERS, &REFUSED])?;
    let lines = joined_text(rt.alloc(), &[OTHER_LINES, REFUSED_LINES])?;
    assert_bytes(&rt, rt.alloc(), input.as_slice(), lines.as_str(), Ok(()));
    Ok(())
}
