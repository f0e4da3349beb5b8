//! Messages that a table rejects, and which the kernel sends or accepts.

use crate::tests::shown::{joined, shown};
use std::alloc::{AllocError, Global};
use std::test::Fail;

/// An address, a route and a neighbour of MCTP (family 45, net/mctp of the kernel), whose addresses
/// have one byte, and a neighbour without an address.
const ADDRESS: [u8; 16] = [
    45, 0, 0, 0, 4, 0, 0, 0, // AF_MCTP, index 4
    5, 0, 2, 0, 8, 0, 0, 0, // IFA_LOCAL
];

const ROUTE: [u8; 20] = [
    45, 0, 0, 0, 253, 0, 0, 1, 0, 0, 0, 0, // AF_MCTP, RT_TABLE_DEFAULT, RTN_UNICAST
    5, 0, 1, 0, 9, 0, 0, 0, // RTA_DST
];

const NEIGHBOUR: [u8; 28] = [
    45, 0, 0, 0, 4, 0, 0, 0, 0, 0, 0, 0, // AF_MCTP, index 4
    5, 0, 1, 0, 9, 0, 0, 0, // NDA_DST
    5, 0, 2, 0, 0x1d, 0, 0, 0, // NDA_LLADDR
];

const NOBODY: [u8; 12] = [45, 0, 0, 0, 4, 0, 0, 0, 0, 0, 0, 0];

/// The same neighbour of IPv4 and the same address of IPv6, for which one byte is wrong.
const SHORT_4: [u8; 20] = [2, 0, 0, 0, 4, 0, 0, 0, 0, 0, 0, 0, 5, 0, 1, 0, 9, 0, 0, 0];

const SHORT_6: [u8; 16] = [10, 0, 0, 0, 4, 0, 0, 0, 5, 0, 2, 0, 8, 0, 0, 0];

/// A rule of MCTP, whose mark has one byte.
const RULE: [u8; 20] = [45, 0, 0, 0, 0, 0, 0, 1, 0, 0, 0, 0, 5, 0, 10, 0, 9, 0, 0, 0];

/// What iproute2 before 5.0 sends in place of each header to request a dump: a `struct ifinfomsg` and
/// IFLA_EXT_MASK.
const OLD: [u8; 24] = [
    2, 0, 0, 0, 0, 0, 0, 0, 0, 0, 0, 0, 0, 0, 0, 0, // AF_INET
    8, 0, 29, 0, 1, 0, 0, 0, // RTEXT_FILTER_VF
];

/// Messages as type, the two bytes of the flags, and payload, and the line of each. The flag 1 is
/// NLM_F_REQUEST, and 0x300 is NLM_F_DUMP.
const MESSAGES: [(u8, [u8; 2], &[u8], &str); 26] = [
    (18, [1, 3], &OLD, "Get 0: if0: <> link/netrom\n"),
    (18, [1, 1], &[0; 5], "type 18, 21 bytes\n"),
    (18, [1, 2], &[], "type 18, 16 bytes\n"),
    (22, [1, 3], &OLD, "type 22, 40 bytes\n"),
    (26, [1, 3], &OLD, "type 26, 40 bytes\n"),
    (30, [1, 3], &OLD, "type 30, 40 bytes\n"),
    (34, [1, 3], &OLD, "type 34, 40 bytes\n"),
    (66, [5, 3], &OLD, "type 66, 40 bytes\n"),
    (90, [1, 3], &OLD, "type 90, 40 bytes\n"),
    (90, [1, 0], &[0], "Get nsid\n"),
    (90, [1, 0], &[0; 3], "Get nsid\n"),
    (
        22,
        [1, 0],
        &OLD,
        "byte 0: Failed to parse message with type 22: at byte 8, in policy 0: an attribute has length 0, less than 4\n",
    ),
    (
        26,
        [0, 3],
        &OLD,
        "byte 0: Failed to parse message with type 26: at byte 12, in policy 0: an attribute has length 0, less than 4\n",
    ),
    (
        20,
        [1, 3],
        &OLD,
        "byte 0: Failed to parse message with type 20: at byte 8, in policy 0: an attribute has length 0, less than 4\n",
    ),
    (20, [0, 0], &ADDRESS, "type 20, 32 bytes\n"),
    (21, [0, 0], &ADDRESS, "type 21, 32 bytes\n"),
    (22, [1, 0], &ADDRESS, "type 22, 32 bytes\n"),
    (24, [0, 0], &ROUTE, "type 24, 36 bytes\n"),
    (25, [5, 0], &ROUTE, "type 25, 36 bytes\n"),
    (28, [0, 0], &NEIGHBOUR, "type 28, 44 bytes\n"),
    (29, [0, 0], &NEIGHBOUR, "type 29, 44 bytes\n"),
    (28, [0, 0], &NOBODY, "dev if4\n"),
    (
        28,
        [0, 0],
        &SHORT_4,
        "byte 0: Failed to parse message with type 28: at byte 12, in policy 0: attribute 1 has an address of 1 bytes instead of 4 or 16\n",
    ),
    (
        20,
        [0, 0],
        &SHORT_6,
        "byte 0: Failed to parse message with type 20: at byte 8, in policy 0: attribute 2 has an address of 1 bytes instead of 4 or 16\n",
    ),
    (
        32,
        [0, 0],
        &RULE,
        "byte 0: Failed to parse message with type 32: at byte 12, in policy 0: attribute 10 has a value of 1 bytes instead of 4\n",
    ),
    (
        24,
        [0, 0],
        &[],
        "byte 0: Failed to parse message with type 24: the payload has 0 bytes, fewer than its header of 12\n",
    ),
];

/// Returns whether a message has this line, and whether the run ends with an error if it is one.
fn has_line(
    alloc: Global,
    kind: u8,
    flags: [u8; 2],
    payload: &[u8],
    line: &str,
) -> Result<bool, AllocError> {
    let size = u8::try_from(payload.len()).unwrap_or(0).wrapping_add(16);
    let header = [
        size, 0, 0, 0, kind, 0, flags[0], flags[1], 0, 0, 0, 0, 0, 0, 0, 0,
    ];
    let (output, ended) = shown(alloc, &joined(alloc, &[&header, payload])?);
    Ok(output.as_slice() == line.as_bytes() && ended.is_err() == line.starts_with("byte"))
}

/// Requests for a dump, and messages of other address families, have the line of their type. Other
/// rejected messages have their error.
#[test]
fn rejected_messages_have_a_line(rt: HostRuntime) -> Result<(), Fail> {
    for (kind, flags, payload, line) in MESSAGES {
        assert!(rt; has_line(rt.alloc(), kind, flags, payload, line)?, "{line}");
    }
    Ok(())
}
