//! Requests, made by hand after linux/netlink.h and linux/rtnetlink.h, among what the kernel tells.

use crate::tests::shown::{assert_run, joined, shown_with};
use netlink_lines::{Fault, Options};
use std::alloc::{AllocError, Global};
use std::test::Fail;

/// Link 3 of Ethernet: named "lan0", named "wan0", and without a name.
const LAN: [u8; 28] = [
    0, 0, 1, 0, 3, 0, 0, 0, 0, 0, 0, 0, 0, 0, 0, 0, // ARPHRD_ETHER, index 3
    9, 0, 3, 0, b'l', b'a', b'n', b'0', 0, 0, 0, 0, // IFLA_IFNAME
];

const WAN: [u8; 28] = [
    0, 0, 1, 0, 3, 0, 0, 0, 0, 0, 0, 0, 0, 0, 0, 0, // ARPHRD_ETHER, index 3
    9, 0, 3, 0, b'w', b'a', b'n', b'0', 0, 0, 0, 0, // IFLA_IFNAME
];

const BARE: [u8; 16] = [0, 0, 1, 0, 3, 0, 0, 0, 0, 0, 0, 0, 0, 0, 0, 0];

/// The error -16 (EBUSY) and the header of its request.
const BUSY: [u8; 20] = [
    0xf0, 0xff, 0xff, 0xff, 44, 0, 0, 0, 16, 0, 5, 0, 0, 0, 0, 0, 0, 0, 0, 0,
];

/// A neighbour on link 3, stale and without an address, and one with nothing.
const STALE: [u8; 12] = [2, 0, 0, 0, 3, 0, 0, 0, 4, 0, 0, 1];

const NOBODY: [u8; 12] = [0; 12];

/// The address 10.0.0.1/24 of link 3.
const ADDRESS: [u8; 16] = [2, 24, 0, 0, 3, 0, 0, 0, 8, 0, 2, 0, 10, 0, 0, 1];

/// The route to 10.0.0.0/8.
const ROUTE: [u8; 20] = [
    2, 8, 0, 0, 254, 3, 0, 1, 0, 0, 0, 0, // AF_INET, RT_TABLE_MAIN, RTPROT_BOOT, RTN_UNICAST
    8, 0, 1, 0, 10, 0, 0, 0, // RTA_DST
];

/// A route of multicast routing from 10.1.0.9 to 239.1.1.1.
const GROUP: [u8; 28] = [
    128, 32, 32, 0, 0, 17, 0, 5, 0, 0, 0, 0, // RTNL_FAMILY_IPMR, RTPROT_MROUTED, RTN_MULTICAST
    8, 0, 2, 0, 10, 1, 0, 9, // RTA_SRC
    8, 0, 1, 0, 239, 1, 1, 1, // RTA_DST
];

/// A rule for the table `main`, the neighbour table "arp", and the id 5 of a namespace.
const RULE: [u8; 12] = [2, 0, 0, 0, 254, 0, 0, 1, 0, 0, 0, 0];

const TABLE: [u8; 12] = [2, 0, 0, 0, 8, 0, 1, 0, b'a', b'r', b'p', 0];

const ID: [u8; 12] = [0, 0, 0, 0, 8, 0, 1, 0, 5, 0, 0, 0];

/// The id of the namespace of the process 100.
const OF_PROCESS: [u8; 12] = [0, 0, 0, 0, 8, 0, 2, 0, 100, 0, 0, 0];

/// The id 1 for the namespace of the file 4, as a request with all that one may have.
const OF_FILE: [u8; 36] = [
    0, 0, 0, 0, // AF_UNSPEC
    8, 0, 5, 0, 7, 0, 0, 0, // NETNSA_CURRENT_NSID
    8, 0, 4, 0, 255, 255, 255, 255, // NETNSA_TARGET_NSID
    8, 0, 3, 0, 4, 0, 0, 0, // NETNSA_FD
    8, 0, 1, 0, 1, 0, 0, 0, // NETNSA_NSID
];

/// One second and two microseconds.
const TIME: [u8; 8] = [1, 0, 0, 0, 2, 0, 0, 0];

/// Messages as type, flags and payload, and the label and the line of each. The flag 1 is
/// NLM_F_REQUEST. The time also has what precedes the label of the next message, which is of an
/// interrupted dump.
const MESSAGES: [(u8, u8, &[u8], &str, &str); 44] = [
    (
        16,
        5,
        &NOBODY,
        "",
        "byte 0: Failed to parse message with type 16: the payload has 12 bytes, fewer than its header of 16\n",
    ),
    (16, 0, &LAN, "[LINK]", "3: lan0: <> link/ether\n"),
    (16, 5, &WAN, "[LINK]", "request 3: wan0: <> link/ether\n"),
    (2, 0, &BUSY, "", "error -16 (Device or resource busy)\n"),
    (28, 0, &STALE, "[NEIGH]", "dev lan0 STALE\n"),
    (
        17,
        5,
        &BARE,
        "[LINK]",
        "request delete 3: if3: <> link/ether\n",
    ),
    (2, 0, &BUSY, "", "error -16 (Device or resource busy)\n"),
    (28, 0, &STALE, "[NEIGH]", "dev lan0 STALE\n"),
    (
        19,
        5,
        &WAN,
        "[LINK]",
        "request Set 3: wan0: <> link/ether\n",
    ),
    (18, 1, &WAN, "[LINK]", "Get 3: wan0: <> link/ether\n"),
    (30, 1, &STALE, "[NEIGH]", "miss dev lan0 STALE\n"),
    (28, 5, &STALE, "[NEIGH]", "request dev lan0 STALE\n"),
    (28, 5, &NOBODY, "[NEIGH]", "request \n"),
    (29, 5, &NOBODY, "[NEIGH]", "request delete\n"),
    (
        21,
        5,
        &ADDRESS,
        "[ADDR]",
        "request delete 3: lan0 inet 10.0.0.1/24 scope global dynamic\n",
    ),
    (24, 5, &ROUTE, "[ROUTE]", "request 10.0.0.0/8\n"),
    (25, 5, &ROUTE, "[ROUTE]", "request delete 10.0.0.0/8\n"),
    (25, 4, &ROUTE, "[ROUTE]", "Deleted 10.0.0.0/8\n"),
    (26, 1, &ROUTE, "[ROUTE]", "Get 10.0.0.0/8\n"),
    (26, 1, &NOBODY, "[ROUTE]", "Get none default proto unspec\n"),
    (24, 4, &NOBODY, "", "type 24, 28 bytes\n"),
    (
        25,
        5,
        &GROUP,
        "[MROUTE]",
        "request delete (10.1.0.9,239.1.1.1) Iif: unresolved State: resolved\n",
    ),
    (
        26,
        1,
        &GROUP,
        "[MROUTE]",
        "Get (10.1.0.9,239.1.1.1) Iif: unresolved State: resolved\n",
    ),
    (32, 5, &RULE, "[RULE]", "request 0: from all lookup main\n"),
    (
        33,
        5,
        &RULE,
        "[RULE]",
        "request delete 0: from all lookup main\n",
    ),
    (34, 1, &RULE, "[RULE]", "Get 0: from all lookup main\n"),
    (64, 5, &TABLE, "", "request inet arp\n"),
    (66, 1, &TABLE, "", "Get inet arp\n"),
    (67, 5, &TABLE, "", "request Set inet arp\n"),
    (88, 5, &ID, "[NSID]", "request nsid 5\n"),
    (89, 5, &ID, "[NSID]", "request delete nsid 5\n"),
    (90, 1, &ID, "[NSID]", "Get nsid 5\n"),
    (90, 1, &OF_PROCESS, "[NSID]", "Get pid 100\n"),
    (
        88,
        5,
        &OF_FILE,
        "[NSID]",
        "request nsid 1 fd 4 target-nsid unassigned current-nsid 7\n",
    ),
    (89, 4, &[0; 4], "[NSID]", "Deleted nsid\n"),
    (85, 5, &[0; 8], "[MDB]", "request delete dev *\n"),
    (94, 1, &[0; 12], "[STATS]", "Get stats dev *\n"),
    (112, 5, &[0; 8], "[VLAN]", "request *\n"),
    (121, 4, &[0; 8], "[TUNNEL]", "Deleted *\n"),
    (56, 1, &NOBODY, "", "type 56, 28 bytes\n"),
    (15, 1, &TIME, "", "[1.000002] interrupted\n"),
    (16, 0x11, &WAN, "[LINK]", "request 3: wan0: <> link/ether\n"),
    (17, 0, &BARE, "[LINK]", "Deleted 3: if3: <> link/ether\n"),
    (28, 0, &STALE, "[NEIGH]", "dev if3 STALE\n"),
];

/// Appends a message.
fn push_message(
    alloc: Global,
    input: &mut Vec<u8>,
    kind: u8,
    flags: u8,
    payload: &[u8],
) -> Result<(), AllocError> {
    let size = u8::try_from(payload.len()).unwrap_or(0).wrapping_add(16);
    let header = [size, 0, 0, 0, kind, 0, flags, 0, 0, 0, 0, 0, 0, 0, 0, 0];
    input.extend_from_slice(&joined(alloc, &[&header, payload])?)
}

/// The line of a request says that it is one, and no name is entered or removed by it. The lines of
/// other messages with its flag stay. Labels precede the lines, if they are asked for, and change
/// nothing else.
#[test]
fn requests_are_no_facts(rt: HostRuntime) -> Result<(), Fail> {
    let alloc = rt.alloc();
    let mut input: Vec<u8> = Vec::new(alloc);
    let mut wanted = String::new(alloc);
    let mut labelled = String::new(alloc);
    for (kind, flags, payload, label, line) in MESSAGES {
        push_message(alloc, &mut input, kind, flags, payload)?;
        wanted.push_str(line)?;
        labelled.push_str(label)?;
        labelled.push_str(line)?;
    }
    assert_run(&rt, alloc, &input, &wanted, Err(Fault::Malformed));
    let labels = Options {
        labels: true,
        times: false,
        bytes: false,
        json: false,
    };
    let (output, ended) = shown_with(alloc, labels, &input);
    assert!(rt; ended == Err(Fault::Malformed));
    assert_eq!(rt; output.as_slice(), labelled.as_bytes());
    Ok(())
}
