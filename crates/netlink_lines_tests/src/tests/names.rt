//! Links that are named after messages before. `ip` 6.1 (`ip -o monitor file`) prints the same names.

use crate::tests::shown::{assert_run, joined};
use netlink_lines::{Fault, Known, Name, enter_name};
use std::alloc::{AllocError, Global};
use std::test::Fail;

/// The attributes `IFLA_IFNAME` "eth0", "eth1" and "v", and one of 16 bytes, which no kernel allows.
const ETH0: [u8; 12] = [9, 0, 3, 0, b'e', b't', b'h', b'0', 0, 0, 0, 0];

const ETH1: [u8; 12] = [9, 0, 3, 0, b'e', b't', b'h', b'1', 0, 0, 0, 0];

const TOO_LONG: [u8; 20] = [
    20, 0, 3, 0, b'a', b'a', b'a', b'a', b'a', b'a', b'a', b'a', b'a', b'a', b'a', b'a', b'a',
    b'a', b'a', b'a',
];

/// The name "v", below it link 7, which is also its master.
const ABOVE: [u8; 24] = [
    6, 0, 3, 0, b'v', 0, 0, 0, // IFLA_IFNAME
    8, 0, 5, 0, 7, 0, 0, 0, // IFLA_LINK
    8, 0, 10, 0, 7, 0, 0, 0, // IFLA_MASTER
];

/// The same, but link 7 below is one of the network namespace 2.
const ABROAD: [u8; 24] = [
    6, 0, 3, 0, b'v', 0, 0, 0, // IFLA_IFNAME
    8, 0, 5, 0, 7, 0, 0, 0, // IFLA_LINK
    8, 0, 37, 0, 2, 0, 0, 0, // IFLA_LINK_NETNSID
];

/// The name "eth1" and an attribute that is cut.
const DAMAGED: [u8; 16] = [
    9, 0, 3, 0, b'e', b't', b'h', b'1', 0, 0, 0, 0, //
    8, 0, 5, 0,
];

/// The default route by link 7.
const ROUTE: [u8; 36] = [
    36, 0, 0, 0, 24, 0, 0, 0, 0, 0, 0, 0, 0, 0, 0, 0, // length 36, RTM_NEWROUTE
    2, 0, 0, 0, 254, 3, 0, 1, 0, 0, 0, 0, // AF_INET, RT_TABLE_MAIN, RTPROT_BOOT, RTN_UNICAST
    8, 0, 4, 0, 7, 0, 0, 0, // RTA_OIF
];

/// Appends a message about a link of Ethernet, and the route by link 7.
fn push_link(
    alloc: Global,
    input: &mut Vec<u8>,
    kind: u8,
    index: u8,
    rest: &[u8],
) -> Result<(), AllocError> {
    let size = u8::try_from(rest.len()).unwrap_or(0).wrapping_add(32);
    let header = [size, 0, 0, 0, kind, 0, 0, 0, 0, 0, 0, 0, 0, 0, 0, 0];
    let link = [0, 0, 1, 0, index, 0, 0, 0, 0, 0, 0, 0, 0, 0, 0, 0];
    input.extend_from_slice(&joined(alloc, &[&header, &link, rest, &ROUTE])?)
}

/// Messages about links as type, index and attributes, and the lines of each and of the route after it.
const MESSAGES: [(u8, u8, &[u8], &str); 11] = [
    (16, 7, &[], "7: if7: <> link/ether\ndefault dev if7\n"),
    (16, 7, &ETH0, "7: eth0: <> link/ether\ndefault dev eth0\n"),
    (
        16,
        8,
        &ABOVE,
        "8: v@eth0: <> master eth0 link/ether\ndefault dev eth0\n",
    ),
    (
        16,
        8,
        &ABROAD,
        "8: v@if7: <> link/ether link-netnsid 2\ndefault dev eth0\n",
    ),
    (16, 7, &[], "7: if7: <> link/ether\ndefault dev eth0\n"),
    (
        19,
        7,
        &ETH1,
        "Set 7: eth1: <> link/ether\ndefault dev eth0\n",
    ),
    (
        16,
        7,
        &TOO_LONG,
        "7: aaaaaaaaaaaaaaaa: <> link/ether\ndefault dev eth0\n",
    ),
    (
        16,
        7,
        &DAMAGED,
        "byte 568: Failed to parse message with type 16: at byte 28, in policy 0: an attribute of 8 bytes is truncated to 4\ndefault dev eth0\n",
    ),
    (16, 7, &ETH1, "7: eth1: <> link/ether\ndefault dev eth1\n"),
    (
        17,
        7,
        &[],
        "Deleted 7: if7: <> link/ether\ndefault dev if7\n",
    ),
    (
        16,
        7,
        &ABOVE,
        "7: v@v: <> master v link/ether\ndefault dev v\n",
    ),
];

/// A link has the name of the last message with one, until it is deleted. A message without a name,
/// with one that is too long or with an error changes no name, and neither does a request.
#[test]
fn links_have_the_names_told_before(rt: HostRuntime) -> Result<(), Fail> {
    let alloc = rt.alloc();
    let mut input: Vec<u8> = Vec::new(alloc);
    let mut wanted = String::new(alloc);
    for (kind, index, attributes, lines) in MESSAGES {
        push_link(alloc, &mut input, kind, index, attributes)?;
        wanted.push_str(lines)?;
    }
    assert_run(&rt, alloc, &input, &wanted, Err(Fault::Malformed));
    Ok(())
}

/// Returns a link and its name.
fn named(alloc: Global, index: u32, name: &str) -> Result<Known, AllocError> {
    let name = Name::new(alloc, name.as_bytes())?;
    Ok(Known { index, name })
}

/// Returns these links and their names.
pub(crate) fn all_named(alloc: Global, rows: &[(u32, &str)]) -> Result<Vec<Known>, AllocError> {
    let mut known = Vec::new(alloc);
    for (index, name) in rows {
        known.push(named(alloc, *index, name)?)?;
    }
    Ok(known)
}

/// Returns the links 1 to 65,536, all with one name.
fn many(alloc: Global) -> Result<Vec<Known>, AllocError> {
    let mut known = Vec::new(alloc);
    for index in 1..65_537 {
        known.push(named(alloc, index, "a")?)?;
    }
    Ok(known)
}

/// Links and their new names, and the two oldest links after each.
const ENTERED: [(u32, &str, u32, u32); 5] = [
    (1, "b", 2, 3),
    (70_000, "b", 3, 4),
    (70_000, "b", 3, 4),
    (3, "b", 4, 5),
    (70_000, "c", 4, 5),
];

/// Enters a name for this link, and the name that link 5 has.
fn enter(alloc: Global, known: &mut Vec<Known>, index: u32, name: &str) -> Result<(), AllocError> {
    enter_name(alloc, known, index, name.as_bytes())?;
    enter_name(alloc, known, 5, "a".as_bytes())
}

/// Returns whether there are 65,536 names, of these links at the start, and of this one at the end.
fn has_ends(known: &[Known], oldest: u32, second: u32, newest: u32, name: &str) -> bool {
    known.len() == 65_536
        && known[0].index == oldest
        && known[1].index == second
        && known[65_535].index == newest
        && known[65_535].name.bytes() == name.as_bytes()
}

/// There are 65,536 names at most. The oldest one falls out, and a link with a new name is the newest.
/// The name that a link has changes nothing.
#[test]
fn the_last_65536_names_are_known(rt: HostRuntime) -> Result<(), Fail> {
    let alloc = rt.alloc();
    let mut known = many(alloc)?;
    for (index, name, oldest, second) in ENTERED {
        enter(alloc, &mut known, index, name)?;
        assert!(rt; has_ends(&known, oldest, second, index, name));
    }
    Ok(())
}
