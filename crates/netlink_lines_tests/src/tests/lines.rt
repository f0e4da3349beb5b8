//! Messages made by hand, after linux/rtnetlink.h, if_link.h and if_addr.h, and their lines.

use crate::tests::shown::assert_lines;

/// The link "lo" below link 9 and in link 5, a request to change it, with packets of 65536 bytes;
/// its address, the state 7 that has no name, the kind "veth" in a nest without its bit.
pub(crate) const LO: [u8; 100] = [
    100, 0, 0, 0, 19, 0, 2, 0, 1, 0, 0, 0, 0, 0, 0, 0, // length 100, RTM_SETLINK
    0, 0, 4, 3, 1, 0, 0, 0, 0x49, 0, 1, 0, 0, 0, 0, 0, // AF_UNSPEC, ARPHRD_LOOPBACK, index 1
    7, 0, 3, 0, b'l', b'o', 0, 0xaa, // IFLA_IFNAME
    8, 0, 4, 0, 0, 0, 1, 0, // IFLA_MTU
    8, 0, 5, 0, 9, 0, 0, 0, // IFLA_LINK
    8, 0, 10, 0, 5, 0, 0, 0, // IFLA_MASTER
    10, 0, 1, 0, 0, 0, 0, 0, 0, 0xfe, 0xaa, 0xaa, // IFLA_ADDRESS
    5, 0, 16, 0, 7, 0xaa, 0xaa, 0xaa, // IFLA_OPERSTATE
    13, 0, 18, 0, 9, 0, 1, 0, b'v', b'e', b't', b'h', 0, 0, 0, 0, // IFLA_LINKINFO
];

/// The line of `ADDRESS`.
pub(crate) const LINE: &str =
    "Deleted 4: if4 inet 10.0.0.1 peer 10.0.0.2/24 brd 10.0.0.255 scope link dynamic abcd\n";

/// The address 10.0.0.1, with 10.0.0.2 at the other end, that link 4 had.
pub(crate) const ADDRESS: [u8; 60] = [
    60, 0, 0, 0, 21, 0, 0, 0, 1, 0, 0, 0, 0, 0, 0, 0, // length 60, RTM_DELADDR
    2, 24, 0, 253, 4, 0, 0, 0, // AF_INET, prefix 24, RT_SCOPE_LINK, index 4
    8, 0, 1, 0, 10, 0, 0, 2, // IFA_ADDRESS
    8, 0, 2, 0, 10, 0, 0, 1, // IFA_LOCAL
    8, 0, 4, 0, 10, 0, 0, 255, // IFA_BROADCAST
    9, 0, 3, 0, b'a', b'b', b'c', b'd', 0, 0, 0, 0, // IFA_LABEL
];

/// An error -2, an acknowledgement, a done with the code -22, a noop of an interrupted dump, an
/// overrun, and an error -22 with the header of its request and a text of two words.
const OTHERS: [u8; 136] = [
    20, 0, 0, 0, 2, 0, 0, 0, 0, 0, 0, 0, 0, 0, 0, 0, 0xfe, 0xff, 0xff, 0xff, //
    20, 0, 0, 0, 2, 0, 0, 0, 0, 0, 0, 0, 0, 0, 0, 0, 0, 0, 0, 0, //
    20, 0, 0, 0, 3, 0, 0, 0, 0, 0, 0, 0, 0, 0, 0, 0, 0xea, 0xff, 0xff, 0xff, //
    16, 0, 0, 0, 1, 0, 0x10, 0, 0, 0, 0, 0, 0, 0, 0, 0, // NLM_F_DUMP_INTR
    16, 0, 0, 0, 4, 0, 0, 0, 0, 0, 0, 0, 0, 0, 0, 0, //
    44, 0, 0, 0, 2, 0, 0, 3, 9, 0, 0, 0, 0, 0, 0, 0, // NLM_F_CAPPED and NLM_F_ACK_TLVS
    0xea, 0xff, 0xff, 0xff, 52, 0, 0, 0, 16, 0, 5, 0, 9, 0, 0, 0, 0, 0, 0, 0, //
    8, 0, 1, 0, b'a', b' ', b'b', 0, // NLMSGERR_ATTR_MSG
];

/// The error -22 with its request, RTM_NEWADDR with IFA_LOCAL, of which it names the byte 24; one with
/// the byte 24 of a request of which there is the header alone, and one of a request that lacks the
/// attribute 4, in the nest at byte 32 and in none.
const CONCERNS: [u8; 216] = [
    60, 0, 0, 0, 2, 0, 0, 2, 9, 0, 0, 0, 0, 0, 0, 0, // NLM_F_ACK_TLVS
    0xea, 0xff, 0xff, 0xff, 32, 0, 0, 0, 20, 0, 5, 0, 9, 0, 0, 0, 0, 0, 0, 0, //
    2, 24, 0, 0, 3, 0, 0, 0, 8, 0, 2, 0, 10, 0, 0, 1, // AF_INET, prefix 24, index 3, IFA_LOCAL
    8, 0, 2, 0, 24, 0, 0, 0, // NLMSGERR_ATTR_OFFS
    44, 0, 0, 0, 2, 0, 0, 3, 9, 0, 0, 0, 0, 0, 0, 0, // NLM_F_CAPPED and NLM_F_ACK_TLVS
    0xea, 0xff, 0xff, 0xff, 32, 0, 0, 0, 20, 0, 5, 0, 9, 0, 0, 0, 0, 0, 0, 0, //
    8, 0, 2, 0, 24, 0, 0, 0, // NLMSGERR_ATTR_OFFS
    60, 0, 0, 0, 2, 0, 0, 3, 9, 0, 0, 0, 0, 0, 0, 0, //
    0xea, 0xff, 0xff, 0xff, 48, 0, 0, 0, 16, 0, 5, 0, 9, 0, 0, 0, 0, 0, 0, 0, //
    8, 0, 5, 0, 4, 0, 0, 0, 8, 0, 6, 0, 32, 0, 0, 0, // NLMSGERR_ATTR_MISS_TYPE and MISS_NEST
    8, 0, 1, 0, b'a', b' ', b'b', 0, // NLMSGERR_ATTR_MSG
    52, 0, 0, 0, 2, 0, 0, 3, 9, 0, 0, 0, 0, 0, 0, 0, //
    0xea, 0xff, 0xff, 0xff, 48, 0, 0, 0, 16, 0, 5, 0, 9, 0, 0, 0, 0, 0, 0, 0, //
    8, 0, 5, 0, 4, 0, 0, 0, 8, 0, 2, 0, 16, 0, 0, 0, // NLMSGERR_ATTR_MISS_TYPE and ATTR_OFFS
];

/// A request for all neighbours (linux/neighbour.h).
const NEIGHBOURS: [u8; 28] = [
    28, 0, 0, 0, 30, 0, 1, 3, 1, 0, 0, 0, 0, 0, 0, 0, // length 28, RTM_GETNEIGH
    2, 0, 0, 0, 0, 0, 0, 0, 0, 0, 0, 0, // AF_INET
];

/// A request for all routes of IPv4 (linux/rtnetlink.h).
const REQUEST: [u8; 28] = [
    28, 0, 0, 0, 26, 0, 1, 3, 1, 0, 0, 0, 0, 0, 0, 0, // length 28, RTM_GETROUTE
    2, 0, 0, 0, 0, 0, 0, 0, 0, 0, 0, 0, // AF_INET
];

/// A link named in Latin-1, without a NUL and with no other attribute.
const LATIN: [u8; 40] = [
    40, 0, 0, 0, 16, 0, 0, 0, 0, 0, 0, 0, 0, 0, 0, 0, // length 40, RTM_NEWLINK
    0, 0, 1, 0, 0xff, 0xff, 0xff, 0xff, 0, 0, 0, 0, 0, 0, 0, 0, // ARPHRD_ETHER, index -1
    6, 0, 3, 0, b'c', 0xe9, 0, 0, // IFLA_IFNAME
];

/// Messages, and the lines of each.
const MESSAGES: [(&[u8], &str); 7] = [
    (
        &LO,
        "Set 1: lo@if9: <LOOPBACK,UP,LOWER_UP> mtu 65536 master if5 state 0x7 link/loopback 00:00:00:00:00:fe kind veth\n",
    ),
    (&ADDRESS, LINE),
    (
        &OTHERS,
        "error -2 (No such file or directory)\nack\ndone -22 (Invalid argument)\ninterrupted\nnoop\noverrun\nerror -22 (Invalid argument): a b\n",
    ),
    (
        &CONCERNS,
        "error -22 (Invalid argument); byte 24, attribute 2\nerror -22 (Invalid argument); byte 24\nerror -22 (Invalid argument): a b; attribute 4 is missing in the nest at byte 32\nerror -22 (Invalid argument); byte 16; attribute 4 is missing\n",
    ),
    (&NEIGHBOURS, "miss\n"),
    (&REQUEST, "Get none default proto unspec\n"),
    (&LATIN, "-1: c\\xe9: <> link/ether\n"),
];

#[test]
fn messages_have_lines(rt: HostRuntime) {
    assert_lines(&rt, rt.alloc(), &MESSAGES);
}
