//! A message of each family, and helpers.

use netlink_family::{AttributeError, FamilyError, Reason, TOP};
use netlink_packet_core::{NetlinkDeserializable, NetlinkHeader};
use netlink_route::RouteMessage;
use std::alloc::Global;
use std::test::Fail;

/// The link "lo" with an MTU of 65536, its address (padding 0xaa), the kind "veth" in a nest
/// without `NLA_F_NESTED`, and an empty attribute of kind 0x8041.
pub const LO: [u8; 80] = [
    80, 0, 0, 0, 16, 0, 2, 0, 1, 0, 0, 0, 0, 0, 0, 0, // length 80, RTM_NEWLINK
    0, 0, 4, 3, 1, 0, 0, 0, 0x49, 0, 1, 0, 0, 0, 0, 0, // AF_UNSPEC, ARPHRD_LOOPBACK, index 1
    7, 0, 3, 0, b'l', b'o', 0, 0xaa, // IFLA_IFNAME
    8, 0, 4, 0, 0, 0, 1, 0, // IFLA_MTU
    10, 0, 1, 0, 0, 0, 0, 0, 0, 0, 0xaa, 0xaa, // IFLA_ADDRESS
    13, 0, 18, 0, 9, 0, 1, 0, b'v', b'e', b't', b'h', 0, 0, 0, 0, // IFLA_LINKINFO
    4, 0, 0x41, 0x80, // IFLA_DPLL_PIN with NLA_F_NESTED
];

/// The address 192.0.2.1/24 of link 4 as the kernel sends it: `IFA_ADDRESS`, `IFA_LABEL`,
/// `IFA_FLAGS` and `IFA_CACHEINFO`.
pub const ADDRESS: [u8; 72] = [
    72, 0, 0, 0, 20, 0, 2, 0, 1, 0, 0, 0, 0, 0, 0, 0, // length 72, RTM_NEWADDR
    2, 24, 0x80, 0, 4, 0, 0, 0, // AF_INET, prefix 24, IFA_F_PERMANENT, scope 0, index 4
    8, 0, 1, 0, 192, 0, 2, 1, // IFA_ADDRESS
    9, 0, 3, 0, b'e', b't', b'h', b'0', 0, 0, 0, 0, // IFA_LABEL
    8, 0, 8, 0, 0x80, 0, 0, 0, // IFA_FLAGS
    20, 0, 6, 0, 255, 255, 255, 255, 255, 255, 255, 255, 1, 2, 3, 4, 5, 6, 7, 8, // IFA_CACHEINFO
];

/// The neighbour fe80::7 on link 4, a router in an entry that is stale, with each of the first six
/// attributes.
pub const NEIGHBOUR: [u8; 104] = [
    104, 0, 0, 0, 28, 0, 2, 0, 1, 0, 0, 0, 0, 0, 0, 0, // length 104, RTM_NEWNEIGH
    10, 0, 0, 0, 4, 0, 0, 0, 4, 0, 0x80, 1, // AF_INET6, NUD_STALE, NTF_ROUTER, RTN_UNICAST
    20, 0, 1, 0, 0xfe, 0x80, 0, 0, 0, 0, 0, 0, 0, 0, 0, 0, 0, 0, 0, 7, // NDA_DST
    10, 0, 2, 0, 2, 0, 0, 0, 0, 7, 0, 0, // NDA_LLADDR
    8, 0, 4, 0, 5, 0, 0, 0, // NDA_PROBES
    20, 0, 3, 0, 1, 0, 0, 0, 2, 0, 0, 0, 3, 0, 0, 0, 4, 0, 0, 0, // NDA_CACHEINFO
    6, 0, 5, 0, 10, 0, 0, 0, // NDA_VLAN
    6, 0, 6, 0, 0x12, 0xb5, 0, 0, // NDA_PORT, the port of VXLAN: 4789, big-endian
];

/// The payload of the route to 198.51.100.0/24 with two next hops: by 192.0.2.1 on link 3, with the
/// flag `RTNH_F_ONLINK` and the weight 10, and on link -2.
pub const HOPS: [u8; 48] = [
    2, 24, 0, 0, 254, 3, 0, 1, 0, 0, 0, 0, // AF_INET, 24 bits, table 254, RTPROT_BOOT, RTN_UNICAST
    8, 0, 1, 0, 198, 51, 100, 0, // RTA_DST
    28, 0, 9, 0, // RTA_MULTIPATH
    16, 0, 4, 9, 3, 0, 0, 0, // struct rtnexthop
    8, 0, 5, 0, 192, 0, 2, 1, // RTA_GATEWAY
    8, 0, 0, 0, 0xfe, 0xff, 0xff, 0xff, // struct rtnexthop
];

/// Returns a header with this message type and zeros.
pub(crate) fn of_type(message_type: u16) -> NetlinkHeader {
    NetlinkHeader {
        message_type,
        ..NetlinkHeader::default()
    }
}

/// Decodes a payload of this message type.
pub(crate) fn decoded(
    alloc: Global,
    message_type: u16,
    payload: &[u8],
) -> Result<RouteMessage, FamilyError> {
    RouteMessage::deserialize(alloc, &of_type(message_type), payload)
}

/// Returns the error text of a payload of this message type: a header of zeros, and attributes.
/// Returns no text if the payload is decoded.
pub(crate) fn error_text(
    alloc: Global,
    message_type: u16,
    header_len: usize,
    attributes: &[u8],
) -> Result<String, Fail> {
    let mut payload = vec![in alloc; 0u8; header_len]?;
    payload.extend_from_slice(attributes)?;
    match decoded(alloc, message_type, &payload).err() {
        None => Ok(String::new(alloc)),
        Some(error) => Ok(error.to_string(alloc)?),
    }
}

/// Returns the error of an attribute outside any nest.
pub(crate) fn invalid(offset: usize, reason: Reason) -> Option<FamilyError> {
    let policy = TOP;
    Some(FamilyError::InvalidAttribute(AttributeError {
        offset,
        policy,
        reason,
    }))
}

/// Returns the error of a value of the wrong size, outside any nest.
pub(crate) fn wrong_size(
    offset: usize,
    kind: u16,
    expected: usize,
    received: usize,
) -> Option<FamilyError> {
    let reason = Reason::WrongSize {
        kind,
        expected,
        received,
    };
    invalid(offset, reason)
}
