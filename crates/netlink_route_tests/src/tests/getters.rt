//! Getters find attributes by kind in captured frames, with or without flag bits.

use crate::tests::samples::decoded;
use netlink_family::Value;
use netlink_packet_core::normalize;
use netlink_route::RouteMessage;
use netlink_route::addresses::{IFA_ADDRESS, IFA_CACHEINFO, IFA_FLAGS, IFA_LABEL, IFA_PROTO};
use netlink_route::link_kinds::{IFLA_BR_STP_STATE, VETH_INFO_PEER};
use netlink_route::links::{
    IFLA_IFNAME, IFLA_INFO_DATA, IFLA_INFO_KIND, IFLA_LINKINFO, IFLA_MTU, INFO,
};
use netlink_route::neighbours::{NDA_CACHEINFO, NDA_DST, NDA_LLADDR, NDA_PROBES, NDA_VLAN};
use std::test::Fail;

/// `link-new-bridge-request`: a nest with `NLA_F_NESTED`, and another one in it.
const BRIDGE: [u8; 76] = [
    76, 0, 0, 0, 16, 0, 5, 6, 1, 0, 0, 0, 0, 0, 0, 0, // length 76, RTM_NEWLINK
    0, 0, 0, 0, 0, 0, 0, 0, 0, 0, 0, 0, 0, 0, 0, 0, // header of zeros
    13, 0, 3, 0, b'b', b'r', b'i', b'd', b'g', b'e', b'-', b'1', 0, 0, 0, 0, // IFLA_IFNAME
    28, 0, 18, 0x80, // IFLA_LINKINFO
    11, 0, 1, 0, b'b', b'r', b'i', b'd', b'g', b'e', 0, 0, // IFLA_INFO_KIND
    12, 0, 2, 0x80, 8, 0, 5, 0, 1, 0, 0, 0, // IFLA_INFO_DATA: IFLA_BR_STP_STATE
];

#[test]
fn a_nest_with_its_flag_bit_is_found(rt: HostRuntime) -> Result<(), Fail> {
    let alloc = rt.alloc();
    let message = decoded(alloc, 16, &BRIDGE[16..])?;
    let view = message.view();
    assert!(rt; view.str(IFLA_IFNAME) == Some("bridge-1"));
    assert!(rt; view.u32(IFLA_MTU) == None);
    match view.nest(IFLA_LINKINFO) {
        Some(info) => {
            assert!(rt; info.policy == INFO);
            assert!(rt; info.str(IFLA_INFO_KIND) == Some("bridge"));
            match info.nest(IFLA_INFO_DATA) {
                Some(bridge) => assert!(rt; bridge.u32(IFLA_BR_STP_STATE) == Some(1)),
                None => assert!(rt; false),
            }
        }
        None => assert!(rt; false),
    }
    assert_eq!(rt;
        normalize::<RouteMessage>(alloc, &BRIDGE)?.as_slice(),
        BRIDGE.as_slice()
    );
    Ok(())
}

/// `ip link add veth-a type veth peer name veth-b`: the peer is a link in the link.
const PEER: [u8; 72] = [
    0, 0, 0, 0, 0, 0, 0, 0, 0, 0, 0, 0, 0, 0, 0, 0, // header of zeros
    56, 0, 18, 0, // IFLA_LINKINFO
    8, 0, 1, 0, b'v', b'e', b't', b'h', // IFLA_INFO_KIND
    44, 0, 2, 0, // IFLA_INFO_DATA
    40, 0, 1, 0, // VETH_INFO_PEER
    0, 0, 1, 0, 9, 0, 0, 0, 0, 0, 0, 0, 0, 0, 0, 0, // ARPHRD_ETHER, index 9
    11, 0, 3, 0, b'v', b'e', b't', b'h', b'-', b'b', 0, 0, // IFLA_IFNAME
    5, 0, 16, 0, 6, 0, 0, 0, // IFLA_OPERSTATE
];

#[test]
fn the_peer_of_a_pair_is_found(rt: HostRuntime) -> Result<(), Fail> {
    let message = decoded(rt.alloc(), 16, &PEER)?;
    let info = message.view().nest(IFLA_LINKINFO);
    let data = info.and_then(|info| info.nest(IFLA_INFO_DATA));
    match data {
        Some(pair) => match (pair.nest_header(VETH_INFO_PEER), pair.nest(VETH_INFO_PEER)) {
            (Some(header), Some(peer)) => {
                assert!(rt; header.bytes == &PEER[36..52]);
                assert!(rt; peer.str(IFLA_IFNAME) == Some("veth-b"));
            }
            _ => assert!(rt; false),
        },
        None => assert!(rt; false),
    }
    Ok(())
}

/// The payload of the second frame of `addresses-0`.
const BRIDGE_ADDRESS: [u8; 68] = [
    2, 24, 0x80, 0, 4, 0, 0, 0, // AF_INET, prefix 24, IFA_F_PERMANENT, scope 0, index 4
    8, 0, 1, 0, 192, 0, 2, 1, // IFA_ADDRESS
    8, 0, 2, 0, 192, 0, 2, 1, // IFA_LOCAL
    13, 0, 3, 0, b'b', b'r', b'i', b'd', b'g', b'e', b'-', b'0', 0, 0, 0, 0, // IFA_LABEL
    8, 0, 8, 0, 0x80, 0, 0, 0, // IFA_FLAGS
    20, 0, 6, 0, 0xff, 0xff, 0xff, 0xff, 0xff, 0xff, 0xff, 0xff, // IFA_CACHEINFO: valid forever
    0x3b, 0x17, 8, 0, 0x3b, 0x17, 8, 0, // created and updated
];

#[test]
fn attributes_of_an_address_are_found(rt: HostRuntime) -> Result<(), Fail> {
    let message = decoded(rt.alloc(), 20, &BRIDGE_ADDRESS)?;
    let view = message.view();
    assert!(rt; view.ip(IFA_ADDRESS) == Some([192, 0, 2, 1].as_slice()));
    assert!(rt; view.str(IFA_LABEL) == Some("bridge-0"));
    assert!(rt; view.u32(IFA_FLAGS) == Some(0x80));
    assert!(rt; view.bytes(IFA_CACHEINFO) == Some(&BRIDGE_ADDRESS[52..]));
    assert!(rt; view.u8(IFA_PROTO) == None);
    assert!(rt; view.value(IFA_FLAGS) == Some(Value::U32(0x80)));
    Ok(())
}

/// The payload of the second frame of `neighbours-0`.
const PERMANENT: [u8; 60] = [
    2, 0, 0, 0, 4, 0, 0, 0, 0x80, 0, 0, 1, // AF_INET, index 4, NUD_PERMANENT, RTN_UNICAST
    8, 0, 1, 0, 192, 0, 2, 7, // NDA_DST
    10, 0, 2, 0, 2, 0, 0, 0, 0, 7, 0, 0, // NDA_LLADDR
    8, 0, 4, 0, 0, 0, 0, 0, // NDA_PROBES
    20, 0, 3, 0, 15, 0, 0, 0, 15, 0, 0, 0, 15, 0, 0, 0, 0, 0, 0, 0, // NDA_CACHEINFO
];

#[test]
fn attributes_of_a_neighbour_are_found(rt: HostRuntime) -> Result<(), Fail> {
    let message = decoded(rt.alloc(), 28, &PERMANENT)?;
    let view = message.view();
    assert!(rt; view.ip(NDA_DST) == Some([192, 0, 2, 7].as_slice()));
    assert!(rt; view.bytes(NDA_LLADDR) == Some([2, 0, 0, 0, 0, 7].as_slice()));
    assert!(rt; view.u32(NDA_PROBES) == Some(0));
    assert!(rt; view.bytes(NDA_CACHEINFO) == Some(&PERMANENT[44..]));
    assert!(rt; view.u16(NDA_VLAN) == None);
    assert!(rt; view.u16(NDA_PROBES) == None);
    Ok(())
}
