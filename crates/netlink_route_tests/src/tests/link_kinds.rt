//! The data of kinds of links, in requests of `ip link add` that are in `examples/captured/kinds.tsv`.
//! Each sample is the `IFLA_LINKINFO` of the request, after a header of zeros.

use crate::tests::samples::decoded;
use netlink_family::{BlockView, Value};
use netlink_route::link_kinds::*;
use netlink_route::links::{IFLA_INFO_DATA, IFLA_LINKINFO};
use std::test::Fail;

/// Returns the data of the kind of a link.
fn data<'a>(link: &BlockView<'a>) -> Option<BlockView<'a>> {
    link.nest(IFLA_LINKINFO)?.nest(IFLA_INFO_DATA)
}

/// `protocol 802.1ad id 100 reorder_hdr off gvrp on mvrp on loose_binding on ingress-qos-map 1:2 3:4
/// egress-qos-map 5:6`
const VLAN_AD: [u8; 104] = [
    0, 0, 0, 0, 0, 0, 0, 0, 0, 0, 0, 0, 0, 0, 0, 0, // header of zeros
    88, 0, 18, 0, // IFLA_LINKINFO
    8, 0, 1, 0, b'v', b'l', b'a', b'n', // IFLA_INFO_KIND
    76, 0, 2, 0, // IFLA_INFO_DATA
    6, 0, 5, 0, 0x88, 0xa8, 0, 0, // IFLA_VLAN_PROTOCOL
    6, 0, 1, 0, 100, 0, 0, 0, // IFLA_VLAN_ID
    28, 0, 4, 0, // IFLA_VLAN_INGRESS_QOS
    12, 0, 1, 0, 1, 0, 0, 0, 2, 0, 0, 0, // IFLA_VLAN_QOS_MAPPING
    12, 0, 1, 0, 3, 0, 0, 0, 4, 0, 0, 0, // IFLA_VLAN_QOS_MAPPING
    16, 0, 3, 0, 12, 0, 1, 0, 5, 0, 0, 0, 6, 0, 0, 0, // IFLA_VLAN_EGRESS_QOS
    12, 0, 2, 0, 14, 0, 0, 0, 15, 0, 0, 0, // IFLA_VLAN_FLAGS: all but VLAN_FLAG_REORDER_HDR
];

#[test]
fn the_data_of_a_vlan_is_found(rt: HostRuntime) -> Result<(), Fail> {
    let message = decoded(rt.alloc(), 16, &VLAN_AD)?;
    match data(&message.view()) {
        Some(vlan) => {
            assert!(rt; vlan.be16(IFLA_VLAN_PROTOCOL) == Some(0x88a8));
            assert!(rt; vlan.u16(IFLA_VLAN_ID) == Some(100));
            assert!(rt; vlan.bytes(IFLA_VLAN_FLAGS) == Some([14, 0, 0, 0, 15, 0, 0, 0].as_slice()));
            assert!(rt; vlan.bytes(IFLA_VLAN_EGRESS_QOS) == Some(&VLAN_AD[80..92]));
        }
        None => assert!(rt; false),
    }
    Ok(())
}

/// `mode active-backup miimon 100 active_slave veth-a`, the link 3
const BONDED: [u8; 56] = [
    0, 0, 0, 0, 0, 0, 0, 0, 0, 0, 0, 0, 0, 0, 0, 0, // header of zeros
    40, 0, 18, 0, // IFLA_LINKINFO
    8, 0, 1, 0, b'b', b'o', b'n', b'd', // IFLA_INFO_KIND
    28, 0, 2, 0, // IFLA_INFO_DATA
    5, 0, 1, 0, 1, 0, 0, 0, // IFLA_BOND_MODE
    8, 0, 3, 0, 100, 0, 0, 0, // IFLA_BOND_MIIMON
    8, 0, 2, 0, 3, 0, 0, 0, // IFLA_BOND_ACTIVE_SLAVE
];

#[test]
fn the_data_of_a_bond_is_found(rt: HostRuntime) -> Result<(), Fail> {
    let message = decoded(rt.alloc(), 16, &BONDED)?;
    match data(&message.view()) {
        Some(bond) => {
            assert!(rt; bond.u8(IFLA_BOND_MODE) == Some(1));
            assert!(rt; bond.u32(IFLA_BOND_MIIMON) == Some(100));
            assert!(rt; bond.u32(IFLA_BOND_ACTIVE_SLAVE) == Some(3));
        }
        None => assert!(rt; false),
    }
    Ok(())
}

/// `local 192.0.2.1 remote 198.51.100.1 ikey 7 okey 8 iseq ocsum ttl inherit tos 0x10 nopmtudisc
/// dev veth-b encap fou encap-sport 5554 encap-dport 5555 encap-csum fwmark 9`
const GRE_KEYS: [u8; 152] = [
    0, 0, 0, 0, 0, 0, 0, 0, 0, 0, 0, 0, 0, 0, 0, 0, // header of zeros
    136, 0, 18, 0, // IFLA_LINKINFO
    7, 0, 1, 0, b'g', b'r', b'e', 0, // IFLA_INFO_KIND
    124, 0, 2, 0, // IFLA_INFO_DATA
    8, 0, 4, 0, 0, 0, 0, 7, // IFLA_GRE_IKEY
    8, 0, 5, 0, 0, 0, 0, 8, // IFLA_GRE_OKEY
    6, 0, 2, 0, 0x30, 0, 0, 0, // IFLA_GRE_IFLAGS: GRE_KEY, GRE_SEQ
    6, 0, 3, 0, 0xa0, 0, 0, 0, // IFLA_GRE_OFLAGS: GRE_CSUM, GRE_KEY
    8, 0, 6, 0, 192, 0, 2, 1, // IFLA_GRE_LOCAL
    8, 0, 7, 0, 198, 51, 100, 1, // IFLA_GRE_REMOTE
    5, 0, 10, 0, 0, 0, 0, 0, // IFLA_GRE_PMTUDISC
    5, 0, 9, 0, 0x10, 0, 0, 0, // IFLA_GRE_TOS
    8, 0, 1, 0, 2, 0, 0, 0, // IFLA_GRE_LINK
    5, 0, 8, 0, 0, 0, 0, 0, // IFLA_GRE_TTL
    8, 0, 20, 0, 9, 0, 0, 0, // IFLA_GRE_FWMARK
    6, 0, 14, 0, 1, 0, 0, 0, // IFLA_GRE_ENCAP_TYPE: TUNNEL_ENCAP_FOU
    6, 0, 15, 0, 1, 0, 0, 0, // IFLA_GRE_ENCAP_FLAGS: TUNNEL_ENCAP_FLAG_CSUM
    6, 0, 16, 0, 0x15, 0xb2, 0, 0, // IFLA_GRE_ENCAP_SPORT
    6, 0, 17, 0, 0x15, 0xb3, 0, 0, // IFLA_GRE_ENCAP_DPORT
];

#[test]
fn the_data_of_gre_is_found(rt: HostRuntime) -> Result<(), Fail> {
    let message = decoded(rt.alloc(), 16, &GRE_KEYS)?;
    match data(&message.view()) {
        Some(gre) => {
            assert!(rt; gre.be32(IFLA_GRE_IKEY) == Some(7));
            assert!(rt; gre.be16(IFLA_GRE_IFLAGS) == Some(0x3000));
            assert!(rt; gre.be16(IFLA_GRE_OFLAGS) == Some(0xa000));
            assert!(rt; gre.exact(IFLA_GRE_LOCAL) == Some([192, 0, 2, 1].as_slice()));
            assert!(rt; gre.u8(IFLA_GRE_TOS) == Some(0x10));
            assert!(rt; gre.u16(IFLA_GRE_ENCAP_TYPE) == Some(1));
            assert!(rt; gre.be16(IFLA_GRE_ENCAP_DPORT) == Some(5555));
            assert!(rt; gre.u32(IFLA_GRE_FWMARK) == Some(9));
        }
        None => assert!(rt; false),
    }
    Ok(())
}

/// `external`
const GRETAP_METADATA: [u8; 40] = [
    0, 0, 0, 0, 0, 0, 0, 0, 0, 0, 0, 0, 0, 0, 0, 0, // header of zeros
    24, 0, 18, 0, // IFLA_LINKINFO
    10, 0, 1, 0, b'g', b'r', b'e', b't', b'a', b'p', 0, 0, // IFLA_INFO_KIND
    8, 0, 2, 0, // IFLA_INFO_DATA
    4, 0, 18, 0, // IFLA_GRE_COLLECT_METADATA
];

#[test]
fn a_flag_of_gretap_is_found(rt: HostRuntime) -> Result<(), Fail> {
    let message = decoded(rt.alloc(), 16, &GRETAP_METADATA)?;
    match data(&message.view()) {
        Some(gretap) => {
            assert!(rt; gretap.value(IFLA_GRE_COLLECT_METADATA) == Some(Value::Flag));
            assert!(rt; gretap.value(IFLA_GRE_LOCAL) == None);
        }
        None => assert!(rt; false),
    }
    Ok(())
}

/// `local 192.0.2.1 remote 198.51.100.1 ttl 64`, and what `ip` adds
const IPIP_ENDS: [u8; 128] = [
    0, 0, 0, 0, 0, 0, 0, 0, 0, 0, 0, 0, 0, 0, 0, 0, // header of zeros
    112, 0, 18, 0, // IFLA_LINKINFO
    8, 0, 1, 0, b'i', b'p', b'i', b'p', // IFLA_INFO_KIND
    100, 0, 2, 0, // IFLA_INFO_DATA
    5, 0, 9, 0, 0, 0, 0, 0, // IFLA_IPTUN_PROTO
    8, 0, 2, 0, 192, 0, 2, 1, // IFLA_IPTUN_LOCAL
    8, 0, 3, 0, 198, 51, 100, 1, // IFLA_IPTUN_REMOTE
    5, 0, 10, 0, 1, 0, 0, 0, // IFLA_IPTUN_PMTUDISC
    5, 0, 5, 0, 0, 0, 0, 0, // IFLA_IPTUN_TOS
    5, 0, 4, 0, 64, 0, 0, 0, // IFLA_IPTUN_TTL
    8, 0, 1, 0, 0, 0, 0, 0, // IFLA_IPTUN_LINK
    8, 0, 20, 0, 0, 0, 0, 0, // IFLA_IPTUN_FWMARK
    6, 0, 15, 0, 0, 0, 0, 0, // IFLA_IPTUN_ENCAP_TYPE
    6, 0, 16, 0, 0, 0, 0, 0, // IFLA_IPTUN_ENCAP_FLAGS
    6, 0, 17, 0, 0, 0, 0, 0, // IFLA_IPTUN_ENCAP_SPORT
    6, 0, 18, 0, 0, 0, 0, 0, // IFLA_IPTUN_ENCAP_DPORT
];

#[test]
fn the_data_of_ipip_is_found(rt: HostRuntime) -> Result<(), Fail> {
    let message = decoded(rt.alloc(), 16, &IPIP_ENDS)?;
    match data(&message.view()) {
        Some(ipip) => {
            assert!(rt; ipip.exact(IFLA_IPTUN_LOCAL) == Some([192, 0, 2, 1].as_slice()));
            assert!(rt; ipip.exact(IFLA_IPTUN_REMOTE) == Some([198, 51, 100, 1].as_slice()));
            assert!(rt; ipip.u8(IFLA_IPTUN_TTL) == Some(64));
            assert!(rt; ipip.u8(IFLA_IPTUN_PMTUDISC) == Some(1));
        }
        None => assert!(rt; false),
    }
    Ok(())
}

/// `mode any local 192.0.2.1 remote any ttl 64 isatap 6rd-prefix 2001:db8::/32
/// 6rd-relay_prefix 192.0.2.0/24`
const SIT_6RD: [u8; 172] = [
    0, 0, 0, 0, 0, 0, 0, 0, 0, 0, 0, 0, 0, 0, 0, 0, // header of zeros
    156, 0, 18, 0, // IFLA_LINKINFO
    7, 0, 1, 0, b's', b'i', b't', 0, // IFLA_INFO_KIND
    144, 0, 2, 0, // IFLA_INFO_DATA
    5, 0, 9, 0, 0, 0, 0, 0, // IFLA_IPTUN_PROTO
    8, 0, 2, 0, 192, 0, 2, 1, // IFLA_IPTUN_LOCAL
    5, 0, 10, 0, 1, 0, 0, 0, // IFLA_IPTUN_PMTUDISC
    5, 0, 5, 0, 0, 0, 0, 0, // IFLA_IPTUN_TOS
    5, 0, 4, 0, 64, 0, 0, 0, // IFLA_IPTUN_TTL
    8, 0, 1, 0, 0, 0, 0, 0, // IFLA_IPTUN_LINK
    8, 0, 20, 0, 0, 0, 0, 0, // IFLA_IPTUN_FWMARK
    6, 0, 15, 0, 0, 0, 0, 0, // IFLA_IPTUN_ENCAP_TYPE
    6, 0, 16, 0, 0, 0, 0, 0, // IFLA_IPTUN_ENCAP_FLAGS
    6, 0, 17, 0, 0, 0, 0, 0, // IFLA_IPTUN_ENCAP_SPORT
    6, 0, 18, 0, 0, 0, 0, 0, // IFLA_IPTUN_ENCAP_DPORT
    6, 0, 8, 0, 1, 0, 0, 0, // IFLA_IPTUN_FLAGS: SIT_ISATAP
    20, 0, 11, 0, 0x20, 1, 0x0d, 0xb8, 0, 0, 0, 0, 0, 0, 0, 0, 0, 0, 0, 0, // IFLA_IPTUN_6RD_PREFIX
    6, 0, 13, 0, 32, 0, 0, 0, // IFLA_IPTUN_6RD_PREFIXLEN
    8, 0, 12, 0, 192, 0, 2, 0, // IFLA_IPTUN_6RD_RELAY_PREFIX
    6, 0, 14, 0, 24, 0, 0, 0, // IFLA_IPTUN_6RD_RELAY_PREFIXLEN
];

#[test]
fn the_data_of_sit_is_found(rt: HostRuntime) -> Result<(), Fail> {
    let message = decoded(rt.alloc(), 16, &SIT_6RD)?;
    match data(&message.view()) {
        Some(sit) => {
            assert!(rt; sit.u16(IFLA_IPTUN_FLAGS) == Some(1));
            assert!(rt; sit.exact(IFLA_IPTUN_6RD_PREFIX) == Some(&SIT_6RD[132..148]));
            assert!(rt; sit.u16(IFLA_IPTUN_6RD_PREFIXLEN) == Some(32));
            assert!(rt; sit.exact(IFLA_IPTUN_6RD_RELAY_PREFIX) == Some([192, 0, 2, 0].as_slice()));
            assert!(rt; sit.u16(IFLA_IPTUN_6RD_RELAY_PREFIXLEN) == Some(24));
        }
        None => assert!(rt; false),
    }
    Ok(())
}
