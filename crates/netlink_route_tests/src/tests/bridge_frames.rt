//! Frames of what `bridge monitor` shows, one of each table, by hand. Each is the canonical frame of its
//! message.

use crate::tests::calls::normal;
use std::test::Fail;

/// A group of a bridge
const GROUP: [u8; 72] = [
    72, 0, 0, 0, 84, 0, 0, 0, 1, 0, 0, 0, 0, 0, 0, 0, // length 72, RTM_NEWMDB
    7, 0, 0, 0, 4, 0, 0, 0, // struct br_port_msg: AF_BRIDGE, link 4
    48, 0, 1, 0, // MDBA_MDB
    44, 0, 1, 0, // MDBA_MDB_ENTRY
    40, 0, 1, 0, // MDBA_MDB_ENTRY_INFO
    5, 0, 0, 0, 0, 0, 0, 0, // struct br_mdb_entry
    0xef, 1, 2, 3, 0, 0, 0, 0, 0, 0, 0, 0, 0, 0, 0, 0, 8, 0, 0, 0, // its address
    8, 0, 1, 0, 0x90, 101, 0, 0, // MDBA_MDB_EATTR_TIMER
];

/// Statistics of a link for which the kernel keeps none in hardware
const STATISTICS: [u8; 56] = [
    56, 0, 0, 0, 92, 0, 0, 0, 1, 0, 0, 0, 0, 0, 0, 0, // length 56, RTM_NEWSTATS
    0, 0, 0, 0, 1, 0, 0, 0, 8, 0, 0, 0, // struct if_stats_msg: link 1
    28, 0, 4, 0, // IFLA_STATS_LINK_OFFLOAD_XSTATS
    24, 0, 2, 0x80, // IFLA_OFFLOAD_XSTATS_HW_S_INFO
    20, 0, 3, 0x80, // IFLA_OFFLOAD_XSTATS_L3_STATS
    5, 0, 1, 0, 0, 0, 0, 0, // IFLA_OFFLOAD_XSTATS_HW_S_INFO_REQUEST
    5, 0, 2, 0, 0, 0, 0, 0, // IFLA_OFFLOAD_XSTATS_HW_S_INFO_USED
];

/// A VLAN of a port
const VLAN: [u8; 44] = [
    44, 0, 0, 0, 112, 0, 0, 0, 1, 0, 0, 0, 0, 0, 0, 0, // length 44, RTM_NEWVLAN
    7, 0, 0, 0, 5, 0, 0, 0, // struct br_vlan_msg: AF_BRIDGE, link 5
    20, 0, 1, 0x80, // BRIDGE_VLANDB_ENTRY
    8, 0, 1, 0, 6, 0, 10, 0, // BRIDGE_VLANDB_ENTRY_INFO
    5, 0, 3, 0, 3, 0, 0, 0, // BRIDGE_VLANDB_ENTRY_STATE
];

/// A VNI of a VXLAN link
const FILTER: [u8; 36] = [
    36, 0, 0, 0, 121, 0, 0, 0, 1, 0, 0, 0, 0, 0, 0, 0, // length 36, RTM_DELTUNNEL
    7, 0, 0, 0, 8, 0, 0, 0, // struct tunnel_msg: AF_BRIDGE, link 8
    12, 0, 1, 0x80, // VXLAN_VNIFILTER_ENTRY
    8, 0, 1, 0, 100, 0, 0, 0, // VXLAN_VNIFILTER_ENTRY_START
];

#[test]
fn frames_of_bridges_are_canonical(rt: HostRuntime) -> Result<(), Fail> {
    let frames: [&[u8]; 4] = [&GROUP, &STATISTICS, &VLAN, &FILTER];
    for frame in frames.iter() {
        assert_eq!(rt; normal(rt.alloc(), frame)?.as_slice(), *frame);
    }
    Ok(())
}
