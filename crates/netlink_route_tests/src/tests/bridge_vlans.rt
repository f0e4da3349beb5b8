//! The VLANs of bridges and of their ports. Each sample is a payload.

use crate::tests::calls::{are_next, has_attributes, has_nest};
use crate::tests::samples::error_text;
use netlink_family::{BlockView, HeaderView, MessageView, OwnedMessage, Value};
use netlink_route::bridge_vlans::*;
use netlink_route::multicast_groups::{
    MDBA_ROUTER, MDBA_ROUTER_PATTR_INET_TIMER, MDBA_ROUTER_PATTR_INET6_TIMER,
    MDBA_ROUTER_PATTR_TIMER, MDBA_ROUTER_PATTR_TYPE, MDBA_ROUTER_PATTR_VID, MDBA_ROUTER_PORT,
    ROUTER_PORT_IFINDEX,
};
use netlink_route::{BridgeVlanMessage, BridgeVlans};
use std::test::Fail;

/// VLANs of a port with each attribute, and another one; by hand
const VLANS: [u8; 152] = [
    7, 0, 0, 0, 5, 0, 0, 0, // struct br_vlan_msg: AF_BRIDGE, link 5
    0x84, 0, 1, 0x80, // BRIDGE_VLANDB_ENTRY
    8, 0, 1, 0, 6, 0, 10, 0, // BRIDGE_VLANDB_ENTRY_INFO: struct bridge_vlan_info
    6, 0, 2, 0, 20, 1, 0, 0, // BRIDGE_VLANDB_ENTRY_RANGE
    5, 0, 3, 0, 3, 0, 0, 0, // BRIDGE_VLANDB_ENTRY_STATE: BR_STATE_FORWARDING
    20, 0, 4, 0x80, // BRIDGE_VLANDB_ENTRY_TUNNEL_INFO
    8, 0, 1, 0, 3, 2, 1, 0, // BRIDGE_VLANDB_TINFO_ID
    8, 0, 2, 0, 6, 5, 4, 0, // BRIDGE_VLANDB_TINFO_CMD
    52, 0, 5, 0x80, // BRIDGE_VLANDB_ENTRY_STATS
    12, 0, 1, 0, 1, 0, 0, 0, 1, 0, 0, 0, // BRIDGE_VLANDB_STATS_RX_BYTES
    12, 0, 2, 0, 2, 0, 0, 0, 1, 0, 0, 0, // BRIDGE_VLANDB_STATS_RX_PACKETS
    12, 0, 3, 0, 3, 0, 0, 0, 1, 0, 0, 0, // BRIDGE_VLANDB_STATS_TX_BYTES
    12, 0, 4, 0, 4, 0, 0, 0, 1, 0, 0, 0, // BRIDGE_VLANDB_STATS_TX_PACKETS
    5, 0, 6, 0, 1, 0, 0, 0, // BRIDGE_VLANDB_ENTRY_MCAST_ROUTER
    8, 0, 7, 0, 7, 0, 1, 0, // BRIDGE_VLANDB_ENTRY_MCAST_N_GROUPS
    8, 0, 8, 0, 8, 0, 1, 0, // BRIDGE_VLANDB_ENTRY_MCAST_MAX_GROUPS
    5, 0, 9, 0, 1, 0, 0, 0, // BRIDGE_VLANDB_ENTRY_NEIGH_SUPPRESS
    12, 0, 1, 0x80, // BRIDGE_VLANDB_ENTRY
    8, 0, 1, 0, 0, 0, 30, 0, // BRIDGE_VLANDB_ENTRY_INFO
];

/// The options of a VLAN of a bridge, each of them; by hand
const OPTIONS: [u8; 284] = [
    7, 0, 0, 0, 4, 0, 0, 0, // struct br_vlan_msg: AF_BRIDGE, link 4
    20, 1, 2, 0x80, // BRIDGE_VLANDB_GLOBAL_OPTIONS
    6, 0, 1, 0, 10, 1, 0, 0, // BRIDGE_VLANDB_GOPTS_ID
    6, 0, 2, 0, 20, 1, 0, 0, // BRIDGE_VLANDB_GOPTS_RANGE
    5, 0, 3, 0, 1, 0, 0, 0, // BRIDGE_VLANDB_GOPTS_MCAST_SNOOPING
    5, 0, 4, 0, 2, 0, 0, 0, // BRIDGE_VLANDB_GOPTS_MCAST_IGMP_VERSION
    5, 0, 5, 0, 1, 0, 0, 0, // BRIDGE_VLANDB_GOPTS_MCAST_MLD_VERSION
    8, 0, 6, 0, 2, 0, 0, 0, // BRIDGE_VLANDB_GOPTS_MCAST_LAST_MEMBER_CNT
    8, 0, 7, 0, 3, 0, 0, 0, // BRIDGE_VLANDB_GOPTS_MCAST_STARTUP_QUERY_CNT
    12, 0, 8, 0, 100, 0, 0, 0, 0, 0, 0, 0, // BRIDGE_VLANDB_GOPTS_MCAST_LAST_MEMBER_INTVL
    12, 0, 10, 0, 0x90, 101, 0, 0, 0, 0, 0, 0, // BRIDGE_VLANDB_GOPTS_MCAST_MEMBERSHIP_INTVL
    12, 0, 11, 0, 0x9c, 99, 0, 0, 0, 0, 0, 0, // BRIDGE_VLANDB_GOPTS_MCAST_QUERIER_INTVL
    12, 0, 12, 0, 0xd4, 48, 0, 0, 0, 0, 0, 0, // BRIDGE_VLANDB_GOPTS_MCAST_QUERY_INTVL
    12, 0, 13, 0, 0xe8, 3, 0, 0, 0, 0, 0, 0, // BRIDGE_VLANDB_GOPTS_MCAST_QUERY_RESPONSE_INTVL
    12, 0, 14, 0, 53, 12, 0, 0, 0, 0, 0, 0, // BRIDGE_VLANDB_GOPTS_MCAST_STARTUP_QUERY_INTVL
    5, 0, 15, 0, 1, 0, 0, 0, // BRIDGE_VLANDB_GOPTS_MCAST_QUERIER
    56, 0, 16, 0x80, // BRIDGE_VLANDB_GOPTS_MCAST_ROUTER_PORTS
    52, 0, 2, 0, // MDBA_ROUTER
    48, 0, 1, 0, // MDBA_ROUTER_PORT
    5, 0, 0, 0, // link 5
    8, 0, 1, 0, 1, 100, 0, 0, // MDBA_ROUTER_PATTR_TIMER
    5, 0, 2, 0, 1, 0, 0, 0, // MDBA_ROUTER_PATTR_TYPE
    8, 0, 3, 0, 2, 100, 0, 0, // MDBA_ROUTER_PATTR_INET_TIMER
    8, 0, 4, 0, 3, 100, 0, 0, // MDBA_ROUTER_PATTR_INET6_TIMER
    6, 0, 5, 0, 2, 1, 0, 0, // MDBA_ROUTER_PATTR_VID
    72, 0, 17, 0x80, // BRIDGE_VLANDB_GOPTS_MCAST_QUERIER_STATE
    8, 0, 1, 0, 0xc0, 0, 2, 1, // BRIDGE_QUERIER_IP_ADDRESS
    8, 0, 2, 0, 5, 0, 0, 0, // BRIDGE_QUERIER_IP_PORT
    12, 0, 3, 0, 0x90, 99, 0, 0, 0, 0, 0, 0, // BRIDGE_QUERIER_IP_OTHER_TIMER
    // BRIDGE_QUERIER_IPV6_ADDRESS
    20, 0, 5, 0, 0xfe, 0x80, 0, 0, 0, 0, 0, 0, 0, 0, 0, 0, 0, 0, 0, 1, 8, 0, 6, 0, 6, 0, 0, 0, // BRIDGE_QUERIER_IPV6_PORT
    12, 0, 7, 0, 0x91, 99, 0, 0, 0, 0, 0, 0, // BRIDGE_QUERIER_IPV6_OTHER_TIMER
    6, 0, 18, 0, 3, 1, 0, 0, // BRIDGE_VLANDB_GOPTS_MSTI
];

/// Returns a nest outside any other one.
fn nest_of(payload: &[u8], kind: u16) -> Option<BlockView<'_>> {
    let message = MessageView::<BridgeVlans>::new(RTM_NEWVLAN, payload).ok()?;
    message.view().nest(kind)
}

#[test]
fn vlans_of_a_port_are_read(rt: HostRuntime) -> Result<(), Fail> {
    let tunnel = [
        (BRIDGE_VLANDB_TINFO_ID, Value::U32(0x10203)),
        (BRIDGE_VLANDB_TINFO_CMD, Value::U32(0x40506)),
    ];
    let statistics = [
        (BRIDGE_VLANDB_STATS_RX_BYTES, Value::U64(0x1_0000_0001)),
        (BRIDGE_VLANDB_STATS_RX_PACKETS, Value::U64(0x1_0000_0002)),
        (BRIDGE_VLANDB_STATS_TX_BYTES, Value::U64(0x1_0000_0003)),
        (BRIDGE_VLANDB_STATS_TX_PACKETS, Value::U64(0x1_0000_0004)),
    ];
    let Some(vlan) = nest_of(&VLANS, BRIDGE_VLANDB_ENTRY) else {
        return Err(Fail::from("there is no VLAN"));
    };
    assert!(rt; vlan.bytes(BRIDGE_VLANDB_ENTRY_INFO) == Some([6, 0, 10, 0].as_slice()));
    assert!(rt; vlan.u16(BRIDGE_VLANDB_ENTRY_RANGE) == Some(276));
    assert!(rt; vlan.u8(BRIDGE_VLANDB_ENTRY_STATE) == Some(3));
    assert!(rt; has_nest(&vlan, BRIDGE_VLANDB_ENTRY_TUNNEL_INFO, &tunnel));
    assert!(rt; has_nest(&vlan, BRIDGE_VLANDB_ENTRY_STATS, &statistics));
    assert!(rt; vlan.u8(BRIDGE_VLANDB_ENTRY_MCAST_ROUTER) == Some(1));
    assert!(rt; vlan.u32(BRIDGE_VLANDB_ENTRY_MCAST_N_GROUPS) == Some(0x10007));
    assert!(rt; vlan.u32(BRIDGE_VLANDB_ENTRY_MCAST_MAX_GROUPS) == Some(0x10008));
    assert!(rt; vlan.u8(BRIDGE_VLANDB_ENTRY_NEIGH_SUPPRESS) == Some(1));
    Ok(())
}

/// Returns the last VLAN of `VLANS`.
fn last_vlan() -> Option<BlockView<'static>> {
    let message = MessageView::<BridgeVlans>::new(RTM_DELVLAN, &VLANS).ok()?;
    let mut all = message.view().attributes();
    all.next()?;
    let (_, value) = all.next()?;
    match value {
        Value::Nested(vlan) => Some(vlan),
        _ => None,
    }
}

#[test]
fn each_vlan_is_read(rt: HostRuntime) -> Result<(), Fail> {
    let message = MessageView::<BridgeVlans>::new(RTM_DELVLAN, &VLANS)?;
    assert!(rt; message.header().u8(BR_VLAN_FAMILY) == 7);
    assert!(rt; message.header().u32(BR_VLAN_IFINDEX) == 5);
    let expected = [(BRIDGE_VLANDB_ENTRY_INFO, Value::MinLen(4, &[0, 0, 30, 0]))];
    match last_vlan() {
        Some(vlan) => assert!(rt; has_attributes(&vlan, &expected)),
        None => assert!(rt; false),
    }
    Ok(())
}

#[test]
fn options_of_a_vlan_are_read(rt: HostRuntime) -> Result<(), Fail> {
    let expected = [
        (BRIDGE_VLANDB_GOPTS_ID, Value::U16(266)),
        (BRIDGE_VLANDB_GOPTS_RANGE, Value::U16(276)),
        (BRIDGE_VLANDB_GOPTS_MCAST_SNOOPING, Value::U8(1)),
        (BRIDGE_VLANDB_GOPTS_MCAST_IGMP_VERSION, Value::U8(2)),
        (BRIDGE_VLANDB_GOPTS_MCAST_MLD_VERSION, Value::U8(1)),
        (BRIDGE_VLANDB_GOPTS_MCAST_LAST_MEMBER_CNT, Value::U32(2)),
        (BRIDGE_VLANDB_GOPTS_MCAST_STARTUP_QUERY_CNT, Value::U32(3)),
        (BRIDGE_VLANDB_GOPTS_MCAST_LAST_MEMBER_INTVL, Value::U64(100)),
        (
            BRIDGE_VLANDB_GOPTS_MCAST_MEMBERSHIP_INTVL,
            Value::U64(26000),
        ),
        (BRIDGE_VLANDB_GOPTS_MCAST_QUERIER_INTVL, Value::U64(25500)),
        (BRIDGE_VLANDB_GOPTS_MCAST_QUERY_INTVL, Value::U64(12500)),
        (
            BRIDGE_VLANDB_GOPTS_MCAST_QUERY_RESPONSE_INTVL,
            Value::U64(1000),
        ),
        (
            BRIDGE_VLANDB_GOPTS_MCAST_STARTUP_QUERY_INTVL,
            Value::U64(3125),
        ),
        (BRIDGE_VLANDB_GOPTS_MCAST_QUERIER, Value::U8(1)),
    ];
    let Some(options) = nest_of(&OPTIONS, BRIDGE_VLANDB_GLOBAL_OPTIONS) else {
        return Err(Fail::from("there are no options"));
    };
    assert!(rt; are_next(&mut options.attributes(), &expected));
    assert!(rt; options.u16(BRIDGE_VLANDB_GOPTS_MSTI) == Some(259));
    Ok(())
}

/// Returns the router ports in options.
fn ports_in(options: Option<BlockView<'_>>) -> Option<BlockView<'_>> {
    options?
        .nest(BRIDGE_VLANDB_GOPTS_MCAST_ROUTER_PORTS)?
        .nest(MDBA_ROUTER)
}

/// Returns the index of a port.
fn port_of(header: Option<HeaderView<'_>>) -> Option<u32> {
    let header = header?;
    if header.bytes.len() != 4 {
        return None;
    }
    Some(header.u32(ROUTER_PORT_IFINDEX))
}

#[test]
fn router_ports_of_a_vlan_are_read(rt: HostRuntime) -> Result<(), Fail> {
    let expected = [
        (MDBA_ROUTER_PATTR_TIMER, Value::U32(25601)),
        (MDBA_ROUTER_PATTR_TYPE, Value::U8(1)),
        (MDBA_ROUTER_PATTR_INET_TIMER, Value::U32(25602)),
        (MDBA_ROUTER_PATTR_INET6_TIMER, Value::U32(25603)),
        (MDBA_ROUTER_PATTR_VID, Value::U16(258)),
    ];
    let Some(ports) = ports_in(nest_of(&OPTIONS, BRIDGE_VLANDB_GLOBAL_OPTIONS)) else {
        return Err(Fail::from("there are no ports"));
    };
    assert!(rt; port_of(ports.nest_header(MDBA_ROUTER_PORT)) == Some(5));
    assert!(rt; has_nest(&ports, MDBA_ROUTER_PORT, &expected));
    Ok(())
}

#[test]
fn the_querier_of_a_vlan_is_read(rt: HostRuntime) -> Result<(), Fail> {
    let address = [0xfe, 0x80, 0, 0, 0, 0, 0, 0, 0, 0, 0, 0, 0, 0, 0, 1];
    let Some(options) = nest_of(&OPTIONS, BRIDGE_VLANDB_GLOBAL_OPTIONS) else {
        return Err(Fail::from("there are no options"));
    };
    let Some(querier) = options.nest(BRIDGE_VLANDB_GOPTS_MCAST_QUERIER_STATE) else {
        return Err(Fail::from("there is no querier"));
    };
    assert!(rt; querier.exact(BRIDGE_QUERIER_IP_ADDRESS) == Some([192, 0, 2, 1].as_slice()));
    assert!(rt; querier.u32(BRIDGE_QUERIER_IP_PORT) == Some(5));
    assert!(rt; querier.u64(BRIDGE_QUERIER_IP_OTHER_TIMER) == Some(25488));
    assert!(rt; querier.exact(BRIDGE_QUERIER_IPV6_ADDRESS) == Some(address.as_slice()));
    assert!(rt; querier.u32(BRIDGE_QUERIER_IPV6_PORT) == Some(6));
    assert!(rt; querier.u64(BRIDGE_QUERIER_IPV6_OTHER_TIMER) == Some(25489));
    Ok(())
}

/// A request for VLANs with statistics: the payload that `bridge -s vlan global` would send
const DUMP: [u8; 16] = [
    7, 0, 0, 0, 0, 0, 0, 0, // struct br_vlan_msg
    8, 0, 1, 0, 3, 0, 0, 0, // BRIDGE_VLANDB_DUMP_FLAGS
];

#[test]
fn a_request_is_made_and_read(rt: HostRuntime) -> Result<(), Fail> {
    let alloc = rt.alloc();
    let flags = BRIDGE_VLANDB_DUMPF_STATS | BRIDGE_VLANDB_DUMPF_GLOBAL;
    let mut request: BridgeVlanMessage = OwnedMessage::new(alloc, RTM_GETVLAN)?;
    request.set_u8(BR_VLAN_FAMILY, 7);
    request.push(alloc, BRIDGE_VLANDB_DUMP_FLAGS, Value::U32(flags))?;
    assert_eq!(rt; request.payload(), DUMP.as_slice());
    let read = MessageView::<BridgeVlans>::new(RTM_GETVLAN, &DUMP)?;
    assert!(rt; read.view().u32(BRIDGE_VLANDB_DUMP_FLAGS) == Some(3));
    assert!(rt; read.view().nest(BRIDGE_VLANDB_ENTRY) == None);
    Ok(())
}

// A message type, attributes after a header of zeros, and their error; no text if they are valid.
const ERRORS: [(u16, &[u8], &'static str); 7] = [
    (
        112,
        &[11, 0, 1, 0, 7, 0, 1, 0, 1, 2, 3, 0],
        "at byte 12, in policy 1: attribute 1 has a value of 3 bytes instead of 4 or more",
    ),
    (
        113,
        &[12, 0, 2, 0, 5, 0, 18, 0, 1, 0, 0, 0],
        "at byte 12, in policy 4: attribute 18 has a value of 1 bytes instead of 2",
    ),
    (
        112,
        &[5, 0, 1, 0, 1, 0, 0, 0],
        "at byte 12, in policy 1: 1 bytes are too few for an attribute",
    ),
    (112, &[5, 0, 3, 0, 1, 0, 0, 0], ""),
    (
        114,
        &[7, 0, 1, 0, 1, 2, 3, 0],
        "at byte 8, in policy 0: attribute 1 has a value of 3 bytes instead of 4",
    ),
    (114, &[5, 0, 2, 0, 1, 0, 0, 0], ""),
    (115, &[], "message type 115 is not known"),
];

#[test]
fn invalid_vlans_have_their_errors(rt: HostRuntime) -> Result<(), Fail> {
    for (message_type, attributes, text) in ERRORS.iter() {
        let found = error_text(rt.alloc(), *message_type, 8, attributes)?;
        assert_eq!(rt; found.as_str(), *text);
    }
    Ok(())
}
