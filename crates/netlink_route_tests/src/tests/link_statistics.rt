//! The statistics of links. Each sample is a payload.

use crate::tests::calls::has_nest;
use crate::tests::samples::error_text;
use netlink_family::{BlockView, MessageView, OwnedMessage, Value};
use netlink_route::link_statistics::*;
use netlink_route::{LinkStatistics, LinkStatisticsMessage};
use std::alloc::Global;
use std::test::Fail;

/// Statistics of "lo" after one message over it, as Linux 6.18 sends them
const STATISTICS: [u8; 248] = [
    0, 0, 0, 0, 1, 0, 0, 0, 31, 0, 0, 0, // struct if_stats_msg: link 1, each kind
    // IFLA_STATS_LINK_64: struct rtnl_link_stats64
    0xcc, 0, 1, 0, 2, 0, 0, 0, 0, 0, 0, 0, 2, 0, 0, 0, 0, 0, 0, 0, 94, 0, 0, 0, 0, 0, 0, 0, 94, 0,
    0, 0, 0, 0, 0, 0, 0, 0, 0, 0, 0, 0, 0, 0, 0, 0, 0, 0, 0, 0, 0, 0, 0, 0, 0, 0, 0, 0, 0, 0, 0, 0,
    0, 0, 0, 0, 0, 0, 0, 0, 0, 0, 0, 0, 0, 0, 0, 0, 0, 0, 0, 0, 0, 0, 0, 0, 0, 0, 0, 0, 0, 0, 0, 0,
    0, 0, 0, 0, 0, 0, 0, 0, 0, 0, 0, 0, 0, 0, 0, 0, 0, 0, 0, 0, 0, 0, 0, 0, 0, 0, 0, 0, 0, 0, 0, 0,
    0, 0, 0, 0, 0, 0, 0, 0, 0, 0, 0, 0, 0, 0, 0, 0, 0, 0, 0, 0, 0, 0, 0, 0, 0, 0, 0, 0, 0, 0, 0, 0,
    0, 0, 0, 0, 0, 0, 0, 0, 0, 0, 0, 0, 0, 0, 0, 0, 0, 0, 0, 0, 0, 0, 0, 0, 0, 0, 0, 0, 0, 0, 0, 0,
    0, 0, 0, 0, 0, 0, 0, 0, 0, 0, 0, 0, 0, 0, 28, 0, 4, 0, // IFLA_STATS_LINK_OFFLOAD_XSTATS
    24, 0, 2, 0x80, // IFLA_OFFLOAD_XSTATS_HW_S_INFO
    20, 0, 3, 0x80, // IFLA_OFFLOAD_XSTATS_L3_STATS
    5, 0, 1, 0, 0, 0, 0, 0, // IFLA_OFFLOAD_XSTATS_HW_S_INFO_REQUEST
    5, 0, 2, 0, 0, 0, 0, 0, // IFLA_OFFLOAD_XSTATS_HW_S_INFO_USED
    4, 0, 5, 0, // IFLA_STATS_AF_SPEC
];

/// Statistics of a bond, with each counter; by hand
const BONDS: [u8; 132] = [
    0, 0, 0, 0, 3, 0, 0, 0, 2, 0, 0, 0, // struct if_stats_msg: link 3
    120, 0, 2, 0, // IFLA_STATS_LINK_XSTATS
    116, 0, 2, 0, // LINK_XSTATS_TYPE_BOND
    112, 0, 1, 0, // BOND_XSTATS_3AD
    12, 0, 0, 0, 0, 0, 0, 0, 1, 0, 0, 0, // BOND_3AD_STAT_LACPDU_RX
    12, 0, 1, 0, 1, 0, 0, 0, 1, 0, 0, 0, // BOND_3AD_STAT_LACPDU_TX
    12, 0, 2, 0, 2, 0, 0, 0, 1, 0, 0, 0, // BOND_3AD_STAT_LACPDU_UNKNOWN_RX
    12, 0, 3, 0, 3, 0, 0, 0, 1, 0, 0, 0, // BOND_3AD_STAT_LACPDU_ILLEGAL_RX
    12, 0, 4, 0, 4, 0, 0, 0, 1, 0, 0, 0, // BOND_3AD_STAT_MARKER_RX
    12, 0, 5, 0, 5, 0, 0, 0, 1, 0, 0, 0, // BOND_3AD_STAT_MARKER_TX
    12, 0, 6, 0, 6, 0, 0, 0, 1, 0, 0, 0, // BOND_3AD_STAT_MARKER_RESP_RX
    12, 0, 7, 0, 7, 0, 0, 0, 1, 0, 0, 0, // BOND_3AD_STAT_MARKER_RESP_TX
    12, 0, 8, 0, 8, 0, 0, 0, 1, 0, 0, 0, // BOND_3AD_STAT_MARKER_UNKNOWN_RX
];

/// A request with each attribute; by hand
const SETTINGS: [u8; 64] = [
    0, 0, 0, 0, 3, 0, 0, 0, 8, 0, 0, 0, // struct if_stats_msg: link 3
    44, 0, 1, 0x80, // IFLA_STATS_GET_FILTERS
    8, 0, 1, 0, 1, 0, 1, 0, // IFLA_STATS_LINK_64
    8, 0, 2, 0, 2, 0, 1, 0, // IFLA_STATS_LINK_XSTATS
    8, 0, 3, 0, 3, 0, 1, 0, // IFLA_STATS_LINK_XSTATS_SLAVE
    8, 0, 4, 0, 4, 0, 1, 0, // IFLA_STATS_LINK_OFFLOAD_XSTATS
    8, 0, 5, 0, 5, 0, 1, 0, // IFLA_STATS_AF_SPEC
    5, 0, 2, 0, 1, 0, 0, 0, // IFLA_STATS_SET_OFFLOAD_XSTATS_L3_STATS
];

/// Returns the counters of hardware of a message of `RTM_NEWSTATS`.
fn hardware_of<'a>(message: &MessageView<'a, LinkStatistics>) -> Option<BlockView<'a>> {
    message
        .view()
        .nest(IFLA_STATS_LINK_OFFLOAD_XSTATS)?
        .nest(IFLA_OFFLOAD_XSTATS_HW_S_INFO)
}

#[test]
fn statistics_of_a_link_are_read(rt: HostRuntime) -> Result<(), Fail> {
    let info = [
        (IFLA_OFFLOAD_XSTATS_HW_S_INFO_REQUEST, Value::U8(0)),
        (IFLA_OFFLOAD_XSTATS_HW_S_INFO_USED, Value::U8(0)),
    ];
    let message = MessageView::<LinkStatistics>::new(RTM_NEWSTATS, &STATISTICS)?;
    assert!(rt; message.header().u8(IFSM_FAMILY) == 0);
    assert!(rt; message.header().u32(IFSM_IFINDEX) == 1);
    assert!(rt; message.header().u32(IFSM_FILTER_MASK) == 31);
    assert!(rt; message.view().bytes(IFLA_STATS_LINK_64) == Some(&STATISTICS[16..216]));
    assert!(rt; has_nest(&message.view(), IFLA_STATS_AF_SPEC, &[]));
    match hardware_of(&message) {
        Some(hardware) => assert!(rt; has_nest(&hardware, IFLA_OFFLOAD_XSTATS_L3_STATS, &info)),
        None => assert!(rt; false),
    }
    Ok(())
}

/// Returns the statistics of a bond in a message of `RTM_NEWSTATS`.
fn bond_of<'a>(message: &MessageView<'a, LinkStatistics>) -> Option<BlockView<'a>> {
    message
        .view()
        .nest(IFLA_STATS_LINK_XSTATS)?
        .nest(LINK_XSTATS_TYPE_BOND)
}

#[test]
fn statistics_of_a_bond_are_read(rt: HostRuntime) -> Result<(), Fail> {
    let counters = [
        (BOND_3AD_STAT_LACPDU_RX, Value::U64(0x1_0000_0000)),
        (BOND_3AD_STAT_LACPDU_TX, Value::U64(0x1_0000_0001)),
        (BOND_3AD_STAT_LACPDU_UNKNOWN_RX, Value::U64(0x1_0000_0002)),
        (BOND_3AD_STAT_LACPDU_ILLEGAL_RX, Value::U64(0x1_0000_0003)),
        (BOND_3AD_STAT_MARKER_RX, Value::U64(0x1_0000_0004)),
        (BOND_3AD_STAT_MARKER_TX, Value::U64(0x1_0000_0005)),
        (BOND_3AD_STAT_MARKER_RESP_RX, Value::U64(0x1_0000_0006)),
        (BOND_3AD_STAT_MARKER_RESP_TX, Value::U64(0x1_0000_0007)),
        (BOND_3AD_STAT_MARKER_UNKNOWN_RX, Value::U64(0x1_0000_0008)),
    ];
    let message = MessageView::<LinkStatistics>::new(RTM_NEWSTATS, &BONDS)?;
    match bond_of(&message) {
        Some(bond) => assert!(rt; has_nest(&bond, BOND_XSTATS_3AD, &counters)),
        None => assert!(rt; false),
    }
    Ok(())
}

#[test]
fn requests_for_statistics_are_read(rt: HostRuntime) -> Result<(), Fail> {
    let masks = [
        (IFLA_STATS_LINK_64, Value::U32(0x10001)),
        (IFLA_STATS_LINK_XSTATS, Value::U32(0x10002)),
        (IFLA_STATS_LINK_XSTATS_SLAVE, Value::U32(0x10003)),
        (IFLA_STATS_LINK_OFFLOAD_XSTATS, Value::U32(0x10004)),
        (IFLA_STATS_AF_SPEC, Value::U32(0x10005)),
    ];
    for message_type in [RTM_GETSTATS, RTM_SETSTATS].iter() {
        let message = MessageView::<LinkStatistics>::new(*message_type, &SETTINGS)?;
        let view = message.view();
        assert!(rt; has_nest(&view, IFLA_STATS_GET_FILTERS, &masks));
        assert!(rt; view.u8(IFLA_STATS_SET_OFFLOAD_XSTATS_L3_STATS) == Some(1));
    }
    Ok(())
}

#[test]
fn a_request_for_statistics_is_made(rt: HostRuntime) -> Result<(), Fail> {
    let alloc = rt.alloc();
    let mut request: LinkStatisticsMessage = OwnedMessage::new(alloc, RTM_GETSTATS)?;
    request.set_u32(IFSM_IFINDEX, 3);
    request.set_u32(IFSM_FILTER_MASK, 8);
    request.try_push(alloc, IFLA_STATS_GET_FILTERS | 0x8000, &SETTINGS[16..56])?;
    request.try_push(alloc, IFLA_STATS_SET_OFFLOAD_XSTATS_L3_STATS, &[1])?;
    assert_eq!(rt; request.payload(), SETTINGS.as_slice());
    Ok(())
}

// Bytes of attributes, the number of zeros after them, and their error; no text if they are valid.
const STRUCTS: [(&[u8], usize, &'static str); 14] = [
    (&[196, 0, 1, 0], 192, ""), // IFLA_STATS_LINK_64
    (
        &[195, 0, 1, 0],
        192,
        "at byte 12, in policy 0: attribute 1 has a value of 191 bytes instead of 192 or more",
    ),
    (&[52, 0, 2, 0, 48, 0, 1, 0, 44, 0, 1, 0], 40, ""), // BRIDGE_XSTATS_VLAN
    (
        &[52, 0, 2, 0, 48, 0, 1, 0, 43, 0, 1, 0],
        40,
        "at byte 20, in policy 2: attribute 1 has a value of 39 bytes instead of 40 or more",
    ),
    (&[252, 0, 2, 0, 248, 0, 1, 0, 244, 0, 2, 0], 240, ""), // BRIDGE_XSTATS_MCAST
    (
        &[252, 0, 2, 0, 248, 0, 1, 0, 243, 0, 2, 0],
        240,
        "at byte 20, in policy 2: attribute 2 has a value of 239 bytes instead of 240 or more",
    ),
    (&[60, 0, 2, 0, 56, 0, 1, 0, 52, 0, 4, 0], 48, ""), // BRIDGE_XSTATS_STP
    (
        &[60, 0, 2, 0, 56, 0, 1, 0, 51, 0, 4, 0],
        48,
        "at byte 20, in policy 2: attribute 4 has a value of 47 bytes instead of 48 or more",
    ),
    (&[200, 0, 4, 0, 196, 0, 1, 0], 192, ""), // IFLA_OFFLOAD_XSTATS_CPU_HIT
    (
        &[200, 0, 4, 0, 195, 0, 1, 0],
        192,
        "at byte 16, in policy 5: attribute 1 has a value of 191 bytes instead of 192 or more",
    ),
    (&[80, 0, 4, 0, 76, 0, 3, 0], 72, ""), // IFLA_OFFLOAD_XSTATS_L3_STATS
    (
        &[80, 0, 4, 0, 75, 0, 3, 0],
        72,
        "at byte 16, in policy 5: attribute 3 has a value of 71 bytes instead of 72 or more",
    ),
    (&[84, 0, 5, 0, 80, 0, 28, 0, 76, 0, 1, 0], 72, ""), // MPLS_STATS_LINK
    (
        &[84, 0, 5, 0, 80, 0, 28, 0, 75, 0, 1, 0],
        72,
        "at byte 20, in policy 9: attribute 1 has a value of 71 bytes instead of 72 or more",
    ),
];

/// Returns the error text of attributes that end with zeros, or no text if they are valid.
fn text_of(alloc: Global, start: &[u8], zeros: usize) -> Result<String, Fail> {
    let mut attributes = vec![in alloc; 0u8; 0]?;
    let rest = vec![in alloc; 0u8; zeros]?;
    attributes.extend_from_slice(start)?;
    attributes.extend_from_slice(&rest)?;
    error_text(alloc, RTM_NEWSTATS, 12, &attributes)
}

#[test]
fn structs_have_their_sizes(rt: HostRuntime) -> Result<(), Fail> {
    for (start, zeros, text) in STRUCTS.iter() {
        let found = text_of(rt.alloc(), start, *zeros)?;
        assert_eq!(rt; found.as_str(), *text);
    }
    Ok(())
}

// A message type, attributes after a header of zeros, and their error; no text if they are valid.
const ERRORS: [(u16, &[u8], &'static str); 8] = [
    (
        92,
        &[195, 0, 1, 0],
        "at byte 12, in policy 0: an attribute of 195 bytes is truncated to 4",
    ),
    (
        92,
        &[16, 0, 3, 0, 12, 0, 1, 0, 8, 0, 1, 0, 1, 2, 3, 4],
        "at byte 20, in policy 2: attribute 1 has a value of 4 bytes instead of 40 or more",
    ),
    (
        92,
        &[
            20, 0, 2, 0, 16, 0, 2, 0, 12, 0, 1, 0, 8, 0, 0, 0, 1, 2, 3, 4,
        ],
        "at byte 24, in policy 4: attribute 0 has a value of 4 bytes instead of 8",
    ),
    (
        92,
        &[
            20, 0, 4, 0, 16, 0, 2, 0, 12, 0, 3, 0, 6, 0, 1, 0, 1, 2, 0, 0,
        ],
        "at byte 24, in policy 7: attribute 1 has a value of 2 bytes instead of 1",
    ),
    (92, &[12, 0, 5, 0, 8, 0, 29, 0, 1, 2, 3, 4], ""),
    (
        94,
        &[12, 0, 1, 0, 7, 0, 4, 0, 1, 2, 3, 0],
        "at byte 16, in policy 10: attribute 4 has a value of 3 bytes instead of 4",
    ),
    (
        95,
        &[6, 0, 2, 0, 1, 2, 0, 0],
        "at byte 12, in policy 0: attribute 2 has a value of 2 bytes instead of 1",
    ),
    (93, &[], "message type 93 is not known"),
];

#[test]
fn invalid_statistics_have_their_errors(rt: HostRuntime) -> Result<(), Fail> {
    for (message_type, attributes, text) in ERRORS.iter() {
        let found = error_text(rt.alloc(), *message_type, 12, attributes)?;
        assert_eq!(rt; found.as_str(), *text);
    }
    Ok(())
}
