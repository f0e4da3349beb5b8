//! The VNIs that VXLAN links filter by. Each sample is a payload.

use crate::tests::calls::{has_attributes, has_nest};
use crate::tests::samples::error_text;
use netlink_family::{BlockView, MessageView, OwnedMessage, Value};
use netlink_route::vni_filters::*;
use netlink_route::{VniFilterMessage, VniFilters};
use std::test::Fail;

/// A range of VNIs with each attribute, and another VNI; by hand
const FILTERS: [u8; 168] = [
    7, 1, 0, 0, 8, 0, 0, 0, // struct tunnel_msg: AF_BRIDGE, TUNNEL_MSG_FLAG_STATS, link 8
    0x94, 0, 1, 0x80, // VXLAN_VNIFILTER_ENTRY
    8, 0, 1, 0, 3, 2, 1, 0, // VXLAN_VNIFILTER_ENTRY_START
    8, 0, 2, 0, 9, 2, 1, 0, // VXLAN_VNIFILTER_ENTRY_END
    8, 0, 3, 0, 0xef, 1, 2, 3, // VXLAN_VNIFILTER_ENTRY_GROUP
    20, 0, 4, 0, 0xff, 2, 0, 0, 0, 0, 0, 0, 0, 0, 0, 0, 0, 0, 0, 3, // VXLAN_VNIFILTER_ENTRY_GROUP6
    100, 0, 5, 0x80, // VXLAN_VNIFILTER_ENTRY_STATS
    12, 0, 1, 0, 1, 0, 0, 0, 1, 0, 0, 0, // VNIFILTER_ENTRY_STATS_RX_BYTES
    12, 0, 2, 0, 2, 0, 0, 0, 1, 0, 0, 0, // VNIFILTER_ENTRY_STATS_RX_PKTS
    12, 0, 3, 0, 3, 0, 0, 0, 1, 0, 0, 0, // VNIFILTER_ENTRY_STATS_RX_DROPS
    12, 0, 4, 0, 4, 0, 0, 0, 1, 0, 0, 0, // VNIFILTER_ENTRY_STATS_RX_ERRORS
    12, 0, 5, 0, 5, 0, 0, 0, 1, 0, 0, 0, // VNIFILTER_ENTRY_STATS_TX_BYTES
    12, 0, 6, 0, 6, 0, 0, 0, 1, 0, 0, 0, // VNIFILTER_ENTRY_STATS_TX_PKTS
    12, 0, 7, 0, 7, 0, 0, 0, 1, 0, 0, 0, // VNIFILTER_ENTRY_STATS_TX_DROPS
    12, 0, 8, 0, 8, 0, 0, 0, 1, 0, 0, 0, // VNIFILTER_ENTRY_STATS_TX_ERRORS
    12, 0, 1, 0x80, // VXLAN_VNIFILTER_ENTRY
    8, 0, 1, 0, 7, 0, 0, 0, // VXLAN_VNIFILTER_ENTRY_START
];

/// `bridge vni add vni 100-103 group 239.1.1.1 dev vx0`, if the link has the index 8; by hand
const REQUEST: [u8; 36] = [
    7, 0, 0, 0, 8, 0, 0, 0, // struct tunnel_msg
    28, 0, 1, 0x80, // VXLAN_VNIFILTER_ENTRY
    8, 0, 1, 0, 100, 0, 0, 0, // VXLAN_VNIFILTER_ENTRY_START
    8, 0, 2, 0, 103, 0, 0, 0, // VXLAN_VNIFILTER_ENTRY_END
    8, 0, 3, 0, 239, 1, 1, 1, // VXLAN_VNIFILTER_ENTRY_GROUP
];

/// Two filters, the first with two of a kind; by hand
const TWICE: [u8; 40] = [
    7, 0, 0, 0, 8, 0, 0, 0, // struct tunnel_msg
    20, 0, 1, 0, // VXLAN_VNIFILTER_ENTRY
    8, 0, 1, 0, 5, 0, 0, 0, // VXLAN_VNIFILTER_ENTRY_START
    8, 0, 1, 0x40, 6, 0, 0, 0, // VXLAN_VNIFILTER_ENTRY_START with a flag bit
    12, 0, 1, 0, // VXLAN_VNIFILTER_ENTRY
    8, 0, 1, 0, 7, 0, 0, 0, // VXLAN_VNIFILTER_ENTRY_START
];

/// Returns the first filter of a message.
fn filter_of<'a>(message: &MessageView<'a, VniFilters>) -> Option<BlockView<'a>> {
    message.view().nest(VXLAN_VNIFILTER_ENTRY)
}

/// Returns the last filter of `FILTERS`.
fn last_filter() -> Option<BlockView<'static>> {
    let message = MessageView::<VniFilters>::new(RTM_DELTUNNEL, &FILTERS).ok()?;
    let mut all = message.view().attributes();
    all.next()?;
    let (_, value) = all.next()?;
    match value {
        Value::Nested(filter) => Some(filter),
        _ => None,
    }
}

#[test]
fn filters_are_read(rt: HostRuntime) -> Result<(), Fail> {
    let address = [0xff, 2, 0, 0, 0, 0, 0, 0, 0, 0, 0, 0, 0, 0, 0, 3];
    let message = MessageView::<VniFilters>::new(RTM_NEWTUNNEL, &FILTERS)?;
    assert!(rt; message.header().u8(TUNNEL_FAMILY) == 7);
    assert!(rt; message.header().u8(TUNNEL_FLAGS) == TUNNEL_MSG_FLAG_STATS);
    assert!(rt; message.header().u32(TUNNEL_IFINDEX) == 8);
    let Some(filter) = filter_of(&message) else {
        return Err(Fail::from("there is no filter"));
    };
    assert!(rt; filter.u32(VXLAN_VNIFILTER_ENTRY_START) == Some(0x10203));
    assert!(rt; filter.u32(VXLAN_VNIFILTER_ENTRY_END) == Some(0x10209));
    assert!(rt; filter.exact(VXLAN_VNIFILTER_ENTRY_GROUP) == Some([239, 1, 2, 3].as_slice()));
    assert!(rt; filter.exact(VXLAN_VNIFILTER_ENTRY_GROUP6) == Some(address.as_slice()));
    match last_filter() {
        Some(last) => {
            assert!(rt; has_attributes(&last, &[(VXLAN_VNIFILTER_ENTRY_START, Value::U32(7))]))
        }
        None => assert!(rt; false),
    }
    Ok(())
}

#[test]
fn statistics_of_a_filter_are_read(rt: HostRuntime) -> Result<(), Fail> {
    let counters = [
        (VNIFILTER_ENTRY_STATS_RX_BYTES, Value::U64(0x1_0000_0001)),
        (VNIFILTER_ENTRY_STATS_RX_PKTS, Value::U64(0x1_0000_0002)),
        (VNIFILTER_ENTRY_STATS_RX_DROPS, Value::U64(0x1_0000_0003)),
        (VNIFILTER_ENTRY_STATS_RX_ERRORS, Value::U64(0x1_0000_0004)),
        (VNIFILTER_ENTRY_STATS_TX_BYTES, Value::U64(0x1_0000_0005)),
        (VNIFILTER_ENTRY_STATS_TX_PKTS, Value::U64(0x1_0000_0006)),
        (VNIFILTER_ENTRY_STATS_TX_DROPS, Value::U64(0x1_0000_0007)),
        (VNIFILTER_ENTRY_STATS_TX_ERRORS, Value::U64(0x1_0000_0008)),
    ];
    let message = MessageView::<VniFilters>::new(RTM_NEWTUNNEL, &FILTERS)?;
    match filter_of(&message) {
        Some(filter) => assert!(rt; has_nest(&filter, VXLAN_VNIFILTER_ENTRY_STATS, &counters)),
        None => assert!(rt; false),
    }
    Ok(())
}

#[test]
fn the_first_of_two_counts(rt: HostRuntime) -> Result<(), Fail> {
    let message = MessageView::<VniFilters>::new(RTM_GETTUNNEL, &TWICE)?;
    match filter_of(&message) {
        Some(filter) => assert!(rt; filter.u32(VXLAN_VNIFILTER_ENTRY_START) == Some(5)),
        None => assert!(rt; false),
    }
    Ok(())
}

#[test]
fn a_request_for_filters_is_made(rt: HostRuntime) -> Result<(), Fail> {
    let alloc = rt.alloc();
    let mut request: VniFilterMessage = OwnedMessage::new(alloc, RTM_NEWTUNNEL)?;
    request.set_u8(TUNNEL_FAMILY, 7);
    request.set_u32(TUNNEL_IFINDEX, 8);
    request.try_push(alloc, VXLAN_VNIFILTER_ENTRY | 0x8000, &REQUEST[12..])?;
    assert_eq!(rt; request.payload(), REQUEST.as_slice());
    Ok(())
}

// A message type, attributes after a header of zeros, and their error; no text if they are valid.
const ERRORS: [(u16, &[u8], &'static str); 16] = [
    (
        120,
        &[12, 0, 1, 0, 7, 0, 1, 0, 1, 2, 3, 0],
        "at byte 12, in policy 1: attribute 1 has a value of 3 bytes instead of 4",
    ),
    (
        121,
        &[16, 0, 1, 0, 9, 0, 1, 0, 1, 2, 3, 4, 5, 0, 0, 0],
        "at byte 12, in policy 1: attribute 1 has a value of 5 bytes instead of 4",
    ),
    (
        120,
        &[12, 0, 1, 0, 7, 0, 2, 0, 1, 2, 3, 0],
        "at byte 12, in policy 1: attribute 2 has a value of 3 bytes instead of 4",
    ),
    (
        120,
        &[16, 0, 1, 0, 9, 0, 2, 0, 1, 2, 3, 4, 5, 0, 0, 0],
        "at byte 12, in policy 1: attribute 2 has a value of 5 bytes instead of 4",
    ),
    (
        120,
        &[12, 0, 1, 0, 7, 0, 3, 0, 1, 2, 3, 0],
        "at byte 12, in policy 1: attribute 3 has a value of 3 bytes instead of 4",
    ),
    (
        120,
        &[16, 0, 1, 0, 9, 0, 3, 0, 1, 2, 3, 4, 5, 0, 0, 0],
        "at byte 12, in policy 1: attribute 3 has a value of 5 bytes instead of 4",
    ),
    (
        122,
        &[
            24, 0, 1, 0, 19, 0, 4, 0, 1, 2, 3, 4, 5, 6, 7, 8, 9, 10, 11, 12, 13, 14, 15, 0,
        ],
        "at byte 12, in policy 1: attribute 4 has a value of 15 bytes instead of 16",
    ),
    (
        120,
        &[
            28, 0, 1, 0, 21, 0, 4, 0, 1, 2, 3, 4, 5, 6, 7, 8, 9, 10, 11, 12, 13, 14, 15, 16, 17, 0,
            0, 0,
        ],
        "at byte 12, in policy 1: attribute 4 has a value of 17 bytes instead of 16",
    ),
    (
        121,
        &[
            20, 0, 1, 0, 16, 0, 5, 0, 11, 0, 1, 0, 1, 2, 3, 4, 5, 6, 7, 0,
        ],
        "at byte 16, in policy 2: attribute 1 has a value of 7 bytes instead of 8",
    ),
    (
        120,
        &[
            24, 0, 1, 0, 20, 0, 5, 0, 13, 0, 8, 0, 1, 2, 3, 4, 5, 6, 7, 8, 9, 0, 0, 0,
        ],
        "at byte 16, in policy 2: attribute 8 has a value of 9 bytes instead of 8",
    ),
    // attributes that are cut, or too short
    (
        120,
        &[12, 0, 1, 0, 8, 0, 1, 0],
        "at byte 8, in policy 0: an attribute of 12 bytes is truncated to 8",
    ),
    (
        120,
        &[8, 0, 1, 0, 8, 0, 1, 0],
        "at byte 12, in policy 1: an attribute of 8 bytes is truncated to 4",
    ),
    (
        120,
        &[12, 0, 1, 0, 5, 0, 5, 0, 1, 0, 0, 0],
        "at byte 16, in policy 2: 1 bytes are too few for an attribute",
    ),
    (
        120,
        &[8, 0, 1, 0, 3, 0, 1, 0],
        "at byte 12, in policy 1: an attribute has length 3, less than 4",
    ),
    (120, &[8, 0, 1, 0, 4, 0, 9, 0], ""), // a kind without a row
    (123, &[], "message type 123 is not known"),
];

#[test]
fn invalid_filters_have_their_errors(rt: HostRuntime) -> Result<(), Fail> {
    for (message_type, attributes, text) in ERRORS.iter() {
        let found = error_text(rt.alloc(), *message_type, 8, attributes)?;
        assert_eq!(rt; found.as_str(), *text);
    }
    Ok(())
}
