//! Next hops that have an id, groups of them, and the buckets of a group. Each sample is a payload.

use crate::tests::calls::has_attributes;
use crate::tests::samples::error_text;
use netlink_family::{BlockView, MessageView, OwnedMessage, Value};
use netlink_route::next_hop_objects::*;
use netlink_route::{NextHopObjectMessage, NextHopObjects};
use std::test::Fail;

/// `ip nexthop add id 10 via 10.1.0.5 dev d0`, the first one in `examples/captured/monitor/stream.bin`
const GATEWAY: [u8; 32] = [
    2, 253, 0, 0, 0, 0, 0, 0, // struct nhmsg: AF_INET, RT_SCOPE_LINK
    8, 0, 1, 0, 10, 0, 0, 0, // NHA_ID
    8, 0, 5, 0, 3, 0, 0, 0, // NHA_OIF
    8, 0, 6, 0, 10, 1, 0, 5, // NHA_GATEWAY
];

/// `ip nexthop add id 10 group 1/2,3 type resilient buckets 4 idle_timer 120 unbalanced_timer 1`, as
/// Linux 6.18 sends it in a dump with statistics
const GROUP: [u8; 144] = [
    0, 0, 0, 0, 0, 0, 0, 0, // struct nhmsg
    8, 0, 1, 0, 10, 0, 0, 0, // NHA_ID
    6, 0, 3, 0, 1, 0, 0, 0, // NHA_GROUP_TYPE: NEXTHOP_GRP_TYPE_RES
    20, 0, 2, 0, // NHA_GROUP
    1, 0, 0, 0, 0, 0, 0, 0, // struct nexthop_grp
    2, 0, 0, 0, 2, 0, 0, 0, // struct nexthop_grp, of weight 3
    40, 0, 12, 0x80, // NHA_RES_GROUP
    6, 0, 1, 0, 4, 0, 0, 0, // NHA_RES_GROUP_BUCKETS
    8, 0, 2, 0, 0xe0, 0x2e, 0, 0, // NHA_RES_GROUP_IDLE_TIMER
    8, 0, 3, 0, 100, 0, 0, 0, // NHA_RES_GROUP_UNBALANCED_TIMER
    12, 0, 4, 0, 0, 0, 0, 0, 0, 0, 0, 0, // NHA_RES_GROUP_UNBALANCED_TIME
    8, 0, 16, 0, 0, 0, 0, 0, // NHA_HW_STATS_ENABLE
    44, 0, 15, 0x80, // NHA_GROUP_STATS
    20, 0, 1, 0x80, 8, 0, 1, 0, 1, 0, 0, 0, 8, 0, 2, 0, 0, 0, 0, 0, // of the first member
    20, 0, 1, 0x80, 8, 0, 1, 0, 2, 0, 0, 0, 8, 0, 2, 0, 0, 0, 0, 0, // of the second one
    8, 0, 14, 0, 0, 0, 0, 0x80, // NHA_OP_FLAGS
];

/// The last bucket of that group, as Linux 6.18 sends it
const BUCKET: [u8; 48] = [
    0, 0, 0, 0, 0, 0, 0, 0, // struct nhmsg
    8, 0, 1, 0, 10, 0, 0, 0, // NHA_ID
    32, 0, 13, 0x80, // NHA_RES_BUCKET
    6, 0, 1, 0, 3, 0, 0, 0, // NHA_RES_BUCKET_INDEX
    8, 0, 3, 0, 1, 0, 0, 0, // NHA_RES_BUCKET_NH_ID
    12, 0, 2, 0, 52, 0, 0, 0, 0, 0, 0, 0, // NHA_RES_BUCKET_IDLE_TIME
];

/// The attributes that the samples above lack, and an id after another one; by hand
const OTHERS: [u8; 72] = [
    10, 254, 4, 0, 0x44, 0, 0, 0, // AF_INET6, RT_SCOPE_HOST, RTPROT_STATIC, two flags
    8, 0, 1, 0, 7, 0, 0, 0, // NHA_ID
    8, 0, 1, 0, 8, 0, 0, 0, // NHA_ID
    4, 0, 4, 0, // NHA_BLACKHOLE
    6, 0, 7, 0, 1, 0, 0, 0, // NHA_ENCAP_TYPE: LWTUNNEL_ENCAP_MPLS
    12, 0, 8, 0x80, 8, 0, 1, 0, 0, 6, 0x41, 0, // NHA_ENCAP: MPLS_IPTUNNEL_DST
    4, 0, 9, 0, // NHA_GROUPS
    8, 0, 10, 0, 9, 0, 0, 0, // NHA_MASTER
    4, 0, 11, 0, // NHA_FDB
    8, 0, 17, 0, 1, 0, 0, 0, // NHA_HW_STATS_USED
];

/// Returns a view of a next hop.
fn view_of(message_type: u16, payload: &[u8]) -> Option<BlockView<'_>> {
    match MessageView::<NextHopObjects>::new(message_type, payload) {
        Ok(message) => Some(message.view()),
        Err(_) => None,
    }
}

#[test]
fn a_next_hop_is_read(rt: HostRuntime) -> Result<(), Fail> {
    match view_of(RTM_NEWNEXTHOP, &GATEWAY) {
        Some(hop) => {
            assert!(rt; hop.u32(NHA_ID) == Some(10));
            assert!(rt; hop.u32(NHA_OIF) == Some(3));
            assert!(rt; hop.ip(NHA_GATEWAY) == Some([10, 1, 0, 5].as_slice()));
            assert!(rt; hop.value(NHA_FDB) == None);
        }
        None => assert!(rt; false),
    }
    Ok(())
}

/// Returns whether the fields of a header are those of `OTHERS`.
fn has_fields(hop: &MessageView<'_, NextHopObjects>) -> bool {
    let header = hop.header();
    header.u8(NH_FAMILY) == 10
        && header.u8(NH_SCOPE) == 254
        && header.u8(NH_PROTOCOL) == 4
        && header.u32(NH_FLAGS) == 0x44
}

#[test]
fn each_attribute_of_a_next_hop_is_read(rt: HostRuntime) -> Result<(), Fail> {
    let expected = [
        (NHA_ID, Value::U32(7)),
        (NHA_ID, Value::U32(8)),
        (NHA_BLACKHOLE, Value::Flag),
        (NHA_ENCAP_TYPE, Value::U16(1)),
        (NHA_ENCAP | 0x8000, Value::Bytes(&OTHERS[40..48])),
        (NHA_GROUPS, Value::Flag),
        (NHA_MASTER, Value::U32(9)),
        (NHA_FDB, Value::Flag),
        (NHA_HW_STATS_USED, Value::U32(1)),
    ];
    let hop = MessageView::<NextHopObjects>::new(RTM_DELNEXTHOP, &OTHERS)?;
    assert!(rt; has_fields(&hop));
    assert!(rt; has_attributes(&hop.view(), &expected));
    // the first one counts
    assert!(rt; hop.view().u32(NHA_ID) == Some(7));
    Ok(())
}

/// Returns the number of members of a group, and the id and the weight of the last one.
fn members_of(group: &BlockView<'_>) -> Option<(usize, u32, u8)> {
    let mut count = 0usize;
    let mut last = (0, 0);
    for member in group.elements(NHA_GROUP)? {
        count = count.wrapping_add(1);
        last = member_of(member);
    }
    Some((count, last.0, last.1))
}

/// Returns the id of a member, and its weight less 1.
fn member_of(member: &[u8]) -> (u32, u8) {
    match member {
        [a, b, c, d, weight, _, _, _] => (u32::from_le_bytes([*a, *b, *c, *d]), *weight),
        _ => (0, 0),
    }
}

#[test]
fn a_group_is_read(rt: HostRuntime) -> Result<(), Fail> {
    match view_of(RTM_NEWNEXTHOP, &GROUP) {
        Some(group) => {
            assert!(rt; group.u16(NHA_GROUP_TYPE) == Some(1));
            assert!(rt; members_of(&group) == Some((2, 2, 2)));
            assert!(rt; group.bytes(NHA_GROUP_STATS) == Some(&GROUP[96..136]));
            assert!(rt; group.u32(NHA_HW_STATS_ENABLE) == Some(0));
            assert!(rt; group.u32(NHA_OP_FLAGS) == Some(0x8000_0000));
        }
        None => assert!(rt; false),
    }
    Ok(())
}

/// Returns a nest of a message.
fn nest_of(message_type: u16, payload: &[u8], kind: u16) -> Option<BlockView<'_>> {
    view_of(message_type, payload)?.nest(kind)
}

#[test]
fn resilient_groups_and_buckets_are_read(rt: HostRuntime) -> Result<(), Fail> {
    let timers = [
        (NHA_RES_GROUP_BUCKETS, Value::U16(4)),
        (NHA_RES_GROUP_IDLE_TIMER, Value::U32(12000)),
        (NHA_RES_GROUP_UNBALANCED_TIMER, Value::U32(100)),
        (NHA_RES_GROUP_UNBALANCED_TIME, Value::U64(0)),
    ];
    match nest_of(RTM_NEWNEXTHOP, &GROUP, NHA_RES_GROUP) {
        Some(group) => assert!(rt; has_attributes(&group, &timers)),
        None => assert!(rt; false),
    }
    match nest_of(RTM_NEWNEXTHOPBUCKET, &BUCKET, NHA_RES_BUCKET) {
        Some(bucket) => {
            assert!(rt; bucket.u16(NHA_RES_BUCKET_INDEX) == Some(3));
            assert!(rt; bucket.u64(NHA_RES_BUCKET_IDLE_TIME) == Some(52));
            assert!(rt; bucket.u32(NHA_RES_BUCKET_NH_ID) == Some(1));
        }
        None => assert!(rt; false),
    }
    Ok(())
}

// A message type, attributes after a header of zeros, and their error; no text if they are valid.
const ERRORS: [(u16, &[u8], &'static str); 14] = [
    (
        104,
        &[7, 0, 1, 0, 1, 2, 3, 0],
        "at byte 8, in policy 0: attribute 1 has a value of 3 bytes instead of 4",
    ),
    (
        106,
        &[9, 0, 5, 0, 1, 2, 3, 4, 5, 0, 0, 0],
        "at byte 8, in policy 0: attribute 5 has a value of 5 bytes instead of 4",
    ),
    (
        104,
        &[11, 0, 2, 0, 1, 2, 3, 4, 5, 6, 7, 0],
        "at byte 8, in policy 0: attribute 2 has a value of 7 bytes, no multiple of 8",
    ),
    (
        104,
        &[13, 0, 2, 0, 1, 2, 3, 4, 5, 6, 7, 8, 9, 0, 0, 0],
        "at byte 8, in policy 0: attribute 2 has a value of 9 bytes, no multiple of 8",
    ),
    (
        104,
        &[5, 0, 3, 0, 1, 0, 0, 0],
        "at byte 8, in policy 0: attribute 3 has a value of 1 bytes instead of 2",
    ),
    (
        104,
        &[5, 0, 4, 0, 1, 0, 0, 0],
        "at byte 8, in policy 0: attribute 4 has a value of 1 bytes instead of 0",
    ),
    (
        104,
        &[7, 0, 6, 0, 1, 2, 3, 0],
        "at byte 8, in policy 0: attribute 6 has an address of 3 bytes instead of 4 or 16",
    ),
    (
        104,
        &[9, 0, 6, 0, 1, 2, 3, 4, 5, 0, 0, 0],
        "at byte 8, in policy 0: attribute 6 has an address of 5 bytes instead of 4 or 16",
    ),
    // in nests
    (
        104,
        &[
            20, 0, 12, 0x80, 13, 0, 4, 0, 1, 2, 3, 4, 5, 6, 7, 8, 9, 0, 0, 0,
        ],
        "at byte 12, in policy 1: attribute 4 has a value of 9 bytes instead of 8",
    ),
    (
        116,
        &[12, 0, 13, 0x80, 5, 0, 1, 0, 1, 0, 0, 0],
        "at byte 12, in policy 2: attribute 1 has a value of 1 bytes instead of 2",
    ),
    (
        118,
        &[12, 0, 13, 0, 7, 0, 3, 0, 1, 2, 3, 0],
        "at byte 12, in policy 2: attribute 3 has a value of 3 bytes instead of 4",
    ),
    // nests that are cut, and the same in an encapsulation, whose attributes are not checked
    (
        104,
        &[11, 0, 12, 0x80, 8, 0, 2, 0, 1, 2, 3, 0],
        "at byte 12, in policy 1: an attribute of 8 bytes is truncated to 7",
    ),
    (
        117,
        &[11, 0, 13, 0, 8, 0, 2, 0, 1, 2, 3, 0],
        "at byte 12, in policy 2: an attribute of 8 bytes is truncated to 7",
    ),
    (104, &[11, 0, 8, 0x80, 8, 0, 2, 0, 1, 2, 3, 0], ""),
];

#[test]
fn invalid_next_hops_have_their_errors(rt: HostRuntime) -> Result<(), Fail> {
    for (message_type, attributes, text) in ERRORS.iter() {
        let found = error_text(rt.alloc(), *message_type, 8, attributes)?;
        assert_eq!(rt; found.as_str(), *text);
    }
    Ok(())
}

/// The payload of `ip nexthop add id 9 fdb via 192.0.2.9`, in `examples/captured/kinds.tsv`
const FDB: [u8; 28] = [
    2, 0, 0, 0, 0, 0, 0, 0, // AF_INET
    8, 0, 1, 0, 9, 0, 0, 0, // NHA_ID
    4, 0, 11, 0, // NHA_FDB
    8, 0, 6, 0, 192, 0, 2, 9, // NHA_GATEWAY
];

#[test]
fn a_next_hop_is_made(rt: HostRuntime) -> Result<(), Fail> {
    let alloc = rt.alloc();
    let mut hop: NextHopObjectMessage = OwnedMessage::new(alloc, RTM_NEWNEXTHOP)?;
    hop.set_u8(NH_FAMILY, 2);
    hop.push(alloc, NHA_ID, Value::U32(9))?;
    hop.push(alloc, NHA_FDB, Value::Flag)?;
    hop.push(alloc, NHA_GATEWAY, Value::Ip(&[192, 0, 2, 9]))?;
    assert_eq!(rt; hop.payload(), FDB.as_slice());
    Ok(())
}
