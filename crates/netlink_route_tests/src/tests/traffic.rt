//! Queueing disciplines, classes, filters and chains of filters.

use crate::tests::calls::has_attributes;
use crate::tests::samples::{error_text, invalid};
use crate::tests::traffic_samples::{
    CHAIN, CLASS, CODEL, DISCIPLINE, FILTER, INGRESS, NESTS, OTHERS,
};
use netlink_family::{BlockView, FamilyError, MessageView, OwnedMessage, Reason, Shape, Value};
use netlink_route::traffic_control::*;
use netlink_route::{TrafficControl, TrafficControlMessage};
use std::alloc::Global;
use std::test::Fail;

/// Returns a view of a message.
fn view_of(message_type: u16, payload: &[u8]) -> Option<BlockView<'_>> {
    match MessageView::<TrafficControl>::new(message_type, payload) {
        Ok(message) => Some(message.view()),
        Err(_) => None,
    }
}

/// Returns a nest of a message.
fn nest_of(message_type: u16, payload: &[u8], kind: u16) -> Option<BlockView<'_>> {
    view_of(message_type, payload)?.nest(kind)
}

/// Returns the family, the index, the handle, the parent and the last field of a message's header.
fn fields_of(message_type: u16, payload: &[u8]) -> Option<(u8, i32, u32, u32, u32)> {
    match MessageView::<TrafficControl>::new(message_type, payload) {
        Ok(message) => {
            let header = message.header();
            let (handle, parent) = (header.u32(TCM_HANDLE), header.u32(TCM_PARENT));
            let (family, info) = (header.u8(TCM_FAMILY), header.u32(TCM_INFO));
            Some((family, header.i32(TCM_IFINDEX), handle, parent, info))
        }
        Err(_) => None,
    }
}

#[test]
fn the_fields_of_headers_are_read(rt: HostRuntime) -> Result<(), Fail> {
    let discipline = fields_of(RTM_NEWQDISC, &DISCIPLINE);
    assert!(rt; discipline == Some((0, 1, 0x1_0000, 0xffff_ffff, 1)));
    let class = fields_of(RTM_NEWTCLASS, &CLASS);
    assert!(rt; class == Some((0, 1, 0x1_0010, 0x1_0001, 0)));
    let filter = fields_of(RTM_NEWTFILTER, &FILTER);
    assert!(rt; filter == Some((0, 1, 0x8000_0800, 0x1_0000, 0x1_0008)));
    let codel = fields_of(RTM_DELQDISC, &CODEL);
    assert!(rt; codel == Some((0, -2, 0x0403_0201, 0x0807_0605, 0x0c0b_0a09)));
    let others = fields_of(RTM_DELCHAIN, &OTHERS);
    assert!(rt; others == Some((45, 1, 0x2_0001, 0x4_0003, 0x6_0005)));
    Ok(())
}

#[test]
fn a_discipline_is_read(rt: HostRuntime) -> Result<(), Fail> {
    match view_of(RTM_NEWQDISC, &DISCIPLINE) {
        Some(discipline) => {
            assert!(rt; discipline.str(TCA_KIND) == Some("htb"));
            assert!(rt; discipline.shape(TCA_OPTIONS) == Shape::Nested(HTB));
            assert!(rt; discipline.u8(TCA_HW_OFFLOAD) == Some(0));
            assert!(rt; discipline.bytes(TCA_STATS) == Some(&DISCIPLINE[156..]));
        }
        None => assert!(rt; false),
    }
    let options = [
        (TCA_HTB_INIT, Value::MinLen(20, &DISCIPLINE[36..56])),
        (TCA_HTB_DIRECT_QLEN, Value::U32(1000)),
    ];
    match nest_of(RTM_NEWQDISC, &DISCIPLINE, TCA_OPTIONS) {
        Some(htb) => assert!(rt; has_attributes(&htb, &options)),
        None => assert!(rt; false),
    }
    let sizes = [(TCA_STAB_BASE, Value::MinLen(24, &DISCIPLINE[80..104]))];
    match nest_of(RTM_NEWQDISC, &DISCIPLINE, TCA_STAB) {
        Some(stab) => assert!(rt; has_attributes(&stab, &sizes)),
        None => assert!(rt; false),
    }
    Ok(())
}

#[test]
fn a_class_is_read(rt: HostRuntime) -> Result<(), Fail> {
    let options = [
        (TCA_HTB_PARMS, Value::MinLen(44, &CLASS[36..80])),
        (TCA_HTB_RATE64, Value::U64(10_000_000_000)),
        (TCA_HTB_CEIL64, Value::U64(12_500_000_000)),
    ];
    match nest_of(RTM_NEWTCLASS, &CLASS, TCA_OPTIONS) {
        Some(htb) => assert!(rt; has_attributes(&htb, &options)),
        None => assert!(rt; false),
    }
    let statistics = [
        (TCA_STATS_BASIC, Value::MinLen(12, &CLASS[112..128])),
        (TCA_STATS_QUEUE, Value::MinLen(20, &CLASS[132..152])),
        (TCA_STATS_APP, Value::Bytes(&CLASS[156..176])),
    ];
    match nest_of(RTM_NEWTCLASS, &CLASS, TCA_STATS2) {
        Some(stats) => assert!(rt; has_attributes(&stats, &statistics)),
        None => assert!(rt; false),
    }
    match view_of(RTM_NEWTCLASS, &CLASS) {
        Some(class) => assert!(rt; class.bytes(TCA_XSTATS) == Some(&CLASS[224..])),
        None => assert!(rt; false),
    }
    Ok(())
}

#[test]
fn filters_and_chains_are_read(rt: HostRuntime) -> Result<(), Fail> {
    match view_of(RTM_NEWTFILTER, &FILTER) {
        Some(filter) => {
            let attributes = [
                (TCA_KIND, Value::Str(&FILTER[24..28])),
                (TCA_CHAIN, Value::U32(0)),
                (TCA_OPTIONS, Value::Bytes(&FILTER[40..])),
            ];
            assert!(rt; has_attributes(&filter, &attributes));
        }
        None => assert!(rt; false),
    }
    match view_of(RTM_NEWCHAIN, &CHAIN) {
        Some(chain) => assert!(rt; has_attributes(&chain, &[(TCA_CHAIN, Value::U32(22))])),
        None => assert!(rt; false),
    }
    match view_of(RTM_NEWQDISC, &INGRESS) {
        Some(ingress) => assert!(rt; ingress.bytes(TCA_OPTIONS) == Some([].as_slice())),
        None => assert!(rt; false),
    }
    Ok(())
}

#[test]
fn each_option_of_fq_codel_is_read(rt: HostRuntime) -> Result<(), Fail> {
    let options = [
        (TCA_FQ_CODEL_TARGET, Value::U32(4999)),
        (TCA_FQ_CODEL_LIMIT, Value::U32(10240)),
        (TCA_FQ_CODEL_INTERVAL, Value::U32(99999)),
        (TCA_FQ_CODEL_ECN, Value::U32(1)),
        (TCA_FQ_CODEL_FLOWS, Value::U32(1024)),
        (TCA_FQ_CODEL_QUANTUM, Value::U32(1514)),
        (TCA_FQ_CODEL_CE_THRESHOLD, Value::U32(7)),
        (TCA_FQ_CODEL_DROP_BATCH_SIZE, Value::U32(64)),
        (TCA_FQ_CODEL_MEMORY_LIMIT, Value::U32(0x200_0000)),
        (TCA_FQ_CODEL_CE_THRESHOLD_SELECTOR, Value::U8(3)),
        (TCA_FQ_CODEL_CE_THRESHOLD_MASK, Value::U8(12)),
        (12, Value::Bytes(&[])),
    ];
    match nest_of(RTM_DELQDISC, &CODEL, TCA_OPTIONS) {
        Some(codel) => assert!(rt; has_attributes(&codel, &options)),
        None => assert!(rt; false),
    }
    Ok(())
}

#[test]
fn the_other_attributes_are_read(rt: HostRuntime) -> Result<(), Fail> {
    let expected = [
        (TCA_RATE, Value::MinLen(2, &[0xfe, 4])),
        (TCA_FCNT, Value::Bytes(&[9, 0, 0, 0])),
        (9, Value::Bytes(&[])),
        (TCA_DUMP_INVISIBLE, Value::Flag),
        (TCA_CHAIN, Value::U32(0x8000_0001)),
        (TCA_INGRESS_BLOCK, Value::U32(2)),
        (TCA_EGRESS_BLOCK, Value::U32(3)),
        (TCA_DUMP_FLAGS, Value::ExactLen(&[1, 0, 0, 0, 1, 0, 0, 0])),
        (TCA_EXT_WARN_MSG, Value::Str(b"hmm\0")),
        (TCA_CHAIN, Value::U32(2)),
    ];
    match view_of(RTM_GETTFILTER, &OTHERS) {
        Some(others) => {
            assert!(rt; has_attributes(&others, &expected));
            // the first one counts
            assert!(rt; others.u32(TCA_CHAIN) == Some(0x8000_0001));
        }
        None => assert!(rt; false),
    }
    Ok(())
}

#[test]
fn the_rest_of_nests_is_read(rt: HostRuntime) -> Result<(), Fail> {
    let options = [
        (TCA_HTB_CTAB, Value::Bytes(&[1])),
        (TCA_HTB_RTAB, Value::Bytes(&[])),
        (8, Value::Bytes(&[])),
        (TCA_HTB_OFFLOAD, Value::Flag),
    ];
    match nest_of(RTM_GETTCLASS, &NESTS, TCA_OPTIONS) {
        Some(htb) => assert!(rt; has_attributes(&htb, &options)),
        None => assert!(rt; false),
    }
    let statistics = [
        (TCA_STATS_RATE_EST, Value::MinLen(8, &NESTS[60..68])),
        (TCA_STATS_RATE_EST64, Value::MinLen(16, &NESTS[72..88])),
        (6, Value::Bytes(&[])),
        (TCA_STATS_BASIC_HW, Value::MinLen(12, &NESTS[96..112])),
        (TCA_STATS_PKT64, Value::U64(0x1_0000_0001)),
    ];
    match nest_of(RTM_GETTCLASS, &NESTS, TCA_STATS2) {
        Some(stats) => assert!(rt; has_attributes(&stats, &statistics)),
        None => assert!(rt; false),
    }
    let sizes = [
        (TCA_STAB_BASE, Value::MinLen(24, &NESTS[132..156])),
        (TCA_STAB_DATA, Value::Bytes(&[53, 0, 106, 0])),
        (3, Value::Bytes(&[])),
    ];
    match nest_of(RTM_GETTCLASS, &NESTS, TCA_STAB) {
        Some(stab) => assert!(rt; has_attributes(&stab, &sizes)),
        None => assert!(rt; false),
    }
    Ok(())
}

/// Returns the error of options that are pushed before their kind or after it.
fn pushed(alloc: Global, is_late: bool) -> Result<Option<FamilyError>, FamilyError> {
    let options = &DISCIPLINE[32..64];
    let mut message: TrafficControlMessage = OwnedMessage::new(alloc, RTM_NEWQDISC)?;
    if is_late {
        message.try_push(alloc, TCA_OPTIONS, options)?;
        return Ok(message.try_push(alloc, TCA_KIND, b"htb\0").err());
    }
    message.try_push(alloc, TCA_KIND, b"htb\0")?;
    Ok(message.try_push(alloc, TCA_OPTIONS, options).err())
}

#[test]
fn a_kind_comes_before_its_options(rt: HostRuntime) -> Result<(), Fail> {
    let alloc = rt.alloc();
    let late = Reason::LateChoice { kind: TCA_KIND };
    assert!(rt; pushed(alloc, false)? == None);
    assert!(rt; pushed(alloc, true)? == invalid(0, late));
    Ok(())
}

#[test]
fn a_chain_is_made(rt: HostRuntime) -> Result<(), Fail> {
    let alloc = rt.alloc();
    let mut chain: TrafficControlMessage = OwnedMessage::new(alloc, RTM_NEWCHAIN)?;
    chain.set_i32(TCM_IFINDEX, 1);
    chain.set_u32(TCM_PARENT, 0xffff_0000);
    chain.push(alloc, TCA_CHAIN, Value::U32(22))?;
    assert_eq!(rt; chain.payload(), CHAIN.as_slice());
    Ok(())
}

// A message type, attributes after a header of zeros, and their error; no text if they are valid.
const ERRORS: [(u16, &[u8], &'static str); 16] = [
    (
        36,
        &[8, 0, 1, 0, b'h', 0, b'b', 0],
        "at byte 20, in policy 0: attribute 1 is a string with a NUL before its last byte",
    ),
    (
        37,
        &[5, 0, 3, 0, 1, 0, 0, 0],
        "at byte 20, in policy 0: attribute 3 has a value of 1 bytes instead of 36 or more",
    ),
    (
        36,
        &[5, 0, 5, 0, 1, 0, 0, 0],
        "at byte 20, in policy 0: attribute 5 has a value of 1 bytes instead of 2 or more",
    ),
    (
        36,
        &[5, 0, 10, 0, 1, 0, 0, 0],
        "at byte 20, in policy 0: attribute 10 has a value of 1 bytes instead of 0",
    ),
    (
        100,
        &[5, 0, 11, 0, 1, 0, 0, 0],
        "at byte 20, in policy 0: attribute 11 has a value of 1 bytes instead of 4",
    ),
    (
        36,
        &[6, 0, 12, 0, 1, 0, 0, 0],
        "at byte 20, in policy 0: attribute 12 has a value of 2 bytes instead of 1",
    ),
    (
        46,
        &[8, 0, 15, 0, 1, 0, 0, 0],
        "at byte 20, in policy 0: attribute 15 has a value of 4 bytes instead of 8",
    ),
    // statistics and tables of sizes
    (
        40,
        &[8, 0, 7, 0, 4, 0, 1, 0],
        "at byte 24, in policy 1: attribute 1 has a value of 0 bytes instead of 12 or more",
    ),
    (
        40,
        &[
            28, 0, 7, 0, 23, 0, 3, 0, 0, 0, 0, 0, 0, 0, 0, 0, 0, 0, 0, 0, 0, 0, 0, 0, 0, 0, 0, 0,
        ],
        "at byte 24, in policy 1: attribute 3 has a value of 19 bytes instead of 20 or more",
    ),
    (
        40,
        &[11, 0, 7, 0, 7, 0, 8, 0, 1, 2, 3, 0],
        "at byte 24, in policy 1: attribute 8 has a value of 3 bytes instead of 8",
    ),
    (
        36,
        &[8, 0, 8, 0, 4, 0, 1, 0],
        "at byte 24, in policy 2: attribute 1 has a value of 0 bytes instead of 24 or more",
    ),
    // options of a kind that has a policy, and of others
    (
        36,
        &[8, 0, 1, 0, b'h', b't', b'b', 0, 8, 0, 2, 0, 4, 0, 1, 0],
        "at byte 32, in policy 5: attribute 1 has a value of 0 bytes instead of 44 or more",
    ),
    (
        42,
        &[
            12, 0, 2, 0, 5, 0, 10, 0, 1, 0, 0, 0, 12, 0, 1, 0, b'f', b'q', b'_', b'c', b'o', b'd',
            b'e', b'l',
        ],
        "",
    ),
    (
        36,
        &[
            5, 0, 2, 0, 1, 0, 0, 0, 12, 0, 1, 0, b'f', b'q', b'_', b'c', b'o', b'd', b'e', b'l',
        ],
        "at byte 24, in policy 4: 1 bytes are too few for an attribute",
    ),
    (
        44,
        &[8, 0, 1, 0, b'h', b't', b'c', 0, 8, 0, 2, 0, 4, 0, 1, 0],
        "",
    ),
    (102, &[8, 0, 2, 0, 1, 0, 0, 0], ""),
];

#[test]
fn invalid_messages_have_their_errors(rt: HostRuntime) -> Result<(), Fail> {
    for (message_type, attributes, text) in ERRORS.iter() {
        let found = error_text(rt.alloc(), *message_type, 20, attributes)?;
        assert_eq!(rt; found.as_str(), *text);
    }
    Ok(())
}
