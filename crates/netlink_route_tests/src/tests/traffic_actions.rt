//! Actions of traffic control. Each sample is a payload, written by hand after the kernel's
//! `tcf_action_dump_1`, `tcf_gact_dump`, `tcf_del_walker` and `tca_dump_policy`.

use crate::tests::calls::has_attributes;
use crate::tests::samples::error_text;
use netlink_family::{BlockView, MessageView, OwnedMessage, Shape, Value};
use netlink_route::traffic_actions::*;
use netlink_route::traffic_control::{TCA_STATS_BASIC, TCA_STATS_PKT64, TCA_STATS_QUEUE};
use netlink_route::{TrafficActionMessage, TrafficActions};
use std::test::Fail;

/// Two actions, as in an answer to a request for all, and the attributes of requests
const LISTED: [u8; 236] = [
    45, 1, 2, 3, // struct tcamsg
    192, 0, 1, 0, // TCA_ROOT_TAB
    168, 0, 0, 0, // the first one
    9, 0, 1, 0, b'g', b'a', b'c', b't', 0, 0, 0, 0, // TCA_ACT_KIND
    60, 0, 4, 0, // TCA_ACT_STATS
    20, 0, 1, 0, 1, 0, 0, 0, 0, 0, 0, 0, 2, 0, 0, 0, 0, 0, 0, 0, // TCA_STATS_BASIC
    12, 0, 8, 0, 3, 0, 0, 0, 4, 0, 0, 0, // TCA_STATS_PKT64
    24, 0, 3, 0, 1, 0, 0, 0, 2, 0, 0, 0, 3, 0, 0, 0, 4, 0, 0, 0, 5, 0, 0, 0, // TCA_STATS_QUEUE
    8, 0, 3, 0, 7, 0, 0, 0, // TCA_ACT_INDEX
    6, 0, 6, 0, 0xca, 0xfe, 0, 0, // TCA_ACT_COOKIE
    12, 0, 8, 0, 1, 0, 0, 0, 3, 0, 0, 0, // TCA_ACT_HW_STATS
    12, 0, 9, 0, 2, 0, 0, 0, 3, 0, 0, 0, // TCA_ACT_USED_HW_STATS
    12, 0, 7, 0, 1, 0, 0, 0, 1, 0, 0, 0, // TCA_ACT_FLAGS
    8, 0, 10, 0, 9, 0, 0, 0, // TCA_ACT_IN_HW_COUNT
    28, 0, 2, 0, // TCA_ACT_OPTIONS
    24, 0, 2, 0, 7, 0, 0, 0, 0, 0, 0, 0, 2, 0, 0, 0, 1, 0, 0, 0, 0, 0, 0, 0, // TCA_GACT_PARMS
    4, 0, 5, 0, // TCA_ACT_PAD
    20, 0, 0xff, 0x3f, // the second one
    8, 0, 3, 0, 8, 0, 0, 0, // TCA_ACT_INDEX
    8, 0, 3, 0, 9, 0, 0, 0, // TCA_ACT_INDEX
    12, 0, 2, 0, 1, 0, 0, 0, 3, 0, 0, 0, // TCA_ROOT_FLAGS
    8, 0, 3, 0, 2, 0, 0, 0, // TCA_ROOT_COUNT
    8, 0, 4, 0, 0xe8, 3, 0, 0, // TCA_ROOT_TIME_DELTA
    8, 0, 5, 0, b'h', b'm', b'm', 0, // TCA_ROOT_EXT_WARN_MSG
    4, 0, 6, 0, // a kind without a row
];

/// The removal of three actions of a kind
const FLUSHED: [u8; 32] = [
    0, 0, 0, 0, // struct tcamsg
    28, 0, 1, 0, // TCA_ROOT_TAB
    24, 0, 0, 0, // the only one
    9, 0, 1, 0, b'g', b'a', b'c', b't', 0, 0, 0, 0, // TCA_ACT_KIND
    8, 0, 6, 0, 3, 0, 0, 0, // TCA_FCNT
];

/// Returns the list of actions of a message.
fn list_of(message_type: u16, payload: &[u8]) -> Option<BlockView<'_>> {
    match MessageView::<TrafficActions>::new(message_type, payload) {
        Ok(message) => message.view().nest(TCA_ROOT_TAB),
        Err(_) => None,
    }
}

/// Returns an action of a list.
fn action_of(message_type: u16, payload: &[u8], kind: u16) -> Option<BlockView<'_>> {
    list_of(message_type, payload)?.nest(kind)
}

#[test]
fn an_action_is_read(rt: HostRuntime) -> Result<(), Fail> {
    match action_of(RTM_NEWACTION, &LISTED, 0) {
        Some(action) => {
            assert!(rt; action.str(TCA_ACT_KIND) == Some("gact"));
            assert!(rt; action.u32(TCA_ACT_INDEX) == Some(7));
            assert!(rt; action.bytes(TCA_ACT_COOKIE) == Some([0xca, 0xfe].as_slice()));
            assert!(rt; action.exact(TCA_ACT_HW_STATS) == Some(&LISTED[104..112]));
            assert!(rt; action.exact(TCA_ACT_USED_HW_STATS) == Some(&LISTED[116..124]));
            assert!(rt; action.exact(TCA_ACT_FLAGS) == Some(&LISTED[128..136]));
            assert!(rt; action.u32(TCA_ACT_IN_HW_COUNT) == Some(9));
            assert!(rt; action.bytes(TCA_ACT_OPTIONS) == Some(&LISTED[148..172]));
            assert!(rt; action.bytes(5) == Some([].as_slice()));
        }
        None => assert!(rt; false),
    }
    Ok(())
}

/// Returns the statistics of the first action.
fn statistics() -> Option<BlockView<'static>> {
    action_of(RTM_NEWACTION, &LISTED, 0)?.nest(TCA_ACT_STATS)
}

#[test]
fn the_statistics_of_an_action_are_read(rt: HostRuntime) -> Result<(), Fail> {
    let expected = [
        (TCA_STATS_BASIC, Value::MinLen(12, &LISTED[32..48])),
        (TCA_STATS_PKT64, Value::U64(0x4_0000_0003)),
        (TCA_STATS_QUEUE, Value::MinLen(20, &LISTED[64..84])),
    ];
    match statistics() {
        Some(stats) => assert!(rt; has_attributes(&stats, &expected)),
        None => assert!(rt; false),
    }
    Ok(())
}

#[test]
fn any_number_is_that_of_an_action(rt: HostRuntime) -> Result<(), Fail> {
    let indices = [
        (TCA_ACT_INDEX, Value::U32(8)),
        (TCA_ACT_INDEX, Value::U32(9)),
    ];
    match action_of(RTM_NEWACTION, &LISTED, 0x3fff) {
        Some(action) => assert!(rt; has_attributes(&action, &indices)),
        None => assert!(rt; false),
    }
    match list_of(RTM_NEWACTION, &LISTED) {
        Some(list) => assert!(rt; list.shape(32) == Shape::Nested(ACTION)),
        None => assert!(rt; false),
    }
    Ok(())
}

#[test]
fn the_attributes_beside_a_list_are_read(rt: HostRuntime) -> Result<(), Fail> {
    let message = MessageView::<TrafficActions>::new(RTM_GETACTION, &LISTED)?;
    let view = message.view();
    assert!(rt; message.header().u8(TCA_FAMILY) == 45);
    assert!(rt; view.exact(TCA_ROOT_FLAGS) == Some(&LISTED[200..208]));
    assert!(rt; view.u32(TCA_ROOT_COUNT) == Some(2));
    assert!(rt; view.u32(TCA_ROOT_TIME_DELTA) == Some(1000));
    assert!(rt; view.str(TCA_ROOT_EXT_WARN_MSG) == Some("hmm"));
    assert!(rt; view.bytes(6) == Some([].as_slice()));
    Ok(())
}

#[test]
fn a_removal_is_read(rt: HostRuntime) -> Result<(), Fail> {
    let expected = [
        (TCA_ACT_KIND, Value::Str(b"gact\0")),
        (TCA_ACT_COOKIE, Value::Bytes(&[3, 0, 0, 0])),
    ];
    match action_of(RTM_DELACTION, &FLUSHED, 0) {
        Some(action) => assert!(rt; has_attributes(&action, &expected)),
        None => assert!(rt; false),
    }
    Ok(())
}

// Attributes after a header of zeros, and their error.
const ERRORS: [(&[u8], &'static str); 7] = [
    (
        &[11, 0, 2, 0, 1, 2, 3, 4, 5, 6, 7, 0],
        "at byte 4, in policy 0: attribute 2 has a value of 7 bytes instead of 8",
    ),
    (
        &[7, 0, 3, 0, 1, 2, 3, 0],
        "at byte 4, in policy 0: attribute 3 has a value of 3 bytes instead of 4",
    ),
    (
        &[7, 0, 4, 0, 1, 2, 3, 0],
        "at byte 4, in policy 0: attribute 4 has a value of 3 bytes instead of 4",
    ),
    (
        &[8, 0, 5, 0, b'h', 0, b'm', 0],
        "at byte 4, in policy 0: attribute 5 is a string with a NUL before its last byte",
    ),
    (
        &[5, 0, 1, 0, 1, 0, 0, 0],
        "at byte 8, in policy 2: 1 bytes are too few for an attribute",
    ),
    (
        &[16, 0, 1, 0, 12, 0, 1, 0, 7, 0, 10, 0, 1, 2, 3, 0],
        "at byte 12, in policy 3: attribute 10 has a value of 3 bytes instead of 4",
    ),
    (
        &[
            20, 0, 1, 0, 16, 0, 1, 0, 12, 0, 4, 0, 7, 0, 3, 0, 1, 2, 3, 0,
        ],
        "at byte 16, in policy 1: attribute 3 has a value of 3 bytes instead of 20 or more",
    ),
];

#[test]
fn invalid_actions_have_their_errors(rt: HostRuntime) -> Result<(), Fail> {
    for (attributes, text) in ERRORS.iter() {
        let found = error_text(rt.alloc(), RTM_NEWACTION, 4, attributes)?;
        assert_eq!(rt; found.as_str(), *text);
    }
    Ok(())
}

#[test]
fn a_removal_is_made(rt: HostRuntime) -> Result<(), Fail> {
    let alloc = rt.alloc();
    let mut message: TrafficActionMessage = OwnedMessage::new(alloc, RTM_DELACTION)?;
    message.try_push(alloc, TCA_ROOT_TAB, &FLUSHED[8..])?;
    assert_eq!(rt; message.payload(), FLUSHED.as_slice());
    Ok(())
}
