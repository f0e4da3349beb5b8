//! The multicast groups and router ports of bridges. Each sample is a payload.

use crate::tests::calls::has_attributes;
use crate::tests::samples::error_text;
use netlink_family::{AttributeError, BlockView, HeaderView, MessageView, OwnedMessage, Value};
use netlink_route::multicast_groups::*;
use netlink_route::{MulticastGroupMessage, MulticastGroups};
use std::test::Fail;

/// Two groups of a bridge, the first with each attribute; by hand
const GROUPS: [u8; 176] = [
    7, 0, 0, 0, 4, 0, 0, 0, // struct br_port_msg: AF_BRIDGE, link 4
    0xa8, 0, 1, 0, // MDBA_MDB
    0xa4, 0, 1, 0, // MDBA_MDB_ENTRY
    0x80, 0, 1, 0, // MDBA_MDB_ENTRY_INFO
    5, 0, 0, 0, 1, 4, 10, 0, // struct br_mdb_entry
    0xef, 1, 2, 3, 0, 0, 0, 0, 0, 0, 0, 0, 0, 0, 0, 0, // addr.u
    8, 0, 0, 0, // addr.proto
    8, 0, 1, 0, 0x90, 101, 0, 0, // MDBA_MDB_EATTR_TIMER: 260 seconds
    24, 0, 2, 0x80, // MDBA_MDB_EATTR_SRC_LIST
    20, 0, 1, 0x80, // MDBA_MDB_SRCLIST_ENTRY
    8, 0, 1, 0, 0xc0, 0, 2, 1, // MDBA_MDB_SRCATTR_ADDRESS
    8, 0, 2, 0, 0, 100, 0, 0, // MDBA_MDB_SRCATTR_TIMER
    5, 0, 3, 0, 1, 0, 0, 0, // MDBA_MDB_EATTR_GROUP_MODE
    8, 0, 4, 0, 0xc0, 0, 2, 2, // MDBA_MDB_EATTR_SOURCE
    5, 0, 5, 0, 2, 0, 0, 0, // MDBA_MDB_EATTR_RTPROT
    8, 0, 6, 0, 0xc6, 51, 100, 6, // MDBA_MDB_EATTR_DST
    6, 0, 7, 0, 0xb5, 18, 0, 0, // MDBA_MDB_EATTR_DST_PORT
    8, 0, 8, 0, 3, 2, 1, 0, // MDBA_MDB_EATTR_VNI
    8, 0, 9, 0, 9, 0, 0, 0, // MDBA_MDB_EATTR_IFINDEX
    8, 0, 10, 0, 6, 5, 4, 0, // MDBA_MDB_EATTR_SRC_VNI
    32, 0, 1, 0, // MDBA_MDB_ENTRY_INFO
    6, 0, 0, 0, 0, 2, 0, 0, // struct br_mdb_entry
    1, 0, 94, 1, 2, 3, 0, 0, 0, 0, 0, 0, 0, 0, 0, 0, // addr.u
    0, 0, 0, 0, // addr.proto
];

/// A router port with each attribute, and one without; by hand
const PORTS: [u8; 68] = [
    7, 0, 0, 0, 4, 0, 0, 0, // struct br_port_msg: AF_BRIDGE, link 4
    60, 0, 2, 0, // MDBA_ROUTER
    48, 0, 1, 0, // MDBA_ROUTER_PORT
    5, 0, 0, 0, // link 5
    8, 0, 1, 0, 1, 100, 0, 0, // MDBA_ROUTER_PATTR_TIMER
    5, 0, 2, 0, 1, 0, 0, 0, // MDBA_ROUTER_PATTR_TYPE: MDB_RTR_TYPE_TEMP_QUERY
    8, 0, 3, 0, 2, 100, 0, 0, // MDBA_ROUTER_PATTR_INET_TIMER
    8, 0, 4, 0, 3, 100, 0, 0, // MDBA_ROUTER_PATTR_INET6_TIMER
    6, 0, 5, 0, 2, 1, 0, 0, // MDBA_ROUTER_PATTR_VID
    8, 0, 1, 0, // MDBA_ROUTER_PORT
    6, 0, 0, 0, // link 6
];

/// `bridge mdb add`, with each attribute; by hand
const REQUEST: [u8; 132] = [
    7, 0, 0, 0, 4, 0, 0, 0, // struct br_port_msg
    32, 0, 1, 0, // MDBA_SET_ENTRY
    5, 0, 0, 0, 1, 0, 10, 0, // struct br_mdb_entry
    0xef, 1, 2, 3, 0, 0, 0, 0, 0, 0, 0, 0, 0, 0, 0, 0, // addr.u
    8, 0, 0, 0, // addr.proto
    92, 0, 2, 0x80, // MDBA_SET_ENTRY_ATTRS
    8, 0, 1, 0, 0xc0, 0, 2, 1, // MDBE_ATTR_SOURCE
    16, 0, 2, 0x80, // MDBE_ATTR_SRC_LIST
    12, 0, 1, 0x80, // MDBE_SRC_LIST_ENTRY
    8, 0, 1, 0, 0xc0, 0, 2, 2, // MDBE_SRCATTR_ADDRESS
    5, 0, 3, 0, 1, 0, 0, 0, // MDBE_ATTR_GROUP_MODE
    5, 0, 4, 0, 0xba, 0, 0, 0, // MDBE_ATTR_RTPROT
    8, 0, 5, 0, 0xc6, 51, 100, 6, // MDBE_ATTR_DST
    6, 0, 6, 0, 0xb5, 18, 0, 0, // MDBE_ATTR_DST_PORT
    8, 0, 7, 0, 3, 2, 1, 0, // MDBE_ATTR_VNI
    8, 0, 8, 0, 0xf7, 0xff, 0xff, 0xff, // MDBE_ATTR_IFINDEX, which the kernel would refuse
    8, 0, 9, 0, 6, 5, 4, 0, // MDBE_ATTR_SRC_VNI
    5, 0, 10, 0, 0x80, 0, 0, 0, // MDBE_ATTR_STATE_MASK
];

/// Returns an attribute outside any nest, as attributes of a policy.
fn part_of(payload: &[u8], kind: u16, policy: u16) -> Option<BlockView<'_>> {
    let message = MessageView::<MulticastGroups>::new(RTM_NEWMDB, payload).ok()?;
    message.view().nest_as(kind, policy).ok()?
}

/// The numbers of a `struct br_mdb_entry`: index, state, flags, VLAN and protocol.
type Numbers = (u32, u8, u8, u16, u16);

/// Returns whether a header is a `struct br_mdb_entry` of these numbers and this address.
fn is_entry(entry: Option<HeaderView<'_>>, numbers: Numbers, address: &[u8]) -> bool {
    let Some(entry) = entry else {
        return false;
    };
    if entry.bytes.len() != 28 {
        return false;
    }
    entry.u32(MDB_ENTRY_IFINDEX) == numbers.0
        && entry.u8(MDB_ENTRY_STATE) == numbers.1
        && entry.u8(MDB_ENTRY_FLAGS) == numbers.2
        && entry.u16(MDB_ENTRY_VID) == numbers.3
        && entry.be16(MDB_ENTRY_PROTO) == numbers.4
        && entry.exact(MDB_ENTRY_ADDRESS) == address
}

/// Returns the first entry of a list of groups.
fn entry_in(groups: Option<BlockView<'_>>) -> Option<BlockView<'_>> {
    groups?.nest(MDBA_MDB_ENTRY)
}

/// Returns the second attribute of a block, if it is a nest after a header: the header, and the nest.
fn second_in<'a>(block: &BlockView<'a>) -> Option<(HeaderView<'a>, BlockView<'a>)> {
    let mut all = block.attributes();
    all.next()?;
    let (_, value) = all.next()?;
    match value {
        Value::HeaderNested(header, nest) => Some((header, nest)),
        _ => None,
    }
}

/// Returns whether the attributes are those of the first group of `GROUPS`.
fn are_of_first(group: &BlockView<'_>) -> bool {
    group.u32(MDBA_MDB_EATTR_TIMER) == Some(26000)
        && has_source(group.nest(MDBA_MDB_EATTR_SRC_LIST))
        && group.u8(MDBA_MDB_EATTR_GROUP_MODE) == Some(1)
        && group.ip(MDBA_MDB_EATTR_SOURCE) == Some([192, 0, 2, 2].as_slice())
        && group.u8(MDBA_MDB_EATTR_RTPROT) == Some(2)
        && group.ip(MDBA_MDB_EATTR_DST) == Some([198, 51, 100, 6].as_slice())
        && group.u16(MDBA_MDB_EATTR_DST_PORT) == Some(4789)
        && group.u32(MDBA_MDB_EATTR_VNI) == Some(0x10203)
        && group.u32(MDBA_MDB_EATTR_IFINDEX) == Some(9)
        && group.u32(MDBA_MDB_EATTR_SRC_VNI) == Some(0x40506)
}

/// Returns the first source in a list.
fn source_in(sources: Option<BlockView<'_>>) -> Option<BlockView<'_>> {
    sources?.nest(MDBA_MDB_SRCLIST_ENTRY)
}

/// Returns whether a list of sources has the source of `GROUPS`.
fn has_source(sources: Option<BlockView<'_>>) -> bool {
    let expected = [
        (MDBA_MDB_SRCATTR_ADDRESS, Value::Ip(&[192, 0, 2, 1])),
        (MDBA_MDB_SRCATTR_TIMER, Value::U32(25600)),
    ];
    match source_in(sources) {
        Some(source) => has_attributes(&source, &expected),
        None => false,
    }
}

#[test]
fn groups_are_read(rt: HostRuntime) -> Result<(), Fail> {
    let Some(entry) = entry_in(part_of(&GROUPS, MDBA_MDB, MDB)) else {
        return Err(Fail::from("there is no entry"));
    };
    let first = (5, MDB_PERMANENT, MDB_FLAGS_STAR_EXCL, 10, 0x0800);
    assert!(rt;
        is_entry(
            entry.nest_header(MDBA_MDB_ENTRY_INFO),
            first,
            &GROUPS[28..44]
        )
    );
    match entry.nest(MDBA_MDB_ENTRY_INFO) {
        Some(group) => assert!(rt; are_of_first(&group)),
        None => assert!(rt; false),
    }
    let second = (6, MDB_TEMPORARY, MDB_FLAGS_FAST_LEAVE, 0, 0);
    match second_in(&entry) {
        Some((header, group)) => {
            assert!(rt; is_entry(Some(header), second, &GROUPS[156..172]));
            assert!(rt; has_attributes(&group, &[]));
        }
        None => assert!(rt; false),
    }
    Ok(())
}

/// Returns the index of a port.
fn port_of(header: Option<HeaderView<'_>>) -> Option<u32> {
    let header = header?;
    if header.bytes.len() != 4 {
        return None;
    }
    Some(header.u32(ROUTER_PORT_IFINDEX))
}

#[test]
fn router_ports_are_read(rt: HostRuntime) -> Result<(), Fail> {
    let expected = [
        (MDBA_ROUTER_PATTR_TIMER, Value::U32(25601)),
        (MDBA_ROUTER_PATTR_TYPE, Value::U8(1)),
        (MDBA_ROUTER_PATTR_INET_TIMER, Value::U32(25602)),
        (MDBA_ROUTER_PATTR_INET6_TIMER, Value::U32(25603)),
        (MDBA_ROUTER_PATTR_VID, Value::U16(258)),
    ];
    let Some(ports) = part_of(&PORTS, MDBA_ROUTER, ROUTER) else {
        return Err(Fail::from("there are no ports"));
    };
    assert!(rt; port_of(ports.nest_header(MDBA_ROUTER_PORT)) == Some(5));
    match ports.nest(MDBA_ROUTER_PORT) {
        Some(port) => assert!(rt; has_attributes(&port, &expected)),
        None => assert!(rt; false),
    }
    match second_in(&ports) {
        Some((header, port)) => {
            assert!(rt; port_of(Some(header)) == Some(6));
            assert!(rt; has_attributes(&port, &[]));
        }
        None => assert!(rt; false),
    }
    Ok(())
}

/// Returns the first source in the attributes of a request.
fn requested_source<'a>(attributes: &BlockView<'a>) -> Option<BlockView<'a>> {
    attributes
        .nest(MDBE_ATTR_SRC_LIST)?
        .nest(MDBE_SRC_LIST_ENTRY)
}

/// Returns whether the attributes are those of `REQUEST`.
fn are_of_request(attributes: &BlockView<'_>) -> bool {
    attributes.ip(MDBE_ATTR_SOURCE) == Some([192, 0, 2, 1].as_slice())
        && attributes.u8(MDBE_ATTR_GROUP_MODE) == Some(1)
        && attributes.u8(MDBE_ATTR_RTPROT) == Some(186)
        && attributes.ip(MDBE_ATTR_DST) == Some([198, 51, 100, 6].as_slice())
        && attributes.u16(MDBE_ATTR_DST_PORT) == Some(4789)
        && attributes.u32(MDBE_ATTR_VNI) == Some(0x10203)
        && attributes.i32(MDBE_ATTR_IFINDEX) == Some(-9)
        && attributes.u32(MDBE_ATTR_SRC_VNI) == Some(0x40506)
        && attributes.u8(MDBE_ATTR_STATE_MASK) == Some(0x80)
}

#[test]
fn a_request_is_read(rt: HostRuntime) -> Result<(), Fail> {
    let message = MessageView::<MulticastGroups>::new(RTM_NEWMDB, &REQUEST)?;
    assert!(rt; message.header().u8(BR_PORT_FAMILY) == 7);
    assert!(rt; message.header().u32(BR_PORT_IFINDEX) == 4);
    assert!(rt; message.view().bytes(MDBA_SET_ENTRY) == Some(&REQUEST[12..40]));
    let Some(attributes) = part_of(&REQUEST, MDBA_SET_ENTRY_ATTRS, SET_ENTRY_ATTRS) else {
        return Err(Fail::from("there are no attributes"));
    };
    assert!(rt; are_of_request(&attributes));
    let expected = [(MDBE_SRCATTR_ADDRESS, Value::Ip(&[192, 0, 2, 2]))];
    match requested_source(&attributes) {
        Some(source) => assert!(rt; has_attributes(&source, &expected)),
        None => assert!(rt; false),
    }
    Ok(())
}

#[test]
fn a_request_is_made(rt: HostRuntime) -> Result<(), Fail> {
    let alloc = rt.alloc();
    let mut request: MulticastGroupMessage = OwnedMessage::new(alloc, RTM_NEWMDB)?;
    request.set_u8(BR_PORT_FAMILY, 7);
    request.set_u32(BR_PORT_IFINDEX, 4);
    request.push(alloc, MDBA_SET_ENTRY, Value::Bytes(&REQUEST[12..40]))?;
    request.push(
        alloc,
        MDBA_SET_ENTRY_ATTRS | 0x8000,
        Value::Bytes(&REQUEST[44..]),
    )?;
    assert_eq!(rt; request.payload(), REQUEST.as_slice());
    Ok(())
}

// A kind, a policy, the value of this kind, and the offset in it and the policy of the error, if there
// is one.
const PARTS: [(u16, u16, &[u8], Option<(usize, u16)>); 9] = [
    (1, MDB, &[8, 0, 1, 0, 4, 0, 1, 0], Some((4, MDB_ENTRY))),
    (1, MDB, &[4, 0, 1, 0], None),
    (1, MDB, &[5, 0, 1, 0, 1, 0, 0, 0], Some((4, MDB_ENTRY))),
    (
        1,
        MDB_EATTR,
        &[5, 0, 1, 0, 1, 0, 0, 0],
        Some((0, MDB_EATTR)),
    ),
    (
        1,
        MDB_EATTR,
        &[8, 0, 7, 0, 1, 0, 0, 0],
        Some((0, MDB_EATTR)),
    ),
    (2, ROUTER, &[7, 0, 1, 0, 1, 0, 0, 0], Some((0, ROUTER))),
    (
        2,
        ROUTER,
        &[16, 0, 1, 0, 5, 0, 0, 0, 8, 0, 2, 0, 1, 0, 0, 0],
        Some((8, ROUTER_PATTR)),
    ),
    (2, SET_ENTRY_ATTRS, &[8, 0, 1, 0, 192, 0, 2, 1], None),
    (
        2,
        SET_ENTRY_ATTRS,
        &[9, 0, 1, 0, 192, 0, 2, 1, 0, 0, 0, 0],
        Some((0, SET_ENTRY_ATTRS)),
    ),
];

/// Returns the error of the value of an attribute as attributes of a policy: its offset, and the
/// policy.
fn error_in(message: &MulticastGroupMessage, kind: u16, policy: u16) -> Option<(usize, u16)> {
    let error: AttributeError = message.view().nest_as(kind, policy).err()?;
    Some((error.offset, error.policy))
}

#[test]
fn invalid_parts_have_their_errors(rt: HostRuntime) -> Result<(), Fail> {
    let alloc = rt.alloc();
    for (kind, policy, value, expected) in PARTS.iter() {
        let mut message: MulticastGroupMessage = OwnedMessage::new(alloc, RTM_NEWMDB)?;
        message.push(alloc, *kind, Value::Bytes(value))?;
        assert!(rt; error_in(&message, *kind, *policy) == *expected);
    }
    Ok(())
}

#[test]
fn a_cut_message_has_its_error(rt: HostRuntime) -> Result<(), Fail> {
    let found = error_text(rt.alloc(), RTM_DELMDB, 8, &[8, 0, 1, 0, 0])?;
    let text = "at byte 8, in policy 0: an attribute of 8 bytes is truncated to 5";
    assert_eq!(rt; found.as_str(), text);
    Ok(())
}
