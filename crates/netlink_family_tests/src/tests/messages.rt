//! One type decodes the messages of every family, and rejects others.

use crate::neighbours::{NDM_IFINDEX, RTM_GETNEIGH};
use crate::route::{Route, link_of, neighbour_link, threshold_or_priority};
use crate::rules::{FRH_ACTION, FRH_FLAGS, FRH_TABLE, RTM_NEWRULE};
use netlink_family::{FamilyError, Field, HeaderView, Shape, Value};
use netlink_packet_core::laws::reads_back;
use netlink_packet_core::{
    DecodeError, NetlinkDeserializable, NetlinkHeader, NetlinkMessage, NetlinkPayload, normalize,
};
use std::alloc::Global;
use std::test::Fail;

const NEIGHBOUR: [u8; 36] = [
    36, 0, 0, 0, 28, 0, 0, 0, 1, 0, 0, 0, 0, 0, 0, 0, // length 36, RTM_NEWNEIGH
    2, 0, 0, 0, 3, 0, 0, 0, 2, 0, 0x80, 1, // AF_INET, link 3
    8, 0, 1, 0, 192, 0, 2, 7, // NDA_DST
];

const TABLE: [u8; 36] = [
    36, 0, 0, 0, 64, 0, 0, 0, 1, 0, 0, 0, 0, 0, 0, 0, // length 36, RTM_NEWNEIGHTBL
    2, 0, 0, 0, // AF_INET
    6, 0, 1, 0, b'a', 0, 0, 0, // NDTA_NAME
    8, 0, 2, 0, 128, 0, 0, 0, // NDTA_THRESH1
];

const RULE: [u8; 36] = [
    36, 0, 0, 0, 32, 0, 0, 0, 1, 0, 0, 0, 0, 0, 0, 0, // length 36, RTM_NEWRULE
    2, 0, 0, 0, 254, 0, 0, 0, 1, 0, 0, 0, // AF_INET, table 254, FR_ACT_TO_TBL
    8, 0, 6, 0, 0xff, 0x7f, 0, 0, // FRA_PRIORITY
];

/// Decodes the message of a frame.
pub(super) fn message_of(
    alloc: Global,
    frame: &[u8],
) -> Result<NetlinkMessage<Route>, DecodeError> {
    NetlinkMessage::<Route>::deserialize(alloc, frame)
}

/// Returns whether a message fits. If it does, its frame obeys the law of reading back.
pub(super) fn is_read_back(message: &NetlinkMessage<Route>) -> bool {
    if !message.fits() {
        return false;
    }
    reads_back(message, message, &[7]);
    true
}

/// Returns whether a frame is in canonical form.
pub(super) fn is_normal(alloc: Global, frame: &[u8]) -> Result<bool, DecodeError> {
    Ok(normalize::<Route>(alloc, frame)?.as_slice() == frame)
}

#[test]
fn one_type_decodes_every_family(rt: HostRuntime) -> Result<(), Fail> {
    let alloc = rt.alloc();
    let rows: [(&[u8; 36], Option<i32>, Option<Value<'_>>); 3] = [
        (&NEIGHBOUR, Some(3), None),
        (&TABLE, None, Some(Value::U32(128))),
        (&RULE, None, Some(Value::U32(32767))),
    ];
    for (frame, link, number) in rows.iter() {
        let frame = &frame[..];
        let message = message_of(alloc, frame)?;
        assert!(rt; is_read_back(&message));
        assert!(rt; matches!(message.payload, NetlinkPayload::InnerMessage(_)));
        assert!(rt; is_normal(alloc, frame)?);
        let inner = Route::deserialize(alloc, &message.header, &frame[16..])?;
        assert!(rt; threshold_or_priority(&inner) == *number);
        assert!(rt; link_of(&inner) == *link);
        assert!(rt; neighbour_link(inner) == *link);
    }
    Ok(())
}

/// Decodes a payload.
fn route_of(alloc: Global, header: &NetlinkHeader, payload: &[u8]) -> Result<Route, FamilyError> {
    Route::deserialize(alloc, header, payload)
}

/// A frame is written without its message, in a vector of its exact size, also if its last padding
/// is missing, unless the payload is shorter than the header or its type is unknown.
#[test]
fn frames_are_written_without_messages(rt: HostRuntime) -> Result<(), Fail> {
    let alloc = rt.alloc();
    let mut header = NetlinkHeader {
        message_type: 28,
        ..NetlinkHeader::default()
    };
    assert!(rt; writes_frame(alloc, &header, &NEIGHBOUR[16..], &NEIGHBOUR[16..])?);
    header.message_type = 64;
    let last = [2, 0, 0, 0, 6, 0, 1, 0, b'a', 0]; // AF_INET, NDTA_NAME
    let padded = [2, 0, 0, 0, 6, 0, 1, 0, b'a', 0, 0, 0];
    assert!(rt; writes_frame(alloc, &header, &last, &padded)?);
    assert!(rt; writes_frame(alloc, &header, &last[..4], &last[..4])?);
    header.message_type = RTM_GETNEIGH;
    assert!(rt; Route::normal_frame(alloc, &header, &[2])?.is_none());
    header.message_type = 99;
    assert!(rt; Route::normal_frame(alloc, &header, &NEIGHBOUR[16..])?.is_none());
    Ok(())
}

/// Returns whether a payload's frame is written as 16 bytes and `encoding`, with no more room.
fn writes_frame(
    alloc: Global,
    header: &NetlinkHeader,
    payload: &[u8],
    encoding: &[u8],
) -> Result<bool, FamilyError> {
    Ok(match Route::normal_frame(alloc, header, payload)? {
        Some(frame) => frame[16..] == encoding[..] && frame.capacity() == frame.len(),
        None => false,
    })
}

#[test]
fn other_payloads_are_rejected(rt: HostRuntime) -> Result<(), Fail> {
    let alloc = rt.alloc();
    let mut header = NetlinkHeader {
        message_type: 16,
        ..NetlinkHeader::default()
    };
    assert!(rt;
        route_of(alloc, &header, &NEIGHBOUR[16..]).err()
            == Some(FamilyError::UnknownType { message_type: 16 })
    );
    header.message_type = 28;
    assert!(rt;
        route_of(alloc, &header, &[2]).err()
            == Some(FamilyError::HeaderShort {
                expected: 12,
                received: 1,
            })
    );
    Ok(())
}

#[test]
fn new_messages_are_encoded(rt: HostRuntime) -> Result<(), Fail> {
    let alloc = rt.alloc();
    let mut message = Route::new(alloc, RTM_GETNEIGH)?;
    message.set_i32(NDM_IFINDEX, 7);
    let frame = NetlinkMessage::from_inner(message).into_frame(alloc)?;
    assert_eq!(rt;
        frame.as_slice(),
        [
            28, 0, 0, 0, 30, 0, 0, 0, 0, 0, 0, 0, 0, 0, 0, 0, //
            0, 0, 0, 0, 7, 0, 0, 0, 0, 0, 0, 0,
        ]
        .as_slice()
    );
    Ok(())
}

// Fields of each shape, at offsets of the header of a rule.
const SIGNED: Field = ("signed", 0, Shape::I32);

const BIG: Field = ("big", 4, Shape::Be32);

const SHORT: Field = ("short", 6, Shape::U16);

const BIG_SHORT: Field = ("big short", 6, Shape::Be16);

/// Sets two fields of a rule.
fn set_signed_and_short(message: &mut Route) {
    if message.message_type == RTM_NEWRULE {
        message.set_i32(SIGNED, -2);
        message.set_u16(SHORT, 0x0506);
    }
}

/// Sets two more fields of a rule.
fn set_table_and_flags(message: &mut Route) {
    if message.message_type == RTM_NEWRULE {
        message.set_u8(FRH_TABLE, 9);
        message.set_u32(FRH_FLAGS, 0x01020304);
    }
}

/// Returns a rule with each of these fields.
fn rule(alloc: Global) -> Result<Route, Fail> {
    let mut message = Route::new(alloc, RTM_NEWRULE)?;
    set_signed_and_short(&mut message);
    set_table_and_flags(&mut message);
    Ok(message)
}

/// Returns the first field as an `i32`, and the second as a `u16` of each byte order.
fn shorts_of(header: HeaderView<'_>) -> Option<(i32, u16, u16)> {
    if header.bytes.len() < 12 {
        return None;
    }
    Some((
        header.i32(SIGNED),
        header.u16(SHORT),
        header.be16(BIG_SHORT),
    ))
}

/// Returns the action, the flags and the big-endian field.
fn others_of(header: HeaderView<'_>) -> Option<(u8, u32, u32)> {
    if header.bytes.len() < 12 {
        return None;
    }
    Some((
        header.u8(FRH_ACTION),
        header.u32(FRH_FLAGS),
        header.be32(BIG),
    ))
}

/// Returns whether the view of a message has this header.
fn has_view(message: &Route, header: HeaderView<'_>) -> bool {
    message.message_view().header() == header
}

#[test]
fn header_fields_are_written_and_read(rt: HostRuntime) -> Result<(), Fail> {
    let message = rule(rt.alloc())?;
    let header = message.header();
    assert!(rt; header.bytes == [0xfe, 0xff, 0xff, 0xff, 9, 0, 6, 5, 4, 3, 2, 1].as_slice());
    assert!(rt; shorts_of(header) == Some((-2, 0x0506, 0x0605)));
    assert!(rt; others_of(header) == Some((5, 0x01020304, 0x09000605)));
    assert!(rt; has_view(&message, header));
    Ok(())
}

// The other shapes of a field.
const LONG: Field = ("long", 0, Shape::U64);

const BIG_LONG: Field = ("big long", 4, Shape::Be64);

const ADDRESS: Field = ("address", 2, Shape::ExactLen(6));

/// Sets the long fields of a rule, one over a part of the other.
fn set_longs(message: &mut Route) {
    if message.message_type == RTM_NEWRULE {
        message.set_u64(LONG, 0x0807060504030201);
        message.set_be64(BIG_LONG, 0x1112131415161718);
    }
}

/// Sets two big-endian fields of a rule, and its address.
fn set_others(message: &mut Route) {
    if message.message_type == RTM_NEWRULE {
        message.set_be32(BIG, 0x21222324);
        message.set_be16(BIG_SHORT, 0x3132);
        message.set_exact(ADDRESS, &[0x41, 0x42, 0x43, 0x44, 0x45, 0x46]);
    }
}

/// Returns the long fields, and the address, of a header of 12 bytes.
fn longs_of<'a>(header: HeaderView<'a>) -> Option<(u64, u64, &'a [u8])> {
    if header.missing > 12 || header.bytes.len() + header.missing < 12 {
        return None;
    }
    Some((
        header.u64(LONG),
        header.be64(BIG_LONG),
        header.exact(ADDRESS),
    ))
}

#[test]
fn long_fields_are_written_and_read(rt: HostRuntime) -> Result<(), Fail> {
    let mut message = Route::new(rt.alloc(), RTM_NEWRULE)?;
    set_longs(&mut message);
    let written = [1, 2, 3, 4, 0x11, 0x12, 0x13, 0x14, 0x15, 0x16, 0x17, 0x18];
    assert_eq!(rt; message.header().bytes, written.as_slice());
    let address: &[u8] = &[3, 4, 0x11, 0x12, 0x13, 0x14];
    assert!(rt;
        longs_of(message.header()) == Some((0x1413121104030201, 0x1112131415161718, address))
    );
    set_others(&mut message);
    let written = [
        1, 2, 0x41, 0x42, 0x43, 0x44, 0x45, 0x46, 0x15, 0x16, 0x17, 0x18,
    ];
    assert_eq!(rt; message.header().bytes, written.as_slice());
    Ok(())
}

/// The bytes that a short payload lacks are 0 in a number, and left out of an address.
#[test]
fn long_fields_of_a_short_payload_are_read(rt: HostRuntime) -> Result<(), Fail> {
    let header = HeaderView {
        bytes: &[2, 0, 7, 5],
        missing: 8,
    };
    let address: &[u8] = &[7, 5];
    assert!(rt; longs_of(header) == Some((0x05070002, 0, address)));
    let header = HeaderView {
        bytes: &[2, 0, 7, 5, 9],
        missing: 7,
    };
    let address: &[u8] = &[7, 5, 9];
    assert!(rt; longs_of(header) == Some((0x0905070002, 0x0900000000000000, address)));
    Ok(())
}
