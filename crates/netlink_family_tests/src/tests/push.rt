//! Values are appended by their shapes.

use crate::neighbours::{NeighbourMessage, Neighbours, RTM_NEWNEIGH};
use crate::shapes::{EVERY, EveryMessage};
use netlink_family::{FamilyError, MessageView, OwnedMessage, Value};
use netlink_packet_core::{NetlinkHeader, NetlinkMessage};
use std::alloc::Global;
use std::test::Fail;

const NUMBERS: [u8; 124] = [
    4, 0, 1, 0, // flag
    5, 0, 2, 0, 0xfe, 0, 0, 0, // u8
    6, 0, 3, 0, 0x02, 0x01, 0, 0, // u16
    8, 0, 4, 0, 0x04, 0x03, 0x02, 0x01, // u32
    12, 0, 5, 0, 0x08, 0x07, 0x06, 0x05, 0x04, 0x03, 0x02, 0x01, // u64
    8, 0, 6, 0, 0xfe, 0xff, 0xff, 0xff, // i32
    12, 0, 7, 0, 0xfd, 0xff, 0xff, 0xff, 0xff, 0xff, 0xff, 0xff, // i64
    6, 0, 8, 0, 0x01, 0x02, 0, 0, // be16
    8, 0, 9, 0, 0x01, 0x02, 0x03, 0x04, // be32
    12, 0, 10, 0, 0x01, 0x02, 0x03, 0x04, 0x05, 0x06, 0x07, 0x08, // be64
    6, 0, 11, 0, 7, 8, 0, 0, // exact
    7, 0, 15, 0, 9, 8, 7, 0, // min, with bytes beyond the minimum
    8, 0, 18, 0, 0xff, 0xff, 0xfe, 0xd4, // be_i32
    12, 0, 19, 0, 1, 2, 3, 4, 5, 6, 7, 8, // pairs
];

/// Appends a value of each shape of a fixed size, and one of a minimum size.
fn push_numbers(alloc: Global, message: &mut EveryMessage) -> Result<(), FamilyError> {
    message.push(alloc, 1, Value::Flag)?;
    message.push(alloc, 2, Value::U8(0xfe))?;
    message.push(alloc, 3, Value::U16(0x0102))?;
    message.push(alloc, 4, Value::U32(0x01020304))?;
    message.push(alloc, 5, Value::U64(0x0102030405060708))?;
    message.push(alloc, 6, Value::I32(-2))?;
    message.push(alloc, 7, Value::I64(-3))?;
    message.push(alloc, 8, Value::Be16(0x0102))?;
    message.push(alloc, 9, Value::Be32(0x01020304))?;
    message.push(alloc, 10, Value::Be64(0x0102030405060708))?;
    message.push(alloc, 11, Value::ExactLen(&[7, 8]))?;
    message.push(alloc, 15, Value::MinLen(1, &[9, 8, 7]))?;
    message.push(alloc, 18, Value::BeI32(-300))?;
    message.push(alloc, 19, Value::Elements(4, &[1, 2, 3, 4, 5, 6, 7, 8]))
}

/// Appends a value of each shape of more than one size, and one of a kind without a row.
fn push_texts(alloc: Global, message: &mut EveryMessage) -> Result<(), FamilyError> {
    message.push(alloc, 12, Value::Ip(&[192, 0, 2, 1]))?;
    message.push(alloc, 13, Value::NulStr(b"lo\0"))?;
    message.push(alloc, 14, Value::Str(b"lo"))?;
    message.push(alloc, 200, Value::Bytes(&[1]))
}

#[test]
fn numbers_are_appended(rt: HostRuntime) -> Result<(), Fail> {
    let alloc = rt.alloc();
    let mut message: EveryMessage = OwnedMessage::new(alloc, EVERY)?;
    push_numbers(alloc, &mut message)?;
    assert!(rt; message.bytes.as_slice() == NUMBERS.as_slice());
    Ok(())
}

#[test]
fn texts_are_appended(rt: HostRuntime) -> Result<(), Fail> {
    let alloc = rt.alloc();
    let mut message: EveryMessage = OwnedMessage::new(alloc, EVERY)?;
    push_texts(alloc, &mut message)?;
    let expected = [
        8, 0, 12, 0, 192, 0, 2, 1, // ip
        7, 0, 13, 0, b'l', b'o', 0, 0, // nul
        6, 0, 14, 0, b'l', b'o', 0, 0, // str
        5, 0, 200, 0, 1, 0, 0, 0, // bytes
    ];
    assert!(rt; message.bytes.as_slice() == expected.as_slice());
    Ok(())
}

const FRAME: [u8; 36] = [
    36, 0, 0, 0, 28, 0, 2, 0, 7, 0, 0, 0, 9, 0, 0, 0, // length 36, RTM_NEWNEIGH
    2, 0, 0, 0, 3, 0, 0, 0, 0, 0, 0, 0, // AF_INET, link 3
    8, 0, 1, 0, 192, 0, 2, 7, // NDA_DST
];

/// Returns whether a view of the payload of `FRAME` is copied to the message that `deserialize`
/// returns.
fn is_deserialized(alloc: Global) -> bool {
    let view = match MessageView::<Neighbours>::new(RTM_NEWNEIGH, &FRAME[16..]) {
        Ok(view) => view,
        Err(_) => return false,
    };
    let header = NetlinkHeader {
        length: 36,
        message_type: 28,
        flags: 2,
        sequence_number: 7,
        port_number: 9,
    };
    match (
        view.to_message(alloc, header),
        NetlinkMessage::<NeighbourMessage>::deserialize(alloc, &FRAME),
    ) {
        (Ok(message), Ok(expected)) => message == expected,
        _ => false,
    }
}

#[test]
fn views_are_copied_with_their_header(rt: HostRuntime) -> Result<(), Fail> {
    assert!(rt; is_deserialized(rt.alloc()));
    Ok(())
}
