//! Payloads of 1 to 4 bytes in place of header and attributes (`struct rtgenmsg` of
//! linux/rtnetlink.h).

use super::messages::{is_normal, is_read_back, message_of};
use crate::neighbours::{
    NDA_IFINDEX, NDM_FAMILY, NDM_FLAGS, NDM_IFINDEX, NDM_STATE, Neighbours, RTM_GETNEIGH,
    RTM_NEWNEIGH,
};
use crate::route::{Families, Route};
use netlink_family::{
    CheckedAttributes, FamilyError, MessageView, OwnedMessage, Shape, Value, is_short,
};
use netlink_packet_core::{NetlinkDeserializable, NetlinkHeader};
use std::alloc::{AllocError, Global};
use std::test::Fail;

// A message type, a payload, and whether the payload is short.
const PAYLOADS: [(u16, &[u8], bool); 8] = [
    (RTM_GETNEIGH, &[2], true),
    (RTM_GETNEIGH, &[10, 1], true),
    (RTM_GETNEIGH, &[2, 1, 2, 3], true),
    // too few bytes, or too many
    (RTM_GETNEIGH, &[], false),
    (RTM_GETNEIGH, &[2, 0, 0, 0, 0], false),
    (RTM_GETNEIGH, &[2, 0, 0, 0, 0, 0, 0, 0, 0, 0, 0], false),
    // the table does not allow it for this type
    (RTM_NEWNEIGH, &[2], false),
    (RTM_NEWNEIGH, &[2, 0, 0, 0], false),
];

#[test]
fn short_payloads_are_kept_and_others_rejected(rt: HostRuntime) -> Result<(), Fail> {
    let alloc = rt.alloc();
    for (message_type, payload, short) in PAYLOADS.iter() {
        assert!(rt; is_short::<Neighbours>(*message_type, payload) == *short);
        if *short {
            assert!(rt; is_kept(alloc, *message_type, payload)?);
        } else {
            let error = FamilyError::HeaderShort {
                expected: 12,
                received: payload.len(),
            };
            assert!(rt; is_rejected(alloc, *message_type, payload, error));
        }
    }
    Ok(())
}

/// Decodes a payload.
fn route_of(alloc: Global, message_type: u16, payload: &[u8]) -> Result<Route, FamilyError> {
    let header = NetlinkHeader {
        message_type,
        ..NetlinkHeader::default()
    };
    Route::deserialize(alloc, &header, payload)
}

/// Checks a payload.
fn view_of<'a>(
    message_type: u16,
    payload: &'a [u8],
) -> Result<MessageView<'a, Families>, FamilyError> {
    MessageView::<Families>::new(message_type, payload)
}

/// Begins to iterate over a payload.
fn attributes_of<'a>(
    message_type: u16,
    payload: &'a [u8],
) -> Result<CheckedAttributes<'a, Families>, FamilyError> {
    CheckedAttributes::<Families>::new(message_type, payload)
}

/// Returns whether a message is short, has this payload, and a view of it.
fn is_message(message: &Route, payload: &[u8]) -> bool {
    message.is_short() && message.payload() == payload && message.message_view().payload == payload
}

/// Returns whether a view is short and has no attributes.
fn is_view(view: &MessageView<'_, Families>) -> bool {
    view.is_short() && view.block().is_empty()
}

/// Returns the family in a short message, and the link that it lacks.
fn family_and_link(message: &Route) -> Option<(u8, i32)> {
    if message.is_short() {
        Some((message.header().u8(NDM_FAMILY), 0))
    } else {
        None
    }
}

/// Returns the family and the link in a view of a short payload.
fn family_and_link_of(view: &MessageView<'_, Families>) -> Option<(u8, i32)> {
    if !view.is_short() {
        return None;
    }
    let header = view.header();
    Some((header.u8(NDM_FAMILY), header.i32(NDM_IFINDEX)))
}

/// Returns whether a view is copied to a message that is equal to this one.
fn is_copied(
    alloc: Global,
    view: &MessageView<'_, Families>,
    message: &Route,
) -> Result<bool, AllocError> {
    Ok(view.to_owned(alloc)? == *message)
}

/// Returns whether a payload is decoded as it is, in place and owned, and has no attributes.
fn is_kept(alloc: Global, message_type: u16, payload: &[u8]) -> Result<bool, FamilyError> {
    let message = route_of(alloc, message_type, payload)?;
    let view = view_of(message_type, payload)?;
    Ok(
        attributes_of(message_type, payload)?.next().is_none()
            && is_message(&message, payload)
            && is_view(&view)
            && family_and_link_of(&view) == family_and_link(&message)
            && is_copied(alloc, &view, &message)?,
    )
}

/// Returns whether a payload has this error, in place, owned and in one pass.
fn is_rejected(alloc: Global, message_type: u16, payload: &[u8], error: FamilyError) -> bool {
    route_of(alloc, message_type, payload).err() == Some(error)
        && view_of(message_type, payload).err() == Some(error)
        && attributes_of(message_type, payload).err() == Some(error)
}

// A request for a dump, with bytes other than 0 in its padding.
const REQUEST: [u8; 20] = [
    20, 0, 0, 0, 30, 0, 1, 3, 1, 0, 0, 0, 0, 0, 0, 0, // length 20, RTM_GETNEIGH, a dump
    2, 7, 8, 9, // AF_INET and padding
];

#[test]
fn a_request_is_written_as_it_came(rt: HostRuntime) -> Result<(), Fail> {
    let alloc = rt.alloc();
    let message = message_of(alloc, &REQUEST)?;
    assert!(rt; is_read_back(&message));
    assert!(rt; is_normal(alloc, &REQUEST)?);
    assert_eq!(rt; message.into_frame(alloc)?.as_slice(), REQUEST.as_slice());
    Ok(())
}

/// Returns the 16-bit numbers of a header.
fn shorts_of(view: &MessageView<'_, Neighbours>) -> [u16; 3] {
    let header = view.header();
    [
        header.u16(("u16", 2, Shape::U16)),
        header.u16(NDM_STATE),
        header.be16(("be16", 2, Shape::Be16)),
    ]
}

/// Returns the big-endian numbers of a header.
fn big_of(view: &MessageView<'_, Neighbours>) -> [u32; 2] {
    let header = view.header();
    [
        header.be32(("be32", 0, Shape::Be32)),
        header.be32(("be32", 8, Shape::Be32)),
    ]
}

/// Returns a `u32` and an `i32` of a header.
fn numbers_of(view: &MessageView<'_, Neighbours>) -> (u32, i32) {
    let header = view.header();
    (
        header.u32(("u32", 0, Shape::U32)),
        header.i32(("i32", 1, Shape::I32)),
    )
}

/// Returns the family and the flags in a header.
fn bytes_of(view: &MessageView<'_, Neighbours>) -> [u8; 2] {
    let header = view.header();
    [header.u8(NDM_FAMILY), header.u8(NDM_FLAGS)]
}

#[test]
fn bytes_that_a_short_payload_lacks_are_read_as_zero(rt: HostRuntime) -> Result<(), Fail> {
    let view = MessageView::<Neighbours>::new(RTM_GETNEIGH, &[1, 2, 3])?;
    assert!(rt; bytes_of(&view) == [1, 0]);
    assert!(rt; shorts_of(&view) == [3, 0, 0x0300]);
    assert!(rt; numbers_of(&view) == (0x00030201, 0x0302));
    assert!(rt; big_of(&view) == [0x01020300, 0]);
    Ok(())
}

/// Returns whether a message has this payload.
fn has_payload(message: &OwnedMessage<Neighbours>, payload: &[u8]) -> bool {
    message.payload() == payload
}

/// Returns whether a message is whole after a field is set.
fn is_whole_with_link(message: &mut OwnedMessage<Neighbours>) -> bool {
    message.set_i32(NDM_IFINDEX, 3);
    !message.is_short()
}

/// Appends an attribute.
fn push_link(alloc: Global, message: &mut OwnedMessage<Neighbours>) -> Result<(), FamilyError> {
    message.push(alloc, NDA_IFINDEX, Value::U32(3))
}

#[test]
fn a_change_makes_a_short_message_whole(rt: HostRuntime) -> Result<(), Fail> {
    let alloc = rt.alloc();
    let mut message = OwnedMessage::<Neighbours>::new_short(alloc, RTM_GETNEIGH, &[2, 7])?;
    assert!(rt; has_payload(&message, &[2, 7]));
    assert!(rt; is_whole_with_link(&mut message));
    assert!(rt; has_payload(&message, &[2, 7, 0, 0, 3, 0, 0, 0, 0, 0, 0, 0]));
    let mut message = OwnedMessage::<Neighbours>::new_short(alloc, RTM_GETNEIGH, &[2])?;
    push_link(alloc, &mut message)?;
    let whole = [2, 0, 0, 0, 0, 0, 0, 0, 0, 0, 0, 0, 8, 0, 8, 0, 3, 0, 0, 0];
    assert!(rt; has_payload(&message, &whole));
    Ok(())
}
