//! Code that allocates.
//!
//! `tests/memory` runs each test once per allocation, with that allocation failing: the test must
//! pass, or return the out-of-memory error by `?`.

use crate::tests::calls::normal;
use crate::tests::samples::{ADDRESS, LO, NEIGHBOUR, decoded, invalid};
use netlink_family::{FamilyError, MessageView, Reason, Value};
use netlink_packet_core::{DecodeError, NetlinkHeader};
use netlink_route::links::{IFLA_MTU, RTM_GETLINK, RTM_NEWLINK};
use netlink_route::{LinkMessage, Links};
use std::alloc::{AllocError, Global};
use std::test::Fail;

/// Returns whether a payload is decoded, and its attributes are these bytes.
fn has_block(
    alloc: Global,
    message_type: u16,
    payload: &[u8],
    block: &[u8],
) -> Result<bool, FamilyError> {
    Ok(decoded(alloc, message_type, payload)?.view().block == block)
}

#[test]
fn messages_are_decoded(rt: HostRuntime) -> Result<(), Fail> {
    let alloc = rt.alloc();
    let link = decoded(alloc, 16, &LO[16..])?;
    assert!(rt; link.view().block.len() == 48);
    assert!(rt; has_block(alloc, 20, &ADDRESS[16..], &ADDRESS[24..])?);
    assert!(rt; has_block(alloc, 28, &NEIGHBOUR[16..], &NEIGHBOUR[28..])?);
    Ok(())
}

/// One byte follows the attributes of a link. The attributes before it may be copied first.
#[test]
fn a_message_is_rejected(rt: HostRuntime) -> Result<(), Fail> {
    let error = decoded(rt.alloc(), 16, &LO[16..77]).err();
    if error == Some(FamilyError::OutOfMemory) {
        return Err(Fail::from(FamilyError::OutOfMemory));
    }
    assert!(rt; error == invalid(60, Reason::Short { received: 1 }));
    Ok(())
}

/// A frame is written without its message, in a vector of its exact size.
#[test]
fn a_frame_is_normalized(rt: HostRuntime) -> Result<(), Fail> {
    let frame = normal(rt.alloc(), &LO)?;
    assert!(rt; frame.len() == 80);
    assert!(rt; frame.capacity() == 80);
    assert!(rt; frame[..23] == LO[..23] && frame[23] == 0);
    Ok(())
}

/// One byte follows the attributes of a link, as above.
#[test]
fn a_frame_is_rejected(rt: HostRuntime) -> Result<(), Fail> {
    let mut frame = LO;
    frame[0] = 77;
    match normal(rt.alloc(), &frame).err() {
        None => assert!(rt; false),
        Some(error) => {
            if !is_short(&error) {
                return Err(Fail::from(error));
            }
        }
    }
    Ok(())
}

/// Returns whether an error says that no attribute begins at byte 60 of a link.
fn is_short(error: &DecodeError) -> bool {
    match error {
        DecodeError::Message(text) => {
            text.as_str()
                == "Failed to parse message with type 16: at byte 60, in policy 0: 1 bytes are too few for an attribute"
        }
        _ => false,
    }
}

/// Returns a copy of a view.
fn copied(alloc: Global, link: &MessageView<'_, Links>) -> Result<LinkMessage, AllocError> {
    link.to_owned(alloc)
}

#[test]
fn views_are_copied(rt: HostRuntime) -> Result<(), Fail> {
    let alloc = rt.alloc();
    let link = MessageView::<Links>::new(RTM_NEWLINK, &LO[16..])?;
    let owned = copied(alloc, &link)?;
    assert!(rt; owned.bytes.len() == 64);
    assert!(rt; has_block(alloc, 16, &LO[16..], owned.view().block)?);
    let header = NetlinkHeader {
        length: 80,
        message_type: RTM_NEWLINK,
        flags: 0,
        sequence_number: 0,
        port_number: 0,
    };
    assert!(rt; link.to_message(alloc, header)?.header.length == 80);
    Ok(())
}

#[test]
fn short_payloads_are_copied(rt: HostRuntime) -> Result<(), Fail> {
    let alloc = rt.alloc();
    assert!(rt; decoded(alloc, RTM_GETLINK, &[17, 0, 0, 0])?.is_short());
    let request = LinkMessage::new_short(alloc, RTM_GETLINK, &[17])?;
    assert!(rt; copied(alloc, &request.message_view())? == request);
    Ok(())
}

#[test]
fn messages_are_shown(rt: HostRuntime) -> Result<(), Fail> {
    let alloc = rt.alloc();
    let link = MessageView::<Links>::new(RTM_NEWLINK, &[0; 16])?;
    assert_eq!(rt;
        link.show(alloc)?.as_str(),
        "type 16\nifi_family: 0\nifi_type: 0\nifi_index: 0\nifi_flags: 0\nifi_change: 0\n"
    );
    Ok(())
}

/// After a failed `try_push` the message is unchanged.
#[test]
fn attributes_of_any_kind_are_pushed(rt: HostRuntime) -> Result<(), Fail> {
    let alloc = rt.alloc();
    let mut link = LinkMessage::new(alloc, RTM_NEWLINK)?;
    if let Err(error) = link.try_push(alloc, IFLA_MTU, &[7, 0, 0, 0]) {
        assert!(rt; link.bytes.len() == 16);
        return Err(Fail::from(error));
    }
    assert!(rt; link.bytes.len() == 24);
    Ok(())
}

/// After a failed push the message is unchanged.
#[test]
fn attributes_are_pushed(rt: HostRuntime) -> Result<(), Fail> {
    let alloc = rt.alloc();
    let mut link = LinkMessage::new(alloc, RTM_NEWLINK)?;
    for number in 0u32..6 {
        let size = link.bytes.len();
        if let Err(error) = link.push(alloc, IFLA_MTU, Value::U32(number)) {
            assert!(rt; link.bytes.len() == size);
            return Err(Fail::from(error));
        }
        assert!(rt; link.bytes.len() == size.wrapping_add(8));
    }
    Ok(())
}
