//! Messages of route netlink.

use crate::look::{block_sum, value_number};
use crate::output::hand_out;
use netlink_family::{CheckedAttributes, Joined, MessageView};
use netlink_packet_core::{DecodeError, NetlinkBuffer, NetlinkMessage, NetlinkPayload};
use netlink_route::{RouteMessage, RouteTables};
use netlink_tree::Frames;
use std::alloc::{AllocError, Global};

/// Decodes each message of a datagram and drops it. Returns the number of messages.
#[unsafe(no_mangle)]
pub extern "C" fn route_read(alloc: Global, datagram: &[u8]) -> usize {
    let mut count = 0usize;
    for item in Frames::new(datagram) {
        match item {
            Ok(frame) => {
                if NetlinkMessage::<RouteMessage>::deserialize(alloc, frame).is_err() {
                    return 0;
                }
                count = count.wrapping_add(1);
            }
            Err(_) => return 0,
        }
    }
    count
}

/// Decodes each message of a datagram, and reads each of its attributes once. Returns their sum.
#[unsafe(no_mangle)]
pub extern "C" fn route_look(alloc: Global, datagram: &[u8]) -> usize {
    let mut sum = 0usize;
    for item in Frames::new(datagram) {
        match item {
            Ok(frame) => match NetlinkMessage::<RouteMessage>::deserialize(alloc, frame) {
                Ok(message) => {
                    let payload = &message.payload;
                    match payload {
                        NetlinkPayload::InnerMessage(inner) => {
                            sum = sum.wrapping_add(block_sum(inner.view()));
                        }
                        _ => {}
                    }
                }
                Err(_) => return 0,
            },
            Err(_) => return 0,
        }
    }
    sum
}

/// Checks each message of a datagram in place. Returns the number of messages.
#[unsafe(no_mangle)]
pub extern "C" fn route_view_read(_alloc: Global, datagram: &[u8]) -> usize {
    let mut count = 0usize;
    for item in Frames::new(datagram) {
        let Ok(frame) = item else { return 0 };
        let Ok(frame) = NetlinkBuffer::new_checked(frame) else {
            return 0
        };
        let message_type = frame.message_type();
        match MessageView::<Joined<RouteTables>>::new(message_type, frame.payload()) {
            Ok(_) => count = count.wrapping_add(1),
            Err(_) => return 0,
        }
    }
    count
}

/// Checks each message of a datagram in place, and then reads each of its attributes once. Returns
/// their sum.
#[unsafe(no_mangle)]
pub extern "C" fn route_view_look(_alloc: Global, datagram: &[u8]) -> usize {
    let mut sum = 0usize;
    for item in Frames::new(datagram) {
        let Ok(frame) = item else { return 0 };
        let Ok(frame) = NetlinkBuffer::new_checked(frame) else {
            return 0
        };
        let message_type = frame.message_type();
        match MessageView::<Joined<RouteTables>>::new(message_type, frame.payload()) {
            Ok(message) => sum = sum.wrapping_add(block_sum(message.view())),
            Err(_) => return 0,
        }
    }
    sum
}

/// Reads each attribute of each message of a datagram once, as it is checked. Returns their sum.
#[unsafe(no_mangle)]
pub extern "C" fn route_pass_look(_alloc: Global, datagram: &[u8]) -> usize {
    let mut sum = 0usize;
    for item in Frames::new(datagram) {
        let Ok(frame) = item else { return 0 };
        let Ok(frame) = NetlinkBuffer::new_checked(frame) else {
            return 0
        };
        let message_type = frame.message_type();
        match CheckedAttributes::<Joined<RouteTables>>::new(message_type, frame.payload()) {
            Ok(all) => {
                for item in all {
                    match item {
                        Ok((_, value)) => sum = sum.wrapping_add(value_number(value)),
                        Err(_) => return 0,
                    }
                }
            }
            Err(_) => return 0,
        }
    }
    sum
}

/// Decodes each message of a datagram. Writes its header, and the kind of each of its attributes.
#[unsafe(no_mangle)]
pub extern "C" fn route_output(alloc: Global, datagram: &[u8], out: &mut [u8]) -> usize {
    found(alloc, datagram).map_or(0, |bytes| hand_out(bytes, out))
}

fn found(alloc: Global, datagram: &[u8]) -> Result<Vec<u8>, DecodeError> {
    let mut found = Vec::new(alloc);
    for item in Frames::new(datagram) {
        let message = NetlinkMessage::<RouteMessage>::deserialize(alloc, item?)?;
        append_found(&mut found, &message)?;
    }
    Ok(found)
}

fn append_found(
    found: &mut Vec<u8>,
    message: &NetlinkMessage<RouteMessage>,
) -> Result<(), AllocError> {
    let header = &message.header;
    found.extend_from_slice(&header.length.to_ne_bytes())?;
    found.extend_from_slice(&header.message_type.to_ne_bytes())?;
    found.extend_from_slice(&header.flags.to_ne_bytes())?;
    found.extend_from_slice(&header.sequence_number.to_ne_bytes())?;
    found.extend_from_slice(&header.port_number.to_ne_bytes())?;
    let payload = &message.payload;
    match payload {
        NetlinkPayload::InnerMessage(inner) => {
            for (kind, _) in inner.view().attributes() {
                found.extend_from_slice(&kind.to_ne_bytes())?;
            }
        }
        _ => {}
    }
    Ok(())
}
