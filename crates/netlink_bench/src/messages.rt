//! Messages of the controller of generic netlink, and Ethernet protocols.

use netlink_generic::ControllerMessage;
use netlink_packet_core::{
    EthernetProtocol, NetlinkMessage, is_canonical_frame, normalize, u16_at,
};
use std::alloc::Global;

/// Decodes a message and drops it. Returns its length field, or the number of the error.
#[unsafe(no_mangle)]
pub extern "C" fn message_read(alloc: Global, frame: &[u8]) -> usize {
    match NetlinkMessage::<ControllerMessage>::deserialize(alloc, frame) {
        Ok(message) => message.header.length as usize,
        Err(error) => error.number() as usize,
    }
}

/// Decodes a message, finalizes it and serializes it into `buffer`. Returns its size.
#[unsafe(no_mangle)]
pub extern "C" fn message_rewrite(alloc: Global, frame: &[u8], buffer: &mut [u8]) -> usize {
    match NetlinkMessage::<ControllerMessage>::deserialize(alloc, frame) {
        Ok(mut message) => {
            if !message.fits() {
                return 0;
            }
            message.finalize();
            let size = message.header.length as usize;
            if size > buffer.len() {
                return 0;
            }
            message.serialize(buffer);
            size
        }
        Err(_) => 0,
    }
}

/// Returns the size of the canonical frame.
#[unsafe(no_mangle)]
pub extern "C" fn message_normalize(alloc: Global, frame: &[u8]) -> usize {
    normalize::<ControllerMessage>(alloc, frame).map_or(0, |bytes| bytes.len())
}

/// Returns 1 if the frame is canonical.
#[unsafe(no_mangle)]
pub extern "C" fn message_is_canonical(alloc: Global, frame: &[u8]) -> usize {
    match is_canonical_frame::<ControllerMessage>(alloc, frame) {
        Ok(true) => 1,
        _ => 0,
    }
}

/// Converts the number in the first two bytes to an Ethernet protocol. Returns 1 if it has a name,
/// and otherwise 2.
#[unsafe(no_mangle)]
pub extern "C" fn ethernet_convert(_alloc: Global, bytes: &[u8]) -> usize {
    if bytes.len() < 2 {
        return 0;
    }
    match EthernetProtocol::from(u16_at(bytes, 0)) {
        EthernetProtocol::Other(_) => 2,
        _ => 1,
    }
}
