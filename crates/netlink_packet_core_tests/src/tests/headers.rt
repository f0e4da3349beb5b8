//! A header, read and written through the basic traits.
#![tactic(auto, using(netlink_packet_core::specs::Sizes::text_sizes))]

use crate::tests::calls::compare_as;
use crate::tests::views::REQUEST;
use netlink_packet_core::laws::headers_equal;
use netlink_packet_core::{Emitable, NetlinkBuffer, NetlinkHeader, Parseable};
use std::alloc::Global;

/// The header of the request.
const HEADER: NetlinkHeader = NetlinkHeader {
    length: 40,
    message_type: 18,
    flags: 769,
    sequence_number: 1526271540,
    port_number: 0,
};

/// Returns whether the header at the start of the bytes is read, and compares with this one as
/// expected.
fn is_read(alloc: Global, bytes: &[u8], header: &NetlinkHeader, is_same: bool) -> bool {
    match NetlinkBuffer::new_checked(bytes) {
        Ok(view) => match NetlinkHeader::parse(alloc, &view) {
            Ok(found) => compare_as(&found, header, is_same),
            Err(_) => false,
        },
        Err(_) => false,
    }
}

#[test]
fn the_header_of_a_request_is_read(rt: HostRuntime) {
    assert!(rt; is_read(rt.alloc(), &REQUEST, &HEADER, true));
    let plain = NetlinkHeader {
        flags: 768,
        ..HEADER
    };
    assert!(rt; is_read(rt.alloc(), &REQUEST, &plain, false));
}

#[test]
fn the_law_of_headers_is_called() {
    headers_equal();
}

/// Writes the header at the start of the buffer. Returns the size that the header says it has.
fn written(header: &NetlinkHeader, buffer: &mut [u8]) -> usize {
    let size = header.buffer_len();
    if buffer.len() >= size {
        header.emit(buffer);
    }
    size
}

#[test]
fn the_header_of_a_request_is_written(rt: HostRuntime) {
    let mut buffer = [0u8; 16];
    assert!(rt; written(&HEADER, &mut buffer) == 16);
    assert!(rt; &buffer[..] == &REQUEST[..16]);
}

#[test]
fn a_header_leaves_the_rest(rt: HostRuntime) {
    let mut longer = [0x55u8; 17];
    assert!(rt; written(&HEADER, &mut longer) == 16);
    assert!(rt; &longer[..16] == &REQUEST[..16]);
    assert!(rt; longer[16] == 0x55);
}

#[test]
fn the_default_header(rt: HostRuntime) {
    let mut buffer = [1u8; 16];
    assert!(rt; written(&NetlinkHeader::default(), &mut buffer) == 16);
    assert!(rt; buffer == [0; 16]);
}
