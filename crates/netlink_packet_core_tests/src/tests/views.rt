//! Views of a message's bytes.

use crate::tests::calls::{compare_as, is_refused};
use netlink_packet_core::laws::message_views_equal;
use netlink_packet_core::{DoneBuffer, ErrorBuffer, NetlinkBuffer};
use std::test::Fail;

/// A request to list the links (type 18 is `RTM_GETLINK`), as a tool sent it.
pub const REQUEST: [u8; 40] = [
    0x28, 0, 0, 0, 0x12, 0, 0x01, 0x03, 0x34, 0x0e, 0xf9, 0x5a, 0, 0, 0, 0, 0x11, 0, 0, 0, 0, 0, 0,
    0, 0, 0, 0, 0, 0, 0, 0, 0, 0x08, 0, 0x1d, 0, 0x01, 0, 0, 0,
];

#[test]
fn the_fields_of_a_request(rt: HostRuntime) {
    let view = NetlinkBuffer::new(&REQUEST[..]);
    assert!(rt; view.length() == 40 && view.message_type() == 18 && view.flags() == 769);
    assert!(rt; view.sequence_number() == 1526271540 && view.port_number() == 0);
}

/// Returns whether the payload of the frame in the bytes is this one.
fn is_payload(bytes: &[u8], payload: &[u8]) -> bool {
    match NetlinkBuffer::new_checked(bytes) {
        Ok(view) => view.payload() == payload,
        Err(_) => false,
    }
}

#[test]
fn the_payload_of_a_request(rt: HostRuntime) {
    assert!(rt; is_payload(&REQUEST, &REQUEST[16..]));
    assert!(rt; NetlinkBuffer::new(&REQUEST[16..]).length() == 0x11);
}

#[test]
fn the_law_of_views_is_called() {
    message_views_equal::<&[u8]>();
}

/// Returns whether views of the same kind over the bytes compare as expected.
fn views_compare_as(one: &[u8], other: &[u8], are_same: bool) -> bool {
    compare_as(
        &NetlinkBuffer::new(one),
        &NetlinkBuffer::new(other),
        are_same,
    ) && compare_as(&DoneBuffer::new(one), &DoneBuffer::new(other), are_same)
        && compare_as(&ErrorBuffer::new(one), &ErrorBuffer::new(other), are_same)
}

#[test]
fn views_are_told_apart(rt: HostRuntime) {
    assert!(rt; views_compare_as(&[1, 2, 3, 4], &[1, 2, 3, 4], true));
    assert!(rt; views_compare_as(&[1, 2, 3, 4], &[1, 2, 3, 5], false));
    assert!(rt; views_compare_as(&[1, 2, 3, 4], &[1, 2, 3], false));
}

/// A length field of 40 in 24 bytes.
const CUT: &[u8] = &[
    0x28, 0, 0, 0, 0, 0, 0, 0, 0, 0, 0, 0, 0, 0, 0, 0, 0, 0, 0, 0, 0, 0, 0, 0,
];

/// A length field of 15.
const SHORT: &[u8] = &[
    0x0f, 0, 0, 0, 0, 0, 0, 0, 0, 0, 0, 0, 0, 0, 0, 0, 0, 0, 0, 0, 0, 0, 0, 0,
];

/// Bytes, and the number and the text of the error.
const REFUSED: [(&[u8], u8, &str); 4] = [
    (
        &[],
        9,
        "invalid netlink buffer length caused by invalid netlink buffer: length is 0 but netlink packets are at least 16 bytes",
    ),
    (
        &[0x28, 0, 0, 0],
        9,
        "invalid netlink buffer length caused by invalid netlink buffer: length is 4 but netlink packets are at least 16 bytes",
    ),
    (
        CUT,
        10,
        "invalid netlink buffer length caused by invalid netlink buffer: length field says 40 the buffer is 24 bytes long",
    ),
    (
        SHORT,
        11,
        "invalid netlink buffer length caused by invalid netlink buffer: length field says 15 but netlink packets are at least 16 bytes",
    ),
];

#[test]
fn bytes_that_hold_no_frame(rt: HostRuntime) {
    for (bytes, number, text) in REFUSED {
        let answer = NetlinkBuffer::new_checked(bytes);
        assert!(rt; is_refused(rt.alloc(), answer, number, text));
    }
}

/// A setter, with its argument.
#[derive(Clone, Copy)]
enum Setter {
    Length(u32),
    MessageType(u16),
    SequenceNumber(u32),
    Flags(u16),
    PortNumber(u32),
}

impl Setter {
    /// Calls the setter on a view of the bytes.
    fn set(self, bytes: &mut [u8; 40]) {
        let mut view = NetlinkBuffer::new(&mut bytes[..]);
        match self {
            Setter::Length(length) => view.set_length(length),
            Setter::MessageType(kind) => view.set_message_type(kind),
            Setter::SequenceNumber(number) => view.set_sequence_number(number),
            Setter::Flags(flags) => view.set_flags(flags),
            Setter::PortNumber(port) => view.set_port_number(port),
        }
    }
}

/// The setters, with the fields of the request.
const SETTERS: [Setter; 5] = [
    Setter::Length(40),
    Setter::MessageType(18),
    Setter::SequenceNumber(1526271540),
    Setter::Flags(769),
    Setter::PortNumber(0),
];

/// Overwrites the payload of the frame in the bytes. Returns whether there is one of this size.
fn is_payload_set(bytes: &mut [u8], payload: &[u8]) -> bool {
    let Ok(mut view) = NetlinkBuffer::new_checked(bytes) else {
        return false;
    };
    let place = view.payload_mut();
    let is_same_size = place.len() == payload.len();
    if is_same_size {
        place.copy_from_slice(payload);
    }
    is_same_size
}

/// The five setters and the bytes of the payload turn zeros into the request.
#[test]
fn a_request_is_built_in_place(rt: HostRuntime) {
    let mut bytes = [0u8; 40];
    for setter in SETTERS {
        setter.set(&mut bytes);
    }
    assert!(rt; is_payload_set(&mut bytes, &REQUEST[16..]));
    assert!(rt; bytes == REQUEST);
}

#[test]
fn the_payload_length_past_the_storage(rt: HostRuntime) {
    let view = NetlinkBuffer::new(&REQUEST[..24]);
    assert!(rt; view.length() == 40);
    assert!(rt; view.length() >= 16 && view.payload_length() == 24);
}

#[test]
fn views_of_a_cut_frame_are_told_apart(rt: HostRuntime) {
    assert!(rt; views_compare_as(&REQUEST[..24], &REQUEST[..24], true));
    assert!(rt; views_compare_as(&REQUEST[..24], &REQUEST[..23], false));
}

/// Returns whether a view that borrows from one over the vector has this payload.
fn is_lent_payload(bytes: Vec<u8>, payload: &[u8]) -> bool {
    match NetlinkBuffer::new_checked(bytes) {
        Ok(view) => view.borrowed().payload() == payload,
        Err(_) => false,
    }
}

/// Returns whether a view that borrows from one over the vector has these bytes after the code.
fn is_lent_error(bytes: Vec<u8>, payload: &[u8]) -> bool {
    match ErrorBuffer::new_checked(bytes) {
        Ok(view) => view.borrowed().payload() == payload,
        Err(_) => false,
    }
}

/// Returns whether a view that borrows from one over the slice has these bytes after the code.
fn is_lent_done(bytes: &mut [u8], extended_ack: &[u8]) -> bool {
    let Ok(view) = DoneBuffer::new_checked(bytes) else {
        return false;
    };
    view.borrowed().extended_ack() == extended_ack
}

/// What a vector or a mutable slice holds is read by a view that borrows from it.
#[test]
fn lent_views_are_read(rt: HostRuntime) -> Result<(), Fail> {
    assert!(rt; is_lent_payload(REQUEST.to_vec(rt.alloc())?, &REQUEST[16..]));
    assert!(rt; is_lent_done(&mut [5, 0, 0, 0, 1, 2], &[1, 2]));
    assert!(rt; is_lent_error([5u8, 0, 0, 0, 1, 2].to_vec(rt.alloc())?, &[1, 2]));
    Ok(())
}

/// Sets the port in a vector. Returns whether it is then read, and the bytes are the expected ones.
fn is_port_set(bytes: Vec<u8>, port: u32, expected: &[u8]) -> bool {
    if bytes.len() < 16 {
        return false;
    }
    let mut view = NetlinkBuffer::new(bytes);
    view.set_port_number(port);
    view.port_number() == port && view.into_inner().as_slice() == expected
}

#[test]
fn a_vector_is_written_in_place(rt: HostRuntime) -> Result<(), Fail> {
    let mut expected = REQUEST;
    expected[12..16].copy_from_slice(&[4, 3, 2, 1]);
    assert!(rt; is_port_set(REQUEST.to_vec(rt.alloc())?, 0x01020304, &expected));
    Ok(())
}
