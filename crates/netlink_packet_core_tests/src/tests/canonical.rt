//! Which bytes are a canonical frame, for a protocol with one message.

use crate::tests::calls::{bytes_of, is_canonical};
use std::alloc::Global;

/// The length field, the type and the payload of a frame, and whether the frame is canonical.
const FRAMES: [(u8, u8, &[u8], bool); 15] = [
    // a no-op has no payload
    (16, 1, &[], true),
    (20, 1, &[7, 8, 9, 10], false),
    // an error needs its code
    (20, 2, &[0xc3, 0xdd, 0xff, 0xff], true),
    (21, 2, &[0, 0, 0, 0, 6], true),
    (19, 2, &[0, 0, 0], false),
    // and so does a done message, although it is read without one
    (20, 3, &[0, 0, 0, 0], true),
    (23, 3, &[5, 0, 0, 0, 1, 2, 3], true),
    (16, 3, &[], false),
    // an overrun has any bytes
    (16, 4, &[], true),
    (19, 4, &[7, 8, 9], true),
    // the length field is the size
    (19, 4, &[7, 8, 9, 10], false),
    (20, 4, &[7, 8, 9], false),
    // the protocol's own types
    (16, 16, &[], true),
    (17, 16, &[1], false),
    (16, 17, &[], false),
];

/// Returns whether the frame is canonical or not, as expected.
fn is_row(alloc: Global, length: u8, message_type: u8, payload: &[u8], canonical: bool) -> bool {
    match bytes_of(alloc, length, message_type, payload) {
        Ok(bytes) => is_canonical(alloc, &bytes, canonical),
        Err(_) => false,
    }
}

#[test]
fn frames_of_each_type(rt: HostRuntime) {
    for (length, message_type, payload, canonical) in FRAMES {
        assert!(rt; is_row(rt.alloc(), length, message_type, payload, canonical));
    }
    assert!(rt; is_canonical(rt.alloc(), &[4, 0, 0, 0], false));
}
