//! Calls of the library, and comparisons, in functions that are proved once. They have no
//! contracts, and most return whether the result is as expected: the proof of a test that asserts
//! that is short.

use crate::tests::beat::Beat;
use netlink_packet_core::{DecodeError, NetlinkMessage, is_canonical_frame, normalize};
use std::alloc::{AllocError, Global};

/// Returns a header with this length and type, and zeros otherwise, followed by these bytes.
pub(super) fn bytes_of(
    alloc: Global,
    length: u8,
    message_type: u8,
    payload: &[u8],
) -> Result<Vec<u8>, AllocError> {
    let mut bytes = [length, 0, 0, 0, message_type, 0].to_vec(alloc)?;
    bytes.extend_from_slice(&[0; 10])?;
    bytes.extend_from_slice(payload)?;
    Ok(bytes)
}

/// Decodes the message at the start of the bytes.
pub(super) fn read(alloc: Global, bytes: &[u8]) -> Result<NetlinkMessage<Beat>, DecodeError> {
    NetlinkMessage::deserialize(alloc, bytes)
}

/// Returns the canonical frame of the message at the start of the bytes.
pub(super) fn normal_frame(alloc: Global, bytes: &[u8]) -> Result<Vec<u8>, DecodeError> {
    normalize::<Beat>(alloc, bytes)
}

/// Returns whether the bytes are read as the message.
pub(super) fn is_read_as(alloc: Global, bytes: &[u8], message: &NetlinkMessage<Beat>) -> bool {
    match read(alloc, bytes) {
        Ok(found) => found == *message,
        Err(_) => false,
    }
}

/// Returns whether the canonical frame of the message is these bytes.
pub(super) fn is_framed_as(alloc: Global, message: NetlinkMessage<Beat>, bytes: &[u8]) -> bool {
    match message.into_frame(alloc) {
        Ok(frame) => frame.as_slice() == bytes,
        Err(_) => false,
    }
}

/// Returns whether the bytes are normalized to the expected ones.
pub(super) fn is_normalized_to(alloc: Global, bytes: &[u8], expected: &[u8]) -> bool {
    match normal_frame(alloc, bytes) {
        Ok(frame) => frame.as_slice() == expected,
        Err(_) => false,
    }
}

/// Returns whether the bytes are a canonical frame or not, as expected.
pub(super) fn is_canonical(alloc: Global, bytes: &[u8], expected: bool) -> bool {
    match is_canonical_frame::<Beat>(alloc, bytes) {
        Ok(is) => is == expected,
        Err(_) => false,
    }
}

/// Returns whether `==` and `!=` say that two values are the same or not, as expected.
pub(super) fn compare_as<T: PartialEq>(one: &T, other: &T, are_same: bool) -> bool {
    (*one == *other) == are_same && (*one != *other) != are_same
}

/// Returns whether a result is an error with this number.
pub(super) fn has_number<T: Drop>(answer: Result<T, DecodeError>, number: u8) -> bool {
    match answer {
        Ok(_) => false,
        Err(error) => error.number() == number,
    }
}

/// Returns whether an error prints as the text.
fn prints_as(alloc: Global, error: &DecodeError, text: &str) -> bool {
    match error.to_string(alloc) {
        Ok(printed) => printed.as_str() == text,
        Err(_) => false,
    }
}

/// Returns whether a result is an error with this number and text.
pub(super) fn is_refused<T: Drop>(
    alloc: Global,
    answer: Result<T, DecodeError>,
    number: u8,
    text: &str,
) -> bool {
    match answer {
        Ok(_) => false,
        Err(error) => error.number() == number && prints_as(alloc, &error, text),
    }
}
