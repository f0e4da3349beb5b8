//! The text and the number of each error.

use crate::tests::errors::assert_error;
use netlink_bytes::DecodeError;
use netlink_bytes::laws::causes_equal;
use std::alloc::{AllocError, AllocFailed, Global};
use std::process::Abort;
use std::test::Fail;

/// Returns the error for the byte ff, which is not UTF-8.
fn not_utf8(rt: &HostRuntime) -> Result<DecodeError, AllocError> {
    let alloc = rt.alloc();
    Ok(match String::from_utf8(vec![in alloc; 0xffu8]?) {
        Ok(text) => DecodeError::from(text),
        Err(error) => DecodeError::from_utf8_error(alloc, error),
    })
}

/// The number and the text of each error of `causes_by_constructor`.
const NUMBERS_AND_TEXTS: [(u8, &str); 26] = [
    (
        1,
        "Invalid buffer x. Expected at least 8 bytes, received 3 bytes",
    ),
    (
        1,
        "Invalid buffer . Expected at least 1 bytes, received 0 bytes",
    ),
    (2, "Invalid MAC address. Expected 6 bytes, received 5 bytes"),
    (
        3,
        "Invalid IP address. Expected 4 or 16 bytes, received 5 bytes",
    ),
    (4, "Invalid number. Expected 8 bytes, received 7 bytes"),
    (5, "buffer has length 1, but an NLA header is 4 bytes"),
    (6, "buffer has length: 4, but the NLA is 5 bytes"),
    (7, "NLA has invalid length: 3 (should be at least 4 bytes)"),
    (8, "Buffer too small: 3 (should be at least 4 bytes"),
    (
        9,
        "invalid netlink buffer length caused by invalid netlink buffer: length is 4 but netlink packets are at least 16 bytes",
    ),
    (
        9,
        "failed deserializing NetlinkMessage caused by invalid netlink buffer length caused by invalid netlink buffer: length is 4 but netlink packets are at least 16 bytes",
    ),
    (
        10,
        "invalid netlink buffer length caused by invalid netlink buffer: length field says 40 the buffer is 24 bytes long",
    ),
    (
        10,
        "failed deserializing NetlinkMessage caused by invalid netlink buffer length caused by invalid netlink buffer: length field says 40 the buffer is 24 bytes long",
    ),
    (
        11,
        "invalid netlink buffer length caused by invalid netlink buffer: length field says 15 but netlink packets are at least 16 bytes",
    ),
    (
        11,
        "failed deserializing NetlinkMessage caused by invalid netlink buffer length caused by invalid netlink buffer: length field says 15 but netlink packets are at least 16 bytes",
    ),
    (
        12,
        "invalid DoneBuffer length caused by invalid DoneBuffer: length is 3 but DoneBuffer are at least 4 bytes",
    ),
    (
        12,
        "failed to parse NLMSG_DONE caused by invalid DoneBuffer length caused by invalid DoneBuffer: length is 3 but DoneBuffer are at least 4 bytes",
    ),
    (
        13,
        "invalid ErrorBuffer length caused by invalid ErrorBuffer: length is 0 but ErrorBuffer are at least 4 bytes",
    ),
    (
        13,
        "failed parsing NLMSG_ERROR caused by invalid ErrorBuffer length caused by invalid ErrorBuffer: length is 0 but ErrorBuffer are at least 4 bytes",
    ),
    (14, "c"),
    (14, ""),
    (14, "a text"),
    (15, "message does not fit a 32-bit length"),
    (16, "out of memory"),
    (16, "out of memory"),
    (16, "out of memory"),
];

/// Returns each error from each of its constructors.
fn causes_by_constructor(alloc: Global, owned: String) -> [DecodeError; 26] {
    [
        DecodeError::invalid_buffer(alloc, "x", 3, 8),
        DecodeError::invalid_buffer(alloc, "", 0, 1),
        DecodeError::invalid_mac_address(5),
        DecodeError::invalid_ip_address(5),
        DecodeError::invalid_number(8, 7),
        DecodeError::nla_buffer_too_small(1, 4),
        DecodeError::nla_length_mismatch(4, 5),
        DecodeError::nla_invalid_length(4, 3),
        DecodeError::buffer_too_small(3, 4),
        DecodeError::frame_short(4, false),
        DecodeError::frame_short(4, true),
        DecodeError::frame_cut(40, 24, false),
        DecodeError::frame_cut(40, 24, true),
        DecodeError::frame_length(15, false),
        DecodeError::frame_length(15, true),
        DecodeError::done_short(3, false),
        DecodeError::done_short(3, true),
        DecodeError::error_short(0, false),
        DecodeError::error_short(0, true),
        DecodeError::from_text(alloc, "c"),
        DecodeError::from_text(alloc, ""),
        DecodeError::from(owned),
        DecodeError::too_long(),
        DecodeError::out_of_memory(),
        DecodeError::from(AllocError),
        DecodeError::from(AllocFailed { value: 7u8 }),
    ]
}

/// Asserts the number and the text of each error.
fn assert_causes(rt: &impl Abort, alloc: Global, causes: &[DecodeError; 26]) {
    for (cause, (number, text)) in causes.iter().zip(&NUMBERS_AND_TEXTS) {
        assert_error(rt, alloc, cause, *number, text);
    }
}

#[test]
fn causes(rt: HostRuntime) -> Result<(), Fail> {
    let alloc = rt.alloc();
    let owned = String::from_str(alloc, "a text")?;
    assert_causes(&rt, alloc, &causes_by_constructor(alloc, owned));
    assert_error(
        &rt,
        alloc,
        &not_utf8(&rt)?,
        14,
        "Invalid UTF-8 sequence: invalid utf-8 sequence of 1 bytes from index 0",
    );
    Ok(())
}

/// Returns errors that differ from one another in their variant, a number, a text or `inside`.
fn different(alloc: Global) -> [DecodeError; 33] {
    [
        DecodeError::invalid_buffer(alloc, "x", 3, 8),
        DecodeError::invalid_buffer(alloc, "y", 3, 8),
        DecodeError::invalid_buffer(alloc, "x", 4, 8),
        DecodeError::invalid_buffer(alloc, "x", 3, 9),
        DecodeError::invalid_mac_address(5),
        DecodeError::invalid_mac_address(7),
        DecodeError::invalid_ip_address(5),
        DecodeError::invalid_ip_address(7),
        DecodeError::invalid_number(8, 7),
        DecodeError::invalid_number(7, 8),
        DecodeError::nla_buffer_too_small(1, 4),
        DecodeError::nla_buffer_too_small(2, 4),
        DecodeError::nla_length_mismatch(1, 4),
        DecodeError::nla_length_mismatch(1, 5),
        DecodeError::nla_invalid_length(1, 4),
        DecodeError::nla_invalid_length(4, 1),
        DecodeError::buffer_too_small(1, 4),
        DecodeError::buffer_too_small(4, 1),
        DecodeError::frame_short(4, false),
        DecodeError::frame_short(4, true),
        DecodeError::frame_cut(40, 24, false),
        DecodeError::frame_cut(40, 24, true),
        DecodeError::frame_cut(24, 40, true),
        DecodeError::frame_length(4, false),
        DecodeError::frame_length(4, true),
        DecodeError::done_short(3, false),
        DecodeError::done_short(3, true),
        DecodeError::error_short(3, false),
        DecodeError::error_short(3, true),
        DecodeError::from_text(alloc, "out of memory"),
        DecodeError::from_text(alloc, ""),
        DecodeError::too_long(),
        DecodeError::out_of_memory(),
    ]
}

#[test]
fn causes_are_told_apart(rt: HostRuntime) {
    causes_equal();
    let alloc = rt.alloc();
    let others = different(alloc);
    for (at, cause) in different(alloc).iter().enumerate() {
        for (place, other) in others.iter().enumerate() {
            assert_eq!(rt; cause == other, at == place);
        }
    }
}
