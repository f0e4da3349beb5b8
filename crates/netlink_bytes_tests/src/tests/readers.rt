//! Single bytes, addresses and strings, and bytes as text.

use crate::tests::errors::assert_refused;
use crate::tests::value::{READ, REFUSED};
use netlink_bytes::laws::values_equal;
use netlink_bytes::{IpAddr, NonZeroI32, hex_pair, parse_string, push_hex};
use std::alloc::Global;

#[test]
fn bytes_and_addresses(rt: HostRuntime) {
    for (at, (value, bytes)) in READ.iter().enumerate() {
        assert!(rt; value.is_read_from(bytes), "row {at}");
    }
    for (like, bytes, number, text) in REFUSED {
        assert_refused(&rt, rt.alloc(), like.parse_same_type(bytes), number, text);
    }
}

#[test]
fn values_are_copied_and_told_apart(rt: HostRuntime) {
    values_equal();
    let address = IpAddr::V4([127, 0, 0, 1]);
    let copy = address;
    assert!(rt; copy == address);
    assert!(rt; address == IpAddr::V4([127, 0, 0, 1]));
    assert!(rt; address != IpAddr::V4([127, 0, 0, 2]));
    assert!(rt; IpAddr::V4([0; 4]) != IpAddr::V6([0; 16]));
    assert!(rt; NonZeroI32::new(-1) == NonZeroI32::new(-1));
    assert!(rt; NonZeroI32::new(-1) != NonZeroI32::new(1));
    match NonZeroI32::new(-1) {
        Some(number) => {
            let copy = number;
            assert!(rt; copy == number);
            assert_eq!(rt; copy.get(), -1);
        }
        None => assert!(rt; false),
    }
}

const TEXTS: [(&[u8], &str); 5] = [
    (&[0x61, 0, 0], "a\0"),
    (&[0xc3, 0xa9, 0], "\u{e9}"),
    (&[0x61], "a"),
    (&[0], ""),
    (&[], ""),
];

/// Returns whether the bytes are read as the text.
fn is_text(alloc: Global, bytes: &[u8], text: &str) -> bool {
    match parse_string(alloc, bytes) {
        Ok(read) => read.as_str() == text,
        Err(_) => false,
    }
}

#[test]
fn texts(rt: HostRuntime) {
    for (bytes, text) in TEXTS {
        assert!(rt; is_text(rt.alloc(), bytes, text), "{text}");
    }
}

/// The words after the fixed beginning are those of Rust's own error. A zero at the end is removed
/// first, so `c3 00` is a truncated sequence.
const NOT_UTF8: [(&[u8], &str); 5] = [
    (
        &[0xff],
        "Invalid UTF-8 sequence: invalid utf-8 sequence of 1 bytes from index 0",
    ),
    (
        &[0xc3, 0],
        "Invalid UTF-8 sequence: incomplete utf-8 byte sequence from index 0",
    ),
    (
        &[0xc3, 0, 0],
        "Invalid UTF-8 sequence: invalid utf-8 sequence of 1 bytes from index 0",
    ),
    (
        &[0x61, 0xff, 0x62],
        "Invalid UTF-8 sequence: invalid utf-8 sequence of 1 bytes from index 1",
    ),
    (
        &[0x61, 0xe2, 0x82],
        "Invalid UTF-8 sequence: incomplete utf-8 byte sequence from index 1",
    ),
];

#[test]
fn texts_that_are_not_utf8(rt: HostRuntime) {
    for (bytes, text) in NOT_UTF8 {
        assert_refused(&rt, rt.alloc(), parse_string(rt.alloc(), bytes), 14, text);
    }
}

/// Bytes, and how they are printed after `0x`.
const HEX: [(&[u8], &str); 4] = [
    (&[], "0x-"),
    (&[0], "0x00"),
    (&[0x0a], "0x0a"),
    (&[0x01, 0x9f, 0xf9, 0xff], "0x019ff9ff"),
];

/// Returns whether the bytes are appended as this text.
fn is_hex(alloc: Global, bytes: &[u8], text: &str) -> bool {
    let mut shown = String::new(alloc);
    let is_begun = shown.push_str("0x").is_ok();
    is_begun & push_hex(&mut shown, bytes).is_ok() & (shown.as_str() == text)
}

#[test]
fn hexadecimal(rt: HostRuntime) {
    for (bytes, text) in HEX {
        assert!(rt; is_hex(rt.alloc(), bytes, text), "{text}");
    }
    assert!(rt; hex_pair(0x5c) == "5c" && hex_pair(0xc5) == "c5");
}
