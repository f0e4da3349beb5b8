//! Functions that do not allocate: integers, addresses, errors and strings.
//!
//! `tests/memory` runs each test with every allocation failing, starting at its marker. The test
//! must pass, and allocate nothing after the marker.

use crate::tests::mark::refuse_from_here;
use crate::tests::number::{Number, Order};
use crate::tests::value::{READ, REFUSED};
use netlink_bytes::{
    DecodeError, ErrorContext, NonZeroI32, copy_of, hex_pair, i32_at, parse_string, push_hex,
    put_i32, put_u16, put_u32, u16_at, u32_at,
};
use std::alloc::Global;
use std::process::Abort;
use std::test::Fail;

/// Returns whether a result is an error with this number.
fn refuses<T: Drop>(answer: Result<T, DecodeError>, number: u8) -> bool {
    match answer {
        Ok(_) => false,
        Err(error) => error.number() == number,
    }
}

/// Returns whether an integer is written as these bytes with nothing after them, reads back from
/// them, and is rejected if there are no bytes.
fn is_row(number: Number, order: Order, bytes: &[u8]) -> bool {
    let mut buffer = [0x55; 17];
    let is_written = number.emit(order, &mut buffer).is_ok() & buffer.starts_with(bytes);
    let is_bare = buffer.get(bytes.len()) == Some(&0x55);
    let is_read = number.parse_same_type(order, bytes).ok() == Some(number);
    let is_refused = refuses(number.emit(order, &mut []), 8)
        & refuses(number.parse_same_type(order, &[]), 4);
    is_written & is_bare & is_read & is_refused
}

const TO_2: &[u8] = &[1, 2];

const TO_4: &[u8] = &[1, 2, 3, 4];

const TO_8: &[u8] = &[1, 2, 3, 4, 5, 6, 7, 8];

const TO_16: &[u8] = &[1, 2, 3, 4, 5, 6, 7, 8, 9, 10, 11, 12, 13, 14, 15, 16];

/// The bytes of -2 in 16 bytes, lowest byte first.
const LOW_16: &[u8] = &[
    0xfe, 0xff, 0xff, 0xff, 0xff, 0xff, 0xff, 0xff, 0xff, 0xff, 0xff, 0xff, 0xff, 0xff, 0xff, 0xff,
];

/// The bytes of -2 in 16 bytes, highest byte first.
const HIGH_16: &[u8] = &[
    0xff, 0xff, 0xff, 0xff, 0xff, 0xff, 0xff, 0xff, 0xff, 0xff, 0xff, 0xff, 0xff, 0xff, 0xff, 0xfe,
];

/// A test case of `is_row` for each pair of functions.
const NUMBERS: [(Number, Order, &[u8]); 24] = [
    (Number::U16(0x0201), Order::Native, TO_2),
    (Number::U16(0x0201), Order::Little, TO_2),
    (Number::U16(0x0102), Order::Big, TO_2),
    (Number::I16(-2), Order::Native, &[0xfe, 0xff]),
    (Number::I16(-2), Order::Little, &[0xfe, 0xff]),
    (Number::I16(-2), Order::Big, &[0xff, 0xfe]),
    (Number::U32(0x04030201), Order::Native, TO_4),
    (Number::U32(0x04030201), Order::Little, TO_4),
    (Number::U32(0x01020304), Order::Big, TO_4),
    (Number::I32(-2), Order::Native, &[0xfe, 0xff, 0xff, 0xff]),
    (Number::I32(-2), Order::Little, &[0xfe, 0xff, 0xff, 0xff]),
    (Number::I32(-2), Order::Big, &[0xff, 0xff, 0xff, 0xfe]),
    (Number::U64(0x0807060504030201), Order::Native, TO_8),
    (Number::U64(0x0807060504030201), Order::Little, TO_8),
    (Number::U64(0x0102030405060708), Order::Big, TO_8),
    (
        Number::I64(-2),
        Order::Native,
        &[0xfe, 0xff, 0xff, 0xff, 0xff, 0xff, 0xff, 0xff],
    ),
    (
        Number::I64(-2),
        Order::Little,
        &[0xfe, 0xff, 0xff, 0xff, 0xff, 0xff, 0xff, 0xff],
    ),
    (
        Number::I64(-2),
        Order::Big,
        &[0xff, 0xff, 0xff, 0xff, 0xff, 0xff, 0xff, 0xfe],
    ),
    (
        Number::U128(0x100f0e0d0c0b0a090807060504030201),
        Order::Native,
        TO_16,
    ),
    (
        Number::U128(0x100f0e0d0c0b0a090807060504030201),
        Order::Little,
        TO_16,
    ),
    (
        Number::U128(0x0102030405060708090a0b0c0d0e0f10),
        Order::Big,
        TO_16,
    ),
    (Number::I128(-2), Order::Native, LOW_16),
    (Number::I128(-2), Order::Little, LOW_16),
    (Number::I128(-2), Order::Big, HIGH_16),
];

#[test]
fn numbers_at_their_places(rt: HostRuntime) {
    refuse_from_here(rt.alloc());
    let mut bytes = [9u8; 12];
    put_u16(&mut bytes, 1, 0x0201);
    put_u32(&mut bytes, 3, 0x06050403);
    put_i32(&mut bytes, 7, -2);
    assert!(rt; bytes == [9, 1, 2, 3, 4, 5, 6, 0xfe, 0xff, 0xff, 0xff, 9]);
    assert!(rt; u16_at(&bytes, 1) == 0x0201 && u32_at(&bytes, 3) == 0x06050403);
    assert!(rt; i32_at(&bytes, 7) == -2);
}

#[test]
fn numbers(rt: HostRuntime) {
    refuse_from_here(rt.alloc());
    for (at, (number, order, bytes)) in NUMBERS.iter().enumerate() {
        assert!(rt; is_row(*number, *order, bytes), "row {at}");
    }
    assert!(rt; NonZeroI32::new(0).is_none());
    match NonZeroI32::new(-8765) {
        Some(number) => assert!(rt; number.get() == -8765),
        None => assert!(rt; false),
    }
}

#[test]
fn bytes_and_addresses(rt: HostRuntime) {
    refuse_from_here(rt.alloc());
    for (at, (value, bytes)) in READ.iter().enumerate() {
        assert!(rt; value.is_read_from(bytes), "row {at}");
    }
    for (at, (like, bytes, number, _)) in REFUSED.iter().enumerate() {
        assert!(rt; refuses(like.parse_same_type(bytes), *number), "row {at}");
    }
    assert!(rt; hex_pair(0x5c) == "5c");
}

/// Returns errors that are made without allocating: one with each number, in order, and then
/// another `Message` and another `OutOfMemory`.
fn causes(alloc: Global, words: String) -> [DecodeError; 18] {
    [
        DecodeError::invalid_buffer(alloc, "", 0, 1),
        DecodeError::invalid_mac_address(5),
        DecodeError::invalid_ip_address(5),
        DecodeError::invalid_number(8, 7),
        DecodeError::nla_buffer_too_small(1, 4),
        DecodeError::nla_length_mismatch(4, 5),
        DecodeError::nla_invalid_length(4, 3),
        DecodeError::buffer_too_small(3, 4),
        DecodeError::frame_short(4, true),
        DecodeError::frame_cut(40, 24, true),
        DecodeError::frame_length(15, true),
        DecodeError::done_short(3, true),
        DecodeError::error_short(3, true),
        DecodeError::from_text(alloc, ""),
        DecodeError::too_long(),
        DecodeError::out_of_memory(),
        DecodeError::from(words),
        DecodeError::out_of_memory().context(alloc, "a line"),
    ]
}

/// The number of each error of `causes`.
const CAUSE_NUMBERS: [u8; 18] = [
    1, 2, 3, 4, 5, 6, 7, 8, 9, 10, 11, 12, 13, 14, 15, 16, 14, 16,
];

/// Asserts the number of each error.
fn assert_numbers(rt: &impl Abort, causes: &[DecodeError; 18]) {
    for (cause, number) in causes.iter().zip(&CAUSE_NUMBERS) {
        assert!(rt; cause.number() == *number);
        assert!(rt; cause.is_out_of_memory() == (*number == 16));
    }
}

#[test]
fn causes_and_empty_texts(rt: HostRuntime) -> Result<(), Fail> {
    let alloc = rt.alloc();
    let words = String::from_str(alloc, "a text")?;
    refuse_from_here(alloc);
    assert_numbers(&rt, &causes(alloc, words));
    let fine: Result<u8, DecodeError> = Ok(7);
    assert!(rt; fine.context(alloc, "a line").ok() == Some(7));
    assert!(rt; parse_string(alloc, &[])?.as_str().is_empty());
    assert!(rt; parse_string(alloc, &[0])?.as_str().is_empty());
    assert!(rt; copy_of(alloc, &[])?.is_empty());
    Ok(())
}

#[test]
fn digits_for_which_there_is_room(rt: HostRuntime) -> Result<(), Fail> {
    let alloc = rt.alloc();
    let bytes = [0x5a; 200];
    let mut text = String::with_capacity(alloc, 400)?;
    refuse_from_here(alloc);
    for size in 0..=bytes.len() {
        text.clear();
        assert!(rt; push_hex(&mut text, &bytes[..size]).is_ok(), "size {size}");
        assert!(rt; text.len() == (size * 2).max(1), "size {size}");
    }
    Ok(())
}
