//! Test cases for integers as bytes, and for errors. Each function is called in `memory_not_asked`.

use crate::tests::errors::assert_refused;
use crate::tests::number::{Number, Order};
use netlink_bytes::laws::{
    numbers_are_sums, numbers_read_back, signed_numbers_read_back, written_is_read,
};
use netlink_bytes::{NonZeroI32, emit_u32_be, parse_u64};

#[test]
fn numbers_that_are_not_zero(rt: HostRuntime) {
    assert!(rt; NonZeroI32::new(0).is_none());
    for value in [-8765, -1, 1, i32::MIN, i32::MAX] {
        assert_eq!(rt;
            NonZeroI32::new(value).map(|number| number.get()),
            Some(value)
        );
    }
}

/// Returns whether the bytes are read as the integer.
fn is_read(number: Number, order: Order, bytes: &[u8]) -> bool {
    number.parse_same_type(order, bytes).ok() == Some(number)
}

/// Returns whether writing the integer to a buffer of the size of `expected`, filled with `fill`,
/// leaves the bytes `expected`.
fn is_written(number: Number, order: Order, fill: u8, expected: &[u8]) -> bool {
    let mut buffer = [fill; 17];
    match buffer.get_mut(..expected.len()) {
        Some(part) => number.emit(order, part).is_ok() && *part == *expected,
        None => false,
    }
}

const SUM: u32 = 0x78 + 0x56 * 256 + 0x34 * 256 * 256 + 0x92 * 256 * 256 * 256;

/// Integers, what a buffer is filled with before, and what it is after.
const AT_ONE_NUMBER: [(Number, u8, &[u8]); 3] = [
    (Number::U32(SUM), 0, &[0x78, 0x56, 0x34, 0x92]),
    (Number::I32(-1842063752), 0, &[0x78, 0x56, 0x34, 0x92]),
    (
        Number::U32(SUM),
        0x55,
        &[0x78, 0x56, 0x34, 0x92, 0x55, 0x55],
    ),
];

/// Calls of the laws, with test cases for them.
#[test]
fn the_laws_at_one_number(rt: HostRuntime) {
    numbers_are_sums();
    numbers_read_back();
    signed_numbers_read_back();
    written_is_read();
    for (at, (number, fill, bytes)) in AT_ONE_NUMBER.iter().enumerate() {
        assert!(rt;
            is_written(*number, Order::Little, *fill, bytes),
            "row {at}"
        );
        let written = bytes.get(..4).unwrap_or(&[]);
        assert!(rt; is_read(*number, Order::Little, written), "row {at}");
    }
}

const READ: [(Number, Order, &[u8]); 5] = [
    (Number::U16(4660), Order::Big, &[0x12, 0x34]),
    (Number::U16(13330), Order::Native, &[0x12, 0x34]),
    (Number::I16(-1), Order::Native, &[0xff, 0xff]),
    (Number::I32(-8765), Order::Native, &[0xc3, 0xdd, 0xff, 0xff]),
    (
        Number::I64(-9223372036854775808),
        Order::Big,
        &[0x80, 0, 0, 0, 0, 0, 0, 0],
    ),
];

/// Integers, what a buffer is filled with before, and what it is after.
const WRITTEN: [(Number, Order, u8, &[u8]); 2] = [
    (
        Number::U16(0x1234),
        Order::Native,
        0xff,
        &[0x34, 0x12, 0xff],
    ),
    (
        Number::I128(-2),
        Order::Big,
        0x55,
        &[
            0xff, 0xff, 0xff, 0xff, 0xff, 0xff, 0xff, 0xff, 0xff, 0xff, 0xff, 0xff, 0xff, 0xff,
            0xff, 0xfe, 0x55,
        ],
    ),
];

#[test]
fn rows_of_numbers(rt: HostRuntime) {
    for (at, (number, order, bytes)) in READ.iter().enumerate() {
        assert!(rt; is_read(*number, *order, bytes), "row {at}");
    }
    for (at, (number, order, fill, bytes)) in WRITTEN.iter().enumerate() {
        assert!(rt; is_written(*number, *order, *fill, bytes), "row {at}");
    }
    assert_refused(
        &rt,
        rt.alloc(),
        parse_u64(&[0; 7]),
        4,
        "Invalid number. Expected 8 bytes, received 7 bytes",
    );
    let mut three = [0x34, 0x12, 0xff];
    assert_refused(
        &rt,
        rt.alloc(),
        emit_u32_be(&mut three, 7),
        8,
        "Buffer too small: 3 (should be at least 4 bytes",
    );
    assert_eq!(rt; three, [0x34, 0x12, 0xff]);
}
