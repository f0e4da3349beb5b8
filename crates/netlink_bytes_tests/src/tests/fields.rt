//! Integers at offsets, and a header read and written with them.

ghost use Rattle.std.specs.Prelude.{◌≡◌, ◌≤◌, ◌++◌, length};
ghost use Rattle.netlink_bytes.specs.Fields.{number_at};
ghost use Rattle.netlink_bytes.specs.Numbers.{signed, bytes_le, unsigned};

use crate::tests::number::Number;
use netlink_bytes::laws::{fields_kept, placed_is_read};
use netlink_bytes::{i32_at, put_i32, put_u16, put_u32, u16_at, u32_at};

/// A fixed header of three fields, 10 bytes on the wire.
#[derive(Clone, Copy, Debug, PartialEq, Eq)]
struct Place {
    kind: u16,
    offset: i32,
    size: u32,
}

/// Reads the header at the start. Requires at least 10 bytes.
fn read(bytes: &[u8]) -> Place
    requires { 10 ≤ length bytes.now }
    ensures kind { result.kind ≡ number_at 0 2 bytes.now }
    ensures offset { result.offset ≡ signed 4 (number_at 2 4 bytes.now) }
    ensures size { result.size ≡ number_at 6 4 bytes.now }
{
    Place {
        kind: u16_at(bytes, 0),
        offset: i32_at(bytes, 2),
        size: u32_at(bytes, 6),
    }
}

/// Writes the header. Requires that `buffer` has exactly 10 bytes.
#[tactic(auto, unfolding(netlink_bytes::specs::Numbers::bytes_le))]
fn write(place: Place, buffer: &mut [u8])
    requires { length buffer.old ≡ 10 }
    ensures { buffer.new ≡ bytes_le place.kind 2
        ++ (bytes_le (unsigned 4 place.offset) 4 ++ bytes_le place.size 4) }
{
    put_u16(buffer, 0, place.kind);
    put_i32(buffer, 2, place.offset);
    put_u32(buffer, 6, place.size);
}

/// Reads an integer of the type of `like` at an offset, if there are enough bytes.
fn read_at(like: Number, bytes: &[u8], at: usize) -> Option<Number> {
    let room = bytes.len().saturating_sub(at);
    match like {
        Number::U16(_) if room >= 2 => Some(Number::U16(u16_at(bytes, at))),
        Number::U32(_) if room >= 4 => Some(Number::U32(u32_at(bytes, at))),
        Number::I32(_) if room >= 4 => Some(Number::I32(i32_at(bytes, at))),
        _ => None,
    }
}

/// Writes an integer at an offset. Returns whether there are enough bytes.
fn put_at(number: Number, bytes: &mut [u8], at: usize) -> bool {
    let room = bytes.len().saturating_sub(at);
    match number {
        Number::U16(value) if room >= 2 => put_u16(bytes, at, value),
        Number::U32(value) if room >= 4 => put_u32(bytes, at, value),
        Number::I32(value) if room >= 4 => put_i32(bytes, at, value),
        _ => return false,
    }
    true
}

const BYTES: [u8; 8] = [0xff, 0x34, 0x12, 0x78, 0x56, 0x34, 0x92, 0xee];

/// Integers, and the offset in `BYTES` where each is read.
const READ: [(Number, usize); 7] = [
    (Number::U16(0x1234), 1),
    (Number::U16(0x34ff), 0),
    (Number::U16(0xee92), 6),
    (Number::U32(0x92345678), 3),
    (Number::U32(0xee923456), 4),
    (Number::I32(-1842063752), 3),
    (Number::I32(0x781234ff), 0),
];

/// Integers that are written one after another, the offset of each, and the bytes after it.
const WRITTEN: [(Number, usize, [u8; 8]); 4] = [
    (
        Number::U16(0x1234),
        1,
        [0x55, 0x34, 0x12, 0x55, 0x55, 0x55, 0x55, 0x55],
    ),
    (
        Number::U32(0x92345678),
        3,
        [0x55, 0x34, 0x12, 0x78, 0x56, 0x34, 0x92, 0x55],
    ),
    (
        Number::I32(-2),
        4,
        [0x55, 0x34, 0x12, 0x78, 0xfe, 0xff, 0xff, 0xff],
    ),
    (
        Number::U16(1),
        0,
        [1, 0, 0x12, 0x78, 0xfe, 0xff, 0xff, 0xff],
    ),
];

#[test]
fn numbers_at_their_places(rt: HostRuntime) {
    for (at, (number, offset)) in READ.iter().enumerate() {
        assert!(rt;
            read_at(*number, &BYTES, *offset) == Some(*number),
            "row {at}"
        );
    }
    let mut written = [0x55; 8];
    for (at, (number, offset, expected)) in WRITTEN.iter().enumerate() {
        assert!(rt; put_at(*number, &mut written, *offset), "row {at}");
        assert_eq!(rt; written, *expected, "row {at}");
    }
}

#[test]
fn a_header_that_was_read_is_written_as_it_was(rt: HostRuntime) {
    fields_kept();
    placed_is_read();
    let bytes = [7, 0, 0xfe, 0xff, 0xff, 0xff, 1, 2, 3, 4];
    let place = read(&bytes);
    assert_eq!(rt;
        place,
        Place {
            kind: 7,
            offset: -2,
            size: 0x04030201
        }
    );
    let mut written = [0x55; 10];
    write(place, &mut written);
    assert_eq!(rt; written, bytes);
}
