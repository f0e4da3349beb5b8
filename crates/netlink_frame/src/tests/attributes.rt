//! The commands for attributes.

use crate::command::Command;
use crate::nlas::nlas_fault;
use crate::tests::outcomes::{Row, come_to};
use std::test::Fail;

pub const TWO: [u8; 16] = [5, 0, 1, 0, 0xaa, 0, 0, 0, 8, 0, 2, 0, 1, 2, 3, 4];

pub const FLAGGED: [u8; 8] = [8, 0, 6, 0x40, 0, 0, 0x0e, 0x10];

/// The second attribute has a length field of 3.
pub const SHORT: [u8; 9] = [4, 0, 1, 0, 3, 0, 7, 0, 0xff];

/// The text of the error of that attribute.
const TOO_SHORT: &str = "NLA has invalid length: 3 (should be at least 4 bytes)";

const LINES: [Row<'static>; 3] = [
    (Command::Nlas, &TWO, b"0001 1 aa\n0002 4 01020304\n", 0, ""),
    (Command::Nlas, &FLAGGED, b"4006 4 00000e10\n", 0, ""),
    (Command::Nlas, &[], &[], 0, ""),
];

#[test]
fn lines_of_attributes(rt: HostRuntime) -> Result<(), Fail> {
    assert!(rt; nlas_fault(&TWO).is_none());
    come_to(&rt, rt.alloc(), &LINES)
}

/// What precedes an error is printed.
#[test]
fn lines_up_to_a_fault(rt: HostRuntime) -> Result<(), Fail> {
    let rows: [Row<'_>; 2] = [
        (Command::Nlas, &SHORT, b"0001 0 -\n", 7, TOO_SHORT),
        (
            Command::Nlas,
            &TWO[..9],
            b"0001 1 aa\n",
            5,
            "buffer has length 1, but an NLA header is 4 bytes",
        ),
    ];
    come_to(&rt, rt.alloc(), &rows)
}

const CANONICAL: [Row<'static>; 3] = [
    (
        Command::Canon,
        &[5, 0, 1, 0, 0xaa],
        &[5, 0, 1, 0, 0xaa, 0, 0, 0],
        0,
        "",
    ),
    (
        Command::Canon,
        &[5, 0, 1, 0, 0xaa, 0x11, 0x22, 0x33, 4, 0, 6, 0xc0],
        &[5, 0, 1, 0, 0xaa, 0, 0, 0, 4, 0, 6, 0xc0],
        0,
        "",
    ),
    (Command::Canon, &TWO, &TWO, 0, ""),
];

#[test]
fn canonical_blocks(rt: HostRuntime) -> Result<(), Fail> {
    come_to(&rt, rt.alloc(), &CANONICAL)
}

#[test]
fn a_damaged_block_has_no_canonical_one(rt: HostRuntime) -> Result<(), Fail> {
    come_to(
        &rt,
        rt.alloc(),
        &[(Command::Canon, &SHORT, &[], 7, TOO_SHORT)],
    )
}
