//! Pcapng files made by hand, after the draft "PCAP Now Generic (pcapng) Capture File Format".

use crate::tests::lines::{ADDRESS, LINE};
use crate::tests::pcap_files::{has_line, is_rejected};
use crate::tests::shown::{assert_run, joined, joined_text};
use netlink_lines::Fault;
use std::alloc::{AllocError, Global};
use std::test::Fail;

/// The header of a section, little-endian: version 1.0, of unknown length.
const SECTION: [u8; 28] = [
    0x0a, 0x0d, 0x0d, 0x0a, 28, 0, 0, 0, 0x4d, 0x3c, 0x2b, 0x1a, 1, 0, 0, 0, //
    0xff, 0xff, 0xff, 0xff, 0xff, 0xff, 0xff, 0xff, 28, 0, 0, 0, //
];

/// An interface of the link type 253, 262144 bytes of a packet at most, with its name as an option.
const INTERFACE: [u8; 36] = [
    1, 0, 0, 0, 36, 0, 0, 0, 253, 0, 0, 0, 0, 0, 4, 0, //
    2, 0, 6, 0, b'n', b'l', b'm', b'o', b'n', b'0', 0, 0, 0, 0, 0, 0, 36, 0, 0, 0, //
];

/// A block of a type that nobody has defined.
const OTHER: [u8; 16] = [
    0xad, 0x0b, 0, 0, 16, 0, 0, 0, 1, 2, 3, 4, 16, 0, 0, 0, //
];

/// A section and an interface, big-endian, 80 bytes of a packet at most.
const BIG: [u8; 48] = [
    0x0a, 0x0d, 0x0d, 0x0a, 0, 0, 0, 28, 0x1a, 0x2b, 0x3c, 0x4d, 0, 1, 0, 0, //
    0xff, 0xff, 0xff, 0xff, 0xff, 0xff, 0xff, 0xff, 0, 0, 0, 28, //
    0, 0, 0, 1, 0, 0, 0, 20, 0, 253, 0, 0, 0, 0, 0, 80, 0, 0, 0, 20, //
];

/// The header of an outgoing datagram of route netlink.
const OF_ROUTE: [u8; 16] = [0, 4, 3, 56, 0, 0, 0, 0, 0, 0, 0, 0, 0, 0, 0, 0];

/// The first bytes of a block with a packet of the first interface, of which these bytes were
/// captured.
fn enhanced(size: u8, captured: u8, original: u8) -> [u8; 28] {
    [
        6, 0, 0, 0, size, 0, 0, 0, 0, 0, 0, 0, 1, 0, 0, 0, 2, 0, 0, 0, //
        captured, 0, 0, 0, original, 0, 0, 0, //
    ]
}

/// Returns a section and an interface, with another block between, and a block of 108 bytes with a
/// packet of 76.
fn file(alloc: Global) -> Result<Vec<u8>, AllocError> {
    let head = enhanced(108, 76, 76);
    let parts: [&[u8]; 7] = [
        &SECTION,
        &OTHER,
        &INTERFACE,
        &head,
        &OF_ROUTE,
        &ADDRESS,
        &[108, 0, 0, 0],
    ];
    joined(alloc, &parts)
}

/// A new section has its own byte order, and its packet no header of its own. Other blocks have no
/// lines.
#[test]
fn blocks_have_the_lines_of_their_packets(rt: HostRuntime) -> Result<(), Fail> {
    let alloc = rt.alloc();
    let little = file(alloc)?;
    let parts: [&[u8]; 7] = [
        &little,
        &OTHER,
        &BIG,
        &[0, 0, 0, 3, 0, 0, 0, 92, 0, 0, 0, 76],
        &OF_ROUTE,
        &ADDRESS,
        &[0, 0, 0, 92],
    ];
    let input = joined(alloc, &parts)?;
    let wanted = joined_text(alloc, &[LINE, LINE])?;
    assert_run(&rt, alloc, &input, &wanted, Ok(()));
    Ok(())
}

/// A packet of which a part was captured, as its header says or as the interface does.
#[test]
fn captured_parts_have_their_line(rt: HostRuntime) -> Result<(), Fail> {
    let alloc = rt.alloc();
    let head = enhanced(108, 76, 77);
    let parts: [&[u8]; 6] = [
        &SECTION,
        &INTERFACE,
        &head,
        &OF_ROUTE,
        &ADDRESS,
        &[108, 0, 0, 0],
    ];
    let cut = joined_text(
        alloc,
        &[LINE, "byte 64: of a packet of 77 bytes, 76 were captured\n"],
    )?;
    assert!(rt; has_line(alloc, &joined(alloc, &parts)?, cut.as_str(), true));
    let parts: [&[u8]; 5] = [
        &BIG,
        &[0, 0, 0, 3, 0, 0, 0, 96, 0, 0, 0, 99],
        &OF_ROUTE,
        &ADDRESS,
        &[1, 0, 0, 0, 0, 0, 0, 96],
    ];
    let cut = joined_text(
        alloc,
        &[LINE, "byte 48: of a packet of 99 bytes, 80 were captured\n"],
    )?;
    assert!(rt; has_line(alloc, &joined(alloc, &parts)?, cut.as_str(), true));
    Ok(())
}

/// Blocks after a section and an interface of 64 bytes, and the error of each.
const REJECTED: [(&[u8], &str); 11] = [
    (
        &[6, 0, 0, 0, 32, 0, 0],
        "byte 64: the header of a block is cut to 7 of 8 bytes",
    ),
    (
        &[6, 0, 0, 0, 32, 0, 0, 0, 0],
        "byte 64: the header of a block is cut to 9 of 28 bytes",
    ),
    (
        &[5, 0, 0, 0, 14, 0, 0, 0],
        "byte 64: the length of a block is 14, no multiple of 4",
    ),
    (
        &[5, 0, 0, 0, 8, 0, 0, 0],
        "byte 64: the length of a block is 8, less than 12",
    ),
    (
        &[5, 0, 0, 0, 16, 0, 0, 0, 1],
        "byte 64: a block is cut to 9 of 16 bytes",
    ),
    (
        &[5, 0, 0, 0, 12, 0, 0, 0, 16, 0, 0, 0],
        "byte 64: the length of a block is 12 at its start and 16 at its end",
    ),
    (
        &[1, 0, 0, 0, 20, 0, 0, 0, 1, 0, 0, 0, 0, 0, 0, 0],
        "byte 64: the link type of an interface is 1 (ETHERNET) instead of 253 (NETLINK)",
    ),
    (
        &[
            6, 0, 0, 0, 32, 0, 0, 0, 1, 0, 0, 0, 0, 0, 0, 0, 0, 0, 0, 0, 0, 0, 0, 0, 0, 0, 0, 0,
        ],
        "byte 64: a packet of interface 1 in a section with 1",
    ),
    (
        &[
            6, 0, 0, 0, 32, 0, 0, 0, 0, 0, 0, 0, 0, 0, 0, 0, 0, 0, 0, 0, 1, 0, 16, 0, 0, 0, 0, 0,
        ],
        "byte 64: a packet of 1048577 bytes is longer than 1048576",
    ),
    (
        &[3, 0, 0, 0, 16, 0, 0, 0, 1, 0, 0, 0],
        "byte 64: a block has room for 0 of the 1 bytes of a packet",
    ),
    (
        &[
            0x0a, 0x0d, 0x0d, 0x0a, 28, 0, 0, 0, 0x4d, 0x3c, 0x2b, 0x1a, 2, 0, 0, 0, //
            0, 0, 0, 0, 0, 0, 0, 0,
        ],
        "byte 64: the major version of a section is 2 instead of 1",
    ),
];

/// Blocks that cannot be read.
#[test]
fn blocks_are_rejected_by_name(rt: HostRuntime) -> Result<(), Fail> {
    for (block, error) in REJECTED {
        let parts: [&[u8]; 3] = [&SECTION, &INTERFACE, block];
        assert!(rt; is_rejected(rt.alloc(), &parts, error)?, "{error}");
    }
    let order = "byte 0: a section has neither byte order";
    assert!(rt; is_rejected(rt.alloc(), &[&SECTION[..8], &[0; 16]], order)?);
    Ok(())
}
