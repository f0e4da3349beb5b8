//! The times of packets, after pcap-savefile(5) and the draft "PCAP Now Generic (pcapng) Capture
//! File Format".

use crate::tests::shown::{joined, joined_text, shown_with};
use netlink_lines::Options;
use std::alloc::{AllocError, Global};
use std::test::Fail;

const TIMES: Options = Options {
    labels: false,
    times: true,
    bytes: false,
    json: false,
};

/// The headers of files with times in microseconds, little-endian, and in nanoseconds, big-endian.
const LITTLE: [u8; 24] = [
    0xd4, 0xc3, 0xb2, 0xa1, 2, 0, 4, 0, 0, 0, 0, 0, 0, 0, 0, 0, 0, 0, 4, 0, 253, 0, 0, 0,
];

const BIG: [u8; 24] = [
    0xa1, 0xb2, 0x3c, 0x4d, 0, 2, 0, 4, 0, 0, 0, 0, 0, 0, 0, 0, 0, 4, 0, 0, 0, 0, 0, 253,
];

/// The headers of packets of 48 bytes: 1,700,000,000 seconds and 42 microseconds, and 1 second and
/// 999,999,999 nanoseconds.
const FIRST: [u8; 16] = [
    0x00, 0xf1, 0x53, 0x65, 42, 0, 0, 0, 48, 0, 0, 0, 48, 0, 0, 0,
];

const SECOND: [u8; 16] = [0, 0, 0, 1, 0x3b, 0x9a, 0xc9, 0xff, 0, 0, 0, 48, 0, 0, 0, 48];

/// A datagram with two noops, after its header.
const NOOPS: [u8; 48] = [
    0, 4, 3, 56, 0, 0, 0, 0, 0, 0, 0, 0, 0, 0, 0, 0, //
    16, 0, 0, 0, 1, 0, 0, 0, 0, 0, 0, 0, 0, 0, 0, 0, //
    16, 0, 0, 0, 1, 0, 0, 0, 0, 0, 0, 0, 0, 0, 0, 0, //
];

/// The header of a section, and interfaces whose times are in microseconds and in nanoseconds.
const SECTION: [u8; 28] = [
    0x0a, 0x0d, 0x0d, 0x0a, 28, 0, 0, 0, 0x4d, 0x3c, 0x2b, 0x1a, 1, 0, 0, 0, //
    0xff, 0xff, 0xff, 0xff, 0xff, 0xff, 0xff, 0xff, 28, 0, 0, 0, //
];

const MICROS: [u8; 20] = [
    1, 0, 0, 0, 20, 0, 0, 0, 253, 0, 0, 0, 0, 0, 4, 0, 20, 0, 0, 0, //
];

const NANOS: [u8; 40] = [
    1, 0, 0, 0, 40, 0, 0, 0, 253, 0, 0, 0, 0, 0, 4, 0, //
    2, 0, 3, 0, b'n', b'l', b'0', 0, 9, 0, 1, 0, 9, 0, 0, 0, 0, 0, 0, 0, 40, 0, 0, 0, //
];

/// A packet of the first interface: its time is 2^32 + 5.
const ENHANCED: [u8; 28] = [
    6, 0, 0, 0, 80, 0, 0, 0, 0, 0, 0, 0, 1, 0, 0, 0, 5, 0, 0, 0, 48, 0, 0, 0, 48, 0, 0, 0,
];

/// A packet without its own header.
const SIMPLE: [u8; 12] = [3, 0, 0, 0, 64, 0, 0, 0, 48, 0, 0, 0];

/// Returns whether these parts have these lines with times.
fn has_times(alloc: Global, parts: &[&[u8]], lines: &[&str]) -> Result<bool, AllocError> {
    let (output, ended) = shown_with(alloc, TIMES, &joined(alloc, parts)?);
    let wanted = joined_text(alloc, lines)?;
    Ok(output.as_slice() == wanted.as_bytes() && ended.is_ok())
}

/// The time precedes each message of a packet. That of nanoseconds is cut to microseconds.
#[test]
fn packets_have_times(rt: HostRuntime) -> Result<(), Fail> {
    let time = "[1700000000.000042] noop\n";
    assert!(rt; has_times(rt.alloc(), &[&LITTLE, &FIRST, &NOOPS], &[time, time])?);
    let time = "[1.999999] noop\n";
    assert!(rt; has_times(rt.alloc(), &[&BIG, &SECOND, &NOOPS], &[time, time])?);
    Ok(())
}

/// An option of the interface tells the unit. A packet without its own header has no time.
#[test]
fn interfaces_count_times(rt: HostRuntime) -> Result<(), Fail> {
    let time = "[4294.967301] noop\n";
    let parts: [&[u8]; 8] = [
        &SECTION,
        &MICROS,
        &ENHANCED,
        &NOOPS,
        &[80, 0, 0, 0],
        &SIMPLE,
        &NOOPS,
        &[64, 0, 0, 0],
    ];
    let lines = [time, time, "noop\n", "noop\n"];
    assert!(rt; has_times(rt.alloc(), &parts, &lines)?);
    let time = "[4.294967] noop\n";
    let parts: [&[u8]; 5] = [&SECTION, &NANOS, &ENHANCED, &NOOPS, &[80, 0, 0, 0]];
    assert!(rt; has_times(rt.alloc(), &parts, &[time, time])?);
    Ok(())
}
