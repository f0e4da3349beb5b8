//! Pcap files made by hand, after pcap-savefile(5) and the page of `LINKTYPE_NETLINK`.

use crate::tests::lines::{ADDRESS, LINE};
use crate::tests::shown::{assert_run, ends_with, joined, joined_text, shown};
use netlink_lines::Fault;
use std::alloc::{AllocError, Global};
use std::test::Fail;

/// A header with times in microseconds, little-endian: version 2.4, 262144 bytes at most, netlink.
const LITTLE: [u8; 24] = [
    0xd4, 0xc3, 0xb2, 0xa1, 2, 0, 4, 0, 0, 0, 0, 0, 0, 0, 0, 0, 0, 0, 4, 0, 253, 0, 0, 0,
];

/// The same with times in nanoseconds, big-endian.
const BIG: [u8; 24] = [
    0xa1, 0xb2, 0x3c, 0x4d, 0, 2, 0, 4, 0, 0, 0, 0, 0, 0, 0, 0, 0, 4, 0, 0, 0, 0, 0, 253,
];

const CUT: &str =
    "byte 148: failed deserializing NetlinkMessage caused by invalid netlink buffer length caused by invalid netlink buffer: length field says 60 the buffer is 59 bytes long\n";

/// Returns the header of a packet of this number of bytes, of which some were captured.
fn packet_header(captured: u8, original: u8, is_big: bool) -> [u8; 16] {
    if is_big {
        [0, 0, 0, 1, 0, 0, 0, 2, 0, 0, 0, captured, 0, 0, 0, original]
    } else {
        [1, 0, 0, 0, 2, 0, 0, 0, captured, 0, 0, 0, original, 0, 0, 0]
    }
}

/// Returns the header of a datagram: an outgoing one, of the device type 768 and this, and of a family.
fn datagram_header(device: u8, family: u8) -> [u8; 16] {
    [0, 4, 3, device, 0, 0, 0, 0, 0, 0, 0, 0, 0, 0, 0, family]
}

/// Returns a file with this header and a whole datagram, one that ends early and a whole one.
fn file(alloc: Global, header: &[u8], is_big: bool) -> Result<Vec<u8>, AllocError> {
    let whole = packet_header(76, 76, is_big);
    let cut = packet_header(75, 75, is_big);
    let of_route = datagram_header(56, 0);
    let parts: [&[u8]; 10] = [
        header,
        &whole,
        &of_route,
        &ADDRESS,
        &cut,
        &of_route,
        &ADDRESS[..59],
        &whole,
        &of_route,
        &ADDRESS,
    ];
    joined(alloc, &parts)
}

/// Both byte orders, and a message after a datagram that ends early.
#[test]
fn packets_have_lines(rt: HostRuntime) -> Result<(), Fail> {
    let alloc = rt.alloc();
    let wanted = joined_text(alloc, &[LINE, CUT, LINE])?;
    let little = file(alloc, &LITTLE, false)?;
    assert_run(&rt, alloc, &little, &wanted, Err(Fault::Malformed));
    let big = file(alloc, &BIG, true)?;
    assert_run(&rt, alloc, &big, &wanted, Err(Fault::Malformed));
    Ok(())
}

/// The request of `ip addr show` without the zeros after it, and its line.
const REQUEST: [u8; 24] = [
    24, 0, 0, 0, 22, 0, 1, 3, 1, 0, 0, 0, 0, 0, 0, 0, // length 24, RTM_GETADDR
    0, 0, 0, 0, 0, 0, 0, 0, //
];

const REQUEST_LINE: &str = "Get 0: * family 0 scope global dynamic\n";

/// An address whose payload is one byte short, and the byte of padding after it.
const SHORT: [u8; 24] = [
    23, 0, 0, 0, 20, 0, 0, 0, 0, 0, 0, 0, 0, 0, 0, 0, // length 23, RTM_NEWADDR
    0, 0, 0, 0, 0, 0, 0, 0, //
];

const SHORT_LINE: &str =
    "byte 56: Failed to parse message with type 20: the payload has 7 bytes, fewer than its header of 8\n";

const NO_LENGTH: &str =
    "byte 80: failed deserializing NetlinkMessage caused by invalid netlink buffer length caused by invalid netlink buffer: length field says 0 but netlink packets are at least 16 bytes\n";

/// Sixteen bytes that are no padding.
const ONE: [u8; 16] = [0, 0, 0, 0, 0, 0, 0, 0, 0, 0, 0, 0, 0, 0, 0, 1];

/// Datagrams in two parts, the lines of each, and whether one is an error.
const PADDED: [(&[u8], &[u8], &[&str], bool); 7] = [
    (&REQUEST, &[0; 128], &[REQUEST_LINE], false),
    (&REQUEST, &[0; 3], &[REQUEST_LINE], false),
    (&[], &[0; 1], &[], false),
    (&[], &[0; 16], &[], false),
    (&[], &[0; 37], &[], false),
    (&SHORT, &[0; 20], &[SHORT_LINE], true),
    (&REQUEST, &ONE, &[REQUEST_LINE, NO_LENGTH], true),
];

/// Returns a file with a packet of this size, of which some bytes were captured: a datagram of route
/// netlink in two parts.
fn in_parts(
    alloc: Global,
    captured: u8,
    original: u8,
    message: &[u8],
    rest: &[u8],
) -> Result<Vec<u8>, AllocError> {
    let header = packet_header(captured, original, false);
    let of_route = datagram_header(56, 0);
    let parts: [&[u8]; 5] = [&LITTLE, &header, &of_route, message, rest];
    joined(alloc, &parts)
}

/// Returns whether a whole datagram in two parts has these lines, and ends with an error or without.
fn has_lines(
    alloc: Global,
    message: &[u8],
    rest: &[u8],
    lines: &[&str],
    is_malformed: bool,
) -> Result<bool, AllocError> {
    let size = u8::try_from(message.len() + rest.len())
        .unwrap_or(0)
        .wrapping_add(16);
    let input = in_parts(alloc, size, size, message, rest)?;
    let wanted = joined_text(alloc, lines)?;
    Ok(has_line(alloc, &input, wanted.as_str(), is_malformed))
}

/// Zeros after the last message of a packet, or alone, are padding. Other bytes are not.
#[test]
fn zeros_in_packets_are_padding(rt: HostRuntime) -> Result<(), Fail> {
    for (message, rest, lines, is_malformed) in PADDED {
        assert!(rt; has_lines(rt.alloc(), message, rest, lines, is_malformed)?);
    }
    Ok(())
}

/// Captured parts of datagrams, and the lines of each: those of the whole messages alone.
const CAPTURED: [(&[u8], &[&str]); 7] = [
    (&ADDRESS, &[LINE]),
    (&REQUEST, &[REQUEST_LINE]),
    (&[], &[]),
    (&[0; 20], &[]),
    (&[60, 0], &[]),
    (&[60, 0, 0, 0, 20, 0, 0, 0, 0, 0, 0, 0, 0, 0, 0, 0, 2], &[]),
    (&ONE, &[ZERO_LENGTH]),
];

const ZERO_LENGTH: &str =
    "byte 116: failed deserializing NetlinkMessage caused by invalid netlink buffer length caused by invalid netlink buffer: length field says 0 but netlink packets are at least 16 bytes\n";

const CUT_LINE: &str = "byte 24: of a packet of 250 bytes, ";

/// Returns whether a packet of 250 bytes of which these were captured has these lines, and then that
/// of the cut.
fn is_cut_by_capture(
    alloc: Global,
    captured: u8,
    rest: &[u8],
    lines: &[&str],
) -> Result<bool, AllocError> {
    let input = in_parts(alloc, captured, 250, &ADDRESS, rest)?;
    let parts = joined_text(alloc, lines)?;
    let wanted = format!(in alloc; "{LINE}{parts}{CUT_LINE}{captured} were captured\n")?;
    Ok(has_line(alloc, &input, wanted.as_str(), true))
}

/// Returns whether a packet of 250 bytes in which the file ends has these lines, and whether the run
/// then ends with the error of the cut.
fn is_cut_by_the_end(
    alloc: Global,
    captured: u8,
    rest: &[u8],
    lines: &[&str],
) -> Result<bool, AllocError> {
    let input = in_parts(alloc, 250, 250, &ADDRESS, rest)?;
    let parts = joined_text(alloc, lines)?;
    let wanted = format!(in alloc; "{LINE}{parts}")?;
    let error = format!(in alloc; "byte 24: a packet is cut to {captured} of 250 bytes")?;
    let (output, ended) = shown(alloc, &input);
    Ok(output.as_slice() == wanted.as_bytes() && ends_with(alloc, ended, error.as_str())?)
}

/// A packet that the capture cut has the lines of its whole messages, and then that of the cut. If the
/// end of the file cuts it, the cut is the error of the run.
#[test]
fn cut_packets_have_their_whole_messages(rt: HostRuntime) -> Result<(), Fail> {
    for (rest, lines) in CAPTURED {
        let captured = u8::try_from(16 + ADDRESS.len() + rest.len()).unwrap_or(0);
        assert!(rt; is_cut_by_capture(rt.alloc(), captured, rest, lines)?);
        assert!(rt; is_cut_by_the_end(rt.alloc(), captured, rest, lines)?);
    }
    Ok(())
}

/// Packets that are no datagrams of route netlink: the size of each, the end of its device type, its
/// family, its line, and whether that is an error.
const OTHERS: [(u8, u8, u8, &str, bool); 3] = [
    (76, 56, 16, "netlink family 16, 60 bytes\n", false),
    (
        76,
        57,
        0,
        "byte 24: the device type of a packet is 825 instead of 824 (NETLINK)\n",
        true,
    ),
    (
        77,
        56,
        16,
        "byte 24: of a packet of 77 bytes, 76 were captured\n",
        true,
    ),
];

/// Returns a file with a packet of this size, device type and family.
fn other(alloc: Global, original: u8, device: u8, family: u8) -> Result<Vec<u8>, AllocError> {
    let header = packet_header(76, original, false);
    let datagram = datagram_header(device, family);
    joined(alloc, &[&LITTLE, &header, &datagram, &ADDRESS])
}

/// Returns whether these bytes have this line, and end with an error or without.
pub(crate) fn has_line(alloc: Global, input: &[u8], line: &str, is_malformed: bool) -> bool {
    let (output, result) = shown(alloc, input);
    output.as_slice() == line.as_bytes() && result.is_err() == is_malformed
}

#[test]
fn other_packets_have_one_line(rt: HostRuntime) -> Result<(), Fail> {
    for (original, device, family, line, is_malformed) in OTHERS {
        let input = other(rt.alloc(), original, device, family)?;
        assert!(rt; has_line(rt.alloc(), &input, line, is_malformed), "{line}");
    }
    Ok(())
}

/// Returns whether a run over these parts writes nothing and ends with this error.
pub(crate) fn is_rejected(alloc: Global, parts: &[&[u8]], error: &str) -> Result<bool, AllocError> {
    let (output, result) = shown(alloc, &joined(alloc, parts)?);
    Ok(output.is_empty() && ends_with(alloc, result, error)?)
}

/// Files that are not read, and the error of each.
#[test]
fn files_are_rejected_by_name(rt: HostRuntime) -> Result<(), Fail> {
    let short = "byte 0: the header of a pcap file is cut to 23 of 24 bytes";
    assert!(rt; is_rejected(rt.alloc(), &[&LITTLE[..23]], short)?);
    let version = "byte 4: the version of the pcap file is 2.3 instead of 2.4";
    let parts: [&[u8]; 3] = [&LITTLE[..6], &[3], &LITTLE[7..]];
    assert!(rt; is_rejected(rt.alloc(), &parts, version)?);
    let ethernet =
        "byte 20: the link type of the pcap file is 1 (ETHERNET) instead of 253 (NETLINK)";
    let parts: [&[u8]; 2] = [&LITTLE[..20], &[1, 0, 0, 0]];
    assert!(rt; is_rejected(rt.alloc(), &parts, ethernet)?);
    Ok(())
}

/// Packets that cannot be read, and the error of each.
#[test]
fn packets_are_rejected_by_name(rt: HostRuntime) -> Result<(), Fail> {
    let header = packet_header(76, 76, false);
    let short = "byte 24: the header of a packet is cut to 15 of 16 bytes";
    let parts: [&[u8]; 2] = [&LITTLE, &header[..15]];
    assert!(rt; is_rejected(rt.alloc(), &parts, short)?);
    let long = "byte 24: a packet of 1275068416 bytes is longer than 1048576";
    let parts: [&[u8]; 2] = [&BIG, &header];
    assert!(rt; is_rejected(rt.alloc(), &parts, long)?);
    let cut = "byte 24: a packet is cut to 1 of 76 bytes";
    let parts: [&[u8]; 3] = [&LITTLE, &header, &[0]];
    assert!(rt; is_rejected(rt.alloc(), &parts, cut)?);
    Ok(())
}
