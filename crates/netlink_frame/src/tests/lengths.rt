//! Length fields that are set to other values.

use crate::ping_pong::PingPongMessage;
use crate::samples::Zeros;
use crate::tests::cuts::{Ending, WELL, is_walked};
use crate::tests::messages::{PING, read};
use crate::tests::refusals::refuses;
use netlink_packet_core::{
    DecodeError, NetlinkBuffer, NetlinkMessage, NetlinkPayload, NlaBuffer, normalize,
};
use std::alloc::Global;
use std::process::Abort;
use std::test::Fail;

/// A ping of four bytes with other lengths. Below 16 the error is `FrameLength`, above 20
/// `FrameCut`. Otherwise the payload is the bytes up to the length.
#[test]
fn lengths_of_a_ping(rt: HostRuntime) {
    for length in 0..22 {
        ping_of_length(&rt, rt.alloc(), length);
    }
    ping_of_length(&rt, rt.alloc(), u32::MAX);
}

fn ping_with_length(length: u32) -> [u8; 20] {
    let mut frame = PING;
    NetlinkBuffer::new(&mut frame[..]).set_length(length);
    frame
}

fn ping_of_length(rt: &impl Abort, alloc: Global, length: u32) {
    match read(alloc, &ping_with_length(length)) {
        Ok(message) => match &message.payload {
            NetlinkPayload::InnerMessage(PingPongMessage::Ping(bytes)) => {
                assert!(rt; PING.get(16..length as usize) == Some(bytes.as_slice()));
            }
            _ => assert!(rt; false, "length {length}"),
        },
        Err(
            DecodeError::FrameLength {
                length: said,
                inside: true,
            },
        ) => assert!(rt; length < 16 && said == length),
        Err(
            DecodeError::FrameCut {
                length: said,
                size: 20,
                inside: true,
            },
        ) => assert!(rt; length > 20 && said == length),
        Err(_) => assert!(rt; false, "length {length}"),
    }
}

fn attribute_with_length(length: u16) -> [u8; 8] {
    let mut block = [0, 0, 1, 0, 0xaa, 0xbb, 0xcc, 0xdd];
    NlaBuffer::new(&mut block[..]).set_length(length);
    block
}

/// A length, and the lines and the ending of an attribute that has it.
const LENGTHS: [(u16, &str, Ending); 11] = [
    (0, "", (7, 4, 0)),
    (1, "", (7, 4, 1)),
    (2, "", (7, 4, 2)),
    (3, "", (7, 4, 3)),
    (4, "0001 0 -\n", (6, 4, 48042)),
    (5, "0001 1 aa\n", WELL),
    (6, "0001 2 aabb\n", WELL),
    (7, "0001 3 aabbcc\n", WELL),
    (8, "0001 4 aabbccdd\n", WELL),
    (9, "", (6, 8, 9)),
    (65535, "", (6, 8, 65535)),
];

/// An attribute of kind 1 with other lengths.
#[test]
fn lengths_of_an_attribute(rt: HostRuntime) -> Result<(), Fail> {
    for (length, lines, ending) in LENGTHS {
        let block = attribute_with_length(length);
        assert!(rt;
            is_walked(rt.alloc(), &block, lines, ending)?,
            "length {length}"
        );
    }
    Ok(())
}

/// Error and done bodies of fewer than four bytes. An empty done body has code 0.
#[test]
fn lengths_of_a_body(rt: HostRuntime) {
    for size in 0..4u8 {
        error_of_size(&rt, rt.alloc(), size);
        done_of_size(&rt, rt.alloc(), size);
    }
}

/// Returns a frame of this type whose length field is 16 and this size.
fn body_of_size(kind: u8, size: u8) -> [u8; 20] {
    let mut frame = [0u8; 20];
    frame[0] = 16u8.saturating_add(size);
    frame[4] = kind;
    frame
}

fn error_of_size(rt: &impl Abort, alloc: Global, size: u8) {
    match &read(alloc, &body_of_size(2, size)) {
        Err(
            DecodeError::ErrorShort {
                size: said,
                inside: true,
            },
        ) => assert!(rt; *said == usize::from(size)),
        _ => assert!(rt; false, "{size} bytes of an error"),
    }
}

fn done_of_size(rt: &impl Abort, alloc: Global, size: u8) {
    match &read(alloc, &body_of_size(3, size)) {
        Ok(message) => match &message.payload {
            NetlinkPayload::Done(done) => {
                assert!(rt; size == 0 && done.code == 0 && done.extended_ack.is_empty());
            }
            _ => assert!(rt; false),
        },
        Err(
            DecodeError::DoneShort {
                size: said,
                inside: true,
            },
        ) => assert!(rt; size != 0 && *said == usize::from(size)),
        Err(_) => assert!(rt; false, "{size} bytes of a done message"),
    }
}

/// Returns a frame of type 19 with a count of zeros.
pub(crate) fn counted(count: u64) -> [u8; 24] {
    let mut frame = [0u8; 24];
    frame[0] = 24;
    frame[4] = 19;
    let [a, b, c, d, e, f, g, h] = count.to_le_bytes();
    frame[16..].copy_from_slice(&[a, b, c, d, e, f, g, h]);
    frame
}

/// The encoding of a message of four zeros.
pub const FOUR_ZEROS: [u8; 20] = [
    0x14, 0, 0, 0, 0x12, 0, 0, 0, 0, 0, 0, 0, 0, 0, 0, 0, 0, 0, 0, 0,
];

/// The longest message whose length fits in 32 bits has 4294967279 bytes after its header. No test
/// creates them.
#[test]
fn the_longest_message(rt: HostRuntime) -> Result<(), Fail> {
    assert!(rt; zeros_fit(4294967279) && !zeros_fit(4294967280));
    assert!(rt; refuses(normal_zeros(rt.alloc(), 4294967280), 15));
    assert!(rt; normal_zeros(rt.alloc(), 4)?.as_slice() == FOUR_ZEROS.as_slice());
    Ok(())
}

/// Returns whether a message of this many zeros fits.
pub(crate) fn zeros_fit(count: u64) -> bool {
    NetlinkMessage::from_inner(Zeros(count)).fits()
}

/// Returns the canonical frame of a count of zeros.
pub(crate) fn normal_zeros(alloc: Global, count: u64) -> Result<Vec<u8>, DecodeError> {
    normalize::<Zeros>(alloc, &counted(count))
}

/// Zeros are counted, or read as a count. Everything else is rejected.
#[test]
fn zeros_are_read(rt: HostRuntime) -> Result<(), Fail> {
    let mut three = [0u8; 19];
    three[0] = 19;
    three[4] = 18;
    assert!(rt; zeros_of(rt.alloc(), &three)? == Some(3));
    three[18] = 1;
    assert!(rt; refuses(zeros_of(rt.alloc(), &three), 14));
    three[4] = 19;
    assert!(rt; refuses(zeros_of(rt.alloc(), &three), 14));
    three[4] = 20;
    assert!(rt; refuses(zeros_of(rt.alloc(), &three), 14));
    let count = counted(0x0102030405060708);
    assert!(rt; zeros_of(rt.alloc(), &count)? == Some(0x0102030405060708));
    Ok(())
}

/// Reads a message. Returns how many zeros it has.
fn zeros_of(alloc: Global, bytes: &[u8]) -> Result<Option<u64>, DecodeError> {
    let message = NetlinkMessage::<Zeros>::deserialize(alloc, bytes)?;
    Ok(match &message.payload {
        NetlinkPayload::InnerMessage(zeros) => Some(zeros.0),
        _ => None,
    })
}
