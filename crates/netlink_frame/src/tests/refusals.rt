//! Bytes that are rejected, with their errors.

use crate::tests::messages::{PING, normal_of, read};
use netlink_packet_core::DecodeError;
use std::alloc::{AllocError, Global};
use std::test::Fail;

pub const SHORT_DONE: [u8; 19] = [0x13, 0, 0, 0, 3, 0, 0, 0, 0, 0, 0, 0, 0, 0, 0, 0, 1, 2, 3];

const EMPTY_ERROR: [u8; 16] = [0x10, 0, 0, 0, 2, 0, 0, 0, 0, 0, 0, 0, 0, 0, 0, 0];

pub const UNKNOWN: [u8; 16] = [0x10, 0, 0, 0, 0x13, 0, 0, 0, 0, 0, 0, 0, 0, 0, 0, 0];

/// 24 bytes whose length field is 40.
const CUT: [u8; 24] = [
    0x28, 0, 0, 0, 0, 0, 0, 0, 0, 0, 0, 0, 0, 0, 0, 0, 0, 0, 0, 0, 0, 0, 0, 0,
];

/// 24 bytes whose length field is 15.
const SHORT_LENGTH: [u8; 24] = [
    0x0f, 0, 0, 0, 0, 0, 0, 0, 0, 0, 0, 0, 0, 0, 0, 0, 0, 0, 0, 0, 0, 0, 0, 0,
];

/// Bytes with the number and the text of their error.
const REFUSED: [(&[u8], u8, &str); 6] = [
    (
        &[0x28, 0, 0, 0],
        9,
        "failed deserializing NetlinkMessage caused by invalid netlink buffer length caused by invalid netlink buffer: length is 4 but netlink packets are at least 16 bytes",
    ),
    (
        &CUT,
        10,
        "failed deserializing NetlinkMessage caused by invalid netlink buffer length caused by invalid netlink buffer: length field says 40 the buffer is 24 bytes long",
    ),
    (
        &SHORT_LENGTH,
        11,
        "failed deserializing NetlinkMessage caused by invalid netlink buffer length caused by invalid netlink buffer: length field says 15 but netlink packets are at least 16 bytes",
    ),
    (
        &SHORT_DONE,
        12,
        "failed to parse NLMSG_DONE caused by invalid DoneBuffer length caused by invalid DoneBuffer: length is 3 but DoneBuffer are at least 4 bytes",
    ),
    (
        &EMPTY_ERROR,
        13,
        "failed parsing NLMSG_ERROR caused by invalid ErrorBuffer length caused by invalid ErrorBuffer: length is 0 but ErrorBuffer are at least 4 bytes",
    ),
    (
        &UNKNOWN,
        14,
        "Failed to parse message with type 19: invalid ping-pong message: invalid message type",
    ),
];

/// Returns whether a result is an error with this number.
pub(crate) fn refuses<T: Drop>(answer: Result<T, DecodeError>, number: u8) -> bool {
    match answer {
        Ok(_) => false,
        Err(error) => error.number() == number,
    }
}

fn refusal_of(alloc: Global, bytes: &[u8]) -> Result<DecodeError, Fail> {
    match read(alloc, bytes) {
        Ok(_) => Err(Fail::from("the bytes are read")),
        Err(refusal) => Ok(refusal),
    }
}

fn normal_refusal_of(alloc: Global, bytes: &[u8]) -> Result<DecodeError, Fail> {
    match normal_of(alloc, bytes) {
        Ok(_) => Err(Fail::from("the bytes are normalised")),
        Err(refusal) => Ok(refusal),
    }
}

/// Returns whether an error has this number and this text.
fn says(alloc: Global, refusal: &DecodeError, number: u8, text: &str) -> Result<bool, AllocError> {
    Ok(refusal.number() == number && refusal.to_string(alloc)?.as_str() == text)
}

#[test]
fn each_with_its_cause_and_text(rt: HostRuntime) -> Result<(), Fail> {
    for (bytes, number, text) in REFUSED {
        let refusal = refusal_of(rt.alloc(), bytes)?;
        assert!(rt; says(rt.alloc(), &refusal, number, text)?);
        let refusal = normal_refusal_of(rt.alloc(), bytes)?;
        assert!(rt; says(rt.alloc(), &refusal, number, text)?);
    }
    Ok(())
}

#[test]
fn every_cut_of_a_ping(rt: HostRuntime) -> Result<(), Fail> {
    for size in 0..PING.len() {
        match refusal_of(rt.alloc(), &PING[..size])? {
            DecodeError::FrameShort { size: said, inside } => {
                assert!(rt; size < 16 && said == size && inside);
            }
            DecodeError::FrameCut {
                length,
                size: said,
                inside,
            } => assert!(rt; size >= 16 && length == 20 && said == size && inside),
            _ => assert!(rt; false, "another cause after {size} bytes"),
        }
    }
    Ok(())
}
