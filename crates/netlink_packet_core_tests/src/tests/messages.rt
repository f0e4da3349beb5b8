//! Messages that are read, written and normalized.

ghost use Rattle.std.specs.Prelude.{replicate};

use crate::tests::beat::Beat;
use crate::tests::calls::{
    bytes_of, compare_as, has_number, is_framed_as, is_normalized_to, is_read_as, is_refused,
    normal_frame, read,
};
use netlink_packet_core::{
    DecodeError, DoneMessage, Emitable, NetlinkBuffer, NetlinkHeader, NetlinkMessage,
    NetlinkPayload, NetlinkSerializable, Parseable,
};
use std::alloc::Global;
use std::test::Fail;

/// A beat with all flags, a sequence number and a port.
pub const BEAT: [u8; 16] = [0x10, 0, 0, 0, 0x10, 0, 0xff, 0xff, 4, 3, 2, 1, 8, 7, 6, 5];

/// The header of that, before its length and its type are set.
const HEADER: NetlinkHeader = NetlinkHeader {
    length: 0,
    message_type: 0,
    flags: 0xffff,
    sequence_number: 0x01020304,
    port_number: 0x05060708,
};

/// Returns the beat, with its length and its type set.
fn beat() -> NetlinkMessage<Beat> {
    let header = NetlinkHeader {
        length: 16,
        message_type: 16,
        ..HEADER
    };
    NetlinkMessage::new(header, NetlinkPayload::InnerMessage(Beat))
}

/// Returns whether the message of the frame in the bytes is read through a view as this one.
fn is_parsed_as(alloc: Global, bytes: &[u8], message: &NetlinkMessage<Beat>) -> bool {
    match parsed(alloc, bytes) {
        Ok(found) => found == *message,
        Err(_) => false,
    }
}

fn parsed(alloc: Global, bytes: &[u8]) -> Result<NetlinkMessage<Beat>, DecodeError> {
    match NetlinkBuffer::new_checked(bytes) {
        Ok(view) => NetlinkMessage::parse(alloc, &view),
        Err(error) => Err(error),
    }
}

/// Returns whether a message is the beat, and the bytes are its frame and 0x55.
fn is_beat(message: &NetlinkMessage<Beat>, bytes: &[u8; 17]) -> bool {
    compare_as(message, &beat(), true) && &bytes[..16] == BEAT.as_slice() && bytes[16] == 0x55
}

#[test]
fn a_beat_is_written(rt: HostRuntime) {
    let mut message = NetlinkMessage::new(HEADER, NetlinkPayload::InnerMessage(Beat));
    assert!(rt; message.fits());
    message.finalize();
    assert_eq!(rt; message.buffer_len(), 16);
    let mut buffer = [0x55u8; 17];
    message.serialize(&mut buffer);
    let mut again = [0x55u8; 17];
    message.emit(&mut again);
    assert!(rt; is_beat(&message, &buffer) && is_beat(&message, &again));
}

#[test]
fn a_beat_is_read(rt: HostRuntime) -> Result<(), Fail> {
    assert!(rt; is_parsed_as(rt.alloc(), &BEAT, &beat()));
    let mut bytes = BEAT.to_vec(rt.alloc())?;
    bytes.push(0x55)?;
    assert!(rt; is_read_as(rt.alloc(), &bytes, &beat()));
    assert!(rt; is_framed_as(rt.alloc(), beat(), &BEAT));
    Ok(())
}

/// Returns whether the frame of a message is the frame with this length, type and payload.
fn is_frame(
    alloc: Global,
    message: NetlinkMessage<Beat>,
    length: u8,
    message_type: u8,
    payload: &[u8],
) -> bool {
    match bytes_of(alloc, length, message_type, payload) {
        Ok(bytes) => is_framed_as(alloc, message, &bytes),
        Err(_) => false,
    }
}

/// A message is written with the length and the type of its payload, whatever its header contained.
#[test]
fn a_message_becomes_its_frame(rt: HostRuntime) -> Result<(), Fail> {
    let beat = NetlinkMessage::from_inner(Beat);
    assert!(rt; is_frame(rt.alloc(), beat, 16, 16, &[]));
    let body = DoneMessage {
        code: 5,
        extended_ack: [1u8, 2, 3].to_vec(rt.alloc())?,
    };
    let done = NetlinkMessage::new(NetlinkHeader::default(), NetlinkPayload::Done(body));
    assert!(rt; is_frame(rt.alloc(), done, 23, 3, &[5, 0, 0, 0, 1, 2, 3]));
    Ok(())
}

#[test]
fn a_message_is_taken_apart(rt: HostRuntime) {
    let noop = NetlinkMessage::<Beat>::new(HEADER, NetlinkPayload::Noop);
    let (kept, payload) = noop.into_parts();
    assert!(rt; compare_as(&kept, &HEADER, true));
    assert!(rt; compare_as(&payload, &NetlinkPayload::Noop, true));
    assert!(rt; payload.message_type() == 1);
}

/// The length field, the type and the payload of a frame, and the length and the payload that it
/// is normalized to.
const NORMALIZED: [(u8, u8, &[u8], u8, &[u8]); 6] = [
    (20, 1, &[7, 8, 9, 10], 16, &[]),
    (
        20,
        2,
        &[0xc3, 0xdd, 0xff, 0xff],
        20,
        &[0xc3, 0xdd, 0xff, 0xff],
    ),
    (16, 3, &[0x21], 20, &[0, 0, 0, 0]),
    (18, 4, &[7, 8, 9], 18, &[7, 8]),
    (16, 16, &[], 16, &[]),
    (19, 16, &[7, 8, 9], 16, &[]),
];

/// What bytes are normalized to; what follows a frame is dropped.
#[test]
fn frames_are_normalised(rt: HostRuntime) -> Result<(), Fail> {
    for (length, message_type, payload, size, text) in NORMALIZED {
        let bytes = bytes_of(rt.alloc(), length, message_type, payload)?;
        let expected = bytes_of(rt.alloc(), size, message_type, text)?;
        assert!(rt; is_normalized_to(rt.alloc(), &bytes, &expected));
    }
    Ok(())
}

/// The length field, the type and the payload of a frame, and the number and the text of the error.
const REFUSED: [(u8, u8, &[u8], u8, &str); 5] = [
    (
        20,
        16,
        &[],
        10,
        "failed deserializing NetlinkMessage caused by invalid netlink buffer length caused by invalid netlink buffer: length field says 20 the buffer is 16 bytes long",
    ),
    (
        15,
        16,
        &[],
        11,
        "failed deserializing NetlinkMessage caused by invalid netlink buffer length caused by invalid netlink buffer: length field says 15 but netlink packets are at least 16 bytes",
    ),
    (
        18,
        3,
        &[0, 0],
        12,
        "failed to parse NLMSG_DONE caused by invalid DoneBuffer length caused by invalid DoneBuffer: length is 2 but DoneBuffer are at least 4 bytes",
    ),
    (
        16,
        2,
        &[],
        13,
        "failed parsing NLMSG_ERROR caused by invalid ErrorBuffer length caused by invalid ErrorBuffer: length is 0 but ErrorBuffer are at least 4 bytes",
    ),
    (
        17,
        17,
        &[1],
        14,
        "Failed to parse message with type 17: not a beat",
    ),
];

/// Returns whether reading and normalizing the bytes end with this number and this text.
fn are_refused(alloc: Global, bytes: &[u8], number: u8, text: &str) -> bool {
    is_refused(alloc, read(alloc, bytes), number, text)
        && is_refused(alloc, normal_frame(alloc, bytes), number, text)
}

/// Each error with its number and its text; `normalize` returns the same error.
#[test]
fn frames_are_refused(rt: HostRuntime) -> Result<(), Fail> {
    for (length, message_type, payload, number, text) in REFUSED {
        let bytes = bytes_of(rt.alloc(), length, message_type, payload)?;
        assert!(rt; are_refused(rt.alloc(), &bytes, number, text));
    }
    Ok(())
}

/// A message of type 16 with `count` zero bytes.
#[derive(Drop)]
struct Zeros {
    count: usize,
}

impl NetlinkSerializable for Zeros {
    ghost encoding = { record { type_of = λ _. 16; bytes_of = λ zeros. replicate zeros.count 0 } };

    fn message_type(&self) -> u16 {
        16
    }

    fn buffer_len(&self) -> usize {
        self.count
    }

    fn serialize(&self, buffer: &mut [u8]) {
        buffer.fill(0);
    }
}

/// Returns the canonical frame of a message of zeros.
fn zeros_frame(alloc: Global, count: usize) -> Result<Vec<u8>, DecodeError> {
    NetlinkMessage::from_inner(Zeros { count }).into_frame(alloc)
}

#[test]
fn a_message_that_does_not_fit(rt: HostRuntime) {
    assert!(rt; !NetlinkMessage::from_inner(Zeros { count: 4294967280 }).fits());
    assert!(rt; has_number(zeros_frame(rt.alloc(), 4294967280), 15));
    assert!(rt; NetlinkMessage::from_inner(Zeros { count: 4294967279 }).fits());
}

/// Returns whether the frame of a message of zeros is these bytes.
fn are_zeros_framed(alloc: Global, count: usize, expected: &[u8]) -> bool {
    match zeros_frame(alloc, count) {
        Ok(frame) => frame.as_slice() == expected,
        Err(_) => false,
    }
}

/// Appends two zeros to a vector. Returns whether it then holds the expected bytes.
fn are_zeros_appended(frame: &mut Vec<u8>, expected: &[u8]) -> bool {
    if frame.len() > 1000 {
        return false;
    }
    Zeros { count: 2 }.append(frame).is_ok() && frame.as_slice() == expected
}

#[test]
fn zeros_are_written(rt: HostRuntime) -> Result<(), Fail> {
    let expected = bytes_of(rt.alloc(), 18, 16, &[0, 0])?;
    assert!(rt; are_zeros_framed(rt.alloc(), 2, &expected));
    let mut frame = [7u8].to_vec(rt.alloc())?;
    assert!(rt; are_zeros_appended(&mut frame, &[7, 0, 0]));
    Ok(())
}

/// Returns whether two zeros are written as these bytes or not, as expected.
fn are_two_zeros(alloc: Global, bytes: &[u8], expected: bool) -> bool {
    match (Zeros { count: 2 }).is_written_as(alloc, bytes) {
        Ok(is) => is == expected,
        Err(_) => false,
    }
}

#[test]
fn zeros_are_written_as_themselves(rt: HostRuntime) {
    assert!(rt; are_two_zeros(rt.alloc(), &[0, 0], true));
    assert!(rt; are_two_zeros(rt.alloc(), &[0, 1], false));
    assert!(rt; are_two_zeros(rt.alloc(), &[0], false));
}
