//! Frames that are read, and messages that are written.

use crate::ping_pong::PingPongMessage;
use netlink_packet_core::laws::{frame_unique, reads_back, refusal_unique};
use netlink_packet_core::{
    DecodeError, DoneMessage, Emitable, ErrorMessage, NetlinkBuffer, NetlinkHeader, NetlinkMessage,
    NetlinkPayload, NetlinkSerializable, NonZeroI32, Parseable, is_canonical_frame, normalize,
};
use std::alloc::{AllocError, Global};
use std::process::Abort;
use std::test::Fail;

pub type Message = NetlinkMessage<PingPongMessage>;

/// A ping of four bytes.
pub const PING: [u8; 20] = [
    0x14, 0, 0, 0, 0x12, 0, 0, 0, 0, 0, 0, 0, 0, 0, 0, 0, 0, 1, 2, 3,
];

/// A pong of four bytes.
pub const PONG: [u8; 20] = [
    0x14, 0, 0, 0, 0x14, 0, 0, 0, 0, 0, 0, 0, 0, 0, 0, 0, 0, 1, 2, 3,
];

/// A ping of 24 bytes, with flags and a sequence number.
pub const REQUEST: [u8; 40] = [
    0x28, 0, 0, 0, 0x12, 0, 0x01, 0x03, 0x34, 0x0e, 0xf9, 0x5a, 0, 0, 0, 0, 0x11, 0, 0, 0, 0, 0, 0,
    0, 0, 0, 0, 0, 0, 0, 0, 0, 0x08, 0, 0x1d, 0, 0x01, 0, 0, 0,
];

pub const NOOP: [u8; 24] = [
    0x18, 0, 0, 0, 1, 0, 0, 0, 0, 0, 0, 0, 0, 0, 0, 0, 1, 2, 3, 4, 5, 6, 7, 8,
];

/// What that is normalized to.
pub const PLAIN_NOOP: [u8; 16] = [0x10, 0, 0, 0, 1, 0, 0, 0, 0, 0, 0, 0, 0, 0, 0, 0];

pub const EMPTY_DONE: [u8; 16] = [0x10, 0, 0, 0, 3, 0, 0, 0, 0, 0, 0, 0, 0, 0, 0, 0];

/// What that is normalized to.
pub const PLAIN_DONE: [u8; 20] = [
    0x14, 0, 0, 0, 3, 0, 0, 0, 0, 0, 0, 0, 0, 0, 0, 0, 0, 0, 0, 0,
];

pub const DONE: [u8; 24] = [
    0x18, 0, 0, 0, 3, 0, 0, 0, 0, 0, 0, 0, 0, 0, 0, 0, 0, 0, 0, 0, 6, 7, 8, 9,
];

pub const CODED_DONE: [u8; 23] = [
    0x17, 0, 0, 0, 3, 0, 0, 0, 0, 0, 0, 0, 0, 0, 0, 0, 5, 0, 0, 0, 1, 2, 3,
];

pub const ERROR: [u8; 20] = [
    0x14, 0, 0, 0, 2, 0, 0, 0, 0, 0, 0, 0, 0, 0, 0, 0, 0xc3, 0xdd, 0xff, 0xff,
];

const LONG_ERROR: [u8; 24] = [
    0x18, 0, 0, 0, 2, 0, 0, 0, 0, 0, 0, 0, 0, 0, 0, 0, 0xc3, 0xdd, 0xff, 0xff, 6, 7, 8, 9,
];

pub const OVERRUN: [u8; 19] = [0x13, 0, 0, 0, 4, 0, 0, 0, 0, 0, 0, 0, 0, 0, 0, 0, 7, 8, 9];

/// Reads a message. Has no contract, so that the proofs of tests are short.
pub(crate) fn read(alloc: Global, bytes: &[u8]) -> Result<Message, DecodeError> {
    Message::deserialize(alloc, bytes)
}

/// Reads the message of a view.
pub(crate) fn read_view(alloc: Global, frame: &[u8]) -> Result<Message, DecodeError> {
    let view = NetlinkBuffer::new_checked(frame)?;
    Message::parse(alloc, &view)
}

/// Finalizes a message, if it fits. Returns whether it does.
pub(crate) fn is_finalized(message: &mut Message) -> bool {
    let fits = message.fits();
    if fits {
        message.finalize();
    }
    fits
}

/// Finalizes a message, and writes it by both of its functions. What follows it is unchanged.
pub(crate) fn is_written_as(rt: &impl Abort, message: &mut Message, frame: &[u8]) {
    assert!(rt; message.fits());
    message.finalize();
    let size = message.buffer_len();
    assert_eq!(rt; size, frame.len());
    let mut buffer = [0x55u8; 25];
    assert!(rt; size < buffer.len());
    message.serialize(&mut buffer);
    assert_eq!(rt; &buffer[..size], frame);
    assert_eq!(rt; buffer[size], 0x55);
    let mut again = [0x55u8; 25];
    message.emit(&mut again);
    assert_eq!(rt; again, buffer);
}

/// Returns whether a frame is canonical.
pub(crate) fn verdict_of(alloc: Global, frame: &[u8]) -> Result<bool, DecodeError> {
    is_canonical_frame::<PingPongMessage>(alloc, frame)
}

/// Returns the bytes, and one more.
pub(crate) fn longer(alloc: Global, bytes: &[u8], last: u8) -> Result<Vec<u8>, AllocError> {
    let mut longer = bytes.to_vec(alloc)?;
    longer.push(last)?;
    Ok(longer)
}

/// Reads a message from its frame and one more byte, and from a view of its frame.
fn reads_as(rt: &impl Abort, alloc: Global, message: &Message, frame: &[u8]) -> Result<(), Fail> {
    assert!(rt; read(alloc, &longer(alloc, frame, 0x55)?)? == *message);
    assert!(rt; read_view(alloc, frame)? == *message);
    Ok(())
}

#[test]
fn a_ping_is_written_and_read_back(rt: HostRuntime) -> Result<(), Fail> {
    let bytes = [0u8, 1, 2, 3].to_vec(rt.alloc())?;
    let mut message = Message::from_inner(PingPongMessage::Ping(bytes));
    is_written_as(&rt, &mut message, &PING);
    reads_as(&rt, rt.alloc(), &message, &PING)?;
    frame_unique::<PingPongMessage>();
    Ok(())
}

#[test]
fn a_ping_comes_apart(rt: HostRuntime) -> Result<(), Fail> {
    let message = read(rt.alloc(), &PING)?;
    assert!(rt; is_read_back(&message));
    let (header, payload) = message.into_parts();
    assert!(rt; header.length == 20 && payload.message_type() == 18);
    Ok(())
}

#[test]
fn a_pong_is_written_and_read_back(rt: HostRuntime) -> Result<(), Fail> {
    let bytes = [0u8, 1, 2, 3].to_vec(rt.alloc())?;
    let mut message = Message::from_inner(PingPongMessage::Pong(bytes));
    is_written_as(&rt, &mut message, &PONG);
    reads_as(&rt, rt.alloc(), &message, &PONG)?;
    assert_eq!(rt; message.payload.message_type(), 20);
    assert_eq!(rt; pong_of(&message), Some(&PONG[16..]));
    Ok(())
}

/// States the law of reading back for a message, if it fits. Returns whether it does.
fn is_read_back(message: &Message) -> bool {
    let fits = message.fits();
    if fits {
        reads_back(message, message, &[0x21]);
    }
    fits
}

/// Returns the bytes of a pong.
fn pong_of(message: &Message) -> Option<&[u8]> {
    match &message.payload {
        NetlinkPayload::InnerMessage(PingPongMessage::Pong(bytes)) => Some(bytes.as_slice()),
        _ => None,
    }
}

#[test]
fn a_request_is_read(rt: HostRuntime) -> Result<(), Fail> {
    let message = read(rt.alloc(), &REQUEST)?;
    assert!(rt; message.header.flags == 769);
    assert!(rt; message.header.sequence_number == 1526271540);
    assert!(rt; ping_of(&message) == Some(&REQUEST[16..]));
    Ok(())
}

/// Returns the bytes of a ping.
fn ping_of(message: &Message) -> Option<&[u8]> {
    match &message.payload {
        NetlinkPayload::InnerMessage(PingPongMessage::Ping(bytes)) => Some(bytes.as_slice()),
        _ => None,
    }
}

#[test]
fn a_done_message_is_written(rt: HostRuntime) -> Result<(), Fail> {
    let body = DoneMessage {
        code: 0,
        extended_ack: [6u8, 7, 8, 9].to_vec(rt.alloc())?,
    };
    let mut message = Message::new(NetlinkHeader::default(), NetlinkPayload::Done(body));
    is_written_as(&rt, &mut message, &DONE);
    reads_as(&rt, rt.alloc(), &message, &DONE)
}

#[test]
fn an_error_message_is_written(rt: HostRuntime) -> Result<(), Fail> {
    let body = ErrorMessage {
        code: NonZeroI32::new(-8765),
        header: Vec::new(rt.alloc()),
    };
    let mut message = Message::new(NetlinkHeader::default(), NetlinkPayload::Error(body));
    is_written_as(&rt, &mut message, &ERROR);
    reads_as(&rt, rt.alloc(), &message, &ERROR)
}

/// Returns the type, the code and the bytes of a payload that every protocol shares.
fn parts(message: &Message) -> (u16, i32, &[u8]) {
    match &message.payload {
        NetlinkPayload::Noop => (1, 0, &[]),
        NetlinkPayload::Error(body) => (2, body.raw_code(), body.header.as_slice()),
        NetlinkPayload::Done(body) => (3, body.code, body.extended_ack.as_slice()),
        NetlinkPayload::Overrun(bytes) => (4, 0, bytes.as_slice()),
        NetlinkPayload::InnerMessage(inner) => (inner.message_type(), 0, &[]),
    }
}

fn has_parts(rt: &impl Abort, message: &Message, size: usize, wanted: (u16, i32, &[u8])) {
    let (kind, code, bytes) = wanted;
    assert_eq!(rt; message.header.length as usize, size);
    assert_eq!(rt; message.payload.message_type(), kind);
    let (read_kind, read_code, read_bytes) = parts(message);
    assert_eq!(rt; read_kind, kind);
    assert_eq!(rt; read_code, code);
    assert_eq!(rt; read_bytes, bytes);
}

/// A frame with its payload's type, code and bytes, and the frame that it is normalized to.
const SHARED: [(&[u8], u16, i32, &[u8], &[u8]); 7] = [
    (&NOOP, 1, 0, &[], &PLAIN_NOOP),
    (&EMPTY_DONE, 3, 0, &[], &PLAIN_DONE),
    (&DONE, 3, 0, &[6, 7, 8, 9], &DONE),
    (&CODED_DONE, 3, 5, &[1, 2, 3], &CODED_DONE),
    (&ERROR, 2, -8765, &[], &ERROR),
    (&LONG_ERROR, 2, -8765, &[6, 7, 8, 9], &LONG_ERROR),
    (&OVERRUN, 4, 0, &[7, 8, 9], &OVERRUN),
];

#[test]
fn shared_payloads(rt: HostRuntime) -> Result<(), Fail> {
    for (frame, kind, code, bytes, normal) in SHARED {
        let message = read(rt.alloc(), frame)?;
        has_parts(&rt, &message, frame.len(), (kind, code, bytes));
        assert!(rt; normal_of(rt.alloc(), frame)?.as_slice() == normal);
    }
    Ok(())
}

#[test]
fn inner_messages_are_normalised(rt: HostRuntime) -> Result<(), Fail> {
    let longer = longer(rt.alloc(), &PING, 0xff)?;
    assert!(rt; normal_of(rt.alloc(), &longer)?.as_slice() == PING.as_slice());
    assert!(rt; normal_of(rt.alloc(), &REQUEST)?.as_slice() == REQUEST.as_slice());
    refusal_unique::<PingPongMessage>();
    Ok(())
}

/// Returns the canonical frame of the message at the start of the bytes.
pub(crate) fn normal_of(alloc: Global, bytes: &[u8]) -> Result<Vec<u8>, DecodeError> {
    normalize::<PingPongMessage>(alloc, bytes)
}
