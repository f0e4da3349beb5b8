//! Each law, called, and observed at run time. A call does nothing at run time.

use crate::tests::beat::Beat;
use crate::tests::calls::{
    bytes_of, compare_as, has_number, is_canonical, is_read_as, normal_frame, read,
};
use crate::tests::messages::BEAT;
use netlink_packet_core::laws::{
    cut_refused, frame_unique, frames_fixed, messages_equal, reading_is_canonical, reads_back,
    refusal_unique, tail_ignored,
};
use netlink_packet_core::{
    DoneBuffer, DoneMessage, ErrorBuffer, NetlinkBuffer, NetlinkHeader, NetlinkMessage,
    NetlinkPayload,
};
use std::alloc::{AllocError, Global};
use std::test::Fail;

const ZEROS: NetlinkHeader = NetlinkHeader {
    length: 0,
    message_type: 0,
    flags: 0,
    sequence_number: 0,
    port_number: 0,
};

const FLAGGED: NetlinkHeader = NetlinkHeader { flags: 1, ..ZEROS };

/// Returns a done message with this header, this code and these bytes.
fn done(
    alloc: Global,
    header: NetlinkHeader,
    code: i32,
    bytes: &[u8],
) -> Result<NetlinkMessage<Beat>, AllocError> {
    match bytes.to_vec(alloc) {
        Ok(extended_ack) => {
            let body = DoneMessage { code, extended_ack };
            Ok(NetlinkMessage::new(header, NetlinkPayload::Done(body)))
        }
        Err(error) => Err(error),
    }
}

#[test]
fn laws_without_arguments_are_called() {
    messages_equal::<Beat>();
    frame_unique::<Beat>();
    refusal_unique::<Beat>();
    reading_is_canonical::<Beat>();
}

#[test]
fn laws_of_bytes_are_called() {
    tail_ignored::<Beat>(&BEAT, &[0x21, 0]);
    frames_fixed::<Beat>(&BEAT);
    cut_refused::<Beat>(&BEAT, 15);
}

/// Returns whether the message and a done message of these parts compare as expected.
fn compares_with(
    alloc: Global,
    message: &NetlinkMessage<Beat>,
    parts: (NetlinkHeader, i32, &[u8]),
    expected: bool,
) -> bool {
    match done(alloc, parts.0, parts.1, parts.2) {
        Ok(other) => compare_as(message, &other, expected),
        Err(_) => false,
    }
}

/// Parts of a done message, and whether it is the one with zeros, code 5 and the bytes 1 and 2.
const PARTS: [(NetlinkHeader, i32, &[u8], bool); 4] = [
    (ZEROS, 5, &[1, 2], true),
    (ZEROS, -5, &[1, 2], false),
    (ZEROS, 5, &[1], false),
    (FLAGGED, 5, &[1, 2], false),
];

#[test]
fn done_messages_are_told_apart(rt: HostRuntime) -> Result<(), Fail> {
    let message = done(rt.alloc(), ZEROS, 5, &[1, 2])?;
    for (header, code, bytes, is_same) in PARTS {
        assert!(rt; compares_with(rt.alloc(), &message, (header, code, bytes), is_same));
    }
    Ok(())
}

#[test]
fn payloads_are_told_apart(rt: HostRuntime) {
    let beat = NetlinkMessage::from_inner(Beat);
    assert!(rt; compare_as(&beat, &NetlinkMessage::from_inner(Beat), true));
    assert!(rt; compares_with(rt.alloc(), &beat, (ZEROS, 5, &[1, 2]), false));
    let noop = NetlinkMessage::new(ZEROS, NetlinkPayload::Noop);
    assert!(rt; compare_as(&beat, &noop, false));
}

/// Returns whether both messages fit, so that the law can be called.
fn can_read_back(first: &NetlinkMessage<Beat>, second: &NetlinkMessage<Beat>) -> bool {
    let fit = first.fits() && second.fits();
    if fit {
        reads_back(first, second, &[0x21]);
    }
    fit
}

#[test]
fn the_law_of_written_messages_is_called(rt: HostRuntime) -> Result<(), Fail> {
    let first = done(rt.alloc(), ZEROS, 5, &[1, 2])?;
    let second = done(rt.alloc(), ZEROS, 6, &[1, 2])?;
    assert!(rt; can_read_back(&first, &second));
    Ok(())
}

/// Finalizes a message. Returns whether it fits.
fn is_finalized(message: &mut NetlinkMessage<Beat>) -> bool {
    let fits = message.fits();
    if fits {
        message.finalize();
    }
    fits
}

/// Returns whether the frame of a message, followed by a byte, is read as the expected message.
fn reads_back_as(
    alloc: Global,
    message: NetlinkMessage<Beat>,
    expected: &NetlinkMessage<Beat>,
) -> bool {
    match message.into_frame(alloc) {
        Ok(mut frame) => frame.push(0x21).is_ok() && is_read_as(alloc, &frame, expected),
        Err(_) => false,
    }
}

/// An encoding reads back, whatever follows.
#[test]
fn written_messages_read_back(rt: HostRuntime) -> Result<(), Fail> {
    let mut message = done(rt.alloc(), ZEROS, 5, &[1, 2])?;
    assert!(rt; is_finalized(&mut message));
    let same = done(rt.alloc(), message.header, 5, &[1, 2])?;
    assert!(rt; reads_back_as(rt.alloc(), same, &message));
    Ok(())
}

/// Returns whether two messages have different frames.
fn differ(alloc: Global, one: NetlinkMessage<Beat>, other: NetlinkMessage<Beat>) -> bool {
    match (one.into_frame(alloc), other.into_frame(alloc)) {
        (Ok(one), Ok(other)) => one != other,
        _ => false,
    }
}

/// An encoding is another if the message is.
#[test]
fn messages_that_differ_are_written_as_they_differ(rt: HostRuntime) -> Result<(), Fail> {
    let first = done(rt.alloc(), ZEROS, 5, &[1, 2])?;
    let second = done(rt.alloc(), ZEROS, 6, &[1, 2])?;
    assert!(rt; differ(rt.alloc(), first, second));
    Ok(())
}

/// Returns whether the first `cut` bytes of a frame are refused, and are not canonical.
fn is_cut_refused(alloc: Global, bytes: &[u8], cut: usize) -> bool {
    let front = bytes.get(..cut).unwrap_or(&[]);
    let number = if cut < 16 { 9 } else { 10 };
    has_number(read(alloc, front), number) && is_canonical(alloc, front, false)
}

/// No proper prefix of a frame is read, and none is canonical.
#[test]
fn cut_frames_are_refused(rt: HostRuntime) -> Result<(), Fail> {
    let bytes = bytes_of(rt.alloc(), 20, 2, &[0xc3, 0xdd, 0xff, 0xff])?;
    for cut in 0..bytes.len() {
        assert!(rt; is_cut_refused(rt.alloc(), &bytes, cut));
    }
    Ok(())
}

/// Returns whether the bytes are read as the same message with these bytes after them.
fn is_read_before(alloc: Global, bytes: &[u8], more: &[u8]) -> bool {
    match (bytes.to_vec(alloc), read(alloc, bytes)) {
        (Ok(mut longer), Ok(message)) => {
            longer.extend_from_slice(more).is_ok() && is_read_as(alloc, &longer, &message)
        }
        _ => false,
    }
}

/// If bytes follow a frame, the same message is read.
#[test]
fn what_follows_a_frame_is_ignored(rt: HostRuntime) {
    assert!(rt; is_read_before(rt.alloc(), &BEAT, &[0x21, 0]));
}

/// If bytes follow a frame that is refused, the error has the same number.
#[test]
fn what_follows_an_unknown_type_is_ignored(rt: HostRuntime) -> Result<(), Fail> {
    let mut unknown = bytes_of(rt.alloc(), 16, 17, &[])?;
    assert!(rt; has_number(read(rt.alloc(), &unknown), 14));
    unknown.push(0x21)?;
    assert!(rt; has_number(read(rt.alloc(), &unknown), 14));
    Ok(())
}

/// The length field, the type and the payload of a frame, and whether the frame is canonical.
const FRAMES: [(u8, u8, &[u8], bool); 4] = [
    (16, 16, &[], true),
    (17, 16, &[1], false),
    (16, 3, &[], false),
    (20, 3, &[0, 0, 0, 0], true),
];

/// Returns whether the bytes are normalized to themselves or not, as expected, and what they are
/// normalized to is canonical.
fn is_kept(alloc: Global, bytes: &[u8], expected: bool) -> bool {
    match normal_frame(alloc, bytes) {
        Ok(frame) => {
            (frame.as_slice() == bytes) == expected && is_canonical(alloc, &frame, true)
        }
        Err(_) => false,
    }
}

/// Canonical frames are normalized to themselves, and others are not.
#[test]
fn canonical_frames_stay(rt: HostRuntime) -> Result<(), Fail> {
    for (length, message_type, payload, stays) in FRAMES {
        let bytes = bytes_of(rt.alloc(), length, message_type, payload)?;
        assert!(rt; is_kept(rt.alloc(), &bytes, stays));
    }
    Ok(())
}

/// The frame of what a protocol reads is canonical, whatever the fields other than type and length
/// are.
#[test]
fn readings_are_canonical(rt: HostRuntime) {
    assert!(rt; is_canonical(rt.alloc(), &BEAT, true));
    let plain = [16u8, 0, 0, 0, 16, 0, 0, 0, 0, 0, 0, 0, 0, 0, 0, 0];
    assert!(rt; is_canonical(rt.alloc(), &plain, true));
}

/// A header is copied, and the original stays unchanged.
#[test]
fn a_copied_header_is_equal(rt: HostRuntime) {
    let header = FLAGGED;
    let mut copy = header;
    assert!(rt; compare_as(&copy, &header, true));
    copy.flags = 8;
    assert!(rt; header.flags == 1);
}

/// Returns whether views over the bytes equal their copies.
fn are_copied(bytes: &[u8; 16]) -> bool {
    let view = NetlinkBuffer::new(&bytes[..]);
    let copy = view;
    copy == view && copy.length() == view.length()
}

/// Returns whether views of bodies over the bytes equal their copies.
fn are_bodies_copied(bytes: &[u8; 16]) -> bool {
    let done = DoneBuffer::new(&bytes[..]);
    let done_copy = done;
    let error = ErrorBuffer::new(&bytes[..]);
    let error_copy = error;
    done_copy == done
        && done_copy.code() == done.code()
        && error_copy == error
        && error_copy.code() == error.code()
}

/// Views are copied, and the originals stay unchanged.
#[test]
fn copied_views_are_equal(rt: HostRuntime) {
    assert!(rt; are_copied(&BEAT) && are_bodies_copied(&BEAT));
}
