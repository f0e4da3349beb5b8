//! The bodies of done and error messages.
#![tactic(auto, using(netlink_packet_core::specs::Sizes::text_sizes))]

use crate::tests::calls::compare_as;
use netlink_packet_core::laws::bodies_equal;
use netlink_packet_core::{
    DecodeError, DoneBuffer, DoneMessage, Emitable, ErrorBuffer, ErrorMessage, NonZeroI32,
    Parseable,
};
use std::alloc::{AllocError, Global};
use std::test::Fail;

fn error_of(alloc: Global, code: i32, bytes: &[u8]) -> Result<ErrorMessage, AllocError> {
    match bytes.to_vec(alloc) {
        Ok(header) => Ok(ErrorMessage {
            code: NonZeroI32::new(code),
            header,
        }),
        Err(error) => Err(error),
    }
}

fn done_of(alloc: Global, code: i32, bytes: &[u8]) -> Result<DoneMessage, AllocError> {
    match bytes.to_vec(alloc) {
        Ok(extended_ack) => Ok(DoneMessage { code, extended_ack }),
        Err(error) => Err(error),
    }
}

#[test]
fn the_law_of_bodies_is_called() {
    bodies_equal();
}

/// Returns whether two error messages with these codes, of which one has these bytes and the other
/// none, compare as expected.
fn errors_compare_as(alloc: Global, codes: (i32, i32), bytes: &[u8], are_same: bool) -> bool {
    match (
        error_of(alloc, codes.0, &[]),
        error_of(alloc, codes.1, bytes),
    ) {
        (Ok(one), Ok(other)) => compare_as(&one, &other, are_same),
        _ => false,
    }
}

/// Error messages are equal if their codes and their bytes are.
#[test]
fn error_messages_are_told_apart(rt: HostRuntime) {
    assert!(rt; errors_compare_as(rt.alloc(), (-95, -95), &[], true));
    assert!(rt; errors_compare_as(rt.alloc(), (-95, 95), &[], false));
    assert!(rt; errors_compare_as(rt.alloc(), (-95, 0), &[], false));
    assert!(rt; errors_compare_as(rt.alloc(), (-95, -95), &[0], false));
}

/// Returns whether a done message with this code and the empty one compare as expected.
fn is_empty_done(alloc: Global, code: i32, expected: bool) -> bool {
    match done_of(alloc, code, &[]) {
        Ok(done) => compare_as(&done, &DoneMessage::empty(alloc), expected),
        Err(_) => false,
    }
}

/// Done messages are equal if their codes and their bytes are.
#[test]
fn done_messages_are_told_apart(rt: HostRuntime) {
    assert!(rt; is_empty_done(rt.alloc(), 0, true));
    assert!(rt; is_empty_done(rt.alloc(), 1, false));
}

/// Codes, each with its errno and what is printed for it.
const CODES: [(i32, u32, &str); 5] = [
    (0, 0, "os error 0"),
    (-95, 95, "os error 95"),
    (-8765, 8765, "os error 8765"),
    (i32::MIN, 2147483648, "os error 2147483648"),
    (i32::MAX, 2147483647, "os error 2147483647"),
];

/// Returns whether a message has this code and this errno.
fn has_code(message: &ErrorMessage, code: i32, errno: u32) -> bool {
    message.raw_code() == code && message.code.is_none() == (code == 0) && message.errno() == errno
}

/// Returns whether a message prints as the text.
fn prints_as(alloc: Global, message: &ErrorMessage, text: &str) -> bool {
    match message.to_string(alloc) {
        Ok(printed) => printed.as_str() == text,
        Err(_) => false,
    }
}

/// Returns whether a message with this code has this errno and this text.
fn is_code_row(alloc: Global, code: i32, errno: u32, text: &str) -> bool {
    match error_of(alloc, code, &[]) {
        Ok(message) => has_code(&message, code, errno) && prints_as(alloc, &message, text),
        Err(_) => false,
    }
}

#[test]
fn codes_and_their_numbers(rt: HostRuntime) {
    for (code, errno, text) in CODES {
        assert!(rt; is_code_row(rt.alloc(), code, errno, text));
    }
}

/// Code 5, and the bytes 1, 2 and 3.
const DONE: [u8; 7] = [5, 0, 0, 0, 1, 2, 3];

fn read_done(alloc: Global, bytes: &[u8]) -> Result<DoneMessage, DecodeError> {
    match DoneBuffer::new_checked(bytes) {
        Ok(view) => DoneMessage::parse(alloc, &view),
        Err(error) => Err(error),
    }
}

/// Writes a done message over the buffer, if it has as many bytes. Returns their number.
fn written_done(message: &DoneMessage, buffer: &mut [u8]) -> usize {
    let size = message.buffer_len();
    if size == buffer.len() {
        message.emit(buffer);
    }
    size
}

#[test]
fn a_done_message_is_written(rt: HostRuntime) -> Result<(), Fail> {
    let message = done_of(rt.alloc(), 5, &[1, 2, 3])?;
    let mut buffer = [0xffu8; 7];
    assert!(rt; written_done(&message, &mut buffer) == 7);
    assert!(rt; buffer == DONE);
    let empty = DoneMessage::empty(rt.alloc());
    assert!(rt; written_done(&empty, &mut []) == 4);
    Ok(())
}

/// Returns whether a message, and a copy of it, compare as the same.
fn is_copied_done(alloc: Global, message: &DoneMessage) -> bool {
    match message.try_clone(alloc) {
        Ok(copy) => compare_as(message, &copy, true),
        Err(_) => false,
    }
}

#[test]
fn a_done_message_is_read(rt: HostRuntime) -> Result<(), Fail> {
    let message = read_done(rt.alloc(), &DONE)?;
    let expected = done_of(rt.alloc(), 5, &[1, 2, 3])?;
    assert!(rt; compare_as(&message, &expected, true));
    assert!(rt; is_copied_done(rt.alloc(), &message));
    Ok(())
}

/// Returns whether a view of the bytes shows this code and what follows it, and returns the bytes.
fn is_viewed_as(bytes: &[u8], code: i32, extended_ack: &[u8]) -> bool {
    match DoneBuffer::new_checked(bytes) {
        Ok(view) => {
            view.code() == code && view.extended_ack() == extended_ack && view.into_inner() == bytes
        }
        Err(_) => false,
    }
}

#[test]
fn a_done_message_is_viewed(rt: HostRuntime) {
    assert!(rt; is_viewed_as(&DONE, 5, &[1, 2, 3]));
}

/// Code -8765, and the byte 6.
const ERROR: [u8; 5] = [0xc3, 0xdd, 0xff, 0xff, 6];

fn read_error(alloc: Global, bytes: &[u8]) -> Result<ErrorMessage, DecodeError> {
    match ErrorBuffer::new_checked(bytes) {
        Ok(view) => ErrorMessage::parse(alloc, &view),
        Err(error) => Err(error),
    }
}

/// Returns whether a message, and a copy of it, compare as the same.
fn is_copied_error(alloc: Global, message: &ErrorMessage) -> bool {
    match message.try_clone(alloc) {
        Ok(copy) => compare_as(message, &copy, true),
        Err(_) => false,
    }
}

#[test]
fn an_error_message_is_read(rt: HostRuntime) -> Result<(), Fail> {
    let message = read_error(rt.alloc(), &ERROR)?;
    assert!(rt; message.raw_code() == -8765);
    assert!(rt; message.header.as_slice() == [6].as_slice());
    assert!(rt; is_copied_error(rt.alloc(), &message));
    Ok(())
}

/// Writes an error message over the buffer, if it has as many bytes. Returns their number.
fn written_error(message: &ErrorMessage, buffer: &mut [u8]) -> usize {
    let size = message.buffer_len();
    if size == buffer.len() {
        message.emit(buffer);
    }
    size
}

#[test]
fn an_error_message_is_written(rt: HostRuntime) -> Result<(), Fail> {
    let message = error_of(rt.alloc(), -8765, &[6])?;
    let mut buffer = [0u8; 5];
    assert!(rt; written_error(&message, &mut buffer) == 5);
    assert!(rt; buffer == ERROR);
    Ok(())
}

#[test]
fn an_empty_error_message(rt: HostRuntime) {
    let empty = ErrorMessage::empty(rt.alloc());
    assert!(rt; empty.code.is_none() && empty.header.is_empty());
}

/// Returns whether a view of the bytes shows this code and what follows it.
fn is_error_viewed_as(bytes: &[u8; 4], code: Option<NonZeroI32>) -> bool {
    let view = ErrorBuffer::new(&bytes[..]);
    view.code() == code && view.payload().is_empty()
}

/// An acknowledgment has no code, and an error has one.
#[test]
fn views_of_codes(rt: HostRuntime) {
    assert!(rt; is_error_viewed_as(&[0; 4], None));
    assert!(rt; is_error_viewed_as(&[0x2e, 0xfb, 0xff, 0xff], NonZeroI32::new(-1234)));
}

#[test]
fn an_error_body_is_written_in_place(rt: HostRuntime) {
    let mut bytes = [0u8, 0, 0, 0, 7, 8];
    let mut view = ErrorBuffer::new(&mut bytes[..]);
    view.set_code(-1234);
    view.payload_mut().fill(9);
    assert!(rt; bytes == [0x2e, 0xfb, 0xff, 0xff, 9, 9]);
}

#[test]
fn a_done_body_is_written_in_place(rt: HostRuntime) {
    let mut bytes = [0x2eu8, 0xfb, 0xff, 0xff, 9, 9];
    let mut view = DoneBuffer::new(&mut bytes[..]);
    view.set_code(5);
    view.extended_ack_mut().fill(1);
    assert!(rt; bytes == [5, 0, 0, 0, 1, 1]);
}

/// Returns whether a done body and an error body of these bytes are too short, with their size.
fn are_too_short(bytes: &[u8]) -> bool {
    let size = bytes.len();
    let is_done_short = matches!(
        DoneBuffer::new_checked(bytes),
        Err(DecodeError::DoneShort { size: said, inside: false }) if said == size
    );
    let is_error_short = matches!(
        ErrorBuffer::new_checked(bytes),
        Err(DecodeError::ErrorShort { size: said, inside: false }) if said == size
    );
    is_done_short && is_error_short
}

#[test]
fn bodies_that_are_too_short(rt: HostRuntime) {
    assert!(rt; are_too_short(&[]) && are_too_short(&[0]));
    assert!(rt; are_too_short(&[0; 2]) && are_too_short(&[0; 3]));
}
