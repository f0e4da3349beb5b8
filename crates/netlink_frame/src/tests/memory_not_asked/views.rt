//! Views of messages and bodies, and headers.
#![tactic(auto, using(netlink_packet_core::specs::Sizes::text_sizes))]

use crate::tests::mark::refuse_from_here;
use crate::tests::messages::{PING, REQUEST};
use crate::tests::refusals::refuses;
use netlink_packet_core::{
    DoneBuffer, DoneMessage, Emitable, ErrorBuffer, ErrorMessage, NetlinkBuffer, NetlinkHeader,
    NonZeroI32, Parseable, Storage, StorageMut,
};
use std::alloc::Global;
use std::test::Fail;

#[test]
fn views_of_a_message(rt: HostRuntime) -> Result<(), Fail> {
    refuse_from_here(rt.alloc());
    let view = NetlinkBuffer::new_checked(&REQUEST[..])?;
    assert!(rt; view.length() == 40 && view.message_type() == 18 && view.flags() == 769);
    assert!(rt; view.sequence_number() == 1526271540 && view.port_number() == 0);
    assert!(rt; view.payload_length() == 24 && view.payload() == &REQUEST[16..]);
    assert!(rt; view.borrowed().payload() == &REQUEST[16..]);
    assert!(rt; view.into_inner() == &REQUEST[..]);
    Ok(())
}

#[test]
fn views_that_are_refused(rt: HostRuntime) {
    refuse_from_here(rt.alloc());
    let rows: [(&[u8], u8); 3] = [(&PING[..15], 9), (&PING[..19], 10), (&[0; 16], 11)];
    for (bytes, number) in rows.iter() {
        assert!(rt; refuses(NetlinkBuffer::new_checked(*bytes), *number));
    }
}

fn header_of(alloc: Global, frame: &[u8]) -> Result<NetlinkHeader, Fail> {
    let view = NetlinkBuffer::new_checked(frame)?;
    Ok(NetlinkHeader::parse(alloc, &view)?)
}

#[test]
fn a_header_is_read_and_written(rt: HostRuntime) -> Result<(), Fail> {
    refuse_from_here(rt.alloc());
    let header = header_of(rt.alloc(), &REQUEST)?;
    assert!(rt; header.length == 40 && header.message_type == 18 && header.flags == 769);
    assert!(rt; header.sequence_number == 1526271540 && header.port_number == 0);
    assert!(rt; header.buffer_len() == 16);
    let mut buffer = [0x55u8; 17];
    header.emit(&mut buffer);
    assert!(rt; &buffer[..16] == &REQUEST[..16] && buffer[16] == 0x55);
    Ok(())
}

#[test]
fn fields_of_a_message(rt: HostRuntime) -> Result<(), Fail> {
    refuse_from_here(rt.alloc());
    let mut bytes = [0u8; 40];
    let mut view = NetlinkBuffer::new(&mut bytes[..]);
    view.set_length(40);
    view.set_message_type(18);
    view.set_flags(769);
    view.set_sequence_number(1526271540);
    view.set_port_number(0);
    let mut checked = NetlinkBuffer::new_checked(view.into_inner())?;
    let payload = checked.payload_mut();
    assert!(rt; payload.len() == 24);
    payload.copy_from_slice(&REQUEST[16..]);
    assert!(rt; bytes == REQUEST);
    Ok(())
}

/// Writes a code and the bytes after it into a done body.
fn put_done(bytes: &mut [u8; 5]) {
    let mut done = DoneBuffer::new(&mut bytes[..]);
    done.set_code(5);
    done.extended_ack_mut().fill(8);
}

/// Writes a code and the bytes after it into an error body.
fn put_error(bytes: &mut [u8; 5]) {
    let mut error = ErrorBuffer::new(&mut bytes[..]);
    error.set_code(-1234);
    error.payload_mut().fill(9);
}

#[test]
fn fields_of_bodies(rt: HostRuntime) {
    refuse_from_here(rt.alloc());
    let mut bytes = [0u8, 0, 0, 0, 7];
    put_done(&mut bytes);
    assert!(rt; bytes == [5, 0, 0, 0, 8]);
    put_error(&mut bytes);
    assert!(rt; bytes == [0x2e, 0xfb, 0xff, 0xff, 9]);
}

/// A body with code -1234 and one byte.
const BODY: [u8; 5] = [0x2e, 0xfb, 0xff, 0xff, 9];

#[test]
fn views_of_a_done_body(rt: HostRuntime) -> Result<(), Fail> {
    refuse_from_here(rt.alloc());
    let done = DoneBuffer::new_checked(&BODY[..])?;
    assert!(rt; done.code() == -1234 && done.extended_ack() == &BODY[4..]);
    assert!(rt; done.borrowed().extended_ack() == &BODY[4..]);
    assert!(rt; done.into_inner() == &BODY[..]);
    assert!(rt; refuses(DoneBuffer::new_checked(&BODY[..3]), 12));
    Ok(())
}

#[test]
fn views_of_an_error_body(rt: HostRuntime) -> Result<(), Fail> {
    refuse_from_here(rt.alloc());
    let error = ErrorBuffer::new_checked(&BODY[..])?;
    assert!(rt; error.code() == NonZeroI32::new(-1234) && error.payload() == &BODY[4..]);
    assert!(rt; error.borrowed().payload() == &BODY[4..]);
    assert!(rt; error.into_inner() == &BODY[..]);
    assert!(rt; refuses(ErrorBuffer::new_checked(&BODY[..3]), 13));
    Ok(())
}

#[test]
fn storages(rt: HostRuntime) -> Result<(), Fail> {
    let mut vec = REQUEST.to_vec(rt.alloc())?;
    refuse_from_here(rt.alloc());
    assert!(rt; (&REQUEST[..]).bytes() == &REQUEST[..]);
    assert!(rt; vec.bytes() == &REQUEST[..]);
    vec.bytes_mut().fill(7);
    vec.part_mut(0, 2).fill(9);
    assert!(rt; &vec.bytes()[..4] == [9, 9, 7, 7].as_slice());
    let mut array = REQUEST;
    let mut slice = &mut array[..];
    slice.part_mut(1, 2).fill(9);
    let mut slice = &mut array[4..];
    slice.bytes_mut().fill(7);
    let mut wanted = [7; 40];
    wanted[..4].copy_from_slice(&[0x28, 9, 0, 0]);
    assert!(rt; array == wanted);
    Ok(())
}

/// Code -1234, which no bytes follow. Decoding and copying it does not allocate.
const CODE: [u8; 4] = [0x2e, 0xfb, 0xff, 0xff];

fn done_of(alloc: Global) -> Result<DoneMessage, Fail> {
    Ok(DoneMessage::parse(alloc, &DoneBuffer::new_checked(&CODE[..])?)?)
}

fn error_of(alloc: Global) -> Result<ErrorMessage, Fail> {
    Ok(ErrorMessage::parse(alloc, &ErrorBuffer::new_checked(&CODE[..])?)?)
}

#[test]
fn a_done_body(rt: HostRuntime) -> Result<(), Fail> {
    let alloc = rt.alloc();
    refuse_from_here(alloc);
    let done = done_of(alloc)?;
    assert!(rt; done.code == -1234 && done.extended_ack.is_empty());
    assert!(rt; done.try_clone(alloc)? == done);
    assert!(rt; DoneMessage::empty(alloc).code == 0);
    Ok(())
}

#[test]
fn an_error_body(rt: HostRuntime) -> Result<(), Fail> {
    let alloc = rt.alloc();
    refuse_from_here(alloc);
    let error = error_of(alloc)?;
    assert!(rt; error.raw_code() == -1234 && error.errno() == 1234);
    assert!(rt; error.try_clone(alloc)? == error);
    assert!(rt; ErrorMessage::empty(alloc).code.is_none());
    Ok(())
}

/// Encoding a body does not allocate.
#[test]
fn bodies_are_written(rt: HostRuntime) -> Result<(), Fail> {
    let alloc = rt.alloc();
    let coded = DoneMessage {
        code: 5,
        extended_ack: [1u8, 2, 3].to_vec(alloc)?,
    };
    refuse_from_here(alloc);
    assert!(rt; coded.buffer_len() == 7);
    let mut buffer = [0u8; 7];
    coded.emit(&mut buffer);
    assert!(rt; buffer == [5, 0, 0, 0, 1, 2, 3]);
    let error = error_of(alloc)?;
    assert!(rt; error.buffer_len() == 4);
    let mut buffer = [0u8; 4];
    error.emit(&mut buffer);
    assert!(rt; buffer == CODE);
    Ok(())
}
