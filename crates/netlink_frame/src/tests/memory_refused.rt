//! Functions that allocate.
//!
//! `tests/memory` runs each test once per allocation, with that allocation failing. The test must
//! pass, or propagate `OutOfMemory` with `?`.

use crate::frames::frames_text;
use crate::nlas::nlas_text;
use crate::ping_pong::PingPongMessage;
use crate::samples::Zeros;
use crate::tests::attributes::TWO;
use crate::tests::datagrams::DATAGRAM;
use crate::tests::lengths::{FOUR_ZEROS, normal_zeros};
use crate::tests::memory_not_asked::above::{append, written};
use crate::tests::memory_not_asked::attributes::{Flag, nla_of, normal_block};
use crate::tests::messages::{
    CODED_DONE, DONE, EMPTY_DONE, Message, NOOP, OVERRUN, PING, PLAIN_DONE, PLAIN_NOOP, normal_of,
    read, read_view, verdict_of,
};
use crate::tests::refusals::UNKNOWN;
use crate::text::show_text;
use netlink_packet_core::{
    DecodeError, DefaultNla, DoneBuffer, DoneMessage, ErrorBuffer, ErrorContext, ErrorMessage,
    NetlinkSerializable, NonZeroI32, Parseable, append_nla, copy_of, parse_string, write_nlas,
};
use netlink_tree::{TreeFault, read_tree};
use std::alloc::{AllocError, Global};
use std::test::Fail;

const LINE: &str = "a line caused by message does not fit a 32-bit length";

const NOT_UTF8: &str = "Invalid UTF-8 sequence: invalid utf-8 sequence of 1 bytes from index 0";

fn line() -> &'static str {
    "a line"
}

fn too_long() -> Result<u8, DecodeError> {
    Err(DecodeError::TooLong)
}

/// Returns whether the error has this text. Propagates `OutOfMemory`.
fn says(alloc: Global, cause: DecodeError, text: &str) -> Result<bool, DecodeError> {
    if cause.is_out_of_memory() {
        return Err(cause);
    }
    Ok(cause.to_string(alloc)?.as_str() == text)
}

/// Returns whether the result is an error with this text. Propagates `OutOfMemory`.
fn refused_with<T: Drop>(
    alloc: Global,
    answer: Result<T, DecodeError>,
    text: &str,
) -> Result<bool, DecodeError> {
    match answer {
        Ok(_) => Ok(false),
        Err(cause) => says(alloc, cause, text),
    }
}

#[test]
fn causes_with_a_text(rt: HostRuntime) -> Result<(), Fail> {
    let alloc = rt.alloc();
    let named = DecodeError::invalid_buffer(alloc, "a name", 3, 8);
    let text = "Invalid buffer a name. Expected at least 8 bytes, received 3 bytes";
    assert!(rt; says(alloc, named, text)?);
    assert!(rt; says(alloc, DecodeError::from_text(alloc, LINE), LINE)?);
    assert!(rt; says(alloc, not_utf8(alloc)?, NOT_UTF8)?);
    Ok(())
}

/// Returns the error for the byte ff, which is not UTF-8.
fn not_utf8(alloc: Global) -> Result<DecodeError, AllocError> {
    Ok(match String::from_utf8([0xffu8].to_vec(alloc)?) {
        Ok(text) => DecodeError::from(text),
        Err(error) => DecodeError::from_utf8_error(alloc, error),
    })
}

#[test]
fn contexts(rt: HostRuntime) -> Result<(), Fail> {
    let alloc = rt.alloc();
    assert!(rt; says(alloc, DecodeError::TooLong.context(alloc, "a line"), LINE)?);
    assert!(rt; says(alloc, DecodeError::TooLong.with_context(alloc, line), LINE)?);
    assert!(rt; refused_with(alloc, too_long().context(alloc, "a line"), LINE)?);
    assert!(rt; refused_with(alloc, too_long().with_context(alloc, line), LINE)?);
    Ok(())
}

#[test]
fn strings(rt: HostRuntime) -> Result<(), Fail> {
    let alloc = rt.alloc();
    assert!(rt; parse_string(alloc, b"a line\0")?.as_str() == "a line");
    assert!(rt; refused_with(alloc, parse_string(alloc, &[0xff]), NOT_UTF8)?);
    Ok(())
}

#[test]
fn an_attribute_is_read_and_copied(rt: HostRuntime) -> Result<(), Fail> {
    let alloc = rt.alloc();
    let wanted = DefaultNla::new(1, [0xaau8].to_vec(alloc)?);
    assert!(rt; nla_of(alloc, &TWO)? == wanted);
    assert!(rt; wanted.try_clone(alloc)? == wanted);
    Ok(())
}

#[test]
fn a_done_body_is_read_and_copied(rt: HostRuntime) -> Result<(), Fail> {
    let alloc = rt.alloc();
    let done = DoneMessage {
        code: 5,
        extended_ack: [1u8, 2, 3].to_vec(alloc)?,
    };
    match DoneBuffer::new_checked(&[5u8, 0, 0, 0, 1, 2, 3][..]) {
        Ok(view) => assert!(rt; DoneMessage::parse(alloc, &view)? == done),
        Err(_) => assert!(rt; false),
    }
    assert!(rt; done.try_clone(alloc)? == done);
    Ok(())
}

#[test]
fn an_error_body_is_read_and_copied(rt: HostRuntime) -> Result<(), Fail> {
    let alloc = rt.alloc();
    let error = ErrorMessage {
        code: NonZeroI32::new(-8765),
        header: [6u8].to_vec(alloc)?,
    };
    match ErrorBuffer::new_checked(&[0xc3u8, 0xdd, 0xff, 0xff, 6][..]) {
        Ok(view) => assert!(rt; ErrorMessage::parse(alloc, &view)? == error),
        Err(_) => assert!(rt; false),
    }
    assert!(rt; error.try_clone(alloc)? == error);
    Ok(())
}

#[test]
fn bytes_are_copied(rt: HostRuntime) -> Result<(), Fail> {
    assert!(rt; copy_of(rt.alloc(), &TWO)?.as_slice() == TWO.as_slice());
    Ok(())
}

#[test]
fn a_block_is_written(rt: HostRuntime) -> Result<(), Fail> {
    let block = write_nlas(rt.alloc(), &[Flag(9), Flag(8)])?;
    assert!(rt;
        block.as_slice() == [5, 0, 7, 0x40, 9, 0, 0, 0, 5, 0, 7, 0x40, 8, 0, 0, 0].as_slice()
    );
    Ok(())
}

#[test]
fn a_block_is_normalised(rt: HostRuntime) -> Result<(), Fail> {
    assert!(rt; normal_block(rt.alloc(), &TWO)?.as_slice() == TWO.as_slice());
    Ok(())
}

/// Appends an attribute of kind 2 and value aa.
fn append_aa(alloc: Global, block: &mut Vec<u8>) -> Result<(), DecodeError> {
    append_nla(alloc, block, 2, &[0xaa])
}

/// If `append_nla` fails, the block is unchanged, whether it is empty or not.
#[test]
fn attributes_are_appended(rt: HostRuntime) -> Result<(), Fail> {
    let alloc = rt.alloc();
    let mut block = Vec::new(alloc);
    if let Err(cause) = append_aa(alloc, &mut block) {
        assert!(rt; block.is_empty());
        return Err(Fail::from(cause));
    }
    assert!(rt; block.as_slice() == [5, 0, 2, 0, 0xaa, 0, 0, 0].as_slice());
    let mut longer = TWO.to_vec(alloc)?;
    if let Err(cause) = append_aa(alloc, &mut longer) {
        assert!(rt; longer.as_slice() == TWO.as_slice());
        return Err(Fail::from(cause));
    }
    assert!(rt; longer.starts_with(&TWO) && longer.ends_with(&block) && longer.len() == 24);
    Ok(())
}

/// Frames whose payloads are copied.
const COPIED: [&[u8]; 4] = [&PING, &DONE, &CODED_DONE, &OVERRUN];

#[test]
fn messages_are_read(rt: HostRuntime) -> Result<(), Fail> {
    let alloc = rt.alloc();
    for frame in COPIED {
        let message = read(alloc, frame)?;
        assert!(rt; message.header.length as usize == frame.len());
        assert!(rt; read_view(alloc, frame)? == message);
    }
    Ok(())
}

/// If the protocol rejects a payload, the error contains its text, which is allocated.
#[test]
fn a_refused_message(rt: HostRuntime) -> Result<(), Fail> {
    let alloc = rt.alloc();
    let text =
        "Failed to parse message with type 19: invalid ping-pong message: invalid message type";
    assert!(rt; refused_with(alloc, read(alloc, &UNKNOWN), text)?);
    Ok(())
}

/// Frames, and what they are normalized to.
const NORMALISED: [(&[u8], &[u8]); 3] = [
    (&PING, &PING),
    (&EMPTY_DONE, &PLAIN_DONE),
    (&NOOP, &PLAIN_NOOP),
];

#[test]
fn frames_are_normalised(rt: HostRuntime) -> Result<(), Fail> {
    let alloc = rt.alloc();
    for (frame, normal) in NORMALISED {
        assert!(rt; normal_of(alloc, frame)?.as_slice() == normal);
    }
    assert!(rt; normal_zeros(alloc, 4)?.as_slice() == FOUR_ZEROS.as_slice());
    assert!(rt; verdict_of(alloc, &PING)?);
    Ok(())
}

#[test]
fn a_frame_is_written(rt: HostRuntime) -> Result<(), Fail> {
    let alloc = rt.alloc();
    let ping = Message::from_inner(PingPongMessage::Ping([0u8, 1, 2, 3].to_vec(alloc)?));
    assert!(rt; ping.into_frame(alloc)?.as_slice() == PING.as_slice());
    Ok(())
}

#[test]
fn payloads_are_appended(rt: HostRuntime) -> Result<(), Fail> {
    let alloc = rt.alloc();
    let mut text = Vec::new(alloc);
    Zeros(4).append(&mut text)?;
    PingPongMessage::Ping([5u8].to_vec(alloc)?).append(&mut text)?;
    assert!(rt; text.as_slice() == [0, 0, 0, 0, 5].as_slice());
    assert!(rt; are_zeros(alloc, 4, &text[..4])? && !are_zeros(alloc, 5, &text)?);
    Ok(())
}

/// Returns whether the bytes are the encoding of this many zeros.
fn are_zeros(alloc: Global, count: u64, bytes: &[u8]) -> Result<bool, AllocError> {
    Zeros(count).is_written_as(alloc, bytes)
}

#[test]
fn lines_are_written(rt: HostRuntime) -> Result<(), Fail> {
    let alloc = rt.alloc();
    let of_ping = "length 20\ntype 18\nflags 0\nsequence 0\nport 0\npayload ping 00010203\n";
    assert!(rt; message_lines(alloc, &PING)?.as_str() == of_ping);
    assert!(rt; nla_lines(alloc, &TWO)?.as_str() == "0001 1 aa\n0002 4 01020304\n");
    assert!(rt; frame_lines(alloc, &DATAGRAM)?.as_str() == "20 18\n17 4\n");
    Ok(())
}

fn message_lines(alloc: Global, frame: &[u8]) -> Result<String, DecodeError> {
    show_text(alloc, &read(alloc, frame)?)
}

fn nla_lines(alloc: Global, block: &[u8]) -> Result<String, DecodeError> {
    nlas_text(alloc, block)
}

fn frame_lines(alloc: Global, datagram: &[u8]) -> Result<String, DecodeError> {
    frames_text(alloc, datagram)
}

/// If `append_frame` fails, the datagram is unchanged, whether it is empty or not.
#[test]
fn frames_are_appended(rt: HostRuntime) -> Result<(), Fail> {
    let alloc = rt.alloc();
    let mut datagram = Vec::new(alloc);
    if let Err(cause) = append(alloc, &mut datagram, &PING) {
        assert!(rt; datagram.is_empty());
        return Err(Fail::from(cause));
    }
    assert!(rt; datagram.as_slice() == PING.as_slice());
    let mut longer = PING.to_vec(alloc)?;
    if let Err(cause) = append(alloc, &mut longer, &DATAGRAM[20..]) {
        assert!(rt; longer.as_slice() == PING.as_slice());
        return Err(Fail::from(cause));
    }
    assert!(rt; longer.as_slice() == DATAGRAM.as_slice());
    Ok(())
}

/// The input: one nest with one leaf, which lacks its padding.
const READ: [u8; 9] = [9, 0, 1, 0x80, 5, 0, 2, 0, 0xaa];

/// The encoding of the same nest.
const WRITTEN: [u8; 12] = [12, 0, 1, 0x80, 5, 0, 2, 0, 0xaa, 0, 0, 0];

#[test]
fn trees_are_read_and_written(rt: HostRuntime) -> Result<(), Fail> {
    let alloc = rt.alloc();
    let trees = read_tree(alloc, &READ)?;
    match written(alloc, &trees) {
        Some(bytes) => assert!(rt; bytes?.as_slice() == WRITTEN.as_slice()),
        None => assert!(rt; false),
    }
    match read_tree(alloc, &[8, 0, 1, 0, 1, 2, 3, 4, 3, 0, 2, 0]) {
        Ok(_) => assert!(rt; false),
        Err(fault) => {
            if is_out_of_memory_fault(&fault) {
                return Err(Fail::from(fault));
            }
            let text = "NLA has invalid length: 3 (should be at least 4 bytes)";
            assert!(rt; fault.to_string(alloc)?.as_str() == text);
        }
    }
    Ok(())
}

fn is_out_of_memory_fault(fault: &TreeFault) -> bool {
    match fault {
        TreeFault::Decode(cause) => cause.is_out_of_memory(),
        _ => false,
    }
}
