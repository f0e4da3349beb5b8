//! Runs over a reader and a writer in memory.

ghost use Rattle.std.specs.Prelude.{IfOk};
ghost use Rattle.netlink_frame.specs.Run.{Makes};

use crate::command::Command;
use crate::laws::makes_once;
use crate::ping_pong::DeserializeError;
use crate::run::{Fault, run};
use crate::samples::Zeros;
use crate::tests::messages::{PING, longer};
use std::alloc::{AllocError, Global};
use std::io;
use std::io::{Read, Write};
use std::test::Fail;

/// A run in memory, with what it wrote.
pub(crate) fn written(alloc: Global, command: Command, input: &[u8]) -> Result<Vec<u8>, Fault>
    ensures { IfOk result (λ output. Makes command input.now output.items None) }
{
    let mut reader = input;
    let mut output = Vec::new(alloc);
    run(alloc, command, &mut reader, &mut output)?;
    Ok(output)
}

/// Runs a command. Has no contract, so that the proofs of tests are short.
pub(crate) fn run_on<R: Read, W: Write>(
    alloc: Global,
    command: Command,
    reader: &mut R,
    writer: &mut W,
) -> Result<(), Fault> {
    run(alloc, command, reader, writer)
}

#[test]
fn a_ping_and_more_is_normalised(rt: HostRuntime) -> Result<(), Fail> {
    let input = longer(rt.alloc(), &PING, 0x21)?;
    match written(rt.alloc(), Command::Normalize, &input) {
        Ok(output) => assert!(rt; output.as_slice() == PING.as_slice()),
        Err(_) => assert!(rt; false),
    }
    makes_once();
    Ok(())
}

/// Takes nothing.
#[derive(Drop)]
struct Closed;

impl Write for Closed {
    fn write(&mut self, _buf: &[u8]) -> io::Result<usize> {
        Err(io::Error::from(io::ErrorKind::BrokenPipe))
    }

    fn flush(&mut self) -> io::Result<()> {
        Ok(())
    }
}

/// If the writer fails, the error is `Write`. A rejected input has no output, so its own error is
/// returned.
#[test]
fn a_closed_writer(rt: HostRuntime) {
    let mut ping: &[u8] = &PING;
    let answer = run_on(rt.alloc(), Command::Normalize, &mut ping, &mut Closed);
    assert!(rt; matches!(answer, Err(Fault::Write)));
    let mut cut: &[u8] = &PING[..19];
    let answer = run_on(rt.alloc(), Command::Normalize, &mut cut, &mut Closed);
    match answer {
        Err(Fault::Decode(cause)) => assert!(rt; cause.number() == 10),
        _ => assert!(rt; false),
    }
}

const WORDS: [(&str, Option<Command>); 13] = [
    ("normalize", Some(Command::Normalize)),
    ("show", Some(Command::Show)),
    ("nlas", Some(Command::Nlas)),
    ("canon", Some(Command::Canon)),
    ("frames", Some(Command::Frames)),
    ("", None),
    ("Normalize", None),
    ("normalise", None),
    ("normalize ", None),
    ("shows", None),
    ("nla", None),
    ("canonical", None),
    ("frame", None),
];

const EMPTY_INPUT: &str =
    "failed deserializing NetlinkMessage caused by invalid netlink buffer length caused by invalid netlink buffer: length is 0 but netlink packets are at least 16 bytes";

pub(crate) fn is_same_command(command: Option<Command>, other: Option<Command>) -> bool {
    command == other
}

/// Returns whether an error has this text.
fn says(alloc: Global, fault: &Fault, text: &str) -> Result<bool, AllocError> {
    Ok(fault.to_string(alloc)?.as_str() == text)
}

#[test]
fn words_and_faults(rt: HostRuntime) -> Result<(), Fail> {
    for (word, command) in WORDS {
        assert!(rt; is_same_command(Command::from_text(word), command));
    }
    assert!(rt; says(rt.alloc(), &Fault::Read, "read failed")?);
    assert!(rt; says(rt.alloc(), &Fault::Write, "write failed")?);
    let mut nothing: &[u8] = &[];
    let mut output: Vec<u8> = Vec::new(rt.alloc());
    match run_on(rt.alloc(), Command::Normalize, &mut nothing, &mut output) {
        Err(fault) => assert!(rt; says(rt.alloc(), &fault, EMPTY_INPUT)?),
        Ok(()) => assert!(rt; false),
    }
    assert!(rt; output.is_empty());
    Ok(())
}

#[test]
fn texts_of_the_protocols_errors(rt: HostRuntime) -> Result<(), Fail> {
    let invalid_type = DeserializeError::InvalidType.to_string(rt.alloc())?;
    assert!(rt; invalid_type.as_str() == "invalid ping-pong message: invalid message type");
    let out_of_memory = DeserializeError::OutOfMemory.to_string(rt.alloc())?;
    assert!(rt; out_of_memory.as_str() == "out of memory");
    Ok(())
}

/// A copy is equal to its original, which can still be used.
#[test]
fn copies_are_equal(rt: HostRuntime) {
    let command = Command::Canon;
    let same = command;
    assert!(rt; same == command && command == Command::Canon);
    let error = DeserializeError::InvalidType;
    let same = error;
    assert!(rt; same == error && error == DeserializeError::InvalidType);
    let zeros = Zeros(3);
    let same = zeros;
    assert!(rt; same == zeros && zeros == Zeros(3));
}
