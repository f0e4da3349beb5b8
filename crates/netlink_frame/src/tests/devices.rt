//! Readers and writers that fail.

ghost use Rattle.std.specs.Prelude.{◌≤◌, length};

use crate::command::Command;
use crate::run::Fault;
use crate::tests::attributes::{SHORT, TWO};
use crate::tests::datagrams::DATAGRAM;
use crate::tests::messages::PING;
use crate::tests::runs::{run_on, written};
use std::alloc::Global;
use std::io;
use std::io::{Read, Write};
use std::test::Fail;

/// Each command, with an input for which it has output.
const COMMANDS: [(Command, &[u8]); 5] = [
    (Command::Normalize, &PING),
    (Command::Show, &PING),
    (Command::Nlas, &TWO),
    (Command::Canon, &TWO),
    (Command::Frames, &DATAGRAM),
];

/// Moves the first byte into the buffer, if there is one and the buffer has room. Returns the
/// number of bytes moved.
fn give_one(bytes: &mut &[u8], buf: &mut [u8]) -> usize
    ensures { result ≤ length buf.old }
{
    match (bytes.split_first(), buf.first_mut()) {
        (Some((first, rest)), Some(place)) => {
            *place = *first;
            *bytes = rest;
            1
        }
        _ => 0,
    }
}

/// Gives one byte per call, and fails after `good` bytes.
#[derive(Drop)]
struct FailingReader<'a> {
    bytes: &'a [u8],
    good: usize,
}

impl Read for FailingReader<'_> {
    fn read(&mut self, buf: &mut [u8]) -> io::Result<usize> {
        if self.good == 0 {
            return Err(io::Error::from(io::ErrorKind::BrokenPipe));
        }
        self.good -= 1;
        Ok(give_one(&mut self.bytes, buf))
    }
}

/// Gives one byte per call, forever.
#[derive(Drop)]
struct Endless {
    calls: u64,
    longest: usize,
}

impl Read for Endless {
    fn read(&mut self, buf: &mut [u8]) -> io::Result<usize> {
        self.calls = self.calls.saturating_add(1);
        self.longest = self.longest.max(buf.len());
        match buf.first_mut() {
            Some(place) => {
                *place = 1;
                Ok(1)
            }
            None => Ok(0),
        }
    }
}

/// Is interrupted before each byte that it gives.
#[derive(Drop)]
struct Interrupted<'a> {
    bytes: &'a [u8],
    is_due: bool,
}

impl Read for Interrupted<'_> {
    fn read(&mut self, buf: &mut [u8]) -> io::Result<usize> {
        self.is_due = !self.is_due;
        if !self.is_due {
            return Err(io::Error::from(io::ErrorKind::Interrupted));
        }
        Ok(give_one(&mut self.bytes, buf))
    }
}

/// Takes `room` bytes, and then fails.
#[derive(Drop)]
struct FailingWriter {
    taken: Vec<u8>,
    room: usize,
}

impl Write for FailingWriter {
    fn write(&mut self, buf: &[u8]) -> io::Result<usize> {
        let count = buf.len().min(self.room);
        if count == 0 && !buf.is_empty() {
            return Err(io::Error::from(io::ErrorKind::BrokenPipe));
        }
        self.taken.extend_from_slice(&buf[..count])?;
        self.room -= count;
        Ok(count)
    }

    fn flush(&mut self) -> io::Result<()> {
        Ok(())
    }
}

/// Takes everything, and counts its calls.
#[derive(Drop)]
struct Counting {
    calls: u64,
}

impl Write for Counting {
    fn write(&mut self, buf: &[u8]) -> io::Result<usize> {
        self.calls = self.calls.saturating_add(1);
        Ok(buf.len())
    }

    fn flush(&mut self) -> io::Result<()> {
        Ok(())
    }
}

#[test]
fn a_reader_that_fails(rt: HostRuntime) {
    for (command, _) in COMMANDS {
        for good in 0..PING.len() {
            let mut reader = FailingReader { bytes: &PING, good };
            let mut output: Vec<u8> = Vec::new(rt.alloc());
            let answer = run_on(rt.alloc(), command, &mut reader, &mut output);
            assert!(rt; matches!(answer, Err(Fault::Read)), "after {good} bytes");
            assert!(rt; output.is_empty(), "after {good} bytes");
        }
    }
}

#[test]
fn a_reader_without_an_end(rt: HostRuntime) {
    let mut reader = Endless {
        calls: 0,
        longest: 0,
    };
    let mut output: Vec<u8> = Vec::new(rt.alloc());
    let answer = run_on(rt.alloc(), Command::Normalize, &mut reader, &mut output);
    assert!(rt; matches!(answer, Err(Fault::Read)));
    assert!(rt; output.is_empty());
    assert!(rt; reader.calls == 1_048_576);
    assert!(rt; reader.longest <= 4096);
}

#[test]
fn an_interrupted_read_is_made_again(rt: HostRuntime) -> Result<(), Fail> {
    let mut reader = Interrupted {
        bytes: &PING,
        is_due: true,
    };
    let mut output: Vec<u8> = Vec::new(rt.alloc());
    run_on(rt.alloc(), Command::Normalize, &mut reader, &mut output)?;
    assert!(rt; output.as_slice() == PING.as_slice());
    Ok(())
}

#[test]
fn an_output_is_written_by_one_call(rt: HostRuntime) {
    for (command, input) in COMMANDS {
        assert!(rt;
            calls_of(rt.alloc(), command, input) == Some((true, 1)),
            "{command:?}"
        );
    }
}

/// Returns whether a run has no error, and how often it calls its writer. Returns `None` if it
/// ends early.
fn calls_of(alloc: Global, command: Command, input: &[u8]) -> Option<(bool, u64)> {
    let mut reader = input;
    let mut writer = Counting { calls: 0 };
    match run_on(alloc, command, &mut reader, &mut writer) {
        Ok(()) => Some((true, writer.calls)),
        Err(Fault::Decode(_)) => Some((false, writer.calls)),
        Err(_) => None,
    }
}

/// For an empty input, each command has no output, whether it ends with an error or not.
#[test]
fn no_output_is_not_written(rt: HostRuntime) {
    for (command, _) in COMMANDS {
        let calls = calls_of(rt.alloc(), command, &[]);
        assert!(rt; matches!(calls, Some((_, 0))), "{command:?}");
    }
}

#[test]
fn a_writer_that_fails(rt: HostRuntime) -> Result<(), Fail> {
    for (command, input) in COMMANDS {
        let output = written(rt.alloc(), command, input)?;
        assert!(rt; !output.is_empty());
        for room in 0..output.len() {
            let mut reader = input;
            let mut writer = FailingWriter {
                taken: Vec::new(rt.alloc()),
                room,
            };
            let answer = run_on(rt.alloc(), command, &mut reader, &mut writer);
            assert!(rt;
                matches!(answer, Err(Fault::Write)),
                "room for {room} bytes"
            );
            assert!(rt; output.starts_with(&writer.taken));
        }
    }
    Ok(())
}

/// The line before the error is not written in full, so `Write` is returned and not that error.
#[test]
fn a_failed_write_stands_before_a_fault(rt: HostRuntime) {
    let mut reader: &[u8] = &SHORT;
    let mut writer = FailingWriter {
        taken: Vec::new(rt.alloc()),
        room: 3,
    };
    let answer = run_on(rt.alloc(), Command::Nlas, &mut reader, &mut writer);
    assert!(rt; matches!(answer, Err(Fault::Write)));
    assert!(rt; b"0001 0 -\n".starts_with(&writer.taken));
}
