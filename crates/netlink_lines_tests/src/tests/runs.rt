//! Runs over a reader and a writer, some of which fail.

use crate::tests::lines::{ADDRESS, LINE};
use crate::tests::shown::{ends_with, joined, joined_text, push_lines};
use netlink_family::Joined;
use netlink_lines::laws::shows_once;
use netlink_lines::{Fault, run};
use netlink_route::RouteTables;
use std::alloc::Global;
use std::io;
use std::io::{Read, Write};
use std::test::Fail;

/// A link whose payload is one byte shorter than its header.
const SHORT: [u8; 31] = [
    31, 0, 0, 0, 16, 0, 0, 0, 0, 0, 0, 0, 0, 0, 0, 0, // length 31, RTM_NEWLINK
    0, 0, 0, 0, 0, 0, 0, 0, 0, 0, 0, 0, 0, 0, 0, //
];

const SHORT_LINE: &str =
    "byte 0: Failed to parse message with type 16: the payload has 15 bytes, fewer than its header of 16\n";

const CUT: &str =
    "byte 92: failed deserializing NetlinkMessage caused by invalid netlink buffer length caused by invalid netlink buffer: length field says 60 the buffer is 59 bytes long";

/// Calls the law, which does nothing at run time.
fn call_law() {
    shows_once();
}

/// The lines before a truncated frame are written, also that of a malformed message, and the error
/// names the byte at which the frame starts. Nothing is lost if the padding is missing.
#[test]
fn a_cut_frame_ends_the_lines(rt: HostRuntime) -> Result<(), Fail> {
    let alloc = rt.alloc();
    let mut output: Vec<u8> = Vec::new(alloc);
    assert!(rt; push_lines(alloc, &SHORT, &mut output) == Err(Fault::Malformed));
    let input = joined(alloc, &[&SHORT, &[0], &ADDRESS, &ADDRESS[..59]])?;
    assert!(rt; ends_with(alloc, push_lines(alloc, &input, &mut output), CUT)?);
    let wanted = joined_text(alloc, &[SHORT_LINE, SHORT_LINE, LINE])?;
    assert_eq!(rt; output.as_slice(), wanted.as_bytes());
    call_law();
    Ok(())
}

/// A reader and a writer that fail.
#[derive(Drop)]
struct Broken;

impl Read for Broken {
    fn read(&mut self, _buf: &mut [u8]) -> io::Result<usize> {
        Err(io::Error::from(io::ErrorKind::BrokenPipe))
    }
}

impl Write for Broken {
    fn write(&mut self, _buf: &[u8]) -> io::Result<usize> {
        Err(io::Error::from(io::ErrorKind::BrokenPipe))
    }

    fn flush(&mut self) -> io::Result<()> {
        Ok(())
    }
}

/// Returns how a run over these bytes ends if the writer fails.
fn ended_writing(alloc: Global, input: &[u8]) -> Result<(), Fault> {
    let mut reader = input;
    run::<Joined<RouteTables>, _, _>(alloc, &mut reader, &mut Broken)
}

#[test]
fn devices_that_fail(rt: HostRuntime) {
    let mut output: Vec<u8> = Vec::new(rt.alloc());
    let result = run::<Joined<RouteTables>, _, _>(rt.alloc(), &mut Broken, &mut output);
    assert!(rt; result == Err(Fault::Read) && output.is_empty());
    assert!(rt; ended_writing(rt.alloc(), &ADDRESS) == Err(Fault::Write));
}
