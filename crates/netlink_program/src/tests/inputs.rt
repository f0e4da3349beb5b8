//! Inputs and outputs, and readers and writers that fail.

use crate::{ReadFault, WriteFault, fill, read_all, write_through};
use std::io;
use std::io::{Read, Write};
use std::test::Fail;

#[test]
fn all_is_read(rt: HostRuntime) -> Result<(), Fail> {
    let mut reader = b"an input".as_slice();
    let read = read_all(rt.alloc(), &mut reader)?;
    assert!(rt; read.as_slice() == b"an input".as_slice());
    assert!(rt; reader.is_empty());
    Ok(())
}

/// Is interrupted before each byte that it gives, and fails after `good` bytes.
#[derive(Drop)]
struct Failing {
    good: usize,
    is_due: bool,
}

impl Read for Failing {
    fn read(&mut self, buf: &mut [u8]) -> io::Result<usize> {
        self.is_due = !self.is_due;
        if !self.is_due {
            return Err(io::Error::from(io::ErrorKind::Interrupted));
        }
        if self.good == 0 {
            return Err(io::Error::from(io::ErrorKind::BrokenPipe));
        }
        self.good -= 1;
        match buf.first_mut() {
            Some(place) => {
                *place = 1;
                Ok(1)
            }
            None => Ok(0),
        }
    }
}

#[test]
fn a_reader_that_fails(rt: HostRuntime) {
    for good in [0, 1, 5] {
        let mut reader = Failing { good, is_due: true };
        let answer = read_all(rt.alloc(), &mut reader);
        assert!(rt;
            matches!(answer, Err(ReadFault::Read)),
            "after {good} bytes"
        );
        assert!(rt; reader.good == 0);
    }
}

/// A buffer takes what fits and leaves the rest, and what comes before the end of the input.
#[test]
fn a_buffer_is_filled(rt: HostRuntime) {
    let mut reader = b"an input".as_slice();
    let mut buffer = [0u8; 5];
    for size in [5, 3, 0] {
        assert!(rt; fill(&mut reader, &mut buffer) == Ok(size));
    }
    assert!(rt; buffer == *b"putin");
    for (good, wanted) in [(5, Ok(5)), (4, Err(ReadFault::Read))] {
        let mut reader = Failing { good, is_due: true };
        assert!(rt; fill(&mut reader, &mut buffer) == wanted);
        assert!(rt; reader.good == 0);
    }
}

/// Is interrupted before each byte that it takes, and takes `good` bytes, or then fails to flush.
#[derive(Drop)]
struct Taking {
    good: usize,
    is_due: bool,
    is_flushed: bool,
}

impl Write for Taking {
    fn write(&mut self, buf: &[u8]) -> io::Result<usize> {
        self.is_due = !self.is_due;
        if !self.is_due {
            return Err(io::Error::from(io::ErrorKind::Interrupted));
        }
        if self.good == 0 || buf.is_empty() {
            return Ok(0);
        }
        self.good -= 1;
        Ok(1)
    }

    fn flush(&mut self) -> io::Result<()> {
        if self.good == 0 {
            return Err(io::Error::from(io::ErrorKind::BrokenPipe));
        }
        self.is_flushed = true;
        Ok(())
    }
}

#[test]
fn a_writer_that_fails(rt: HostRuntime) {
    for (good, wanted) in [(4, Ok(())), (3, Err(WriteFault)), (2, Err(WriteFault))] {
        let mut writer = Taking {
            good,
            is_due: true,
            is_flushed: false,
        };
        assert!(rt; write_through(&mut writer, b"abc".as_slice()) == wanted);
        assert!(rt; writer.is_flushed == wanted.is_ok());
    }
}
