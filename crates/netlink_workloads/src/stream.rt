//! A recording that is made as it is read, and its lines.

use crate::digest::Digest;
use crate::links::Links;
use crate::names::Names;
use crate::routes::Routes;
use netlink_family::Joined;
use netlink_lines::{Fault, run};
use netlink_route::RouteTables;
use std::alloc::{AllocError, Global};
use std::io;
use std::io::{BufReader, Read};

/// The least number of bytes that are made at once, as a file gives them to a buffer.
const CHUNK: usize = 8192;

/// What makes the messages.
#[derive(Drop)]
pub(crate) enum Source {
    Routes(Routes),
    Links(Links),
    Names(Names),
}

impl Source {
    /// Returns the source of routes and neighbours.
    pub(crate) fn routes(alloc: Global, seed: u32) -> Source {
        Source::Routes(Routes::new(alloc, seed))
    }

    /// Returns the source of whole links, unless there are no samples of links.
    pub(crate) fn links(alloc: Global, samples: &[u8], seed: u32) -> Option<Source> {
        Some(Source::Links(Links::new(alloc, samples, seed)?))
    }

    /// Returns the source of many links, unless there are no samples of links.
    pub(crate) fn names(alloc: Global, samples: &[u8], seed: u32) -> Option<Source> {
        Some(Source::Names(Names::new(alloc, samples, seed)?))
    }

    /// Appends the next message.
    fn put(&mut self, out: &mut Vec<u8>) -> Result<(), AllocError> {
        match self {
            Source::Routes(source) => source.put(out),
            Source::Links(source) => source.put(out),
            Source::Names(source) => source.put(out),
        }
    }
}

/// The bytes of a number of messages.
#[derive(Drop)]
struct Recording {
    source: Source,
    left: u32,
    made: Vec<u8>,
    read: usize,
}

impl Recording {
    /// Makes more messages after the last byte is read.
    fn make(&mut self) -> Result<(), AllocError> {
        self.made.clear();
        self.read = 0;
        for _ in 0..CHUNK {
            if self.left == 0 || self.made.len() >= CHUNK {
                return Ok(());
            }
            self.left -= 1;
            self.source.put(&mut self.made)?;
        }
        Ok(())
    }
}

impl Read for Recording {
    fn read(&mut self, buf: &mut [u8]) -> io::Result<usize> {
        if self.read >= self.made.len() {
            self.make()?;
        }
        let Some(rest) = self.made.get(self.read..) else {
            return Ok(0);
        };
        let size = rest.len().min(buf.len());
        buf[..size].copy_from_slice(&rest[..size]);
        self.read = self.read.saturating_add(size);
        Ok(size)
    }
}

/// Writes the lines of a recording of this number of messages, as `netlink_show` does. Returns the
/// digest of the lines and of how the run ended, or `None` if it did not reach the end.
pub(crate) fn lines(alloc: Global, source: Source, count: u32) -> Option<u64> {
    let recording = Recording {
        source,
        left: count,
        made: Vec::new(alloc),
        read: 0,
    };
    let mut reader = BufReader::new(alloc, recording).ok()?;
    let mut digest = Digest::new();
    match run::<Joined<RouteTables>, _, _>(alloc, &mut reader, &mut digest) {
        Ok(()) => digest.number(0),
        Err(Fault::Malformed) => digest.number(1),
        Err(_) => return None,
    }
    Some(digest.value())
}
