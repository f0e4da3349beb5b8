//! A digest of results.

use std::io;
use std::io::Write;

/// A digest of numbers and of bytes in their order.
#[derive(Clone, Copy, Drop)]
pub(crate) struct Digest {
    sum: u64,
}

impl Digest {
    /// Returns the digest of nothing.
    pub(crate) fn new() -> Digest {
        Digest {
            sum: 0xcbf2_9ce4_8422_2325,
        }
    }

    /// Adds a number, by multiplication with the prime of the hash function FNV-1a.
    pub(crate) fn number(&mut self, number: u64) {
        let mixed = (self.sum ^ number).wrapping_mul(0x0000_0100_0000_01b3);
        self.sum = mixed ^ (mixed >> 29);
    }

    /// Adds bytes, eight at a time, and then their number.
    pub(crate) fn bytes(&mut self, bytes: &[u8]) {
        let mut rest = bytes;
        while let [a, b, c, d, e, f, g, h, more @ ..] = rest {
            self.number(u64::from_le_bytes([*a, *b, *c, *d, *e, *f, *g, *h]));
            rest = more;
        }
        for byte in rest {
            self.number(*byte as u64);
        }
        self.number(bytes.len() as u64);
    }

    /// Returns the digest of what was added.
    pub(crate) fn value(&self) -> u64 {
        self.sum
    }
}

impl Write for Digest {
    fn write(&mut self, buf: &[u8]) -> io::Result<usize> {
        self.bytes(buf);
        Ok(buf.len())
    }

    fn flush(&mut self) -> io::Result<()> {
        Ok(())
    }
}
