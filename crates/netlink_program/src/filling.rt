//! A part of the input of a program.

ghost use Rattle.std.specs.Prelude.{◌≡◌, ◌<◌, ◌≤◌, ℕ, List, IfErr, IfOk, OnErr, length, take};
ghost use Rattle.std.specs.Io.KnownBytes.{Consumes, IsAtEnd};

use crate::reading::ReadFault;
use std::io;
use std::io::Read;

/// Reads until the buffer is full or the reader is at its end, and returns the number of bytes.
///
/// An interrupted call of the reader is repeated. Returns `Read` if another call fails, or if the
/// buffer is not full after 2^64 - 1 calls; what was read is then no longer in the reader. Does not
/// call the reader for an empty buffer, and does not allocate.
pub fn fill<R: Read>(reader: &mut R, buffer: &mut [u8]) -> Result<usize, ReadFault>
    ensures size { length buffer.new ≡ length buffer.old }
    ensures inside { IfOk result (λ n. n ≤ length buffer.new) }
    ensures taken { IfOk result (λ n. Consumes (R.remaining reader.old) (R.remaining reader.new) (take n buffer.new)) }
    ensures end { IfOk result (λ n. n < length buffer.new → IsAtEnd (R.remaining reader.new)) }
    ensures fault { IfErr result (λ fault. fault ≡ ReadFault.Read) }
    ensures lost { OnErr result ((front : List ℕ) × (length front < length buffer.new)
        × Consumes (R.remaining reader.old) (R.remaining reader.new) front) }
{
    if buffer.is_empty() {
        return Ok(0);
    }
    let mut filled = 0;
    for _ in 0..u64::MAX {
        match reader.read(&mut buffer[filled..]) {
            Ok(0) => return Ok(filled),
            Ok(n) => {
                filled += n;
                if filled == buffer.len() {
                    return Ok(filled);
                }
            }
            Err(e) => {
                if e.kind() != io::ErrorKind::Interrupted {
                    return Err(ReadFault::Read);
                }
            }
        }
    }
    Err(ReadFault::Read)
}
