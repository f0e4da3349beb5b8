//! The input of a program.

ghost use Rattle.std.specs.Prelude.{◌≡◌, ℕ, List, Some, IfOk, OnOk, IfSome};
ghost use Rattle.std.specs.Io.KnownBytes.{Consumes, IsAtEnd};

use std::alloc::Global;
use std::io;
use std::io::Read;

/// Why an input was not read as a whole.
#[derive(Clone, Copy, Debug, PartialEq, Eq)]
pub enum ReadFault {
    /// The reader failed, or did not reach its end within the maximum number of calls.
    Read,
    /// An allocation failed.
    OutOfMemory,
}

/// The maximum number of calls of the reader for one input.
const CALLS: u32 = 1_048_576;

/// The maximum number of bytes per call.
const CHUNK: usize = 4096;

/// Returns everything that is left in the reader.
///
/// The reader must reach its end within 1048576 calls, each for at most 4096 bytes. An interrupted
/// call counts, and is repeated. Returns `Read` if another call fails or the end is not reached,
/// and `OutOfMemory` if an allocation for what was read fails. After an error, what was read is
/// dropped and no longer in the reader.
pub fn read_all<R: Read>(alloc: Global, reader: &mut R) -> Result<Vec<u8>, ReadFault>
    ensures ok { IfOk result (λ input. IfSome (R.remaining reader.old) (λ all. input.items ≡ all)) }
    ensures end { OnOk result (IsAtEnd (R.remaining reader.new)) }
    ensures taken { (front : List ℕ)
        × Consumes (R.remaining reader.old) (R.remaining reader.new) front }
{
    let mut input = Vec::new(alloc);
    let mut chunk = [0u8; CHUNK];
    for _ in 0..CALLS {
        match reader.read(&mut chunk) {
            Ok(0) => return Ok(input),
            Ok(n) => {
                if input.extend_from_slice(&chunk[..n]).is_err() {
                    return Err(ReadFault::OutOfMemory);
                }
            }
            Err(e) => {
                if e.kind() != io::ErrorKind::Interrupted {
                    return Err(ReadFault::Read);
                }
            }
        }
    }
    Err(ReadFault::Read)
}
