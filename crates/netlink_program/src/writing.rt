//! The output of a program.

ghost use Rattle.std.specs.Prelude.{◌≡◌, ◌≤◌, ℕ, OnErr, OnOk, length, take};
ghost use Rattle.std.specs.Io.KnownBytes.{Appends};

use std::io;
use std::io::Write;

/// An output was not written as a whole.
#[derive(Clone, Copy, Debug, PartialEq, Eq)]
pub struct WriteFault;

/// Writes all the bytes, and flushes the writer.
///
/// An interrupted call of the writer is repeated. Returns `WriteFault` if another call fails or
/// takes no byte, if bytes are left after 2^64 - 1 calls, or if the flush fails; the writer may then
/// hold a part of the bytes.
#[tactic(auto, using(crate::proofs::Parts::written_more, crate::proofs::Parts::written_all, crate::proofs::Parts::written_part))]
pub fn write_through<W: Write>(writer: &mut W, bytes: &[u8]) -> Result<(), WriteFault>
    ensures whole { OnOk result (Appends (W.contents writer.old) (W.contents writer.new) bytes.now) }
    ensures part { OnErr result ((n : ℕ) × (n ≤ length bytes.now)
        × Appends (W.contents writer.old) (W.contents writer.new) (take n bytes.now)) }
{
    let mut written = 0;
    for _ in 0..u64::MAX {
        if written == bytes.len() {
            return match writer.flush() {
                Ok(()) => Ok(()),
                Err(_) => Err(WriteFault),
            };
        }
        match writer.write(&bytes[written..]) {
            Ok(0) => return Err(WriteFault),
            Ok(n) => written += n,
            Err(e) => {
                if e.kind() != io::ErrorKind::Interrupted {
                    return Err(WriteFault);
                }
            }
        }
    }
    Err(WriteFault)
}
