//! Integers as bytes. Native byte order is little-endian here. No function here allocates.
#![tactic(auto, using(crate::specs::NumberBytes::numbers_as_bytes))]

pub mod signed;
pub mod unsigned;

ghost use Rattle.netlink_bytes.specs.Numbers.{Reads, Writes};

use crate::error::DecodeError;

/// Returns the bytes as an array. Returns `InvalidNumber` unless there are exactly `N`.
pub(crate) fn array_of<const N: usize>(payload: &[u8]) -> Result<[u8; N], DecodeError>
    ensures reads { Reads (λ bytes. bytes) N payload.now result }
{
    if payload.len() != N {
        return Err(DecodeError::InvalidNumber {
            expected: N,
            received: payload.len(),
        });
    }
    let mut bytes = [0; N];
    bytes.copy_from_slice(payload);
    Ok(bytes)
}

/// Writes `bytes` at the start of `buf` and leaves the rest unchanged. Returns `BufferTooSmall`,
/// and leaves all of `buf` unchanged, if `buf` has fewer than `N` bytes.
fn write_front<const N: usize>(buf: &mut [u8], bytes: [u8; N]) -> Result<(), DecodeError>
    ensures writes { Writes bytes.entry N buf.old buf.new result }
{
    if buf.len() < N {
        return Err(DecodeError::BufferTooSmall {
            buffer_len: buf.len(),
            value_len: N,
        });
    }
    buf[..N].copy_from_slice(&bytes);
    Ok(())
}
