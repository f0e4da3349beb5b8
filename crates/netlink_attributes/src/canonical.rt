//! Checking in place whether a block is canonical.

ghost use Rattle.std.specs.Prelude.{◌≡◌, ◌↔◌, ◌≤◌, ◌<◌, ◌^◌, IsTrue, drop, take, length, replicate};
ghost use Rattle.netlink_attributes.specs.Attribute.{padding};
ghost use Rattle.netlink_attributes.specs.Block.{IsCanonicalBlock};

use crate::align::nla_align;
use crate::iterator::NlasIterator;

/// Returns whether the bytes are a canonical block: attributes one after another, each with all of
/// its padding, as zeros.
///
/// The empty slice is one. A kind may have any of its 16 bits. Does not allocate.
pub fn is_canonical_nlas(bytes: &[u8]) -> bool
    ensures canonical { IsTrue result ↔ IsCanonicalBlock bytes.now }
{
    for item in NlasIterator::new(bytes) {
        match item {
            Ok(nla) => {
                let size = nla.length() as usize;
                if !is_zero_padded(nla.into_inner(), size) {
                    return false;
                }
            }
            Err(_) => return false,
        }
    }
    true
}

/// Returns whether zeros follow the first `size` bytes, up to a multiple of 4. Requires that there
/// are at least `size` bytes, and that `size` is less than 2^16.
#[inline(always)]
pub fn is_zero_padded(bytes: &[u8], size: usize) -> bool
    requires inside { (size ≤ length bytes.now) × (size < 2 ^ 16) }
    ensures { IsTrue result
        ↔ (take (padding size) (drop size bytes.now) ≡ replicate (padding size) 0) }
{
    let end = nla_align(size);
    end <= bytes.len() && are_zeros(&bytes[size..end])
}

/// Returns whether each byte is 0.
#[inline(always)]
fn are_zeros(bytes: &[u8]) -> bool
    ensures { IsTrue result ↔ (bytes.now ≡ replicate (length bytes.now) 0) }
{
    bytes.iter().all(|byte| *byte == 0)
}
