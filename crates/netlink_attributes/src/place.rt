//! The location of an attribute in its block, and overwriting its value in place.

ghost use Rattle.std.specs.Prelude.{◌≡◌, ◌≤◌, ◌↔◌, List, Option, IfSome, IsTrue, OnSome, IsNone, false, length};
ghost use Rattle.std.specs.Borrow.{LendsSo, Array, sem, u8 as byte};
ghost use Rattle.netlink_bytes.specs.declared.error.DecodeError.{DecodeError};
ghost use Rattle.netlink_attributes.specs.Attribute.{Attribute};
ghost use Rattle.netlink_attributes.specs.Places.{HasValueOf, IsPlace, IsRange, IsValue, IsWritten};
ghost use Rattle.netlink_attributes.specs.Walk.{Walk};

use crate::constants::NLA_HEADER_SIZE;
use crate::iterator::NlasIterator;

/// The range of a value that does not exist: its start is after its end.
const NO_RANGE: (usize, usize) = (1, 0);

/// Returns where the value of the attribute at `index` starts and ends, in bytes from the start of
/// the block.
///
/// `index` counts from 0 and includes attributes before an error. Returns `None` if and only if
/// there is no such attribute. Does not allocate.
pub fn nla_place(block: &[u8], index: usize) -> Option<(usize, usize)>
    ensures place { IsPlace block.now index result }
    ensures inside { IfSome result
        (λ place. (4 ≤ place.0) × (place.0 ≤ place.1) × (place.1 ≤ length block.now)) }
{
    let mut left = index;
    for item in NlasIterator::new(block) {
        match item {
            Ok(nla) => {
                if left == 0 {
                    let size = nla.length() as usize;
                    let start = block.len() - nla.into_inner().len();
                    return Some((start + NLA_HEADER_SIZE, start + size));
                }
                left -= 1;
            }
            Err(_) => return None,
        }
    }
    None
}

/// Overwrites the value of the attribute at `index`, which counts from 0, even if the block is
/// malformed further on.
///
/// Returns true if and only if there is such an attribute and its value has the same size as
/// `value`. Otherwise the block is unchanged. Does not allocate.
pub fn write_nla_value(block: &mut [u8], index: usize, value: &[u8]) -> bool
    ensures succeeds { (all : List Attribute) (fault : Option DecodeError) → Walk block.old all fault
        → IsTrue result ↔ HasValueOf all index (length value.now) }
    ensures written { IsTrue result → IsWritten block.old index value.now block.new }
    ensures unchanged { result ≡ false → block.new ≡ block.old }
{
    match nla_place(&block[..], index) {
        Some((start, end)) if end - start == value.len() => {
            block[start..end].copy_from_slice(value);
            true
        }
        _ => false,
    }
}

/// Mutably borrows the value of the attribute at `index`: its bytes become what is written, and no
/// other bytes change.
///
/// `index` counts from 0 and includes attributes before an error. Returns `None`, and leaves the
/// block unchanged, if and only if there is no such attribute. Does not allocate.
///
/// A generated proof of a caller knows whether the attribute exists, what the reference held, and
/// that the block keeps its length, but not which bytes the block then holds. If your proof needs
/// those too, use `write_nla_value`, or `nla_place` followed by `block[start..end]`, or
/// `NlaBuffer::value_mut` for the bytes of one attribute.
pub fn nlas_value_mut(block: &mut [u8], index: usize) -> Option<&mut [u8]>
    ensures* writes_back { sem 𝓛 (LendsSo (Array byte 0) (Array byte 0) block.entry result
        (λ new value. OnSome result (IsWritten block.old index value new))
        (λ new. new ≡ block.old)) }
    ensures none { (all : List Attribute) (fault : Option DecodeError) → Walk block.old all fault
        → IsNone result ↔ (length all ≤ index) }
    ensures value { IfSome result (λ value. IsValue block.old index value.now) }
{
    let (start, end, block) = ranged(block, index);
    if start > end {
        return None;
    }
    Some(&mut block[start..end])
}

/// Returns where the value of the attribute at `index` starts and ends, and the block itself. A
/// function that returns a reborrowed block is proved by hand, which is short for two numbers and
/// long for an `Option`.
fn ranged(block: &mut [u8], index: usize) -> (usize, usize, &mut [u8])
    ensures same { result.2.ghost_name ≡ block.entry.ghost_name }
    ensures bytes { result.2.now ≡ block.old }
    ensures range { IsRange block.old index result.0 result.1 }
    ensures inside { result.1 ≤ length block.old }
{
    let (start, end) = value_range(&block[..], index);
    (start, end, block)
}

/// Returns where that value starts and ends, or `NO_RANGE` if there is no such attribute.
fn value_range(block: &[u8], index: usize) -> (usize, usize)
    ensures range { IsRange block.now index result.0 result.1 }
    ensures inside { result.1 ≤ length block.now }
{
    nla_place(block, index).unwrap_or(NO_RANGE)
}
