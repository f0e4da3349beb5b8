//! Writing blocks of attributes.

ghost use Rattle.std.specs.Prelude.{◌≡◌, ◌↔◌, ◌+◌, ◌^◌, ◌<◌, ◌≤◌, ◌++◌, ◌⊎◌, List, [], None, Some, IfErr, IfOk, IsOk, MatchResult, OnErr, OnOk, length, replicate, vec_len, vec_capacity};
ghost use Rattle.netlink_bytes.specs.Numbers.{bytes_le};
ghost use Rattle.netlink_bytes.specs.declared.error.DecodeError.{DecodeError};
ghost use Rattle.netlink_bytes.specs.Storage.{put_at};
ghost use Rattle.netlink_attributes.specs.Attribute.{Attribute, padded, value_max};
ghost use Rattle.netlink_attributes.specs.Block.{canonical_block, filled, IsCanonicalBlock};
ghost use Rattle.netlink_attributes.specs.Nla.{attribute_with};
ghost use Rattle.netlink_attributes.specs.Walk.{Walk};

use crate::align::nla_align;
use crate::canonical::is_canonical_nlas;
use crate::constants::NLA_HEADER_SIZE;
use crate::fault::nlas_fault;
use crate::iterator::NlasIterator;
use netlink_bytes::{DecodeError, copy_of};
use std::alloc::{AllocError, Global};

/// Returns the canonical block for the bytes: the attributes that walking them yields, each with
/// its kind unchanged and padded with zeros.
///
/// Copies a block that is already canonical. For any other bytes, first checks the walk and,
/// without allocating, returns the error that ends it, if there is one (`NlaBufferTooSmall`,
/// `NlaLengthMismatch` or `NlaInvalidLength`). Otherwise allocates once, for the size of the block.
/// Does not allocate if `bytes` is empty. Returns `OutOfMemory` if the allocation fails.
pub fn normalize_nlas(alloc: Global, bytes: &[u8]) -> Result<Vec<u8>, DecodeError>
    ensures ok { IfOk result
        (λ v. (all : List Attribute) × Walk bytes.now all None × (v.items ≡ canonical_block all)) }
    ensures err { IfErr result
        (λ e. (e ≡ DecodeError.OutOfMemory)
        ⊎ ((all : List Attribute) × Walk bytes.now all (Some e))) }

    // which of the two, by the walk of the bytes
    ensures writes { (all : List Attribute) → Walk bytes.now all None
        → MatchResult result (λ v. v.items ≡ canonical_block all)
        (λ e. e ≡ DecodeError.OutOfMemory) }
    ensures fault { (all : List Attribute) (fault : DecodeError) → Walk bytes.now all (Some fault)
        → result ≡ Err fault }
    ensures empty { bytes.now ≡ [] → IsOk result }

    // canonical bytes are returned unchanged, and no others are
    ensures fixed { IsCanonicalBlock bytes.now
        → MatchResult result (λ v. v.items ≡ bytes.now) (λ e. e ≡ DecodeError.OutOfMemory) }
    ensures canonical { IfOk result (λ v. IsCanonicalBlock v.items) }
    ensures unchanged { IfOk result (λ v. (v.items ≡ bytes.now) ↔ IsCanonicalBlock bytes.now) }
{
    if is_canonical_nlas(bytes) {
        return Ok(copy_of(alloc, bytes)?);
    }
    match nlas_fault(bytes) {
        Some(fault) => Err(fault),
        None => rewritten(alloc, bytes),
    }
}

/// Returns the encoding of the attributes of a walk, with one allocation: a copy of the bytes whose
/// padding is then set to zeros. Returns the error that ends the walk, if there is one, and
/// `OutOfMemory` if the allocation fails.
fn rewritten(alloc: Global, bytes: &[u8]) -> Result<Vec<u8>, DecodeError>
    ensures { MatchResult result
        (λ v. (all : List Attribute) × Walk bytes.now all None × (v.items ≡ canonical_block all))
        (λ e. (e ≡ DecodeError.OutOfMemory)
        ⊎ ((all : List Attribute) × Walk bytes.now all (Some e))) }
{
    let mut block = filled_copy(alloc, bytes)?;
    let mut start = 0;
    for item in NlasIterator::new(bytes) {
        match item {
            Ok(nla) => {
                let size = nla.length() as usize;
                let end = start + size;
                start += nla_align(size);
                clear_bytes(&mut block, end, start - end);
            }
            Err(damage) => return Err(damage),
        }
    }
    Ok(block)
}

/// Returns a copy of the bytes and zeros up to a multiple of 4, with one allocation. Returns
/// `AllocError` if that fails.
fn filled_copy(alloc: Global, bytes: &[u8]) -> Result<Vec<u8>, AllocError>
    ensures { IfOk result (λ v. v.items ≡ filled bytes.now) }
{
    let size = nla_align(bytes.len());
    let mut copy = Vec::with_capacity(alloc, size)?;
    copy.extend_from_slice(bytes)?;
    append_padding(&mut copy, size - bytes.len())?;
    Ok(copy)
}

/// Sets fewer than 4 bytes at `at` to zero. Stores for each count are faster than a loop.
#[inline(always)]
fn clear_bytes(bytes: &mut [u8], at: usize, count: usize)
    requires few { count < 4 }
    requires inside { at + count ≤ length bytes.old }
    ensures { bytes.new ≡ put_at bytes.old at (replicate count 0) }
{
    match count {
        0 => {}
        1 => bytes[at..at + 1].copy_from_slice(&[0]),
        2 => bytes[at..at + 2].copy_from_slice(&[0, 0]),
        _ => bytes[at..at + 3].copy_from_slice(&[0, 0, 0]),
    }
}

/// Appends fewer than 4 zeros, such as the padding of an attribute or of a frame. Requires
/// `count < 4`.
///
/// Does not allocate if there is room. Otherwise allocates with the vector's own allocator and, if
/// that fails, returns an error and leaves the vector unchanged.
#[inline(always)]
pub fn append_padding(bytes: &mut Vec<u8>, count: usize) -> Result<(), AllocError>
    requires few { count < 4 }
    ensures ok { OnOk result (bytes.new.items ≡ bytes.old.items ++ replicate count 0) }
    ensures room { vec_len bytes.old + count ≤ vec_capacity bytes.old → IsOk result }
    ensures unchanged { OnErr result (bytes.new.items ≡ bytes.old.items) }
{
    bytes.reserve(count)?;
    push_padding(bytes, count);
    Ok(())
}

/// Appends an attribute to a block, with its kind unchanged and padded with zeros.
///
/// Requires that the value has at most `NLA_VALUE_MAX` bytes. Does not allocate if the block has
/// room for the attribute and its padding. Otherwise allocates with the block's own allocator and,
/// if that fails, returns `OutOfMemory` and leaves the block unchanged.
#[inline(always)]
#[tactic(auto, using(crate::specs::Sizes::written_sizes))]
pub fn append_nla(
    _alloc: Global,
    block: &mut Vec<u8>,
    kind: u16,
    value: &[u8],
) -> Result<(), DecodeError>
    requires fits { length value.now ≤ value_max }
    ensures ok { OnOk result
        (block.new.items ≡ block.old.items ++ padded (attribute_with kind value.now)) }
    ensures err { IfErr result
        (λ e. (e ≡ DecodeError.OutOfMemory) × (block.new.items ≡ block.old.items)) }
    ensures room { vec_len block.old + length (padded (attribute_with kind value.now))
        ≤ vec_capacity block.old → IsOk result }
{
    let size = value.len() + NLA_HEADER_SIZE;
    let whole = nla_align(size);
    make_room(block, whole)?;
    push_header(block, size as u16, kind);
    block.extend_from_slice(value)?;
    push_padding(block, whole - size);
    Ok(())
}

/// The bytes for which an allocation makes room at least, so that a block of few attributes is
/// allocated once.
const LEAST_ROOM: usize = 256;

/// Makes room for `more` bytes. Returns `AllocError` if the allocation fails. Does not allocate if
/// there is room.
#[inline(always)]
fn make_room(bytes: &mut Vec<u8>, more: usize) -> Result<(), AllocError>
    ensures items { bytes.new.items ≡ bytes.old.items }
    ensures len { vec_len bytes.new ≡ vec_len bytes.old }
    ensures ok { OnOk result (vec_len bytes.new + more ≤ vec_capacity bytes.new) }
    ensures room { vec_len bytes.old + more ≤ vec_capacity bytes.old → IsOk result }
{
    if more <= bytes.capacity() - bytes.len() {
        return Ok(());
    }
    allocate_room(bytes, more)
}

/// Allocates room for `more` bytes, and for `LEAST_ROOM` if that is possible. Not inlined, so that
/// the code of a loop that appends stays short.
#[cold]
#[inline(never)]
fn allocate_room(bytes: &mut Vec<u8>, more: usize) -> Result<(), AllocError>
    ensures items { bytes.new.items ≡ bytes.old.items }
    ensures len { vec_len bytes.new ≡ vec_len bytes.old }
    ensures ok { OnOk result (vec_len bytes.new + more ≤ vec_capacity bytes.new) }
{
    if more < LEAST_ROOM && bytes.reserve(LEAST_ROOM).is_ok() {
        return Ok(());
    }
    bytes.reserve(more)
}

/// Appends an attribute header, for which there is room.
#[inline(always)]
fn push_header(bytes: &mut Vec<u8>, length: u16, kind: u16)
    requires { vec_len bytes.old + 4 ≤ vec_capacity bytes.old }
    ensures items { bytes.new.items ≡ bytes.old.items ++ (bytes_le length 2 ++ bytes_le kind 2) }
    ensures len { vec_len bytes.new ≡ vec_len bytes.old + 4 }
    ensures capacity { vec_capacity bytes.new ≡ vec_capacity bytes.old }
{
    let [length_low, length_high, kind_low, kind_high] = attribute_header(length, kind);
    bytes.push_reserved(length_low);
    bytes.push_reserved(length_high);
    bytes.push_reserved(kind_low);
    bytes.push_reserved(kind_high);
}

/// Appends fewer than 4 zeros, for which there is room. Stores for each count are faster than a
/// loop.
#[inline(always)]
fn push_padding(bytes: &mut Vec<u8>, count: usize)
    requires few { count < 4 }
    requires room { vec_len bytes.old + count ≤ vec_capacity bytes.old }
    ensures { bytes.new.items ≡ bytes.old.items ++ replicate count 0 }
{
    if count > 0 {
        bytes.push_reserved(0);
        if count > 1 {
            bytes.push_reserved(0);
            if count > 2 {
                bytes.push_reserved(0);
            }
        }
    }
}

/// Returns the four bytes of an attribute header.
#[tactic(auto, unfolding(netlink_bytes::specs::Numbers::bytes_le))]
#[inline(always)]
pub(crate) fn attribute_header(length: u16, kind: u16) -> [u8; 4]
    ensures { result ≡ bytes_le length 2 ++ bytes_le kind 2 }
{
    let [length_low, length_high] = length.to_le_bytes();
    let [kind_low, kind_high] = kind.to_le_bytes();
    [length_low, length_high, kind_low, kind_high]
}
