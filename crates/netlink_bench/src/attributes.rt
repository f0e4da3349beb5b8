//! Blocks of attributes.

use crate::output::hand_out;
use netlink_packet_core::{
    DecodeError, NlasIterator, append_nla, is_canonical_nlas, normalize_nlas,
};
use std::alloc::Global;

/// Walks a block. Returns the sum of the sizes of the values.
#[unsafe(no_mangle)]
pub extern "C" fn attributes_walk(_alloc: Global, block: &[u8]) -> usize {
    let mut sum = 0usize;
    for item in NlasIterator::new(block) {
        match item {
            Ok(nla) => sum = sum.wrapping_add(nla.value().len()),
            Err(_) => return 0,
        }
    }
    sum
}

/// Writes the length field, the kind and the value of each attribute of a block.
#[unsafe(no_mangle)]
pub extern "C" fn attributes_walk_output(alloc: Global, block: &[u8], out: &mut [u8]) -> usize {
    fields(alloc, block).map_or(0, |bytes| hand_out(bytes, out))
}

fn fields(alloc: Global, block: &[u8]) -> Result<Vec<u8>, DecodeError> {
    let mut fields = Vec::new(alloc);
    for item in NlasIterator::new(block) {
        let nla = item?;
        fields.extend_from_slice(&nla.length().to_ne_bytes())?;
        fields.extend_from_slice(&nla.raw_kind().to_ne_bytes())?;
        fields.extend_from_slice(nla.value())?;
    }
    Ok(fields)
}

/// Appends each attribute of a block to a new one. Returns its size.
#[unsafe(no_mangle)]
pub extern "C" fn attributes_append(alloc: Global, block: &[u8]) -> usize {
    appended(alloc, block).map_or(0, |bytes| bytes.len())
}

/// Writes a block to which each attribute of another was appended.
#[unsafe(no_mangle)]
pub extern "C" fn attributes_append_output(alloc: Global, block: &[u8], out: &mut [u8]) -> usize {
    appended(alloc, block).map_or(0, |bytes| hand_out(bytes, out))
}

#[inline(always)]
fn appended(alloc: Global, block: &[u8]) -> Result<Vec<u8>, DecodeError> {
    let mut copy = Vec::new(alloc);
    for item in NlasIterator::new(block) {
        let nla = item?;
        append_nla(alloc, &mut copy, nla.raw_kind(), nla.value())?;
    }
    Ok(copy)
}

/// Returns 1 if the block is canonical.
#[unsafe(no_mangle)]
pub extern "C" fn attributes_are_canonical(_alloc: Global, block: &[u8]) -> usize {
    is_canonical_nlas(block) as usize
}

/// Returns the size of the canonical block.
#[unsafe(no_mangle)]
pub extern "C" fn attributes_normalize(alloc: Global, block: &[u8]) -> usize {
    normalize_nlas(alloc, block).map_or(0, |bytes| bytes.len())
}

/// Writes the canonical block.
#[unsafe(no_mangle)]
pub extern "C" fn attributes_normalize_output(
    alloc: Global,
    block: &[u8],
    out: &mut [u8],
) -> usize {
    normalize_nlas(alloc, block).map_or(0, |bytes| hand_out(bytes, out))
}
