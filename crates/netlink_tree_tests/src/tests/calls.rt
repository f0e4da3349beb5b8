//! Calls of the library, and comparisons, in functions that are proved once. They have no
//! contracts, and most return whether the result is as expected: the proof of a test that asserts
//! that is short.

use netlink_packet_core::DecodeError;
use netlink_tree::{NlaTree, TreeFault, append_frame, is_well_formed, read_tree, write_tree};
use std::alloc::{AllocError, Global};

/// Returns whether an error prints as the text.
pub(super) fn prints_as(alloc: Global, error: &DecodeError, text: &str) -> bool {
    match error.to_string(alloc) {
        Ok(printed) => printed.as_str() == text,
        Err(_) => false,
    }
}

/// Returns whether an error of trees prints as the text.
pub(super) fn tree_fault_prints_as(alloc: Global, fault: &TreeFault, text: &str) -> bool {
    match fault.to_string(alloc) {
        Ok(printed) => printed.as_str() == text,
        Err(_) => false,
    }
}

/// Returns whether appending a frame returns the error of this text.
pub(super) fn is_not_appended(
    alloc: Global,
    datagram: &mut Vec<u8>,
    frame: &[u8],
    text: &str,
) -> bool {
    if datagram.len() % 4 != 0 {
        return false;
    }
    match append_frame(alloc, datagram, frame) {
        Ok(()) => false,
        Err(fault) => prints_as(alloc, &fault, text),
    }
}

/// Reads the trees in the bytes.
pub(super) fn read(alloc: Global, bytes: &[u8]) -> Result<Vec<NlaTree>, TreeFault> {
    read_tree(alloc, bytes)
}

/// Returns whether `==` says that two lists of trees are the same.
pub(super) fn are_same(one: &[NlaTree], other: &[NlaTree]) -> bool {
    *one == *other
}

/// Returns whether reading the bytes returns the error of this text, or trees if the text is empty.
pub(super) fn has_fault(alloc: Global, bytes: &[u8], text: &str) -> bool {
    match read_tree(alloc, bytes) {
        Ok(_) => text.is_empty(),
        Err(fault) => tree_fault_prints_as(alloc, &fault, text),
    }
}

/// Returns whether the trees are well formed and written as these bytes.
pub(super) fn is_written_as(alloc: Global, trees: &[NlaTree], bytes: &[u8]) -> bool {
    if !is_well_formed(trees) {
        return false;
    }
    match write_tree(alloc, trees) {
        Ok(text) => text.as_slice() == bytes,
        Err(_) => false,
    }
}

/// Returns whether the trees are well formed, and writing them returns this many bytes or, if the
/// text is not empty, the error of this text.
pub(super) fn is_written(alloc: Global, trees: &[NlaTree], size: usize, text: &str) -> bool {
    if !is_well_formed(trees) {
        return false;
    }
    match write_tree(alloc, trees) {
        Ok(bytes) => bytes.len() == size && text.is_empty(),
        Err(fault) => size == 0 && tree_fault_prints_as(alloc, &fault, text),
    }
}

/// Returns a leaf of kind 2 whose value is `size` zeros.
pub(super) fn leaf(alloc: Global, size: usize) -> Result<Vec<NlaTree>, AllocError> {
    let value = vec![in alloc; 0; size]?;
    Ok(vec![in alloc; NlaTree::Leaf { kind: 2, value }]?)
}

/// Returns a nest of this kind.
pub(super) fn nest(
    alloc: Global,
    kind: u16,
    children: Vec<NlaTree>,
) -> Result<Vec<NlaTree>, AllocError> {
    Ok(vec![in alloc; NlaTree::Nest { kind, children }]?)
}

/// Returns the trees inside `depth` nests of kind 0x8001.
pub(super) fn nested(
    alloc: Global,
    depth: usize,
    inside: Vec<NlaTree>,
) -> Result<Vec<NlaTree>, AllocError> {
    let mut trees = inside;
    for _ in 0..depth {
        trees = nest(alloc, 0x8001, trees)?;
    }
    Ok(trees)
}
