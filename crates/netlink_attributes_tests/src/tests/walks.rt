//! Walks, what blocks are normalized to, and where a value is.

use super::TWO;
use super::calls::prints_as;
use netlink_attributes::{NlaBuffer, NlasIterator, nla_place, nlas_fault, normalize_nlas};
use std::alloc::{AllocError, Global};

/// An attribute without a value, and then a length field less than 4.
const DAMAGED: &[u8] = &[4, 0, 1, 0, 3, 0, 7, 0, 0xff];

/// A block, the kind and size of each attribute, their values, and the error text.
type Row = (
    &'static [u8],
    &'static [(u16, usize)],
    &'static [u8],
    &'static str,
);

const WALKS: [Row; 9] = [
    (&[], &[], &[], ""),
    (&[5, 0, 1, 0, 0xaa], &[(1, 1)], &[0xaa], ""),
    (&[5, 0, 1, 0, 0xaa, 9, 9], &[(1, 1)], &[0xaa], ""),
    (
        &[5, 0, 1, 0],
        &[],
        &[],
        "buffer has length: 4, but the NLA is 5 bytes",
    ),
    (
        &[5, 0, 1],
        &[],
        &[],
        "buffer has length 3, but an NLA header is 4 bytes",
    ),
    (&TWO, &[(1, 1), (2, 4)], &[0xaa, 1, 2, 3, 4], ""),
    (
        DAMAGED,
        &[(1, 0)],
        &[],
        "NLA has invalid length: 3 (should be at least 4 bytes)",
    ),
    (
        &[5, 0, 1, 0, 0xaa, 0, 0, 0, 4],
        &[(1, 1)],
        &[0xaa],
        "buffer has length 1, but an NLA header is 4 bytes",
    ),
    (
        &[8, 0, 6, 0x40, 0, 0, 0x0e, 0x10],
        &[(0x4006, 4)],
        &[0, 0, 0x0e, 0x10],
        "",
    ),
];

/// Returns whether a walk yields attributes of these kinds and sizes, with these values one after
/// another, and then an error with this text, or the end if the text is empty.
fn walks_as(alloc: Global, row: Row) -> bool {
    match walked(alloc, row.0) {
        Ok((kinds, values, text)) => {
            kinds.as_slice() == row.1 && values.as_slice() == row.2 && text.as_str() == row.3
        }
        Err(_) => false,
    }
}

#[test]
fn walks_give_attributes_and_then_the_fault(rt: HostRuntime) {
    for row in WALKS {
        assert!(rt; walks_as(rt.alloc(), row));
    }
}

/// Returns whether the error of a block has this text, or there is none and the text is empty.
fn has_fault(alloc: Global, bytes: &[u8], text: &str) -> bool {
    match nlas_fault(bytes) {
        Some(cause) => prints_as(alloc, &cause, text),
        None => text.is_empty(),
    }
}

#[test]
fn the_fault_of_a_walk_is_found(rt: HostRuntime) {
    for (bytes, _, _, fault) in WALKS {
        assert!(rt; has_fault(rt.alloc(), bytes, fault));
    }
}

/// Returns the kind and size of each attribute, their values, and the error text.
fn walked(alloc: Global, bytes: &[u8]) -> Result<(Vec<(u16, usize)>, Vec<u8>, String), AllocError> {
    let mut found = Vec::new(alloc);
    let mut values = Vec::new(alloc);
    let mut text = String::new(alloc);
    for item in NlasIterator::new(bytes) {
        match item {
            Ok(nla) => {
                found.push((nla.raw_kind(), nla.value().len()))?;
                values.extend_from_slice(nla.value())?;
            }
            Err(fault) => text = fault.to_string(alloc)?,
        }
    }
    Ok((found, values, text))
}

/// Returns what the walk yields next, if that is an attribute.
fn next_view<'a>(walk: &mut NlasIterator<&'a [u8]>) -> Option<NlaBuffer<&'a [u8]>> {
    match walk.next() {
        Some(Ok(nla)) => Some(nla),
        _ => None,
    }
}

/// Returns whether the walk yields an error next.
fn is_fault_next(walk: &mut NlasIterator<&[u8]>) -> bool {
    matches!(walk.next(), Some(Err(_)))
}

/// Returns whether the walk is at its end.
fn is_at_end(walk: &mut NlasIterator<&[u8]>) -> bool {
    walk.next().is_none()
}

#[test]
fn a_walk_ends_for_good(rt: HostRuntime) {
    let mut walk = NlasIterator::new(&[3, 0, 1, 0]);
    let start = walk;
    assert!(rt; is_fault_next(&mut walk));
    assert!(rt; is_at_end(&mut walk));
    assert!(rt; is_at_end(&mut walk));
    assert!(rt; walk == NlasIterator::new(&[]));
    assert!(rt; start != walk);
}

/// Returns whether both are the same attribute, of kind 2.
fn are_second(one: Option<NlaBuffer<&[u8]>>, other: Option<NlaBuffer<&[u8]>>) -> bool {
    match (one, other) {
        (Some(one), Some(other)) => {
            one == other && one.check_buffer_length().is_ok() && one.raw_kind() == 2
        }
        _ => false,
    }
}

#[test]
fn a_walk_is_copied(rt: HostRuntime) {
    let mut walk = NlasIterator::new(&TWO);
    assert!(rt; next_view(&mut walk).is_some());
    let mut copy = walk;
    assert!(rt; copy == walk);
    assert!(rt; are_second(next_view(&mut copy), next_view(&mut walk)));
    assert!(rt; is_at_end(&mut copy) && is_at_end(&mut walk));
}

/// Blocks, and what they are normalized to.
const NORMALIZED: [(&[u8], &[u8]); 4] = [
    (&[], &[]),
    (&[5, 0, 1, 0, 0xaa], &[5, 0, 1, 0, 0xaa, 0, 0, 0]),
    (
        &[5, 0, 1, 0, 0xaa, 0x11, 0x22, 0x33, 4, 0, 6, 0xc0],
        &[5, 0, 1, 0, 0xaa, 0, 0, 0, 4, 0, 6, 0xc0],
    ),
    (&TWO, &TWO),
];

/// Returns whether a block is normalized to the expected one.
fn is_normalized_to(alloc: Global, bytes: &[u8], expected: &[u8]) -> bool {
    match normalize_nlas(alloc, bytes) {
        Ok(block) => block.as_slice() == expected,
        Err(_) => false,
    }
}

/// Returns whether normalizing a block ends with the error of this text.
fn is_refused(alloc: Global, bytes: &[u8], text: &str) -> bool {
    match normalize_nlas(alloc, bytes) {
        Ok(_) => false,
        Err(fault) => prints_as(alloc, &fault, text),
    }
}

#[test]
fn blocks_are_normalised(rt: HostRuntime) {
    for (bytes, block) in NORMALIZED {
        assert!(rt; is_normalized_to(rt.alloc(), bytes, block));
    }
}

#[test]
fn a_damaged_block_is_not_normalised(rt: HostRuntime) {
    let text = "NLA has invalid length: 3 (should be at least 4 bytes)";
    assert!(rt; is_refused(rt.alloc(), DAMAGED, text));
}

/// A value, the padding after it overwritten, and then an error.
const OVERWRITTEN: &[u8] = &[5, 0, 1, 0, 0xaa, 1, 2, 3, 3, 0, 7, 0];

/// Blocks and indexes, and where the value is.
const PLACES: [(&[u8], usize, Option<(usize, usize)>); 8] = [
    (&TWO, 0, Some((4, 5))),
    (&TWO, 1, Some((12, 16))),
    (&TWO, 2, None),
    (&TWO, usize::MAX, None),
    (DAMAGED, 0, Some((4, 4))),
    (DAMAGED, 1, None),
    (OVERWRITTEN, 0, Some((4, 5))),
    (&[], 0, None),
];

#[test]
fn values_have_places(rt: HostRuntime) {
    for (bytes, index, place) in PLACES {
        assert!(rt; nla_place(bytes, index) == place);
    }
}
