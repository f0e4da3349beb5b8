//! Mutably borrowed values: what is found, what is written, and what walking the block then yields.

use super::TWO;
use super::calls::{is_held, is_replaced, walks_as};
use netlink_attributes::{nla_find, nla_find_raw, nlas_value_mut, write_nla_value};

/// An attribute without a value, and then a length field less than 4.
const DAMAGED: [u8; 9] = [4, 0, 1, 0, 3, 0, 7, 0, 0xff];

#[test]
fn a_value_is_written_in_place(rt: HostRuntime) {
    let mut block = TWO;
    assert!(rt; is_held(&mut block, 1, &[1, 2, 3, 4]));
    assert!(rt; is_replaced(&mut block, 1, &[5, 6, 7, 8]));
    assert!(rt; walks_as(&block, &[(1, &[0xaa]), (2, &[5, 6, 7, 8])], None));
    assert!(rt; is_replaced(&mut block, 1, &[8, 0, 2, 0]));
    assert!(rt; walks_as(&block, &[(1, &[0xaa]), (2, &[8, 0, 2, 0])], None));
}

/// Overwrites the value at the index. Returns whether there is one of this size.
fn is_written(block: &mut [u8], index: usize, value: &[u8]) -> bool {
    write_nla_value(block, index, value)
}

#[test]
fn a_value_is_written_over(rt: HostRuntime) {
    let mut block = TWO;
    assert!(rt; is_written(&mut block, 1, &[8, 0, 2, 0]));
    assert!(rt; block == [5, 0, 1, 0, 0xaa, 0, 0, 0, 8, 0, 2, 0, 8, 0, 2, 0]);
    assert!(rt; walks_as(&block, &[(1, &[0xaa]), (2, &[8, 0, 2, 0])], None));
    assert!(rt; is_written(&mut block, 0, &[0xbb]));
    assert!(rt; walks_as(&block, &[(1, &[0xbb]), (2, &[8, 0, 2, 0])], None));
}

/// An index and a value that cannot be written there.
const REFUSED: [(usize, &[u8]); 5] = [
    (1, &[1, 2, 3]),
    (1, &[1, 2, 3, 4, 5]),
    (2, &[1, 2, 3, 4]),
    (2, &[]),
    (usize::MAX, &[]),
];

#[test]
fn a_value_of_another_size_is_not_written(rt: HostRuntime) {
    for (index, value) in REFUSED {
        let mut block = TWO;
        assert!(rt; !is_written(&mut block, index, value));
        assert!(rt; block == TWO);
    }
}

#[test]
fn an_error_is_not_written_over(rt: HostRuntime) {
    let mut block = DAMAGED;
    assert!(rt; is_written(&mut block, 0, &[]));
    assert!(rt; !is_written(&mut block, 1, &[]));
    assert!(rt; block == DAMAGED);
}

/// Returns whether the block has no value at the index that could be written.
fn is_none_lent(block: &mut [u8], index: usize) -> bool {
    nlas_value_mut(block, index).is_none()
}

#[test]
fn no_value_leaves_the_block(rt: HostRuntime) {
    for index in [2, usize::MAX] {
        let mut block = TWO;
        assert!(rt; is_none_lent(&mut block, index));
        assert!(rt; block == TWO);
        assert!(rt; walks_as(&block, &[(1, &[0xaa]), (2, &[1, 2, 3, 4])], None));
    }
}

#[test]
fn an_empty_value_before_an_error(rt: HostRuntime) {
    let mut block = DAMAGED;
    assert!(rt; is_held(&mut block, 0, &[]));
    assert!(rt; is_none_lent(&mut block, 1));
    assert!(rt; walks_as(&block, &[(1, &[])], Some(3)));
}

#[test]
fn a_value_before_an_error(rt: HostRuntime) {
    let mut block = [5, 0, 1, 0, 0xaa, 1, 2, 3, 3, 0, 7, 0];
    assert!(rt; is_held(&mut block, 0, &[0xaa]));
    assert!(rt; is_replaced(&mut block, 0, &[0xbb]));
    assert!(rt; block == [5, 0, 1, 0, 0xbb, 1, 2, 3, 3, 0, 7, 0]);
    assert!(rt; walks_as(&block, &[(1, &[0xbb])], Some(3)));
}

/// Attributes of kind 2 with one flag bit, none and the other, and then an error.
const FLAGGED: &[u8] = &[4, 0, 2, 0x80, 4, 0, 2, 0, 4, 0, 2, 0x40, 3, 0, 7, 0];

/// Blocks and kinds, and the index of the first attribute of the kind, without its flag bits and
/// with them.
const FOUND: [(&[u8], u16, Option<usize>, Option<usize>); 9] = [
    (&TWO, 1, Some(0), Some(0)),
    (&TWO, 2, Some(1), Some(1)),
    (&TWO, 3, None, None),
    (FLAGGED, 2, Some(0), Some(1)),
    (FLAGGED, 0x8002, None, Some(0)),
    (FLAGGED, 0x4002, None, Some(2)),
    (FLAGGED, 0xc002, None, None),
    (FLAGGED, 7, None, None),
    (&[], 0, None, None),
];

/// Returns whether the first attributes of the kind are at these indexes.
fn is_found(block: &[u8], kind: u16, index: Option<usize>, raw_index: Option<usize>) -> bool {
    nla_find(block, kind) == index && nla_find_raw(block, kind) == raw_index
}

#[test]
fn the_first_of_a_kind_is_found(rt: HostRuntime) {
    for (block, kind, index, raw_index) in FOUND {
        assert!(rt; is_found(block, kind, index, raw_index));
    }
}

/// Overwrites the value of the first attribute of the kind. Returns whether there is one of this
/// size.
fn is_set(block: &mut [u8], kind: u16, value: &[u8]) -> bool {
    match nla_find(block, kind) {
        Some(index) => write_nla_value(block, index, value),
        None => false,
    }
}

/// A value is set by its kind: in the second attribute, whatever precedes it.
#[test]
fn a_value_is_set_by_its_kind(rt: HostRuntime) {
    let mut block = TWO;
    assert!(rt; is_set(&mut block, 2, &[9, 9, 9, 9]));
    assert!(rt; walks_as(&block, &[(1, &[0xaa]), (2, &[9, 9, 9, 9])], None));
}
