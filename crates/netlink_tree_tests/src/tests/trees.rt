//! Trees read and written.

use crate::tests::calls::{
    are_same, has_fault, is_written, is_written_as, leaf, nest, nested, read, tree_fault_prints_as,
};
use netlink_packet_core::{DecodeError, NlasIterator};
use netlink_tree::laws::{
    faults_equal, frames_equal, frames_given, frames_hold, frames_stop, frames_total,
    frames_unique, trees_equal, trees_read_back, trees_total, trees_unique, trees_write_back,
};
use netlink_tree::{NlaTree, TreeFault, is_well_formed, read_tree, write_tree};
use std::alloc::{AllocError, Global};
use std::test::Fail;

#[test]
fn a_nest_holds_its_leaf(rt: HostRuntime) -> Result<(), Fail> {
    let alloc = rt.alloc();
    let trees = read_tree(alloc, &[9, 0, 1, 0x80, 5, 0, 2, 0, 0xaa])?;
    let value = vec![in alloc; 0xaa]?;
    let children = vec![in alloc; NlaTree::Leaf { kind: 2, value }]?;
    let same = vec![in alloc;
        NlaTree::Nest {
            kind: 0x8001,
            children
        },
    ]?;
    assert!(rt; trees == same);
    let text = write_tree(alloc, &trees)?;
    assert!(rt; text.as_slice() == [12, 0, 1, 0x80, 5, 0, 2, 0, 0xaa, 0, 0, 0].as_slice());
    Ok(())
}

/// Returns how many attributes an iterator yields, up to an error.
fn attributes_in(block: &[u8]) -> usize {
    let mut count = 0usize;
    for item in NlasIterator::new(block) {
        if item.is_ok() {
            count = count.saturating_add(1);
        }
    }
    count
}

/// Returns whether the list of the trees has room for exactly the attributes of the block. If the block
/// is damaged, there is no list.
fn has_room_for_all(alloc: Global, block: &[u8]) -> bool {
    match read_tree(alloc, block) {
        Ok(trees) => trees.capacity() == attributes_in(block),
        Err(_) => true,
    }
}

#[test]
fn a_list_has_room_for_its_attributes(rt: HostRuntime) -> Result<(), Fail> {
    // A leaf of 4 bytes, one of a byte, a nest of a leaf, and a leaf without its padding.
    let block = [
        8, 0, 1, 0, 1, 2, 3, 4, 5, 0, 2, 0, 9, 0, 0, 0, 12, 0, 3, 0x80, 8, 0, 4, 0, 5, 6, 7, 8, 6,
        0, 5, 0, 1, 2,
    ];
    assert!(rt; attributes_in(&block) == 4);
    for end in 0..=block.len() {
        assert!(rt; has_room_for_all(rt.alloc(), &block[..end]), "{end} bytes");
    }
    for at in 0..block.len() {
        for damage in [0, 3, 4, 5, 9, 255] {
            let mut damaged = block;
            damaged[at] = damage;
            assert!(rt; has_room_for_all(rt.alloc(), &damaged), "{damage} at {at}");
        }
    }
    Ok(())
}

#[test]
fn the_first_fault_is_printed(rt: HostRuntime) -> Result<(), Fail> {
    let damage = "NLA has invalid length: 3 (should be at least 4 bytes)";
    let rows: [(&[u8], &str); 3] = [
        (&[], ""),
        (&[8, 0, 1, 0x80, 3, 0, 2, 0], damage),
        (&[8, 0, 1, 0x80, 3, 0, 2, 0, 3, 0], damage),
    ];
    for (bytes, fault) in rows {
        assert!(rt; has_fault(rt.alloc(), bytes, fault));
    }
    Ok(())
}

/// Returns the headers of nests of kind 0x8001, one after another, with the lengths from `longest`
/// down to `shortest`.
fn headers(alloc: Global, shortest: u8, longest: u8) -> Result<Vec<u8>, AllocError> {
    let mut block = Vec::new(alloc);
    for length in (shortest..=longest).rev().step_by(4) {
        block.extend_from_slice(&[length, 0, 1, 0x80])?;
    }
    Ok(block)
}

/// Returns whether the bytes are read as sixteen nests, and these are written as the bytes.
fn are_sixteen_levels(alloc: Global, bytes: &[u8]) -> Result<bool, TreeFault> {
    let trees = read(alloc, bytes)?;
    let expected = nested(alloc, 16, Vec::new(alloc))?;
    Ok(are_same(&trees, &expected) && is_written_as(alloc, &trees, bytes))
}

/// Returns sixteen nests around a value of one byte.
fn damaged(alloc: Global) -> Result<Vec<u8>, AllocError> {
    let mut block = headers(alloc, 5, 65)?;
    block.push(0xff)?;
    Ok(block)
}

/// Returns whether the bytes have this size and nests that are too deep.
fn are_too_deep(alloc: Global, bytes: &[u8], size: usize) -> bool {
    bytes.len() == size && has_fault(alloc, bytes, TOO_DEEP)
}

#[test]
fn sixteen_levels_are_read(rt: HostRuntime) -> Result<(), Fail> {
    let block = headers(rt.alloc(), 4, 68)?;
    assert!(rt; are_too_deep(rt.alloc(), &block, 68));
    assert!(rt; are_sixteen_levels(rt.alloc(), block.get(4..).unwrap_or(&[]))?);
    assert!(rt; are_too_deep(rt.alloc(), &damaged(rt.alloc())?, 65));
    Ok(())
}

/// A number of nests, the size of the value of the leaf in them if there is one, and the size of
/// their encoding, or the error text.
type Written = (usize, Option<usize>, usize, &'static str);

/// Returns whether writing such trees gives that number of bytes or that error.
fn is_row(alloc: Global, row: Written) -> Result<bool, AllocError> {
    let inside = match row.1 {
        Some(size) => leaf(alloc, size)?,
        None => Vec::new(alloc),
    };
    let trees = nested(alloc, row.0, inside)?;
    Ok(is_written(alloc, &trees, row.2, row.3))
}

const LEVELS: [Written; 3] = [
    (16, None, 64, ""),
    (17, None, 0, TOO_DEEP),
    (16, Some(LONGEST + 1), 0, TOO_DEEP),
];

#[test]
fn sixteen_levels_are_written(rt: HostRuntime) -> Result<(), Fail> {
    for row in LEVELS {
        assert!(rt; is_row(rt.alloc(), row)?);
    }
    Ok(())
}

#[test]
fn both_flag_bits_are_kept(rt: HostRuntime) -> Result<(), Fail> {
    let alloc = rt.alloc();
    let trees = nest(alloc, 0xc001, Vec::new(alloc))?;
    assert!(rt; is_well_formed(&trees));
    assert!(rt; is_written_as(alloc, &trees, &[4, 0, 1, 0xc0]));
    Ok(())
}

/// The maximum size of a value in bytes: the largest 16-bit length, less a 4-byte header.
const LONGEST: usize = 65531;

const SIZES: [Written; 4] = [
    (0, Some(LONGEST), 65536, ""),
    (0, Some(LONGEST + 1), 0, TOO_LONG),
    (1, Some(65524), 65532, ""),
    (1, Some(65525), 0, TOO_LONG),
];

/// Returns a nest of 65535 bytes whose leaf lacks its padding.
fn unpadded(alloc: Global) -> Result<Vec<u8>, AllocError> {
    let mut block = vec![in alloc; 0xff, 0xff, 1, 0x80, 0xfb, 0xff, 2, 0]?;
    block.resize(65535, 0)?;
    Ok(block)
}

/// Returns whether that nest is read, but too long to be written, because its leaf then has padding.
fn padding_is_too_long(alloc: Global) -> Result<bool, TreeFault> {
    let trees = read(alloc, &unpadded(alloc)?)?;
    let expected = nested(alloc, 1, leaf(alloc, 65527)?)?;
    Ok(are_same(&trees, &expected) && is_written(alloc, &trees, 0, TOO_LONG))
}

#[test]
fn values_have_at_most_65531_bytes(rt: HostRuntime) -> Result<(), Fail> {
    for row in SIZES {
        assert!(rt; is_row(rt.alloc(), row)?);
    }
    assert!(rt; padding_is_too_long(rt.alloc())?);
    Ok(())
}

/// Returns an empty nest or an empty leaf of this kind.
fn empty_tree(alloc: Global, kind: u16, is_nest: bool) -> Result<Vec<NlaTree>, AllocError> {
    if is_nest {
        nest(alloc, kind, Vec::new(alloc))
    } else {
        let value = Vec::new(alloc);
        Ok(vec![in alloc; NlaTree::Leaf { kind, value }]?)
    }
}

#[test]
fn kinds_are_looked_at_inside(rt: HostRuntime) -> Result<(), Fail> {
    let alloc = rt.alloc();
    assert!(rt; is_well_formed(&[]));
    for (kind, is_nest, formed) in [
        (2, false, true),
        (0x4002, false, true),
        (0x8002, false, false),
        (0xc002, true, true),
        (0x7fff, true, false),
    ] {
        let trees = nested(alloc, 1, empty_tree(alloc, kind, is_nest)?)?;
        assert!(rt; is_well_formed(&trees) == formed);
    }
    Ok(())
}

/// Only calls: a law has no effect at run time, and its clause is proved.
#[test]
fn the_laws_are_called() {
    laws_of_frames();
    laws_of_trees();
}

fn laws_of_frames() {
    frames_total();
    frames_unique();
    frames_given();
    frames_hold();
    frames_stop();
    frames_equal();
}

fn laws_of_trees() {
    trees_total();
    trees_unique();
    trees_read_back();
    trees_write_back();
    trees_equal();
}

const TOO_DEEP: &str = "attributes are nested deeper than 16";

const TOO_LONG: &str = "the value of an attribute is longer than 65531 bytes";

/// The error of an allocation, converted as `?` does.
fn refused() -> TreeFault {
    TreeFault::from(AllocError)
}

/// An error of the core, converted as `?` does.
fn short() -> TreeFault {
    TreeFault::from(DecodeError::NlaBufferTooSmall {
        buffer_len: 1,
        nla_len: 4,
    })
}

/// Each error with its exact text, converted as `?` does, and told apart by `==`.
#[test]
fn texts_of_faults(rt: HostRuntime) {
    let alloc = rt.alloc();
    assert!(rt; tree_fault_prints_as(alloc, &TreeFault::TooDeep, TOO_DEEP));
    assert!(rt; tree_fault_prints_as(alloc, &TreeFault::TooLong, TOO_LONG));
    let text = "buffer has length 1, but an NLA header is 4 bytes";
    assert!(rt; tree_fault_prints_as(alloc, &short(), text));
    assert!(rt; tree_fault_prints_as(alloc, &refused(), "out of memory"));
    assert!(rt; matches!(refused(), TreeFault::Decode(DecodeError::OutOfMemory)));
    assert!(rt; are_told_apart());
}

/// Returns whether `==` distinguishes errors.
fn are_told_apart() -> bool {
    faults_equal();
    TreeFault::TooDeep == TreeFault::TooDeep
        && TreeFault::TooDeep != TreeFault::TooLong
        && refused() == TreeFault::from(AllocError)
        && refused() != short()
}
