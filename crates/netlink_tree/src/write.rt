//! Writing trees as bytes.

ghost use Rattle.std.specs.Prelude.{◌≡◌, ◌+◌, ◌-◌, ◌≤◌, ◌++◌, ◌||◌, [], true, false, Ok, MatchResult, MatchOption, OnOk, IfOk, IsOk, min, nat_lt, length};
ghost use Rattle.netlink_packet_core.specs.Attribute.{padded, value_max};
ghost use Rattle.netlink_packet_core.specs.Nla.{attribute_with};
ghost use Rattle.netlink_packet_core.specs.DecodeError.{DecodeError};
ghost use Rattle.netlink_packet_core.specs.Numbers.{bytes_le};
ghost use Rattle.netlink_packet_core.specs.Storage.{put_at};
ghost use Rattle.netlink_tree.specs.Tree.{view, views, levels, levels_inside, AreWellFormed, TreesInRange};
ghost use Rattle.netlink_tree.specs.Reading.{Trees};
ghost use Rattle.netlink_tree.specs.Writing.{written, tree_bytes, is_long, is_too_long, are_too_long, writing, IsCanonicalDeep, IsWriteFault};

use crate::fault::TreeFault;
use crate::tree::{GREATEST_DEPTH, NlaTree};
use netlink_packet_core::laws::written_walks;
use netlink_packet_core::{NLA_HEADER_SIZE, NLA_VALUE_MAX, append_nla, nla_align, put_u16};
use std::alloc::{AllocError, Global};

/// Returns the canonical block of trees, at every depth: each attribute has its kind unchanged and
/// is padded with zeros, and the value of a nest is the block of what is inside. Requires
/// well-formed trees, which `is_well_formed` checks; those from `read_tree` are well formed.
///
/// Returns `TooDeep` if an attribute is nested deeper than 16, where the outer ones have depth 1.
/// Otherwise returns `TooLong` if a value, or the block inside a nest, has more than
/// `NLA_VALUE_MAX` bytes. Does not allocate in either case. Otherwise allocates once, for the size
/// of the block, and returns `Decode` with `OutOfMemory` if that fails. Does not allocate for an
/// empty list.
pub fn write_tree(alloc: Global, trees: &[NlaTree]) -> Result<Vec<u8>, TreeFault>
    requires formed { AreWellFormed (views trees.now) }
    ensures text { MatchResult result
        (λ v. writing (views trees.now) ≡ Ok v.items)
        (IsWriteFault (views trees.now)) }
    ensures reads_back { IfOk result (λ v. Trees 16 v.items (Ok (views trees.now))) }
    ensures canonical { IfOk result (λ v. IsCanonicalDeep v.items) }
    ensures empty { trees.now ≡ [] → IsOk result }
{
    match whole_size(trees, GREATEST_DEPTH) {
        None => {
            if is_too_deep(trees, GREATEST_DEPTH) {
                return Err(TreeFault::TooDeep);
            }
            Err(TreeFault::TooLong)
        }
        Some(size) => {
            written_walks();
            bytes_of(alloc, trees, size)
        }
    }
}

/// Returns whether attributes are nested more than `limit` levels deep.
fn is_too_deep(trees: &[NlaTree], limit: usize) -> bool
    ensures { result ≡ nat_lt limit (levels (views trees.now)) }
{
    for tree in trees {
        if limit == 0 {
            return true;
        }
        if let NlaTree::Nest { children, .. } = tree {
            if is_too_deep(children, limit - 1) {
                return true;
            }
        }
    }
    false
}

/// Returns the size of the encoded trees, or `usize::MAX` if that is smaller. Returns `None` if
/// attributes are nested more than `limit` levels deep, or if a value, or the encoding inside a
/// nest, is too long.
#[tactic(auto, using(crate::proofs::TreeWriting::text_sizes))]
fn whole_size(trees: &[NlaTree], limit: usize) -> Option<usize>
    ensures { MatchOption result
        (nat_lt limit (levels (views trees.now)) || are_too_long (views trees.now) ≡ true)
        (λ n. (nat_lt limit (levels (views trees.now)) ≡ false)
        × (are_too_long (views trees.now) ≡ false)
        × (n ≡ min (length (tree_bytes (views trees.now))) usize.MAX)) }
{
    let mut size: usize = 0;
    for tree in trees {
        let value = value_size(tree, limit.checked_sub(1)?)?;
        size = size.saturating_add(nla_align(value + NLA_HEADER_SIZE));
    }
    Some(size)
}

/// Returns the size of the value that a tree is written with. Returns `None` if attributes are
/// nested in it more than `limit` levels deep, or if it or a value inside is too long.
#[inline(always)]
#[cycle(sizes)]
fn value_size(tree: &NlaTree, limit: usize) -> Option<usize>
    ensures { MatchOption result
        (nat_lt limit (levels_inside (view tree.now)) || is_too_long (view tree.now) ≡ true)
        (λ n. (nat_lt limit (levels_inside (view tree.now)) ≡ false)
        × (is_too_long (view tree.now) ≡ false) × (n ≤ value_max)
        × (n ≡ length (written (view tree.now)).value)) }
{
    match tree {
        NlaTree::Leaf { value, .. } => (value.len() <= NLA_VALUE_MAX).then_some(value.len()),
        NlaTree::Nest { children, .. } => text_size(children, limit),
    }
}

/// Returns the size of the encoded trees inside a nest. Returns `None` if attributes are nested
/// more than `limit` levels deep, or if it or a value in them is too long.
#[tactic(auto, using(crate::proofs::TreeWriting::text_sizes))]
#[cycle(sizes)]
fn text_size(trees: &[NlaTree], limit: usize) -> Option<usize>
    ensures { MatchOption result
        (nat_lt limit (levels (views trees.now))
        || (are_too_long (views trees.now) || is_long (tree_bytes (views trees.now))) ≡ true)
        (λ n. (nat_lt limit (levels (views trees.now)) ≡ false)
        × (are_too_long (views trees.now) ≡ false) × (n ≤ value_max)
        × (n ≡ length (tree_bytes (views trees.now)))) }
{
    let mut size = 0;
    for tree in trees {
        let value = value_size(tree, limit.checked_sub(1)?)?;
        size += nla_align(value + NLA_HEADER_SIZE);
        if size > NLA_VALUE_MAX {
            return None;
        }
    }
    Some(size)
}

/// Returns the encoded trees, in a block that is allocated with room for `size` bytes. Requires
/// that no value is too long, and that `size` is 0 if there are no trees. Returns `Decode` with
/// `OutOfMemory` if an allocation fails.
fn bytes_of(alloc: Global, trees: &[NlaTree], size: usize) -> Result<Vec<u8>, TreeFault>
    requires short { are_too_long (views trees.now) ≡ false }
    requires size { trees.now ≡ [] → size ≡ 0 }
    ensures text { MatchResult result (λ v. v.items ≡ tree_bytes (views trees.now))
        (λ e. e ≡ TreeFault.Decode DecodeError.OutOfMemory) }
    ensures in_range { OnOk result (TreesInRange (views trees.now)) }
    ensures empty { trees.now ≡ [] → IsOk result }
{
    let mut block = Vec::with_capacity(alloc, size)?;
    append_trees(alloc, &mut block, trees)?;
    Ok(block)
}

/// Appends the encoded trees to a block. Requires that no value is too long. Returns `AllocError`
/// if an allocation fails.
#[cycle(writing)]
fn append_trees(alloc: Global, block: &mut Vec<u8>, trees: &[NlaTree]) -> Result<(), AllocError>
    requires { are_too_long (views trees.now) ≡ false }
    ensures ok { OnOk result (block.new.items ≡ block.old.items ++ tree_bytes (views trees.now)) }
    ensures in_range { OnOk result (TreesInRange (views trees.now)) }
    ensures empty { trees.now ≡ [] → IsOk result }
{
    for tree in trees {
        match tree {
            NlaTree::Leaf { kind, value } => append_attribute(alloc, block, *kind, value)?,
            NlaTree::Nest { kind, children } => append_nest(alloc, block, *kind, children)?,
        }
    }
    Ok(())
}

/// Appends an attribute to a block, padded with zeros. Requires that its value is not too long.
/// Returns `AllocError` if an allocation fails. A value of 4 bytes, which most numbers are, is
/// appended at once with its header.
#[inline(always)]
#[tactic(auto, unfolding(netlink_packet_core::specs::Numbers::bytes_le))]
fn append_attribute(
    alloc: Global,
    block: &mut Vec<u8>,
    kind: u16,
    value: &[u8],
) -> Result<(), AllocError>
    requires fits { length value.now ≤ value_max }
    ensures ok { OnOk result
        (block.new.items ≡ block.old.items ++ padded (attribute_with kind value.now)) }
{
    if let [a, b, c, d] = value {
        let [low, high] = kind.to_le_bytes();
        return block.extend_from_slice(&[8, 0, low, high, *a, *b, *c, *d]);
    }
    match append_nla(alloc, block, kind, value) {
        Ok(()) => Ok(()),
        Err(_) => Err(AllocError),
    }
}

/// Appends an encoded nest to a block: its header, and then what is inside, whose size is written
/// into the header afterward. Requires that no value is too long, and that what is inside has at
/// most `NLA_VALUE_MAX` bytes. Returns `AllocError` if an allocation fails.
#[cycle(writing)]
fn append_nest(
    alloc: Global,
    block: &mut Vec<u8>,
    kind: u16,
    children: &[NlaTree],
) -> Result<(), AllocError>
    requires inside { are_too_long (views children.now) ≡ false }
    requires fits { length (tree_bytes (views children.now)) ≤ value_max }
    ensures ok { OnOk result
        (block.new.items ≡ block.old.items
        ++ padded (attribute_with kind (tree_bytes (views children.now)))) }
    ensures in_range { OnOk result (TreesInRange (views children.now)) }
{
    let start = block.len();
    append_attribute(alloc, block, kind, &[])?;
    append_trees(alloc, block, children)?;
    count_from(block, start);
    Ok(())
}

/// Writes the number of bytes from `start` to the end of the block into the two bytes at `start`.
/// Requires that there are at least 4 and at most 65535 bytes from there.
fn count_from(block: &mut Vec<u8>, start: usize)
    requires inside { start + 4 ≤ length block.old.items }
    requires fits { length block.old.items ≤ start + 65535 }
    ensures { block.new.items
        ≡ put_at block.old.items start (bytes_le (length block.old.items - start) 2) }
{
    let size = block.len() - start;
    put_u16(block, start, size as u16);
}
