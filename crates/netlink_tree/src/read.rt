//! Reading bytes as trees.

ghost use Rattle.std.specs.Prelude.{◌≡◌, ◌⊎◌, ◌++◌, ◌*◌, ◌≤◌, [], ◌∷◌, true, false, Ok, Err, MatchResult, IfOk, IsOk, IsTrue, length};
ghost use Rattle.netlink_packet_core.specs.DecodeError.{DecodeError};
ghost use Rattle.netlink_packet_core.specs.Views.{attribute_of, shown, HoldsAttribute};
ghost use Rattle.netlink_tree.specs.Tree.{view, views, AreWellFormed};
ghost use Rattle.netlink_tree.specs.Reading.{Trees, IsRead};
ghost use Rattle.netlink_tree.specs.declared.tree.NlaTree.{NlaTree};

use crate::fault::TreeFault;
use crate::tree::{GREATEST_DEPTH, NlaTree};
use netlink_packet_core::laws::walk_total;
use netlink_packet_core::{DecodeError, NlaBuffer, copy_of, nla_align};
use std::alloc::{AllocError, Global};

/// Returns the trees of a block: an attribute whose kind has the bit `NLA_F_NESTED` is a nest of
/// the block that is its value, and any other attribute is a leaf.
///
/// The attributes of the outer block have depth 1. Returns `TooDeep` for a nonempty block at depth
/// 17, whatever it holds, and `Decode` with the error that ends the walk (`NlaBufferTooSmall`,
/// `NlaLengthMismatch` or `NlaInvalidLength`) for bytes that are not attributes. Returns the first
/// error in reading order, in which the inside of an attribute comes before the next attribute.
/// Returns `Decode` with `OutOfMemory` if an allocation fails. Does not allocate if `bytes` is
/// empty.
pub fn read_tree(alloc: Global, bytes: &[u8]) -> Result<Vec<NlaTree>, TreeFault>
    ensures trees { MatchResult result
        (λ ts. Trees 16 bytes.now (Ok (views ts.items)))
        (λ e. (e ≡ TreeFault.Decode DecodeError.OutOfMemory) ⊎ Trees 16 bytes.now (Err e)) }
    ensures formed { IfOk result (λ ts. AreWellFormed (views ts.items)) }
    ensures empty { bytes.now ≡ [] → IsOk result }
{
    let mut trees = Vec::new(alloc);
    let mut fault = TreeFault::TooDeep;
    if read_block(alloc, bytes, GREATEST_DEPTH, &mut trees, &mut fault) {
        return Ok(trees);
    }
    Err(fault)
}

/// Appends the trees of a block, in which attributes may be nested to a depth of `levels`, to an
/// empty list, and returns true. Returns false if there is an error, and sets `fault` to it.
///
/// An error is not part of the result, so that no space for it is cleared for each attribute.
#[tactic(auto, using(crate::proofs::TreeReading::block_ends))]
#[cycle(reading)]
fn read_block(
    alloc: Global,
    bytes: &[u8],
    levels: usize,
    trees: &mut Vec<NlaTree>,
    fault: &mut TreeFault,
) -> bool
    requires { trees.old.items ≡ [] }
    ensures trees { IsTrue result → Trees levels bytes.now (Ok (views trees.new.items)) }
    ensures fault { result ≡ false
        → (fault.new ≡ TreeFault.Decode DecodeError.OutOfMemory)
        ⊎ Trees levels bytes.now (Err fault.new) }
    ensures empty { bytes.now ≡ [] → IsTrue result }
{
    if bytes.is_empty() {
        return true;
    }
    if levels == 0 {
        return too_deep(fault);
    }
    if trees.reserve_exact(count_of(bytes)).is_err() {
        return out_of_memory(fault);
    }
    walk_total();
    let mut rest = bytes;
    loop {
        match NlaBuffer::new_checked(rest) {
            Ok(nla) => {
                if !read_attribute(alloc, nla, levels - 1, trees, fault) {
                    return false;
                }
                let end = nla_align(nla.length() as usize);
                if end >= rest.len() {
                    return true;
                }
                rest = &rest[end..];
            }
            Err(error) => {
                *fault = TreeFault::Decode(error);
                return false;
            }
        }
    }
}

/// Returns the number of attributes that a walk of the bytes yields, so that room for all of them
/// is allocated at once.
fn count_of(bytes: &[u8]) -> usize
    ensures { result * 4 ≤ length bytes.now }
{
    let mut count = 0usize;
    let mut rest = bytes;
    while let Ok(nla) = NlaBuffer::new_checked(rest) {
        count += 1;
        let end = nla_align(nla.length() as usize);
        if end >= rest.len() {
            return count;
        }
        rest = &rest[end..];
    }
    count
}

/// Appends an attribute as a tree, inside which attributes may be nested to a depth of `levels`,
/// and returns true. Returns false if there is an error, and sets `fault` to it. Requires a view
/// over a complete attribute.
#[inline(always)]
#[cycle(reading)]
fn read_attribute(
    alloc: Global,
    nla: NlaBuffer<&[u8]>,
    levels: usize,
    trees: &mut Vec<NlaTree>,
    fault: &mut TreeFault,
) -> bool
    requires { HoldsAttribute (shown nla) }
    ensures tree { IsTrue result
        → (t : NlaTree) × (trees.new.items ≡ trees.old.items ++ (t ∷ []))
        × IsRead (Trees levels) (attribute_of (shown nla.entry)) (Ok (view t)) }
    ensures fault { result ≡ false
        → (fault.new ≡ TreeFault.Decode DecodeError.OutOfMemory)
        ⊎ IsRead (Trees levels) (attribute_of (shown nla.entry)) (Err fault.new) }
{
    let kind = nla.raw_kind();
    if nla.nested_flag() {
        let mut children = Vec::new(alloc);
        if !read_block(alloc, nla.value(), levels, &mut children, fault) {
            return false;
        }
        return push_tree(trees, NlaTree::Nest { kind, children }, fault);
    }
    match value_of(alloc, nla.value()) {
        Ok(value) => push_tree(trees, NlaTree::Leaf { kind, value }, fault),
        Err(_) => out_of_memory(fault),
    }
}

/// Appends a tree, and returns true. Returns false if an allocation fails, and sets `fault` to
/// `Decode` with `OutOfMemory`.
#[inline(always)]
fn push_tree(trees: &mut Vec<NlaTree>, tree: NlaTree, fault: &mut TreeFault) -> bool
    ensures tree { IsTrue result → trees.new.items ≡ trees.old.items ++ (tree ∷ []) }
    ensures fault { result ≡ false → fault.new ≡ TreeFault.Decode DecodeError.OutOfMemory }
{
    match trees.push(tree) {
        Ok(()) => true,
        Err(_) => out_of_memory(fault),
    }
}

/// Returns a copy of a value, or `AllocError` if the allocation fails. Does not allocate for an
/// empty value. A value of 4 bytes, which most numbers are, is copied without a call.
#[inline(always)]
fn value_of(alloc: Global, value: &[u8]) -> Result<Vec<u8>, AllocError>
    ensures { IfOk result (λ copy. copy.items ≡ value.now) }
{
    if let [a, b, c, d] = value {
        return match Vec::from_array(alloc, [*a, *b, *c, *d]) {
            Ok(copy) => Ok(copy),
            Err(_) => Err(AllocError),
        };
    }
    copy_of(alloc, value)
}

/// Sets `fault` to `TooDeep`, and returns false. Like `out_of_memory`, it is not inlined, so that
/// `read_block` stays small.
#[cold]
#[inline(never)]
fn too_deep(fault: &mut TreeFault) -> bool
    ensures { (result ≡ false) × (fault.new ≡ TreeFault.TooDeep) }
{
    *fault = TreeFault::TooDeep;
    false
}

/// Sets `fault` to `Decode` with `OutOfMemory`, and returns false.
#[cold]
#[inline(never)]
fn out_of_memory(fault: &mut TreeFault) -> bool
    ensures { (result ≡ false) × (fault.new ≡ TreeFault.Decode DecodeError.OutOfMemory) }
{
    *fault = TreeFault::Decode(DecodeError::OutOfMemory);
    false
}
