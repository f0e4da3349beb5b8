//! Checking and writing the attributes of a message.

ghost use Rattle.std.specs.Option.{option_map};
ghost use Rattle.std.specs.Prelude.{◌≡◌, ◌&&◌, ◌<◌, ◌^◌, ◌≤◌, ◌++◌, List, None, Option, Some, IfErr, IfSome, IsTrue, OnOk, drop, false, is_some, length, replicate, take, true};
ghost use Rattle.netlink_attributes.specs.Attribute.{Attribute, padding, value_max};
ghost use Rattle.netlink_attributes.specs.Block.{canonical_block, IsCanonicalBlock};
ghost use Rattle.netlink_bytes.specs.declared.error.DecodeError.{DecodeError};
ghost use Rattle.netlink_attributes.specs.Steps.{unread};
ghost use Rattle.netlink_attributes.specs.Walk.{Walk};
ghost use Rattle.netlink_shapes.specs.Blocks.{all_normalized};
ghost use Rattle.netlink_shapes.specs.Choices.{AreChoices};
ghost use Rattle.netlink_shapes.specs.ErrorTexts.{wants_memory};
ghost use Rattle.netlink_shapes.specs.Errors.{block_error};
ghost use Rattle.netlink_shapes.specs.Shapes.{CachesOther, are_shaped, fits_kind, is_block_shaped, nest_levels, reading_by, rows_in, shape_among, within};

use crate::attribute_error::{AttributeError, error_in};
use crate::choice::{Choices, NO_CHOICES, cached_shape_among};
use crate::error::FamilyError;
use crate::nest::is_shaped;
use crate::rows::Rows;
use crate::shape::{NEST_LEVELS, Shape, TOP, has_shape, policy_of};
use netlink_attributes::{NlasIterator, append_nla, is_zero_padded};
use std::alloc::{AllocError, Global};

/// Appends the attributes of `block` in canonical form. The block ends at offset `end` of the
/// payload. A canonical block is copied as a whole. The offset of an error is computed only if
/// there is an error.
pub fn append_block(
    alloc: Global,
    rows: Rows,
    bytes: &mut Vec<u8>,
    end: usize,
    block: &[u8],
) -> Result<(), FamilyError>
    requires inside { length block.now ≤ end }
    ensures ok { OnOk result
        ((all : List Attribute) × Walk block.now all None
        × (all_normalized (reading_by (rows_in rows.list.now) all) all ≡ Some all)
        × (bytes.new.items ≡ bytes.old.items ++ canonical_block all)) }
    ensures good { OnOk result (block_error (rows_in rows.list.now) end block.now ≡ None) }
    ensures error { IfErr result (λ e. wants_memory e ≡ false
        → option_map FamilyError.InvalidAttribute (block_error (rows_in rows.list.now) end block.now) ≡ Some e) }
{
    match check_block(rows, block) {
        None => Err(FamilyError::InvalidAttribute(block_error(rows, end, block))),
        Some(canonical) => {
            if canonical {
                bytes.extend_from_slice(block)?;
                return Ok(());
            }
            append_attributes(alloc, bytes, block)?;
            Ok(())
        }
    }
}

/// Returns whether a block is canonical, or `None` if one of its attributes does not have the shape
/// of its kind.
fn check_block(rows: Rows, block: &[u8]) -> Option<bool>
    ensures shaped { is_some result ≡ is_block_shaped nest_levels (rows_in rows.list.now) 0 block.now }
    ensures canonical { IfSome result (λ yes. yes ≡ true → IsCanonicalBlock block.now) }
{
    check_attributes(rows, block, NlasIterator::new(block), true)
}

/// Returns `None` if one of the attributes of a walk in a block does not have the shape of its kind,
/// or the walk has an error. Else returns whether they are canonical, if that is asked, and `false` if
/// it is not.
#[inline(always)]
fn check_attributes(
    rows: Rows,
    block: &[u8],
    walk: NlasIterator<&[u8]>,
    is_asked: bool,
) -> Option<bool>
    ensures shaped { is_some result ≡ are_shaped nest_levels (within (rows_in rows.list.now) block.now) 0 (unread walk.entry) }
    ensures canonical { IfSome result (λ yes. yes ≡ true → IsCanonicalBlock (unread walk.entry)) }
{
    let mut canonical = is_asked;
    let mut other = None;
    let mut choices = NO_CHOICES;
    for item in walk {
        match item {
            Ok(nla) => {
                let kind = nla.raw_kind();
                if !fits_kind(rows, &mut other, &mut choices, block, kind, nla.value()) {
                    return None;
                }
                let size = nla.length() as usize;
                let padded = is_padded(is_asked, nla.into_inner(), size);
                canonical = both(canonical, padded);
            }
            Err(_) => return None,
        }
    }
    Some(canonical)
}

/// Returns whether zeros follow the first `size` bytes, up to a multiple of 4, if that is asked, and
/// `false` if it is not.
#[inline(always)]
fn is_padded(is_asked: bool, bytes: &[u8], size: usize) -> bool
    requires inside { (size ≤ length bytes.now) × (size < 2 ^ 16) }
    ensures { IsTrue result
        → take (padding size) (drop size bytes.now) ≡ replicate (padding size) 0 }
{
    is_asked && is_zero_padded(bytes, size)
}

/// Returns whether a value of a message's block has the shape of its kind in the policy `TOP`. Keeps
/// the shape of the kinds without a row in `other`, and the shapes that were chosen in `choices`.
#[inline(always)]
fn fits_kind(
    rows: Rows,
    other: &mut Option<Shape>,
    choices: &mut Choices,
    block: &[u8],
    kind: u16,
    value: &[u8],
) -> bool
    requires other { CachesOther (rows_in rows.list.now) 0 other.old }
    requires choices { AreChoices (within (rows_in rows.list.now) block.now) 0 choices.old }
    requires fits { length value.now ≤ value_max }
    ensures fits { result ≡ fits_kind (within (rows_in rows.list.now) block.now) kind value.now }
    ensures other { CachesOther (rows_in rows.list.now) 0 other.new }
    ensures choices { AreChoices (within (rows_in rows.list.now) block.now) 0 choices.new }
{
    let shape = cached_shape_among(rows, TOP, block, kind, other, choices);
    fits_shape(rows, block, shape, kind, value)
}

/// Returns whether a value of a message's block has the shape of its kind, which is already known.
#[inline(always)]
#[tactic(auto, using(crate::specs::NestLaws::flat_step))]
pub fn fits_shape(rows: Rows, block: &[u8], shape: Shape, kind: u16, value: &[u8]) -> bool
    requires shape { shape ≡ shape_among (within (rows_in rows.list.now) block.now) 0 kind }
    requires fits { length value.now ≤ value_max }
    ensures { result ≡ fits_kind (within (rows_in rows.list.now) block.now) kind value.now }
{
    match policy_of(shape) {
        None => has_shape(shape, value),
        Some(_) => fits_nest(rows, block, shape, kind, value),
    }
}

/// Returns whether a nest in a message's block has the shape of its kind. It is a separate function so
/// that the loop over a block stays small.
#[inline(never)]
fn fits_nest(rows: Rows, block: &[u8], shape: Shape, kind: u16, value: &[u8]) -> bool
    requires shape { shape ≡ shape_among (within (rows_in rows.list.now) block.now) 0 kind }
    requires fits { length value.now ≤ value_max }
    ensures { result ≡ fits_kind (within (rows_in rows.list.now) block.now) kind value.now }
{
    is_shaped(NEST_LEVELS, rows, shape, value)
}

/// Returns whether the attributes of a walk in a block have the shapes of their kinds, and the walk
/// has no error.
#[inline(always)]
pub fn has_shapes(rows: Rows, block: &[u8], walk: NlasIterator<&[u8]>) -> bool
    ensures { result ≡ are_shaped nest_levels (within (rows_in rows.list.now) block.now) 0 (unread walk.entry) }
{
    check_attributes(rows, block, walk, false).is_some()
}

/// Returns `one && other`.
#[inline(always)]
fn both(one: bool, other: bool) -> bool
    ensures { result ≡ (one && other) }
{
    one && other
}

/// Returns the first error of a block that has one.
#[cold]
#[inline(never)]
pub fn block_error(rows: Rows, end: usize, block: &[u8]) -> AttributeError
    requires inside { length block.now ≤ end }
    requires some { is_block_shaped nest_levels (rows_in rows.list.now) 0 block.now ≡ false }
    ensures { block_error (rows_in rows.list.now) end block.now ≡ Some result }
{
    match error_in(NEST_LEVELS, rows, TOP, end, block) {
        Some(error) => error,
        None => unreachable!(),
    }
}

/// Appends the attributes of a block one by one, in canonical form, up to an error of the walk.
pub fn append_attributes(alloc: Global, bytes: &mut Vec<u8>, block: &[u8]) -> Result<(), AllocError>
    ensures { OnOk result
        ((all : List Attribute) × (error : Option DecodeError) × Walk block.now all error
        × (bytes.new.items ≡ bytes.old.items ++ canonical_block all)) }
{
    for item in NlasIterator::new(block) {
        match item {
            Ok(nla) => match append_nla(alloc, bytes, nla.raw_kind(), nla.value()) {
                Ok(()) => {}
                Err(_) => return Err(AllocError),
            },
            Err(_) => return Ok(()),
        }
    }
    Ok(())
}
