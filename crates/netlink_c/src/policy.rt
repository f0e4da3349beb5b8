//! Attributes checked against a policy.

ghost use Rattle.std.specs.Prelude.{◌≡◌};
ghost use Rattle.netlink_c.specs.Items.{OfWalk};
ghost use Rattle.netlink_c.specs.Policies.{ValidatesAs, first_bad, fits_row, fits_rows};
ghost use Rattle.netlink_c.specs.Policies.{has_shape, has_zero, is_string};

use crate::fault::FaultNumbers;
use crate::kinds::ABSENT;
use crate::results::{OK, WRONG_SHAPE};
use crate::walk::nlp_attrs_next;
use netlink_packet_core::{NLA_F_NET_BYTEORDER, NLA_HEADER_SIZE};

/// A row of a policy (`struct nlp_policy`): the shape that the values of a kind have.
#[derive(Clone, Copy, Debug, PartialEq, Eq)]
#[repr(C)]
pub struct PolicyRow {
    /// The kind without its two flag bits.
    pub kind: u16,
    /// The shape: exactly (1), at least (2) or at most (3) `size` bytes; a `u8` (4), `u16` (5),
    /// `u32` (6) or `u64` (7); a flag without a value (8); a string (9) or one with a zero (10); a
    /// nest (11). Any other number: any value.
    pub shape: u16,
    /// The size for the shapes 1 to 3. For a string the maximum, not counting a zero at the end. A
    /// maximum of 0, also for the shape 3, is none, as for `NLA_BINARY` of the kernel.
    pub size: usize,
}

/// Checks each attribute of a block against each row of a policy that has its kind, comparing kinds
/// without the two flag bits. An attribute without a row is valid.
///
/// Returns 0 if and only if the walk of the block ends without an error and each attribute is
/// valid. Otherwise returns what comes first in the block, and writes its offset into `offset`:
/// `WRONG_SHAPE`, with the offset of the attribute, or the error that ends the walk, with the
/// offset of the bytes that are no attribute. Wraps `nlp_attrs_next`. Does not allocate.
#[unsafe(no_mangle)]
pub extern "C" fn nlp_attrs_validate(
    block: &[u8],
    policy: &[PolicyRow],
    offset: &mut usize,
    fault: &mut FaultNumbers,
) -> u32
    ensures validates { OfWalk block.now (λ items end.
        ValidatesAs (first_bad policy.now block.now items) items end
        offset.old offset.new fault.old fault.new result) }
{
    let mut at = 0;
    let mut item = ABSENT;
    while at < block.len() {
        let start = at;
        let result = nlp_attrs_next(block, &mut at, &mut item, fault);
        if result != OK {
            *offset = start;
            return result;
        }
        if !fits_all(
            policy,
            item.kind,
            &block[item.offset..item.offset + item.size],
        ) {
            *offset = start;
            return WRONG_SHAPE;
        }
    }
    OK
}

/// Returns whether a value has the shape of each row of its kind.
fn fits_all(policy: &[PolicyRow], kind: u16, value: &[u8]) -> bool
    ensures { result ≡ fits_rows policy.now kind value.now }
{
    for row in policy {
        if !fits_one(row, kind, value) {
            return false;
        }
    }
    true
}

/// Returns whether a value has the shape of a row, or is not of its kind.
#[inline(always)]
fn fits_one(row: &PolicyRow, kind: u16, value: &[u8]) -> bool
    ensures { result ≡ fits_row row.now kind value.now }
{
    if kind % NLA_F_NET_BYTEORDER != row.kind {
        return true;
    }
    fits_shape(row.shape, row.size, value)
}

/// Returns whether a value has a shape.
fn fits_shape(shape: u16, stated: usize, value: &[u8]) -> bool
    ensures { result ≡ has_shape shape stated value.now }
{
    let size = value.len();
    match shape {
        1 => size == stated,
        2 => stated <= size,
        3 => stated == 0 || size <= stated,
        4 => size == 1,
        5 => size == 2,
        6 => size == 4,
        7 => size == 8,
        8 => size == 0,
        9 => fits_string(stated, value),
        10 => fits_string(stated, value) && holds_zero(value),
        11 => size == 0 || size >= NLA_HEADER_SIZE,
        _ => true,
    }
}

/// Returns whether a value is a string of at most this many bytes, not counting a zero at its end,
/// or a string of any size if that is 0. A string has at least 1 byte.
fn fits_string(most: usize, value: &[u8]) -> bool
    ensures { result ≡ is_string most value.now }
{
    let size = value.len();
    if size == 0 {
        return false;
    }
    let text = if value[size - 1] == 0 { size - 1 } else { size };
    most == 0 || text <= most
}

/// Returns whether a zero is among the bytes.
fn holds_zero(bytes: &[u8]) -> bool
    ensures { result ≡ has_zero bytes.now }
{
    for byte in bytes {
        if *byte == 0 {
            return true;
        }
    }
    false
}
