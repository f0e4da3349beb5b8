//! Writing payloads in canonical form.

ghost use Rattle.std.specs.Prelude.{◌≡◌, ◌+◌, ◌++◌, ◌≤◌, ℕ, List, Some, IfErr, IfOk, OnOk, false, length, replicate, vec_capacity};
ghost use Rattle.netlink_shapes.specs.ErrorTexts.{wants_memory};
ghost use Rattle.netlink_shapes.specs.Errors.{payload_error};
ghost use Rattle.netlink_family.specs.PayloadReading.{payload_reading};
ghost use Rattle.netlink_shapes.specs.Shapes.{reading_by};

use crate::family::{Table, rows_of};
use netlink_packet_core::{NETLINK_HEADER_LEN, NLA_BLOCK_MAX, nla_align};
use netlink_shapes::block::append_block;
use netlink_shapes::error::FamilyError;
use std::alloc::{AllocError, Global};

/// Appends the canonical form of a payload that is not short. `size` is the size of its fixed
/// header.
#[inline(always)]
pub(crate) fn append_payload<F: Table>(
    alloc: Global,
    message_type: u16,
    size: usize,
    bytes: &mut Vec<u8>,
    payload: &[u8],
) -> Result<(), FamilyError>
    requires size { size ≡ F.header_len message_type }
    requires long { size ≤ length payload.now }
    ensures reads { OnOk result ((out : List ℕ) × (bytes.new.items ≡ bytes.old.items ++ out)
        × ((t : ℕ) → payload_reading (F.header_len message_type) (reading_by (F.rows message_type)) t payload.now
        ≡ Some (t, out))) }
    ensures error { IfErr result (λ e. wants_memory e ≡ false
        → payload_error (F.header_len message_type) (F.rows message_type) payload.now ≡ Some e) }
{
    let (front, block) = payload.split_at(size);
    bytes.extend_from_slice(front)?;
    let start = bytes.len();
    let rows = rows_of::<F>(message_type);
    append_block(alloc, rows, bytes, payload.len(), block)?;
    if bytes.len() - start > NLA_BLOCK_MAX {
        return Err(FamilyError::TooLong);
    }
    Ok(())
}

/// Returns 16 zeros in place of the header of a frame, in a vector that has room for exactly the
/// payload in canonical form, which may lack only its last padding. `size` is the size of its fixed
/// header.
pub(crate) fn header_room(alloc: Global, size: usize, payload: &[u8]) -> Result<Vec<u8>, AllocError>
    requires long { size ≤ length payload.now }
    ensures zeros { IfOk result (λ frame. frame.items ≡ replicate 16 0) }
    ensures room { IfOk result (λ frame. 16 + length payload.now ≤ vec_capacity frame) }
{
    let block = nla_align(payload.len() - size);
    let mut frame = Vec::with_capacity(alloc, NETLINK_HEADER_LEN + size + block)?;
    frame.extend_from_slice(&[0; NETLINK_HEADER_LEN])?;
    Ok(frame)
}
