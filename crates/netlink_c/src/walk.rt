//! Walking the frames of a datagram, and the attributes of a block, with a cursor.

ghost use Rattle.std.specs.Prelude.{◌≡◌, ◌≢◌, ◌↔◌, ◌⊎◌, ◌+◌, ◌≤◌, ◌<◌, IfNone, IfSome, length, drop, false};
ghost use Rattle.netlink_packet_core.specs.Attribute.{padding};
ghost use Rattle.netlink_packet_core.specs.Refusal.{IsFrameFault};
ghost use Rattle.netlink_packet_core.specs.Views.{HoldsAttribute, length_field};
ghost use Rattle.netlink_packet_core.specs.Walk.{IsFault};
ghost use Rattle.netlink_c.specs.Fault.{Refuses};
ghost use Rattle.netlink_c.specs.Steps.{StartsAttributeAt, StartsFrameAt};

use crate::fault::{FaultNumbers, refused};
use crate::frame::{Part, frame_fault, frame_size};
use crate::results::{END, OK};
use netlink_packet_core::{NLA_HEADER_SIZE, NlaBuffer, nla_align};

/// An attribute of a block (`struct nlp_attr`): its kind, and the location of its value.
#[derive(Clone, Copy, Debug, PartialEq, Eq)]
#[repr(C)]
pub struct AttributeItem {
    /// The kind with its two flag bits.
    pub kind: u16,
    /// The offset of the value in bytes, from the start of the block.
    pub offset: usize,
    /// The size of the value in bytes.
    pub size: usize,
}

/// Writes the location of the frame at `cursor` into `item`, and moves the cursor past the frame
/// and its padding. The offset is relative to the start of the datagram.
///
/// Returns 0 on success. Returns `END`, and leaves the cursor unchanged, if and only if the cursor
/// is at or past the end of the datagram. Returns `FrameShort`, `FrameCut` or `FrameLength`, and
/// moves the cursor to the end, if there is no complete frame at the cursor. Changes `item` only if
/// it returns 0. Does not allocate.
#[tactic(auto, using(crate::proofs::WalkLemmas::held_fits))]
#[inline(always)]
#[unsafe(no_mangle)]
pub extern "C" fn nlp_frames_next(
    bytes: &[u8],
    cursor: &mut usize,
    item: &mut Part,
    fault: &mut FaultNumbers,
) -> u32
    ensures end { (result ≡ 32) ↔ (length bytes.now ≤ cursor.old) }
    ensures stays { result ≡ 32 → cursor.new ≡ cursor.old }
    ensures item { result ≡ 0 → StartsFrameAt bytes.now cursor.old item.new cursor.new }
    ensures refuses { result ≢ 0 → result ≢ 32
        → Refuses (IsFrameFault false (drop cursor.old bytes.now)) result fault.new
        × (cursor.new ≡ length bytes.now) }
    ensures kept { result ≢ 0 → item.new ≡ item.old }
    ensures unfaulted { (result ≡ 0) ⊎ (result ≡ 32) → fault.new ≡ fault.old }
{
    let at = *cursor;
    if at >= bytes.len() {
        return END;
    }
    let unread = &bytes[at..];
    match frame_size(unread) {
        Some(size) => {
            *item = Part { offset: at, size };
            *cursor = after(bytes, at, size);
            OK
        }
        None => {
            *cursor = bytes.len();
            frame_fault(unread, fault)
        }
    }
}

/// Writes the kind of the attribute at `cursor`, and the location of its value, into `item`, and
/// moves the cursor past the attribute and its padding. The offset is relative to the start of the
/// block.
///
/// Returns 0 on success. Returns `END`, and leaves the cursor unchanged, if and only if the cursor
/// is at or past the end of the block. Returns `NlaBufferTooSmall`, `NlaLengthMismatch` or
/// `NlaInvalidLength`, and moves the cursor to the end, if there is no complete attribute at the
/// cursor. Changes `item` only if it returns 0. To walk the attributes inside a nest, call this
/// function on its value. Does not allocate.
#[tactic(auto, using(crate::proofs::WalkLemmas::attribute_fits))]
#[unsafe(no_mangle)]
pub extern "C" fn nlp_attrs_next(
    bytes: &[u8],
    cursor: &mut usize,
    item: &mut AttributeItem,
    fault: &mut FaultNumbers,
) -> u32
    ensures end { (result ≡ 32) ↔ (length bytes.now ≤ cursor.old) }
    ensures stays { result ≡ 32 → cursor.new ≡ cursor.old }
    ensures item { result ≡ 0 → StartsAttributeAt bytes.now cursor.old item.new cursor.new }
    ensures refuses { result ≢ 0 → result ≢ 32
        → Refuses (IsFault (drop cursor.old bytes.now)) result fault.new
        × (cursor.new ≡ length bytes.now) }
    ensures kept { result ≢ 0 → item.new ≡ item.old }
    ensures unfaulted { (result ≡ 0) ⊎ (result ≡ 32) → fault.new ≡ fault.old }
{
    let at = *cursor;
    if at >= bytes.len() {
        return END;
    }
    let unread = &bytes[at..];
    match attribute_size(unread) {
        Some(size) => {
            let kind = NlaBuffer::new(unread).raw_kind();
            // Field by field, so that the padding of the struct is not written.
            item.kind = kind;
            item.offset = at + NLA_HEADER_SIZE;
            item.size = size - NLA_HEADER_SIZE;
            *cursor = after(bytes, at, size);
            OK
        }
        None => {
            *cursor = bytes.len();
            attribute_fault(unread, fault)
        }
    }
}

/// Returns the length field if the bytes begin with a complete attribute, and `None` otherwise.
#[inline(always)]
pub(crate) fn attribute_size(bytes: &[u8]) -> Option<usize>
    ensures whole { IfSome result
        (λ size. HoldsAttribute bytes.now × (size ≡ length_field bytes.now)) }
    ensures none { IfNone result (HoldsAttribute bytes.now → ⊥) }
{
    let left = bytes.len();
    if left < NLA_HEADER_SIZE {
        return None;
    }
    let size = NlaBuffer::new(bytes).length() as usize;
    // One comparison for both bounds, as in `frame_size`.
    if size.wrapping_sub(NLA_HEADER_SIZE) > left - NLA_HEADER_SIZE {
        return None;
    }
    Some(size)
}

/// Writes the error of bytes that do not begin with a complete attribute, and returns its number.
#[cold]
#[inline(never)]
pub(crate) fn attribute_fault(bytes: &[u8], fault: &mut FaultNumbers) -> u32
    requires none { HoldsAttribute bytes.now → ⊥ }
    ensures refuses { Refuses (IsFault bytes.now) result fault.new }
    ensures some { 0 < result }
    ensures below { result ≤ 16 }
{
    match NlaBuffer::new_checked(bytes) {
        Ok(_) => unreachable!(),
        Err(cause) => refused(fault, &cause),
    }
}

/// Returns the offset past the `size` bytes at `at` and their padding, or the end of the bytes if
/// that comes first. Requires `at + size <= bytes.len()`, and that `size` is not 0.
#[inline(always)]
pub(crate) fn after(bytes: &[u8], at: usize, size: usize) -> usize
    requires inside { (at + size ≤ length bytes.now) × (0 < size) }
    ensures rest { drop result bytes.now ≡ drop (size + padding size) (drop at bytes.now) }
    ensures forward { (at < result) × (result ≤ length bytes.now) }
{
    let end = bytes.len();
    let next = at + nla_align(size);
    if next < end { next } else { end }
}
