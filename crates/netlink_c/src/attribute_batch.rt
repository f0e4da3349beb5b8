//! Several attributes of a block in one call.

ghost use Rattle.std.specs.Prelude.{◌≡◌, ◌≢◌, ◌↔◌, ◌⊎◌, ◌+◌, ◌≤◌, ◌<◌, IfNone, IfSome, drop, length, take};
ghost use Rattle.netlink_packet_core.specs.Views.{HoldsAttribute, length_field};
ghost use Rattle.netlink_packet_core.specs.Walk.{IsFault};
ghost use Rattle.netlink_c.specs.Attributes.{AttributesAt, item_at};
ghost use Rattle.netlink_c.specs.Fault.{Refuses};

use crate::batch::BATCH;
use crate::fault::FaultNumbers;
use crate::results::{END, OK};
use crate::walk::{AttributeItem, after, attribute_fault};
use netlink_packet_core::{NLA_HEADER_SIZE, NlaBuffer, nla_align};

/// Several attributes of a block (`struct nlp_attr_batch`), and where the next one starts.
#[derive(Clone, Copy, Debug, PartialEq, Eq)]
#[repr(C)]
pub struct AttributeBatch {
    /// The offset of the next attribute, in bytes from the start of the block.
    pub cursor: usize,
    /// How many of `items` are attributes that were read.
    pub count: usize,
    /// The attributes. The offsets of the values are relative to the start of the block.
    pub items: [AttributeItem; BATCH],
}

/// Writes the attributes at `batch.cursor` and after it into `batch.items`: as many as there are, up
/// to 16. Sets `batch.count` to their number, and moves the cursor past the last of them and its
/// padding. So there are fewer than 16 only if no complete attribute is at the new cursor.
///
/// Returns 0 if there is at least one. Returns `END`, and changes nothing, if and only if the cursor
/// is at or past the end of the block. Returns `NlaBufferTooSmall`, `NlaLengthMismatch` or
/// `NlaInvalidLength`, and moves the cursor to the end, if there is no complete attribute at the
/// cursor. So an error after some attributes is returned by the next call. Changes the count and the
/// items only if it returns 0, and never an item after the count. Does not allocate.
#[unsafe(no_mangle)]
pub extern "C" fn nlp_attrs_fill(
    bytes: &[u8],
    batch: &mut AttributeBatch,
    fault: &mut FaultNumbers,
) -> u32
    ensures end { (result ≡ 32) ↔ (length bytes.now ≤ batch.old.cursor) }
    ensures stays { result ≡ 32 → batch.new.cursor ≡ batch.old.cursor }
    ensures filled { result ≡ 0 → AttributesAt bytes.now batch.old.cursor
        (take batch.new.count batch.new.items) batch.new.cursor }
    ensures some { result ≡ 0 → (0 < batch.new.count) × (batch.new.count ≤ 16) }
    ensures most { result ≡ 0 → batch.new.count < 16
        → HoldsAttribute (drop batch.new.cursor bytes.now) → ⊥ }
    ensures rest { result ≡ 0 → drop batch.new.count batch.new.items
        ≡ drop batch.new.count batch.old.items }
    ensures refuses { result ≢ 0 → result ≢ 32
        → Refuses (IsFault (drop batch.old.cursor bytes.now)) result fault.new
        × (batch.new.cursor ≡ length bytes.now) }
    ensures kept { result ≢ 0 → (batch.new.count ≡ batch.old.count)
        × (batch.new.items ≡ batch.old.items) }
    ensures unfaulted { (result ≡ 0) ⊎ (result ≡ 32) → fault.new ≡ fault.old }
{
    let start = batch.cursor;
    if let Some(size) = size_at(bytes, start) {
        let (count, next) = fill(bytes, start, size, &mut batch.items);
        batch.count = count;
        batch.cursor = next;
        return OK;
    }
    ended(bytes, &mut batch.cursor, fault)
}

/// Returns `END` at or past the end. Otherwise moves the cursor to the end, and returns the error of
/// the bytes at the old one. Requires that no complete attribute is there.
#[cold]
#[inline(never)]
fn ended(bytes: &[u8], cursor: &mut usize, fault: &mut FaultNumbers) -> u32
    requires none { HoldsAttribute (drop cursor.old bytes.now) → ⊥ }
    ensures some { 0 < result }
    ensures end { (result ≡ 32) ↔ (length bytes.now ≤ cursor.old) }
    ensures stays { result ≡ 32 → cursor.new ≡ cursor.old }
    ensures refuses { result ≢ 32
        → Refuses (IsFault (drop cursor.old bytes.now)) result fault.new
        × (cursor.new ≡ length bytes.now) }
    ensures unfaulted { result ≡ 32 → fault.new ≡ fault.old }
{
    let at = *cursor;
    if at >= bytes.len() {
        return END;
    }
    *cursor = bytes.len();
    attribute_fault(&bytes[at..], fault)
}

/// Writes the attributes at offset `start` and after it into `items`, as far as there is room.
/// Returns their number, and the offset of what follows. Requires a complete attribute of `size`
/// bytes at `start`, and room for it.
///
/// Writes the first attribute before the loop, because it is already checked.
#[tactic(auto, using(crate::proofs::WalkLemmas::attribute_fits))]
#[inline(always)]
fn fill(bytes: &[u8], start: usize, size: usize, items: &mut [AttributeItem]) -> (usize, usize)
    requires inside { start + 4 ≤ length bytes.now }
    requires holds { HoldsAttribute (drop start bytes.now) }
    requires said { size ≡ length_field (drop start bytes.now) }
    requires one { 0 < length items.now }
    ensures filled { AttributesAt bytes.now start (take result.0 items.new) result.1 }
    ensures most { result.0 < length items.old → HoldsAttribute (drop result.1 bytes.now) → ⊥ }
    ensures fits { result.0 ≤ length items.old }
    ensures rest { drop result.0 items.new ≡ drop result.0 items.old }
{
    let mut at = start;
    // How many bytes there are after a header at `at`.
    let mut room = bytes.len() - NLA_HEADER_SIZE - start;
    items[0] = item_of(bytes, at, size);
    let padded = nla_align(size);
    if padded > room {
        return (1, after(bytes, at, size));
    }
    at += padded;
    room -= padded;
    let mut count = 1;
    while count < items.len() {
        match size_within(bytes, at, room) {
            Some(size) => {
                items[count] = item_of(bytes, at, size);
                count += 1;
                let whole = nla_align(size);
                if whole > room {
                    return (count, after(bytes, at, size));
                }
                at += whole;
                room -= whole;
            }
            None => return (count, at),
        }
    }
    (count, at)
}

/// Returns the attribute of `size` bytes at offset `at`. Requires a complete one there.
#[inline(always)]
fn item_of(bytes: &[u8], at: usize, size: usize) -> AttributeItem
    requires inside { at + 4 ≤ length bytes.now }
    requires least { 4 ≤ size }
    ensures { result ≡ item_at bytes.now at size }
{
    AttributeItem {
        kind: NlaBuffer::new(&bytes[at..]).raw_kind(),
        offset: at + NLA_HEADER_SIZE,
        size: size - NLA_HEADER_SIZE,
    }
}

/// Returns the length field at offset `at` if there is a complete attribute, and `None` otherwise.
#[inline(always)]
fn size_at(bytes: &[u8], at: usize) -> Option<usize>
    ensures whole { IfSome result (λ size. (at + 4 ≤ length bytes.now)
        × HoldsAttribute (drop at bytes.now) × (size ≡ length_field (drop at bytes.now))) }
    ensures none { IfNone result (HoldsAttribute (drop at bytes.now) → ⊥) }
{
    if bytes.len() < NLA_HEADER_SIZE {
        return None;
    }
    // Where the last header can start. One comparison shows that one fits at `at`.
    let last = bytes.len() - NLA_HEADER_SIZE;
    if at > last {
        return None;
    }
    size_within(bytes, at, last - at)
}

/// Returns what `size_at` returns. Requires that there are `room` bytes after a header at `at`.
#[inline(always)]
fn size_within(bytes: &[u8], at: usize, room: usize) -> Option<usize>
    requires room { at + 4 + room ≡ length bytes.now }
    ensures whole { IfSome result (λ size. HoldsAttribute (drop at bytes.now)
        × (size ≡ length_field (drop at bytes.now))) }
    ensures none { IfNone result (HoldsAttribute (drop at bytes.now) → ⊥) }
{
    let size = NlaBuffer::new(&bytes[at..]).length() as usize;
    // One comparison for both bounds, as in `attribute_size`.
    if size.wrapping_sub(NLA_HEADER_SIZE) > room {
        return None;
    }
    Some(size)
}
