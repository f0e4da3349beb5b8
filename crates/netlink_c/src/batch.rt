//! Several messages of a datagram in one call.

ghost use Rattle.std.specs.Prelude.{◌≡◌, ◌≢◌, ◌↔◌, ◌⊎◌, ◌+◌, ◌≤◌, ◌<◌, IfNone, IfSome, drop, false, length, take};
ghost use Rattle.netlink_packet_core.specs.Header.{HoldsFrame, field};
ghost use Rattle.netlink_packet_core.specs.Refusal.{IsFrameFault};
ghost use Rattle.netlink_c.specs.Fault.{Refuses};
ghost use Rattle.netlink_c.specs.Messages.{MessagesAt};

use crate::fault::FaultNumbers;
use crate::frame::{Part, frame_fault};
use crate::messages::{MessageItem, message_of};
use crate::results::{END, OK};
use crate::walk::after;
use netlink_packet_core::{NETLINK_HEADER_LEN, NetlinkBuffer, nla_align};

/// The largest number of messages, or of attributes, that one call reads.
pub(crate) const BATCH: usize = 16;

/// Several messages of a datagram (`struct nlp_message_batch`), and where the next one starts.
#[derive(Clone, Copy, Debug, PartialEq, Eq)]
#[repr(C)]
pub struct MessageBatch {
    /// The offset of the next message, in bytes from the start of the datagram.
    pub cursor: usize,
    /// How many of `items` are messages that were read.
    pub count: usize,
    /// The messages. The offsets of the payloads are relative to the start of the datagram.
    pub items: [MessageItem; BATCH],
}

/// Writes the messages at `batch.cursor` and after it into `batch.items`: as many as there are, up
/// to 16. Sets `batch.count` to their number, and moves the cursor past the last of them and its
/// padding. So there are fewer than 16 only if no complete frame is at the new cursor.
///
/// Returns 0 if there is at least one. Returns `END`, and changes nothing, if and only if the cursor
/// is at or past the end of the datagram. Returns `FrameShort`, `FrameCut` or `FrameLength`, and
/// moves the cursor to the end, if there is no complete frame at the cursor. So an error after some
/// messages is returned by the next call. Changes the count and the items only if it returns 0, and
/// never an item after the count. Does not allocate.
#[unsafe(no_mangle)]
pub extern "C" fn nlp_messages_fill(
    bytes: &[u8],
    batch: &mut MessageBatch,
    fault: &mut FaultNumbers,
) -> u32
    ensures end { (result ≡ 32) ↔ (length bytes.now ≤ batch.old.cursor) }
    ensures stays { result ≡ 32 → batch.new.cursor ≡ batch.old.cursor }
    ensures filled { result ≡ 0 → MessagesAt bytes.now batch.old.cursor
        (take batch.new.count batch.new.items) batch.new.cursor }
    ensures some { result ≡ 0 → (0 < batch.new.count) × (batch.new.count ≤ 16) }
    ensures most { result ≡ 0 → batch.new.count < 16
        → HoldsFrame (drop batch.new.cursor bytes.now) → ⊥ }
    ensures rest { result ≡ 0 → drop batch.new.count batch.new.items
        ≡ drop batch.new.count batch.old.items }
    ensures refuses { result ≢ 0 → result ≢ 32
        → Refuses (IsFrameFault false (drop batch.old.cursor bytes.now)) result fault.new
        × (batch.new.cursor ≡ length bytes.now) }
    ensures kept { result ≢ 0 → (batch.new.count ≡ batch.old.count)
        × (batch.new.items ≡ batch.old.items) }
    ensures unfaulted { (result ≡ 0) ⊎ (result ≡ 32) → fault.new ≡ fault.old }
{
    let start = batch.cursor;
    if let Some(size) = size_at(bytes, start) {
        let (count, next) = fill(bytes, start, size, &mut batch.items);
        batch.count = count;
        batch.cursor = next;
        return OK;
    }
    ended(bytes, &mut batch.cursor, fault)
}

/// Returns `END` at or past the end. Otherwise moves the cursor to the end, and returns the error of
/// the bytes at the old one. Requires that no complete frame is there.
#[cold]
#[inline(never)]
fn ended(bytes: &[u8], cursor: &mut usize, fault: &mut FaultNumbers) -> u32
    requires none { HoldsFrame (drop cursor.old bytes.now) → ⊥ }
    ensures some { 0 < result }
    ensures end { (result ≡ 32) ↔ (length bytes.now ≤ cursor.old) }
    ensures stays { result ≡ 32 → cursor.new ≡ cursor.old }
    ensures refuses { result ≢ 32
        → Refuses (IsFrameFault false (drop cursor.old bytes.now)) result fault.new
        × (cursor.new ≡ length bytes.now) }
    ensures unfaulted { result ≡ 32 → fault.new ≡ fault.old }
{
    let at = *cursor;
    if at >= bytes.len() {
        return END;
    }
    *cursor = bytes.len();
    frame_fault(&bytes[at..], fault)
}

/// Writes the messages at offset `start` and after it into `items`, as far as there is room.
/// Returns their number, and the offset of what follows. Requires a complete frame of `size` bytes
/// at `start`, and room for it.
///
/// Writes the first message before the loop, because its frame is already checked.
#[tactic(auto, using(crate::proofs::WalkLemmas::held_fits))]
#[inline(always)]
fn fill(bytes: &[u8], start: usize, size: usize, items: &mut [MessageItem]) -> (usize, usize)
    requires inside { start + 16 ≤ length bytes.now }
    requires holds { HoldsFrame (drop start bytes.now) }
    requires said { size ≡ field 0 4 (drop start bytes.now) }
    requires one { 0 < length items.now }
    ensures filled { MessagesAt bytes.now start (take result.0 items.new) result.1 }
    ensures most { result.0 < length items.old → HoldsFrame (drop result.1 bytes.now) → ⊥ }
    ensures fits { result.0 ≤ length items.old }
    ensures rest { drop result.0 items.new ≡ drop result.0 items.old }
{
    let mut at = start;
    // How many bytes there are after a header at `at`.
    let mut room = bytes.len() - NETLINK_HEADER_LEN - start;
    items[0] = message_of(bytes, &Part { offset: at, size });
    let padded = nla_align(size);
    if padded > room {
        return (1, after(bytes, at, size));
    }
    at += padded;
    room -= padded;
    let mut count = 1;
    while count < items.len() {
        match size_within(bytes, at, room) {
            Some(size) => {
                items[count] = message_of(bytes, &Part { offset: at, size });
                count += 1;
                let whole = nla_align(size);
                if whole > room {
                    return (count, after(bytes, at, size));
                }
                at += whole;
                room -= whole;
            }
            None => return (count, at),
        }
    }
    (count, at)
}

/// Returns the length field at offset `at` if there is a complete frame, and `None` otherwise.
#[inline(always)]
fn size_at(bytes: &[u8], at: usize) -> Option<usize>
    ensures whole { IfSome result (λ size. (at + 16 ≤ length bytes.now)
        × HoldsFrame (drop at bytes.now) × (size ≡ field 0 4 (drop at bytes.now))) }
    ensures none { IfNone result (HoldsFrame (drop at bytes.now) → ⊥) }
{
    if bytes.len() < NETLINK_HEADER_LEN {
        return None;
    }
    // Where the last header can start. One comparison shows that one fits at `at`.
    let last = bytes.len() - NETLINK_HEADER_LEN;
    if at > last {
        return None;
    }
    size_within(bytes, at, last - at)
}

/// Returns what `size_at` returns. Requires that there are `room` bytes after a header at `at`.
#[inline(always)]
fn size_within(bytes: &[u8], at: usize, room: usize) -> Option<usize>
    requires room { at + 16 + room ≡ length bytes.now }
    ensures whole { IfSome result (λ size. HoldsFrame (drop at bytes.now)
        × (size ≡ field 0 4 (drop at bytes.now))) }
    ensures none { IfNone result (HoldsFrame (drop at bytes.now) → ⊥) }
{
    let size = NetlinkBuffer::new(&bytes[at..]).length() as usize;
    // One comparison for both bounds, as in `frame_size`.
    if size.wrapping_sub(NETLINK_HEADER_LEN) > room {
        return None;
    }
    Some(size)
}
