//! The messages of a datagram, and the attributes of each.

ghost use Rattle.std.specs.Prelude.{◌≡◌, ◌≢◌, ◌↔◌, ◌⊎◌, ◌+◌, ◌≤◌, drop, false, length};
ghost use Rattle.netlink_packet_core.specs.Header.{field, header_of};
ghost use Rattle.netlink_packet_core.specs.Refusal.{IsFrameFault};
ghost use Rattle.netlink_c.specs.Fault.{Refuses};
ghost use Rattle.netlink_c.specs.Messages.{FindsAttributes, StartsMessageAt, fixed_part, message_at};

use crate::fault::FaultNumbers;
use crate::frame::Part;
use crate::results::{NO_PLACE, OK, WRONG_SIZE};
use crate::walk::nlp_frames_next;
use netlink_packet_core::{NETLINK_HEADER_LEN, NetlinkHeader, parse_u64};

/// A message of a datagram (`struct nlp_message`): its header, and where its payload is.
#[derive(Clone, Copy, Debug, PartialEq, Eq)]
#[repr(C)]
pub struct MessageItem {
    /// The five fields of the header.
    pub header: NetlinkHeader,
    /// The payload. Its offset is relative to the start of the datagram.
    pub payload: Part,
}

/// Writes the header and the location of the payload of the message at `cursor` into `item`, and
/// moves the cursor past the message and its padding.
///
/// Returns what `nlp_frames_next` returns, which it wraps. Changes `item` only if it returns 0. Does
/// not allocate.
#[tactic(auto, using(crate::proofs::MessageLemmas::frame_least))]
#[unsafe(no_mangle)]
pub extern "C" fn nlp_message_read(
    bytes: &[u8],
    cursor: &mut usize,
    item: &mut MessageItem,
    fault: &mut FaultNumbers,
) -> u32
    ensures end { (result ≡ 32) ↔ (length bytes.now ≤ cursor.old) }
    ensures stays { result ≡ 32 → cursor.new ≡ cursor.old }
    ensures item { result ≡ 0 → StartsMessageAt bytes.now cursor.old item.new cursor.new }
    ensures refuses { result ≢ 0 → result ≢ 32
        → Refuses (IsFrameFault false (drop cursor.old bytes.now)) result fault.new
        × (cursor.new ≡ length bytes.now) }
    ensures kept { result ≢ 0 → item.new ≡ item.old }
    ensures unfaulted { (result ≡ 0) ⊎ (result ≡ 32) → fault.new ≡ fault.old }
{
    let mut frame = Part { offset: 0, size: 0 };
    let result = nlp_frames_next(bytes, cursor, &mut frame, fault);
    if result != OK {
        return result;
    }
    *item = message_of(bytes, &frame);
    OK
}

/// Writes the location of the attributes of a message into `attributes`: what is after a fixed
/// header of `fixed` bytes and its padding. The offset is relative to what that of the payload is.
///
/// Returns 0; `NO_PLACE` if the payload's offset and size have a sum that is not a `usize`, which
/// `nlp_message_read` never writes; otherwise `WRONG_SIZE` if the payload has fewer than `fixed`
/// bytes. Changes `attributes` only if it returns 0. Does not allocate.
#[unsafe(no_mangle)]
pub extern "C" fn nlp_message_attrs(
    message: &MessageItem,
    fixed: usize,
    attributes: &mut Part,
) -> u32
    ensures finds { FindsAttributes message.now.payload fixed attributes.old attributes.new result }
{
    let payload = message.payload;
    if payload.offset > usize::MAX - payload.size {
        return NO_PLACE;
    }
    if fixed > payload.size {
        return WRONG_SIZE;
    }
    let before = padded_within(fixed, payload.size);
    *attributes = Part {
        offset: payload.offset + before,
        size: payload.size - before,
    };
    OK
}

/// Returns the size of a fixed header with its padding, as far as a payload of this size has it.
pub(crate) fn padded_within(fixed: usize, size: usize) -> usize
    requires inside { fixed ≤ size }
    ensures sum { result ≡ fixed_part fixed size }
    ensures within { result ≤ size }
{
    let padding = (4 - fixed % 4) % 4;
    if size - fixed < padding {
        size
    } else {
        fixed + padding
    }
}

/// Returns the message whose frame is this part of the bytes.
#[inline(always)]
pub(crate) fn message_of(bytes: &[u8], frame: &Part) -> MessageItem
    requires inside { frame.now.offset + frame.now.size ≤ length bytes.now }
    requires least { 16 ≤ frame.now.size }
    ensures { result ≡ message_at bytes.now frame.now }
{
    MessageItem {
        header: header_at(&bytes[frame.offset..]),
        payload: Part {
            offset: frame.offset + NETLINK_HEADER_LEN,
            size: frame.size - NETLINK_HEADER_LEN,
        },
    }
}

/// Returns the header that the bytes begin with. Requires at least 16 bytes.
///
/// Reads two integers of 8 bytes instead of five fields. The compiler then copies the header at
/// once, which takes three instructions less.
#[inline(always)]
fn header_at(bytes: &[u8]) -> NetlinkHeader
    requires least { 16 ≤ length bytes.now }
    ensures { result ≡ header_of bytes.now }
{
    let front = number_at(bytes, 0);
    let back = number_at(bytes, 8);
    NetlinkHeader {
        length: (front % (1 << 32)) as u32,
        message_type: (front / (1 << 32) % (1 << 16)) as u16,
        flags: (front / (1 << 48)) as u16,
        sequence_number: (back % (1 << 32)) as u32,
        port_number: (back / (1 << 32)) as u32,
    }
}

/// Returns the integer in the 8 bytes at offset `at`. Requires `at + 8 <= bytes.len()`.
#[inline(always)]
fn number_at(bytes: &[u8], at: usize) -> u64
    requires inside { at + 8 ≤ length bytes.now }
    ensures { result ≡ field at 8 bytes.now }
{
    parse_u64(&bytes[at..at + 8]).unwrap_or(0)
}
