//! A frame as text, with its attributes, written into the caller's buffer.

ghost use Rattle.std.specs.Prelude.{◌≡◌, ◌+◌, ◌*◌, ◌<◌, ◌≤◌, ◌^◌, ◌++◌, List, Option, decimal, drop, false, length, take};
ghost use Rattle.netlink_packet_core.specs.Attribute.{Attribute};
ghost use Rattle.netlink_packet_core.specs.DecodeError.{DecodeError};
ghost use Rattle.netlink_packet_core.specs.Header.{HoldsFrame, payload_of};
ghost use Rattle.netlink_packet_core.specs.Refusal.{IsFrameFault};
ghost use Rattle.netlink_packet_core.specs.Text.{hex_text};
ghost use Rattle.netlink_packet_core.specs.Walk.{Walk};
ghost use Rattle.netlink_c.specs.Describe.{attribute_line, attributes_after, bytes_line, flags_text, message_text, walk_lines};
ghost use Rattle.netlink_c.specs.Fault.{Refuses};
ghost use Rattle.netlink_c.specs.Messages.{fixed_part};
ghost use Rattle.netlink_c.specs.Out.{AddsAt, CopiesOut};

use crate::describe::{BEFORE_MAX, hex_size, prepend_number, put, put_hex, write_before};
use crate::fault::{FaultNumbers, refused};
use crate::messages::padded_within;
use crate::results::{NO_ROOM, OK};
use crate::walk::{after, attribute_size};
use netlink_packet_core::{
    NLA_F_NESTED, NLA_F_NET_BYTEORDER, NLA_HEADER_SIZE, NetlinkBuffer, NlaBuffer,
};

/// Writes the complete frame that the bytes begin with as text, without a zero at its end, with the
/// attributes after a fixed header of `fixed` bytes. The lines are those of `nlp_describe`, except
/// that in place of the payload there is `header BYTES`, the fixed header with its padding, or what
/// the payload has of them; and then for each attribute `attribute KIND FLAGS LENGTH BYTES`: its
/// kind without the two flag bits, `N` or `-` and `B` or `-` for these, its length field, and its
/// value. If the walk of the attributes ends in an error, the last line is `rest BYTES`, with the
/// bytes from there on.
///
/// Returns 0 on success; the text is then the first `size` bytes of `buffer`. Returns `NO_ROOM`, and
/// sets `size` to the size that is needed, if the text does not fit in `buffer`. Returns
/// `FrameShort`, `FrameCut` or `FrameLength` if there is no complete frame, and leaves `size`
/// unchanged. Changes `buffer` only if it returns 0. Does not allocate.
#[tactic(auto, using(crate::proofs::DescribeLemmas::no_fault))]
#[unsafe(no_mangle)]
pub extern "C" fn nlp_describe_attrs(
    bytes: &[u8],
    fixed: usize,
    buffer: &mut [u8],
    size: &mut usize,
    fault: &mut FaultNumbers,
) -> u32
    ensures text { HoldsFrame bytes.now → (all : List Attribute) → (end : Option DecodeError)
        → Walk (attributes_after fixed (payload_of bytes.now)) all end
        → CopiesOut (message_text fixed bytes.now all end) buffer.old buffer.new size.new result }
    ensures unfaulted { HoldsFrame bytes.now → fault.new ≡ fault.old }
    ensures refuses { (HoldsFrame bytes.now → ⊥)
        → Refuses (IsFrameFault false bytes.now) result fault.new × (buffer.new ≡ buffer.old)
        × (size.new ≡ size.old) }
{
    match NetlinkBuffer::new_checked(bytes) {
        Ok(view) => {
            let mut before = [0u8; BEFORE_MAX];
            let start = write_before(&mut before, bytes, b"header ");
            write_message(&before[start..], view.payload(), fixed, buffer, size)
        }
        Err(cause) => refused(fault, &cause),
    }
}

/// Writes the text of a frame, given the part before its fixed header. Returns 0 or `NO_ROOM`.
fn write_message(
    before: &[u8],
    payload: &[u8],
    fixed: usize,
    buffer: &mut [u8],
    size: &mut usize,
) -> u32
    requires short { (length before.now ≤ 95) × (length payload.now < 2 ^ 32) }
    ensures { (all : List Attribute) → (end : Option DecodeError)
        → Walk (attributes_after fixed payload.now) all end
        → CopiesOut (before.now ++ (bytes_line (take (fixed_part fixed (length payload.now)) payload.now)
        ++ walk_lines (attributes_after fixed payload.now) all end))
        buffer.old buffer.new size.new result }
{
    let split = header_size(fixed, payload.len());
    let (header, block) = (&payload[..split], &payload[split..]);
    *size = add_parts(&mut [], before, header, block);
    if *size > buffer.len() {
        return NO_ROOM;
    }
    add_parts(buffer, before, header, block);
    OK
}

/// Returns how much of a fixed header and its padding a payload of this size has.
fn header_size(fixed: usize, size: usize) -> usize
    ensures sum { result ≡ fixed_part fixed size }
    ensures within { result ≤ size }
{
    if fixed < size {
        padded_within(fixed, size)
    } else {
        size
    }
}

/// Writes the parts of a text at the start of a buffer, if there is room, and returns their size.
fn add_parts(buffer: &mut [u8], before: &[u8], header: &[u8], block: &[u8]) -> usize
    requires short { (length before.now ≤ 95) × (length header.now < 2 ^ 32)
        × (length block.now < 2 ^ 32) }
    ensures { (all : List Attribute) → (end : Option DecodeError) → Walk block.now all end
        → AddsAt (before.now ++ (bytes_line header.now ++ walk_lines block.now all end)) 0
        buffer.old buffer.new result }
{
    let at = add(buffer, 0, before);
    let at = add_bytes(buffer, at, header);
    add_attributes(buffer, at, block)
}

/// Writes the lines of the attributes of a block at an offset, if there is room, and returns where
/// they end.
fn add_attributes(buffer: &mut [u8], at: usize, block: &[u8]) -> usize
    requires short { (at < 2 ^ 36) × (length block.now < 2 ^ 32) }
    ensures { (all : List Attribute) → (end : Option DecodeError) → Walk block.now all end
        → AddsAt (walk_lines block.now all end) at buffer.old buffer.new result }
{
    let mut to = at;
    let mut from = 0;
    while from < block.len() {
        let rest = &block[from..];
        let Some(size) = attribute_size(rest) else {
            to = add(buffer, to, b"rest ");
            return add_bytes(buffer, to, rest);
        };
        let kind = NlaBuffer::new(rest).raw_kind();
        to = add_attribute(buffer, to, kind, &rest[NLA_HEADER_SIZE..size]);
        from = after(block, from, size);
    }
    to
}

/// Writes the line of an attribute at an offset, if there is room, and returns where it ends.
fn add_attribute(buffer: &mut [u8], at: usize, kind: u16, value: &[u8]) -> usize
    requires short { (at < 2 ^ 60) × (length value.now < 65532) }
    ensures adds { AddsAt (attribute_line (record { kind = kind; value = value.now })) at buffer.old
        buffer.new result }
    ensures bound { result ≤ at + 8 * (4 + length value.now) }
{
    let at = add(buffer, at, b"attribute ");
    let at = add_number(buffer, at, kind % NLA_F_NET_BYTEORDER);
    let at = add(buffer, at, flags(kind));
    let at = add_number(buffer, at, (NLA_HEADER_SIZE + value.len()) as u16);
    let at = add(buffer, at, b" ");
    add_bytes(buffer, at, value)
}

/// Returns the text of the two flag bits of a kind, with a space on each side.
fn flags(kind: u16) -> &'static [u8]
    ensures text { result.now ≡ flags_text kind }
    ensures size { length result.now ≡ 4 }
{
    if kind < NLA_F_NET_BYTEORDER {
        b" -- "
    } else if kind < NLA_F_NESTED {
        b" -B "
    } else if kind < NLA_F_NESTED + NLA_F_NET_BYTEORDER {
        b" N- "
    } else {
        b" NB "
    }
}

/// Writes a number in decimal at an offset, if there is room, and returns where it ends.
fn add_number(buffer: &mut [u8], at: usize, number: u16) -> usize
    requires short { at < 2 ^ 63 }
    ensures adds { AddsAt (decimal number) at buffer.old buffer.new result }
    ensures bound { result ≤ at + 5 }
{
    let mut digits = [0u8; 10];
    let start = prepend_number(&mut digits, 10, u32::from(number));
    add(buffer, at, &digits[start..])
}

/// Writes bytes in hexadecimal and a line feed at an offset, if there is room, and returns where
/// they end.
fn add_bytes(buffer: &mut [u8], at: usize, bytes: &[u8]) -> usize
    requires short { (at < 2 ^ 62) × (length bytes.now < 2 ^ 32) }
    ensures adds { AddsAt (bytes_line bytes.now) at buffer.old buffer.new result }
    ensures bound { result ≤ at + (2 * length bytes.now + 2) }
{
    let at = add_hex(buffer, at, bytes);
    add(buffer, at, b"\n")
}

/// Writes bytes in hexadecimal at an offset, if there is room, and returns where they end.
fn add_hex(buffer: &mut [u8], at: usize, bytes: &[u8]) -> usize
    requires short { (at < 2 ^ 62) × (length bytes.now < 2 ^ 32) }
    ensures adds { AddsAt (hex_text bytes.now) at buffer.old buffer.new result }
{
    let end = at + hex_size(bytes);
    if end <= buffer.len() {
        put_hex(buffer, at, bytes);
    }
    end
}

/// Writes a text at an offset, if there is room, and returns where it ends.
fn add(buffer: &mut [u8], at: usize, text: &[u8]) -> usize
    requires short { at + length text.now < 2 ^ 64 }
    ensures { AddsAt text.now at buffer.old buffer.new result }
{
    let end = at + text.len();
    if end <= buffer.len() {
        put(buffer, at, text);
    }
    end
}
