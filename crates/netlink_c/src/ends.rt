//! Nests and frames, begun and ended in a caller's buffer.

ghost use Rattle.std.specs.Prelude.{◌≡◌, ◌≢◌, ◌+◌, ◌-◌, ◌<◌, ◌≤◌, ◌++◌, ◌^◌, ◌%◌, ◌↔◌};
ghost use Rattle.std.specs.Prelude.{IsTrue, drop, length, replicate, slice_range};
ghost use Rattle.netlink_packet_core.specs.Attribute.{padding};
ghost use Rattle.netlink_packet_core.specs.Header.{header_bytes};
ghost use Rattle.netlink_packet_core.specs.Nla.{attribute_with};
ghost use Rattle.netlink_packet_core.specs.Numbers.{bytes_le};
ghost use Rattle.netlink_packet_core.specs.Storage.{put_at};
ghost use Rattle.netlink_packet_core.specs.Views.{attribute_of, raw_kind, HoldsAttribute};
ghost use Rattle.netlink_tree.specs.FrameWalk.{StartsFrame};
ghost use Rattle.netlink_c.specs.Ends.{IsEndResult, IsPutFrameResult, IsStretch, PutsFrame};
ghost use Rattle.netlink_c.specs.Ends.{begun_size, frame_bytes};

use crate::results::{NO_PLACE, NO_ROOM, OK, TOO_LONG};
use netlink_packet_core::{
    Emitable, NETLINK_HEADER_LEN, NLA_HEADER_SIZE, NetlinkHeader, nlmsg_align, put_u16, put_u32,
};

/// Ends a nest: the bytes after the header at `start`, up to the cursor, become its value.
///
/// Returns 0; `NO_PLACE` if the cursor is outside the buffer, fewer than 4 bytes after the start,
/// or at a distance that is not a multiple of 4; otherwise `TOO_LONG` if the value has more than
/// `NLA_VALUE_MAX` bytes. Writes the length field, and nothing else. Does not allocate.
#[unsafe(no_mangle)]
pub extern "C" fn nlp_nest_end(buffer: &mut [u8], cursor: usize, start: usize) -> u32
    ensures outcome { IsEndResult 4 (2 ^ 16) (length buffer.old) start cursor result }
    ensures written { result ≡ 0 → buffer.new
        ≡ put_at buffer.old start (bytes_le (cursor - start) 2) }
    ensures reads_back { result ≡ 0 → HoldsAttribute (drop start buffer.new)
        × (attribute_of (drop start buffer.new)
        ≡ attribute_with (raw_kind (drop start buffer.old))
        (slice_range buffer.old (start + 4) cursor)) }
    ensures unchanged { result ≢ 0 → buffer.new ≡ buffer.old }
{
    if !is_stretch(buffer.len(), start, cursor, NLA_HEADER_SIZE) {
        return NO_PLACE;
    }
    let size = cursor - start;
    if size > u16::MAX as usize {
        return TOO_LONG;
    }
    put_u16(buffer, start, size as u16);
    OK
}

/// Begins a frame: puts its header, whose length field counts what is put here, then the bytes of
/// the sub-protocol's fixed header, and zeros up to a multiple of 4.
///
/// Ignores the length in the caller's header. Returns 0, and moves the cursor past the zeros;
/// `TOO_LONG` if the length does not fit in 32 bits; otherwise `NO_ROOM` if there is no room. What
/// is put after that belongs to the frame once `nlp_frame_end` is called with the old cursor. Does
/// not allocate.
#[unsafe(no_mangle)]
pub extern "C" fn nlp_frame_put(
    buffer: &mut [u8],
    cursor: &mut usize,
    header: &NetlinkHeader,
    fixed: &[u8],
) -> u32
    ensures outcome { IsPutFrameResult (length fixed.now) (length buffer.old) cursor.old result }
    ensures written { result ≡ 0
        → PutsFrame header.now fixed.now buffer.old cursor.old buffer.new cursor.new }
    ensures reads_back { result ≡ 0
        → StartsFrame (drop cursor.old buffer.new) (frame_bytes header.now fixed.now)
        (drop cursor.new buffer.new) }
    ensures unchanged { result ≢ 0 → (buffer.new ≡ buffer.old) × (cursor.new ≡ cursor.old) }
{
    if fixed.len() > u32::MAX as usize - NETLINK_HEADER_LEN {
        return TOO_LONG;
    }
    let size = fixed.len() + NETLINK_HEADER_LEN;
    let whole = nlmsg_align(size);
    let at = *cursor;
    if at > buffer.len() || buffer.len() - at < whole {
        return NO_ROOM;
    }
    let mut begun = *header;
    begun.length = size as u32;
    put_frame_at(buffer, at, whole, &begun, fixed);
    *cursor = at + whole;
    OK
}

/// Ends a frame: its length field becomes the number of bytes from `start` up to the cursor.
///
/// Returns 0; `NO_PLACE` if the cursor is outside the buffer, fewer than 16 bytes after the start,
/// or at a distance that is not a multiple of 4; otherwise `TOO_LONG` if the length does not fit in
/// 32 bits. Writes the length field, and nothing else. Does not allocate.
#[unsafe(no_mangle)]
pub extern "C" fn nlp_frame_end(buffer: &mut [u8], cursor: usize, start: usize) -> u32
    ensures outcome { IsEndResult 16 (2 ^ 32) (length buffer.old) start cursor result }
    ensures written { result ≡ 0 → buffer.new
        ≡ put_at buffer.old start (bytes_le (cursor - start) 4) }
    ensures reads_back { result ≡ 0
        → StartsFrame (drop start buffer.new) (slice_range buffer.new start cursor)
        (drop cursor buffer.new) }
    ensures unchanged { result ≢ 0 → buffer.new ≡ buffer.old }
{
    if !is_stretch(buffer.len(), start, cursor, NETLINK_HEADER_LEN) {
        return NO_PLACE;
    }
    let size = cursor - start;
    if size > u32::MAX as usize {
        return TOO_LONG;
    }
    put_u32(buffer, start, size as u32);
    OK
}

/// Returns whether the bytes from the start up to the cursor are in the buffer, and are at least
/// `least` and a multiple of 4.
fn is_stretch(room: usize, start: usize, cursor: usize, least: usize) -> bool
    ensures { IsTrue result ↔ IsStretch room start cursor least }
{
    start <= cursor && cursor <= room && cursor - start >= least && (cursor - start) % 4 == 0
}

/// Writes a frame of this size, with its padding, at an offset.
fn put_frame_at(buffer: &mut [u8], at: usize, whole: usize, header: &NetlinkHeader, fixed: &[u8])
    requires size { whole ≡ begun_size (length fixed.now) }
    requires room { at + whole ≤ length buffer.old }
    ensures { buffer.new ≡ put_at buffer.old at
        ((header_bytes header.now ++ fixed.now) ++ replicate (padding (length fixed.now)) 0) }
{
    write_frame(&mut buffer[at..at + whole], header, fixed);
}

/// Fills the buffer with the header, the bytes, and zeros.
#[tactic(auto, using(crate::proofs::EndLemmas::frame_sizes))]
fn write_frame(buffer: &mut [u8], header: &NetlinkHeader, fixed: &[u8])
    requires room { length fixed.now + 16 ≤ length buffer.old }
    ensures { buffer.new ≡ (header_bytes header.now ++ fixed.now) ++ replicate
        (length buffer.old - (16 + length fixed.now)) 0 }
{
    let (front, rest) = buffer.split_at_mut(NETLINK_HEADER_LEN);
    header.emit(front);
    let (value, padding) = rest.split_at_mut(fixed.len());
    value.copy_from_slice(fixed);
    padding.fill(0);
}
