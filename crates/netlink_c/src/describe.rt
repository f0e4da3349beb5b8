//! A frame as text, written into the caller's buffer.

ghost use Rattle.std.specs.Prelude.{◌≡◌, ◌+◌, ◌<◌, ◌≤◌, ◌^◌, ◌++◌, decimal, drop, false, length};
ghost use Rattle.netlink_packet_core.specs.Header.{HoldsFrame};
ghost use Rattle.netlink_packet_core.specs.Refusal.{IsFrameFault};
ghost use Rattle.netlink_packet_core.specs.Storage.{put_at};
ghost use Rattle.netlink_packet_core.specs.Text.{hex_digits, hex_text, number_line};
ghost use Rattle.netlink_c.specs.Describe.{frame_text, bytes_line, text_before};
ghost use Rattle.netlink_c.specs.Fault.{Refuses};
ghost use Rattle.netlink_c.specs.Out.{CopiesOut};

use crate::fault::{FaultNumbers, refused};
use crate::results::{NO_ROOM, OK};
use netlink_packet_core::{NetlinkBuffer, hex_pair};

/// The maximum size of the text before the bytes: 40 bytes of names, and five lines of a number with
/// up to 10 digits and a line feed.
pub(crate) const BEFORE_MAX: usize = 95;

/// Writes the complete frame that the bytes begin with as text, without a zero at its end. The six
/// lines are `length N`, `type N`, `flags N`, `sequence N`, `port N` in decimal, and `payload
/// BYTES`: two hexadecimal digits per byte, or `-` if there are none.
///
/// Returns 0 on success; the text is then the first `size` bytes of `buffer`. Returns `NO_ROOM`, and
/// sets `size` to the size that is needed, if the text does not fit in `buffer`. Returns
/// `FrameShort`, `FrameCut` or `FrameLength` if there is no complete frame, and leaves `size`
/// unchanged. Changes `buffer` only if it returns 0. Does not allocate.
#[tactic(auto, using(crate::proofs::DescribeLemmas::no_fault))]
#[unsafe(no_mangle)]
pub extern "C" fn nlp_describe(
    bytes: &[u8],
    buffer: &mut [u8],
    size: &mut usize,
    fault: &mut FaultNumbers,
) -> u32
    ensures text { HoldsFrame bytes.now
        → CopiesOut (frame_text bytes.now) buffer.old buffer.new size.new result }
    ensures unfaulted { HoldsFrame bytes.now → fault.new ≡ fault.old }
    ensures refuses { (HoldsFrame bytes.now → ⊥)
        → Refuses (IsFrameFault false bytes.now) result fault.new × (buffer.new ≡ buffer.old)
        × (size.new ≡ size.old) }
{
    match NetlinkBuffer::new_checked(bytes) {
        Ok(view) => {
            let mut before = [0u8; BEFORE_MAX];
            let start = write_before(&mut before, bytes, b"payload ");
            write_text(&before[start..], view.payload(), buffer, size)
        }
        Err(cause) => refused(fault, &cause),
    }
}

/// Writes the lines of the header, and then a name, so that they end at the end of `lines`, and
/// returns their offset. Requires `lines` to have `BEFORE_MAX` bytes.
pub(crate) fn write_before(lines: &mut [u8], bytes: &[u8], name: &[u8]) -> usize
    requires whole { HoldsFrame bytes.now }
    requires room { length lines.old ≡ 95 }
    requires short { length name.now ≤ 8 }
    ensures inside { result ≤ 95 }
    ensures written { drop result lines.new ≡ text_before name.now bytes.now }
{
    let view = NetlinkBuffer::new(bytes);
    let at = prepend(lines, BEFORE_MAX, name);
    let at = prepend_line(lines, at, b"port ", view.port_number());
    let at = prepend_line(lines, at, b"sequence ", view.sequence_number());
    let at = prepend_line(lines, at, b"flags ", u32::from(view.flags()));
    let at = prepend_line(lines, at, b"type ", u32::from(view.message_type()));
    prepend_line(lines, at, b"length ", view.length())
}

/// Writes the line of a name and a number so that it ends at `end`, and returns its offset.
fn prepend_line(lines: &mut [u8], end: usize, name: &[u8], number: u32) -> usize
    requires room { (length name.now + 11 ≤ end) × (end ≤ length lines.old) }
    ensures size { (result ≤ end) × (end ≤ result + (length name.now + 11)) }
    ensures written { drop result lines.new ≡ number_line name.now number ++ drop end lines.old }
{
    let at = prepend(lines, end, b"\n");
    let at = prepend_number(lines, at, number);
    prepend(lines, at, name)
}

/// Writes a number in decimal so that it ends at `end`, and returns its offset.
pub(crate) fn prepend_number(lines: &mut [u8], end: usize, number: u32) -> usize
    requires room { (10 ≤ end) × (end ≤ length lines.old) }
    ensures size { result + length (decimal number) ≡ end }
    ensures written { drop result lines.new ≡ decimal number ++ drop end lines.old }
{
    let mut left = number;
    let mut at = end;
    while left >= 10 {
        at = prepend(lines, at, &[b'0' + (left % 10) as u8]);
        left /= 10;
    }
    prepend(lines, at, &[b'0' + left as u8])
}

/// Writes a text so that it ends at `end`, and returns its offset.
fn prepend(lines: &mut [u8], end: usize, text: &[u8]) -> usize
    requires room { (length text.now ≤ end) × (end ≤ length lines.old) }
    ensures size { result + length text.now ≡ end }
    ensures written { drop result lines.new ≡ text.now ++ drop end lines.old }
{
    let at = end - text.len();
    put(lines, at, text);
    at
}

/// Writes the text of a frame, given the part before its payload. Returns 0 or `NO_ROOM`.
fn write_text(before: &[u8], payload: &[u8], buffer: &mut [u8], size: &mut usize) -> u32
    requires short { (length before.now ≤ 95) × (length payload.now < 2 ^ 32) }
    ensures { CopiesOut (before.now ++ bytes_line payload.now) buffer.old buffer.new
        size.new result }
{
    let end = before.len() + hex_size(payload);
    *size = end + 1;
    if end >= buffer.len() {
        return NO_ROOM;
    }
    put(buffer, 0, before);
    put_hex(buffer, before.len(), payload);
    put(buffer, end, b"\n");
    OK
}

/// Returns the size of bytes as text.
pub(crate) fn hex_size(bytes: &[u8]) -> usize
    requires short { length bytes.now < 2 ^ 32 }
    ensures size { result ≡ length (hex_text bytes.now) }
    ensures short { result < 2 ^ 34 }
{
    if bytes.is_empty() { 1 } else { bytes.len() * 2 }
}

/// Writes bytes as text at an offset.
pub(crate) fn put_hex(buffer: &mut [u8], at: usize, bytes: &[u8])
    requires room { at + length (hex_text bytes.now) ≤ length buffer.old }
    ensures { buffer.new ≡ put_at buffer.old at (hex_text bytes.now) }
{
    if bytes.is_empty() {
        put(buffer, at, b"-");
    } else {
        put_pairs(buffer, at, bytes);
    }
}

/// Writes two digits per byte at an offset.
fn put_pairs(buffer: &mut [u8], at: usize, bytes: &[u8])
    requires room { at + length (hex_digits bytes.now) ≤ length buffer.old }
    ensures { buffer.new ≡ put_at buffer.old at (hex_digits bytes.now) }
{
    let mut end = at;
    for byte in bytes {
        put(buffer, end, hex_pair(*byte).as_bytes());
        end += 2;
    }
}

/// Writes bytes at an offset.
pub(crate) fn put(buffer: &mut [u8], at: usize, bytes: &[u8])
    requires room { at + length bytes.now ≤ length buffer.old }
    ensures { buffer.new ≡ put_at buffer.old at bytes.now }
{
    buffer[at..at + bytes.len()].copy_from_slice(bytes);
}
