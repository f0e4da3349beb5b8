//! Canonical forms: whether bytes are canonical, and writing their canonical form into the caller's
//! buffer.

ghost use Rattle.std.specs.Prelude.{◌≡◌, ◌↔◌, ◌⊎◌, ◌≢◌, ◌≤◌, [], List, None, Some, IsTrue, take};
ghost use Rattle.std.specs.Prelude.{length};
ghost use Rattle.netlink_packet_core.specs.Attribute.{Attribute};
ghost use Rattle.netlink_packet_core.specs.Block.{canonical_block, IsCanonicalBlock};
ghost use Rattle.netlink_packet_core.specs.Canonical.{Fits, IsCanonicalFrame, canonical_frame};
ghost use Rattle.netlink_packet_core.specs.Canonical.{IsNormalizeFault};
ghost use Rattle.netlink_packet_core.specs.DecodeError.{DecodeError};
ghost use Rattle.netlink_packet_core.specs.Frame.{Frame};
ghost use Rattle.netlink_packet_core.specs.Walk.{Walk};
ghost use Rattle.netlink_packet_core.specs.declared.message.NetlinkMessage.{NetlinkMessage};
ghost use Rattle.netlink_c.specs.Any.{any_decoding, any_encoding, wants_memory};
ghost use Rattle.netlink_c.specs.Fault.{Refuses, IsOutOfMemory, numbers_of};
ghost use Rattle.netlink_c.specs.Out.{CopiesOut, FrameCopiedOut};
ghost use Rattle.netlink_c.specs.declared.any.AnyMessage.{AnyMessage};
ghost use Rattle.netlink_packet_core.specs.Causes.{cause_number};

use crate::any::AnyMessage;
use crate::fault::{FaultNumbers, refused};
use crate::results::{NO_ROOM, OK};
use netlink_packet_core::{is_canonical_frame, is_canonical_nlas, normalize, normalize_nlas};
use std::alloc::Global;

/// Returns whether the bytes are a canonical block: attributes one after another, each with all of
/// its padding, as zeros. Wraps `is_canonical_nlas`. Does not allocate.
#[unsafe(no_mangle)]
pub extern "C" fn nlp_attrs_is_canonical(bytes: &[u8]) -> bool
    ensures canonical { IsTrue result ↔ IsCanonicalBlock bytes.now }
{
    is_canonical_nlas(bytes)
}

/// Writes the canonical block for the bytes: the attributes that walking them yields, each padded
/// with zeros.
///
/// Returns 0 on success; the block is then the first `size` bytes of `buffer`. Returns
/// `NlaBufferTooSmall`, `NlaLengthMismatch` or `NlaInvalidLength` if that error ends the walk, and
/// `OutOfMemory` if an allocation fails. Returns `NO_ROOM`, and sets `size` to the size that is
/// needed, if the block does not fit in `buffer`. Changes `buffer` only if it returns 0. Wraps
/// `normalize_nlas`, which allocates at most once, for the size of the block.
#[unsafe(no_mangle)]
pub extern "C" fn nlp_attrs_normalize(
    alloc: Global,
    bytes: &[u8],
    buffer: &mut [u8],
    size: &mut usize,
    fault: &mut FaultNumbers,
) -> u32
    ensures writes { (all : List Attribute) → Walk bytes.now all None
        → CopiesOut (canonical_block all) buffer.old buffer.new size.new result
        ⊎ (IsOutOfMemory result fault.new × (buffer.new ≡ buffer.old) × (size.new ≡ size.old)) }
    ensures refuses { (all : List Attribute) (e : DecodeError) → Walk bytes.now all (Some e)
        → (result ≡ cause_number e) × (fault.new ≡ numbers_of e) × (buffer.new ≡ buffer.old)
        × (size.new ≡ size.old) }
    ensures unfaulted { result ≡ 0 → fault.new ≡ fault.old }
    ensures canonical { result ≡ 0 → IsCanonicalBlock (take size.new buffer.new) }
    ensures unchanged { result ≡ 0 → (take size.new buffer.new ≡ bytes.now)
        ↔ IsCanonicalBlock bytes.now }
{
    match normalize_nlas(alloc, bytes) {
        Ok(block) => copy_out(block.as_slice(), buffer, size),
        Err(cause) => refused(fault, &cause),
    }
}

/// Sets `canonical` to 1 if the bytes are a canonical frame, and to 0 if they are not. If the type
/// is 16 or greater, the payload may be any bytes.
///
/// Returns 0 on success. Returns `OutOfMemory`, and leaves `canonical` unchanged, if an allocation
/// fails. Wraps `is_canonical_frame`, and allocates only to copy the payload of a message with a
/// type of 16 or greater.
#[unsafe(no_mangle)]
pub extern "C" fn nlp_frame_is_canonical(
    alloc: Global,
    bytes: &[u8],
    canonical: &mut u32,
    fault: &mut FaultNumbers,
) -> u32
    ensures yes { result ≡ 0 → (canonical.new ≡ 1) ↔ IsCanonicalFrame any_decoding bytes.now }
    ensures no { result ≡ 0 → (canonical.new ≡ 1) ⊎ (canonical.new ≡ 0) }
    ensures memory { result ≢ 0 → IsOutOfMemory result fault.new
        × (canonical.new ≡ canonical.old) }
    ensures unfaulted { result ≡ 0 → fault.new ≡ fault.old }
{
    match is_canonical_frame::<AnyMessage>(alloc, bytes) {
        Ok(yes) => {
            *canonical = u32::from(yes);
            OK
        }
        Err(cause) => refused(fault, &cause),
    }
}

/// Writes the canonical frame of the message whose frame is at the start of the bytes. If the type
/// is 16 or greater, the payload may be any bytes.
///
/// Returns 0 on success; the frame is then the first `size` bytes of `buffer`. Returns the error of
/// `NetlinkMessage::deserialize` if that rejects the bytes, `TooLong` if the length of the message
/// does not fit in 32 bits, and `OutOfMemory` if an allocation fails. Returns `NO_ROOM`, and sets
/// `size` to the size that is needed, if the frame does not fit in `buffer`. Changes `buffer` only
/// if it returns 0. Wraps `normalize`, which allocates for the frame, and for what it decodes of a
/// message with a type less than 16.
#[unsafe(no_mangle)]
pub extern "C" fn nlp_frame_normalize(
    alloc: Global,
    bytes: &[u8],
    buffer: &mut [u8],
    size: &mut usize,
    fault: &mut FaultNumbers,
) -> u32
    ensures outcome { FrameCopiedOut bytes.now buffer.old buffer.new size.new result
        ⊎ (Refuses (IsNormalizeFault any_encoding any_decoding wants_memory bytes.now) result
        fault.new × (buffer.new ≡ buffer.old) × (size.new ≡ size.old)) }
    ensures unfaulted { result ≡ 0 → fault.new ≡ fault.old }
    ensures fixed { IsCanonicalFrame any_decoding bytes.now
        → CopiesOut bytes.now buffer.old buffer.new size.new result
        ⊎ IsOutOfMemory result fault.new }
    ensures only_fixed { result ≡ 0 → take size.new buffer.new ≡ bytes.now
        → IsCanonicalFrame any_decoding bytes.now }
    ensures again { result ≡ 0 → (n : NetlinkMessage AnyMessage)
        → Frame any_decoding (take size.new buffer.new) n → canonical_frame any_encoding n
        ≡ take size.new buffer.new }
{
    match normalize::<AnyMessage>(alloc, bytes) {
        Ok(frame) => copy_out(frame.as_slice(), buffer, size),
        Err(cause) => refused(fault, &cause),
    }
}

/// Sets `size` to the number of bytes, and writes them at the start of `buffer`, leaving the rest
/// unchanged. Returns 0 on success. Returns `NO_ROOM`, and leaves `buffer` unchanged, if they do
/// not fit.
pub(crate) fn copy_out(bytes: &[u8], buffer: &mut [u8], size: &mut usize) -> u32
    ensures copies { CopiesOut bytes.now buffer.old buffer.new size.new result }
    ensures outcome { (result ≡ 0) ⊎ (result ≡ 8) }
{
    *size = bytes.len();
    if bytes.len() > buffer.len() {
        return NO_ROOM;
    }
    buffer[..bytes.len()].copy_from_slice(bytes);
    OK
}
