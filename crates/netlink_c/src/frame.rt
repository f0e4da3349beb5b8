//! A frame in place: whether it is complete, its header, its payload, and the bodies of done and
//! error messages.

ghost use Rattle.std.specs.Prelude.{◌≡◌, ◌≢◌, ◌+◌, ◌≤◌, ◌<◌, IfNone, IfSome, length, drop, false};
ghost use Rattle.netlink_packet_core.specs.DecodeError.{DecodeError};
ghost use Rattle.netlink_packet_core.specs.Header.{HoldsFrame, field, header_of, payload_of};
ghost use Rattle.netlink_packet_core.specs.Refusal.{IsFrameFault};
ghost use Rattle.netlink_c.specs.Bodies.{IsShortDone, IsShortHeader, done_code};
ghost use Rattle.netlink_c.specs.Fault.{Refuses};
ghost use Rattle.netlink_c.specs.Parts.{part_of};

use crate::fault::{FaultNumbers, refused};
use crate::results::OK;
use netlink_packet_core::{
    DecodeError, DoneBuffer, NETLINK_HEADER_LEN, NetlinkBuffer, NetlinkHeader,
};

/// A part of a buffer (`struct nlp_part`).
#[derive(Clone, Copy, Debug, PartialEq, Eq)]
#[repr(C)]
pub struct Part {
    /// The offset of the part, in bytes from the start of the buffer.
    pub offset: usize,
    /// The size of the part in bytes.
    pub size: usize,
}

/// Checks that the bytes begin with a complete frame. Returns 0, or the number of `FrameShort`,
/// `FrameCut` or `FrameLength`. Wraps `NetlinkBuffer::new_checked`. Does not allocate.
#[unsafe(no_mangle)]
pub extern "C" fn nlp_frame_check(bytes: &[u8], fault: &mut FaultNumbers) -> u32
    ensures whole { result ≡ 0 → HoldsFrame bytes.now }
    ensures unfaulted { result ≡ 0 → fault.new ≡ fault.old }
    ensures refuses { result ≢ 0 → Refuses (IsFrameFault false bytes.now) result fault.new }
{
    match NetlinkBuffer::new_checked(bytes) {
        Ok(_) => OK,
        Err(cause) => refused(fault, &cause),
    }
}

/// Returns the length field if the bytes begin with a complete frame, and `None` otherwise.
#[inline(always)]
pub(crate) fn frame_size(bytes: &[u8]) -> Option<usize>
    ensures whole { IfSome result (λ size. HoldsFrame bytes.now × (size ≡ field 0 4 bytes.now)) }
    ensures none { IfNone result (HoldsFrame bytes.now → ⊥) }
{
    let left = bytes.len();
    if left < NETLINK_HEADER_LEN {
        return None;
    }
    let size = NetlinkBuffer::new(bytes).length() as usize;
    // One comparison for both bounds: if the size is below that of a header, the difference wraps
    // to a number that exceeds any that can be left.
    if size.wrapping_sub(NETLINK_HEADER_LEN) > left - NETLINK_HEADER_LEN {
        return None;
    }
    Some(size)
}

/// Writes the error of bytes that do not begin with a complete frame, and returns its number.
#[cold]
#[inline(never)]
pub(crate) fn frame_fault(bytes: &[u8], fault: &mut FaultNumbers) -> u32
    requires none { HoldsFrame bytes.now → ⊥ }
    ensures refuses { Refuses (IsFrameFault false bytes.now) result fault.new }
    ensures some { 0 < result }
    ensures below { result ≤ 16 }
{
    match NetlinkBuffer::new_checked(bytes) {
        Ok(_) => unreachable!(),
        Err(cause) => refused(fault, &cause),
    }
}

/// Reads the header that the bytes begin with (`struct nlp_header`, laid out as `struct nlmsghdr`).
/// Returns 0, or the number of `FrameShort` if there are fewer than 16 bytes. The length field may
/// hold any value. Does not allocate.
#[unsafe(no_mangle)]
pub extern "C" fn nlp_frame_header(
    bytes: &[u8],
    header: &mut NetlinkHeader,
    fault: &mut FaultNumbers,
) -> u32
    ensures fields { result ≡ 0 → (16 ≤ length bytes.now)
        × (header.new ≡ header_of bytes.now) }
    ensures unfaulted { result ≡ 0 → fault.new ≡ fault.old }
    ensures refuses { result ≢ 0 → Refuses (IsShortHeader bytes.now) result fault.new
        × (header.new ≡ header.old) }
{
    let size = bytes.len();
    if size < NETLINK_HEADER_LEN {
        return refused(fault, &DecodeError::frame_short(size, false));
    }
    let view = NetlinkBuffer::new(bytes);
    *header = NetlinkHeader {
        length: view.length(),
        message_type: view.message_type(),
        flags: view.flags(),
        sequence_number: view.sequence_number(),
        port_number: view.port_number(),
    };
    OK
}

/// Finds the payload of the complete frame that the bytes begin with. Returns 0, or the number of
/// `FrameShort`, `FrameCut` or `FrameLength`. Does not allocate.
#[unsafe(no_mangle)]
pub extern "C" fn nlp_frame_payload(
    bytes: &[u8],
    payload: &mut Part,
    fault: &mut FaultNumbers,
) -> u32
    ensures payload { result ≡ 0 → HoldsFrame bytes.now
        × (part_of payload.new bytes.now ≡ payload_of bytes.now) }
    ensures place { result ≡ 0 → (payload.new.offset ≡ 16)
        × (16 + payload.new.size ≡ field 0 4 bytes.now) }
    ensures unfaulted { result ≡ 0 → fault.new ≡ fault.old }
    ensures refuses { result ≢ 0 → Refuses (IsFrameFault false bytes.now) result fault.new
        × (payload.new ≡ payload.old) }
{
    match frame_size(bytes) {
        Some(size) => {
            *payload = Part {
                offset: NETLINK_HEADER_LEN,
                size: size - NETLINK_HEADER_LEN,
            };
            OK
        }
        None => frame_fault(bytes, fault),
    }
}

/// Reads the body of a message of type `NLMSG_DONE`: its code, and where the bytes after the code
/// are. An empty body has the code 0, as in `nlp_replies_next`. Returns 0, or the number of
/// `DoneShort` if there are 1 to 3 bytes. Wraps `DoneBuffer`. Does not allocate.
#[unsafe(no_mangle)]
pub extern "C" fn nlp_done_body(
    payload: &[u8],
    code: &mut i32,
    rest: &mut Part,
    fault: &mut FaultNumbers,
) -> u32
    ensures code { result ≡ 0 → code.new ≡ done_code payload.now }
    ensures rest { result ≡ 0 → part_of rest.new payload.now ≡ drop 4 payload.now }
    ensures place { result ≡ 0 → rest.new.offset + rest.new.size ≡ length payload.now }
    ensures whole { result ≡ 0 → 0 < length payload.now → 4 ≤ length payload.now }
    ensures unfaulted { result ≡ 0 → fault.new ≡ fault.old }
    ensures refuses { result ≢ 0 → Refuses (IsShortDone payload.now) result fault.new
        × (code.new ≡ code.old) × (rest.new ≡ rest.old) }
{
    if payload.len() == 0 {
        *code = 0;
        *rest = Part { offset: 0, size: 0 };
        return OK;
    }
    match DoneBuffer::new_checked(payload) {
        Ok(view) => {
            *code = view.code();
            *rest = Part {
                offset: 4,
                size: view.extended_ack().len(),
            };
            OK
        }
        Err(cause) => refused(fault, &cause),
    }
}
