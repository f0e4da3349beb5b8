//! The canonical frame of a message that is decoded from bytes.

ghost use Rattle.std.specs.Prelude.{◌≡◌, ◌⊎◌, ◌↔◌, ◌<◌, ◌≤◌, ◌^◌, ◌++◌, Some, IfErr, IfOk, IfSome, IsErrAnd, IsOk, IsTrue, MatchResult, OnErr, drop, length};
ghost use Rattle.netlink_packet_core.specs.Canonical.{Fits, IsCanonicalFrame, IsNormalizeFault, IsTooLong, SaysTooLong, canonical_frame};
ghost use Rattle.netlink_packet_core.specs.Frame.{Frame};
ghost use Rattle.netlink_packet_core.specs.Header.{HoldsFrame, field, header_bytes, header_of};
ghost use Rattle.netlink_packet_core.specs.Protocol.{IsOwnType};
ghost use Rattle.netlink_packet_core.specs.Refusal.{AsksNoMemory};
ghost use Rattle.netlink_packet_core.specs.declared.message.NetlinkMessage.{NetlinkMessage};

use crate::buffer::{checked_header, read_header};
use crate::constants::{
    CODE_SIZE, NETLINK_HEADER_LEN, NLMSG_DONE, NLMSG_ERROR, NLMSG_NOOP, NLMSG_OVERRUN,
};
use crate::header::NetlinkHeader;
use crate::message::read_frame;
use crate::payload::normal_inner;
use crate::traits::NetlinkProtocol;
use netlink_bytes::DecodeError;
use std::alloc::Global;

/// Decodes the message whose frame is at the start of `bytes`, and returns its one canonical frame.
/// Makes no message if the protocol writes the frame without it (`normal_frame`).
///
/// Returns the errors of `NetlinkMessage::deserialize`. Returns `TooLong` if the message's length
/// does not fit in 32 bits, and `OutOfMemory` if the allocation for the frame fails.
pub fn normalize<I: NetlinkProtocol>(alloc: Global, bytes: &[u8]) -> Result<Vec<u8>, DecodeError>
    // The result is the canonical frame of a message whose frame is at the start of the bytes.
    ensures accepts { IfOk result
        (λ v. (m : NetlinkMessage I) × Frame I.decoding bytes.now m × Fits I.encoding m
        × (v.items ≡ canonical_frame I.encoding m)) }
    ensures writes { (m : NetlinkMessage I) → Frame I.decoding bytes.now m → Fits I.encoding m
        → MatchResult result (λ v. v.items ≡ canonical_frame I.encoding m)
        (λ e. e ≡ DecodeError.OutOfMemory) }
    // `TooLong` is returned if and only if the message does not fit, except that decoding such a
    // message may return `OutOfMemory` instead.
    ensures too_long { (m : NetlinkMessage I) → Frame I.decoding bytes.now m
        → IsTooLong I.encoding m
        → IsErrAnd result (SaysTooLong I.decoding I.wants_memory bytes.now) }
    ensures refuses { IfErr result
        (IsNormalizeFault I.encoding I.decoding I.wants_memory bytes.now) }
    // The result is the canonical frame of every message that it is the frame of.
    ensures again { IfOk result
        (λ v. (n : NetlinkMessage I) → Frame I.decoding v.items n
        → canonical_frame I.encoding n ≡ v.items) }
    // The result is the input if and only if the input is canonical.
    ensures fixed { IsCanonicalFrame I.decoding bytes.now
        → MatchResult result (λ v. v.items ≡ bytes.now) (λ e. e ≡ DecodeError.OutOfMemory) }
    ensures only_fixed { IfOk result
        (λ v. v.items ≡ bytes.now → IsCanonicalFrame I.decoding bytes.now) }
{
    let header = checked_header(bytes, true)?;
    if let Some(frame) = direct_frame::<I>(alloc, bytes, header)? {
        return Ok(frame);
    }
    let message = read_frame::<I>(alloc, bytes, header)?;
    message.into_frame(alloc)
}

/// Returns what `normalize` returns for bytes that hold a complete frame with this header, or `None`
/// if the protocol does not write the frame without its message. It is inlined, so that such a protocol
/// pays nothing for it. If `normal_inner` were inlined too, the compiler would keep the code for errors
/// that such a protocol does not have until it is too late to inline `read_inner`.
#[inline(always)]
fn direct_frame<I: NetlinkProtocol>(
    alloc: Global,
    bytes: &[u8],
    header: NetlinkHeader,
) -> Result<Option<Vec<u8>>, DecodeError>
    requires whole { HoldsFrame bytes.now }
    requires header { header ≡ header_of bytes.now }
    ensures ok { IfOk result (λ found. IfSome found
        (λ v. (m : NetlinkMessage I) × Frame I.decoding bytes.now m × Fits I.encoding m
        × (v.items ≡ canonical_frame I.encoding m))) }
    ensures err { IfErr result
        (IsNormalizeFault I.encoding I.decoding I.wants_memory bytes.now) }
{
    if !is_own_type(header.message_type) {
        return Ok(None);
    }
    let payload = &bytes[NETLINK_HEADER_LEN..header.length as usize];
    match normal_inner::<I>(alloc, &header, payload)? {
        Some(frame) => Ok(Some(with_header(frame, header)?)),
        None => Ok(None),
    }
}

/// Returns whether a message type is one of the protocol's own.
#[inline(always)]
fn is_own_type(message_type: u16) -> bool
    ensures { IsTrue result ↔ IsOwnType message_type }
{
    !matches!(
        message_type,
        NLMSG_NOOP | NLMSG_ERROR | NLMSG_DONE | NLMSG_OVERRUN
    )
}

/// Writes a header over the first 16 bytes of a frame, with the frame's size as its length. Returns
/// `TooLong` if the size does not fit in 32 bits.
fn with_header(mut frame: Vec<u8>, mut header: NetlinkHeader) -> Result<Vec<u8>, DecodeError>
    requires room { 16 ≤ length frame.items }
    ensures ok { IfOk result (λ v. (length frame.items < 2 ^ 32)
        × (v.items ≡ header_bytes (record header { length = length frame.items })
        ++ drop 16 frame.items)) }
    ensures err { IfErr result (λ e. (e ≡ DecodeError.TooLong)
        × (2 ^ 32 ≤ length frame.items)) }
{
    if frame.len() > u32::MAX as usize {
        return Err(DecodeError::TooLong);
    }
    header.length = frame.len() as u32;
    let (head, _) = frame.split_at_mut(NETLINK_HEADER_LEN);
    header.write(head);
    Ok(frame)
}

/// Returns whether the bytes are a canonical frame, which `normalize` returns unchanged. Writes no
/// frame.
///
/// Bytes that `NetlinkMessage::deserialize` rejects with an error other than `OutOfMemory` are not
/// canonical. Returns `OutOfMemory`, and no other error, if an allocation fails. It allocates only
/// if the message type is one of the protocol's own: for the protocol's decoding, and in
/// `is_written_as` for an encoding of the payload's size.
pub fn is_canonical_frame<I: NetlinkProtocol>(
    alloc: Global,
    bytes: &[u8],
) -> Result<bool, DecodeError>
    ensures says { IfOk result (λ yes. IsTrue yes ↔ IsCanonicalFrame I.decoding bytes.now) }
    ensures memory { IfErr result (λ e. e ≡ DecodeError.OutOfMemory) }
    // Only a payload of one of the protocol's own types may allocate.
    ensures own_type { OnErr result (HoldsFrame bytes.now × IsOwnType (field 4 2 bytes.now)) }
    ensures no_memory { AsksNoMemory bytes.now → IsOk result }
{
    if bytes.len() < NETLINK_HEADER_LEN {
        return Ok(false);
    }
    let header = read_header(bytes);
    if header.length as usize != bytes.len() {
        return Ok(false);
    }
    let payload = &bytes[NETLINK_HEADER_LEN..];
    match header.message_type {
        NLMSG_NOOP => Ok(payload.is_empty()),
        NLMSG_ERROR | NLMSG_DONE => Ok(payload.len() >= CODE_SIZE),
        NLMSG_OVERRUN => Ok(true),
        _ => reads_as_itself::<I>(alloc, &header, payload),
    }
}

/// Returns whether the protocol decodes the payload to a value that has the header's type and is
/// encoded as the payload. Returns `OutOfMemory`, and no other error, if an allocation fails.
fn reads_as_itself<I: NetlinkProtocol>(
    alloc: Global,
    header: &NetlinkHeader,
    payload: &[u8],
) -> Result<bool, DecodeError>
    ensures says { IfOk result
        (λ yes. IsTrue yes ↔ (I.decoding.reading header.now payload.now
        ≡ Some (header.now.message_type, payload.now))) }
    ensures memory { IfErr result (λ e. e ≡ DecodeError.OutOfMemory) }
{
    match I::deserialize(alloc, header, payload) {
        Ok(value) => {
            if value.message_type() != header.message_type {
                return Ok(false);
            }
            Ok(value.is_written_as(alloc, payload)?)
        }
        Err(error) if I::is_out_of_memory(&error) => Err(DecodeError::OutOfMemory),
        Err(_) => Ok(false),
    }
}
