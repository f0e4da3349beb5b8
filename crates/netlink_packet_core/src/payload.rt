//! The payload of a message.

ghost use Rattle.std.specs.Prelude.{◌≡◌, ◌+◌, ◌≤◌, ◌<◌, ◌^◌, ◌↔◌, ◌++◌, List, ℕ, None, Some, false, IfOk, IfErr, IfSome, IsTrue, OnOk, length, string_bytes, vec_len};
ghost use Rattle.netlink_packet_core.specs.Frame.{Body};
ghost use Rattle.netlink_packet_core.specs.Payload.{PayloadInRange, payload_bytes, payload_type};
ghost use Rattle.netlink_packet_core.specs.Protocol.{IsNormalFrame};
ghost use Rattle.netlink_packet_core.specs.Refusal.{IsBodyFault, IsInnerFault, refusal_text};
ghost use Rattle.netlink_packet_core.specs.declared.header.NetlinkHeader.{NetlinkHeader};

use crate::bytes::{append_code, put_code};
use crate::constants::{CODE_SIZE, NLMSG_DONE, NLMSG_ERROR, NLMSG_NOOP, NLMSG_OVERRUN};
use crate::done::DoneMessage;
use crate::error::ErrorMessage;
use crate::header::NetlinkHeader;
use crate::traits::{NetlinkDeserializable, NetlinkSerializable};
use netlink_bytes::{DecodeError, copy_of};
use std::alloc::{AllocError, Global};
use std::error::Error;
use std::fmt::Write;

/// The payload of a message: one of the four that every protocol shares, or one of the protocol's
/// own.
#[derive(Debug, Drop, PartialEq, Eq)]
pub enum NetlinkPayload<I> {
    /// The end of a multipart message (`NLMSG_DONE`).
    Done(DoneMessage),
    /// An acknowledgment or an error (`NLMSG_ERROR`).
    Error(ErrorMessage),
    /// Nothing (`NLMSG_NOOP`); bytes in the payload are dropped.
    Noop,
    /// Data was lost (`NLMSG_OVERRUN`); the bytes of the payload.
    Overrun(Vec<u8>),
    /// A message of the sub-protocol.
    InnerMessage(I),
}

impl<I: NetlinkSerializable> NetlinkPayload<I> {
    /// Returns the message type for the header of this payload.
    pub fn message_type(&self) -> u16
        ensures kind { result ≡ payload_type I.encoding self.now }
    {
        match self {
            NetlinkPayload::Done(_) => NLMSG_DONE,
            NetlinkPayload::Error(_) => NLMSG_ERROR,
            NetlinkPayload::Noop => NLMSG_NOOP,
            NetlinkPayload::Overrun(_) => NLMSG_OVERRUN,
            NetlinkPayload::InnerMessage(message) => message.message_type(),
        }
    }

    /// Returns the size of the encoded payload in bytes.
    #[tactic(auto, using(crate::specs::Sizes::text_sizes))]
    pub(crate) fn buffer_len(&self) -> usize
        ensures { result ≡ length (payload_bytes I.encoding self.now) }
    {
        match self {
            NetlinkPayload::Done(message) => CODE_SIZE + message.extended_ack.len(),
            NetlinkPayload::Error(message) => CODE_SIZE + message.header.len(),
            NetlinkPayload::Noop => 0,
            NetlinkPayload::Overrun(bytes) => bytes.len(),
            NetlinkPayload::InnerMessage(message) => message.buffer_len(),
        }
    }

    /// Establishes that the code of a payload is within its width, for the proof of a caller.
    pub(crate) fn in_widths(&self)
        ensures { PayloadInRange self.now }
    {
        match self {
            NetlinkPayload::Done(message) => {
                let _code = message.code;
            }
            NetlinkPayload::Error(message) => {
                let _code = message.raw_code();
            }
            _ => {}
        }
    }

    /// Writes the encoded payload over all of `buffer`. Requires that `buffer` has exactly its
    /// size.
    #[tactic(auto, using(crate::specs::Sizes::text_sizes))]
    pub(crate) fn emit(&self, buffer: &mut [u8])
        requires { length buffer.old ≡ length (payload_bytes I.encoding self.now) }
        ensures { buffer.new ≡ payload_bytes I.encoding self.now }
    {
        match self {
            NetlinkPayload::Done(message) => put_code(buffer, message.code, &message.extended_ack),
            NetlinkPayload::Error(message) => {
                put_code(buffer, message.raw_code(), &message.header);
            }
            NetlinkPayload::Noop => {}
            NetlinkPayload::Overrun(bytes) => buffer.copy_from_slice(bytes),
            NetlinkPayload::InnerMessage(message) => message.serialize(buffer),
        }
    }

    /// Appends the encoded payload to a frame. Requires that the frame then has fewer than 2^64
    /// bytes. Returns `AllocError` if an allocation fails.
    #[tactic(auto, using(crate::specs::Sizes::text_sizes))]
    pub(crate) fn append(&self, frame: &mut Vec<u8>) -> Result<(), AllocError>
        requires { vec_len frame.old + length (payload_bytes I.encoding self.now) < 2 ^ 64 }
        ensures { OnOk result
            (frame.new.items ≡ frame.old.items ++ payload_bytes I.encoding self.now) }
    {
        match self {
            NetlinkPayload::Done(message) => {
                append_code(frame, message.code, &message.extended_ack)
            }
            NetlinkPayload::Error(message) => {
                append_code(frame, message.raw_code(), &message.header)
            }
            NetlinkPayload::Noop => Ok(()),
            NetlinkPayload::Overrun(bytes) => frame.extend_from_slice(bytes),
            NetlinkPayload::InnerMessage(message) => message.append(frame),
        }
    }
}

/// Decodes a payload under its header. Returns `ErrorShort` or `DoneShort` if the body of an error
/// or done message is too short, `Message` if the protocol rejects the payload, and `OutOfMemory`
/// if an allocation fails.
pub(crate) fn read_payload<I: NetlinkDeserializable>(
    alloc: Global,
    header: &NetlinkHeader,
    payload: &[u8],
) -> Result<NetlinkPayload<I>, DecodeError>
    ensures ok { IfOk result (Body I.decoding header.now payload.now) }
    ensures err { IfErr result (IsBodyFault I.decoding I.wants_memory header.now payload.now) }
{
    match header.message_type {
        NLMSG_NOOP => Ok(NetlinkPayload::Noop),
        NLMSG_ERROR => Ok(NetlinkPayload::Error(ErrorMessage::of_payload(alloc, payload)?)),
        NLMSG_DONE => Ok(NetlinkPayload::Done(DoneMessage::of_payload(alloc, payload)?)),
        NLMSG_OVERRUN => Ok(NetlinkPayload::Overrun(copy_of(alloc, payload)?)),
        _ => Ok(NetlinkPayload::InnerMessage(read_inner(alloc, header, payload)?)),
    }
}

/// Decodes a payload of one of the protocol's own types. Returns `Message` if the protocol rejects
/// it, and `OutOfMemory` if an allocation fails.
fn read_inner<I: NetlinkDeserializable>(
    alloc: Global,
    header: &NetlinkHeader,
    payload: &[u8],
) -> Result<I, DecodeError>
    ensures in_range { IfOk result (λ v. IsTrue (I.decoding.in_range v)) }
    ensures reads { IfOk result
        (λ v. I.decoding.reading header.now payload.now ≡ Some (I.decoding.stands_for v)) }
    ensures err { IfErr result (IsInnerFault I.decoding I.wants_memory header.now payload.now) }
{
    match I::deserialize(alloc, header, payload) {
        Ok(value) => Ok(value),
        Err(error) => Err(inner_error::<I>(alloc, header.message_type, error)),
    }
}

/// Returns what the protocol's `normal_frame` returns, with the errors of `read_inner`.
pub(crate) fn normal_inner<I: NetlinkDeserializable>(
    alloc: Global,
    header: &NetlinkHeader,
    payload: &[u8],
) -> Result<Option<Vec<u8>>, DecodeError>
    ensures ok { IfOk result (λ found. IfSome found
        (λ frame. IsNormalFrame I.decoding header.now payload.now frame.items)) }
    ensures err { IfErr result (IsInnerFault I.decoding I.wants_memory header.now payload.now) }
{
    match I::normal_frame(alloc, header, payload) {
        Ok(found) => Ok(found),
        Err(error) => Err(inner_error::<I>(alloc, header.message_type, error)),
    }
}

/// Returns the error for a payload for which the protocol returned this error.
fn inner_error<I: NetlinkDeserializable>(
    alloc: Global,
    message_type: u16,
    error: I::Error,
) -> DecodeError
    ensures { (h : NetlinkHeader) (payload : List ℕ) → h.message_type ≡ message_type
        → (I.wants_memory error ≡ false → I.decoding.reading h payload ≡ None)
        → IsInnerFault I.decoding I.wants_memory h payload result }
{
    if I::is_out_of_memory(&error) {
        return DecodeError::OutOfMemory;
    }
    match refusal(alloc, message_type, &error) {
        Ok(text) => DecodeError::Message(text),
        Err(_) => DecodeError::OutOfMemory,
    }
}

/// Returns the text for a payload that the protocol rejected, or `AllocError` if an allocation
/// fails. Both strings are allocated with room: 64 bytes for the protocol's own words, and 41 more
/// than their size for the whole text.
fn refusal<E: Error>(alloc: Global, message_type: u16, error: &E) -> Result<String, AllocError>
    ensures { IfOk result
        (λ text. (rest : List ℕ) × (string_bytes text ≡ refusal_text message_type rest)) }
{
    let mut rest = String::with_capacity(alloc, 64)?;
    match write!(rest, "{error}") {
        Ok(()) => {}
        Err(_) => return Err(AllocError),
    }
    let mut text = String::with_capacity(alloc, rest.len().saturating_add(41))?;
    match write!(text, "Failed to parse message with type {message_type}: ") {
        Ok(()) => {}
        Err(_) => return Err(AllocError),
    }
    text.push_str(rest.as_str())?;
    Ok(text)
}
