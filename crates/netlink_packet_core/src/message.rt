//! A message: a header and a payload.

ghost use Rattle.std.specs.Prelude.{◌≡◌, ◌≢◌, ◌+◌, ◌++◌, ◌<◌, ◌≤◌, ◌^◌, ◌⊎◌, ◌↔◌, drop, length, true, IsTrue, IfOk, IfErr, IsErrAnd, IsOkUnless, MatchResult};
ghost use Rattle.netlink_packet_core.specs.Canonical.{Fits, IsTooLong, canonical_frame, finalized};
ghost use Rattle.netlink_packet_core.specs.Frame.{Frame};
ghost use Rattle.netlink_packet_core.specs.Header.{HoldsFrame, default_header, header_bytes, header_of};
ghost use Rattle.netlink_packet_core.specs.Payload.{payload_bytes};
ghost use Rattle.netlink_packet_core.specs.Refusal.{AsksNoMemory, IsPayloadFault, IsRefusal};
ghost use Rattle.netlink_packet_core.specs.declared.payload.NetlinkPayload.TheVariants.{InnerMessage};
ghost use Rattle.netlink_packet_core.specs.declared.message.NetlinkMessage.{NetlinkMessage};

use crate::buffer::{NetlinkBuffer, checked_header, read_header};
use crate::constants::NETLINK_HEADER_LEN;
use crate::header::NetlinkHeader;
use crate::payload::{NetlinkPayload, read_payload};
use crate::traits::{NetlinkDeserializable, NetlinkSerializable};
use netlink_bytes::{DecodeError, Emitable, Parseable};
use std::alloc::Global;

/// The largest payload, in bytes, of a message whose length fits in 32 bits.
const PAYLOAD_MAX: usize = u32::MAX as usize - NETLINK_HEADER_LEN;

/// A message of a sub-protocol: a header and a payload.
#[derive(Debug, Drop, PartialEq, Eq)]
pub struct NetlinkMessage<I> {
    /// The header. `finalize` sets its length and its message type.
    pub header: NetlinkHeader,
    /// The payload.
    pub payload: NetlinkPayload<I>,
}

impl<I> NetlinkMessage<I> {
    /// Returns a message of these parts, unchanged.
    pub fn new(header: NetlinkHeader, payload: NetlinkPayload<I>) -> Self
        ensures keeps { result ≡ record { header = header; payload = payload } }
    {
        NetlinkMessage { header, payload }
    }

    /// Returns a message of the sub-protocol, with a header of five zeros. `finalize` sets its
    /// length and type.
    pub fn from_inner(message: I) -> Self
        ensures is { result ≡ record { header = default_header; payload = InnerMessage message } }
    {
        NetlinkMessage::new(
            NetlinkHeader::default(),
            NetlinkPayload::InnerMessage(message),
        )
    }

    /// Returns the header and the payload.
    pub fn into_parts(self) -> (NetlinkHeader, NetlinkPayload<I>)
        ensures header { result.0 ≡ self.header }
        ensures payload { result.1 ≡ self.payload }
    {
        (self.header, self.payload)
    }
}

impl<I: NetlinkDeserializable> NetlinkMessage<I> {
    /// Decodes the message whose frame is at the start of `buffer`, and ignores what follows the
    /// frame.
    ///
    /// Returns `FrameShort`, `FrameCut` or `FrameLength` if `buffer` does not hold a complete
    /// frame, and `DoneShort` or `ErrorShort` if the body of a done or error message is too short,
    /// all with `inside` set to true. Returns `Message`, with the protocol's own words, if the
    /// protocol rejects the payload. Returns `OutOfMemory` only if bytes are copied or the protocol
    /// is called.
    pub fn deserialize(alloc: Global, buffer: &[u8]) -> Result<Self, DecodeError>
        // The result is a message whose frame is at the start of the bytes.
        ensures accepts { IfOk result (Frame I.decoding buffer.now) }
        // The frame of any message is accepted, unless an allocation fails.
        ensures complete { (m : NetlinkMessage I) → Frame I.decoding buffer.now m
            → IsOkUnless result DecodeError.OutOfMemory }
        // Each error is the one that the format gives for the bytes, with its fields.
        ensures refuses { IfErr result (IsRefusal I.decoding I.wants_memory buffer.now) }
        ensures no_memory { AsksNoMemory buffer.now
            → IfErr result (λ e. e ≢ DecodeError.OutOfMemory) }
    {
        let header = checked_header(buffer, true)?;
        read_frame(alloc, buffer, header)
    }
}

/// Decodes the message in bytes that hold a complete frame with this header. Returns the errors of
/// its payload.
pub(crate) fn read_frame<I: NetlinkDeserializable>(
    alloc: Global,
    bytes: &[u8],
    header: NetlinkHeader,
) -> Result<NetlinkMessage<I>, DecodeError>
    requires whole { HoldsFrame bytes.now }
    requires header { header ≡ header_of bytes.now }
    ensures ok { IfOk result (λ m. Frame I.decoding bytes.now m) }
    ensures err { IfErr result (IsPayloadFault I.decoding I.wants_memory bytes.now) }
{
    let payload = &bytes[NETLINK_HEADER_LEN..header.length as usize];
    let payload = read_payload(alloc, &header, payload)?;
    Ok(NetlinkMessage { header, payload })
}

impl<'a, I: NetlinkDeserializable> Parseable<NetlinkBuffer<&'a [u8]>> for NetlinkMessage<I> {
    ghost can_parse = { λ view. HoldsFrame view.buffer.now };

    ghost reads = { λ view m. Frame I.decoding view.buffer.now m };

    ghost refusal = { λ view e. IsPayloadFault I.decoding I.wants_memory view.buffer.now e };

    ghost needs_no_memory = { λ view. AsksNoMemory view.buffer.now };

    /// Returns what `deserialize` returns for the view's bytes. Requires that they hold a complete
    /// frame.
    fn parse(alloc: Global, buf: &NetlinkBuffer<&'a [u8]>) -> Result<Self, DecodeError>
        requires whole { HoldsFrame buf.now.buffer.now }
        ensures accepts { IfOk result (Frame I.decoding buf.now.buffer.now) }
        ensures complete { (m : NetlinkMessage I) → Frame I.decoding buf.now.buffer.now m
            → IsOkUnless result DecodeError.OutOfMemory }
        ensures refuses { IfErr result (λ e. (e ≡ DecodeError.OutOfMemory)
            ⊎ IsPayloadFault I.decoding I.wants_memory buf.now.buffer.now e) }
        ensures no_memory { AsksNoMemory buf.now.buffer.now
            → IfErr result (λ e. e ≢ DecodeError.OutOfMemory) }
        // Each error, including `OutOfMemory`, is one of the payload.
        ensures fault { IfErr result (IsPayloadFault I.decoding I.wants_memory buf.now.buffer.now) }
    {
        read_frame(alloc, buf.buffer, read_header(buf.buffer))
    }
}

impl<I: NetlinkSerializable> NetlinkMessage<I> {
    /// Returns whether the length of the message fits in 32 bits: 16 plus the size of the encoded
    /// payload is less than 2^32.
    pub fn fits(&self) -> bool
        ensures fits { IsTrue result ↔ Fits I.encoding self.now }
    {
        self.header.in_widths();
        self.payload.in_widths();
        self.payload.buffer_len() <= PAYLOAD_MAX
    }

    /// Returns the size of the encoded message in bytes: 16 plus the size of the encoded payload.
    /// Requires that it is less than 2^64.
    pub fn buffer_len(&self) -> usize
        requires size { 16 + length (payload_bytes I.encoding self.now.payload) < 2 ^ 64 }
        ensures size { result ≡ 16 + length (payload_bytes I.encoding self.now.payload) }
    {
        NETLINK_HEADER_LEN + self.payload.buffer_len()
    }

    /// Sets the header's length to 16 plus the size of the encoded payload, and its message type to
    /// that of the payload, and changes nothing else. Requires that the message fits (`fits`).
    pub fn finalize(&mut self)
        requires fits { Fits I.encoding self.old }
        ensures finalized { self.new ≡ finalized I.encoding self.old }
        ensures again { finalized I.encoding self.new ≡ self.new }
    {
        let payload_size = self.payload.buffer_len();
        self.finalize_for(payload_size);
    }

    /// Finalizes a message whose payload has this size in bytes.
    fn finalize_for(&mut self, size: usize)
        requires fits { Fits I.encoding self.old }
        requires size { size ≡ length (payload_bytes I.encoding self.old.payload) }
        ensures finalized { self.new ≡ finalized I.encoding self.old }
        ensures again { finalized I.encoding self.new ≡ self.new }
    {
        self.header.length = (NETLINK_HEADER_LEN + size) as u32;
        self.header.message_type = self.payload.message_type();
    }

    /// Writes the header and the encoded payload at the start of `buffer` and leaves the rest
    /// unchanged. Requires that the header's length is the size of both, as `finalize` sets it, and
    /// that `buffer` has at least that many bytes.
    pub fn serialize(&self, buffer: &mut [u8])
        requires length { self.now.header.length
            ≡ 16 + length (payload_bytes I.encoding self.now.payload) }
        requires room { self.now.header.length ≤ length buffer.old }
        ensures text { buffer.new
            ≡ header_bytes self.now.header
            ++ (payload_bytes I.encoding self.now.payload
            ++ drop self.now.header.length buffer.old) }
    {
        let length = self.header.length as usize;
        let (head, rest) = buffer.split_at_mut(NETLINK_HEADER_LEN);
        self.header.write(head);
        let (body, _) = rest.split_at_mut(length - NETLINK_HEADER_LEN);
        self.payload.emit(body);
    }
}

impl<I: NetlinkSerializable + Drop> NetlinkMessage<I> {
    /// Returns the message's one canonical frame, as `finalize` and `serialize` write it, in a
    /// vector of its exact size.
    ///
    /// Returns `TooLong`, without allocating, if and only if the message does not fit (`fits`).
    /// Otherwise returns `OutOfMemory` if the allocation for the frame fails.
    pub fn into_frame(mut self, alloc: Global) -> Result<Vec<u8>, DecodeError>
        ensures writes { IfOk result (λ frame. Fits I.encoding self
            × (frame.items ≡ canonical_frame I.encoding self)) }
        ensures fits { Fits I.encoding self → MatchResult result
            (λ frame. frame.items ≡ canonical_frame I.encoding self)
            (λ e. e ≡ DecodeError.OutOfMemory) }
        ensures too_long { IsTooLong I.encoding self
            → IsErrAnd result (λ e. e ≡ DecodeError.TooLong) }
        ensures refuses { IfErr result (λ e. ((e ≡ DecodeError.TooLong) × IsTooLong I.encoding self)
            ⊎ ((e ≡ DecodeError.OutOfMemory) × Fits I.encoding self)) }
    {
        self.header.in_widths();
        self.payload.in_widths();
        let size = self.payload.buffer_len();
        if size > PAYLOAD_MAX {
            return Err(DecodeError::TooLong);
        }
        self.finalize_for(size);
        let mut frame = Vec::with_capacity(alloc, NETLINK_HEADER_LEN + size)?;
        frame.extend_from_slice(&self.header.bytes())?;
        self.payload.append(&mut frame)?;
        Ok(frame)
    }
}

impl<I: NetlinkSerializable> Emitable for NetlinkMessage<I> {
    ghost bytes = { λ m. header_bytes m.header ++ payload_bytes I.encoding m.payload };

    ghost can_emit = { λ m. m.header.length ≡ 16 + length (payload_bytes I.encoding m.payload) };

    ghost takes_longer = { true };

    /// Returns the size of the encoded message in bytes. Requires that it is less than 2^64.
    fn buffer_len(&self) -> usize {
        NetlinkMessage::buffer_len(self)
    }

    /// Writes the message as `serialize` does, with the same requirements.
    fn emit(&self, buffer: &mut [u8]) {
        self.serialize(buffer);
    }
}
