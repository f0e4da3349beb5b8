//! A view of a message's bytes.

ghost use Rattle.std.specs.Prelude.{◌≡◌, ◌+◌, ◌≤◌, length, OnOk, IfErr, IfOk, false};
ghost use Rattle.std.specs.Borrow.{Lends, Array, sem, u8 as byte};
ghost use Rattle.netlink_packet_core.specs.contracts.buffer.NetlinkBuffer.{the_row};
ghost use Rattle.netlink_bytes.specs.Numbers.{bytes_le};
ghost use Rattle.netlink_bytes.specs.Storage.{put_at};
ghost use Rattle.netlink_packet_core.specs.Header.{field, header_of, payload_of, HoldsFrame, IsHeader};
ghost use Rattle.netlink_packet_core.specs.Refusal.{IsFrameFault};

use crate::constants::{
    FLAGS, LENGTH, MESSAGE_TYPE, NETLINK_HEADER_LEN, PORT_NUMBER, SEQUENCE_NUMBER,
};
use crate::header::NetlinkHeader;
use netlink_bytes::{DecodeError, Storage, StorageMut, put_u16, put_u32, u16_at, u32_at};

/// The bytes of a message (`struct nlmsghdr` of linux/netlink.h, and what follows it), read in
/// place.
///
/// All numbers are in native byte order (little-endian). Sizes and lengths are in bytes. No method
/// allocates.
#[derive(Clone, Copy, Debug, PartialEq, Eq, Drop)]
pub struct NetlinkBuffer<T: Storage> {
    /// The storage of the bytes.
    pub buffer: T,
}

impl<T: Storage> NetlinkBuffer<T> {
    /// Returns a view over any bytes, without checking them. Each other method states what the
    /// bytes must hold.
    #[inline]
    pub fn new(buffer: T) -> Self
        ensures keeps { result.buffer ≡ buffer }
    {
        NetlinkBuffer { buffer }
    }

    /// Returns a view over bytes that hold a complete frame. Returns `FrameShort` if there are
    /// fewer than 16 bytes, `FrameCut` if the length field is larger than their number, and
    /// `FrameLength` if it is less than 16, all with `inside` set to false; the storage is then
    /// dropped.
    pub fn new_checked(buffer: T) -> Result<Self, DecodeError>
        ensures keeps { IfOk result (λ view. view.buffer ≡ buffer) }
        ensures whole { OnOk result (HoldsFrame (T.contents buffer)) }
        ensures refuses { IfErr result (IsFrameFault false (T.contents buffer)) }
    {
        let _header = checked_header(buffer.bytes(), false)?;
        Ok(NetlinkBuffer { buffer })
    }

    /// Returns the length field: the size of the message in bytes, including its header. Requires
    /// at least 4 bytes of storage.
    #[inline]
    pub fn length(&self) -> u32
        requires field { 4 ≤ length (T.contents self.now.buffer) }
        ensures number { result ≡ field 0 4 (T.contents self.now.buffer) }
    {
        u32_at(self.buffer.bytes(), LENGTH)
    }

    /// Returns the message type. Requires at least 6 bytes of storage.
    #[inline]
    pub fn message_type(&self) -> u16
        requires field { 6 ≤ length (T.contents self.now.buffer) }
        ensures number { result ≡ field 4 2 (T.contents self.now.buffer) }
    {
        u16_at(self.buffer.bytes(), MESSAGE_TYPE)
    }

    /// Returns the flags. Requires at least 8 bytes of storage.
    #[inline]
    pub fn flags(&self) -> u16
        requires field { 8 ≤ length (T.contents self.now.buffer) }
        ensures number { result ≡ field 6 2 (T.contents self.now.buffer) }
    {
        u16_at(self.buffer.bytes(), FLAGS)
    }

    /// Returns the sequence number. Requires at least 12 bytes of storage.
    #[inline]
    pub fn sequence_number(&self) -> u32
        requires field { 12 ≤ length (T.contents self.now.buffer) }
        ensures number { result ≡ field 8 4 (T.contents self.now.buffer) }
    {
        u32_at(self.buffer.bytes(), SEQUENCE_NUMBER)
    }

    /// Returns the port number. Requires at least 16 bytes of storage.
    #[inline]
    pub fn port_number(&self) -> u32
        requires field { 16 ≤ length (T.contents self.now.buffer) }
        ensures number { result ≡ field 12 4 (T.contents self.now.buffer) }
    {
        u32_at(self.buffer.bytes(), PORT_NUMBER)
    }

    /// Returns the size of the payload in bytes according to the length field, even if it exceeds
    /// the storage. Requires at least 4 bytes of storage, and a length field of at least 16.
    #[inline]
    pub fn payload_length(&self) -> usize
        requires field { 4 ≤ length (T.contents self.now.buffer) }
        requires header { 16 ≤ field 0 4 (T.contents self.now.buffer) }
        ensures size { 16 + result ≡ field 0 4 (T.contents self.now.buffer) }
    {
        self.length() as usize - NETLINK_HEADER_LEN
    }

    /// Returns a view that borrows the same bytes as a slice, so that the methods for slices work
    /// with any storage.
    #[inline]
    pub fn borrowed(&self) -> NetlinkBuffer<&[u8]>
        ensures bytes { result.buffer.now ≡ T.contents self.now.buffer }
    {
        NetlinkBuffer::new(self.buffer.bytes())
    }

    /// Returns the storage of the bytes.
    #[inline]
    pub fn into_inner(self) -> T
        ensures keeps { result ≡ self.buffer }
    {
        self.buffer
    }
}

impl<T: StorageMut> NetlinkBuffer<T> {
    /// Sets the length field and leaves all other bytes unchanged. Requires at least 4 bytes of
    /// storage.
    #[inline]
    pub fn set_length(&mut self, value: u32)
        requires field { 4 ≤ length (T.contents self.old.buffer) }
        ensures bytes { T.contents self.new.buffer
            ≡ put_at (T.contents self.old.buffer) 0 (bytes_le value 4) }
        ensures same_storage { self.new.buffer ≡ T.with_contents self.old.buffer
            (put_at (T.contents self.old.buffer) 0 (bytes_le value 4)) }
    {
        put_u32(self.buffer.bytes_mut(), LENGTH, value);
    }

    /// Sets the message type and leaves all other bytes unchanged. Requires at least 6 bytes of
    /// storage.
    #[inline]
    pub fn set_message_type(&mut self, value: u16)
        requires field { 6 ≤ length (T.contents self.old.buffer) }
        ensures bytes { T.contents self.new.buffer
            ≡ put_at (T.contents self.old.buffer) 4 (bytes_le value 2) }
        ensures same_storage { self.new.buffer ≡ T.with_contents self.old.buffer
            (put_at (T.contents self.old.buffer) 4 (bytes_le value 2)) }
    {
        put_u16(self.buffer.bytes_mut(), MESSAGE_TYPE, value);
    }

    /// Sets the flags and leaves all other bytes unchanged. Requires at least 8 bytes of storage.
    #[inline]
    pub fn set_flags(&mut self, value: u16)
        requires field { 8 ≤ length (T.contents self.old.buffer) }
        ensures bytes { T.contents self.new.buffer
            ≡ put_at (T.contents self.old.buffer) 6 (bytes_le value 2) }
        ensures same_storage { self.new.buffer ≡ T.with_contents self.old.buffer
            (put_at (T.contents self.old.buffer) 6 (bytes_le value 2)) }
    {
        put_u16(self.buffer.bytes_mut(), FLAGS, value);
    }

    /// Sets the sequence number and leaves all other bytes unchanged. Requires at least 12 bytes of
    /// storage.
    #[inline]
    pub fn set_sequence_number(&mut self, value: u32)
        requires field { 12 ≤ length (T.contents self.old.buffer) }
        ensures bytes { T.contents self.new.buffer
            ≡ put_at (T.contents self.old.buffer) 8 (bytes_le value 4) }
        ensures same_storage { self.new.buffer ≡ T.with_contents self.old.buffer
            (put_at (T.contents self.old.buffer) 8 (bytes_le value 4)) }
    {
        put_u32(self.buffer.bytes_mut(), SEQUENCE_NUMBER, value);
    }

    /// Sets the port number and leaves all other bytes unchanged. Requires at least 16 bytes of
    /// storage.
    #[inline]
    pub fn set_port_number(&mut self, value: u32)
        requires field { 16 ≤ length (T.contents self.old.buffer) }
        ensures bytes { T.contents self.new.buffer
            ≡ put_at (T.contents self.old.buffer) 12 (bytes_le value 4) }
        ensures same_storage { self.new.buffer ≡ T.with_contents self.old.buffer
            (put_at (T.contents self.old.buffer) 12 (bytes_le value 4)) }
    {
        put_u32(self.buffer.bytes_mut(), PORT_NUMBER, value);
    }

    /// Mutably borrows the payload: the bytes from offset 16 up to the length become what is
    /// written, and no other bytes change. Requires that the storage holds a complete frame, which
    /// `new_checked` checks.
    pub fn payload_mut(&mut self) -> &mut [u8]
        requires whole { HoldsFrame (T.contents self.old.buffer) }
        ensures* writes_back { sem 𝓛 (Lends (the_row T.row) (Array byte 0) self.entry result
            (λ part. record {
              buffer = T.with_contents self.old.buffer
                  (put_at (T.contents self.old.buffer) 16 part);
            })) }
        ensures value { result.now ≡ payload_of (T.contents self.old.buffer) }
    {
        let end = self.length() as usize;
        self.buffer.part_mut(NETLINK_HEADER_LEN, end)
    }
}

impl<'a> NetlinkBuffer<&'a [u8]> {
    /// Returns the payload: the bytes from offset 16 up to the length. Ignores what follows.
    /// Requires that the bytes hold a complete frame, which `new_checked` checks. If the storage is
    /// not a slice, call this on the view that `borrowed` returns.
    #[inline]
    pub fn payload(&self) -> &'a [u8]
        requires whole { HoldsFrame self.now.buffer.now }
        ensures bytes { result.now ≡ payload_of self.now.buffer.now }
    {
        let end = self.length() as usize;
        &self.buffer[NETLINK_HEADER_LEN..end]
    }
}

/// Returns the header at the start of the bytes. Requires at least 16 bytes.
pub(crate) fn read_header(bytes: &[u8]) -> NetlinkHeader
    requires { 16 ≤ length bytes.now }
    ensures is { IsHeader bytes.now result }
    ensures fields { result ≡ header_of bytes.now }
{
    let view = NetlinkBuffer::new(bytes);
    NetlinkHeader {
        length: view.length(),
        message_type: view.message_type(),
        flags: view.flags(),
        sequence_number: view.sequence_number(),
        port_number: view.port_number(),
    }
}

/// Reads the header of the frame that the bytes begin with. Returns `FrameShort`, `FrameCut` or
/// `FrameLength`, with this `inside`, if they do not hold a complete frame. Inlined, so that a
/// caller who ignores the header does not read its other fields.
#[inline(always)]
pub(crate) fn checked_header(bytes: &[u8], inside: bool) -> Result<NetlinkHeader, DecodeError>
    ensures whole { OnOk result (HoldsFrame bytes.now) }
    ensures header { IfOk result (λ header. header ≡ header_of bytes.now) }
    ensures refuses { IfErr result (IsFrameFault inside bytes.now) }
{
    let size = bytes.len();
    if size < NETLINK_HEADER_LEN {
        return Err(DecodeError::FrameShort { size, inside });
    }
    let header = read_header(bytes);
    let length = header.length;
    if length as usize > size {
        return Err(DecodeError::FrameCut {
            length,
            size,
            inside,
        });
    }
    if (length as usize) < NETLINK_HEADER_LEN {
        return Err(DecodeError::FrameLength { length, inside });
    }
    Ok(header)
}
