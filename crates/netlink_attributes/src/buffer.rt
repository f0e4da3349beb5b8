//! A view of an attribute's bytes.

ghost use Rattle.std.specs.Prelude.{◌≡◌, ◌+◌, ◌≤◌, length, IfErr, IfOk, OnOk, ⊤};
ghost use Rattle.std.specs.Borrow.{Lends, Array, sem, u8 as byte};
ghost use denote.Follow.{follows_so};
ghost use mathlib.Core.Option.{none};
ghost use Rattle.netlink_bytes.specs.Storage.{put_at};
ghost use Rattle.netlink_attributes.specs.contracts.buffer.NlaBuffer.{the_row};
ghost use Rattle.netlink_attributes.specs.Views.{length_field, raw_kind, masked, nested, network_byteorder, with_length, with_kind, is_nested, is_network_byteorder, attribute_of, storage_of, view_over, shown, HoldsAttribute};
ghost use Rattle.netlink_attributes.specs.Walk.{IsFault};

use crate::constants::{
    KIND, LENGTH, NLA_F_NESTED, NLA_F_NET_BYTEORDER, NLA_HEADER_SIZE, NLA_TYPE_MASK,
};
use netlink_bytes::{DecodeError, Storage, StorageMut, put_u16, u16_at};

/// The bytes of an attribute (`struct nlattr` of linux/netlink.h), read in place.
///
/// They are a 16-bit length, a 16-bit kind and the value. Both numbers are in native byte order
/// (little-endian). Sizes and lengths are in bytes. No method allocates.
#[derive(Clone, Copy, Debug, PartialEq, Eq, Drop)]
pub struct NlaBuffer<T: Storage> {
    buffer: T,
}

impl<T: Storage> NlaBuffer<T> {
    /// Returns a view over any bytes, without checking them.
    #[inline]
    pub fn new(buffer: T) -> Self
        ensures keeps { storage_of result ≡ buffer }
    {
        NlaBuffer { buffer }
    }

    /// Returns a view over bytes that hold a complete attribute. Returns the errors of
    /// `check_buffer_length` if they do not; the storage is then dropped.
    #[inline]
    pub fn new_checked(buffer: T) -> Result<Self, DecodeError>
        ensures keeps { IfOk result (λ view. storage_of view ≡ buffer) }
        ensures whole { OnOk result (HoldsAttribute (T.contents buffer)) }
        ensures refuses { IfErr result (IsFault (T.contents buffer)) }
    {
        checked_length(buffer.bytes())?;
        Ok(NlaBuffer { buffer })
    }

    /// Checks that the bytes hold a complete attribute, apart from its padding. Returns
    /// `NlaBufferTooSmall` if there are fewer than 4 bytes, `NlaLengthMismatch` if the length field
    /// is larger than their number, and `NlaInvalidLength` if it is less than 4.
    #[inline]
    pub fn check_buffer_length(&self) -> Result<(), DecodeError>
        ensures whole { OnOk result (HoldsAttribute (T.contents (storage_of self.now))) }
        ensures refuses { IfErr result (IsFault (T.contents (storage_of self.now))) }
    {
        checked_length(self.buffer.bytes())?;
        Ok(())
    }

    /// Returns a view that borrows the same bytes as a slice, so that the methods for slices work
    /// with any storage.
    #[inline]
    pub fn borrowed(&self) -> NlaBuffer<&[u8]>
        ensures bytes { shown result ≡ T.contents (storage_of self.now) }
    {
        NlaBuffer::new(self.buffer.bytes())
    }

    /// Returns the storage of the view.
    #[inline]
    pub fn into_inner(self) -> T
        ensures keeps { result ≡ storage_of self }
    {
        self.buffer
    }

    /// Borrows the storage. The view is unchanged.
    #[inline]
    pub fn inner(&mut self) -> &T
        ensures* unchanged { sem 𝓛
            (follows_so (the_row T.row) (the_row T.row) self.entry.ghost_name none (λ _ _. ⊤)
            (λ last. last ≡ self.old)) }
        ensures value { result.now ≡ storage_of self.old }
    {
        &self.buffer
    }

    /// Mutably borrows the storage. When the borrow ends, the view is over what the storage is
    /// then.
    #[inline]
    pub fn inner_mut(&mut self) -> &mut T
        ensures* writes_back { sem 𝓛 (Lends (the_row T.row) T.row self.entry result view_over) }
        ensures value { result.now ≡ storage_of self.old }
    {
        &mut self.buffer
    }

    /// Returns the length field (`nla_len`): the size of header and value in bytes, without
    /// padding. Requires at least 2 bytes of storage.
    #[inline]
    pub fn length(&self) -> u16
        requires field { 2 ≤ length (T.contents (storage_of self.now)) }
        ensures number { result ≡ length_field (T.contents (storage_of self.now)) }
    {
        u16_at(self.buffer.bytes(), LENGTH)
    }

    /// Returns the kind with its two flag bits, as it is in the field (`nla_type`). Requires at
    /// least 4 bytes of storage.
    #[inline]
    pub fn raw_kind(&self) -> u16
        requires field { 4 ≤ length (T.contents (storage_of self.now)) }
        ensures number { result ≡ raw_kind (T.contents (storage_of self.now)) }
    {
        u16_at(self.buffer.bytes(), KIND)
    }

    /// Returns the kind without its two flag bits. Requires at least 4 bytes of storage.
    #[inline]
    pub fn kind(&self) -> u16
        requires field { 4 ≤ length (T.contents (storage_of self.now)) }
        ensures number { result ≡ masked (raw_kind (T.contents (storage_of self.now))) }
    {
        self.raw_kind() & NLA_TYPE_MASK
    }

    /// Returns whether the bit `NLA_F_NESTED` of the kind is set. Requires at least 4 bytes of
    /// storage.
    #[inline]
    pub fn nested_flag(&self) -> bool
        requires field { 4 ≤ length (T.contents (storage_of self.now)) }
        ensures flag { result ≡ is_nested (raw_kind (T.contents (storage_of self.now))) }
    {
        is_nested_kind(self.raw_kind())
    }

    /// Returns whether the bit `NLA_F_NET_BYTEORDER` of the kind is set. Requires at least 4 bytes
    /// of storage.
    #[inline]
    pub fn network_byte_order_flag(&self) -> bool
        requires field { 4 ≤ length (T.contents (storage_of self.now)) }
        ensures flag { result ≡ is_network_byteorder (raw_kind (T.contents (storage_of self.now))) }
    {
        is_network_kind(self.raw_kind())
    }

    /// Returns the size of the value in bytes: the length field minus the size of the header.
    /// Requires at least 2 bytes of storage, and a length field of at least 4.
    #[inline]
    pub fn value_length(&self) -> usize
        requires field { 2 ≤ length (T.contents (storage_of self.now)) }
        requires least { 4 ≤ length_field (T.contents (storage_of self.now)) }
        ensures number { result + 4 ≡ length_field (T.contents (storage_of self.now)) }
    {
        self.length() as usize - NLA_HEADER_SIZE
    }
}

impl<T: StorageMut> NlaBuffer<T> {
    /// Sets the length field (`nla_len`) and leaves all other bytes unchanged. Requires at least 2
    /// bytes of storage.
    #[inline]
    pub fn set_length(&mut self, value: u16)
        requires field { 2 ≤ length (T.contents (storage_of self.old)) }
        ensures bytes { T.contents (storage_of self.new)
            ≡ with_length (T.contents (storage_of self.old)) value }
        ensures same_storage { storage_of self.new
            ≡ T.with_contents (storage_of self.old)
            (with_length (T.contents (storage_of self.old)) value) }
    {
        put_u16(self.buffer.bytes_mut(), LENGTH, value);
    }

    /// Sets the kind without its flag bits, so that both are cleared, and leaves all bytes outside
    /// the kind field unchanged. Requires at least 4 bytes of storage.
    #[inline]
    pub fn set_kind(&mut self, kind: u16)
        requires field { 4 ≤ length (T.contents (storage_of self.old)) }
        ensures bytes { T.contents (storage_of self.new)
            ≡ with_kind (T.contents (storage_of self.old)) (masked kind) }
        ensures same_storage { storage_of self.new
            ≡ T.with_contents (storage_of self.old)
            (with_kind (T.contents (storage_of self.old)) (masked kind)) }
    {
        self.set_raw_kind(kind & NLA_TYPE_MASK)
    }

    /// Sets the bit `NLA_F_NESTED` of the kind, clears `NLA_F_NET_BYTEORDER`, and leaves all bytes
    /// outside the kind field unchanged. Requires at least 4 bytes of storage.
    #[inline]
    pub fn set_nested_flag(&mut self)
        requires field { 4 ≤ length (T.contents (storage_of self.old)) }
        ensures bytes { T.contents (storage_of self.new)
            ≡ with_kind (T.contents (storage_of self.old))
            (nested (raw_kind (T.contents (storage_of self.old)))) }
        ensures same_storage { storage_of self.new
            ≡ T.with_contents (storage_of self.old)
            (with_kind (T.contents (storage_of self.old))
            (nested (raw_kind (T.contents (storage_of self.old))))) }
    {
        let kind = self.kind() | NLA_F_NESTED;
        self.set_raw_kind(kind)
    }

    /// Sets the bit `NLA_F_NET_BYTEORDER` of the kind, clears `NLA_F_NESTED`, and leaves all bytes
    /// outside the kind field unchanged. Requires at least 4 bytes of storage.
    #[inline]
    pub fn set_network_byte_order_flag(&mut self)
        requires field { 4 ≤ length (T.contents (storage_of self.old)) }
        ensures bytes { T.contents (storage_of self.new)
            ≡ with_kind (T.contents (storage_of self.old))
            (network_byteorder (raw_kind (T.contents (storage_of self.old)))) }
        ensures same_storage { storage_of self.new
            ≡ T.with_contents (storage_of self.old)
            (with_kind (T.contents (storage_of self.old))
            (network_byteorder (raw_kind (T.contents (storage_of self.old))))) }
    {
        let kind = self.kind() | NLA_F_NET_BYTEORDER;
        self.set_raw_kind(kind)
    }

    /// Sets the kind to `kind`, with its two flag bits, and leaves all bytes outside the kind field
    /// unchanged. Requires at least 4 bytes of storage.
    #[inline]
    pub fn set_raw_kind(&mut self, kind: u16)
        requires field { 4 ≤ length (T.contents (storage_of self.old)) }
        ensures bytes { T.contents (storage_of self.new)
            ≡ with_kind (T.contents (storage_of self.old)) kind }
        ensures same_storage { storage_of self.new
            ≡ T.with_contents (storage_of self.old)
            (with_kind (T.contents (storage_of self.old)) kind) }
    {
        put_u16(self.buffer.bytes_mut(), KIND, kind);
    }

    /// Mutably borrows the value: the bytes from offset 4 up to the length. Requires that the
    /// storage holds a complete attribute, which `check_buffer_length` checks.
    #[inline]
    pub fn value_mut(&mut self) -> &mut [u8]
        requires whole { HoldsAttribute (T.contents (storage_of self.old)) }
        ensures* writes_back { sem 𝓛 (Lends (the_row T.row) (Array byte 0) self.entry result
            (λ value. view_over (T.with_contents (storage_of self.old)
            (put_at (T.contents (storage_of self.old)) 4 value)))) }
        ensures value { result.now ≡ (attribute_of (T.contents (storage_of self.old))).value }
    {
        let end = self.length() as usize;
        self.buffer.part_mut(NLA_HEADER_SIZE, end)
    }
}

impl<'a> NlaBuffer<&'a [u8]> {
    /// Returns the value: the bytes from offset 4 up to the length. Ignores what follows. Requires
    /// that the bytes hold a complete attribute, which `check_buffer_length` checks.
    #[inline]
    pub fn value(&self) -> &'a [u8]
        requires whole { HoldsAttribute (shown self.now) }
        ensures bytes { result.now ≡ (attribute_of (shown self.now)).value }
    {
        let end = self.length() as usize;
        &self.buffer[NLA_HEADER_SIZE..end]
    }
}

/// Returns whether a kind has the bit `NLA_F_NESTED`.
#[inline(always)]
pub(crate) fn is_nested_kind(kind: u16) -> bool
    ensures { result ≡ is_nested kind }
{
    kind & NLA_F_NESTED != 0
}

/// Returns whether a kind has the bit `NLA_F_NET_BYTEORDER`.
#[inline(always)]
pub(crate) fn is_network_kind(kind: u16) -> bool
    ensures { result ≡ is_network_byteorder kind }
{
    kind & !NLA_F_NESTED >= NLA_F_NET_BYTEORDER
}

/// Returns the length field of bytes that hold a complete attribute, or the error if they do not.
#[inline(always)]
pub(crate) fn checked_length(bytes: &[u8]) -> Result<u16, DecodeError>
    ensures number { IfOk result (λ n. n ≡ length_field bytes.now) }
    ensures whole { OnOk result (HoldsAttribute bytes.now) }
    ensures refuses { IfErr result (IsFault bytes.now) }
{
    let size = bytes.len();
    if size < NLA_HEADER_SIZE {
        return Err(DecodeError::NlaBufferTooSmall {
            buffer_len: size,
            nla_len: NLA_HEADER_SIZE,
        });
    }
    let length = u16_at(bytes, LENGTH);
    if length as usize > size {
        return Err(DecodeError::NlaLengthMismatch {
            buffer_len: size,
            nla_len: length as usize,
        });
    }
    if (length as usize) < NLA_HEADER_SIZE {
        return Err(DecodeError::NlaInvalidLength {
            buffer_len: NLA_HEADER_SIZE,
            nla_len: length as usize,
        });
    }
    Ok(length)
}
