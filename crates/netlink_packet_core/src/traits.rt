//! What a sub-protocol supplies.

ghost use Rattle.std.specs.Prelude.{◌≡◌, ◌↔◌, ◌+◌, ◌<◌, ◌≤◌, ◌^◌, ◌++◌, ℕ, Bool, true, false, List, Some, None, length, IfOk, IfErr, IfSome, IsOk, IsTrue, OnErr, OnOk, vec_len, vec_capacity};
ghost use Rattle.netlink_packet_core.specs.declared.header.NetlinkHeader.{NetlinkHeader};
ghost use Rattle.netlink_packet_core.specs.Protocol.{Encoding, Decoding, IsLawful, IsNormalFrame};

use crate::header::NetlinkHeader;
use std::alloc::{AllocError, Global};
use std::error::Error;

/// A message of a sub-protocol that can be encoded.
pub trait NetlinkSerializable {
    /// The message type and the encoding of a value.
    ghost encoding: { Encoding Self };

    /// Returns the value's message type, for the header.
    fn message_type(&self) -> u16
        ensures kind { result ≡ encoding.type_of self.now };

    /// Returns the size of the encoded value in bytes.
    fn buffer_len(&self) -> usize
        ensures size { result ≡ length (encoding.bytes_of self.now) };

    /// Writes the encoded value over all of `buffer`. Requires that `buffer` has exactly
    /// `buffer_len` bytes.
    fn serialize(&self, buffer: &mut [u8])
        requires size { length buffer.old ≡ length (encoding.bytes_of self.now) }
        ensures text { buffer.new ≡ encoding.bytes_of self.now };

    /// Appends the encoded value to a vector. Requires that the vector then has fewer than 2^64
    /// bytes. Returns `Ok` if the vector has room. Otherwise allocates with the vector's own
    /// allocator and, if that fails, returns `AllocError` and leaves the vector unchanged.
    ///
    /// This default body appends zeros and overwrites them with `serialize`. A protocol that
    /// already has its encoding should copy it instead.
    fn append(&self, frame: &mut Vec<u8>) -> Result<(), AllocError>
        requires fits { vec_len frame.old + length (encoding.bytes_of self.now) < 2 ^ 64 }
        ensures text { OnOk result
            (frame.new.items ≡ frame.old.items ++ encoding.bytes_of self.now) }
        ensures room { vec_len frame.old + length (encoding.bytes_of self.now)
            ≤ vec_capacity frame.old → IsOk result }
        ensures unchanged { OnErr result (frame.new.items ≡ frame.old.items) }
    {
        let start = frame.len();
        frame.resize(start + self.buffer_len(), 0)?;
        self.serialize(&mut frame[start..]);
        Ok(())
    }

    /// Returns whether the bytes are the encoded value. Returns `AllocError` if an allocation
    /// fails. Does not allocate if the bytes and the encoding differ in size.
    ///
    /// This default body encodes the value into a buffer of its own. A protocol that already has
    /// its encoding should compare it instead.
    fn is_written_as(&self, alloc: Global, bytes: &[u8]) -> Result<bool, AllocError>
        ensures says { IfOk result (λ yes. IsTrue yes ↔ (bytes.now ≡ encoding.bytes_of self.now)) }
        ensures size { OnErr result (length bytes.now ≡ length (encoding.bytes_of self.now)) }
    {
        if bytes.len() != self.buffer_len() {
            return Ok(false);
        }
        let mut text = Vec::with_capacity(alloc, bytes.len())?;
        self.append(&mut text)?;
        Ok(text.as_slice() == bytes)
    }
}

/// A message of a sub-protocol that can be decoded.
pub trait NetlinkDeserializable: Sized {
    /// The error for a rejected payload.
    type Error: Error + Drop;

    /// What a header and a payload decode to, what a value represents, and which values hold
    /// numbers within their widths.
    ghost decoding: { Decoding Self };

    /// Whether an error means that an allocation failed.
    ghost wants_memory: { Self.Error → Bool };

    /// Returns the value that a header and a payload decode to. An error for which `wants_memory`
    /// is false means that they decode to nothing.
    fn deserialize(
        alloc: Global,
        header: &NetlinkHeader,
        payload: &[u8],
    ) -> Result<Self, Self::Error>
        ensures in_range { IfOk result (λ v. IsTrue (decoding.in_range v)) }
        ensures reads { IfOk result
            (λ v. decoding.reading header.now payload.now ≡ Some (decoding.stands_for v)) }
        ensures refuses { IfErr result
            (λ e. wants_memory e ≡ false → decoding.reading header.now payload.now ≡ None) };

    /// Returns whether an error means that an allocation failed.
    fn is_out_of_memory(error: &Self::Error) -> bool
        ensures memory { result ≡ wants_memory error.now };

    /// Returns the encoding of what `deserialize` returns, after 16 bytes for a header, which
    /// `normalize` writes over them. Returns `None` if `normalize` is to call `deserialize` instead. It
    /// must return `None` if the value that `deserialize` returns has another message type than the
    /// header. Returns an error only as `deserialize` does.
    ///
    /// This default body returns `None`. A protocol that can write the encoding without making the
    /// value should do so, in a vector of its exact size.
    fn normal_frame(
        alloc: Global,
        header: &NetlinkHeader,
        payload: &[u8],
    ) -> Result<Option<Vec<u8>>, Self::Error>
        ensures writes { IfOk result (λ found. IfSome found
            (λ frame. IsNormalFrame decoding header.now payload.now frame.items)) }
        ensures refuses { IfErr result
            (λ e. wants_memory e ≡ false → decoding.reading header.now payload.now ≡ None) }
    {
        Ok(None)
    }
}

/// A sub-protocol that satisfies the laws, so that each of its messages has one canonical frame.
pub trait NetlinkProtocol: NetlinkSerializable + NetlinkDeserializable + Eq + Drop {
    /// Establishes that the value holds numbers within their widths. Reads those numbers, and does
    /// nothing else.
    fn in_widths(&self)
        ensures in_range { IsTrue (Self.decoding.in_range self.now) };

    /// A value represents its own type and encoding.
    ghost own_pair: { (v : Self)
        → Self.decoding.stands_for v ≡ (Self.encoding.type_of v, Self.encoding.bytes_of v) };

    /// Two values are equal if and only if they represent the same type and encoding.
    ghost equal_pairs: { (v w : Self) → IsTrue (Self.decoding.in_range v)
        → IsTrue (Self.decoding.in_range w)
        → (Self.eq v w ≡ true) ↔ (Self.decoding.stands_for v ≡ Self.decoding.stands_for w) };

    /// What a value represents reads back as itself, whatever else its header contains.
    ghost value_is_lawful: { (v : Self) → IsTrue (Self.decoding.in_range v)
        → IsLawful Self.decoding (Self.decoding.stands_for v) };

    /// And so does what a payload decodes to.
    ghost reading_is_lawful: { (h : NetlinkHeader) (payload : List ℕ) (pair : ℕ × List ℕ)
        → Self.decoding.reading h payload ≡ Some pair → IsLawful Self.decoding pair };
}
