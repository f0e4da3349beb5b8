//! The fixed header of a message, read in place.

ghost use Rattle.std.specs.Prelude.{◌≡◌, ◌+◌, ◌≤◌, ◌++◌, drop, length, replicate, slice_index, slice_range, take};
ghost use Rattle.netlink_bytes.specs.Fields.{number_at};
ghost use Rattle.netlink_bytes.specs.Numbers.{number_be, signed};
ghost use Rattle.netlink_blocks.specs.Show.{fixed_size};
ghost use Rattle.netlink_shapes.specs.declared.shape.Shape.TheVariants.{Be16, Be32, Be64, ExactLen, I32, U16, U32, U64, U8};

use netlink_bytes::{i32_at, u16_at, u32_at};
use netlink_shapes::decoders::{be16_in, be32_in, be64_in, i32_in, u16_in, u32_in, u64_in};
use netlink_shapes::shape::Shape;

/// A field of a fixed header: its name, its offset in bytes, and the shape of its value.
pub type Field = (&'static str, usize, Shape);

/// A view of the fixed header of a message. Each getter requires that the field has the shape in
/// the getter's name and is inside the header. The bytes that a short payload lacks are read as 0.
#[derive(Clone, Copy, Debug, PartialEq, Eq)]
pub struct HeaderView<'a> {
    /// The bytes of the header, as far as the payload has them.
    pub bytes: &'a [u8],
    /// The number of bytes of the header that a short payload lacks; 0 for any other.
    pub missing: usize,
}

impl<'a> HeaderView<'a> {
    /// Returns a `u8`.
    pub fn u8(&self, field: Field) -> u8
        requires shape { field.2 ≡ U8 }
        requires inside { field.1 + 1 ≤ length self.now.bytes.now + self.now.missing }
        ensures number { result ≡ slice_index self.now.bytes.now field.entry.1 }
    {
        byte_at(self.bytes, field.1, 0)
    }

    /// Returns a `u16` in native byte order.
    #[tactic(auto, using(crate::proofs::Headers::front_number))]
    pub fn u16(&self, field: Field) -> u16
        requires shape { field.2 ≡ U16 }
        requires inside { field.1 + 2 ≤ length self.now.bytes.now + self.now.missing }
        ensures number { result ≡ number_at field.entry.1 2 self.now.bytes.now }
    {
        if self.missing == 0 {
            return u16_at(self.bytes, field.1);
        }
        u16_in(&four_at(self.bytes, field.1)[..2])
    }

    /// Returns a `u32` in native byte order.
    #[tactic(auto, using(crate::proofs::Headers::four_number))]
    pub fn u32(&self, field: Field) -> u32
        requires shape { field.2 ≡ U32 }
        requires inside { field.1 + 4 ≤ length self.now.bytes.now + self.now.missing }
        ensures number { result ≡ number_at field.entry.1 4 self.now.bytes.now }
    {
        if self.missing == 0 {
            return u32_at(self.bytes, field.1);
        }
        u32_in(&four_at(self.bytes, field.1))
    }

    /// Returns a `u64` in native byte order.
    #[tactic(auto, using(crate::proofs::Headers::eight_number))]
    pub fn u64(&self, field: Field) -> u64
        requires shape { field.2 ≡ U64 }
        requires inside { field.1 + 8 ≤ length self.now.bytes.now + self.now.missing }
        ensures number { result ≡ number_at field.entry.1 8 self.now.bytes.now }
    {
        u64_in(&eight_at(self.bytes, field.1))
    }

    /// Returns an `i32` in native byte order.
    #[tactic(auto, using(crate::proofs::Headers::four_number))]
    pub fn i32(&self, field: Field) -> i32
        requires shape { field.2 ≡ I32 }
        requires inside { field.1 + 4 ≤ length self.now.bytes.now + self.now.missing }
        ensures number { result ≡ signed 4 (number_at field.entry.1 4 self.now.bytes.now) }
    {
        if self.missing == 0 {
            return i32_at(self.bytes, field.1);
        }
        i32_in(&four_at(self.bytes, field.1))
    }

    /// Returns a big-endian `u16`.
    #[tactic(auto, using(crate::proofs::Headers::front_bytes, crate::proofs::Headers::front_whole, crate::proofs::Headers::none_missing))]
    pub fn be16(&self, field: Field) -> u16
        requires shape { field.2 ≡ Be16 }
        requires inside { field.1 + 2 ≤ length self.now.bytes.now + self.now.missing }
        ensures number { field.entry.1 + 2 ≤ length self.now.bytes.now
            → result ≡ number_be (slice_range self.now.bytes.now field.entry.1 (field.entry.1 + 2)) }
        ensures filled { result
            ≡ number_be (slice_range (self.now.bytes.now ++ replicate self.now.missing 0) field.entry.1 (field.entry.1 + 2)) }
    {
        if self.missing == 0 {
            return be16_in(&self.bytes[field.1..field.1 + 2]);
        }
        be16_in(&four_at(self.bytes, field.1)[..2])
    }

    /// Returns a big-endian `u32`.
    #[tactic(auto, using(crate::proofs::Headers::four_range, crate::proofs::Headers::four_whole, crate::proofs::Headers::none_missing))]
    pub fn be32(&self, field: Field) -> u32
        requires shape { field.2 ≡ Be32 }
        requires inside { field.1 + 4 ≤ length self.now.bytes.now + self.now.missing }
        ensures number { field.entry.1 + 4 ≤ length self.now.bytes.now
            → result ≡ number_be (slice_range self.now.bytes.now field.entry.1 (field.entry.1 + 4)) }
        ensures filled { result
            ≡ number_be (slice_range (self.now.bytes.now ++ replicate self.now.missing 0) field.entry.1 (field.entry.1 + 4)) }
    {
        if self.missing == 0 {
            return be32_in(&self.bytes[field.1..field.1 + 4]);
        }
        be32_in(&four_at(self.bytes, field.1))
    }

    /// Returns a big-endian `u64`.
    #[tactic(auto, using(crate::proofs::Headers::eight_range, crate::proofs::Headers::eight_whole))]
    pub fn be64(&self, field: Field) -> u64
        requires shape { field.2 ≡ Be64 }
        requires inside { field.1 + 8 ≤ length self.now.bytes.now + self.now.missing }
        ensures number { field.entry.1 + 8 ≤ length self.now.bytes.now
            → result ≡ number_be (slice_range self.now.bytes.now field.entry.1 (field.entry.1 + 8)) }
        ensures filled { result
            ≡ number_be (slice_range (self.now.bytes.now ++ replicate self.now.missing 0) field.entry.1 (field.entry.1 + 8)) }
    {
        be64_in(&eight_at(self.bytes, field.1))
    }

    /// Returns the bytes of a field, such as an address. Requires that the field has the shape
    /// `ExactLen`. The bytes that a short payload lacks are left out.
    pub fn exact(&self, field: Field) -> &'a [u8]
        requires shape { field.2 ≡ ExactLen (fixed_size field.2) }
        requires inside { field.1 + fixed_size field.2 ≤ length self.now.bytes.now + self.now.missing }
        ensures bytes { result.now ≡ take (fixed_size field.entry.2) (drop field.entry.1 self.now.bytes.now) }
        ensures size { field.entry.1 + fixed_size field.entry.2 ≤ length self.now.bytes.now
            → length result.now ≡ fixed_size field.entry.2 }
    {
        match field.2 {
            Shape::ExactLen(size) => field_bytes(self.bytes, field.1, usize::from(size)),
            _ => &[],
        }
    }
}

/// Returns the 4 bytes at an offset. Those that are missing are 0.
#[tactic(auto, using(crate::proofs::Headers::four_bytes))]
fn four_at(bytes: &[u8], at: usize) -> [u8; 4]
    ensures { result ≡ take 4 (drop at bytes.now ++ replicate 4 0) }
{
    [
        byte_at(bytes, at, 0),
        byte_at(bytes, at, 1),
        byte_at(bytes, at, 2),
        byte_at(bytes, at, 3),
    ]
}

/// Returns the 8 bytes at an offset. Those that are missing are 0.
#[tactic(auto, using(crate::proofs::Headers::eight_bytes))]
fn eight_at(bytes: &[u8], at: usize) -> [u8; 8]
    ensures { result ≡ take 8 (drop at bytes.now ++ replicate 8 0) }
{
    [
        byte_at(bytes, at, 0),
        byte_at(bytes, at, 1),
        byte_at(bytes, at, 2),
        byte_at(bytes, at, 3),
        byte_at(bytes, at, 4),
        byte_at(bytes, at, 5),
        byte_at(bytes, at, 6),
        byte_at(bytes, at, 7),
    ]
}

/// Returns the byte at the sum of two offsets, or 0 if it is missing.
fn byte_at(bytes: &[u8], at: usize, more: usize) -> u8
    ensures { result ≡ slice_index bytes.now (at + more) }
{
    if at >= bytes.len() || more >= bytes.len() - at {
        return 0;
    }
    bytes[at + more]
}

/// Returns this number of bytes of a header at an offset, or those that the header has there.
pub fn field_bytes(header: &[u8], offset: usize, size: usize) -> &[u8]
    ensures { result.now ≡ take size (drop offset header.now) }
{
    if header.len() <= offset {
        return &[];
    }
    let rest = &header[offset..];
    if rest.len() <= size {
        rest
    } else {
        &rest[..size]
    }
}
