//! Structs in the values of attributes, by named fields.

ghost use Rattle.std.specs.Prelude.{◌≡◌, IfNone, IfSome, None, Some, length, slice_index};
ghost use Rattle.std.specs.Option.{option_map};
ghost use Rattle.netlink_packet_core.specs.Numbers.{number_be, number_le, signed};
ghost use Rattle.netlink_blocks.specs.Show.{fixed_size};
ghost use Rattle.netlink_shapes.specs.declared.shape.Shape.TheVariants.{Be16, Be32, Be64, ExactLen, I32, I64, U16, U32, U64, U8};
ghost use Rattle.netlink_values.specs.Parts.{part_of};

use netlink_blocks::header_view::Field;
use netlink_shapes::decoders::{be16_in, be32_in, be64_in, i32_in, i64_in, u16_in, u32_in, u64_in};
use netlink_shapes::shape::Shape;

/// A view of a struct in the value of an attribute, such as `BlockView::bytes` returns. The kernel
/// extends its structs, so a value may end before a field: then the getter returns `None`, and in no
/// other case. Each getter requires that the field has the shape in the getter's name.
#[derive(Clone, Copy, Debug, PartialEq, Eq)]
pub struct StructView<'a> {
    /// The bytes of the value.
    pub bytes: &'a [u8],
}

impl<'a> StructView<'a> {
    /// Returns a `u8`.
    pub fn u8(&self, field: Field) -> Option<u8>
        requires shape { field.2 ≡ U8 }
        ensures number { result ≡ option_map (λ part. slice_index part 0) (part_of self.now.bytes.now field.entry.1 1) }
    {
        Some(part(self.bytes, field.1, 1)?[0])
    }

    /// Returns a `u16` in native byte order.
    pub fn u16(&self, field: Field) -> Option<u16>
        requires shape { field.2 ≡ U16 }
        ensures number { result ≡ option_map number_le (part_of self.now.bytes.now field.entry.1 2) }
    {
        Some(u16_in(part(self.bytes, field.1, 2)?))
    }

    /// Returns a `u32` in native byte order.
    pub fn u32(&self, field: Field) -> Option<u32>
        requires shape { field.2 ≡ U32 }
        ensures number { result ≡ option_map number_le (part_of self.now.bytes.now field.entry.1 4) }
    {
        Some(u32_in(part(self.bytes, field.1, 4)?))
    }

    /// Returns a `u64` in native byte order.
    pub fn u64(&self, field: Field) -> Option<u64>
        requires shape { field.2 ≡ U64 }
        ensures number { result ≡ option_map number_le (part_of self.now.bytes.now field.entry.1 8) }
    {
        Some(u64_in(part(self.bytes, field.1, 8)?))
    }

    /// Returns an `i32` in native byte order.
    pub fn i32(&self, field: Field) -> Option<i32>
        requires shape { field.2 ≡ I32 }
        ensures number { result
            ≡ option_map (λ part. signed 4 (number_le part)) (part_of self.now.bytes.now field.entry.1 4) }
    {
        Some(i32_in(part(self.bytes, field.1, 4)?))
    }

    /// Returns an `i64` in native byte order.
    pub fn i64(&self, field: Field) -> Option<i64>
        requires shape { field.2 ≡ I64 }
        ensures number { result
            ≡ option_map (λ part. signed 8 (number_le part)) (part_of self.now.bytes.now field.entry.1 8) }
    {
        Some(i64_in(part(self.bytes, field.1, 8)?))
    }

    /// Returns a big-endian `u16`.
    pub fn be16(&self, field: Field) -> Option<u16>
        requires shape { field.2 ≡ Be16 }
        ensures number { result ≡ option_map number_be (part_of self.now.bytes.now field.entry.1 2) }
    {
        Some(be16_in(part(self.bytes, field.1, 2)?))
    }

    /// Returns a big-endian `u32`.
    pub fn be32(&self, field: Field) -> Option<u32>
        requires shape { field.2 ≡ Be32 }
        ensures number { result ≡ option_map number_be (part_of self.now.bytes.now field.entry.1 4) }
    {
        Some(be32_in(part(self.bytes, field.1, 4)?))
    }

    /// Returns a big-endian `u64`.
    pub fn be64(&self, field: Field) -> Option<u64>
        requires shape { field.2 ≡ Be64 }
        ensures number { result ≡ option_map number_be (part_of self.now.bytes.now field.entry.1 8) }
    {
        Some(be64_in(part(self.bytes, field.1, 8)?))
    }

    /// Returns the bytes of a field, such as an address. Requires that the field has the shape
    /// `ExactLen`.
    pub fn exact(&self, field: Field) -> Option<&'a [u8]>
        requires shape { field.2 ≡ ExactLen (fixed_size field.2) }
        ensures some { IfSome result (λ v. part_of self.now.bytes.now field.entry.1 (fixed_size field.entry.2) ≡ Some v.now) }
        ensures none { IfNone result (part_of self.now.bytes.now field.entry.1 (fixed_size field.entry.2) ≡ None) }
    {
        match field.2 {
            Shape::ExactLen(size) => part(self.bytes, field.1, usize::from(size)),
            _ => None,
        }
    }
}

/// Returns this number of bytes at an offset, or `None` if the bytes end before.
fn part(bytes: &[u8], at: usize, size: usize) -> Option<&[u8]>
    ensures some { IfSome result (λ v. part_of bytes.now at size ≡ Some v.now) }
    ensures none { IfNone result (part_of bytes.now at size ≡ None) }
    ensures size { IfSome result (λ v. length v.now ≡ size) }
{
    if at > bytes.len() || size > bytes.len() - at {
        return None;
    }
    Some(&bytes[at..at + size])
}
