//! Decoded values.

ghost use Rattle.std.specs.Prelude.{◌≡◌, ◌≤◌, drop, length, true};
ghost use Rattle.netlink_shapes.specs.Shapes.{has_shape, is_block_shaped, nest_fits, nest_levels, rows_in};
ghost use Rattle.netlink_shapes.specs.declared.shape.Shape.TheVariants.{HeaderNested, Nested};
ghost use Rattle.netlink_blocks.specs.Values.{NestHasRows, IsValueOf, value_shape};

use crate::block_view::BlockView;
use crate::header_view::HeaderView;
use netlink_shapes::decoders::{
    be_i32_in, be16_in, be32_in, be64_in, bytes_until_nul, i32_in, i64_in, u16_in, u32_in, u64_in,
};
use netlink_shapes::rows::Rows;
use netlink_shapes::shape::Shape;

/// A decoded value, one variant per shape.
#[derive(Clone, Copy, Debug, PartialEq, Eq)]
pub enum Value<'a> {
    /// The attribute is present.
    Flag,
    /// A `u8`.
    U8(u8),
    /// A `u16`.
    U16(u16),
    /// A `u32`.
    U32(u32),
    /// A `u64`.
    U64(u64),
    /// An `i32`.
    I32(i32),
    /// An `i64`.
    I64(i64),
    /// A big-endian `u16`.
    Be16(u16),
    /// A big-endian `u32`.
    Be32(u32),
    /// A big-endian `u64`.
    Be64(u64),
    /// A big-endian `i32`.
    BeI32(i32),
    /// The number of bytes that the shape requires.
    ExactLen(&'a [u8]),
    /// An IP address, 4 or 16 bytes.
    Ip(&'a [u8]),
    /// A string with its NUL.
    NulStr(&'a [u8]),
    /// A string with or without a NUL at its end.
    Str(&'a [u8]),
    /// Bytes with this minimum size.
    MinLen(u16, &'a [u8]),
    /// Elements of this number of bytes, one after another.
    Elements(u16, &'a [u8]),
    /// A nest: a view of its attributes.
    Nested(BlockView<'a>),
    /// A nest after a fixed header, and a view of its attributes.
    HeaderNested(HeaderView<'a>, BlockView<'a>),
    /// Any bytes.
    Bytes(&'a [u8]),
}

/// Decodes bytes that have a shape.
#[inline(always)]
pub fn value_in<'a>(rows: Rows, shape: Shape, bytes: &'a [u8]) -> Value<'a>
    requires shape { has_shape shape bytes.now ≡ true }
    requires nest { nest_fits (rows_in rows.list.now) shape bytes.now ≡ true }
    ensures value_is { IsValueOf result bytes.now }
    ensures shape { value_shape result ≡ shape }
    ensures nest { NestHasRows (rows_in rows.list.now) result }
{
    match shape {
        Shape::Flag => Value::Flag,
        Shape::U8 => Value::U8(bytes[0]),
        Shape::U16 => Value::U16(u16_in(bytes)),
        Shape::U32 => Value::U32(u32_in(bytes)),
        Shape::U64 => Value::U64(u64_in(bytes)),
        Shape::I32 => Value::I32(i32_in(bytes)),
        Shape::I64 => Value::I64(i64_in(bytes)),
        Shape::Be16 => Value::Be16(be16_in(bytes)),
        Shape::Be32 => Value::Be32(be32_in(bytes)),
        Shape::Be64 => Value::Be64(be64_in(bytes)),
        Shape::BeI32 => Value::BeI32(be_i32_in(bytes)),
        Shape::ExactLen(_) => Value::ExactLen(bytes),
        Shape::Ip => Value::Ip(bytes),
        Shape::NulStr => Value::NulStr(bytes),
        Shape::Str => Value::Str(bytes),
        Shape::MinLen(size) => Value::MinLen(size, bytes),
        Shape::Elements(size) => Value::Elements(size, bytes),
        Shape::Nested(policy) => nest_in(rows, policy, bytes),
        Shape::HeaderNested { size, policy } => header_nest_in(rows, size, policy, bytes),
        Shape::Chosen { .. } | Shape::ChosenByNumber { .. } => unreachable!(),
        Shape::Bytes => Value::Bytes(bytes),
    }
}

/// Decodes a nest. It is a separate function so that other values do not initialize the space for
/// it.
#[inline(always)]
fn nest_in<'a>(rows: Rows, policy: u16, bytes: &'a [u8]) -> Value<'a>
    requires nest { is_block_shaped nest_levels (rows_in rows.list.now) policy bytes.now ≡ true }
    ensures value_is { IsValueOf result bytes.now }
    ensures shape { value_shape result ≡ Nested policy }
    ensures nest { NestHasRows (rows_in rows.list.now) result }
{
    Value::Nested(BlockView {
        rows,
        policy,
        block: bytes,
    })
}

/// Decodes a nest after a fixed header. It is a separate function for the same reason as `nest_in`.
fn header_nest_in<'a>(rows: Rows, size: u16, policy: u16, bytes: &'a [u8]) -> Value<'a>
    requires long { size ≤ length bytes.now }
    requires nest { is_block_shaped nest_levels (rows_in rows.list.now) policy (drop size bytes.now) ≡ true }
    ensures value_is { IsValueOf result bytes.now }
    ensures shape { value_shape result ≡ HeaderNested size policy }
    ensures nest { NestHasRows (rows_in rows.list.now) result }
{
    let header = HeaderView {
        bytes: &bytes[..size as usize],
        missing: 0,
    };
    let inner = BlockView {
        rows,
        policy,
        block: &bytes[size as usize..],
    };
    Value::HeaderNested(header, inner)
}
