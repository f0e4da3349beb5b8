//! Numbers and strings in bytes.

ghost use Rattle.std.specs.Prelude.{◌≡◌, ◌≤◌, ◌⊎◌, ◌↔◌, [], ◌∷◌, ◌++◌, IfSome, IsSome, drop, length, true};
ghost use Rattle.std.specs.Str.{IsUtf8};
ghost use Rattle.netlink_bytes.specs.Numbers.{number_be, number_le, signed};
ghost use Rattle.netlink_shapes.specs.Shapes.{number_of};
ghost use Rattle.netlink_shapes.specs.Strings.{has_no_nul, nul_offset, nul_only_last, until_nul};

use crate::shape::{Shape, has_shape};
use netlink_bytes::{
    parse_i32, parse_i32_be, parse_i64, parse_u16, parse_u16_be, parse_u32, parse_u32_be,
    parse_u64, parse_u64_be,
};

/// Returns the bytes before the first NUL: the string in a value of shape `Str` or `NulStr`.
#[tactic(auto, using(crate::specs::Strings::until_nul_whole, crate::specs::Strings::until_nul_has_none))]
pub fn bytes_until_nul(value: &[u8]) -> &[u8]
    ensures text { result.now ≡ until_nul value.now }
    ensures whole { nul_only_last value.now ≡ true → (value.now ≡ result.now) ⊎ (value.now ≡ result.now ++ (0 ∷ [])) }
    ensures has_no_nul { has_no_nul result.now ≡ true }
{
    &value[..nul_offset(value)]
}

/// Returns the bytes before the first NUL as a `str`. Returns `None` if they are not UTF-8.
pub fn str_until_nul(value: &[u8]) -> Option<&str>
    ensures text { IfSome result (λ s. s.now ≡ until_nul value.now) }
    ensures utf8 { IsSome result ↔ IsUtf8 (until_nul value.now) }
{
    match str::from_utf8(bytes_until_nul(value)) {
        Ok(text) => Some(text),
        Err(_) => None,
    }
}

/// Returns the offset of the first NUL, or the length if there is none. Reads four bytes at a step,
/// which takes half the instructions.
fn nul_offset(value: &[u8]) -> usize
    ensures size { result ≡ nul_offset value.now }
    ensures inside { result ≤ length value.now }
{
    let mut size = 0;
    let mut rest = value;
    while let [first, second, third, fourth, more @ ..] = rest {
        if *first == 0 {
            return size;
        }
        if *second == 0 {
            return size + 1;
        }
        if *third == 0 {
            return size + 2;
        }
        if *fourth == 0 {
            return size + 3;
        }
        size += 4;
        rest = more;
    }
    size + nul_offset_by_one(rest)
}

/// Returns the offset of the first NUL in a few bytes, or their number if there is none.
#[inline(always)]
fn nul_offset_by_one(value: &[u8]) -> usize
    ensures size { result ≡ nul_offset value.now }
    ensures inside { result ≤ length value.now }
{
    let mut before = 0;
    let mut rest = value;
    while let [first, more @ ..] = rest {
        if *first == 0 {
            return before;
        }
        before += 1;
        rest = more;
    }
    before
}

/// Decodes an integer of 2 bytes.
pub fn u16_in(bytes: &[u8]) -> u16
    requires { length bytes.now ≡ 2 }
    ensures { result ≡ number_le bytes.now }
{
    parse_u16(bytes).unwrap()
}

/// Decodes an integer of 4 bytes.
pub fn u32_in(bytes: &[u8]) -> u32
    requires { length bytes.now ≡ 4 }
    ensures { result ≡ number_le bytes.now }
{
    parse_u32(bytes).unwrap()
}

/// Decodes an integer of 8 bytes.
pub fn u64_in(bytes: &[u8]) -> u64
    requires { length bytes.now ≡ 8 }
    ensures { result ≡ number_le bytes.now }
{
    parse_u64(bytes).unwrap()
}

/// Decodes an integer of 4 bytes.
pub fn i32_in(bytes: &[u8]) -> i32
    requires { length bytes.now ≡ 4 }
    ensures { result ≡ signed 4 (number_le bytes.now) }
{
    parse_i32(bytes).unwrap()
}

/// Decodes an integer of 8 bytes.
pub fn i64_in(bytes: &[u8]) -> i64
    requires { length bytes.now ≡ 8 }
    ensures { result ≡ signed 8 (number_le bytes.now) }
{
    parse_i64(bytes).unwrap()
}

/// Decodes an integer of 2 bytes.
pub fn be16_in(bytes: &[u8]) -> u16
    requires { length bytes.now ≡ 2 }
    ensures { result ≡ number_be bytes.now }
{
    parse_u16_be(bytes).unwrap()
}

/// Decodes an integer of 4 bytes.
pub fn be32_in(bytes: &[u8]) -> u32
    requires { length bytes.now ≡ 4 }
    ensures { result ≡ number_be bytes.now }
{
    parse_u32_be(bytes).unwrap()
}

/// Decodes a signed integer of 4 bytes.
pub fn be_i32_in(bytes: &[u8]) -> i32
    requires { length bytes.now ≡ 4 }
    ensures { result ≡ signed 4 (number_be bytes.now) }
{
    parse_i32_be(bytes).unwrap()
}

/// Decodes an integer of 8 bytes.
pub fn be64_in(bytes: &[u8]) -> u64
    requires { length bytes.now ≡ 8 }
    ensures { result ≡ number_be bytes.now }
{
    parse_u64_be(bytes).unwrap()
}

/// Decodes a value by its shape. Returns `None` if the shape is not that of an unsigned integer, or
/// the value does not have it.
pub(crate) fn number_of(shape: Shape, value: &[u8]) -> Option<u64>
    ensures { result ≡ number_of shape value.now }
{
    if !has_shape(shape, value) {
        return None;
    }
    match shape {
        Shape::U8 => Some(u64::from(value[0])),
        Shape::U16 => Some(u64::from(u16_in(value))),
        Shape::U32 => Some(u64::from(u32_in(value))),
        Shape::U64 => Some(u64_in(value)),
        Shape::Be16 => Some(u64::from(be16_in(value))),
        Shape::Be32 => Some(u64::from(be32_in(value))),
        Shape::Be64 => Some(be64_in(value)),
        _ => None,
    }
}
