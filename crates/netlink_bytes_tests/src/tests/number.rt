//! An integer with its type, so that the functions for integers can be called from a table.

use netlink_bytes::{
    DecodeError, emit_i16, emit_i16_be, emit_i16_le, emit_i32, emit_i32_be, emit_i32_le, emit_i64,
    emit_i64_be, emit_i64_le, emit_i128, emit_i128_be, emit_i128_le, emit_u16, emit_u16_be,
    emit_u16_le, emit_u32, emit_u32_be, emit_u32_le, emit_u64, emit_u64_be, emit_u64_le, emit_u128,
    emit_u128_be, emit_u128_le, parse_i16, parse_i16_be, parse_i16_le, parse_i32, parse_i32_be,
    parse_i32_le, parse_i64, parse_i64_be, parse_i64_le, parse_i128, parse_i128_be, parse_i128_le,
    parse_u16, parse_u16_be, parse_u16_le, parse_u32, parse_u32_be, parse_u32_le, parse_u64,
    parse_u64_be, parse_u64_le, parse_u128, parse_u128_be, parse_u128_le,
};

/// An integer of one of the types that have functions.
#[derive(Clone, Copy, PartialEq)]
pub(super) enum Number {
    U16(u16),
    U32(u32),
    U64(u64),
    U128(u128),
    I16(i16),
    I32(i32),
    I64(i64),
    I128(i128),
}

/// The byte order that the name of a function ends with.
#[derive(Clone, Copy)]
pub(super) enum Order {
    /// No ending: native byte order.
    Native,
    /// `_le`: little-endian.
    Little,
    /// `_be`: big-endian.
    Big,
}

impl Number {
    /// Calls the `emit` function of this type and byte order.
    pub(super) fn emit(self, order: Order, buffer: &mut [u8]) -> Result<(), DecodeError> {
        match order {
            Order::Native => self.emit_native(buffer),
            Order::Little => self.emit_little(buffer),
            Order::Big => self.emit_big(buffer),
        }
    }

    fn emit_native(self, buffer: &mut [u8]) -> Result<(), DecodeError> {
        match self {
            Number::U16(value) => emit_u16(buffer, value),
            Number::U32(value) => emit_u32(buffer, value),
            Number::U64(value) => emit_u64(buffer, value),
            Number::U128(value) => emit_u128(buffer, value),
            Number::I16(value) => emit_i16(buffer, value),
            Number::I32(value) => emit_i32(buffer, value),
            Number::I64(value) => emit_i64(buffer, value),
            Number::I128(value) => emit_i128(buffer, value),
        }
    }

    fn emit_little(self, buffer: &mut [u8]) -> Result<(), DecodeError> {
        match self {
            Number::U16(value) => emit_u16_le(buffer, value),
            Number::U32(value) => emit_u32_le(buffer, value),
            Number::U64(value) => emit_u64_le(buffer, value),
            Number::U128(value) => emit_u128_le(buffer, value),
            Number::I16(value) => emit_i16_le(buffer, value),
            Number::I32(value) => emit_i32_le(buffer, value),
            Number::I64(value) => emit_i64_le(buffer, value),
            Number::I128(value) => emit_i128_le(buffer, value),
        }
    }

    fn emit_big(self, buffer: &mut [u8]) -> Result<(), DecodeError> {
        match self {
            Number::U16(value) => emit_u16_be(buffer, value),
            Number::U32(value) => emit_u32_be(buffer, value),
            Number::U64(value) => emit_u64_be(buffer, value),
            Number::U128(value) => emit_u128_be(buffer, value),
            Number::I16(value) => emit_i16_be(buffer, value),
            Number::I32(value) => emit_i32_be(buffer, value),
            Number::I64(value) => emit_i64_be(buffer, value),
            Number::I128(value) => emit_i128_be(buffer, value),
        }
    }

    /// Calls the `parse` function of this type and byte order. The value of `self` is ignored.
    pub(super) fn parse_same_type(self, order: Order, bytes: &[u8]) -> Result<Number, DecodeError> {
        match order {
            Order::Native => self.parse_native(bytes),
            Order::Little => self.parse_little(bytes),
            Order::Big => self.parse_big(bytes),
        }
    }

    fn parse_native(self, bytes: &[u8]) -> Result<Number, DecodeError> {
        Ok(match self {
            Number::U16(_) => Number::U16(parse_u16(bytes)?),
            Number::U32(_) => Number::U32(parse_u32(bytes)?),
            Number::U64(_) => Number::U64(parse_u64(bytes)?),
            Number::U128(_) => Number::U128(parse_u128(bytes)?),
            Number::I16(_) => Number::I16(parse_i16(bytes)?),
            Number::I32(_) => Number::I32(parse_i32(bytes)?),
            Number::I64(_) => Number::I64(parse_i64(bytes)?),
            Number::I128(_) => Number::I128(parse_i128(bytes)?),
        })
    }

    fn parse_little(self, bytes: &[u8]) -> Result<Number, DecodeError> {
        Ok(match self {
            Number::U16(_) => Number::U16(parse_u16_le(bytes)?),
            Number::U32(_) => Number::U32(parse_u32_le(bytes)?),
            Number::U64(_) => Number::U64(parse_u64_le(bytes)?),
            Number::U128(_) => Number::U128(parse_u128_le(bytes)?),
            Number::I16(_) => Number::I16(parse_i16_le(bytes)?),
            Number::I32(_) => Number::I32(parse_i32_le(bytes)?),
            Number::I64(_) => Number::I64(parse_i64_le(bytes)?),
            Number::I128(_) => Number::I128(parse_i128_le(bytes)?),
        })
    }

    fn parse_big(self, bytes: &[u8]) -> Result<Number, DecodeError> {
        Ok(match self {
            Number::U16(_) => Number::U16(parse_u16_be(bytes)?),
            Number::U32(_) => Number::U32(parse_u32_be(bytes)?),
            Number::U64(_) => Number::U64(parse_u64_be(bytes)?),
            Number::U128(_) => Number::U128(parse_u128_be(bytes)?),
            Number::I16(_) => Number::I16(parse_i16_be(bytes)?),
            Number::I32(_) => Number::I32(parse_i32_be(bytes)?),
            Number::I64(_) => Number::I64(parse_i64_be(bytes)?),
            Number::I128(_) => Number::I128(parse_i128_be(bytes)?),
        })
    }
}
