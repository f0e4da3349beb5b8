//! Signed integers in two's complement, by way of the unsigned ones.

ghost use Rattle.netlink_bytes.specs.Numbers.{Reads, Writes, number_be, number_le, signed, bytes_be, bytes_le, unsigned};

use crate::error::DecodeError;
use crate::numbers::unsigned::{
    emit_u16, emit_u16_be, emit_u16_le, emit_u32, emit_u32_be, emit_u32_le, emit_u64, emit_u64_be,
    emit_u64_le, emit_u128, emit_u128_be, emit_u128_le, parse_u16, parse_u16_be, parse_u16_le,
    parse_u32, parse_u32_be, parse_u32_le, parse_u64, parse_u64_be, parse_u64_le, parse_u128,
    parse_u128_be, parse_u128_le,
};

/// Reads an `i16`, two's complement in native byte order. Returns `InvalidNumber` unless `payload`
/// has exactly 2 bytes.
pub fn parse_i16(payload: &[u8]) -> Result<i16, DecodeError>
    ensures reads { Reads (λ bytes. signed 2 (number_le bytes)) 2 payload.now result }
{
    Ok(parse_u16(payload)?.cast_signed())
}

/// Reads an `i16`, two's complement in big-endian byte order. Returns `InvalidNumber` unless
/// `payload` has exactly 2 bytes.
pub fn parse_i16_be(payload: &[u8]) -> Result<i16, DecodeError>
    ensures reads { Reads (λ bytes. signed 2 (number_be bytes)) 2 payload.now result }
{
    Ok(parse_u16_be(payload)?.cast_signed())
}

/// Reads an `i16`, two's complement in little-endian byte order. Returns `InvalidNumber` unless
/// `payload` has exactly 2 bytes.
pub fn parse_i16_le(payload: &[u8]) -> Result<i16, DecodeError>
    ensures reads { Reads (λ bytes. signed 2 (number_le bytes)) 2 payload.now result }
{
    Ok(parse_u16_le(payload)?.cast_signed())
}

/// Writes `value` as 2 bytes, two's complement in native byte order, at the start of `buf` and
/// leaves the rest unchanged. Returns `BufferTooSmall`, and leaves all of `buf` unchanged, if it
/// has fewer than 2 bytes.
pub fn emit_i16(buf: &mut [u8], value: i16) -> Result<(), DecodeError>
    ensures writes { Writes (bytes_le (unsigned 2 value) 2) 2 buf.old buf.new result }
{
    emit_u16(buf, value.cast_unsigned())
}

/// Writes `value` as 2 bytes, two's complement in big-endian byte order, at the start of `buf` and
/// leaves the rest unchanged. Returns `BufferTooSmall`, and leaves all of `buf` unchanged, if it
/// has fewer than 2 bytes.
pub fn emit_i16_be(buf: &mut [u8], value: i16) -> Result<(), DecodeError>
    ensures writes { Writes (bytes_be (unsigned 2 value) 2) 2 buf.old buf.new result }
{
    emit_u16_be(buf, value.cast_unsigned())
}

/// Writes `value` as 2 bytes, two's complement in little-endian byte order, at the start of `buf`
/// and leaves the rest unchanged. Returns `BufferTooSmall`, and leaves all of `buf` unchanged, if
/// it has fewer than 2 bytes.
pub fn emit_i16_le(buf: &mut [u8], value: i16) -> Result<(), DecodeError>
    ensures writes { Writes (bytes_le (unsigned 2 value) 2) 2 buf.old buf.new result }
{
    emit_u16_le(buf, value.cast_unsigned())
}

/// Reads an `i32`, two's complement in native byte order. Returns `InvalidNumber` unless `payload`
/// has exactly 4 bytes.
pub fn parse_i32(payload: &[u8]) -> Result<i32, DecodeError>
    ensures reads { Reads (λ bytes. signed 4 (number_le bytes)) 4 payload.now result }
{
    Ok(parse_u32(payload)?.cast_signed())
}

/// Reads an `i32`, two's complement in big-endian byte order. Returns `InvalidNumber` unless
/// `payload` has exactly 4 bytes.
pub fn parse_i32_be(payload: &[u8]) -> Result<i32, DecodeError>
    ensures reads { Reads (λ bytes. signed 4 (number_be bytes)) 4 payload.now result }
{
    Ok(parse_u32_be(payload)?.cast_signed())
}

/// Reads an `i32`, two's complement in little-endian byte order. Returns `InvalidNumber` unless
/// `payload` has exactly 4 bytes.
pub fn parse_i32_le(payload: &[u8]) -> Result<i32, DecodeError>
    ensures reads { Reads (λ bytes. signed 4 (number_le bytes)) 4 payload.now result }
{
    Ok(parse_u32_le(payload)?.cast_signed())
}

/// Writes `value` as 4 bytes, two's complement in native byte order, at the start of `buf` and
/// leaves the rest unchanged. Returns `BufferTooSmall`, and leaves all of `buf` unchanged, if it
/// has fewer than 4 bytes.
pub fn emit_i32(buf: &mut [u8], value: i32) -> Result<(), DecodeError>
    ensures writes { Writes (bytes_le (unsigned 4 value) 4) 4 buf.old buf.new result }
{
    emit_u32(buf, value.cast_unsigned())
}

/// Writes `value` as 4 bytes, two's complement in big-endian byte order, at the start of `buf` and
/// leaves the rest unchanged. Returns `BufferTooSmall`, and leaves all of `buf` unchanged, if it
/// has fewer than 4 bytes.
pub fn emit_i32_be(buf: &mut [u8], value: i32) -> Result<(), DecodeError>
    ensures writes { Writes (bytes_be (unsigned 4 value) 4) 4 buf.old buf.new result }
{
    emit_u32_be(buf, value.cast_unsigned())
}

/// Writes `value` as 4 bytes, two's complement in little-endian byte order, at the start of `buf`
/// and leaves the rest unchanged. Returns `BufferTooSmall`, and leaves all of `buf` unchanged, if
/// it has fewer than 4 bytes.
pub fn emit_i32_le(buf: &mut [u8], value: i32) -> Result<(), DecodeError>
    ensures writes { Writes (bytes_le (unsigned 4 value) 4) 4 buf.old buf.new result }
{
    emit_u32_le(buf, value.cast_unsigned())
}

/// Reads an `i64`, two's complement in native byte order. Returns `InvalidNumber` unless `payload`
/// has exactly 8 bytes.
pub fn parse_i64(payload: &[u8]) -> Result<i64, DecodeError>
    ensures reads { Reads (λ bytes. signed 8 (number_le bytes)) 8 payload.now result }
{
    Ok(parse_u64(payload)?.cast_signed())
}

/// Reads an `i64`, two's complement in big-endian byte order. Returns `InvalidNumber` unless
/// `payload` has exactly 8 bytes.
pub fn parse_i64_be(payload: &[u8]) -> Result<i64, DecodeError>
    ensures reads { Reads (λ bytes. signed 8 (number_be bytes)) 8 payload.now result }
{
    Ok(parse_u64_be(payload)?.cast_signed())
}

/// Reads an `i64`, two's complement in little-endian byte order. Returns `InvalidNumber` unless
/// `payload` has exactly 8 bytes.
pub fn parse_i64_le(payload: &[u8]) -> Result<i64, DecodeError>
    ensures reads { Reads (λ bytes. signed 8 (number_le bytes)) 8 payload.now result }
{
    Ok(parse_u64_le(payload)?.cast_signed())
}

/// Writes `value` as 8 bytes, two's complement in native byte order, at the start of `buf` and
/// leaves the rest unchanged. Returns `BufferTooSmall`, and leaves all of `buf` unchanged, if it
/// has fewer than 8 bytes.
pub fn emit_i64(buf: &mut [u8], value: i64) -> Result<(), DecodeError>
    ensures writes { Writes (bytes_le (unsigned 8 value) 8) 8 buf.old buf.new result }
{
    emit_u64(buf, value.cast_unsigned())
}

/// Writes `value` as 8 bytes, two's complement in big-endian byte order, at the start of `buf` and
/// leaves the rest unchanged. Returns `BufferTooSmall`, and leaves all of `buf` unchanged, if it
/// has fewer than 8 bytes.
pub fn emit_i64_be(buf: &mut [u8], value: i64) -> Result<(), DecodeError>
    ensures writes { Writes (bytes_be (unsigned 8 value) 8) 8 buf.old buf.new result }
{
    emit_u64_be(buf, value.cast_unsigned())
}

/// Writes `value` as 8 bytes, two's complement in little-endian byte order, at the start of `buf`
/// and leaves the rest unchanged. Returns `BufferTooSmall`, and leaves all of `buf` unchanged, if
/// it has fewer than 8 bytes.
pub fn emit_i64_le(buf: &mut [u8], value: i64) -> Result<(), DecodeError>
    ensures writes { Writes (bytes_le (unsigned 8 value) 8) 8 buf.old buf.new result }
{
    emit_u64_le(buf, value.cast_unsigned())
}

/// Reads an `i128`, two's complement in native byte order. Returns `InvalidNumber` unless `payload`
/// has exactly 16 bytes.
pub fn parse_i128(payload: &[u8]) -> Result<i128, DecodeError>
    ensures reads { Reads (λ bytes. signed 16 (number_le bytes)) 16 payload.now result }
{
    Ok(parse_u128(payload)?.cast_signed())
}

/// Reads an `i128`, two's complement in big-endian byte order. Returns `InvalidNumber` unless
/// `payload` has exactly 16 bytes.
pub fn parse_i128_be(payload: &[u8]) -> Result<i128, DecodeError>
    ensures reads { Reads (λ bytes. signed 16 (number_be bytes)) 16 payload.now result }
{
    Ok(parse_u128_be(payload)?.cast_signed())
}

/// Reads an `i128`, two's complement in little-endian byte order. Returns `InvalidNumber` unless
/// `payload` has exactly 16 bytes.
pub fn parse_i128_le(payload: &[u8]) -> Result<i128, DecodeError>
    ensures reads { Reads (λ bytes. signed 16 (number_le bytes)) 16 payload.now result }
{
    Ok(parse_u128_le(payload)?.cast_signed())
}

/// Writes `value` as 16 bytes, two's complement in native byte order, at the start of `buf` and
/// leaves the rest unchanged. Returns `BufferTooSmall`, and leaves all of `buf` unchanged, if it
/// has fewer than 16 bytes.
pub fn emit_i128(buf: &mut [u8], value: i128) -> Result<(), DecodeError>
    ensures writes { Writes (bytes_le (unsigned 16 value) 16) 16 buf.old buf.new result }
{
    emit_u128(buf, value.cast_unsigned())
}

/// Writes `value` as 16 bytes, two's complement in big-endian byte order, at the start of `buf` and
/// leaves the rest unchanged. Returns `BufferTooSmall`, and leaves all of `buf` unchanged, if it
/// has fewer than 16 bytes.
pub fn emit_i128_be(buf: &mut [u8], value: i128) -> Result<(), DecodeError>
    ensures writes { Writes (bytes_be (unsigned 16 value) 16) 16 buf.old buf.new result }
{
    emit_u128_be(buf, value.cast_unsigned())
}

/// Writes `value` as 16 bytes, two's complement in little-endian byte order, at the start of `buf`
/// and leaves the rest unchanged. Returns `BufferTooSmall`, and leaves all of `buf` unchanged, if
/// it has fewer than 16 bytes.
pub fn emit_i128_le(buf: &mut [u8], value: i128) -> Result<(), DecodeError>
    ensures writes { Writes (bytes_le (unsigned 16 value) 16) 16 buf.old buf.new result }
{
    emit_u128_le(buf, value.cast_unsigned())
}
