//! Unsigned integers.

ghost use Rattle.netlink_bytes.specs.Numbers.{Reads, Writes, number_be, number_le, bytes_be, bytes_le};

use crate::error::DecodeError;
use crate::numbers::{array_of, write_front};

/// Reads a `u16` in native byte order. Returns `InvalidNumber` unless `payload` has exactly 2
/// bytes.
pub fn parse_u16(payload: &[u8]) -> Result<u16, DecodeError>
    ensures reads { Reads number_le 2 payload.now result }
{
    Ok(u16::from_ne_bytes(array_of(payload)?))
}

/// Reads a `u16` in big-endian byte order. Returns `InvalidNumber` unless `payload` has exactly 2
/// bytes.
pub fn parse_u16_be(payload: &[u8]) -> Result<u16, DecodeError>
    ensures reads { Reads number_be 2 payload.now result }
{
    Ok(u16::from_be_bytes(array_of(payload)?))
}

/// Reads a `u16` in little-endian byte order. Returns `InvalidNumber` unless `payload` has exactly
/// 2 bytes.
pub fn parse_u16_le(payload: &[u8]) -> Result<u16, DecodeError>
    ensures reads { Reads number_le 2 payload.now result }
{
    Ok(u16::from_le_bytes(array_of(payload)?))
}

/// Writes `value` as 2 bytes in native byte order at the start of `buf` and leaves the rest
/// unchanged. Returns `BufferTooSmall`, and leaves all of `buf` unchanged, if it has fewer than 2
/// bytes.
pub fn emit_u16(buf: &mut [u8], value: u16) -> Result<(), DecodeError>
    ensures writes { Writes (bytes_le value 2) 2 buf.old buf.new result }
{
    write_front::<2>(buf, value.to_ne_bytes())
}

/// Writes `value` as 2 bytes in big-endian byte order at the start of `buf` and leaves the rest
/// unchanged. Returns `BufferTooSmall`, and leaves all of `buf` unchanged, if it has fewer than 2
/// bytes.
pub fn emit_u16_be(buf: &mut [u8], value: u16) -> Result<(), DecodeError>
    ensures writes { Writes (bytes_be value 2) 2 buf.old buf.new result }
{
    write_front::<2>(buf, value.to_be_bytes())
}

/// Writes `value` as 2 bytes in little-endian byte order at the start of `buf` and leaves the rest
/// unchanged. Returns `BufferTooSmall`, and leaves all of `buf` unchanged, if it has fewer than 2
/// bytes.
pub fn emit_u16_le(buf: &mut [u8], value: u16) -> Result<(), DecodeError>
    ensures writes { Writes (bytes_le value 2) 2 buf.old buf.new result }
{
    write_front::<2>(buf, value.to_le_bytes())
}

/// Reads a `u32` in native byte order. Returns `InvalidNumber` unless `payload` has exactly 4
/// bytes.
pub fn parse_u32(payload: &[u8]) -> Result<u32, DecodeError>
    ensures reads { Reads number_le 4 payload.now result }
{
    Ok(u32::from_ne_bytes(array_of(payload)?))
}

/// Reads a `u32` in big-endian byte order. Returns `InvalidNumber` unless `payload` has exactly 4
/// bytes.
pub fn parse_u32_be(payload: &[u8]) -> Result<u32, DecodeError>
    ensures reads { Reads number_be 4 payload.now result }
{
    Ok(u32::from_be_bytes(array_of(payload)?))
}

/// Reads a `u32` in little-endian byte order. Returns `InvalidNumber` unless `payload` has exactly
/// 4 bytes.
pub fn parse_u32_le(payload: &[u8]) -> Result<u32, DecodeError>
    ensures reads { Reads number_le 4 payload.now result }
{
    Ok(u32::from_le_bytes(array_of(payload)?))
}

/// Writes `value` as 4 bytes in native byte order at the start of `buf` and leaves the rest
/// unchanged. Returns `BufferTooSmall`, and leaves all of `buf` unchanged, if it has fewer than 4
/// bytes.
pub fn emit_u32(buf: &mut [u8], value: u32) -> Result<(), DecodeError>
    ensures writes { Writes (bytes_le value 4) 4 buf.old buf.new result }
{
    write_front::<4>(buf, value.to_ne_bytes())
}

/// Writes `value` as 4 bytes in big-endian byte order at the start of `buf` and leaves the rest
/// unchanged. Returns `BufferTooSmall`, and leaves all of `buf` unchanged, if it has fewer than 4
/// bytes.
pub fn emit_u32_be(buf: &mut [u8], value: u32) -> Result<(), DecodeError>
    ensures writes { Writes (bytes_be value 4) 4 buf.old buf.new result }
{
    write_front::<4>(buf, value.to_be_bytes())
}

/// Writes `value` as 4 bytes in little-endian byte order at the start of `buf` and leaves the rest
/// unchanged. Returns `BufferTooSmall`, and leaves all of `buf` unchanged, if it has fewer than 4
/// bytes.
pub fn emit_u32_le(buf: &mut [u8], value: u32) -> Result<(), DecodeError>
    ensures writes { Writes (bytes_le value 4) 4 buf.old buf.new result }
{
    write_front::<4>(buf, value.to_le_bytes())
}

/// Reads a `u64` in native byte order. Returns `InvalidNumber` unless `payload` has exactly 8
/// bytes.
pub fn parse_u64(payload: &[u8]) -> Result<u64, DecodeError>
    ensures reads { Reads number_le 8 payload.now result }
{
    Ok(u64::from_ne_bytes(array_of(payload)?))
}

/// Reads a `u64` in big-endian byte order. Returns `InvalidNumber` unless `payload` has exactly 8
/// bytes.
pub fn parse_u64_be(payload: &[u8]) -> Result<u64, DecodeError>
    ensures reads { Reads number_be 8 payload.now result }
{
    Ok(u64::from_be_bytes(array_of(payload)?))
}

/// Reads a `u64` in little-endian byte order. Returns `InvalidNumber` unless `payload` has exactly
/// 8 bytes.
pub fn parse_u64_le(payload: &[u8]) -> Result<u64, DecodeError>
    ensures reads { Reads number_le 8 payload.now result }
{
    Ok(u64::from_le_bytes(array_of(payload)?))
}

/// Writes `value` as 8 bytes in native byte order at the start of `buf` and leaves the rest
/// unchanged. Returns `BufferTooSmall`, and leaves all of `buf` unchanged, if it has fewer than 8
/// bytes.
pub fn emit_u64(buf: &mut [u8], value: u64) -> Result<(), DecodeError>
    ensures writes { Writes (bytes_le value 8) 8 buf.old buf.new result }
{
    write_front::<8>(buf, value.to_ne_bytes())
}

/// Writes `value` as 8 bytes in big-endian byte order at the start of `buf` and leaves the rest
/// unchanged. Returns `BufferTooSmall`, and leaves all of `buf` unchanged, if it has fewer than 8
/// bytes.
pub fn emit_u64_be(buf: &mut [u8], value: u64) -> Result<(), DecodeError>
    ensures writes { Writes (bytes_be value 8) 8 buf.old buf.new result }
{
    write_front::<8>(buf, value.to_be_bytes())
}

/// Writes `value` as 8 bytes in little-endian byte order at the start of `buf` and leaves the rest
/// unchanged. Returns `BufferTooSmall`, and leaves all of `buf` unchanged, if it has fewer than 8
/// bytes.
pub fn emit_u64_le(buf: &mut [u8], value: u64) -> Result<(), DecodeError>
    ensures writes { Writes (bytes_le value 8) 8 buf.old buf.new result }
{
    write_front::<8>(buf, value.to_le_bytes())
}

/// Reads a `u128` in native byte order. Returns `InvalidNumber` unless `payload` has exactly 16
/// bytes.
pub fn parse_u128(payload: &[u8]) -> Result<u128, DecodeError>
    ensures reads { Reads number_le 16 payload.now result }
{
    Ok(u128::from_ne_bytes(array_of(payload)?))
}

/// Reads a `u128` in big-endian byte order. Returns `InvalidNumber` unless `payload` has exactly 16
/// bytes.
pub fn parse_u128_be(payload: &[u8]) -> Result<u128, DecodeError>
    ensures reads { Reads number_be 16 payload.now result }
{
    Ok(u128::from_be_bytes(array_of(payload)?))
}

/// Reads a `u128` in little-endian byte order. Returns `InvalidNumber` unless `payload` has exactly
/// 16 bytes.
pub fn parse_u128_le(payload: &[u8]) -> Result<u128, DecodeError>
    ensures reads { Reads number_le 16 payload.now result }
{
    Ok(u128::from_le_bytes(array_of(payload)?))
}

/// Writes `value` as 16 bytes in native byte order at the start of `buf` and leaves the rest
/// unchanged. Returns `BufferTooSmall`, and leaves all of `buf` unchanged, if it has fewer than 16
/// bytes.
pub fn emit_u128(buf: &mut [u8], value: u128) -> Result<(), DecodeError>
    ensures writes { Writes (bytes_le value 16) 16 buf.old buf.new result }
{
    write_front::<16>(buf, value.to_ne_bytes())
}

/// Writes `value` as 16 bytes in big-endian byte order at the start of `buf` and leaves the rest
/// unchanged. Returns `BufferTooSmall`, and leaves all of `buf` unchanged, if it has fewer than 16
/// bytes.
pub fn emit_u128_be(buf: &mut [u8], value: u128) -> Result<(), DecodeError>
    ensures writes { Writes (bytes_be value 16) 16 buf.old buf.new result }
{
    write_front::<16>(buf, value.to_be_bytes())
}

/// Writes `value` as 16 bytes in little-endian byte order at the start of `buf` and leaves the rest
/// unchanged. Returns `BufferTooSmall`, and leaves all of `buf` unchanged, if it has fewer than 16
/// bytes.
pub fn emit_u128_le(buf: &mut [u8], value: u128) -> Result<(), DecodeError>
    ensures writes { Writes (bytes_le value 16) 16 buf.old buf.new result }
{
    write_front::<16>(buf, value.to_le_bytes())
}
