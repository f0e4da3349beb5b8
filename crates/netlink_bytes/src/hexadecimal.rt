//! Bytes as hexadecimal text, in lower case.

ghost use Rattle.std.specs.Prelude.{◌≡◌, ◌≤◌, ◌<◌, ◌+◌, ◌*◌, ◌++◌, Ok, if◌then◌else◌, is_ok, length, map, string_bytes, string_capacity, string_len, take};
ghost use Rattle.std.specs.Simd.Lanes.{Each1, put_chunk};
ghost use Rattle.netlink_bytes.specs.Text.{hex_digit, hex_digits, hex_pair, hex_text};

use std::alloc::AllocError;
use std::simd::prelude::*;

/// From this number of bytes on, `push_many` takes less time than `push_pairs`, because it makes the
/// digits of 16 bytes at once.
const MANY: usize = LANES;

/// The number of bytes whose digits are appended at a time.
const STEP: usize = 64;

/// The number of bytes whose digits are made at a time.
const LANES: usize = 16;

/// Appends the bytes as text: two hexadecimal digits each, or `-` if there are none. Returns
/// `AllocError`, and leaves the text unchanged, if an allocation fails.
pub fn push_hex(text: &mut String, bytes: &[u8]) -> Result<(), AllocError>
    ensures appends { string_bytes text.new
        ≡ (if is_ok result then string_bytes text.old ++ hex_text bytes.now
        else string_bytes text.old) }
{
    if bytes.is_empty() {
        return text.push_str("-");
    }
    if bytes.len() < MANY {
        return push_pairs(text, bytes);
    }
    push_many(text, bytes)
}

/// Appends two digits per byte, one byte at a time, after reserving room for all of them. Returns
/// `AllocError`, and leaves the text unchanged, if that fails.
fn push_pairs(text: &mut String, bytes: &[u8]) -> Result<(), AllocError>
    ensures appends { string_bytes text.new
        ≡ (if is_ok result then string_bytes text.old ++ hex_digits bytes.now
        else string_bytes text.old) }
{
    text.reserve(bytes.len() * 2)?;
    for byte in bytes {
        text.push_str(hex_pair(*byte))?;
    }
    Ok(())
}

/// Appends two digits per byte, 64 bytes at a time, after reserving room for all of them. Returns
/// `AllocError`, and leaves the text unchanged, if that fails. It is a separate function so that
/// `push_hex` saves no registers for it.
#[inline(never)]
fn push_many(text: &mut String, bytes: &[u8]) -> Result<(), AllocError>
    ensures appends { string_bytes text.new
        ≡ (if is_ok result then string_bytes text.old ++ hex_digits bytes.now
        else string_bytes text.old) }
{
    text.reserve(bytes.len() * 2)?;
    let mut at = 0;
    while at < bytes.len() {
        let end = bytes.len().min(at + STEP);
        push_step(text, &bytes[at..end])?;
        at = end;
    }
    Ok(())
}

/// Appends the digits of at most `STEP` bytes. Requires room for them.
fn push_step(text: &mut String, bytes: &[u8]) -> Result<(), AllocError>
    requires few { length bytes.now ≤ 64 }
    requires room { string_len text.old + length bytes.now * 2 ≤ string_capacity text.old }
    ensures ok { result ≡ Ok tt }
    ensures appends { string_bytes text.new ≡ string_bytes text.old ++ hex_digits bytes.now }
    ensures len { string_len text.new ≡ string_len text.old + length bytes.now * 2 }
    ensures capacity { string_capacity text.old ≤ string_capacity text.new }
{
    let mut digits = [0u8; 2 * STEP];
    write_pairs(&mut digits, bytes);
    match std::str::from_utf8(&digits[..bytes.len() * 2]) {
        Ok(digits) => text.push_str(digits),
        // Digits are ASCII.
        Err(_) => Ok(()),
    }
}

/// Writes the two digits of each byte.
#[inline(always)]
fn write_pairs(digits: &mut [u8; 128], bytes: &[u8])
    requires few { length bytes.now ≤ 64 }
    ensures digits { take (length bytes.now * 2) digits.new ≡ hex_digits bytes.now }
{
    let mut at = 0;
    while at + LANES <= bytes.len() {
        let (first, second) = pairs_of(u8x16::from_slice(&bytes[at..]));
        store(digits, at * 2, first);
        store(digits, at * 2 + LANES, second);
        at += LANES;
    }
    for index in at..bytes.len() {
        write_pair(digits, bytes, index);
    }
}

/// Writes the two digits of the byte at an index, after those of the bytes before it.
#[inline(always)]
fn write_pair(digits: &mut [u8; 128], bytes: &[u8], index: usize)
    requires few { length bytes.now ≤ 64 }
    requires inside { index < length bytes.now }
    ensures { take (index * 2) digits.old ≡ hex_digits (take index bytes.now)
        → take ((index + 1) * 2) digits.new ≡ hex_digits (take (index + 1) bytes.now) }
{
    let pair = hex_pair(bytes[index]).as_bytes();
    let high = pair[0];
    let low = pair[1];
    digits[index * 2] = high;
    digits[index * 2 + 1] = low;
}

/// Writes 16 bytes at an offset.
#[inline(always)]
fn store(digits: &mut [u8; 128], at: usize, lanes: u8x16)
    requires size { length lanes ≡ 16 }
    requires room { at + 16 ≤ 128 }
    ensures { digits.new ≡ put_chunk at digits.old lanes }
{
    lanes.copy_to_slice(&mut digits[at..]);
}

/// Returns the digits of the first eight and of the last eight of 16 bytes.
#[inline(always)]
fn pairs_of(bytes: u8x16) -> (u8x16, u8x16)
    requires size { length bytes ≡ 16 }
    requires fit { Each1 (λ b. b < 256) bytes }
    ensures size { (length result.0 ≡ 16) × (length result.1 ≡ 16) }
    ensures digits { result.0 ++ result.1 ≡ hex_digits bytes }
{
    let high = digits_of(bytes >> 4);
    let low = digits_of(bytes & u8x16::splat(15));
    (
        high.shuffle(
            low,
            [0, 16, 1, 17, 2, 18, 3, 19, 4, 20, 5, 21, 6, 22, 7, 23],
        ),
        high.shuffle(
            low,
            [8, 24, 9, 25, 10, 26, 11, 27, 12, 28, 13, 29, 14, 30, 15, 31],
        ),
    )
}

/// Returns the digit of each number.
#[inline(always)]
fn digits_of(numbers: u8x16) -> u8x16
    requires size { length numbers ≡ 16 }
    requires digits { Each1 (λ n. n < 16) numbers }
    ensures { result ≡ map hex_digit numbers }
{
    u8x16::from_array(*b"0123456789abcdef").swizzle_dyn(numbers)
}

/// Returns the two hexadecimal digits of a byte. Does not allocate.
#[inline]
pub fn hex_pair(byte: u8) -> &'static str
    ensures digits { result.now ≡ hex_pair byte }
{
    let start = usize::from(byte) * 2;
    &PAIRS[start..start + 2]
}

/// The two hexadecimal digits of each byte value, in order.
const PAIRS: &str = "\
000102030405060708090a0b0c0d0e0f101112131415161718191a1b1c1d1e1f\
202122232425262728292a2b2c2d2e2f303132333435363738393a3b3c3d3e3f\
404142434445464748494a4b4c4d4e4f505152535455565758595a5b5c5d5e5f\
606162636465666768696a6b6c6d6e6f707172737475767778797a7b7c7d7e7f\
808182838485868788898a8b8c8d8e8f909192939495969798999a9b9c9d9e9f\
a0a1a2a3a4a5a6a7a8a9aaabacadaeafb0b1b2b3b4b5b6b7b8b9babbbcbdbebf\
c0c1c2c3c4c5c6c7c8c9cacbcccdcecfd0d1d2d3d4d5d6d7d8d9dadbdcdddedf\
e0e1e2e3e4e5e6e7e8e9eaebecedeeeff0f1f2f3f4f5f6f7f8f9fafbfcfdfeff";
