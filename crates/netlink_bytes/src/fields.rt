//! Integers at byte offsets, in native byte order (little-endian), such as the fields of a fixed
//! header. No function here allocates.
#![tactic(auto, using(crate::specs::NumberBytes::numbers_as_bytes))]

ghost use Rattle.std.specs.Prelude.{◌≡◌, ◌≤◌, ◌+◌, length, slice_range};
ghost use Rattle.netlink_bytes.specs.Fields.{number_at};
ghost use Rattle.netlink_bytes.specs.Numbers.{signed, bytes_le, unsigned};
ghost use Rattle.netlink_bytes.specs.Storage.{put_at};

/// Reads a `u16` at offset `at`, in native byte order. Requires `at + 2 <= bytes.len()`.
#[inline]
pub fn u16_at(bytes: &[u8], at: usize) -> u16
    requires inside { at + 2 ≤ length bytes.now }
    ensures number { result ≡ number_at at 2 bytes.now }
{
    u16::from_ne_bytes(part(bytes, at))
}

/// Reads a `u32` at offset `at`, in native byte order. Requires `at + 4 <= bytes.len()`.
#[inline]
pub fn u32_at(bytes: &[u8], at: usize) -> u32
    requires inside { at + 4 ≤ length bytes.now }
    ensures number { result ≡ number_at at 4 bytes.now }
{
    u32::from_ne_bytes(part(bytes, at))
}

/// Reads an `i32` in two's complement at offset `at`, in native byte order. Requires
/// `at + 4 <= bytes.len()`.
#[inline]
pub fn i32_at(bytes: &[u8], at: usize) -> i32
    requires inside { at + 4 ≤ length bytes.now }
    ensures number { result ≡ signed 4 (number_at at 4 bytes.now) }
{
    u32_at(bytes, at).cast_signed()
}

/// Writes `value` over the 2 bytes at offset `at`, in native byte order, and leaves all other bytes
/// unchanged. Requires `at + 2 <= bytes.len()`.
#[inline]
pub fn put_u16(bytes: &mut [u8], at: usize, value: u16)
    requires inside { at + 2 ≤ length bytes.old }
    ensures written { bytes.new ≡ put_at bytes.old at (bytes_le value 2) }
{
    put::<2>(bytes, at, value.to_ne_bytes());
}

/// Writes `value` over the 4 bytes at offset `at`, in native byte order, and leaves all other bytes
/// unchanged. Requires `at + 4 <= bytes.len()`.
#[inline]
pub fn put_u32(bytes: &mut [u8], at: usize, value: u32)
    requires inside { at + 4 ≤ length bytes.old }
    ensures written { bytes.new ≡ put_at bytes.old at (bytes_le value 4) }
{
    put::<4>(bytes, at, value.to_ne_bytes());
}

/// Writes `value` in two's complement over the 4 bytes at offset `at`, in native byte order, and
/// leaves all other bytes unchanged. Requires `at + 4 <= bytes.len()`.
#[inline]
pub fn put_i32(bytes: &mut [u8], at: usize, value: i32)
    requires inside { at + 4 ≤ length bytes.old }
    ensures written { bytes.new ≡ put_at bytes.old at (bytes_le (unsigned 4 value) 4) }
{
    put_u32(bytes, at, value.cast_unsigned());
}

/// Returns the `N` bytes at offset `at`. Requires `at + N <= bytes.len()`.
#[inline]
fn part<const N: usize>(bytes: &[u8], at: usize) -> [u8; N]
    requires { at + N ≤ length bytes.now }
    ensures { result ≡ slice_range bytes.now at (at + N) }
{
    *bytes[at..at + N].first_chunk().unwrap()
}

/// Writes `text` over the `N` bytes at offset `at` and leaves all other bytes unchanged. Requires
/// `at + N <= bytes.len()`.
#[inline]
fn put<const N: usize>(bytes: &mut [u8], at: usize, text: [u8; N])
    requires { at + N ≤ length bytes.old }
    ensures { bytes.new ≡ put_at bytes.old at text.entry }
{
    bytes[at..at + N].copy_from_slice(&text);
}
