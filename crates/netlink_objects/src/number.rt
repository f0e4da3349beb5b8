//! Numbers of a size.

ghost use Rattle.std.specs.Prelude.{◌≡◌};
ghost use Rattle.netlink_objects.specs.Forms.{byte_of, long_of, number_of, sized};

use netlink_shapes::decoders::{u16_in, u32_in, u64_in};

/// Returns a number of one byte.
pub(crate) fn byte_of(value: &[u8]) -> Option<u8>
    ensures { result ≡ byte_of value.now }
{
    if value.len() == 1 {
        return Some(value[0]);
    }
    None
}

/// Returns a number of two bytes.
pub(crate) fn short_of(value: &[u8]) -> Option<u16>
    ensures { result ≡ sized 2 value.now }
{
    if value.len() == 2 {
        return Some(u16_in(value));
    }
    None
}

/// Returns a number of four bytes.
pub(crate) fn four_of(value: &[u8]) -> Option<u32>
    ensures { result ≡ sized 4 value.now }
{
    if value.len() == 4 {
        return Some(u32_in(value));
    }
    None
}

/// Returns a number of four bytes, or of one.
pub(crate) fn long_of(value: &[u8]) -> Option<u32>
    ensures { result ≡ long_of value.now }
{
    if value.len() == 1 {
        return Some(value[0] as u32);
    }
    four_of(value)
}

/// Returns a number of 1, 2, 4 or 8 bytes.
pub(crate) fn number_of(value: &[u8]) -> Option<u64>
    ensures { result ≡ number_of value.now }
{
    match value.len() {
        1 => Some(value[0] as u64),
        2 => Some(u16_in(value) as u64),
        4 => Some(u32_in(value) as u64),
        8 => Some(u64_in(value)),
        _ => None,
    }
}
