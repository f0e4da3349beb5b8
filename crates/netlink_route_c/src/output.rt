//! Texts, written into the caller's buffer.

ghost use Rattle.std.specs.Prelude.{◌≡◌, ◌⊎◌};
ghost use Rattle.netlink_route_c.specs.Output.{CopiesOut};

use crate::results::{NO_ROOM, OK};

/// Sets `size` to the number of bytes, and writes them at the start of `buffer`, leaving the rest
/// unchanged. Returns 0 on success. Returns `NO_ROOM`, and leaves `buffer` unchanged, if they do
/// not fit.
pub(crate) fn copy_out(bytes: &[u8], buffer: &mut [u8], size: &mut usize) -> u32
    ensures copies { CopiesOut bytes.now buffer.old buffer.new size.new result }
    ensures outcome { (result ≡ 0) ⊎ (result ≡ 8) }
{
    *size = bytes.len();
    if bytes.len() > buffer.len() {
        return NO_ROOM;
    }
    buffer[..bytes.len()].copy_from_slice(bytes);
    OK
}
