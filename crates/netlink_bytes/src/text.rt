//! Strings as bytes.

ghost use Rattle.std.specs.Prelude.{◌≡◌, [], codes, string_bytes, IsOk, IsErr, IfOk, IfErr, IsOkUnless};
ghost use Rattle.std.specs.Str.{IsUtf8};
ghost use Rattle.netlink_bytes.specs.Causes.{TextBegins};
ghost use Rattle.netlink_bytes.specs.Text.{without_last_zero};
ghost use Rattle.netlink_bytes.specs.declared.error.DecodeError.TheVariants.{OutOfMemory};

use crate::copies::text_copy_of;
use crate::error::{DecodeError, utf8_text};
use std::alloc::Global;

/// Returns the bytes, without one zero byte at the end if there is one, as a string.
///
/// Returns `Message`, with a text that begins with `Invalid UTF-8 sequence: `, if these bytes are
/// not UTF-8. Returns `OutOfMemory` if an allocation for the string or the error text fails. If
/// `payload` is empty or a single zero byte, returns the empty string and does not allocate.
pub fn parse_string(alloc: Global, payload: &[u8]) -> Result<String, DecodeError>
    ensures text { IfOk result (λ text. string_bytes text ≡ without_last_zero payload.now) }
    ensures utf8 { IsUtf8 (without_last_zero payload.now) → IsOkUnless result OutOfMemory }
    ensures not_utf8 { (IsUtf8 (without_last_zero payload.now) → ⊥) → IsErr result }
    ensures refused { IfErr result (TextBegins (codes "Invalid UTF-8 sequence: ")) }
    ensures empty { without_last_zero payload.now ≡ [] → IsOk result }
{
    match std::str::from_utf8(cut_last_zero(payload)) {
        Ok(text) => Ok(text_copy_of(alloc, text)?),
        Err(error) => Err(DecodeError::Message(utf8_text(alloc, error)?)),
    }
}

/// Returns the bytes without the last one if it is zero, and all bytes otherwise.
fn cut_last_zero(bytes: &[u8]) -> &[u8]
    ensures { result.now ≡ without_last_zero bytes.now }
{
    match bytes {
        [front @ .., 0] => front,
        whole => whole,
    }
}
