//! Copies of bytes and strings. They do not allocate if there is nothing to copy.

ghost use Rattle.std.specs.Prelude.{◌≡◌, [], string_bytes, IfOk, IsOk};

use std::alloc::{AllocError, Global};

/// Returns a copy of the bytes, or `AllocError` if the allocation fails. Does not allocate if
/// `bytes` is empty.
pub fn copy_of(alloc: Global, bytes: &[u8]) -> Result<Vec<u8>, AllocError>
    ensures same { IfOk result (λ copy. copy.items ≡ bytes.now) }
    ensures empty { bytes.now ≡ [] → IsOk result }
{
    if bytes.is_empty() {
        return Ok(Vec::new(alloc));
    }
    Vec::from_slice(alloc, bytes)
}

/// Returns a copy of the string, or `AllocError` if the allocation fails. Does not allocate if
/// `text` is empty.
pub(crate) fn text_copy_of(alloc: Global, text: &str) -> Result<String, AllocError>
    ensures same { IfOk result (λ copy. string_bytes copy ≡ text.now) }
    ensures empty { text.now ≡ [] → IsOk result }
{
    if text.is_empty() {
        return Ok(String::new(alloc));
    }
    String::from_str(alloc, text)
}
