//! The error that ends the walk of a block.

ghost use Rattle.std.specs.Prelude.{◌≡◌, List, Option};
ghost use Rattle.netlink_bytes.specs.declared.error.DecodeError.{DecodeError};
ghost use Rattle.netlink_attributes.specs.Attribute.{Attribute};
ghost use Rattle.netlink_attributes.specs.Walk.{Walk};

use crate::iterator::NlasIterator;
use netlink_bytes::DecodeError;

/// Returns the error that ends the walk of a block (`NlaBufferTooSmall`, `NlaLengthMismatch` or
/// `NlaInvalidLength`), or `None` if the walk ends without one.
///
/// So `None` means that the bytes are attributes from the first byte to the last. Does not
/// allocate.
pub fn nlas_fault(block: &[u8]) -> Option<DecodeError>
    ensures fault { (all : List Attribute) × Walk block.now all result }
    ensures each { (all : List Attribute) (fault : Option DecodeError) → Walk block.now all fault
        → result ≡ fault }
{
    for item in NlasIterator::new(block) {
        match item {
            Ok(_) => {}
            Err(fault) => return Some(fault),
        }
    }
    None
}
