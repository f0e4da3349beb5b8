//! Calls of the library, and comparisons, in functions that are proved once. They have no
//! contracts, and most return whether the result is as expected: the proof of a test that asserts
//! that is short.

use netlink_attributes::{NlasIterator, append_nla, nlas_value_mut};
use netlink_bytes::DecodeError;
use std::alloc::Global;

/// Appends an attribute. Returns whether it fits and was appended.
pub(super) fn is_appended(alloc: Global, block: &mut Vec<u8>, kind: u16, value: &[u8]) -> bool {
    value.len() <= 65531 && append_nla(alloc, block, kind, value).is_ok()
}

/// Returns whether the value at the index is this.
pub(super) fn is_held(block: &mut [u8], index: usize, value: &[u8]) -> bool {
    match nlas_value_mut(block, index) {
        Some(held) => *held == *value,
        None => false,
    }
}

/// Overwrites the value at the index, in place. Returns whether there is one of this size.
pub(super) fn is_replaced(block: &mut [u8], index: usize, value: &[u8]) -> bool {
    match nlas_value_mut(block, index) {
        Some(held) => {
            let is_same_size = held.len() == value.len();
            if is_same_size {
                held.copy_from_slice(value);
            }
            is_same_size
        }
        None => false,
    }
}

/// Returns whether `==` and `!=` say that two values are the same.
pub(super) fn are_same<T: PartialEq>(one: &T, other: &T) -> bool {
    *one == *other && !(*one != *other)
}

/// Returns whether an error prints as the text.
pub(super) fn prints_as(alloc: Global, error: &DecodeError, text: &str) -> bool {
    match error.to_string(alloc) {
        Ok(printed) => printed.as_str() == text,
        Err(_) => false,
    }
}

/// Returns whether walking the block yields these kinds and values, and then the end or
/// `NlaInvalidLength` with 4 and this length.
pub(super) fn walks_as(block: &[u8], attributes: &[(u16, &[u8])], damaged: Option<usize>) -> bool {
    let mut expected = attributes.iter();
    for item in NlasIterator::new(block) {
        match item {
            Ok(nla) => match expected.next() {
                Some((kind, value)) => {
                    if nla.raw_kind() != *kind || nla.value() != *value {
                        return false;
                    }
                }
                None => return false,
            },
            Err(
                DecodeError::NlaInvalidLength {
                    buffer_len,
                    nla_len,
                },
            ) => {
                return expected.next().is_none() && buffer_len == 4 && damaged == Some(nla_len);
            }
            Err(_) => return false,
        }
    }
    expected.next().is_none() && damaged.is_none()
}
