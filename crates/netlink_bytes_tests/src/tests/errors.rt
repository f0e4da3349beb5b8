//! The number and the text of an error, compared by functions that are proved once.

use netlink_bytes::DecodeError;
use std::alloc::Global;
use std::process::Abort;

/// Returns whether an error prints as the text.
fn prints_as(alloc: Global, error: &DecodeError, text: &str) -> bool {
    match error.to_string(alloc) {
        Ok(printed) => printed.as_str() == text,
        Err(_) => false,
    }
}

/// Asserts the number and the text of an error. Number 16 is `OutOfMemory`.
pub(super) fn assert_error(
    rt: &impl Abort,
    alloc: Global,
    error: &DecodeError,
    number: u8,
    text: &str,
) {
    assert_eq!(rt; error.number(), number, "{text}");
    assert_eq!(rt; error.is_out_of_memory(), number == 16, "{text}");
    assert!(rt; prints_as(alloc, error, text), "{text}");
}

/// Asserts that a result is an error with this number and text.
pub(super) fn assert_refused<T: Drop>(
    rt: &impl Abort,
    alloc: Global,
    answer: Result<T, DecodeError>,
    number: u8,
    text: &str,
) {
    match answer {
        Ok(_) => assert!(rt; false, "{text}"),
        Err(error) => assert_error(rt, alloc, &error, number, text),
    }
}
