//! The numbers of an error, and its text.

ghost use Rattle.std.specs.Prelude.{◌≡◌, ◌≢◌, ◌<◌, None, Some};
ghost use Rattle.netlink_family.specs.ErrorTexts.{error_text};
ghost use Rattle.netlink_family.specs.declared.error.FamilyError.{FamilyError};
ghost use Rattle.netlink_route_c.specs.Errors.{attribute_numbers, error_from, numbers_of, reason_from, reason_numbers, with};
ghost use Rattle.netlink_route_c.specs.Output.{IsTextOut};
ghost use Rattle.netlink_route_c.specs.declared.results.TheConstants.{NO_MEMORY, NO_PLACE};

use crate::output::copy_out;
use crate::results::{
    ADDRESS_SIZE, ATTR_CUT, ATTR_LENGTH, ATTR_SHORT, HEADER_SHORT, INTERIOR_NUL, LATE_CHOICE,
    NO_MEMORY, NO_MULTIPLE, NO_PLACE, NOT_TERMINATED, TOO_DEEP, TOO_LONG, UNKNOWN_TYPE,
    VALUE_SHORT, VALUE_SIZE,
};
use netlink_family::{AttributeError, FamilyError, Reason};
use std::alloc::Global;

/// The numbers of an error (`struct nlp_route_error`). A number that the error does not have is 0.
#[derive(Clone, Copy, Debug, PartialEq, Eq)]
#[repr(C)]
pub struct ErrorNumbers {
    /// The reason, which is also what the function returns.
    pub reason: u32,
    /// The kind of the attribute, or the message type of `UNKNOWN_TYPE`.
    pub kind: u16,
    /// The policy that the attribute belongs to: 0, or that of the innermost nest.
    pub policy: u16,
    /// The offset of the attribute in bytes from the start of the payload, also inside nests.
    pub offset: usize,
    /// The required size, the length field of `ATTR_CUT`, or the size of the header.
    pub expected: usize,
    /// The actual size, or the length field of `ATTR_LENGTH`.
    pub received: usize,
}

/// Writes the text of the error that these numbers identify, in UTF-8, without a zero at its end.
///
/// Returns 0 on success; the text is then the first `size` bytes of `buffer`. Returns `NO_PLACE` if
/// the reason is none of an error. Returns `NO_ROOM`, and sets `size` to the size that is needed, if
/// the text does not fit in `buffer`. Returns `NO_MEMORY` if an allocation fails. Changes `buffer`
/// only if it returns 0. Wraps the `Display` of `FamilyError`, and allocates for the text.
#[unsafe(no_mangle)]
pub extern "C" fn nlp_route_error_text(
    alloc: Global,
    error: &ErrorNumbers,
    buffer: &mut [u8],
    size: &mut usize,
) -> u32
    ensures text { (e : FamilyError) → error_from error.now ≡ Some e
        → IsTextOut (error_text e) buffer.old buffer.new size.new result }
    ensures none { error_from error.now ≡ None → (result ≡ NO_PLACE) × (size.new ≡ size.old) }
    ensures unchanged { result ≢ 0 → buffer.new ≡ buffer.old }
    ensures memory { result ≡ NO_MEMORY → size.new ≡ size.old }
{
    let Some(error) = error_of(error) else {
        return NO_PLACE;
    };
    text_out(alloc, &error, buffer, size)
}

/// Writes the text of an error as `nlp_route_error_text` does. Returns 0, `NO_ROOM` or `NO_MEMORY`.
fn text_out(alloc: Global, error: &FamilyError, buffer: &mut [u8], size: &mut usize) -> u32
    ensures text { IsTextOut (error_text error.now) buffer.old buffer.new size.new result }
    ensures unchanged { result ≢ 0 → buffer.new ≡ buffer.old }
    ensures memory { result ≡ NO_MEMORY → size.new ≡ size.old }
{
    match error.to_string(alloc) {
        Ok(text) => copy_out(text.as_str().as_bytes(), buffer, size),
        Err(_) => NO_MEMORY,
    }
}

/// Writes the numbers of an error, and returns its reason.
pub(crate) fn refused(numbers: &mut ErrorNumbers, error: FamilyError) -> u32
    ensures numbers { numbers.new ≡ numbers_of error }
    ensures reason { result ≡ (numbers_of error).reason }
    ensures some { 0 < result }
{
    let found = numbers_of(error);
    *numbers = found;
    found.reason
}

/// Returns the numbers of an error.
pub(crate) fn numbers_of(error: FamilyError) -> ErrorNumbers
    ensures numbers { result ≡ numbers_of error }
    ensures some { 0 < result.reason }
{
    match error {
        FamilyError::UnknownType { message_type } => with(UNKNOWN_TYPE, message_type, 0, 0),
        FamilyError::HeaderShort { expected, received } => with(
            HEADER_SHORT,
            0,
            expected,
            received,
        ),
        FamilyError::InvalidAttribute(error) => attribute_numbers(error),
        FamilyError::TooLong => with(TOO_LONG, 0, 0, 0),
        FamilyError::OutOfMemory => with(NO_MEMORY, 0, 0, 0),
    }
}

/// Returns the numbers of an error of an attribute.
fn attribute_numbers(error: AttributeError) -> ErrorNumbers
    ensures numbers { result ≡ attribute_numbers error }
    ensures some { 0 < result.reason }
{
    let numbers = reason_numbers(error.reason);
    ErrorNumbers {
        reason: numbers.reason,
        kind: numbers.kind,
        policy: error.policy,
        offset: error.offset,
        expected: numbers.expected,
        received: numbers.received,
    }
}

/// Returns the numbers of what is wrong with an attribute; its policy and its offset are 0.
fn reason_numbers(reason: Reason) -> ErrorNumbers
    ensures numbers { result ≡ reason_numbers reason }
    ensures some { 0 < result.reason }
{
    match reason {
        Reason::Short { received } => with(ATTR_SHORT, 0, 0, received),
        Reason::Truncated { expected, received } => with(ATTR_CUT, 0, expected, received),
        Reason::InvalidLength { received } => with(ATTR_LENGTH, 0, 0, received),
        Reason::WrongSize {
            kind,
            expected,
            received,
        } => with(VALUE_SIZE, kind, expected, received),
        Reason::NotNulTerminated { kind } => with(NOT_TERMINATED, kind, 0, 0),
        Reason::InteriorNul { kind } => with(INTERIOR_NUL, kind, 0, 0),
        Reason::TooSmall {
            kind,
            expected,
            received,
        } => with(VALUE_SHORT, kind, expected, received),
        Reason::NoMultiple {
            kind,
            expected,
            received,
        } => with(NO_MULTIPLE, kind, expected, received),
        Reason::WrongAddressSize { kind, received } => with(ADDRESS_SIZE, kind, 0, received),
        Reason::TooDeep { kind } => with(TOO_DEEP, kind, 0, 0),
        Reason::LateChoice { kind } => with(LATE_CHOICE, kind, 0, 0),
    }
}

/// Returns these numbers; the policy and the offset are 0.
fn with(reason: u32, kind: u16, expected: usize, received: usize) -> ErrorNumbers
    ensures { result ≡ with reason kind expected received }
{
    ErrorNumbers {
        reason,
        kind,
        policy: 0,
        offset: 0,
        expected,
        received,
    }
}

/// Returns the error that these numbers identify, or `None` if the reason is none of an error.
fn error_of(numbers: &ErrorNumbers) -> Option<FamilyError>
    ensures { result ≡ error_from numbers.now }
{
    match numbers.reason {
        UNKNOWN_TYPE => Some(FamilyError::UnknownType {
            message_type: numbers.kind,
        }),
        HEADER_SHORT => Some(FamilyError::HeaderShort {
            expected: numbers.expected,
            received: numbers.received,
        }),
        TOO_LONG => Some(FamilyError::TooLong),
        NO_MEMORY => Some(FamilyError::OutOfMemory),
        _ => match reason_of(numbers) {
            Some(reason) => Some(FamilyError::InvalidAttribute(AttributeError {
                offset: numbers.offset,
                policy: numbers.policy,
                reason,
            })),
            None => None,
        },
    }
}

/// Returns what is wrong with the attribute that these numbers identify.
fn reason_of(numbers: &ErrorNumbers) -> Option<Reason>
    ensures { result ≡ reason_from numbers.now }
{
    let kind = numbers.kind;
    let expected = numbers.expected;
    let received = numbers.received;
    match numbers.reason {
        ATTR_SHORT => Some(Reason::Short { received }),
        ATTR_CUT => Some(Reason::Truncated { expected, received }),
        ATTR_LENGTH => Some(Reason::InvalidLength { received }),
        VALUE_SIZE => Some(Reason::WrongSize {
            kind,
            expected,
            received,
        }),
        NOT_TERMINATED => Some(Reason::NotNulTerminated { kind }),
        INTERIOR_NUL => Some(Reason::InteriorNul { kind }),
        VALUE_SHORT => Some(Reason::TooSmall {
            kind,
            expected,
            received,
        }),
        NO_MULTIPLE => Some(Reason::NoMultiple {
            kind,
            expected,
            received,
        }),
        ADDRESS_SIZE => Some(Reason::WrongAddressSize { kind, received }),
        TOO_DEEP => Some(Reason::TooDeep { kind }),
        LATE_CHOICE => Some(Reason::LateChoice { kind }),
        _ => None,
    }
}
