//! The error type of families.

ghost use Rattle.std.specs.Prelude.{◌≡◌, length, Some};
ghost use Rattle.netlink_shapes.specs.ErrorTexts.{error_text};
ghost use Rattle.netlink_shapes.specs.declared.error.FamilyError.TheVariants.{HeaderShort};

use crate::attribute_error::AttributeError;
use std::alloc::{AllocError, AllocFailed};
use std::error::Error;
use std::fmt;

/// The error for a payload that is not a message of the family. Sizes are in bytes.
#[derive(Clone, Copy, Debug, PartialEq, Eq)]
pub enum FamilyError {
    /// The message type is not one of the family's.
    UnknownType {
        /// The message type.
        message_type: u16,
    },
    /// The payload is shorter than the fixed header.
    HeaderShort {
        /// The size of the header.
        expected: usize,
        /// The size of the payload.
        received: usize,
    },
    /// An attribute after the header is invalid.
    InvalidAttribute(AttributeError),
    /// In canonical form, the attributes do not fit in a message, or a value does not fit in an
    /// attribute.
    TooLong,
    /// An allocation failed.
    OutOfMemory,
}

impl fmt::Display for FamilyError {
    ghost output = { λ e. Some (error_text e) };

    fn fmt<W: fmt::Write>(&self, f: &mut fmt::Formatter<W>) -> fmt::Result {
        match self {
            FamilyError::UnknownType { message_type } => {
                write!(f, "message type {message_type} is not known")
            }
            FamilyError::HeaderShort { expected, received } => {
                write!(
                    f,
                    "the payload has {received} bytes, fewer than its header of {expected}"
                )
            }
            FamilyError::InvalidAttribute(error) => write!(f, "{error}"),
            FamilyError::TooLong => f.write_str("the attributes are too long"),
            FamilyError::OutOfMemory => f.write_str("out of memory"),
        }
    }
}

impl Error for FamilyError {}

impl From<AllocError> for FamilyError {
    ghost use Rattle.netlink_shapes.specs.declared.error.FamilyError.TheVariants.{OutOfMemory};

    ghost from_gives = { λ _ e. e ≡ OutOfMemory };

    /// Lets `?` propagate a failed allocation.
    fn from(_refused: AllocError) -> Self {
        FamilyError::OutOfMemory
    }
}

impl<T: Drop> From<AllocFailed<T>> for FamilyError {
    ghost use Rattle.netlink_shapes.specs.declared.error.FamilyError.TheVariants.{OutOfMemory};

    ghost from_gives = { λ _ e. e ≡ OutOfMemory };

    /// Lets `?` propagate a failed allocation; the value is dropped.
    fn from(_refused: AllocFailed<T>) -> Self {
        FamilyError::OutOfMemory
    }
}

/// Returns `HeaderShort` with the sizes of the header and of the payload.
pub fn header_short(expected: usize, payload: &[u8]) -> FamilyError
    ensures { result ≡ HeaderShort expected (length payload.now) }
{
    FamilyError::HeaderShort {
        expected,
        received: payload.len(),
    }
}
