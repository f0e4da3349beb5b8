//! Lines that callers add before an error text.

ghost use Rattle.std.specs.Prelude.{◌≡◌};
ghost use Rattle.netlink_bytes.specs.Contexts.{HasLine, ResultHasLine, ResultTakesLine, TakesLine};

use crate::error::DecodeError;
use std::alloc::Global;
use std::convert::AsStr;

/// A value to which a line of context can be added. `T` is the type of the line: `&str`, `String`
/// or another type with `AsStr`.
pub trait ErrorContext<T> {
    /// Holds if `context` adds the line to the value.
    ghost takes_line: { Self → Type 0 };

    /// An old value, a line and a new value: holds if the new one is the old one with the line
    /// added.
    ghost has_line: { Self → T → Self → Type 0 };

    /// Adds the line: returns `Message` with the text `<msg> caused by <old text>`, or
    /// `OutOfMemory` if an allocation fails. Returns `OutOfMemory` and `Ok` unchanged.
    fn context(self, alloc: Global, msg: T) -> Self
        ensures line { has_line self msg result };

    /// Does the same with the line that `f` returns. Calls `f` once, or not at all for
    /// `OutOfMemory` or `Ok`. Requires the precondition of `f` only if `f` is called.
    fn with_context<F: FnOnce() -> T>(self, alloc: Global, f: F) -> Self
        requires can_call { takes_line self → F.pre f }
        ensures called { takes_line self → (msg : T) × F.post f msg × has_line self msg result }
        ensures kept { (takes_line self → ⊥) → result ≡ self };
}

impl<T: AsStr + Drop> ErrorContext<T> for DecodeError {
    ghost takes_line = { TakesLine };

    ghost has_line = { λ old msg new. HasLine (T.text msg) old new };

    fn context(self, alloc: Global, msg: T) -> DecodeError {
        if self.is_out_of_memory() {
            return self;
        }
        let line = msg.as_str();
        match format!(in alloc; "{line} caused by {self}") {
            Ok(text) => DecodeError::Message(text),
            Err(_) => DecodeError::OutOfMemory,
        }
    }

    fn with_context<F: FnOnce() -> T>(self, alloc: Global, f: F) -> DecodeError {
        if self.is_out_of_memory() {
            return self;
        }
        self.context(alloc, f())
    }
}

impl<U, T: AsStr + Drop> ErrorContext<T> for Result<U, DecodeError> {
    ghost takes_line = { ResultTakesLine };

    ghost has_line = { λ old msg new. ResultHasLine (T.text msg) old new };

    fn context(self, alloc: Global, msg: T) -> Result<U, DecodeError> {
        match self {
            Ok(value) => Ok(value),
            Err(e) => Err(e.context(alloc, msg)),
        }
    }

    fn with_context<F: FnOnce() -> T>(self, alloc: Global, f: F) -> Result<U, DecodeError> {
        match self {
            Ok(value) => Ok(value),
            Err(e) => Err(e.with_context(alloc, f)),
        }
    }
}
