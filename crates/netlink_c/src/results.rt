//! What a function returns if it has no `DecodeError` to report.

/// The function succeeded.
pub const OK: u32 = 0;

/// There is not enough room in the buffer (the number of `BufferTooSmall`). Nothing is changed,
/// except that a function with a `size` sets it to the size that is needed. No `FaultNumbers` is
/// written.
pub const NO_ROOM: u32 = 8;

/// An allocation failed (the number of `OutOfMemory`).
pub const NO_MEMORY: u32 = 16;

/// A walk is at its end.
pub const END: u32 = 32;

/// A value, a nest or a frame is longer than its length field can count. Nothing is changed.
pub const TOO_LONG: u32 = 33;

/// An offset, an index, a size or the numbers of an error are not valid for the function. Nothing
/// is changed.
pub const NO_PLACE: u32 = 34;

/// A value does not have the size that is asked for, or a payload is shorter than its fixed header.
/// Nothing is changed.
pub const WRONG_SIZE: u32 = 35;

/// A value does not have the shape that a policy states. Nothing but the offset is changed.
pub const WRONG_SHAPE: u32 = 36;
