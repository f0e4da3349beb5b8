//! What a function returns. The numbers below 40 mean the same in `netlink_c`.

/// The function succeeded.
pub const OK: u32 = 0;

/// Fewer than 4 bytes are left (`Reason::Short`).
pub const ATTR_SHORT: u32 = 5;

/// An attribute is truncated (`Reason::Truncated`).
pub const ATTR_CUT: u32 = 6;

/// The length field of an attribute is less than 4 (`Reason::InvalidLength`).
pub const ATTR_LENGTH: u32 = 7;

/// There is not enough room in the buffer. Nothing is changed, except that a function with a `size`
/// sets it to the size that is needed.
pub const NO_ROOM: u32 = 8;

/// An allocation failed (`FamilyError::OutOfMemory`).
pub const NO_MEMORY: u32 = 16;

/// An iteration is at its end.
pub const END: u32 = 32;

/// The attributes do not fit in a message (`FamilyError::TooLong`).
pub const TOO_LONG: u32 = 33;

/// There is no such attribute or field, or the table gives it another shape. Nothing is changed.
pub const NO_PLACE: u32 = 34;

/// A value does not have the shape of its kind, so the view is not of these bytes. Nothing is
/// changed.
pub const WRONG_SHAPE: u32 = 36;

/// The message type has no table (`FamilyError::UnknownType`).
pub const UNKNOWN_TYPE: u32 = 40;

/// The payload is shorter than the fixed header (`FamilyError::HeaderShort`).
pub const HEADER_SHORT: u32 = 41;

/// A value does not have the size of its kind (`Reason::WrongSize`).
pub const VALUE_SIZE: u32 = 42;

/// A value is no string with a NUL at its end (`Reason::NotNulTerminated`).
pub const NOT_TERMINATED: u32 = 43;

/// A value is a string with a NUL inside (`Reason::InteriorNul`).
pub const INTERIOR_NUL: u32 = 44;

/// A value is shorter than its kind allows (`Reason::TooSmall`).
pub const VALUE_SHORT: u32 = 45;

/// A value is an address of neither 4 nor 16 bytes (`Reason::WrongAddressSize`).
pub const ADDRESS_SIZE: u32 = 46;

/// An attribute is a nest inside eight others (`Reason::TooDeep`).
pub const TOO_DEEP: u32 = 47;

/// The size of a value is no multiple of that of an element (`Reason::NoMultiple`).
pub const NO_MULTIPLE: u32 = 49;

/// An attribute chooses a shape too late (`Reason::LateChoice`). No view has this error.
pub const LATE_CHOICE: u32 = 48;
