//! Errors in attributes, each with its offset.

ghost use Rattle.std.specs.Prelude.{ℕ, ◌≡◌, ◌+◌, ◌≤◌, ◌<◌, ◌^◌, ◌&&◌, List, Some, false, is_none, length};
ghost use Rattle.netlink_shapes.specs.ErrorTexts.{attribute_error_text, reason_text};
ghost use Rattle.netlink_shapes.specs.Errors.{reason_of, decode_reason, error_at, left_after, nest_error, value_error};
ghost use Rattle.netlink_shapes.specs.Policies.{IsPart};
ghost use Rattle.netlink_shapes.specs.Shapes.{has_shape, nest_of, rows_in, shape_among, within};

use crate::choice::{NO_CHOICES, own_shape_among, shape_among};
use crate::rows::Rows;
use crate::shape::{Shape, TOP, has_shape, nest_block, policy_of, policy_rows};
use netlink_attributes::{NlasIterator, nla_align};
use netlink_bytes::DecodeError;
use std::fmt;

/// The size of two attributes with values of 4 bytes.
const SEVERAL: usize = 16;

/// The first error in the attributes of a payload, and its offset.
#[derive(Clone, Copy, Debug, PartialEq, Eq)]
pub struct AttributeError {
    /// The offset of the attribute in bytes from the start of the payload, also inside nests.
    pub offset: usize,
    /// The policy that the attribute belongs to: `TOP`, or the policy of the innermost nest.
    pub policy: u16,
    /// What is wrong with it.
    pub reason: Reason,
}

/// What is wrong with an attribute. Sizes are in bytes.
#[derive(Clone, Copy, Debug, PartialEq, Eq)]
pub enum Reason {
    /// Fewer than 4 bytes are left, too few for an attribute.
    Short {
        /// The number of bytes left.
        received: usize,
    },
    /// The attribute's length field is greater than the number of bytes left.
    Truncated {
        /// The length field.
        expected: usize,
        /// The number of bytes left.
        received: usize,
    },
    /// The attribute's length field is less than 4.
    InvalidLength {
        /// The length field.
        received: usize,
    },
    /// The value does not have the size that its kind requires.
    WrongSize {
        /// The kind of the attribute.
        kind: u16,
        /// The required size.
        expected: usize,
        /// The actual size.
        received: usize,
    },
    /// The value is not a string whose only NUL is its last byte.
    NotNulTerminated {
        /// The kind of the attribute.
        kind: u16,
    },
    /// The value is a string with a NUL before its last byte.
    InteriorNul {
        /// The kind of the attribute.
        kind: u16,
    },
    /// The value is shorter than the minimum size of its kind.
    TooSmall {
        /// The kind of the attribute.
        kind: u16,
        /// The minimum size.
        expected: usize,
        /// The actual size.
        received: usize,
    },
    /// The size of the value is no multiple of that of an element.
    NoMultiple {
        /// The kind of the attribute.
        kind: u16,
        /// The size of an element.
        expected: usize,
        /// The actual size.
        received: usize,
    },
    /// The value is an IP address of neither 4 nor 16 bytes.
    WrongAddressSize {
        /// The kind of the attribute.
        kind: u16,
        /// The actual size.
        received: usize,
    },
    /// The attribute is a nest inside eight others, the maximum.
    TooDeep {
        /// The kind of the attribute.
        kind: u16,
    },
    /// The attribute would choose its own shape, or that of an attribute before it. Only `push` and
    /// `try_push` return this.
    LateChoice {
        /// The kind of the attribute.
        kind: u16,
    },
}

impl fmt::Display for Reason {
    ghost output = { λ reason. Some (reason_text reason) };

    fn fmt<W: fmt::Write>(&self, f: &mut fmt::Formatter<W>) -> fmt::Result {
        match self {
            Reason::Short { received } => {
                write!(f, "{received} bytes are too few for an attribute")
            }
            Reason::Truncated { expected, received } => write!(
                f,
                "an attribute of {expected} bytes is truncated to {received}"
            ),
            Reason::InvalidLength { received } => {
                write!(f, "an attribute has length {received}, less than 4")
            }
            Reason::WrongSize {
                kind,
                expected,
                received,
            } => write!(
                f,
                "attribute {kind} has a value of {received} bytes instead of {expected}"
            ),
            Reason::NotNulTerminated { kind } => {
                write!(
                    f,
                    "attribute {kind} is not a string whose only NUL is its last byte"
                )
            }
            Reason::InteriorNul { kind } => {
                write!(
                    f,
                    "attribute {kind} is a string with a NUL before its last byte"
                )
            }
            Reason::TooSmall {
                kind,
                expected,
                received,
            } => write!(
                f,
                "attribute {kind} has a value of {received} bytes instead of {expected} or more"
            ),
            Reason::NoMultiple {
                kind,
                expected,
                received,
            } => write!(
                f,
                "attribute {kind} has a value of {received} bytes, no multiple of {expected}"
            ),
            Reason::WrongAddressSize { kind, received } => write!(
                f,
                "attribute {kind} has an address of {received} bytes instead of 4 or 16"
            ),
            Reason::TooDeep { kind } => { write!(f, "attribute {kind} is nested too deeply") }
            Reason::LateChoice { kind } => write!(
                f,
                "attribute {kind} comes after an attribute whose shape it chooses"
            ),
        }
    }
}

impl fmt::Display for AttributeError {
    ghost output = { λ error. Some (attribute_error_text error) };

    fn fmt<W: fmt::Write>(&self, f: &mut fmt::Formatter<W>) -> fmt::Result {
        write!(
            f,
            "at byte {}, in policy {}: {}",
            self.offset, self.policy, self.reason
        )
    }
}

/// Returns the error of the value of the attribute at offset `at` in the block `around`, if it has
/// one. A value that is no nest and has its shape, as most do, is accepted without a call of
/// `other_error`.
#[inline(always)]
pub fn value_error(
    levels: u8,
    rows: Rows,
    policy: u16,
    around: &[u8],
    at: usize,
    kind: u16,
    value: &[u8],
) -> Option<AttributeError>
    requires inside { at + 4 + length value.now < 2 ^ 64 }
    ensures { result ≡ value_error levels (within (rows_in rows.list.now) around.now) policy at kind value.now }
{
    let shape = shape_among(rows, policy, around, kind);
    if !is_fine(shape, value) {
        return other_error(levels, rows, policy, shape, at, kind, value);
    }
    None
}

/// Returns the first error in a value that is a nest or lacks its shape. It is a separate function so
/// that the callers of `value_error` stay small.
#[inline(never)]
fn other_error(
    levels: u8,
    rows: Rows,
    policy: u16,
    shape: Shape,
    at: usize,
    kind: u16,
    value: &[u8],
) -> Option<AttributeError>
    requires inside { at + 4 + length value.now < 2 ^ 64 }
    requires other { (is_none (nest_of shape) && has_shape shape value.now) ≡ false }
    ensures { (around : List ℕ) → shape ≡ shape_among (within (rows_in rows.list.now) around) policy kind
        → result ≡ value_error levels (within (rows_in rows.list.now) around) policy at kind value.now }
{
    rest_error(levels, rows, policy, shape, at, kind, value)
}

/// Returns the first error in a value whose shape is known. First accepts a value that is no nest and
/// has its shape, as most do, so that an error is prepared only for the others.
#[inline(always)]
#[cycle(errors)]
fn shape_error(
    levels: u8,
    rows: Rows,
    policy: u16,
    shape: Shape,
    at: usize,
    kind: u16,
    value: &[u8],
) -> Option<AttributeError>
    requires inside { at + 4 + length value.now < 2 ^ 64 }
    ensures { (around : List ℕ) → shape ≡ shape_among (within (rows_in rows.list.now) around) policy kind
        → result ≡ value_error levels (within (rows_in rows.list.now) around) policy at kind value.now }
{
    if is_fine(shape, value) {
        return None;
    }
    rest_error(levels, rows, policy, shape, at, kind, value)
}

/// Returns the first error in a value of a known shape that is a nest or lacks this shape. Tests the
/// shape of a nest only, because that of any other value is known to be wrong.
#[inline(always)]
#[cycle(errors)]
fn rest_error(
    levels: u8,
    rows: Rows,
    policy: u16,
    shape: Shape,
    at: usize,
    kind: u16,
    value: &[u8],
) -> Option<AttributeError>
    requires inside { at + 4 + length value.now < 2 ^ 64 }
    requires other { (is_none (nest_of shape) && has_shape shape value.now) ≡ false }
    ensures { (around : List ℕ) → shape ≡ shape_among (within (rows_in rows.list.now) around) policy kind
        → result ≡ value_error levels (within (rows_in rows.list.now) around) policy at kind value.now }
{
    match policy_of(shape) {
        None => Some(wrong_shape(policy, shape, at, kind, value)),
        Some(inner) => {
            if !has_shape(shape, value) {
                return Some(wrong_shape(policy, shape, at, kind, value));
            }
            if levels == 0 {
                return Some(AttributeError {
                    offset: at,
                    policy,
                    reason: Reason::TooDeep { kind },
                });
            }
            let block = nest_block(shape, value);
            error_in(levels - 1, rows, inner, at + 4 + value.len(), block)
        }
    }
}

/// Returns the error of a value that lacks its shape.
#[inline(always)]
fn wrong_shape(policy: u16, shape: Shape, at: usize, kind: u16, value: &[u8]) -> AttributeError
    ensures { result ≡ error_at policy at (reason_of shape kind value.now) }
{
    AttributeError {
        offset: at,
        policy,
        reason: reason_of(shape, kind, value),
    }
}

/// Returns whether a value is no nest and has its shape.
#[inline(always)]
fn is_fine(shape: Shape, value: &[u8]) -> bool
    ensures { result ≡ (is_none (nest_of shape) && has_shape shape value.now) }
{
    policy_of(shape).is_none() && has_shape(shape, value)
}

/// Returns the first error in the attributes of a block that ends at offset `end`, if there is one.
/// Looks the kinds up among the rows that `rows_for` returns.
#[cycle(errors)]
pub fn error_in(
    levels: u8,
    rows: Rows,
    policy: u16,
    end: usize,
    block: &[u8],
) -> Option<AttributeError>
    requires inside { length block.now ≤ end }
    ensures { result ≡ nest_error levels (rows_in rows.list.now) policy end block.now }
{
    // Rows among which are all of the policy.
    let own = rows_for(rows, policy, block);
    let mut choices = NO_CHOICES;
    let mut left = block.len();
    for item in NlasIterator::new(block) {
        let offset = end - left;
        match item {
            Ok(nla) => {
                let kind = nla.raw_kind();
                let shape = own_shape_among(rows, own, policy, block, kind, &mut choices);
                let error = shape_error(levels, rows, policy, shape, offset, kind, nla.value());
                if error.is_some() {
                    return error;
                }
                left = left_after(left, nla.length());
            }
            Err(malformed) => {
                return Some(AttributeError {
                    offset,
                    policy,
                    reason: decode_reason(malformed),
                });
            }
        }
    }
    None
}

/// Returns the rows in which to look up the kinds of a block: those of its policy. Returns all rows
/// if the policy is `TOP`: its rows come first, so most kinds are found without a search. Also returns
/// all rows if the block is too short for two attributes with values of 4 bytes, because finding the
/// rows of the policy takes longer than one lookup.
#[inline(always)]
pub(crate) fn rows_for(rows: Rows, policy: u16, block: &[u8]) -> Rows
    ensures { IsPart policy (rows_in rows.list.now) (rows_in result.list.now) }
{
    if policy == TOP || block.len() < SEVERAL {
        return rows;
    }
    policy_rows(rows, policy)
}

/// Returns the reason for an error of the walk.
fn decode_reason(malformed: DecodeError) -> Reason
    ensures { result ≡ decode_reason malformed }
{
    match malformed {
        DecodeError::NlaBufferTooSmall { buffer_len, .. } => Reason::Short {
            received: buffer_len,
        },
        DecodeError::NlaLengthMismatch {
            buffer_len,
            nla_len,
        } => Reason::Truncated {
            expected: nla_len,
            received: buffer_len,
        },
        DecodeError::NlaInvalidLength { nla_len, .. } => Reason::InvalidLength {
            received: nla_len,
        },
        _ => Reason::Short { received: 0 },
    }
}

/// Returns the number of bytes left after an attribute with this length field.
fn left_after(left: usize, length: u16) -> usize
    ensures { result ≡ left_after left length }
{
    let size = nla_align(usize::from(length));
    if left < size {
        return 0;
    }
    left - size
}

/// Returns the reason why a value does not have the shape.
fn reason_of(shape: Shape, kind: u16, value: &[u8]) -> Reason
    ensures { result ≡ reason_of shape kind value.now }
{
    let received = value.len();
    let expected = match shape {
        Shape::Flag | Shape::Chosen { .. } | Shape::ChosenByNumber { .. } | Shape::Bytes => 0,
        Shape::U8 => 1,
        Shape::U16 | Shape::Be16 => 2,
        Shape::U32 | Shape::I32 | Shape::Be32 | Shape::BeI32 => 4,
        Shape::U64 | Shape::I64 | Shape::Be64 => 8,
        Shape::ExactLen(size) => size as usize,
        Shape::Ip => return Reason::WrongAddressSize { kind, received },
        Shape::NulStr => return Reason::NotNulTerminated { kind },
        Shape::Str => return Reason::InteriorNul { kind },
        Shape::MinLen(size) | Shape::HeaderNested { size, .. } => {
            return Reason::TooSmall {
                kind,
                expected: size as usize,
                received,
            };
        }
        Shape::Elements(size) => {
            return Reason::NoMultiple {
                kind,
                expected: usize::from(size),
                received,
            };
        }
        Shape::Nested(_) => return Reason::TooDeep { kind },
    };
    Reason::WrongSize {
        kind,
        expected,
        received,
    }
}
