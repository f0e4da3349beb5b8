//! Shapes as numbers.

ghost use Rattle.std.specs.Prelude.{◌≡◌, false, length, true};
ghost use Rattle.netlink_route_c.specs.ShapeNumbers.{shape_from, shape_numbers, shape_with};
ghost use Rattle.netlink_route_c.specs.Views.{is_inside, shape_of};
ghost use Rattle.netlink_route_c.specs.declared.results.TheConstants.{NO_PLACE};

use crate::find::{block_in, block_shape, rows_of};
use crate::results::{NO_PLACE, OK};
use crate::view::{Tables, View};
use netlink_family::{Shape, Table};

/// Any bytes (`Shape::Bytes`).
pub const BYTES: u16 = 0;

/// The shapes of the same names.
pub const U8: u16 = 1;

pub const U16: u16 = 2;

pub const U32: u16 = 3;

pub const I32: u16 = 4;

pub const U64: u16 = 5;

pub const I64: u16 = 6;

pub const BE16: u16 = 7;

pub const BE32: u16 = 8;

pub const BE64: u16 = 9;

pub const FLAG: u16 = 10;

pub const IP: u16 = 11;

pub const NUL_STR: u16 = 12;

pub const STR: u16 = 13;

pub const EXACT_LEN: u16 = 14;

pub const MIN_LEN: u16 = 15;

pub const NESTED: u16 = 16;

pub const HEADER_NESTED: u16 = 17;

pub const CHOSEN: u16 = 18;

pub const BE_I32: u16 = 19;

pub const ELEMENTS: u16 = 20;

pub const CHOSEN_BY_NUMBER: u16 = 21;

/// A shape as numbers (`struct nlp_shape`).
#[derive(Clone, Copy, Debug, PartialEq, Eq)]
#[repr(C)]
pub struct ShapeNumbers {
    /// The number of the shape.
    pub shape: u16,
    /// The size in bytes of `EXACT_LEN`, the least one of `MIN_LEN`, that of an element of `ELEMENTS`,
    /// or that of the header of `HEADER_NESTED`; the kind that chooses for `CHOSEN` and
    /// `CHOSEN_BY_NUMBER`. 0 for any other shape.
    pub size: u16,
    /// The policy of the attributes of a nest, or the one that `CHOSEN` and `CHOSEN_BY_NUMBER`
    /// choose from. 0 for any other shape.
    pub policy: u16,
}

/// Writes the shape that the table gives a kind in a view, as numbers: one that another attribute
/// chooses is that of the view's attributes.
///
/// Returns 0; or `NO_PLACE`, and leaves `shape` unchanged, if the view is not inside the payload. Does
/// not allocate.
#[unsafe(no_mangle)]
pub extern "C" fn nlp_view_shape(
    payload: &[u8],
    view: &View,
    kind: u16,
    shape: &mut ShapeNumbers,
) -> u32
    ensures inside { is_inside view.now.attributes (length payload.now) ≡ true
        → (result ≡ 0) × (shape.new ≡ shape_numbers (shape_of ⟦<Tables as Table>⟧ payload.now view.now kind)) }
    ensures outside { is_inside view.now.attributes (length payload.now) ≡ false
        → (result ≡ NO_PLACE) × (shape.new ≡ shape.old) }
{
    let Some(block) = block_in(payload, view) else {
        return NO_PLACE;
    };
    let rows = rows_of(view.message_type);
    *shape = shape_numbers(block_shape(rows, view.policy, block, kind));
    OK
}

/// Returns the numbers of a shape.
pub(crate) fn shape_numbers(shape: Shape) -> ShapeNumbers
    ensures { result ≡ shape_numbers shape }
{
    match shape {
        Shape::Bytes => shape_with(BYTES, 0, 0),
        Shape::U8 => shape_with(U8, 0, 0),
        Shape::U16 => shape_with(U16, 0, 0),
        Shape::U32 => shape_with(U32, 0, 0),
        Shape::I32 => shape_with(I32, 0, 0),
        Shape::U64 => shape_with(U64, 0, 0),
        Shape::I64 => shape_with(I64, 0, 0),
        Shape::Be16 => shape_with(BE16, 0, 0),
        Shape::Be32 => shape_with(BE32, 0, 0),
        Shape::Be64 => shape_with(BE64, 0, 0),
        Shape::Flag => shape_with(FLAG, 0, 0),
        Shape::Ip => shape_with(IP, 0, 0),
        Shape::NulStr => shape_with(NUL_STR, 0, 0),
        Shape::Str => shape_with(STR, 0, 0),
        Shape::ExactLen(size) => shape_with(EXACT_LEN, size, 0),
        Shape::MinLen(size) => shape_with(MIN_LEN, size, 0),
        Shape::Nested(policy) => shape_with(NESTED, 0, policy),
        Shape::HeaderNested { size, policy } => shape_with(HEADER_NESTED, size, policy),
        Shape::Chosen { by, policy } => shape_with(CHOSEN, by, policy),
        Shape::BeI32 => shape_with(BE_I32, 0, 0),
        Shape::Elements(size) => shape_with(ELEMENTS, size, 0),
        Shape::ChosenByNumber { by, policy } => shape_with(CHOSEN_BY_NUMBER, by, policy),
    }
}

/// Returns these numbers.
fn shape_with(shape: u16, size: u16, policy: u16) -> ShapeNumbers
    ensures { result ≡ shape_with shape size policy }
{
    ShapeNumbers {
        shape,
        size,
        policy,
    }
}

/// Returns the shape that these numbers identify, or `None` if they are those of none.
pub(crate) fn shape_from(numbers: ShapeNumbers) -> Option<Shape>
    ensures { result ≡ shape_from numbers }
{
    let size = numbers.size;
    let policy = numbers.policy;
    match numbers.shape {
        BYTES => Some(Shape::Bytes),
        U8 => Some(Shape::U8),
        U16 => Some(Shape::U16),
        U32 => Some(Shape::U32),
        I32 => Some(Shape::I32),
        U64 => Some(Shape::U64),
        I64 => Some(Shape::I64),
        BE16 => Some(Shape::Be16),
        BE32 => Some(Shape::Be32),
        BE64 => Some(Shape::Be64),
        FLAG => Some(Shape::Flag),
        IP => Some(Shape::Ip),
        NUL_STR => Some(Shape::NulStr),
        STR => Some(Shape::Str),
        EXACT_LEN => Some(Shape::ExactLen(size)),
        MIN_LEN => Some(Shape::MinLen(size)),
        NESTED => Some(Shape::Nested(policy)),
        HEADER_NESTED => Some(Shape::HeaderNested { size, policy }),
        CHOSEN => Some(Shape::Chosen { by: size, policy }),
        BE_I32 => Some(Shape::BeI32),
        ELEMENTS => Some(Shape::Elements(size)),
        CHOSEN_BY_NUMBER => Some(Shape::ChosenByNumber { by: size, policy }),
        _ => None,
    }
}
