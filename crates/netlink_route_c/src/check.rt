//! The check of a value that is to be written.

ghost use Rattle.std.specs.Prelude.{◌≡◌, ◌<◌, ◌^◌, IfSome, false, length, true};
ghost use Rattle.netlink_family.specs.Shapes.{rows_in, within};
ghost use Rattle.netlink_route_c.specs.Checks.{Checks, check_numbers, value_numbers};
ghost use Rattle.netlink_route_c.specs.Views.{is_inside};
ghost use Rattle.netlink_route_c.specs.declared.results.TheConstants.{NO_PLACE};

use crate::error::{ErrorNumbers, numbers_of};
use crate::find::{block_in, block_shape, rows_of};
use crate::results::{NO_PLACE, OK, WRONG_SHAPE};
use crate::shape::shape_numbers;
use crate::view::{Tables, View};
use netlink_family::{FamilyError, Rows, Table};
use netlink_packet_core::NLA_VALUE_MAX;
use netlink_shapes::attribute_error::value_error;
use netlink_shapes::shape::NEST_LEVELS;

/// In place of the number of a shape: whatever the table gives the kind.
pub const ANY_SHAPE: u16 = 0xffff;

/// Checks a value before it is appended to the attributes of a view: whether the table gives its kind
/// this shape, or any for `ANY_SHAPE`, and whether the value has it, in a nest all of its attributes.
/// A shape that another attribute chooses is that of the view's attributes.
///
/// Returns 0; `NO_PLACE` if the view is not inside the payload; `WRONG_SHAPE` if the table gives the
/// kind another shape, whose number is then `expected`; `TOO_LONG` if the value does not fit in an
/// attribute; or the reason of the value's error. Changes `error` only if it returns an error, except
/// `NO_PLACE`: it then has its numbers, and its offset is that of the attribute in the payload, at the
/// end of the view. Wraps `value_error`, as `OwnedMessage::try_push` does. Does not allocate.
#[unsafe(no_mangle)]
pub extern "C" fn nlp_view_check(
    payload: &[u8],
    view: &View,
    shape: u16,
    kind: u16,
    value: &[u8],
    error: &mut ErrorNumbers,
) -> u32
    ensures outside { is_inside view.now.attributes (length payload.now) ≡ false
        → (result ≡ NO_PLACE) × (error.new ≡ error.old) }
    ensures checks { is_inside view.now.attributes (length payload.now) ≡ true
        → Checks (check_numbers ⟦<Tables as Table>⟧ payload.now view.now shape kind value.now) error.old error.new result }
{
    let Some(block) = block_in(payload, view) else {
        return NO_PLACE;
    };
    let rows = rows_of(view.message_type);
    let at = view.attributes.offset + view.attributes.size;
    match checked(rows, view.policy, block, at, shape, kind, value) {
        Some(numbers) => {
            *error = numbers;
            numbers.reason
        }
        None => OK,
    }
}

/// Returns the numbers of the error of a value that is to be written at an offset of the payload,
/// after the attributes of a block.
fn checked(
    rows: Rows,
    policy: u16,
    block: &[u8],
    at: usize,
    shape: u16,
    kind: u16,
    value: &[u8],
) -> Option<ErrorNumbers>
    requires inside { at < 2 ^ 63 }
    ensures numbers { result ≡ value_numbers (within (rows_in rows.list.now) block.now) policy at shape kind value.now }
    ensures some { IfSome result (λ numbers. 0 < numbers.reason) }
{
    let own = shape_numbers(block_shape(rows, policy, block, kind)).shape;
    if shape != ANY_SHAPE && shape != own {
        return Some(ErrorNumbers {
            reason: WRONG_SHAPE,
            kind,
            policy,
            offset: at,
            expected: own as usize,
            received: shape as usize,
        });
    }
    if value.len() > NLA_VALUE_MAX {
        return Some(numbers_of(FamilyError::TooLong));
    }
    match value_error(NEST_LEVELS, rows, policy, block, at, kind, value) {
        Some(error) => Some(numbers_of(FamilyError::InvalidAttribute(error))),
        None => None,
    }
}
