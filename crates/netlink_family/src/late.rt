//! Whether an attribute that is appended changes the shapes of those before it.

ghost use Rattle.std.specs.Prelude.{◌≡◌, ◌&&◌, IfNone, None, is_some, true};
ghost use Rattle.std.specs.List.{list_all};
ghost use Rattle.netlink_packet_core.specs.Views.{masked};
ghost use Rattle.netlink_shapes.specs.Listing.{first_of, listed};
ghost use Rattle.netlink_shapes.specs.Pushing.{added_error, chooses, is_chosen_by, is_late, keeps_shape, late_error};
ghost use Rattle.netlink_shapes.specs.Shapes.{fits_kind, rows_in, within};

use crate::family::{Table, rows_of};
use netlink_packet_core::{NLA_TYPE_MASK, NlasIterator};
use netlink_shapes::attribute_error::{AttributeError, Reason, value_error};
use netlink_shapes::find::first_value;
use netlink_shapes::rows::Rows;
use netlink_shapes::shape::{NEST_LEVELS, Shape, TOP, row_shape};

/// Returns the error of appending an attribute to a block, with the offset counted from the start of
/// the attribute: that of its value, or else that it would change a shape.
#[inline(always)]
pub(crate) fn added_error<F: Table>(
    message_type: u16,
    block: &[u8],
    kind: u16,
    value: &[u8],
) -> Option<AttributeError>
    ensures error { result ≡ added_error (within (F.rows message_type) block.now) kind value.now }
    ensures fits { IfNone result (fits_kind (within (F.rows message_type) block.now) kind value.now ≡ true) }
    ensures late { IfNone result (late_error (within (F.rows message_type) block.now) kind ≡ None) }
{
    let rows = rows_of::<F>(message_type);
    match value_error(NEST_LEVELS, rows, TOP, block, 0, kind, value) {
        Some(error) => Some(error),
        None => late_error::<F>(message_type, block, kind),
    }
}

/// Returns the error of appending an attribute of a kind, if it would change its own shape or that
/// of an attribute before it.
pub(crate) fn late_error<F: Table>(
    message_type: u16,
    block: &[u8],
    kind: u16,
) -> Option<AttributeError>
    ensures { result ≡ late_error (within (F.rows message_type) block.now) kind }
{
    if is_late::<F>(message_type, block, kind) {
        Some(AttributeError {
            offset: 0,
            policy: TOP,
            reason: Reason::LateChoice { kind },
        })
    } else {
        None
    }
}

/// Returns whether there is this error.
#[inline(always)]
fn is_late<F: Table>(message_type: u16, block: &[u8], kind: u16) -> bool
    ensures { result ≡ is_late (within (F.rows message_type) block.now) kind }
{
    F::chooses_shape(message_type, kind) && !keeps_shapes(rows_of::<F>(message_type), block, kind)
}

/// Returns whether one more attribute of a kind keeps its own shape and those of the attributes of a
/// block.
#[inline(never)]
fn keeps_shapes(rows: Rows, block: &[u8], kind: u16) -> bool
    ensures { result ≡ (keeps_shape (within (rows_in rows.list.now) block.now) kind kind
        && list_all (λ a. keeps_shape (within (rows_in rows.list.now) block.now) kind a.kind) (listed block.now)) }
{
    let is_there = first_value(block, kind & NLA_TYPE_MASK).is_some();
    keeps_shape(rows, block, kind, kind, is_there) && keeps_all(rows, block, kind, is_there)
}

/// Returns whether a kind chooses the shape of some kind of a message's own attributes. Their rows
/// are the first ones.
#[tactic(auto, using(netlink_shapes::specs::PolicyRows::none_chooses))]
pub(crate) fn chooses(rows: Rows, kind: u16) -> bool
    ensures { result ≡ chooses (rows_in rows.list.now) kind }
{
    let mut rest = rows.list;
    while let [row, more @ ..] = rest {
        if row.0 != TOP {
            return false;
        }
        if is_chosen_by(kind, row.3) {
            return true;
        }
        rest = more;
    }
    false
}

/// Returns whether a shape is chosen by the attributes of a kind.
#[inline(always)]
fn is_chosen_by(kind: u16, shape: Shape) -> bool
    ensures { result ≡ is_chosen_by kind shape }
{
    match shape {
        Shape::Chosen { by, .. } | Shape::ChosenByNumber { by, .. } => by == kind & NLA_TYPE_MASK,
        _ => false,
    }
}

/// Returns whether one more attribute of a kind keeps the shapes of the attributes of a block, in which
/// an attribute of this kind may be already.
fn keeps_all(rows: Rows, block: &[u8], kind: u16, is_there: bool) -> bool
    requires there { is_there ≡ is_some (first_of (masked kind) (listed block.now)) }
    ensures { result ≡ list_all (λ a. keeps_shape (within (rows_in rows.list.now) block.now) kind a.kind) (listed block.now) }
{
    for item in NlasIterator::new(block) {
        match item {
            Ok(nla) => {
                if !keeps_shape(rows, block, kind, nla.raw_kind(), is_there) {
                    return false;
                }
            }
            Err(_) => return true,
        }
    }
    true
}

/// Returns whether one more attribute of a kind keeps the shape of a kind, in a block in which an
/// attribute of that kind may be already.
fn keeps_shape(rows: Rows, block: &[u8], kind: u16, other: u16, is_there: bool) -> bool
    requires there { is_there ≡ is_some (first_of (masked kind) (listed block.now)) }
    ensures { result ≡ keeps_shape (within (rows_in rows.list.now) block.now) kind other }
{
    !is_chosen_by(kind, row_shape(rows, TOP, other)) || is_there
}
