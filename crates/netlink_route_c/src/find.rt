//! The first attribute of a kind in a view that C passes.

ghost use Rattle.std.specs.Prelude.{◌≡◌, ◌≢◌, ◌+◌, ◌≤◌, IfErr, IfNone, IfOk, IfSome, None, Some, drop, false, length, true};
ghost use Rattle.netlink_family.specs.Listing.{first_of, listed};
ghost use Rattle.netlink_family.specs.Shapes.{has_shape, rows_in, shape_among, within};
ghost use Rattle.netlink_packet_core.specs.Views.{HoldsAttribute, attribute_of};
ghost use Rattle.netlink_route_c.specs.Gets.{absent_result};
ghost use Rattle.netlink_route_c.specs.Views.{IsViewOf, block_of, found_of, is_inside, part_of, shape_of};

use crate::results::{NO_PLACE, WRONG_SHAPE};
use crate::view::{Part, Tables, View};
use netlink_family::{Rows, Shape, Table};
use netlink_packet_core::{NLA_HEADER_SIZE, NlaBuffer, nla_align};
use netlink_shapes::choice::{far_row_shape, near_shape, resolved};
use netlink_shapes::find::first_value;
use netlink_shapes::shape::has_shape;

/// The first attribute of a kind in a view.
#[derive(Clone, Copy, Debug, PartialEq, Eq)]
pub(crate) struct Found<'a> {
    /// The shape of the kind.
    pub(crate) shape: Shape,
    /// Where the value is in the payload.
    pub(crate) part: Part,
    /// The value, which has the shape.
    pub(crate) value: &'a [u8],
}

/// Returns the first attribute of a kind in a view. Returns `NO_PLACE` if there is none or the view
/// is not inside the payload, and otherwise `WRONG_SHAPE` if the value does not have the shape of
/// the kind.
#[inline(always)]
pub(crate) fn seen<'a>(payload: &'a [u8], view: &View, kind: u16) -> Result<Found<'a>, u32>
    ensures shape { IfOk result (λ s. s.shape ≡ shape_of ⟦<Tables as Table>⟧ payload.now view.now kind) }
    ensures found { IfOk result (λ s. found_of payload.now view.now kind ≡ Some s.value.now) }
    ensures part { IfOk result (λ s. s.value.now ≡ part_of s.part payload.now) }
    ensures inside { IfOk result (λ s. s.part.offset + s.part.size ≤ length payload.now) }
    ensures fits { IfOk result (λ s. has_shape s.shape s.value.now ≡ true) }
    ensures absent { IfErr result (λ n. n ≡ absent_result (shape_of ⟦<Tables as Table>⟧ payload.now view.now kind) (found_of payload.now view.now kind)) }
    ensures some { IfErr result (λ n. n ≢ 0) }
    ensures shaped { IfErr result (λ n. IsViewOf ⟦<Tables as Table>⟧ payload.now view.now → n ≢ 36) }
{
    let Some(part) = place(payload, view, kind) else {
        return Err(NO_PLACE);
    };
    let value = &payload[part.offset..part.offset + part.size];
    let shape = shape_in(payload, view, kind);
    if !has_shape(shape, value) {
        return Err(WRONG_SHAPE);
    }
    Ok(Found { shape, part, value })
}

/// Returns where the value of the first attribute of a kind in a view is in the payload. Returns
/// `None` if there is none or the view is not inside the payload.
fn place(payload: &[u8], view: &View, kind: u16) -> Option<Part>
    ensures some { IfSome result (λ part. found_of payload.now view.now kind ≡ Some (part_of part payload.now)) }
    ensures inside { IfSome result (λ part. part.offset + part.size ≤ length payload.now) }
    ensures none { IfNone result (found_of payload.now view.now kind ≡ None) }
{
    let block = block_in(payload, view)?;
    let at = first_at(block, kind)?;
    Some(Part {
        offset: view.attributes.offset + at + NLA_HEADER_SIZE,
        size: NlaBuffer::new(&block[at..]).value_length(),
    })
}

/// Returns the shape of a kind in a view. A view that is not inside the payload has no attributes.
fn shape_in(payload: &[u8], view: &View, kind: u16) -> Shape
    requires inside { is_inside view.now.attributes (length payload.now) ≡ true }
    ensures { result ≡ shape_of ⟦<Tables as Table>⟧ payload.now view.now kind }
{
    let block = &payload[view.attributes.offset..view.attributes.offset + view.attributes.size];
    block_shape(rows_of(view.message_type), view.policy, block, kind)
}

/// Returns the rows of the table of a message type.
pub(crate) fn rows_of(message_type: u16) -> Rows
    ensures { rows_in result.list.now ≡ ⟦<Tables as Table>⟧.rows message_type }
{
    Rows {
        list: Tables::rows(message_type),
    }
}

/// Returns the shape of a kind in a policy, among the attributes of a block.
pub(crate) fn block_shape(rows: Rows, policy: u16, block: &[u8], kind: u16) -> Shape
    ensures { result ≡ shape_among (within (rows_in rows.list.now) block.now) policy kind }
{
    if let Some(shape) = near_shape(rows, policy, kind) {
        return shape;
    }
    resolved(rows, policy, block, far_row_shape(rows, policy, kind))
}

/// Returns the attributes of a view as a block, or `None` if they are not inside the payload.
#[inline(always)]
pub(crate) fn block_in<'a>(payload: &'a [u8], view: &View) -> Option<&'a [u8]>
    ensures some { IfSome result (λ block. (is_inside view.now.attributes (length payload.now) ≡ true)
        × (block.now ≡ block_of payload.now view.now)) }
    ensures none { IfNone result (is_inside view.now.attributes (length payload.now) ≡ false) }
{
    let start = view.attributes.offset;
    let size = view.attributes.size;
    if start > payload.len() || size > payload.len() - start {
        return None;
    }
    Some(&payload[start..start + size])
}

/// Returns the offset of the first attribute of a kind in a block, whatever its flag bits. Returns
/// `None` if no such attribute precedes an error of the walk.
fn first_at(block: &[u8], kind: u16) -> Option<usize>
    ensures some { IfSome result (λ at. first_of kind (listed block.now) ≡ Some (attribute_of (drop at block.now)).value) }
    ensures whole { IfSome result (λ at. HoldsAttribute (drop at block.now)) }
    ensures none { IfNone result (first_of kind (listed block.now) ≡ None) }
{
    let mut at = 0;
    while at < block.len() {
        match NlaBuffer::new_checked(&block[at..]) {
            Ok(nla) => {
                let size = nla_align(nla.length() as usize);
                let found = nla.kind();
                if found == kind {
                    return Some(at);
                }
                if block.len() - at <= size {
                    return None;
                }
                at += size;
            }
            Err(_) => return None,
        }
    }
    None
}
