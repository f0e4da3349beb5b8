//! A walk over the attributes of a view.

ghost use Rattle.std.specs.Prelude.{◌≡◌, ◌≢◌, ◌+◌, ◌<◌, ◌≤◌, ◌^◌, ◌↔◌, ◌⊎◌, IfNone, IfSome, None, Some, drop, false, length, slice_range, true};
ghost use Rattle.netlink_family.specs.Shapes.{nest_start, resolved, rows_in, shape_among, within};
ghost use Rattle.netlink_packet_core.specs.DecodeError.{DecodeError};
ghost use Rattle.netlink_packet_core.specs.Nla.{attribute_with};
ghost use Rattle.netlink_packet_core.specs.Walk.{IsFault, Starts};
ghost use Rattle.netlink_route_c.specs.Items.{AreKept, IsItemAt, IsMisfit, IsTyped, IsWalkOf, empty_view, item_nest, no_walk, row_of, scope_of};
ghost use Rattle.netlink_route_c.specs.ShapeNumbers.{shape_from, shape_numbers};
ghost use Rattle.netlink_route_c.specs.Views.{IsViewOf, is_inside};
ghost use Rattle.netlink_route_c.specs.declared.results.TheConstants.{END, NO_PLACE, WRONG_SHAPE};

use crate::find::{block_in, rows_of};
use crate::get_part::nest_view;
use crate::results::{END, NO_PLACE, OK, WRONG_SHAPE};
use crate::shape::{ShapeNumbers, shape_from, shape_numbers};
use crate::view::{Part, Tables, View};
use netlink_family::{Rows, Shape, TOP, Table};
use netlink_packet_core::{NLA_HEADER_SIZE, NlaBuffer, nla_align};
use netlink_shapes::choice::resolved;
use netlink_shapes::shape::{has_shape, policy_of, row_shape};

/// A shape that an attribute of the view chose, if `kept` is 1 or 2.
#[derive(Clone, Copy, Debug, PartialEq, Eq)]
#[repr(C)]
pub struct KeptShape {
    /// 1 if a string chose it, and 2 if a number did. For any other value, no shape is kept.
    pub kept: u16,
    /// The kind of the attribute that chose it.
    pub by: u16,
    /// The policy that it chose from.
    pub policy: u16,
    /// The shape.
    pub shape: ShapeNumbers,
}

/// A walk over the attributes of a view (`struct nlp_view_walk`). All zeros begin one. It keeps the
/// last two shapes that attributes chose, so that a block of many attributes is walked once for each
/// kind that chooses.
#[derive(Clone, Copy, Debug, PartialEq, Eq)]
#[repr(C)]
pub struct ViewWalk {
    /// The offset of the next attribute, in bytes from the first one.
    pub at: usize,
    /// The shape that was looked up last.
    pub last: KeptShape,
    /// The one before it.
    pub before: KeptShape,
}

/// An attribute of a view (`struct nlp_item`).
#[derive(Clone, Copy, Debug, PartialEq, Eq)]
#[repr(C)]
pub struct Item {
    /// The kind, with its two flag bits.
    pub kind: u16,
    /// The shape that the table gives the kind.
    pub shape: ShapeNumbers,
    /// The value, as a part of the payload.
    pub value: Part,
    /// A view of the nest; one without attributes if the value is no nest.
    pub nest: View,
}

/// An attribute of a block, and where the next one is.
#[derive(Clone, Copy, Debug, PartialEq, Eq)]
pub(crate) struct Step {
    /// The kind, with its two flag bits.
    pub(crate) kind: u16,
    /// The size of the value in bytes.
    pub(crate) size: usize,
    /// The offset in the block at which the walk goes on.
    pub(crate) next: usize,
}

/// Reads the next attribute of a view, with the shape that the table gives its kind, and moves the
/// walk past it.
///
/// Returns 0; `END` at the end of the view; `NO_PLACE` if the view is not inside the payload; and
/// `WRONG_SHAPE` if there is no attribute, or its value does not have the shape of its kind. The last
/// is never so in a walk that all zeros began and only this function moved, over a view that a
/// function of this library wrote for this payload. The shape is the one of the table if what the walk
/// keeps was kept for this view. Changes `walk` and `item` only if it returns 0. Equals
/// `Attributes::next`. Does not allocate.
#[unsafe(no_mangle)]
pub extern "C" fn nlp_view_next(
    payload: &[u8],
    view: &View,
    walk: &mut ViewWalk,
    item: &mut Item,
) -> u32
    ensures outside { is_inside view.now.attributes (length payload.now) ≡ false → result ≡ NO_PLACE }
    ensures end { is_inside view.now.attributes (length payload.now) ≡ true
        → ((result ≡ END) ↔ (view.now.attributes.size ≤ walk.old.at)) }
    ensures item { result ≡ 0 → IsItemAt payload.now view.now walk.old.at item.new walk.new.at }
    ensures typed { result ≡ 0 → AreKept (scope_of ⟦<Tables as Table>⟧ payload.now view.now) view.now.policy walk.old
        → IsTyped ⟦<Tables as Table>⟧ payload.now view.now item.new }
    ensures refuses { result ≡ WRONG_SHAPE → IsMisfit ⟦<Tables as Table>⟧ payload.now view.now walk.old }
    ensures outcome { (result ≡ 0) ⊎ (result ≡ END) ⊎ (result ≡ NO_PLACE) ⊎ (result ≡ WRONG_SHAPE) }
    ensures walks { IsWalkOf ⟦<Tables as Table>⟧ payload.now view.now walk.old
        → (result ≡ 0) ⊎ (result ≡ END) }
    ensures again { IsWalkOf ⟦<Tables as Table>⟧ payload.now view.now walk.old → result ≡ 0
        → IsWalkOf ⟦<Tables as Table>⟧ payload.now view.now walk.new × IsViewOf ⟦<Tables as Table>⟧ payload.now item.new.nest }
    ensures begins { IsViewOf ⟦<Tables as Table>⟧ payload.now view.now
        → IsWalkOf ⟦<Tables as Table>⟧ payload.now view.now no_walk }
    ensures unchanged { result ≢ 0 → (walk.new ≡ walk.old) × (item.new ≡ item.old) }
{
    begun(payload, view);
    let Some(block) = block_in(payload, view) else {
        return NO_PLACE;
    };
    let at = walk.at;
    if at >= block.len() {
        return END;
    }
    let Some(step) = step_at(block, at) else {
        return WRONG_SHAPE;
    };
    let start = at + NLA_HEADER_SIZE;
    let value = &block[start..start + step.size];
    let mut next = *walk;
    let shape = walked_shape(
        rows_of(view.message_type),
        view.policy,
        block,
        step.kind,
        &mut next,
    );
    if !has_shape(shape, value) {
        return WRONG_SHAPE;
    }
    let offset = view.attributes.offset + start;
    let size = step.size;
    next.at = step.next;
    *item = item_of(view.message_type, step.kind, shape, Part { offset, size });
    *walk = next;
    OK
}

/// A law: all zeros begin a walk over a view of the payload. Does nothing at run time.
fn begun(payload: &[u8], view: &View)
    ensures { IsViewOf ⟦<Tables as Table>⟧ payload.now view.now
        → IsWalkOf ⟦<Tables as Table>⟧ payload.now view.now no_walk }
{}

/// Reads the attribute at an offset of a block. Returns `None` if there is none.
fn step_at(block: &[u8], at: usize) -> Option<Step>
    requires inside { at < length block.now }
    ensures some { IfSome result (λ step. Starts (drop at block.now)
        (attribute_with step.kind (slice_range block.now (at + 4) (at + 4 + step.size))) (drop step.next block.now)) }
    ensures inside { IfSome result (λ step. at + 4 + step.size ≤ length block.now) }
    ensures forward { IfSome result (λ step. (at < step.next) × (step.next ≤ length block.now)) }
    ensures none { IfNone result ((e : DecodeError) × IsFault (drop at block.now) e) }
{
    let Ok(nla) = NlaBuffer::new_checked(&block[at..]) else {
        return None;
    };
    let kind = nla.raw_kind();
    let size = nla.value_length();
    let next = past(block, at, nla_align(nla.length() as usize));
    Some(Step { kind, size, next })
}

/// Returns the offset past the `size` bytes at `at`, or the end of the block if that comes first.
#[tactic(auto, using(std::proofs::lemmas::List::drop_all))]
fn past(block: &[u8], at: usize, size: usize) -> usize
    requires inside { (at < length block.now) × (0 < size) }
    ensures rest { drop result block.now ≡ drop size (drop at block.now) }
    ensures forward { (at < result) × (result ≤ length block.now) }
{
    if size < block.len() - at {
        at + size
    } else {
        block.len()
    }
}

/// Returns the attribute of a view whose value is this part of the payload.
fn item_of(message_type: u16, kind: u16, shape: Shape, value: Part) -> Item
    requires start { nest_start shape ≤ value.size }
    requires inside { value.offset + value.size < 2 ^ 64 }
    ensures { result ≡ record { kind = kind; shape = shape_numbers shape; value = value; nest = item_nest message_type shape value } }
{
    let nest = match policy_of(shape) {
        Some(policy) => nest_view(message_type, policy, shape, value),
        None => empty_view(message_type, value.offset),
    };
    Item {
        kind,
        shape: shape_numbers(shape),
        value,
        nest,
    }
}

/// Returns a view without attributes.
fn empty_view(message_type: u16, offset: usize) -> View
    ensures { result ≡ empty_view message_type offset }
{
    let nothing = Part { offset, size: 0 };
    View {
        message_type,
        policy: TOP,
        missing: 0,
        header: nothing,
        attributes: nothing,
    }
}

/// Returns the shape of a kind in a policy, among the attributes of a block. Keeps in `walk` what an
/// attribute chose.
fn walked_shape(rows: Rows, policy: u16, block: &[u8], kind: u16, walk: &mut ViewWalk) -> Shape
    ensures shape { AreKept (within (rows_in rows.list.now) block.now) policy walk.old
        → result ≡ shape_among (within (rows_in rows.list.now) block.now) policy kind }
    ensures kept { AreKept (within (rows_in rows.list.now) block.now) policy walk.old
        → AreKept (within (rows_in rows.list.now) block.now) policy walk.new }
{
    let row = row_shape(rows, policy, kind);
    match row {
        Shape::Chosen { .. } | Shape::ChosenByNumber { .. } => {
            walked_choice(rows, policy, block, row, walk)
        }
        _ => row,
    }
}

/// Returns the shape that an attribute of the block chooses. Walks the block only if `walk` does not
/// keep it, and then keeps it.
#[tactic(auto, using(crate::proofs::Items::kept_new))]
fn walked_choice(rows: Rows, policy: u16, block: &[u8], row: Shape, walk: &mut ViewWalk) -> Shape
    ensures shape { AreKept (within (rows_in rows.list.now) block.now) policy walk.old
        → result ≡ resolved (within (rows_in rows.list.now) block.now) policy row }
    ensures kept { AreKept (within (rows_in rows.list.now) block.now) policy walk.old
        → AreKept (within (rows_in rows.list.now) block.now) policy walk.new }
{
    if let Some(shape) = kept_shape(&walk.last, row) {
        return shape;
    }
    if let Some(shape) = kept_shape(&walk.before, row) {
        return shape;
    }
    let shape = resolved(rows, policy, block, row);
    walk.before = walk.last;
    walk.last = keep(row, shape);
    shape
}

/// Returns what a walk keeps for the shape of a row: the shape that was chosen for it.
fn keep(row: Shape, shape: Shape) -> KeptShape
    ensures row { (other : Shape) → row_of result ≡ Some other → other ≡ row }
    ensures shape { result.shape ≡ shape_numbers shape }
{
    let (kept, by, policy) = match row {
        Shape::Chosen { by, policy } => (1, by, policy),
        Shape::ChosenByNumber { by, policy } => (2, by, policy),
        _ => (0, 0, 0),
    };
    KeptShape {
        kept,
        by,
        policy,
        shape: shape_numbers(shape),
    }
}

/// Returns the shape that was kept for the shape of a row, if this is that of the row.
fn kept_shape(kept: &KeptShape, row: Shape) -> Option<Shape>
    ensures { IfSome result (λ shape. (row_of kept.now ≡ Some row) × (shape_from kept.now.shape ≡ Some shape)) }
{
    let (chosen, by, policy) = match row {
        Shape::Chosen { by, policy } => (1, by, policy),
        Shape::ChosenByNumber { by, policy } => (2, by, policy),
        _ => return None,
    };
    if kept.kept != chosen || kept.by != by || kept.policy != policy {
        return None;
    }
    shape_from(kept.shape)
}
