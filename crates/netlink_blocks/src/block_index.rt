//! A block of attributes with the place of the first attribute of each kind, for many lookups.

ghost use Rattle.std.specs.Prelude.{◌≡◌, ◌≢◌, ◌<◌, ◌≤◌, ◌*◌, ℕ, [], IfNone, IfSome, None, Some, drop, length, slice_index, true};
ghost use Rattle.netlink_attributes.specs.Views.{HoldsAttribute, attribute_of};
ghost use Rattle.netlink_blocks.specs.Finding.{found_at, shape_at};
ghost use Rattle.netlink_blocks.specs.Index.{ArePlaces};
ghost use Rattle.netlink_shapes.specs.Listing.{first_of, listed};
ghost use Rattle.netlink_shapes.specs.Shapes.{fits_in, rows_in, within};
ghost use Rattle.netlink_shapes.specs.Whole.{IsWhole};
ghost use Rattle.std.proofs.Props.{props};

use crate::block_view::BlockView;
use crate::getters::are_shaped;
use netlink_attributes::{NlaBuffer, nla_align};
use netlink_shapes::find::{attribute_at, first_value, first_whole};
use netlink_shapes::shape::Shape;

/// Kinds below this have a place.
const KINDS: usize = 64;

/// The offsets that a place can stand for are below this.
const REACH: usize = 4 * 65535;

/// A view of a block of attributes, with the place of the first attribute of each kind below 64, so
/// that a getter does not walk the block. `BlockView::indexed` makes it in one pass, which pays off if
/// several attributes are wanted. Does not allocate.
#[derive(Debug, Drop)]
pub struct BlockIndex<'a> {
    /// The block.
    pub view: BlockView<'a>,
    /// For each kind 0 if no attribute before the rest has it, else 1 more than a quarter of the
    /// offset of the first one that has it.
    places: [u16; 64],
    /// The attributes from the first one on whose offset is too large for a place; mostly none.
    pub rest: &'a [u8],
    ghost placed: { ArePlaces view.block.now rest.now places } by { Prim.hlevel props },
}

impl<'a> BlockView<'a> {
    /// Returns the view with the places of its attributes, for many lookups. Leaves no rest if the block
    /// has at most 262,140 bytes.
    pub fn indexed(&self) -> BlockIndex<'a>
        ensures view { result.view ≡ self.now }
        ensures rest { length self.now.block.now ≤ 4 * 65535 → result.rest.now ≡ [] }
    {
        are_shaped(self, self.block);
        let (places, end) = placed(self.block);
        BlockIndex {
            view: *self,
            places,
            rest: rest_from(self.block, end),
        }
    }
}

impl<'a> BlockIndex<'a> {
    /// Returns the value of the first attribute of this kind as bytes, whatever its shape.
    pub fn first(&self, kind: u16) -> Option<&'a [u8]>
        ensures some { IfSome result (λ v. found_at self.now.view kind ≡ Some v.now) }
        ensures none { IfNone result (found_at self.now.view kind ≡ None) }
        ensures shaped { IfSome result (λ v. fits_in (within (rows_in self.now.view.rows.list.now) self.now.view.block.now) self.now.view.policy kind v.now ≡ true) }
    {
        are_shaped(&self.view, self.view.block);
        first_placed(self, kind)
    }

    /// Returns the shape of this kind. Returns `None` if the places alone show that there is no such
    /// attribute, so that the shape of most missing kinds is not looked up.
    #[inline(always)]
    pub(crate) fn shape_if_placed(&self, kind: u16) -> Option<Shape>
        ensures some { IfSome result (λ shape. shape ≡ shape_at self.now.view kind) }
        ensures none { IfNone result (found_at self.now.view kind ≡ None) }
    {
        are_shaped(&self.view, self.view.block);
        if is_missing(self, kind) {
            return None;
        }
        Some(self.view.shape(kind))
    }
}

/// Returns the places of the attributes of a block, and the offset of the rest.
fn placed(block: &[u8]) -> ([u16; 64], usize)
    requires whole { IsWhole block.now }
    ensures places { ArePlaces block.now (drop result.1 block.now) result.0 }
    ensures end { length block.now ≤ 4 * 65535 → length block.now ≤ result.1 }
{
    let mut places = [0u16; KINDS];
    let mut at = 0;
    while at < block.len() && at < REACH {
        let nla = attribute_at(block, at);
        enter(&mut places, nla.kind(), (at / 4 + 1) as u16);
        at += nla_align(nla.length() as usize);
    }
    (places, at)
}

/// Enters the place of a kind, unless the kind has one.
#[inline(always)]
fn enter(places: &mut [u16; 64], kind: u16, place: u16)
    ensures others { (k : ℕ) → k ≢ kind → slice_index places.new k ≡ slice_index places.old k }
    ensures kept { (k : ℕ) → 0 < slice_index places.old k → slice_index places.new k ≡ slice_index places.old k }
    ensures own { kind < 64 → slice_index places.old kind ≡ 0 → slice_index places.new kind ≡ place }
{
    let row = kind as usize;
    if row < KINDS && places[row] == 0 {
        places[row] = place;
    }
}

/// Returns the bytes of a block from an offset on.
fn rest_from(block: &[u8], at: usize) -> &[u8]
    ensures rest { result.now ≡ drop at block.now }
    ensures none { length block.now ≤ at → result.now ≡ [] }
{
    if at < block.len() {
        return &block[at..];
    }
    &[]
}

/// Returns the value of the attribute at an offset in a block.
#[inline(always)]
fn value_at(block: &[u8], at: usize) -> &[u8]
    requires whole { HoldsAttribute (drop at block.now) }
    ensures { result.now ≡ (attribute_of (drop at block.now)).value }
{
    NlaBuffer::new(&block[at..]).value()
}

/// Returns the value of the first attribute of a kind, whatever its flag bits. A kind without a
/// place takes a walk.
#[inline(always)]
fn first_placed<'a>(index: &BlockIndex<'a>, kind: u16) -> Option<&'a [u8]>
    ensures some { IfSome result (λ v. first_of kind (listed index.now.view.block.now) ≡ Some v.now) }
    ensures none { IfNone result (first_of kind (listed index.now.view.block.now) ≡ None) }
{
    let row = kind as usize;
    if row >= KINDS {
        are_shaped(&index.view, index.view.block);
        return first_whole(index.view.block, kind);
    }
    let place = index.places[row] as usize;
    if place == 0 {
        return first_value(index.rest, kind);
    }
    Some(value_at(index.view.block, 4 * (place - 1)))
}

/// Returns whether the places alone show that no attribute has a kind: it has no place, and there is
/// no rest.
#[inline(always)]
fn is_missing(index: &BlockIndex<'_>, kind: u16) -> bool
    ensures { result ≡ true → first_of kind (listed index.now.view.block.now) ≡ None }
{
    let row = kind as usize;
    if row >= KINDS {
        return false;
    }
    index.places[row] == 0 && index.rest.is_empty()
}
