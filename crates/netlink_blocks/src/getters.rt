//! The getters of a block of attributes, the same for messages and nests.

ghost use Rattle.std.specs.Prelude.{◌≡◌, ◌↔◌, ◌≤◌, ◌<◌, [], None, Some, IfErr, IfNone, IfOk, IfSome, IsSome, IsSomeAnd, length, true};
ghost use Rattle.std.specs.Option.{option_map};
ghost use Rattle.std.specs.Slice.Iter.{chunks_exact_remainder, chunks_exact_rest, chunks_exact_size};
ghost use Rattle.std.specs.Str.{IsUtf8};
ghost use Rattle.netlink_attributes.specs.Steps.{unread};
ghost use Rattle.netlink_blocks.specs.Finding.{be16_by, be32_by, be64_by, be_i32_by, bytes_by, elements_by, error_as, exact_by, found_at, i32_by, i64_by, ip_by, least_by, nest_by, nest_header_by, policy_by, shape_at, str_by, u16_by, u32_by, u64_by, u8_by};
ghost use Rattle.netlink_shapes.specs.Shapes.{fits_in, nest_start, number_by, rows_in, shape_in, within};
ghost use Rattle.netlink_shapes.specs.Fitting.{AreShaped};
ghost use Rattle.netlink_shapes.specs.Listing.{first_of, listed};
ghost use Rattle.netlink_blocks.specs.Values.{NestHasRows, IsValueOf, value_shape};
ghost use Rattle.netlink_blocks.specs.declared.block_view.BlockView.{BlockView};
ghost use Rattle.netlink_shapes.specs.declared.shape.Shape.TheVariants.{ExactLen};

use crate::attributes::Attributes;
use crate::block_view::BlockView;
use crate::header_view::HeaderView;
use crate::value::{Value, value_in};
use netlink_attributes::NlasIterator;
use netlink_shapes::attribute_error::{AttributeError, error_in};
use netlink_shapes::choice::{NO_CHOICES, chosen_by, far_row_shape, near_shape, numbered_by};
use netlink_shapes::decoders::{
    be_i32_in, be16_in, be32_in, be64_in, bytes_until_nul, i32_in, i64_in, str_until_nul, u16_in,
    u32_in, u64_in,
};
use netlink_shapes::find::first_whole;
use netlink_shapes::shape::{NEST_LEVELS, Shape, nest_block, policy_of, row_shape};
use std::slice::ChunksExact;

impl<'a> BlockView<'a> {
    /// Returns the shape of this kind in the block. For a kind whose shape is `Chosen` or
    /// `ChosenByNumber`, that is the shape that the first attribute of the choosing kind chooses.
    #[inline(always)]
    pub fn shape(&self, kind: u16) -> Shape
        ensures { result ≡ shape_at self.now kind }
    {
        match near_shape(self.rows, self.policy, kind) {
            Some(shape) => shape,
            None => far_shape(self, kind),
        }
    }

    /// Returns the value of the first attribute of this kind as bytes, whatever its shape.
    pub fn first(&self, kind: u16) -> Option<&'a [u8]>
        ensures some { IfSome result (λ v. found_at self.now kind ≡ Some v.now) }
        ensures none { IfNone result (found_at self.now kind ≡ None) }
        ensures shaped { IfSome result (λ v. fits_in (within (rows_in self.now.rows.list.now) self.now.block.now) self.now.policy kind v.now ≡ true) }
    {
        are_shaped(self, self.block);
        first_whole(self.block, kind)
    }

    /// Returns the value of the first attribute of this kind. Returns `None` if and only if there
    /// is no such attribute.
    #[tactic(auto, using(netlink_shapes::specs::NestLaws::kind_has, netlink_shapes::specs::NestLaws::kind_nests))]
    pub fn value(&self, kind: u16) -> Option<Value<'a>>
        ensures some { IfSome result (λ v. IsSomeAnd (found_at self.now kind) (IsValueOf v)) }
        ensures none { IfNone result (found_at self.now kind ≡ None) }
        ensures shape { IfSome result (λ v. value_shape v ≡ shape_at self.now kind) }
        ensures nest { IfSome result (λ v. NestHasRows (rows_in self.now.rows.list.now) v) }
    {
        let bytes = self.first(kind)?;
        Some(value_in(self.rows, self.shape(kind), bytes))
    }

    /// Returns a view of the attributes in the first attribute of this kind. Returns `None` if and
    /// only if there is no such attribute or the table gives the kind another shape than `Nested`
    /// and `HeaderNested`.
    #[tactic(auto, using(netlink_shapes::specs::NestLaws::nest_shaped))]
    pub fn nest(&self, kind: u16) -> Option<BlockView<'a>>
        ensures some { IfSome result (λ v. nest_by (shape_at self.now kind) (found_at self.now kind) ≡ Some v.block.now) }
        ensures none { IfNone result (nest_by (shape_at self.now kind) (found_at self.now kind) ≡ None) }
        ensures policy { IfSome result (λ v. v.policy ≡ policy_by (shape_at self.now kind)) }
        ensures rows { IfSome result (λ v. v.rows.list.now ≡ self.now.rows.list.now) }
    {
        let shape = self.shape(kind);
        match policy_of(shape) {
            Some(policy) => Some(BlockView {
                rows: self.rows,
                policy,
                block: nest_block(shape, self.first(kind)?),
            }),
            None => None,
        }
    }

    /// Checks the value of the first attribute of this kind as attributes of `policy`, and returns a
    /// view of them, or `None` if there is no such attribute. It is for a kind to which no table can
    /// give a policy, because that depends on the message's header, an outer block or the request;
    /// such a kind has the shape `Bytes`. The shape that the table gives the kind does not matter.
    ///
    /// Returns the first error of these attributes, with its offset in bytes from the start of the
    /// value. At most eight nests may be inside one another there.
    #[tactic(auto, using(crate::specs::FindingLaws::nest_checked))]
    pub fn nest_as(&self, kind: u16, policy: u16) -> Result<Option<BlockView<'a>>, AttributeError>
        ensures ok { IfOk result (λ nest. option_map (λ (v : BlockView). v.block.now) nest ≡ found_at self.now kind) }
        ensures good { IfOk result (λ _. error_as (rows_in self.now.rows.list.now) policy (found_at self.now kind) ≡ None) }
        ensures error { IfErr result (λ e. error_as (rows_in self.now.rows.list.now) policy (found_at self.now kind) ≡ Some e) }
        ensures policy { IfOk result (λ nest. IfSome nest (λ v. v.policy ≡ policy)) }
        ensures rows { IfOk result (λ nest. IfSome nest (λ v. v.rows.list.now ≡ self.now.rows.list.now)) }
    {
        let Some(block) = self.first(kind) else {
            return Ok(None);
        };
        if let Some(error) = error_in(NEST_LEVELS, self.rows, policy, block.len(), block) {
            return Err(error);
        }
        Ok(Some(BlockView {
            rows: self.rows,
            policy,
            block,
        }))
    }

    /// Returns the header of the nest in the first attribute of this kind. Returns `None` if and
    /// only if there is no such attribute or the table gives the kind another shape than
    /// `HeaderNested`.
    #[tactic(auto, using(netlink_shapes::specs::NestLaws::header_inside))]
    pub fn nest_header(&self, kind: u16) -> Option<HeaderView<'a>>
        ensures some { IfSome result (λ v. nest_header_by (shape_at self.now kind) (found_at self.now kind) ≡ Some v.bytes.now) }
        ensures none { IfNone result (nest_header_by (shape_at self.now kind) (found_at self.now kind) ≡ None) }
        ensures size { IfSome result (λ v. length v.bytes.now ≡ nest_start (shape_at self.now kind)) }
    {
        match self.shape(kind) {
            Shape::HeaderNested { size, .. } => Some(HeaderView {
                bytes: &self.first(kind)?[..size as usize],
                missing: 0,
            }),
            _ => None,
        }
    }

    /// Returns the value of the first attribute of this kind. Returns `None` if and only if there
    /// is no such attribute or the table gives the kind another shape than `U8`.
    #[tactic(auto, using(crate::specs::FindingLaws::u8_size))]
    pub fn u8(&self, kind: u16) -> Option<u8>
        ensures { result ≡ u8_by (shape_at self.now kind) (found_at self.now kind) }
    {
        match self.shape(kind) {
            Shape::U8 => Some(self.first(kind)?[0]),
            _ => None,
        }
    }

    /// Returns the value of the first attribute of this kind. Returns `None` if and only if there
    /// is no such attribute or the table gives the kind another shape than `U16`.
    #[tactic(auto, using(crate::specs::FindingLaws::u16_size))]
    pub fn u16(&self, kind: u16) -> Option<u16>
        ensures { result ≡ u16_by (shape_at self.now kind) (found_at self.now kind) }
    {
        match self.shape(kind) {
            Shape::U16 => Some(u16_in(self.first(kind)?)),
            _ => None,
        }
    }

    /// Returns the value of the first attribute of this kind. Returns `None` if and only if there
    /// is no such attribute or the table gives the kind another shape than `U32`.
    #[tactic(auto, using(crate::specs::FindingLaws::u32_size))]
    pub fn u32(&self, kind: u16) -> Option<u32>
        ensures { result ≡ u32_by (shape_at self.now kind) (found_at self.now kind) }
    {
        match self.shape(kind) {
            Shape::U32 => Some(u32_in(self.first(kind)?)),
            _ => None,
        }
    }

    /// Returns the value of the first attribute of this kind. Returns `None` if and only if there
    /// is no such attribute or the table gives the kind another shape than `U64`.
    #[tactic(auto, using(crate::specs::FindingLaws::u64_size))]
    pub fn u64(&self, kind: u16) -> Option<u64>
        ensures { result ≡ u64_by (shape_at self.now kind) (found_at self.now kind) }
    {
        match self.shape(kind) {
            Shape::U64 => Some(u64_in(self.first(kind)?)),
            _ => None,
        }
    }

    /// Returns the value of the first attribute of this kind. Returns `None` if and only if there
    /// is no such attribute or the table gives the kind another shape than `I32`.
    #[tactic(auto, using(crate::specs::FindingLaws::i32_size))]
    pub fn i32(&self, kind: u16) -> Option<i32>
        ensures { result ≡ i32_by (shape_at self.now kind) (found_at self.now kind) }
    {
        match self.shape(kind) {
            Shape::I32 => Some(i32_in(self.first(kind)?)),
            _ => None,
        }
    }

    /// Returns the value of the first attribute of this kind. Returns `None` if and only if there
    /// is no such attribute or the table gives the kind another shape than `I64`.
    #[tactic(auto, using(crate::specs::FindingLaws::i64_size))]
    pub fn i64(&self, kind: u16) -> Option<i64>
        ensures { result ≡ i64_by (shape_at self.now kind) (found_at self.now kind) }
    {
        match self.shape(kind) {
            Shape::I64 => Some(i64_in(self.first(kind)?)),
            _ => None,
        }
    }

    /// Returns the value of the first attribute of this kind. Returns `None` if and only if there
    /// is no such attribute or the table gives the kind another shape than `Be16`.
    #[tactic(auto, using(crate::specs::FindingLaws::be16_size))]
    pub fn be16(&self, kind: u16) -> Option<u16>
        ensures { result ≡ be16_by (shape_at self.now kind) (found_at self.now kind) }
    {
        match self.shape(kind) {
            Shape::Be16 => Some(be16_in(self.first(kind)?)),
            _ => None,
        }
    }

    /// Returns the value of the first attribute of this kind. Returns `None` if and only if there
    /// is no such attribute or the table gives the kind another shape than `Be32`.
    #[tactic(auto, using(crate::specs::FindingLaws::be32_size))]
    pub fn be32(&self, kind: u16) -> Option<u32>
        ensures { result ≡ be32_by (shape_at self.now kind) (found_at self.now kind) }
    {
        match self.shape(kind) {
            Shape::Be32 => Some(be32_in(self.first(kind)?)),
            _ => None,
        }
    }

    /// Returns the value of the first attribute of this kind. Returns `None` if and only if there
    /// is no such attribute or the table gives the kind another shape than `Be64`.
    #[tactic(auto, using(crate::specs::FindingLaws::be64_size))]
    pub fn be64(&self, kind: u16) -> Option<u64>
        ensures { result ≡ be64_by (shape_at self.now kind) (found_at self.now kind) }
    {
        match self.shape(kind) {
            Shape::Be64 => Some(be64_in(self.first(kind)?)),
            _ => None,
        }
    }

    /// Returns the value of the first attribute of this kind. Returns `None` if and only if there
    /// is no such attribute or the table gives the kind another shape than `BeI32`.
    #[tactic(auto, using(crate::specs::FindingLaws::be_i32_size))]
    pub fn be_i32(&self, kind: u16) -> Option<i32>
        ensures { result ≡ be_i32_by (shape_at self.now kind) (found_at self.now kind) }
    {
        match self.shape(kind) {
            Shape::BeI32 => Some(be_i32_in(self.first(kind)?)),
            _ => None,
        }
    }

    /// Returns the string in the first attribute of this kind, without its NUL. Returns `None` if
    /// and only if there is no such attribute or the table gives the kind another shape than `Str`
    /// and `NulStr`.
    pub fn str_bytes(&self, kind: u16) -> Option<&'a [u8]>
        ensures some { IfSome result (λ v. str_by (shape_at self.now kind) (found_at self.now kind) ≡ Some v.now) }
        ensures none { IfNone result (str_by (shape_at self.now kind) (found_at self.now kind) ≡ None) }
    {
        match self.shape(kind) {
            Shape::NulStr | Shape::Str => Some(bytes_until_nul(self.first(kind)?)),
            _ => None,
        }
    }

    /// Returns the string in the first attribute of this kind as a `str`, without its NUL. Returns
    /// `None` if and only if `str_bytes` does or the string is not UTF-8.
    pub fn str(&self, kind: u16) -> Option<&'a str>
        ensures some { IfSome result (λ v. str_by (shape_at self.now kind) (found_at self.now kind) ≡ Some v.now) }
        ensures utf8 { IsSome result ↔ IsSomeAnd (str_by (shape_at self.now kind) (found_at self.now kind)) IsUtf8 }
    {
        match self.shape(kind) {
            Shape::NulStr | Shape::Str => str_until_nul(self.first(kind)?),
            _ => None,
        }
    }

    /// Returns the IP address in the first attribute of this kind, 4 or 16 bytes. Returns `None` if
    /// and only if there is no such attribute or the table gives the kind another shape than `Ip`.
    pub fn ip(&self, kind: u16) -> Option<&'a [u8]>
        ensures some { IfSome result (λ v. ip_by (shape_at self.now kind) (found_at self.now kind) ≡ Some v.now) }
        ensures none { IfNone result (ip_by (shape_at self.now kind) (found_at self.now kind) ≡ None) }
    {
        match self.shape(kind) {
            Shape::Ip => self.first(kind),
            _ => None,
        }
    }

    /// Returns the value of the first attribute of this kind. Returns `None` if and only if there
    /// is no such attribute or the table gives the kind another shape than `ExactLen`. The value has
    /// the number of bytes of that shape.
    #[tactic(auto, using(crate::specs::FindingLaws::exact_size))]
    pub fn exact(&self, kind: u16) -> Option<&'a [u8]>
        ensures some { IfSome result (λ v. exact_by (shape_at self.now kind) (found_at self.now kind) ≡ Some v.now) }
        ensures none { IfNone result (exact_by (shape_at self.now kind) (found_at self.now kind) ≡ None) }
        ensures size { IfSome result (λ v. shape_at self.now kind ≡ ExactLen (length v.now)) }
    {
        match self.shape(kind) {
            Shape::ExactLen(_) => self.first(kind),
            _ => None,
        }
    }

    /// Returns the value of the first attribute of this kind. Returns `None` if and only if there
    /// is no such attribute or the table gives the kind another shape than `Bytes` and `MinLen`. A
    /// value of the shape `MinLen` has at least the number of bytes of that shape.
    #[tactic(auto, using(crate::specs::FindingLaws::least_size))]
    pub fn bytes(&self, kind: u16) -> Option<&'a [u8]>
        ensures some { IfSome result (λ v. bytes_by (shape_at self.now kind) (found_at self.now kind) ≡ Some v.now) }
        ensures none { IfNone result (bytes_by (shape_at self.now kind) (found_at self.now kind) ≡ None) }
        ensures least { IfSome result (λ v. least_by (shape_at self.now kind) ≤ length v.now) }
    {
        match self.shape(kind) {
            Shape::Bytes | Shape::MinLen(_) => self.first(kind),
            _ => None,
        }
    }

    /// Returns an iterator over the elements in the first attribute of this kind: the bytes of each,
    /// of the size that the shape states. No byte is left after them. Returns `None` if and only if
    /// there is no such attribute or the table gives the kind another shape than `Elements`.
    #[tactic(auto, using(crate::specs::FindingLaws::element_size, crate::specs::FindingLaws::whole_elements, crate::specs::FindingLaws::nothing_left))]
    pub fn elements(&self, kind: u16) -> Option<ChunksExact<'a, u8>>
        ensures some { IfSome result (λ v. elements_by (shape_at self.now kind) (found_at self.now kind) ≡ Some (chunks_exact_size v, chunks_exact_rest v)) }
        ensures none { IfNone result (elements_by (shape_at self.now kind) (found_at self.now kind) ≡ None) }
        ensures size { IfSome result (λ v. 0 < chunks_exact_size v) }
        ensures whole { IfSome result (λ v. chunks_exact_remainder v ≡ []) }
    {
        match self.shape(kind) {
            Shape::Elements(size) => Some(self.first(kind)?.chunks_exact(usize::from(size))),
            _ => None,
        }
    }

    /// Returns an iterator over the attributes: the kind and the value of each.
    pub fn attributes(&self) -> Attributes<'a>
        ensures walk { unread result.walk ≡ self.now.block.now }
        ensures rows { result.rows.list.now ≡ self.now.rows.list.now }
        ensures policy { result.policy ≡ self.now.policy }
        ensures block { result.block ≡ self.now.block }
    {
        are_shaped(self, self.block);
        Attributes {
            walk: NlasIterator::new(self.block),
            rows: self.rows,
            policy: self.policy,
            block: self.block,
            other: None,
            choices: NO_CHOICES,
        }
    }
}

/// Returns the shape of a kind, as `BlockView::shape` does. Not inline, because a getter that has
/// these calls saves more registers, even if it makes none of them.
#[inline(never)]
fn far_shape(view: &BlockView<'_>, kind: u16) -> Shape
    ensures { result ≡ shape_at view.now kind }
{
    match far_row_shape(view.rows, view.policy, kind) {
        Shape::Chosen { by, policy } => {
            are_shaped(view, view.block);
            chosen_by(view.rows, policy, first_whole(view.block, by))
        }
        Shape::ChosenByNumber { by, policy } => chosen_number(view, by, policy),
        shape => shape,
    }
}

/// Returns the shape that the first attribute of a kind chooses from a policy, by its number.
fn chosen_number(view: &BlockView<'_>, kind: u16, policy: u16) -> Shape
    ensures { result ≡ number_by (rows_in view.now.rows.list.now) policy
        (shape_in (rows_in view.now.rows.list.now) view.now.policy kind) (first_of kind (listed view.now.block.now)) }
{
    are_shaped(view, view.block);
    let shape = row_shape(view.rows, view.policy, kind);
    numbered_by(view.rows, policy, shape, first_whole(view.block, kind))
}

/// A law: the attributes have the shapes of their kinds. Does nothing at run time.
pub(crate) fn are_shaped(view: &BlockView<'_>, block: &[u8])
    requires { block.now ≡ view.now.block.now }
    ensures { AreShaped (within (rows_in view.now.rows.list.now) view.now.block.now) view.now.policy block.now }
{}
