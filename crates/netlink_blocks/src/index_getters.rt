//! The getters of a block with the places of its attributes, with the contracts of those of
//! `BlockView`.

ghost use Rattle.std.specs.Prelude.{◌≡◌, ◌≤◌, None, Some, IfNone, IfSome, length};
ghost use Rattle.netlink_blocks.specs.Finding.{bytes_by, exact_by, found_at, i32_by, ip_by, least_by, nest_by, policy_by, shape_at, str_by, u16_by, u32_by, u64_by, u8_by};
ghost use Rattle.netlink_shapes.specs.declared.shape.Shape.TheVariants.{ExactLen};

use crate::block_index::BlockIndex;
use crate::block_view::BlockView;
use netlink_shapes::decoders::{bytes_until_nul, i32_in, u16_in, u32_in, u64_in};
use netlink_shapes::shape::{Shape, nest_block, policy_of};

impl<'a> BlockIndex<'a> {
    /// Returns a view of the attributes in the first attribute of this kind. Returns `None` if and
    /// only if there is no such attribute or the table gives the kind another shape than `Nested`
    /// and `HeaderNested`.
    #[tactic(auto, using(netlink_shapes::specs::NestLaws::nest_shaped, crate::specs::FindingLaws::nest_none))]
    pub fn nest(&self, kind: u16) -> Option<BlockView<'a>>
        ensures some { IfSome result (λ v. nest_by (shape_at self.now.view kind) (found_at self.now.view kind) ≡ Some v.block.now) }
        ensures none { IfNone result (nest_by (shape_at self.now.view kind) (found_at self.now.view kind) ≡ None) }
        ensures policy { IfSome result (λ v. v.policy ≡ policy_by (shape_at self.now.view kind)) }
        ensures rows { IfSome result (λ v. v.rows.list.now ≡ self.now.view.rows.list.now) }
    {
        let shape = self.shape_if_placed(kind)?;
        match policy_of(shape) {
            Some(policy) => Some(BlockView {
                rows: self.view.rows,
                policy,
                block: nest_block(shape, self.first(kind)?),
            }),
            None => None,
        }
    }

    /// Returns the value of the first attribute of this kind. Returns `None` if and only if there
    /// is no such attribute or the table gives the kind another shape than `U8`.
    #[tactic(auto, using(crate::specs::FindingLaws::u8_size, crate::specs::FindingLaws::u8_none))]
    pub fn u8(&self, kind: u16) -> Option<u8>
        ensures { result ≡ u8_by (shape_at self.now.view kind) (found_at self.now.view kind) }
    {
        match self.shape_if_placed(kind)? {
            Shape::U8 => Some(self.first(kind)?[0]),
            _ => None,
        }
    }

    /// Returns the value of the first attribute of this kind. Returns `None` if and only if there
    /// is no such attribute or the table gives the kind another shape than `U16`.
    #[tactic(auto, using(crate::specs::FindingLaws::u16_size, crate::specs::FindingLaws::u16_none))]
    pub fn u16(&self, kind: u16) -> Option<u16>
        ensures { result ≡ u16_by (shape_at self.now.view kind) (found_at self.now.view kind) }
    {
        match self.shape_if_placed(kind)? {
            Shape::U16 => Some(u16_in(self.first(kind)?)),
            _ => None,
        }
    }

    /// Returns the value of the first attribute of this kind. Returns `None` if and only if there
    /// is no such attribute or the table gives the kind another shape than `U32`.
    #[tactic(auto, using(crate::specs::FindingLaws::u32_size, crate::specs::FindingLaws::u32_none))]
    pub fn u32(&self, kind: u16) -> Option<u32>
        ensures { result ≡ u32_by (shape_at self.now.view kind) (found_at self.now.view kind) }
    {
        match self.shape_if_placed(kind)? {
            Shape::U32 => Some(u32_in(self.first(kind)?)),
            _ => None,
        }
    }

    /// Returns the value of the first attribute of this kind. Returns `None` if and only if there
    /// is no such attribute or the table gives the kind another shape than `U64`.
    #[tactic(auto, using(crate::specs::FindingLaws::u64_size, crate::specs::FindingLaws::u64_none))]
    pub fn u64(&self, kind: u16) -> Option<u64>
        ensures { result ≡ u64_by (shape_at self.now.view kind) (found_at self.now.view kind) }
    {
        match self.shape_if_placed(kind)? {
            Shape::U64 => Some(u64_in(self.first(kind)?)),
            _ => None,
        }
    }

    /// Returns the value of the first attribute of this kind. Returns `None` if and only if there
    /// is no such attribute or the table gives the kind another shape than `I32`.
    #[tactic(auto, using(crate::specs::FindingLaws::i32_size, crate::specs::FindingLaws::i32_none))]
    pub fn i32(&self, kind: u16) -> Option<i32>
        ensures { result ≡ i32_by (shape_at self.now.view kind) (found_at self.now.view kind) }
    {
        match self.shape_if_placed(kind)? {
            Shape::I32 => Some(i32_in(self.first(kind)?)),
            _ => None,
        }
    }

    /// Returns the string in the first attribute of this kind, without its NUL. Returns `None` if
    /// and only if there is no such attribute or the table gives the kind another shape than `Str`
    /// and `NulStr`.
    #[tactic(auto, using(crate::specs::FindingLaws::str_none))]
    pub fn str_bytes(&self, kind: u16) -> Option<&'a [u8]>
        ensures some { IfSome result (λ v. str_by (shape_at self.now.view kind) (found_at self.now.view kind) ≡ Some v.now) }
        ensures none { IfNone result (str_by (shape_at self.now.view kind) (found_at self.now.view kind) ≡ None) }
    {
        match self.shape_if_placed(kind)? {
            Shape::NulStr | Shape::Str => Some(bytes_until_nul(self.first(kind)?)),
            _ => None,
        }
    }

    /// Returns the IP address in the first attribute of this kind, 4 or 16 bytes. Returns `None` if
    /// and only if there is no such attribute or the table gives the kind another shape than `Ip`.
    #[tactic(auto, using(crate::specs::FindingLaws::ip_none))]
    pub fn ip(&self, kind: u16) -> Option<&'a [u8]>
        ensures some { IfSome result (λ v. ip_by (shape_at self.now.view kind) (found_at self.now.view kind) ≡ Some v.now) }
        ensures none { IfNone result (ip_by (shape_at self.now.view kind) (found_at self.now.view kind) ≡ None) }
    {
        match self.shape_if_placed(kind)? {
            Shape::Ip => self.first(kind),
            _ => None,
        }
    }

    /// Returns the value of the first attribute of this kind. Returns `None` if and only if there
    /// is no such attribute or the table gives the kind another shape than `ExactLen`. The value has
    /// the number of bytes of that shape.
    #[tactic(auto, using(crate::specs::FindingLaws::exact_none, crate::specs::FindingLaws::exact_size))]
    pub fn exact(&self, kind: u16) -> Option<&'a [u8]>
        ensures some { IfSome result (λ v. exact_by (shape_at self.now.view kind) (found_at self.now.view kind) ≡ Some v.now) }
        ensures none { IfNone result (exact_by (shape_at self.now.view kind) (found_at self.now.view kind) ≡ None) }
        ensures size { IfSome result (λ v. shape_at self.now.view kind ≡ ExactLen (length v.now)) }
    {
        match self.shape_if_placed(kind)? {
            Shape::ExactLen(_) => self.first(kind),
            _ => None,
        }
    }

    /// Returns the value of the first attribute of this kind. Returns `None` if and only if there
    /// is no such attribute or the table gives the kind another shape than `Bytes` and `MinLen`. A
    /// value of the shape `MinLen` has at least the number of bytes of that shape.
    #[tactic(auto, using(crate::specs::FindingLaws::bytes_none, crate::specs::FindingLaws::least_size))]
    pub fn bytes(&self, kind: u16) -> Option<&'a [u8]>
        ensures some { IfSome result (λ v. bytes_by (shape_at self.now.view kind) (found_at self.now.view kind) ≡ Some v.now) }
        ensures none { IfNone result (bytes_by (shape_at self.now.view kind) (found_at self.now.view kind) ≡ None) }
        ensures least { IfSome result (λ v. least_by (shape_at self.now.view kind) ≤ length v.now) }
    {
        match self.shape_if_placed(kind)? {
            Shape::Bytes | Shape::MinLen(_) => self.first(kind),
            _ => None,
        }
    }
}
