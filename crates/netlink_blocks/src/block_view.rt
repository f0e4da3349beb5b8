//! A block of attributes, read in place.

ghost use Rattle.std.specs.Prelude.{◌≡◌, true, ⊤};
ghost use Rattle.netlink_shapes.specs.Shapes.{is_block_shaped, nest_levels, rows_in};

use netlink_shapes::rows::Rows;
use std::alloc::AllocError;

/// A view of a block of attributes in the received bytes. Each attribute has the shape of its kind
/// in one policy: that of a message or of a nest. No function checks a shape again, and none
/// allocates.
#[derive(Debug, PartialEq, Eq)]
pub struct BlockView<'a> {
    /// The rows of the family's table.
    pub rows: Rows,
    /// The policy that the attributes belong to; `TOP` for those of a message.
    pub policy: u16,
    /// The attributes, as received.
    pub block: &'a [u8],
    pub ghost shaped: { is_block_shaped nest_levels (rows_in rows.list.now) policy block.now ≡ true },
}

impl<'a> Clone for BlockView<'a> {
    ghost is_clone = { λ view copy. copy ≡ view };

    ghost is_infallible = { λ _. ⊤ };

    fn clone(&self) -> Result<Self, AllocError> {
        Ok(*self)
    }
}

impl<'a> Copy for BlockView<'a> {}
