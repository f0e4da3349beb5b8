//! Iteration over the attributes of a message or a nest.

ghost use Rattle.std.specs.Prelude.{◌≡◌};
ghost use Rattle.std.specs.Iterator.{at_most};
ghost use Rattle.netlink_attributes.specs.Steps.{item_bound, unread};
ghost use Rattle.netlink_shapes.specs.Shapes.{CachesOther, rows_in, within};
ghost use Rattle.netlink_shapes.specs.Choices.{AreChoices};
ghost use Rattle.netlink_blocks.specs.Iteration.{YieldsValue};
ghost use Rattle.netlink_shapes.specs.Fitting.{AreShaped};

use crate::value::{Value, value_in};
use netlink_attributes::NlasIterator;
use netlink_shapes::choice::{Choices, cached_shape_among};
use netlink_shapes::rows::Rows;
use netlink_shapes::shape::Shape;

/// An iterator over the attributes of a message or a nest, in order. It yields the kind and the
/// value of each. It does not check shapes again and does not allocate.
#[derive(Debug, Drop)]
pub struct Attributes<'a> {
    /// The rest of the walk.
    pub walk: NlasIterator<&'a [u8]>,
    /// The rows of the family's table.
    pub rows: Rows,
    /// The policy that the attributes belong to.
    pub policy: u16,
    /// All attributes of the block.
    pub block: &'a [u8],
    /// The shape of the kinds without a row, once it has been looked up.
    pub other: Option<Shape>,
    /// The last shapes that were chosen by a value.
    pub choices: Choices,
    pub ghost shaped: { ∥ AreShaped (within (rows_in rows.list.now) block.now) policy (unread walk) ∥₁ },
    pub ghost kept: { CachesOther (rows_in rows.list.now) policy other },
    pub ghost chosen: { AreChoices (within (rows_in rows.list.now) block.now) policy choices },
}

impl<'a> Iterator for Attributes<'a> {
    type Item = (u16, Value<'a>);

    ghost next_gives = { λ before item after.
        YieldsValue (within (rows_in before.rows.list.now) before.block.now) before.policy (unread before.walk) item
        (unread after.walk)
        × (after.rows ≡ before.rows) × (after.policy ≡ before.policy) × (after.block ≡ before.block) };

    ghost remaining = { λ all. at_most (item_bound (unread all.walk)) };

    #[inline(always)]
    fn next(&mut self) -> Option<(u16, Value<'a>)> {
        let item = self.walk.next()?;
        match item {
            Ok(nla) => {
                let kind = nla.raw_kind();
                let shape = cached_shape_among(
                    self.rows,
                    self.policy,
                    self.block,
                    kind,
                    &mut self.other,
                    &mut self.choices,
                );
                return Some((kind, value_in(self.rows, shape, nla.value())));
            }
            Err(_) => return None,
        }
    }
}
