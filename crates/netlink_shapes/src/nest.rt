//! Whether the attributes of a nest have their shapes.

ghost use Rattle.std.specs.Prelude.{◌≡◌, true};
ghost use Rattle.netlink_shapes.specs.Shapes.{is_block_shaped, is_shaped, rows_in};

use crate::attribute_error::rows_for;
use crate::choice::{NO_CHOICES, cached_own_shape};
use crate::rows::Rows;
use crate::shape::{Shape, has_shape, nest_block, policy_of};
use netlink_attributes::NlasIterator;

/// Returns whether a value has a shape that is already known. Nests in it may be `levels` deep.
#[inline(always)]
#[cycle(nests)]
pub(crate) fn is_shaped(levels: u8, rows: Rows, shape: Shape, value: &[u8]) -> bool
    ensures { result ≡ is_shaped levels (rows_in rows.list.now) shape value.now }
{
    if !has_shape(shape, value) {
        return false;
    }
    match policy_of(shape) {
        None => true,
        Some(inner) => {
            if levels == 0 {
                return false;
            }
            let block = nest_block(shape, value);
            if block.is_empty() {
                return true;
            }
            is_block_shaped(levels - 1, rows, inner, block)
        }
    }
}

/// Returns whether the attributes of a block have the shapes of a policy. `error_in` says which
/// does not; this keeps no offset and has no space for an error.
#[cycle(nests)]
fn is_block_shaped(levels: u8, rows: Rows, policy: u16, block: &[u8]) -> bool
    ensures { result ≡ is_block_shaped levels (rows_in rows.list.now) policy block.now }
{
    // Rows among which are all of the policy.
    let own = rows_for(rows, policy, block);
    let mut other = None;
    let mut choices = NO_CHOICES;
    for item in NlasIterator::new(block) {
        match item {
            Ok(nla) => {
                let shape = cached_own_shape(
                    rows,
                    own,
                    policy,
                    block,
                    nla.raw_kind(),
                    &mut other,
                    &mut choices,
                );
                if !is_shaped(levels, rows, shape, nla.value()) {
                    return false;
                }
            }
            Err(_) => return false,
        }
    }
    true
}
