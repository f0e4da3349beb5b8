//! The rows of a table, in their order.

ghost use Rattle.std.specs.Prelude.{◌≡◌, true, ⊤};
ghost use Rattle.netlink_shapes.specs.Shapes.{are_sorted, rows_in};

use crate::shape::Row;
use std::alloc::AllocError;

/// Rows of a table, in ascending order of policy, then kind, so that a row is found by binary search.
#[derive(Debug, PartialEq, Eq)]
pub struct Rows {
    /// The rows.
    pub list: &'static [Row],
    pub ghost sorted: { are_sorted (rows_in list.now) ≡ true },
}

impl Clone for Rows {
    ghost is_clone = { λ rows copy. copy ≡ rows };

    ghost is_infallible = { λ _. ⊤ };

    fn clone(&self) -> Result<Self, AllocError> {
        Ok(*self)
    }
}

impl Copy for Rows {}
