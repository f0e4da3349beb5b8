//! The marker after which a test does not allocate.

use std::alloc::Global;

/// The size of the allocation that is the marker.
const MARK: usize = 7_654_321;

/// If `tests/memory` runs the test, this allocation and every later one fails. Otherwise this
/// changes nothing.
pub(crate) fn refuse_from_here(alloc: Global) {
    let _ = Vec::<u8>::with_capacity(alloc, MARK);
}
