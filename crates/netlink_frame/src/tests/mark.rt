//! The marker after which a test must not allocate.

use std::alloc::Global;

/// The size of the allocation that is the marker.
const MARK: usize = 7_654_321;

/// Makes the allocation that is the marker. If `tests/memory` runs the test, this allocation and
/// every later one fail. Otherwise it has no effect.
pub(crate) fn refuse_from_here(alloc: Global) {
    let _ = Vec::<u8>::with_capacity(alloc, MARK);
}
