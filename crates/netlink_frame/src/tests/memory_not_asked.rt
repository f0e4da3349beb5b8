//! Functions that do not allocate.
//!
//! `tests/memory` runs each test with every allocation failing, starting at its marker. The test
//! must pass, and allocate nothing after the marker.

pub(crate) mod above;
pub(crate) mod attributes;
mod messages;
mod views;
