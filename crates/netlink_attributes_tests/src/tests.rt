//! Test cases for each public function, and the two tests of the Rust crate.

mod calls;
mod canonical;
mod cuts;
mod laws;
mod places;
mod views;
mod walks;
mod written;

/// Two attributes, (1, aa) and (2, 01020304).
pub(crate) const TWO: [u8; 16] = [5, 0, 1, 0, 0xaa, 0, 0, 0, 8, 0, 2, 0, 1, 2, 3, 4];
