//! Test cases for each public function.

mod calls;
mod frames;
mod trees;
