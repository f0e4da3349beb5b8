//! One export for each call whose instructions `bench/calls` counts.
//!
//! An export takes the bytes that it works on, and returns a number that depends on the result. If
//! it rejects the bytes, it returns 0 or the number of the error. The exports have no contracts of
//! their own: they are only proved to be safe and to return.
#![tactic(auto)]

mod attributes;
mod growth;
mod look;
mod messages;
mod output;
mod raw;
mod route;
mod trees;
