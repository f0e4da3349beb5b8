//! The tests of `netlink_bytes`, of its public functions: integers, errors, strings, storage.
//!
//! They are a separate crate because a crate that has tests is proved twice, with them and without.
#![tactic(auto)]

#[cfg(test)]
mod tests;
