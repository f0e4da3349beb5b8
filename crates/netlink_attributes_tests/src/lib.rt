//! The tests of `netlink_attributes`, of its public functions: attributes, walks over them, blocks.
//!
//! They are a separate crate because a crate that has tests is proved twice, with them and without.
#![tactic(auto)]

#[cfg(test)]
mod tests;
