//! Tests of `netlink_json` and `netlink_objects` through their public functions.
//!
//! They are in a separate crate because a crate with tests is proved twice, with and without them.
#![tactic(auto)]

#[cfg(test)]
mod tests;
