//! The tests of `netlink_packet_core`, of its public functions: messages, views, bodies, frames.
//!
//! They are a separate crate because a crate that has tests is proved twice, with them and without.
#![tactic(auto)]

#[cfg(test)]
mod tests;
