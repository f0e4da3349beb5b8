//! Datagrams of many frames, and trees of nested attributes.
//!
//! Proved from the public contracts and the specs of `netlink_packet_core` alone.
#![tactic(auto)]

mod fault;
mod frames;
pub mod laws;
mod read;
mod tree;
mod write;

pub use crate::fault::TreeFault;
pub use crate::frames::{Frames, append_frame, frames_fault};
pub use crate::read::read_tree;
pub use crate::tree::{NlaTree, is_well_formed};
pub use crate::write::write_tree;
