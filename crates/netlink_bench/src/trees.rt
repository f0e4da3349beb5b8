//! Datagrams of several frames, and trees of attributes.

use crate::output::hand_out;
use netlink_packet_core::DecodeError;
use netlink_tree::{Frames, append_frame, read_tree, write_tree};
use std::alloc::Global;

/// Appends each frame of a datagram to a new one. Returns its size.
#[unsafe(no_mangle)]
pub extern "C" fn frames_append(alloc: Global, datagram: &[u8]) -> usize {
    appended(alloc, datagram).map_or(0, |bytes| bytes.len())
}

/// Writes a datagram to which each frame of another was appended.
#[unsafe(no_mangle)]
pub extern "C" fn frames_append_output(alloc: Global, datagram: &[u8], out: &mut [u8]) -> usize {
    appended(alloc, datagram).map_or(0, |bytes| hand_out(bytes, out))
}

/// Not inlined, so that `append_frame` has one caller here, as in most programs.
#[inline(never)]
fn appended(alloc: Global, datagram: &[u8]) -> Result<Vec<u8>, DecodeError> {
    let mut copy = Vec::new(alloc);
    for item in Frames::new(datagram) {
        append_frame(alloc, &mut copy, item?)?;
    }
    Ok(copy)
}

/// Reads a block as trees and drops them. Returns the number of outer attributes.
#[unsafe(no_mangle)]
pub extern "C" fn trees_read(alloc: Global, block: &[u8]) -> usize {
    read_tree(alloc, block).map_or(0, |trees| trees.len())
}

/// Reads a block as trees, and writes them. Returns the size of what was written.
#[unsafe(no_mangle)]
pub extern "C" fn trees_rewrite(alloc: Global, block: &[u8]) -> usize {
    match read_tree(alloc, block) {
        Ok(trees) => write_tree(alloc, &trees).map_or(0, |bytes| bytes.len()),
        Err(_) => 0,
    }
}

/// Reads a block as trees, and writes them.
#[unsafe(no_mangle)]
pub extern "C" fn trees_output(alloc: Global, block: &[u8], out: &mut [u8]) -> usize {
    match read_tree(alloc, block) {
        Ok(trees) => write_tree(alloc, &trees).map_or(0, |bytes| hand_out(bytes, out)),
        Err(_) => 0,
    }
}
