//! Datagrams and trees.

use crate::tests::attributes::SHORT;
use crate::tests::datagrams::DATAGRAM;
use crate::tests::mark::refuse_from_here;
use crate::tests::messages::PING;
use crate::tests::refusals::refuses;
use netlink_packet_core::DecodeError;
use netlink_tree::{
    Frames, NlaTree, TreeFault, append_frame, frames_fault, is_well_formed, read_tree, write_tree,
};
use std::alloc::Global;
use std::test::Fail;

/// A frame goes into a datagram with room for it.
#[test]
fn frames_of_a_datagram(rt: HostRuntime) -> Result<(), Fail> {
    let alloc = rt.alloc();
    let mut datagram = Vec::with_capacity(alloc, 24)?;
    refuse_from_here(alloc);
    let mut frames = Frames::new(&DATAGRAM);
    assert!(rt; is_next(&mut frames, &PING));
    assert!(rt; is_next(&mut frames, &DATAGRAM[20..37]));
    assert!(rt; frames.next().is_none());
    assert!(rt; fault_number(&DATAGRAM).is_none() && fault_number(&SHORT) == Some(9));
    assert!(rt; append(alloc, &mut datagram, &PING).is_ok());
    assert!(rt; datagram.as_slice() == PING.as_slice());
    assert!(rt; refuses(append(alloc, &mut datagram, &PING[..4]), 9));
    assert!(rt; datagram.as_slice() == PING.as_slice());
    Ok(())
}

/// Returns whether the next frame is this one.
fn is_next(frames: &mut Frames<&[u8]>, wanted: &[u8]) -> bool {
    matches!(frames.next(), Some(Ok(frame)) if frame == wanted)
}

/// Returns the number of the error of a datagram.
fn fault_number(datagram: &[u8]) -> Option<u8> {
    match frames_fault(datagram) {
        Some(fault) => Some(fault.number()),
        None => None,
    }
}

/// Appends a frame to a datagram whose size is a multiple of four.
pub(crate) fn append(
    alloc: Global,
    datagram: &mut Vec<u8>,
    frame: &[u8],
) -> Result<(), DecodeError> {
    match datagram.len() % 4 {
        0 => append_frame(alloc, datagram, frame),
        _ => Err(DecodeError::TooLong),
    }
}

/// Returns seventeen nests inside one another.
fn deep(alloc: Global) -> Result<Vec<NlaTree>, Fail> {
    let mut deep = Vec::new(alloc);
    for _ in 0..17 {
        let children = deep;
        deep = Vec::with_capacity(alloc, 1)?;
        deep.push(NlaTree::Nest {
            kind: 0x8001,
            children,
        })?;
    }
    Ok(deep)
}

/// Returns a leaf with a value that no length field counts.
fn long(alloc: Global) -> Result<Vec<NlaTree>, Fail> {
    let mut long = Vec::with_capacity(alloc, 1)?;
    let value = vec![in alloc; 9; 65532]?;
    long.push(NlaTree::Leaf { kind: 1, value })?;
    Ok(long)
}

#[test]
fn trees_that_are_refused(rt: HostRuntime) -> Result<(), Fail> {
    let alloc = rt.alloc();
    let deep = deep(alloc)?;
    let long = long(alloc)?;
    refuse_from_here(alloc);
    assert!(rt; matches!(written(alloc, &deep), Some(Err(TreeFault::TooDeep))));
    assert!(rt; matches!(written(alloc, &long), Some(Err(TreeFault::TooLong))));
    assert!(rt; read_tree(alloc, &[])?.is_empty());
    Ok(())
}

/// Encodes trees, if they are well-formed.
pub(crate) fn written(alloc: Global, trees: &[NlaTree]) -> Option<Result<Vec<u8>, TreeFault>> {
    if !is_well_formed(trees) {
        return None;
    }
    Some(write_tree(alloc, trees))
}
