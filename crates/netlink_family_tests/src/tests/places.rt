//! A message with the places of its attributes has the same getters as a view.

use crate::neighbours::{NDA_PROBES, NDA_VLAN, Neighbours, RTM_NEWNEIGH};
use crate::tables::{NDTA_PARMS, NeighbourTables};
use netlink_family::{MessageIndex, MessageView, Table};
use std::test::Fail;

const NEIGHBOUR: [u8; 76] = [
    2, 0, 0, 0, 3, 0, 0, 0, 2, 0, 0x80, 1, // AF_INET, link 3
    8, 0, 4, 0, 5, 0, 0, 0, // NDA_PROBES
    8, 0, 4, 0x80, 6, 0, 0, 0, // NDA_PROBES again
    10, 0, 2, 0, 2, 0, 0, 0, 0, 7, 9, 9, // NDA_LLADDR
    6, 0, 5, 0x40, 9, 0, 0, 0, // NDA_VLAN with NLA_F_NET_BYTEORDER
    4, 0, 63, 0, // the last kind that has a place
    5, 0, 64, 0, 1, 0, 0, 0, // the first that has none
    5, 0, 64, 0, 2, 0, 0, 0, // again
    8, 0, 1, 0, 10, 0, 0, 1, // NDA_DST
];

const TABLE: [u8; 32] = [
    2, 0, 0, 0, // AF_INET
    6, 0, 1, 0, b'a', 0, 0, 0, // NDTA_NAME
    12, 0, 6, 0x80, 8, 0, 1, 0, 3, 0, 0, 0, // NDTA_PARMS with NLA_F_NESTED: NDTPA_IFINDEX
    8, 0, 2, 0x40, 128, 0, 0, 0, // NDTA_THRESH1 with NLA_F_NET_BYTEORDER
];

/// Returns whether each getter of a kind returns what that of the view returns.
fn is_same<F: Table>(indexed: &MessageIndex<'_, F>, kind: u16) -> bool {
    let (found, view) = (indexed.index(), indexed.message.view());
    found.first(kind) == view.first(kind)
        && found.u8(kind) == view.u8(kind)
        && found.u16(kind) == view.u16(kind)
        && found.u32(kind) == view.u32(kind)
        && found.u64(kind) == view.u64(kind)
        && found.i32(kind) == view.i32(kind)
        && found.ip(kind) == view.ip(kind)
        && found.bytes(kind) == view.bytes(kind)
        && found.exact(kind) == view.exact(kind)
        && found.str_bytes(kind) == view.str_bytes(kind)
        && found.nest(kind) == view.nest(kind)
}

#[test]
fn places_find_what_a_walk_finds(rt: HostRuntime) -> Result<(), Fail> {
    let message = MessageView::<Neighbours>::new(RTM_NEWNEIGH, &NEIGHBOUR)?;
    let indexed = message.indexed();
    for kind in 0..80 {
        assert!(rt; is_same(&indexed, kind));
    }
    assert!(rt; indexed.index().u32(NDA_PROBES) == Some(5));
    assert!(rt; indexed.index().first(64) == Some([1].as_slice()));
    assert!(rt; indexed.header().bytes.len() == 12);
    let message = MessageView::<NeighbourTables>::new(64, &TABLE)?;
    let indexed = message.indexed();
    for kind in 0..80 {
        assert!(rt; is_same(&indexed, kind));
    }
    assert!(rt; indexed.index().nest(NDTA_PARMS).is_some());
    Ok(())
}

#[test]
fn attributes_too_far_for_a_place_are_found(rt: HostRuntime) -> Result<(), Fail> {
    let mut payload = Vec::new(rt.alloc());
    payload.extend_from_slice(&NEIGHBOUR[..12])?;
    let zeros = vec![in rt.alloc(); 0u8; 65528]?;
    for _ in 0..5 {
        payload.extend_from_slice(&[0xfc, 0xff, 100, 0])?;
        payload.extend_from_slice(zeros.as_slice())?;
    }
    payload.extend_from_slice(&NEIGHBOUR[12..])?;
    let message = MessageView::<Neighbours>::new(RTM_NEWNEIGH, payload.as_slice())?;
    let indexed = message.indexed();
    assert!(rt; indexed.index().rest.len() == 64);
    for kind in 0..120 {
        assert!(rt; is_same(&indexed, kind));
    }
    assert!(rt; indexed.index().u32(NDA_PROBES) == Some(5));
    assert!(rt; indexed.index().u16(NDA_VLAN) == Some(9));
    Ok(())
}
