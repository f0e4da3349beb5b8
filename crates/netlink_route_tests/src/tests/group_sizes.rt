//! The sizes of the kinds in multicast groups, router ports and requests for them. `nest_as` checks these,
//! because the attributes that have them are bytes.

use netlink_family::{OwnedMessage, Value};
use netlink_route::MulticastGroupMessage;
use netlink_route::multicast_groups::{
    MDB_EATTR, MDB_SRCATTR, MDBA_MDB, ROUTER, ROUTER_PATTR, RTM_NEWMDB, SET_ENTRY_ATTRS, SRCATTR,
};
use std::alloc::Global;
use std::test::Fail;

// A policy, a kind of it, and the size of its value.
const SIZES: [(u16, u8, u8); 21] = [
    (MDB_EATTR, 1, 4),
    (MDB_EATTR, 3, 1),
    (MDB_EATTR, 5, 1),
    (MDB_EATTR, 7, 2),
    (MDB_EATTR, 8, 4),
    (MDB_EATTR, 9, 4),
    (MDB_EATTR, 10, 4),
    (MDB_SRCATTR, 2, 4),
    (ROUTER_PATTR, 1, 4),
    (ROUTER_PATTR, 2, 1),
    (ROUTER_PATTR, 3, 4),
    (ROUTER_PATTR, 4, 4),
    (ROUTER_PATTR, 5, 2),
    (SET_ENTRY_ATTRS, 3, 1),
    (SET_ENTRY_ATTRS, 4, 1),
    (SET_ENTRY_ATTRS, 6, 2),
    (SET_ENTRY_ATTRS, 7, 4),
    (SET_ENTRY_ATTRS, 8, 4),
    (SET_ENTRY_ATTRS, 9, 4),
    (SET_ENTRY_ATTRS, 10, 1),
    (ROUTER, 1, 4),
];

// A policy, and a kind of it that has an address.
const ADDRESSES: [(u16, u8); 6] = [
    (MDB_EATTR, 4),
    (MDB_EATTR, 6),
    (MDB_SRCATTR, 1),
    (SET_ENTRY_ATTRS, 1),
    (SET_ENTRY_ATTRS, 5),
    (SRCATTR, 1),
];

/// Returns whether an attribute of zeros is valid in a policy, by its length with its header.
fn is_valid(alloc: Global, policy: u16, kind: u8, len: u8) -> Result<bool, Fail> {
    let bytes = [
        len, 0, kind, 0, 0, 0, 0, 0, 0, 0, 0, 0, 0, 0, 0, 0, 0, 0, 0, 0, 0, 0, 0, 0,
    ];
    let end = len as usize;
    if end > 24 {
        return Ok(false);
    }
    let mut message: MulticastGroupMessage = OwnedMessage::new(alloc, RTM_NEWMDB)?;
    message.push(alloc, MDBA_MDB, Value::Bytes(&bytes[..end]))?;
    Ok(message.view().nest_as(MDBA_MDB, policy).is_ok())
}

#[test]
fn each_kind_has_its_size(rt: HostRuntime) -> Result<(), Fail> {
    let alloc = rt.alloc();
    for (policy, kind, size) in SIZES.iter() {
        let len = size.wrapping_add(4);
        assert!(rt; is_valid(alloc, *policy, *kind, len)?);
        assert!(rt; !is_valid(alloc, *policy, *kind, len.wrapping_sub(1))?);
        // a router port has attributes after the index of a link
        assert!(rt; !is_valid(alloc, *policy, *kind, len.wrapping_add(1))?);
    }
    Ok(())
}

#[test]
fn each_address_has_4_or_16_bytes(rt: HostRuntime) -> Result<(), Fail> {
    let alloc = rt.alloc();
    for (policy, kind) in ADDRESSES.iter() {
        for len in [8, 20].iter() {
            assert!(rt; is_valid(alloc, *policy, *kind, *len)?);
        }
        for len in [7, 9, 19, 21].iter() {
            assert!(rt; !is_valid(alloc, *policy, *kind, *len)?);
        }
    }
    Ok(())
}
