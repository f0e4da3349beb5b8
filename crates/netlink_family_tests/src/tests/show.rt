//! Messages as text, with the names of the tables.

use crate::route::Route;
use crate::rules::RTM_NEWRULE;
use crate::tables::RTM_NEWNEIGHTBL;
use netlink_family::FamilyError;
use netlink_packet_core::{NetlinkDeserializable, NetlinkHeader};
use std::alloc::Global;
use std::test::Fail;

/// Returns a message with this payload as text.
fn shown(alloc: Global, message_type: u16, payload: &[u8]) -> Result<String, FamilyError> {
    let header = NetlinkHeader {
        message_type,
        ..NetlinkHeader::default()
    };
    let message = Route::deserialize(alloc, &header, payload)?;
    Ok(message.message_view().show(alloc)?)
}

#[test]
fn names_of_the_table_are_shown(rt: HostRuntime) -> Result<(), Fail> {
    let payload = [
        2, 0, 0, 0, // AF_INET
        6, 0, 1, 0, b'a', 0, 0, 0, // NDTA_NAME
        8, 0, 2, 0, 128, 0, 0, 0, // NDTA_THRESH1
        24, 0, 6, 0, // NDTA_PARMS
        8, 0, 1, 0, 3, 0, 0, 0, // NDTPA_IFINDEX
        12, 0, 3, 0, 0x30, 0x75, 0, 0, 0, 0, 0, 0, // NDTPA_REACHABLE_TIME
        6, 0, 77, 0, 1, 0xfe, 0, 0, // a kind without a row
    ];
    assert_eq!(rt;
        shown(rt.alloc(), RTM_NEWNEIGHTBL, &payload)?.as_str(),
        "type 64\nndtm_family: 2\nNDTA_NAME: a\nNDTA_THRESH1: 128\nNDTA_PARMS:\n  NDTPA_IFINDEX: 3\n  NDTPA_REACHABLE_TIME: 30000\n77: 01fe\n"
    );
    Ok(())
}

#[test]
fn list_elements_are_numbered(rt: HostRuntime) -> Result<(), Fail> {
    let payload = [
        2, 0, 0, 0, 0, 0, 0, 0, 0, 0, 0, 0, // header
        8, 0, 3, 0, b'e', b'\\', 10, 0, // FRA_IIFNAME
        44, 0, 0, 0xb0, // FRA_MARKS with NLA_F_NESTED
        12, 0, 0, 0, 8, 0, 1, 0, 7, 0, 0, 0, // the first: MARK_VALUE
        12, 0, 1, 0, 8, 0, 2, 0x40, 1, 2, 3, 4, // the second: MARK_REST with NLA_F_NET_BYTEORDER
        16, 0, 2, 0, 12, 0, 3, 0, 0xfe, 0xff, 0xff, 0xff, 0xff, 0xff, 0xff, 0xff, // MARK_OFFSET
    ];
    assert_eq!(rt;
        shown(rt.alloc(), RTM_NEWRULE, &payload)?.as_str(),
        "type 32\nfamily: 2\ntable: 0\naction: 0\nflags: 0\nFRA_IIFNAME: e\\5c\\0a\nFRA_MARKS:\n  0:\n    MARK_VALUE: 7\n  1:\n    MARK_REST: 01020304\n  2:\n    MARK_OFFSET: -2\n"
    );
    Ok(())
}
