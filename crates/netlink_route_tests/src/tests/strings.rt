//! Strings need no NUL and may have any other bytes. Padding in headers is kept.

use crate::tests::samples::decoded;
use netlink_packet_core::normalize;
use netlink_route::RouteMessage;
use netlink_route::links::{IFI_INDEX, IFLA_IFALIAS, IFLA_IFNAME};
use std::test::Fail;

/// A link whose header has a second byte other than 0, and a negative index.
const LATIN: [u8; 52] = [
    52, 0, 0, 0, 16, 0, 0, 0, 0, 0, 0, 0, 0, 0, 0, 0, // length 52, RTM_NEWLINK
    0, 9, 1, 0, 0xfe, 0xff, 0xff, 0xff, 0, 0, 0, 0, 0, 0, 0, 0, // ARPHRD_ETHER, index -2
    6, 0, 3, 0, b'l', b'o', 0, 0, // IFLA_IFNAME without a NUL
    9, 0, 20, 0, b'c', b'a', b'f', 0xe9, 0, 0, 0, 0, // IFLA_IFALIAS in Latin-1
];

/// Returns the index of the link that a message is about, if it is about one.
fn index_of(message: &RouteMessage) -> Option<i32> {
    match message.message_view().tables().split() {
        Ok(link) => Some(link.header().i32(IFI_INDEX)),
        Err(_) => None,
    }
}

#[test]
fn any_strings_are_kept(rt: HostRuntime) -> Result<(), Fail> {
    let alloc = rt.alloc();
    let message = decoded(alloc, 16, &LATIN[16..])?;
    let view = message.view();
    assert!(rt; view.str(IFLA_IFNAME) == Some("lo"));
    assert!(rt; view.first(IFLA_IFNAME) == Some(b"lo".as_slice()));
    assert!(rt; view.str_bytes(IFLA_IFALIAS) == Some(b"caf\xe9".as_slice()));
    assert!(rt; view.str(IFLA_IFALIAS) == None);
    assert!(rt; index_of(&message) == Some(-2));
    assert_eq!(rt;
        normalize::<RouteMessage>(alloc, &LATIN)?.as_slice(),
        LATIN.as_slice()
    );
    Ok(())
}
