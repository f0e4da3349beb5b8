//! Code that does not allocate.
//!
//! `tests/memory` runs each test with every allocation failing, starting at its marker: the test
//! passes and allocates nothing after the marker.

use crate::tests::mark::refuse_from_here;
use crate::tests::samples::{ADDRESS, HOPS, LO, decoded, invalid, wrong_size};
use netlink_family::{FamilyError, MessageView, Reason};
use netlink_packet_core::NetlinkSerializable;
use netlink_route::addresses::IFA_CACHEINFO;
use netlink_route::links::{
    IFI_INDEX, IFLA_IFNAME, IFLA_INFO_KIND, IFLA_LINKINFO, IFLA_MTU, RTM_GETLINK, RTM_NEWLINK,
};
use netlink_route::{Addresses, LinkMessage, Links, NextHops, Routes};
use std::test::Fail;

/// Messages that were decoded are compared and encoded.
#[test]
fn messages_in_hand(rt: HostRuntime) -> Result<(), Fail> {
    let alloc = rt.alloc();
    let message = decoded(alloc, 16, &LO[16..])?;
    let other = decoded(alloc, 16, &LO[16..])?;
    let mut buffer = [0; 64];
    refuse_from_here(alloc);
    assert!(rt; message == other && message.buffer_len() == 64);
    if message.buffer_len() == 64 {
        message.serialize(&mut buffer);
    }
    assert!(rt; buffer.ends_with(&[4, 0, 0x41, 0x80]));
    Ok(())
}

/// Returns the kind of a link.
fn kind_of<'a>(link: &MessageView<'a, Links>) -> Option<&'a [u8]> {
    link.view().nest(IFLA_LINKINFO)?.str_bytes(IFLA_INFO_KIND)
}

/// Counts the attributes of a link.
fn count(link: &MessageView<'_, Links>) -> u32 {
    let mut number = 0u32;
    for _attribute in link.view().attributes() {
        number = number.wrapping_add(1);
    }
    number
}

/// Views are made of bytes, and read.
#[test]
fn bytes_in_hand(rt: HostRuntime) -> Result<(), Fail> {
    refuse_from_here(rt.alloc());
    let link = MessageView::<Links>::new(16, &LO[16..])?;
    assert!(rt; count(&link) == 5);
    assert!(rt; kind_of(&link) == Some(b"veth".as_slice()));
    let view = link.view();
    assert!(rt; view.str(IFLA_IFNAME) == Some("lo") && view.u32(IFLA_MTU) == Some(65536));
    let route = MessageView::<Routes>::new(24, &HOPS)?;
    match NextHops::new(&route.view()) {
        Some(mut hops) => assert!(rt; hops.next().is_some()),
        None => assert!(rt; false),
    }
    Ok(())
}

/// Fields of a message are written.
#[test]
fn fields_in_hand(rt: HostRuntime) -> Result<(), Fail> {
    let mut link = LinkMessage::new(rt.alloc(), RTM_NEWLINK)?;
    let mut request = LinkMessage::new_short(rt.alloc(), RTM_GETLINK, &[17])?;
    refuse_from_here(rt.alloc());
    link.set_i32(IFI_INDEX, -2);
    assert!(rt; link.header().i32(IFI_INDEX) == -2);
    request.set_i32(IFI_INDEX, 3);
    assert!(rt; request.payload().len() == 16);
    Ok(())
}

/// Returns the error of a payload of a message type.
fn error_of(rt: &HostRuntime, message_type: u16, payload: &[u8]) -> Option<FamilyError> {
    decoded(rt.alloc(), message_type, payload).err()
}

/// Errors are found without a copy of the payload.
#[test]
fn errors_in_hand(rt: HostRuntime) -> Result<(), Fail> {
    refuse_from_here(rt.alloc());
    let link = [
        0, 0, 0, 0, 0, 0, 0, 0, 0, 0, 0, 0, 0, 0, 0, 0, 5, 0, 4, 0, 1, 0, 0, 0,
    ];
    let error = MessageView::<Links>::new(16, &link).err();
    assert!(rt; error == wrong_size(16, IFLA_MTU, 4, 1));
    let address = [0, 0, 0, 0, 0, 0, 0, 0, 5, 0, 6, 0, 1, 0, 0, 0];
    let error = MessageView::<Addresses>::new(20, &address).err();
    let reason = Reason::TooSmall {
        kind: IFA_CACHEINFO,
        expected: 16,
        received: 1,
    };
    assert!(rt; error == invalid(8, reason));
    let unknown = FamilyError::UnknownType { message_type: 31 };
    assert!(rt; error_of(&rt, 31, &[]) == Some(unknown));
    let short = FamilyError::HeaderShort {
        expected: 12,
        received: 8,
    };
    assert!(rt; error_of(&rt, 30, &ADDRESS[16..24]) == Some(short));
    Ok(())
}
