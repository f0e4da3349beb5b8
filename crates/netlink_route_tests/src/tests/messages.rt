//! Links and addresses that are decoded, made and encoded.

use crate::tests::calls::{address_of, are_last, are_next, has_attributes, link_of, normal};
use crate::tests::samples::{ADDRESS, LO, decoded, wrong_size};
use netlink_family::{AttributeError, Attributes, FamilyError, MessageView, Reason, Value};
use netlink_packet_core::laws::reads_back;
use netlink_packet_core::{NetlinkMessage, NetlinkPayload};
use netlink_route::addresses::{
    IFA_ADDRESS, IFA_CACHEINFO, IFA_FLAGS, IFA_INDEX, IFA_LABEL, IFA_LOCAL, IFA_PREFIXLEN,
    RTM_DELADDR, RTM_NEWADDR,
};
use netlink_route::links::{
    IFI_FLAGS, IFI_INDEX, IFI_TYPE, IFLA_ADDRESS, IFLA_IFNAME, IFLA_INFO_KIND, IFLA_INFO_XSTATS,
    IFLA_LINKINFO, IFLA_MTU, RTM_NEWLINK, RTM_SETLINK,
};
use netlink_route::{AddressMessage, Addresses, LinkMessage, Links, RouteMessage};
use std::alloc::Global;
use std::test::Fail;

/// Decodes a payload, and returns the family of the message.
fn family_of(
    alloc: Global,
    message_type: u16,
    payload: &[u8],
) -> Result<&'static str, FamilyError> {
    let message = decoded(alloc, message_type, payload)?;
    let view = message.message_view();
    if link_of(&view).is_some() {
        return Ok("link");
    }
    match address_of(&view) {
        Some(_) => Ok("address"),
        None => Ok("neighbour"),
    }
}

#[test]
fn families_are_distinguished_by_message_type(rt: HostRuntime) -> Result<(), Fail> {
    let zeros = [0u8; 16];
    let rows: [(u16, usize, &str); 10] = [
        (16, 16, "link"),
        (17, 16, "link"),
        (18, 16, "link"),
        (19, 16, "link"),
        (20, 8, "address"),
        (21, 8, "address"),
        (22, 8, "address"),
        (28, 12, "neighbour"),
        (29, 12, "neighbour"),
        (30, 12, "neighbour"),
    ];
    for (message_type, size, family) in rows.iter() {
        if *size <= 16 {
            let found = family_of(rt.alloc(), *message_type, &zeros[..*size])?;
            assert_eq!(rt; found, *family);
        }
    }
    Ok(())
}

/// Returns whether the link is that of `LO`.
fn is_lo(link: &MessageView<'_, Links>) -> bool {
    let header = link.header();
    let has_header = header.i32(IFI_INDEX) == 1
        && header.u16(IFI_TYPE) == 0x0304
        && header.u32(IFI_FLAGS) == 0x0001_0049;
    has_header && link.message_type == RTM_NEWLINK && has_lo_attributes(link)
}

/// Returns whether the attributes are those of `LO`, in their order.
fn has_lo_attributes(link: &MessageView<'_, Links>) -> bool {
    let mut all = link.view().attributes();
    are_next(&mut all, &LO_FIRST) && is_veth(&mut all) && are_last(&mut all, &LO_LAST)
}

/// The attributes of `LO` before its nest.
const LO_FIRST: [(u16, Value<'static>); 3] = [
    (IFLA_IFNAME, Value::Str(b"lo\0")),
    (IFLA_MTU, Value::U32(65536)),
    (IFLA_ADDRESS, Value::Bytes(&[0, 0, 0, 0, 0, 0])),
];

/// The attribute of `LO` after its nest.
const LO_LAST: [(u16, Value<'static>); 1] = [(0x8041, Value::Bytes(&[]))];

/// Returns whether the next attribute is the nest of `LO`.
fn is_veth(all: &mut Attributes<'_>) -> bool {
    match all.next() {
        Some((IFLA_LINKINFO, Value::Nested(info))) => {
            has_attributes(&info, &[(IFLA_INFO_KIND, Value::Str(b"veth\0"))])
        }
        _ => false,
    }
}

#[test]
fn a_link_is_decoded(rt: HostRuntime) -> Result<(), Fail> {
    let message = NetlinkMessage::<RouteMessage>::deserialize(rt.alloc(), &LO)?;
    match &message.payload {
        NetlinkPayload::InnerMessage(message) => match link_of(&message.message_view()) {
            Some(link) => assert!(rt; is_lo(&link)),
            None => assert!(rt; false),
        },
        _ => assert!(rt; false),
    }
    Ok(())
}

/// Returns whether a message can be encoded. If it can, its frame reads back.
fn is_read_back(message: &NetlinkMessage<RouteMessage>) -> bool {
    let fits = message.fits();
    if fits {
        reads_back(message, message, &[7]);
    }
    fits
}

#[test]
fn a_link_is_encoded(rt: HostRuntime) -> Result<(), Fail> {
    let message = NetlinkMessage::<RouteMessage>::deserialize(rt.alloc(), &LO)?;
    assert!(rt; is_read_back(&message));
    // padding outside nests is written as zeros
    let mut canonical = LO;
    canonical[39] = 0;
    canonical[58] = 0;
    canonical[59] = 0;
    assert_eq!(rt; normal(rt.alloc(), &LO)?.as_slice(), canonical.as_slice());
    Ok(())
}

/// Returns whether the address is that of `ADDRESS`.
fn is_address(address: &MessageView<'_, Addresses>) -> bool {
    let header = address.header();
    let has_header = header.u8(IFA_PREFIXLEN) == 24 && header.u32(IFA_INDEX) == 4;
    let expected = [
        (IFA_ADDRESS, Value::Ip(&[192, 0, 2, 1])),
        (IFA_LABEL, Value::Str(b"eth0\0")),
        (IFA_FLAGS, Value::U32(0x80)),
        (IFA_CACHEINFO, Value::MinLen(16, &ADDRESS[56..])),
    ];
    has_header && address.message_type == RTM_NEWADDR && has_attributes(&address.view(), &expected)
}

#[test]
fn an_address_is_decoded_and_encoded(rt: HostRuntime) -> Result<(), Fail> {
    let message = decoded(rt.alloc(), 20, &ADDRESS[16..])?;
    match address_of(&message.message_view()) {
        Some(address) => assert!(rt; is_address(&address)),
        None => assert!(rt; false),
    }
    assert_eq!(rt;
        normal(rt.alloc(), &ADDRESS)?.as_slice(),
        ADDRESS.as_slice()
    );
    Ok(())
}

/// Appends an attribute to a link. Returns the error if there is one.
fn link_error(
    alloc: Global,
    link: &mut LinkMessage,
    kind: u16,
    value: &[u8],
) -> Option<FamilyError> {
    link.try_push(alloc, kind, value).err()
}

/// Appends an attribute to an address. Returns the error if there is one.
fn address_error(
    alloc: Global,
    address: &mut AddressMessage,
    kind: u16,
    value: &[u8],
) -> Option<FamilyError> {
    address.try_push(alloc, kind, value).err()
}

#[test]
fn values_of_links_are_checked(rt: HostRuntime) -> Result<(), Fail> {
    let alloc = rt.alloc();
    let mut link = LinkMessage::new(alloc, RTM_SETLINK)?;
    let nul = AttributeError {
        offset: 0,
        policy: 0,
        reason: Reason::InteriorNul { kind: IFLA_IFNAME },
    };
    let error = link_error(alloc, &mut link, IFLA_IFNAME, b"l\0o");
    assert!(rt; error == Some(FamilyError::InvalidAttribute(nul)));
    let error = link_error(alloc, &mut link, IFLA_MTU, &[]);
    assert!(rt; error == wrong_size(0, IFLA_MTU, 4, 0));
    // flag bits are ignored, and the error has the kind as received
    let error = link_error(alloc, &mut link, 0x4004, &[7]);
    assert!(rt; error == wrong_size(0, 0x4004, 4, 1));
    assert!(rt; link.bytes.len() == 16);
    Ok(())
}

/// The attributes that `valid_values_of_links_are_appended` appends.
const APPENDED: [u8; 24] = [
    6, 0, 3, 0, b'l', b'o', 0, 0, // IFLA_IFNAME
    8, 0, 4, 0x40, 7, 0, 0, 0, // IFLA_MTU with NLA_F_NET_BYTEORDER
    8, 0, 18, 0, 4, 0, 3, 0, // IFLA_LINKINFO
];

/// Returns whether a link has an `IFLA_INFO_XSTATS` without bytes.
fn has_empty_statistics(link: &LinkMessage) -> bool {
    match link.view().nest(IFLA_LINKINFO) {
        Some(info) => info.bytes(IFLA_INFO_XSTATS) == Some(&[]),
        None => false,
    }
}

#[test]
fn valid_values_of_links_are_appended(rt: HostRuntime) -> Result<(), Fail> {
    let alloc = rt.alloc();
    let mut link = LinkMessage::new(alloc, RTM_SETLINK)?;
    assert!(rt; link_error(alloc, &mut link, IFLA_IFNAME, b"lo") == None);
    assert!(rt; link_error(alloc, &mut link, 0x4004, &[7, 0, 0, 0]) == None);
    // an empty IFLA_INFO_XSTATS in a nest
    assert!(rt; link_error(alloc, &mut link, IFLA_LINKINFO, &[4, 0, 3, 0]) == None);
    assert_eq!(rt; link.view().block, APPENDED.as_slice());
    assert!(rt; link.view().u32(IFLA_MTU) == Some(7));
    assert!(rt; has_empty_statistics(&link));
    Ok(())
}

#[test]
fn values_of_addresses_are_checked(rt: HostRuntime) -> Result<(), Fail> {
    let alloc = rt.alloc();
    let mut address = AddressMessage::new(alloc, RTM_DELADDR)?;
    let size = AttributeError {
        offset: 0,
        policy: 0,
        reason: Reason::WrongAddressSize {
            kind: IFA_LOCAL,
            received: 5,
        },
    };
    let error = address_error(alloc, &mut address, IFA_LOCAL, &[0; 5]);
    assert!(rt; error == Some(FamilyError::InvalidAttribute(size)));
    assert!(rt; address_error(alloc, &mut address, IFA_LOCAL, &[0; 16]) == None);
    let error = address_error(alloc, &mut address, IFA_FLAGS, &[]);
    assert!(rt; error == wrong_size(0, IFA_FLAGS, 4, 0));
    assert!(rt; address.bytes.len() == 28);
    Ok(())
}
