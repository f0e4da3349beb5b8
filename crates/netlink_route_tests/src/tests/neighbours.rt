//! Neighbours that are decoded, made and encoded.

use crate::tests::calls::{has_attributes, neighbour_of, normal};
use crate::tests::samples::{NEIGHBOUR, decoded, wrong_size};
use netlink_family::{MessageView, OwnedMessage, Value};
use netlink_packet_core::NetlinkMessage;
use netlink_route::neighbours::{
    NDA_CACHEINFO, NDA_DST, NDA_LLADDR, NDA_PORT, NDA_PROBES, NDA_VLAN, NDM_FAMILY, NDM_FLAGS,
    NDM_IFINDEX, NDM_STATE, NDM_TYPE, RTM_GETNEIGH, RTM_NEWNEIGH,
};
use netlink_route::{NeighbourMessage, Neighbours};
use std::test::Fail;

/// Returns whether the fields of the header are those of `NEIGHBOUR`.
fn has_fields(neighbour: &MessageView<'_, Neighbours>) -> bool {
    let header = neighbour.header();
    neighbour.message_type == RTM_NEWNEIGH
        && header.u8(NDM_FAMILY) == 10
        && header.i32(NDM_IFINDEX) == 4
        && header.u16(NDM_STATE) == 4
        && header.u8(NDM_FLAGS) == 0x80
        && header.u8(NDM_TYPE) == 1
}

/// Returns whether the attributes are those of `NEIGHBOUR`, in their order.
fn has_its_attributes(neighbour: &MessageView<'_, Neighbours>) -> bool {
    let expected = [
        (NDA_DST, Value::Ip(&NEIGHBOUR[32..48])),
        (NDA_LLADDR, Value::Bytes(&[2, 0, 0, 0, 0, 7])),
        (NDA_PROBES, Value::U32(5)),
        (NDA_CACHEINFO, Value::MinLen(16, &NEIGHBOUR[72..88])),
        (NDA_VLAN, Value::U16(10)),
        (NDA_PORT, Value::Be16(4789)),
    ];
    has_attributes(&neighbour.view(), &expected)
}

#[test]
fn a_neighbour_is_decoded_and_encoded(rt: HostRuntime) -> Result<(), Fail> {
    let message = decoded(rt.alloc(), 28, &NEIGHBOUR[16..])?;
    match neighbour_of(&message.message_view()) {
        Some(neighbour) => {
            assert!(rt; has_fields(&neighbour));
            assert!(rt; has_its_attributes(&neighbour));
        }
        None => assert!(rt; false),
    }
    assert_eq!(rt;
        normal(rt.alloc(), &NEIGHBOUR)?.as_slice(),
        NEIGHBOUR.as_slice()
    );
    Ok(())
}

#[test]
fn an_invalid_neighbour_has_its_error(rt: HostRuntime) -> Result<(), Fail> {
    let payload = [
        10, 0, 0, 0, 4, 0, 0, 0, 4, 0, 0x80, 1, // AF_INET6, link 4
        8, 0, 4, 0, 5, 0, 0, 0, // NDA_PROBES
        8, 0, 6, 0, 0x12, 0xb5, 0, 0, // NDA_PORT, of 4 bytes
    ];
    let error = decoded(rt.alloc(), 28, &payload).err();
    assert!(rt; error == wrong_size(20, NDA_PORT, 2, 4));
    Ok(())
}

/// A request for the entry of 192.0.2.7 on link 4.
const REQUEST: [u8; 36] = [
    36, 0, 0, 0, 30, 0, 0, 0, 0, 0, 0, 0, 0, 0, 0, 0, // length 36, RTM_GETNEIGH
    2, 0, 0, 0, 4, 0, 0, 0, 0, 0, 0, 0, // AF_INET, index 4
    8, 0, 1, 0, 192, 0, 2, 7, // NDA_DST
];

#[test]
fn a_request_is_made(rt: HostRuntime) -> Result<(), Fail> {
    let alloc = rt.alloc();
    let mut request: NeighbourMessage = OwnedMessage::new(alloc, RTM_GETNEIGH)?;
    request.set_u8(NDM_FAMILY, 2);
    request.set_i32(NDM_IFINDEX, 4);
    request.push(alloc, NDA_DST, Value::Ip(&[192, 0, 2, 7]))?;
    let frame = NetlinkMessage::from_inner(request).into_frame(alloc)?;
    assert_eq!(rt; frame.as_slice(), REQUEST.as_slice());
    Ok(())
}
