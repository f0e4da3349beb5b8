//! Getters find attributes by kind, with or without flag bits.

use crate::getters::{link_address, mark_shape, no_number, numbers, port, probes};
use crate::neighbours::{NDA_CACHEINFO, NDA_DST, NDA_VLAN, NeighbourMessage};
use crate::route::{Route, name_of_error};
use crate::rules::{FRA_IIFNAME, FRA_L3MDEV, FRA_TUN_ID, MARK, RTM_NEWRULE};
use crate::tables::{NDTA_NAME, NDTA_PARMS, NDTA_THRESH1, PARMS};
use netlink_family::{AttributeError, FamilyError, Reason, Shape, Value};
use netlink_packet_core::{NetlinkDeserializable, NetlinkHeader, normalize};
use std::alloc::Global;
use std::test::Fail;

const NEIGHBOUR: [u8; 56] = [
    2, 0, 0, 0, 3, 0, 0, 0, 2, 0, 0x80, 1, // AF_INET, link 3
    8, 0, 4, 0, 5, 0, 0, 0, // NDA_PROBES
    8, 0, 4, 0, 6, 0, 0, 0, // NDA_PROBES again
    10, 0, 2, 0, 2, 0, 0, 0, 0, 7, 0, 0, // NDA_LLADDR
    6, 0, 5, 0, 9, 0, 0, 0, // NDA_VLAN
    8, 0, 8, 0, 1, 0, 0, 0, // NDA_IFINDEX
];

const FLAGGED: [u8; 48] = [
    48, 0, 0, 0, 64, 0, 0, 0, 1, 0, 0, 0, 0, 0, 0, 0, // length 48, RTM_NEWNEIGHTBL
    2, 0, 0, 0, // AF_INET
    6, 0, 1, 0, b'a', 0, 0, 0, // NDTA_NAME
    12, 0, 6, 0x80, 8, 0, 1, 0, 3, 0, 0, 0, // NDTA_PARMS with NLA_F_NESTED: NDTPA_IFINDEX
    8, 0, 2, 0x40, 128, 0, 0, 0, // NDTA_THRESH1 with NLA_F_NET_BYTEORDER
];

/// Decodes the payload of a new neighbour.
fn neighbour_of(alloc: Global, payload: &[u8]) -> Result<NeighbourMessage, FamilyError> {
    NeighbourMessage::deserialize(alloc, &header(28), payload)
}

/// Returns the number of probes, and what a getter of another shape returns.
fn probes_of(message: &NeighbourMessage) -> (Option<u32>, Option<u32>) {
    (probes(message), no_number(message))
}

/// Returns the VLAN, and whether there is a destination.
fn vlan_of(message: &NeighbourMessage) -> (Option<u16>, bool) {
    let view = message.view();
    (view.u16(NDA_VLAN), view.value(NDA_DST) != None)
}

#[test]
fn getters_return_the_first_of_a_kind(rt: HostRuntime) -> Result<(), Fail> {
    let message = neighbour_of(rt.alloc(), &NEIGHBOUR)?;
    assert!(rt; probes_of(&message) == (Some(5), None));
    assert!(rt; vlan_of(&message) == (Some(9), false));
    assert!(rt; link_address(&message) == Some(&[2, 0, 0, 0, 0, 7]));
    assert!(rt; numbers(&message) == 3);
    Ok(())
}

/// Returns a header with this message type.
fn header(message_type: u16) -> NetlinkHeader {
    NetlinkHeader {
        message_type,
        ..NetlinkHeader::default()
    }
}

/// Returns the first threshold and the name of a neighbour table.
fn threshold_and_name<'a>(message: &'a Route) -> (Option<u32>, Option<&'a [u8]>) {
    let view = message.view();
    (view.u32(NDTA_THRESH1), view.str_bytes(NDTA_NAME))
}

/// Returns the policy and the attributes of the parameters of a neighbour table.
fn parms_of<'a>(message: &'a Route) -> Option<(u16, &'a [u8])> {
    match message.view().value(NDTA_PARMS) {
        Some(Value::Nested(parms)) => Some((parms.policy, parms.block)),
        _ => None,
    }
}

#[test]
fn flag_bits_are_ignored(rt: HostRuntime) -> Result<(), Fail> {
    let message = Route::deserialize(rt.alloc(), &header(64), &FLAGGED[16..])?;
    assert!(rt; threshold_and_name(&message) == (Some(128), Some(b"a".as_slice())));
    assert!(rt; parms_of(&message) == Some((PARMS, [8, 0, 1, 0, 3, 0, 0, 0].as_slice())));
    Ok(())
}

#[test]
fn flag_bits_are_kept(rt: HostRuntime) -> Result<(), Fail> {
    assert_eq!(rt;
        normalize::<Route>(rt.alloc(), &FLAGGED)?.as_slice(),
        FLAGGED.as_slice()
    );
    Ok(())
}

/// An error has the kind as received, and the table its name.
#[test]
fn errors_keep_flag_bits(rt: HostRuntime) {
    let mut bad = FLAGGED;
    bad[34] = 2; // NDTPA_REFCNT has the same size; NDTPA_REACHABLE_TIME, 3, does not
    assert!(rt; Route::deserialize(rt.alloc(), &header(64), &bad[16..]).is_ok());
    bad[34] = 3;
    bad[35] = 0x80;
    let error = FamilyError::InvalidAttribute(AttributeError {
        offset: 16,
        policy: PARMS,
        reason: Reason::WrongSize {
            kind: 0x8003,
            expected: 8,
            received: 4,
        },
    });
    assert_eq!(rt; name_of_error(64, &error), "NDTPA_REACHABLE_TIME");
    assert!(rt; Route::deserialize(rt.alloc(), &header(64), &bad[16..]).err() == Some(error));
}

/// Returns the destination, and what getters of another shape return.
fn destination_of<'a>(message: &'a NeighbourMessage) -> (Option<&'a [u8]>, Option<&'a [u8]>) {
    let view = message.view();
    (view.ip(NDA_DST), view.bytes(NDA_DST))
}

/// Returns the statistics, and what a getter of another shape returns.
fn statistics_of<'a>(message: &'a NeighbourMessage) -> (Option<&'a [u8]>, Option<&'a [u8]>) {
    let view = message.view();
    (view.exact(NDA_CACHEINFO), view.ip(NDA_CACHEINFO))
}

/// Returns whether a neighbour has this port.
fn has_port(message: &NeighbourMessage, number: u16) -> bool {
    port(message) == Some(number)
}

#[test]
fn getters_decode_each_shape(rt: HostRuntime) -> Result<(), Fail> {
    let payload = [
        2, 0, 0, 0, 3, 0, 0, 0, 2, 0, 0x80, 1, // AF_INET, link 3
        8, 0, 1, 0, 192, 0, 2, 7, // NDA_DST
        20, 0, 3, 0, 1, 0, 0, 0, 2, 0, 0, 0, 3, 0, 0, 0, 4, 0, 0, 0, // NDA_CACHEINFO
        6, 0, 6, 0, 0x12, 0x34, 0, 0, // NDA_PORT
    ];
    let neighbour = neighbour_of(rt.alloc(), &payload)?;
    assert!(rt; destination_of(&neighbour) == (Some([192, 0, 2, 7].as_slice()), None));
    assert!(rt; statistics_of(&neighbour) == (Some(&payload[24..40]), None));
    assert!(rt; has_port(&neighbour, 0x1234));
    Ok(())
}

/// Returns the name of a rule's interface, as text and as bytes.
fn names_of<'a>(rule: &'a Route) -> (Option<&'a str>, Option<&'a [u8]>) {
    let view = rule.view();
    (view.str(FRA_IIFNAME), view.str_bytes(FRA_IIFNAME))
}

/// Returns the tunnel of a rule, and what a getter of another shape returns.
fn tunnel_of(rule: &Route) -> (Option<u64>, Option<u8>) {
    let view = rule.view();
    (view.be64(FRA_TUN_ID), view.u8(FRA_TUN_ID))
}

/// Returns a rule's flag for an l3mdev.
fn l3mdev_of(rule: &Route) -> Option<u8> {
    rule.view().u8(FRA_L3MDEV)
}

#[test]
fn getters_decode_each_shape_of_a_rule(rt: HostRuntime) -> Result<(), Fail> {
    let payload = [
        2, 0, 0, 0, 0, 0, 0, 0, 0, 0, 0, 0, // header
        7, 0, 3, 0, b'e', b't', b'h', 0, // FRA_IIFNAME
        12, 0, 12, 0, 0, 0, 0, 0, 0, 0, 1, 2, // FRA_TUN_ID
        5, 0, 19, 0, 1, 0, 0, 0, // FRA_L3MDEV
    ];
    let rule = Route::deserialize(rt.alloc(), &header(RTM_NEWRULE), &payload)?;
    assert!(rt; names_of(&rule) == (Some("eth"), Some(b"eth".as_slice())));
    assert!(rt; tunnel_of(&rule) == (Some(258), None));
    assert!(rt; l3mdev_of(&rule) == Some(1));
    assert!(rt; mark_shape() == Shape::Nested(MARK));
    Ok(())
}
