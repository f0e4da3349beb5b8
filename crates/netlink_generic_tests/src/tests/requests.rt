//! Requests for families.

use crate::tests::samples::REQUEST;
use netlink_family::FamilyError;
use netlink_generic::controller::{GENL_CMD, GENL_VERSION};
use netlink_generic::{is_family_name, request_by_name};
use netlink_packet_core::{NLM_F_REQUEST, NetlinkHeader, NetlinkMessage, NetlinkPayload};
use std::alloc::Global;
use std::test::Fail;

/// Returns the frame of the request for a family, with sequence number 1.
fn frame_of_request(alloc: Global, name: &str) -> Result<Vec<u8>, Fail> {
    if !is_family_name(name) {
        return Err(Fail::new("not a name"));
    }
    let header = NetlinkHeader {
        flags: NLM_F_REQUEST,
        sequence_number: 1,
        ..NetlinkHeader::default()
    };
    let request = request_by_name(alloc, name)?;
    Ok(NetlinkMessage::new(header, NetlinkPayload::InnerMessage(request)).into_frame(alloc)?)
}

#[test]
fn a_request_is_that_of_the_captured_datagram(rt: HostRuntime) -> Result<(), Fail> {
    let frame = frame_of_request(rt.alloc(), "nlctrl")?;
    assert_eq!(rt; frame.as_slice(), REQUEST.as_slice());
    Ok(())
}

/// Returns whether the request for `nlctrl` has these fields and this name.
fn is_request(alloc: Global) -> Result<bool, FamilyError> {
    let request = request_by_name(alloc, "nlctrl")?;
    let header = request.header();
    let is_get = header.u8(GENL_CMD) == 3 && header.u8(GENL_VERSION) == 1;
    Ok(is_get && request.bytes.as_slice() == &REQUEST[16..])
}

/// The prover computes that a literal is the name of a family.
#[test]
fn a_request_by_a_literal_needs_no_test(rt: HostRuntime) -> Result<(), Fail> {
    assert!(rt; is_request(rt.alloc())?);
    Ok(())
}

#[test]
fn names_are_short_and_have_no_nul(rt: HostRuntime) {
    let rows = [
        ("", true),
        ("nl80211", true),
        ("fifteen letters", true),
        ("sixteen letters!", false),
        ("nul\0", false),
        ("\0nul", false),
        ("straße", true),
    ];
    for (name, expected) in rows.iter() {
        assert!(rt; is_family_name(name) == *expected);
    }
}
