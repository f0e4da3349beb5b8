//! Code that allocates.
//!
//! `tests/memory` runs each test once per allocation, with that allocation failing: the test must
//! pass, or return the out-of-memory error by `?`.

use crate::tests::samples::{NLCTRL, REQUEST, decoded};
use netlink_generic::{command_frame, request_by_name};
use netlink_packet_core::NetlinkHeader;
use std::test::Fail;

#[test]
fn messages_are_decoded(rt: HostRuntime) -> Result<(), Fail> {
    let message = decoded(rt.alloc(), &NLCTRL[16..])?;
    assert!(rt; message.bytes.as_slice() == &NLCTRL[16..]);
    Ok(())
}

#[test]
fn requests_are_made(rt: HostRuntime) -> Result<(), Fail> {
    let request = request_by_name(rt.alloc(), "nlctrl")?;
    assert!(rt; request.bytes.as_slice() == &REQUEST[16..]);
    Ok(())
}

#[test]
fn commands_are_framed(rt: HostRuntime) -> Result<(), Fail> {
    let header = NetlinkHeader::default();
    let frame = command_frame(rt.alloc(), header, 1, 2, &[4, 0, 3, 0])?;
    assert!(rt; frame.ends_with(&[1, 2, 0, 0, 4, 0, 3, 0]));
    Ok(())
}
