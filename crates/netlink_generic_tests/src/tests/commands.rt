//! Commands of other families. The bytes are written by hand from linux/netdev.h.

use netlink_family::FamilyError;
use netlink_generic::command_frame;
use netlink_packet_core::{NLM_F_DUMP, NLM_F_REQUEST, NetlinkHeader, append_nla};
use std::alloc::Global;
use std::test::Fail;

/// `NETDEV_CMD_DEV_GET` for link 3, of a family with id 20.
const DEV_GET: [u8; 28] = [
    28, 0, 0, 0, 20, 0, 1, 0, 9, 0, 0, 0, 0, 0, 0, 0, // length 28, type 20, NLM_F_REQUEST
    1, 1, 0, 0, // command 1, version 1
    8, 0, 1, 0, 3, 0, 0, 0, // NETDEV_A_DEV_IFINDEX
];

/// The same for all links: a dump, without attributes.
const DEV_DUMP: [u8; 20] = [20, 0, 0, 0, 20, 0, 1, 3, 9, 0, 0, 0, 0, 0, 0, 0, 1, 1, 0, 0];

/// Returns a header for the family with id 20.
fn header(flags: u16) -> NetlinkHeader {
    NetlinkHeader {
        length: 7,
        message_type: 20,
        flags,
        sequence_number: 9,
        port_number: 0,
    }
}

/// Returns the frame of `NETDEV_CMD_DEV_GET` with these flags and attributes.
fn dev_get(alloc: Global, flags: u16, attributes: &[u8]) -> Result<Vec<u8>, FamilyError> {
    command_frame(alloc, header(flags), 1, 1, attributes)
}

#[test]
fn commands_are_written(rt: HostRuntime) -> Result<(), Fail> {
    let alloc = rt.alloc();
    let mut attributes = Vec::new(alloc);
    append_nla(alloc, &mut attributes, 1, &[3, 0, 0, 0])?;
    let get = dev_get(alloc, NLM_F_REQUEST, &attributes)?;
    assert_eq!(rt; get.as_slice(), DEV_GET.as_slice());
    let dump = dev_get(alloc, NLM_F_REQUEST | NLM_F_DUMP, &[])?;
    assert_eq!(rt; dump.as_slice(), DEV_DUMP.as_slice());
    Ok(())
}
