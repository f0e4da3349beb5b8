//! Settings of links, and announced prefixes. Each sample is a payload.

use crate::tests::calls::has_attributes;
use crate::tests::samples::error_text;
use netlink_family::{MessageView, Value};
use netlink_route::network_configurations::*;
use netlink_route::prefixes::*;
use netlink_route::{NetworkConfigurations, Prefixes};
use std::test::Fail;

/// Each setting, with numbers that the kernel does not send, and another one of the first; by hand
const SETTINGS: [u8; 76] = [
    28, 1, 2, 3, // struct netconfmsg: AF_MPLS, and padding
    8, 0, 1, 0, 0xfe, 0xff, 0xff, 0xff, // NETCONFA_IFINDEX: NETCONFA_IFINDEX_DEFAULT
    8, 0, 2, 0, 2, 0, 0, 0, // NETCONFA_FORWARDING
    8, 0, 3, 0, 3, 0, 0, 0, // NETCONFA_RP_FILTER
    8, 0, 4, 0, 4, 0, 0, 0, // NETCONFA_MC_FORWARDING
    8, 0, 5, 0, 5, 0, 0, 0, // NETCONFA_PROXY_NEIGH
    8, 0, 6, 0, 6, 0, 0, 0, // NETCONFA_IGNORE_ROUTES_WITH_LINKDOWN
    8, 0, 7, 0, 7, 0, 0, 0, // NETCONFA_INPUT
    8, 0, 8, 0, 8, 0, 0, 0, // NETCONFA_BC_FORWARDING
    8, 0, 1, 0, 5, 0, 0, 0, // NETCONFA_IFINDEX
];

#[test]
fn settings_are_read(rt: HostRuntime) -> Result<(), Fail> {
    let expected = [
        (NETCONFA_IFINDEX, Value::I32(NETCONFA_IFINDEX_DEFAULT)),
        (NETCONFA_FORWARDING, Value::I32(2)),
        (NETCONFA_RP_FILTER, Value::I32(3)),
        (NETCONFA_MC_FORWARDING, Value::I32(4)),
        (NETCONFA_PROXY_NEIGH, Value::I32(5)),
        (NETCONFA_IGNORE_ROUTES_WITH_LINKDOWN, Value::I32(6)),
        (NETCONFA_INPUT, Value::I32(7)),
        (NETCONFA_BC_FORWARDING, Value::I32(8)),
        (NETCONFA_IFINDEX, Value::I32(5)),
    ];
    let message = MessageView::<NetworkConfigurations>::new(RTM_DELNETCONF, &SETTINGS)?;
    let view = message.view();
    assert!(rt; message.header().u8(NCM_FAMILY) == 28);
    assert!(rt; has_attributes(&view, &expected));
    // the first one counts
    assert!(rt; view.i32(NETCONFA_IFINDEX) == Some(-2));
    Ok(())
}

/// The first one in `examples/captured/monitor/stream.bin`
const PREFIX: [u8; 44] = [
    10, 0, 0, 0, 12, 0, 0, 0, 3, 64, 0xc0, 0, // struct prefixmsg: AF_INET6, link 12, 64 bits
    20, 0, 1, 0, 0x20, 1, 0x0d, 0xb8, 0, 9, 0, 0, 0, 0, 0, 0, 0, 0, 0, 0, // PREFIX_ADDRESS
    12, 0, 2, 0, 88, 2, 0, 0, 0x20, 0x1c, 0, 0, // PREFIX_CACHEINFO: struct prefix_cacheinfo
];

/// Returns whether the fields of a header are those of `PREFIX`.
fn has_fields(prefix: &MessageView<'_, Prefixes>) -> bool {
    let header = prefix.header();
    header.u8(PREFIX_FAMILY) == 10
        && header.i32(PREFIX_IFINDEX) == 12
        && header.u8(PREFIX_TYPE) == 3
        && header.u8(PREFIX_LEN) == 64
        && header.u8(PREFIX_FLAGS) == 0xc0
}

#[test]
fn a_prefix_is_read(rt: HostRuntime) -> Result<(), Fail> {
    let prefix = MessageView::<Prefixes>::new(RTM_NEWPREFIX, &PREFIX)?;
    assert!(rt; has_fields(&prefix));
    let view = prefix.view();
    assert!(rt; view.ip(PREFIX_ADDRESS) == Some(&PREFIX[16..32]));
    assert!(rt; view.bytes(PREFIX_CACHEINFO) == Some(&PREFIX[36..44]));
    Ok(())
}

#[test]
fn the_first_address_of_a_prefix_counts(rt: HostRuntime) -> Result<(), Fail> {
    let payload = [
        2, 0, 0, 0, 1, 0, 0, 0, 3, 24, 0, 0, // AF_INET
        8, 0, 1, 0, 192, 0, 2, 0, // PREFIX_ADDRESS
        8, 0, 1, 0, 198, 51, 100, 0, // PREFIX_ADDRESS
    ];
    let prefix = MessageView::<Prefixes>::new(RTM_NEWPREFIX, &payload)?;
    assert!(rt; prefix.view().ip(PREFIX_ADDRESS) == Some([192, 0, 2, 0].as_slice()));
    Ok(())
}

// A message type, the size of its header, attributes after a header of zeros, and their error; no text
// if they are valid.
const ERRORS: [(u16, usize, &[u8], &'static str); 9] = [
    (
        80,
        4,
        &[7, 0, 1, 0, 1, 2, 3, 0],
        "at byte 4, in policy 0: attribute 1 has a value of 3 bytes instead of 4",
    ),
    (
        81,
        4,
        &[9, 0, 8, 0, 1, 2, 3, 4, 5, 0, 0, 0],
        "at byte 4, in policy 0: attribute 8 has a value of 5 bytes instead of 4",
    ),
    (
        82,
        4,
        &[8, 0, 1, 0, 1, 2, 3],
        "at byte 4, in policy 0: an attribute of 8 bytes is truncated to 7",
    ),
    (80, 4, &[7, 0, 9, 0, 1, 2, 3, 0], ""),
    (
        52,
        12,
        &[7, 0, 1, 0, 1, 2, 3, 0],
        "at byte 12, in policy 0: attribute 1 has an address of 3 bytes instead of 4 or 16",
    ),
    (
        52,
        12,
        &[9, 0, 1, 0, 1, 2, 3, 4, 5, 0, 0, 0],
        "at byte 12, in policy 0: attribute 1 has an address of 5 bytes instead of 4 or 16",
    ),
    (
        52,
        12,
        &[11, 0, 2, 0, 1, 2, 3, 4, 5, 6, 7, 0],
        "at byte 12, in policy 0: attribute 2 has a value of 7 bytes instead of 8 or more",
    ),
    (
        52,
        12,
        &[13, 0, 2, 0, 1, 2, 3, 4, 5, 6, 7, 8, 9, 0, 0, 0],
        "",
    ),
    (53, 12, &[], "message type 53 is not known"),
];

#[test]
fn invalid_settings_and_prefixes_have_their_errors(rt: HostRuntime) -> Result<(), Fail> {
    for (message_type, header_len, attributes, text) in ERRORS.iter() {
        let found = error_text(rt.alloc(), *message_type, *header_len, attributes)?;
        assert_eq!(rt; found.as_str(), *text);
    }
    Ok(())
}
