//! Paths to an offset in a request.

use netlink_replies::{ExtendedAck, Path};
use std::test::Fail;

/// `link-new-bridge-request` of `examples/captured`: attributes from offset 32 on.
const BRIDGE: [u8; 76] = [
    76, 0, 0, 0, 16, 0, 5, 6, 1, 0, 0, 0, 0, 0, 0, 0, // length 76, RTM_NEWLINK
    0, 0, 0, 0, 0, 0, 0, 0, 0, 0, 0, 0, 0, 0, 0, 0, // header of zeros
    13, 0, 3, 0, b'b', b'r', b'i', b'd', b'g', b'e', b'-', b'1', 0, 0, 0, 0, // IFLA_IFNAME
    28, 0, 18, 0x80, // IFLA_LINKINFO
    11, 0, 1, 0, b'b', b'r', b'i', b'd', b'g', b'e', 0, 0, // IFLA_INFO_KIND
    12, 0, 2, 0x80, 8, 0, 5, 0, 1, 0, 0, 0, // IFLA_INFO_DATA: IFLA_BR_STP_STATE
];

/// Whether a path has exactly these kinds.
fn has_kinds(path: Path<'_>, expected: &[u16]) -> bool {
    let mut left = expected.iter();
    for kind in path {
        match left.next() {
            Some(wanted) => {
                if kind != *wanted {
                    return false;
                }
            }
            None => return false,
        }
    }
    left.next().is_none()
}

/// Whether the path to this offset of `BRIDGE` has exactly these kinds.
pub fn leads(offset: u8, expected: &[u16]) -> bool {
    let attributes = [8, 0, 2, 0, offset, 0, 0, 0];
    let ack = ExtendedAck {
        attributes: &attributes,
    };
    has_kinds(ack.path(&BRIDGE, 16), expected)
}

#[test]
fn a_path_leads_to_the_innermost_attribute(rt: HostRuntime) -> Result<(), Fail> {
    assert!(rt; leads(32, &[3])); // IFLA_IFNAME
    assert!(rt; leads(48, &[18])); // IFLA_LINKINFO
    assert!(rt; leads(52, &[18, 1])); // IFLA_INFO_KIND
    assert!(rt; leads(64, &[18, 2])); // IFLA_INFO_DATA
    assert!(rt; leads(68, &[18, 2, 5])); // IFLA_BR_STP_STATE
    assert!(rt; leads(75, &[18, 2, 5]));
    Ok(())
}

#[test]
fn an_offset_outside_of_the_attributes_has_no_path(rt: HostRuntime) -> Result<(), Fail> {
    assert!(rt; leads(0, &[]));
    assert!(rt; leads(31, &[]));
    assert!(rt; leads(45, &[])); // padding of IFLA_IFNAME
    assert!(rt; leads(76, &[]));
    Ok(())
}

#[test]
fn a_malformed_request_has_no_path(rt: HostRuntime) -> Result<(), Fail> {
    assert!(rt; has_kinds(Path::new(&BRIDGE[32..75], 16), &[]));
    assert!(rt; has_kinds(Path::new(&BRIDGE[32..], 16), &[18]));
    Ok(())
}

#[test]
fn without_an_offset_there_is_no_path(rt: HostRuntime) -> Result<(), Fail> {
    let ack = ExtendedAck { attributes: &[] };
    assert!(rt; has_kinds(ack.path(&BRIDGE, 16), &[]));
    assert!(rt; has_kinds(ack.path(&BRIDGE, usize::MAX), &[]));
    Ok(())
}
