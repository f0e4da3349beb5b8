//! Messages as text.

use crate::tests::samples::decoded;
use std::test::Fail;

/// The payload of a link.
const LINK: [u8; 120] = [
    0, 0, 1, 0, 7, 0, 0, 0, 3, 16, 0, 0, 0, 0, 0, 0, // ARPHRD_ETHER, index 7, flags 0x1003
    6, 0, 3, 0, b'l', b'o', 0, 0, // IFLA_IFNAME without a NUL
    9, 0, 20, 0, b'c', b'a', b'f', 0xe9, 0, 0, 0, 0, // IFLA_IFALIAS in Latin-1
    8, 0, 4, 0, 0xdc, 5, 0, 0, // IFLA_MTU
    8, 0, 37, 0, 0xff, 0xff, 0xff, 0xff, // IFLA_LINK_NETNSID
    5, 0, 16, 0, 6, 0, 0, 0, // IFLA_OPERSTATE
    6, 0, 68, 0, 32, 0, 0, 0, // IFLA_HEADROOM
    10, 0, 1, 0, 2, 0, 0, 0, 0, 11, 0, 0, // IFLA_ADDRESS
    32, 0, 18, 0x80, // IFLA_LINKINFO with NLA_F_NESTED
    9, 0, 1, 0, b'v', b'l', b'a', b'n', 0, 0, 0, 0, // IFLA_INFO_KIND
    12, 0, 2, 0, 6, 0, 1, 0, 10, 0, 0, 0, // IFLA_INFO_DATA: IFLA_VLAN_ID
    4, 0, 3, 0, // IFLA_INFO_XSTATS
    6, 0, 100, 0, 1, 0xfe, 0, 0, // a kind without a row
];

const LINES: &'static str = "type 16
ifi_family: 0
ifi_type: 1
ifi_index: 7
ifi_flags: 4099
ifi_change: 0
IFLA_IFNAME: lo
IFLA_IFALIAS: caf\\e9
IFLA_MTU: 1500
IFLA_LINK_NETNSID: -1
IFLA_OPERSTATE: 6
IFLA_HEADROOM: 32
IFLA_ADDRESS: 02000000000b
IFLA_LINKINFO:
  IFLA_INFO_KIND: vlan
  IFLA_INFO_DATA:
    IFLA_VLAN_ID: 10
  IFLA_INFO_XSTATS: -
100: 01fe
";

#[test]
fn a_link_is_shown(rt: HostRuntime) -> Result<(), Fail> {
    let alloc = rt.alloc();
    let message = decoded(alloc, 16, &LINK)?;
    assert_eq!(rt; message.message_view().show(alloc)?.as_str(), LINES);
    Ok(())
}
