//! A route that is made, and one with two next hops.

use crate::tests::samples::HOPS;
use netlink_family::{MessageView, OwnedMessage, Value};
use netlink_packet_core::NetlinkMessage;
use netlink_route::routes::{
    RTA_DST, RTA_GATEWAY, RTA_METRICS, RTA_OIF, RTA_TABLE, RTM_DST_LEN, RTM_FAMILY, RTM_NEWROUTE,
    RTM_PROTOCOL, RTM_TABLE, RTM_TYPE,
};
use netlink_route::{NextHops, RouteEntryMessage, Routes};
use std::test::Fail;

/// The route to 198.51.100.0/24 by 192.0.2.254 on link 3, with an MTU of 1400.
const ROUTE: [u8; 72] = [
    72, 0, 0, 0, 24, 0, 0, 0, 0, 0, 0, 0, 0, 0, 0, 0, // length 72, RTM_NEWROUTE
    2, 24, 0, 0, 254, 3, 0, 1, 0, 0, 0, 0, // AF_INET, 24 bits, table 254, RTPROT_BOOT, RTN_UNICAST
    8, 0, 15, 0, 254, 0, 0, 0, // RTA_TABLE
    8, 0, 1, 0, 198, 51, 100, 0, // RTA_DST
    8, 0, 4, 0, 3, 0, 0, 0, // RTA_OIF
    8, 0, 5, 0, 192, 0, 2, 254, // RTA_GATEWAY
    12, 0, 8, 0, 8, 0, 2, 0, 0x78, 5, 0, 0, // RTA_METRICS: RTAX_MTU
];

#[test]
fn a_route_is_made(rt: HostRuntime) -> Result<(), Fail> {
    let alloc = rt.alloc();
    let mut route: RouteEntryMessage = OwnedMessage::new(alloc, RTM_NEWROUTE)?;
    route.set_u8(RTM_FAMILY, 2);
    route.set_u8(RTM_DST_LEN, 24);
    route.set_u8(RTM_TABLE, 254);
    route.set_u8(RTM_PROTOCOL, 3);
    route.set_u8(RTM_TYPE, 1);
    route.push(alloc, RTA_TABLE, Value::U32(254))?;
    route.push(alloc, RTA_DST, Value::Ip(&[198, 51, 100, 0]))?;
    route.push(alloc, RTA_OIF, Value::U32(3))?;
    route.push(alloc, RTA_GATEWAY, Value::Ip(&[192, 0, 2, 254]))?;
    route.try_push(alloc, RTA_METRICS, &[8, 0, 2, 0, 0x78, 5, 0, 0])?;
    let frame = NetlinkMessage::from_inner(route).into_frame(alloc)?;
    assert_eq!(rt; frame.as_slice(), ROUTE.as_slice());
    Ok(())
}

#[test]
fn next_hops_are_read(rt: HostRuntime) -> Result<(), Fail> {
    let route = MessageView::<Routes>::new(RTM_NEWROUTE, &HOPS)?;
    match NextHops::new(&route.view()) {
        Some(mut hops) => {
            match hops.next() {
                Some(hop) => {
                    assert!(rt; hop.flags == 4 && hop.hops == 9 && hop.ifindex == 3);
                    assert!(rt; hop.attributes.ip(RTA_GATEWAY) == Some(&HOPS[36..40]));
                }
                None => assert!(rt; false),
            }
            match hops.next() {
                Some(hop) => {
                    assert!(rt; hop.flags == 0 && hop.hops == 0 && hop.ifindex == -2);
                    assert!(rt; hop.attributes.ip(RTA_GATEWAY) == None);
                }
                None => assert!(rt; false),
            }
            assert!(rt; hops.next() == None);
        }
        None => assert!(rt; false),
    }
    let none = MessageView::<Routes>::new(RTM_NEWROUTE, &HOPS[..20])?;
    assert!(rt; NextHops::new(&none.view()).is_none());
    Ok(())
}
