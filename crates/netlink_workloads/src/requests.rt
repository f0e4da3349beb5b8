//! Requests that are made, written into datagrams, and normalized as a receiver does.

use crate::digest::Digest;
use crate::random::Random;
use netlink_family::{OwnedMessage, Value};
use netlink_packet_core::{NetlinkMessage, normalize};
use netlink_route::neighbours::{
    NDA_DST, NDA_IFINDEX, NDA_LLADDR, NDA_PROBES, NDM_FAMILY, NDM_IFINDEX, NDM_STATE, RTM_NEWNEIGH,
};
use netlink_route::routes::{
    RTA_DST, RTA_GATEWAY, RTA_METRICS, RTA_OIF, RTA_PRIORITY, RTA_TABLE, RTAX_MTU, RTM_DST_LEN,
    RTM_FAMILY, RTM_NEWROUTE, RTM_PROTOCOL, RTM_TYPE,
};
use netlink_route::{Neighbours, RouteMessage, Routes};
use netlink_tree::{Frames, append_frame};
use std::alloc::Global;

/// The size in bytes from which on a datagram is sent.
const DATAGRAM: usize = 32_000;

/// Makes this number of requests, two thirds of them for routes, in datagrams of 32 KB, and
/// normalizes each message of each. Returns the digest of what is normalized.
pub(crate) fn digest(alloc: Global, count: u32, seed: u32) -> Option<u64> {
    let mut random = Random::new(seed);
    let mut digest = Digest::new();
    let mut datagram = Vec::new(alloc);
    for number in 0..count {
        let frame = match number % 3 {
            0 => neighbour(alloc, &mut random)?,
            1 => route(alloc, &mut random)?,
            _ => metric(alloc, &mut random)?,
        };
        if datagram.len() % 4 != 0 {
            return None;
        }
        append_frame(alloc, &mut datagram, &frame).ok()?;
        if datagram.len() >= DATAGRAM {
            receive(alloc, &datagram, &mut digest)?;
            datagram.clear();
        }
    }
    receive(alloc, &datagram, &mut digest)?;
    Some(digest.value())
}

/// Normalizes each message of a datagram.
fn receive(alloc: Global, datagram: &[u8], digest: &mut Digest) -> Option<()> {
    for item in Frames::new(datagram) {
        let normal = normalize::<RouteMessage>(alloc, item.ok()?).ok()?;
        digest.bytes(&normal);
    }
    Some(())
}

/// Makes the request for a route.
fn route(alloc: Global, random: &mut Random) -> Option<Vec<u8>> {
    let mut route = OwnedMessage::<Routes>::new(alloc, RTM_NEWROUTE).ok()?;
    let to = random.next().to_be_bytes();
    let gateway = random.next().to_be_bytes();
    let metric = random.below(1000);
    let link = random.below(64);
    route.set_u8(RTM_FAMILY, 2);
    route.set_u8(RTM_DST_LEN, 24);
    route.set_u8(RTM_PROTOCOL, 186);
    route.set_u8(RTM_TYPE, 1);
    route.push(alloc, RTA_TABLE, Value::U32(254)).ok()?;
    route.try_push(alloc, RTA_DST, &to).ok()?;
    route.push(alloc, RTA_PRIORITY, Value::U32(metric)).ok()?;
    route.try_push(alloc, RTA_GATEWAY, &gateway).ok()?;
    route.push(alloc, RTA_OIF, Value::U32(link)).ok()?;
    NetlinkMessage::from_inner(route).into_frame(alloc).ok()
}

/// Makes the request for an IPv6 route with a metric in a nest.
fn metric(alloc: Global, random: &mut Random) -> Option<Vec<u8>> {
    let mut route = OwnedMessage::<Routes>::new(alloc, RTM_NEWROUTE).ok()?;
    let mut to = [0u8; 16];
    to[..4].copy_from_slice(&[0x20, 0x01, 0x0d, 0xb8]);
    to[4..8].copy_from_slice(&random.next().to_be_bytes());
    let mut nest = [8, 0, 0, 0, 0, 0, 0, 0];
    nest[2..4].copy_from_slice(&RTAX_MTU.to_le_bytes());
    nest[4..8].copy_from_slice(&random.below(9000).to_le_bytes());
    let link = random.below(64);
    route.set_u8(RTM_FAMILY, 10);
    route.set_u8(RTM_DST_LEN, 64);
    route.set_u8(RTM_PROTOCOL, 4);
    route.set_u8(RTM_TYPE, 1);
    route.try_push(alloc, RTA_DST, &to).ok()?;
    route.try_push(alloc, RTA_OIF, &link.to_le_bytes()).ok()?;
    route.try_push(alloc, RTA_METRICS, &nest).ok()?;
    NetlinkMessage::from_inner(route).into_frame(alloc).ok()
}

/// Makes the request for a neighbour.
fn neighbour(alloc: Global, random: &mut Random) -> Option<Vec<u8>> {
    let mut neighbour = OwnedMessage::<Neighbours>::new(alloc, RTM_NEWNEIGH).ok()?;
    let address = random.next().to_be_bytes();
    let [a, b, c, d] = random.next().to_be_bytes();
    let link = random.below(64);
    neighbour.set_u8(NDM_FAMILY, 2);
    neighbour.set_i32(NDM_IFINDEX, 3);
    neighbour.set_u16(NDM_STATE, 2);
    neighbour.try_push(alloc, NDA_DST, &address).ok()?;
    neighbour
        .try_push(alloc, NDA_LLADDR, &[2, 0, a, b, c, d])
        .ok()?;
    neighbour.push(alloc, NDA_PROBES, Value::U32(1)).ok()?;
    neighbour.push(alloc, NDA_IFINDEX, Value::U32(link)).ok()?;
    NetlinkMessage::from_inner(neighbour).into_frame(alloc).ok()
}
