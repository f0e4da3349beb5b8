//! Dumps that are decoded, and attributes that are read by their kinds.

use crate::digest::Digest;
use crate::fields::{put_attr, put_message, set_u32, u16_of};
use crate::links::long_links;
use crate::random::Random;
use netlink_family::{BlockView, CheckedAttributes, Joined, MessageView, Value};
use netlink_packet_core::{NetlinkBuffer, NetlinkMessage, NetlinkPayload};
use netlink_route::links::{
    IFLA_ADDRESS, IFLA_AF_SPEC, IFLA_BROADCAST, IFLA_CARRIER, IFLA_GROUP, IFLA_IFALIAS,
    IFLA_IFNAME, IFLA_INFO_KIND, IFLA_LINK, IFLA_LINKINFO, IFLA_MASTER, IFLA_MTU, IFLA_OPERSTATE,
    IFLA_QDISC, IFLA_STATS64, IFLA_TXQLEN,
};
use netlink_route::neighbours::{NDA_CACHEINFO, NDA_DST, NDA_LLADDR, NDA_MASTER, NDA_PROBES};
use netlink_route::routes::{
    RTA_DST, RTA_GATEWAY, RTA_IIF, RTA_METRICS, RTA_MULTIPATH, RTA_OIF, RTA_PREFSRC, RTA_PRIORITY,
    RTA_SRC, RTA_TABLE,
};
use netlink_route::{RouteMessage, RouteTables};
use netlink_tree::Frames;
use std::alloc::{AllocError, Global};

/// The frames from which the messages of a dump are made: a route, whole links, and samples.
#[derive(Drop)]
struct Dump {
    random: Random,
    frames: Vec<Vec<u8>>,
    links: u32,
    samples: u32,
}

impl Dump {
    /// Takes the samples, and makes that of a route.
    fn new(alloc: Global, datagram: &[u8], seed: u32) -> Result<Dump, AllocError> {
        let mut frames = Vec::new(alloc);
        frames.push(route(alloc)?)?;
        let mut links = 0u32;
        for frame in long_links(alloc, datagram)? {
            frames.push(frame)?;
            links = links.saturating_add(1);
        }
        let mut samples = 0u32;
        for item in Frames::new(datagram) {
            match item {
                Ok(frame) => {
                    frames.push(Vec::from_slice(alloc, frame)?)?;
                    samples = samples.saturating_add(1);
                }
                Err(_) => {}
            }
        }
        Ok(Dump {
            random: Random::new(seed),
            frames,
            links,
            samples,
        })
    }

    /// Returns the next message: two thirds are routes, a thirtieth whole links, and the others the
    /// samples in any order. No two have the same payload: a route has its number as its priority, a
    /// link as its index, and a sample in the three bytes after its family.
    fn next(&mut self, number: u32) -> Option<&[u8]> {
        let chosen = self.random.below(30);
        let some = self.random.next();
        let at = match chosen {
            0..=19 => 0,
            20 => self.random.below(self.links).saturating_add(1),
            _ => self
                .random
                .below(self.samples)
                .saturating_add(self.links)
                .saturating_add(1),
        };
        let frame = self.frames.get_mut(at as usize)?.as_mut_slice();
        set_u32(frame, 8, number);
        if chosen < 20 {
            set_u32(frame, 40, some);
            set_u32(frame, 48, number);
            set_u32(frame, 56, some.rotate_left(8));
            set_u32(frame, 64, some & 63);
        } else if chosen == 20 {
            set_u32(frame, 20, number);
        } else {
            let family = u16_of(frame, 16) & 255;
            set_u32(frame, 16, (number << 8) | family as u32);
        }
        Some(frame)
    }
}

/// Returns a route with five attributes, whose values are at the bytes 32, 40, 48, 56 and 64.
fn route(alloc: Global) -> Result<Vec<u8>, AllocError> {
    let mut payload = Vec::new(alloc);
    payload.extend_from_slice(&[2, 24, 0, 0, 254, 186, 0, 1, 0, 0, 0, 0])?;
    put_attr(&mut payload, RTA_TABLE, &254u32.to_le_bytes())?;
    put_attr(&mut payload, RTA_DST, &[10, 0, 0, 0])?;
    put_attr(&mut payload, RTA_PRIORITY, &[20, 0, 0, 0])?;
    put_attr(&mut payload, RTA_GATEWAY, &[10, 0, 0, 1])?;
    put_attr(&mut payload, RTA_OIF, &[2, 0, 0, 0])?;
    let mut frame = Vec::new(alloc);
    put_message(&mut frame, 24, 0, &payload)?;
    Ok(frame)
}

/// Decodes this number of messages in the three forms by turns: owned, as a view, and in one pass.
/// Returns the digest of the attributes that were read.
pub(crate) fn digest(alloc: Global, samples: &[u8], count: u32, seed: u32) -> Option<u64> {
    let mut dump = Dump::new(alloc, samples, seed).ok()?;
    let mut digest = Digest::new();
    for number in 0..count {
        let frame = dump.next(number)?;
        match number % 3 {
            0 => add_owned(alloc, frame, &mut digest),
            1 => add_view(frame, &mut digest),
            _ => add_pass(frame, &mut digest),
        }
    }
    Some(digest.value())
}

/// Decodes a message as an owned one.
fn add_owned(alloc: Global, frame: &[u8], digest: &mut Digest) {
    match NetlinkMessage::<RouteMessage>::deserialize(alloc, frame) {
        Ok(message) => {
            digest.number(message.header.sequence_number as u64);
            match &message.payload {
                NetlinkPayload::InnerMessage(inner) => {
                    add_block(message.header.message_type, inner.view(), digest);
                }
                _ => digest.number(2),
            }
        }
        Err(_) => digest.number(1),
    }
}

/// Reads a message in place.
fn add_view(frame: &[u8], digest: &mut Digest) {
    let Ok(frame) = NetlinkBuffer::new_checked(frame) else {
        return;
    };
    let message_type = frame.message_type();
    match MessageView::<Joined<RouteTables>>::new(message_type, frame.payload()) {
        Ok(message) => add_block(message_type, message.view(), digest),
        Err(_) => digest.number(1),
    }
}

/// Reads the attributes of a message as they are checked.
fn add_pass(frame: &[u8], digest: &mut Digest) {
    let Ok(frame) = NetlinkBuffer::new_checked(frame) else {
        return;
    };
    let message_type = frame.message_type();
    match CheckedAttributes::<Joined<RouteTables>>::new(message_type, frame.payload()) {
        Ok(all) => {
            for item in all {
                match item {
                    Ok((kind, value)) => {
                        digest.number(kind as u64);
                        add_value(value, digest);
                    }
                    Err(_) => digest.number(3),
                }
            }
        }
        Err(_) => digest.number(1),
    }
}

/// Adds the attributes that programs read of messages of this type.
fn add_block(message_type: u16, block: BlockView<'_>, digest: &mut Digest) {
    match message_type {
        16 | 17 => add_link(block, digest),
        24 | 25 => add_route(block, digest),
        28 | 29 => add_neighbour(block, digest),
        _ => {
            for (kind, value) in block.attributes() {
                digest.number(kind as u64);
                add_value(value, digest);
            }
        }
    }
}

/// Adds attributes of a route.
fn add_route(block: BlockView<'_>, digest: &mut Digest) {
    add_bytes(block.ip(RTA_DST), digest);
    add_bytes(block.ip(RTA_SRC), digest);
    add_bytes(block.ip(RTA_GATEWAY), digest);
    add_bytes(block.ip(RTA_PREFSRC), digest);
    add_number(block.u32(RTA_TABLE), digest);
    add_number(block.u32(RTA_OIF), digest);
    add_number(block.u32(RTA_IIF), digest);
    add_number(block.u32(RTA_PRIORITY), digest);
    if let Some(metrics) = block.nest(RTA_METRICS) {
        add_number(metrics.u32(2), digest);
    }
    if let Some(hops) = block.nest(RTA_MULTIPATH) {
        digest.bytes(hops.block);
    }
}

/// Adds attributes of a neighbour.
fn add_neighbour(block: BlockView<'_>, digest: &mut Digest) {
    add_bytes(block.ip(NDA_DST), digest);
    add_bytes(block.bytes(NDA_LLADDR), digest);
    add_bytes(block.bytes(NDA_CACHEINFO), digest);
    add_number(block.u32(NDA_PROBES), digest);
    add_number(block.u32(NDA_MASTER), digest);
}

/// Adds attributes of a link.
fn add_link(block: BlockView<'_>, digest: &mut Digest) {
    add_bytes(block.str_bytes(IFLA_IFNAME), digest);
    add_bytes(block.bytes(IFLA_ADDRESS), digest);
    add_bytes(block.bytes(IFLA_BROADCAST), digest);
    add_bytes(block.str_bytes(IFLA_QDISC), digest);
    add_bytes(block.str_bytes(IFLA_IFALIAS), digest);
    add_bytes(block.bytes(IFLA_STATS64), digest);
    add_number(block.u32(IFLA_MTU), digest);
    add_number(block.u32(IFLA_LINK), digest);
    add_number(block.u32(IFLA_MASTER), digest);
    add_number(block.u32(IFLA_GROUP), digest);
    add_number(block.u32(IFLA_TXQLEN), digest);
    add_byte(block.u8(IFLA_OPERSTATE), digest);
    add_byte(block.u8(IFLA_CARRIER), digest);
    if let Some(info) = block.nest(IFLA_LINKINFO) {
        add_bytes(info.str_bytes(IFLA_INFO_KIND), digest);
    }
    if let Some(families) = block.nest(IFLA_AF_SPEC) {
        digest.bytes(families.block);
    }
}

fn add_number(number: Option<u32>, digest: &mut Digest) {
    match number {
        Some(number) => digest.number(number as u64),
        None => digest.number(u64::MAX),
    }
}

fn add_byte(number: Option<u8>, digest: &mut Digest) {
    match number {
        Some(number) => digest.number(number as u64),
        None => digest.number(u64::MAX),
    }
}

fn add_bytes(bytes: Option<&[u8]>, digest: &mut Digest) {
    match bytes {
        Some(bytes) => digest.bytes(bytes),
        None => digest.number(u64::MAX),
    }
}

/// Adds the number or the bytes of a value.
fn add_value(value: Value<'_>, digest: &mut Digest) {
    match value {
        Value::U8(number) => digest.number(number as u64),
        Value::U16(number) | Value::Be16(number) => digest.number(number as u64),
        Value::U32(number) | Value::Be32(number) => digest.number(number as u64),
        Value::U64(number) | Value::Be64(number) => digest.number(number),
        Value::I32(number) => digest.number(number.cast_unsigned() as u64),
        Value::I64(number) => digest.number(number.cast_unsigned()),
        Value::ExactLen(bytes)
        | Value::Ip(bytes)
        | Value::NulStr(bytes)
        | Value::Str(bytes)
        | Value::MinLen(_, bytes)
        | Value::Bytes(bytes) => digest.bytes(bytes),
        Value::Nested(nest) => digest.bytes(nest.block),
        Value::HeaderNested(_, nest) => digest.bytes(nest.block),
        // A flag, or a shape that no table has here and that older versions lack.
        _ => digest.number(1),
    }
}
