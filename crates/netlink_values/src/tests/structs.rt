//! Structs of the kernel, by the offsets in its headers: whole, and cut before and in a field.

use crate::route_structs::{
    IFA_CACHEINFO_CSTAMP, IFA_CACHEINFO_PREFERED, IFA_CACHEINFO_TSTAMP, IFA_CACHEINFO_VALID,
    NDA_CACHEINFO_CONFIRMED, NDA_CACHEINFO_REFCNT, NDA_CACHEINFO_UPDATED, NDA_CACHEINFO_USED,
    PORT_RANGE_HIGH, PORT_RANGE_LOW, RTA_CACHEINFO_ERROR, RTA_CACHEINFO_EXPIRES, STATS64_RX_BYTES,
    STATS64_RX_PACKETS, STATS64_TX_BYTES, STATS64_TX_ERRORS, STATS64_TX_PACKETS,
};
use crate::struct_view::StructView;
use netlink_blocks::header_view::Field;
use netlink_shapes::shape::Shape;

/// What a kernel sent for a route that expires in 2,999.74 seconds, in hundredths of a second.
const CACHE: [u8; 32] = [
    0, 0, 0, 0, 0, 0, 0, 0, 198, 147, 4, 0, 0, 0, 0, 0, 0, 0, 0, 0, 0, 0, 0, 0, 0, 0, 0, 0, 0, 0,
    0, 0,
];

/// `struct sockaddr_in` of linux/in.h.
const SIN_FAMILY: Field = ("sin_family", 0, Shape::U16);

const SIN_PORT: Field = ("sin_port", 2, Shape::Be16);

const SIN_ADDR: Field = ("sin_addr", 4, Shape::Be32);

const SIN_ZERO: Field = ("__pad", 8, Shape::ExactLen(8));

/// 192.0.2.1, port 80.
const ADDRESS: [u8; 16] = [2, 0, 0, 80, 192, 0, 2, 1, 1, 2, 3, 4, 5, 6, 7, 8];

/// Fields of other shapes in the same bytes.
const BYTE: Field = ("byte", 3, Shape::U8);

const LONG: Field = ("long", 8, Shape::U64);

const SIGNED: Field = ("signed", 8, Shape::I64);

const BIG: Field = ("big", 8, Shape::Be64);

#[test]
fn a_route_has_its_cache_info(rt: HostRuntime) {
    let cache = StructView { bytes: &CACHE };
    assert!(rt; cache.i32(RTA_CACHEINFO_EXPIRES) == Some(299_974));
    assert!(rt; cache.u32(RTA_CACHEINFO_ERROR) == Some(0));
    let cut = StructView {
        bytes: &CACHE[..12],
    };
    assert!(rt; cut.i32(RTA_CACHEINFO_EXPIRES) == Some(299_974));
    assert!(rt; cut.u32(RTA_CACHEINFO_ERROR) == None);
    let inside = StructView {
        bytes: &CACHE[..11],
    };
    assert!(rt; inside.i32(RTA_CACHEINFO_EXPIRES) == None);
}

#[test]
fn an_address_has_its_port(rt: HostRuntime) {
    let address = StructView { bytes: &ADDRESS };
    assert!(rt; address.u16(SIN_FAMILY) == Some(2));
    assert!(rt; address.be16(SIN_PORT) == Some(80));
    assert!(rt; address.be32(SIN_ADDR) == Some(0xc000_0201));
    assert!(rt; address.exact(SIN_ZERO) == Some(&ADDRESS[8..]));
}

#[test]
fn integers_have_their_byte_order(rt: HostRuntime) {
    let view = StructView { bytes: &ADDRESS };
    assert!(rt; view.u8(BYTE) == Some(80));
    assert!(rt; view.u64(LONG) == Some(0x0807_0605_0403_0201));
    assert!(rt; view.i64(SIGNED) == Some(0x0807_0605_0403_0201));
    assert!(rt; view.be64(BIG) == Some(0x0102_0304_0506_0708));
}

#[test]
fn a_short_value_lacks_fields(rt: HostRuntime) {
    let short = StructView {
        bytes: &ADDRESS[..3],
    };
    assert!(rt; short.u16(SIN_FAMILY) == Some(2));
    assert!(rt; short.be16(SIN_PORT) == None);
    assert!(rt; short.be32(SIN_ADDR) == None);
    assert!(rt; short.exact(SIN_ZERO) == None);
    assert!(rt; short.u8(BYTE) == None);
    assert!(rt; short.u64(LONG) == None);
    assert!(rt; short.i64(SIGNED) == None);
    assert!(rt; short.be64(BIG) == None);
}

/// `IFA_CACHEINFO` of an address that stays, as a kernel sent it.
const FOREVER: [u8; 16] = [
    0xff, 0xff, 0xff, 0xff, 0xff, 0xff, 0xff, 0xff, 0x34, 0x17, 8, 0, 0x34, 0x17, 8, 0,
];

/// `NDA_CACHEINFO` of a neighbour, as a kernel sent it.
const AGES: [u8; 16] = [0x82, 0x17, 0, 0, 0x12, 0, 0, 0, 0x12, 0, 0, 0, 0, 0, 0, 0];

/// The first counters of a link, as a kernel sent them.
const COUNTERS: [u8; 40] = [
    4, 0, 0, 0, 0, 0, 0, 0, 1, 0, 0, 0, 0, 0, 0, 0, 0x6c, 1, 0, 0, 0, 0, 0, 0, //
    0x5a, 0, 0, 0, 0, 0, 0, 0, 0, 0, 0, 0, 0, 0, 0, 0,
];

#[test]
fn captured_structs_have_their_fields(rt: HostRuntime) {
    let address = StructView { bytes: &FOREVER };
    assert!(rt; address.u32(IFA_CACHEINFO_PREFERED) == Some(u32::MAX));
    assert!(rt; address.u32(IFA_CACHEINFO_VALID) == Some(u32::MAX));
    assert!(rt; address.u32(IFA_CACHEINFO_CSTAMP) == Some(530_228));
    assert!(rt; address.u32(IFA_CACHEINFO_TSTAMP) == Some(530_228));
    let neighbour = StructView { bytes: &AGES };
    assert!(rt; neighbour.u32(NDA_CACHEINFO_CONFIRMED) == Some(6_018));
    assert!(rt; neighbour.u32(NDA_CACHEINFO_USED) == Some(18));
    assert!(rt; neighbour.u32(NDA_CACHEINFO_UPDATED) == Some(18));
    assert!(rt; neighbour.u32(NDA_CACHEINFO_REFCNT) == Some(0));
}

#[test]
fn a_link_has_its_counters(rt: HostRuntime) {
    let link = StructView { bytes: &COUNTERS };
    assert!(rt; link.u64(STATS64_RX_PACKETS) == Some(4));
    assert!(rt; link.u64(STATS64_TX_PACKETS) == Some(1));
    assert!(rt; link.u64(STATS64_RX_BYTES) == Some(364));
    assert!(rt; link.u64(STATS64_TX_BYTES) == Some(90));
    assert!(rt; link.u64(STATS64_TX_ERRORS) == None);
    // ports 8,000 and 9,000 by hand
    let ports = StructView {
        bytes: &[0x1f, 0x40, 0x23, 0x28],
    };
    assert!(rt; ports.be16(PORT_RANGE_LOW) == Some(8_000));
    assert!(rt; ports.be16(PORT_RANGE_HIGH) == Some(9_000));
}
