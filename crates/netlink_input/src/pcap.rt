//! Pcap files: their numbers, the header by which one is recognized, and why one, or a pcapng file,
//! is not read.
//!
//! The format is that of libpcap (pcap-savefile) with the link type `LINKTYPE_NETLINK`.

ghost use Rattle.std.specs.Prelude.{◌≡◌, ◌≤◌, ◌+◌, Some, length};
ghost use Rattle.netlink_input.specs.Pcap.{is_nano, is_pcap, layout_of, link_type_name, number_in, order_of, pcap_layout, pcap_text, unread};

use crate::stream::{Cause, Stop};
use netlink_packet_core::{parse_u16_be, parse_u16_le, parse_u32_be, parse_u32_le, u32_at};
use std::fmt;

/// The size in bytes of the magic number of a file.
pub const MAGIC_LEN: usize = 4;

/// The size in bytes of the header of a file.
pub const FILE_HEADER_LEN: usize = 24;

/// The magic numbers: of files with times in microseconds and in nanoseconds; the same in the other
/// byte order; and that of pcapng.
const MICROSECONDS: u32 = 0xa1b2_c3d4;

const NANOSECONDS: u32 = 0xa1b2_3c4d;

const MICROSECONDS_SWAPPED: u32 = 0xd4c3_b2a1;

const NANOSECONDS_SWAPPED: u32 = 0x4d3c_b2a1;

pub(crate) const PCAPNG: u32 = 0x0a0d_0d0a;

/// The link type of netlink.
pub(crate) const NETLINK: u32 = 253;

/// The byte order of the numbers in the headers of a file.
#[derive(Clone, Copy, Debug, PartialEq, Eq)]
pub enum Order {
    /// The least byte first.
    Little,
    /// The least byte last.
    Big,
}

/// Why a pcap or pcapng file is not read, or not read on.
#[derive(Clone, Copy, Debug, PartialEq, Eq)]
pub enum PcapFault {
    /// Its header has this number of bytes instead of 24.
    HeaderCut(usize),
    /// Its version, which is this, is not 2.4.
    Version(u16, u16),
    /// Its link type, which is this, is not 253.
    LinkType(u32),
    /// The header of a packet has this number of bytes instead of 16.
    PacketShort(usize),
    /// A packet of this number of bytes is longer than 1048576.
    PacketLong(u32),
    /// A packet has a captured length, which is first, and ends after fewer bytes.
    PacketCut(u32, usize),
    /// The header of a block has fewer bytes, the first number, than its type wants.
    BlockShort(usize, usize),
    /// The magic number in the header of a section is that of neither byte order.
    SectionOrder,
    /// The major version of a section, which is this, is not 1.
    SectionVersion(u16),
    /// The length of a block, which is this, is no multiple of 4.
    BlockUneven(u32),
    /// The length of a block, which is first, is less than its type wants.
    BlockSmall(u32, u32),
    /// The link type of an interface, which is this, is not 253.
    InterfaceType(u32),
    /// A packet is of this interface, and its section has this number of them.
    Interface(u32, u32),
    /// A packet has this number of captured bytes, and its block has room for fewer.
    PacketOver(u32, u32),
    /// A block has a length, which is first, and ends after fewer bytes.
    BlockCut(u32, usize),
    /// A block has a length, which is first, and another one at its end.
    BlockEnds(u32, u32),
}

/// What an input is.
#[derive(Debug, Drop, PartialEq, Eq)]
pub enum Layout {
    /// Messages, as in a datagram.
    Messages,
    /// The header of a pcap file, and then packets.
    Packets(Order),
    /// The blocks of a pcapng file.
    Blocks,
    /// A file that is not read, and why.
    Unread(Stop),
}

impl fmt::Display for PcapFault {
    ghost output = { λ fault. Some (pcap_text fault) };

    fn fmt<W: fmt::Write>(&self, f: &mut fmt::Formatter<W>) -> fmt::Result {
        match *self {
            PcapFault::HeaderCut(size) => {
                write!(f, "the header of a pcap file is cut to {size} of 24 bytes")
            }
            PcapFault::Version(major, minor) => write!(
                f,
                "the version of the pcap file is {major}.{minor} instead of 2.4"
            ),
            PcapFault::LinkType(link_type) => {
                let name = link_type_name(link_type);
                write!(
                    f,
                    "the link type of the pcap file is {link_type}{name} instead of 253 (NETLINK)"
                )
            }
            PcapFault::PacketShort(size) => {
                write!(f, "the header of a packet is cut to {size} of 16 bytes")
            }
            PcapFault::PacketLong(size) => {
                write!(f, "a packet of {size} bytes is longer than 1048576")
            }
            PcapFault::PacketCut(captured, size) => {
                write!(f, "a packet is cut to {size} of {captured} bytes")
            }
            PcapFault::BlockShort(size, least) => {
                write!(f, "the header of a block is cut to {size} of {least} bytes")
            }
            PcapFault::SectionOrder => f.write_str("a section has neither byte order"),
            PcapFault::SectionVersion(major) => {
                write!(f, "the major version of a section is {major} instead of 1")
            }
            PcapFault::BlockUneven(size) => {
                write!(f, "the length of a block is {size}, no multiple of 4")
            }
            PcapFault::BlockSmall(size, least) => {
                write!(f, "the length of a block is {size}, less than {least}")
            }
            PcapFault::InterfaceType(link_type) => {
                let name = link_type_name(link_type);
                write!(
                    f,
                    "the link type of an interface is {link_type}{name} instead of 253 (NETLINK)"
                )
            }
            PcapFault::Interface(id, count) => {
                write!(f, "a packet of interface {id} in a section with {count}")
            }
            PcapFault::PacketOver(captured, room) => {
                write!(
                    f,
                    "a block has room for {room} of the {captured} bytes of a packet"
                )
            }
            PcapFault::BlockCut(length, size) => {
                write!(f, "a block is cut to {size} of {length} bytes")
            }
            PcapFault::BlockEnds(length, end) => write!(
                f,
                "the length of a block is {length} at its start and {end} at its end"
            ),
        }
    }
}

/// Returns the name of a link type after a space, for some that are common.
fn link_type_name(link_type: u32) -> &'static str
    ensures { result.now ≡ link_type_name link_type }
{
    match link_type {
        0 => " (NULL)",
        1 => " (ETHERNET)",
        101 => " (RAW)",
        113 => " (LINUX_SLL)",
        276 => " (LINUX_SLL2)",
        _ => "",
    }
}

/// Returns the number in the 2 bytes at an offset.
pub fn u16_in(order: Order, bytes: &[u8], at: usize) -> u16
    requires inside { at + 2 ≤ length bytes.now }
    ensures number { result ≡ number_in order at 2 bytes.now }
{
    let part = &bytes[at..at + 2];
    let number = match order {
        Order::Little => parse_u16_le(part),
        Order::Big => parse_u16_be(part),
    };
    number.unwrap_or(0)
}

/// Returns the number in the 4 bytes at an offset.
pub fn u32_in(order: Order, bytes: &[u8], at: usize) -> u32
    requires inside { at + 4 ≤ length bytes.now }
    ensures number { result ≡ number_in order at 4 bytes.now }
{
    let part = &bytes[at..at + 4];
    let number = match order {
        Order::Little => parse_u32_le(part),
        Order::Big => parse_u32_be(part),
    };
    number.unwrap_or(0)
}

/// Returns the byte order of a pcap file by its magic number, read as little-endian, and `None` if
/// it is not that of a pcap file.
fn order_of(magic: u32) -> Option<Order>
    ensures { result ≡ order_of magic }
{
    if magic == MICROSECONDS || magic == NANOSECONDS {
        return Some(Order::Little);
    }
    if magic == MICROSECONDS_SWAPPED || magic == NANOSECONDS_SWAPPED {
        return Some(Order::Big);
    }
    None
}

/// Returns whether bytes start with the magic number of a pcap file.
pub fn is_pcap(first: &[u8]) -> bool
    ensures { result ≡ is_pcap first.now }
{
    first.len() >= MAGIC_LEN && order_of(u32_at(first, 0)).is_some()
}

/// Returns whether the times of a pcap file with this byte order, which starts so, are in
/// nanoseconds.
pub fn is_nano(order: Order, first: &[u8]) -> bool
    requires magic { 4 ≤ length first.now }
    ensures { result ≡ is_nano order first.now }
{
    u32_in(order, first, 0) == NANOSECONDS
}

/// Returns what an input is, by its first bytes: four, or all if it has fewer, and the whole header
/// of a pcap file, as far as the input has it.
pub fn layout_of(first: &[u8]) -> Layout
    ensures layout { result ≡ layout_of first.now }
{
    if first.len() < MAGIC_LEN {
        return Layout::Messages;
    }
    let magic = u32_at(first, 0);
    if magic == PCAPNG {
        return Layout::Blocks;
    }
    match order_of(magic) {
        Some(order) => pcap_layout(order, first),
        None => Layout::Messages,
    }
}

/// Returns what a pcap file is by its header, which has fewer than 24 bytes if the input has.
fn pcap_layout(order: Order, header: &[u8]) -> Layout
    ensures { result ≡ pcap_layout order header.now }
{
    if header.len() < FILE_HEADER_LEN {
        return unread(0, PcapFault::HeaderCut(header.len()));
    }
    let major = u16_in(order, header, 4);
    let minor = u16_in(order, header, 6);
    if !(major == 2 && minor == 4) {
        return unread(4, PcapFault::Version(major, minor));
    }
    let link_type = u32_in(order, header, 20);
    if link_type != NETLINK {
        return unread(20, PcapFault::LinkType(link_type));
    }
    Layout::Packets(order)
}

/// Returns the layout of a file that is not read for this cause at this offset.
fn unread(at: u64, why: PcapFault) -> Layout
    ensures { result ≡ unread at why }
{
    Layout::Unread(Stop {
        at,
        cause: Cause::Pcap(why),
    })
}
