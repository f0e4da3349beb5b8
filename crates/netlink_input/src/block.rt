//! A block of a pcapng file, by its first bytes.
//!
//! The format is that of the draft "PCAP Now Generic (pcapng) Capture File Format".

ghost use Rattle.std.specs.Prelude.{◌≡◌, ◌≤◌, ◌+◌, None, Some, IfOk, IfSome, length};
ghost use Rattle.netlink_input.specs.Block.{after_option, block_of, count_in, enhanced_block, fixed_of, head_size, interface_block, kept_size, magic_order, one_more, options_end, other_block, packet_block, resolution_of, section_block, section_in, simple_block, size_fault, snapped, start, with_interface};
ghost use Rattle.netlink_input.specs.Pcap.{number_in};

use crate::packet::Extent;
use crate::pcap::{NETLINK, Order, PCAPNG, PcapFault, u16_in, u32_in};
use crate::stream::LONGEST;
use crate::time::{Time, clock_time};

/// The size in bytes of what each block starts with: its type and its length.
pub const BLOCK_HEAD_LEN: usize = 8;

/// The size in bytes of the length at the end of a block.
pub const BLOCK_END_LEN: usize = 4;

/// The types of the blocks that are read: the header of a section has the number that starts a
/// file.
const INTERFACE: u32 = 1;

const SIMPLE: u32 = 3;

const ENHANCED: u32 = 6;

/// The resolution of times in microseconds, and the option of an interface for another
/// (`if_tsresol`).
const MICROSECONDS: u8 = 6;

const RESOLUTION: u16 = 9;

/// The magic number in the header of a section.
const BYTE_ORDER: u32 = 0x1a2b_3c4d;

const BYTE_ORDER_SWAPPED: u32 = 0x4d3c_2b1a;

/// What the blocks so far tell of the section.
#[derive(Clone, Copy, Debug, PartialEq, Eq)]
pub struct Section {
    /// The byte order of its numbers.
    pub order: Order,
    /// The number of its interfaces, of which at most 2^32 - 1 are counted.
    pub interfaces: u32,
    /// The number of bytes of a packet of the first interface that are captured, or 0 for all.
    pub snap: u32,
    /// How the first interface counts its times.
    pub resolution: u8,
    /// How many interfaces from the first on count their times like it.
    pub timed: u32,
}

/// A block.
#[derive(Clone, Copy, Debug, PartialEq, Eq)]
pub struct Block {
    /// Its size in bytes.
    pub size: u32,
    /// What is known of the section after it.
    pub section: Section,
    /// The packet in it, if it has one.
    pub packet: Option<Extent>,
    /// The time of the packet, if it is known.
    pub time: Option<Time>,
}

impl Section {
    /// Returns what is known before the first block of a file, which is the header of a section.
    pub fn start() -> Section
        ensures { result ≡ start }
    {
        Section {
            order: Order::Little,
            interfaces: 0,
            snap: 0,
            resolution: MICROSECONDS,
            timed: 0,
        }
    }
}

/// Returns the size of what a block of this type and length starts with: all that is read of it,
/// except a packet.
fn fixed_of(kind: u32, size: u32) -> usize
    ensures { result ≡ fixed_of kind size }
{
    match kind {
        PCAPNG => 24,
        INTERFACE => options_end(size),
        ENHANCED => 28,
        SIMPLE => 12,
        _ => BLOCK_HEAD_LEN,
    }
}

/// Returns the offset at which the options of an interface end, in a block of this length. A block
/// of more than 1048576 bytes counts as one without options.
fn options_end(size: u32) -> usize
    ensures { result ≡ options_end size }
{
    if size < 20 || size as usize > LONGEST {
        return 16;
    }
    size as usize - BLOCK_END_LEN
}

/// Returns how many bytes at the start of a block have to be read, by those that were: 8 tell it.
pub fn head_size(order: Order, head: &[u8]) -> usize
    ensures { result ≡ head_size order head.now }
{
    if head.len() < BLOCK_HEAD_LEN {
        return BLOCK_HEAD_LEN;
    }
    fixed_of(u32_in(order, head, 0), u32_in(order, head, 4))
}

/// Returns a block by its first bytes, or why it cannot be read. Requires those that `head_size`
/// says.
///
/// Returns `SectionOrder` if the byte order of a section is unknown; `BlockUneven` or `BlockSmall`
/// if the length is no multiple of 4, or too small for the type; `SectionVersion` if the major
/// version of a section is not 1; `InterfaceType` if the link type of an interface is not netlink;
/// `Interface` if the section has no such interface; `PacketLong` if more than 1048576 bytes were
/// captured, and `PacketOver` if more than the block has room for.
pub fn block_of(section: Section, head: &[u8]) -> Result<Block, PcapFault>
    requires whole { length head.now ≡ head_size section.order head.now }
    requires eight { 8 ≤ length head.now }
    ensures is { result ≡ block_of section head.now }
    ensures room { IfOk result (λ block. kept_size block head.now + 4 ≤ block.size) }
    ensures kept { IfOk result (λ block. length head.now ≤ kept_size block head.now) }
    ensures short { IfOk result (λ block. IfSome block.packet (λ packet. packet.from ≤ 28)) }
{
    match u32_in(section.order, head, 0) {
        PCAPNG => section_block(head),
        INTERFACE => interface_block(section, head),
        ENHANCED => enhanced_block(section, head),
        SIMPLE => simple_block(section, head),
        _ => other_block(section, head),
    }
}

/// Returns how many bytes of a block are kept: those that it starts with, and its packet.
pub fn kept_size(block: &Block, head: &[u8]) -> usize
    requires short { IfSome block.now.packet (λ packet. packet.from ≤ 28) }
    ensures { result ≡ kept_size block.now head.now }
{
    match block.packet {
        Some(packet) => packet.from + packet.captured as usize,
        None => head.len(),
    }
}

/// Returns what is wrong with the length of a block, which has to be at least this.
fn size_fault(size: u32, least: u32) -> Option<PcapFault>
    ensures { result ≡ size_fault size least }
{
    if size % 4 != 0 {
        return Some(PcapFault::BlockUneven(size));
    }
    if size < least {
        return Some(PcapFault::BlockSmall(size, least));
    }
    None
}

/// Returns the byte order by the magic number of a section, which is read as little-endian.
fn magic_order(magic: u32) -> Option<Order>
    ensures { result ≡ magic_order magic }
{
    match magic {
        BYTE_ORDER => Some(Order::Little),
        BYTE_ORDER_SWAPPED => Some(Order::Big),
        _ => None,
    }
}

/// Returns the header of a section.
fn section_block(head: &[u8]) -> Result<Block, PcapFault>
    requires whole { length head.now ≡ 24 }
    ensures is { result ≡ section_block head.now }
    ensures room { IfOk result (λ block. (block.packet ≡ None) × (28 ≤ block.size)) }
{
    match magic_order(u32_in(Order::Little, head, 8)) {
        Some(order) => section_in(order, head),
        None => Err(PcapFault::SectionOrder),
    }
}

/// Returns the header of a section with this byte order.
fn section_in(order: Order, head: &[u8]) -> Result<Block, PcapFault>
    requires whole { length head.now ≡ 24 }
    ensures is { result ≡ section_in (Some order) head.now }
    ensures room { IfOk result (λ block. (block.packet ≡ None) × (28 ≤ block.size)) }
{
    let size = u32_in(order, head, 4);
    if let Some(why) = size_fault(size, 28) {
        return Err(why);
    }
    let major = u16_in(order, head, 12);
    if major != 1 {
        return Err(PcapFault::SectionVersion(major));
    }
    let section = Section {
        order,
        interfaces: 0,
        snap: 0,
        resolution: MICROSECONDS,
        timed: 0,
    };
    Ok(Block {
        size,
        section,
        packet: None,
        time: None,
    })
}

/// Returns one more, up to 2^32 - 1.
fn one_more(count: u32) -> u32
    ensures { result ≡ one_more count }
{
    if count < u32::MAX {
        return count + 1;
    }
    count
}

/// Returns what is known of a section after one more interface.
fn with_interface(section: Section, snap: u32, resolution: u8) -> Section
    ensures { result ≡ with_interface section snap resolution }
{
    let interfaces = one_more(section.interfaces);
    if section.interfaces == 0 {
        return Section {
            order: section.order,
            interfaces,
            snap,
            resolution,
            timed: 1,
        };
    }
    let is_alike = section.timed == section.interfaces && section.resolution == resolution;
    Section {
        order: section.order,
        interfaces,
        snap: section.snap,
        resolution: section.resolution,
        timed: if is_alike { interfaces } else { section.timed },
    }
}

/// Returns how an interface with these options counts its times: in microseconds, unless an option
/// says otherwise.
fn resolution_of(order: Order, options: &[u8]) -> u8
    ensures { result ≡ resolution_of order options.now }
{
    let mut rest = options;
    for _ in 0..options.len() / 4 {
        if rest.len() < 4 {
            return MICROSECONDS;
        }
        let kind = u16_in(order, rest, 0);
        if kind == RESOLUTION && rest.len() > 4 {
            return rest[4];
        }
        if kind == 0 {
            return MICROSECONDS;
        }
        rest = after_option(rest, u16_in(order, rest, 2));
    }
    MICROSECONDS
}

/// Returns what follows an option with a value of this size, and its padding.
fn after_option(rest: &[u8], size: u16) -> &[u8]
    ensures { result.now ≡ after_option rest.now size }
{
    let padded = (size as usize + 3) / 4 * 4;
    match rest.split_at_checked(4 + padded) {
        Some((_, after)) => after,
        None => &[],
    }
}

/// Returns the description of an interface.
fn interface_block(section: Section, head: &[u8]) -> Result<Block, PcapFault>
    requires whole { length head.now ≡ options_end (number_in section.order 4 4 head.now) }
    ensures is { result ≡ interface_block section head.now }
    ensures room { IfOk result (λ block. (block.packet ≡ None) × (length head.now + 4 ≤ block.size)) }
{
    let size = u32_in(section.order, head, 4);
    if let Some(why) = size_fault(size, 20) {
        return Err(why);
    }
    let link_type = u16_in(section.order, head, 8) as u32;
    if link_type != NETLINK {
        return Err(PcapFault::InterfaceType(link_type));
    }
    let resolution = resolution_of(section.order, &head[16..]);
    let section = with_interface(section, u32_in(section.order, head, 12), resolution);
    Ok(Block {
        size,
        section,
        packet: None,
        time: None,
    })
}

/// Returns a block with a packet in its own header.
fn enhanced_block(section: Section, head: &[u8]) -> Result<Block, PcapFault>
    requires whole { length head.now ≡ 28 }
    ensures is { result ≡ enhanced_block section head.now }
    ensures room { IfOk result (λ block. IfSome block.packet (λ packet. (packet.from ≡ 28)
        × (28 + packet.captured + 4 ≤ block.size))) }
{
    let size = u32_in(section.order, head, 4);
    if let Some(why) = size_fault(size, 32) {
        return Err(why);
    }
    let interface = u32_in(section.order, head, 8);
    let time = if interface < section.timed {
        clock_time(section.resolution, count_in(section.order, head))
    } else {
        None
    };
    let packet = Extent {
        from: 28,
        captured: u32_in(section.order, head, 20),
        original: u32_in(section.order, head, 24),
    };
    packet_block(section, interface, size, packet, time)
}

/// Returns the number by which an interface counts the time of a packet: its upper half is first.
fn count_in(order: Order, head: &[u8]) -> u64
    requires whole { length head.now ≡ 28 }
    ensures { result ≡ count_in order head.now }
{
    let upper = u32_in(order, head, 12) as u64;
    upper * (1 << 32) + u32_in(order, head, 16) as u64
}

/// Returns how many bytes of a packet are captured, if at most `snap` are, or all for 0.
fn snapped(snap: u32, original: u32) -> u32
    ensures { result ≡ snapped snap original }
{
    if snap != 0 && snap < original {
        return snap;
    }
    original
}

/// Returns a block with a packet of the first interface, without a header.
fn simple_block(section: Section, head: &[u8]) -> Result<Block, PcapFault>
    requires whole { length head.now ≡ 12 }
    ensures is { result ≡ simple_block section head.now }
    ensures room { IfOk result (λ block. IfSome block.packet (λ packet. (packet.from ≡ 12)
        × (12 + packet.captured + 4 ≤ block.size))) }
{
    let size = u32_in(section.order, head, 4);
    if let Some(why) = size_fault(size, 16) {
        return Err(why);
    }
    let original = u32_in(section.order, head, 8);
    let packet = Extent {
        from: 12,
        captured: snapped(section.snap, original),
        original,
    };
    packet_block(section, 0, size, packet, None)
}

/// Returns a block of this size with a packet of this interface.
fn packet_block(
    section: Section,
    interface: u32,
    size: u32,
    packet: Extent,
    time: Option<Time>,
) -> Result<Block, PcapFault>
    requires short { packet.from ≤ 28 }
    requires room { packet.from + 4 ≤ size }
    ensures is { result ≡ packet_block section interface size packet time }
    ensures room { IfOk result (λ block. (block.packet ≡ Some packet) × (block.size ≡ size)
        × (packet.from + packet.captured + 4 ≤ size)) }
{
    if interface >= section.interfaces {
        return Err(PcapFault::Interface(interface, section.interfaces));
    }
    if packet.captured as usize > LONGEST {
        return Err(PcapFault::PacketLong(packet.captured));
    }
    let room = size - (packet.from as u32 + 4);
    if packet.captured > room {
        return Err(PcapFault::PacketOver(packet.captured, room));
    }
    Ok(Block {
        size,
        section,
        packet: Some(packet),
        time,
    })
}

/// Returns a block of a type that is not read.
fn other_block(section: Section, head: &[u8]) -> Result<Block, PcapFault>
    requires whole { length head.now ≡ 8 }
    ensures is { result ≡ other_block section head.now }
    ensures room { IfOk result (λ block. (block.packet ≡ None) × (12 ≤ block.size)) }
{
    let size = u32_in(section.order, head, 4);
    match size_fault(size, 12) {
        Some(why) => Err(why),
        None => Ok(Block {
            size,
            section,
            packet: None,
            time: None,
        }),
    }
}
