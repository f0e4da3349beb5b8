//! The packets of a pcap or pcapng file, and what each is shown as.

ghost use Rattle.std.specs.Prelude.{◌≡◌, ◌<◌, ◌+◌, ◌++◌, ◌≤◌, ◌^◌, [], IfErr, IfOk, string_bytes};
ghost use Rattle.netlink_lines.specs.Check.{check_of};
ghost use Rattle.netlink_lines.specs.Messages.{memory_of};
ghost use Rattle.netlink_lines.specs.Packet.{TellsDatagram, TellsExtent, TellsPacket, TellsTorn, are_zeros, content_lines, content_object, content_of, content_shown, content_text, from_stop, is_partial, is_route, is_silent, stop_line, stop_shown};
ghost use Rattle.netlink_input.specs.Packet.{IsExtent, IsWholePacket, torn_of};

use crate::line::Line;
use crate::messages::{Shown, malformed, well_formed};
use crate::packet_objects::{bad_object, family_object};
use crate::runs::all_messages;
use crate::state::State;
use netlink_input::fault::Fault;
use netlink_input::packet::{Extent, HEADER_LEN, extent_of};
use netlink_input::pcap::{Order, PcapFault, u16_in};
use netlink_input::stream::Stop;
use netlink_packet_core::{NETLINK_HEADER_LEN, u32_at};
use std::alloc::{AllocError, Global};

/// The offset in bytes of a datagram in a packet of a pcap file.
const DATAGRAM: usize = 32;

/// `ARPHRD_NETLINK` of linux/if_arp.h.
const NETLINK_DEVICE: u16 = 824;

/// What a packet is.
#[derive(Clone, Copy, Debug, PartialEq, Eq)]
pub(crate) enum Content {
    /// A datagram of route netlink.
    Messages,
    /// The start of one, of which fewer bytes were captured, which is the first number, than it had.
    CutMessages(u32, u32),
    /// One of this other netlink family.
    Family(u16),
    /// Any other of which fewer bytes were captured, which is the first number, than it had.
    Cut(u32, u32),
    /// One of this number of bytes, fewer than its header.
    Short(u32),
    /// One of a device of this type, which is not netlink.
    Device(u16),
}

/// Returns what a packet is.
fn content_of(extent: Extent, packet: &[u8]) -> Content
    requires extent { IsExtent extent packet.now }
    ensures { result ≡ content_of extent packet.now }
{
    let captured = extent.captured;
    let original = extent.original;
    if captured < original {
        if is_route(extent.from, packet) {
            return Content::CutMessages(captured, original);
        }
        return Content::Cut(captured, original);
    }
    if (captured as usize) < HEADER_LEN {
        return Content::Short(captured);
    }
    let device = u16_in(Order::Big, packet, extent.from + 2);
    if device != NETLINK_DEVICE {
        return Content::Device(device);
    }
    match u16_in(Order::Big, packet, extent.from + 14) {
        0 => Content::Messages,
        family => Content::Family(family),
    }
}

/// Returns whether the captured bytes of a packet, or what there is of them, which starts at this
/// offset, have the header of a datagram of route netlink.
fn is_route(from: usize, packet: &[u8]) -> bool
    requires few { from ≤ 28 }
    ensures { result ≡ is_route from packet.now }
{
    if packet.len() < from + HEADER_LEN {
        return false;
    }
    let is_netlink = u16_in(Order::Big, packet, from + 2) == NETLINK_DEVICE;
    is_netlink & (u16_in(Order::Big, packet, from + 14) == 0)
}

/// Writes the lines of a packet of a pcap file, whose header is at this offset of the input, as
/// `extent_lines` does.
pub(crate) fn packet_lines<F: Line>(
    alloc: Global,
    state: &mut State,
    at: u64,
    order: Order,
    packet: &[u8],
    lines: &mut Vec<u8>,
) -> Result<bool, Fault>
    requires whole { IsWholePacket order packet.now }
    requires room { at + 32 < 2 ^ 64 }
    ensures tells { IfOk result (λ malformed. TellsPacket (check_of F.Table) order at
        packet.now (memory_of state.old) (lines.new.items, malformed) (memory_of state.new)) }
    ensures fault { IfErr result (λ fault. fault ≡ Fault.OutOfMemory) }
{
    let extent = extent_of(order, packet);
    extent_lines::<F>(alloc, state, at, extent, packet, lines)
}

/// Writes the lines of a packet, which starts at this offset of the input, into a vector, whose old
/// contents it drops, and returns whether something in the packet is malformed. The messages before
/// left this state, and it is updated.
///
/// The lines of a datagram of route netlink are those of its messages; what ends it before its end is
/// one more, unless it is zeros, which are padding. If it was cut, the line about that follows. The
/// line of a datagram of another family is its family and size, and that of any other packet is its
/// error. Returns `OutOfMemory` if an allocation fails.
pub(crate) fn extent_lines<F: Line>(
    alloc: Global,
    state: &mut State,
    at: u64,
    extent: Extent,
    packet: &[u8],
    lines: &mut Vec<u8>,
) -> Result<bool, Fault>
    requires extent { IsExtent extent packet.now }
    requires room { at + (extent.from + 16) < 2 ^ 64 }
    ensures tells { IfOk result (λ malformed. TellsExtent (check_of F.Table) extent at
        packet.now (memory_of state.old) (lines.new.items, malformed) (memory_of state.new)) }
    ensures fault { IfErr result (λ fault. fault ≡ Fault.OutOfMemory) }
{
    lines.clear();
    let json = state.options.json;
    let before = extent.from + HEADER_LEN;
    let size = packet.len().saturating_sub(before);
    match content_of(extent, packet) {
        Content::Messages => {
            let start = at + before as u64;
            datagram_lines::<F>(alloc, state, false, start, &packet[before..], lines)
        }
        Content::CutMessages(captured, original) => {
            let start = at + before as u64;
            datagram_lines::<F>(alloc, state, true, start, &packet[before..], lines)?;
            let cut = Content::Cut(captured, original);
            let shown = content_shown(alloc, json, at, size, cut)?;
            lines.extend_from_slice(shown.text.as_bytes())?;
            Ok(true)
        }
        other => {
            let shown = content_shown(alloc, json, at, size, other)?;
            lines.extend_from_slice(shown.text.as_bytes())?;
            Ok(shown.is_malformed)
        }
    }
}

/// Writes the lines of the messages in a packet that the end of the file cuts, whose header is at this
/// offset of the input, into an empty vector. There are none if the packet is not one of route netlink
/// whose datagram has started. Returns `OutOfMemory` if an allocation fails.
pub(crate) fn torn_lines<F: Line>(
    alloc: Global,
    state: &mut State,
    at: u64,
    packet: &[u8],
    lines: &mut Vec<u8>,
) -> Result<bool, Fault>
    requires empty { lines.old.items ≡ [] }
    requires room { at + 32 < 2 ^ 64 }
    ensures tells { IfOk result (λ malformed. TellsTorn (check_of F.Table) at
        packet.now (memory_of state.old) (lines.new.items, malformed) (memory_of state.new)) }
    ensures fault { IfErr result (λ fault. fault ≡ Fault.OutOfMemory) }
{
    if !is_route(HEADER_LEN, packet) {
        return Ok(false);
    }
    let at = at + DATAGRAM as u64;
    datagram_lines::<F>(alloc, state, true, at, &packet[DATAGRAM..], lines)
}

/// Returns the bytes of a packet at which the packets stop for this cause: all that were read, if the
/// file ends in them, else none.
pub(crate) fn torn_of<'a>(why: &PcapFault, packet: &'a [u8]) -> &'a [u8]
    ensures { result.now ≡ torn_of why.now packet.now }
{
    match why {
        PcapFault::PacketCut(_, _) => packet,
        _ => &[],
    }
}

/// Writes the lines of a datagram at this offset of the input, which may have been cut, into an empty
/// vector, and returns whether a message is malformed or the datagram ends early. Returns `OutOfMemory`
/// if an allocation fails.
fn datagram_lines<F: Line>(
    alloc: Global,
    state: &mut State,
    is_cut: bool,
    at: u64,
    datagram: &[u8],
    lines: &mut Vec<u8>,
) -> Result<bool, Fault>
    requires empty { lines.old.items ≡ [] }
    ensures tells { IfOk result (λ malformed. TellsDatagram (check_of F.Table) is_cut at
        datagram.now (memory_of state.old) (lines.new.items, malformed) (memory_of state.new)) }
    ensures fault { IfErr result (λ fault. fault ≡ Fault.OutOfMemory) }
{
    let json = state.options.json;
    let mut reader = datagram;
    match all_messages::<F, &[u8], Vec<u8>>(alloc, state, at, Vec::new(alloc), &mut reader, lines) {
        Ok(outcome) => {
            let is_stopped = push_stop(alloc, json, is_cut, at, datagram, &outcome.stop, lines)?;
            Ok(outcome.is_malformed | is_stopped)
        }
        // A slice does not fail, and a vector fails only if an allocation does.
        Err(_) => Err(Fault::OutOfMemory),
    }
}

/// Appends the line of what ends a datagram at this offset of the input before its end, unless that is
/// padding or a part of a message that was cut, and returns whether there is one. Returns `OutOfMemory`
/// if an allocation fails.
fn push_stop(
    alloc: Global,
    json: bool,
    is_cut: bool,
    at: u64,
    datagram: &[u8],
    stop: &Option<Stop>,
    lines: &mut Vec<u8>,
) -> Result<bool, Fault>
    ensures line { IfOk result (λ _. lines.new.items ≡ lines.old.items ++ (stop_shown is_cut at datagram.now stop.now json).0) }
    ensures malformed { IfOk result (λ is_line. is_line ≡ (stop_shown is_cut at datagram.now stop.now json).1) }
    ensures fault { IfErr result (λ fault. fault ≡ Fault.OutOfMemory) }
{
    match stop {
        None => Ok(false),
        Some(stop) => {
            if is_silent(is_cut, rest_from(at, datagram, stop)) {
                return Ok(false);
            }
            let line = stop_line(alloc, json, stop)?;
            lines.extend_from_slice(line.as_bytes())?;
            Ok(true)
        }
    }
}

/// Returns the line of what ends a datagram, or its object.
fn stop_line(alloc: Global, json: bool, stop: &Stop) -> Result<String, AllocError>
    ensures { IfOk result (λ line. string_bytes line ≡ stop_line stop.now json) }
{
    if json {
        let why = stop.cause.to_string(alloc)?;
        let shown = bad_object(alloc, stop.at, why.as_str())?;
        return Ok(shown.text);
    }
    format!(in alloc; "{stop}\n")
}

/// Returns the bytes of a datagram at this offset of the input from a stop on.
#[tactic(auto, using(std::proofs::lemmas::List::drop_all))]
fn rest_from<'a>(at: u64, datagram: &'a [u8], stop: &Stop) -> &'a [u8]
    ensures { result.now ≡ from_stop at datagram.now stop.now }
{
    let passed = stop.at.saturating_sub(at);
    match datagram.split_at_checked(passed as usize) {
        Some((_, rest)) => rest,
        None => &[],
    }
}

/// Returns whether bytes that no message starts with have no line: zeros, which are padding, and a part
/// of a message in a datagram that was cut.
fn is_silent(is_cut: bool, bytes: &[u8]) -> bool
    ensures { result ≡ is_silent is_cut bytes.now }
{
    are_zeros(bytes) | (is_cut & is_partial(bytes))
}

/// Returns whether bytes are fewer than the header of a message, or than its length field says.
fn is_partial(bytes: &[u8]) -> bool
    ensures { result ≡ is_partial bytes.now }
{
    if bytes.len() < NETLINK_HEADER_LEN {
        return true;
    }
    bytes.len() < u32_at(bytes, 0) as usize
}

/// Returns whether each byte is 0.
fn are_zeros(bytes: &[u8]) -> bool
    ensures { result ≡ are_zeros bytes.now }
{
    bytes.iter().all(|byte| *byte == 0)
}

/// Returns what is shown of a packet that is no datagram of route netlink, by the size of its datagram:
/// its object, if objects are asked for, or its line.
fn content_shown(
    alloc: Global,
    json: bool,
    at: u64,
    size: usize,
    content: Content,
) -> Result<Shown, AllocError>
    ensures { IfOk result (λ s. (string_bytes s.text, s.is_malformed) ≡ content_shown at size content json) }
{
    if json {
        return content_object(alloc, at, size, content);
    }
    content_lines(alloc, at, size, content)
}

/// Returns the object of a packet that is no datagram of route netlink.
fn content_object(
    alloc: Global,
    at: u64,
    size: usize,
    content: Content,
) -> Result<Shown, AllocError>
    ensures { IfOk result (λ s. (string_bytes s.text, s.is_malformed) ≡ content_object at size content) }
{
    match content {
        Content::Family(family) => family_object(alloc, family, size),
        other => {
            let why = content_text(alloc, other)?;
            bad_object(alloc, at, why.as_str())
        }
    }
}

/// Returns the line of a packet that is no datagram of route netlink, by the size of its datagram.
fn content_lines(alloc: Global, at: u64, size: usize, content: Content) -> Result<Shown, AllocError>
    ensures { IfOk result (λ s. (string_bytes s.text, s.is_malformed) ≡ content_lines at size content) }
{
    match content {
        Content::Family(family) => {
            let line = format!(in alloc; "netlink family {family}, {size} bytes\n")?;
            Ok(well_formed(line))
        }
        other => {
            let why = content_text(alloc, other)?;
            malformed(alloc, at, why.as_str())
        }
    }
}

/// Returns why a packet has no datagram.
fn content_text(alloc: Global, content: Content) -> Result<String, AllocError>
    ensures { IfOk result (λ text. string_bytes text ≡ content_text content) }
{
    match content {
        Content::Cut(captured, original) => format!(in alloc;
            "of a packet of {original} bytes, {captured} were captured"
        ),
        Content::Short(captured) => format!(in alloc;
            "a packet of {captured} bytes is shorter than its header of 16"
        ),
        Content::Device(device) => format!(in alloc;
            "the device type of a packet is {device} instead of 824 (NETLINK)"
        ),
        _ => Ok(String::new(alloc)),
    }
}
