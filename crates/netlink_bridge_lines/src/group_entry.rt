//! What an entry of a bridge's multicast database has.

ghost use Rattle.std.specs.Prelude.{◌≡◌, ◌≤◌, OnOk, drop, length, slice_index, string_bytes};
ghost use Rattle.netlink_bridge_lines.specs.MulticastGroup.{address_part, end_parts, entry_text, group_address, group_protocol, mode_part, mode_parts, place_parts, protocol_part, source_parts, state_text, vlan_part};
ghost use Rattle.netlink_packet_core.specs.Fields.{number_at};
ghost use Rattle.netlink_words.specs.Parts.{AddsPart, AddsParts};

use crate::sources::push_sources;
use crate::words::{byte_in, value_in};
use netlink_names::device::push_device;
use netlink_names::name_table::Names;
use netlink_packet_core::{u16_at, u32_at};
use netlink_route::multicast_groups::{
    MDB_FLAGS_BLOCKED, MDB_FLAGS_FAST_LEAVE, MDB_FLAGS_OFFLOAD, MDB_FLAGS_STAR_EXCL, MDB_PERMANENT,
    MDBA_MDB_EATTR_GROUP_MODE, MDBA_MDB_EATTR_RTPROT, MDBA_MDB_EATTR_SOURCE,
    MDBA_MDB_EATTR_SRC_LIST,
};
use netlink_words::number_names::push_protocol;
use netlink_words::parts::{
    push_address, push_hardware, push_key, push_keyed, push_number, push_part, push_when,
};
use std::alloc::{AllocError, Global};

/// The protocol of a group with an IPv4 address (linux/if_ether.h).
const ETH_P_IP: u32 = 0x800;

/// The mode of a group whose packets are wanted from its sources alone (linux/in.h).
const MCAST_INCLUDE: u8 = 1;

/// The size of a `struct br_mdb_entry` (linux/if_bridge.h).
pub(crate) const ENTRY: usize = 28;

/// Appends an entry: a `struct br_mdb_entry`, and attributes after it.
#[tactic(auto, unfolding(crate::specs::MulticastGroup::entry_text))]
pub(crate) fn push_entry(
    alloc: Global,
    text: &mut String,
    known: &Names<'_>,
    bridge: u32,
    info: &[u8],
) -> Result<(), AllocError>
    requires size { 28 ≤ length info.now }
    ensures { OnOk result (string_bytes text.new
        ≡ entry_text known.now bridge info.now (string_bytes text.old)) }
{
    push_place(alloc, text, known, bridge, info)?;
    push_source(alloc, text, state_of(info), attributes_of(info))?;
    push_modes(alloc, text, attributes_of(info))?;
    push_end(text, flags_of(info), vlan_of(info))
}

/// Returns the state in an entry.
fn state_of(info: &[u8]) -> u8
    requires { 28 ≤ length info.now }
    ensures { result ≡ slice_index info.now 4 }
{
    info[4]
}

/// Returns the flags in an entry.
fn flags_of(info: &[u8]) -> u8
    requires { 28 ≤ length info.now }
    ensures { result ≡ slice_index info.now 5 }
{
    info[5]
}

/// Returns the VLAN in an entry.
fn vlan_of(info: &[u8]) -> u16
    requires { 28 ≤ length info.now }
    ensures { result ≡ number_at 6 2 info.now }
{
    u16_at(info, 6)
}

/// Returns the attributes of an entry, after its `struct br_mdb_entry`.
fn attributes_of(info: &[u8]) -> &[u8]
    requires { 28 ≤ length info.now }
    ensures { result.now ≡ drop 28 info.now }
{
    info.split_at(28).1
}

/// Appends the bridge, the port and the group.
#[tactic(auto, unfolding(crate::specs::MulticastGroup::place_parts))]
fn push_place(
    alloc: Global,
    text: &mut String,
    known: &Names<'_>,
    bridge: u32,
    info: &[u8],
) -> Result<(), AllocError>
    requires { 28 ≤ length info.now }
    ensures { OnOk result (AddsParts text.old text.new (place_parts known.now bridge info.now)) }
{
    push_device(text, known, "dev", Some(bridge))?;
    push_device(text, known, "port", Some(u32_at(info, 0)))?;
    push_group(alloc, text, info)
}

/// Appends the address of the group.
#[tactic(auto, unfolding(crate::specs::MulticastGroup::address_part))]
fn push_group(alloc: Global, text: &mut String, info: &[u8]) -> Result<(), AllocError>
    requires { 28 ≤ length info.now }
    ensures { OnOk result (AddsPart text.old text.new (address_part info.now)) }
{
    if group_protocol(info) == 0 {
        return push_hardware(text, "grp", &info[8..14]);
    }
    push_address(alloc, text, "grp", group_address(info))
}

/// Returns the protocol of the group, 0 if it has an Ethernet address.
fn group_protocol(info: &[u8]) -> u32
    requires { 28 ≤ length info.now }
    ensures { result ≡ group_protocol info.now }
{
    info[24] as u32 * 256 + info[25] as u32
}

/// Returns the IP address of the group.
fn group_address(info: &[u8]) -> &[u8]
    requires { 28 ≤ length info.now }
    ensures { result.now ≡ group_address info.now }
{
    if group_protocol(info) == ETH_P_IP {
        return &info[8..12];
    }
    &info[8..24]
}

/// Appends the source and the state.
#[tactic(auto, unfolding(crate::specs::MulticastGroup::source_parts))]
fn push_source(
    alloc: Global,
    text: &mut String,
    state: u8,
    attributes: &[u8],
) -> Result<(), AllocError>
    ensures { OnOk result (AddsParts text.old text.new (source_parts state attributes.now)) }
{
    let source = value_in(attributes, MDBA_MDB_EATTR_SOURCE);
    push_address(alloc, text, "src", source)?;
    push_part(text, state_text(state))
}

/// Returns the name of a state.
fn state_text(state: u8) -> &'static str
    ensures { result.now ≡ state_text state }
{
    if state & MDB_PERMANENT == 0 {
        return "temp";
    }
    "permanent"
}

/// Appends whether packets from sources are wanted, those sources, and who installed the entry.
#[tactic(auto, unfolding(crate::specs::MulticastGroup::mode_parts))]
fn push_modes(alloc: Global, text: &mut String, attributes: &[u8]) -> Result<(), AllocError>
    ensures { OnOk result (AddsParts text.old text.new (mode_parts attributes.now)) }
{
    push_mode(text, byte_in(attributes, MDBA_MDB_EATTR_GROUP_MODE))?;
    let list = value_in(attributes, MDBA_MDB_EATTR_SRC_LIST);
    push_sources(alloc, text, list)?;
    push_protocol_part(text, byte_in(attributes, MDBA_MDB_EATTR_RTPROT))
}

/// Appends whether packets from the sources of the group are wanted, or all others.
#[tactic(auto, unfolding(crate::specs::MulticastGroup::mode_part, netlink_words::specs::Parts::with_part))]
fn push_mode(text: &mut String, mode: Option<u8>) -> Result<(), AllocError>
    ensures { OnOk result (AddsPart text.old text.new (mode_part mode)) }
{
    match mode {
        None => Ok(()),
        Some(MCAST_INCLUDE) => push_keyed(text, "filter_mode", "include"),
        Some(_) => push_keyed(text, "filter_mode", "exclude"),
    }
}

/// Appends who installed the entry, if that is known.
#[tactic(auto, using(netlink_words::specs::Pieces::protocol_more), unfolding(crate::specs::MulticastGroup::protocol_part, netlink_words::specs::Parts::with_part))]
fn push_protocol_part(text: &mut String, protocol: Option<u8>) -> Result<(), AllocError>
    ensures { OnOk result (AddsPart text.old text.new (protocol_part protocol)) }
{
    match protocol {
        None => Ok(()),
        Some(protocol) => {
            push_key(text, "proto")?;
            push_protocol(text, protocol)
        }
    }
}

/// Appends the names of the flags that are set, and the VLAN.
#[tactic(auto, unfolding(crate::specs::MulticastGroup::end_parts))]
fn push_end(text: &mut String, flags: u8, vid: u16) -> Result<(), AllocError>
    ensures { OnOk result (AddsParts text.old text.new (end_parts flags vid)) }
{
    push_when(text, flags & MDB_FLAGS_OFFLOAD != 0, "offload")?;
    push_when(text, flags & MDB_FLAGS_FAST_LEAVE != 0, "fast_leave")?;
    push_when(text, flags & MDB_FLAGS_STAR_EXCL != 0, "added_by_star_ex")?;
    push_when(text, flags & MDB_FLAGS_BLOCKED != 0, "blocked")?;
    push_vid(text, vid)
}

/// Appends the VLAN of the group, unless it is 0.
#[tactic(auto, unfolding(crate::specs::MulticastGroup::vlan_part, netlink_words::specs::Parts::with_part))]
fn push_vid(text: &mut String, vid: u16) -> Result<(), AllocError>
    ensures { OnOk result (AddsPart text.old text.new (vlan_part vid)) }
{
    if vid == 0 {
        return Ok(());
    }
    push_number(text, "vid", Some(vid as u32))
}
