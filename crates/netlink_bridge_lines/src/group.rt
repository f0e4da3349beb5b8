//! The line of an entry of a bridge's multicast database.

ghost use Rattle.std.specs.Prelude.{◌≡◌, IfOk, OnOk, string_bytes};
ghost use Rattle.netlink_bridge_lines.specs.MulticastGroup.{bridge_of, database_of, entry_or_rest, group_line, info_of, port_of, rest_parts};
ghost use Rattle.netlink_words.specs.Parts.{AddsParts};

use crate::group_entry::{ENTRY, push_entry};
use crate::words::value_in;
use netlink_family::MessageView;
use netlink_names::device::{Known, push_device};
use netlink_names::name_table::Names;
use netlink_packet_core::u32_at;
use netlink_route::MulticastGroups;
use netlink_route::multicast_groups::{
    BR_PORT_IFINDEX, MDBA_MDB, MDBA_MDB_ENTRY, MDBA_MDB_ENTRY_INFO, MDBA_ROUTER, MDBA_ROUTER_PORT,
    RTM_DELMDB, RTM_GETMDB,
};
use netlink_words::parts::{or_empty, push_part, push_when};
use std::alloc::{AllocError, Global};

/// More bytes than most lines have, so that a line does not grow step by step.
const USUAL: usize = 128;

/// Returns the line of a message about a bridge's multicast database, as `bridge -d monitor mdb` prints
/// it, with one space between its parts: the bridge, the port, the group, and what else the first entry
/// has; without an entry, the router port. A known link is named, and any other is `if` and its index.
/// Returns `AllocError` if an allocation fails.
pub fn group_text(
    alloc: Global,
    known: &[Known],
    groups: &MessageView<'_, MulticastGroups>,
) -> Result<String, AllocError>
    ensures line { IfOk result (λ text. string_bytes text
        ≡ group_line known.now groups.now.message_type groups.now.payload.now) }
{
    group_line(alloc, &Names::of(known), groups)
}

/// Returns the line of a message about a bridge's multicast database, as `group_text` does.
#[tactic(auto, unfolding(crate::specs::MulticastGroup::group_line))]
pub fn group_line(
    alloc: Global,
    known: &Names<'_>,
    groups: &MessageView<'_, MulticastGroups>,
) -> Result<String, AllocError>
    ensures { IfOk result (λ text. string_bytes text
        ≡ group_line known.now groups.now.message_type groups.now.payload.now) }
{
    let mut text = String::with_capacity(alloc, USUAL)?;
    push_when(&mut text, groups.message_type == RTM_DELMDB, "Deleted")?;
    push_body(alloc, &mut text, known, groups)?;
    text.push_str("\n")?;
    Ok(text)
}

/// Appends the first entry, or what is there without one.
#[tactic(auto, unfolding(crate::specs::MulticastGroup::entry_or_rest))]
fn push_body(
    alloc: Global,
    text: &mut String,
    known: &Names<'_>,
    groups: &MessageView<'_, MulticastGroups>,
) -> Result<(), AllocError>
    ensures { OnOk result (string_bytes text.new
        ≡ entry_or_rest known.now groups.now.message_type groups.now.payload.now (string_bytes text.old)) }
{
    let info = info_of(groups);
    if info.len() < ENTRY {
        return push_rest(text, known, groups);
    }
    push_entry(alloc, text, known, bridge_of(groups), info)
}

/// Returns the value of `MDBA_MDB`, which a request has as `MDBA_SET_ENTRY`; empty if there is none.
fn database_of<'a>(groups: &MessageView<'a, MulticastGroups>) -> &'a [u8]
    ensures { result.now ≡ database_of groups.now.payload.now }
{
    or_empty(groups.view().first(MDBA_MDB))
}

/// Returns the value of the first entry in `MDBA_MDB`; empty if there is none.
fn info_of<'a>(groups: &MessageView<'a, MulticastGroups>) -> &'a [u8]
    ensures { result.now ≡ info_of groups.now.payload.now }
{
    let entry = value_in(database_of(groups), MDBA_MDB_ENTRY);
    value_in(entry, MDBA_MDB_ENTRY_INFO)
}

/// Returns the index of the bridge in the header.
fn bridge_of(groups: &MessageView<'_, MulticastGroups>) -> u32
    ensures { result ≡ bridge_of groups.now.payload.now }
{
    groups.header().u32(BR_PORT_IFINDEX)
}

/// Appends the first router port and its bridge, or the bridge alone.
fn push_rest(
    text: &mut String,
    known: &Names<'_>,
    groups: &MessageView<'_, MulticastGroups>,
) -> Result<(), AllocError>
    ensures { OnOk result (AddsParts text.old text.new (rest_parts known.now
        groups.now.message_type (bridge_of groups.now.payload.now) (port_of groups.now.payload.now))) }
{
    push_port(
        text,
        known,
        groups.message_type,
        bridge_of(groups),
        port_of(groups),
    )
}

/// Returns the value of the first router port in `MDBA_ROUTER`; empty if there is none. A request has
/// other attributes there, and a `struct br_mdb_entry` in place of `MDBA_MDB`.
fn port_of<'a>(groups: &MessageView<'a, MulticastGroups>) -> &'a [u8]
    ensures { result.now ≡ port_of groups.now.payload.now }
{
    if database_of(groups).len() == ENTRY {
        return &[];
    }
    let ports = or_empty(groups.view().first(MDBA_ROUTER));
    value_in(ports, MDBA_ROUTER_PORT)
}

/// Appends a router port, whose index is at the start of its value, and its bridge; the bridge alone
/// if there is no port, after `Get` in a request.
#[tactic(auto, unfolding(crate::specs::MulticastGroup::rest_parts))]
fn push_port(
    text: &mut String,
    known: &Names<'_>,
    message_type: u16,
    bridge: u32,
    port: &[u8],
) -> Result<(), AllocError>
    ensures { OnOk result (AddsParts text.old text.new
        (rest_parts known.now message_type bridge port.now)) }
{
    if port.len() < 4 {
        push_when(text, message_type == RTM_GETMDB, "Get")?;
        return push_device(text, known, "dev", Some(bridge));
    }
    push_part(text, "router port")?;
    push_device(text, known, "dev", Some(u32_at(port, 0)))?;
    push_device(text, known, "master", Some(bridge))
}
