//! The line of the VLANs of a bridge and its ports.

ghost use Rattle.std.specs.Prelude.{◌≡◌, IfOk, OnOk, codes, string_bytes};
ghost use Rattle.netlink_bridge_lines.specs.Vlan.{entry_parts, info_of, last_of, range_part, state_text, vlan_flags, vlan_line, vlan_parts};
ghost use Rattle.netlink_family.specs.Shapes.{rows_in};
ghost use Rattle.netlink_route.specs.declared.bridge_vlans.TheConstants.{ENTRY};
ghost use Rattle.netlink_words.specs.Parts.{AddsPart, AddsParts, keyed, or_zero};

use crate::vlan_options::push_global;
use crate::words::{push_byte, push_front, range_text};
use netlink_family::{BlockView, MessageView, Table};
use netlink_names::device::Known;
use netlink_names::name_table::Names;
use netlink_packet_core::u16_at;
use netlink_route::BridgeVlans;
use netlink_route::bridge_vlans::{
    BR_VLAN_IFINDEX, BRIDGE_VLANDB_ENTRY, BRIDGE_VLANDB_ENTRY_INFO,
    BRIDGE_VLANDB_ENTRY_MCAST_ROUTER, BRIDGE_VLANDB_ENTRY_RANGE, BRIDGE_VLANDB_ENTRY_STATE,
    RTM_GETVLAN,
};
use netlink_words::parts::{or_empty, push_keyed, push_part, push_when};
use std::alloc::{AllocError, Global};

/// The flags of a VLAN that have words, `BRIDGE_VLAN_INFO_*` of linux/if_bridge.h.
const PVID: u16 = 0x2;

const UNTAGGED: u16 = 0x4;

/// More bytes than most lines have, so that a line does not grow step by step.
const USUAL: usize = 128;

/// Returns the line of a message about the VLANs of a bridge or of its port, as `bridge monitor vlan`
/// prints it, with one space between its parts: the verb, the link, the first VLAN and the last, what
/// the port does with their frames, its state, and the settings of the bridge. A known link is named,
/// and any other is `if` and its index. Returns `AllocError` if an allocation fails.
pub fn vlan_text(
    alloc: Global,
    known: &[Known],
    vlans: &MessageView<'_, BridgeVlans>,
) -> Result<String, AllocError>
    ensures line { IfOk result (λ text. string_bytes text
        ≡ vlan_line known.now vlans.now.message_type vlans.now.payload.now) }
{
    vlan_line(alloc, &Names::of(known), vlans)
}

/// Returns the line of a message about the VLANs of a bridge or of its port, as `vlan_text` does.
#[tactic(auto, unfolding(crate::specs::Vlan::vlan_line))]
pub fn vlan_line(
    alloc: Global,
    known: &Names<'_>,
    vlans: &MessageView<'_, BridgeVlans>,
) -> Result<String, AllocError>
    ensures { IfOk result (λ text. string_bytes text
        ≡ vlan_line known.now vlans.now.message_type vlans.now.payload.now) }
{
    let mut text = String::with_capacity(alloc, USUAL)?;
    let index = vlans.header().u32(BR_VLAN_IFINDEX);
    push_front(alloc, &mut text, known, vlans.message_type, index)?;
    push_entry(alloc, &mut text, vlans)?;
    push_global(alloc, &mut text, vlans)?;
    text.push_str("\n")?;
    Ok(text)
}

/// Appends what is in the first `BRIDGE_VLANDB_ENTRY`, if there is one.
#[tactic(auto, unfolding(crate::specs::Vlan::entry_parts, crate::specs::Vlan::vlans_in))]
fn push_entry(
    alloc: Global,
    text: &mut String,
    vlans: &MessageView<'_, BridgeVlans>,
) -> Result<(), AllocError>
    ensures { OnOk result (AddsParts text.old text.new
        (entry_parts vlans.now.message_type vlans.now.payload.now)) }
{
    if vlans.message_type == RTM_GETVLAN {
        return Ok(());
    }
    match vlans.view().nest(BRIDGE_VLANDB_ENTRY) {
        None => Ok(()),
        Some(entry) => push_vlans(alloc, text, &entry),
    }
}

/// Appends the VLANs of an entry, the flags, the state, and the type of a router behind the port.
#[tactic(auto, unfolding(crate::specs::Vlan::vlan_parts))]
fn push_vlans(alloc: Global, text: &mut String, entry: &BlockView<'_>) -> Result<(), AllocError>
    requires rows { rows_in entry.now.rows.list.now ≡ ⟦<BridgeVlans as Table>⟧.rows 112 }
    requires policy { entry.now.policy ≡ ENTRY }
    ensures { OnOk result (AddsParts text.old text.new (vlan_parts entry.now.block.now)) }
{
    let info = info_of(entry);
    push_range(alloc, text, info, entry.u16(BRIDGE_VLANDB_ENTRY_RANGE))?;
    push_when(text, vlan_flags(info) & PVID != 0, "PVID")?;
    push_when(text, vlan_flags(info) & UNTAGGED != 0, "Egress Untagged")?;
    push_state(alloc, text, entry.u8(BRIDGE_VLANDB_ENTRY_STATE))?;
    push_byte(
        text,
        "mcast_router",
        entry.u8(BRIDGE_VLANDB_ENTRY_MCAST_ROUTER),
    )
}

/// Returns the `struct bridge_vlan_info` of an entry; empty if there is none.
fn info_of<'a>(entry: &BlockView<'a>) -> &'a [u8]
    ensures { result.now ≡ info_of entry.now.block.now }
{
    or_empty(entry.first(BRIDGE_VLANDB_ENTRY_INFO))
}

/// Returns the flags in a `struct bridge_vlan_info`.
fn vlan_flags(info: &[u8]) -> u16
    ensures { result ≡ vlan_flags info.now }
{
    if info.len() < 4 {
        return 0;
    }
    u16_at(info, 0)
}

/// Appends the first VLAN, which is in a `struct bridge_vlan_info`, and the last.
#[tactic(auto, unfolding(crate::specs::Vlan::range_part, netlink_words::specs::Parts::with_part))]
fn push_range(
    alloc: Global,
    text: &mut String,
    info: &[u8],
    last: Option<u16>,
) -> Result<(), AllocError>
    ensures { OnOk result (AddsPart text.old text.new (range_part info.now last)) }
{
    if info.len() < 4 {
        return Ok(());
    }
    let first = u16_at(info, 2);
    let last = last_of(first, last);
    push_part(text, range_text(alloc, first as u32, last as u32)?.as_str())
}

/// Returns the last VLAN, or the first if there is no last one.
pub(crate) fn last_of(first: u16, last: Option<u16>) -> u16
    ensures { result ≡ last_of first last }
{
    match last {
        None => first,
        Some(last) => last,
    }
}

/// Appends the state of a port, 0 if there is none.
fn push_state(alloc: Global, text: &mut String, state: Option<u8>) -> Result<(), AllocError>
    ensures { OnOk result (AddsPart text.old text.new (keyed (codes "state") (state_text (or_zero state)))) }
{
    push_keyed(
        text,
        "state",
        state_text(alloc, byte_or_zero(state))?.as_str(),
    )
}

/// Returns a number of 1 byte, or 0 if there is none.
fn byte_or_zero(number: Option<u8>) -> u8
    ensures { result ≡ or_zero number }
{
    match number {
        None => 0,
        Some(number) => number,
    }
}

/// Returns the name of the state of a port, a `BR_STATE_*` of linux/if_bridge.h; others in parentheses.
fn state_text(alloc: Global, state: u8) -> Result<String, AllocError>
    ensures { IfOk result (λ text. string_bytes text ≡ state_text state) }
{
    let name = match state {
        0 => "disabled",
        1 => "listening",
        2 => "learning",
        3 => "forwarding",
        4 => "blocking",
        _ => return format!(in alloc; "({state})"),
    };
    String::from_str(alloc, name)
}
