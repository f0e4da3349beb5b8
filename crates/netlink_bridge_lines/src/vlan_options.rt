//! The settings of VLANs of a bridge.

ghost use Rattle.std.specs.Prelude.{◌≡◌, OnOk, string_bytes};
ghost use Rattle.netlink_bridge_lines.specs.Vlan.{global_text, id_part, interval_parts, options_text, query_parts, snooping_parts, version_parts};
ghost use Rattle.netlink_family.specs.Shapes.{rows_in};
ghost use Rattle.netlink_route.specs.declared.bridge_vlans.TheConstants.{GOPTS};
ghost use Rattle.netlink_words.specs.Parts.{AddsPart, AddsParts};

use crate::vlan::last_of;
use crate::words::{push_byte, push_long, range_text};
use netlink_family::{BlockView, MessageView, Table};
use netlink_route::BridgeVlans;
use netlink_route::bridge_vlans::{
    BRIDGE_VLANDB_GLOBAL_OPTIONS, BRIDGE_VLANDB_GOPTS_ID, BRIDGE_VLANDB_GOPTS_MCAST_IGMP_VERSION,
    BRIDGE_VLANDB_GOPTS_MCAST_LAST_MEMBER_CNT, BRIDGE_VLANDB_GOPTS_MCAST_LAST_MEMBER_INTVL,
    BRIDGE_VLANDB_GOPTS_MCAST_MEMBERSHIP_INTVL, BRIDGE_VLANDB_GOPTS_MCAST_MLD_VERSION,
    BRIDGE_VLANDB_GOPTS_MCAST_QUERIER, BRIDGE_VLANDB_GOPTS_MCAST_QUERIER_INTVL,
    BRIDGE_VLANDB_GOPTS_MCAST_QUERY_INTVL, BRIDGE_VLANDB_GOPTS_MCAST_QUERY_RESPONSE_INTVL,
    BRIDGE_VLANDB_GOPTS_MCAST_SNOOPING, BRIDGE_VLANDB_GOPTS_MCAST_STARTUP_QUERY_CNT,
    BRIDGE_VLANDB_GOPTS_MCAST_STARTUP_QUERY_INTVL, BRIDGE_VLANDB_GOPTS_RANGE, RTM_GETVLAN,
};
use netlink_words::parts::{push_number, push_part};
use std::alloc::{AllocError, Global};

/// Appends what is in the first `BRIDGE_VLANDB_GLOBAL_OPTIONS`, if there is one.
#[tactic(auto, unfolding(crate::specs::Vlan::global_text, crate::specs::Vlan::options_in))]
pub(crate) fn push_global(
    alloc: Global,
    text: &mut String,
    vlans: &MessageView<'_, BridgeVlans>,
) -> Result<(), AllocError>
    ensures { OnOk result (string_bytes text.new
        ≡ global_text vlans.now.message_type vlans.now.payload.now (string_bytes text.old)) }
{
    if vlans.message_type == RTM_GETVLAN {
        return Ok(());
    }
    match vlans.view().nest(BRIDGE_VLANDB_GLOBAL_OPTIONS) {
        None => Ok(()),
        Some(options) => push_options(alloc, text, &options),
    }
}

/// Appends the settings of VLANs.
#[tactic(auto, unfolding(crate::specs::Vlan::options_text))]
fn push_options(alloc: Global, text: &mut String, options: &BlockView<'_>) -> Result<(), AllocError>
    requires rows { rows_in options.now.rows.list.now ≡ ⟦<BridgeVlans as Table>⟧.rows 112 }
    requires policy { options.now.policy ≡ GOPTS }
    ensures { OnOk result (string_bytes text.new
        ≡ options_text options.now.block.now (string_bytes text.old)) }
{
    push_snooping(alloc, text, options)?;
    push_versions(text, options)?;
    push_queries(alloc, text, options)?;
    push_intervals(alloc, text, options)
}

/// Appends the VLANs, and how the bridge listens to memberships in multicast groups.
#[tactic(auto, unfolding(crate::specs::Vlan::snooping_parts))]
fn push_snooping(
    alloc: Global,
    text: &mut String,
    options: &BlockView<'_>,
) -> Result<(), AllocError>
    requires rows { rows_in options.now.rows.list.now ≡ ⟦<BridgeVlans as Table>⟧.rows 112 }
    requires policy { options.now.policy ≡ GOPTS }
    ensures { OnOk result (AddsParts text.old text.new (snooping_parts options.now.block.now)) }
{
    let last = options.u16(BRIDGE_VLANDB_GOPTS_RANGE);
    push_id(alloc, text, options.u16(BRIDGE_VLANDB_GOPTS_ID), last)?;
    let snooping = options.u8(BRIDGE_VLANDB_GOPTS_MCAST_SNOOPING);
    push_byte(text, "mcast_snooping", snooping)?;
    let querier = options.u8(BRIDGE_VLANDB_GOPTS_MCAST_QUERIER);
    push_byte(text, "mcast_querier", querier)
}

/// Appends the versions of the protocols by which the bridge listens.
#[tactic(auto, unfolding(crate::specs::Vlan::version_parts))]
fn push_versions(text: &mut String, options: &BlockView<'_>) -> Result<(), AllocError>
    requires rows { rows_in options.now.rows.list.now ≡ ⟦<BridgeVlans as Table>⟧.rows 112 }
    requires policy { options.now.policy ≡ GOPTS }
    ensures { OnOk result (AddsParts text.old text.new (version_parts options.now.block.now)) }
{
    let igmp = options.u8(BRIDGE_VLANDB_GOPTS_MCAST_IGMP_VERSION);
    push_byte(text, "mcast_igmp_version", igmp)?;
    let mld = options.u8(BRIDGE_VLANDB_GOPTS_MCAST_MLD_VERSION);
    push_byte(text, "mcast_mld_version", mld)
}

/// Appends the first VLAN and the last.
#[tactic(auto, unfolding(crate::specs::Vlan::id_part, netlink_words::specs::Parts::with_part))]
fn push_id(
    alloc: Global,
    text: &mut String,
    first: Option<u16>,
    last: Option<u16>,
) -> Result<(), AllocError>
    ensures { OnOk result (AddsPart text.old text.new (id_part first last)) }
{
    match first {
        None => Ok(()),
        Some(first) => {
            let last = last_of(first, last);
            push_part(text, range_text(alloc, first as u32, last as u32)?.as_str())
        }
    }
}

/// Appends the numbers and times of queries for the last member, and of those at the start.
#[tactic(auto, unfolding(crate::specs::Vlan::query_parts))]
fn push_queries(alloc: Global, text: &mut String, options: &BlockView<'_>) -> Result<(), AllocError>
    requires rows { rows_in options.now.rows.list.now ≡ ⟦<BridgeVlans as Table>⟧.rows 112 }
    requires policy { options.now.policy ≡ GOPTS }
    ensures { OnOk result (AddsParts text.old text.new (query_parts options.now.block.now)) }
{
    let count = options.u32(BRIDGE_VLANDB_GOPTS_MCAST_LAST_MEMBER_CNT);
    push_number(text, "mcast_last_member_count", count)?;
    let time = options.u64(BRIDGE_VLANDB_GOPTS_MCAST_LAST_MEMBER_INTVL);
    push_long(alloc, text, "mcast_last_member_interval", time)?;
    let count = options.u32(BRIDGE_VLANDB_GOPTS_MCAST_STARTUP_QUERY_CNT);
    push_number(text, "mcast_startup_query_count", count)?;
    let time = options.u64(BRIDGE_VLANDB_GOPTS_MCAST_STARTUP_QUERY_INTVL);
    push_long(alloc, text, "mcast_startup_query_interval", time)
}

/// Appends the other times.
#[tactic(auto, unfolding(crate::specs::Vlan::interval_parts))]
fn push_intervals(
    alloc: Global,
    text: &mut String,
    options: &BlockView<'_>,
) -> Result<(), AllocError>
    requires rows { rows_in options.now.rows.list.now ≡ ⟦<BridgeVlans as Table>⟧.rows 112 }
    requires policy { options.now.policy ≡ GOPTS }
    ensures { OnOk result (AddsParts text.old text.new (interval_parts options.now.block.now)) }
{
    let time = options.u64(BRIDGE_VLANDB_GOPTS_MCAST_MEMBERSHIP_INTVL);
    push_long(alloc, text, "mcast_membership_interval", time)?;
    let time = options.u64(BRIDGE_VLANDB_GOPTS_MCAST_QUERIER_INTVL);
    push_long(alloc, text, "mcast_querier_interval", time)?;
    let time = options.u64(BRIDGE_VLANDB_GOPTS_MCAST_QUERY_INTVL);
    push_long(alloc, text, "mcast_query_interval", time)?;
    let time = options.u64(BRIDGE_VLANDB_GOPTS_MCAST_QUERY_RESPONSE_INTVL);
    push_long(alloc, text, "mcast_query_response_interval", time)
}
