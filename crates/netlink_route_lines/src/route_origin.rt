//! The table of a route, who installed it, its scope and its flags.

ghost use Rattle.std.specs.Prelude.{◌≡◌, OnOk};
ghost use Rattle.netlink_route.specs.declared.routes.TheConstants.{RTA_PREFSRC};
ghost use Rattle.netlink_words.specs.Parts.{AddsPart, AddsParts};
ghost use Rattle.netlink_route_lines.specs.Route.{installer_part, is_own, origin_parts, route_bytes, route_table, scope_part, table_part};

use crate::multicast::RT_TABLE_MAIN;
use crate::route_flags::push_hop_flags;
use crate::values::{ip_of, u32_of};
use netlink_family::MessageIndex;
use netlink_route::Routes;
use netlink_route::routes::{
    RTA_PREFSRC, RTA_PRIORITY, RTA_TABLE, RTM_FLAGS, RTM_PROTOCOL, RTM_SCOPE, RTM_TABLE,
};
use netlink_words::number_names::{push_protocol, push_scope, push_table};
use netlink_words::parts::{push_address, push_number, push_part};
use std::alloc::{AllocError, Global};

/// The flag `RTM_F_CLONED` of a route that the kernel looked up for a request.
const RTM_F_CLONED: u32 = 0x200;

/// Who installed a route if nobody said so.
pub const RTPROT_BOOT: u8 = 3;

/// Appends the table, the protocol, the scope, the preferred source, the metric and the flags. The
/// table `main`, the protocol `boot` and the scope `global` are left out; a route that was looked up
/// has neither protocol nor scope.
#[tactic(auto, unfolding(crate::specs::Route::origin_parts))]
pub(crate) fn push_origin(
    alloc: Global,
    text: &mut String,
    route: &MessageIndex<'_, Routes>,
) -> Result<(), AllocError>
    ensures { OnOk result (AddsParts text.old text.new (origin_parts route.now.message.payload.now)) }
{
    let own = is_own(route);
    push_table_part(text, table_of(route))?;
    push_installer(text, own, route.header().u8(RTM_PROTOCOL))?;
    push_other_scope(text, own, route.header().u8(RTM_SCOPE))?;
    push_address(alloc, text, "src", preferred_of(route))?;
    push_number(text, "metric", u32_of(route, RTA_PRIORITY))?;
    push_hop_flags(alloc, text, route.header().u32(RTM_FLAGS))
}

/// Returns whether the kernel did not look the route up for a request.
pub fn is_own(route: &MessageIndex<'_, Routes>) -> bool
    ensures { result ≡ is_own route.now.message.payload.now }
{
    route.header().u32(RTM_FLAGS) & RTM_F_CLONED == 0
}

/// Returns the number of the table, from the attribute or the header.
pub fn table_of(route: &MessageIndex<'_, Routes>) -> u32
    ensures { result ≡ route_table route.now.message.payload.now }
{
    match u32_of(route, RTA_TABLE) {
        Some(table) => table,
        None => route.header().u8(RTM_TABLE) as u32,
    }
}

/// Appends the table, unless it is `main` or none.
#[tactic(auto, using(netlink_words::specs::Pieces::part_more), unfolding(netlink_words::specs::Parts::with_part))]
fn push_table_part(text: &mut String, table: u32) -> Result<(), AllocError>
    ensures { OnOk result (AddsPart text.old text.new (table_part table)) }
{
    if table == 0 || table == RT_TABLE_MAIN {
        return Ok(());
    }
    push_part(text, "table ")?;
    push_table(text, table)
}

/// Appends who installed the route, unless it is `boot` or the route was looked up.
#[tactic(auto, using(netlink_words::specs::Pieces::part_more), unfolding(netlink_words::specs::Parts::with_part))]
fn push_installer(text: &mut String, own: bool, protocol: u8) -> Result<(), AllocError>
    ensures { OnOk result (AddsPart text.old text.new (installer_part own protocol)) }
{
    if !own || protocol == RTPROT_BOOT {
        return Ok(());
    }
    push_part(text, "proto ")?;
    push_protocol(text, protocol)
}

/// Appends the scope, unless it is `global` or the route was looked up.
#[tactic(auto, using(netlink_words::specs::Pieces::part_more), unfolding(netlink_words::specs::Parts::with_part))]
fn push_other_scope(text: &mut String, own: bool, scope: u8) -> Result<(), AllocError>
    ensures { OnOk result (AddsPart text.old text.new (scope_part own scope)) }
{
    if !own || scope == 0 {
        return Ok(());
    }
    push_part(text, "scope ")?;
    push_scope(text, scope)
}

/// Returns the preferred source; empty if there is none.
fn preferred_of<'a>(route: &MessageIndex<'a, Routes>) -> &'a [u8]
    ensures { result.now ≡ route_bytes route.now.message.payload.now RTA_PREFSRC }
{
    ip_of(route, RTA_PREFSRC)
}
