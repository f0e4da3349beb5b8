//! The line of a route of multicast routing.

ghost use Rattle.std.specs.Prelude.{◌≡◌, IfOk, OnOk, length, string_bytes, take};
ghost use Rattle.std.specs.List.{fold};
ghost use Rattle.netlink_family.specs.Finding.{first_at};
ghost use Rattle.netlink_family.specs.Listing.{listed};
ghost use Rattle.netlink_family.specs.Values.{value_bytes};
ghost use Rattle.netlink_route.specs.declared.routes.TheConstants.{RTA_MULTIPATH};
ghost use Rattle.netlink_words.specs.Parts.{AddsPart, AddsParts};
ghost use Rattle.netlink_route_lines.specs.Multicast.{incoming_part, is_multicast, multicast_line, multicast_table, outgoing_list, outgoing_text, pair_text, route_parts, state_parts, with_outgoing, word_or_unknown};
ghost use Rattle.netlink_route_lines.specs.RouteHops.{IsHop, IsHops};

use crate::values::{ip_of, u32_of};
use netlink_family::{BlockView, MessageIndex, Table, Value};
use netlink_names::device::{device_name, push_device};
use netlink_names::name_table::Names;
use netlink_packet_core::parse_u32;
use netlink_route::Routes;
use netlink_route::routes::{
    RTA_DST, RTA_IIF, RTA_MULTIPATH, RTA_SRC, RTM_DELROUTE, RTM_FLAGS, RTM_GETROUTE,
};
use netlink_words::number_names::push_table;
use netlink_words::parts::{push_key, push_keyed, push_part, push_when};
use netlink_words::text::ip_words;
use std::alloc::{AllocError, Global};

/// The family of routes of multicast routing of IPv4 (linux/rtnetlink.h).
const RTNL_FAMILY_IPMR: u8 = 128;

/// The family of routes of multicast routing of IPv6.
const RTNL_FAMILY_IP6MR: u8 = 129;

// The flags of a route that `ip` names for multicast routing.
pub const RTNH_F_OFFLOAD: u32 = 0x8;

pub const RTNH_F_UNRESOLVED: u32 = 0x20;

/// The main routing table (linux/rtnetlink.h).
pub const RT_TABLE_MAIN: u32 = 254;

/// Returns whether the family of a route is that of multicast routing of IPv4 or IPv6.
pub fn is_multicast(family: u8) -> bool
    ensures { result ≡ is_multicast family }
{
    (family == RTNL_FAMILY_IPMR) | (family == RTNL_FAMILY_IP6MR)
}

/// Returns the line of a message about a route of multicast routing in this table, as `ip mroute show
/// table all` and `ip monitor mroute` print it, with one space between its parts.
#[tactic(auto, unfolding(crate::specs::Multicast::multicast_line), using(netlink_words::specs::Joined::with_parts_append))]
pub(crate) fn multicast_line(
    alloc: Global,
    known: &Names<'_>,
    route: &MessageIndex<'_, Routes>,
    table: u32,
) -> Result<String, AllocError>
    ensures { IfOk result (λ text. string_bytes text
        ≡ multicast_line known.now route.now.message.message_type table route.now.message.payload.now) }
{
    let mut text = String::new(alloc);
    push_route(alloc, &mut text, known, route)?;
    push_states(&mut text, route.header().u32(RTM_FLAGS))?;
    push_table_name(&mut text, table)?;
    text.push_str("\n")?;
    Ok(text)
}

/// Appends the verb, the source and the group, the incoming link and the outgoing links.
#[tactic(auto, unfolding(crate::specs::Multicast::route_parts))]
fn push_route(
    alloc: Global,
    text: &mut String,
    known: &Names<'_>,
    route: &MessageIndex<'_, Routes>,
) -> Result<(), AllocError>
    ensures { OnOk result (AddsParts text.old text.new
        (route_parts known.now route.now.message.message_type route.now.message.payload.now)) }
{
    push_when(text, route.message.message_type == RTM_DELROUTE, "Deleted")?;
    push_when(text, route.message.message_type == RTM_GETROUTE, "Get")?;
    let source = ip_of(route, RTA_SRC);
    let group = ip_of(route, RTA_DST);
    push_part(text, pair_text(alloc, source, group)?.as_str())?;
    push_incoming(text, known, u32_of(route, RTA_IIF))?;
    push_keyed(text, "Oifs:", outgoing_list(alloc, known, route)?.as_str())
}

/// Returns the source and the group in parentheses.
#[tactic(auto, unfolding(crate::specs::Multicast::pair_text))]
fn pair_text(alloc: Global, source: &[u8], group: &[u8]) -> Result<String, AllocError>
    ensures { IfOk result (λ text. string_bytes text ≡ pair_text source.now group.now) }
{
    let source = ip_words(alloc, source)?;
    let group = ip_words(alloc, group)?;
    let source = word_or_unknown(source.as_str());
    let group = word_or_unknown(group.as_str());
    format!(in alloc; "({source},{group})")
}

/// Returns a word, or `unknown` if it is empty.
#[tactic(auto, unfolding(crate::specs::Multicast::word_or_unknown))]
pub fn word_or_unknown<'a>(word: &'a str) -> &'a str
    ensures { result.now ≡ word_or_unknown word.now }
{
    if word.is_empty() {
        return "unknown";
    }
    word
}

/// Appends the incoming link; `unresolved` if there is none.
#[tactic(auto, unfolding(crate::specs::Multicast::incoming_part, netlink_words::specs::Parts::with_part))]
fn push_incoming(text: &mut String, known: &Names<'_>, index: Option<u32>) -> Result<(), AllocError>
    ensures { OnOk result (AddsPart text.old text.new (incoming_part known.now index)) }
{
    match index {
        None => push_part(text, "Iif: unresolved"),
        Some(index) => {
            if index == 0 {
                return push_part(text, "Iif: unresolved");
            }
            push_device(text, known, "Iif:", Some(index))
        }
    }
}

/// Returns the outgoing links, in `RTA_MULTIPATH`.
#[tactic(auto, unfolding(crate::specs::Multicast::outgoing_list))]
fn outgoing_list(
    alloc: Global,
    known: &Names<'_>,
    route: &MessageIndex<'_, Routes>,
) -> Result<String, AllocError>
    ensures { IfOk result (λ text. string_bytes text
        ≡ outgoing_list known.now (first_at 12 route.now.message.payload.now RTA_MULTIPATH)) }
{
    let mut text = String::new(alloc);
    if let Some(hops) = route.index().nest(RTA_MULTIPATH) {
        push_outgoing_list(alloc, &mut text, known, &hops)?;
    }
    Ok(text)
}

/// Appends the outgoing links in a list.
fn push_outgoing_list(
    alloc: Global,
    text: &mut String,
    known: &Names<'_>,
    hops: &BlockView<'_>,
) -> Result<(), AllocError>
    requires { IsHops (⟦<Routes as Table>⟧.rows 24) hops.now }
    ensures { OnOk result (string_bytes text.new
        ≡ fold (with_outgoing known.now) (string_bytes text.old) (listed hops.now.block.now)) }
{
    for (word, value) in hops.attributes() {
        push_outgoing(alloc, text, known, word, value)?;
    }
    Ok(())
}

/// Appends an outgoing link, given the attribute that it has the form of.
fn push_outgoing(
    alloc: Global,
    text: &mut String,
    known: &Names<'_>,
    word: u16,
    value: Value<'_>,
) -> Result<(), AllocError>
    requires { IsHop (⟦<Routes as Table>⟧.rows 24) value }
    ensures { OnOk result
        (AddsPart text.old text.new (outgoing_text known.now word (take 4 (value_bytes value.entry)))) }
{
    match value {
        Value::HeaderNested(header, _) => push_part(
            text,
            outgoing_text(alloc, known, word, header.bytes)?.as_str(),
        ),
        _ => unreachable!(),
    }
}

/// Returns an outgoing link by its flags and hops and its index in bytes: its name and, if it is 2 or
/// greater, the least time to live of what leaves there.
#[tactic(auto, unfolding(crate::specs::Multicast::outgoing_text))]
fn outgoing_text(
    alloc: Global,
    known: &Names<'_>,
    word: u16,
    index: &[u8],
) -> Result<String, AllocError>
    requires { length index.now ≡ 4 }
    ensures { IfOk result (λ text. string_bytes text ≡ outgoing_text known.now word index.now) }
{
    let name = device_name(alloc, known, parse_u32(index).unwrap())?;
    let hops = word / 256;
    if hops < 2 {
        return Ok(name);
    }
    format!(in alloc; "{name}(ttl {hops})")
}

/// Appends whether the route is resolved, and whether a device routes in place of the kernel.
#[tactic(auto, unfolding(crate::specs::Multicast::state_parts))]
fn push_states(text: &mut String, flags: u32) -> Result<(), AllocError>
    ensures { OnOk result (AddsParts text.old text.new (state_parts flags)) }
{
    let state = if flags & RTNH_F_UNRESOLVED == 0 {
        "State: resolved"
    } else {
        "State: unresolved"
    };
    push_part(text, state)?;
    push_when(text, flags & RTNH_F_OFFLOAD != 0, "offload")
}

/// Appends the table, unless it is `main` or none.
#[tactic(auto, using(netlink_words::specs::Pieces::table_more), unfolding(crate::specs::Multicast::multicast_table, netlink_words::specs::Parts::with_part))]
fn push_table_name(text: &mut String, table: u32) -> Result<(), AllocError>
    ensures { OnOk result (AddsPart text.old text.new (multicast_table table)) }
{
    if table == 0 || table == RT_TABLE_MAIN {
        return Ok(());
    }
    push_key(text, "Table:")?;
    push_table(text, table)
}
