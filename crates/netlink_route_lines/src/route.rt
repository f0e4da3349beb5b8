//! The line of a route.

ghost use Rattle.std.specs.Prelude.{◌≡◌, IfOk, OnOk, codes, string_bytes};
ghost use Rattle.std.specs.Option.{option_map};
ghost use Rattle.netlink_family.specs.Finding.{first_at};
ghost use Rattle.netlink_route.specs.declared.routes.TheConstants.{RTA_DST, RTA_ENCAP, RTA_ENCAP_TYPE, RTA_GATEWAY, RTA_NEWDST, RTA_SRC, RTA_VIA};
ghost use Rattle.netlink_words.specs.Parts.{AddsPart, AddsParts, keyed, prefix_text};
ghost use Rattle.netlink_route_lines.specs.Encap.{encap_part};
ghost use Rattle.netlink_route_lines.specs.Mpls.{new_labels};
ghost use Rattle.netlink_route_lines.specs.Multicast.{multicast_line};
ghost use Rattle.netlink_route_lines.specs.Route.{is_shown, kept_parts, last_parts, route_byte, route_bytes, route_entry_line, route_front, route_next, route_number, route_table, route_words, target_text, type_part, with_rest, word_or_default};

use crate::encap::push_encap;
use crate::mpls::{AF_MPLS, push_label_target, push_new_labels, push_propagation};
use crate::multicast::{is_multicast, multicast_line};
use crate::route_cache::{push_cache, push_lifetime, push_mark};
use crate::route_flags::push_preference_part;
use crate::route_hops::{push_hops, push_next};
use crate::route_metrics::push_metrics;
use crate::route_origin::push_origin;
pub use crate::route_origin::{RTPROT_BOOT, is_own, table_of};
use crate::values::{ip_of, u8_of, u32_of};
use netlink_family::{MessageIndex, MessageView};
use netlink_names::device::{Known, push_device};
use netlink_names::name_table::Names;
use netlink_route::Routes;
use netlink_route::routes::{
    RTA_CACHEINFO, RTA_DST, RTA_ENCAP_TYPE, RTA_FLOW, RTA_GATEWAY, RTA_IIF, RTA_MARK, RTA_NEWDST,
    RTA_NH_ID, RTA_OIF, RTA_PREF, RTA_SRC, RTA_TTL_PROPAGATE, RTA_UID, RTA_VIA, RTM_DELROUTE,
    RTM_DST_LEN, RTM_FAMILY, RTM_FLAGS, RTM_GETROUTE, RTM_SRC_LEN, RTM_TOS, RTM_TYPE,
};
use netlink_words::number_names::route_type_text;
use netlink_words::parts::{
    host_length, or_empty, prefix_text, push_ip, push_keyed, push_length, push_number, push_part,
    push_realms, push_space, push_tos, push_when,
};
use std::alloc::{AllocError, Global};

/// More bytes than the lines of most routes have, so that a line does not grow step by step.
const USUAL: usize = 128;

/// Returns the line of a message about a route of IPv4, IPv6, MPLS or multicast routing, as `ip route
/// show table all`, `ip route get`, `ip mroute show` and `ip monitor` print it, with one space between
/// its parts. A known link is named, and any other is `if` and its index. `Get` precedes the
/// words of a request. Returns `None` for a route of another family.
pub fn route_text(
    alloc: Global,
    known: &[Known],
    route: &MessageView<'_, Routes>,
) -> Result<Option<String>, AllocError>
    ensures line { IfOk result (λ text. option_map string_bytes text
        ≡ route_entry_line known.now route.now.message_type route.now.payload.now) }
{
    route_entry_line(alloc, &Names::of(known), route)
}

/// Returns the line of a message about a route, as `route_text` does.
#[tactic(auto, unfolding(crate::specs::Route::route_entry_line))]
pub fn route_entry_line(
    alloc: Global,
    known: &Names<'_>,
    route: &MessageView<'_, Routes>,
) -> Result<Option<String>, AllocError>
    ensures { IfOk result (λ text. option_map string_bytes text
        ≡ route_entry_line known.now route.now.message_type route.now.payload.now) }
{
    let family = route.header().u8(RTM_FAMILY);
    if is_multicast(family) {
        return Ok(Some(multicast_text(alloc, known, &route.indexed())?));
    }
    if !is_shown(route.message_type, family) {
        return Ok(None);
    }
    let route = route.indexed();
    let mut text = route_words(alloc, known, &route)?;
    push_hops(alloc, &mut text, known, &route)?;
    text.push_str("\n")?;
    Ok(Some(text))
}

/// Returns the line of a message about a route of multicast routing.
fn multicast_text(
    alloc: Global,
    known: &Names<'_>,
    route: &MessageIndex<'_, Routes>,
) -> Result<String, AllocError>
    ensures { IfOk result (λ text. string_bytes text ≡ multicast_line known.now route.now.message.message_type
        (route_table route.now.message.payload.now) route.now.message.payload.now) }
{
    multicast_line(alloc, known, route, table_of(route))
}

/// Returns whether a message of this type about a route of this family has a line: one of IPv4, IPv6
/// or MPLS, and a request for routes of any family.
fn is_shown(message_type: u16, family: u8) -> bool
    ensures { result ≡ is_shown message_type family }
{
    host_length(family) != 0 || family == AF_MPLS || (message_type == RTM_GETROUTE && family == 0)
}

/// Returns what precedes the next hops.
#[tactic(auto, unfolding(crate::specs::Route::route_words))]
fn route_words(
    alloc: Global,
    known: &Names<'_>,
    route: &MessageIndex<'_, Routes>,
) -> Result<String, AllocError>
    ensures { IfOk result (λ text. string_bytes text
        ≡ route_words known.now route.now.message.message_type route.now.message.payload.now) }
{
    let mut text = String::with_capacity(alloc, USUAL)?;
    push_front(alloc, &mut text, known, route)?;
    push_link(alloc, &mut text, known, route)?;
    push_origin(alloc, &mut text, route)?;
    push_rest(alloc, &mut text, known, route)?;
    Ok(text)
}

/// Appends the verb, the type of the route, the destination, the source, the id of the next hop, the
/// new labels, the encapsulation and the type of service.
#[tactic(auto, unfolding(crate::specs::Route::route_front))]
fn push_front(
    alloc: Global,
    text: &mut String,
    known: &Names<'_>,
    route: &MessageIndex<'_, Routes>,
) -> Result<(), AllocError>
    ensures { OnOk result
        (AddsParts text.old text.new (route_front known.now route.now.message.message_type route.now.message.payload.now)) }
{
    push_when(text, route.message.message_type == RTM_DELROUTE, "Deleted")?;
    push_when(text, route.message.message_type == RTM_GETROUTE, "Get")?;
    push_type(alloc, text, route.header().u8(RTM_TYPE))?;
    push_destination(alloc, text, route)?;
    let whole = host_length(route.header().u8(RTM_FAMILY));
    let from = source_of(route);
    push_source(alloc, text, from, route.header().u8(RTM_SRC_LEN), whole)?;
    push_number(text, "nhid", u32_of(route, RTA_NH_ID))?;
    push_labels(alloc, text, route)?;
    push_own_encap(alloc, text, known, route)?;
    push_tos(alloc, text, route.header().u8(RTM_TOS))
}

/// Appends the type of a route, unless it is `unicast`.
#[tactic(auto, unfolding(netlink_words::specs::Parts::with_part))]
fn push_type(alloc: Global, text: &mut String, route_type: u8) -> Result<(), AllocError>
    ensures { OnOk result (AddsPart text.old text.new (type_part route_type)) }
{
    if route_type == 1 {
        return Ok(());
    }
    push_part(text, route_type_text(alloc, route_type)?.as_str())
}

/// Appends the destination: labels of MPLS, or an address, and its length.
pub fn push_destination(
    alloc: Global,
    text: &mut String,
    route: &MessageIndex<'_, Routes>,
) -> Result<(), AllocError>
    ensures { OnOk result (AddsPart text.old text.new (target_text route.now.message.payload.now)) }
{
    let family = route.header().u8(RTM_FAMILY);
    let length = route.header().u8(RTM_DST_LEN);
    if family == AF_MPLS {
        return push_label_target(alloc, text, target_of(route), length);
    }
    push_target(alloc, text, target_of(route), length, host_length(family))
}

/// Appends the destination by its address and the length of its prefix; `default` for every address.
#[tactic(auto, using(crate::proofs::Pieces::address_target))]
fn push_target(
    alloc: Global,
    text: &mut String,
    ip: &[u8],
    length: u8,
    whole: u8,
) -> Result<(), AllocError>
    ensures { OnOk result (AddsPart text.old text.new (word_or_default (prefix_text ip.now length whole))) }
{
    if ip.len() == 4 || ip.len() == 16 {
        push_ip(alloc, text, ip)?;
        return push_length(text, length, whole);
    }
    let to = prefix_text(alloc, ip, length, whole)?;
    if to.is_empty() {
        return push_part(text, "default");
    }
    push_part(text, to.as_str())
}

/// Appends the source by its address and the length of its prefix; nothing for every address.
#[tactic(auto, unfolding(netlink_words::specs::Parts::keyed, netlink_words::specs::Parts::prefix_of, netlink_words::specs::Parts::prefix_text, netlink_words::specs::Parts::with_part))]
fn push_source(
    alloc: Global,
    text: &mut String,
    ip: &[u8],
    length: u8,
    whole: u8,
) -> Result<(), AllocError>
    ensures { OnOk result
        (AddsPart text.old text.new (keyed (codes "from") (prefix_text ip.now length whole))) }
{
    if ip.is_empty() & (length == 0) {
        return Ok(());
    }
    push_keyed(
        text,
        "from",
        prefix_text(alloc, ip, length, whole)?.as_str(),
    )
}

/// Returns the address of the destination; empty if there is none.
fn target_of<'a>(route: &MessageIndex<'a, Routes>) -> &'a [u8]
    ensures { result.now ≡ route_bytes route.now.message.payload.now RTA_DST }
{
    ip_of(route, RTA_DST)
}

/// Returns the address of the source; empty if there is none.
pub fn source_of<'a>(route: &MessageIndex<'a, Routes>) -> &'a [u8]
    ensures { result.now ≡ route_bytes route.now.message.payload.now RTA_SRC }
{
    ip_of(route, RTA_SRC)
}

/// Appends the new labels of a route of MPLS.
#[tactic(auto, unfolding(crate::specs::Mpls::new_labels, netlink_words::specs::Parts::with_part))]
fn push_labels(
    alloc: Global,
    text: &mut String,
    route: &MessageIndex<'_, Routes>,
) -> Result<(), AllocError>
    ensures { OnOk result (AddsPart text.old text.new
        (new_labels (route_byte route.now.message.payload.now 0) (route_bytes route.now.message.payload.now RTA_NEWDST))) }
{
    if route.header().u8(RTM_FAMILY) != AF_MPLS {
        return Ok(());
    }
    push_new_labels(alloc, text, new_labels_of(route))
}

/// Returns the new labels of a route of MPLS; empty if there are none.
pub fn new_labels_of<'a>(route: &MessageIndex<'a, Routes>) -> &'a [u8]
    ensures { result.now ≡ route_bytes route.now.message.payload.now RTA_NEWDST }
{
    or_empty(route.index().bytes(RTA_NEWDST))
}

/// Appends the encapsulation, if there is one.
#[tactic(auto, unfolding(crate::specs::Encap::encap_part, netlink_words::specs::Parts::with_part))]
fn push_own_encap(
    alloc: Global,
    text: &mut String,
    known: &Names<'_>,
    route: &MessageIndex<'_, Routes>,
) -> Result<(), AllocError>
    ensures { OnOk result (AddsPart text.old text.new
        (encap_part known.now (route_number route.now.message.payload.now RTA_ENCAP_TYPE) (first_at 12 route.now.message.payload.now RTA_ENCAP))) }
{
    let index = route.index();
    match index.u16(RTA_ENCAP_TYPE) {
        None => Ok(()),
        Some(kind) => push_encap(alloc, text, known, kind, &index.view),
    }
}

/// Appends the gateway and the link.
#[tactic(auto, unfolding(crate::specs::Route::route_next))]
fn push_link(
    alloc: Global,
    text: &mut String,
    known: &Names<'_>,
    route: &MessageIndex<'_, Routes>,
) -> Result<(), AllocError>
    ensures { OnOk result (AddsParts text.old text.new (route_next known.now route.now.message.payload.now)) }
{
    push_next(alloc, text, gateway_of(route), via_of(route))?;
    push_device(text, known, "dev", u32_of(route, RTA_OIF))
}

/// Returns the gateway; empty if there is none.
fn gateway_of<'a>(route: &MessageIndex<'a, Routes>) -> &'a [u8]
    ensures { result.now ≡ route_bytes route.now.message.payload.now RTA_GATEWAY }
{
    ip_of(route, RTA_GATEWAY)
}

/// Returns the gateway of another family; empty if there is none.
pub fn via_of<'a>(route: &MessageIndex<'a, Routes>) -> &'a [u8]
    ensures { result.now ≡ route_bytes route.now.message.payload.now RTA_VIA }
{
    or_empty(route.index().bytes(RTA_VIA))
}

/// Appends what follows the flags.
#[tactic(auto, unfolding(crate::specs::Route::with_rest))]
fn push_rest(
    alloc: Global,
    text: &mut String,
    known: &Names<'_>,
    route: &MessageIndex<'_, Routes>,
) -> Result<(), AllocError>
    ensures { OnOk result (string_bytes text.new
        ≡ with_rest known.now (string_bytes text.old) route.now.message.payload.now) }
{
    push_kept(alloc, text, route)?;
    push_lifetime(alloc, text, route.index().bytes(RTA_CACHEINFO))?;
    push_last(alloc, text, known, route)
}

/// Appends the mark, the realms, the user, and what the kernel keeps of a route that was looked up.
#[tactic(auto, unfolding(crate::specs::Route::kept_parts))]
fn push_kept(
    alloc: Global,
    text: &mut String,
    route: &MessageIndex<'_, Routes>,
) -> Result<(), AllocError>
    ensures { OnOk result (AddsParts text.old text.new (kept_parts route.now.message.payload.now)) }
{
    push_mark(alloc, text, u32_of(route, RTA_MARK))?;
    push_realms(alloc, text, "realm", "realms", u32_of(route, RTA_FLOW))?;
    push_number(text, "uid", u32_of(route, RTA_UID))?;
    push_cache(
        alloc,
        text,
        route.header().u8(RTM_FAMILY),
        route.header().u32(RTM_FLAGS),
    )
}

/// Appends the metrics, the incoming link, the preference, and whether the time to live goes on.
#[tactic(auto, unfolding(crate::specs::Route::last_parts))]
fn push_last(
    alloc: Global,
    text: &mut String,
    known: &Names<'_>,
    route: &MessageIndex<'_, Routes>,
) -> Result<(), AllocError>
    ensures { OnOk result (AddsParts text.old text.new (last_parts known.now route.now.message.payload.now)) }
{
    push_metrics(alloc, text, route)?;
    push_device(text, known, "iif", u32_of(route, RTA_IIF))?;
    push_preference_part(alloc, text, u8_of(route, RTA_PREF))?;
    push_propagation(text, u8_of(route, RTA_TTL_PROPAGATE))
}
