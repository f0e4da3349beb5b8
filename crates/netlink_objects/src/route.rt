//! The object of a route.

ghost use Rattle.std.specs.Prelude.{◌≡◌, IfOk, OnOk, codes, string_bytes};
ghost use Rattle.netlink_json.specs.Fields.{Adds, AddsAll, AddsParts, present};
ghost use Rattle.netlink_json.specs.Json as json;
ghost use Rattle.netlink_objects.specs.Forms.{word_json};
ghost use Rattle.netlink_objects.specs.Route.{front_fields, kind_parts, last_fields, next_fields, origin_fields, route_parts};
ghost use Rattle.netlink_objects.specs.RouteValues.{installer_word, label_word, scope_word, table_word};
ghost use Rattle.netlink_objects.specs.Rows.{field_of};
ghost use Rattle.netlink_route.specs.declared.routes.TheConstants.{RTA_NEWDST};
ghost use Rattle.netlink_route_lines.specs.Multicast.{is_multicast};
ghost use Rattle.netlink_route_lines.specs.Route.{route_byte, route_bytes, source_text, target_text, type_part};

use crate::form::{Form, put_true, put_word};
use crate::multicast_route::put_multicast;
use crate::route_flags::{put_cache, put_hop_flags};
use crate::route_hops::put_hops;
use crate::route_metrics::put_metrics;
use crate::route_values::{
    put_flow, put_lifetime, put_link, put_preference, put_propagation, put_via,
};
use crate::row::{Place, put_row, source_of};
use netlink_family::{MessageIndex, MessageView};
use netlink_json::Object;
use netlink_names::name_table::Names;
use netlink_route::Routes;
use netlink_route::routes::{
    RTA_CACHEINFO, RTA_FLOW, RTA_GATEWAY, RTA_IIF, RTA_MARK, RTA_NH_ID, RTA_OIF, RTA_PREF,
    RTA_PREFSRC, RTA_PRIORITY, RTA_TTL_PROPAGATE, RTA_UID, RTM_DELROUTE, RTM_FAMILY, RTM_FLAGS,
    RTM_PROTOCOL, RTM_SCOPE, RTM_SRC_LEN, RTM_TYPE,
};
use netlink_route_lines::mpls::{AF_MPLS, labels_text};
use netlink_route_lines::multicast::{RT_TABLE_MAIN, is_multicast};
use netlink_route_lines::route as lines;
use netlink_words::number_names::{push_protocol, push_table, route_type_text, scope_text};
use netlink_words::parts::{host_length, prefix_text};
use std::alloc::{AllocError, Global};

/// Appends the members of a message about a route, with the keys of `ip -j route` and in its order; of
/// a route of multicast routing, those of `ip -j mroute`. Returns `AllocError` if an allocation fails.
#[tactic(auto, unfolding(crate::specs::Route::route_parts))]
pub fn put_route(
    alloc: Global,
    object: &mut Object,
    known: &Names<'_>,
    route: &MessageView<'_, Routes>,
) -> Result<(), AllocError>
    ensures parts { OnOk result (AddsParts object.old object.new
        (route_parts known.now route.now.message_type route.now.payload.now)) }
{
    put_true(object, "deleted", route.message_type == RTM_DELROUTE)?;
    put_by_family(alloc, object, known, &route.indexed())
}

/// Appends the members after `deleted`.
#[tactic(auto, unfolding(crate::specs::Route::kind_parts))]
fn put_by_family(
    alloc: Global,
    object: &mut Object,
    known: &Names<'_>,
    route: &MessageIndex<'_, Routes>,
) -> Result<(), AllocError>
    ensures { OnOk result (AddsParts object.old object.new
        (kind_parts known.now route.now.message.payload.now)) }
{
    if is_multicast(route.header().u8(RTM_FAMILY)) {
        return put_multicast(alloc, object, known, route);
    }
    put_front(alloc, object, known, route)?;
    put_next(alloc, object, known, route)?;
    put_origin(alloc, object, known, route)?;
    put_lifetime(object, route.index().bytes(RTA_CACHEINFO))?;
    put_last(alloc, object, known, route)
}

/// Appends the type, the destination, the source, the id of the next hop, the new labels and the type
/// of service.
#[tactic(auto, unfolding(crate::specs::Route::front_fields))]
fn put_front(
    alloc: Global,
    object: &mut Object,
    known: &Names<'_>,
    route: &MessageIndex<'_, Routes>,
) -> Result<(), AllocError>
    ensures { OnOk result (AddsAll object.old object.new
        (front_fields known.now route.now.message.payload.now)) }
{
    let source = source_of(&route.message);
    put_type(alloc, object, route.header().u8(RTM_TYPE))?;
    put_destination(alloc, object, route)?;
    put_source(alloc, object, route)?;
    let nhid = ("nhid", Place::Attribute(RTA_NH_ID), Form::Number);
    put_row(alloc, object, known, &source, &nhid)?;
    put_labels(alloc, object, route)?;
    let tos = ("tos", Place::Header(3, 1), Form::Tos);
    put_row(alloc, object, known, &source, &tos)
}

/// Appends the type of a route, unless it is `unicast`.
fn put_type(alloc: Global, object: &mut Object, route_type: u8) -> Result<(), AllocError>
    ensures { OnOk result (Adds object.old object.new
        (field_of (codes "type") (word_json (type_part route_type)))) }
{
    put_word(
        alloc,
        object,
        "type",
        type_word(alloc, route_type)?.as_str(),
    )
}

/// Returns the type of a route; nothing for `unicast`.
fn type_word(alloc: Global, route_type: u8) -> Result<String, AllocError>
    ensures { IfOk result (λ text. string_bytes text ≡ type_part route_type) }
{
    if route_type == 1 {
        return Ok(String::new(alloc));
    }
    route_type_text(alloc, route_type)
}

/// Appends the destination: `default`, labels of MPLS, or an address, and its length.
fn put_destination(
    alloc: Global,
    object: &mut Object,
    route: &MessageIndex<'_, Routes>,
) -> Result<(), AllocError>
    ensures { OnOk result (Adds object.old object.new
        (present (codes "dst") (json.text (target_text route.now.message.payload.now)))) }
{
    object.put_text(alloc, "dst", target_word(alloc, route)?.as_bytes())
}

/// Returns the destination in the same way.
#[tactic(auto, using(crate::proofs::Words::part_alone))]
fn target_word(alloc: Global, route: &MessageIndex<'_, Routes>) -> Result<String, AllocError>
    ensures { IfOk result (λ text. string_bytes text ≡ target_text route.now.message.payload.now) }
{
    let mut text = String::new(alloc);
    lines::push_destination(alloc, &mut text, route)?;
    Ok(text)
}

/// Appends the source by its address and the length of its prefix; nothing for every address.
fn put_source(
    alloc: Global,
    object: &mut Object,
    route: &MessageIndex<'_, Routes>,
) -> Result<(), AllocError>
    ensures { OnOk result (Adds object.old object.new
        (field_of (codes "from") (word_json (source_text route.now.message.payload.now)))) }
{
    put_word(alloc, object, "from", source_word(alloc, route)?.as_str())
}

/// Returns the source in the same way.
fn source_word(alloc: Global, route: &MessageIndex<'_, Routes>) -> Result<String, AllocError>
    ensures { IfOk result (λ text. string_bytes text ≡ source_text route.now.message.payload.now) }
{
    let whole = host_length(route.header().u8(RTM_FAMILY));
    let length = route.header().u8(RTM_SRC_LEN);
    prefix_text(alloc, lines::source_of(route), length, whole)
}

/// Appends the labels that replace that of the destination of a route of MPLS.
fn put_labels(
    alloc: Global,
    object: &mut Object,
    route: &MessageIndex<'_, Routes>,
) -> Result<(), AllocError>
    ensures { OnOk result (Adds object.old object.new
        (field_of (codes "to") (word_json (label_word (route_byte route.now.message.payload.now 0)
        (route_bytes route.now.message.payload.now RTA_NEWDST))))) }
{
    let family = route.header().u8(RTM_FAMILY);
    let labels = label_word(alloc, family, lines::new_labels_of(route))?;
    put_word(alloc, object, "to", labels.as_str())
}

/// Returns the new labels of a route of MPLS; nothing for another family.
pub(crate) fn label_word(alloc: Global, family: u8, labels: &[u8]) -> Result<String, AllocError>
    ensures { IfOk result (λ text. string_bytes text ≡ label_word family labels.now) }
{
    if family != AF_MPLS {
        return Ok(String::new(alloc));
    }
    labels_text(alloc, labels)
}

/// Appends the gateway, the link, the table, who installed the route, and the scope. The table
/// `main`, the protocol `boot` and the scope `global` are left out; a route that was looked up has
/// neither protocol nor scope.
#[tactic(auto, unfolding(crate::specs::Route::next_fields))]
fn put_next(
    alloc: Global,
    object: &mut Object,
    known: &Names<'_>,
    route: &MessageIndex<'_, Routes>,
) -> Result<(), AllocError>
    ensures { OnOk result (AddsAll object.old object.new
        (next_fields known.now route.now.message.payload.now)) }
{
    let source = source_of(&route.message);
    let gateway = ("gateway", Place::Attribute(RTA_GATEWAY), Form::Ip);
    put_row(alloc, object, known, &source, &gateway)?;
    put_via(alloc, object, lines::via_of(route))?;
    put_link(alloc, object, known, "dev", route.index().u32(RTA_OIF))?;
    put_table(alloc, object, lines::table_of(route))?;
    let own = lines::is_own(route);
    put_installer(alloc, object, own, route.header().u8(RTM_PROTOCOL))?;
    put_scope(alloc, object, own, route.header().u8(RTM_SCOPE))
}

/// Appends the table, unless it is `main` or none.
pub(crate) fn put_table(alloc: Global, object: &mut Object, table: u32) -> Result<(), AllocError>
    ensures { OnOk result (Adds object.old object.new
        (field_of (codes "table") (word_json (table_word table)))) }
{
    put_word(alloc, object, "table", table_word(alloc, table)?.as_str())
}

/// Returns the name of a table; nothing for `main` and for none.
fn table_word(alloc: Global, table: u32) -> Result<String, AllocError>
    ensures { IfOk result (λ text. string_bytes text ≡ table_word table) }
{
    let mut text = String::new(alloc);
    if table == 0 || table == RT_TABLE_MAIN {
        return Ok(text);
    }
    push_table(&mut text, table)?;
    Ok(text)
}

/// Appends who installed the route, unless it is `boot` or the route was looked up.
fn put_installer(
    alloc: Global,
    object: &mut Object,
    own: bool,
    protocol: u8,
) -> Result<(), AllocError>
    ensures { OnOk result (Adds object.old object.new
        (field_of (codes "protocol") (word_json (installer_word own protocol)))) }
{
    let word = installer_word(alloc, own, protocol)?;
    put_word(alloc, object, "protocol", word.as_str())
}

/// Returns who installed the route in the same way.
fn installer_word(alloc: Global, own: bool, protocol: u8) -> Result<String, AllocError>
    ensures { IfOk result (λ text. string_bytes text ≡ installer_word own protocol) }
{
    let mut text = String::new(alloc);
    if !own || protocol == lines::RTPROT_BOOT {
        return Ok(text);
    }
    push_protocol(&mut text, protocol)?;
    Ok(text)
}

/// Appends the scope, unless it is `global` or the route was looked up.
fn put_scope(alloc: Global, object: &mut Object, own: bool, scope: u8) -> Result<(), AllocError>
    ensures { OnOk result (Adds object.old object.new
        (field_of (codes "scope") (word_json (scope_word own scope)))) }
{
    put_word(
        alloc,
        object,
        "scope",
        scope_word(alloc, own, scope)?.as_str(),
    )
}

/// Returns the scope in the same way.
fn scope_word(alloc: Global, own: bool, scope: u8) -> Result<String, AllocError>
    ensures { IfOk result (λ text. string_bytes text ≡ scope_word own scope) }
{
    if !own || scope == 0 {
        return Ok(String::new(alloc));
    }
    scope_text(alloc, scope)
}

/// Appends the preferred source, the metric, the flags, the mark, the realms, the user, and what the
/// kernel keeps of a route that was looked up.
#[tactic(auto, unfolding(crate::specs::Route::origin_fields))]
fn put_origin(
    alloc: Global,
    object: &mut Object,
    known: &Names<'_>,
    route: &MessageIndex<'_, Routes>,
) -> Result<(), AllocError>
    ensures { OnOk result (AddsAll object.old object.new
        (origin_fields known.now route.now.message.payload.now)) }
{
    let source = source_of(&route.message);
    let flags = route.header().u32(RTM_FLAGS);
    let prefsrc = ("prefsrc", Place::Attribute(RTA_PREFSRC), Form::Ip);
    put_row(alloc, object, known, &source, &prefsrc)?;
    let metric = ("metric", Place::Attribute(RTA_PRIORITY), Form::Number);
    put_row(alloc, object, known, &source, &metric)?;
    put_hop_flags(alloc, object, flags)?;
    let mark = ("mark", Place::Attribute(RTA_MARK), Form::NonZero);
    put_row(alloc, object, known, &source, &mark)?;
    put_flow(alloc, object, route.index().u32(RTA_FLOW))?;
    let user = ("uid", Place::Attribute(RTA_UID), Form::Number);
    put_row(alloc, object, known, &source, &user)?;
    put_cache(alloc, object, route.header().u8(RTM_FAMILY), flags)
}

/// Appends the metrics, the incoming link, the preference, whether the time to live goes on, and the
/// next hops.
#[tactic(auto, unfolding(crate::specs::Route::last_fields))]
fn put_last(
    alloc: Global,
    object: &mut Object,
    known: &Names<'_>,
    route: &MessageIndex<'_, Routes>,
) -> Result<(), AllocError>
    ensures { OnOk result (AddsAll object.old object.new
        (last_fields known.now route.now.message.payload.now)) }
{
    put_metrics(alloc, object, route)?;
    put_link(alloc, object, known, "iif", route.index().u32(RTA_IIF))?;
    put_preference(alloc, object, route.index().u8(RTA_PREF))?;
    put_propagation(object, route.index().u8(RTA_TTL_PROPAGATE))?;
    put_hops(alloc, object, known, route)
}
