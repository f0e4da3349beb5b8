//! The object of a route of multicast routing.

ghost use Rattle.std.specs.Prelude.{◌≡◌, OnOk, codes, length, map, take};
ghost use Rattle.netlink_family.specs.Finding.{first_at};
ghost use Rattle.netlink_family.specs.Listing.{listed};
ghost use Rattle.netlink_family.specs.Values.{value_bytes};
ghost use Rattle.netlink_json.specs.Fields.{Adds, AddsAll, AddsItem, items_written, object_of, present, with_items};
ghost use Rattle.netlink_json.specs.Json as json;
ghost use Rattle.netlink_objects.specs.Route.{incoming_json, multicast_fields, state_word};
ghost use Rattle.netlink_objects.specs.RouteHops.{links_json, multipath_json, outgoing_fields, outgoing_json, ttl_json};
ghost use Rattle.netlink_objects.specs.Rows.{field_of};
ghost use Rattle.netlink_route.specs.declared.routes.TheConstants.{RTA_MULTIPATH};
ghost use Rattle.netlink_route_lines.specs.Multicast.{word_or_unknown};
ghost use Rattle.netlink_route_lines.specs.RouteHops.{IsHop, IsHops};
ghost use Rattle.netlink_words.specs.Text.{ip_words};

use crate::form::{put_device, put_null};
use crate::route::put_table;
use crate::route_values::put_link;
use netlink_family::{BlockView, MessageIndex, Table, Value};
use netlink_json::{Array, Object};
use netlink_names::name_table::Names;
use netlink_packet_core::parse_u32;
use netlink_route::Routes;
use netlink_route::routes::{RTA_DST, RTA_IIF, RTA_MULTIPATH, RTA_SRC, RTM_FLAGS};
use netlink_route_lines::multicast::{RTNH_F_OFFLOAD, RTNH_F_UNRESOLVED, word_or_unknown};
use netlink_route_lines::route::table_of;
use netlink_words::parts::or_empty;
use netlink_words::text::ip_words;
use std::alloc::{AllocError, Global};

/// Appends the members of a route of multicast routing, with the keys of `ip -j mroute`: the source,
/// the group, the incoming link, the outgoing links, the state and the table.
#[tactic(auto, unfolding(crate::specs::Route::multicast_fields))]
pub(crate) fn put_multicast(
    alloc: Global,
    object: &mut Object,
    known: &Names<'_>,
    route: &MessageIndex<'_, Routes>,
) -> Result<(), AllocError>
    ensures { OnOk result (AddsAll object.old object.new
        (multicast_fields known.now route.now.message.payload.now)) }
{
    let flags = route.header().u32(RTM_FLAGS);
    put_address(alloc, object, "src", or_empty(route.index().ip(RTA_SRC)))?;
    put_address(alloc, object, "dst", or_empty(route.index().ip(RTA_DST)))?;
    put_incoming(alloc, object, known, route.index().u32(RTA_IIF))?;
    put_multipath(alloc, object, known, route)?;
    object.put_text(alloc, "state", state_word(flags).as_bytes())?;
    put_null(object, "offload", flags & RTNH_F_OFFLOAD != 0)?;
    put_table(alloc, object, table_of(route))
}

/// Appends an address; `unknown` if there is none.
fn put_address(alloc: Global, object: &mut Object, key: &str, ip: &[u8]) -> Result<(), AllocError>
    ensures { OnOk result (Adds object.old object.new
        (present key.now (json.text (word_or_unknown (ip_words ip.now))))) }
{
    let word = ip_words(alloc, ip)?;
    object.put_text(alloc, key, word_or_unknown(word.as_str()).as_bytes())
}

/// Appends the incoming link; `unresolved` if there is none.
fn put_incoming(
    alloc: Global,
    object: &mut Object,
    known: &Names<'_>,
    index: Option<u32>,
) -> Result<(), AllocError>
    ensures { OnOk result (Adds object.old object.new
        (field_of (codes "iif") (incoming_json known.now index))) }
{
    match index {
        None => object.put_text(alloc, "iif", b"unresolved"),
        Some(number) => {
            if number == 0 {
                return object.put_text(alloc, "iif", b"unresolved");
            }
            put_device(alloc, object, known, "iif", Some(number))
        }
    }
}

/// Returns whether a route with these flags is resolved.
fn state_word(flags: u32) -> &'static str
    ensures { result.now ≡ state_word flags }
{
    if flags & RTNH_F_UNRESOLVED == 0 {
        return "resolved";
    }
    "unresolved"
}

/// Appends the outgoing links in `RTA_MULTIPATH`, if it is there, as an array of objects.
#[tactic(auto, unfolding(netlink_json::specs::Fields::with_field))]
fn put_multipath(
    alloc: Global,
    object: &mut Object,
    known: &Names<'_>,
    route: &MessageIndex<'_, Routes>,
) -> Result<(), AllocError>
    ensures { OnOk result (Adds object.old object.new (field_of (codes "multipath")
        (multipath_json known.now (first_at 12 route.now.message.payload.now RTA_MULTIPATH)))) }
{
    match route.index().nest(RTA_MULTIPATH) {
        None => Ok(()),
        Some(hops) => put_outgoing_array(alloc, object, known, &hops),
    }
}

/// Appends the outgoing links in a list, as an array.
fn put_outgoing_array(
    alloc: Global,
    object: &mut Object,
    known: &Names<'_>,
    hops: &BlockView<'_>,
) -> Result<(), AllocError>
    requires { IsHops (⟦<Routes as Table>⟧.rows 24) hops.now }
    ensures { OnOk result (Adds object.old object.new
        (present (codes "multipath") (links_json known.now hops.now.block.now))) }
{
    let mut items = Array::new(alloc);
    put_outgoing_list(alloc, &mut items, known, hops)?;
    object.put_array("multipath", &items)?;
    Ok(())
}

/// Appends the outgoing links in a list.
fn put_outgoing_list(
    alloc: Global,
    items: &mut Array,
    known: &Names<'_>,
    hops: &BlockView<'_>,
) -> Result<(), AllocError>
    requires { IsHops (⟦<Routes as Table>⟧.rows 24) hops.now }
    ensures { OnOk result (items_written items.new
        ≡ with_items (items_written items.old) (map (outgoing_json known.now) (listed hops.now.block.now))) }
{
    for (word, value) in hops.attributes() {
        put_outgoing(alloc, items, known, word, value)?;
    }
    Ok(())
}

/// Appends an outgoing link, given the attribute that it has the form of.
fn put_outgoing(
    alloc: Global,
    items: &mut Array,
    known: &Names<'_>,
    word: u16,
    value: Value<'_>,
) -> Result<(), AllocError>
    requires { IsHop (⟦<Routes as Table>⟧.rows 24) value }
    ensures { OnOk result (AddsItem items.old items.new
        (object_of (outgoing_fields known.now word (take 4 (value_bytes value.entry))))) }
{
    match value {
        Value::HeaderNested(header, _) => {
            let mut link = Object::new(alloc);
            put_outgoing_fields(alloc, &mut link, known, word, header.bytes)?;
            items.put_object(link)?;
            Ok(())
        }
        _ => unreachable!(),
    }
}

/// Appends the members of an outgoing link by its flags and hops and its index in bytes: its name and,
/// if it is 2 or greater, the least time to live of what leaves there.
#[tactic(auto, unfolding(crate::specs::RouteHops::outgoing_fields))]
fn put_outgoing_fields(
    alloc: Global,
    object: &mut Object,
    known: &Names<'_>,
    word: u16,
    header: &[u8],
) -> Result<(), AllocError>
    requires { length header.now ≡ 4 }
    ensures { OnOk result (AddsAll object.old object.new (outgoing_fields known.now word header.now)) }
{
    let index = parse_u32(header).unwrap();
    put_link(alloc, object, known, "oif", Some(index))?;
    put_least(object, word / 256)
}

/// Appends a least time to live of 2 or more.
#[tactic(auto, unfolding(netlink_json::specs::Fields::with_field))]
fn put_least(object: &mut Object, least: u16) -> Result<(), AllocError>
    ensures { OnOk result (Adds object.old object.new (field_of (codes "ttl") (ttl_json least))) }
{
    if least < 2 {
        return Ok(());
    }
    object.put_number("ttl", least as u64)
}
