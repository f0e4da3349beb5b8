//! The next hops of a route.

ghost use Rattle.std.specs.Prelude.{◌≡◌, [], OnOk, codes, drop, length, map, slice_index, take};
ghost use Rattle.netlink_family.specs.Finding.{first_at, found_in};
ghost use Rattle.netlink_family.specs.Listing.{listed};
ghost use Rattle.netlink_family.specs.Values.{value_bytes};
ghost use Rattle.netlink_json.specs.Fields.{Adds, AddsAll, AddsItem, items_written, object_of, present, with_items};
ghost use Rattle.netlink_objects.specs.Forms.{word_json};
ghost use Rattle.netlink_objects.specs.RouteHops.{hop_fields, hop_json, hops_json, list_json, weight_json};
ghost use Rattle.netlink_objects.specs.RouteValues.{label_word};
ghost use Rattle.netlink_objects.specs.Rows.{field_of};
ghost use Rattle.netlink_route.specs.declared.routes.TheConstants.{RTA_MULTIPATH, RTA_NEWDST};
ghost use Rattle.netlink_route_lines.specs.RouteHops.{IsHop, IsHops, IsOfHop};
ghost use Rattle.netlink_words.specs.Parts.{or_empty};

use crate::form::{Form, put_word};
use crate::route::label_word;
use crate::route_flags::put_hop_flags;
use crate::route_values::{put_flow, put_link, put_via};
use crate::row::{Place, Source, put_row};
use netlink_family::{BlockView, MessageIndex, Table, Value};
use netlink_json::{Array, Object};
use netlink_names::name_table::Names;
use netlink_packet_core::parse_u32;
use netlink_route::Routes;
use netlink_route::routes::{RTA_FLOW, RTA_GATEWAY, RTA_MULTIPATH, RTM_FAMILY};
use netlink_route_lines::mpls::AF_MPLS;
use netlink_route_lines::route_hops::{new_labels_of, via_of};
use std::alloc::{AllocError, Global};

/// Appends the next hops in `RTA_MULTIPATH`, if it is there, as an array of objects.
#[tactic(auto, unfolding(netlink_json::specs::Fields::with_field))]
pub(crate) fn put_hops(
    alloc: Global,
    object: &mut Object,
    known: &Names<'_>,
    route: &MessageIndex<'_, Routes>,
) -> Result<(), AllocError>
    ensures { OnOk result (Adds object.old object.new (field_of (codes "nexthops")
        (hops_json known.now (slice_index (take 12 route.now.message.payload.now) 0)
        (first_at 12 route.now.message.payload.now RTA_MULTIPATH)))) }
{
    match route.index().nest(RTA_MULTIPATH) {
        None => Ok(()),
        Some(hops) => {
            let family = route.header().u8(RTM_FAMILY);
            put_hop_array(alloc, object, known, family, &hops)
        }
    }
}

/// Appends the next hops in a list, as an array.
fn put_hop_array(
    alloc: Global,
    object: &mut Object,
    known: &Names<'_>,
    family: u8,
    hops: &BlockView<'_>,
) -> Result<(), AllocError>
    requires { IsHops (⟦<Routes as Table>⟧.rows 24) hops.now }
    ensures { OnOk result (Adds object.old object.new
        (present (codes "nexthops") (list_json known.now family hops.now.block.now))) }
{
    let mut items = Array::new(alloc);
    put_list(alloc, &mut items, known, family, hops)?;
    object.put_array("nexthops", &items)?;
    Ok(())
}

/// Appends the next hops in a list.
fn put_list(
    alloc: Global,
    items: &mut Array,
    known: &Names<'_>,
    family: u8,
    hops: &BlockView<'_>,
) -> Result<(), AllocError>
    requires { IsHops (⟦<Routes as Table>⟧.rows 24) hops.now }
    ensures { OnOk result (items_written items.new
        ≡ with_items (items_written items.old) (map (hop_json known.now family) (listed hops.now.block.now))) }
{
    for (word, value) in hops.attributes() {
        put_hop(alloc, items, known, family, word, value)?;
    }
    Ok(())
}

/// Appends a next hop, given the attribute that it has the form of.
fn put_hop(
    alloc: Global,
    items: &mut Array,
    known: &Names<'_>,
    family: u8,
    word: u16,
    value: Value<'_>,
) -> Result<(), AllocError>
    requires { IsHop (⟦<Routes as Table>⟧.rows 24) value }
    ensures { OnOk result (AddsItem items.old items.new
        (object_of (hop_fields known.now family word (take 4 (value_bytes value.entry)) (drop 4 (value_bytes value.entry))))) }
{
    match value {
        Value::HeaderNested(header, attributes) => {
            let mut hop = Object::new(alloc);
            put_hop_fields(
                alloc,
                &mut hop,
                known,
                family,
                word,
                header.bytes,
                &attributes,
            )?;
            items.put_object(hop)?;
            Ok(())
        }
        _ => unreachable!(),
    }
}

/// Appends the members of a next hop by its flags and hops, the bytes before its attributes, and its
/// attributes.
#[tactic(auto, unfolding(crate::specs::RouteHops::hop_fields))]
fn put_hop_fields(
    alloc: Global,
    object: &mut Object,
    known: &Names<'_>,
    family: u8,
    word: u16,
    header: &[u8],
    attributes: &BlockView<'_>,
) -> Result<(), AllocError>
    requires header { length header.now ≡ 4 }
    requires attributes { IsOfHop (⟦<Routes as Table>⟧.rows 24) attributes.now }
    ensures { OnOk result (AddsAll object.old object.new
        (hop_fields known.now family word header.now attributes.now.block.now)) }
{
    let source = Source {
        header: &[],
        block: *attributes,
    };
    put_hop_labels(alloc, object, family, attributes)?;
    let gateway = ("gateway", Place::Attribute(RTA_GATEWAY), Form::Ip);
    put_row(alloc, object, known, &source, &gateway)?;
    put_via(alloc, object, via_of(attributes))?;
    put_flow(alloc, object, attributes.u32(RTA_FLOW))?;
    let index = parse_u32(header).unwrap();
    put_link(alloc, object, known, "dev", Some(index))?;
    put_weight(object, family, word)?;
    put_hop_flags(alloc, object, (word % 256) as u32)
}

/// Appends the weight of a next hop. `ip` prints none for a route of MPLS.
#[tactic(auto, unfolding(netlink_json::specs::Fields::with_field))]
fn put_weight(object: &mut Object, family: u8, word: u16) -> Result<(), AllocError>
    ensures { OnOk result (Adds object.old object.new (field_of (codes "weight") (weight_json family word))) }
{
    if family == AF_MPLS {
        return Ok(());
    }
    object.put_number("weight", (word / 256) as u64 + 1)
}

/// Appends the new labels of a next hop of a route of MPLS.
fn put_hop_labels(
    alloc: Global,
    object: &mut Object,
    family: u8,
    attributes: &BlockView<'_>,
) -> Result<(), AllocError>
    requires { IsOfHop (⟦<Routes as Table>⟧.rows 24) attributes.now }
    ensures { OnOk result (Adds object.old object.new (field_of (codes "to")
        (word_json (label_word family (or_empty (found_in attributes.now.block.now RTA_NEWDST)))))) }
{
    let labels = label_word(alloc, family, new_labels_of(attributes))?;
    put_word(alloc, object, "to", labels.as_str())
}
