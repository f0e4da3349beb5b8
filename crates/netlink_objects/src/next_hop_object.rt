//! The object of a next hop that has an id, and that of a bucket of a group.

ghost use Rattle.std.specs.Prelude.{◌≡◌, OnOk, codes};
ghost use Rattle.std.specs.Option.{option_copied};
ghost use Rattle.netlink_family.specs.Finding.{first_at, found_in};
ghost use Rattle.netlink_json.specs.Fields.{Adds, AddsAll, AddsParts, object_of, present};
ghost use Rattle.netlink_objects.specs.NextHopObject.{bucket_fields, bucket_json, bucket_parts, bucket_rows, encap_json, fdb_rows, group_fields, hop_parts, id_rows, is_gone, kind_parts, next_hop_parts, place_rows, short_in};
ghost use Rattle.netlink_objects.specs.Rows.{field_of, rows_in};
ghost use Rattle.netlink_route.specs.declared.next_hop_objects.TheConstants.{NHA_RES_BUCKET};

use crate::form::{Form, put_true};
use crate::next_hop_group::{number_in, put_group, put_resilient, put_type};
use crate::number::short_of;
use crate::route_flags::put_hop_flags;
use crate::row::{Place, Row, Source, put_rows, source_of, value_at};
use netlink_family::{BlockView, MessageView};
use netlink_json::Object;
use netlink_names::name_table::Names;
use netlink_route::NextHopObjects;
use netlink_route::next_hop_objects::{
    NH_FLAGS, NHA_BLACKHOLE, NHA_ENCAP, NHA_ENCAP_TYPE, NHA_FDB, NHA_GATEWAY, NHA_GROUP,
    NHA_GROUP_TYPE, NHA_ID, NHA_OIF, NHA_RES_BUCKET, NHA_RES_BUCKET_IDLE_TIME,
    NHA_RES_BUCKET_INDEX, NHA_RES_BUCKET_NH_ID, RTM_DELNEXTHOP, RTM_DELNEXTHOPBUCKET,
    RTM_NEWNEXTHOPBUCKET,
};
use netlink_route_lines::encap::encap_name;
use netlink_words::parts::or_empty;
use std::alloc::{AllocError, Global};

/// What follows the encapsulation of a next hop, before its flags.
const PLACES: [Row; 5] = [
    ("gateway", Place::Attribute(NHA_GATEWAY), Form::Ip),
    ("dev", Place::Attribute(NHA_OIF), Form::Device),
    ("scope", Place::Header(1, 1), Form::Scope(0)),
    ("blackhole", Place::Attribute(NHA_BLACKHOLE), Form::Null),
    ("protocol", Place::Header(2, 1), Form::Protocol(0, 0)),
];

/// Whether a next hop is one for entries of a bridge, after its flags.
const FDB: [Row; 1] = [("fdb", Place::Attribute(NHA_FDB), Form::Null)];

/// The id of the group of a bucket.
const ID: [Row; 1] = [("id", Place::Attribute(NHA_ID), Form::Number)];

/// What a bucket has in its nest.
const BUCKET: [Row; 3] = [
    (
        "index",
        Place::Attribute(NHA_RES_BUCKET_INDEX),
        Form::Number,
    ),
    (
        "idle_time",
        Place::Attribute(NHA_RES_BUCKET_IDLE_TIME),
        Form::Hundredths,
    ),
    ("nhid", Place::Attribute(NHA_RES_BUCKET_NH_ID), Form::Number),
];

/// Returns the rows after the encapsulation.
fn place_rows() -> &'static [Row]
    ensures { rows_in result.now ≡ place_rows }
{
    &PLACES
}

/// Returns the row after the flags.
fn fdb_rows() -> &'static [Row]
    ensures { rows_in result.now ≡ fdb_rows }
{
    &FDB
}

/// Returns the row of the id of a bucket's group.
fn id_rows() -> &'static [Row]
    ensures { rows_in result.now ≡ id_rows }
{
    &ID
}

/// Returns the rows of the nest of a bucket.
fn bucket_rows() -> &'static [Row]
    ensures { rows_in result.now ≡ bucket_rows }
{
    &BUCKET
}

/// Appends the members of a message about a next hop, with the keys of `ip -j nexthop` and in its order:
/// the id, the group, the encapsulation, the gateway, the link, the scope, the protocol and the flags. A
/// message about a bucket of a group has those of `ip -j nexthop bucket`: the id, the bucket and the
/// flags. Returns `AllocError` if an allocation fails.
#[tactic(auto, unfolding(crate::specs::NextHopObject::next_hop_parts))]
pub fn put_next_hop_object(
    alloc: Global,
    object: &mut Object,
    known: &Names<'_>,
    hop: &MessageView<'_, NextHopObjects>,
) -> Result<(), AllocError>
    ensures parts { OnOk result (AddsParts object.old object.new
        (next_hop_parts known.now hop.now.message_type hop.now.payload.now)) }
{
    put_true(object, "deleted", is_gone(hop.message_type))?;
    put_by_type(alloc, object, known, hop)
}

/// Returns whether a message of this type says that something is gone.
fn is_gone(message_type: u16) -> bool
    ensures { result ≡ is_gone message_type }
{
    (message_type == RTM_DELNEXTHOP) | (message_type == RTM_DELNEXTHOPBUCKET)
}

/// Appends the members after `deleted`.
#[tactic(auto, unfolding(crate::specs::NextHopObject::kind_parts))]
fn put_by_type(
    alloc: Global,
    object: &mut Object,
    known: &Names<'_>,
    hop: &MessageView<'_, NextHopObjects>,
) -> Result<(), AllocError>
    ensures { OnOk result (AddsParts object.old object.new
        (kind_parts known.now hop.now.message_type hop.now.payload.now)) }
{
    if hop.message_type < RTM_NEWNEXTHOPBUCKET {
        return put_hop(alloc, object, known, hop);
    }
    put_bucket(alloc, object, hop)
}

/// Appends the members of a next hop.
#[tactic(auto, unfolding(crate::specs::NextHopObject::hop_parts))]
fn put_hop(
    alloc: Global,
    object: &mut Object,
    known: &Names<'_>,
    hop: &MessageView<'_, NextHopObjects>,
) -> Result<(), AllocError>
    ensures { OnOk result (AddsParts object.old object.new (hop_parts known.now hop.now.payload.now)) }
{
    let source = source_of(hop);
    put_group_fields(alloc, object, hop)?;
    put_rows(alloc, object, known, &source, place_rows())?;
    put_hop_flags(alloc, object, hop.header().u32(NH_FLAGS))?;
    put_rows(alloc, object, known, &source, fdb_rows())
}

/// Appends the id, the group and what it has, and the encapsulation.
#[tactic(auto, unfolding(crate::specs::NextHopObject::group_fields))]
fn put_group_fields(
    alloc: Global,
    object: &mut Object,
    hop: &MessageView<'_, NextHopObjects>,
) -> Result<(), AllocError>
    ensures { OnOk result (AddsAll object.old object.new (group_fields hop.now.payload.now)) }
{
    let source = source_of(hop);
    object.put_number("id", number_in(&source.block, NHA_ID))?;
    let group = value_at(&source, Place::Attribute(NHA_GROUP));
    put_group(alloc, object, or_empty(group))?;
    put_type(alloc, object, short_in(&source.block, NHA_GROUP_TYPE))?;
    put_resilient(alloc, object, hop)?;
    let kind = short_in(&source.block, NHA_ENCAP_TYPE);
    let encap = value_at(&source, Place::Attribute(NHA_ENCAP));
    put_encap(alloc, object, kind, encap)
}

/// Returns the number of two bytes in the first attribute of a kind, if there is one.
fn short_in(block: &BlockView<'_>, kind: u16) -> Option<u16>
    ensures { result ≡ short_in (found_in block.now.block.now kind) }
{
    short_of(block.first(kind)?)
}

/// Appends the name of the type of an encapsulation, if both are there.
#[tactic(auto, unfolding(netlink_json::specs::Fields::with_field))]
fn put_encap(
    alloc: Global,
    object: &mut Object,
    kind: Option<u16>,
    encap: Option<&[u8]>,
) -> Result<(), AllocError>
    ensures { OnOk result (Adds object.old object.new
        (field_of (codes "encap") (encap_json kind (option_copied encap.entry)))) }
{
    match (kind, encap) {
        (Some(kind), Some(_)) => object.put_text(alloc, "encap", encap_name(kind).as_bytes()),
        _ => Ok(()),
    }
}

/// Appends the members of a bucket.
#[tactic(auto, unfolding(crate::specs::NextHopObject::bucket_parts))]
fn put_bucket(
    alloc: Global,
    object: &mut Object,
    bucket: &MessageView<'_, NextHopObjects>,
) -> Result<(), AllocError>
    ensures { OnOk result (AddsParts object.old object.new (bucket_parts bucket.now.payload.now)) }
{
    let none = Names::of(&[]);
    put_rows(alloc, object, &none, &source_of(bucket), id_rows())?;
    put_bucket_nest(alloc, object, bucket)?;
    put_hop_flags(alloc, object, bucket.header().u32(NH_FLAGS))
}

/// Appends what a bucket has in `NHA_RES_BUCKET`, if it is there, as an object.
#[tactic(auto, unfolding(netlink_json::specs::Fields::with_field))]
fn put_bucket_nest(
    alloc: Global,
    object: &mut Object,
    bucket: &MessageView<'_, NextHopObjects>,
) -> Result<(), AllocError>
    ensures { OnOk result (Adds object.old object.new (field_of (codes "bucket")
        (bucket_json (first_at 8 bucket.now.payload.now NHA_RES_BUCKET)))) }
{
    match bucket.view().nest(NHA_RES_BUCKET) {
        None => Ok(()),
        Some(nest) => put_bucket_object(alloc, object, &nest),
    }
}

/// Appends what a bucket has, as an object.
fn put_bucket_object(
    alloc: Global,
    object: &mut Object,
    nest: &BlockView<'_>,
) -> Result<(), AllocError>
    ensures { OnOk result (Adds object.old object.new
        (present (codes "bucket") (object_of (bucket_fields nest.now.block.now)))) }
{
    let mut values = Object::new(alloc);
    put_bucket_fields(alloc, &mut values, nest)?;
    object.put_object("bucket", values)?;
    Ok(())
}

/// Appends the index of a bucket, the time since it was used, and the id of its next hop.
fn put_bucket_fields(
    alloc: Global,
    object: &mut Object,
    nest: &BlockView<'_>,
) -> Result<(), AllocError>
    ensures { OnOk result (AddsAll object.old object.new (bucket_fields nest.now.block.now)) }
{
    let source = Source {
        header: &[],
        block: *nest,
    };
    put_rows(alloc, object, &Names::of(&[]), &source, bucket_rows())
}
