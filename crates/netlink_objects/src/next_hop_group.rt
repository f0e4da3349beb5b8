//! Groups of next hops that have an id.

ghost use Rattle.std.specs.Prelude.{◌≡◌, IfOk, OnOk, codes, string_bytes};
ghost use Rattle.netlink_family.specs.Finding.{first_at, found_in};
ghost use Rattle.netlink_json.specs.Fields.{Adds, AddsAll, AddsItem, items_written, object_of, present, with_items};
ghost use Rattle.netlink_json.specs.Json.{hundredths};
ghost use Rattle.netlink_objects.specs.NextHopGroup.{group_items, group_json, member_fields, members_json, number_in, resilient_fields, resilient_json, type_json, type_word, unbalanced_fields, weight_json};
ghost use Rattle.netlink_objects.specs.Rows.{field_of};
ghost use Rattle.netlink_route.specs.declared.next_hop_objects.TheConstants.{NHA_RES_GROUP};

use crate::form::put_word;
use crate::number::number_of;
use netlink_family::{BlockView, MessageView};
use netlink_json::{Array, Object};
use netlink_packet_core::{u16_at, u32_at};
use netlink_route::NextHopObjects;
use netlink_route::next_hop_objects::{
    NHA_RES_GROUP, NHA_RES_GROUP_BUCKETS, NHA_RES_GROUP_IDLE_TIMER, NHA_RES_GROUP_UNBALANCED_TIME,
    NHA_RES_GROUP_UNBALANCED_TIMER,
};
use std::alloc::{AllocError, Global};

/// Appends a group as an array of its members, unless it has no bytes.
#[tactic(auto, unfolding(netlink_json::specs::Fields::with_field))]
pub(crate) fn put_group(alloc: Global, object: &mut Object, group: &[u8]) -> Result<(), AllocError>
    ensures { OnOk result (Adds object.old object.new (field_of (codes "group") (group_json group.now))) }
{
    if group.is_empty() {
        return Ok(());
    }
    put_member_array(alloc, object, group)
}

/// Appends the members of a group, as an array.
fn put_member_array(alloc: Global, object: &mut Object, group: &[u8]) -> Result<(), AllocError>
    ensures { OnOk result (Adds object.old object.new (present (codes "group") (members_json group.now))) }
{
    let mut items = Array::new(alloc);
    put_members(alloc, &mut items, group)?;
    object.put_array("group", &items)?;
    Ok(())
}

/// Appends the members of a group, each of 8 bytes.
fn put_members(alloc: Global, items: &mut Array, group: &[u8]) -> Result<(), AllocError>
    ensures { OnOk result (items_written items.new
        ≡ with_items (items_written items.old) (group_items group.now)) }
{
    let mut rest = group;
    while let [_, _, _, _, _, _, _, _, more @ ..] = rest {
        put_member(alloc, items, u32_at(rest, 0), u16_at(rest, 4))?;
        rest = more;
    }
    Ok(())
}

/// Appends a member by its id and its weight less 1.
fn put_member(alloc: Global, items: &mut Array, id: u32, less: u16) -> Result<(), AllocError>
    ensures { OnOk result (AddsItem items.old items.new (object_of (member_fields id less))) }
{
    let mut member = Object::new(alloc);
    put_member_fields(&mut member, id, less)?;
    items.put_object(member)?;
    Ok(())
}

/// Appends an id and a weight.
fn put_member_fields(object: &mut Object, id: u32, less: u16) -> Result<(), AllocError>
    ensures { OnOk result (AddsAll object.old object.new (member_fields id less)) }
{
    object.put_number("id", id as u64)?;
    put_weight(object, less)
}

/// Appends a weight by the number less 1, unless it is 1.
#[tactic(auto, unfolding(netlink_json::specs::Fields::with_field))]
fn put_weight(object: &mut Object, less: u16) -> Result<(), AllocError>
    ensures { OnOk result (Adds object.old object.new (field_of (codes "weight") (weight_json less))) }
{
    if less == 0 {
        return Ok(());
    }
    object.put_number("weight", less as u64 + 1)
}

/// Appends the type of a group, if there is one.
#[tactic(auto, unfolding(netlink_json::specs::Fields::with_field))]
pub(crate) fn put_type(
    alloc: Global,
    object: &mut Object,
    group_type: Option<u16>,
) -> Result<(), AllocError>
    ensures { OnOk result (Adds object.old object.new (field_of (codes "type") (type_json group_type))) }
{
    match group_type {
        None => Ok(()),
        Some(number) => put_word(alloc, object, "type", type_word(alloc, number)?.as_str()),
    }
}

/// Returns the name of a type of group, a `NEXTHOP_GRP_TYPE_*` of linux/nexthop.h; nothing for the first
/// one, and for any without a name the number.
fn type_word(alloc: Global, number: u16) -> Result<String, AllocError>
    ensures { IfOk result (λ text. string_bytes text ≡ type_word number) }
{
    match number {
        0 => Ok(String::new(alloc)),
        1 => String::from_str(alloc, "resilient"),
        _ => format!(in alloc; "{number}"),
    }
}

/// Appends what a resilient group has in `NHA_RES_GROUP`, if it is there, as an object.
#[tactic(auto, unfolding(netlink_json::specs::Fields::with_field))]
pub(crate) fn put_resilient(
    alloc: Global,
    object: &mut Object,
    hop: &MessageView<'_, NextHopObjects>,
) -> Result<(), AllocError>
    ensures { OnOk result (Adds object.old object.new (field_of (codes "resilient_args")
        (resilient_json (first_at 8 hop.now.payload.now NHA_RES_GROUP)))) }
{
    match hop.view().nest(NHA_RES_GROUP) {
        None => Ok(()),
        Some(nest) => put_resilient_object(alloc, object, &nest),
    }
}

/// Appends what a resilient group has, as an object.
fn put_resilient_object(
    alloc: Global,
    object: &mut Object,
    nest: &BlockView<'_>,
) -> Result<(), AllocError>
    ensures { OnOk result (Adds object.old object.new
        (present (codes "resilient_args") (object_of (resilient_fields nest.now.block.now)))) }
{
    let mut values = Object::new(alloc);
    put_resilient_fields(&mut values, nest)?;
    object.put_object("resilient_args", values)?;
    Ok(())
}

/// Appends the number of buckets and the times of a resilient group; 0 for each that is missing.
fn put_resilient_fields(object: &mut Object, nest: &BlockView<'_>) -> Result<(), AllocError>
    ensures { OnOk result (AddsAll object.old object.new (resilient_fields nest.now.block.now)) }
{
    object.put_number("buckets", number_in(nest, NHA_RES_GROUP_BUCKETS))?;
    put_time(object, "idle_timer", nest, NHA_RES_GROUP_IDLE_TIMER)?;
    put_unbalanced(object, nest)
}

/// Appends how long a group may be unbalanced, and how long it is.
fn put_unbalanced(object: &mut Object, nest: &BlockView<'_>) -> Result<(), AllocError>
    ensures { OnOk result (AddsAll object.old object.new (unbalanced_fields nest.now.block.now)) }
{
    let limit = NHA_RES_GROUP_UNBALANCED_TIMER;
    put_time(object, "unbalanced_timer", nest, limit)?;
    put_time(
        object,
        "unbalanced_time",
        nest,
        NHA_RES_GROUP_UNBALANCED_TIME,
    )
}

/// Appends the time in the first attribute of a kind; 0 if there is none.
fn put_time(
    object: &mut Object,
    key: &str,
    nest: &BlockView<'_>,
    kind: u16,
) -> Result<(), AllocError>
    ensures { OnOk result (Adds object.old object.new
        (present key.now (hundredths (number_in (found_in nest.now.block.now kind))))) }
{
    object.put_hundredths(key, number_in(nest, kind))
}

/// Returns the number in the first attribute of a kind; 0 if there is none.
pub(crate) fn number_in(block: &BlockView<'_>, kind: u16) -> u64
    ensures { result ≡ number_in (found_in block.now.block.now kind) }
{
    match block.first(kind) {
        None => 0,
        Some(value) => match number_of(value) {
            None => 0,
            Some(number) => number,
        },
    }
}
