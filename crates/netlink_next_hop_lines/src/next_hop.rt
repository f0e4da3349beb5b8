//! The line of a next hop, of a group of next hops, and of a bucket of a group.

ghost use Rattle.std.specs.Prelude.{◌≡◌, IfOk, OnOk, string_bytes};
ghost use Rattle.std.specs.Option.{option_copied};
ghost use Rattle.netlink_next_hop_lines.specs.NextHop.{encap_part, end_parts, gateway_of, link_part, next_hop_front, next_hop_line, next_hop_verb, of_bucket, own_text, protocol_part, scope_part, shown_id, way_parts};
ghost use Rattle.netlink_words.specs.Parts.{AddsPart, AddsParts};

use crate::bucket::push_bucket;
use crate::group::{push_group, push_resilience};
use netlink_family::MessageView;
use netlink_names::device::{Known, push_device};
use netlink_names::name_table::Names;
use netlink_route::NextHopObjects;
use netlink_route::next_hop_objects::{
    NH_FLAGS, NH_PROTOCOL, NH_SCOPE, NHA_BLACKHOLE, NHA_ENCAP, NHA_ENCAP_TYPE, NHA_FDB,
    NHA_GATEWAY, NHA_ID, NHA_OIF, RTM_DELNEXTHOP, RTM_DELNEXTHOPBUCKET, RTM_GETNEXTHOP,
    RTM_GETNEXTHOPBUCKET, RTM_NEWNEXTHOPBUCKET,
};
use netlink_route_lines::encap::encap_name;
use netlink_route_lines::route_flags::push_hop_flags;
use netlink_words::number_names::{push_protocol, push_scope};
use netlink_words::parts::{
    or_empty, or_zero, push_address, push_key, push_keyed, push_number, push_part, push_when,
};
use std::alloc::{AllocError, Global};

/// More bytes than most lines have, so that a line does not grow step by step.
const USUAL: usize = 128;

/// Returns the line of a message about a next hop, a group or a bucket, as `ip nexthop show`, `ip
/// nexthop bucket show` and `ip monitor nexthop` print it, with one space between its parts: the verb,
/// the id, and what the next hop, the group or the bucket has. A known link is named, and any other is
/// `if` and its index. Returns `AllocError` if an allocation fails.
pub fn next_hop_text(
    alloc: Global,
    known: &[Known],
    next_hop: &MessageView<'_, NextHopObjects>,
) -> Result<String, AllocError>
    ensures line { IfOk result (λ text. string_bytes text ≡ next_hop_line known.now
        next_hop.now.message_type next_hop.now.payload.now) }
{
    next_hop_line(alloc, &Names::of(known), next_hop)
}

/// Returns the line of a message about a next hop, a group or a bucket, as `next_hop_text` does.
#[tactic(auto, unfolding(crate::specs::NextHop::next_hop_line))]
pub fn next_hop_line(
    alloc: Global,
    known: &Names<'_>,
    next_hop: &MessageView<'_, NextHopObjects>,
) -> Result<String, AllocError>
    ensures { IfOk result (λ text. string_bytes text ≡ next_hop_line known.now
        next_hop.now.message_type next_hop.now.payload.now) }
{
    let mut text = String::with_capacity(alloc, USUAL)?;
    push_front(&mut text, next_hop)?;
    if of_bucket(next_hop.message_type) {
        push_bucket(alloc, &mut text, next_hop)?;
    } else {
        push_own(alloc, &mut text, known, next_hop)?;
    }
    text.push_str("\n")?;
    Ok(text)
}

/// Returns whether messages of this type are about a bucket.
fn of_bucket(message_type: u16) -> bool
    ensures { result ≡ of_bucket message_type }
{
    message_type >= RTM_NEWNEXTHOPBUCKET
}

/// Appends the verb and the id.
#[tactic(auto, unfolding(crate::specs::NextHop::next_hop_front))]
fn push_front(
    text: &mut String,
    next_hop: &MessageView<'_, NextHopObjects>,
) -> Result<(), AllocError>
    ensures { OnOk result (AddsParts text.old text.new
        (next_hop_front next_hop.now.message_type next_hop.now.payload.now)) }
{
    push_part(text, verb_text(next_hop.message_type))?;
    let id = next_hop.view().u32(NHA_ID);
    push_number(text, "id", shown_id(next_hop.message_type, id))
}

/// Returns the id that is shown: 0 if a next hop or a group has none.
fn shown_id(message_type: u16, id: Option<u32>) -> Option<u32>
    ensures { result ≡ shown_id message_type id }
{
    if of_bucket(message_type) {
        return id;
    }
    Some(or_zero(id))
}

/// Returns the verb of a message type.
#[tactic(auto, unfolding(crate::specs::NextHop::next_hop_verb))]
fn verb_text(message_type: u16) -> &'static str
    ensures { result.now ≡ next_hop_verb message_type }
{
    match message_type {
        RTM_DELNEXTHOP | RTM_DELNEXTHOPBUCKET => "Deleted",
        RTM_GETNEXTHOP | RTM_GETNEXTHOPBUCKET => "Get",
        _ => "",
    }
}

/// Appends what a next hop or a group has.
#[tactic(auto, unfolding(crate::specs::NextHop::own_text))]
fn push_own(
    alloc: Global,
    text: &mut String,
    known: &Names<'_>,
    next_hop: &MessageView<'_, NextHopObjects>,
) -> Result<(), AllocError>
    ensures { OnOk result (string_bytes text.new
        ≡ own_text known.now next_hop.now.payload.now (string_bytes text.old)) }
{
    push_group(alloc, text, next_hop)?;
    push_resilience(alloc, text, next_hop)?;
    push_way(alloc, text, known, next_hop)?;
    push_end(alloc, text, next_hop)
}

/// Appends the encapsulation, the gateway, the link and the scope.
#[tactic(auto, unfolding(crate::specs::NextHop::way_parts))]
fn push_way(
    alloc: Global,
    text: &mut String,
    known: &Names<'_>,
    next_hop: &MessageView<'_, NextHopObjects>,
) -> Result<(), AllocError>
    ensures { OnOk result (AddsParts text.old text.new (way_parts known.now next_hop.now.payload.now)) }
{
    let view = next_hop.view();
    push_encap(text, view.u16(NHA_ENCAP_TYPE), view.bytes(NHA_ENCAP))?;
    push_address(alloc, text, "via", gateway_of(next_hop))?;
    push_link(text, known, or_zero(view.u32(NHA_OIF)))?;
    push_scope_part(text, next_hop.header().u8(NH_SCOPE))
}

/// Returns the address of the gateway; empty if there is none.
fn gateway_of<'a>(next_hop: &MessageView<'a, NextHopObjects>) -> &'a [u8]
    ensures { result.now ≡ gateway_of next_hop.now.payload.now }
{
    or_empty(next_hop.view().ip(NHA_GATEWAY))
}

/// Appends the name of an encapsulation, if there are both a type and a value.
#[tactic(auto, unfolding(crate::specs::NextHop::encap_part, netlink_words::specs::Parts::with_part))]
fn push_encap(text: &mut String, kind: Option<u16>, value: Option<&[u8]>) -> Result<(), AllocError>
    ensures { OnOk result (AddsPart text.old text.new (encap_part kind (option_copied value.entry))) }
{
    match (kind, value) {
        (Some(kind), Some(_)) => push_keyed(text, "encap", encap_name(kind)),
        _ => Ok(()),
    }
}

/// Appends the name of a link other than 0.
#[tactic(auto, unfolding(crate::specs::NextHop::link_part, netlink_words::specs::Parts::with_part))]
fn push_link(text: &mut String, known: &Names<'_>, index: u32) -> Result<(), AllocError>
    ensures { OnOk result (AddsPart text.old text.new (link_part known.now index)) }
{
    if index == 0 {
        return Ok(());
    }
    push_device(text, known, "dev", Some(index))
}

/// Appends a scope other than `global`.
#[tactic(auto, using(netlink_words::specs::Pieces::part_more), unfolding(crate::specs::NextHop::scope_part, netlink_words::specs::Parts::with_part))]
fn push_scope_part(text: &mut String, scope: u8) -> Result<(), AllocError>
    ensures { OnOk result (AddsPart text.old text.new (scope_part scope)) }
{
    if scope == 0 {
        return Ok(());
    }
    push_part(text, "scope ")?;
    push_scope(text, scope)
}

/// Appends whether packets are dropped, who installed the next hop, its flags, and whether it belongs
/// to a bridge.
#[tactic(auto, unfolding(crate::specs::NextHop::end_parts))]
fn push_end(
    alloc: Global,
    text: &mut String,
    next_hop: &MessageView<'_, NextHopObjects>,
) -> Result<(), AllocError>
    ensures { OnOk result (AddsParts text.old text.new (end_parts next_hop.now.payload.now)) }
{
    let view = next_hop.view();
    push_when(text, view.first(NHA_BLACKHOLE).is_some(), "blackhole")?;
    push_protocol_part(text, next_hop.header().u8(NH_PROTOCOL))?;
    push_hop_flags(alloc, text, next_hop.header().u32(NH_FLAGS))?;
    push_when(text, view.first(NHA_FDB).is_some(), "fdb")
}

/// Appends who installed the next hop, unless nobody said so.
#[tactic(auto, using(netlink_words::specs::Pieces::protocol_more), unfolding(crate::specs::NextHop::protocol_part, netlink_words::specs::Parts::with_part))]
fn push_protocol_part(text: &mut String, protocol: u8) -> Result<(), AllocError>
    ensures { OnOk result (AddsPart text.old text.new (protocol_part protocol)) }
{
    if protocol == 0 {
        return Ok(());
    }
    push_key(text, "proto")?;
    push_protocol(text, protocol)
}
