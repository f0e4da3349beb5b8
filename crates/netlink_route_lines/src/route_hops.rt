//! The next hops of a route.

ghost use Rattle.std.specs.Prelude.{◌≡◌, IfOk, OnOk, drop, length, slice_index, string_bytes, take};
ghost use Rattle.std.specs.List.{fold};
ghost use Rattle.std.specs.Option.{option_map};
ghost use Rattle.netlink_family.specs.Finding.{first_at, found_in};
ghost use Rattle.netlink_family.specs.Listing.{listed};
ghost use Rattle.netlink_family.specs.Values.{value_bytes};
ghost use Rattle.netlink_packet_core.specs.Numbers.{number_le};
ghost use Rattle.netlink_route.specs.declared.routes.TheConstants.{RTA_ENCAP, RTA_ENCAP_TYPE, RTA_GATEWAY, RTA_MULTIPATH, RTA_NEWDST, RTA_VIA};
ghost use Rattle.netlink_words.specs.Parts.{AddsPart, AddsParts, or_empty};
ghost use Rattle.netlink_route_lines.specs.Encap.{encap_part};
ghost use Rattle.netlink_route_lines.specs.Mpls.{new_labels};
ghost use Rattle.netlink_route_lines.specs.RouteHops.{IsHop, IsHops, IsOfHop, hop_parts, hops_text, next_parts, via_address, via_part, weight_part, with_hop};

use crate::encap::push_encap;
use crate::mpls::{AF_MPLS, push_new_labels};
use crate::route_flags::push_hop_flags;
use netlink_family::{BlockView, MessageIndex, Table, Value};
use netlink_names::device::push_device;
use netlink_names::name_table::Names;
use netlink_packet_core::parse_u32;
use netlink_route::Routes;
use netlink_route::routes::{
    RTA_ENCAP_TYPE, RTA_FLOW, RTA_GATEWAY, RTA_MULTIPATH, RTA_NEWDST, RTA_VIA, RTM_FAMILY,
};
use netlink_words::number_names::family_text;
use netlink_words::parts::{or_empty, push_address, push_number, push_part, push_realms};
use netlink_words::text::{ip_words, push_colons};
use std::alloc::{AllocError, Global};

/// The address family of device addresses (linux/socket.h).
const AF_PACKET: u8 = 17;

/// Appends the next hops in `RTA_MULTIPATH`, each after `nexthop`.
#[tactic(auto, unfolding(crate::specs::RouteHops::hops_text))]
pub(crate) fn push_hops(
    alloc: Global,
    text: &mut String,
    known: &Names<'_>,
    route: &MessageIndex<'_, Routes>,
) -> Result<(), AllocError>
    ensures { OnOk result (string_bytes text.new ≡ hops_text known.now (slice_index (take 12 route.now.message.payload.now) 0)
        (string_bytes text.old) (first_at 12 route.now.message.payload.now RTA_MULTIPATH)) }
{
    match route.index().nest(RTA_MULTIPATH) {
        None => Ok(()),
        Some(hops) => push_list(alloc, text, known, route.header().u8(RTM_FAMILY), &hops),
    }
}

/// Appends the next hops in a list.
fn push_list(
    alloc: Global,
    text: &mut String,
    known: &Names<'_>,
    family: u8,
    hops: &BlockView<'_>,
) -> Result<(), AllocError>
    requires { IsHops (⟦<Routes as Table>⟧.rows 24) hops.now }
    ensures { OnOk result (string_bytes text.new
        ≡ fold (with_hop known.now family) (string_bytes text.old) (listed hops.now.block.now)) }
{
    for (word, value) in hops.attributes() {
        push_hop(alloc, text, known, family, word, value)?;
    }
    Ok(())
}

/// Appends a next hop, given the attribute that it has the form of.
fn push_hop(
    alloc: Global,
    text: &mut String,
    known: &Names<'_>,
    family: u8,
    word: u16,
    value: Value<'_>,
) -> Result<(), AllocError>
    requires { IsHop (⟦<Routes as Table>⟧.rows 24) value }
    ensures { OnOk result
        (AddsParts text.old text.new (hop_parts known.now family word (take 4 (value_bytes value.entry)) (drop 4 (value_bytes value.entry)))) }
{
    match value {
        Value::HeaderNested(header, attributes) => {
            push_hop_parts(alloc, text, known, family, word, header.bytes, &attributes)
        }
        _ => unreachable!(),
    }
}

/// Appends a next hop by its flags and hops, the bytes before its attributes, and its attributes.
#[tactic(auto, unfolding(crate::specs::RouteHops::hop_parts))]
fn push_hop_parts(
    alloc: Global,
    text: &mut String,
    known: &Names<'_>,
    family: u8,
    word: u16,
    header: &[u8],
    attributes: &BlockView<'_>,
) -> Result<(), AllocError>
    requires header { length header.now ≡ 4 }
    requires attributes { IsOfHop (⟦<Routes as Table>⟧.rows 24) attributes.now }
    ensures { OnOk result
        (AddsParts text.old text.new (hop_parts known.now family word header.now attributes.now.block.now)) }
{
    push_part(text, "nexthop")?;
    push_hop_encap(alloc, text, known, attributes)?;
    push_hop_labels(alloc, text, family, attributes)?;
    push_next(alloc, text, gateway_of(attributes), via_of(attributes))?;
    push_realms(alloc, text, "realm", "realms", attributes.u32(RTA_FLOW))?;
    push_device(text, known, "dev", Some(parse_u32(header).unwrap()))?;
    push_weight(text, family, word)?;
    push_hop_flags(alloc, text, (word % 256) as u32)
}

/// Appends the weight of a next hop. `ip` prints none for a route of MPLS.
#[tactic(auto, unfolding(netlink_words::specs::Parts::number_part, netlink_words::specs::Parts::with_part))]
fn push_weight(text: &mut String, family: u8, word: u16) -> Result<(), AllocError>
    ensures { OnOk result (AddsPart text.old text.new (weight_part family word)) }
{
    if family == AF_MPLS {
        return Ok(());
    }
    push_number(text, "weight", Some((word / 256) as u32 + 1))
}

/// Appends the encapsulation of a next hop, if there is one.
#[tactic(auto, unfolding(crate::specs::Encap::encap_part, netlink_words::specs::Parts::with_part))]
fn push_hop_encap(
    alloc: Global,
    text: &mut String,
    known: &Names<'_>,
    attributes: &BlockView<'_>,
) -> Result<(), AllocError>
    requires { IsOfHop (⟦<Routes as Table>⟧.rows 24) attributes.now }
    ensures { OnOk result (AddsPart text.old text.new
        (encap_part known.now (option_map number_le (found_in attributes.now.block.now RTA_ENCAP_TYPE)) (found_in attributes.now.block.now RTA_ENCAP))) }
{
    match attributes.u16(RTA_ENCAP_TYPE) {
        None => Ok(()),
        Some(kind) => push_encap(alloc, text, known, kind, attributes),
    }
}

/// Appends the new labels of a next hop of a route of MPLS.
#[tactic(auto, unfolding(crate::specs::Mpls::new_labels, netlink_words::specs::Parts::with_part))]
fn push_hop_labels(
    alloc: Global,
    text: &mut String,
    family: u8,
    attributes: &BlockView<'_>,
) -> Result<(), AllocError>
    requires { IsOfHop (⟦<Routes as Table>⟧.rows 24) attributes.now }
    ensures { OnOk result (AddsPart text.old text.new
        (new_labels family (or_empty (found_in attributes.now.block.now RTA_NEWDST)))) }
{
    if family != AF_MPLS {
        return Ok(());
    }
    push_new_labels(alloc, text, new_labels_of(attributes))
}

/// Returns the new labels of a next hop of MPLS; empty if there are none.
pub fn new_labels_of<'a>(attributes: &BlockView<'a>) -> &'a [u8]
    requires { IsOfHop (⟦<Routes as Table>⟧.rows 24) attributes.now }
    ensures { result.now ≡ or_empty (found_in attributes.now.block.now RTA_NEWDST) }
{
    or_empty(attributes.bytes(RTA_NEWDST))
}

/// Returns the gateway of a next hop; empty if there is none.
fn gateway_of<'a>(attributes: &BlockView<'a>) -> &'a [u8]
    requires { IsOfHop (⟦<Routes as Table>⟧.rows 24) attributes.now }
    ensures { result.now ≡ or_empty (found_in attributes.now.block.now RTA_GATEWAY) }
{
    or_empty(attributes.ip(RTA_GATEWAY))
}

/// Returns the gateway of another family of a next hop; empty if there is none.
pub fn via_of<'a>(attributes: &BlockView<'a>) -> &'a [u8]
    requires { IsOfHop (⟦<Routes as Table>⟧.rows 24) attributes.now }
    ensures { result.now ≡ or_empty (found_in attributes.now.block.now RTA_VIA) }
{
    or_empty(attributes.bytes(RTA_VIA))
}

/// Appends the gateway, in `RTA_GATEWAY`, and that of another family, in `RTA_VIA`.
pub(crate) fn push_next(
    alloc: Global,
    text: &mut String,
    gateway: &[u8],
    via: &[u8],
) -> Result<(), AllocError>
    ensures { OnOk result (AddsParts text.old text.new (next_parts gateway.now via.now)) }
{
    push_address(alloc, text, "via", gateway)?;
    push_via(alloc, text, via)
}

/// Appends the gateway of another family: the name of the family and the address.
#[tactic(auto, unfolding(netlink_words::specs::Parts::with_part))]
fn push_via(alloc: Global, text: &mut String, bytes: &[u8]) -> Result<(), AllocError>
    ensures { OnOk result (AddsPart text.old text.new (via_part bytes.now)) }
{
    match bytes {
        [low, _, address @ ..] => {
            let family = family_text(alloc, *low)?;
            let address = via_address(alloc, *low, address)?;
            push_part(text, format!(in alloc; "via {family} {address}")?.as_str())
        }
        _ => Ok(()),
    }
}

/// Returns an address of a family: a device address in hexadecimal, or an IP address.
pub fn via_address(alloc: Global, family: u8, address: &[u8]) -> Result<String, AllocError>
    ensures { IfOk result (λ text. string_bytes text ≡ via_address family address.now) }
{
    if family != AF_PACKET {
        return ip_words(alloc, address);
    }
    let mut text = String::new(alloc);
    push_colons(&mut text, address)?;
    Ok(text)
}
