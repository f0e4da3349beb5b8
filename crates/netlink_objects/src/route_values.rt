//! Values of routes and of next hops.

ghost use Rattle.std.specs.Prelude.{◌≡◌, IfOk, OnOk, codes, string_bytes};
ghost use Rattle.std.specs.Option.{option_copied};
ghost use Rattle.netlink_json.specs.Fields.{Adds, AddsAll, object_of, present};
ghost use Rattle.netlink_json.specs.Json as json;
ghost use Rattle.netlink_objects.specs.RouteValues.{expires_json, flow_json, from_word, host_fields, level_json, lifetime_fields, link_json, preference_json, propagation_json, realm_fields, via_json};
ghost use Rattle.netlink_objects.specs.Rows.{field_of};
ghost use Rattle.netlink_words.specs.Parts.{realm_text};

use crate::form::{put_device, put_nonzero, put_word};
use netlink_json::Object;
use netlink_names::name_table::Names;
use netlink_packet_core::{i32_at, u32_at};
use netlink_route_lines::route_hops::via_address;
use netlink_words::number_names::family_text;
use std::alloc::{AllocError, Global};

/// Appends the name of a link by its index, if there is one; `*` for 0.
#[tactic(auto, unfolding(netlink_json::specs::Fields::with_field))]
pub(crate) fn put_link(
    alloc: Global,
    object: &mut Object,
    known: &Names<'_>,
    key: &str,
    index: Option<u32>,
) -> Result<(), AllocError>
    ensures { OnOk result (Adds object.old object.new (field_of key.now (link_json known.now index))) }
{
    match index {
        None => Ok(()),
        Some(number) => {
            if number == 0 {
                return object.put_text(alloc, key, b"*");
            }
            put_device(alloc, object, known, key, Some(number))
        }
    }
}

/// Appends the gateway of another family, if there is one.
#[tactic(auto, unfolding(netlink_json::specs::Fields::with_field))]
pub(crate) fn put_via(alloc: Global, object: &mut Object, bytes: &[u8]) -> Result<(), AllocError>
    ensures { OnOk result (Adds object.old object.new (field_of (codes "via") (via_json bytes.now))) }
{
    match bytes {
        [low, _, address @ ..] => put_host(alloc, object, *low, address),
        _ => Ok(()),
    }
}

/// Appends a gateway by the name of its family and its address.
fn put_host(
    alloc: Global,
    object: &mut Object,
    family: u8,
    address: &[u8],
) -> Result<(), AllocError>
    ensures { OnOk result (Adds object.old object.new
        (present (codes "via") (object_of (host_fields family address.now)))) }
{
    let mut host = Object::new(alloc);
    put_host_fields(alloc, &mut host, family, address)?;
    object.put_object("via", host)?;
    Ok(())
}

/// Appends the name of a family, and an address.
fn put_host_fields(
    alloc: Global,
    object: &mut Object,
    family: u8,
    address: &[u8],
) -> Result<(), AllocError>
    ensures { OnOk result (AddsAll object.old object.new (host_fields family address.now)) }
{
    let name = family_text(alloc, family)?;
    object.put_text(alloc, "family", name.as_bytes())?;
    let address = via_address(alloc, family, address)?;
    object.put_text(alloc, "host", address.as_bytes())
}

/// Appends the realms of a flow, if there is one.
#[tactic(auto, unfolding(netlink_json::specs::Fields::with_field))]
pub(crate) fn put_flow(
    alloc: Global,
    object: &mut Object,
    flow: Option<u32>,
) -> Result<(), AllocError>
    ensures { OnOk result (Adds object.old object.new (field_of (codes "flow") (flow_json flow))) }
{
    match flow {
        Some(flow) => put_realms(alloc, object, flow / 65536, flow % 65536),
        None => Ok(()),
    }
}

/// Appends two realms, without the first one if it is 0.
fn put_realms(alloc: Global, object: &mut Object, from: u32, to: u32) -> Result<(), AllocError>
    ensures { OnOk result (Adds object.old object.new (present (codes "flow") (object_of (realm_fields from to)))) }
{
    let mut realms = Object::new(alloc);
    put_realm_fields(alloc, &mut realms, from, to)?;
    object.put_object("flow", realms)?;
    Ok(())
}

/// Appends the members of the object of two realms.
fn put_realm_fields(
    alloc: Global,
    object: &mut Object,
    from: u32,
    to: u32,
) -> Result<(), AllocError>
    ensures { OnOk result (AddsAll object.old object.new (realm_fields from to)) }
{
    put_word(alloc, object, "from", from_word(alloc, from)?.as_str())?;
    object.put_text(alloc, "to", realm_text(alloc, to)?.as_bytes())
}

/// Returns a realm; nothing for 0.
pub(crate) fn from_word(alloc: Global, realm: u32) -> Result<String, AllocError>
    ensures { IfOk result (λ text. string_bytes text ≡ from_word realm) }
{
    if realm == 0 {
        return Ok(String::new(alloc));
    }
    realm_text(alloc, realm)
}

/// Returns a realm; `unknown` for 0.
#[tactic(auto, unfolding(netlink_words::specs::Parts::realm_text))]
pub(crate) fn realm_text(alloc: Global, realm: u32) -> Result<String, AllocError>
    ensures { IfOk result (λ text. string_bytes text ≡ realm_text realm) }
{
    if realm == 0 {
        return String::from_str(alloc, "unknown");
    }
    format!(in alloc; "{realm}")
}

/// Appends the lifetime in seconds and the error of a route, given its `RTA_CACHEINFO`, if they are
/// not 0.
pub(crate) fn put_lifetime(object: &mut Object, info: Option<&[u8]>) -> Result<(), AllocError>
    ensures { OnOk result (AddsAll object.old object.new (lifetime_fields (option_copied info.entry))) }
{
    match info {
        None => Ok(()),
        Some(info) => {
            if info.len() < 16 {
                return Ok(());
            }
            put_expires(object, i32_at(info, 8))?;
            put_nonzero(object, "error", Some(u32_at(info, 12) as u64))
        }
    }
}

/// Appends a lifetime other than 0, given in hundredths of a second.
#[tactic(auto, unfolding(netlink_json::specs::Fields::with_field))]
fn put_expires(object: &mut Object, expires: i32) -> Result<(), AllocError>
    ensures { OnOk result (Adds object.old object.new (field_of (codes "expires") (expires_json expires))) }
{
    if expires == 0 {
        return Ok(());
    }
    object.put_signed("expires", (expires / 100) as i64)
}

/// Appends the preference of a router, if there is one.
#[tactic(auto, unfolding(netlink_json::specs::Fields::with_field))]
pub(crate) fn put_preference(
    alloc: Global,
    object: &mut Object,
    preference: Option<u8>,
) -> Result<(), AllocError>
    ensures { OnOk result (Adds object.old object.new (field_of (codes "pref") (preference_json preference))) }
{
    match preference {
        Some(preference) => put_level(alloc, object, preference),
        None => Ok(()),
    }
}

/// Appends the name of a preference, an `ICMPV6_ROUTER_PREF_*` of linux/icmpv6.h; for any other
/// number, the number.
fn put_level(alloc: Global, object: &mut Object, preference: u8) -> Result<(), AllocError>
    ensures { OnOk result (Adds object.old object.new (present (codes "pref") (level_json preference))) }
{
    match preference {
        0 => object.put_text(alloc, "pref", b"medium"),
        1 => object.put_text(alloc, "pref", b"high"),
        3 => object.put_text(alloc, "pref", b"low"),
        _ => object.put_number("pref", preference as u64),
    }
}

/// Appends whether the time to live goes on in the IP header, if it is said. `ip` spells the key like
/// this.
#[tactic(auto, unfolding(netlink_json::specs::Fields::with_field))]
pub(crate) fn put_propagation(object: &mut Object, propagates: Option<u8>) -> Result<(), AllocError>
    ensures { OnOk result (Adds object.old object.new
        (field_of (codes "ttl-propogate") (propagation_json propagates))) }
{
    match propagates {
        Some(propagates) => object.put_boolean("ttl-propogate", propagates != 0),
        None => Ok(()),
    }
}
