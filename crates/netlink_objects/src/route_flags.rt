//! The flags of routes and next hops.

ghost use Rattle.std.specs.Prelude.{◌≡◌, OnOk, codes};
ghost use Rattle.netlink_json.specs.Fields.{Adds, items_written, present, with_items};
ghost use Rattle.netlink_objects.specs.RouteValues.{cache_json, cached_json, flag_items, flags_json, named_cache_items, named_item, rest_items};
ghost use Rattle.netlink_objects.specs.Rows.{field_of};

use netlink_json::{Array, Object};
use netlink_route_lines::route_cache::{RTM_F_CLONED, UNNAMED, cache_flag_name};
use netlink_route_lines::route_flags::hop_flag_name;
use netlink_route_lines::{route_cache, route_flags};
use std::alloc::{AllocError, Global};

/// Appends the names of the flags that are set, as an array, which may be empty.
pub(crate) fn put_hop_flags(
    alloc: Global,
    object: &mut Object,
    flags: u32,
) -> Result<(), AllocError>
    ensures { OnOk result (Adds object.old object.new (present (codes "flags") (flags_json flags))) }
{
    let mut items = Array::new(alloc);
    put_flag_names(alloc, &mut items, flags)?;
    object.put_array("flags", &items)?;
    Ok(())
}

/// Appends the names of the flags that are set.
#[tactic(auto, unfolding(crate::specs::RouteValues::flag_items))]
fn put_flag_names(alloc: Global, items: &mut Array, flags: u32) -> Result<(), AllocError>
    ensures { OnOk result (items_written items.new
        ≡ with_items (items_written items.old) (flag_items flags)) }
{
    for bit in route_flags::ORDER {
        put_if(alloc, items, flags & bit != 0, hop_flag_name(bit))?;
    }
    Ok(())
}

/// Appends a name if the condition holds.
fn put_if(alloc: Global, items: &mut Array, holds: bool, name: &str) -> Result<(), AllocError>
    ensures { OnOk result (items_written items.new
        ≡ with_items (items_written items.old) (named_item holds name.now)) }
{
    if !holds {
        return Ok(());
    }
    items.put_text(alloc, name.as_bytes())
}

/// Appends what the kernel keeps of an IPv4 route that was looked up: the names of its flags, as an
/// array, which may be empty.
#[tactic(auto, unfolding(netlink_json::specs::Fields::with_field))]
pub(crate) fn put_cache(
    alloc: Global,
    object: &mut Object,
    family: u8,
    flags: u32,
) -> Result<(), AllocError>
    ensures { OnOk result (Adds object.old object.new (field_of (codes "cache") (cache_json family flags))) }
{
    if family != 2 || flags & RTM_F_CLONED == 0 {
        return Ok(());
    }
    put_cached(alloc, object, flags)
}

/// Appends the names of the flags of an IPv4 route that was looked up.
fn put_cached(alloc: Global, object: &mut Object, flags: u32) -> Result<(), AllocError>
    ensures { OnOk result (Adds object.old object.new (present (codes "cache") (cached_json flags))) }
{
    let mut items = Array::new(alloc);
    put_cache_names(alloc, &mut items, flags)?;
    put_rest(alloc, &mut items, flags & UNNAMED)?;
    object.put_array("cache", &items)?;
    Ok(())
}

/// Appends the names of the flags that are set and that have one.
#[tactic(auto, unfolding(crate::specs::RouteValues::named_cache_items))]
fn put_cache_names(alloc: Global, items: &mut Array, flags: u32) -> Result<(), AllocError>
    ensures { OnOk result (items_written items.new
        ≡ with_items (items_written items.old) (named_cache_items flags)) }
{
    for bit in route_cache::ORDER {
        put_if(alloc, items, flags & bit != 0, cache_flag_name(bit))?;
    }
    Ok(())
}

/// Appends the bits without a name, as one hexadecimal number, if any is set.
fn put_rest(alloc: Global, items: &mut Array, rest: u32) -> Result<(), AllocError>
    ensures { OnOk result (items_written items.new
        ≡ with_items (items_written items.old) (rest_items rest)) }
{
    if rest == 0 {
        return Ok(());
    }
    items.put_text(alloc, format!(in alloc; "{rest:x}")?.as_bytes())
}
