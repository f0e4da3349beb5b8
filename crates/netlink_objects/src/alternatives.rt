//! The alternative names of a link.

ghost use Rattle.std.specs.Prelude.{◌≡◌, OnOk};
ghost use Rattle.netlink_family.specs.Finding.{first_at};
ghost use Rattle.netlink_family.specs.Listing.{listed};
ghost use Rattle.netlink_family.specs.Values.{value_bytes};
ghost use Rattle.netlink_json.specs.Fields.{Adds, items_written, with_items};
ghost use Rattle.netlink_link_lines.specs.LinkProperties.{IsProperties, IsProperty};
ghost use Rattle.netlink_objects.specs.Link.{alternative_of, alternatives, alternatives_field};
ghost use Rattle.netlink_route.specs.declared.links.TheConstants.{IFLA_PROP_LIST};

use netlink_family::{BlockView, MessageView, Table, Value, bytes_until_nul};
use netlink_json::{Array, Object};
use netlink_route::Links;
use netlink_route::links::{IFLA_ALT_IFNAME, IFLA_PROP_LIST};
use std::alloc::{AllocError, Global};

/// Appends an array of the alternative names in `IFLA_PROP_LIST`, if there is one.
#[tactic(auto, unfolding(netlink_json::specs::Fields::with_field))]
pub(crate) fn put_alternatives(
    alloc: Global,
    object: &mut Object,
    link: &MessageView<'_, Links>,
) -> Result<(), AllocError>
    ensures { OnOk result (Adds object.old object.new
        (alternatives_field (first_at 16 link.now.payload.now IFLA_PROP_LIST))) }
{
    match link.view().nest(IFLA_PROP_LIST) {
        None => Ok(()),
        Some(properties) => {
            let mut items = Array::new(alloc);
            put_properties(alloc, &mut items, &properties)?;
            object.put_array("altnames", &items)
        }
    }
}

/// Appends the alternative names in a list of properties as items.
fn put_properties(
    alloc: Global,
    items: &mut Array,
    properties: &BlockView<'_>,
) -> Result<(), AllocError>
    requires { IsProperties (⟦<Links as Table>⟧.rows 16) properties.now }
    ensures { OnOk result (items_written items.new
        ≡ with_items (items_written items.old) (alternatives (listed properties.now.block.now))) }
{
    for (kind, value) in properties.attributes() {
        put_property(alloc, items, kind, value)?;
    }
    Ok(())
}

/// Appends a property as an item, if it is an alternative name.
fn put_property(
    alloc: Global,
    items: &mut Array,
    kind: u16,
    value: Value<'_>,
) -> Result<(), AllocError>
    requires { IsProperty kind value }
    ensures { OnOk result (items_written items.new
        ≡ with_items (items_written items.old) (alternative_of kind (value_bytes value.entry))) }
{
    if kind != IFLA_ALT_IFNAME {
        return Ok(());
    }
    match value {
        Value::Str(name) => items.put_text(alloc, bytes_until_nul(name)),
        _ => unreachable!(),
    }
}
