//! The properties of a link: its alternative names.

ghost use Rattle.std.specs.Prelude.{◌≡◌, OnOk, string_bytes};
ghost use Rattle.std.specs.List.{fold};
ghost use Rattle.netlink_family.specs.Finding.{first_at};
ghost use Rattle.netlink_family.specs.Listing.{listed};
ghost use Rattle.netlink_family.specs.Values.{value_bytes};
ghost use Rattle.netlink_route.specs.declared.links.TheConstants.{IFLA_PROP_LIST};
ghost use Rattle.netlink_link_lines.specs.LinkProperties.{IsProperties, IsProperty, alternative_part, alternatives_text, with_alternative};
ghost use Rattle.netlink_words.specs.Parts.{AddsPart};

use netlink_family::{BlockView, MessageIndex, Table, Value, bytes_until_nul};
use netlink_route::Links;
use netlink_route::links::{IFLA_ALT_IFNAME, IFLA_PROP_LIST};
use netlink_words::parts::push_string;
use std::alloc::AllocError;

/// Appends the alternative names in `IFLA_PROP_LIST`.
#[tactic(auto, unfolding(crate::specs::LinkProperties::alternatives_text))]
pub(crate) fn push_alternatives(
    text: &mut String,
    link: &MessageIndex<'_, Links>,
) -> Result<(), AllocError>
    ensures { OnOk result (string_bytes text.new ≡ alternatives_text (string_bytes text.old)
        (first_at 16 link.now.message.payload.now IFLA_PROP_LIST)) }
{
    match link.index().nest(IFLA_PROP_LIST) {
        None => Ok(()),
        Some(properties) => push_properties(text, &properties),
    }
}

/// Appends the alternative names in a list of properties.
fn push_properties(text: &mut String, properties: &BlockView<'_>) -> Result<(), AllocError>
    requires { IsProperties (⟦<Links as Table>⟧.rows 16) properties.now }
    ensures { OnOk result (string_bytes text.new
        ≡ fold with_alternative (string_bytes text.old) (listed properties.now.block.now)) }
{
    for (kind, value) in properties.attributes() {
        push_property(text, kind, value)?;
    }
    Ok(())
}

/// Appends a property, if it is an alternative name.
#[tactic(auto, unfolding(crate::specs::LinkProperties::alternative_part, netlink_words::specs::Parts::with_part))]
fn push_property(text: &mut String, kind: u16, value: Value<'_>) -> Result<(), AllocError>
    requires { IsProperty kind value }
    ensures { OnOk result (AddsPart text.old text.new (alternative_part kind (value_bytes value.entry))) }
{
    if kind != IFLA_ALT_IFNAME {
        return Ok(());
    }
    match value {
        Value::Str(name) => push_string(text, "altname", Some(bytes_until_nul(name))),
        _ => unreachable!(),
    }
}
