//! The object of the settings of a link.

ghost use Rattle.std.specs.Prelude.{◌≡◌, OnOk, codes};
ghost use Rattle.std.specs.Option.{option_copied};
ghost use Rattle.netlink_json.specs.Fields.{Adds, AddsParts};
ghost use Rattle.netlink_objects.specs.NetworkConfiguration.{configuration_parts, family_rows, index_in, interface_json, setting_rows};
ghost use Rattle.netlink_objects.specs.Rows.{field_of, rows_in};

use crate::form::{Form, put_true};
use crate::number::four_of;
use crate::route_values::put_link;
use crate::row::{Place, Row, put_rows, source_of};
use netlink_family::MessageView;
use netlink_json::Object;
use netlink_names::name_table::Names;
use netlink_route::NetworkConfigurations;
use netlink_route::network_configurations::{
    NETCONFA_FORWARDING, NETCONFA_IFINDEX, NETCONFA_IGNORE_ROUTES_WITH_LINKDOWN, NETCONFA_INPUT,
    NETCONFA_MC_FORWARDING, NETCONFA_PROXY_NEIGH, NETCONFA_RP_FILTER, RTM_DELNETCONF,
};
use std::alloc::{AllocError, Global};

/// The index of all links, which is -1, without a sign.
const ALL: u32 = 0xffff_ffff;

/// The index of links that are yet to be made, which is -2, without a sign.
const DEFAULT: u32 = 0xffff_fffe;

/// The address family, before the link.
const FAMILY: [Row; 1] = [("family", Place::Header(0, 1), Form::Family)];

/// The settings.
const SETTINGS: [Row; 6] = [
    (
        "forwarding",
        Place::Attribute(NETCONFA_FORWARDING),
        Form::Boolean,
    ),
    (
        "rp_filter",
        Place::Attribute(NETCONFA_RP_FILTER),
        Form::Filter,
    ),
    (
        "mc_forwarding",
        Place::Attribute(NETCONFA_MC_FORWARDING),
        Form::Boolean,
    ),
    (
        "proxy_neigh",
        Place::Attribute(NETCONFA_PROXY_NEIGH),
        Form::Boolean,
    ),
    (
        "ignore_routes_with_linkdown",
        Place::Attribute(NETCONFA_IGNORE_ROUTES_WITH_LINKDOWN),
        Form::Boolean,
    ),
    ("input", Place::Attribute(NETCONFA_INPUT), Form::Boolean),
];

/// Returns the row of the address family.
fn family_rows() -> &'static [Row]
    ensures { rows_in result.now ≡ family_rows }
{
    &FAMILY
}

/// Returns the rows of the settings.
fn setting_rows() -> &'static [Row]
    ensures { rows_in result.now ≡ setting_rows }
{
    &SETTINGS
}

/// Appends the members of a message about the settings of a link, with the keys of `ip -j netconf` and in
/// its order: the address family, the link and the settings. Returns `AllocError` if an allocation fails.
#[tactic(auto, unfolding(crate::specs::NetworkConfiguration::configuration_parts))]
pub fn put_network_configuration(
    alloc: Global,
    object: &mut Object,
    known: &Names<'_>,
    settings: &MessageView<'_, NetworkConfigurations>,
) -> Result<(), AllocError>
    ensures parts { OnOk result (AddsParts object.old object.new
        (configuration_parts known.now settings.now.message_type settings.now.payload.now)) }
{
    let source = source_of(settings);
    put_true(object, "deleted", settings.message_type == RTM_DELNETCONF)?;
    put_rows(alloc, object, known, &source, family_rows())?;
    let index = index_in(source.block.first(NETCONFA_IFINDEX));
    put_interface(alloc, object, known, index)?;
    put_rows(alloc, object, known, &source, setting_rows())
}

/// Returns the index of a link, if there is one.
fn index_in(value: Option<&[u8]>) -> Option<u32>
    ensures { result ≡ index_in (option_copied value.entry) }
{
    four_of(value?)
}

/// Appends the name of a link by its index, if there is one; `all` and `default` for the indexes that
/// stand for these, and `*` for 0.
#[tactic(auto, unfolding(netlink_json::specs::Fields::with_field))]
fn put_interface(
    alloc: Global,
    object: &mut Object,
    known: &Names<'_>,
    index: Option<u32>,
) -> Result<(), AllocError>
    ensures { OnOk result (Adds object.old object.new
        (field_of (codes "interface") (interface_json known.now index))) }
{
    match index {
        None => Ok(()),
        Some(number) => {
            if number == ALL {
                return object.put_text(alloc, "interface", b"all");
            }
            if number == DEFAULT {
                return object.put_text(alloc, "interface", b"default");
            }
            put_link(alloc, object, known, "interface", Some(number))
        }
    }
}
