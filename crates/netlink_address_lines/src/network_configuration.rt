//! The line of the settings of a link.

ghost use Rattle.std.specs.Prelude.{◌≡◌, IfOk, OnOk, string_bytes};
ghost use Rattle.netlink_address_lines.specs.NetworkConfiguration.{configuration_front, configuration_line, configuration_verb, filter_part, filter_text, forwarding_parts, neighbour_parts, on_or_off, place_part, switch_part};
ghost use Rattle.netlink_words.specs.Parts.{AddsPart, AddsParts};

use netlink_family::MessageView;
use netlink_names::device::{Known, device_name};
use netlink_names::name_table::Names;
use netlink_route::NetworkConfigurations;
use netlink_route::network_configurations::{
    NCM_FAMILY, NETCONFA_FORWARDING, NETCONFA_IFINDEX, NETCONFA_IFINDEX_ALL,
    NETCONFA_IFINDEX_DEFAULT, NETCONFA_IGNORE_ROUTES_WITH_LINKDOWN, NETCONFA_INPUT,
    NETCONFA_MC_FORWARDING, NETCONFA_PROXY_NEIGH, NETCONFA_RP_FILTER, RTM_DELNETCONF,
    RTM_GETNETCONF,
};
use netlink_words::number_names::family_text;
use netlink_words::parts::{push_keyed, push_part};
use std::alloc::{AllocError, Global};

/// More bytes than most lines have, so that a line does not grow step by step.
const USUAL: usize = 128;

/// Returns the line of a message about the settings of a link, as `ip netconf show` and `ip monitor
/// netconf` print it: the verb, the family, the link, and what is set. A known link is named, and any
/// other is `if` and its index. Returns `AllocError` if an allocation fails.
pub fn configuration_text(
    alloc: Global,
    known: &[Known],
    configuration: &MessageView<'_, NetworkConfigurations>,
) -> Result<String, AllocError>
    ensures line { IfOk result (λ text. string_bytes text ≡ configuration_line known.now
        configuration.now.message_type configuration.now.payload.now) }
{
    configuration_line(alloc, &Names::of(known), configuration)
}

/// Returns the line of a message about the settings of a link, as `configuration_text` does.
#[tactic(auto, unfolding(crate::specs::NetworkConfiguration::configuration_line))]
pub fn configuration_line(
    alloc: Global,
    known: &Names<'_>,
    configuration: &MessageView<'_, NetworkConfigurations>,
) -> Result<String, AllocError>
    ensures { IfOk result (λ text. string_bytes text ≡ configuration_line known.now
        configuration.now.message_type configuration.now.payload.now) }
{
    let mut text = String::with_capacity(alloc, USUAL)?;
    push_front(alloc, &mut text, known, configuration)?;
    push_forwarding(alloc, &mut text, configuration)?;
    push_neighbours(&mut text, configuration)?;
    text.push_str("\n")?;
    Ok(text)
}

/// Appends the verb, the family and the link.
#[tactic(auto, unfolding(crate::specs::NetworkConfiguration::configuration_front))]
fn push_front(
    alloc: Global,
    text: &mut String,
    known: &Names<'_>,
    configuration: &MessageView<'_, NetworkConfigurations>,
) -> Result<(), AllocError>
    ensures { OnOk result (AddsParts text.old text.new
        (configuration_front known.now configuration.now.message_type configuration.now.payload.now)) }
{
    push_part(text, verb_text(configuration.message_type))?;
    let family = family_text(alloc, configuration.header().u8(NCM_FAMILY))?;
    push_part(text, family.as_str())?;
    push_place(
        alloc,
        text,
        known,
        configuration.view().i32(NETCONFA_IFINDEX),
    )
}

/// Returns the verb of a message type.
#[tactic(auto, unfolding(crate::specs::NetworkConfiguration::configuration_verb))]
fn verb_text(message_type: u16) -> &'static str
    ensures { result.now ≡ configuration_verb message_type }
{
    match message_type {
        RTM_DELNETCONF => "Deleted",
        RTM_GETNETCONF => "Get",
        _ => "",
    }
}

/// Appends the name of a link, if there is an index; `all` and `default` for the two indexes that
/// stand for many links.
#[tactic(auto, unfolding(crate::specs::NetworkConfiguration::place_part, netlink_words::specs::Parts::with_part))]
fn push_place(
    alloc: Global,
    text: &mut String,
    known: &Names<'_>,
    index: Option<i32>,
) -> Result<(), AllocError>
    ensures { OnOk result (AddsPart text.old text.new (place_part known.now index)) }
{
    match index {
        None => Ok(()),
        Some(index) => {
            if index == NETCONFA_IFINDEX_ALL {
                return push_part(text, "all");
            }
            if index == NETCONFA_IFINDEX_DEFAULT {
                return push_part(text, "default");
            }
            push_part(
                text,
                device_name(alloc, known, index.cast_unsigned())?.as_str(),
            )
        }
    }
}

/// Appends whether packets are forwarded, how their sources are checked, and whether those of
/// multicast are forwarded.
#[tactic(auto, unfolding(crate::specs::NetworkConfiguration::forwarding_parts))]
fn push_forwarding(
    alloc: Global,
    text: &mut String,
    configuration: &MessageView<'_, NetworkConfigurations>,
) -> Result<(), AllocError>
    ensures { OnOk result (AddsParts text.old text.new (forwarding_parts configuration.now.payload.now)) }
{
    let view = configuration.view();
    push_switch(text, "forwarding", view.i32(NETCONFA_FORWARDING))?;
    push_filter(alloc, text, view.i32(NETCONFA_RP_FILTER))?;
    push_switch(text, "mc_forwarding", view.i32(NETCONFA_MC_FORWARDING))
}

/// Appends whether the link answers for neighbours, whether routes over links that are down are
/// ignored, and whether packets of MPLS are accepted.
#[tactic(auto, unfolding(crate::specs::NetworkConfiguration::neighbour_parts))]
fn push_neighbours(
    text: &mut String,
    configuration: &MessageView<'_, NetworkConfigurations>,
) -> Result<(), AllocError>
    ensures { OnOk result (AddsParts text.old text.new (neighbour_parts configuration.now.payload.now)) }
{
    let view = configuration.view();
    push_switch(text, "proxy_neigh", view.i32(NETCONFA_PROXY_NEIGH))?;
    let ignored = view.i32(NETCONFA_IGNORE_ROUTES_WITH_LINKDOWN);
    push_switch(text, "ignore_routes_with_linkdown", ignored)?;
    push_switch(text, "input", view.i32(NETCONFA_INPUT))
}

/// Appends a key and `on` or `off`, if there is a value.
#[tactic(auto, unfolding(crate::specs::NetworkConfiguration::switch_part, netlink_words::specs::Parts::with_part))]
fn push_switch(text: &mut String, key: &str, value: Option<i32>) -> Result<(), AllocError>
    ensures { OnOk result (AddsPart text.old text.new (switch_part key.now value)) }
{
    match value {
        None => Ok(()),
        Some(value) => push_keyed(text, key, on_or_off(value)),
    }
}

/// Returns `off` for 0 and `on` for any other number.
fn on_or_off(value: i32) -> &'static str
    ensures { result.now ≡ on_or_off value }
{
    if value == 0 {
        return "off";
    }
    "on"
}

/// Appends how the sources of packets are checked, if there is a value.
#[tactic(auto, unfolding(crate::specs::NetworkConfiguration::filter_part, netlink_words::specs::Parts::with_part))]
fn push_filter(alloc: Global, text: &mut String, value: Option<i32>) -> Result<(), AllocError>
    ensures { OnOk result (AddsPart text.old text.new (filter_part value)) }
{
    match value {
        None => Ok(()),
        Some(value) => push_keyed(
            text,
            "rp_filter",
            filter_text(alloc, value.cast_unsigned())?.as_str(),
        ),
    }
}

/// Returns the name of a check of sources (`rp_filter` of the kernel's sysctls); the number for
/// others.
fn filter_text(alloc: Global, value: u32) -> Result<String, AllocError>
    ensures { IfOk result (λ text. string_bytes text ≡ filter_text value) }
{
    let name = match value {
        0 => "off",
        1 => "strict",
        2 => "loose",
        _ => return format!(in alloc; "{value}"),
    };
    String::from_str(alloc, name)
}
