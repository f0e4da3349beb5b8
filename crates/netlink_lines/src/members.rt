//! The members of the object of a message of route netlink, and the names of its types.

ghost use Rattle.std.specs.Prelude.{◌≡◌, OnOk};
ghost use Rattle.netlink_json.specs.Fields.{AddsParts};
ghost use Rattle.netlink_lines.specs.Members.{last_parts, later_parts, message_name, more_parts, namespace_or_hop_parts, other_parts, route_parts, rule_or_table_parts, settings_or_prefix_parts};

use netlink_family::{Both, MessageView};
use netlink_json::Object;
use netlink_names::name_table::Names;
use netlink_objects::address::put_address;
use netlink_objects::link::put_link;
use netlink_objects::namespace::put_namespace;
use netlink_objects::neighbour::put_neighbour;
use netlink_objects::neighbour_table::put_neighbour_table;
use netlink_objects::network_configuration::put_network_configuration;
use netlink_objects::next_hop_object::put_next_hop_object;
use netlink_objects::prefix::put_prefix;
use netlink_objects::route::put_route;
use netlink_objects::rule::put_rule;
use netlink_route::{
    AllTables, LastTables, LaterTables, MoreTables, Namespaces, NetworkConfigurations,
    NextHopObjects, OtherTables, Prefixes, RuleTables,
};
use std::alloc::{AllocError, Global};

/// Appends the members of a message of route netlink.
#[tactic(auto, unfolding(crate::specs::Members::route_parts))]
pub(crate) fn put_any(
    alloc: Global,
    object: &mut Object,
    known: &Names<'_>,
    message: &MessageView<'_, AllTables>,
) -> Result<(), AllocError>
    ensures { OnOk result (AddsParts object.old object.new
        (route_parts known.now (message.now.message_type, message.now.payload.now))) }
{
    match message.split() {
        Ok(link) => put_link(alloc, object, known, &link),
        Err(other) => match other.split() {
            Ok(address) => put_address(alloc, object, known, &address),
            Err(other) => put_other(alloc, object, known, &other),
        },
    }
}

/// Appends the members of a message about neither a link nor an address.
fn put_other(
    alloc: Global,
    object: &mut Object,
    known: &Names<'_>,
    message: &MessageView<'_, OtherTables>,
) -> Result<(), AllocError>
    ensures { OnOk result (AddsParts object.old object.new
        (other_parts known.now message.now.message_type message.now.payload.now)) }
{
    match message.split() {
        Ok(neighbour) => put_neighbour(alloc, object, known, &neighbour),
        Err(other) => match other.split() {
            Ok(route) => put_route(alloc, object, known, &route),
            Err(other) => put_later(alloc, object, known, &other),
        },
    }
}

/// Appends the members of a message about what the tables after those of routes describe. Those about
/// traffic control, and those that `bridge monitor` shows beside links and neighbours, have none.
fn put_later(
    alloc: Global,
    object: &mut Object,
    known: &Names<'_>,
    message: &MessageView<'_, LaterTables>,
) -> Result<(), AllocError>
    ensures { OnOk result (AddsParts object.old object.new
        (later_parts known.now message.now.message_type message.now.payload.now)) }
{
    match message.split() {
        Ok(more) => put_more(alloc, object, known, &more),
        Err(_) => Ok(()),
    }
}

/// Appends the members of a message about a rule, a neighbour table, an id of a namespace, a next hop, the
/// settings of a link, or an announced prefix.
#[tactic(auto, unfolding(crate::specs::Members::more_parts))]
fn put_more(
    alloc: Global,
    object: &mut Object,
    known: &Names<'_>,
    message: &MessageView<'_, MoreTables>,
) -> Result<(), AllocError>
    ensures { OnOk result (AddsParts object.old object.new
        (more_parts known.now message.now.message_type message.now.payload.now)) }
{
    match message.split() {
        Ok(first) => put_rule_or_table(alloc, object, known, &first),
        Err(last) => put_last(alloc, object, known, &last),
    }
}

/// Appends the members of a message about a rule or a neighbour table.
fn put_rule_or_table(
    alloc: Global,
    object: &mut Object,
    known: &Names<'_>,
    message: &MessageView<'_, RuleTables>,
) -> Result<(), AllocError>
    ensures { OnOk result (AddsParts object.old object.new
        (rule_or_table_parts known.now message.now.message_type message.now.payload.now)) }
{
    match message.split() {
        Ok(rule) => put_rule(alloc, object, &rule),
        Err(table) => put_neighbour_table(alloc, object, known, &table),
    }
}

/// Appends the members of a message about an id of a namespace, a next hop, the settings of a link, or an
/// announced prefix.
#[tactic(auto, unfolding(crate::specs::Members::last_parts))]
fn put_last(
    alloc: Global,
    object: &mut Object,
    known: &Names<'_>,
    message: &MessageView<'_, LastTables>,
) -> Result<(), AllocError>
    ensures { OnOk result (AddsParts object.old object.new
        (last_parts known.now message.now.message_type message.now.payload.now)) }
{
    match message.split() {
        Ok(first) => put_namespace_or_hop(alloc, object, known, &first),
        Err(second) => put_settings_or_prefix(alloc, object, known, &second),
    }
}

/// Appends the members of a message about an id of a namespace or a next hop.
fn put_namespace_or_hop(
    alloc: Global,
    object: &mut Object,
    known: &Names<'_>,
    message: &MessageView<'_, Both<Namespaces, NextHopObjects>>,
) -> Result<(), AllocError>
    ensures { OnOk result (AddsParts object.old object.new
        (namespace_or_hop_parts known.now message.now.message_type message.now.payload.now)) }
{
    match message.split() {
        Ok(namespace) => put_namespace(alloc, object, &namespace),
        Err(next_hop) => put_next_hop_object(alloc, object, known, &next_hop),
    }
}

/// Appends the members of a message about the settings of a link or an announced prefix.
fn put_settings_or_prefix(
    alloc: Global,
    object: &mut Object,
    known: &Names<'_>,
    message: &MessageView<'_, Both<NetworkConfigurations, Prefixes>>,
) -> Result<(), AllocError>
    ensures { OnOk result (AddsParts object.old object.new
        (settings_or_prefix_parts known.now message.now.message_type message.now.payload.now)) }
{
    match message.split() {
        Ok(settings) => put_network_configuration(alloc, object, known, &settings),
        Err(prefix) => put_prefix(alloc, object, known, &prefix),
    }
}

/// Returns the kernel's name of a message type of route netlink (`RTM_*` of linux/rtnetlink.h); nothing
/// for other numbers.
#[tactic(auto, unfolding(crate::specs::Members::message_name))]
pub(crate) fn message_name(message_type: u16) -> &'static str
    ensures { result.now ≡ message_name message_type }
{
    match message_type {
        16 => "RTM_NEWLINK",
        17 => "RTM_DELLINK",
        18 => "RTM_GETLINK",
        19 => "RTM_SETLINK",
        20 => "RTM_NEWADDR",
        21 => "RTM_DELADDR",
        22 => "RTM_GETADDR",
        24 => "RTM_NEWROUTE",
        25 => "RTM_DELROUTE",
        26 => "RTM_GETROUTE",
        28 => "RTM_NEWNEIGH",
        29 => "RTM_DELNEIGH",
        30 => "RTM_GETNEIGH",
        32 => "RTM_NEWRULE",
        33 => "RTM_DELRULE",
        34 => "RTM_GETRULE",
        36 => "RTM_NEWQDISC",
        37 => "RTM_DELQDISC",
        38 => "RTM_GETQDISC",
        40 => "RTM_NEWTCLASS",
        41 => "RTM_DELTCLASS",
        42 => "RTM_GETTCLASS",
        44 => "RTM_NEWTFILTER",
        45 => "RTM_DELTFILTER",
        46 => "RTM_GETTFILTER",
        48 => "RTM_NEWACTION",
        49 => "RTM_DELACTION",
        50 => "RTM_GETACTION",
        52 => "RTM_NEWPREFIX",
        64 => "RTM_NEWNEIGHTBL",
        66 => "RTM_GETNEIGHTBL",
        67 => "RTM_SETNEIGHTBL",
        80 => "RTM_NEWNETCONF",
        81 => "RTM_DELNETCONF",
        82 => "RTM_GETNETCONF",
        84 => "RTM_NEWMDB",
        85 => "RTM_DELMDB",
        86 => "RTM_GETMDB",
        88 => "RTM_NEWNSID",
        89 => "RTM_DELNSID",
        90 => "RTM_GETNSID",
        92 => "RTM_NEWSTATS",
        94 => "RTM_GETSTATS",
        95 => "RTM_SETSTATS",
        100 => "RTM_NEWCHAIN",
        101 => "RTM_DELCHAIN",
        102 => "RTM_GETCHAIN",
        104 => "RTM_NEWNEXTHOP",
        105 => "RTM_DELNEXTHOP",
        106 => "RTM_GETNEXTHOP",
        112 => "RTM_NEWVLAN",
        113 => "RTM_DELVLAN",
        114 => "RTM_GETVLAN",
        116 => "RTM_NEWNEXTHOPBUCKET",
        117 => "RTM_DELNEXTHOPBUCKET",
        118 => "RTM_GETNEXTHOPBUCKET",
        120 => "RTM_NEWTUNNEL",
        121 => "RTM_DELTUNNEL",
        122 => "RTM_GETTUNNEL",
        _ => "",
    }
}
