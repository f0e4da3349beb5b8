//! The lines of messages.

ghost use Rattle.std.specs.Prelude.{◌≡◌, IfOk, OnOk, string_bytes};
ghost use Rattle.std.specs.Option.{option_map};
ghost use Rattle.netlink_lines.specs.Lines.{bridge_line, code_words, controlled_line, done_line, error_line, group_or_statistics_line, known_by, last_line, later_line, more_line, namespace_or_hop_line, other_line, route_line, rule_or_table_line, settings_or_prefix_line, vlan_or_vni_line};
ghost use Rattle.netlink_json.specs.Fields.{AddsParts};
ghost use Rattle.netlink_lines.specs.Members.{route_parts};
ghost use Rattle.netlink_lines.specs.SystemErrors.{code_text};

use crate::members::put_any;
use crate::system_errors::error_name;
use netlink_address_lines::address::address_line;
use netlink_address_lines::neighbour::neighbour_line;
use netlink_address_lines::neighbour_table::neighbour_table_line;
use netlink_address_lines::network_configuration::configuration_line;
use netlink_address_lines::prefix::prefix_line;
use netlink_bridge_lines::group::group_line;
use netlink_bridge_lines::statistics::statistics_line;
use netlink_bridge_lines::vlan::vlan_line;
use netlink_bridge_lines::vni::vni_line;
use netlink_family::{Both, Family, Joined, MessageView};
use netlink_json::Object;
use netlink_link_lines::link::link_line;
use netlink_names::device::Known;
use netlink_names::known::learn_link;
use netlink_names::name_table::{NameTable, Names};
use netlink_next_hop_lines::next_hop::next_hop_line;
use netlink_route::{
    AllTables, BridgeTables, BridgeVlans, LastTables, LaterTables, LinkStatistics, MoreTables,
    MulticastGroups, Namespaces, NetworkConfigurations, NextHopObjects, OtherTables, Prefixes,
    RouteTables, RuleTables, TrafficTables, VniFilters,
};
use netlink_route_lines::namespace::namespace_text;
use netlink_route_lines::route::route_entry_line;
use netlink_route_lines::rule::rule_text;
use netlink_traffic_lines::action::action_line;
use netlink_traffic_lines::traffic::traffic_line;
use std::alloc::{AllocError, Global};

/// A family whose messages may have lines.
pub trait Line: Family {
    /// Returns the line of a message, if it has one. Known links are printed by their names.
    fn line(
        alloc: Global,
        known: &[Known],
        message: &MessageView<'_, Self>,
    ) -> Result<Option<String>, AllocError>
        ensures line { IfOk result (λ text. option_map string_bytes text
            ≡ route_line known.now (message.now.message_type, message.now.payload.now)) };

    /// Appends the members of the object of a message. Known links are written by their names.
    fn put_members(
        alloc: Global,
        object: &mut Object,
        known: &Names<'_>,
        message: &MessageView<'_, Self>,
    ) -> Result<(), AllocError>
        ensures members { OnOk result (AddsParts object.old object.new
            (route_parts known.now (message.now.message_type, message.now.payload.now))) };

    /// Updates the names of links by a message.
    fn learn(
        alloc: Global,
        known: &mut Vec<Known>,
        message: &MessageView<'_, Self>,
    ) -> Result<(), AllocError>
        ensures learned { OnOk result (known.new.items
            ≡ known_by (message.now.message_type, message.now.payload.now) known.old.items) };

    /// Returns the line of a message as `line` does, by names that may be in a queue. Without another
    /// body, those are copied to a list.
    fn line_by(
        alloc: Global,
        known: &Names<'_>,
        message: &MessageView<'_, Self>,
    ) -> Result<Option<String>, AllocError>
        ensures line { IfOk result (λ text. option_map string_bytes text
            ≡ route_line known.now (message.now.message_type, message.now.payload.now)) }
    {
        let mut room = Vec::new(alloc);
        Self::line(alloc, known.listed(alloc, &mut room)?, message)
    }

    /// Updates the names of links by a message as `learn` does. Without another body, the names are a
    /// list from then on, which `learn` may change in any way.
    fn learn_by(
        alloc: Global,
        known: &mut NameTable,
        message: &MessageView<'_, Self>,
    ) -> Result<(), AllocError>
        ensures learned { OnOk result (known.new
            ≡ known_by (message.now.message_type, message.now.payload.now) known.old) }
    {
        let mut list = known.take_list(alloc)?;
        let learned = Self::learn(alloc, &mut list, message);
        known.set_list(list);
        learned
    }
}

impl Line for Joined<RouteTables> {
    /// Returns the line of a message as `ip -o` writes it. A request has the words of the same message
    /// after `Get` or `Set`. Returns `None` for a route of a family that has no lines.
    fn line(
        alloc: Global,
        known: &[Known],
        message: &MessageView<'_, Joined<RouteTables>>,
    ) -> Result<Option<String>, AllocError> {
        line_of(alloc, &Names::of(known), &message.tables())
    }

    /// Appends the members of a message with the keys of `ip -j` and in its order.
    fn put_members(
        alloc: Global,
        object: &mut Object,
        known: &Names<'_>,
        message: &MessageView<'_, Joined<RouteTables>>,
    ) -> Result<(), AllocError> {
        put_any(alloc, object, known, &message.tables())
    }

    #[tactic(auto, unfolding(crate::specs::Lines::known_by))]
    fn learn(
        alloc: Global,
        known: &mut Vec<Known>,
        message: &MessageView<'_, Joined<RouteTables>>,
    ) -> Result<(), AllocError> {
        match message.tables().split() {
            Ok(link) => learn_link(alloc, known, &link),
            Err(_) => Ok(()),
        }
    }

    fn line_by(
        alloc: Global,
        known: &Names<'_>,
        message: &MessageView<'_, Joined<RouteTables>>,
    ) -> Result<Option<String>, AllocError> {
        line_of(alloc, known, &message.tables())
    }

    #[tactic(auto, unfolding(crate::specs::Lines::known_by))]
    fn learn_by(
        alloc: Global,
        known: &mut NameTable,
        message: &MessageView<'_, Joined<RouteTables>>,
    ) -> Result<(), AllocError> {
        match message.tables().split() {
            Ok(link) => known.learn(alloc, &link),
            Err(_) => Ok(()),
        }
    }
}

/// Returns the line of a message of route netlink, if it has one.
#[tactic(auto, unfolding(crate::specs::Lines::route_line))]
fn line_of(
    alloc: Global,
    known: &Names<'_>,
    message: &MessageView<'_, AllTables>,
) -> Result<Option<String>, AllocError>
    ensures { IfOk result (λ text. option_map string_bytes text
        ≡ route_line known.now (message.now.message_type, message.now.payload.now)) }
{
    match message.split() {
        Ok(link) => Ok(Some(link_line(alloc, known, &link)?)),
        Err(other) => match other.split() {
            Ok(address) => Ok(Some(address_line(alloc, known, &address)?)),
            Err(other) => other_line(alloc, known, &other),
        },
    }
}

/// Returns the line of a message about neither a link nor an address, if it has one.
#[inline(always)]
fn other_line(
    alloc: Global,
    known: &Names<'_>,
    message: &MessageView<'_, OtherTables>,
) -> Result<Option<String>, AllocError>
    ensures { IfOk result (λ text. option_map string_bytes text
        ≡ other_line known.now message.now.message_type message.now.payload.now) }
{
    match message.split() {
        Ok(neighbour) => Ok(Some(neighbour_line(alloc, known, &neighbour)?)),
        Err(other) => match other.split() {
            Ok(route) => route_entry_line(alloc, known, &route),
            Err(other) => later_line(alloc, known, &other),
        },
    }
}

/// Returns the line of a message about what the tables after those of routes describe.
fn later_line(
    alloc: Global,
    known: &Names<'_>,
    message: &MessageView<'_, LaterTables>,
) -> Result<Option<String>, AllocError>
    ensures { IfOk result (λ text. option_map string_bytes text
        ≡ later_line known.now message.now.message_type message.now.payload.now) }
{
    match message.split() {
        Ok(more) => more_line(alloc, known, &more),
        Err(other) => match other.split() {
            Ok(traffic) => controlled_line(alloc, known, &traffic),
            Err(bridge) => bridge_line(alloc, known, &bridge),
        },
    }
}

/// Returns the line of a message about a rule, a neighbour table, an id of a namespace, a next hop, the
/// settings of a link, or an announced prefix.
#[tactic(auto, unfolding(crate::specs::Lines::more_line))]
fn more_line(
    alloc: Global,
    known: &Names<'_>,
    message: &MessageView<'_, MoreTables>,
) -> Result<Option<String>, AllocError>
    ensures { IfOk result (λ text. option_map string_bytes text
        ≡ more_line known.now message.now.message_type message.now.payload.now) }
{
    match message.split() {
        Ok(first) => rule_or_table_line(alloc, known, &first),
        Err(last) => last_line(alloc, known, &last),
    }
}

/// Returns the line of a message about a rule or a neighbour table.
fn rule_or_table_line(
    alloc: Global,
    known: &Names<'_>,
    message: &MessageView<'_, RuleTables>,
) -> Result<Option<String>, AllocError>
    ensures { IfOk result (λ text. option_map string_bytes text
        ≡ rule_or_table_line known.now message.now.message_type message.now.payload.now) }
{
    match message.split() {
        Ok(rule) => Ok(Some(rule_text(alloc, &rule)?)),
        Err(table) => Ok(Some(neighbour_table_line(alloc, known, &table)?)),
    }
}

/// Returns the line of a message about an id of a namespace, a next hop, the settings of a link, or an
/// announced prefix.
#[tactic(auto, unfolding(crate::specs::Lines::last_line))]
fn last_line(
    alloc: Global,
    known: &Names<'_>,
    message: &MessageView<'_, LastTables>,
) -> Result<Option<String>, AllocError>
    ensures { IfOk result (λ text. option_map string_bytes text
        ≡ last_line known.now message.now.message_type message.now.payload.now) }
{
    match message.split() {
        Ok(first) => namespace_or_hop_line(alloc, known, &first),
        Err(second) => settings_or_prefix_line(alloc, known, &second),
    }
}

/// Returns the line of a message about an id of a namespace or a next hop.
fn namespace_or_hop_line(
    alloc: Global,
    known: &Names<'_>,
    message: &MessageView<'_, Both<Namespaces, NextHopObjects>>,
) -> Result<Option<String>, AllocError>
    ensures { IfOk result (λ text. option_map string_bytes text
        ≡ namespace_or_hop_line known.now message.now.message_type message.now.payload.now) }
{
    match message.split() {
        Ok(namespace) => Ok(Some(namespace_text(alloc, &namespace)?)),
        Err(next_hop) => Ok(Some(next_hop_line(alloc, known, &next_hop)?)),
    }
}

/// Returns the line of a message about the settings of a link or an announced prefix.
fn settings_or_prefix_line(
    alloc: Global,
    known: &Names<'_>,
    message: &MessageView<'_, Both<NetworkConfigurations, Prefixes>>,
) -> Result<Option<String>, AllocError>
    ensures { IfOk result (λ text. option_map string_bytes text
        ≡ settings_or_prefix_line known.now message.now.message_type message.now.payload.now) }
{
    match message.split() {
        Ok(settings) => Ok(Some(configuration_line(alloc, known, &settings)?)),
        Err(prefix) => Ok(Some(prefix_line(alloc, known, &prefix)?)),
    }
}

/// Returns the line of a message about traffic control or its actions.
fn controlled_line(
    alloc: Global,
    known: &Names<'_>,
    message: &MessageView<'_, TrafficTables>,
) -> Result<Option<String>, AllocError>
    ensures { IfOk result (λ text. option_map string_bytes text
        ≡ controlled_line known.now message.now.message_type message.now.payload.now) }
{
    match message.split() {
        Ok(packet) => Ok(Some(traffic_line(alloc, known, &packet)?)),
        Err(actions) => Ok(Some(action_line(alloc, &actions)?)),
    }
}

/// Returns the line of a message about multicast groups of a bridge, statistics of a link, VLANs of a
/// bridge, or VNIs of a VXLAN link.
#[tactic(auto, unfolding(crate::specs::Lines::bridge_line))]
fn bridge_line(
    alloc: Global,
    known: &Names<'_>,
    message: &MessageView<'_, BridgeTables>,
) -> Result<Option<String>, AllocError>
    ensures { IfOk result (λ text. option_map string_bytes text
        ≡ bridge_line known.now message.now.message_type message.now.payload.now) }
{
    match message.split() {
        Ok(first) => group_or_statistics_line(alloc, known, &first),
        Err(second) => vlan_or_vni_line(alloc, known, &second),
    }
}

/// Returns the line of a message about multicast groups of a bridge or statistics of a link.
fn group_or_statistics_line(
    alloc: Global,
    known: &Names<'_>,
    message: &MessageView<'_, Both<MulticastGroups, LinkStatistics>>,
) -> Result<Option<String>, AllocError>
    ensures { IfOk result (λ text. option_map string_bytes text
        ≡ group_or_statistics_line known.now message.now.message_type message.now.payload.now) }
{
    match message.split() {
        Ok(groups) => Ok(Some(group_line(alloc, known, &groups)?)),
        Err(statistics) => Ok(Some(statistics_line(alloc, known, &statistics)?)),
    }
}

/// Returns the line of a message about VLANs of a bridge or VNIs of a VXLAN link.
fn vlan_or_vni_line(
    alloc: Global,
    known: &Names<'_>,
    message: &MessageView<'_, Both<BridgeVlans, VniFilters>>,
) -> Result<Option<String>, AllocError>
    ensures { IfOk result (λ text. option_map string_bytes text
        ≡ vlan_or_vni_line known.now message.now.message_type message.now.payload.now) }
{
    match message.split() {
        Ok(vlans) => Ok(Some(vlan_line(alloc, known, &vlans)?)),
        Err(vnis) => Ok(Some(vni_line(alloc, known, &vnis)?)),
    }
}

/// Returns the line of a done message by its code and by what it says: `done`, the code and its name if
/// it is not 0, and the words.
pub(crate) fn done_line(alloc: Global, code: i32, words: &str) -> Result<String, AllocError>
    ensures { IfOk result (λ line. string_bytes line ≡ done_line code words.now) }
{
    let code = code_words(alloc, code)?;
    format!(in alloc; "done{code}{words}\n")
}

/// Returns the line of an error by its code and by what it says: `error`, the code and its name, or
/// `ack` if it is 0, and the words.
pub(crate) fn error_line(alloc: Global, code: i32, words: &str) -> Result<String, AllocError>
    ensures { IfOk result (λ line. string_bytes line ≡ error_line code words.now) }
{
    if code == 0 {
        return format!(in alloc; "ack{words}\n");
    }
    let code = code_text(alloc, code)?;
    format!(in alloc; "error {code}{words}\n")
}

/// Returns a code other than 0, and its name.
fn code_words(alloc: Global, code: i32) -> Result<String, AllocError>
    ensures { IfOk result (λ text. string_bytes text ≡ code_words code) }
{
    if code == 0 {
        return Ok(String::new(alloc));
    }
    let text = code_text(alloc, code)?;
    format!(in alloc; " {text}")
}

/// Returns a code, and in parentheses the name of the error, if it has one.
fn code_text(alloc: Global, code: i32) -> Result<String, AllocError>
    ensures { IfOk result (λ text. string_bytes text ≡ code_text code) }
{
    let name = error_name(code.unsigned_abs());
    if name.is_empty() {
        return format!(in alloc; "{code}");
    }
    format!(in alloc; "{code} ({name})")
}
