//! The families joined into one.

ghost use Rattle.std.specs.Prelude.{refl};

use crate::addresses::Addresses;
use crate::bridge_vlans::BridgeVlans;
use crate::link_statistics::LinkStatistics;
use crate::links::Links;
use crate::multicast_groups::MulticastGroups;
use crate::namespaces::Namespaces;
use crate::neighbour_tables::NeighbourTables;
use crate::neighbours::Neighbours;
use crate::network_configurations::NetworkConfigurations;
use crate::next_hop_objects::NextHopObjects;
use crate::prefixes::Prefixes;
use crate::routes::Routes;
use crate::rules::Rules;
use crate::traffic_actions::TrafficActions;
use crate::traffic_control::TrafficControl;
use crate::vni_filters::VniFilters;
use netlink_family::{Both, Join, Joined, OwnedMessage};

/// The tables of links, addresses, neighbours, routes, rules, neighbour tables, ids of network
/// namespaces, next hops, settings of links, announced prefixes, traffic control and its actions,
/// multicast groups of bridges, statistics of links, VLANs of bridges, and the VNIs that VXLAN links
/// filter by.
#[derive(Clone, Copy, Debug, PartialEq, Eq)]
pub struct RouteTables;

/// The tables of route netlink. `split` of a message takes off the first.
pub type AllTables = Both<Links, Both<Addresses, OtherTables>>;

/// The tables that follow those of links and addresses.
pub type OtherTables = Both<Neighbours, Both<Routes, LaterTables>>;

/// The tables that follow those of routes. Each is at most four levels below, because each level costs
/// the prover.
pub type LaterTables = Both<MoreTables, Both<TrafficTables, BridgeTables>>;

/// The tables of rules, neighbour tables, ids of network namespaces, next hops, settings of links and
/// announced prefixes.
pub type MoreTables = Both<RuleTables, LastTables>;

/// The tables of rules and neighbour tables.
pub type RuleTables = Both<Rules, NeighbourTables>;

/// The tables of ids of network namespaces, next hops, settings of links and announced prefixes.
pub type LastTables = Both<Both<Namespaces, NextHopObjects>, Both<NetworkConfigurations, Prefixes>>;

/// The tables of traffic control and its actions.
pub type TrafficTables = Both<TrafficControl, TrafficActions>;

/// The tables of what `bridge monitor` shows beside links and neighbours: multicast groups of bridges,
/// statistics of links, VLANs of bridges, and the VNIs that VXLAN links filter by.
pub type BridgeTables = Both<Both<MulticastGroups, LinkStatistics>, Both<BridgeVlans, VniFilters>>;

impl Join for RouteTables {
    type All = AllTables;

    ghost disjoint = { refl };
}

/// A message of one of these families.
pub type RouteMessage = OwnedMessage<Joined<RouteTables>>;
