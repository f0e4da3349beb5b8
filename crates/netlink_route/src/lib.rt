//! Messages of route netlink (linux/rtnetlink.h): links, addresses, neighbours, routes, rules,
//! neighbour tables, ids of network namespaces, next hops, settings of links, announced prefixes,
//! traffic control with its actions, multicast groups and VLANs of bridges, statistics of links, and
//! the VNIs that VXLAN links filter by.
//! Each family is a table in a module of its own, with the constants of its header file.
//! `RouteMessage` joins them.
#![tactic(auto)]

pub mod addresses;
pub mod bridge_vlans;
pub mod encapsulations;
pub mod link_kinds;
mod link_rows;
pub mod link_statistics;
pub mod links;
pub mod multicast_groups;
pub mod names;
pub mod namespaces;
pub mod neighbour_tables;
pub mod neighbours;
pub mod network_configurations;
pub mod next_hop_objects;
mod next_hops;
pub mod prefixes;
mod route;
mod route_rows;
pub mod routes;
pub mod rules;
pub mod traffic_actions;
pub mod traffic_control;
pub mod vni_filters;

pub use crate::addresses::{AddressMessage, Addresses};
pub use crate::bridge_vlans::{BridgeVlanMessage, BridgeVlans};
pub use crate::link_statistics::{LinkStatistics, LinkStatisticsMessage};
pub use crate::links::{LinkMessage, Links};
pub use crate::multicast_groups::{MulticastGroupMessage, MulticastGroups};
pub use crate::names::{NeighbourState, OperState, RouteProtocol, RouteType, Scope};
pub use crate::namespaces::{NamespaceMessage, Namespaces};
pub use crate::neighbour_tables::{NeighbourTableMessage, NeighbourTables};
pub use crate::neighbours::{NeighbourMessage, Neighbours};
pub use crate::network_configurations::{NetworkConfigurationMessage, NetworkConfigurations};
pub use crate::next_hop_objects::{NextHopObjectMessage, NextHopObjects};
pub use crate::next_hops::{NextHop, NextHops};
pub use crate::prefixes::{PrefixMessage, Prefixes};
pub use crate::route::{
    AllTables, BridgeTables, LastTables, LaterTables, MoreTables, OtherTables, RouteMessage,
    RouteTables, RuleTables, TrafficTables,
};
pub use crate::routes::{RouteEntryMessage, Routes};
pub use crate::rules::{RuleMessage, Rules};
pub use crate::traffic_actions::{TrafficActionMessage, TrafficActions};
pub use crate::traffic_control::{TrafficControl, TrafficControlMessage};
pub use crate::vni_filters::{VniFilterMessage, VniFilters};
