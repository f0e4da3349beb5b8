//! The members of JSON objects for messages of route netlink.
//!
//! A family is a file here and one of the same name in `specs/`: a table of rows for the members that are one value each
//! (`row::put_rows`, `Rows::row_fields`; how a value is shown, `form::Form`, `Forms::form_json`), and a function for each
//! other member. A definition `File::name` is in `specs/File.antt`.
//!
//! | message | function | definition |
//! |---|---|---|
//! | link | `link::put_link` | `Link::link_parts` |
//! | address | `address::put_address` | `Address::address_parts` |
//! | neighbour | `neighbour::put_neighbour` | `Neighbour::neighbour_parts` |
//! | route | `route::put_route` | `Route::route_parts` |
//! | rule | `rule::put_rule` | `Rule::rule_parts` |
//! | neighbour table | `neighbour_table::put_neighbour_table` | `NeighbourTable::neighbour_table_parts` |
//! | id of a network namespace | `namespace::put_namespace` | `Namespace::namespace_parts` |
//! | next hop, and bucket of a group | `next_hop_object::put_next_hop_object` | `NextHopObject::next_hop_parts` |
//! | settings of a link | `network_configuration::put_network_configuration` | `NetworkConfiguration::configuration_parts` |
//! | announced prefix | `prefix::put_prefix` | `Prefix::prefix_parts` |
#![tactic(auto)]

pub mod address;
mod alternatives;
pub mod form;
pub mod link;
mod multicast_route;
pub mod namespace;
pub mod neighbour;
pub mod neighbour_table;
pub mod network_configuration;
mod next_hop_group;
pub mod next_hop_object;
mod number;
pub mod prefix;
pub mod route;
mod route_flags;
mod route_hops;
mod route_metrics;
mod route_values;
pub mod row;
pub mod rule;
mod rule_ends;
mod word;
