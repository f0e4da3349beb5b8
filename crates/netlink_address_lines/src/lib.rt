//! The lines of messages about addresses, neighbours, neighbour tables, settings of links and announced
//! prefixes.
//!
//! The rows have the order of the words. A definition `File::name` is in `specs/File.antt` of this crate, or of the crate
//! that is named before it. `netlink_words` has the functions for numbers, names of numbers and addresses, and
//! `netlink_names` those for the names of links.
//!
//! `address::address_line` makes the line of an address, and `Address::address_line` defines it:
//!
//! | word of a line | function | definition |
//! |---|---|---|
//! | `Deleted `, `Get ` | `address::verb_text` | `netlink_words::NumberNames::address_verb_text` |
//! | `3: `, the index of the link | `address::front_text` | `Address::address_front` |
//! | `d0`, its name | `netlink_names::device::device_name` | `netlink_names::Device::device_text` |
//! | `inet` | `netlink_words::number_names::family_text` | `netlink_words::NumberNames::family_text` |
//! | `10.1.0.4` | `address::own_text` | `Address::own_text` |
//! | `peer 10.1.0.5` | `address::peer_words` | `Address::peer_words` |
//! | `/32` | `address::own_text` | `Address::own_text` |
//! | `metric 300` | `address::push_metric` | `Address::metric_part` |
//! | `brd 10.1.0.255` | `address::push_places` | `Address::place_parts` |
//! | `any 2001:db8::` | `address::push_places` | `Address::place_parts` |
//! | `scope global` | `address::push_scope_part` | `Address::place_parts` |
//! | `secondary`, `dynamic` and the other flags | `address_flags::address_flag` | `AddressFlags::address_flag` |
//! | `flags 20000000`, those without a name | `address_flags::push_rest` | `AddressFlags::rest_part` |
//! | `d0:2`, the label | `address::push_label` | `Address::label_part` |
//! | `valid_lft forever` | `address_flags::push_lifetimes` | `AddressFlags::lifetime_parts` |
//! | `preferred_lft 500sec` | `address_flags::push_preferred` | `AddressFlags::lifetime_parts` |
//!
//! `neighbour::neighbour_line` makes the line of a neighbour, and `Neighbour::neighbour_line` defines it:
//!
//! | word of a line | function | definition |
//! |---|---|---|
//! | `Deleted`, `miss` | `neighbour::verb_text` | `Neighbour::neighbour_verb_text` |
//! | `10.1.0.3` | `neighbour::push_front` | `Neighbour::neighbour_front` |
//! | `dev if3` | `neighbour::push_link` | `Neighbour::neighbour_device` |
//! | `lladdr 02:00:00:00:00:02` | `neighbour::push_front` | `Neighbour::neighbour_front` |
//! | `router`, `proxy`, `managed`, `extern_learn`, `offload` | `neighbour::push_flags` | `Neighbour::flag_parts` |
//! | `REACHABLE` and the other states | `neighbour::state_name` | `Neighbour::state_name` |
//! | `proto bgp` | `neighbour::push_protocol_part` | `Neighbour::protocol_part` |
//!
//! `neighbour_table::neighbour_table_line` makes the line of a neighbour table, and
//! `NeighbourTable::neighbour_table_line` defines it:
//!
//! | word of a line | function | definition |
//! |---|---|---|
//! | `Get`, `Set` | `neighbour_table::push_front` | `NeighbourTable::table_front` |
//! | `inet` | `netlink_words::number_names::family_text` | `netlink_words::NumberNames::family_text` |
//! | `arp_cache` | `neighbour_table::push_name` | `NeighbourTable::table_name` |
//! | `thresh1 128` | `neighbour_table::push_limits` | `NeighbourTable::limit_parts` |
//! | `thresh2 512` | `neighbour_table::push_limits` | `NeighbourTable::limit_parts` |
//! | `thresh3 1024` | `neighbour_table::push_limits` | `NeighbourTable::limit_parts` |
//! | `gc_int 30000` | `neighbour_table::push_limits` | `NeighbourTable::limit_parts` |
//! | `dev if7` | `neighbour_table::push_parms` | `NeighbourTable::parm_parts` |
//! | `refcnt 1` | `neighbour_table::push_times` | `NeighbourTable::time_parts` |
//! | `reachable 24884` | `neighbour_table::push_times` | `NeighbourTable::time_parts` |
//! | `base_reachable 30000` | `neighbour_table::push_times` | `NeighbourTable::time_parts` |
//! | `retrans 1000` | `neighbour_table::push_times` | `NeighbourTable::time_parts` |
//! | `gc_stale 60000` | `neighbour_table::push_times` | `NeighbourTable::time_parts` |
//! | `delay_probe 5000` | `neighbour_table::push_times` | `NeighbourTable::time_parts` |
//! | `queue 101` | `neighbour_table::push_times` | `NeighbourTable::time_parts` |
//! | `app_probes 0` | `neighbour_table::push_probes` | `NeighbourTable::probe_parts` |
//! | `ucast_probes 3` | `neighbour_table::push_probes` | `NeighbourTable::probe_parts` |
//! | `mcast_probes 3` | `neighbour_table::push_probes` | `NeighbourTable::probe_parts` |
//! | `anycast_delay 1000` | `neighbour_table::push_delays` | `NeighbourTable::delay_parts` |
//! | `proxy_delay 800` | `neighbour_table::push_delays` | `NeighbourTable::delay_parts` |
//! | `proxy_queue 64` | `neighbour_table::push_delays` | `NeighbourTable::delay_parts` |
//! | `locktime 1000` | `neighbour_table::push_delays` | `NeighbourTable::delay_parts` |
//!
//! `network_configuration::configuration_line` makes the line of the settings of a link, and
//! `NetworkConfiguration::configuration_line` defines it:
//!
//! | word of a line | function | definition |
//! |---|---|---|
//! | `Deleted`, `Get` | `network_configuration::verb_text` | `NetworkConfiguration::configuration_verb` |
//! | `inet` | `netlink_words::number_names::family_text` | `netlink_words::NumberNames::family_text` |
//! | `all`, `default`, `d0` | `network_configuration::push_place` | `NetworkConfiguration::place_part` |
//! | `forwarding on` | `network_configuration::push_switch` | `NetworkConfiguration::switch_part` |
//! | `rp_filter strict` | `network_configuration::push_filter` | `NetworkConfiguration::filter_part` |
//! | `mc_forwarding off` | `network_configuration::push_switch` | `NetworkConfiguration::switch_part` |
//! | `proxy_neigh off` | `network_configuration::push_switch` | `NetworkConfiguration::switch_part` |
//! | `ignore_routes_with_linkdown off` | `network_configuration::push_switch` | `NetworkConfiguration::switch_part` |
//! | `input on` | `network_configuration::push_switch` | `NetworkConfiguration::switch_part` |
//!
//! `prefix::prefix_line` makes the line of an announced prefix, and `Prefix::prefix_line` defines it:
//!
//! | word of a line | function | definition |
//! |---|---|---|
//! | `prefix 2001:db8::/64` | `prefix::push_prefix` | `Prefix::prefix_part` |
//! | `dev d0` | `netlink_names::device::push_device` | `netlink_names::Device::device_part` |
//! | `onlink`, `autoconf` | `prefix::push_flags` | `Prefix::flag_parts` |
//! | `valid 200`, `preferred 100` | `prefix::push_lifetimes` | `Prefix::lifetime_parts` |
#![tactic(auto)]

pub mod address;
pub mod address_flags;
pub mod neighbour;
pub mod neighbour_table;
pub mod network_configuration;
pub mod prefix;
