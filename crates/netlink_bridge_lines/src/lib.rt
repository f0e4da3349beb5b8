//! The lines of messages about bridges and what belongs to them: multicast databases, VLANs and the
//! VNIs of VXLAN links; and of the statistics of links.
//!
//! `group::group_line`, `vlan::vlan_line`, `vni::vni_line` and `statistics::statistics_line` make the
//! lines, and `MulticastGroup::group_line`, `Vlan::vlan_line`, `Vni::vni_line` and
//! `Statistics::statistics_line` define them. The rows have the order of the words. A definition
//! `File::name` is in `specs/File.antt` of this crate, or of the crate that is named before it.
//!
//! | word of a line | function | definition |
//! |---|---|---|
//! | `Deleted`, of a group | `group::group_line` | `MulticastGroup::group_line` |
//! | `Get`, of a group | `group::push_port` | `MulticastGroup::rest_parts` |
//! | `router port` | `group::push_port` | `MulticastGroup::rest_parts` |
//! | `dev br0` | `group_entry::push_place`, `group::push_port` | `MulticastGroup::place_parts`, `MulticastGroup::rest_parts` |
//! | `port p0` | `group_entry::push_place` | `MulticastGroup::place_parts` |
//! | `master br0`, of a router port | `group::push_port` | `MulticastGroup::rest_parts` |
//! | `grp 239.1.1.1` | `group_entry::push_group` | `MulticastGroup::address_part` |
//! | `src 192.0.2.1` | `group_entry::push_source` | `MulticastGroup::source_parts` |
//! | `temp`, `permanent` | `group_entry::state_text` | `MulticastGroup::state_text` |
//! | `filter_mode include` | `group_entry::push_mode` | `MulticastGroup::mode_part` |
//! | `source_list 192.0.2.1/260.00` | `sources::push_sources` | `Sources::sources_part` |
//! | `proto static` | `group_entry::push_protocol_part` | `MulticastGroup::protocol_part` |
//! | `offload` and the other flags | `group_entry::push_end` | `MulticastGroup::end_parts` |
//! | `vid 10` | `group_entry::push_vid` | `MulticastGroup::vlan_part` |
//! | `Deleted`, `Get`, `Set` | `words::verb_text` | `Words::verb` |
//! | `p0`, of VLANs and VNIs | `words::push_front` | `Words::front` |
//! | `10-20` | `words::range_text` | `Words::range_text` |
//! | `PVID`, `Egress Untagged` | `vlan::push_vlans` | `Vlan::vlan_parts` |
//! | `state forwarding` | `vlan::push_state` | `Vlan::state_text` |
//! | `mcast_router 1` | `vlan::push_vlans` | `Vlan::vlan_parts` |
//! | `mcast_snooping 1`, `mcast_querier 0` | `vlan_options::push_snooping` | `Vlan::snooping_parts` |
//! | `mcast_igmp_version 2`, `mcast_mld_version 1` | `vlan_options::push_versions` | `Vlan::version_parts` |
//! | `mcast_last_member_count 2` and the queries at the start | `vlan_options::push_queries` | `Vlan::query_parts` |
//! | `mcast_membership_interval 26000` and the other times | `vlan_options::push_intervals` | `Vlan::interval_parts` |
//! | `239.1.1.1`, of VNIs | `vni::push_vnis` | `Vni::vni_parts` |
//! | `stats dev d0` | `statistics::push_front` | `Statistics::statistics_front` |
//! | `rx_packets 1` and the other counts | `statistics::push_counts` | `Statistics::count_parts` |
//! | `l3_stats on`, `used off` | `statistics::push_hardware` | `Statistics::hardware_parts` |
#![tactic(auto)]

pub mod group;
mod group_entry;
mod sources;
pub mod statistics;
pub mod vlan;
mod vlan_options;
pub mod vni;
mod words;
