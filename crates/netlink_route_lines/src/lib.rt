//! The lines of messages about routes, rules and ids of network namespaces.
//!
//! The rows have the order of the words. A definition `File::name` is in `specs/File.antt` of this crate, or of the crate
//! that is named before it. `netlink_words` has the functions for numbers, names of numbers and addresses, and
//! `netlink_names` those for the names of links.
//!
//! `route::route_entry_line` makes the line of a route, and `Route::route_entry_line` defines it. The words from
//! `nexthop` on are there for each next hop.
//!
//! | word of a line | function | definition |
//! |---|---|---|
//! | `Deleted`, `Get` | `route::push_front` | `Route::route_front` |
//! | `local`, `blackhole` and the other types | `route::push_type` | `Route::type_part` |
//! | `10.3.0.0/16`, `default` | `route::push_target` | `Route::target_text` |
//! | `from 10.0.0.0/8` | `route::push_source` | `Route::route_front` |
//! | `100/200`, labels of MPLS | `mpls::labels_text` | `Mpls::labels_text` |
//! | `nhid 10` | `route::push_front` | `Route::route_front` |
//! | `as to 200` | `route::push_labels` | `Mpls::new_labels` |
//! | `encap mpls`, `encap ip` and the other types | `encap::push_encap` | `Encap::encap_part` |
//! | `100/200` and `ttl 5` of MPLS | `encap::push_mpls` | `Encap::mpls_parts` |
//! | `id 5`, `src 0.0.0.0` and `dst 10.1.0.9` of a tunnel | `encap::push_ends` | `Encap::tunnel_ends` |
//! | `ttl 64` and `tos 0`, or `hoplimit 64` and `tc 0` | `encap::push_rest` | `Encap::tunnel_rest` |
//! | `key`, `csum` and `seq` | `encap::push_flags` | `Encap::tunnel_flags` |
//! | `mode encap` of SRv6 | `seg6::mode_name` | `Seg6::mode_name` |
//! | `segs 2 [ fc00::2 fc00::1 ]` | `seg6::push_list` | `Seg6::list_parts` |
//! | `hmac 11` | `seg6::hmac_text` | `Seg6::hmac_part` |
//! | `action End.X` of a segment of this host | `seg6_local::action_name` | `Seg6Local::action_name` |
//! | `table main`, `vrftable 100` | `seg6_local::push_tables` | `Seg6Local::table_parts` |
//! | `nh4 10.1.0.9`, `nh6 fe80::1`, `iif if3`, `oif if4` | `seg6_local::push_ways` | `Seg6Local::way_parts` |
//! | `endpoint NAME` | `seg6_local::push_endpoint` | `Program::found_program` |
//! | `flavors psp,usp` | `seg6_local::flavor_names` | `Seg6Local::flavor_names` |
//! | `lblen 32`, `nflen 16` | `seg6_local::push_flavors` | `Seg6Local::flavor_parts` |
//! | `segs 2 [ fc00::2 fc00::1 ]` of RPL | `seg6::push_rpl` | `Seg6::rpl_parts` |
//! | `if_id 16`, `link_dev if3` of XFRM | `xfrm::push_xfrm` | `Xfrm::xfrm_parts` |
//! | `2001:db8:0:1` of ILA | `ila::locator_text` | `Ila::locator_text` |
//! | `csum-mode no-action` | `ila::checksum_name` | `Ila::checksum_name` |
//! | `ident-type luid` | `ila::identifier_name` | `Ila::identifier_name` |
//! | `hook-type output` | `ila::hook_name` | `Ila::hook_name` |
//! | `in NAME`, `out NAME`, `xmit NAME` and `14` of BPF | `program::push_bpf` | `Program::bpf_parts` |
//! | `freq 1/5` of IOAM | `ioam6::frequency_text` | `Ioam6::frequency_text` |
//! | `mode inline`, `tundst fc00::9` | `ioam6::push_insertion` | `Ioam6::insertion_parts` |
//! | `trace prealloc type 0x800000`, `ns 7`, `size 12` | `ioam6::push_trace` | `Ioam6::trace_parts` |
//! | `tos 0x10` | `netlink_words::parts::push_tos` | `netlink_words::Parts::tos_part` |
//! | `via 10.1.0.3` | `route_hops::push_next` | `Route::route_next` |
//! | `via inet6 fe80::1` | `route_hops::push_via` | `RouteHops::via_part` |
//! | `dev if3` | `route::push_link` | `Route::route_next` |
//! | `table 70000` | `route_origin::push_table_part` | `Route::table_part` |
//! | `proto kernel` | `route_origin::push_installer` | `Route::installer_part` |
//! | `scope link` | `route_origin::push_other_scope` | `Route::scope_part` |
//! | `src 10.1.0.1` | `route_origin::push_origin` | `Route::origin_parts` |
//! | `metric 7` | `route_origin::push_origin` | `Route::origin_parts` |
//! | `dead`, `onlink` and the other flags | `route_flags::hop_flag_name` | `RouteFlags::hop_flag_name` |
//! | `mark 0x10` | `route_cache::push_mark` | `Route::mark_part` |
//! | `realm 5`, `realms 3/5` | `route::push_kept` | `Route::kept_parts` |
//! | `uid 0` | `route::push_kept` | `Route::kept_parts` |
//! | `cache`, and `<` and `>` around its flags | `route_cache::cache_text` | `RouteCache::cache_of` |
//! | `local`, `brd` and the other flags of `cache` | `route_cache::cache_flag_name` | `RouteCache::cache_flag_name` |
//! | `2100000`, those without a name | `route_cache::push_unnamed_flags` | `RouteCache::with_rest` |
//! | `expires 2999sec` | `route_cache::expires_text` | `RouteCache::expires_part` |
//! | `error 113` | `route_cache::error_text` | `RouteCache::error_part` |
//! | `mtu`, `rtt` and the other metrics | `route_metrics::metric_name` | `RouteMetrics::metric_name` |
//! | `lock` after a metric | `route_metrics::lock_word` | `RouteMetrics::lock_word` |
//! | `1400`, `5ms` or `ecn` after it | `route_metrics::value_text` | `RouteMetrics::metric_value` |
//! | `congctl cubic` | `route_metrics::control_text` | `RouteMetrics::control_part` |
//! | `iif if2` | `route::push_last` | `Route::last_parts` |
//! | `pref medium` | `route_flags::push_preference` | `RouteFlags::preference_text` |
//! | `ttl-propogate enabled` | `mpls::push_propagation` | `Mpls::propagation_part` |
//! | `nexthop` | `route_hops::push_hop_parts` | `RouteHops::hop_parts` |
//! | `encap ip`, and what follows it in a route | `route_hops::push_hop_encap` | `Encap::encap_part` |
//! | `as to 200` | `route_hops::push_hop_labels` | `Mpls::new_labels` |
//! | `via 10.1.0.3` | `route_hops::push_next` | `RouteHops::hop_parts` |
//! | `via inet6 fe80::1` | `route_hops::push_via` | `RouteHops::via_part` |
//! | `realm 5`, `realms 3/5` | `route_hops::push_hop_parts` | `RouteHops::hop_parts` |
//! | `dev if3` | `route_hops::push_hop_parts` | `RouteHops::hop_parts` |
//! | `weight 3` | `route_hops::push_weight` | `RouteHops::weight_part` |
//! | `dead`, `onlink` and the other flags | `route_flags::hop_flag_name` | `RouteFlags::hop_flag_name` |
//!
//! `multicast::multicast_line` makes the line of a route of multicast routing, and `Multicast::multicast_line` defines it:
//!
//! | word of a line | function | definition |
//! |---|---|---|
//! | `Deleted`, `Get` | `multicast::push_route` | `Multicast::route_parts` |
//! | `(10.1.0.9,239.1.1.1)` | `multicast::pair_text` | `Multicast::pair_text` |
//! | `unknown` in place of an address | `multicast::word_or_unknown` | `Multicast::word_or_unknown` |
//! | `Iif: if3`, `Iif: unresolved` | `multicast::push_incoming` | `Multicast::incoming_part` |
//! | `Oifs:` | `multicast::push_route` | `Multicast::route_parts` |
//! | `if4`, `if5(ttl 3)` | `multicast::outgoing_text` | `Multicast::outgoing_text` |
//! | `State: resolved`, `State: unresolved` | `multicast::push_states` | `Multicast::state_parts` |
//! | `offload` | `multicast::push_states` | `Multicast::state_parts` |
//! | `Table: default` | `multicast::push_table_name` | `Multicast::multicast_table` |
//!
//! `rule::rule_text` makes the line of a rule, and `Rule::rule_line` defines it:
//!
//! | word of a line | function | definition |
//! |---|---|---|
//! | `Deleted`, `Get` | `rule::push_heading` | `Rule::rule_heading` |
//! | `1005:`, the priority | `rule::push_heading` | `Rule::rule_heading` |
//! | `not` | `rule::push_heading` | `Rule::rule_heading` |
//! | `from all` | `rule::push_source` | `Rule::source_part` |
//! | `to 10.9.9.9` | `rule::push_destination` | `Rule::destination_part` |
//! | `tos 0x10` | `netlink_words::parts::push_tos` | `netlink_words::Parts::tos_part` |
//! | `fwmark 0x10/0xff` | `rule::push_mark` | `Rule::mark_part` |
//! | `iif eth0` | `rule::push_iif` | `Rule::iif_part` |
//! | `oif eth1` | `rule::push_oif` | `Rule::oif_part` |
//! | `[detached]` after `iif` or `oif` | `rule_matches::push_link` | `RuleParts::link_part` |
//! | `lookup [l3mdev-table]` | `rule::push_links` | `Rule::rule_links` |
//! | `uidrange 1000-2000` | `rule_matches::push_users` | `RuleParts::users_part` |
//! | `ipproto ipproto-254`, one without a name | `rule::push_ip_protocol` | `Rule::ip_protocol_part` |
//! | `ipproto tcp` | `ip_protocols::ip_protocol_name` | `IpProtocols::ip_protocol_name` |
//! | `sport` | `rule::push_ranges` | `Rule::rule_ranges` |
//! | `dport` | `rule::push_ranges` | `Rule::rule_ranges` |
//! | `443` or `80-90` after either | `rule_matches::push_ports` | `RuleParts::ports_part` |
//! | `tun_id 5` | `rule::push_tunnel` | `Rule::tunnel_part` |
//! | `lookup main` | `rule_ends::push_lookup_table` | `RuleParts::table_parts` |
//! | `suppress_prefixlength 0` | `rule_ends::push_suppressed` | `RuleParts::suppressed_part` |
//! | `suppress_ifgroup 7` | `rule_ends::group_text` | `RuleParts::group_text` |
//! | `realms 3/4` | `rule_ends::push_lookup` | `RuleParts::lookup_parts` |
//! | `goto 40000 [unresolved]` | `rule_ends::push_goto` | `RuleParts::goto_part` |
//! | `nop`, `blackhole` and the other actions | `rule_ends::action_text` | `RuleParts::action_text` |
//! | `proto static` | `rule_ends::push_installer` | `RuleParts::installer_part` |
//!
//! `namespace::namespace_text` makes the line of an id of a network namespace, and `Namespace::namespace_line` defines
//! it:
//!
//! | word of a line | function | definition |
//! |---|---|---|
//! | `Deleted`, `Get` | `namespace::namespace_text` | `Namespace::namespace_line` |
//! | `nsid 5` | `namespace::ids_text` | `Namespace::id_parts` |
//! | `pid 100` | `namespace::ids_text` | `Namespace::id_parts` |
//! | `fd 4` | `namespace::ids_text` | `Namespace::id_parts` |
//! | `target-nsid 1` | `namespace::ids_text` | `Namespace::id_parts` |
//! | `current-nsid 0` | `namespace::ids_text` | `Namespace::id_parts` |
//! | `nsid`, if none of these is there | `namespace::ids_or_key` | `Namespace::ids_or_key` |
//! | `unassigned` in place of an id | `namespace::push_id` | `Namespace::id_part` |
#![tactic(auto)]

pub mod encap;
pub mod ila;
pub mod ioam6;
pub mod ip_protocols;
pub mod mpls;
pub mod multicast;
pub mod namespace;
pub mod program;
pub mod route;
pub mod route_cache;
pub mod route_flags;
pub mod route_hops;
pub mod route_metrics;
pub mod route_origin;
pub mod rule;
pub mod rule_ends;
pub mod rule_matches;
pub mod seg6;
pub mod seg6_local;
mod values;
pub mod xfrm;
