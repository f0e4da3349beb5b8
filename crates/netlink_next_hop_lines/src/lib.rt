//! The lines of messages about next hops that have an id, their groups, and the buckets of groups.
//!
//! `next_hop::next_hop_line` makes the line, and `NextHop::next_hop_line` defines it. The rows have the
//! order of the words. A definition `File::name` is in `specs/File.antt` of this crate, or of the crate
//! that is named before it.
//!
//! | word of a line | function | definition |
//! |---|---|---|
//! | `Deleted`, `Get` | `next_hop::verb_text` | `NextHop::next_hop_verb` |
//! | `id 12` | `next_hop::push_front` | `NextHop::next_hop_front` |
//! | `group 10/11,3` | `group::push_members` | `Group::group_part` |
//! | `type resilient` | `group::push_type` | `Group::type_part` |
//! | `buckets 32` | `group::push_args` | `Group::resilience_parts` |
//! | `idle_timer 120` | `group::push_args` | `Group::resilience_parts` |
//! | `unbalanced_timer 1.5` | `group::push_args` | `Group::resilience_parts` |
//! | `unbalanced_time 1.23` | `group::push_args` | `Group::resilience_parts` |
//! | `encap mpls` | `next_hop::push_encap` | `NextHop::encap_part` |
//! | `via 192.0.2.1` | `next_hop::push_way` | `NextHop::way_parts` |
//! | `dev d0` | `next_hop::push_link` | `NextHop::link_part` |
//! | `scope link` | `next_hop::push_scope_part` | `NextHop::scope_part` |
//! | `blackhole` | `next_hop::push_end` | `NextHop::end_parts` |
//! | `proto static` | `next_hop::push_protocol_part` | `NextHop::protocol_part` |
//! | `index 7`, of a bucket | `bucket::push_parts` | `Bucket::bucket_parts` |
//! | `idle_time 12.34`, of a bucket | `bucket::push_parts` | `Bucket::bucket_parts` |
//! | `nhid 2`, of a bucket | `bucket::push_parts` | `Bucket::bucket_parts` |
//! | `onlink` and the other flags | `netlink_route_lines::route_flags::push_hop_flags` | `netlink_route_lines::RouteFlags::hop_flags_text` |
//! | `fdb` | `next_hop::push_end` | `NextHop::end_parts` |
#![tactic(auto)]

mod bucket;
mod group;
pub mod next_hop;
mod time;
