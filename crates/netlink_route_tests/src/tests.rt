//! Messages as the kernel sends them, and invalid ones. The bytes are written by hand from
//! linux/netlink.h, rtnetlink.h, if_link.h, if_addr.h, neighbour.h, fib_rules.h, net_namespace.h,
//! netconf.h, nexthop.h, pkt_sched.h, pkt_cls.h, gen_stats.h and if_bridge.h, are in
//! `examples/captured`, are what a kernel sent while `tc` ran, or are requests of `ip`.

mod bridge_frames;
mod bridge_vlans;
mod calls;
mod captured;
mod encapsulation_samples;
mod encapsulations;
mod errors;
mod getters;
mod group_sizes;
mod growth;
mod link_kinds;
mod link_statistics;
mod mark;
mod memory_not_asked;
mod memory_refused;
mod messages;
mod multicast_groups;
mod names;
mod neighbours;
mod next_hop_objects;
mod requests;
mod routes;
mod samples;
mod settings;
mod show;
mod strings;
mod traffic;
mod traffic_actions;
mod traffic_samples;
mod vni_filters;
