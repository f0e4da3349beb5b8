//! Lines of messages that are made by hand, runs, and texts of numbers and bytes.

mod bridge_lines;
mod byte_lines;
mod encap_lines;
mod lines;
mod link_lines;
mod local_segment_lines;
mod mpls_lines;
mod multicast_lines;
mod names;
mod neighbour_lines;
mod next_hop_lines;
mod other_lines;
mod packet_times;
mod pcap_files;
mod pcapng_files;
mod rejected;
mod requests;
mod route_lines;
mod rule_lines;
mod runs;
mod segment_lines;
mod shown;
mod times;
mod traffic_lines;
mod tunnel_lines;
mod words;
