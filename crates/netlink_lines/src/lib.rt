//! The lines of messages of route netlink (linux/rtnetlink.h), as `ip -o` prints them. `run` writes
//! those of a stream, or of a pcap or pcapng file, as each message arrives. `Line::line` returns that of one message, and
//! functions such as `link_text` those of one family. With `Options::json`, an object of JSON takes their place.
//!
//! The words of the lines are in `netlink_link_lines`, `netlink_address_lines`, `netlink_route_lines`,
//! `netlink_next_hop_lines`, `netlink_traffic_lines` and `netlink_bridge_lines`. This crate adds what these
//! tables show. A definition `File::name` is in `specs/File.antt`.
//!
//! Of a message:
//!
//! | word of a line | function | definition |
//! |---|---|---|
//! | `[1700000000.000042] ` | `time::time_text` | `Time::time_text` |
//! | `[LINK]` | `options::label_in` | `Options::label_in` |
//! | `[MROUTE]` | `options::label_of` | `Options::label_of` |
//! | `interrupted`, a line before | `messages::marked` | `Ack::marked_if` |
//! | `request `, or `request delete` for `Deleted` | `requests::request_line` | `Requests::request_line` |
//! | the line of one of the six crates | `line::line_of` | `Lines::route_line` |
//! | `done` | `line::done_line` | `Lines::done_line` |
//! | ` -4`, the code after `done` | `line::code_words` | `Lines::code_words` |
//! | `ack`, `error -22` | `line::error_line` | `Lines::error_line` |
//! | ` (Invalid argument)` after a code | `line::code_text`, `system_errors::error_name` | `SystemErrors::code_text` |
//! | `: mtu less than device minimum` | `ack::text_words` | `Ack::text_words` |
//! | `; byte 52, attribute 18/2/5` | `concern::place_words` | `Concern::place_words` |
//! | `; attribute 4 is missing` | `concern::missing_words` | `Concern::missing_words` |
//! | `noop`, `overrun` | `messages::item_shown` | `Messages::item_lines` |
//! | `type 56, 28 bytes` | `messages::type_line` | `Messages::type_line` |
//! | `  44  08 00 04 00 78 05 00 00  IFLA_MTU: 1400`, the lines after it | `bytes::with_bytes` | `Bytes::frame_bytes` |
//! | `byte 20: ` before an error | `messages::malformed` | `Messages::bad` |
//! | `Failed to parse message with type 16: ..` | `messages::error_shown` | `Messages::error_lines` |
//! | `.. the payload has 4 bytes instead of 8` | `messages::wrong_time` | `Messages::wrong_time` |
//!
//! Of an object of JSON, which takes the place of the lines; the members of a family are in `netlink_objects`:
//!
//! | member | function | definition |
//! |---|---|---|
//! | `"sec"`, `"usec"` | `objects::put_time` | `Objects::time_fields` |
//! | `"interrupted"` | `objects::frame_object` | `Objects::interrupted_fields` |
//! | `"message":"RTM_NEWLINK"` | `objects::put_message`, `members::message_name` | `Objects::message_parts` |
//! | `"message":"NLMSG_ERROR"`, `"code"`, `"strerror"`, `"text"` | `objects::put_control` | `Objects::control_parts` |
//! | `"nlmsg_flags"`, `"nlmsg_seq"`, `"nlmsg_pid"` | `objects::put_header` | `Objects::header_fields` |
//! | `"request"` | `objects::put_message` | `Objects::request_field` |
//! | `"type"`, `"bytes"` | `objects::put_type` | `Objects::type_parts` |
//! | `"byte"`, `"error"` | `objects::put_why` | `Objects::bad_fields` |
//! | `"netlink_family"` | `packet_objects::put_netlink` | `Objects::netlink_fields` |
//!
//! Of a packet of a pcap or pcapng file:
//!
//! | word of a line | function | definition |
//! |---|---|---|
//! | `netlink family 16, 40 bytes` | `packet::content_lines` | `Packet::content_lines` |
//! | `byte 24: ` before an error | `messages::malformed` | `Messages::bad` |
//! | `of a packet of 60 bytes, 50 were captured` | `packet::content_text` | `Packet::content_text` |
//! | `a packet of 8 bytes is shorter than ..` | `packet::content_text` | `Packet::content_text` |
//! | `the device type of a packet is 1 ..` | `packet::content_text` | `Packet::content_text` |
//! | `byte 56: ` and why a datagram ends early | `packet::push_stop` | `Packet::stop_shown` |
#![tactic(auto)]

mod ack;
mod ack_table;
mod blocks;
mod bytes;
mod capture;
mod concern;
mod families;
pub mod laws;
mod line;
mod members;
mod messages;
mod next;
mod objects;
mod options;
mod packet;
mod packet_objects;
mod requests;
mod runs;
mod state;
mod system_errors;
mod time;

pub use crate::line::Line;
pub use crate::options::Options;
pub use crate::runs::{run, run_with};
pub use netlink_address_lines::address::address_text;
pub use netlink_address_lines::neighbour::neighbour_text;
pub use netlink_address_lines::neighbour_table::neighbour_table_text;
pub use netlink_address_lines::network_configuration::configuration_text;
pub use netlink_address_lines::prefix::prefix_text;
pub use netlink_bridge_lines::group::group_text;
pub use netlink_bridge_lines::statistics::statistics_text;
pub use netlink_bridge_lines::vlan::vlan_text;
pub use netlink_bridge_lines::vni::vni_text;
pub use netlink_input::fault::Fault;
pub use netlink_input::pcap::PcapFault;
pub use netlink_input::stream::{Cause, Stop};
pub use netlink_link_lines::flags::flags_text;
pub use netlink_link_lines::hardware::hardware_text;
pub use netlink_link_lines::link::link_text;
pub use netlink_names::device::{Known, device_text};
pub use netlink_names::known::enter_name;
pub use netlink_names::name::Name;
pub use netlink_names::name_table::{NameTable, Names};
pub use netlink_next_hop_lines::next_hop::next_hop_text;
pub use netlink_route_lines::namespace::namespace_text;
pub use netlink_route_lines::route::route_text;
pub use netlink_route_lines::rule::rule_text;
pub use netlink_traffic_lines::action::action_text;
pub use netlink_traffic_lines::traffic::traffic_text;
pub use netlink_words::number_names::{family_text, scope_text, state_text};
pub use netlink_words::text::{ip_words, name_text, sentence_text};
