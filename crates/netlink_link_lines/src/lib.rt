//! The lines of messages about links.
//!
//! `link::link_line` makes a line, and `Link::link_line` defines it. The rows have the order of the words. A definition
//! `File::name` is in `specs/File.antt` of this crate, or of the crate that is named before it. `netlink_words` has the
//! functions for numbers, names of numbers and addresses, and `netlink_names` those for the names of other links.
//!
//! | word of a line | function | definition |
//! |---|---|---|
//! | `Deleted `, `Get `, `Set ` | `link::verb_text` | `netlink_words::NumberNames::link_verb_text` |
//! | `3: `, the index | `link::push_names` | `Link::link_front` |
//! | `d0`, the name | `link::push_own_name` | `Link::link_name` |
//! | `@d1`, `@NONE` | `link::push_below` | `Link::below_words` |
//! | `: <` and `>` around the flags | `link::front_text` | `Link::link_front` |
//! | `NO-CARRIER` | `flags::first_flag` | `Flags::first_flag` |
//! | `BROADCAST`, `UP` and the other flags | `flags::flag_name` | `Flags::flag_name` |
//! | `c3380000`, the flags without a name | `flags::push_unnamed_bits` | `Flags::with_unnamed` |
//! | `mtu 1500` | `link_parts::push_settings` | `LinkParts::setting_parts` |
//! | `qdisc noqueue` | `link_parts::push_settings` | `LinkParts::setting_parts` |
//! | `master br0` | `link_parts::push_settings` | `LinkParts::setting_parts` |
//! | `state UP` | `link_parts::push_state_part` | `LinkParts::state_part` |
//! | `mode DEFAULT` | `link_parts::push_mode` | `LinkParts::mode_part` |
//! | `group default` | `link_parts::push_group` | `LinkParts::group_part` |
//! | `qlen 1000` | `link_parts::push_queue` | `LinkParts::queue_part` |
//! | `event NOTIFY PEERS` | `link_parts::push_event` | `LinkParts::event_part` |
//! | `link/` | `link_address::push_layer` | `LinkAddress::hardware_parts` |
//! | `ether` after it | `hardware::push_type` | `Hardware::hardware_text` |
//! | `52:d0:d1:2c:ab:21`, the address | `link_address::push_own` | `LinkAddress::link_address` |
//! | `brd`, `peer` | `link_address::broadcast_key` | `LinkAddress::broadcast_key` |
//! | `ff:ff:ff:ff:ff:ff` after it | `link_address::push_keyed_address` | `LinkAddress::link_address` |
//! | `permaddr ec:3b:6f:42:cb:fe` | `link_address::push_permanent` | `LinkAddress::permanent_part` |
//! | `link-netnsid 0` | `link_spaces::push_lower_space` | `LinkSpaces::space_part` |
//! | `new-netnsid 1` | `link_spaces::push_spaces` | `LinkSpaces::space_parts` |
//! | `new-ifindex 7` | `link_spaces::push_spaces` | `LinkSpaces::space_parts` |
//! | `protodown on` | `link_spaces::push_down` | `LinkSpaces::down_part` |
//! | `alias uplink of rack 4` | `link::line_of` | `Link::link_line` |
//! | `altname enp0s4` | `link_properties::push_property` | `LinkProperties::alternative_part` |
//! | `kind veth` | `link::line_of` | `Link::link_line` |
#![tactic(auto)]

pub mod flags;
pub mod hardware;
pub mod link;
pub mod link_address;
pub mod link_parts;
pub mod link_properties;
pub mod link_spaces;
