//! The lines of messages of traffic control: queueing disciplines, classes, filters, chains of filters, and
//! actions.
//!
//! `traffic::traffic_line` and `action::action_line` make the lines, and `Traffic::traffic_line` and
//! `Action::action_line` define them. The rows have the order of the words. A definition `File::name` is
//! in `specs/File.antt` of this crate, or of the crate that is named before it.
//!
//! | word of a line | function | definition |
//! |---|---|---|
//! | `deleted`, `Get` | `traffic::verb_text` | `Traffic::verb_text` |
//! | `qdisc`, `class`, `filter`, `chain` | `traffic::group_text` | `Traffic::group_text` |
//! | `htb`, of a queueing discipline | `discipline::push_front` | `Discipline::discipline_front` |
//! | `1:` | `ids::handle_text` | `Ids::handle_text` |
//! | `dev d0` | `netlink_names::device::push_device` | `netlink_names::Device::device_part` |
//! | `root`, `parent 1:2` | `discipline::push_above` | `Discipline::above_part` |
//! | `refcnt 2` | `discipline::push_users` | `Discipline::users_part` |
//! | `offloaded` | `discipline::push_state` | `Discipline::discipline_state` |
//! | `ingress_block 7`, `egress_block 8` | `discipline::push_state` | `Discipline::discipline_state` |
//! | `limit 10240p`, `flows 1024`, `quantum 1514` | `options::push_codel_sizes` | `Options::codel_sizes` |
//! | `target 5000us`, `ce_threshold 999us`, `interval 100000us` | `options::push_codel_times` | `Options::codel_times` |
//! | `memory_limit 33554432b`, `ecn`, `drop_batch 64` | `options::push_codel_rest` | `Options::codel_rest` |
//! | `r2q 10`, `default 0x20`, `direct_packets_stat 5` | `options::push_global` | `Options::global_parts` |
//! | `direct_qlen 1000`, `offload` | `options::push_direct` | `Options::direct_parts` |
//! | `htb`, of a class | `class::push_class` | `Class::class_parts` |
//! | `1:2` | `class::push_own_id` | `Class::own_id` |
//! | `root`, `parent 1:1` | `ids::push_parent` | `Ids::parent_part` |
//! | `leaf 2:` | `class::push_leaf` | `Class::leaf_part` |
//! | `block 22` | `filter::push_place` | `Filter::place_parts` |
//! | `ingress`, `egress`, `root`, `parent 1:` | `filter::push_hook` | `Filter::hook_part` |
//! | `protocol ip` | `filter::push_protocol` | `Filter::protocol_part` |
//! | `pref 10` | `filter::push_own` | `Filter::filter_parts` |
//! | `flower`, of a filter | `filter::push_own` | `Filter::filter_parts` |
//! | `chain 5` | `filter::push_own`, `filter::push_number_of_chain` | `Filter::filter_parts`, `Filter::chain_parts` |
//! | `total acts 1` | `action::push_front` | `Action::action_front` |
//! | `action gact`, `index 3` | `action::push_action` | `Action::action_parts` |
#![tactic(auto)]

pub mod action;
mod class;
mod discipline;
mod filter;
mod ids;
mod options;
mod packet_protocols;
pub mod traffic;
mod values;
