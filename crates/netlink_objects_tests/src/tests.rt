//! Objects of messages that are made by hand, and texts of values.

mod made_routes;
mod made_rules;
mod mpls_and_multicast;
mod next_hop_objects;
mod route_objects;
mod routes;
mod rule_objects;
mod setting_objects;
mod table_objects;
mod texts;
