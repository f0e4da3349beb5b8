//! The words of a line: numbers, names of numbers, bytes and addresses as text, and parts with one
//! space between them. For the crates of the lines alone.
//!
//! A definition `File::name` is in `specs/File.antt` of this crate, or of the crate that is named before it.
//!
//! | what | function | definition |
//! |---|---|---|
//! | a part, after a space | `parts::push_part` | `Parts::with_part` |
//! | a part, if a condition holds | `parts::push_when` | `Parts::when` |
//! | a key and a word | `parts::push_keyed` | `Parts::keyed` |
//! | a key and a number, `mtu 1500` | `parts::push_number` | `Parts::number_part` |
//! | a key and a name, `qdisc noqueue` | `parts::push_string` | `Parts::string_part` |
//! | a key and a sentence, `alias uplink of rack 4` | `parts::push_words` | `Parts::words_part` |
//! | a key and an IP address, `src 10.1.0.1` | `parts::push_address` | `Parts::keyed`, `Text::ip_words` |
//! | a key and bytes, `lladdr 02:00:00:00:00:02` | `parts::push_hardware` | `Parts::keyed`, `Text::bytes_text` |
//! | `tos 0x10` | `parts::push_tos` | `Parts::tos_part` |
//! | `realm 5`, `realms 3/5` | `parts::push_realms` | `Parts::realms_part` |
//! | an IP address and the length of its prefix, `10.3.0.0/16` | `parts::prefix_text` | `Parts::prefix_text` |
//! | a number in hexadecimal, `0x10` | `parts::hex_text` | `Parts::hex_part` |
//! | a number in decimal, `1500` | `digits::push_decimal` | `std::Prelude::decimal` |
//! | a signed number in decimal, `-2` | `digits::push_signed` | `std::Fmt::signed_decimal` |
//! | an IP address, `10.1.0.3` | `parts::push_ip`, `text::ip_words` | `Text::ip_words` |
//! | bytes, `02:00:00:00:00:02` | `text::push_colons` | `Text::bytes_text` |
//! | a name, `caf\xe9` | `text::name_text` | `Text::name_text` |
//! | a sentence, with its spaces | `text::sentence_text` | `Text::sentence_text` |
//! | the name of an operational state, `UP` | `number_names::push_state` | `NumberNames::state_text` |
//! | the name of an address family, `inet` | `number_names::family_text` | `NumberNames::family_text` |
//! | the name of a scope, `global` | `number_names::push_scope` | `NumberNames::scope_text` |
//! | the name of a routing table, `main` | `number_names::push_table` | `NumberNames::table_text` |
//! | the name of who installed a route, `kernel` | `number_names::push_protocol` | `NumberNames::protocol_text` |
//! | the name of a type of route, `blackhole` | `number_names::route_type_text` | `NumberNames::route_type_text` |
#![tactic(auto)]

pub mod digits;
pub mod number_names;
pub mod parts;
pub mod text;
