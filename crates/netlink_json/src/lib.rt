//! Objects of JSON (RFC 8259), written member by member.
//!
//! `Json::Json` defines the values and `Json::json_text` their texts. A definition `File::name` is in `specs/File.antt`.
//! The law `laws::texts_are_json` states that each text is one of the grammar in `specs/Grammar.antt`.
//!
//! | what | function | definition |
//! |---|---|---|
//! | `"caf\u00e9"`, a string | `string::push_string` | `Strings::string_text` |
//! | `,"mtu":1500`, a member | `object::put_number` | `Fields::with_field` |
//! | `,"idle_time":1.5` | `object::put_hundredths` | `Json::hundredths_text` |
//! | `{..}`, an object | `object::into_text` | `Fields::object_text` |
//! | `,"raw":{"ifalias":"636166e9"}` | `object::put_text` | `Fields::raw_field` |
//! | `,"altnames":[..]`, an array | `object::put_array` | `Fields::with_items` |
#![tactic(auto)]

pub mod array;
mod fraction;
pub mod laws;
pub mod object;
mod string;

pub use crate::array::Array;
pub use crate::object::Object;
