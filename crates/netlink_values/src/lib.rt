//! What values hold: structs by their fields, and flags by their names.
//!
//! | what | type | definition |
//! |---|---|---|
//! | `struct rta_cacheinfo`, a struct that the kernel may extend | `StructView`, with the fields of `route_structs` | `Parts::part_of` |
//! | `UP,LOWER_UP,0x100000`, a set of flags | `Flags` | `Flags::flags_text` |
//!
//! A definition `File::name` is in `specs/File.antt`.
#![tactic(auto)]

pub mod flags;
pub mod route;
pub mod route_structs;
pub mod struct_view;
#[cfg(test)]
mod tests;

pub use crate::flags::{Flag, Flags};
pub use crate::struct_view::StructView;
