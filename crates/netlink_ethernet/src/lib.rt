//! Ethernet protocol numbers and their names, after linux/if_ether.h.
//!
//! `EthernetProtocol` has a variant for each of 102 numbers, and `Other` for every other number. It
//! converts from and to the number by `From`, and prints the protocol's name by `Display`.
//!
//! A number's variant is found by comparing the number with those of a sorted table. `look_up` does
//! this and counts its comparisons: at least one and at most seven. All contracts refer to one
//! table, `row_of` in specs/Table.antt.
#![tactic(auto)]

mod comparisons;
pub mod laws;
mod protocol;
mod table;
#[cfg(test)]
mod tests;

pub use crate::comparisons::Comparisons;
pub use crate::protocol::EthernetProtocol;
pub use crate::table::look_up;
