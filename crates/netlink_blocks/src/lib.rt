//! Blocks of attributes that have the shapes of a table: getters, an index of places, values and headers.
#![tactic(auto)]

pub mod attributes;
pub mod block_index;
pub mod block_view;
pub mod getters;
pub mod header_view;
pub mod index_getters;
pub mod value;
