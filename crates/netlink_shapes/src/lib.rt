//! The shapes of attributes: rows of tables, shapes that another attribute chooses, the check of a
//! block and of its nests, and the first error in it.
#![tactic(auto)]

pub mod attribute_error;
pub mod block;
pub mod choice;
pub mod decoders;
pub mod error;
pub mod find;
pub mod nest;
pub mod rows;
pub mod shape;
