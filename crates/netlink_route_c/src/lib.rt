//! The library for C, messages by tables: views of messages of route netlink and of generic
//! netlink's controller, getters by kind, and the texts of errors and of messages.
//!
//! Most functions wrap one function of `netlink_family`, and their clauses use the definitions of
//! that crate. A view for C has offsets and numbers alone, so nothing ties it to the bytes: each
//! function takes the payload too, and checks what it reads. No function has a `requires` clause.
//! In C, a slice is a pointer and the number of its elements.
#![tactic(auto)]

pub mod check;
pub mod error;
pub mod find;
pub mod get;
pub mod get_part;
pub mod header;
pub mod item;
pub mod output;
pub mod results;
pub mod shape;
pub mod show;
pub mod view;
