//! The library for C: views, walks, answers, writing, canonical forms and error texts, over slices,
//! integers and structs of integers.
//!
//! Most functions wrap a function of `netlink_packet_core`, `netlink_tree` or `netlink_replies`, and
//! their clauses use the definitions of that crate. A function returns a constant of `results` or
//! an error, except for `nlp_attrs_is_canonical`, which returns a `bool`, and `nlp_replies_begin`,
//! which returns nothing. For an error such as `FrameShort`, the result is the number of that
//! variant of `DecodeError`, and the numbers of the error are written into a `FaultNumbers`. No
//! function has a `requires` clause. In C, a slice is a pointer and the number of its elements.
#![tactic(auto)]

pub mod any;
pub mod attribute_batch;
pub mod batch;
pub mod describe;
pub mod describe_attributes;
pub mod ends;
pub mod error_body;
pub mod ext_ack;
pub mod fault;
pub mod frame;
pub mod get;
pub mod kinds;
pub mod messages;
pub mod normal;
pub mod place;
pub mod policy;
pub mod protocol_type;
pub mod put;
pub mod replies;
pub mod reply_item;
pub mod results;
pub mod text;
pub mod walk;
