//! Netlink families described by tables: their message types, the size of their fixed headers, and
//! a shape for each kind of attribute. One message type serves every family, and its laws are
//! proved once.
#![tactic(auto)]

mod both;
pub mod byte_lines;
mod checked;
mod family;
mod late;
pub mod laws;
mod message_index;
mod normal;
mod owned;
mod push;
mod set_fields;
mod show;
mod view;

pub use crate::both::{Both, Join, Joined};
pub use crate::checked::CheckedAttributes;
pub use crate::family::{Family, Table, is_among, is_short, shape_of};
pub use crate::message_index::MessageIndex;
pub use crate::owned::OwnedMessage;
pub use crate::show::name_of;
pub use crate::view::MessageView;
pub use netlink_blocks::attributes::Attributes;
pub use netlink_blocks::block_index::BlockIndex;
pub use netlink_blocks::block_view::BlockView;
pub use netlink_blocks::header_view::{Field, HeaderView};
pub use netlink_blocks::value::Value;
pub use netlink_blocks::{
    attributes as attributes, block_index as block_index, block_view as block_view,
    header_view as header_view, value as value,
};
pub use netlink_shapes::attribute_error::{AttributeError, Reason};
pub use netlink_shapes::choice::{Choice, Choices};
pub use netlink_shapes::decoders::{bytes_until_nul, str_until_nul};
pub use netlink_shapes::error::FamilyError;
pub use netlink_shapes::rows::Rows;
pub use netlink_shapes::shape::{ANY, Row, Shape, TOP};
pub use netlink_shapes::{
    attribute_error as attribute_error, choice as choice, error as error, rows as rows,
    shape as shape,
};
