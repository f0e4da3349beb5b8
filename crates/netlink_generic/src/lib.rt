//! Generic netlink's controller, `nlctrl` (linux/genetlink.h): its table of attributes, the request
//! for a family by name, the family's id and multicast groups in the reply, and the frame of a
//! command of any family.
#![tactic(auto)]

mod command;
pub mod controller;
mod groups;
mod reply;
mod request;

pub use crate::command::command_frame;
pub use crate::controller::{ControllerFamily, ControllerMessage, ControllerView};
pub use crate::groups::{Groups, family_groups};
pub use crate::reply::{family_id, family_in, family_name, family_named};
pub use crate::request::{is_family_name, request_by_name};
