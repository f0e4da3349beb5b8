//! Which messages answer a request, and when the answer is complete. No I/O: the crate takes the
//! bytes of datagrams and returns what they mean. Nothing allocates.
#![tactic(auto)]

mod extended_ack;
pub mod laws;
mod path;
mod reading;
mod replies;
mod reply;
mod request;
mod sequence;

pub use crate::extended_ack::ExtendedAck;
pub use crate::path::Path;
pub use crate::reading::Reading;
pub use crate::replies::Replies;
pub use crate::reply::{ErrorBody, Reply};
pub use crate::request::Request;
pub use crate::sequence::SequenceNumbers;
