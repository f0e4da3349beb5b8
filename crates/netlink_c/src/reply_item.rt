//! What a frame means to a request, as numbers and parts of the datagram.

ghost use Rattle.std.specs.Prelude.{◌≡◌, ◌+◌, ◌<◌, ◌≤◌, ℕ, Ok, Some, drop, length};
ghost use Rattle.netlink_packet_core.specs.Header.{field};
ghost use Rattle.netlink_replies.specs.FramePlaces.{MeansFrame};
ghost use Rattle.netlink_replies.specs.Meaning.{shown};
ghost use Rattle.netlink_replies.specs.declared.replies.Replies.{Replies};
ghost use Rattle.netlink_c.specs.ReplyItems.{ShowsReply, attributes_in, code_of, request_in};
ghost use Rattle.netlink_c.specs.ReplyItems.{request_start, what_of};

use crate::frame::Part;
use netlink_packet_core::NetlinkBuffer;
use netlink_replies::Reply;

/// A message of the answer.
pub const MESSAGE: u32 = 1;

/// The end of a multipart answer.
pub const DONE: u32 = 2;

/// An error message with code 0.
pub const ACKNOWLEDGED: u32 = 3;

/// An error message with another code.
pub const REJECTED: u32 = 4;

/// Data was lost.
pub const OVERRUN: u32 = 5;

/// A frame that is no part of the answer.
pub const OTHER: u32 = 6;

/// The offset of the request in the frame of an error message: it is after the header and the code.
const REQUEST_START: usize = 20;

/// What a frame means to a request (`struct nlp_reply`).
#[derive(Clone, Copy, Debug, PartialEq, Eq)]
#[repr(C)]
pub struct ReplyItem {
    /// Which of the constants above it is.
    pub what: u32,
    /// The code of a done or error message, or 0.
    pub code: i32,
    /// The frame without its padding.
    pub frame: Part,
    /// The request as far as the kernel returned it, or a part of size 0.
    pub request: Part,
    /// The attributes of an extended acknowledgement, or a part of size 0.
    pub attributes: Part,
}

/// Returns the numbers and parts of a reply whose frame starts at an offset of the datagram.
pub(crate) fn reply_at(bytes: &[u8], start: usize, reply: &Reply<&[u8]>) -> ReplyItem
    requires inside { start < length bytes.now }
    requires frame { (t : Replies) × (next : ℕ)
        × MeansFrame bytes.now start (Some (Ok (shown reply.now))) t next }
    ensures start { result.frame.offset ≡ start }
    ensures size { result.frame.size ≡ field 0 4 (drop start bytes.now) }
    ensures shows { ShowsReply bytes.now result (shown reply.now) }
{
    let (what, code) = numbers_of(reply);
    let (before, request, attributes) = sizes_of(reply);
    let size = NetlinkBuffer::new(&bytes[start..]).length() as usize;
    ReplyItem {
        what,
        code,
        frame: Part {
            offset: start,
            size,
        },
        request: Part {
            offset: start + before,
            size: request,
        },
        attributes: Part {
            offset: start + size - attributes,
            size: attributes,
        },
    }
}

/// Returns which constant a reply is, and its code.
fn numbers_of(reply: &Reply<&[u8]>) -> (u32, i32)
    ensures what { result.0 ≡ what_of (shown reply.now) }
    ensures code { result.1 ≡ code_of (shown reply.now) }
{
    match reply {
        Reply::Message(_) => (MESSAGE, 0),
        Reply::Done { code, .. } => (DONE, *code),
        Reply::Acknowledged { .. } => (ACKNOWLEDGED, 0),
        Reply::Rejected { code, .. } => (REJECTED, *code),
        Reply::Overrun => (OVERRUN, 0),
        Reply::Other(_) => (OTHER, 0),
    }
}

/// Returns the offset of the request in the frame, its size, and the size of the attributes.
fn sizes_of(reply: &Reply<&[u8]>) -> (usize, usize, usize)
    ensures start { result.0 ≡ request_start (shown reply.now) }
    ensures request { result.1 ≡ length (request_in (shown reply.now)) }
    ensures attributes { result.2 ≡ length (attributes_in (shown reply.now)) }
{
    match reply {
        Reply::Done { attributes, .. } => (0, 0, attributes.len()),
        Reply::Acknowledged { attributes } => (0, 0, attributes.len()),
        Reply::Rejected {
            request,
            attributes,
            ..
        } => (REQUEST_START, request.len(), attributes.len()),
        Reply::Message(_) | Reply::Overrun | Reply::Other(_) => (0, 0, 0),
    }
}
