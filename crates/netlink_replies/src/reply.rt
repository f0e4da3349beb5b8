//! What one frame of an answer means.

ghost use Rattle.std.specs.Prelude.{◌≡◌, ◌<◌, ◌^◌, take};
ghost use Rattle.netlink_packet_core.specs.Header.{HoldsFrame};
ghost use Rattle.netlink_replies.specs.Bodies.{attributes_after, error_attributes, request_of, request_size};
ghost use Rattle.netlink_replies.specs.Meaning.{meaning, other, done_item, error_item, shown_item, shown_result};

use crate::request::has_flag;
use netlink_packet_core::{
    DecodeError, NETLINK_HEADER_LEN, NLM_F_ACK_TLVS, NLM_F_CAPPED, NLMSG_DONE, NLMSG_ERROR,
    NLMSG_NOOP, NLMSG_OVERRUN, NetlinkBuffer, i32_at, nlmsg_align, u32_at,
};

/// The size of the code in an error or done message, in bytes.
const CODE_SIZE: usize = 4;

/// What a frame means to a request. `T` is the type of the bytes, which are `&[u8]` in a reply.
#[derive(Clone, Copy, Debug, PartialEq, Eq)]
pub enum Reply<T> {
    /// A message of the answer: a frame without its padding.
    Message(T),
    /// The end of a multipart answer (`NLMSG_DONE`).
    Done {
        /// 0, or a negative errno.
        code: i32,
        /// The attributes of an extended acknowledgement.
        attributes: T,
    },
    /// An error message with code 0.
    Acknowledged {
        /// The attributes of an extended acknowledgement.
        attributes: T,
    },
    /// An error message with another code.
    Rejected {
        /// A negative errno; never 0.
        code: i32,
        /// The request as far as the kernel returned it, from its header on.
        request: T,
        /// The attributes of an extended acknowledgement.
        attributes: T,
    },
    /// Data was lost (`NLMSG_OVERRUN`). The kernel has never sent one.
    Overrun,
    /// A frame that is no part of the answer: it has another sequence number or port number, or
    /// follows the end.
    Other(T),
}

/// What follows the code of an error message (`struct nlmsgerr`).
#[derive(Clone, Copy, Debug, PartialEq, Eq)]
pub struct ErrorBody<'a> {
    /// The request as far as the kernel returned it, from its header on.
    pub request: &'a [u8],
    /// The attributes of an extended acknowledgement.
    pub attributes: &'a [u8],
}

impl<'a> ErrorBody<'a> {
    /// Reads the bytes that follow the code of an error message whose header has these flags.
    ///
    /// The request has as many bytes as its length field says, but at least 16, a header; with
    /// `NLM_F_CAPPED`, 16. If there are fewer, it is all of them. With `NLM_F_ACK_TLVS`, the attributes
    /// are the bytes after the request and its padding; otherwise there are none (`netlink_ack` of
    /// net/netlink/af_netlink.c; RFC 3549, 2.3.2.2).
    #[inline]
    pub fn new(flags: u16, bytes: &'a [u8]) -> Self
        ensures request { result.request.now ≡ request_of flags bytes.now }
        ensures attributes { result.attributes.now ≡ error_attributes flags bytes.now }
    {
        let size = request_size(flags, bytes);
        ErrorBody {
            request: first_bytes(bytes, size),
            attributes: attributes_of(flags, size, bytes),
        }
    }
}

/// Returns what a frame of the answer means: nothing for a noop. Requires that the bytes hold a
/// complete frame.
#[inline]
pub(crate) fn meaning(frame: &[u8]) -> Option<Result<Reply<&[u8]>, DecodeError>>
    requires whole { HoldsFrame frame.now }
    ensures item { shown_item result ≡ meaning frame.now }
{
    let view = NetlinkBuffer::new(frame);
    let message_type = view.message_type();
    if message_type == NLMSG_NOOP {
        return None;
    }
    if message_type == NLMSG_ERROR {
        return Some(error_item(view.flags(), view.payload()));
    }
    if message_type == NLMSG_DONE {
        return Some(done_item(view.flags(), view.payload()));
    }
    if message_type == NLMSG_OVERRUN {
        return Some(Ok(Reply::Overrun));
    }
    Some(Ok(Reply::Message(frame)))
}

/// Returns what a frame that is no part of the answer means: nothing for a noop. Requires that the
/// bytes hold a complete frame.
#[inline]
pub(crate) fn other(frame: &[u8]) -> Option<Result<Reply<&[u8]>, DecodeError>>
    requires whole { HoldsFrame frame.now }
    ensures item { shown_item result ≡ other frame.now }
{
    if NetlinkBuffer::new(frame).message_type() == NLMSG_NOOP {
        return None;
    }
    Some(Ok(Reply::Other(frame)))
}

/// Returns what the payload of an error message means. Returns `ErrorShort`, with `inside` set to
/// true, if it has fewer than 4 bytes.
fn error_item(flags: u16, payload: &[u8]) -> Result<Reply<&[u8]>, DecodeError>
    ensures { shown_result result ≡ error_item flags payload.now }
{
    let size = payload.len();
    if size < CODE_SIZE {
        return Err(DecodeError::ErrorShort { size, inside: true });
    }
    let ErrorBody {
        request,
        attributes,
    } = ErrorBody::new(flags, &payload[CODE_SIZE..]);
    if u32_at(payload, 0) == 0 {
        return Ok(Reply::Acknowledged { attributes });
    }
    Ok(Reply::Rejected {
        code: i32_at(payload, 0),
        request,
        attributes,
    })
}

/// Returns what the payload of a done message means; an empty one means code 0. Returns
/// `DoneShort`, with `inside` set to true, if it has 1 to 3 bytes.
fn done_item(flags: u16, payload: &[u8]) -> Result<Reply<&[u8]>, DecodeError>
    ensures { shown_result result ≡ done_item flags payload.now }
{
    let size = payload.len();
    if size == 0 {
        return Ok(Reply::Done {
            code: 0,
            attributes: &[],
        });
    }
    if size < CODE_SIZE {
        return Err(DecodeError::DoneShort { size, inside: true });
    }
    Ok(Reply::Done {
        code: i32_at(payload, 0),
        attributes: attributes_of(flags, 0, &payload[CODE_SIZE..]),
    })
}

/// Returns the size of the request that follows the code of an error message.
#[inline]
#[tactic(auto, unfolding(crate::specs::Bodies::request_size))]
fn request_size(flags: u16, body: &[u8]) -> usize
    ensures size { result ≡ request_size flags body.now }
    ensures fits { result < 2 ^ 32 }
{
    if has_flag(flags, NLM_F_CAPPED) || body.len() < NETLINK_HEADER_LEN {
        return NETLINK_HEADER_LEN;
    }
    let said = u32_at(body, 0) as usize;
    if said < NETLINK_HEADER_LEN {
        NETLINK_HEADER_LEN
    } else {
        said
    }
}

/// Returns the attributes, which follow the first `start` bytes of the body and their padding.
/// `start` is less than 2^32.
#[inline]
fn attributes_of(flags: u16, start: usize, body: &[u8]) -> &[u8]
    requires { start < 2 ^ 32 }
    ensures { result.now ≡ attributes_after flags start body.now }
{
    let at = nlmsg_align(start);
    if has_flag(flags, NLM_F_ACK_TLVS) && at < body.len() {
        &body[at..]
    } else {
        &[]
    }
}

/// Returns the first bytes, or all if there are fewer.
#[inline]
fn first_bytes(bytes: &[u8], size: usize) -> &[u8]
    ensures { result.now ≡ take size bytes.now }
{
    if size < bytes.len() {
        &bytes[..size]
    } else {
        bytes
    }
}
