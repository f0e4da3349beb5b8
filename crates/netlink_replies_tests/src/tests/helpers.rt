//! Requests, and calls that compare what they return.

use netlink_packet_core::{DecodeError, NLM_F_ACK, NLM_F_REQUEST, NetlinkHeader};
use netlink_replies::{ExtendedAck, Replies, Reply, Request};

/// The header of a request with sequence number 1 and port number 0.
fn header(flags: u16) -> NetlinkHeader {
    NetlinkHeader {
        flags,
        sequence_number: 1,
        ..NetlinkHeader::default()
    }
}

/// A dump with sequence number 1.
pub fn dump() -> Replies {
    Replies::new(Request::dump(&header(NLM_F_REQUEST)))
}

/// A request with sequence number 1 that asks for an acknowledgement.
pub fn acknowledged() -> Replies {
    Replies::new(Request::single(&header(NLM_F_REQUEST | NLM_F_ACK)))
}

/// A request with sequence number 1 that asks for no acknowledgement.
pub fn single() -> Replies {
    Replies::new(Request::single(&header(NLM_F_REQUEST)))
}

/// A dump with these numbers.
pub fn dump_with(sequence_number: u32, port_number: u32) -> Replies {
    Replies::new(Request {
        sequence_number,
        port_number,
        is_dump: true,
        wants_ack: false,
    })
}

/// A done message with code 0 and without attributes.
pub fn done() -> Reply<&'static [u8]> {
    Reply::Done {
        code: 0,
        attributes: &[],
    }
}

/// A function of `ExtendedAck`, and what it returns.
#[derive(Clone, Copy)]
pub enum Value<'a> {
    Message(Option<&'a [u8]>),
    Text(Option<&'a str>),
    Offset(Option<u32>),
    Cookie(Option<&'a [u8]>),
    Policy(Option<&'a [u8]>),
    MissingType(Option<u32>),
    MissingNest(Option<u32>),
}

/// Whether the function returns this for these attributes.
fn has_value(attributes: &[u8], value: Value<'_>) -> bool {
    let ack = ExtendedAck { attributes };
    match value {
        Value::Message(message) => ack.message() == message,
        Value::Text(text) => ack.text() == text,
        Value::Offset(offset) => ack.offset() == offset,
        Value::Cookie(cookie) => ack.cookie() == cookie,
        Value::Policy(policy) => ack.policy() == policy,
        Value::MissingType(kind) => ack.missing_type() == kind,
        Value::MissingNest(offset) => ack.missing_nest() == offset,
    }
}

/// Whether each of these functions returns this for these attributes.
pub fn has_values(attributes: &[u8], values: &[Value<'_>]) -> bool {
    for value in values {
        if !has_value(attributes, *value) {
            return false;
        }
    }
    true
}

/// Whether reading the datagram gives these replies, and nothing else.
pub fn gives(replies: &mut Replies, datagram: &[u8], expected: &[Reply<&[u8]>]) -> bool {
    let mut left = expected.iter();
    for item in replies.read(datagram) {
        match (item, left.next()) {
            (Ok(reply), Some(wanted)) => {
                if reply != *wanted {
                    return false;
                }
            }
            _ => return false,
        }
    }
    left.next().is_none()
}

/// Whether `next` returns this reply.
pub fn gives_next(
    replies: &mut Replies,
    datagram: &[u8],
    cursor: &mut usize,
    expected: Reply<&[u8]>,
) -> bool {
    match replies.next(datagram, cursor) {
        Some(Ok(reply)) => reply == expected,
        _ => false,
    }
}

/// Whether `next` returns this error.
pub fn fails_next(
    replies: &mut Replies,
    datagram: &[u8],
    cursor: &mut usize,
    expected: DecodeError,
) -> bool {
    match replies.next(datagram, cursor) {
        Some(Err(error)) => error == expected,
        _ => false,
    }
}

/// Whether `next` returns `None`.
pub fn ends_next(replies: &mut Replies, datagram: &[u8], cursor: &mut usize) -> bool {
    replies.next(datagram, cursor).is_none()
}
