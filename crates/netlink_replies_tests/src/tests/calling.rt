//! The calls that docs/CALLING.md shows, over captured datagrams.

use crate::tests::captured::{ADDRESSES_0, ADDRESSES_1, LINK_MTU_REFUSED_0};
use netlink_packet_core::{DecodeError, NLM_F_ACK, NLM_F_DUMP, NLM_F_REQUEST, NetlinkHeader};
use netlink_replies::{ExtendedAck, Replies, Reply, Request, SequenceNumbers};
use std::test::Fail;

/// What a program learns from an answer.
#[derive(Clone, Copy, Default)]
struct Seen {
    messages: u32,
    code: i32,
}

/// Reads one datagram, and counts the messages of the answer.
fn count(replies: &mut Replies, datagram: &[u8], seen: &mut Seen) -> Result<(), DecodeError> {
    for item in replies.read(datagram) {
        match item? {
            Reply::Message(_) => seen.messages = seen.messages.saturating_add(1),
            Reply::Done { code, .. } => seen.code = code,
            Reply::Rejected { code, .. } => seen.code = code,
            _ => {}
        }
    }
    Ok(())
}

/// Returns the kernel's text about the request that it rejected.
fn reason<'a>(replies: &mut Replies, datagram: &'a [u8]) -> Option<&'a str> {
    for item in replies.read(datagram) {
        match item {
            Ok(Reply::Rejected { attributes, .. }) => return ExtendedAck { attributes }.text(),
            _ => {}
        }
    }
    None
}

#[test]
fn a_dump_is_read_to_its_end(rt: HostRuntime) -> Result<(), Fail> {
    let mut numbers = SequenceNumbers::new(0);
    let header = NetlinkHeader {
        flags: NLM_F_REQUEST | NLM_F_DUMP,
        sequence_number: numbers.next(),
        ..NetlinkHeader::default()
    };
    let mut replies = Replies::new(Request::dump(&header));
    let mut seen = Seen::default();
    count(&mut replies, &ADDRESSES_0, &mut seen)?;
    assert!(rt; !replies.has_ended());
    count(&mut replies, &ADDRESSES_1, &mut seen)?;
    assert!(rt; replies.has_ended());
    assert!(rt; seen.messages == 7);
    assert!(rt; seen.code == 0);
    Ok(())
}

#[test]
fn a_rejected_request_has_a_reason(rt: HostRuntime) -> Result<(), Fail> {
    let header = NetlinkHeader {
        flags: NLM_F_REQUEST | NLM_F_ACK,
        sequence_number: 1,
        ..NetlinkHeader::default()
    };
    let mut replies = Replies::new(Request::single(&header));
    let reason = reason(&mut replies, &LINK_MTU_REFUSED_0);
    assert!(rt; reason == Some("mtu less than device minimum"));
    assert!(rt; replies.has_ended());
    Ok(())
}
