//! Answers of one message.

use crate::tests::captured::ROUTE_GET_0;
use crate::tests::helpers::{acknowledged, gives, single};
use netlink_replies::Reply;
use std::test::Fail;

#[test]
fn a_single_message_ends_the_answer(rt: HostRuntime) -> Result<(), Fail> {
    let mut replies = single();
    assert!(rt; gives(&mut replies, &ROUTE_GET_0, &[Reply::Message(&ROUTE_GET_0)]));
    assert!(rt; replies.has_ended());
    assert!(rt; gives(&mut replies, &ROUTE_GET_0, &[Reply::Other(&ROUTE_GET_0)]));
    Ok(())
}

#[test]
fn a_request_for_an_acknowledgement_waits_for_it(rt: HostRuntime) -> Result<(), Fail> {
    let mut replies = acknowledged();
    assert!(rt; gives(&mut replies, &ROUTE_GET_0, &[Reply::Message(&ROUTE_GET_0)]));
    assert!(rt; !replies.has_ended());
    Ok(())
}

/// A message with `NLM_F_MULTIPART`, and one without.
const TWO: [u8; 32] = [
    16, 0, 0, 0, 24, 0, 2, 0, 1, 0, 0, 0, 5, 0, 0, 0, // RTM_NEWROUTE
    16, 0, 0, 0, 24, 0, 0, 0, 1, 0, 0, 0, 5, 0, 0, 0,
];

#[test]
fn a_message_of_several_does_not_end_the_answer(rt: HostRuntime) -> Result<(), Fail> {
    let mut replies = single();
    assert!(rt; gives(&mut replies, &TWO[..16], &[Reply::Message(&TWO[..16])]));
    assert!(rt; !replies.has_ended());
    assert!(rt; gives(&mut replies, &TWO[16..], &[Reply::Message(&TWO[16..])]));
    assert!(rt; replies.has_ended());
    Ok(())
}

/// An overrun, and one with another sequence number.
const OVERRUNS: [u8; 32] = [
    16, 0, 0, 0, 4, 0, 0, 0, 1, 0, 0, 0, 5, 0, 0, 0, // NLMSG_OVERRUN
    16, 0, 0, 0, 4, 0, 0, 0, 2, 0, 0, 0, 5, 0, 0, 0,
];

#[test]
fn an_overrun_does_not_end_the_answer(rt: HostRuntime) -> Result<(), Fail> {
    let mut replies = single();
    assert!(rt;
        gives(
            &mut replies,
            &OVERRUNS,
            &[Reply::Overrun, Reply::Other(&OVERRUNS[16..])]
        )
    );
    assert!(rt; !replies.has_ended());
    Ok(())
}
