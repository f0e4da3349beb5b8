//! Dumps.

use crate::tests::captured::{ADDRESSES_0, ADDRESSES_1};
use crate::tests::helpers::{done, dump, dump_with, gives};
use netlink_replies::{Replies, Reply};
use std::test::Fail;

/// Whether reading `addresses-0` gives its seven messages.
fn gives_messages(replies: &mut Replies) -> bool {
    gives(
        replies,
        &ADDRESSES_0,
        &[
            Reply::Message(&ADDRESSES_0[0..76]),
            Reply::Message(&ADDRESSES_0[76..160]),
            Reply::Message(&ADDRESSES_0[160..240]),
            Reply::Message(&ADDRESSES_0[240..320]),
            Reply::Message(&ADDRESSES_0[320..400]),
            Reply::Message(&ADDRESSES_0[400..472]),
            Reply::Message(&ADDRESSES_0[472..552]),
        ],
    )
}

#[test]
fn a_dump_in_two_datagrams_ends_at_done(rt: HostRuntime) -> Result<(), Fail> {
    let mut replies = dump();
    assert!(rt; gives_messages(&mut replies));
    assert!(rt; !replies.has_ended());
    assert!(rt; gives(&mut replies, &ADDRESSES_1, &[done()]));
    assert!(rt; replies.has_ended());
    assert!(rt; !replies.is_interrupted());
    Ok(())
}

/// `addresses-1` with `NLM_F_DUMP_INTR`, made by hand.
const INTERRUPTED: [u8; 20] = [
    20, 0, 0, 0, 3, 0, 0x12, 0, 1, 0, 0, 0, 0x5a, 0xa3, 0x19, 0xae, 0, 0, 0, 0,
];

#[test]
fn an_interrupted_dump_says_so(rt: HostRuntime) -> Result<(), Fail> {
    let mut replies = dump();
    assert!(rt; gives_messages(&mut replies));
    assert!(rt; !replies.is_interrupted());
    assert!(rt; gives(&mut replies, &INTERRUPTED, &[done()]));
    assert!(rt; replies.is_interrupted());
    Ok(())
}

#[test]
fn the_flag_counts_only_before_the_end(rt: HostRuntime) -> Result<(), Fail> {
    let mut replies = dump();
    assert!(rt; gives(&mut replies, &ADDRESSES_1, &[done()]));
    assert!(rt; gives(&mut replies, &INTERRUPTED, &[Reply::Other(&INTERRUPTED)]));
    assert!(rt; !replies.is_interrupted());
    Ok(())
}

#[test]
fn frames_after_the_end_are_of_no_answer(rt: HostRuntime) -> Result<(), Fail> {
    let mut replies = dump();
    assert!(rt; gives(&mut replies, &ADDRESSES_1, &[done()]));
    assert!(rt; gives(&mut replies, &ADDRESSES_1, &[Reply::Other(&ADDRESSES_1)]));
    assert!(rt; replies.has_ended());
    Ok(())
}

#[test]
fn the_port_number_is_compared_unless_it_is_0(rt: HostRuntime) -> Result<(), Fail> {
    let mut same = dump_with(1, 2920915802);
    assert!(rt; gives(&mut same, &ADDRESSES_1, &[done()]));
    let mut another = dump_with(1, 7);
    assert!(rt; gives(&mut another, &ADDRESSES_1, &[Reply::Other(&ADDRESSES_1)]));
    assert!(rt; !another.has_ended());
    let mut any = dump_with(1, 0);
    assert!(rt; gives(&mut any, &ADDRESSES_1, &[done()]));
    let mut later = dump_with(2, 0);
    assert!(rt; gives(&mut later, &ADDRESSES_1, &[Reply::Other(&ADDRESSES_1)]));
    Ok(())
}

/// A message of sequence number 1 that does not have `NLM_F_MULTIPART`, and one that is a noop, with
/// another sequence number, and an acknowledgement.
const MIXED: [u8; 68] = [
    16, 0, 0, 0, 20, 0, 0, 0, 1, 0, 0, 0, 0, 0, 0, 0, // RTM_NEWADDR
    16, 0, 0, 0, 1, 0, 0, 0, 9, 0, 0, 0, 0, 0, 0, 0, // NLMSG_NOOP
    36, 0, 0, 0, 2, 0, 0, 1, 1, 0, 0, 0, 0, 0, 0, 0, // NLMSG_ERROR, NLM_F_CAPPED
    0, 0, 0, 0, 24, 0, 0, 0, 22, 0, 5, 3, 1, 0, 0, 0, 0, 0, 0, 0, // code 0, and a header
];

#[test]
fn a_dump_ends_neither_at_a_single_message_nor_at_an_acknowledgement(
    rt: HostRuntime,
) -> Result<(), Fail> {
    let mut replies = dump();
    assert!(rt;
        gives(
            &mut replies,
            &MIXED,
            &[
                Reply::Message(&MIXED[..16]),
                Reply::Acknowledged { attributes: &[] },
            ]
        )
    );
    assert!(rt; !replies.has_ended());
    Ok(())
}
