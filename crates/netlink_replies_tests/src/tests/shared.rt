//! Two requests on one socket, and notifications.

use crate::tests::helpers::{done, dump_with, gives};
use netlink_replies::{Replies, Reply};
use std::test::Fail;

/// Messages of sequence numbers 1 and 2, a notification (RTM_NEWLINK with sequence number 0), and
/// both ends.
const MIXED: [u8; 88] = [
    16, 0, 0, 0, 16, 0, 2, 0, 1, 0, 0, 0, 7, 0, 0, 0, // RTM_NEWLINK
    16, 0, 0, 0, 20, 0, 2, 0, 2, 0, 0, 0, 7, 0, 0, 0, // RTM_NEWADDR
    16, 0, 0, 0, 16, 0, 0, 0, 0, 0, 0, 0, 0, 0, 0, 0, // a notification
    20, 0, 0, 0, 3, 0, 2, 0, 1, 0, 0, 0, 7, 0, 0, 0, 0, 0, 0, 0, // NLMSG_DONE
    20, 0, 0, 0, 3, 0, 2, 0, 2, 0, 0, 0, 7, 0, 0, 0, 0, 0, 0, 0, // NLMSG_DONE
];

#[test]
fn two_requests_share_a_socket(rt: HostRuntime) -> Result<(), Fail> {
    let mut links = dump_with(1, 7);
    let mut addresses = dump_with(2, 7);
    assert!(rt;
        gives(
            &mut links,
            &MIXED,
            &[
                Reply::Message(&MIXED[..16]),
                Reply::Other(&MIXED[16..32]),
                Reply::Other(&MIXED[32..48]),
                done(),
                Reply::Other(&MIXED[68..]),
            ]
        )
    );
    assert!(rt;
        gives(
            &mut addresses,
            &MIXED,
            &[
                Reply::Other(&MIXED[..16]),
                Reply::Message(&MIXED[16..32]),
                Reply::Other(&MIXED[32..48]),
                Reply::Other(&MIXED[48..68]),
                done(),
            ]
        )
    );
    assert!(rt; links.has_ended());
    assert!(rt; addresses.has_ended());
    assert!(rt; links.request().sequence_number == 1);
    Ok(())
}

/// Takes one item of the datagram.
fn one_item(replies: &mut Replies, datagram: &[u8]) -> bool {
    replies.read(datagram).next().is_some()
}

#[test]
fn an_iterator_that_is_dropped_leaves_the_state_where_it_is(rt: HostRuntime) -> Result<(), Fail> {
    let mut links = dump_with(1, 7);
    assert!(rt; one_item(&mut links, &MIXED));
    assert!(rt; !links.has_ended());
    assert!(rt; one_item(&mut links, &MIXED[48..]));
    assert!(rt; links.has_ended());
    Ok(())
}

/// Whether `take` reads the frame as this reply.
fn takes(replies: &mut Replies, bytes: &[u8], expected: Reply<&[u8]>) -> bool {
    match replies.take(bytes) {
        Some(Ok(reply)) => reply == expected,
        _ => false,
    }
}

#[test]
fn one_frame_is_taken_at_the_start_of_the_bytes(rt: HostRuntime) -> Result<(), Fail> {
    let mut links = dump_with(1, 7);
    assert!(rt; takes(&mut links, &MIXED, Reply::Message(&MIXED[..16])));
    assert!(rt; takes(&mut links, &MIXED[48..], done()));
    assert!(rt; links.has_ended());
    Ok(())
}
