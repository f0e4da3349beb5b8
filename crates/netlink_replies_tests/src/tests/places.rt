//! Where frames and values are, and states that are taken apart and resumed.

use crate::tests::captured::LINK_MTU_REFUSED_0;
use crate::tests::helpers::dump;
use netlink_replies::{ExtendedAck, Replies, Reply, Request};
use std::test::Fail;

/// A noop, a message with 1 byte of payload and its padding, a message, and 4 bytes that are no
/// frame. All have sequence number 1.
const FRAMES: [u8; 56] = [
    16, 0, 0, 0, 1, 0, 2, 0, 1, 0, 0, 0, 9, 0, 0, 0, // NLMSG_NOOP
    17, 0, 0, 0, 16, 0, 2, 0, 1, 0, 0, 0, 9, 0, 0, 0, 5, 0, 0, 0, // RTM_NEWLINK
    16, 0, 0, 0, 17, 0, 2, 0, 1, 0, 0, 0, 9, 0, 0, 0, // RTM_DELLINK
    1, 2, 3, 4,
];

/// An attribute of kind 7, two of kind 3, and 1 byte that is no attribute.
const BLOCK: [u8; 25] = [
    5, 0, 7, 0, 1, 0, 0, 0, 6, 0, 3, 0x80, 1, 2, 0, 0, 8, 0, 3, 0, 1, 2, 3, 4, 9,
];

/// Whether `next_at` returns this message, and this is where its frame starts.
fn gives_at(
    replies: &mut Replies,
    cursor: &mut usize,
    expected_start: usize,
    expected: &[u8],
) -> bool {
    let mut start = 0;
    match replies.next_at(&FRAMES, cursor, &mut start) {
        Some(Ok(Reply::Message(frame))) => start == expected_start && frame == expected,
        _ => false,
    }
}

#[test]
fn a_frame_starts_after_the_noops(rt: HostRuntime) -> Result<(), Fail> {
    let mut replies = dump();
    let mut cursor = 0;
    assert!(rt; gives_at(&mut replies, &mut cursor, 16, &FRAMES[16..33]));
    assert!(rt; cursor == 36);
    assert!(rt; gives_at(&mut replies, &mut cursor, 36, &FRAMES[36..52]));
    assert!(rt; cursor == 52);
    let mut start = 0;
    assert!(rt;
        matches!(
            replies.next_at(&FRAMES, &mut cursor, &mut start),
            Some(Err(_))
        )
    );
    assert!(rt; cursor == 56);
    assert!(rt; replies.next_at(&FRAMES, &mut cursor, &mut start).is_none());
    assert!(rt; cursor == 56);
    Ok(())
}

#[test]
fn a_value_has_a_place(rt: HostRuntime) -> Result<(), Fail> {
    let ack = ExtendedAck {
        attributes: &LINK_MTU_REFUSED_0[36..],
    };
    assert!(rt; ack.place(1) == Some((4, 33))); // NLMSGERR_ATTR_MSG
    assert!(rt; ack.place(2) == None);
    let block = ExtendedAck { attributes: &BLOCK };
    assert!(rt; block.place(7) == Some((4, 5)));
    assert!(rt; block.place(3) == Some((12, 14)));
    assert!(rt; block.place(9) == None);
    Ok(())
}

#[test]
fn a_state_is_resumed(rt: HostRuntime) -> Result<(), Fail> {
    let request = Request {
        sequence_number: 1,
        port_number: 2,
        is_dump: true,
        wants_ack: false,
    };
    assert!(rt; Replies::resume(request, false, false) == Replies::new(request));
    let ended = Replies::resume(request, true, false);
    assert!(rt; ended.has_ended() && !ended.is_interrupted() && ended.request() == request);
    let interrupted = Replies::resume(request, false, true);
    assert!(rt; !interrupted.has_ended() && interrupted.is_interrupted());
    Ok(())
}
