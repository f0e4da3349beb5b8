//! Truncated datagrams, and bodies that are too short.

use crate::tests::captured::{ADDRESSES_0, ADDRESSES_1};
use crate::tests::helpers::{acknowledged, dump, ends_next, fails_next, gives_next};
use netlink_packet_core::DecodeError;
use netlink_replies::Reply;
use std::test::Fail;

#[test]
fn frames_before_a_truncation_are_not_lost(rt: HostRuntime) -> Result<(), Fail> {
    let mut replies = dump();
    let cut = &ADDRESSES_0[..100];
    let mut cursor = 0;
    assert!(rt;
        gives_next(
            &mut replies,
            cut,
            &mut cursor,
            Reply::Message(&ADDRESSES_0[..76])
        )
    );
    assert!(rt; cursor == 76);
    assert!(rt;
        fails_next(
            &mut replies,
            cut,
            &mut cursor,
            DecodeError::FrameCut {
                length: 84,
                size: 24,
                inside: false,
            }
        )
    );
    assert!(rt; cursor == 100);
    assert!(rt; ends_next(&mut replies, cut, &mut cursor));
    assert!(rt; !replies.has_ended());
    Ok(())
}

#[test]
fn part_of_a_header_is_an_error(rt: HostRuntime) -> Result<(), Fail> {
    let mut replies = dump();
    let mut cursor = 0;
    assert!(rt;
        fails_next(
            &mut replies,
            &ADDRESSES_1[..15],
            &mut cursor,
            DecodeError::FrameShort {
                size: 15,
                inside: false,
            }
        )
    );
    assert!(rt; !replies.has_ended());
    Ok(())
}

/// An error message with 3 bytes, a done message with 1 byte, a length field below 16, and what
/// follows it.
const SHORT: [u8; 72] = [
    19, 0, 0, 0, 2, 0, 0, 0, 1, 0, 0, 0, 0, 0, 0, 0, 0xea, 0xff, 0xff, 0, // NLMSG_ERROR
    17, 0, 0, 0, 3, 0, 2, 0, 1, 0, 0, 0, 0, 0, 0, 0, 0, 0, 0, 0, // NLMSG_DONE
    15, 0, 0, 0, 3, 0, 2, 0, 1, 0, 0, 0, 0, 0, 0, 0, 16, 0, 0, 0, 3, 0, 2, 0, 1, 0, 0, 0, 0, 0, 0,
    0,
];

#[test]
fn short_bodies_leave_the_answer_open(rt: HostRuntime) -> Result<(), Fail> {
    let mut replies = acknowledged();
    let mut cursor = 0;
    assert!(rt;
        fails_next(
            &mut replies,
            &SHORT,
            &mut cursor,
            DecodeError::ErrorShort {
                size: 3,
                inside: true,
            }
        )
    );
    assert!(rt; cursor == 20);
    assert!(rt;
        fails_next(
            &mut replies,
            &SHORT,
            &mut cursor,
            DecodeError::DoneShort {
                size: 1,
                inside: true,
            }
        )
    );
    assert!(rt; cursor == 40);
    assert!(rt;
        fails_next(
            &mut replies,
            &SHORT,
            &mut cursor,
            DecodeError::FrameLength {
                length: 15,
                inside: false,
            }
        )
    );
    assert!(rt; cursor == 72);
    assert!(rt; !replies.has_ended());
    Ok(())
}

/// An error message and a done message without a body.
const BARE: [u8; 32] = [
    16, 0, 0, 0, 2, 0, 0, 0, 1, 0, 0, 0, 0, 0, 0, 0, // NLMSG_ERROR
    16, 0, 0, 0, 3, 0, 2, 0, 1, 0, 0, 0, 0, 0, 0, 0, // NLMSG_DONE
];

#[test]
fn a_bare_error_is_too_short_and_a_bare_done_message_has_code_0(
    rt: HostRuntime,
) -> Result<(), Fail> {
    let mut replies = dump();
    let mut cursor = 0;
    assert!(rt;
        fails_next(
            &mut replies,
            &BARE,
            &mut cursor,
            DecodeError::ErrorShort {
                size: 0,
                inside: true,
            }
        )
    );
    assert!(rt;
        gives_next(
            &mut replies,
            &BARE,
            &mut cursor,
            Reply::Done {
                code: 0,
                attributes: &[],
            }
        )
    );
    assert!(rt; replies.has_ended());
    Ok(())
}

#[test]
fn a_cursor_past_the_end_reads_nothing(rt: HostRuntime) -> Result<(), Fail> {
    let mut replies = dump();
    let mut cursor = 21;
    assert!(rt; ends_next(&mut replies, &ADDRESSES_1, &mut cursor));
    assert!(rt; cursor == 21);
    Ok(())
}
