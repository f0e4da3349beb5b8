//! Which bytes are canonical, and which are not.

use crate::ping_pong::PingPongMessage;
use crate::samples::Zeros;
use crate::tests::attributes::SHORT;
use crate::tests::lengths::{FOUR_ZEROS, counted};
use crate::tests::messages::{
    EMPTY_DONE, NOOP, PING, PLAIN_DONE, PLAIN_NOOP, REQUEST, longer, verdict_of,
};
use crate::tests::refusals::UNKNOWN;
use netlink_packet_core::laws::{cut_refused, frames_fixed, tail_ignored};
use netlink_packet_core::{DecodeError, is_canonical_frame, is_canonical_nlas};
use std::alloc::Global;
use std::test::Fail;

const BLOCKS: [(&[u8], bool); 8] = [
    (&[], true),
    (&[5, 0, 1, 0, 0xaa, 0, 0, 0], true),
    (&[4, 0, 6, 0x80], true),
    (&[4, 0, 6, 0x40], true),
    (&[4, 0, 6, 0xc0], true),
    (&[5, 0, 1, 0, 0xaa], false),
    (&[5, 0, 1, 0, 0xaa, 0, 0, 1], false),
    (&SHORT, false),
];

#[test]
fn verdicts_on_blocks(rt: HostRuntime) {
    for (block, verdict) in BLOCKS {
        assert!(rt; is_canonical_nlas(block) == verdict);
    }
}

const FRAMES: [(&[u8], bool); 7] = [
    (&PING, true),
    (&REQUEST, true),
    (&PLAIN_DONE, true),
    (&PLAIN_NOOP, true),
    (&EMPTY_DONE, false),
    (&NOOP, false),
    (&UNKNOWN, false),
];

#[test]
fn verdicts_on_frames(rt: HostRuntime) -> Result<(), Fail> {
    for (frame, verdict) in FRAMES {
        assert!(rt; verdict_of(rt.alloc(), frame)? == verdict);
    }
    assert!(rt; !verdict_of(rt.alloc(), &longer(rt.alloc(), &PING, 0xff)?)?);
    laws_of_frames();
    Ok(())
}

fn laws_of_frames() {
    cut_refused::<PingPongMessage>(&PING, 19);
    tail_ignored::<PingPongMessage>(&PING, &[0xff]);
    frames_fixed::<PingPongMessage>(&PING);
}

#[test]
fn verdicts_on_zeros(rt: HostRuntime) -> Result<(), Fail> {
    assert!(rt; zeros_verdict(rt.alloc(), &FOUR_ZEROS)?);
    assert!(rt; !zeros_verdict(rt.alloc(), &counted(4))?);
    assert!(rt; !zeros_verdict(rt.alloc(), &counted(4294967280))?);
    Ok(())
}

fn zeros_verdict(alloc: Global, frame: &[u8]) -> Result<bool, DecodeError> {
    is_canonical_frame::<Zeros>(alloc, frame)
}
