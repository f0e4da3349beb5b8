//! Walking datagrams, and appending to them.

use crate::tests::calls::{is_not_appended, prints_as};
use netlink_tree::{Frames, append_frame, frames_fault};
use std::alloc::{AllocError, Global};
use std::test::Fail;

/// A frame of type 18 with 4 bytes, and one of type 4 with one byte, which lacks its padding.
const TWO: &[u8] = &[
    20, 0, 0, 0, 18, 0, 0, 0, 0, 0, 0, 0, 0, 0, 0, 0, 0, 1, 2, 3, 17, 0, 0, 0, 4, 0, 0, 0, 0, 0, 0,
    0, 0, 0, 0, 0, 0xff,
];

/// A lone header whose length field is 15.
const SHORT_LENGTH: &[u8] = &[15, 0, 0, 0, 18, 0, 0, 0, 0, 0, 0, 0, 0, 0, 0, 0];

/// 24 bytes whose length field is 40.
const CUT: &[u8] = &[
    40, 0, 0, 0, 18, 0, 0, 0, 0, 0, 0, 0, 0, 0, 0, 0, 0, 0, 0, 0, 0, 0, 0, 0,
];

#[test]
fn datagrams_are_frames_and_then_the_fault(rt: HostRuntime) -> Result<(), Fail> {
    let rows: [(&[u8], &[u8], &[usize], &[u8], &str); 7] = [
        (&[], &[], &[], &[], ""),
        (TWO, &[], &[20, 17], TWO, ""),
        (TWO, &[0, 0], &[20, 17], TWO, ""),
        (TWO, &[7, 8, 9], &[20, 17], TWO, ""),
        (
            TWO,
            &[0, 0, 0, 1],
            &[20, 17],
            TWO,
            "invalid netlink buffer length caused by invalid netlink buffer: length is 1 but netlink packets are at least 16 bytes",
        ),
        (
            &TWO[..20],
            CUT,
            &[20],
            &TWO[..20],
            "invalid netlink buffer length caused by invalid netlink buffer: length field says 40 the buffer is 24 bytes long",
        ),
        (
            SHORT_LENGTH,
            TWO,
            &[],
            &[],
            "invalid netlink buffer length caused by invalid netlink buffer: length field says 15 but netlink packets are at least 16 bytes",
        ),
    ];
    for (front, after, sizes, frames, fault) in rows {
        let datagram = joined(rt.alloc(), front, after)?;
        assert!(rt; walks_as(rt.alloc(), &datagram, sizes, frames, fault));
        assert!(rt; has_fault(rt.alloc(), &datagram, fault));
    }
    Ok(())
}

fn joined(alloc: Global, front: &[u8], after: &[u8]) -> Result<Vec<u8>, AllocError> {
    let mut datagram = Vec::from_slice(alloc, front)?;
    datagram.extend_from_slice(after)?;
    Ok(datagram)
}

/// Returns whether the error of a datagram has this text, or there is none and the text is empty.
fn has_fault(alloc: Global, datagram: &[u8], text: &str) -> bool {
    match frames_fault(datagram) {
        Some(cause) => prints_as(alloc, &cause, text),
        None => text.is_empty(),
    }
}

/// Returns whether a walk yields frames of these sizes, with these bytes one after another, and
/// then an error with this text, or the end if the text is empty.
fn walks_as(alloc: Global, datagram: &[u8], sizes: &[usize], frames: &[u8], fault: &str) -> bool {
    let mut expected = sizes.iter();
    let mut rest = frames;
    let mut is_ended_so = fault.is_empty();
    for item in Frames::new(datagram) {
        match item {
            Ok(frame) => match (expected.next(), rest_after(frame, rest)) {
                (Some(size), Some(after)) if frame.len() == *size => rest = after,
                _ => return false,
            },
            Err(cause) => is_ended_so = prints_as(alloc, &cause, fault),
        }
    }
    is_ended_so && rest.is_empty() && expected.next().is_none()
}

/// Returns what follows the frame in the bytes, if they begin with it.
fn rest_after<'a>(frame: &[u8], bytes: &'a [u8]) -> Option<&'a [u8]> {
    if bytes.get(..frame.len()) == Some(frame) {
        bytes.get(frame.len()..)
    } else {
        None
    }
}

#[test]
fn a_datagram_ends_for_good(rt: HostRuntime) {
    let mut walk = Frames::new(CUT);
    let start = walk;
    let mut again = start;
    assert!(rt; is_fault_next(&mut again));
    assert!(rt; is_fault_next(&mut walk));
    assert!(rt; is_at_end(&mut walk));
    assert!(rt; is_at_end(&mut walk));
    assert!(rt; walk == Frames::new(&[]));
    assert!(rt; start != walk);
}

/// Returns whether the walk yields an error next.
fn is_fault_next(walk: &mut Frames<&[u8]>) -> bool {
    matches!(walk.next(), Some(Err(_)))
}

/// Returns whether the walk is at its end.
fn is_at_end(walk: &mut Frames<&[u8]>) -> bool {
    walk.next().is_none()
}

#[test]
fn frames_are_appended(rt: HostRuntime) -> Result<(), Fail> {
    let first: &[u8] = &[
        20, 0, 0, 0, 18, 0, 0, 0, 0, 0, 0, 0, 0, 0, 0, 0, 0, 1, 2, 3, 0xff,
    ];
    let both: &[u8] = &[
        20, 0, 0, 0, 18, 0, 0, 0, 0, 0, 0, 0, 0, 0, 0, 0, 0, 1, 2, 3, 17, 0, 0, 0, 4, 0, 0, 0, 0,
        0, 0, 0, 0, 0, 0, 0, 0xff, 0, 0, 0,
    ];
    let mut datagram = Vec::new(rt.alloc());
    assert!(rt; append_frame(rt.alloc(), &mut datagram, first).is_ok());
    assert!(rt; datagram.as_slice() == &both[..20]);
    assert!(rt; append_frame(rt.alloc(), &mut datagram, &TWO[20..]).is_ok());
    assert!(rt; datagram.as_slice() == both);
    Ok(())
}

#[test]
fn what_is_no_frame_is_not_appended(rt: HostRuntime) -> Result<(), Fail> {
    let rows: [(&[u8], &str); 3] = [
        (
            &[40, 0, 0, 0],
            "invalid netlink buffer length caused by invalid netlink buffer: length is 4 but netlink packets are at least 16 bytes",
        ),
        (
            CUT,
            "invalid netlink buffer length caused by invalid netlink buffer: length field says 40 the buffer is 24 bytes long",
        ),
        (
            SHORT_LENGTH,
            "invalid netlink buffer length caused by invalid netlink buffer: length field says 15 but netlink packets are at least 16 bytes",
        ),
    ];
    for (frame, text) in rows {
        let mut datagram = Vec::from_slice(rt.alloc(), &[1, 2, 3, 4])?;
        assert!(rt; is_not_appended(rt.alloc(), &mut datagram, frame, text));
        assert!(rt; datagram.as_slice() == [1, 2, 3, 4].as_slice());
    }
    Ok(())
}
