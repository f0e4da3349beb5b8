//! Nests after a header.

use crate::shapes::{EVERY, Every, EveryMessage, PEER_INDEX};
use netlink_family::{
    AttributeError, BlockView, FamilyError, MessageView, OwnedMessage, Reason, TOP, Value,
};
use std::alloc::{AllocError, Global};
use std::test::Fail;

const PEER: [u8; 24] = [
    24, 0, 16, 0, 9, 8, 7, 6, // peer, and its header
    6, 0, 3, 0, 2, 1, 0, 0, // u16
    8, 0, 16, 0, 5, 4, 3, 2, // a peer in it, with a header only
];

/// Returns a message with one attribute.
pub(super) fn message_with(
    alloc: Global,
    kind: u16,
    value: &[u8],
) -> Result<EveryMessage, FamilyError> {
    let mut message: EveryMessage = OwnedMessage::new(alloc, EVERY)?;
    message.try_push(alloc, kind, value)?;
    Ok(message)
}

/// Returns a message as text.
pub(super) fn shown(alloc: Global, message: &EveryMessage) -> Result<String, AllocError> {
    message.message_view().show(alloc)
}

/// Returns the error of a payload.
pub(super) fn error_of(payload: &[u8]) -> Option<FamilyError> {
    MessageView::<Every>::new(EVERY, payload).err()
}

/// Returns the index in the header of a peer.
fn index_of(message: &EveryMessage) -> Option<u32> {
    let header = message.view().nest_header(16)?;
    Some(header.u32(PEER_INDEX))
}

/// Returns a view of a peer.
fn peer_of<'a>(message: &'a EveryMessage) -> Option<BlockView<'a>> {
    message.view().nest(16)
}

/// Returns the number in a peer, and whether the number is a nest after a header.
fn number_of(peer: BlockView<'_>) -> (Option<u16>, bool) {
    (peer.u16(3), peer.nest_header(3) != None)
}

/// Returns the header and the attributes of a peer as a value.
fn parts_of<'a>(message: &'a EveryMessage) -> Option<(&'a [u8], &'a [u8])> {
    match message.view().value(16) {
        Some(Value::HeaderNested(header, peer)) => Some((header.bytes, peer.block)),
        _ => None,
    }
}

#[test]
fn nests_may_follow_a_header(rt: HostRuntime) -> Result<(), Fail> {
    let alloc = rt.alloc();
    let message = message_with(alloc, 16, &PEER[4..])?;
    assert!(rt; message.bytes.as_slice() == PEER.as_slice());
    assert!(rt; index_of(&message) == Some(0x06070809));
    match peer_of(&message) {
        Some(peer) => assert!(rt; number_of(peer) == (Some(0x0102), false)),
        None => assert!(rt; false),
    }
    assert!(rt; parts_of(&message) == Some(([9, 8, 7, 6].as_slice(), &PEER[8..])));
    assert_eq!(rt;
        shown(alloc, &message)?.as_str(),
        "type 100\npeer: 09080706\n  u16: 258\n  peer: 05040302\n"
    );
    Ok(())
}

#[test]
fn errors_in_nests_after_a_header_have_their_offset(rt: HostRuntime) -> Result<(), Fail> {
    let nine = [
        72, 0, 16, 0, 0, 0, 0, 0, 64, 0, 16, 0, 0, 0, 0, 0, 56, 0, 16, 0, 0, 0, 0, 0, //
        48, 0, 16, 0, 0, 0, 0, 0, 40, 0, 16, 0, 0, 0, 0, 0, 32, 0, 16, 0, 0, 0, 0, 0, //
        24, 0, 16, 0, 0, 0, 0, 0, 16, 0, 16, 0, 0, 0, 0, 0, 8, 0, 16, 0, 0, 0, 0, 0,
    ];
    let short = Reason::TooSmall {
        kind: 16,
        expected: 4,
        received: 2,
    };
    let size = Reason::WrongSize {
        kind: 3,
        expected: 2,
        received: 1,
    };
    let truncated = Reason::Truncated {
        expected: 9,
        received: 4,
    };
    let rows: [(&[u8], usize, Reason); 5] = [
        (&[6, 0, 16, 0, 1, 2, 0, 0], 0, short),
        (
            &[14, 0, 16, 0, 9, 8, 7, 6, 6, 0, 16, 0, 1, 2, 0, 0],
            8,
            short,
        ),
        (&[16, 0, 16, 0, 9, 8, 7, 6, 5, 0, 3, 0, 1, 0, 0, 0], 8, size),
        (&[12, 0, 16, 0, 9, 8, 7, 6, 9, 0, 3, 0], 8, truncated),
        (&nine, 64, Reason::TooDeep { kind: 16 }),
    ];
    for (payload, offset, reason) in rows.iter() {
        let error = AttributeError {
            offset: *offset,
            policy: TOP,
            reason: *reason,
        };
        assert!(rt; error_of(payload) == Some(FamilyError::InvalidAttribute(error)));
    }
    Ok(())
}
