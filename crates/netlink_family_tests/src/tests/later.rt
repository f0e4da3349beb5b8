//! Values that are checked as attributes of a policy when that is asked.

use crate::shapes::EveryMessage;
use crate::tests::nests::message_with;
use netlink_family::{AttributeError, BlockView, Reason, TOP};
use std::test::Fail;

/// A kind without a row.
const OTHER: u16 = 50;

/// A `u16`, and a peer with a header and a `u16`.
const NEST: [u8; 24] = [
    6, 0, 3, 0, 2, 1, 0, 0, // u16
    16, 0, 16, 0, 9, 8, 7, 6, // peer, and its header
    6, 0, 3, 0, 4, 3, 0, 0, // u16 in it
];

/// What `nest_as` returns.
type Checked<'a> = Result<Option<BlockView<'a>>, AttributeError>;

/// Returns the value of a kind as attributes of `TOP`.
fn checked<'a>(message: &'a EveryMessage, kind: u16) -> Checked<'a> {
    message.view().nest_as(kind, TOP)
}

/// Returns the number in a nest, and that in its peer.
fn numbers_of(nest: Checked<'_>) -> (Option<u16>, Option<u16>) {
    match nest {
        Ok(Some(view)) => (view.u16(3), number_in(view.nest(16))),
        _ => (None, None),
    }
}

/// Returns the number in a peer.
fn number_in(peer: Option<BlockView<'_>>) -> Option<u16> {
    peer?.u16(3)
}

/// Returns whether a nest is there and has no attribute.
fn is_empty(nest: Checked<'_>) -> bool {
    match nest {
        Ok(Some(view)) => view.block.is_empty() && view.policy == TOP,
        _ => false,
    }
}

/// Returns whether there is no attribute of the kind, and so no error.
fn is_missing(nest: Checked<'_>) -> bool {
    match nest {
        Ok(None) => true,
        _ => false,
    }
}

/// Returns the error.
fn error_of(nest: Checked<'_>) -> Option<AttributeError> {
    nest.err()
}

#[test]
fn bytes_are_read_as_attributes_of_a_policy(rt: HostRuntime) -> Result<(), Fail> {
    let message = message_with(rt.alloc(), OTHER, &NEST)?;
    assert!(rt; message.view().nest(OTHER) == None);
    assert!(rt; numbers_of(checked(&message, OTHER)) == (Some(0x0102), Some(0x0304)));
    assert!(rt; is_missing(checked(&message, OTHER + 1)));
    assert!(rt; is_empty(checked(&message_with(rt.alloc(), OTHER, &[])?, OTHER)));
    Ok(())
}

#[test]
fn their_errors_have_an_offset_from_the_start_of_the_value(rt: HostRuntime) -> Result<(), Fail> {
    let alloc = rt.alloc();
    let size = Reason::WrongSize {
        kind: 3,
        expected: 2,
        received: 1,
    };
    let truncated = Reason::Truncated {
        expected: 9,
        received: 4,
    };
    let rows: [(&[u8], usize, Reason); 5] = [
        (&[5, 0, 3, 0, 1, 0, 0, 0], 0, size),
        (&[6, 0, 3, 0, 2, 1, 0, 0, 5, 0, 3, 0, 1, 0, 0, 0], 8, size),
        (&[16, 0, 16, 0, 9, 8, 7, 6, 5, 0, 3, 0, 1, 0, 0, 0], 8, size),
        (&[6, 0, 3, 0, 2, 1, 0, 0, 9, 0, 3, 0], 8, truncated),
        (&[6, 0], 0, Reason::Short { received: 2 }),
    ];
    for (value, offset, reason) in rows.iter() {
        let error = AttributeError {
            offset: *offset,
            policy: TOP,
            reason: *reason,
        };
        let message = message_with(alloc, OTHER, *value)?;
        assert!(rt; error_of(checked(&message, OTHER)) == Some(error));
    }
    Ok(())
}
