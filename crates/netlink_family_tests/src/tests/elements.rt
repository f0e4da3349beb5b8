//! Big-endian signed numbers, and elements one after another.

use crate::shapes::EveryMessage;
use crate::tests::errors::text_of;
use crate::tests::nests::{error_of, message_with, shown};
use netlink_family::{AttributeError, FamilyError, Reason, TOP};
use std::test::Fail;

/// -300 as a big-endian `i32`.
const NUMBER: [u8; 4] = [0xff, 0xff, 0xfe, 0xd4];

/// Returns the number of a kind, and what a getter of another shape returns.
fn numbers_of(message: &EveryMessage, kind: u16) -> (Option<i32>, Option<i32>) {
    (message.view().be_i32(kind), message.view().i32(kind))
}

/// Returns how many elements a kind has, and the sum of their first bytes.
fn sums_of(message: &EveryMessage, kind: u16) -> Option<(usize, usize)> {
    let mut count = 0usize;
    let mut sum = 0usize;
    for element in message.view().elements(kind)? {
        count = count.wrapping_add(1);
        sum = sum.wrapping_add(first_of(element));
    }
    Some((count, sum))
}

/// Returns the first byte of an element of four bytes, and 100 for any other.
fn first_of(element: &[u8]) -> usize {
    match element {
        [first, _, _, _] => usize::from(*first),
        _ => 100,
    }
}

#[test]
fn signed_numbers_may_be_big_endian(rt: HostRuntime) -> Result<(), Fail> {
    let alloc = rt.alloc();
    let message = message_with(alloc, 18, &NUMBER)?;
    assert!(rt; numbers_of(&message, 18) == (Some(-300), None));
    assert!(rt; numbers_of(&message, 6) == (None, None));
    assert_eq!(rt;
        shown(alloc, &message)?.as_str(),
        "type 100\nbe_i32: -300\n"
    );
    Ok(())
}

#[test]
fn elements_are_read_one_after_another(rt: HostRuntime) -> Result<(), Fail> {
    let alloc = rt.alloc();
    let message = message_with(alloc, 19, &[1, 2, 3, 4, 5, 6, 7, 8, 9, 10, 11, 12])?;
    assert!(rt; sums_of(&message, 19) == Some((3, 15)));
    assert!(rt; sums_of(&message, 4) == None);
    assert!(rt; sums_of(&message_with(alloc, 19, &[])?, 19) == Some((0, 0)));
    assert_eq!(rt;
        shown(alloc, &message)?.as_str(),
        "type 100\npairs: 0102030405060708090a0b0c\n"
    );
    Ok(())
}

#[test]
fn other_sizes_are_errors(rt: HostRuntime) -> Result<(), Fail> {
    let rows: [(&[u8], Reason); 5] = [
        (&[7, 0, 18, 0, 1, 2, 3, 0], wrong_size(3)),
        (&[9, 0, 18, 0, 1, 2, 3, 4, 5, 0, 0, 0], wrong_size(5)),
        (&[7, 0, 19, 0, 1, 2, 3, 0], no_multiple(19, 4, 3)),
        (
            &[9, 0, 19, 0, 1, 2, 3, 4, 5, 0, 0, 0],
            no_multiple(19, 4, 5),
        ),
        (&[4, 0, 20, 0], no_multiple(20, 0, 0)),
    ];
    for (payload, reason) in rows.iter() {
        assert!(rt; error_of(*payload) == Some(invalid(*reason)));
    }
    assert_eq!(rt;
        text_of(rt.alloc(), invalid(no_multiple(19, 4, 5)))?.as_str(),
        "at byte 0, in policy 0: attribute 19 has a value of 5 bytes, no multiple of 4"
    );
    Ok(())
}

/// Returns the reason for a number with this many bytes.
fn wrong_size(received: usize) -> Reason {
    Reason::WrongSize {
        kind: 18,
        expected: 4,
        received,
    }
}

/// Returns the reason for elements with this many bytes.
fn no_multiple(kind: u16, expected: usize, received: usize) -> Reason {
    Reason::NoMultiple {
        kind,
        expected,
        received,
    }
}

/// Returns the error of the first attribute.
fn invalid(reason: Reason) -> FamilyError {
    FamilyError::InvalidAttribute(AttributeError {
        offset: 0,
        policy: TOP,
        reason,
    })
}
