//! Truncated blocks, walked by the iterator itself.

use super::TWO;
use netlink_attributes::NlasIterator;
use netlink_bytes::DecodeError;
use std::process::Abort;

/// The number of the error that a walk ends with, and its two sizes in the order of its fields.
type Ending = (u8, usize, usize);

/// A walk without an error.
const WELL: Ending = (0, 0, 0);

/// An attribute without a value, and then a length field less than 4.
const SHORT: [u8; 9] = [4, 0, 1, 0, 3, 0, 7, 0, 0xff];

/// Kinds and values of a walk.
type Attributes = &'static [(u16, &'static [u8])];

const NONE: Attributes = &[];

const FIRST: Attributes = &[(1, &[0xaa])];

const BOTH: Attributes = &[(1, &[0xaa]), (2, &[1, 2, 3, 4])];

const EMPTY: Attributes = &[(1, &[])];

/// A test case for each prefix, from no bytes to the whole block.
const CUTS_OF_TWO: [(Attributes, Ending); 17] = [
    (NONE, WELL),
    (NONE, (5, 1, 4)),
    (NONE, (5, 2, 4)),
    (NONE, (5, 3, 4)),
    (NONE, (6, 4, 5)),
    (FIRST, WELL),
    (FIRST, WELL),
    (FIRST, WELL),
    (FIRST, WELL),
    (FIRST, (5, 1, 4)),
    (FIRST, (5, 2, 4)),
    (FIRST, (5, 3, 4)),
    (FIRST, (6, 4, 8)),
    (FIRST, (6, 5, 8)),
    (FIRST, (6, 6, 8)),
    (FIRST, (6, 7, 8)),
    (BOTH, WELL),
];

#[test]
fn each_cut_of_two_attributes(rt: HostRuntime) {
    cut_as(&rt, &TWO, &CUTS_OF_TWO);
}

/// The same for the damaged block.
const CUTS_OF_SHORT: [(Attributes, Ending); 10] = [
    (NONE, WELL),
    (NONE, (5, 1, 4)),
    (NONE, (5, 2, 4)),
    (NONE, (5, 3, 4)),
    (EMPTY, WELL),
    (EMPTY, (5, 1, 4)),
    (EMPTY, (5, 2, 4)),
    (EMPTY, (5, 3, 4)),
    (EMPTY, (7, 4, 3)),
    (EMPTY, (7, 4, 3)),
];

#[test]
fn each_cut_of_a_damaged_block(rt: HostRuntime) {
    cut_as(&rt, &SHORT, &CUTS_OF_SHORT);
}

/// Truncates the block at the index of each test case, and compares the attributes and the ending.
fn cut_as(rt: &impl Abort, block: &[u8], rows: &[(Attributes, Ending)]) {
    assert_eq!(rt; rows.len(), block.len() + 1);
    for (cut, (attributes, ending)) in rows.iter().enumerate() {
        let front = block.get(..cut).unwrap_or(&[]);
        assert!(rt;
            ended_as(front, attributes) == Some(*ending),
            "cut at {cut}"
        );
    }
}

/// Returns how the walk of the block ends, if its attributes are these.
fn ended_as(block: &[u8], attributes: Attributes) -> Option<Ending> {
    let mut expected = attributes.iter();
    let mut ending = WELL;
    for item in NlasIterator::new(block) {
        match item {
            Ok(nla) => match expected.next() {
                Some((kind, value)) if nla.raw_kind() == *kind && nla.value() == *value => {}
                _ => return None,
            },
            Err(fault) => ending = ending_of(&fault),
        }
    }
    match expected.next() {
        Some(_) => None,
        None => Some(ending),
    }
}

fn ending_of(cause: &DecodeError) -> Ending {
    let number = cause.number();
    match cause {
        DecodeError::NlaBufferTooSmall {
            buffer_len,
            nla_len,
        } => (number, *buffer_len, *nla_len),
        DecodeError::NlaLengthMismatch {
            buffer_len,
            nla_len,
        } => (number, *buffer_len, *nla_len),
        DecodeError::NlaInvalidLength {
            buffer_len,
            nla_len,
        } => (number, *buffer_len, *nla_len),
        _ => (number, 0, 0),
    }
}
