//! Truncated and concatenated blocks, and what `nlas` writes for them.

use crate::command::Command;
use crate::run::{Fault, run};
use crate::tests::attributes::{SHORT, TWO};
use netlink_packet_core::DecodeError;
use std::alloc::{AllocError, Global};
use std::process::Abort;
use std::test::Fail;

/// The number of the error that ends a walk, and its two sizes: `buffer_len` and `nla_len`.
pub type Ending = (u8, usize, usize);

/// A walk without an error.
pub const WELL: Ending = (0, 0, 0);

const FIRST: &str = "0001 1 aa\n";

const BOTH: &str = "0001 1 aa\n0002 4 01020304\n";

const EMPTY: &str = "0001 0 -\n";

/// Returns what `nlas` writes for a block, and how the walk ends.
pub(crate) fn nlas_of(alloc: Global, block: &[u8]) -> Result<(Vec<u8>, Ending), Fail> {
    let mut reader = block;
    let mut output = Vec::new(alloc);
    match run(alloc, Command::Nlas, &mut reader, &mut output) {
        Ok(()) => Ok((output, WELL)),
        Err(Fault::Decode(cause)) => Ok((output, ending_of(&cause))),
        Err(_) => Err(Fail::from("the run ended early")),
    }
}

/// Returns whether `nlas` writes these lines for a block, and ends so.
pub(crate) fn is_walked(
    alloc: Global,
    block: &[u8],
    lines: &str,
    ending: Ending,
) -> Result<bool, Fail> {
    let (output, ended) = nlas_of(alloc, block)?;
    Ok(output.as_slice() == lines.as_bytes() && ended == ending)
}

fn ending_of(cause: &DecodeError) -> Ending {
    match cause {
        DecodeError::NlaBufferTooSmall {
            buffer_len,
            nla_len,
        }
        | DecodeError::NlaLengthMismatch {
            buffer_len,
            nla_len,
        }
        | DecodeError::NlaInvalidLength {
            buffer_len,
            nla_len,
        } => (cause.number(), *buffer_len, *nla_len),
        _ => (cause.number(), 0, 0),
    }
}

/// The lines and the ending of each prefix of `TWO`.
const CUTS_OF_TWO: [(&str, Ending); 17] = [
    ("", WELL),
    ("", (5, 1, 4)),
    ("", (5, 2, 4)),
    ("", (5, 3, 4)),
    ("", (6, 4, 5)),
    (FIRST, WELL),
    (FIRST, WELL),
    (FIRST, WELL),
    (FIRST, WELL),
    (FIRST, (5, 1, 4)),
    (FIRST, (5, 2, 4)),
    (FIRST, (5, 3, 4)),
    (FIRST, (6, 4, 8)),
    (FIRST, (6, 5, 8)),
    (FIRST, (6, 6, 8)),
    (FIRST, (6, 7, 8)),
    (BOTH, WELL),
];

/// A test case for each prefix, from no bytes to the whole block.
#[test]
fn each_cut_of_two_attributes(rt: HostRuntime) -> Result<(), Fail> {
    cut_as(&rt, rt.alloc(), &TWO, &CUTS_OF_TWO)
}

/// The lines and the ending of each prefix of `SHORT`.
const CUTS_OF_SHORT: [(&str, Ending); 10] = [
    ("", WELL),
    ("", (5, 1, 4)),
    ("", (5, 2, 4)),
    ("", (5, 3, 4)),
    (EMPTY, WELL),
    (EMPTY, (5, 1, 4)),
    (EMPTY, (5, 2, 4)),
    (EMPTY, (5, 3, 4)),
    (EMPTY, (7, 4, 3)),
    (EMPTY, (7, 4, 3)),
];

#[test]
fn each_cut_of_a_damaged_block(rt: HostRuntime) -> Result<(), Fail> {
    cut_as(&rt, rt.alloc(), &SHORT, &CUTS_OF_SHORT)
}

/// Truncates the block to the index of each test case, and compares the lines and the ending.
fn cut_as(
    rt: &impl Abort,
    alloc: Global,
    block: &[u8],
    rows: &[(&str, Ending)],
) -> Result<(), Fail> {
    assert_eq!(rt; rows.len(), block.len() + 1);
    for (cut, (lines, ending)) in rows.iter().enumerate() {
        let front = block.get(..cut).unwrap_or(&[]);
        assert!(rt; is_walked(alloc, front, lines, *ending)?, "cut at {cut}");
    }
    Ok(())
}

/// A block, what follows it, and the lines and the ending of both.
const JOINED: [(&[u8], &[u8], &str, Ending); 2] = [
    (&[4, 0, 1, 0], &[0xff], EMPTY, (5, 1, 4)),
    (&[5, 0, 1, 0, 0xaa], &[4, 0, 2, 0], FIRST, (5, 1, 4)),
];

fn joined(alloc: Global, block: &[u8], after: &[u8]) -> Result<Vec<u8>, AllocError> {
    let mut joined = block.to_vec(alloc)?;
    joined.extend_from_slice(after)?;
    Ok(joined)
}

/// After a canonical block, the walk continues as the walk of what follows. If a block lacks
/// padding, what follows serves as its padding.
#[test]
fn joined_blocks(rt: HostRuntime) -> Result<(), Fail> {
    for (block, after, lines, ending) in JOINED {
        let block = joined(rt.alloc(), block, after)?;
        assert!(rt; is_walked(rt.alloc(), &block, lines, ending)?);
    }
    Ok(())
}
