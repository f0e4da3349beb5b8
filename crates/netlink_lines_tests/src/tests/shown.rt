//! Runs over bytes, without contracts: what follows a run in a test is then proved without that of
//! `run`.

use netlink_family::Joined;
use netlink_lines::{Fault, Options, run, run_with};
use netlink_route::RouteTables;
use std::alloc::{AllocError, Global};
use std::process::Abort;

/// Returns these parts, one after another.
pub(crate) fn joined(alloc: Global, parts: &[&[u8]]) -> Result<Vec<u8>, AllocError> {
    let mut bytes = Vec::new(alloc);
    for part in parts {
        bytes.extend_from_slice(part)?;
    }
    Ok(bytes)
}

/// Returns these texts, one after another.
pub(crate) fn joined_text(alloc: Global, parts: &[&str]) -> Result<String, AllocError> {
    let mut text = String::new(alloc);
    for part in parts {
        text.push_str(part)?;
    }
    Ok(text)
}

/// Appends the lines of these bytes to the output, and returns how the run ended.
pub(crate) fn push_lines(alloc: Global, input: &[u8], output: &mut Vec<u8>) -> Result<(), Fault> {
    let mut reader = input;
    run::<Joined<RouteTables>, _, _>(alloc, &mut reader, output)
}

/// Returns the lines of these bytes, and how the run ended.
pub(crate) fn shown(alloc: Global, input: &[u8]) -> (Vec<u8>, Result<(), Fault>) {
    let mut output = Vec::new(alloc);
    let ended = push_lines(alloc, input, &mut output);
    (output, ended)
}

/// Returns the lines of these bytes with these options, and how the run ended.
pub(crate) fn shown_with(
    alloc: Global,
    options: Options,
    input: &[u8],
) -> (Vec<u8>, Result<(), Fault>) {
    let mut reader = input;
    let mut output = Vec::new(alloc);
    let ended = run_with::<Joined<RouteTables>, _, _>(alloc, options, &mut reader, &mut output);
    (output, ended)
}

/// Returns whether a run ended with an error that prints as this text.
pub(crate) fn ends_with(
    alloc: Global,
    ended: Result<(), Fault>,
    text: &str,
) -> Result<bool, AllocError> {
    match ended {
        Err(fault) => Ok(fault.to_string(alloc)?.as_str() == text),
        Ok(()) => Ok(false),
    }
}

/// Asserts that these bytes have these lines, and that the run ends like this.
pub(crate) fn assert_run(
    rt: &impl Abort,
    alloc: Global,
    input: &[u8],
    lines: &str,
    expected: Result<(), Fault>,
) {
    let (output, ended) = shown(alloc, input);
    assert!(rt; ended == expected);
    assert_eq!(rt; output.as_slice(), lines.as_bytes());
}

/// Asserts that each message has these lines.
pub(crate) fn assert_lines(rt: &impl Abort, alloc: Global, rows: &[(&[u8], &str)]) {
    for (message, lines) in rows {
        assert_run(rt, alloc, message, lines, Ok(()));
    }
}
