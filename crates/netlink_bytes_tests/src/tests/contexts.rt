//! Lines before an error text, as `&str` and as `String`, added to an error and to a result.

use crate::tests::errors::{assert_error, assert_refused};
use netlink_bytes::laws::contexts_chain;
use netlink_bytes::{DecodeError, ErrorContext};
use std::alloc::{AllocError, Global};
use std::test::Fail;

const SHORT: &str = "a caused by buffer has length 1, but an NLA header is 4 bytes";

const CHAIN: &str = "b caused by a caused by c";

/// An error to which lines are added.
#[derive(Clone, Copy)]
enum Start {
    /// `Message` with the text `c`.
    C,
    /// `NlaBufferTooSmall` with 1 and 4.
    Short,
    OutOfMemory,
}

impl Start {
    fn error(self, alloc: Global) -> DecodeError {
        match self {
            Start::C => DecodeError::from_text(alloc, "c"),
            Start::Short => short(),
            Start::OutOfMemory => DecodeError::out_of_memory(),
        }
    }
}

/// Returns `NlaBufferTooSmall` with 1 and 4.
fn short() -> DecodeError {
    DecodeError::nla_buffer_too_small(1, 4)
}

/// A line, added as a `&str` or as a `String`.
#[derive(Clone, Copy)]
enum Line {
    Borrowed(&'static str),
    Owned(&'static str),
}

/// An error, the lines that are added to it in this order, and the number and the text that it then
/// has.
const LINES: [(Start, &[Line], u8, &str); 4] = [
    (
        Start::C,
        &[Line::Borrowed("a"), Line::Owned("b")],
        14,
        CHAIN,
    ),
    (Start::Short, &[Line::Borrowed("a")], 14, SHORT),
    (Start::Short, &[Line::Owned("a")], 14, SHORT),
    (
        Start::OutOfMemory,
        &[Line::Borrowed("b"), Line::Owned("a")],
        16,
        "out of memory",
    ),
];

fn owned(alloc: Global, text: &str) -> Result<String, AllocError> {
    String::from_str(alloc, text)
}

/// Adds the lines to an error or to a result.
fn with_lines<E>(alloc: Global, mut value: E, lines: &[Line]) -> Result<E, AllocError>
where
    E: ErrorContext<&'static str> + ErrorContext<String> + Drop,
{
    for line in lines {
        value = match line {
            Line::Borrowed(text) => value.context(alloc, *text),
            Line::Owned(text) => {
                let text = owned(alloc, text)?;
                value.context(alloc, text)
            }
        };
    }
    Ok(value)
}

#[test]
fn on_an_error(rt: HostRuntime) -> Result<(), Fail> {
    let alloc = rt.alloc();
    contexts_chain();
    for (start, lines, number, text) in LINES {
        let error = with_lines(alloc, start.error(alloc), lines)?;
        assert_error(&rt, alloc, &error, number, text);
    }
    Ok(())
}

#[test]
fn on_a_result(rt: HostRuntime) -> Result<(), Fail> {
    let alloc = rt.alloc();
    for (start, lines, number, text) in LINES {
        let refused: Result<u8, DecodeError> = Err(start.error(alloc));
        assert_refused(&rt, alloc, with_lines(alloc, refused, lines)?, number, text);
    }
    let fine: Result<u8, DecodeError> = Ok(7);
    assert_eq!(rt; fine.context(alloc, "a").ok(), Some(7));
    Ok(())
}

/// Adds the line by a closure. Returns the result and how often the closure was called.
fn counted<E: ErrorContext<T>, T: Drop>(alloc: Global, value: E, line: T) -> (E, u8) {
    let mut calls = 0u8;
    let value = value.with_context(alloc, || {
        calls = calls.saturating_add(1);
        line
    });
    (value, calls)
}

#[test]
fn the_closure_is_called_once(rt: HostRuntime) -> Result<(), Fail> {
    let alloc = rt.alloc();
    let (error, calls) = counted(alloc, short(), "a");
    assert_error(&rt, alloc, &error, 14, SHORT);
    assert_eq!(rt; calls, 1);
    let (error, calls) = counted(alloc, short(), owned(alloc, "a")?);
    assert_error(&rt, alloc, &error, 14, SHORT);
    assert_eq!(rt; calls, 1);
    Ok(())
}

#[test]
fn the_closure_is_called_once_at_a_result(rt: HostRuntime) -> Result<(), Fail> {
    let alloc = rt.alloc();
    let refused: Result<u8, DecodeError> = Err(short());
    let (refused, calls) = counted(alloc, refused, "a");
    assert_refused(&rt, alloc, refused, 14, SHORT);
    assert_eq!(rt; calls, 1);
    let refused: Result<u8, DecodeError> = Err(short());
    let (refused, calls) = counted(alloc, refused, owned(alloc, "a")?);
    assert_refused(&rt, alloc, refused, 14, SHORT);
    assert_eq!(rt; calls, 1);
    Ok(())
}

#[test]
fn the_closure_is_not_called(rt: HostRuntime) {
    let alloc = rt.alloc();
    let fine: Result<u8, DecodeError> = Ok(7);
    let (kept, calls) = counted(alloc, fine, "a");
    assert_eq!(rt; kept.ok(), Some(7));
    assert_eq!(rt; calls, 0);
    let (wanting, calls) = counted(alloc, DecodeError::out_of_memory(), "a");
    assert!(rt; wanting.is_out_of_memory());
    assert_eq!(rt; calls, 0);
}
