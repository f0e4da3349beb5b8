//! The texts of numbers and bytes, after linux/if.h, if_arp.h and rtnetlink.h.

use crate::tests::names::all_named;
use netlink_lines::{
    Known, device_text, family_text, flags_text, hardware_text, ip_words, name_text, scope_text,
    sentence_text, state_text,
};
use std::alloc::{AllocError, Global};
use std::process::Abort;
use std::test::Fail;

/// A number or bytes, and what they are.
#[derive(Clone, Copy)]
enum Value<'a> {
    Flags(u32),
    State(u8),
    Hardware(u16),
    Family(u8),
    Scope(u8),
    Name(&'a str),
    Sentence(&'a str),
    Address(&'a [u8]),
}

/// Returns the text of a value.
fn text_of(alloc: Global, value: Value<'_>) -> Result<String, AllocError> {
    match value {
        Value::Flags(flags) => flags_text(alloc, flags),
        Value::State(state) => state_text(alloc, state),
        Value::Hardware(number) => hardware_text(alloc, number),
        Value::Family(number) => family_text(alloc, number),
        Value::Scope(number) => scope_text(alloc, number),
        Value::Name(name) => name_text(alloc, name.as_bytes()),
        Value::Sentence(sentence) => sentence_text(alloc, sentence.as_bytes()),
        Value::Address(address) => ip_words(alloc, address),
    }
}

/// Asserts that each value has its text.
fn assert_texts(
    rt: &impl Abort,
    alloc: Global,
    rows: &[(Value<'_>, &str)],
) -> Result<(), AllocError> {
    for (value, text) in rows {
        assert_eq!(rt; text_of(alloc, *value)?.as_str(), *text);
    }
    Ok(())
}

const FLAGS: [(Value<'static>, &str); 6] = [
    (Value::Flags(0), ""),
    (Value::Flags(0x1), "NO-CARRIER,UP"),
    (Value::Flags(0x40), ""),
    (Value::Flags(0x11043), "BROADCAST,MULTICAST,UP,LOWER_UP"),
    (Value::Flags(0x8008_0002), "BROADCAST,80080000"),
    (
        Value::Flags(0x7ffff),
        "LOOPBACK,BROADCAST,POINTOPOINT,MULTICAST,NOARP,ALLMULTI,PROMISC,MASTER,SLAVE,DEBUG,DYNAMIC,AUTOMEDIA,PORTSEL,NOTRAILERS,UP,LOWER_UP,DORMANT,ECHO",
    ),
];

#[test]
fn flags_have_names(rt: HostRuntime) -> Result<(), Fail> {
    assert_texts(&rt, rt.alloc(), &FLAGS)?;
    Ok(())
}

const NUMBERS: [(Value<'static>, &str); 15] = [
    (Value::State(0), "UNKNOWN"),
    (Value::State(2), "DOWN"),
    (Value::State(6), "UP"),
    (Value::State(200), "0xc8"),
    (Value::Hardware(1), "ether"),
    (Value::Hardware(772), "loopback"),
    (Value::Hardware(823), "gre6"),
    (Value::Hardware(16), "[16]"),
    (Value::Family(2), "inet"),
    (Value::Family(10), "inet6"),
    (Value::Family(3), "family 3"),
    (Value::Scope(0), "global"),
    (Value::Scope(253), "link"),
    (Value::Scope(254), "host"),
    (Value::Scope(9), "9"),
];

#[test]
fn numbers_have_names(rt: HostRuntime) -> Result<(), Fail> {
    assert_texts(&rt, rt.alloc(), &NUMBERS)?;
    Ok(())
}

/// Returns whether a link has this name in lines.
fn is_named(alloc: Global, known: &[Known], index: u32, text: &str) -> Result<bool, AllocError> {
    Ok(device_text(alloc, known, index)?.as_str() == text)
}

/// The first known link of an index has its name, and any other is `if` and its index.
#[test]
fn links_have_names(rt: HostRuntime) -> Result<(), Fail> {
    let alloc = rt.alloc();
    let known = all_named(alloc, &[(3, "eth0"), (3, "eth1"), (4, "a b")])?;
    for (index, text) in [(0, "*"), (1, "if1"), (3, "eth0"), (4, "a\\x20b")] {
        assert!(rt; is_named(alloc, &known, index, text)?, "{text}");
    }
    Ok(())
}

const BYTES: [(Value<'static>, &str); 14] = [
    (Value::Name("eth0.5"), "eth0.5"),
    (Value::Name("a\n"), "a\\x0a"),
    (Value::Name(" "), "\\x20"),
    (Value::Name("\\~\x7f\x1f"), "\\x5c~\\x7f\\x1f"),
    (Value::Name(""), ""),
    (Value::Sentence("a b~"), "a b~"),
    (Value::Sentence("a\u{e9}"), "a\\xc3\\xa9"),
    (Value::Sentence("\t\\"), "\\x09\\x5c"),
    (
        Value::Address(&[0x20, 1, 0, 0, 0, 0, 0, 0, 0, 0, 0, 0, 0, 0, 0, 0x0a]),
        "2001::a",
    ),
    (
        Value::Address(&[0, 0, 0, 0, 0, 0, 0, 0, 0, 0, 0, 0, 0, 0, 0, 0x0a]),
        "::a",
    ),
    (
        Value::Address(&[0, 0, 0, 0, 0, 0, 0, 0, 0, 0, 0, 0, 0, 1, 0, 0x0a]),
        "::0.1.0.10",
    ),
    (
        Value::Address(&[0, 0, 0, 0, 0, 0, 0, 0, 0, 0, 0xff, 0xff, 0, 1, 0, 0x0a]),
        "::ffff:0.1.0.10",
    ),
    (Value::Address(&[192, 0, 2, 1]), "192.0.2.1"),
    (Value::Address(&[1]), ""),
];

/// A byte that would break its line, and a backslash, are written as `\x` and their digits; texts
/// of addresses are those of `inet_ntop`.
#[test]
fn bytes_have_texts(rt: HostRuntime) -> Result<(), Fail> {
    assert_texts(&rt, rt.alloc(), &BYTES)?;
    Ok(())
}
