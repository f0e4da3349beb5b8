//! Texts of values (RFC 8259).

use netlink_json::Object;
use std::alloc::Global;
use std::process::Abort;

/// Returns the object with a string of these bytes.
fn text_of(alloc: Global, bytes: &[u8]) -> Result<String, std::alloc::AllocError> {
    let mut object = Object::new(alloc);
    object.put_text(alloc, "k", bytes)?;
    object.into_text(alloc)
}

/// Strings, and their objects.
const TEXTS: [(&[u8], &str); 7] = [
    (b"", "{\"k\":\"\"}"),
    (b"eth0", "{\"k\":\"eth0\"}"),
    (b"a\"b\\c", "{\"k\":\"a\\\"b\\\\c\"}"),
    (b"\x00\x1f \x7f", "{\"k\":\"\\u0000\\u001f \\u007f\"}"),
    (b"caf\xc3\xa9", "{\"k\":\"caf\u{e9}\"}"),
    (
        b"caf\xe9",
        "{\"k\":\"caf\\u00e9\",\"raw\":{\"k\":\"636166e9\"}}",
    ),
    (
        b"\xc3\xa9\xff",
        "{\"k\":\"\\u00c3\\u00a9\\u00ff\",\"raw\":{\"k\":\"c3a9ff\"}}",
    ),
];

#[test]
fn strings(rt: HostRuntime) {
    for (bytes, text) in &TEXTS {
        match text_of(rt.alloc(), *bytes) {
            Ok(found) => assert_eq!(rt; found.as_str(), *text),
            Err(_) => panic!(rt; "out of memory"),
        }
    }
}

/// Returns the object with a number of these hundredths.
fn number_text(alloc: Global, hundredths: u64) -> Result<String, std::alloc::AllocError> {
    let mut object = Object::new(alloc);
    object.put_hundredths("k", hundredths)?;
    object.into_text(alloc)
}

/// Numbers of hundredths, and their objects.
const NUMBERS: [(u64, &str); 9] = [
    (0, "{\"k\":0}"),
    (5, "{\"k\":0.05}"),
    (10, "{\"k\":0.1}"),
    (99, "{\"k\":0.99}"),
    (100, "{\"k\":1}"),
    (123, "{\"k\":1.23}"),
    (150, "{\"k\":1.5}"),
    (12000, "{\"k\":120}"),
    (u64::MAX, "{\"k\":184467440737095516.15}"),
];

#[test]
fn numbers(rt: HostRuntime) {
    for (hundredths, text) in &NUMBERS {
        match number_text(rt.alloc(), *hundredths) {
            Ok(found) => assert_eq!(rt; found.as_str(), *text),
            Err(_) => panic!(rt; "out of memory"),
        }
    }
}
