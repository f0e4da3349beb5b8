//! Copies of bytes, and a push that propagates its error.

use netlink_bytes::{DecodeError, copy_of};
use std::alloc::Global;
use std::test::Fail;

/// Returns the bytes, pushed one by one.
fn pushed(alloc: Global, bytes: &[u8]) -> Result<Vec<u8>, DecodeError> {
    let mut list = Vec::new(alloc);
    for byte in bytes {
        list.push(*byte)?;
    }
    Ok(list)
}

#[test]
fn copies(rt: HostRuntime) -> Result<(), Fail> {
    let alloc = rt.alloc();
    let rows: [&[u8]; 3] = [&[], &[0], &[1, 2, 3, 0]];
    for bytes in rows {
        assert_eq!(rt; copy_of(alloc, bytes)?.as_slice(), bytes);
        match pushed(alloc, bytes) {
            Ok(list) => assert_eq!(rt; list.as_slice(), bytes),
            Err(_) => assert!(rt; false),
        }
    }
    Ok(())
}
