//! Bytes as hexadecimal text, against the text that is made one byte at a time.

use netlink_bytes::{hex_pair, push_hex};
use std::alloc::{AllocError, Global};
use std::test::Fail;

/// More than three times the number of bytes whose digits `push_hex` appends at a time.
const LONGEST: usize = 200;

/// The number of inputs of each size.
const INPUTS: u32 = 3;

/// A text that is there before the digits.
const FRONT: &str = "payload ";

/// Returns bytes that depend on the seed.
fn made(alloc: Global, size: usize, seed: u32) -> Result<Vec<u8>, AllocError> {
    let mut bytes = Vec::with_capacity(alloc, size)?;
    let mut number = seed;
    for _ in 0..size {
        number = number.wrapping_mul(1_664_525).wrapping_add(1_013_904_223);
        let [high, _, _, _] = number.to_be_bytes();
        bytes.push(high)?;
    }
    Ok(bytes)
}

/// Returns the text and two digits for each byte, or `-` if there are none.
fn by_pairs(alloc: Global, bytes: &[u8]) -> Result<String, AllocError> {
    let mut text = String::from_str(alloc, FRONT)?;
    for byte in bytes {
        text.push_str(hex_pair(*byte))?;
    }
    if bytes.is_empty() {
        text.push_str("-")?;
    }
    Ok(text)
}

/// Returns whether `push_hex` appends what is made by pairs.
fn is_same(alloc: Global, bytes: &[u8]) -> Result<bool, AllocError> {
    let mut text = String::from_str(alloc, FRONT)?;
    push_hex(&mut text, bytes)?;
    Ok(text.as_str() == by_pairs(alloc, bytes)?.as_str())
}

#[test]
fn each_size(rt: HostRuntime) -> Result<(), Fail> {
    let alloc = rt.alloc();
    for size in 0..LONGEST {
        for seed in 0..INPUTS {
            let bytes = made(alloc, size, seed)?;
            assert!(rt; is_same(alloc, &bytes)?, "size {size}, seed {seed}");
        }
    }
    Ok(())
}

/// Returns the bytes 0 to 255, each `count` times in a row.
fn each_byte(alloc: Global, count: usize) -> Result<Vec<u8>, AllocError> {
    let mut bytes = Vec::new(alloc);
    for byte in 0..=255u8 {
        for _ in 0..count {
            bytes.push(byte)?;
        }
    }
    Ok(bytes)
}

#[test]
fn each_value(rt: HostRuntime) -> Result<(), Fail> {
    let alloc = rt.alloc();
    for count in 1..18 {
        assert!(rt;
            is_same(alloc, &each_byte(alloc, count)?)?,
            "{count} in a row"
        );
    }
    Ok(())
}
