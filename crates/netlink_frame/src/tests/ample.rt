//! With ample memory, `OutOfMemory` is never returned.

use crate::tests::memory_not_asked::attributes::normal_block;
use crate::tests::messages::{normal_of, read, verdict_of};
use netlink_packet_core::DecodeError;

/// Returns whether a result is `Ok` or an error other than `OutOfMemory`.
fn has_memory<T: Drop>(answer: Result<T, DecodeError>) -> bool {
    match answer {
        Ok(_) => true,
        Err(error) => !error.is_out_of_memory(),
    }
}

/// Frames of each type whose payload is copied, with payloads of 0 to 64 ones.
#[test]
fn frames_of_every_small_size(rt: HostRuntime) {
    for kind in [2u8, 3, 4, 18, 20] {
        for size in 0..=64u8 {
            let mut bytes = [1u8; 80];
            bytes[..16].fill(0);
            bytes[0] = 16 + size;
            bytes[4] = kind;
            let frame = &bytes[..16 + usize::from(size)];
            assert!(rt;
                has_memory(read(rt.alloc(), frame)),
                "type {kind} with {size} bytes"
            );
            assert!(rt;
                has_memory(normal_of(rt.alloc(), frame)),
                "type {kind} with {size} bytes"
            );
            assert!(rt;
                has_memory(verdict_of(rt.alloc(), frame)),
                "type {kind} with {size} bytes"
            );
        }
    }
}

/// Attributes with values of 0 to 64 ones.
#[test]
fn attributes_of_every_small_size(rt: HostRuntime) {
    for size in 0..=64u8 {
        let mut bytes = [1u8; 68];
        bytes[..4].copy_from_slice(&[4 + size, 0, 1, 0]);
        let block = &bytes[..4 + usize::from(size)];
        assert!(rt;
            has_memory(normal_block(rt.alloc(), block)),
            "a value of {size} bytes"
        );
    }
}
