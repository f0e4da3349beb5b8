//! What is canonical.

use netlink_attributes::{is_canonical_nlas, is_zero_padded};

/// Blocks, and whether they are canonical.
const BLOCKS: [(&[u8], bool); 10] = [
    (&[], true),
    (&[5, 0, 1, 0, 0xaa, 0, 0, 0], true),
    (&[4, 0, 6, 0x80], true),
    (&[4, 0, 6, 0x40], true),
    (&[4, 0, 6, 0xc0], true),
    (&[5, 0, 1, 0, 0xaa, 0, 0, 0, 8, 0, 2, 0, 1, 2, 3, 4], true),
    (&[5, 0, 1, 0, 0xaa], false),
    (&[5, 0, 1, 0, 0xaa, 0, 0, 1], false),
    (&[4, 0, 1, 0, 3, 0, 7, 0, 0xff], false),
    (&[4, 0, 1, 0, 0xff], false),
];

#[test]
fn a_canonical_block_has_whole_padding_of_zeros(rt: HostRuntime) {
    for (block, canonical) in BLOCKS {
        assert!(rt; is_canonical_nlas(block) == canonical);
    }
}

/// Bytes, how many of them come before the padding, and whether the padding is whole and has only zeros.
const PADDED: [(&[u8], u16, bool); 8] = [
    (&[], 0, true),
    (&[1, 2, 3, 4], 4, true),
    (&[9, 0, 0, 0], 1, true),
    (&[9, 0, 0, 0, 7], 1, true),
    (&[9, 8, 7, 0], 3, true),
    (&[9, 0, 1, 0], 1, false),
    (&[9, 8, 7, 0xff], 3, false),
    (&[9, 0, 0], 1, false),
];

/// Returns whether zeros follow the first `size` bytes, and `None` if there are fewer bytes.
fn zeros_follow(bytes: &[u8], size: u16) -> Option<bool> {
    let size = size as usize;
    if size > bytes.len() {
        return None;
    }
    Some(is_zero_padded(bytes, size))
}

#[test]
fn padding_goes_up_to_a_multiple_of_4(rt: HostRuntime) {
    for (bytes, size, padded) in PADDED {
        assert!(rt; zeros_follow(bytes, size) == Some(padded));
    }
}
