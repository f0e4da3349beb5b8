//! The bytes of made messages.

use std::alloc::AllocError;

/// Appends an attribute with its padding.
pub(crate) fn put_attr(block: &mut Vec<u8>, kind: u16, value: &[u8]) -> Result<(), AllocError> {
    let length = u16::try_from(value.len().saturating_add(4)).unwrap_or(4);
    block.extend_from_slice(&length.to_le_bytes())?;
    block.extend_from_slice(&kind.to_le_bytes())?;
    block.extend_from_slice(value)?;
    match value.len() % 4 {
        1 => block.extend_from_slice(&[0; 3]),
        2 => block.extend_from_slice(&[0; 2]),
        3 => block.extend_from_slice(&[0; 1]),
        _ => Ok(()),
    }
}

/// Appends a message with this payload, whose size is a multiple of 4.
pub(crate) fn put_message(
    out: &mut Vec<u8>,
    message_type: u16,
    sequence: u32,
    payload: &[u8],
) -> Result<(), AllocError> {
    let length = u32::try_from(payload.len().saturating_add(16)).unwrap_or(16);
    out.extend_from_slice(&length.to_le_bytes())?;
    out.extend_from_slice(&message_type.to_le_bytes())?;
    out.extend_from_slice(&2u16.to_le_bytes())?;
    out.extend_from_slice(&sequence.to_le_bytes())?;
    out.extend_from_slice(&0u32.to_le_bytes())?;
    out.extend_from_slice(payload)
}

/// Overwrites four bytes, if they are there.
pub(crate) fn set_u32(bytes: &mut [u8], at: usize, number: u32) {
    if let Some(rest) = bytes.get_mut(at..) {
        if let [a, b, c, d, ..] = rest {
            let [w, x, y, z] = number.to_le_bytes();
            *a = w;
            *b = x;
            *c = y;
            *d = z;
        }
    }
}

/// Returns two bytes as a number; 0 if they are not there.
pub(crate) fn u16_of(bytes: &[u8], at: usize) -> u16 {
    match bytes.get(at..) {
        Some([a, b, ..]) => u16::from_le_bytes([*a, *b]),
        _ => 0,
    }
}
