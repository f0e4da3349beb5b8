//! A code, and what follows it.

ghost use Rattle.std.specs.Prelude.{◌≡◌, ◌+◌, ◌≤◌, ◌++◌, length, OnOk};
ghost use Rattle.netlink_packet_core.specs.Payload.{code_bytes};
ghost use Rattle.netlink_packet_core.specs.Frame.{IsCodeAndRest};

use crate::constants::{CODE, CODE_SIZE};
use netlink_bytes::{i32_at, put_i32};
use std::alloc::AllocError;

/// Returns the code at the start of the bytes, and what follows it. Requires at least 4 bytes.
pub(crate) fn split_code(payload: &[u8]) -> (i32, &[u8])
    requires { 4 ≤ length payload.now }
    ensures parts { IsCodeAndRest payload.now result.0 result.1.now }
    ensures size { length payload.now ≡ 4 + length result.1.now }
{
    (i32_at(payload, CODE), &payload[CODE_SIZE..])
}

/// Writes a code, and `rest` after it. Requires that `buffer` has exactly the size of both.
#[tactic(auto, unfolding(netlink_bytes::specs::Numbers::bytes_le))]
pub(crate) fn put_code(buffer: &mut [u8], code: i32, rest: &[u8])
    requires { length buffer.old ≡ 4 + length rest.now }
    ensures { buffer.new ≡ code_bytes code ++ rest.now }
{
    put_i32(buffer, CODE, code);
    buffer[CODE_SIZE..].copy_from_slice(rest);
}

/// Appends a code, and `rest` after it, to a frame. Returns `AllocError` if an allocation fails.
#[tactic(auto, unfolding(netlink_bytes::specs::Numbers::bytes_le))]
pub(crate) fn append_code(frame: &mut Vec<u8>, code: i32, rest: &[u8]) -> Result<(), AllocError>
    ensures { OnOk result (frame.new.items ≡ frame.old.items ++ (code_bytes code ++ rest.now)) }
{
    let mut front = [0; CODE_SIZE];
    put_i32(&mut front, CODE, code);
    frame.extend_from_slice(&front)?;
    frame.extend_from_slice(rest)
}
