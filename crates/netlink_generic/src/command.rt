//! The frame of a command of any family.

ghost use Rattle.std.specs.Prelude.{◌≡◌, ◌+◌, ◌++◌, ◌∷◌, ◌<◌, ◌≤◌, ◌^◌, ◌⊎◌, [], IfErr, IfOk, length};
ghost use Rattle.netlink_packet_core.specs.Header.{header_bytes};

use crate::controller::GENL_HDRLEN;
use netlink_family::FamilyError;
use netlink_packet_core::{Emitable, NETLINK_HEADER_LEN, NetlinkHeader};
use std::alloc::Global;

/// The maximum size of the attributes of a command, in bytes.
const ATTRIBUTES_MAX: usize = u32::MAX as usize - NETLINK_HEADER_LEN - GENL_HDRLEN;

/// Returns the frame of a command of any family. The family's message type is known only at run
/// time, so the caller passes it as the header's: it is the id that `family_id` returns. The
/// header's length is ignored. `attributes` is a block, such as `write_nlas` returns; it is not
/// checked.
///
/// Returns `TooLong`, without allocating, if the length of the frame does not fit in 32 bits, and
/// `OutOfMemory` if the allocation fails.
pub fn command_frame(
    alloc: Global,
    header: NetlinkHeader,
    command: u8,
    version: u8,
    attributes: &[u8],
) -> Result<Vec<u8>, FamilyError>
    ensures frame { IfOk result (λ frame. frame.items
        ≡ header_bytes (record header { length = 20 + length attributes.now })
        ++ ((command ∷ version ∷ 0 ∷ 0 ∷ []) ++ attributes.now)) }
    ensures fits { IfOk result (λ _. 20 + length attributes.now < 2 ^ 32) }
    ensures error { IfErr result (λ e.
        ((e ≡ FamilyError.TooLong) × (2 ^ 32 ≤ 20 + length attributes.now))
        ⊎ ((e ≡ FamilyError.OutOfMemory) × (20 + length attributes.now < 2 ^ 32))) }
{
    if attributes.len() > ATTRIBUTES_MAX {
        return Err(FamilyError::TooLong);
    }
    let length = NETLINK_HEADER_LEN + GENL_HDRLEN + attributes.len();
    let mut header = header;
    header.length = length as u32;
    let mut frame = Vec::with_capacity(alloc, length)?;
    frame.extend_from_slice(&header_array(&header))?;
    frame.extend_from_slice(&[command, version, 0, 0])?;
    frame.extend_from_slice(attributes)?;
    Ok(frame)
}

/// Encodes a header.
#[tactic(auto, using(netlink_packet_core::specs::Sizes::text_sizes))]
fn header_array(header: &NetlinkHeader) -> [u8; NETLINK_HEADER_LEN]
    ensures { result ≡ header_bytes header.now }
{
    let mut bytes = [0; NETLINK_HEADER_LEN];
    header.emit(&mut bytes);
    bytes
}
